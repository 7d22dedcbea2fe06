// Texts cut into lines.
ghost use Rattle.std.specs.Prelude.{◌≡◌, ◌<◌, ◌∷◌, length};
ghost use Rattle.text_lines.specs.Lines.{is_passed_over, lines_of};

use crate::cuts::cut_at;

/// The first line of a text, without its end, and what follows it.
pub fn cut_line(bytes: &[u8]) -> (&[u8], &[u8])
    requires { 0 < length bytes.now }
    ensures line { lines_of bytes.now ≡ result.0.now ∷ lines_of result.1.now }
    ensures shorter { length result.1.now < length bytes.now }
{
    let (line, rest) = cut_at(b'\n', bytes);
    match rest {
        Some(rest) => (line, rest),
        None => (bytes, &[]),
    }
}

/// Whether a line is empty or a comment, which begins with `#`.
pub fn is_passed_over(line: &[u8]) -> bool
    ensures { result ≡ is_passed_over line.now }
{
    match line {
        [] => true,
        [first, ..] => *first == b'#',
    }
}
