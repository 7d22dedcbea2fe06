// Texts cut at a byte.
ghost use Rattle.std.specs.Prelude.{◌≡◌, ◌<◌, ◌∷◌, ◌==◌, [], MatchOption, length, position};
ghost use Rattle.std.specs.List.{slice_split};

// Where the first such byte stands.
fn first_of(byte: u8, text: &[u8]) -> Option<usize>
    ensures { result ≡ position (λ b. b == byte) text.now }
{
    text.iter().position(|b| *b == byte)
}

/// What stands before the first such byte of a text, and what stands after it. None where no such byte is there; then the
/// first part is the whole text.
#[tactic(auto, using(crate::proofs::Cutting::cut_none))]
pub fn cut_at(byte: u8, text: &[u8]) -> (&[u8], Option<&[u8]>)
    ensures parts { MatchOption result.1
        (slice_split (λ b. b == byte) text.now ≡ result.0.now ∷ [])
        (λ rest. slice_split (λ b. b == byte) text.now
        ≡ result.0.now ∷ slice_split (λ b. b == byte) rest.now) }
    ensures shorter { MatchOption result.1
        (result.0.now ≡ text.now)
        (λ rest. length rest.now < length text.now) }
{
    match first_of(byte, text) {
        Some(end) => (&text[..end], Some(&text[end + 1..])),
        None => (text, None),
    }
}
