// Names in the fields of Connect data.
ghost use Rattle.std.specs.Prelude.{◌≡◌, ◌==◌, ◌<◌, MatchOption, None, Some, IfSome, length, position};
ghost use Rattle.fabrics_connect.specs.Names.{name_in, name_or_none, same_name, kept_name};
ghost use Rattle.std.specs.Option.{option_copied};

use sqe_cqe::put_text;

fn end_of(field: &[u8]) -> Option<usize>
    ensures { result ≡ position (λ b. b == 0) field.now }
{
    field.iter().position(|b| *b == 0)
}

// The name in a field, or `None` where it names nothing.
fn name_of(field: &[u8; 256]) -> Option<&[u8]>
    ensures is { option_copied result ≡ name_in field.now }
    ensures short { IfSome result (λ name. length name.now < 256) }
{
    match end_of(field) {
        Some(end) => Some(&field[..end]),
        None => None,
    }
}

// The name in a field, or no bytes.
pub(crate) fn name_or_empty(field: &[u8; 256]) -> &[u8]
    ensures { result.now ≡ name_or_none field.now }
{
    match name_of(field) {
        Some(name) => name,
        None => &[],
    }
}

// Whether both fields name something, and the same.
pub(crate) fn are_one_name(x: &[u8; 256], y: &[u8; 256]) -> bool
    ensures { result ≡ same_name x.now y.now }
{
    match (name_of(x), name_of(y)) {
        (Some(x), Some(y)) => x == y,
        _ => false,
    }
}

// A field as a controller keeps it: zeros after the name.
pub(crate) fn kept(field: &[u8; 256]) -> [u8; 256]
    ensures { result ≡ kept_name field.now }
{
    match name_of(field) {
        Some(name) => {
            let mut kept = [0; 256];
            put_text(&mut kept, name, 0);
            kept
        }
        None => *field,
    }
}
