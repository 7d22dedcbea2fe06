ghost use Rattle.std.specs.Prelude.{◌≡◌, ◌≤◌, ◌<◌, ◌+◌, ◌^◌, ◌∷◌, [], length};
ghost use Rattle.sqe_cqe.specs.Fields.{spelled};
ghost use Rattle.look_pages.specs.Pages.{Emits};

// Adds one byte.
#[tactic(auto, using(crate::proofs::Parts::emits_outside, crate::proofs::Parts::emits_inside))]
fn emit_byte(to: &mut [u8], offset: u64, at: u64, x: u8)
    ensures { Emits offset at to.old to.new (x ∷ []) }
{
    if at < offset || at - offset >= to.len() as u64 {
        return;
    }
    to[(at - offset) as usize] = x;
}

/// Adds bytes at a position of a page, of which `to` shows the part from an offset on. What lies
/// outside that part is passed over.
pub fn emit(to: &mut [u8], offset: u64, at: u64, bytes: &[u8])
    requires { at + length bytes.now < 2 ^ 62 }
    ensures { Emits offset at to.old to.new bytes.now }
{
    for (i, x) in bytes.iter().enumerate() {
        emit_byte(to, offset, at + i as u64, *x);
    }
}

/// Adds a little-endian number of four bytes.
pub fn emit_word(to: &mut [u8], offset: u64, at: u64, value: u32)
    requires { at < 2 ^ 60 }
    ensures { Emits offset at to.old to.new (spelled 4 value) }
{
    let [a, b, c, d] = value.to_le_bytes();
    emit(to, offset, at, &[a, b, c, d]);
}
