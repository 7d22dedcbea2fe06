ghost use Rattle.std.specs.Prelude.{◌≡◌, ◌≤◌, ◌+◌, ◌∷◌, [], length};
ghost use Rattle.sqe_cqe.specs.Fields.{spelled};
ghost use Rattle.look_pages.specs.Pages.{put_at, zeros};

/// Puts bytes at an offset of a page, counted from 0.
#[tactic(auto, unfolding(crate::specs::Pages::put_at))]
pub fn put(page: &mut [u8], at: usize, bytes: &[u8])
    requires { at + length bytes.now ≤ length page.old }
    ensures { page.new ≡ put_at at bytes.now page.old }
{
    page[at..at + bytes.len()].copy_from_slice(bytes);
}

/// Puts a field of one byte.
pub fn put_byte(page: &mut [u8], at: usize, value: u8)
    requires { at + 1 ≤ length page.old }
    ensures { page.new ≡ put_at at (spelled 1 value) page.old }
{
    put(page, at, &[value]);
}

/// Puts a little-endian field of two bytes.
pub fn put_half(page: &mut [u8], at: usize, value: u16)
    requires { at + 2 ≤ length page.old }
    ensures { page.new ≡ put_at at (spelled 2 value) page.old }
{
    let [a, b] = value.to_le_bytes();
    put(page, at, &[a, b]);
}

/// Puts a little-endian field of four bytes.
pub fn put_word(page: &mut [u8], at: usize, value: u32)
    requires { at + 4 ≤ length page.old }
    ensures { page.new ≡ put_at at (spelled 4 value) page.old }
{
    let [a, b, c, d] = value.to_le_bytes();
    put(page, at, &[a, b, c, d]);
}

/// Puts a little-endian field of eight bytes.
pub fn put_long(page: &mut [u8], at: usize, value: u64)
    requires { at + 8 ≤ length page.old }
    ensures { page.new ≡ put_at at (spelled 8 value) page.old }
{
    let [a, b, c, d, e, f, g, h] = value.to_le_bytes();
    put(page, at, &[a, b, c, d, e, f, g, h]);
}

/// Makes all bytes zero.
#[tactic(auto, unfolding(crate::specs::Pages::zeros))]
pub fn clear(to: &mut [u8])
    ensures { to.new ≡ zeros (length to.old) }
{
    to.fill(0);
}
