// Pieces of slices, copied, zeroed and lent.
ghost use Rattle.std.specs.Prelude.{◌≡◌, ◌≤◌, ◌+◌, ◌++◌, length, take, drop, replicate};
ghost use Rattle.mem_bdev.specs.Texts.{overwritten};

// Copies from a place in `bytes`.
pub(crate) fn copy_out(bytes: &[u8], start: usize, to: &mut [u8])
    requires { start + length to.old ≤ length bytes.now }
    ensures { to.new ≡ take (length to.old) (drop start bytes.now) }
{
    let end = start + to.len();
    to.copy_from_slice(&bytes[start..end]);
}

// Lends so many bytes from a place on.
#[inline(always)]
pub(crate) fn piece(bytes: &[u8], start: usize, len: usize) -> &[u8]
    requires { start + len ≤ length bytes.now }
    ensures value { result.now ≡ take len (drop start bytes.now) }
    ensures len { length result.now ≡ len }
{
    &bytes[start..start + len]
}

// Copies to a place in `bytes`.
#[inline(always)]
pub(crate) fn copy_in(bytes: &mut [u8], start: usize, from: &[u8])
    requires { start + length from.now ≤ length bytes.old }
    ensures { bytes.new ≡ overwritten bytes.old start from.now }
{
    let end = start + from.len();
    bytes[start..end].copy_from_slice(from);
}

// Zeroes bytes from a place on.
pub(crate) fn zero_at(bytes: &mut [u8], start: usize, count: usize)
    requires { start + count ≤ length bytes.old }
    ensures { bytes.new ≡ take start bytes.old ++ (replicate count 0 ++ drop count (drop start bytes.old)) }
{
    bytes[start..start + count].fill(0);
}
