// What both kinds of files keep of their calls: a count of faults, and the last call.
ghost use Rattle.std.specs.Prelude.{◌≡◌};
ghost use Rattle.run_outside.specs.Outside.{next_count, rose};
ghost use Rattle.run_outside.specs.Kept.{IsKept};

/// The last call on files, kept without memory.
#[derive(Clone, Copy, Debug)]
pub struct KeptCall {
    wrote: bool,
    name: [u8; 255],
    len: usize,
    rose: bool,
}

// Keeps a call, with the first 255 bytes of its name.
pub(crate) fn keep_call(wrote: bool, name: &[u8], rose: bool) -> KeptCall
    ensures { IsKept result wrote name.now rose }
{
    let mut front = [0; 255];
    let len = 255usize.min(name.len());
    front[..len].copy_from_slice(&name[..len]);
    KeptCall {
        wrote,
        name: front,
        len,
        rose,
    }
}

// Counts one more; a count stands still at its type's end.
pub(crate) fn raise_count(count: u64) -> u64
    ensures { result ≡ next_count count }
{
    count.saturating_add(1)
}

// Whether a count rose, or stands at its end.
pub(crate) fn has_risen(before: u64, now: u64) -> bool
    ensures { result ≡ rose before now }
{
    before.saturating_add(1) <= now
}
