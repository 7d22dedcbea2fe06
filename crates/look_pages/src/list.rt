ghost use Rattle.std.specs.Prelude.{◌≡◌, ◌≤◌, ◌+◌, length};
ghost use Rattle.sqe_cqe.specs.Answers.{view_of};
ghost use Rattle.look_pages.specs.Chosen.{is_chosen, chosen_nsids};

use sqe_cqe::{Bound, Look, Seen};

/// Which NSIDs of a queue's subsystem a page lists.
#[derive(Clone, Copy, Debug, PartialEq, Eq)]
pub enum Choice {
    /// Those whose last namespace change has a serial above this one.
    Changed(u32),
    /// Those that are enabled and above this NSID.
    Enabled(u32),
    /// Those that are enabled and in this ANA group.
    InGroup(u32),
}

/// Whether a page lists this NSID.
pub fn chosen<L: Look>(choice: Choice, b: &Bound, nsid: u32, look: &mut L) -> bool
    ensures value { let v = view_of (L.told (L.behind look.old)) b.now in
        result ≡ is_chosen choice v nsid }
    ensures behind { L.behind look.new ≡ L.behind look.old }
{
    match choice {
        Choice::Changed(after) => look.ns_stamp(b.sub, nsid) > after,
        Choice::Enabled(above) => match look.ns(b.sub, nsid) {
            Seen::On(_) => nsid > above,
            _ => false,
        },
        Choice::InGroup(group) => match look.ns(b.sub, nsid) {
            Seen::On(row) => u32::from(row.group) == group,
            _ => false,
        },
    }
}

/// How many NSIDs a page lists. It walks all NSIDs that the look offers, once.
pub fn count_chosen<L: Look>(choice: Choice, b: &Bound, look: &mut L) -> u32
    ensures value { let v = view_of (L.told (L.behind look.old)) b.now in
        result ≡ length (chosen_nsids choice v) }
    ensures behind { L.behind look.new ≡ L.behind look.old }
{
    let offers = look.offers();
    let mut count = 0;
    for at in 0..offers.nsids {
        if chosen(choice, b, at + 1, look) {
            count += 1;
        }
    }
    count
}
