ghost use Rattle.std.specs.Prelude.{◌≡◌, ◌≤◌, ◌<◌, ◌+◌, ◌*◌, ◌-◌, ◌^◌, ℕ, List, length, slice_index, slice_set};
ghost use Rattle.sqe_cqe.specs.declared.rows.TheConstants.{MAX_NSID};
ghost use Rattle.sqe_cqe.specs.Answers.{view_of};
ghost use Rattle.look_pages.specs.Pages.{Emits, words};
ghost use Rattle.ana_groups.specs.Chains.{AreAbove, AreMembers, Holds, IsWithin};

use look_pages::emit_word;
use sqe_cqe::{Bound, Look, MAX_NSID, Seen};

/// The highest ANA group (ANAGRPMAX), counted from 1.
pub const GROUPS: u32 = 128;

// The numbers of groups, from 0 on, and those of NSIDs.
const GROUP_NUMBERS: usize = 129;

const NSID_NUMBERS: usize = 2049;

/// The enabled namespaces of a queue's subsystem by ANA group: for each group a chain of NSIDs.
#[derive(Drop)]
pub struct Members {
    /// How many NSIDs are in a group, by its number.
    pub counts: [u32; GROUP_NUMBERS],
    /// The lowest NSID of a group, by its number, or 0.
    pub first: [u16; GROUP_NUMBERS],
    /// The next higher NSID of the same group, by NSID, or 0.
    pub next: [u16; NSID_NUMBERS],
}

// Puts an NSID in front of its group's chain.
fn link(members: &mut Members, group: u8, nsid: u32)
    requires group { group ≤ 128 }
    requires nsid { nsid ≤ MAX_NSID }
    requires few { slice_index members.old.counts group < 2 ^ 32 - 1 }
    ensures next { members.new.next
        ≡ slice_set members.old.next nsid (slice_index members.old.first group) }
    ensures first { members.new.first ≡ slice_set members.old.first group nsid }
    ensures counts { members.new.counts
        ≡ slice_set members.old.counts group (slice_index members.old.counts group + 1) }
{
    let at = usize::from(group);
    members.next[nsid as usize] = members.first[at];
    members.first[at] = nsid as u16;
    members.counts[at] += 1;
}

// Links the NSID above `low` where it is enabled. All higher ones were looked at before.
fn link_enabled<L: Look>(b: &Bound, low: u32, members: &mut Members, look: &mut L)
    requires low { low < MAX_NSID }
    requires few { (g : ℕ) → g ≤ 128 → slice_index members.old.counts g < 2 ^ 32 - 1 }
    ensures above { let v = view_of (L.told (L.behind look.old)) b.now in
        (count : ℕ) → AreAbove v (low + 1) count members.old
        → AreAbove v low (count + 1) members.new }
    ensures behind { L.behind look.new ≡ L.behind look.old }
{
    if let Seen::On(row) = look.ns(b.sub, low + 1) {
        link(members, row.group, low + 1);
    }
}

/// The enabled namespaces of a queue's subsystem by ANA group. It walks all NSIDs that the look
/// offers, once, from the highest to the lowest.
pub fn find_members<L: Look>(b: &Bound, look: &mut L) -> Members
    ensures value { AreMembers (view_of (L.told (L.behind look.old)) b.now) result }
    ensures behind { L.behind look.new ≡ L.behind look.old }
{
    let offers = look.offers();
    let mut members = Members {
        counts: [0; GROUP_NUMBERS],
        first: [0; GROUP_NUMBERS],
        next: [0; NSID_NUMBERS],
    };
    for i in 0..offers.nsids {
        link_enabled(b, offers.nsids - 1 - i, &mut members, look);
    }
    members
}

// The next higher NSID of the same group, or 0.
fn next_after(members: &Members, nsid: u16) -> u16
    requires { nsid ≤ MAX_NSID }
    ensures { result ≡ slice_index members.now.next nsid }
{
    members.next[usize::from(nsid)]
}

/// Adds the NSIDs of a group, four bytes each, at a position of a page of which `to` shows the part
/// from an offset on. Tells where the page goes on.
pub fn emit_members(members: &Members, group: u32, offset: u64, at: u64, to: &mut [u8]) -> u64
    requires group { group ≤ GROUPS }
    requires within { IsWithin members.now }
    requires place { at < 2 ^ 50 }
    ensures emits { (list : List ℕ) → Holds members.now group list
        → Emits offset at to.old to.new (words list) }
    ensures at { result ≡ at + 4 * slice_index members.now.counts group }
{
    let mut nsid = members.first[group as usize];
    let mut place = at;
    for _i in 0..members.counts[group as usize] {
        let shown = u32::from(nsid);
        emit_word(to, offset, place, shown);
        nsid = next_after(members, nsid);
        place += 4;
    }
    place
}
