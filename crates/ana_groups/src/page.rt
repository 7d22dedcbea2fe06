ghost use Rattle.std.specs.Prelude.{◌≡◌, ◌≤◌, ◌<◌, ◌+◌, ◌*◌, ◌^◌, length};
ghost use Rattle.sqe_cqe.specs.Answers.{view_of};
ghost use Rattle.look_pages.specs.Pages.{Emits, window, if_one};
ghost use Rattle.ana_groups.specs.declared.members.TheConstants.{GROUPS};
ghost use Rattle.ana_groups.specs.Chains.{AreMembers};
ghost use Rattle.ana_groups.specs.AnaPage.{ana_bytes, is_reported, members, reported, groups_bytes};

use crate::groups::{emit_group, header, in_page};
use crate::members::{GROUPS, Members, find_members};
use look_pages::{clear, emit};
use sqe_cqe::{Bound, Ctrl, Look};

fn count_groups<L: Look>(b: &Bound, members: &Members, look: &mut L) -> u16
    requires { AreMembers (view_of (L.told (L.behind look.old)) b.now) members.now }
    ensures value { result ≡ length (reported (view_of (L.told (L.behind look.old)) b.now)) }
    ensures behind { L.behind look.new ≡ L.behind look.old }
{
    let mut groups: u16 = 0;
    for i in 0..GROUPS {
        if in_page(b, i + 1, members.counts[i as usize + 1], look) {
            groups += 1;
        }
    }
    groups
}

// Adds a group that is in the page, and tells where the page goes on.
#[tactic(auto, using(look_pages::proofs::Parts::emits_none), unfolding(crate::specs::AnaPage::groups_bytes))]
fn emit_in_page<L: Look>(
    b: &Bound,
    rgo: bool,
    group: u32,
    members: &Members,
    offset: u64,
    at: u64,
    look: &mut L,
    to: &mut [u8],
) -> u64
    requires place { at < 2 ^ 48 }
    requires group { group ≤ GROUPS }
    requires members { AreMembers (view_of (L.told (L.behind look.old)) b.now) members.now }
    ensures emits { let v = view_of (L.told (L.behind look.old)) b.now in
        Emits offset at to.old to.new (groups_bytes v rgo (if_one (is_reported v) group)) }
    ensures at { let v = view_of (L.told (L.behind look.old)) b.now in
        result ≡ at + length (groups_bytes v rgo (if_one (is_reported v) group)) }
    ensures few { result < at + 2 ^ 35 }
    ensures behind { L.behind look.new ≡ L.behind look.old }
{
    if in_page(b, group, members.counts[group as usize], look) {
        emit_group(b, rgo, group, members, offset, at, look, to)
    } else {
        at
    }
}

fn emit_groups<L: Look>(
    b: &Bound,
    rgo: bool,
    members: &Members,
    offset: u64,
    look: &mut L,
    to: &mut [u8],
)
    requires { AreMembers (view_of (L.told (L.behind look.old)) b.now) members.now }
    ensures emits { let v = view_of (L.told (L.behind look.old)) b.now in
        Emits offset 16 to.old to.new (groups_bytes v rgo (reported v)) }
    ensures behind { L.behind look.new ≡ L.behind look.old }
{
    let mut place: u64 = 16;
    for i in 0..GROUPS {
        place = emit_in_page(b, rgo, i + 1, members, offset, place, look, to);
    }
}

/// Writes the part of the ANA log page of a controller from an offset on, all of `to`, with zeros past
/// the end of the page. With `rgo` (Return Groups Only) no NSIDs are shown. It walks the NSIDs once.
pub fn ana_page<L: Look>(c: &Ctrl, rgo: bool, offset: u64, look: &mut L, to: &mut [u8])
    ensures page { let v = view_of (L.told (L.behind look.old)) c.now.bound in
        to.new ≡ window offset (length to.old) (ana_bytes v rgo) }
    ensures behind { L.behind look.new ≡ L.behind look.old }
{
    clear(to);
    let changes = look.ana_count();
    let members = find_members(&c.bound, look);
    let groups = count_groups(&c.bound, &members, look);
    emit(to, offset, 0, &header(changes, groups));
    emit_groups(&c.bound, rgo, &members, offset, look, to);
}
