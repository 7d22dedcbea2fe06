ghost use Rattle.std.specs.Prelude.{◌≡◌, ◌≤◌, ◌<◌, ◌+◌, ◌*◌, ◌^◌, ◌++◌, length, if◌then◌else◌, []};
ghost use Rattle.sqe_cqe.specs.Answers.{view_of};
ghost use Rattle.look_pages.specs.Pages.{Emits, words, if_one};
ghost use Rattle.ana_groups.specs.declared.members.TheConstants.{GROUPS};
ghost use Rattle.ana_groups.specs.Chains.{AreMembers};
ghost use Rattle.ana_groups.specs.AnaPage.{state_code, members, is_reported, header_bytes, descriptor, group_bytes, groups_bytes};

use crate::members::{GROUPS, Members, emit_members};
use look_pages::emit;
use sqe_cqe::{Ana, Bound, Look};

// The code of a state in a group's descriptor.
fn code_of(state: Ana) -> u8
    ensures { result ≡ state_code state }
{
    match state {
        Ana::Optimized => 1,
        Ana::NonOptimized => 2,
        Ana::Inaccessible => 3,
        Ana::PersistentLoss => 4,
        Ana::Changing => 15,
    }
}

// The header: change count and number of groups.
#[tactic(auto, unfolding(crate::specs::AnaPage::header_bytes))]
pub fn header(count: u64, groups: u16) -> [u8; 16]
    ensures { result ≡ header_bytes count groups }
{
    let [a, b, c, d, e, f, g, h] = count.to_le_bytes();
    let [n, m] = groups.to_le_bytes();
    [a, b, c, d, e, f, g, h, n, m, 0, 0, 0, 0, 0, 0]
}

#[tactic(auto, unfolding(crate::specs::AnaPage::descriptor))]
fn descriptor_of(group: u32, nsids: u32, count: u64, state: Ana) -> [u8; 32]
    ensures { result ≡ descriptor group nsids count state }
{
    let [g0, g1, g2, g3] = group.to_le_bytes();
    let [n0, n1, n2, n3] = nsids.to_le_bytes();
    let [a, b, c, d, e, f, g, h] = count.to_le_bytes();
    let s = code_of(state);
    [
        g0, g1, g2, g3, n0, n1, n2, n3, a, b, c, d, e, f, g, h, s, 0, 0, 0, 0, 0, 0, 0, 0, 0, 0, 0,
        0, 0, 0, 0,
    ]
}

/// Whether a group with so many enabled namespaces is in the page.
pub fn in_page<L: Look>(b: &Bound, group: u32, nsids: u32, look: &mut L) -> bool
    requires { let v = view_of (L.told (L.behind look.old)) b.now in
        nsids ≡ length (members v group) }
    ensures value { result ≡ is_reported (view_of (L.told (L.behind look.old)) b.now) group }
    ensures behind { L.behind look.new ≡ L.behind look.old }
{
    if look.group_made(b.port, group) {
        return true;
    }
    nsids > 0
}

/// Adds a group with its NSIDs; with `rgo` (Return Groups Only) its count of NSIDs is 0 and none
/// follows. Tells where the page goes on.
#[tactic(auto, using(look_pages::proofs::Parts::emits_none), unfolding(crate::specs::AnaPage::group_bytes))]
pub fn emit_group<L: Look>(
    b: &Bound,
    rgo: bool,
    group: u32,
    members: &Members,
    offset: u64,
    at: u64,
    look: &mut L,
    to: &mut [u8],
) -> u64
    requires place { at < 2 ^ 48 }
    requires group { group ≤ GROUPS }
    requires members { AreMembers (view_of (L.told (L.behind look.old)) b.now) members.now }
    ensures emits { let v = view_of (L.told (L.behind look.old)) b.now in
        Emits offset at to.old to.new (group_bytes v rgo group) }
    ensures at { let v = view_of (L.told (L.behind look.old)) b.now in
        result ≡ at + length (group_bytes v rgo group) }
    ensures few { result < at + 2 ^ 35 }
    ensures behind { L.behind look.new ≡ L.behind look.old }
{
    let shown = if rgo {
        0
    } else {
        members.counts[group as usize]
    };
    let count = look.group_count(b.port, b.sub, group);
    let state = look.ana(b.port, group);
    emit(to, offset, at, &descriptor_of(group, shown, count, state));
    if rgo {
        return at + 32;
    }
    emit_members(members, group, offset, at + 32, to)
}
