ghost use Rattle.std.specs.Prelude.{◌≡◌, ◌≤◌, ◌<◌, ◌+◌, ◌*◌, ◌^◌, nat_lt, length};
ghost use Rattle.sqe_cqe.specs.Answers.{view_of};
ghost use Rattle.look_pages.specs.Chosen.{is_chosen, chosen_nsids};
ghost use Rattle.look_pages.specs.Pages.{Emits, words, if_one, window, list_bytes};

use crate::fields::clear;
use crate::list::{Choice, chosen, count_chosen};
use crate::window::emit_word;
use sqe_cqe::{Bound, Look};

/// The bytes of a page of Identify, and of the log of changed namespaces.
pub const PAGE: usize = 4096;

/// The most NSIDs that a list of one page has.
pub const MOST_LISTED: u32 = 1024;

// What stands in place of a longer list.
const TOO_MANY: u32 = 0xffff_ffff;

// Whether a list is too long for its page.
fn is_too_long(count: u32) -> bool
    ensures { result ≡ nat_lt MOST_LISTED count }
{
    count > MOST_LISTED
}

// Adds an NSID where it is listed, and tells where the page goes on.
#[tactic(auto, using(crate::proofs::Parts::emits_none), unfolding(crate::specs::Pages::words))]
fn emit_chosen<L: Look>(
    choice: Choice,
    b: &Bound,
    nsid: u32,
    offset: u64,
    at: u64,
    look: &mut L,
    to: &mut [u8],
) -> u64
    requires { at < 2 ^ 60 }
    ensures emits { let p = is_chosen choice (view_of (L.told (L.behind look.old)) b.now) in
        Emits offset at to.old to.new (words (if_one p nsid)) }
    ensures at { let p = is_chosen choice (view_of (L.told (L.behind look.old)) b.now) in
        result ≡ at + 4 * length (if_one p nsid) }
    ensures behind { L.behind look.new ≡ L.behind look.old }
{
    if chosen(choice, b, nsid, look) {
        emit_word(to, offset, at, nsid);
        at + 4
    } else {
        at
    }
}

/// Adds the NSIDs that are listed, four bytes each, at a position of a page of which `to` shows the
/// part from an offset on. Tells where the page goes on. It walks all NSIDs once.
pub fn emit_nsids<L: Look>(
    choice: Choice,
    b: &Bound,
    offset: u64,
    at: u64,
    look: &mut L,
    to: &mut [u8],
) -> u64
    requires { at < 2 ^ 50 }
    ensures emits { let v = view_of (L.told (L.behind look.old)) b.now in
        Emits offset at to.old to.new (words (chosen_nsids choice v)) }
    ensures at { let v = view_of (L.told (L.behind look.old)) b.now in
        result ≡ at + 4 * length (chosen_nsids choice v) }
    ensures few { let v = view_of (L.told (L.behind look.old)) b.now in
        length (chosen_nsids choice v) < 2 ^ 32 }
    ensures behind { L.behind look.new ≡ L.behind look.old }
{
    let offers = look.offers();
    let mut place = at;
    for i in 0..offers.nsids {
        place = emit_chosen(choice, b, i + 1, offset, place, look, to);
    }
    place
}

/// Writes the part of the page of a list of NSIDs from an offset on, all of `to`: the NSIDs rising,
/// four bytes each, and zeros; or FFFFFFFFh and zeros where there are more than 1,024.
pub fn list_part<L: Look>(choice: Choice, b: &Bound, offset: u64, look: &mut L, to: &mut [u8])
    ensures page { let v = view_of (L.told (L.behind look.old)) b.now in
        to.new ≡ window offset (length to.old) (list_bytes (chosen_nsids choice v)) }
    ensures behind { L.behind look.new ≡ L.behind look.old }
{
    clear(to);
    if is_too_long(count_chosen(choice, b, look)) {
        emit_word(to, offset, 0, TOO_MANY);
        return;
    }
    let _end = emit_nsids(choice, b, offset, 0, look, to);
}
