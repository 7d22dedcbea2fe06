//! What a split or a join asks.
ghost use Rattle.std.specs.Prelude.{◌≡◌, ◌≢◌, ◌⊎◌, ◌↔◌, ◌<◌, [], length, IsTrue, Some};
ghost use Rattle.ref_state.specs.declared.state.Entry.{Entry as EntryRecord};
ghost use Rattle.ref_state.specs.State.{view};
ghost use Rattle.ref_state.specs.Steps.{MayTake, first, is_at};

use crate::entries::entry_index;
use crate::reference_conditions::keeps_hold;
use crate::section_conditions::{is_not_loaded, is_out};
use lists::items::Items;
use ref_state::kinds::{CONTROL, THROUGH, Tag, Take};
use ref_state::state::{Entry, Hold, LoadedMode, Role, Section, State, View};

fn is_spent(role: &Role) -> bool
    ensures { IsTrue result ↔ (role.now ≡ Role.Spent) }
{
    matches!(role, Role::Spent)
}

// The entry at the place, if it is kept.
fn entry_at(entries: &Items<Entry>, place: u32) -> Option<Entry>
    ensures { result ≡ first (is_at place) entries.now }
{
    match entry_index(entries, place) {
        Some(i) => Some(*entries.at(i)),
        None => None,
    }
}

// A call that is placed for another seat.
fn is_lent(call: &Tag) -> bool
    ensures { IsTrue result ↔ ((call.now.kind ≡ CONTROL) ⊎ (call.now.kind ≡ THROUGH)) }
{
    call.kind == CONTROL || call.kind == THROUGH
}

// The entry at the place is kept, and of such a call.
fn keeps_lent(entries: &Items<Entry>, place: u32) -> bool
    ensures { IsTrue result ↔ ((e : EntryRecord) × (first (is_at place) entries.now ≡ Some e)
        × ((e.call.kind ≡ CONTROL) ⊎ (e.call.kind ≡ THROUGH))) }
{
    match entry_at(entries, place) {
        Some(e) => is_lent(&e.call),
        None => false,
    }
}

fn may_take(view: &View, take: Take) -> bool
    ensures { IsTrue result ↔ MayTake take view.now }
{
    match take {
        Take::Nothing => true,
        Take::Hold(disk) => keeps_hold(view, disk),
        Take::Place => view.left > 0,
        Take::Entry(place) => keeps_lent(&view.entries, place),
    }
}

/// What the part takes is kept, and no mode is in hand.
pub fn may_split(view: &View, take: Take) -> bool
    ensures { IsTrue result ↔ ((view.now.loaded ≡ LoadedMode.NotLoaded) × MayTake take view.now) }
{
    is_not_loaded(&view.loaded) && may_take(view, take)
}

// It isn't spent, and has no section, mode or turn in hand.
fn is_idle(part: &View) -> bool
    ensures { IsTrue result ↔ ((part.now.role ≢ Role.Spent) × (part.now.section ≡ Section.Out)
        × (part.now.loaded ≡ LoadedMode.NotLoaded) × (part.now.turns ≡ [])) }
{
    !is_spent(&part.role)
        && is_out(&part.section)
        && is_not_loaded(&part.loaded)
        && part.turns.len() == 0
}

/// The seat may take the part in.
pub fn may_join(s: &State, seat: u32, part: u32) -> bool
    ensures { IsTrue result ↔ ((part ≢ seat) × (part ≢ 0) × (part < length s.now.views)
        × ((view s.now.views part).role ≢ Role.Spent) × ((view s.now.views part).section
        ≡ Section.Out) × ((view s.now.views part).loaded ≡ LoadedMode.NotLoaded)
        × ((view s.now.views part).turns ≡ [])) }
{
    part != seat
        && part != 0
        && (part as usize) < s.views.len()
        && is_idle(s.views.at(part as usize))
}
