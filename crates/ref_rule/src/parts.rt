//! Parts of a seat: what is split off, and what is joined.
ghost use Rattle.std.specs.Prelude.{◌≡◌, ◌≢◌, ◌+◌, ◌^◌, ◌<◌, length, max, IfOk, OnErr, OnOk};
ghost use Rattle.ref_state.specs.State.{view};
ghost use Rattle.ref_state.specs.Steps.{next_core, answer_of, is_at, is_on, first, without, least, listed, after_split, split_part, spent_view};

use lists::items::Items;
use ref_allowed::entries::entry_index;
use ref_allowed::holds::{HoldTest, hold_index, remove_hold};
use ref_state::kinds::{Answer, Kind, Take};
use ref_state::state::{Entry, Hold, LoadedMode, Role, Section, State, View};
use std::alloc::{AllocError, Global};

// Takes the entry of a place out, where it stands.
fn drop_entry(entries: &mut Items<Entry>, place: u32)
    ensures { entries.new ≡ without (is_at place) entries.old }
{
    if let Some(i) = entry_index(entries, place) {
        entries.remove(i);
    }
}

// A list of the entry of a place, or of nothing.
fn entry_alone(
    alloc: Global,
    entries: &Items<Entry>,
    place: u32,
) -> Result<Items<Entry>, AllocError>
    ensures { IfOk result (λ r. r ≡ listed (first (is_at place) entries.now)) }
{
    let none = Items::new(alloc);
    match entry_index(entries, place) {
        Some(i) => none.with_front(alloc, *entries.at(i)),
        None => Ok(none),
    }
}

// A list of the hold on a disk with the least place, or of nothing.
fn hold_alone(alloc: Global, holds: &Items<Hold>, disk: u32) -> Result<Items<Hold>, AllocError>
    ensures { IfOk result (λ r. r ≡ listed (least (is_on disk) holds.now)) }
{
    let none = Items::new(alloc);
    match hold_index(holds, &HoldTest::On(disk)) {
        Some(i) => none.with_front(alloc, *holds.at(i)),
        None => Ok(none),
    }
}

// What the part keeps.
fn part_of(alloc: Global, view: &View, take: Take) -> Result<View, AllocError>
    ensures { IfOk result (λ p. p ≡ split_part take view.now) }
{
    let (number, seen) = (view.number, view.seen);
    let holds = match take {
        Take::Hold(disk) => hold_alone(alloc, &view.holds, disk)?,
        _ => Items::new(alloc),
    };
    let entries = match take {
        Take::Entry(place) => entry_alone(alloc, &view.entries, place)?,
        _ => Items::new(alloc),
    };
    let left = match take {
        Take::Place => 1,
        _ => 0,
    };
    Ok(View {
        role: Role::Part,
        number,
        word: 0,
        section: Section::Out,
        loaded: LoadedMode::NotLoaded,
        holds,
        turns: Items::new(alloc),
        left,
        seen,
        entries,
    })
}

// Takes from the seat what the part keeps.
fn part_from(view: &mut View, take: Take)
    requires { take ≡ Take.Place → 0 < view.old.left }
    ensures { view.new ≡ after_split take view.old }
{
    match take {
        Take::Nothing => {}
        Take::Hold(disk) => remove_hold(&mut view.holds, &HoldTest::On(disk)),
        Take::Place => view.left -= 1,
        Take::Entry(place) => drop_entry(&mut view.entries, place),
    }
}

/// A part is split off the seat, as the last of all.
pub fn split(alloc: Global, s: &mut State, seat: u32, take: Take) -> Result<Answer, AllocError>
    requires there { seat < length s.old.views }
    requires left { take ≡ Take.Place → 0 < (view s.old.views seat).left }
    ensures done { OnOk result (s.new ≡ next_core s.old seat (Kind.Split take)) }
    ensures answer { IfOk result (λ a. a ≡ answer_of s.old seat (Kind.Split take)) }
    ensures memory { OnErr result (s.new ≡ s.old) }
{
    let part = part_of(alloc, s.views.at(seat as usize), take)?;
    s.views.push(part)?;
    part_from(s.views.at_mut(seat as usize), take);
    Ok(Answer::Nothing)
}

// A seat with all that a part kept, which has seen what either had.
fn join_into(view: &mut View, holds: Items<Hold>, entries: Items<Entry>, left: u32, seen: u32)
    requires { view.old.left + left < 2 ^ 32 }
    ensures { view.new ≡ record view.old {
      holds = holds;
      left = view.old.left + left;
      seen = max view.old.seen seen;
      entries = entries;
    } }
{
    view.holds = holds;
    view.left += left;
    view.seen = view.seen.max(seen);
    view.entries = entries;
}

// What was joined keeps nothing. Its number and its section word stay.
fn spend(alloc: Global, view: &mut View)
    ensures { view.new ≡ spent_view view.old }
{
    view.role = Role::Spent;
    view.section = Section::Out;
    view.loaded = LoadedMode::NotLoaded;
    view.holds = Items::new(alloc);
    view.turns = Items::new(alloc);
    view.left = 0;
    view.seen = 0;
    view.entries = Items::new(alloc);
}

/// A part, or at the end of a run a seat, is joined into the seat.
pub fn join(alloc: Global, s: &mut State, seat: u32, part: u32) -> Result<Answer, AllocError>
    requires there { seat < length s.old.views }
    requires part { part < length s.old.views }
    requires other { part ≢ seat }
    requires left { (view s.old.views seat).left + (view s.old.views part).left < 2 ^ 32 }
    ensures done { OnOk result (s.new ≡ next_core s.old seat (Kind.Join part)) }
    ensures answer { IfOk result (λ a. a ≡ answer_of s.old seat (Kind.Join part)) }
    ensures memory { OnErr result (s.new ≡ s.old) }
{
    let from = s.views.at(part as usize);
    let into = s.views.at(seat as usize);
    let holds = from.holds.concat(alloc, &into.holds)?;
    let entries = from.entries.concat(alloc, &into.entries)?;
    let (left, seen) = (from.left, from.seen);
    join_into(s.views.at_mut(seat as usize), holds, entries, left, seen);
    spend(alloc, s.views.at_mut(part as usize));
    Ok(Answer::Nothing)
}
