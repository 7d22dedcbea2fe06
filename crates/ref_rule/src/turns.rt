//! Steps on the turns of extents, and on what is held while a turn is.
ghost use Rattle.std.specs.Prelude.{◌≡◌, ◌+◌, ◌^◌, ◌<◌, length, position, IfOk, OnErr, OnOk};
ghost use Rattle.ref_state.specs.State.{view};
ghost use Rattle.ref_state.specs.Steps.{next_core, answer_of, is_slot, change, without};

use lists::items::Items;
use ref_allowed::holds::{HoldTest, hold_place, mark_executed};
use ref_state::kinds::{Answer, Kind, Tag};
use ref_state::limits::EXTENTS;
use ref_state::state::{By, Entry, State, Turn};
use std::alloc::{AllocError, Global};

fn turn_index(turns: &Items<Turn>, slot: u32) -> Option<usize>
    ensures { result ≡ position (is_slot slot) turns.now }
{
    turns.as_slice().iter().position(|t| t.slot == slot)
}

/// Takes the turn of a slot where its word is 0, in one try.
pub fn take_turn(alloc: Global, s: &mut State, seat: u32, slot: u32) -> Result<Answer, AllocError>
    requires { seat < length s.old.views }
    ensures done { OnOk result (s.new ≡ next_core s.old seat (Kind.TakeTurn slot)) }
    ensures answer { IfOk result (λ a. a ≡ answer_of s.old seat (Kind.TakeTurn slot)) }
    ensures memory { OnErr result (s.new ≡ s.old) }
{
    if s.turns.at_or(slot as usize, 0) != 0 {
        return Ok(Answer::No);
    }
    let turns = s
        .views
        .at(seat as usize)
        .turns
        .with_front(alloc, Turn { slot, out: false })?;
    s.views.at_mut(seat as usize).turns = turns;
    s.turns.put(slot as usize, seat as u64 + 1);
    Ok(Answer::Yes)
}

// Sets whether the extent of a turn is in hand.
fn move_extent(turns: &mut Items<Turn>, slot: u32, out: bool)
    ensures { turns.new ≡ change (is_slot slot) (λ t. record t { out = out }) turns.old }
{
    if let Some(i) = turn_index(turns, slot) {
        turns.at_mut(i).out = out;
    }
}

fn drop_turn(turns: &mut Items<Turn>, slot: u32)
    ensures { turns.new ≡ without (is_slot slot) turns.old }
{
    if let Some(i) = turn_index(turns, slot) {
        turns.remove(i);
    }
}

/// The extent moves out of its slot.
pub fn slot_out(s: &mut State, seat: u32, slot: u32) -> Answer
    requires { seat < length s.old.views }
    ensures done { s.new ≡ next_core s.old seat (Kind.SlotOut slot) }
    ensures answer { result ≡ answer_of s.old seat (Kind.SlotOut slot) }
{
    move_extent(&mut s.views.at_mut(seat as usize).turns, slot, true);
    Answer::Nothing
}

/// The extent moves back into its slot.
pub fn slot_in(s: &mut State, seat: u32, slot: u32) -> Answer
    requires { seat < length s.old.views }
    ensures done { s.new ≡ next_core s.old seat (Kind.SlotIn slot) }
    ensures answer { result ≡ answer_of s.old seat (Kind.SlotIn slot) }
{
    move_extent(&mut s.views.at_mut(seat as usize).turns, slot, false);
    Answer::Nothing
}

/// The turn's word is 0 again.
pub fn give_turn(s: &mut State, seat: u32, slot: u32) -> Answer
    requires { seat < length s.old.views }
    ensures done { s.new ≡ next_core s.old seat (Kind.GiveTurn slot) }
    ensures answer { result ≡ answer_of s.old seat (Kind.GiveTurn slot) }
{
    drop_turn(&mut s.views.at_mut(seat as usize).turns, slot);
    s.turns.put(slot as usize, 0);
    Answer::Nothing
}

/// The Execute of a held command takes its place; its hold is kept, marked so.
pub fn place_execute(
    alloc: Global,
    s: &mut State,
    seat: u32,
    slot: u32,
    call: Tag,
) -> Result<Answer, AllocError>
    requires there { seat < length s.old.views }
    requires left { 0 < (view s.old.views seat).left }
    requires room { s.old.given + 1 < 2 ^ 32 }
    ensures done { OnOk result (s.new ≡ next_core s.old seat (Kind.PlaceExecute slot call)) }
    ensures answer { IfOk result (λ a. a ≡ answer_of s.old seat (Kind.PlaceExecute slot call)) }
    ensures memory { OnErr result (s.new ≡ s.old) }
{
    let (place, serial) = (s.given, s.serial);
    let view = s.views.at(seat as usize);
    let test = HoldTest::Held(call, slot / EXTENTS);
    let by = By::Execute(hold_place(&view.holds, &test));
    let entries = view.entries.with_front(
        alloc,
        Entry {
            place,
            serial,
            call,
            by,
            got: false,
        },
    )?;
    let view = s.views.at_mut(seat as usize);
    mark_executed(&mut view.holds, &test);
    view.entries = entries;
    view.left -= 1;
    view.seen = place + 1;
    s.given = place + 1;
    Ok(Answer::Word(place as u64))
}
