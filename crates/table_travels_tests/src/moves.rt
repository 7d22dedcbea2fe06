//! Calls of a seat's own and for another, and what seats send to each other.
ghost use Rattle.std.specs.Prelude.{◌≡◌, ◌≢◌, ◌+◌, ◌<◌, ◌∷◌, ◌++◌, []};
ghost use Rattle.table_travels_tests.specs.Travels.{callers, places, IsIdle, IsNewest};

use ref_state::kinds::{BARE, CONTROL, Tag, Take};
use std::sync::ledger::Ledger;
use table_rule::ticks::Steps;
use table_seats::ground::Table;
use target_table::seats::Part;
use target_table::table::Seat;

/// A bare call of the seat in a section of its own: its place.
pub fn call_own<L: Ledger>(
    table: &Table,
    seat: &mut Seat<u64>,
    number: u32,
    steps: &mut Steps<L>,
) -> u32
    requires own { seat.old.base.table_id ≡ table.now.table.shared.table_id }
    requires idle { IsIdle seat.old.base.me }
    requires caller { callers seat.old.base.me.0.claims ≡ seat.old.number ∷ [] }
    requires left { 0 < seat.old.left }
    ensures own { seat.new.base.table_id ≡ seat.old.base.table_id }
    ensures number { seat.new.number ≡ seat.old.number }
    ensures idle { IsIdle seat.new.base.me }
    ensures caller { callers seat.new.base.me.0.claims ≡ seat.new.number ∷ [] }
    ensures places { places seat.new.base.me.0 ≡ places seat.old.base.me.0 }
    ensures left { seat.new.left + 1 ≡ seat.old.left }
{
    let call = Tag {
        kind: BARE,
        caller: seat.number,
        number,
    };
    table.enter_section(seat, steps);
    let (place, _serial) = table.draw_place(seat, call, steps);
    table.leave_section(seat, steps);
    place
}

/// A control command of a queue that has lent the editor's seat a place: its place.
pub fn call_for<L: Ledger>(
    table: &Table,
    editor: &mut Seat<u64>,
    caller: u32,
    steps: &mut Steps<L>,
) -> u32
    requires own { editor.old.base.table_id ≡ table.now.table.shared.table_id }
    requires editor { editor.old.number ≡ 0 }
    requires idle { IsIdle editor.old.base.me }
    requires caller { callers editor.old.base.me.0.claims ≡ 0 ∷ (caller ∷ []) }
    requires left { 0 < editor.old.left }
    ensures own { editor.new.base.table_id ≡ editor.old.base.table_id }
    ensures number { editor.new.number ≡ 0 }
    ensures idle { IsIdle editor.new.base.me }
    ensures caller { callers editor.new.base.me.0.claims ≡ 0 ∷ (caller ∷ []) }
    ensures places { places editor.new.base.me.0 ≡ places editor.old.base.me.0 }
    ensures left { editor.new.left + 1 ≡ editor.old.left }
    ensures newest { IsNewest result caller editor.new.base.me.0 }
{
    let call = Tag {
        kind: CONTROL,
        caller,
        number: 0,
    };
    table.enter_section(editor, steps);
    let (place, _serial) = table.draw_place(editor, call, steps);
    table.leave_section(editor, steps);
    place
}

/// Lends one place of the seat, with the claim on its own calls.
pub fn lend<L: Ledger>(table: &Table, seat: &mut Seat<u64>, steps: &mut Steps<L>) -> Part<u64>
    requires own { seat.old.base.table_id ≡ table.now.table.shared.table_id }
    requires idle { IsIdle seat.old.base.me }
    requires caller { callers seat.old.base.me.0.claims ≡ seat.old.number ∷ [] }
    requires left { 0 < seat.old.left }
    ensures own { (seat.new.base.table_id ≡ seat.old.base.table_id)
        × (result.base.table_id ≡ seat.old.base.table_id) }
    ensures number { seat.new.number ≡ seat.old.number }
    ensures idle { IsIdle seat.new.base.me }
    ensures caller { (callers seat.new.base.me.0.claims ≡ [])
        × (callers result.base.me.0.claims ≡ seat.new.number ∷ []) }
    ensures places { places seat.new.base.me.0 + places result.base.me.0
        ≡ places seat.old.base.me.0 }
    ensures left { (seat.new.left + 1 ≡ seat.old.left) × (result.left ≡ 1) }
{
    table.split(seat, Take::Place, steps)
}

/// Gives the entry at this place back to its caller, with the claim on its calls.
pub fn settle<L: Ledger>(
    table: &Table,
    editor: &mut Seat<u64>,
    place: u32,
    caller: u32,
    steps: &mut Steps<L>,
) -> Part<u64>
    requires own { editor.old.base.table_id ≡ table.now.table.shared.table_id }
    requires editor { editor.old.number ≡ 0 }
    requires idle { IsIdle editor.old.base.me }
    requires other { caller ≢ 0 }
    requires caller { callers editor.old.base.me.0.claims ≡ 0 ∷ (caller ∷ []) }
    requires newest { IsNewest place caller editor.old.base.me.0 }
    ensures own { (editor.new.base.table_id ≡ editor.old.base.table_id)
        × (result.base.table_id ≡ editor.old.base.table_id) }
    ensures number { editor.new.number ≡ 0 }
    ensures idle { IsIdle editor.new.base.me }
    ensures caller { (callers editor.new.base.me.0.claims ≡ 0 ∷ [])
        × (callers result.base.me.0.claims ≡ caller ∷ []) }
    ensures places { places editor.new.base.me.0 + places result.base.me.0
        ≡ places editor.old.base.me.0 }
    ensures left { (editor.new.left ≡ editor.old.left) × (result.left ≡ 0) }
{
    let _ = caller;
    table.split(editor, Take::Entry(place), steps)
}

/// A note of what the seat has seen.
pub fn note<L: Ledger>(table: &Table, seat: &mut Seat<u64>, steps: &mut Steps<L>) -> Part<u64>
    requires own { seat.old.base.table_id ≡ table.now.table.shared.table_id }
    requires idle { IsIdle seat.old.base.me }
    ensures own { (seat.new.base.table_id ≡ seat.old.base.table_id)
        × (result.base.table_id ≡ seat.old.base.table_id) }
    ensures number { seat.new.number ≡ seat.old.number }
    ensures idle { IsIdle seat.new.base.me }
    ensures caller { (callers seat.new.base.me.0.claims ≡ callers seat.old.base.me.0.claims)
        × (callers result.base.me.0.claims ≡ []) }
    ensures places { (places seat.new.base.me.0 ≡ places seat.old.base.me.0)
        × (places result.base.me.0 ≡ 0) }
    ensures left { (seat.new.left ≡ seat.old.left) × (result.left ≡ 0) }
{
    table.split(seat, Take::Nothing, steps)
}

/// Takes in what another seat sent, or the other seat itself.
pub fn take_in<L: Ledger>(
    table: &Table,
    seat: &mut Seat<u64>,
    part: Part<u64>,
    steps: &mut Steps<L>,
)
    requires own { (seat.old.base.table_id ≡ table.now.table.shared.table_id)
        × (part.base.table_id ≡ table.now.table.shared.table_id) }
    requires idle { IsIdle seat.old.base.me }
    requires few { seat.old.left + part.left < 4294967296 }
    ensures own { seat.new.base.table_id ≡ seat.old.base.table_id }
    ensures number { seat.new.number ≡ seat.old.number }
    ensures idle { IsIdle seat.new.base.me }
    ensures caller { callers seat.new.base.me.0.claims
        ≡ callers seat.old.base.me.0.claims ++ callers part.base.me.0.claims }
    ensures places { places seat.new.base.me.0
        ≡ places seat.old.base.me.0 + places part.base.me.0 }
    ensures left { seat.new.left ≡ seat.old.left + part.left }
{
    table.join(seat, part, steps);
}
