//! One try at an Execute: its turns in rising order, its place, and its extents back.
ghost use Rattle.std.specs.Prelude.{◌≡◌, ◌≢◌, ◌<◌, ◌≤◌, ◌+◌, ◌-◌, ◌*◌, ◌∷◌, ℕ, true, Some, None, IfSome, IfNone, length, slice_index};
ghost use Rattle.atomic_table.specs.Table.{rest};
ghost use Rattle.ref_state.specs.Steps.{first, without, is_slot, is_home_slot, Some_where, least, is_held};
ghost use Rattle.table_rule.specs.Meant.{target};
ghost use Rattle.extent_executes.specs.Executes.{Reached, TookOut, Stopped, Ran, LastTried};

use crate::works::Work;
use ref_state::kinds::Tag;
use ref_state::state::Hold;
use std::sync::ledger::Ledger;
use table_rule::meaning::Means;
use table_rule::ticks::Steps;
use target_table::table::{Seat, TargetTable};

// One try for the turn of the i-th slot, whose extent is moved out: nothing where the turn was found
// taken.
fn take_out<S, M: Means<S>, L: Ledger>(
    table: &TargetTable<S, M>,
    seat: &mut Seat<S>,
    call: Tag,
    hold: Hold,
    slots: &[u32],
    i: usize,
    steps: &mut Steps<L>,
) -> Option<S>
    requires own { seat.old.base.table_id ≡ table.now.table.shared.table_id }
    requires near { (j : ℕ) → j < length slots.now
        → (slice_index slots.now j < table.now.table.shared.key.slots)
        × (slice_index slots.now j < 512) }
    requires rising { (j k : ℕ) → j < k → k < length slots.now
        → slice_index slots.now j < slice_index slots.now k }
    requires inside { i < length slots.now }
    requires reached { Reached slots.now i seat.old.base.me }
    requires hold { least (is_held call hold.disk) seat.old.base.me.0.view.holds ≡ Some hold }
    ensures own { seat.new.base.table_id ≡ seat.old.base.table_id }
    ensures took { IfSome result (λ x. TookOut M.means (slice_index slots.now i) x
        seat.old.base.me seat.new.base.me) }
    ensures reached { IfSome result (λ x. Reached slots.now (i + 1) seat.new.base.me) }
    ensures left { seat.new.left ≡ seat.old.left }
    ensures hold { least (is_held call hold.disk) seat.new.base.me.0.view.holds ≡ Some hold }
    ensures stopped { IfNone result (Stopped M.means slots.now seat.old.base.me seat.new.base.me) }
    ensures ticks { IfSome result (λ x. steps.new
        ≡ record steps.old { turn = steps.old.turn + 2 }) }
    ensures tried { IfNone result (LastTried (slice_index slots.now i) seat.new.base.me
        × (steps.new ≡ record steps.old { turn = steps.old.turn + 1 })) }
{
    let _ = (call, hold);
    let slot = slots[i];
    if !table.take_turn(seat, slot, steps) {
        return None;
    }
    Some(table.slot_out(seat, slot, steps))
}

// Moves an extent back into its slot and gives the turn.
fn put_back<S: Drop, M: Means<S>, L: Ledger>(
    table: &TargetTable<S, M>,
    seat: &mut Seat<S>,
    slot: u32,
    value: S,
    steps: &mut Steps<L>,
)
    requires own { seat.old.base.table_id ≡ table.now.table.shared.table_id }
    requires near { (slot < table.now.table.shared.key.slots) × (slot < 512) }
    requires empty { seat.old.base.me.1 ≡ (slot, None) ∷ rest seat.old.base.me.1 }
    requires turn { Some_where (is_home_slot slot) seat.old.base.me.0.view.turns }
    requires stands { M.means.stands value slot (target M.means seat.old.base.me.0.known) }
    ensures own { seat.new.base.table_id ≡ seat.old.base.table_id }
    ensures view { seat.new.base.me
        ≡ (
          record seat.old.base.me.0 {
            view = record seat.old.base.me.0.view {
              turns = without (is_slot slot) seat.old.base.me.0.view.turns;
            };
          },
          rest seat.old.base.me.1,
        ) }
    ensures ticks { steps.new ≡ record steps.old { turn = steps.old.turn + 2 } }
{
    table.slot_in(seat, slot, value, steps);
    table.give_turn(seat, slot, steps);
}

// Takes the extents from the i-th slot on, places the Execute, and puts them back on the way out.
fn run_from<S: Drop, M: Means<S>, W: Work<S, M>, L: Ledger>(
    table: &TargetTable<S, M>,
    seat: &mut Seat<S>,
    work: &W,
    call: Tag,
    hold: Hold,
    slots: &[u32],
    i: usize,
    steps: &mut Steps<L>,
) -> Option<u32>
    requires own { seat.old.base.table_id ≡ table.now.table.shared.table_id }
    requires near { (j : ℕ) → j < length slots.now
        → (slice_index slots.now j < table.now.table.shared.key.slots)
        × (slice_index slots.now j < 512) }
    requires rising { (j k : ℕ) → j < k → k < length slots.now
        → slice_index slots.now j < slice_index slots.now k }
    requires disk { 8 * hold.disk < table.now.table.shared.key.slots }
    requires inside { i ≤ length slots.now }
    requires reached { Reached slots.now i seat.old.base.me }
    requires left { 0 < seat.old.left }
    requires kind { call.kind ≡ 2 }
    requires work { (W.tag ≡ call) × (W.hold ≡ hold) }
    requires hold { least (is_held call hold.disk) seat.old.base.me.0.view.holds ≡ Some hold }
    requires touches { (n : ℕ) → n < table.now.table.shared.key.slots
        → M.means.touches hold.call hold.disk n ≡ true
        → (j : ℕ) × (j < length slots.now) × (slice_index slots.now j ≡ n) }
    ensures own { seat.new.base.table_id ≡ seat.old.base.table_id }
    ensures ran { IfSome result (λ place. (serial : ℕ) × Ran M.means call hold seat.old.base.me
        seat.new.base.me place serial) }
    ensures stopped { IfNone result (Stopped M.means slots.now seat.old.base.me seat.new.base.me) }
    ensures ticks { IfSome result (λ place. steps.new ≡ record steps.old {
      turn = steps.old.turn + 4 * (length slots.now - i);
      clock = steps.old.clock + 1;
    }) }
    ensures tried { IfNone result ((n : ℕ) × (n + i < length slots.now)
        × LastTried (slice_index slots.now (n + i)) seat.new.base.me
        × (steps.new ≡ record steps.old { turn = steps.old.turn + (4 * n + 1) })) }
{
    if i == slots.len() {
        return Some(table.place_execute(seat, call, hold, steps));
    }
    let slot = slots[i];
    let value = take_out(table, seat, call, hold, slots, i, steps)?;
    match run_from(table, seat, work, call, hold, slots, i + 1, steps) {
        Some(place) => {
            let value = work.apply(slot, value);
            put_back(table, seat, slot, value, steps);
            Some(place)
        }
        None => {
            put_back(table, seat, slot, value, steps);
            None
        }
    }
}

/// Executes a held command, by one try at the turn of each slot that it touches, in rising order:
/// the place of the Execute, counted from 0, or nothing where a turn was found taken, with every
/// extent at home again as it was. `slots` has the slots of the command's extents in rising order,
/// each 8 times the disk plus the extent; `hold` is the command's, the one with the least place.
///
/// It takes four steps an extent and one on the clock; where the n-th turn, counted from 0, was
/// found taken, it takes four for each of the n extents before and one for that try.
pub fn execute<S: Drop, M: Means<S>, W: Work<S, M>, L: Ledger>(
    table: &TargetTable<S, M>,
    seat: &mut Seat<S>,
    work: &W,
    call: Tag,
    hold: Hold,
    slots: &[u32],
    steps: &mut Steps<L>,
) -> Option<u32>
    requires own { seat.old.base.table_id ≡ table.now.table.shared.table_id }
    requires near { (j : ℕ) → j < length slots.now
        → (slice_index slots.now j < table.now.table.shared.key.slots)
        × (slice_index slots.now j < 512) }
    requires rising { (j k : ℕ) → j < k → k < length slots.now
        → slice_index slots.now j < slice_index slots.now k }
    requires disk { 8 * hold.disk < table.now.table.shared.key.slots }
    requires free { (j : ℕ) → j < length slots.now
        → first (is_slot (slice_index slots.now j)) seat.old.base.me.0.view.turns ≡ None }
    requires left { 0 < seat.old.left }
    requires kind { call.kind ≡ 2 }
    requires work { (W.tag ≡ call) × (W.hold ≡ hold) }
    requires hold { least (is_held call hold.disk) seat.old.base.me.0.view.holds ≡ Some hold }
    requires touches { (n : ℕ) → n < table.now.table.shared.key.slots
        → M.means.touches hold.call hold.disk n ≡ true
        → (j : ℕ) × (j < length slots.now) × (slice_index slots.now j ≡ n) }
    ensures own { seat.new.base.table_id ≡ seat.old.base.table_id }
    ensures ran { IfSome result (λ place. (serial : ℕ) × Ran M.means call hold seat.old.base.me
        seat.new.base.me place serial) }
    ensures stopped { IfNone result (Stopped M.means slots.now seat.old.base.me seat.new.base.me) }
    ensures ticks { IfSome result (λ place. steps.new ≡ record steps.old {
      turn = steps.old.turn + 4 * length slots.now;
      clock = steps.old.clock + 1;
    }) }
    ensures tried { IfNone result ((n : ℕ) × (n < length slots.now)
        × LastTried (slice_index slots.now n) seat.new.base.me
        × (steps.new ≡ record steps.old { turn = steps.old.turn + (4 * n + 1) })) }
{
    run_from(table, seat, work, call, hold, slots, 0, steps)
}
