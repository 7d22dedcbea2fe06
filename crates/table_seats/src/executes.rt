//! The Execute of a held command.
ghost use Rattle.std.specs.Prelude.{◌≡◌, ◌≢◌, ◌+◌, ◌<◌, ◌∷◌, ◌++◌, [], ℕ, true, false, Some, None, slice_index};
ghost use Rattle.atomic_table.specs.Table.{rest};
ghost use Rattle.ref_state.specs.Steps.{first, without, is_slot, is_home_slot, Some_where};
ghost use Rattle.table_rule.specs.Meant.{target};
ghost use Rattle.table_seats.specs.EndingMeans.{ending_means};
ghost use Rattle.table_seats.specs.Resting.{Rests};
ghost use Rattle.table_seats.specs.Taking.{TookOut, ExecutedIn};

use crate::ground::Table;
use ref_state::kinds::{EXECUTE, Tag};
use ref_state::state::Hold;
use std::sync::ledger::Ledger;
use table_rule::ticks::Steps;
use target_table::table::Seat;

/// Takes the turn of a slot and moves its extent out: what it holds, or nothing where the turn is
/// taken.
pub fn take_out<L: Ledger>(
    table: &Table,
    seat: &mut Seat<u64>,
    slot: u32,
    steps: &mut Steps<L>,
) -> Option<u64>
    requires own { seat.old.base.table_id ≡ table.now.table.shared.table_id }
    requires near { (slot < table.now.table.shared.key.slots) × (slot < 512) }
    requires without { first (is_slot slot) seat.old.base.me.0.view.turns ≡ None }
    ensures own { seat.new.base.table_id ≡ seat.old.base.table_id }
    ensures took { (x : ℕ) → result ≡ Some x → TookOut slot seat.old.base.me seat.new.base.me }
{
    if !table.take_turn(seat, slot, steps) {
        return None;
    }
    Some(table.slot_out(seat, slot, steps))
}

/// Moves an extent back into its slot and gives the turn.
pub fn put_in<L: Ledger>(
    table: &Table,
    seat: &mut Seat<u64>,
    slot: u32,
    value: u64,
    steps: &mut Steps<L>,
)
    requires own { seat.old.base.table_id ≡ table.now.table.shared.table_id }
    requires near { (slot < table.now.table.shared.key.slots) × (slot < 512) }
    requires empty { seat.old.base.me.1 ≡ (slot, None) ∷ rest seat.old.base.me.1 }
    requires turn { Some_where (is_home_slot slot) seat.old.base.me.0.view.turns }
    requires stands { value
        ≡ slice_index (target ending_means seat.old.base.me.0.known).blocks slot }
    ensures own { seat.new.base.table_id ≡ seat.old.base.table_id }
    ensures view { seat.new.base.me
        ≡ (
          record seat.old.base.me.0 {
            view = record seat.old.base.me.0.view {
              turns = without (is_slot slot) seat.old.base.me.0.view.turns;
            };
          },
          rest seat.old.base.me.1,
        ) }
{
    table.slot_in(seat, slot, value, steps);
    table.give_turn(seat, slot, steps);
}

/// Executes the one held command that the seat has a hold of: what its two extents held before, or
/// nothing where a turn is taken.
pub fn execute<L: Ledger>(
    table: &Table,
    seat: &mut Seat<u64>,
    hold: Hold,
    steps: &mut Steps<L>,
) -> Option<(u64, u64)>
    requires own { seat.old.base.table_id ≡ table.now.table.shared.table_id }
    requires slots { table.now.table.shared.key.slots ≡ 8 }
    requires left { 0 < seat.old.left }
    requires free { (seat.old.base.me.0.view.turns ≡ []) × (seat.old.base.me.1 ≡ []) }
    requires rests { Rests seat.old.number seat.old.base.me }
    requires held { seat.old.base.me.0.view.holds ≡ hold ∷ [] }
    requires waits { (hold.disk ≡ 0) × (hold.call.kind ≡ 1) × (hold.executed ≡ false) }
    ensures own { seat.new.base.table_id ≡ seat.old.base.table_id }
    ensures done { (found : _) → result ≡ Some found
        → ExecutedIn hold seat.old.base.me seat.new.base.me }
    ensures rests { (found : _) → result ≡ Some found → Rests seat.new.number seat.new.base.me }
    ensures number { (found : _) → result ≡ Some found → seat.new.number ≡ seat.old.number }
    ensures left { (found : _) → result ≡ Some found → seat.new.left + 1 ≡ seat.old.left }
{
    let first = take_out(table, seat, 0, steps)?;
    let second = take_out(table, seat, 1, steps)?;
    let call = Tag {
        kind: EXECUTE,
        caller: hold.call.caller,
        number: hold.call.number,
    };
    let _place = table.place_execute(seat, call, hold, steps);
    let value = hold.call.number as u64;
    put_in(table, seat, 1, value, steps);
    put_in(table, seat, 0, value, steps);
    Some((first, second))
}
