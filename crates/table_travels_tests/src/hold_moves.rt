//! A hold that one seat sends and another takes.
ghost use Rattle.std.specs.Prelude.{◌≡◌, ◌+◌, ◌<◌, ◌∷◌, []};
ghost use Rattle.table_seats.specs.Resting.{Rests};

use ref_state::kinds::Take;
use std::sync::ledger::Ledger;
use table_rule::ticks::Steps;
use table_seats::ground::Table;
use target_table::seats::Part;
use target_table::table::Seat;

/// Sends the seat's one hold.
pub fn send_hold<L: Ledger>(table: &Table, seat: &mut Seat<u64>, steps: &mut Steps<L>) -> Part<u64>
    requires own { seat.old.base.table_id ≡ table.now.table.shared.table_id }
    requires rests { Rests seat.old.number seat.old.base.me }
    requires hold { (h : _) × (seat.old.base.me.0.view.holds ≡ h ∷ []) × (h.disk ≡ 0) }
    ensures own { (seat.new.base.table_id ≡ seat.old.base.table_id)
        × (result.base.table_id ≡ seat.old.base.table_id) }
    ensures number { seat.new.number ≡ seat.old.number }
    ensures left { (seat.new.left ≡ seat.old.left) × (result.left ≡ 0) }
    ensures rests { Rests seat.new.number seat.new.base.me }
    ensures holds { (seat.new.base.me.0.view.holds ≡ [])
        × (result.base.me.0.view.holds ≡ seat.old.base.me.0.view.holds) }
    ensures claims { (seat.new.base.me.0.claims ≡ seat.old.base.me.0.claims)
        × (result.base.me.0.claims ≡ []) }
{
    table.split(seat, Take::Hold(0), steps)
}

/// Takes a hold that another seat sent.
pub fn take_hold<L: Ledger>(
    table: &Table,
    seat: &mut Seat<u64>,
    part: Part<u64>,
    steps: &mut Steps<L>,
)
    requires own { (seat.old.base.table_id ≡ table.now.table.shared.table_id)
        × (part.base.table_id ≡ table.now.table.shared.table_id) }
    requires rests { Rests seat.old.number seat.old.base.me }
    requires none { seat.old.base.me.0.view.holds ≡ [] }
    requires sent { (part.left ≡ 0) × (part.base.me.0.claims ≡ []) }
    ensures own { seat.new.base.table_id ≡ seat.old.base.table_id }
    ensures number { seat.new.number ≡ seat.old.number }
    ensures left { seat.new.left ≡ seat.old.left }
    ensures rests { Rests seat.new.number seat.new.base.me }
    ensures holds { seat.new.base.me.0.view.holds ≡ part.base.me.0.view.holds }
    ensures turns { (seat.new.base.me.0.view.turns ≡ seat.old.base.me.0.view.turns)
        × (seat.new.base.me.1 ≡ seat.old.base.me.1) }
{
    let _left = seat.left;
    table.join(seat, part, steps);
}
