//! What a seat hands to another.
ghost use Rattle.std.specs.Prelude.{◌≡◌, ◌≢◌, ◌+◌, ◌<◌, ◌≤◌, ◌∷◌, []};
ghost use Rattle.table_seats.specs.Resting.{Rests};

use crate::ground::Table;
use ref_state::kinds::Take;
use std::sync::ledger::Ledger;
use table_rule::ticks::Steps;
use target_table::table::Seat;

// A number of places is below 2^32, since it has that type.
fn bound_left(left: u32)
    ensures { left < 4294967296 }
{
    let _ = left;
}

/// Hands the one hold of a seat to another seat that has none.
pub fn hand_hold<L: Ledger>(
    table: &Table,
    from: &mut Seat<u64>,
    to: &mut Seat<u64>,
    steps: &mut Steps<L>,
)
    requires own { (from.old.base.table_id ≡ table.now.table.shared.table_id)
        × (to.old.base.table_id ≡ table.now.table.shared.table_id) }
    requires from { Rests from.old.number from.old.base.me }
    requires to { Rests to.old.number to.old.base.me }
    requires hold { (h : _) × (from.old.base.me.0.view.holds ≡ h ∷ []) × (h.disk ≡ 0) }
    requires none { to.old.base.me.0.view.holds ≡ [] }
    ensures own { (from.new.base.table_id ≡ from.old.base.table_id)
        × (to.new.base.table_id ≡ to.old.base.table_id) }
    ensures numbers { (from.new.number ≡ from.old.number) × (to.new.number ≡ to.old.number) }
    ensures left { (from.new.left ≡ from.old.left) × (to.new.left ≡ to.old.left) }
    ensures from { Rests from.new.number from.new.base.me }
    ensures to { Rests to.new.number to.new.base.me }
    ensures holds { (from.new.base.me.0.view.holds ≡ [])
        × (to.new.base.me.0.view.holds ≡ from.old.base.me.0.view.holds) }
    ensures turns { (from.new.base.me.0.view.turns ≡ from.old.base.me.0.view.turns)
        × (from.new.base.me.1 ≡ from.old.base.me.1)
        × (to.new.base.me.0.view.turns ≡ to.old.base.me.0.view.turns)
        × (to.new.base.me.1 ≡ to.old.base.me.1) }
    ensures claims { (from.new.base.me.0.claims ≡ from.old.base.me.0.claims)
        × (to.new.base.me.0.claims ≡ to.old.base.me.0.claims) }
{
    bound_left(to.left);
    let part = table.split(from, Take::Hold(0), steps);
    table.join(to, part, steps);
}
