//! The sum of a killed disk's own counters.
ghost use Rattle.std.specs.Prelude.{◌≡◌, ◌≢◌, ◌+◌, ◌%◌, ◌<◌, ◌≤◌, ℕ, length};
ghost use Rattle.ref_state.specs.declared.state.Phase.TheVariants.{Killed as IsInKilled};
ghost use Rattle.ref_state.specs.State.{drain, AllPassed};
ghost use Rattle.percpu_ref.specs.Counters.{Counting};

use std::sync::ledger::Ledger;
use table_rule::meaning::Means;
use table_rule::ticks::Steps;
use target_table::table::{Seat, TargetTable};

/// Looks at each own counter of the disk once, in the order of the seats: the sum of their words
/// modulo 2^64.
pub(crate) fn sum_counters<S, M: Means<S>, L: Ledger>(
    table: &TargetTable<S, M>,
    seat: &mut Seat<S>,
    disk: u32,
    seats: u32,
    steps: &mut Steps<L>,
) -> u64
    requires own { seat.old.base.table_id ≡ table.now.table.shared.table_id }
    requires editor { seat.old.number ≡ 0 }
    requires near { (disk < table.now.table.shared.key.disks) × (disk < 64) }
    requires seats { (seats ≡ seat.old.base.me.0.seats) × (seats ≤ 32) }
    requires killed { (drain seat.old.base.me.0.notes disk).phase ≡ IsInKilled }
    requires passed { AllPassed seat.old.base.me.0.seats
        (drain seat.old.base.me.0.notes disk).marks }
    requires long { length (drain seat.old.base.me.0.notes disk).looked ≡ seats }
    ensures own { seat.new.base.table_id ≡ seat.old.base.table_id }
    ensures number { seat.new.number ≡ seat.old.number }
    ensures counted { Counting disk seats result seat.old.base.me seat.new.base.me }
    ensures ticks { steps.new ≡ record steps.old { row = steps.old.row + seats } }
{
    let mut sum: u64 = 0;
    let mut other: u32 = 0;
    while other < seats {
        let found = table.look_counter(seat, disk, other, steps);
        sum = sum.wrapping_add(found);
        other += 1;
    }
    sum
}
