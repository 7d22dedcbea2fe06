//! The editor's seat, with the section words that it noted.
ghost use Rattle.std.specs.Prelude.{◌≡◌, ◌≢◌, ◌+◌, ◌<◌, ◌≤◌, ◌∷◌, [], ℕ, true, false, None, length, slice_index, slice_set};
ghost use Rattle.ref_state.specs.declared.state.Mark.TheVariants.{Passed};
ghost use Rattle.ref_state.specs.State.{mark, is_odd};
ghost use Rattle.table_rule.specs.Shown.{opened_editor};
ghost use Rattle.rcu_sections.specs.Grace.{after_looks, round, Noted, base_word, IsSpare};

use std::sync::ledger::Ledger;
use table_rule::meaning::Means;
use table_rule::ticks::Steps;
use target_table::table::{Seat, TargetTable};

/// The editor's seat with what it keeps at run time beside.
#[derive(Drop)]
pub struct Editor<S> {
    pub seat: Seat<S>,
    /// How many seats there are.
    pub seats: u32,
    /// How many disks.
    pub disks: u32,
    /// By seat its section word as it was found right after the last publish. An even one is of a
    /// seat that reads the last serial, or none.
    pub words: [u64; 32],
    /// By disk where the counters of its reference stood at the last fold, added up modulo 2^64.
    pub bases: [u64; 64],
    pub ghost first: { seat.number ≡ 0 },
    pub ghost seats_are: { seats ≡ seat.base.me.0.seats },
    pub ghost few: { seats ≤ 32 },
    pub ghost drains_are: { length seat.base.me.0.notes.drains ≡ disks },
    pub ghost few_disks: { disks ≤ 64 },
    pub ghost long: { length seat.base.me.0.notes.marks ≡ seats },
    pub ghost noted: { Noted seats words seat.base.me.0.notes.marks },
    pub ghost bases_are: { (d : ℕ) → d < 64
        → slice_index bases d ≡ base_word seat.base.me.0.notes d },
}

impl<S> Editor<S> {
    /// The editor of a table that was just opened, with this many seats and disks.
    pub fn new<M: Means<S>>(
        table: &TargetTable<S, M>,
        seat: Seat<S>,
        seats: u32,
        disks: u32,
    ) -> Editor<S>
        requires opened { seat.base.me ≡ (opened_editor M.means table.now.table.shared.key, []) }
        requires seats { (seats ≡ length table.now.table.shared.key.quotas) × (seats ≤ 32) }
        requires disks { (disks ≡ table.now.table.shared.key.disks) × (disks ≤ 64) }
        ensures seat { result.seat ≡ seat }
        ensures counts { (result.seats ≡ seats) × (result.disks ≡ disks) }
        ensures spare { IsSpare 0 result.seat.base.me.0 }
    {
        let _ = table;
        Editor {
            seat,
            seats,
            disks,
            words: [0; 32],
            bases: [0; 64],
        }
    }
}

/// Looks at the section word of each seat once, in the order of their numbers: the words found,
/// by seat.
pub fn look_round<S, M: Means<S>, L: Ledger>(
    table: &TargetTable<S, M>,
    seat: &mut Seat<S>,
    seats: u32,
    steps: &mut Steps<L>,
) -> [u64; 32]
    requires own { seat.old.base.table_id ≡ table.now.table.shared.table_id }
    requires editor { seat.old.number ≡ 0 }
    requires seats { (seats ≡ seat.old.base.me.0.seats) × (seats ≤ 32) }
    ensures own { seat.new.base.table_id ≡ seat.old.base.table_id }
    ensures number { seat.new.number ≡ 0 }
    ensures told { seat.new.base.me ≡ (
      after_looks (round seats result) seat.old.base.me.0,
      seat.old.base.me.1,
    ) }
    ensures ticks { steps.new ≡ record steps.old { row = steps.old.row + seats } }
{
    let mut words = [0; 32];
    let mut other: u32 = 0;
    while other < seats {
        words[other as usize] = table.look_section(seat, other, steps);
        other += 1;
    }
    words
}
