//! Gets and puts.
ghost use Rattle.std.specs.Prelude.{◌≡◌, ◌≢◌, ◌⊎◌, ◌+◌, ◌<◌, ◌∷◌, [], ℕ, true, false, Some, None};
ghost use Rattle.ref_state.specs.declared.state.Section.TheVariants.{Out};
ghost use Rattle.ref_state.specs.declared.state.LoadedMode.TheVariants.{NotLoaded};
ghost use Rattle.ref_state.specs.State.{is_open};
ghost use Rattle.ref_state.specs.Steps.{after_get, after_put, hold_of, is_on, may_put, Some_where};
ghost use Rattle.table_rule.specs.Plays.{MayGet};
ghost use Rattle.percpu_ref.specs.Holds.{the_hold, MayPut, Gets, Puts, own_steps, shared_steps, words_found, put_of};

use crate::holds::Hold;
use crate::put_kinds::Put;
use rcu_sections::sections::Section;
use ref_state::kinds::Take;
use ref_state::limits::LIVE;
use std::sync::ledger::Ledger;
use table_rule::meaning::Means;
use table_rule::ticks::Steps;
use target_table::table::{Seat, TargetTable};

// Raises the count of the disk where its mode, which this call loads, tells.
fn count_up<S, M: Means<S>, L: Ledger>(
    table: &TargetTable<S, M>,
    seat: &mut Seat<S>,
    disk: u32,
    steps: &mut Steps<L>,
)
    requires own { seat.old.base.table_id ≡ table.now.table.shared.table_id }
    requires near { (disk < table.now.table.shared.key.disks) × (disk < 64) }
    requires open { is_open seat.old.base.me.0.view.section ≡ true }
    requires may { MayGet M.means seat.old.base.me.0 disk }
    ensures own { seat.new.base.table_id ≡ seat.old.base.table_id }
    ensures counted { (mode : ℕ) × (before : ℕ) × (seat.new.base.me
        ≡ (
          record seat.old.base.me.0 {
            view = after_get disk seat.old.base.me.0.view;
            found = words_found disk mode before seat.old.base.me.0.found;
          },
          seat.old.base.me.1,
        )) × (steps.new ≡ record steps.old {
          own = steps.old.own + own_steps mode;
          shared = steps.old.shared + shared_steps mode;
          row = steps.old.row + 1;
        }) }
{
    let mode = table.load_mode(seat, disk, steps);
    if mode == LIVE {
        table.add_own(seat, disk, true, steps);
    } else {
        let _before = table.add_shared(seat, disk, true, steps);
    }
}

// Lowers the count of the disk where its mode, which this call loads, tells: the shared count
// before, where it went there.
fn count_down<S, M: Means<S>, L: Ledger>(
    table: &TargetTable<S, M>,
    seat: &mut Seat<S>,
    disk: u32,
    steps: &mut Steps<L>,
) -> Put
    requires own { seat.old.base.table_id ≡ table.now.table.shared.table_id }
    requires near { (disk < table.now.table.shared.key.disks) × (disk < 64) }
    requires open { is_open seat.old.base.me.0.view.section ≡ true }
    requires held { Some_where (is_on disk) seat.old.base.me.0.view.holds }
    requires may { Some_where (may_put disk) seat.old.base.me.0.view.holds }
    ensures own { seat.new.base.table_id ≡ seat.old.base.table_id }
    ensures counted { (mode : ℕ) × (before : ℕ) × (result ≡ put_of mode before)
        × (seat.new.base.me
        ≡ (
          record seat.old.base.me.0 {
            view = after_put disk seat.old.base.me.0.view;
            found = words_found disk mode before seat.old.base.me.0.found;
          },
          seat.old.base.me.1,
        )) × (steps.new ≡ record steps.old {
          own = steps.old.own + own_steps mode;
          shared = steps.old.shared + shared_steps mode;
          row = steps.old.row + 1;
        }) }
{
    let mode = table.load_mode(seat, disk, steps);
    if mode == LIVE {
        table.add_own(seat, disk, false, steps);
        return Put::Kept;
    }
    let before = table.add_shared(seat, disk, false, steps);
    if before == 1 { Put::Last } else { Put::Kept }
}

/// Gets a hold on the disk for the section's call: `percpu_ref_get`. It can't fail: the section
/// shows the disk, so its reference is live, or killed and not yet folded.
pub fn get<S, M: Means<S>, L: Ledger>(
    table: &TargetTable<S, M>,
    section: &mut Section<'_, S>,
    disk: u32,
    steps: &mut Steps<L>,
) -> Hold<S>
    requires own { section.old.seat.now.base.table_id ≡ table.now.table.shared.table_id }
    requires near { (disk < table.now.table.shared.key.disks) × (disk < 64) }
    requires shown { MayGet M.means section.old.seat.now.base.me.0 disk }
    requires free { section.old.seat.now.base.me.0.view.holds ≡ [] }
    ensures same { section.new.seat.ghost_name ≡ section.old.seat.ghost_name }
    ensures own { (section.new.seat.now.base.table_id ≡ section.old.seat.now.base.table_id)
        × (result.part.base.table_id ≡ section.old.seat.now.base.table_id)
        × (section.new.seat.now.base.me.1 ≡ section.old.seat.now.base.me.1) }
    ensures disk { result.disk ≡ disk }
    ensures hold { result.part.base.me.0.view.holds
        ≡ hold_of disk section.old.seat.now.base.me.0.view.section }
    ensures seen { result.part.base.me.0.known ≡ section.old.seat.now.base.me.0.known }
    ensures gets { Gets disk section.old.seat.now.base.me.0 section.new.seat.now.base.me.0
        steps.old steps.new }
{
    count_up(table, section.seat, disk, steps);
    let part = table.split(section.seat, Take::Hold(disk), steps);
    Hold { part, disk }
}

/// Puts a hold, in a section of its own: `percpu_ref_put`. Any seat may put a hold that another
/// got, of a bare call or of a command whose Execute is placed. `Last` exactly where its step
/// brought the folded count to 0, which happens once in a life at most.
pub fn put<S, M: Means<S>, L: Ledger>(
    table: &TargetTable<S, M>,
    seat: &mut Seat<S>,
    hold: Hold<S>,
    steps: &mut Steps<L>,
) -> Put
    requires own { (seat.old.base.table_id ≡ table.now.table.shared.table_id)
        × (hold.part.base.table_id ≡ table.now.table.shared.table_id) }
    requires near { (hold.disk < table.now.table.shared.key.disks) × (hold.disk < 64) }
    requires closed { seat.old.base.me.0.view.section ≡ Out }
    requires free { seat.old.base.me.0.view.holds ≡ [] }
    requires may { MayPut (the_hold hold.part.base.me.0.view.holds) }
    ensures own { (seat.new.base.table_id ≡ seat.old.base.table_id)
        × (seat.new.base.me.1 ≡ seat.old.base.me.1) }
    ensures puts { Puts hold.disk hold.part.base.me.0 seat.old.base.me.0 seat.new.base.me.0 result
        steps.old steps.new }
{
    let _left = seat.left;
    let Hold { part, disk } = hold;
    table.join(seat, part, steps);
    table.enter_section(seat, steps);
    let answer = count_down(table, seat, disk, steps);
    table.leave_section(seat, steps);
    answer
}
