//! The editor's calls on a disk's reference, from its kill to its next life.
ghost use Rattle.std.specs.Prelude.{◌≡◌, ◌≢◌, ◌+◌, ◌*◌, ◌<◌, ◌≤◌, ◌∷◌, [], ℕ, true, false, IfOk, IfErr, IfSome, IfNone, length, slice_index, slice_set};
ghost use Rattle.ref_state.specs.declared.state.Mark.TheVariants.{Passed};
ghost use Rattle.ref_state.specs.declared.state.Phase.TheVariants.{Live as IsInLife, Killed as IsInKilled, Folded as IsInFolded, Drained as IsInDrained};
ghost use Rattle.ref_state.specs.State.{total, conf, drain, mark, is_odd, AllPassed};
ghost use Rattle.table_rule.specs.Words.{at, SharedOf};
ghost use Rattle.table_rule.specs.Plays.{with_life, killed, zero_notes, armed, revived, Ended};
ghost use Rattle.table_rule.specs.Meant.{target, IsSteady, of_pair, on};
ghost use Rattle.table_rule.specs.Shown.{claims_of};
ghost use Rattle.rcu_sections.specs.Grace.{after_looks, round, StillReads};
ghost use Rattle.percpu_ref.specs.Lives.{IsKilled, Folds, FoldsNow, IsPolled, new_life};

use crate::counting::sum_counters;
use crate::lives::{Folded, Killed, Polled};
use rcu_sections::editor::{Editor, look_round};
use rcu_sections::grace_periods::Reading;
use ref_state::kinds::Tag;
use ref_state::limits::BIAS;
use std::sync::ledger::Ledger;
use table_rule::meaning::Means;
use table_rule::ticks::Steps;
use target_table::table::TargetTable;

/// Kills the reference of a disk that is live and that the last serial doesn't show:
/// `percpu_ref_kill`. Who loads the mode from here on counts on the shared count. Then notes each
/// section word by one look.
pub fn kill<S, M: Means<S>, L: Ledger>(
    table: &TargetTable<S, M>,
    editor: &mut Editor<S>,
    disk: u32,
    steps: &mut Steps<L>,
) -> Killed
    requires own { editor.old.seat.base.table_id ≡ table.now.table.shared.table_id }
    requires near { (disk < table.now.table.shared.key.disks) × (disk < editor.old.disks) }
    requires live { (drain editor.old.seat.base.me.0.notes disk).phase ≡ IsInLife }
    requires hidden { slice_index (conf editor.old.seat.base.me.0.notes
        (length editor.old.seat.base.me.0.notes.published)) disk ≡ 0 }
    ensures own { editor.new.seat.base.table_id ≡ editor.old.seat.base.table_id }
    ensures kept { (editor.new.words ≡ editor.old.words) × (editor.new.bases ≡ editor.old.bases)
        × (editor.new.seats ≡ editor.old.seats) × (editor.new.disks ≡ editor.old.disks) }
    ensures disk { result.disk ≡ disk }
    ensures killed { IsKilled disk result.words editor.new.seat.base.me.0 }
    ensures told { editor.new.seat.base.me ≡ (
      after_looks (round editor.old.seats result.words) (record editor.old.seat.base.me.0 {
        notes = with_life disk
            (killed editor.old.seat.base.me.0.seats disk editor.old.seat.base.me.0.notes)
            editor.old.seat.base.me.0.notes;
      }),
      editor.old.seat.base.me.1,
    ) }
    ensures ticks { steps.new ≡ record steps.old { row = steps.old.row + 1 + editor.old.seats } }
{
    table.kill(&mut editor.seat, disk, steps);
    let seats = editor.seats;
    let words = look_round(table, &mut editor.seat, seats, steps);
    Killed { disk, words }
}

// One look at the section word of a seat, where an odd one was noted at the kill: the word, where
// it is the noted one.
fn still_counts<S, M: Means<S>, L: Ledger>(
    table: &TargetTable<S, M>,
    editor: &mut Editor<S>,
    killed: &Killed,
    other: u32,
    steps: &mut Steps<L>,
) -> Option<u64>
    requires own { editor.old.seat.base.table_id ≡ table.now.table.shared.table_id }
    requires there { other < editor.old.seats }
    requires killed { IsKilled killed.now.disk killed.now.words editor.old.seat.base.me.0 }
    ensures own { editor.new.seat.base.table_id ≡ editor.old.seat.base.table_id }
    ensures kept { (editor.new.words ≡ editor.old.words) × (editor.new.bases ≡ editor.old.bases)
        × (editor.new.seats ≡ editor.old.seats) × (editor.new.disks ≡ editor.old.disks) }
    ensures told { (looks : _) × (editor.new.seat.base.me
        ≡ (after_looks looks editor.old.seat.base.me.0, editor.old.seat.base.me.1)) }
    ensures reading { IfSome result (λ count. (is_odd count ≡ true)
        × (slice_index killed.now.words other ≡ count) × (editor.new.seat.base.me
        ≡ (
          after_looks ((other, count) ∷ []) editor.old.seat.base.me.0,
          editor.old.seat.base.me.1,
        ))) }
    ensures passed { IfNone result
        (mark (drain editor.new.seat.base.me.0.notes killed.now.disk).marks other ≡ Passed) }
    ensures ticks { (n : ℕ) × (n ≤ 1)
        × (steps.new ≡ record steps.old { row = steps.old.row + n }) }
{
    let noted = killed.words[other as usize];
    if noted % 2 == 0 {
        return None;
    }
    let found = table.look_section(&mut editor.seat, other, steps);
    if found == noted { Some(found) } else { None }
}

// One pass over the section words that were noted odd at the kill: a seat whose word was just found
// as noted, or nothing where every seat has passed.
fn find_reader<S, M: Means<S>, L: Ledger>(
    table: &TargetTable<S, M>,
    editor: &mut Editor<S>,
    killed: &Killed,
    steps: &mut Steps<L>,
) -> Option<Reading>
    requires own { editor.old.seat.base.table_id ≡ table.now.table.shared.table_id }
    requires killed { IsKilled killed.now.disk killed.now.words editor.old.seat.base.me.0 }
    ensures own { editor.new.seat.base.table_id ≡ editor.old.seat.base.table_id }
    ensures kept { (editor.new.words ≡ editor.old.words) × (editor.new.bases ≡ editor.old.bases)
        × (editor.new.seats ≡ editor.old.seats) × (editor.new.disks ≡ editor.old.disks) }
    ensures told { (looks : _) × (editor.new.seat.base.me
        ≡ (after_looks looks editor.old.seat.base.me.0, editor.old.seat.base.me.1)) }
    ensures reading { IfSome result (λ r. (r.seat < editor.old.seats) × StillReads killed.now.words
        r.seat r.count editor.old.seat.base.me.0 editor.new.seat.base.me.0) }
    ensures passed { IfNone result (AllPassed editor.new.seat.base.me.0.seats
        (drain editor.new.seat.base.me.0.notes killed.now.disk).marks) }
    ensures ticks { (n : ℕ) × (n ≤ editor.old.seats)
        × (steps.new ≡ record steps.old { row = steps.old.row + n }) }
{
    let seats = editor.seats;
    let mut other: u32 = 0;
    while other < seats {
        if let Some(count) = still_counts(table, editor, killed, other, steps) {
            return Some(Reading { seat: other, count });
        }
        other += 1;
    }
    None
}

// Adds up the own counters of a killed disk whose grace period is over, and adds their sum less
// the bases and the bias to the shared count.
fn add_counters<S, M: Means<S>, L: Ledger>(
    table: &TargetTable<S, M>,
    editor: &mut Editor<S>,
    disk: u32,
    steps: &mut Steps<L>,
)
    requires own { editor.old.seat.base.table_id ≡ table.now.table.shared.table_id }
    requires near { (disk < table.now.table.shared.key.disks) × (disk < editor.old.disks) }
    requires killed { (drain editor.old.seat.base.me.0.notes disk).phase ≡ IsInKilled }
    requires passed { AllPassed editor.old.seat.base.me.0.seats
        (drain editor.old.seat.base.me.0.notes disk).marks }
    requires long { length (drain editor.old.seat.base.me.0.notes disk).looked
        ≡ editor.old.seats }
    ensures own { (editor.new.seat.base.table_id ≡ editor.old.seat.base.table_id)
        × (editor.new.seat.base.me.1 ≡ editor.old.seat.base.me.1) }
    ensures kept { (editor.new.words ≡ editor.old.words)
        × (editor.new.seats ≡ editor.old.seats) × (editor.new.disks ≡ editor.old.disks) }
    ensures bases { (d : ℕ) → d ≢ disk
        → slice_index editor.new.bases d ≡ slice_index editor.old.bases d }
    ensures folds { FoldsNow disk editor.old.seat.base.me.0 editor.new.seat.base.me.0 }
    ensures ticks { steps.new ≡ record steps.old {
      row = steps.old.row + editor.old.seats;
      shared = steps.old.shared + 1;
    } }
{
    let seats = editor.seats;
    let sum = sum_counters(table, &mut editor.seat, disk, seats, steps);
    let base = editor.bases[disk as usize];
    let delta = sum.wrapping_sub(base).wrapping_sub(BIAS);
    table.fold(&mut editor.seat, disk, delta, steps);
    editor.bases[disk as usize] = sum;
}

/// Folds the own counters of a killed disk into its shared count, once every section that could
/// count on its own counter was left: one pass over the section words that were noted odd at the
/// kill, then one look at each own counter, and then one step on the shared count, which takes the
/// bias off (`percpu_ref_switch_to_atomic_rcu`). `Reading` where one of the section words was just
/// found as noted; the reference stays killed, and a later call may fold it.
pub fn fold<S, M: Means<S>, L: Ledger>(
    table: &TargetTable<S, M>,
    editor: &mut Editor<S>,
    killed: Killed,
    steps: &mut Steps<L>,
) -> Result<Folded, (Killed, Reading)>
    requires own { editor.old.seat.base.table_id ≡ table.now.table.shared.table_id }
    requires near { (killed.disk < table.now.table.shared.key.disks)
        × (killed.disk < editor.old.disks) }
    requires killed { IsKilled killed.disk killed.words editor.old.seat.base.me.0 }
    ensures own { (editor.new.seat.base.table_id ≡ editor.old.seat.base.table_id)
        × (editor.new.seat.base.me.1 ≡ editor.old.seat.base.me.1) }
    ensures kept { (editor.new.words ≡ editor.old.words)
        × (editor.new.seats ≡ editor.old.seats) × (editor.new.disks ≡ editor.old.disks) }
    ensures bases { (d : ℕ) → d ≢ killed.disk
        → slice_index editor.new.bases d ≡ slice_index editor.old.bases d }
    ensures folded { IfOk result (λ f. (f.disk ≡ killed.disk) × Folds killed.disk
        editor.old.seat.base.me.0 editor.new.seat.base.me.0) }
    ensures reading { IfErr result (λ r. (r.1.seat < editor.old.seats) × StillReads killed.words
        r.1.seat r.1.count editor.old.seat.base.me.0 editor.new.seat.base.me.0) }
    ensures killed { IfErr result (λ r. (r.0 ≡ killed)
        × IsKilled killed.disk killed.words editor.new.seat.base.me.0) }
    ensures ticks { (n : ℕ) × (m : ℕ) × (n ≤ 2 * editor.old.seats) × (m ≤ 1)
        × (steps.new ≡ record steps.old {
          row = steps.old.row + n;
          shared = steps.old.shared + m;
        }) }
{
    if let Some(reading) = find_reader(table, editor, &killed, steps) {
        return Err((killed, reading));
    }
    let Killed { disk, words: _ } = killed;
    add_counters(table, editor, disk, steps);
    Ok(Folded { disk })
}

/// Looks at the shared count of a folded reference: `percpu_ref_is_zero`. One step.
pub fn poll<S, M: Means<S>, L: Ledger>(
    table: &TargetTable<S, M>,
    editor: &mut Editor<S>,
    folded: Folded,
    steps: &mut Steps<L>,
) -> Polled
    requires own { editor.old.seat.base.table_id ≡ table.now.table.shared.table_id }
    requires near { (folded.disk < table.now.table.shared.key.disks)
        × (folded.disk < editor.old.disks) }
    requires folded { (drain editor.old.seat.base.me.0.notes folded.disk).phase ≡ IsInFolded }
    ensures own { editor.new.seat.base.table_id ≡ editor.old.seat.base.table_id }
    ensures kept { (editor.new.words ≡ editor.old.words) × (editor.new.bases ≡ editor.old.bases)
        × (editor.new.seats ≡ editor.old.seats) × (editor.new.disks ≡ editor.old.disks) }
    ensures told { (n : ℕ) × IsPolled folded.disk n result × (editor.new.seat.base.me
        ≡ (
          record editor.old.seat.base.me.0 {
            notes = zero_notes folded.disk n editor.old.seat.base.me.0.notes;
            found = (at (SharedOf folded.disk), n) ∷ editor.old.seat.base.me.0.found;
          },
          editor.old.seat.base.me.1,
        )) }
    ensures ticks { steps.new ≡ record steps.old { shared = steps.old.shared + 1 } }
{
    let Folded { disk } = folded;
    let holds = table.look_zero(&mut editor.seat, disk, steps);
    if holds == 0 {
        Polled::Drained
    } else {
        Polled::Draining(Folded { disk }, holds)
    }
}

/// Draws the place of a drain's end, its Done, counted from 0, by one step on the clock. No command
/// is held on the disk at that place.
pub fn place_done<S, M: Means<S>, L: Ledger>(
    table: &TargetTable<S, M>,
    editor: &mut Editor<S>,
    disk: u32,
    call: Tag,
    steps: &mut Steps<L>,
) -> u32
    requires own { editor.old.seat.base.table_id ≡ table.now.table.shared.table_id }
    requires left { 0 < editor.old.seat.left }
    requires near { (disk < table.now.table.shared.key.disks) × (disk < editor.old.disks) }
    requires kind { (call.kind ≡ 7) × (call.caller ≡ 0) }
    requires caller { 0 < total (claims_of call.caller) editor.old.seat.base.me.0.claims }
    requires drained { ((drain editor.old.seat.base.me.0.notes disk).phase ≡ IsInDrained)
        × ((drain editor.old.seat.base.me.0.notes disk).done_placed ≡ false) }
    requires lawful { (t : M.Target) → IsSteady M.means
        (target M.means editor.old.seat.base.me.0.known) t
        → total (of_pair (on disk)) (M.means.commands t) ≡ 0 → (M.means.lawful t call ≡ true)
        × (M.means.words (M.means.next t call) ≡ M.means.words t) }
    ensures own { (editor.new.seat.base.table_id ≡ editor.old.seat.base.table_id)
        × (editor.new.seat.base.me.1 ≡ editor.old.seat.base.me.1) }
    ensures kept { (editor.new.words ≡ editor.old.words) × (editor.new.bases ≡ editor.old.bases)
        × (editor.new.seats ≡ editor.old.seats) × (editor.new.disks ≡ editor.old.disks) }
    ensures ended { (serial : ℕ) × Ended M.means call disk editor.old.seat.base.me.0
        editor.new.seat.base.me.0 result serial }
    ensures ticks { steps.new ≡ record steps.old { clock = steps.old.clock + 1 } }
{
    table.place_done(&mut editor.seat, disk, call, steps)
}

/// Makes a drained reference live again, whose Done is placed and whose disk the last serial
/// doesn't show: first the bias, then the mode (`percpu_ref_reinit`). Two steps.
pub fn revive<S, M: Means<S>, L: Ledger>(
    table: &TargetTable<S, M>,
    editor: &mut Editor<S>,
    disk: u32,
    steps: &mut Steps<L>,
)
    requires own { editor.old.seat.base.table_id ≡ table.now.table.shared.table_id }
    requires near { (disk < table.now.table.shared.key.disks) × (disk < editor.old.disks) }
    requires drained { ((drain editor.old.seat.base.me.0.notes disk).phase ≡ IsInDrained)
        × ((drain editor.old.seat.base.me.0.notes disk).done_placed ≡ true) }
    requires hidden { slice_index (conf editor.old.seat.base.me.0.notes
        (length editor.old.seat.base.me.0.notes.published)) disk ≡ 0 }
    ensures own { editor.new.seat.base.table_id ≡ editor.old.seat.base.table_id }
    ensures kept { (editor.new.words ≡ editor.old.words) × (editor.new.bases ≡ editor.old.bases)
        × (editor.new.seats ≡ editor.old.seats) × (editor.new.disks ≡ editor.old.disks) }
    ensures live { (drain editor.new.seat.base.me.0.notes disk).phase ≡ IsInLife }
    ensures view { editor.new.seat.base.me ≡ (
      record editor.old.seat.base.me.0 { notes = new_life disk editor.old.seat.base.me.0.notes },
      editor.old.seat.base.me.1,
    ) }
    ensures ticks { steps.new ≡ record steps.old {
      shared = steps.old.shared + 1;
      row = steps.old.row + 1;
    } }
{
    table.live_shared(&mut editor.seat, disk, steps);
    table.live_mode(&mut editor.seat, disk, steps);
}
