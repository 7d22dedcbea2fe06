//! The spare side: given out once its grace period is over, set word by word, and published.
ghost use Rattle.std.specs.Prelude.{◌≡◌, ◌≢◌, ◌+◌, ◌<◌, ◌≤◌, ◌∷◌, [], ℕ, true, IsOk, IfErr, IfOk, IfSome, IfNone, length, slice_index};
ghost use Rattle.ref_state.specs.declared.state.Mark.TheVariants.{Passed};
ghost use Rattle.ref_state.specs.declared.state.Phase.TheVariants.{Live as IsLive};
ghost use Rattle.ref_state.specs.State.{total, mark, drain, is_odd};
ghost use Rattle.table_rule.specs.Meant.{target, IsSteady};
ghost use Rattle.table_rule.specs.Shown.{claims_of};
ghost use Rattle.table_rule.specs.Plays.{Published, spare_of};
ghost use Rattle.rcu_sections.specs.Grace.{Look, after_looks, round, StillReads, IsSpare};

use crate::editor::{Editor, look_round};
use crate::grace_periods::{Reading, Spare};
use ref_state::kinds::Tag;
use std::sync::ledger::Ledger;
use table_rule::meaning::Means;
use table_rule::ticks::Steps;
use target_table::table::TargetTable;

/// One look at the section word of a seat, where an odd one was noted: the word, where it is the
/// noted one.
fn still_reads<S, M: Means<S>, L: Ledger>(
    table: &TargetTable<S, M>,
    editor: &mut Editor<S>,
    other: u32,
    steps: &mut Steps<L>,
) -> Option<u64>
    requires own { editor.old.seat.base.table_id ≡ table.now.table.shared.table_id }
    requires there { other < editor.old.seats }
    ensures own { editor.new.seat.base.table_id ≡ editor.old.seat.base.table_id }
    ensures kept { (editor.new.words ≡ editor.old.words) × (editor.new.bases ≡ editor.old.bases)
        × (editor.new.seats ≡ editor.old.seats) × (editor.new.disks ≡ editor.old.disks) }
    ensures told { (looks : _) × (editor.new.seat.base.me
        ≡ (after_looks looks editor.old.seat.base.me.0, editor.old.seat.base.me.1)) }
    ensures reading { IfSome result (λ count. (is_odd count ≡ true)
        × (slice_index editor.old.words other ≡ count) × (editor.new.seat.base.me
        ≡ (
          after_looks ((other, count) ∷ []) editor.old.seat.base.me.0,
          editor.old.seat.base.me.1,
        ))) }
    ensures passed { IfNone result (mark editor.new.seat.base.me.0.notes.marks other ≡ Passed) }
    ensures ticks { (n : ℕ) × (n ≤ 1)
        × (steps.new ≡ record steps.old { row = steps.old.row + n }) }
{
    let noted = editor.words[other as usize];
    if noted % 2 == 0 {
        return None;
    }
    let found = table.look_section(&mut editor.seat, other, steps);
    if found == noted { Some(found) } else { None }
}

/// Asks for the spare side: one pass over the section words that were noted odd at the last
/// publish. `Reading` where one of them was just found as noted; no word changes then, and a later
/// call may find more. This is `synchronize_rcu`, asked and not waited for.
pub fn spare<S, M: Means<S>, L: Ledger>(
    table: &TargetTable<S, M>,
    editor: &mut Editor<S>,
    steps: &mut Steps<L>,
) -> Result<Spare, Reading>
    requires own { editor.old.seat.base.table_id ≡ table.now.table.shared.table_id }
    ensures own { editor.new.seat.base.table_id ≡ editor.old.seat.base.table_id }
    ensures kept { (editor.new.words ≡ editor.old.words) × (editor.new.bases ≡ editor.old.bases)
        × (editor.new.seats ≡ editor.old.seats) × (editor.new.disks ≡ editor.old.disks) }
    ensures told { (looks : _) × (editor.new.seat.base.me
        ≡ (after_looks looks editor.old.seat.base.me.0, editor.old.seat.base.me.1)) }
    ensures spare { IfOk result (λ s. IsSpare s.serial editor.new.seat.base.me.0) }
    ensures reading { IfErr result (λ r. (r.seat < editor.old.seats) × StillReads editor.old.words
        r.seat r.count editor.old.seat.base.me.0 editor.new.seat.base.me.0) }
    ensures ticks { (n : ℕ) × (n ≤ editor.old.seats)
        × (steps.new ≡ record steps.old { row = steps.old.row + n }) }
{
    let seats = editor.seats;
    let mut other: u32 = 0;
    while other < seats {
        if let Some(count) = still_reads(table, editor, other, steps) {
            return Err(Reading { seat: other, count });
        }
        other += 1;
    }
    let serial = editor.seat.serial;
    Ok(Spare { serial })
}

/// Stores a word of the spare side, counted from 0. One step.
pub fn set_row<S, M: Means<S>, L: Ledger>(
    table: &TargetTable<S, M>,
    editor: &mut Editor<S>,
    spare: &mut Spare,
    word: u32,
    value: u64,
    steps: &mut Steps<L>,
)
    requires own { editor.old.seat.base.table_id ≡ table.now.table.shared.table_id }
    requires spare { IsSpare spare.old.serial editor.old.seat.base.me.0 }
    requires near { word < table.now.table.shared.key.rows }
    ensures own { editor.new.seat.base.table_id ≡ editor.old.seat.base.table_id }
    ensures kept { (editor.new.words ≡ editor.old.words) × (editor.new.bases ≡ editor.old.bases)
        × (editor.new.seats ≡ editor.old.seats) × (editor.new.disks ≡ editor.old.disks) }
    ensures spare { (spare.new ≡ spare.old) × IsSpare spare.new.serial editor.new.seat.base.me.0 }
    ensures view { editor.new.seat.base.me
        ≡ (
          record editor.old.seat.base.me.0 {
            notes = record editor.old.seat.base.me.0.notes {
              pending
                  = (word, value) ∷ editor.old.seat.base.me.0.notes.pending;
            };
          },
          editor.old.seat.base.me.1,
        ) }
    ensures ticks { steps.new ≡ record steps.old { row = steps.old.row + 1 } }
{
    let _ = spare.serial;
    table.store_row(&mut editor.seat, word, value, steps);
}

/// Publishes the spare side by this call, one of kind `CONTROL`, `THROUGH` or `EDIT`: its place,
/// counted from 0, and the serial that it begins, by one step on the clock. Then notes each
/// section word by one look, for the grace period that begins with it.
pub fn publish<S, M: Means<S>, L: Ledger>(
    table: &TargetTable<S, M>,
    editor: &mut Editor<S>,
    spare: Spare,
    call: Tag,
    steps: &mut Steps<L>,
) -> (u32, u32)
    requires own { editor.old.seat.base.table_id ≡ table.now.table.shared.table_id }
    requires spare { IsSpare spare.serial editor.old.seat.base.me.0 }
    requires left { 0 < editor.old.seat.left }
    requires kind { (3 < call.kind) × (call.kind < 7) }
    requires editors { 5 < call.kind → call.caller ≡ 0 }
    requires caller { 0 < total (claims_of call.caller) editor.old.seat.base.me.0.claims }
    requires live { (d : ℕ) → d < table.now.table.shared.key.disks
        → slice_index (spare_of editor.old.seat.base.me.0.notes) d ≢ 0
        → (drain editor.old.seat.base.me.0.notes d).phase ≡ IsLive }
    requires words { (t : M.Target) → IsSteady M.means
        (target M.means editor.old.seat.base.me.0.known) t
        → length (spare_of editor.old.seat.base.me.0.notes) ≡ table.now.table.shared.key.rows
        → M.means.words (M.means.next t call) ≡ spare_of editor.old.seat.base.me.0.notes }
    ensures own { (editor.new.seat.base.table_id ≡ editor.old.seat.base.table_id)
        × (editor.new.seat.base.me.1 ≡ editor.old.seat.base.me.1) }
    ensures kept { (editor.new.bases ≡ editor.old.bases) × (editor.new.seats ≡ editor.old.seats)
        × (editor.new.disks ≡ editor.old.disks) }
    ensures published { (mid : _) × Published M.means call editor.old.seat.base.me.0 mid result.0
        result.1 × (editor.new.seat.base.me.0
        ≡ after_looks (round editor.old.seats editor.new.words) mid) }
    ensures shows { length (spare_of editor.old.seat.base.me.0.notes)
        ≡ table.now.table.shared.key.rows
        → M.means.words (target M.means editor.new.seat.base.me.0.known)
        ≡ spare_of editor.old.seat.base.me.0.notes }
    ensures ticks { steps.new ≡ record steps.old {
      clock = steps.old.clock + 1;
      row = steps.old.row + editor.old.seats;
    } }
{
    let _ = spare;
    let drew = table.publish(&mut editor.seat, call, steps);
    let seats = editor.seats;
    editor.words = look_round(table, &mut editor.seat, seats, steps);
    drew
}
