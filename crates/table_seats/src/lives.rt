//! One drain of the disk, step by step.
ghost use Rattle.std.specs.Prelude.{◌≡◌, ◌≢◌, ◌+◌, ◌<◌, ◌≤◌, ℕ, true, Some, None};
ghost use Rattle.ref_state.specs.declared.state.Count.{Count};
ghost use Rattle.ref_state.specs.declared.state.Phase.TheVariants.{Folded as IsFolded};
ghost use Rattle.table_seats.specs.Lives.{Edits, started, hidden, passed, killed_life, counted_life, next_life};

use crate::ground::Table;
use ref_state::kinds::{DONE, EDIT, Tag};
use ref_state::limits::BIAS;
use std::sync::ledger::Ledger;
use table_rule::ticks::Steps;
use target_table::table::Seat;

/// Hides the disk: the editor stores the word of the spare side and publishes it by an edit, the
/// first of the table. The place and serial of the edit.
pub fn hide<L: Ledger>(table: &Table, editor: &mut Seat<u64>, steps: &mut Steps<L>) -> (u32, u32)
    requires own { editor.old.base.table_id ≡ table.now.table.shared.table_id }
    requires plan { (table.now.table.shared.key.rows ≡ 1) × (table.now.table.shared.key.disks ≡ 1) }
    requires left { 0 < editor.old.left }
    requires edits { Edits started 1 0 editor.old.base.me.0 }
    ensures own { editor.new.base.table_id ≡ editor.old.base.table_id }
    ensures left { editor.new.left + 1 ≡ editor.old.left }
    ensures edits { Edits (hidden result.0) 0 1 editor.new.base.me.0 }
{
    table.store_row(editor, 0, 0, steps);
    let call = Tag {
        kind: EDIT,
        caller: 0,
        number: 0,
    };
    table.publish(editor, call, steps)
}

/// Kills the hidden disk's reference and looks at every section: true where each was found closed.
pub fn retire<L: Ledger>(table: &Table, editor: &mut Seat<u64>, steps: &mut Steps<L>) -> bool
    requires own { editor.old.base.table_id ≡ table.now.table.shared.table_id }
    requires plan { table.now.table.shared.key.disks ≡ 1 }
    requires edits { (p : ℕ) × Edits (hidden p) 0 1 editor.old.base.me.0 }
    ensures own { editor.new.base.table_id ≡ editor.old.base.table_id }
    ensures left { editor.new.left ≡ editor.old.left }
    ensures edits { result ≡ true
        → (p : ℕ) × Edits (passed p killed_life) 0 1 editor.new.base.me.0 }
{
    table.kill(editor, 0, steps);
    let zeroth = table.look_section(editor, 0, steps);
    let first = table.look_section(editor, 1, steps);
    let second = table.look_section(editor, 2, steps);
    let open = zeroth % 2 + first % 2 + second % 2;
    if open != 0 {
        return false;
    }
    true
}

/// Looks at every counter of the killed disk and folds them: the shared count before.
pub fn fold_all<L: Ledger>(table: &Table, editor: &mut Seat<u64>, steps: &mut Steps<L>) -> u64
    requires own { editor.old.base.table_id ≡ table.now.table.shared.table_id }
    requires plan { table.now.table.shared.key.disks ≡ 1 }
    requires edits { (p : ℕ) × Edits (passed p killed_life) 0 1 editor.old.base.me.0 }
    ensures own { editor.new.base.table_id ≡ editor.old.base.table_id }
    ensures left { editor.new.left ≡ editor.old.left }
    ensures edits { (p : ℕ) × (x : Count) × (y : Count) × (z : Count)
        × Edits (passed p (counted_life IsFolded x y z)) 0 1 editor.new.base.me.0 }
{
    let zeroth = table.look_counter(editor, 0, 0, steps);
    let first = table.look_counter(editor, 0, 1, steps);
    let second = table.look_counter(editor, 0, 2, steps);
    let sum = zeroth.wrapping_add(first).wrapping_add(second);
    table.fold(editor, 0, sum.wrapping_sub(BIAS), steps)
}

/// Looks at the folded count: where no hold stands, places the drain's end and gives the disk its
/// next life. The place of the end, or nothing where a hold stands.
pub fn end_drain<L: Ledger>(
    table: &Table,
    editor: &mut Seat<u64>,
    steps: &mut Steps<L>,
) -> Option<u32>
    requires own { editor.old.base.table_id ≡ table.now.table.shared.table_id }
    requires plan { table.now.table.shared.key.disks ≡ 1 }
    requires left { 0 < editor.old.left }
    requires edits { (p : ℕ) × (x : Count) × (y : Count) × (z : Count)
        × Edits (passed p (counted_life IsFolded x y z)) 0 1 editor.old.base.me.0 }
    ensures own { editor.new.base.table_id ≡ editor.old.base.table_id }
    ensures left { editor.old.left ≤ editor.new.left + 1 }
    ensures waits { result ≡ None → editor.new.left ≡ editor.old.left }
    ensures folded { result ≡ None → (p : ℕ) × (x : Count) × (y : Count) × (z : Count)
        × Edits (passed p (counted_life IsFolded x y z)) 0 1 editor.new.base.me.0 }
    ensures ended { (place : _) → result ≡ Some place
        → (p : ℕ) × (x : Count) × (y : Count) × (z : Count)
        × Edits (passed p (next_life x y z)) 0 0 editor.new.base.me.0 }
{
    let holds = table.look_zero(editor, 0, steps);
    if holds != 0 {
        return None;
    }
    let call = Tag {
        kind: DONE,
        caller: 0,
        number: 0,
    };
    let place = table.place_done(editor, 0, call, steps);
    table.live_shared(editor, 0, steps);
    table.live_mode(editor, 0, steps);
    Some(place)
}

/// Shows the disk by a number above 0 after its drain. The place and serial of the edit.
pub fn show<L: Ledger>(
    table: &Table,
    editor: &mut Seat<u64>,
    number: u32,
    steps: &mut Steps<L>,
) -> (u32, u32)
    requires own { editor.old.base.table_id ≡ table.now.table.shared.table_id }
    requires plan { (table.now.table.shared.key.rows ≡ 1) × (table.now.table.shared.key.disks ≡ 1) }
    requires left { 0 < editor.old.left }
    requires number { number ≢ 0 }
    requires edits { (p : ℕ) × (x : Count) × (y : Count) × (z : Count)
        × Edits (passed p (next_life x y z)) 0 0 editor.old.base.me.0 }
    ensures own { editor.new.base.table_id ≡ editor.old.base.table_id }
    ensures left { editor.new.left + 1 ≡ editor.old.left }
{
    table.store_row(editor, 0, number as u64, steps);
    let call = Tag {
        kind: EDIT,
        caller: 0,
        number,
    };
    table.publish(editor, call, steps)
}
