//! Edits that show the disk by another number.
ghost use Rattle.std.specs.Prelude.{◌≡◌, ◌≢◌, ◌+◌, ◌<◌, ◌≤◌, true};
ghost use Rattle.ref_state.specs.State.{AllPassed};
ghost use Rattle.table_seats.specs.Publishing.{Publishes};

use crate::ground::Table;
use ref_state::kinds::{EDIT, Tag};
use std::sync::ledger::Ledger;
use table_rule::ticks::Steps;
use target_table::table::Seat;

/// Looks at every section: true where each was found closed, so that every seat has passed.
pub fn look_all<L: Ledger>(table: &Table, editor: &mut Seat<u64>, steps: &mut Steps<L>) -> bool
    requires own { editor.old.base.table_id ≡ table.now.table.shared.table_id }
    requires edits { Publishes editor.old.base.me.0 }
    ensures own { editor.new.base.table_id ≡ editor.old.base.table_id }
    ensures left { editor.new.left ≡ editor.old.left }
    ensures edits { Publishes editor.new.base.me.0 }
    ensures passed { result ≡ true
        → AllPassed editor.new.base.me.0.seats editor.new.base.me.0.notes.marks }
{
    let zeroth = table.look_section(editor, 0, steps);
    let first = table.look_section(editor, 1, steps);
    let second = table.look_section(editor, 2, steps);
    let open = zeroth % 2 + first % 2 + second % 2;
    if open != 0 {
        return false;
    }
    true
}

/// Publishes the disk by a number above 0, once every seat has passed: the place and serial.
pub fn show_by<L: Ledger>(
    table: &Table,
    editor: &mut Seat<u64>,
    number: u32,
    steps: &mut Steps<L>,
) -> (u32, u32)
    requires own { editor.old.base.table_id ≡ table.now.table.shared.table_id }
    requires plan { (table.now.table.shared.key.rows ≡ 1) × (table.now.table.shared.key.disks ≡ 1) }
    requires left { 0 < editor.old.left }
    requires number { number ≢ 0 }
    requires edits { Publishes editor.old.base.me.0 }
    requires passed { AllPassed editor.old.base.me.0.seats editor.old.base.me.0.notes.marks }
    ensures own { editor.new.base.table_id ≡ editor.old.base.table_id }
    ensures left { editor.new.left + 1 ≡ editor.old.left }
    ensures edits { Publishes editor.new.base.me.0 }
{
    table.store_row(editor, 0, number as u64, steps);
    let call = Tag {
        kind: EDIT,
        caller: 0,
        number,
    };
    table.publish(editor, call, steps)
}
