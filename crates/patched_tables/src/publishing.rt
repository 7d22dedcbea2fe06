//! Patches that are published.
ghost use Rattle.std.specs.Prelude.{◌≡◌, ◌+◌, ◌<◌, ◌++◌, ◌∷◌, [], true, IfSome, length};
ghost use Rattle.rcu_sections.specs.Grace.{IsSpare};
ghost use Rattle.patched_tables.specs.Keeping.{Keeps, disks};
ghost use Rattle.patched_tables.specs.Patching.{patch_at};

use crate::meaning::{Patches, Table};
use rcu_sections::editor::Editor;
use rcu_sections::grace_periods::Spare;
use rcu_sections::sides::{publish, set_row, spare};
use ref_state::kinds::{EDIT, Tag};
use std::sync::ledger::Ledger;
use table_rule::ticks::Steps;

/// Stores these words of the spare side, the last first: false where one has no position in the
/// table.
pub fn set_words<I: Patches, L: Ledger>(
    table: &Table<I>,
    editor: &mut Editor<u64>,
    side: &mut Spare,
    rows: u32,
    words: &[(u32, u64)],
    steps: &mut Steps<L>,
) -> bool
    requires own { editor.old.seat.base.table_id ≡ table.now.table.shared.table_id }
    requires rows { table.now.table.shared.key.rows ≡ rows }
    requires spare { IsSpare side.old.serial editor.old.seat.base.me.0 }
    ensures own { editor.new.seat.base.table_id ≡ editor.old.seat.base.table_id }
    ensures kept { (editor.new.seats ≡ editor.old.seats) × (editor.new.disks ≡ editor.old.disks) }
    ensures spare { IsSpare side.new.serial editor.new.seat.base.me.0 }
    ensures set { result ≡ true → editor.new.seat.base.me
        ≡ (
          record editor.old.seat.base.me.0 {
            notes = record editor.old.seat.base.me.0.notes {
              pending = words.now ++ editor.old.seat.base.me.0.notes.pending;
            };
          },
          editor.old.seat.base.me.1,
        ) }
{
    match words {
        [] => true,
        [(at, word), rest @ ..] => {
            if !set_words(table, editor, side, rows, rest, steps) {
                return false;
            }
            if *at >= rows {
                return false;
            }
            set_row(table, editor, side, *at, *word, steps);
            true
        }
    }
}

// Stores the words of the last patch, which the spare side lacks, and those of the next.
fn set_both<I: Patches, L: Ledger>(
    table: &Table<I>,
    editor: &mut Editor<u64>,
    side: &mut Spare,
    rows: u32,
    last: &[(u32, u64)],
    patch: &[(u32, u64)],
    steps: &mut Steps<L>,
) -> bool
    requires own { editor.old.seat.base.table_id ≡ table.now.table.shared.table_id }
    requires rows { table.now.table.shared.key.rows ≡ rows }
    requires spare { IsSpare side.old.serial editor.old.seat.base.me.0 }
    ensures own { editor.new.seat.base.table_id ≡ editor.old.seat.base.table_id }
    ensures kept { (editor.new.seats ≡ editor.old.seats) × (editor.new.disks ≡ editor.old.disks) }
    ensures spare { IsSpare side.new.serial editor.new.seat.base.me.0 }
    ensures set { result ≡ true → editor.new.seat.base.me.0
        ≡ record editor.old.seat.base.me.0 {
          notes = record editor.old.seat.base.me.0.notes {
            pending = patch.now ++ (last.now ++ editor.old.seat.base.me.0.notes.pending);
          };
        } }
{
    if !set_words(table, editor, side, rows, last, steps) {
        return false;
    }
    set_words(table, editor, side, rows, patch, steps)
}

/// Publishes the patch of the edit with this number, where no section still reads the spare side:
/// its place and serial. The table has so many words; `last` is the patch that was published last, or nothing.
pub fn publish_patch<I: Patches, L: Ledger>(
    table: &Table<I>,
    editor: &mut Editor<u64>,
    rows: u32,
    last: &[(u32, u64)],
    patch: &[(u32, u64)],
    number: u32,
    steps: &mut Steps<L>,
) -> Option<(u32, u32)>
    requires own { editor.old.seat.base.table_id ≡ table.now.table.shared.table_id }
    requires plan { (table.now.table.shared.key.rows ≡ rows) × (rows ≡ length I.opened)
        × (table.now.table.shared.key.disks ≡ disks) }
    requires left { 0 < editor.old.seat.left }
    requires keeps { Keeps I.opened I.patches last.now editor.old.seat.base.me.0 }
    requires patch { patch.now ≡ patch_at I.patches number }
    ensures own { editor.new.seat.base.table_id ≡ editor.old.seat.base.table_id }
    ensures kept { editor.new.disks ≡ editor.old.disks }
    ensures keeps { IfSome result (λ drew. Keeps I.opened I.patches patch.now
        editor.new.seat.base.me.0) }
{
    let Ok(mut side) = spare(table, editor, steps) else {
        return None;
    };
    if !set_both(table, editor, &mut side, rows, last, patch, steps) {
        return None;
    }
    let call = Tag {
        kind: EDIT,
        caller: 0,
        number,
    };
    Some(publish(table, editor, side, call, steps))
}
