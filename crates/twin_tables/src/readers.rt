//! Calls in read sections: both words read, a hold got and put.
ghost use Rattle.std.specs.Prelude.{◌≡◌, ◌≢◌, ◌+◌, ◌<◌, ◌≤◌, ◌∷◌, [], IfSome};
ghost use Rattle.percpu_ref.specs.Holds.{the_hold, MayPut};
ghost use Rattle.twin_tables.specs.Keeping.{Rests, all_steps};

use crate::meaning::Table;
use percpu_ref::holds::Hold;
use percpu_ref::put_kinds::Put;
use percpu_ref::references::{get, put};
use rcu_sections::editor::Editor;
use rcu_sections::sections::{enter, leave, place, row};
use ref_state::kinds::{BARE, Tag};
use std::sync::ledger::Ledger;
use table_rule::ticks::Steps;
use target_table::table::Seat;

/// A bare call in a section of its own: its place and serial, and both words there, which are the
/// same.
pub fn read_pair<L: Ledger>(
    table: &Table,
    seat: &mut Seat<u64>,
    number: u32,
    steps: &mut Steps<L>,
) -> (u32, u32, u64, u64)
    requires own { seat.old.base.table_id ≡ table.now.table.shared.table_id }
    requires rows { table.now.table.shared.key.rows ≡ 2 }
    requires rests { Rests seat.old.number seat.old.base.me.0 }
    requires left { 0 < seat.old.left }
    ensures own { seat.new.base.table_id ≡ seat.old.base.table_id }
    ensures number { seat.new.number ≡ seat.old.number }
    ensures rests { Rests seat.new.number seat.new.base.me.0 }
    ensures left { seat.new.left + 1 ≡ seat.old.left }
    ensures together { result.2 ≡ result.3 }
{
    let call = Tag {
        kind: BARE,
        caller: seat.number,
        number,
    };
    let mut section = enter(table, seat, steps);
    let (at, serial) = place(table, &mut section, call, steps);
    let first = row(table, &mut section, 0, steps);
    let second = row(table, &mut section, 1, steps);
    leave(table, section, steps);
    (at, serial, first, second)
}

/// A bare call in a section of its own that gets a hold on this disk, where the disk is shown
/// there, with its place and serial: seven steps at most.
pub fn take_hold<L: Ledger>(
    table: &Table,
    seat: &mut Seat<u64>,
    disk: u32,
    number: u32,
    steps: &mut Steps<L>,
) -> (u32, u32, Option<Hold<u64>>)
    requires own { seat.old.base.table_id ≡ table.now.table.shared.table_id }
    requires plan { (table.now.table.shared.key.rows ≡ 2) × (table.now.table.shared.key.disks ≡ 2) }
    requires near { disk < 2 }
    requires rests { Rests seat.old.number seat.old.base.me.0 }
    requires left { 0 < seat.old.left }
    ensures own { seat.new.base.table_id ≡ seat.old.base.table_id }
    ensures number { seat.new.number ≡ seat.old.number }
    ensures rests { Rests seat.new.number seat.new.base.me.0 }
    ensures left { seat.new.left + 1 ≡ seat.old.left }
    ensures hold { IfSome result.2 (λ h. (h.disk ≡ disk)
        × (h.part.base.table_id ≡ seat.old.base.table_id)
        × MayPut (the_hold h.part.base.me.0.view.holds)) }
    ensures steps { all_steps steps.new ≤ all_steps steps.old + 7 }
{
    let call = Tag {
        kind: BARE,
        caller: seat.number,
        number,
    };
    let mut section = enter(table, seat, steps);
    let (at, serial) = place(table, &mut section, call, steps);
    let shown = row(table, &mut section, disk, steps);
    if shown == 0 {
        leave(table, section, steps);
        return (at, serial, None);
    }
    let hold = get(table, &mut section, disk, steps);
    leave(table, section, steps);
    (at, serial, Some(hold))
}

/// Gets a hold on this disk in one section, where the disk is shown, and puts it in another: the
/// place and serial of the call that gets it, and what the put answers.
pub fn hold_once<L: Ledger>(
    table: &Table,
    seat: &mut Seat<u64>,
    disk: u32,
    number: u32,
    steps: &mut Steps<L>,
) -> (u32, u32, Option<Put>)
    requires own { seat.old.base.table_id ≡ table.now.table.shared.table_id }
    requires plan { (table.now.table.shared.key.rows ≡ 2) × (table.now.table.shared.key.disks ≡ 2) }
    requires near { disk < 2 }
    requires rests { Rests seat.old.number seat.old.base.me.0 }
    requires left { 0 < seat.old.left }
    ensures own { seat.new.base.table_id ≡ seat.old.base.table_id }
    ensures number { seat.new.number ≡ seat.old.number }
    ensures rests { Rests seat.new.number seat.new.base.me.0 }
    ensures left { seat.new.left + 1 ≡ seat.old.left }
{
    let (at, serial, hold) = take_hold(table, seat, disk, number, steps);
    match hold {
        Some(hold) => (at, serial, Some(put_back(table, seat, hold, steps))),
        None => (at, serial, None),
    }
}

/// Puts a hold that this seat or another got.
pub fn put_back<L: Ledger>(
    table: &Table,
    seat: &mut Seat<u64>,
    hold: Hold<u64>,
    steps: &mut Steps<L>,
) -> Put
    requires own { (seat.old.base.table_id ≡ table.now.table.shared.table_id)
        × (hold.part.base.table_id ≡ table.now.table.shared.table_id) }
    requires plan { table.now.table.shared.key.disks ≡ 2 }
    requires near { hold.disk < 2 }
    requires may { MayPut (the_hold hold.part.base.me.0.view.holds) }
    requires rests { Rests seat.old.number seat.old.base.me.0 }
    ensures own { seat.new.base.table_id ≡ seat.old.base.table_id }
    ensures number { seat.new.number ≡ seat.old.number }
    ensures rests { Rests seat.new.number seat.new.base.me.0 }
    ensures left { seat.new.left ≡ seat.old.left }
{
    put(table, seat, hold, steps)
}

/// A bare call of the editor in a section of its own: the first word there.
pub fn read_as_editor<L: Ledger>(
    table: &Table,
    editor: &mut Editor<u64>,
    number: u32,
    steps: &mut Steps<L>,
) -> u64
    requires own { editor.old.seat.base.table_id ≡ table.now.table.shared.table_id }
    requires rows { table.now.table.shared.key.rows ≡ 2 }
    requires rests { Rests 0 editor.old.seat.base.me.0 }
    requires left { 0 < editor.old.seat.left }
    ensures own { editor.new.seat.base.table_id ≡ editor.old.seat.base.table_id }
    ensures kept { (editor.new.words ≡ editor.old.words) × (editor.new.bases ≡ editor.old.bases)
        × (editor.new.seats ≡ editor.old.seats) × (editor.new.disks ≡ editor.old.disks) }
    ensures notes { editor.new.seat.base.me.0.notes ≡ editor.old.seat.base.me.0.notes }
    ensures left { editor.new.seat.left + 1 ≡ editor.old.seat.left }
{
    let call = Tag {
        kind: BARE,
        caller: 0,
        number,
    };
    let mut section = enter(table, &mut editor.seat, steps);
    let _ = place(table, &mut section, call, steps);
    let word = row(table, &mut section, 0, steps);
    leave(table, section, steps);
    word
}
