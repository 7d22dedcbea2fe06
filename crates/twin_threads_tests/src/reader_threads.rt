//! Two readers look up two words that every edit changes together, while the editor publishes
//! 10,000 edits: none sees them apart.
ghost use Rattle.std.specs.Prelude.{◌≡◌, ◌≢◌, ◌+◌, ◌<◌, ◌≤◌, ℕ};
ghost use Rattle.ref_state.specs.declared.state.Phase.TheVariants.{Live as IsLive};
ghost use Rattle.twin_tables.specs.Keeping.{Rests, Edits, IsIn};

use rcu_sections::editor::Editor;
use std::alloc::{AllocError, Global};
use std::marker::Brand;
use std::sync::ledger::{Blank, Ledger};
use std::thread::{Threads, join};
use table_rule::ticks::Steps;
use target_table::table::Seat;
use twin_tables::edits::edit_until;
use twin_tables::ground::{Queues, five};
use twin_tables::meaning::Table;
use twin_tables::readers::read_pair;

// How many edits are made.
const EDITS: u32 = 10000;

// How often each reader looks.
const LOOKS: u32 = 100000;

// Looks so often: false where the words were once apart.
fn read_all<L: Ledger>(table: &Table, seat: Seat<u64>, steps: Steps<L>) -> bool
    requires own { seat.base.table_id ≡ table.now.table.shared.table_id }
    requires rows { table.now.table.shared.key.rows ≡ 2 }
    requires rests { Rests seat.number seat.base.me.0 }
    requires left { 100000 ≤ seat.left }
{
    let mut steps = steps;
    let mut seat = seat;
    let mut number = 0;
    while number < LOOKS {
        let (_place, _serial, first, second) = read_pair(table, &mut seat, number, &mut steps);
        if first != second {
            return false;
        }
        number += 1;
    }
    true
}

// Makes the edits, each of another number.
fn edit_all<L: Ledger>(table: &Table, editor: Editor<u64>, steps: Steps<L>) -> bool
    requires own { editor.seat.base.table_id ≡ table.now.table.shared.table_id }
    requires plan { (table.now.table.shared.key.rows ≡ 2) × (table.now.table.shared.key.disks ≡ 2) }
    requires edits { Edits 1 editor.seat.base.me.0 }
    requires live { IsIn IsLive 0 editor.seat.base.me.0 × IsIn IsLive 1 editor.seat.base.me.0 }
    requires left { 10000 ≤ editor.seat.left }
{
    let mut steps = steps;
    let mut editor = editor;
    let mut number = 0;
    while number < EDITS {
        if edit_until(table, &mut editor, number + 2, &mut steps).is_none() {
            return false;
        }
        number += 1;
    }
    true
}

// Two readers.
fn read_two<R: Threads + Sync, A: Ledger + Send, B: Ledger + Send>(
    rt: &R,
    table: &Table,
    one: Seat<u64>,
    two: Seat<u64>,
    first: Steps<A>,
    second: Steps<B>,
) -> bool
    requires own { (one.base.table_id ≡ table.now.table.shared.table_id)
        × (two.base.table_id ≡ table.now.table.shared.table_id) }
    requires rows { table.now.table.shared.key.rows ≡ 2 }
    requires rests { Rests one.number one.base.me.0 × Rests two.number two.base.me.0 }
    requires left { (100000 ≤ one.left) × (100000 ≤ two.left) }
{
    let (a, b) = join(
        rt,
        move || read_all(table, one, first),
        move || read_all(table, two, second),
    );
    a && b
}

// Whether both readers and the editor ended well.
fn read_beside_edits<A: Ledger + Send, B: Ledger + Send, C: Ledger + Send, R: Threads + Sync>(
    rt: &R,
    alloc: Global,
    first: Blank,
    second: Blank,
    third: Blank,
) -> Result<bool, AllocError>
    requires first { (first.name ≡ A.name) × (first.parts ≡ A.parts) × (A.parts ≡ 5) }
    requires second { (second.name ≡ B.name) × (second.parts ≡ B.parts) × (B.parts ≡ 5) }
    requires third { (third.name ≡ C.name) × (third.parts ≡ C.parts) × (C.parts ≡ 5) }
{
    let (table, editor, queues) = five(alloc, 10000, 100000)?;
    let Queues {
        one,
        two,
        three: _,
        four: _,
    } = queues;
    let first = Steps::<A>::start(first);
    let second = Steps::<B>::start(second);
    let third = Steps::<C>::start(third);
    let table = &table;
    let (edits, readers) = join(
        rt,
        move || edit_all(table, editor, third),
        move ||
            requires own { (one.base.table_id ≡ table.now.table.shared.table_id)
                × (two.base.table_id ≡ table.now.table.shared.table_id) }
            requires rows { table.now.table.shared.key.rows ≡ 2 }
            requires rests { Rests one.number one.base.me.0 × Rests two.number two.base.me.0 }
            requires left { (100000 ≤ one.left) × (100000 ≤ two.left) }
        { read_two(rt, table, one, two, first, second) },
    );
    Ok(readers && edits)
}

#[test]
fn two_words_are_never_apart(rt: HostRuntime) -> Result<(), AllocError> {
    let fine = read_beside_edits::<Brand, Brand, Brand, HostRuntime>(
        &rt,
        rt.alloc(),
        Blank::new(5),
        Blank::new(5),
        Blank::new(5),
    )?;
    assert!(rt; fine);
    Ok(())
}
