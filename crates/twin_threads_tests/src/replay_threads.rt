//! Four threads place calls in sections while the editor publishes 1,000 times: every record is the
//! replay of the history.
ghost use Rattle.std.specs.Prelude.{◌≡◌, ◌≢◌, ◌+◌, ◌<◌, ◌≤◌, ℕ};
ghost use Rattle.ref_state.specs.declared.state.Phase.TheVariants.{Live as IsLive};
ghost use Rattle.twin_tables.specs.Keeping.{Rests, Edits, IsIn};

use rcu_sections::editor::Editor;
use std::alloc::{AllocError, Global};
use std::marker::Brand;
use std::sync::ledger::{Blank, Ledger};
use std::thread::{Threads, join};
use table_rule::ticks::Steps;
use target_table::table::Seat;
use twin_tables::edits::edit;
use twin_tables::ground::{Queues, five};
use twin_tables::meaning::Table;
use twin_tables::readers::read_pair;

// How many calls each seat places.
const CALLS: u32 = 20000;

// How many edits are published.
const EDITS: u32 = 1000;

// How often the editor asks at most.
const TRIES: u32 = 100000000;

/// The place, the serial and the number of a call.
type Record = (u32, u32, u64);

// Makes the calls of one seat.
fn serve<L: Ledger>(
    alloc: Global,
    table: &Table,
    seat: Seat<u64>,
    steps: Steps<L>,
) -> Option<Vec<Record>>
    requires own { seat.base.table_id ≡ table.now.table.shared.table_id }
    requires rows { table.now.table.shared.key.rows ≡ 2 }
    requires rests { Rests seat.number seat.base.me.0 }
    requires left { 20000 ≤ seat.left }
{
    let mut steps = steps;
    let mut seat = seat;
    let mut records = Vec::new(alloc);
    let mut number = 0;
    while number < CALLS {
        let (place, serial, first, _second) = read_pair(table, &mut seat, number, &mut steps);
        if records.push((place, serial, first)).is_err() {
            return None;
        }
        number += 1;
    }
    Some(records)
}

// Publishes the edits, each with the number of places left.
fn publish_all<L: Ledger>(
    alloc: Global,
    table: &Table,
    editor: Editor<u64>,
    steps: Steps<L>,
) -> Option<Vec<Record>>
    requires own { editor.seat.base.table_id ≡ table.now.table.shared.table_id }
    requires plan { (table.now.table.shared.key.rows ≡ 2) × (table.now.table.shared.key.disks ≡ 2) }
    requires edits { Edits 1 editor.seat.base.me.0 }
    requires live { IsIn IsLive 0 editor.seat.base.me.0 × IsIn IsLive 1 editor.seat.base.me.0 }
{
    let mut steps = steps;
    let mut editor = editor;
    let mut records = Vec::new(alloc);
    let mut tries = 0;
    while tries < TRIES {
        let number = editor.seat.left();
        if number == 0 {
            return Some(records);
        }
        if let Ok((place, serial)) = edit(table, &mut editor, number, &mut steps) {
            if records.push((place, serial, number as u64)).is_err() {
                return None;
            }
        }
        tries += 1;
    }
    None
}

// Two seats.
fn serve_two<R: Threads + Sync, A: Ledger + Send, B: Ledger + Send>(
    rt: &R,
    alloc: Global,
    table: &Table,
    one: Seat<u64>,
    two: Seat<u64>,
    first: Steps<A>,
    second: Steps<B>,
) -> Option<(Vec<Record>, Vec<Record>)>
    requires own { (one.base.table_id ≡ table.now.table.shared.table_id)
        × (two.base.table_id ≡ table.now.table.shared.table_id) }
    requires rows { table.now.table.shared.key.rows ≡ 2 }
    requires rests { Rests one.number one.base.me.0 × Rests two.number two.base.me.0 }
    requires left { (20000 ≤ one.left) × (20000 ≤ two.left) }
{
    let (a, b) = join(
        rt,
        move || serve(alloc, table, one, first),
        move || serve(alloc, table, two, second),
    );
    Some((a?, b?))
}

// Two seats, and the editor's records.
fn serve_and_publish<A: Ledger + Send, B: Ledger + Send, C: Ledger + Send, R: Threads + Sync>(
    rt: &R,
    alloc: Global,
    table: &Table,
    three: Seat<u64>,
    four: Seat<u64>,
    editor: Editor<u64>,
    first: Steps<A>,
    second: Steps<B>,
    third: Steps<C>,
) -> Option<(Vec<Record>, Vec<Record>, Vec<Record>)>
    requires own { (three.base.table_id ≡ table.now.table.shared.table_id)
        × (four.base.table_id ≡ table.now.table.shared.table_id)
        × (editor.seat.base.table_id ≡ table.now.table.shared.table_id) }
    requires plan { (table.now.table.shared.key.rows ≡ 2) × (table.now.table.shared.key.disks ≡ 2) }
    requires rests { Rests three.number three.base.me.0 × Rests four.number four.base.me.0 }
    requires left { (20000 ≤ three.left) × (20000 ≤ four.left) }
    requires edits { Edits 1 editor.seat.base.me.0 }
    requires live { IsIn IsLive 0 editor.seat.base.me.0 × IsIn IsLive 1 editor.seat.base.me.0 }
{
    let (edits, served) = join(
        rt,
        move || publish_all(alloc, table, editor, third),
        move ||
            requires own { (three.base.table_id ≡ table.now.table.shared.table_id)
                × (four.base.table_id ≡ table.now.table.shared.table_id) }
            requires rows { table.now.table.shared.key.rows ≡ 2 }
            requires rests { Rests three.number three.base.me.0
                × Rests four.number four.base.me.0 }
            requires left { (20000 ≤ three.left) × (20000 ≤ four.left) }
        { serve_two(rt, alloc, table, three, four, first, second) },
    );
    let (a, b) = served?;
    Some((a, b, edits?))
}

/// What the four seats and the editor were answered.
#[derive(Drop)]
struct Answers {
    first: (Vec<Record>, Vec<Record>),
    second: (Vec<Record>, Vec<Record>),
    edits: Vec<Record>,
}

// All five threads.
fn run_all<
    A: Ledger + Send,
    B: Ledger + Send,
    C: Ledger + Send,
    D: Ledger + Send,
    E: Ledger + Send,
    R: Threads + Sync,
>(
    rt: &R,
    alloc: Global,
    first: Blank,
    second: Blank,
    third: Blank,
    fourth: Blank,
    fifth: Blank,
) -> Option<Answers>
    requires first { (first.name ≡ A.name) × (first.parts ≡ A.parts) × (A.parts ≡ 5) }
    requires second { (second.name ≡ B.name) × (second.parts ≡ B.parts) × (B.parts ≡ 5) }
    requires third { (third.name ≡ C.name) × (third.parts ≡ C.parts) × (C.parts ≡ 5) }
    requires fourth { (fourth.name ≡ D.name) × (fourth.parts ≡ D.parts) × (D.parts ≡ 5) }
    requires fifth { (fifth.name ≡ E.name) × (fifth.parts ≡ E.parts) × (E.parts ≡ 5) }
{
    let Ok((table, editor, queues)) = five(alloc, EDITS, CALLS) else {
        return None;
    };
    let Queues {
        one,
        two,
        three,
        four,
    } = queues;
    let first = Steps::<A>::start(first);
    let second = Steps::<B>::start(second);
    let third = Steps::<C>::start(third);
    let fourth = Steps::<D>::start(fourth);
    let fifth = Steps::<E>::start(fifth);
    let table = &table;
    let (served, others) = join(
        rt,
        move ||
            requires own { (one.base.table_id ≡ table.now.table.shared.table_id)
                × (two.base.table_id ≡ table.now.table.shared.table_id) }
            requires rows { table.now.table.shared.key.rows ≡ 2 }
            requires rests { Rests one.number one.base.me.0 × Rests two.number two.base.me.0 }
            requires left { (20000 ≤ one.left) × (20000 ≤ two.left) }
        { serve_two(rt, alloc, table, one, two, first, second) },
        move ||
            requires own { (three.base.table_id ≡ table.now.table.shared.table_id)
                × (four.base.table_id ≡ table.now.table.shared.table_id)
                × (editor.seat.base.table_id ≡ table.now.table.shared.table_id) }
            requires plan { (table.now.table.shared.key.rows ≡ 2)
                × (table.now.table.shared.key.disks ≡ 2) }
            requires rests { Rests three.number three.base.me.0
                × Rests four.number four.base.me.0 }
            requires left { (20000 ≤ three.left) × (20000 ≤ four.left) }
            requires edits { Edits 1 editor.seat.base.me.0 }
            requires live { IsIn IsLive 0 editor.seat.base.me.0
                × IsIn IsLive 1 editor.seat.base.me.0 }
        { serve_and_publish(rt, alloc, table, three, four, editor, third, fourth, fifth) },
    );
    let (a, b, edits) = others?;
    Some(Answers {
        first: served?,
        second: (a, b),
        edits,
    })
}

// Puts these records at their places: false where one is taken or past the end.
fn place_all(slots: &mut [Option<(bool, u32, u64)>], records: &[Record], edits: bool) -> bool {
    for record in records {
        let (place, serial, number) = *record;
        let at = place as usize;
        if at >= slots.len() || slots[at].is_some() {
            return false;
        }
        slots[at] = Some((edits, serial, number));
    }
    true
}

// Each place has a call, with the serial and the number that the edits up to it make.
fn is_replay(slots: &[Option<(bool, u32, u64)>]) -> bool {
    let mut shown = 1;
    let mut published: u32 = 0;
    for slot in slots {
        let Some((edits, serial, number)) = *slot else {
            return false;
        };
        if edits {
            published = published.wrapping_add(1);
            shown = number;
        }
        if serial != published || number != shown {
            return false;
        }
    }
    true
}

#[test]
fn records_are_the_replay(rt: HostRuntime) -> Result<(), AllocError> {
    let alloc = rt.alloc();
    let found = run_all::<Brand, Brand, Brand, Brand, Brand, HostRuntime>(
        &rt,
        alloc,
        Blank::new(5),
        Blank::new(5),
        Blank::new(5),
        Blank::new(5),
        Blank::new(5),
    );
    let Some(answers) = found else {
        return Err(AllocError);
    };
    let mut slots = vec![in alloc; None; 81000]?;
    assert!(rt; place_all(slots.as_mut_slice(), answers.first.0.as_slice(), false));
    assert!(rt; place_all(slots.as_mut_slice(), answers.first.1.as_slice(), false));
    assert!(rt; place_all(slots.as_mut_slice(), answers.second.0.as_slice(), false));
    assert!(rt; place_all(slots.as_mut_slice(), answers.second.1.as_slice(), false));
    assert!(rt; place_all(slots.as_mut_slice(), answers.edits.as_slice(), true));
    assert!(rt; is_replay(slots.as_slice()));
    Ok(())
}
