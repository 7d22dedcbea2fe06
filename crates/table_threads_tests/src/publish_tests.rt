//! Two threads draw places in sections while a third publishes 1,000 times: every record is the
//! replay of the gathered history. The threads go in rounds, of which each side is one ahead at
//! most, so that both get on between each other whatever the schedule.
ghost use Rattle.std.specs.Prelude.{◌≡◌, ◌≢◌, ◌+◌, ◌<◌, ◌≤◌};
ghost use Rattle.table_seats.specs.Publishing.{Publishes};
ghost use Rattle.table_seats.specs.Resting.{Rests};

use std::alloc::{AllocError, Global};
use std::marker::Brand;
use std::sync::atomic::{AtomicU64, Ordering};
use std::sync::ledger::{Blank, Ledger};
use std::thread;
use std::thread::{Threads, join};
use table_rule::ticks::Steps;
use table_seats::ground::{Table, three};
use table_seats::publishing::{look_all, show_by};
use table_seats::sections::bare;
use target_table::table::Seat;

// How many places each of the three seats has. The queues use all of them.
const COUNT: u32 = 4000;

// How many edits are published.
const EDITS: usize = 1000;

// How many calls of a queue and how many edits a round has.
const CALLS_A_ROUND: usize = 40;

const EDITS_A_ROUND: usize = 10;

// How often a thread looks at most at what it waits for.
const TRIES: u32 = 100000000;

// Waits until another thread has counted so far: false where it looked too often.
fn wait_for(counted: &AtomicU64, least: usize) -> bool {
    for _ in 0..TRIES {
        if counted.load(Ordering::SeqCst) >= least as u64 {
            return true;
        }
        thread::yield_now();
    }
    false
}

// The edits that are published before a queue's call of this number: those of the rounds before
// its own.
fn edits_before(call: usize) -> usize {
    (call / CALLS_A_ROUND).wrapping_mul(EDITS_A_ROUND)
}

// The calls of each queue that are placed before an edit of this number, likewise.
fn calls_before(edit: usize) -> usize {
    (edit / EDITS_A_ROUND).wrapping_mul(CALLS_A_ROUND)
}

// Makes its calls: the place, serial and row of each.
fn serve<L: Ledger>(
    alloc: Global,
    table: &Table,
    seat: Seat<u64>,
    edits: &AtomicU64,
    calls: &AtomicU64,
    steps: Steps<L>,
) -> Option<Vec<(u32, u32, u64)>>
    requires own { seat.base.table_id ≡ table.now.table.shared.table_id }
    requires rows { 0 < table.now.table.shared.key.rows }
    requires rests { Rests seat.number seat.base.me }
    requires left { 4000 ≤ seat.left }
{
    let mut seat = seat;
    let mut steps = steps;
    let mut records = Vec::new(alloc);
    let mut number = 0;
    while number < COUNT {
        if !wait_for(edits, edits_before(number as usize)) {
            return None;
        }
        let record = bare(table, &mut seat, number, &mut steps);
        if records.push(record).is_err() {
            return None;
        }
        number += 1;
        calls.store(number as u64, Ordering::SeqCst);
    }
    Some(records)
}

// Publishes the disk by the number of places left, where every section is found closed: false
// where memory is refused.
fn try_edit<L: Ledger>(
    table: &Table,
    editor: &mut Seat<u64>,
    records: &mut Vec<(u32, u32, u64)>,
    steps: &mut Steps<L>,
) -> bool
    requires own { editor.old.base.table_id ≡ table.now.table.shared.table_id }
    requires plan { (table.now.table.shared.key.rows ≡ 1) × (table.now.table.shared.key.disks ≡ 1) }
    requires left { 0 < editor.old.left }
    requires edits { Publishes editor.old.base.me.0 }
    ensures own { editor.new.base.table_id ≡ editor.old.base.table_id }
    ensures edits { Publishes editor.new.base.me.0 }
{
    if !look_all(table, editor, steps) {
        thread::yield_now();
        return true;
    }
    let number = editor.left();
    let (place, serial) = show_by(table, editor, number, steps);
    records.push((place, serial, number as u64)).is_ok()
}

// Publishes the edits: the place, serial and number of each.
fn edit<L: Ledger>(
    alloc: Global,
    table: &Table,
    editor: Seat<u64>,
    edits: &AtomicU64,
    calls: (&AtomicU64, &AtomicU64),
    steps: Steps<L>,
) -> Option<Vec<(u32, u32, u64)>>
    requires own { editor.base.table_id ≡ table.now.table.shared.table_id }
    requires plan { (table.now.table.shared.key.rows ≡ 1) × (table.now.table.shared.key.disks ≡ 1) }
    requires edits { Publishes editor.base.me.0 }
{
    let mut editor = editor;
    let mut steps = steps;
    let mut records = Vec::new(alloc);
    let mut tries = 0;
    while tries < TRIES {
        if records.len() >= EDITS {
            return Some(records);
        }
        let least = calls_before(records.len());
        if editor.left() == 0 || !wait_for(calls.0, least) || !wait_for(calls.1, least) {
            return None;
        }
        if !try_edit(table, &mut editor, &mut records, &mut steps) {
            return None;
        }
        edits.store(records.len() as u64, Ordering::SeqCst);
        tries += 1;
    }
    None
}

// Two threads serve a seat each.
fn serve_both<L: Ledger + Send, K: Ledger + Send, R: Threads + Sync>(
    rt: &R,
    alloc: Global,
    table: &Table,
    one: Seat<u64>,
    two: Seat<u64>,
    edits: &AtomicU64,
    calls: (&AtomicU64, &AtomicU64),
    steps: Steps<L>,
    theirs: Steps<K>,
) -> Option<(Vec<(u32, u32, u64)>, Vec<(u32, u32, u64)>)>
    requires own { (one.base.table_id ≡ table.now.table.shared.table_id)
        × (two.base.table_id ≡ table.now.table.shared.table_id) }
    requires rows { 0 < table.now.table.shared.key.rows }
    requires rests { Rests one.number one.base.me × Rests two.number two.base.me }
    requires left { (4000 ≤ one.left) × (4000 ≤ two.left) }
{
    let (mine, others) = calls;
    let (first, second) = join(
        rt,
        move || serve(alloc, table, one, edits, mine, steps),
        move || serve(alloc, table, two, edits, others, theirs),
    );
    Some((first?, second?))
}

// What the three threads were answered, the editor's last.
fn run_all<L: Ledger + Send, K: Ledger + Send, E: Ledger + Send, R: Threads + Sync>(
    rt: &R,
    alloc: Global,
    blank: Blank,
    other: Blank,
    editors: Blank,
) -> Option<
    (
        Vec<(u32, u32, u64)>,
        Vec<(u32, u32, u64)>,
        Vec<(u32, u32, u64)>,
    ),
>
    requires name { (blank.name ≡ L.name) × (blank.parts ≡ L.parts) × (L.parts ≡ 5) }
    requires other { (other.name ≡ K.name) × (other.parts ≡ K.parts) × (K.parts ≡ 5) }
    requires editors { (editors.name ≡ E.name) × (editors.parts ≡ E.parts) × (E.parts ≡ 5) }
{
    let Ok((table, editor, one, two)) = three(alloc, COUNT) else {
        return None;
    };
    let steps = Steps::<L>::start(blank);
    let theirs = Steps::<K>::start(other);
    let own = Steps::<E>::start(editors);
    let edits = AtomicU64::new(0);
    let first = AtomicU64::new(0);
    let second = AtomicU64::new(0);
    let (published, calls) = (&edits, (&first, &second));
    let table = &table;
    let (served, edits) = join(
        rt,
        move ||
            requires own { (one.base.table_id ≡ table.now.table.shared.table_id)
                × (two.base.table_id ≡ table.now.table.shared.table_id) }
            requires rows { 0 < table.now.table.shared.key.rows }
            requires rests { Rests one.number one.base.me × Rests two.number two.base.me }
            requires left { (4000 ≤ one.left) × (4000 ≤ two.left) }
        { serve_both(rt, alloc, table, one, two, published, calls, steps, theirs) },
        move || edit(alloc, table, editor, published, calls, own),
    );
    let (first, second) = served?;
    Some((first, second, edits?))
}

// Puts these records at their places: false where one is taken or past the end.
fn place_all(
    slots: &mut [Option<(bool, u32, u64)>],
    records: &[(u32, u32, u64)],
    edits: bool,
) -> bool {
    for record in records {
        let (place, serial, row) = *record;
        let at = place as usize;
        if at >= slots.len() || slots[at].is_some() {
            return false;
        }
        slots[at] = Some((edits, serial, row));
    }
    true
}

// Each place has a call, with the serial and the row that the edits up to it make.
fn is_replay(slots: &[Option<(bool, u32, u64)>]) -> bool {
    let mut shown = 1;
    let mut published: u32 = 0;
    for slot in slots {
        let Some((edits, serial, row)) = *slot else {
            return false;
        };
        if edits {
            published = published.wrapping_add(1);
            shown = row;
        }
        if serial != published || row != shown {
            return false;
        }
    }
    true
}

// Each call of a queue has a serial of its own round: the edits of the rounds before are published,
// and those of the rounds after aren't.
fn keeps_rounds(records: &[(u32, u32, u64)]) -> bool {
    let mut number = 0;
    for record in records {
        let serial = record.1 as usize;
        let least = edits_before(number);
        if serial < least || serial > least.wrapping_add(EDITS_A_ROUND) {
            return false;
        }
        number = number.wrapping_add(1);
    }
    number == COUNT as usize
}

#[test]
fn records_are_the_replay(rt: HostRuntime) -> Result<(), AllocError> {
    let alloc = rt.alloc();
    let found = run_all::<Brand, Brand, Brand, HostRuntime>(
        &rt,
        alloc,
        Blank::new(5),
        Blank::new(5),
        Blank::new(5),
    );
    let Some((first, second, edits)) = found else {
        return Err(AllocError);
    };
    let mut slots = vec![in alloc; None; 9000]?;
    assert!(rt; place_all(slots.as_mut_slice(), first.as_slice(), false));
    assert!(rt; place_all(slots.as_mut_slice(), second.as_slice(), false));
    assert!(rt; place_all(slots.as_mut_slice(), edits.as_slice(), true));
    assert!(rt; is_replay(slots.as_slice()));
    assert!(rt; keeps_rounds(first.as_slice()) && keeps_rounds(second.as_slice()));
    Ok(())
}
