//! A drain under fire: three seats get and put on two disks while the editor disables, drains,
//! revives and enables both 200 times. All four meet in each round: the editor hides the disks once
//! every seat has its hold of the round, and a seat gets its next once both disks are shown again.
//! In half of the rounds the holds are put only after both disks are folded, so that each drain
//! finds them standing. Every record is the replay of the history.
ghost use Rattle.std.specs.Prelude.{◌≡◌, ◌≢◌, ◌+◌, ◌<◌, ◌≤◌, ℕ, true, IfSome};
ghost use Rattle.ref_state.specs.declared.state.Phase.TheVariants.{Live as IsLive, Folded as IsFolded};
ghost use Rattle.twin_tables.specs.Keeping.{Rests, Edits, IsIn};

use crate::drain_replay::{Deed, Log, are_drained, are_last_once, is_replay, place_all, waits};
use percpu_ref::lives::Folded;
use rcu_sections::editor::Editor;
use std::alloc::{AllocError, Global};
use std::marker::Brand;
use std::sync::atomic::{AtomicU64, Ordering};
use std::sync::ledger::{Blank, Ledger};
use std::thread;
use std::thread::{Threads, join};
use table_rule::ticks::Steps;
use target_table::table::Seat;
use twin_tables::edits::{count_holds, edit_until, end_drains, start_drains};
use twin_tables::ground::{Queues, five};
use twin_tables::meaning::Table;
use twin_tables::readers::{hold_once, put_back, read_pair, take_hold};

// How often both disks are disabled and enabled again.
const ROUNDS: u32 = 200;

// How many calls a seat makes in a round while it has its hold, and again once that is put.
const CALLS: u32 = 100;

// How many places a seat uses in all rounds, and how many the editor.
const PLACES: u32 = 40400;

const EDITS: u32 = 800;

// How often a thread looks at most at what it waits for.
const TRIES: u32 = 100000000;

/// How many rounds each thread has come through so far.
#[derive(Drop)]
struct Meeting {
    /// By seat the rounds in which it got its hold.
    one: AtomicU64,
    two: AtomicU64,
    three: AtomicU64,
    /// The rounds in which both disks were folded.
    folded: AtomicU64,
    /// The rounds after which both disks are shown again.
    shown: AtomicU64,
}

// Waits until another thread has come through so many rounds: false where it looked too often.
fn wait_for(rounds: &AtomicU64, least: u32) -> bool {
    for _ in 0..TRIES {
        if rounds.load(Ordering::SeqCst) >= least as u64 {
            return true;
        }
        thread::yield_now();
    }
    false
}

// Reads so often.
fn read_all<L: Ledger>(
    table: &Table,
    seat: &mut Seat<u64>,
    log: &mut Log,
    steps: &mut Steps<L>,
) -> bool
    requires own { seat.old.base.table_id ≡ table.now.table.shared.table_id }
    requires rows { table.now.table.shared.key.rows ≡ 2 }
    requires rests { Rests seat.old.number seat.old.base.me.0 }
    ensures own { seat.new.base.table_id ≡ seat.old.base.table_id }
    ensures rests { Rests seat.new.number seat.new.base.me.0 }
{
    for number in 0..CALLS {
        if seat.left() == 0 {
            return false;
        }
        let (place, serial, word, _same) = read_pair(table, seat, number, steps);
        if !log.note(place, serial, Deed::Read(word)) {
            return false;
        }
    }
    true
}

// Gets a hold and puts it again so often, on the disks in turn.
fn hold_all<L: Ledger>(
    table: &Table,
    seat: &mut Seat<u64>,
    round: u32,
    log: &mut Log,
    steps: &mut Steps<L>,
) -> bool
    requires own { seat.old.base.table_id ≡ table.now.table.shared.table_id }
    requires plan { (table.now.table.shared.key.rows ≡ 2) × (table.now.table.shared.key.disks ≡ 2) }
    requires rests { Rests seat.old.number seat.old.base.me.0 }
    ensures own { seat.new.base.table_id ≡ seat.old.base.table_id }
    ensures rests { Rests seat.new.number seat.new.base.me.0 }
{
    for number in 0..CALLS {
        if seat.left() == 0 {
            return false;
        }
        let disk = number % 2;
        let (place, serial, put) = hold_once(table, seat, disk, number, steps);
        if !log.note(place, serial, Deed::Once(disk, put.is_some())) {
            return false;
        }
        if !log.note_put(round, disk, put) {
            return false;
        }
    }
    true
}

// The calls of a seat beside its hold of the round: it reads until both disks are folded, or gets
// and puts other holds meanwhile.
fn call_beside<L: Ledger>(
    table: &Table,
    seat: &mut Seat<u64>,
    round: u32,
    folded: &AtomicU64,
    log: &mut Log,
    steps: &mut Steps<L>,
) -> bool
    requires own { seat.old.base.table_id ≡ table.now.table.shared.table_id }
    requires plan { (table.now.table.shared.key.rows ≡ 2) × (table.now.table.shared.key.disks ≡ 2) }
    requires rests { Rests seat.old.number seat.old.base.me.0 }
    ensures own { seat.new.base.table_id ≡ seat.old.base.table_id }
    ensures rests { Rests seat.new.number seat.new.base.me.0 }
{
    if !waits(round) {
        return hold_all(table, seat, round, log, steps);
    }
    if !read_all(table, seat, log, steps) {
        return false;
    }
    wait_for(folded, round.saturating_add(1))
}

// The calls of a seat while it has its hold of the round, the last of which reads.
fn keep_hold<L: Ledger>(
    table: &Table,
    seat: &mut Seat<u64>,
    round: u32,
    meeting: (&Meeting, &AtomicU64),
    log: &mut Log,
    steps: &mut Steps<L>,
) -> bool
    requires own { seat.old.base.table_id ≡ table.now.table.shared.table_id }
    requires plan { (table.now.table.shared.key.rows ≡ 2) × (table.now.table.shared.key.disks ≡ 2) }
    requires rests { Rests seat.old.number seat.old.base.me.0 }
    ensures own { seat.new.base.table_id ≡ seat.old.base.table_id }
    ensures rests { Rests seat.new.number seat.new.base.me.0 }
{
    let (all, mine) = meeting;
    mine.store(round as u64 + 1, Ordering::SeqCst);
    if !call_beside(table, seat, round, &all.folded, log, steps) {
        return false;
    }
    if seat.left() == 0 {
        return false;
    }
    let (place, serial, word, _same) = read_pair(table, seat, CALLS, steps);
    log.note(place, serial, Deed::Still(word))
}

// One round of a seat: false where it had no hold, no place, no memory or waited too long.
fn hold_round<L: Ledger>(
    table: &Table,
    seat: &mut Seat<u64>,
    round: u32,
    meeting: (&Meeting, &AtomicU64),
    log: &mut Log,
    steps: &mut Steps<L>,
) -> bool
    requires own { seat.old.base.table_id ≡ table.now.table.shared.table_id }
    requires plan { (table.now.table.shared.key.rows ≡ 2) × (table.now.table.shared.key.disks ≡ 2) }
    requires rests { Rests seat.old.number seat.old.base.me.0 }
    ensures own { seat.new.base.table_id ≡ seat.old.base.table_id }
    ensures rests { Rests seat.new.number seat.new.base.me.0 }
{
    if !wait_for(&meeting.0.shown, round) {
        return false;
    }
    if seat.left() == 0 {
        return false;
    }
    let disk = seat.number().wrapping_add(round) % 2;
    let (place, serial, hold) = take_hold(table, seat, disk, round, steps);
    let Some(hold) = hold else {
        return false;
    };
    let noted = log.note(place, serial, Deed::Get(disk));
    let kept = keep_hold(table, seat, round, meeting, log, steps);
    let put = put_back(table, seat, hold, steps);
    if !noted || !kept || !log.note_put(round, disk, Some(put)) {
        return false;
    }
    hold_all(table, seat, round, log, steps)
}

// All rounds of a seat.
fn hold_rounds<L: Ledger>(
    alloc: Global,
    table: &Table,
    seat: Seat<u64>,
    meeting: (&Meeting, &AtomicU64),
    steps: Steps<L>,
) -> Option<Log>
    requires own { seat.base.table_id ≡ table.now.table.shared.table_id }
    requires plan { (table.now.table.shared.key.rows ≡ 2) × (table.now.table.shared.key.disks ≡ 2) }
    requires rests { Rests seat.number seat.base.me.0 }
{
    let mut seat = seat;
    let mut steps = steps;
    let mut log = Log::new(alloc);
    for round in 0..ROUNDS {
        if !hold_round(table, &mut seat, round, meeting, &mut log, &mut steps) {
            return None;
        }
    }
    Some(log)
}

// In a round that waits, counts the holds of both folded disks: nothing where none stands on one.
fn count_both<L: Ledger>(
    table: &Table,
    editor: &mut Editor<u64>,
    round: u32,
    both: (Folded, Folded),
    log: &mut Log,
    steps: &mut Steps<L>,
) -> Option<(Folded, Folded)>
    requires own { editor.old.seat.base.table_id ≡ table.now.table.shared.table_id }
    requires plan { (table.now.table.shared.key.disks ≡ 2) × (editor.old.disks ≡ 2) }
    requires edits { Edits 0 editor.old.seat.base.me.0 }
    requires disks { (both.0.disk ≡ 0) × (both.1.disk ≡ 1) }
    requires folded { IsIn IsFolded 0 editor.old.seat.base.me.0
        × IsIn IsFolded 1 editor.old.seat.base.me.0 }
    ensures own { editor.new.seat.base.table_id ≡ editor.old.seat.base.table_id }
    ensures counts { (editor.new.disks ≡ editor.old.disks)
        × (editor.new.seat.left ≡ editor.old.seat.left) }
    ensures edits { Edits 0 editor.new.seat.base.me.0 }
    ensures folded { IfSome result (λ r. (r.0.disk ≡ 0) × (r.1.disk ≡ 1)
        × IsIn IsFolded 0 editor.new.seat.base.me.0
        × IsIn IsFolded 1 editor.new.seat.base.me.0) }
{
    if !waits(round) {
        return Some(both);
    }
    let (first, second) = both;
    let Some((first, one)) = count_holds(table, editor, first, steps) else {
        let Folded { disk: _ } = second;
        return None;
    };
    let Some((second, two)) = count_holds(table, editor, second, steps) else {
        let Folded { disk: _ } = first;
        return None;
    };
    log.note_standing(one, two);
    Some((first, second))
}

// Both disks, which are hidden, are drained and made live again: false where a step took too many
// tries, or no hold stood where it should.
fn drain_both<L: Ledger>(
    table: &Table,
    editor: &mut Editor<u64>,
    round: u32,
    folded: &AtomicU64,
    log: &mut Log,
    steps: &mut Steps<L>,
) -> bool
    requires own { editor.old.seat.base.table_id ≡ table.now.table.shared.table_id }
    requires plan { (table.now.table.shared.key.disks ≡ 2) × (editor.old.disks ≡ 2) }
    requires left { 1 < editor.old.seat.left }
    requires edits { Edits 0 editor.old.seat.base.me.0 }
    requires live { IsIn IsLive 0 editor.old.seat.base.me.0
        × IsIn IsLive 1 editor.old.seat.base.me.0 }
    ensures own { editor.new.seat.base.table_id ≡ editor.old.seat.base.table_id }
    ensures disks { editor.new.disks ≡ editor.old.disks }
    ensures left { result ≡ true → editor.new.seat.left + 2 ≡ editor.old.seat.left }
    ensures edits { result ≡ true → Edits 0 editor.new.seat.base.me.0 }
    ensures live { result ≡ true → IsIn IsLive 0 editor.new.seat.base.me.0
        × IsIn IsLive 1 editor.new.seat.base.me.0 }
{
    let Some(both) = start_drains(table, editor, steps) else {
        return false;
    };
    let Some((first, second)) = count_both(table, editor, round, both, log, steps) else {
        return false;
    };
    folded.store(round as u64 + 1, Ordering::SeqCst);
    let Some((one, two)) = end_drains(table, editor, first, second, steps) else {
        return false;
    };
    let serial = editor.seat.serial;
    let noted = log.note(one, serial, Deed::Done(0));
    log.note(two, serial, Deed::Done(1)) && noted
}

// One round of the editor: false where it had no place, no memory or waited too long.
fn cycle<L: Ledger>(
    table: &Table,
    editor: &mut Editor<u64>,
    round: u32,
    meeting: &Meeting,
    log: &mut Log,
    steps: &mut Steps<L>,
) -> bool
    requires own { editor.old.seat.base.table_id ≡ table.now.table.shared.table_id }
    requires plan { (table.now.table.shared.key.rows ≡ 2) × (table.now.table.shared.key.disks ≡ 2)
        × (editor.old.disks ≡ 2) }
    requires edits { (n : ℕ) × Edits n editor.old.seat.base.me.0 }
    requires live { IsIn IsLive 0 editor.old.seat.base.me.0
        × IsIn IsLive 1 editor.old.seat.base.me.0 }
    ensures own { editor.new.seat.base.table_id ≡ editor.old.seat.base.table_id }
    ensures disks { editor.new.disks ≡ editor.old.disks }
    ensures edits { result ≡ true → (n : ℕ) × Edits n editor.new.seat.base.me.0 }
    ensures live { result ≡ true → IsIn IsLive 0 editor.new.seat.base.me.0
        × IsIn IsLive 1 editor.new.seat.base.me.0 }
{
    let next = round.saturating_add(1);
    if !wait_for(&meeting.one, next)
        || !wait_for(&meeting.two, next)
        || !wait_for(&meeting.three, next)
    {
        return false;
    }
    if editor.seat.left() < 4 {
        return false;
    }
    let Some((place, serial)) = edit_until(table, editor, 0, steps) else {
        return false;
    };
    if !log.note(place, serial, Deed::Edit(0)) {
        return false;
    }
    if !drain_both(table, editor, round, &meeting.folded, log, steps) {
        return false;
    }
    let number = round.saturating_add(2);
    let Some((place, serial)) = edit_until(table, editor, number, steps) else {
        return false;
    };
    meeting.shown.store(next as u64, Ordering::SeqCst);
    log.note(place, serial, Deed::Edit(number as u64))
}

// All rounds of the editor.
fn cycle_all<L: Ledger>(
    alloc: Global,
    table: &Table,
    editor: Editor<u64>,
    meeting: &Meeting,
    steps: Steps<L>,
) -> Option<Log>
    requires own { editor.seat.base.table_id ≡ table.now.table.shared.table_id }
    requires plan { (table.now.table.shared.key.rows ≡ 2) × (table.now.table.shared.key.disks ≡ 2)
        × (editor.disks ≡ 2) }
    requires edits { Edits 1 editor.seat.base.me.0 }
    requires live { IsIn IsLive 0 editor.seat.base.me.0 × IsIn IsLive 1 editor.seat.base.me.0 }
{
    let mut editor = editor;
    let mut steps = steps;
    let mut log = Log::new(alloc);
    for round in 0..ROUNDS {
        if !cycle(table, &mut editor, round, meeting, &mut log, &mut steps) {
            return None;
        }
    }
    Some(log)
}

// Two seats.
fn hold_two<R: Threads + Sync, A: Ledger + Send, B: Ledger + Send>(
    rt: &R,
    alloc: Global,
    table: &Table,
    seats: (Seat<u64>, Seat<u64>),
    meeting: &Meeting,
    first: Steps<A>,
    second: Steps<B>,
) -> Option<(Log, Log)>
    requires own { (seats.0.base.table_id ≡ table.now.table.shared.table_id)
        × (seats.1.base.table_id ≡ table.now.table.shared.table_id) }
    requires plan { (table.now.table.shared.key.rows ≡ 2) × (table.now.table.shared.key.disks ≡ 2) }
    requires rests { Rests seats.0.number seats.0.base.me.0
        × Rests seats.1.number seats.1.base.me.0 }
{
    let (one, two) = seats;
    let (a, b) = join(
        rt,
        move || hold_rounds(alloc, table, one, (meeting, &meeting.one), first),
        move || hold_rounds(alloc, table, two, (meeting, &meeting.two), second),
    );
    Some((a?, b?))
}

// A seat, and the editor.
fn hold_and_cycle<R: Threads + Sync, A: Ledger + Send, B: Ledger + Send>(
    rt: &R,
    alloc: Global,
    table: &Table,
    three: Seat<u64>,
    editor: Editor<u64>,
    meeting: &Meeting,
    first: Steps<A>,
    second: Steps<B>,
) -> Option<(Log, Log)>
    requires own { (three.base.table_id ≡ table.now.table.shared.table_id)
        × (editor.seat.base.table_id ≡ table.now.table.shared.table_id) }
    requires plan { (table.now.table.shared.key.rows ≡ 2) × (table.now.table.shared.key.disks ≡ 2)
        × (editor.disks ≡ 2) }
    requires rests { Rests three.number three.base.me.0 }
    requires edits { Edits 1 editor.seat.base.me.0 }
    requires live { IsIn IsLive 0 editor.seat.base.me.0 × IsIn IsLive 1 editor.seat.base.me.0 }
{
    let (held, cycled) = join(
        rt,
        move || hold_rounds(alloc, table, three, (meeting, &meeting.three), first),
        move || cycle_all(alloc, table, editor, meeting, second),
    );
    Some((held?, cycled?))
}

/// What the three seats and the editor noted.
#[derive(Drop)]
struct Logs {
    one: Log,
    two: Log,
    three: Log,
    editor: Log,
}

// All four threads.
fn drain_under_fire<
    A: Ledger + Send,
    B: Ledger + Send,
    C: Ledger + Send,
    D: Ledger + Send,
    R: Threads + Sync,
>(rt: &R, alloc: Global, first: Blank, second: Blank, third: Blank, fourth: Blank) -> Option<Logs>
    requires first { (first.name ≡ A.name) × (first.parts ≡ A.parts) × (A.parts ≡ 5) }
    requires second { (second.name ≡ B.name) × (second.parts ≡ B.parts) × (B.parts ≡ 5) }
    requires third { (third.name ≡ C.name) × (third.parts ≡ C.parts) × (C.parts ≡ 5) }
    requires fourth { (fourth.name ≡ D.name) × (fourth.parts ≡ D.parts) × (D.parts ≡ 5) }
{
    let Ok((table, editor, queues)) = five(alloc, EDITS, PLACES) else {
        return None;
    };
    let Queues {
        one,
        two,
        three,
        four: _,
    } = queues;
    let first = Steps::<A>::start(first);
    let second = Steps::<B>::start(second);
    let third = Steps::<C>::start(third);
    let fourth = Steps::<D>::start(fourth);
    let meeting = Meeting {
        one: AtomicU64::new(0),
        two: AtomicU64::new(0),
        three: AtomicU64::new(0),
        folded: AtomicU64::new(0),
        shown: AtomicU64::new(0),
    };
    let (table, meeting) = (&table, &meeting);
    let (held, others) = join(
        rt,
        move ||
            requires own { (one.base.table_id ≡ table.now.table.shared.table_id)
                × (two.base.table_id ≡ table.now.table.shared.table_id) }
            requires plan { (table.now.table.shared.key.rows ≡ 2)
                × (table.now.table.shared.key.disks ≡ 2) }
            requires rests { Rests one.number one.base.me.0 × Rests two.number two.base.me.0 }
        { hold_two(rt, alloc, table, (one, two), meeting, first, second) },
        move ||
            requires own { (three.base.table_id ≡ table.now.table.shared.table_id)
                × (editor.seat.base.table_id ≡ table.now.table.shared.table_id) }
            requires plan { (table.now.table.shared.key.rows ≡ 2)
                × (table.now.table.shared.key.disks ≡ 2) × (editor.disks ≡ 2) }
            requires rests { Rests three.number three.base.me.0 }
            requires edits { Edits 1 editor.seat.base.me.0 }
            requires live { IsIn IsLive 0 editor.seat.base.me.0
                × IsIn IsLive 1 editor.seat.base.me.0 }
        { hold_and_cycle(rt, alloc, table, three, editor, meeting, third, fourth) },
    );
    let (one, two) = held?;
    let (three, editor) = others?;
    Some(Logs {
        one,
        two,
        three,
        editor,
    })
}

#[test]
fn records_under_drains_are_the_replay(rt: HostRuntime) -> Result<(), AllocError> {
    let alloc = rt.alloc();
    let found = drain_under_fire::<Brand, Brand, Brand, Brand, HostRuntime>(
        &rt,
        alloc,
        Blank::new(5),
        Blank::new(5),
        Blank::new(5),
        Blank::new(5),
    );
    let Some(logs) = found else {
        return Err(AllocError);
    };
    let mut slots = vec![in alloc; None; 122000]?;
    assert!(rt; place_all(slots.as_mut_slice(), 1, &logs.one));
    assert!(rt; place_all(slots.as_mut_slice(), 2, &logs.two));
    assert!(rt; place_all(slots.as_mut_slice(), 3, &logs.three));
    assert!(rt; place_all(slots.as_mut_slice(), 0, &logs.editor));
    assert!(rt; is_replay(slots.as_slice()));
    assert!(rt; are_last_once(ROUNDS, [&logs.one, &logs.two, &logs.three]));
    assert!(rt; are_drained(ROUNDS, &logs.editor));
    Ok(())
}
