//! A queue's thread lends a place, the editor's thread places the queue's control command on it, and
//! the finished entry goes back; then a note is taken in and all seats are gathered.
ghost use Rattle.std.specs.Prelude.{◌≡◌, ◌≢◌, ◌+◌, ◌<◌, ◌∷◌, []};
ghost use Rattle.ref_state.specs.Soundness.{sum_of};
ghost use Rattle.table_travels_tests.specs.Travels.{callers, places, IsIdle, IsNewest};

use crate::moves::{call_for, call_own, lend, note, settle, take_in};
use std::alloc::{AllocError, Global};
use std::marker::Brand;
use std::sync::ledger::{Blank, Ledger};
use std::thread::{Threads, join};
use table_rule::ticks::Steps;
use table_seats::ground::{Table, three};
use target_table::seats::Part;
use target_table::table::Seat;

// A queue places a call of its own, and lends a place.
fn call_and_lend<L: Ledger>(
    table: &Table,
    seat: Seat<u64>,
    steps: Steps<L>,
) -> (Seat<u64>, Part<u64>, u32, Steps<L>)
    requires own { seat.base.table_id ≡ table.now.table.shared.table_id }
    requires idle { IsIdle seat.base.me }
    requires caller { callers seat.base.me.0.claims ≡ seat.number ∷ [] }
    requires left { 1 < seat.left }
    ensures own { (result.0.base.table_id ≡ table.now.table.shared.table_id)
        × (result.1.base.table_id ≡ table.now.table.shared.table_id) }
    ensures number { result.0.number ≡ seat.number }
    ensures idle { IsIdle result.0.base.me }
    ensures caller { (callers result.0.base.me.0.claims ≡ [])
        × (callers result.1.base.me.0.claims ≡ seat.number ∷ []) }
    ensures places { places result.0.base.me.0 + places result.1.base.me.0
        ≡ places seat.base.me.0 }
    ensures left { (result.0.left + 2 ≡ seat.left) × (result.1.left ≡ 1) }
{
    let mut steps = steps;
    let mut seat = seat;
    let place = call_own(table, &mut seat, 0, &mut steps);
    let part = lend(table, &mut seat, &mut steps);
    (seat, part, place, steps)
}

// A queue places two calls of its own: their places.
fn call_twice<L: Ledger>(
    table: &Table,
    seat: Seat<u64>,
    steps: Steps<L>,
) -> (Seat<u64>, (u32, u32), Steps<L>)
    requires own { seat.base.table_id ≡ table.now.table.shared.table_id }
    requires idle { IsIdle seat.base.me }
    requires caller { callers seat.base.me.0.claims ≡ seat.number ∷ [] }
    requires left { 1 < seat.left }
    ensures own { result.0.base.table_id ≡ table.now.table.shared.table_id }
    ensures number { result.0.number ≡ seat.number }
    ensures idle { IsIdle result.0.base.me }
    ensures caller { callers result.0.base.me.0.claims ≡ seat.number ∷ [] }
    ensures places { places result.0.base.me.0 ≡ places seat.base.me.0 }
    ensures left { result.0.left + 2 ≡ seat.left }
{
    let mut steps = steps;
    let mut seat = seat;
    let first = call_own(table, &mut seat, 0, &mut steps);
    let second = call_own(table, &mut seat, 1, &mut steps);
    (seat, (first, second), steps)
}

// The editor's seat, which has taken in a lent place, places the queue's command on it and gives the
// entry back: the place.
fn place_and_settle<L: Ledger>(
    table: &Table,
    editor: Seat<u64>,
    caller: u32,
    steps: Steps<L>,
) -> (Seat<u64>, Part<u64>, u32, Steps<L>)
    requires own { editor.base.table_id ≡ table.now.table.shared.table_id }
    requires editor { (editor.number ≡ 0) × (caller ≢ 0) }
    requires idle { IsIdle editor.base.me }
    requires caller { callers editor.base.me.0.claims ≡ 0 ∷ (caller ∷ []) }
    requires left { 0 < editor.left }
    ensures own { (result.0.base.table_id ≡ table.now.table.shared.table_id)
        × (result.1.base.table_id ≡ table.now.table.shared.table_id) }
    ensures number { result.0.number ≡ 0 }
    ensures idle { IsIdle result.0.base.me }
    ensures caller { (callers result.0.base.me.0.claims ≡ 0 ∷ [])
        × (callers result.1.base.me.0.claims ≡ caller ∷ []) }
    ensures places { places result.0.base.me.0 + places result.1.base.me.0
        ≡ places editor.base.me.0 }
    ensures left { (result.0.left + 1 ≡ editor.left) × (result.1.left ≡ 0) }
{
    let mut steps = steps;
    let mut editor = editor;
    let place = call_for(table, &mut editor, caller, &mut steps);
    let entry = settle(table, &mut editor, place, caller, &mut steps);
    (editor, entry, place, steps)
}

// The queue has its entry again and places a call; another queue is told of it and places one; then
// all seats are joined into the editor's, which knows the whole history: the places of both calls
// and how many are left.
fn gather<L: Ledger>(
    table: &Table,
    editor: Seat<u64>,
    one: Seat<u64>,
    two: Seat<u64>,
    entry: Part<u64>,
    steps: Steps<L>,
) -> (u32, u32, u32)
    requires own { (editor.base.table_id ≡ table.now.table.shared.table_id)
        × (one.base.table_id ≡ table.now.table.shared.table_id)
        × (two.base.table_id ≡ table.now.table.shared.table_id)
        × (entry.base.table_id ≡ table.now.table.shared.table_id) }
    requires numbers { (editor.number ≡ 0) × (one.number ≢ 0) × (two.number ≢ 0) }
    requires idle { IsIdle editor.base.me × IsIdle one.base.me × IsIdle two.base.me }
    requires callers { (callers one.base.me.0.claims ≡ [])
        × (callers entry.base.me.0.claims ≡ one.number ∷ [])
        × (callers two.base.me.0.claims ≡ two.number ∷ []) }
    requires left { (editor.left < 1000) × (0 < one.left) × (one.left < 1000) × (0 < two.left)
        × (two.left < 1000) × (entry.left ≡ 0) }
    requires all { places editor.base.me.0
        + (places one.base.me.0 + (places two.base.me.0 + places entry.base.me.0))
        ≡ sum_of table.now.table.shared.key.quotas }
{
    let mut steps = steps;
    let mut editor = editor;
    let mut one = one;
    let mut two = two;
    take_in(table, &mut one, entry, &mut steps);
    let first = call_own(table, &mut one, 1, &mut steps);
    let seen = note(table, &mut one, &mut steps);
    take_in(table, &mut two, seen, &mut steps);
    let second = call_own(table, &mut two, 2, &mut steps);
    take_in(table, &mut editor, one.into_part(), &mut steps);
    take_in(table, &mut editor, two.into_part(), &mut steps);
    table.learn(&mut editor);
    (first, second, editor.left())
}

/// The places of the first round and of the second, the last two, and how many are left.
type Found = ([u32; 3], [u32; 3], (u32, u32, u32));

// What the second round leaves goes to `gather`.
fn third_round<B: Ledger, C: Ledger>(
    table: &Table,
    one: Seat<u64>,
    settled: (Seat<u64>, Part<u64>, u32, Steps<C>),
    called: (Seat<u64>, (u32, u32), Steps<B>),
    first: [u32; 3],
) -> Found
    requires own { (settled.0.base.table_id ≡ table.now.table.shared.table_id)
        × (one.base.table_id ≡ table.now.table.shared.table_id)
        × (called.0.base.table_id ≡ table.now.table.shared.table_id)
        × (settled.1.base.table_id ≡ table.now.table.shared.table_id) }
    requires numbers { (settled.0.number ≡ 0) × (one.number ≢ 0) × (called.0.number ≢ 0) }
    requires idle { IsIdle settled.0.base.me × IsIdle one.base.me × IsIdle called.0.base.me }
    requires callers { (callers one.base.me.0.claims ≡ [])
        × (callers settled.1.base.me.0.claims ≡ one.number ∷ [])
        × (callers called.0.base.me.0.claims ≡ called.0.number ∷ []) }
    requires left { (settled.0.left < 1000) × (0 < one.left) × (one.left < 1000)
        × (0 < called.0.left) × (called.0.left < 1000) × (settled.1.left ≡ 0) }
    requires all { places settled.0.base.me.0
        + (places one.base.me.0 + (places called.0.base.me.0 + places settled.1.base.me.0))
        ≡ sum_of table.now.table.shared.key.quotas }
{
    let (editor, entry, place, steps) = settled;
    let (two, others, _) = called;
    let last = gather(table, editor, one, two, entry, steps);
    (first, [place, others.0, others.1], last)
}

// The editor's thread beside a queue's, with what the first round left.
fn second_round<A: Ledger + Send, B: Ledger + Send, C: Ledger + Send, R: Threads + Sync>(
    rt: &R,
    table: &Table,
    editor: Seat<u64>,
    lent: (Seat<u64>, Part<u64>, u32, Steps<A>),
    called: (Seat<u64>, (u32, u32), Steps<B>),
    steps: Steps<C>,
) -> Found
    requires own { (editor.base.table_id ≡ table.now.table.shared.table_id)
        × (lent.0.base.table_id ≡ table.now.table.shared.table_id)
        × (lent.1.base.table_id ≡ table.now.table.shared.table_id)
        × (called.0.base.table_id ≡ table.now.table.shared.table_id) }
    requires numbers { (editor.number ≡ 0) × (lent.0.number ≢ 0) × (called.0.number ≢ 0) }
    requires idle { IsIdle editor.base.me × IsIdle lent.0.base.me × IsIdle called.0.base.me }
    requires callers { (callers editor.base.me.0.claims ≡ 0 ∷ [])
        × (callers lent.0.base.me.0.claims ≡ [])
        × (callers lent.1.base.me.0.claims ≡ lent.0.number ∷ [])
        × (callers called.0.base.me.0.claims ≡ called.0.number ∷ []) }
    requires left { (editor.left < 1000) × (0 < lent.0.left) × (lent.0.left < 1000)
        × (2 < called.0.left) × (called.0.left < 1000) × (lent.1.left ≡ 1) }
    requires all { places editor.base.me.0
        + (places lent.0.base.me.0 + (places called.0.base.me.0 + places lent.1.base.me.0))
        ≡ sum_of table.now.table.shared.key.quotas }
{
    let mut steps = steps;
    let mut editor = editor;
    let (one, part, place, _) = lent;
    let (two, others, theirs) = called;
    take_in(table, &mut editor, part, &mut steps);
    let caller = one.number();
    let (settled, called) = join(
        rt,
        move || place_and_settle(table, editor, caller, steps),
        move || call_twice(table, two, theirs),
    );
    third_round(table, one, settled, called, [place, others.0, others.1])
}

// Three rounds: seat 1 lends a place beside calls of seat 2, the editor places on it beside further
// calls of seat 2, and all are gathered.
fn lend_and_gather<A: Ledger + Send, B: Ledger + Send, C: Ledger + Send, R: Threads + Sync>(
    rt: &R,
    alloc: Global,
    first: Blank,
    second: Blank,
    third: Blank,
) -> Option<Found>
    requires first { (first.name ≡ A.name) × (first.parts ≡ A.parts) × (A.parts ≡ 5) }
    requires second { (second.name ≡ B.name) × (second.parts ≡ B.parts) × (B.parts ≡ 5) }
    requires third { (third.name ≡ C.name) × (third.parts ≡ C.parts) × (C.parts ≡ 5) }
{
    let Ok((table, editor, one, two)) = three(alloc, 6) else {
        return None;
    };
    let first = Steps::<A>::start(first);
    let second = Steps::<B>::start(second);
    let third = Steps::<C>::start(third);
    let table = &table;
    let (lent, called) = join(
        rt,
        move || call_and_lend(table, one, first),
        move || call_twice(table, two, second),
    );
    Some(second_round(rt, table, editor, lent, called, third))
}

#[test]
fn a_place_is_lent_and_all_is_gathered(rt: HostRuntime) -> Result<(), AllocError> {
    let found = lend_and_gather::<Brand, Brand, Brand, HostRuntime>(
        &rt,
        rt.alloc(),
        Blank::new(5),
        Blank::new(5),
        Blank::new(5),
    );
    let Some(found) = found else {
        return Err(AllocError);
    };
    let mut first = found.0;
    let mut second = found.1;
    first.sort(rt.alloc())?;
    second.sort(rt.alloc())?;
    assert!(rt; first == [0, 1, 2]);
    assert!(rt; second == [3, 4, 5]);
    assert!(rt; found.2 == (6, 7, 10));
    Ok(())
}
