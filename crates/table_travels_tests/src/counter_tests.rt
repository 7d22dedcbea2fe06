//! A hold of seat 1 travels to another thread, where seat 2 executes its command and puts it: seat
//! 2's own counter goes below zero. A second one is put after the fold, and is the last.
ghost use Rattle.std.specs.Prelude.{◌≡◌, ◌≢◌, ◌+◌, ◌<◌, ◌∷◌, [], false, map, IfSome};
ghost use Rattle.ref_state.specs.State.{total};
ghost use Rattle.table_rule.specs.Shown.{IsNewIn, extended};
ghost use Rattle.table_seats.specs.Lives.{Edits, started};
ghost use Rattle.table_seats.specs.Resting.{Rests};
ghost use Rattle.table_travels_tests.specs.Travels.{IsSent};

use crate::counters::fold_shown;
use crate::hold_moves::{send_hold, take_hold};
use ref_state::kinds::{SUBMIT, Tag};
use ref_state::state::Hold;
use std::alloc::{AllocError, Global};
use std::marker::Brand;
use std::sync::ledger::{Blank, Ledger};
use std::thread::{Threads, join};
use table_rule::ticks::Steps;
use table_seats::executes::execute;
use table_seats::ground::{Table, three};
use table_seats::lives::{end_drain, hide, retire};
use table_seats::sections::{finish, submit};
use target_table::seats::Part;
use target_table::table::Seat;

// A submit of the queue, whose hold is sent away: the command's hold as its name has it.
fn submit_and_send<L: Ledger>(
    table: &Table,
    seat: Seat<u64>,
    number: u32,
    steps: Steps<L>,
) -> Option<(Seat<u64>, Part<u64>, Hold, Steps<L>)>
    requires own { seat.base.table_id ≡ table.now.table.shared.table_id }
    requires plan { (table.now.table.shared.key.rows ≡ 1) × (table.now.table.shared.key.disks ≡ 1) }
    requires queue { seat.number ≢ 0 }
    requires rests { Rests seat.number seat.base.me }
    requires none { seat.base.me.0.view.holds ≡ [] }
    requires left { 0 < seat.left }
    requires new { IsNewIn record {
      kind = 1;
      caller = seat.number;
      number = number;
    } seat.base.me.0.claims }
    ensures own { IfSome result (λ r. (r.0.base.table_id ≡ table.now.table.shared.table_id)
        × (r.1.base.table_id ≡ table.now.table.shared.table_id)) }
    ensures number { IfSome result (λ r. r.0.number ≡ seat.number) }
    ensures rests { IfSome result (λ r. Rests r.0.number r.0.base.me) }
    ensures left { IfSome result (λ r. r.0.left + 1 ≡ seat.left) }
    ensures none { IfSome result (λ r. r.0.base.me.0.view.holds ≡ []) }
    ensures claims { IfSome result (λ r. r.0.base.me.0.claims ≡ map (extended record {
      kind = 1;
      caller = seat.number;
      number = number;
    }) seat.base.me.0.claims) }
    ensures sent { IfSome result (λ r. IsSent r.2 r.1.base.me.0 × (r.1.left ≡ 0)) }
{
    let mut steps = steps;
    let mut seat = seat;
    let place = submit(table, &mut seat, number, &mut steps)?;
    let hold = Hold {
        disk: 0,
        place,
        call: Tag {
            kind: SUBMIT,
            caller: seat.number,
            number,
        },
        executed: false,
    };
    let part = send_hold(table, &mut seat, &mut steps);
    Some((seat, part, hold, steps))
}

// The seat executes the command of the hold that it took in and puts it: the count that stood
// before where the put went to the shared count.
fn execute_and_put<L: Ledger>(
    table: &Table,
    seat: Seat<u64>,
    hold: Hold,
    steps: Steps<L>,
) -> Option<(Seat<u64>, Option<u64>, Steps<L>)>
    requires own { seat.base.table_id ≡ table.now.table.shared.table_id }
    requires plan { (table.now.table.shared.key.slots ≡ 8)
        × (table.now.table.shared.key.disks ≡ 1) }
    requires rests { Rests seat.number seat.base.me }
    requires free { (seat.base.me.0.view.turns ≡ []) × (seat.base.me.1 ≡ []) }
    requires left { 0 < seat.left }
    requires held { seat.base.me.0.view.holds ≡ hold ∷ [] }
    requires waits { (hold.disk ≡ 0) × (hold.call.kind ≡ 1) × (hold.executed ≡ false) }
    ensures own { IfSome result (λ r. r.0.base.table_id ≡ table.now.table.shared.table_id) }
    ensures rests { IfSome result (λ r. Rests r.0.number r.0.base.me) }
    ensures free { IfSome result (λ r. (r.0.base.me.0.view.turns ≡ []) × (r.0.base.me.1 ≡ [])) }
    ensures none { IfSome result (λ r. r.0.base.me.0.view.holds ≡ []) }
    ensures left { IfSome result (λ r. r.0.left + 1 ≡ seat.left) }
{
    let mut steps = steps;
    let mut seat = seat;
    let _before = execute(table, &mut seat, hold, &mut steps)?;
    let put = finish(table, &mut seat, &mut steps);
    Some((seat, put, steps))
}

// The second hold stands while the disk drains: the own counters, the put that took it away, and
// the place of the drain's end. Before them what the first put answered.
fn drain_and_put<L: Ledger, K: Ledger>(
    table: &Table,
    editor: Seat<u64>,
    put: Option<(Seat<u64>, Option<u64>, Steps<K>)>,
    sent: Option<(Seat<u64>, Part<u64>, Hold, Steps<L>)>,
) -> Option<(Option<u64>, [u64; 3], Option<u64>, u32)>
    requires own { editor.base.table_id ≡ table.now.table.shared.table_id }
    requires plan { (table.now.table.shared.key.rows ≡ 1) × (table.now.table.shared.key.disks ≡ 1)
        × (table.now.table.shared.key.slots ≡ 8) }
    requires edits { Edits started 1 0 editor.base.me.0 }
    requires left { 3 < editor.left }
    requires put { IfSome put (λ r. (r.0.base.table_id ≡ table.now.table.shared.table_id)
        × Rests r.0.number r.0.base.me × (r.0.base.me.0.view.turns ≡ []) × (r.0.base.me.1 ≡ [])
        × (r.0.base.me.0.view.holds ≡ []) × (0 < r.0.left)) }
    requires sent { IfSome sent (λ r. (r.0.base.table_id ≡ table.now.table.shared.table_id)
        × (r.1.base.table_id ≡ table.now.table.shared.table_id)
        × Rests r.0.number r.0.base.me × (r.0.base.me.0.view.holds ≡ [])
        × IsSent r.2 r.1.base.me.0 × (r.1.left ≡ 0)) }
{
    let mut editor = editor;
    let Some((mut one, part, hold, mut first)) = sent else {
        return None;
    };
    let Some((mut two, live, mut steps)) = put else {
        take_hold(table, &mut one, part, &mut first);
        return None;
    };
    take_hold(table, &mut two, part, &mut steps);
    let _ = hide(table, &mut editor, &mut steps);
    if !retire(table, &mut editor, &mut steps) {
        return None;
    }
    let words = fold_shown(table, &mut editor, &mut steps);
    if end_drain(table, &mut editor, &mut steps).is_some() {
        return None;
    }
    let _before = execute(table, &mut two, hold, &mut steps)?;
    let last = finish(table, &mut two, &mut steps);
    let ended = end_drain(table, &mut editor, &mut steps)?;
    Some((live, words, last, ended))
}

// Seat 1 sends two holds, the second while seat 2 executes and puts the first in another thread.
fn put_elsewhere<L: Ledger + Send, K: Ledger + Send, R: Threads + Sync>(
    rt: &R,
    alloc: Global,
    blank: Blank,
    other: Blank,
) -> Option<(Option<u64>, [u64; 3], Option<u64>, u32)>
    requires name { (blank.name ≡ L.name) × (blank.parts ≡ L.parts) × (L.parts ≡ 5) }
    requires other { (other.name ≡ K.name) × (other.parts ≡ K.parts) × (K.parts ≡ 5) }
{
    let Ok((table, editor, one, two)) = three(alloc, 6) else {
        return None;
    };
    let steps = Steps::<L>::start(blank);
    let theirs = Steps::<K>::start(other);
    let table = &table;
    let mut theirs = theirs;
    let mut two = two;
    let (one, part, hold, steps) = submit_and_send(table, one, 7, steps)?;
    take_hold(table, &mut two, part, &mut theirs);
    let (put, sent) = join(
        rt,
        move || execute_and_put(table, two, hold, theirs),
        move || submit_and_send(table, one, 8, steps),
    );
    drain_and_put(table, editor, put, sent)
}

#[test]
fn another_threads_counter_goes_below_zero(rt: HostRuntime) -> Result<(), AllocError> {
    let found = put_elsewhere::<Brand, Brand, HostRuntime>(
        &rt,
        rt.alloc(),
        Blank::new(5),
        Blank::new(5),
    );
    let words = [0, 2, 18446744073709551615];
    assert!(rt; found == Some((None, words, Some(1), 5)));
    Ok(())
}
