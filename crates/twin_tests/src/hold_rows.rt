//! Holds and drains: another seat's put, the last put, a fold that waits for a section.
ghost use Rattle.std.specs.Prelude.{◌≡◌, ◌+◌, ◌<◌, IfSome, IfErr};
ghost use Rattle.ref_state.specs.declared.state.Phase.TheVariants.{Live as IsLive, Folded as IsFolded};
ghost use Rattle.twin_tables.specs.Keeping.{Edits, IsIn};

use percpu_ref::drains::{fold, kill, poll};
use percpu_ref::lives::{Folded, Killed, Polled};
use percpu_ref::put_kinds::Put;
use rcu_sections::editor::Editor;
use std::alloc::{AllocError, Global};
use std::marker::Brand;
use std::sync::ledger::{Blank, Ledger};
use table_rule::ticks::Steps;
use twin_tables::edits::edit;
use twin_tables::ground::{Queues, five};
use twin_tables::meaning::Table;
use twin_tables::readers::{put_back, take_hold};

// Kills and folds disk 0 of a hidden pair: nothing where a section was found open.
fn fold_at_once<L: Ledger>(
    table: &Table,
    editor: &mut Editor<u64>,
    steps: &mut Steps<L>,
) -> Option<Folded>
    requires own { editor.old.seat.base.table_id ≡ table.now.table.shared.table_id }
    requires plan { (table.now.table.shared.key.disks ≡ 2) × (editor.old.disks ≡ 2) }
    requires edits { Edits 0 editor.old.seat.base.me.0 }
    requires live { IsIn IsLive 0 editor.old.seat.base.me.0 }
    ensures own { editor.new.seat.base.table_id ≡ editor.old.seat.base.table_id }
    ensures disks { editor.new.disks ≡ editor.old.disks }
    ensures folded { IfSome result (λ f. (f.disk ≡ 0)
        × IsIn IsFolded 0 editor.new.seat.base.me.0) }
{
    let killed = kill(table, editor, 0, steps);
    match fold(table, editor, killed, steps) {
        Ok(folded) => Some(folded),
        Err((again, _)) => {
            let Killed { disk: _, words: _ } = again;
            None
        }
    }
}

// How many holds stand: the last value is the count, and the first goes on where it isn't 0.
fn poll_at_once<L: Ledger>(
    table: &Table,
    editor: &mut Editor<u64>,
    folded: Folded,
    steps: &mut Steps<L>,
) -> Result<(), (Folded, u64)>
    requires own { editor.old.seat.base.table_id ≡ table.now.table.shared.table_id }
    requires plan { (table.now.table.shared.key.disks ≡ 2) × (editor.old.disks ≡ 2) }
    requires disk { folded.disk ≡ 0 }
    requires folded { IsIn IsFolded 0 editor.old.seat.base.me.0 }
    ensures own { editor.new.seat.base.table_id ≡ editor.old.seat.base.table_id }
    ensures disks { editor.new.disks ≡ editor.old.disks }
    ensures folded { IfErr result (λ r. (r.0.disk ≡ 0)
        × IsIn IsFolded 0 editor.new.seat.base.me.0) }
{
    match poll(table, editor, folded, steps) {
        Polled::Drained => Ok(()),
        Polled::Draining(again, holds) => Err((again, holds)),
    }
}

// Seat 1 gets a hold that seat 2 puts while the disk is live; then the disk is hidden, killed,
// folded and polled: what the put answered, and whether no hold stood.
fn put_elsewhere<L: Ledger>(alloc: Global, blank: Blank) -> Result<Option<(Put, bool)>, AllocError>
    requires name { (blank.name ≡ L.name) × (blank.parts ≡ L.parts) × (L.parts ≡ 5) }
{
    let (table, mut editor, queues) = five(alloc, 8, 4)?;
    let Queues {
        mut one,
        mut two,
        three: _,
        four: _,
    } = queues;
    let mut steps = Steps::<L>::start(blank);
    let (_, _, hold) = take_hold(&table, &mut one, 0, 0, &mut steps);
    let Some(hold) = hold else {
        return Ok(None);
    };
    let put = put_back(&table, &mut two, hold, &mut steps);
    if edit(&table, &mut editor, 0, &mut steps).is_err() {
        return Ok(None);
    }
    let Some(folded) = fold_at_once(&table, &mut editor, &mut steps) else {
        return Ok(None);
    };
    match poll_at_once(&table, &mut editor, folded, &mut steps) {
        Ok(()) => Ok(Some((put, true))),
        Err((again, _)) => {
            let Folded { disk: _ } = again;
            Ok(Some((put, false)))
        }
    }
}

#[test]
fn a_live_put_of_another_seat_is_in_the_sum(rt: HostRuntime) -> Result<(), AllocError> {
    let found = put_elsewhere::<Brand>(rt.alloc(), Blank::new(5))?;
    assert!(rt; found == Some((Put::Kept, true)));
    Ok(())
}

// Seat 1 gets two holds; the disk is hidden, killed, folded and polled; then seat 2 puts one and
// seat 1 the other: the count, both answers, and whether no hold stands at the end.
fn put_both<L: Ledger>(
    alloc: Global,
    blank: Blank,
) -> Result<Option<(u64, [Put; 2], bool)>, AllocError>
    requires name { (blank.name ≡ L.name) × (blank.parts ≡ L.parts) × (L.parts ≡ 5) }
{
    let (table, mut editor, queues) = five(alloc, 8, 4)?;
    let Queues {
        mut one,
        mut two,
        three: _,
        four: _,
    } = queues;
    let mut steps = Steps::<L>::start(blank);
    let (_, _, first) = take_hold(&table, &mut one, 0, 0, &mut steps);
    let Some(first) = first else {
        return Ok(None);
    };
    let (_, _, second) = take_hold(&table, &mut one, 0, 1, &mut steps);
    let Some(second) = second else {
        let _ = put_back(&table, &mut one, first, &mut steps);
        return Ok(None);
    };
    let hidden = edit(&table, &mut editor, 0, &mut steps).is_ok();
    let folded = if hidden {
        fold_at_once(&table, &mut editor, &mut steps)
    } else {
        None
    };
    let polled = match folded {
        Some(folded) => poll_at_once(&table, &mut editor, folded, &mut steps),
        None => Ok(()),
    };
    let puts = [
        put_back(&table, &mut two, first, &mut steps),
        put_back(&table, &mut one, second, &mut steps),
    ];
    let Err((again, holds)) = polled else {
        return Ok(None);
    };
    match poll_at_once(&table, &mut editor, again, &mut steps) {
        Ok(()) => Ok(Some((holds, puts, true))),
        Err((again, _)) => {
            let Folded { disk: _ } = again;
            Ok(Some((holds, puts, false)))
        }
    }
}

#[test]
fn the_last_put_is_told(rt: HostRuntime) -> Result<(), AllocError> {
    let found = put_both::<Brand>(rt.alloc(), Blank::new(5))?;
    assert!(rt; found == Some((2, [Put::Kept, Put::Last], true)));
    Ok(())
}
