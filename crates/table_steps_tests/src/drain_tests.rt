//! One drain of the disk while a hold stands, from the edit that hides it to the edit that shows it
//! again.
ghost use Rattle.std.specs.Prelude.{◌≡◌, ◌≢◌, ◌+◌, ◌<◌, ◌≤◌};

use ref_state::kinds::{SUBMIT, Tag};
use ref_state::state::Hold;
use std::alloc::{AllocError, Global};
use std::marker::Brand;
use std::sync::ledger::{Blank, Ledger};
use table_rule::ticks::Steps;
use table_seats::executes::execute;
use table_seats::ground::three;
use table_seats::lives::{end_drain, fold_all, hide, retire, show};
use table_seats::sections::{finish, submit};

// Seat 1 holds the disk while it drains: the places and serials of both edits, the count before
// the fold, whether the drain ended while the hold stood, the count before the last put, and the
// place of the end.
fn drain_held<L: Ledger>(
    alloc: Global,
    blank: Blank,
) -> Result<Option<((u32, u32), u64, bool, Option<u64>, u32, (u32, u32))>, AllocError>
    requires name { blank.name ≡ L.name }
    requires parts { blank.parts ≡ L.parts }
    requires five { L.parts ≡ 5 }
{
    let (table, mut editor, mut seat, _other) = three(alloc, 4)?;
    let mut steps = Steps::<L>::start(blank);
    let Some(place) = submit(&table, &mut seat, 7, &mut steps) else {
        return Ok(None);
    };
    let hidden = hide(&table, &mut editor, &mut steps);
    if !retire(&table, &mut editor, &mut steps) {
        return Ok(None);
    }
    let folded = fold_all(&table, &mut editor, &mut steps);
    if end_drain(&table, &mut editor, &mut steps).is_some() {
        return Ok(None);
    }
    let hold = Hold {
        disk: 0,
        place,
        call: Tag {
            kind: SUBMIT,
            caller: 1,
            number: 7,
        },
        executed: false,
    };
    if execute(&table, &mut seat, hold, &mut steps).is_none() {
        return Ok(None);
    }
    let last = finish(&table, &mut seat, &mut steps);
    let Some(ended) = end_drain(&table, &mut editor, &mut steps) else {
        return Ok(None);
    };
    let shown = show(&table, &mut editor, 5, &mut steps);
    Ok(Some((hidden, folded, true, last, ended, shown)))
}

#[test]
fn a_drain_ends_with_its_last_hold(rt: HostRuntime) -> Result<(), AllocError> {
    let found = drain_held::<Brand>(rt.alloc(), Blank::new(5))?;
    assert!(rt; found == Some(((1, 1), 9223372036854775808, true, Some(1), 3, (4, 2))));
    Ok(())
}
