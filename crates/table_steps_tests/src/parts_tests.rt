//! Holds that another seat puts: its own counter goes below zero, and its put after the fold finds
//! the last hold.
ghost use Rattle.std.specs.Prelude.{◌≡◌, ◌≢◌, ◌+◌, ◌<◌, ◌≤◌};

use ref_state::kinds::{SUBMIT, Tag};
use ref_state::state::Hold;
use std::alloc::{AllocError, Global};
use std::marker::Brand;
use std::sync::ledger::{Blank, Ledger};
use table_rule::ticks::Steps;
use table_seats::executes::execute;
use table_seats::ground::three;
use table_seats::lives::{end_drain, fold_all, hide, retire};
use table_seats::parts::hand_hold;
use table_seats::sections::{finish, submit};

// Seat 1 gets two holds and seat 2 puts them, the second after the fold: the shared count before
// each put, nothing where the put went to the own counter, and the place of the drain's end.
fn put_elsewhere<L: Ledger>(
    alloc: Global,
    blank: Blank,
) -> Result<Option<(Option<u64>, Option<u64>, u32)>, AllocError>
    requires name { blank.name ≡ L.name }
    requires parts { blank.parts ≡ L.parts }
    requires five { L.parts ≡ 5 }
{
    let (table, mut editor, mut one, mut two) = three(alloc, 6)?;
    let mut steps = Steps::<L>::start(blank);
    let Some(place) = submit(&table, &mut one, 7, &mut steps) else {
        return Ok(None);
    };
    hand_hold(&table, &mut one, &mut two, &mut steps);
    let hold = Hold {
        disk: 0,
        place,
        call: Tag {
            kind: SUBMIT,
            caller: 1,
            number: 7,
        },
        executed: false,
    };
    if execute(&table, &mut two, hold, &mut steps).is_none() {
        return Ok(None);
    }
    let live = finish(&table, &mut two, &mut steps);
    let Some(place) = submit(&table, &mut one, 8, &mut steps) else {
        return Ok(None);
    };
    hand_hold(&table, &mut one, &mut two, &mut steps);
    let hold = Hold {
        disk: 0,
        place,
        call: Tag {
            kind: SUBMIT,
            caller: 1,
            number: 8,
        },
        executed: false,
    };
    hide(&table, &mut editor, &mut steps);
    if !retire(&table, &mut editor, &mut steps) {
        return Ok(None);
    }
    fold_all(&table, &mut editor, &mut steps);
    if end_drain(&table, &mut editor, &mut steps).is_some() {
        return Ok(None);
    }
    if execute(&table, &mut two, hold, &mut steps).is_none() {
        return Ok(None);
    }
    let last = finish(&table, &mut two, &mut steps);
    let Some(ended) = end_drain(&table, &mut editor, &mut steps) else {
        return Ok(None);
    };
    Ok(Some((live, last, ended)))
}

#[test]
fn another_seat_puts_the_last_hold(rt: HostRuntime) -> Result<(), AllocError> {
    let found = put_elsewhere::<Brand>(rt.alloc(), Blank::new(5))?;
    assert!(rt; found == Some((None, Some(1), 5)));
    Ok(())
}
