//! Two held commands of one seat, one after the other: each is executed and its hold put.
ghost use Rattle.std.specs.Prelude.{◌≡◌, ◌≢◌, ◌+◌, ◌<◌, ◌≤◌};

use ref_state::kinds::{SUBMIT, Tag};
use ref_state::state::Hold;
use std::alloc::{AllocError, Global};
use std::marker::Brand;
use std::sync::ledger::{Blank, Ledger};
use table_rule::ticks::Steps;
use table_seats::executes::execute;
use table_seats::ground::three;
use table_seats::sections::{finish, submit};

// Commands 7 and 9 of seat 1: what their extents held before, where nothing refuses.
fn write_twice<L: Ledger>(
    alloc: Global,
    blank: Blank,
) -> Result<Option<[(u64, u64); 2]>, AllocError>
    requires name { blank.name ≡ L.name }
    requires parts { blank.parts ≡ L.parts }
    requires five { L.parts ≡ 5 }
{
    let (table, _editor, mut seat, _other) = three(alloc, 4)?;
    let mut steps = Steps::<L>::start(blank);
    let mut found = [(9, 9); 2];
    let Some(place) = submit(&table, &mut seat, 7, &mut steps) else {
        return Ok(None);
    };
    let hold = Hold {
        disk: 0,
        place,
        call: Tag {
            kind: SUBMIT,
            caller: 1,
            number: 7,
        },
        executed: false,
    };
    let Some(before) = execute(&table, &mut seat, hold, &mut steps) else {
        return Ok(None);
    };
    found[0] = before;
    let _live = finish(&table, &mut seat, &mut steps);
    let Some(place) = submit(&table, &mut seat, 9, &mut steps) else {
        return Ok(None);
    };
    let hold = Hold {
        disk: 0,
        place,
        call: Tag {
            kind: SUBMIT,
            caller: 1,
            number: 9,
        },
        executed: false,
    };
    let Some(before) = execute(&table, &mut seat, hold, &mut steps) else {
        return Ok(None);
    };
    found[1] = before;
    Ok(Some(found))
}

#[test]
fn an_execute_writes_both_extents(rt: HostRuntime) -> Result<(), AllocError> {
    let found = write_twice::<Brand>(rt.alloc(), Blank::new(5))?;
    assert!(rt; found == Some([(0, 0), (7, 7)]));
    Ok(())
}
