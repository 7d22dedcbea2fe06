//! An Execute over three extents, of which its command writes two: it is placed with all of them in
//! hand, or stopped where another seat has the turn of one.
ghost use Rattle.std.specs.Prelude.{◌≡◌, ◌<◌, ◌∷◌, [], false};

use extent_executes::executes::execute;
use extent_executes::works::Work;
use ref_state::kinds::{EXECUTE, SUBMIT, Tag};
use ref_state::state::Hold;
use std::alloc::{AllocError, Global};
use std::marker::Brand;
use std::sync::ledger::{Blank, Ledger};
use table_rule::ticks::Steps;
use table_seats::executes::take_out;
use table_seats::ground::{Table, three};
use table_seats::meaning::EndingMeaning;
use table_seats::sections::submit;
use target_table::table::Seat;

// The job of seat 1's command 7, submitted at place 0: its number to the first two extents.
struct Seven;

impl Work<u64, EndingMeaning> for Seven {
    ghost tag = { record { kind = 2; caller = 1; number = 7 } };

    ghost hold = { record {
      disk = 0;
      place = 0;
      call = record { kind = 1; caller = 1; number = 7 };
      executed = false;
    } };

    fn apply(&self, slot: u32, value: u64) -> u64 {
        if slot < 2 {
            return 7;
        }
        value
    }
}

// Executes command 7 over three extents: its place, or nothing where a turn is taken.
fn execute_seven<L: Ledger>(
    table: &Table,
    seat: &mut Seat<u64>,
    steps: &mut Steps<L>,
) -> Option<u32>
    requires own { seat.old.base.table_id ≡ table.now.table.shared.table_id }
    requires slots { table.now.table.shared.key.slots ≡ 8 }
    requires left { 0 < seat.old.left }
    requires free { seat.old.base.me.0.view.turns ≡ [] }
    requires held { seat.old.base.me.0.view.holds
        ≡ record {
          disk = 0;
          place = 0;
          call = record { kind = 1; caller = 1; number = 7 };
          executed = false;
        } ∷ [] }
    ensures own { seat.new.base.table_id ≡ seat.old.base.table_id }
    ensures free { seat.new.base.me.0.view.turns ≡ [] }
{
    let call = Tag {
        kind: EXECUTE,
        caller: 1,
        number: 7,
    };
    let hold = Hold {
        disk: 0,
        place: 0,
        call: Tag {
            kind: SUBMIT,
            caller: 1,
            number: 7,
        },
        executed: false,
    };
    execute(table, seat, &Seven, call, hold, &[0, 1, 2], steps)
}

// What the extents from this slot on hold, or nothing for one whose turn is taken.
fn three_extents<L: Ledger>(
    table: &Table,
    seat: &mut Seat<u64>,
    steps: &mut Steps<L>,
) -> [Option<u64>; 3]
    requires own { seat.old.base.table_id ≡ table.now.table.shared.table_id }
    requires slots { table.now.table.shared.key.slots ≡ 8 }
    requires free { seat.old.base.me.0.view.turns ≡ [] }
{
    let Some(first) = take_out(table, seat, 0, steps) else {
        return [None; 3];
    };
    let Some(second) = take_out(table, seat, 1, steps) else {
        return [Some(first), None, None];
    };
    let third = take_out(table, seat, 2, steps);
    [Some(first), Some(second), third]
}

/// The place of the Execute, and what the three extents hold after it.
type Found = (Option<u32>, [Option<u64>; 3]);

// Seat 1 submits command 7 and executes it over three extents. Where `busy`, seat 2 has the turn of
// the third.
fn write_three<L: Ledger>(
    alloc: Global,
    blank: Blank,
    busy: bool,
) -> Result<Option<Found>, AllocError>
    requires name { blank.name ≡ L.name }
    requires parts { blank.parts ≡ L.parts }
    requires five { L.parts ≡ 5 }
{
    let (table, _editor, mut seat, mut other) = three(alloc, 4)?;
    let mut steps = Steps::<L>::start(blank);
    if busy {
        let _got = table.take_turn(&mut other, 2, &mut steps);
    }
    let Some(0) = submit(&table, &mut seat, 7, &mut steps) else {
        return Ok(None);
    };
    let placed = execute_seven(&table, &mut seat, &mut steps);
    let extents = three_extents(&table, &mut seat, &mut steps);
    Ok(Some((placed, extents)))
}

#[test]
fn an_execute_over_three_extents_writes_two(rt: HostRuntime) -> Result<(), AllocError> {
    let found = write_three::<Brand>(rt.alloc(), Blank::new(5), false)?;
    assert!(rt; found == Some((Some(1), [Some(7), Some(7), Some(0)])));
    Ok(())
}

#[test]
fn an_execute_stops_at_a_turn_that_is_taken(rt: HostRuntime) -> Result<(), AllocError> {
    let found = write_three::<Brand>(rt.alloc(), Blank::new(5), true)?;
    assert!(rt; found == Some((None, [Some(0), Some(0), None])));
    Ok(())
}
