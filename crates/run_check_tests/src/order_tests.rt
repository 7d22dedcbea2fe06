// Records and lines that are no call of their caller's at their place, and drains that end too early.
use crate::damages::Damage::{
    Answer, Count, Gone, Kind, Line, Number, Place, Places, Says as LineSays, Swap, Twice,
};
use crate::damages::Part::{Admin, Io, Journal};
use crate::damages::Shift::{Close, Move, Open, Swap as SwapPlaces};
use crate::journal::Says;
use crate::records::{ANSWERED, CONTROL, EXECUTE, HELD, SUBMIT};
use crate::rows::{Row, check_rows};
use std::test::Fail;

const QUEUES: &[Row] = &[
    // Two records changed with one another, whole and in their places alone.
    (&[Swap(Admin, 2, 4)], b"not legal place 3 order\n"),
    (&[Swap(Io, 1, 2)], b"not legal place 6 order\n"),
    (&[Places(SwapPlaces(3, 4))], b"not legal place 3 order\n"),
    (&[Places(SwapPlaces(8, 11))], b"not legal place 8 order\n"),
    // Kinds and numbers.
    (&[Kind(Admin, 0, SUBMIT)], b"not legal place 0 order\n"),
    (&[Kind(Admin, 8, CONTROL)], b"not legal place 15 order\n"),
    (&[Kind(Io, 5, EXECUTE)], b"not legal place 19 order\n"),
    (&[Number(Io, 3, 3)], b"not legal place 11 order\n"),
    (&[Number(Io, 4, 3)], b"not legal place 16 order\n"),
    (&[Number(Admin, 3, 2)], b"not legal place 4 order\n"),
    (&[Number(Admin, 14, 8)], b"not legal place 30 order\n"),
    // A record that is missing among others, and one too many.
    (
        &[Gone(Admin, 3), Places(Close(4))],
        b"not legal place 6 order\n",
    ),
    (
        &[Gone(Io, 7), Places(Close(25))],
        b"not legal place 25 order\n",
    ),
    (
        &[Places(Open(9)), Twice(Io, 2), Place(Io, 3, 9)],
        b"not legal place 9 order\n",
    ),
    // A queue whose list ends too early is named at the end.
    (
        &[Gone(Io, 9), Places(Close(27))],
        b"not legal place 30 order\n",
    ),
    (
        &[
            Gone(Io, 9),
            Gone(Io, 8),
            Places(Close(27)),
            Places(Close(26)),
        ],
        b"not legal place 29 order\n",
    ),
];

#[test]
fn each_record_out_of_order_is_named(rt: HostRuntime) -> Result<(), Fail> {
    check_rows(&rt, rt.alloc(), QUEUES)
}

const FRONTS_AND_POLLS: &[Row] = &[
    // The front of queue 2 before that of queue 1 has ended.
    (&[Places(SwapPlaces(1, 2))], b"not legal place 1 order\n"),
    (&[Places(Move(2, 0))], b"not legal place 0 order\n"),
    // An edit, or a submit, at a front's turn: the front's call is late.
    (&[Places(Move(5, 1))], b"not legal place 2 order\n"),
    (&[Places(Move(3, 2))], b"not legal place 3 order\n"),
    // A final poll before an edit, an execute.
    (&[Places(Move(24, 28))], b"not legal place 27 order\n"),
    (&[Places(SwapPlaces(27, 28))], b"not legal place 27 order\n"),
    (&[Places(Move(24, 30))], b"not legal place 27 order\n"),
    // One too few, with the last one cut off and with one of the others; one too many.
    (&[Gone(Admin, 14), Count(30)], b"not legal place 30 order\n"),
    (
        &[Gone(Admin, 13), Places(Close(29))],
        b"not legal place 29 answer\n",
    ),
    (
        &[Twice(Admin, 14), Place(Admin, 15, 31), Count(32)],
        b"not legal place 31 order\n",
    ),
    (
        &[
            Twice(Admin, 14),
            Twice(Admin, 14),
            Place(Admin, 15, 31),
            Place(Admin, 16, 32),
            Count(33),
        ],
        b"not legal place 31 order\n",
    ),
    // A record of another kind where the last of three is due: the first stands before it.
    (
        &[Kind(Admin, 14, CONTROL), Answer(Admin, 14, ANSWERED)],
        b"not legal place 28 order\n",
    ),
    (
        &[Kind(Admin, 14, SUBMIT), Answer(Admin, 14, HELD)],
        b"not legal place 28 order\n",
    ),
    (
        &[Kind(Admin, 14, EXECUTE), Answer(Admin, 14, ANSWERED)],
        b"not legal place 28 order\n",
    ),
    // And where the first is due.
    (&[Kind(Admin, 12, CONTROL)], b"not legal place 28 order\n"),
];

#[test]
fn fronts_come_first_and_final_polls_last(rt: HostRuntime) -> Result<(), Fail> {
    check_rows(&rt, rt.alloc(), FRONTS_AND_POLLS)
}

const EDITS: &[Row] = &[
    (&[Swap(Journal, 0, 1)], b"not legal place 5 order\n"),
    (&[Places(SwapPlaces(5, 10))], b"not legal place 5 order\n"),
    (&[Line(0, 3)], b"not legal place 5 order\n"),
    (&[Line(1, 4)], b"not legal place 10 order\n"),
    (&[Line(2, 6)], b"not legal place 14 order\n"),
    // A line that is missing, and one too many.
    (
        &[Gone(Journal, 1), Places(Close(10))],
        b"not legal place 13 order\n",
    ),
    (
        &[Places(Open(11)), Twice(Journal, 1), Place(Journal, 2, 11)],
        b"not legal place 11 order\n",
    ),
    (
        &[Places(Open(25)), Twice(Journal, 5), Place(Journal, 6, 25)],
        b"not legal place 25 order\n",
    ),
    // A drain's end before the edit that begins it, in its place, twice, missing, of another line.
    (
        &[Swap(Journal, 2, 3), Places(SwapPlaces(14, 18))],
        b"not legal place 14 order\n",
    ),
    (&[LineSays(0, Says::Done)], b"not legal place 5 order\n"),
    (&[LineSays(2, Says::Done)], b"not legal place 14 order\n"),
    (
        &[Places(Open(19)), Twice(Journal, 3), Place(Journal, 4, 19)],
        b"not legal place 19 order\n",
    ),
    (
        &[Gone(Journal, 3), Places(Close(18))],
        b"not legal place 21 order\n",
    ),
    (&[LineSays(3, Says::Ok)], b"not legal place 18 order\n"),
    (&[Line(3, 2)], b"not legal place 18 order\n"),
];

#[test]
fn each_line_out_of_order_is_named(rt: HostRuntime) -> Result<(), Fail> {
    check_rows(&rt, rt.alloc(), EDITS)
}

// The drain's end while the Read is held.
const DRAINS: &[Row] = &[
    (&[Places(SwapPlaces(16, 18))], b"not legal place 16 drain\n"),
    (&[Places(Move(18, 15))], b"not legal place 15 drain\n"),
    (&[Places(Move(18, 16))], b"not legal place 16 drain\n"),
    (&[Places(Move(16, 18))], b"not legal place 17 drain\n"),
    // The execute is missing.
    (
        &[Gone(Io, 4), Places(Close(16))],
        b"not legal place 17 drain\n",
    ),
    // Of another line it isn't the next call.
    (
        &[Places(Move(18, 15)), Line(3, 6)],
        b"not legal place 15 order\n",
    ),
];

#[test]
fn a_drain_that_ends_before_an_execute_is_named(rt: HostRuntime) -> Result<(), Fail> {
    check_rows(&rt, rt.alloc(), DRAINS)
}
