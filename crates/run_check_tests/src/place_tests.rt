// Places that are missing, doubled or not below their number, and other orders of the same calls.
use crate::damages::Damage::{Count, Gone, Place, Places, Twice};
use crate::damages::Part::{Admin, Io, Journal};
use crate::damages::Shift::{Move, Swap};
use crate::rows::{Row, check_rows};
use std::test::Fail;

const BAD_PLACES: &[Row] = &[
    (&[Count(32)], b"not legal place 31 place\n"),
    (&[Count(4294967295)], b"not legal place 31 place\n"),
    (&[Count(30)], b"not legal place 30 place\n"),
    (&[Count(0)], b"not legal place 0 place\n"),
    (&[Place(Io, 0, 3)], b"not legal place 2 place\n"),
    (&[Place(Io, 0, 1)], b"not legal place 1 place\n"),
    (&[Place(Journal, 0, 4)], b"not legal place 4 place\n"),
    (
        &[Place(Journal, 5, 4294967295)],
        b"not legal place 24 place\n",
    ),
    (&[Gone(Admin, 14)], b"not legal place 30 place\n"),
    (&[Gone(Journal, 3)], b"not legal place 18 place\n"),
    (&[Twice(Io, 9)], b"not legal place 27 place\n"),
    (&[Twice(Journal, 0)], b"not legal place 5 place\n"),
    // The lowest of several, in whichever file it stands.
    (
        &[Place(Admin, 14, 29), Place(Io, 3, 12)],
        b"not legal place 11 place\n",
    ),
    (
        &[Place(Journal, 4, 23), Place(Admin, 0, 31)],
        b"not legal place 0 place\n",
    ),
    // Two queues that change one place each with one another.
    (&[Place(Admin, 4, 6), Place(Io, 1, 7)], b"legal 31\n"),
];

#[test]
fn the_lowest_bad_place_is_named(rt: HostRuntime) -> Result<(), Fail> {
    check_rows(&rt, rt.alloc(), BAD_PLACES)
}

// Orders in which each call has the answer that it had, and such in which one has another.
const ORDERS: &[Row] = &[
    (&[], b"legal 31\n"),
    (&[Places(Move(5, 3))], b"legal 31\n"),
    (&[Places(Move(3, 7))], b"not legal place 3 order\n"),
    (&[Places(Swap(6, 7))], b"legal 31\n"),
    (&[Places(Move(24, 27))], b"legal 31\n"),
    // The drain's end above the execute that it waits for, wherever that is.
    (&[Places(Move(18, 17))], b"legal 31\n"),
    (&[Places(Move(18, 19))], b"legal 31\n"),
    // A Read that is submitted before the namespace is disabled, and one before it is enabled.
    (&[Places(Move(14, 10))], b"not legal place 10 order\n"),
    (&[Places(Move(14, 11))], b"not legal place 12 answer\n"),
    (&[Places(Swap(11, 14))], b"not legal place 13 answer\n"),
    (&[Places(Swap(22, 23))], b"not legal place 22 answer\n"),
    // A poll behind a change that it was to find, and one before.
    (&[Places(Move(22, 20))], b"not legal place 22 answer\n"),
    (&[Places(Move(14, 17))], b"not legal place 14 bytes\n"),
];

#[test]
fn a_run_may_have_any_order_that_gives_its_answers(rt: HostRuntime) -> Result<(), Fail> {
    check_rows(&rt, rt.alloc(), ORDERS)
}
