// Records and lines that are their caller's next call, and differ from what the target makes of it.
use crate::damages::Damage::{
    Answer, Byte, Command, Gone, Head, Length, Outcome, Places, Queue, Says as LineSays, Status,
};
use crate::damages::Part::{Admin, Io, Journal};
use crate::damages::Shift::Close;
use crate::journal::Says;
use crate::records::{ANSWERED, HELD, NO_EVENT, WAITING};
use crate::rows::{Row, check_rows};
use std::test::Fail;

const FIELDS: &[Row] = &[
    // Held turned into answered, waiting into held, no event into one and the other way round.
    (&[Answer(Io, 1, ANSWERED)], b"not legal place 6 answer\n"),
    (&[Answer(Io, 3, WAITING)], b"not legal place 11 answer\n"),
    (&[Answer(Admin, 2, HELD)], b"not legal place 3 answer\n"),
    (
        &[Answer(Admin, 14, ANSWERED)],
        b"not legal place 30 answer\n",
    ),
    (
        &[
            Answer(Admin, 12, NO_EVENT),
            Outcome(Admin, 12, 0),
            Command(Admin, 12, 0),
        ],
        b"not legal place 28 answer\n",
    ),
    (
        &[Gone(Journal, 5), Places(Close(24))],
        b"not legal place 28 answer\n",
    ),
    // Completions.
    (&[Outcome(Io, 0, 2)], b"not legal place 2 completion\n"),
    (
        &[Outcome(Admin, 13, 0x4_0002)],
        b"not legal place 29 completion\n",
    ),
    (&[Head(Io, 4, 1)], b"not legal place 16 completion\n"),
    (&[Queue(Io, 2, 2)], b"not legal place 8 completion\n"),
    (&[Command(Io, 4, 4)], b"not legal place 16 completion\n"),
    (&[Command(Admin, 9, 3)], b"not legal place 17 completion\n"),
    (&[Status(Io, 5, 0x0604)], b"not legal place 19 completion\n"),
    (&[Status(Io, 5, 0)], b"not legal place 19 completion\n"),
    // Data, also where none are given.
    (&[Byte(Admin, 8, 0, 0)], b"not legal place 15 bytes\n"),
    (&[Byte(Admin, 8, 3, 1)], b"not legal place 15 bytes\n"),
    (&[Byte(Io, 4, 511, b'v')], b"not legal place 16 bytes\n"),
    (&[Length(Io, 4, 511)], b"not legal place 16 bytes\n"),
    (&[Length(Io, 7, 513)], b"not legal place 25 bytes\n"),
    (&[Length(Io, 8, 1)], b"not legal place 26 bytes\n"),
    (&[Length(Admin, 3, 1)], b"not legal place 4 bytes\n"),
    // Errnos.
    (&[LineSays(1, Says::Ok)], b"not legal place 10 errno\n"),
    (
        &[LineSays(1, Says::Errno("EBUSY"))],
        b"not legal place 10 errno\n",
    ),
    (
        &[LineSays(0, Says::Errno("EEXIST"))],
        b"not legal place 5 errno\n",
    ),
    (
        &[LineSays(2, Says::Errno("EPERM"))],
        b"not legal place 14 errno\n",
    ),
    (
        &[LineSays(5, Says::Errno("ENOENT"))],
        b"not legal place 24 errno\n",
    ),
];

#[test]
fn each_field_that_differs_is_named(rt: HostRuntime) -> Result<(), Fail> {
    check_rows(&rt, rt.alloc(), FIELDS)
}

// The lowest place, and there the first field.
const FIRST: &[Row] = &[
    (
        &[Byte(Io, 4, 0, 0), Status(Io, 4, 2)],
        b"not legal place 16 completion\n",
    ),
    (
        &[Length(Io, 1, 3), Answer(Io, 1, WAITING)],
        b"not legal place 6 answer\n",
    ),
    (
        &[Byte(Io, 4, 0, 0), Answer(Admin, 14, ANSWERED)],
        b"not legal place 16 bytes\n",
    ),
    (
        &[Command(Admin, 12, 3), LineSays(1, Says::Ok)],
        b"not legal place 10 errno\n",
    ),
];

#[test]
fn the_first_of_several_faults_is_named(rt: HostRuntime) -> Result<(), Fail> {
    check_rows(&rt, rt.alloc(), FIRST)
}
