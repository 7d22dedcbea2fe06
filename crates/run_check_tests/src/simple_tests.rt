// The run of a simple plan with a Write and a Read of eight blocks: its response file, byte for
// byte, changed.
use crate::answer::check_files;
use crate::capsules::{Capsule, queue_file};
use std::alloc::Global;
use std::test::Fail;

const PLAN: &[u8] = b"nvmet-plan 1\nsimple\ndisk /dev/ram0 9 16\nqueue 1 q1 r1\n";

const CAPSULES: &[Capsule] = &[Capsule::Write(8, b'w'), Capsule::Read(8)];

// The heads of its four records, each with its completion: a Write held at place 0 and executed at
// 1, a Read held at place 2 and executed at 3 with 4,096 bytes.
const HEADS: [u8; 128] = [
    0, 0, 0, 0, 1, 0, 0, 0, 0, 0, 0, 0, 0, 0, 0, 0, // place, kind, answer, number, length
    0, 0, 0, 0, 0, 0, 0, 0, 0, 0, 0, 0, 0, 0, 0, 0, // no completion
    1, 0, 0, 0, 2, 1, 0, 0, 0, 0, 0, 0, 0, 0, 0, 0, //
    0, 0, 0, 0, 0, 0, 0, 0, 0, 0, 1, 0, 1, 0, 0, 0, // on queue 1, command identifier 1
    2, 0, 0, 0, 1, 0, 0, 0, 1, 0, 0, 0, 0, 0, 0, 0, //
    0, 0, 0, 0, 0, 0, 0, 0, 0, 0, 0, 0, 0, 0, 0, 0, //
    3, 0, 0, 0, 2, 1, 0, 0, 1, 0, 0, 0, 0, 16, 0, 0, //
    0, 0, 0, 0, 0, 0, 0, 0, 0, 0, 1, 0, 2, 0, 0, 0, // command identifier 2
];

// Bytes of the response file that are changed, its length then, the status and the line.
type Row = (&'static [(usize, u8)], usize, u8, &'static [u8]);

const ROWS: &[Row] = &[
    (&[], 4224, 0, b"legal 4\n"),
    // Places: that of the second record, two of one place, one that isn't below 4.
    (&[(32, 3)], 4224, 8, b"not legal place 1 place\n"),
    (&[(32, 0)], 4224, 8, b"not legal place 0 place\n"),
    (&[(96, 4)], 4224, 8, b"not legal place 3 place\n"),
    (&[(99, 255)], 4224, 8, b"not legal place 3 place\n"),
    (&[(32, 2), (64, 1)], 4224, 8, b"not legal place 1 order\n"),
    (&[(0, 1), (32, 0)], 4224, 8, b"not legal place 0 order\n"),
    // Numbers of capsules.
    (&[(8, 1)], 4224, 8, b"not legal place 0 order\n"),
    (&[(104, 0)], 4224, 8, b"not legal place 3 order\n"),
    // Kinds and answers.
    (&[(5, 2)], 4224, 8, b"not legal place 0 answer\n"),
    (&[(5, 1)], 4224, 8, b"not legal place 0 answer\n"),
    (&[(36, 4)], 4224, 8, b"not legal place 1 order\n"),
    // Completions: the result, the SQ head pointer, the SQ and command identifiers, the status.
    (&[(48, 1)], 4224, 8, b"not legal place 1 completion\n"),
    (&[(56, 1)], 4224, 8, b"not legal place 1 completion\n"),
    (&[(122, 0)], 4224, 8, b"not legal place 3 completion\n"),
    (&[(60, 2)], 4224, 8, b"not legal place 1 completion\n"),
    (&[(127, 0x81)], 4224, 8, b"not legal place 3 completion\n"),
    // Data.
    (&[(4223, b'v')], 4224, 8, b"not legal place 3 bytes\n"),
    (&[(128, 0)], 4224, 8, b"not legal place 3 bytes\n"),
    (
        &[(108, 255), (109, 15)],
        4223,
        8,
        b"not legal place 3 bytes\n",
    ),
    (&[(108, 0), (109, 0)], 128, 8, b"not legal place 3 bytes\n"),
    // Of two faults that of the lower place, and at one place the first field.
    (
        &[(60, 2), (4223, 0)],
        4224,
        8,
        b"not legal place 1 completion\n",
    ),
    (
        &[(127, 1), (4223, 0)],
        4224,
        8,
        b"not legal place 3 completion\n",
    ),
    (&[(32, 3), (5, 2)], 4224, 8, b"not legal place 1 place\n"),
    // The last records cut off whole.
    (&[], 96, 8, b"not legal place 3 order\n"),
    (&[], 64, 8, b"not legal place 2 order\n"),
    (&[], 32, 8, b"not legal place 1 order\n"),
    (&[], 0, 8, b"not legal place 0 order\n"),
    // Records that are none.
    (&[], 4223, 2, b"malformed r1 offset 96\n"),
    (&[], 127, 2, b"malformed r1 offset 96\n"),
    (&[], 33, 2, b"malformed r1 offset 32\n"),
    (&[(4, 0)], 4224, 2, b"malformed r1 offset 0\n"),
    (&[(36, 5)], 4224, 2, b"malformed r1 offset 32\n"),
    (&[(37, 2)], 4224, 2, b"malformed r1 offset 32\n"),
    (&[(70, 1)], 4224, 2, b"malformed r1 offset 64\n"),
    (&[(94, 1)], 4224, 2, b"malformed r1 offset 64\n"),
    (&[(108, 1)], 4224, 2, b"malformed r1 offset 96\n"),
    (&[(32, 3), (100, 9)], 4224, 2, b"malformed r1 offset 96\n"),
];

// The response file with these bytes changed, and of this length.
fn changed(alloc: Global, bytes: &[(usize, u8)], length: usize) -> Result<Vec<u8>, Fail> {
    let mut r1 = Vec::from_slice(alloc, &HEADS)?;
    r1.extend_from_slice(&[b'w'; 4096])?;
    for (at, byte) in bytes {
        if let Some(b) = r1.get_mut(*at) {
            *b = *byte;
        }
    }
    r1.truncate(length);
    Ok(r1)
}

#[test]
fn each_change_of_the_first_run_has_its_line(rt: HostRuntime) -> Result<(), Fail> {
    let alloc = rt.alloc();
    let q1 = queue_file(alloc, CAPSULES)?;
    for (number, (bytes, length, status, line)) in ROWS.iter().enumerate() {
        let r1 = changed(alloc, bytes, *length)?;
        let contents = [("p", PLAN), ("q1", q1.as_slice()), ("r1", r1.as_slice())];
        let answer = check_files(alloc, &contents)?;
        assert_eq!(rt; answer.text(), *line, "row {number}");
        assert_eq!(rt; answer.status, *status, "row {number}");
    }
    Ok(())
}

// A queue without capsules leaves no record, and has room for 160 bytes.
#[test]
fn a_run_without_capsules_is_legal_without_records(rt: HostRuntime) -> Result<(), Fail> {
    let alloc = rt.alloc();
    let rows: [(usize, u8, &[u8]); 3] = [
        (0, 0, b"legal 0\n"),
        (96, 8, b"not legal place 0 order\n"),
        (4224, 6, b"limit r1 bytes 161\n"),
    ];
    for (length, status, line) in rows {
        let r1 = changed(alloc, &[], length)?;
        let contents = [("p", PLAN), ("q1", b"".as_slice()), ("r1", r1.as_slice())];
        let answer = check_files(alloc, &contents)?;
        assert_eq!(rt; answer.text(), line);
        assert_eq!(rt; answer.status, status);
    }
    Ok(())
}
