// Each public call on its happy path, over files in memory.
use crate::*;
use plan_files::{MemFiles, MemSink};
use std::alloc::Global;
use std::test::Fail;

const PLAN: &[u8] = b"nvmet-plan 1\nsimple\ndisk /dev/ram0 9 16\nqueue 1 q1 r1\n";

// A Read of one block, with cid 7.
const CAPSULES: [u8; 64] = [
    2, 64, 7, 0, 1, 0, 0, 0, 0, 0, 0, 0, 0, 0, 0, 0, // opcode, flags, cid, NSID
    0, 0, 0, 0, 0, 0, 0, 0, 0, 0, 0, 0, 0, 0, 0, 0, // MPTR, SGL address
    0, 2, 0, 0, 0, 0, 0, 0, 0, 0, 0, 0, 0, 0, 0, 0, // SGL length, SLBA
    0, 0, 0, 0, 0, 0, 0, 0, 0, 0, 0, 0, 0, 0, 0, 0, // NLB
];

// Held at place 0, executed at place 1 with 512 bytes.
const HEADS: [u8; 64] = [
    0, 0, 0, 0, 1, 0, 0, 0, 0, 0, 0, 0, 0, 0, 0, 0, // a head
    0, 0, 0, 0, 0, 0, 0, 0, 0, 0, 0, 0, 0, 0, 0, 0, // no completion
    1, 0, 0, 0, 2, 1, 0, 0, 0, 0, 0, 0, 0, 2, 0, 0, // a head
    0, 0, 0, 0, 0, 0, 0, 0, 0, 0, 1, 0, 7, 0, 0, 0, // its completion
];

// A response file, its bytes changed at one offset, and the line of its check.
fn line_of(alloc: Global, at: usize, byte: u8, len: usize) -> Result<(bool, Vec<u8>), Fail> {
    let mut r1 = Vec::from_slice(alloc, &HEADS)?;
    r1.extend_from_slice(&[0; 512])?;
    if let Some(b) = r1.get_mut(at) {
        *b = byte;
    }
    r1.truncate(len);
    let mut files = MemFiles::new(alloc, Vec::new(alloc));
    files.put("p", PLAN)?;
    files.put("q1", &CAPSULES)?;
    files.put("r1", &r1)?;
    let mut out = MemSink::new(alloc, 4096, Vec::new(alloc))?;
    let legal = check_plan(alloc, "p", &mut files, &mut out).is_ok();
    Ok((legal, Vec::from_slice(alloc, out.bytes())?))
}

// An offset, the byte there, how many bytes the file then has, and the line.
const ROWS: &[(usize, u8, usize, &[u8])] = &[
    (0, 0, 576, b"legal 2\n"),
    (32, 3, 576, b"not legal place 1 place\n"),
    (32, 0, 576, b"not legal place 0 place\n"),
    (4, 4, 576, b"malformed r1 offset 0\n"),
    (8, 1, 576, b"not legal place 0 order\n"),
    (60, 8, 576, b"not legal place 1 completion\n"),
    (575, 1, 576, b"not legal place 1 bytes\n"),
    (0, 0, 32, b"not legal place 1 order\n"),
    (0, 0, 33, b"malformed r1 offset 32\n"),
    (0, 0, 0, b"not legal place 0 order\n"),
];

#[test]
fn the_line_of_each_check(rt: HostRuntime) -> Result<(), Fail> {
    for (number, row) in ROWS.iter().enumerate() {
        let (legal, line) = line_of(rt.alloc(), row.0, row.1, row.2)?;
        assert_eq!(rt; line.as_slice(), row.3, "row {number}");
        assert_eq!(rt; legal, number == 0, "row {number}");
    }
    Ok(())
}
