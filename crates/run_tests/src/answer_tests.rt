// Every answer of a run with its line, and what it leaves of each file.
use crate::capsules::entry;
use nvmet_run::{command, run_plan};
use plan_files::{MemFiles, MemSink, OpenGate};
use sqe_cqe::write_sqe;
use std::alloc::{AllocError, Global};
use std::sync::Wait;
use std::test::Fail;
use std::thread::Threads;

// The words, the plan `p`, the queue file `q1` if there is one, the numbers of the calls on files
// that fail, the exit status, and what the sink takes.
type Row = (
    &'static [&'static str],
    &'static [u8],
    Option<&'static [u8]>,
    &'static [u64],
    u8,
    &'static [u8],
);

const RUN: &[&str] = &["run", "p"];

const GOOD: &[u8] = b"nvmet-plan 1\nsimple\ndisk /dev/ram0 9 16\nqueue 1 q1 r1\n";

const NONE: Option<&[u8]> = Some(b"");

const USAGE: &[u8] = b"usage: nvmetd run PLAN | check PLAN | show PLAN | gen N NAME\n";

const SUMMARY: &[u8] =
    b"places 0\nedits 0 accepted 0 refused\ndrains 0\ncommands 0 submitted 0 executed 0 refused\nevents 0 answered 0 waiting\nbytes 0 in 0 out\nconfig 0 passed over\n";

const ROWS: &[Row] = &[
    (&[], GOOD, NONE, &[], 1, USAGE),
    (&["run"], GOOD, NONE, &[], 1, USAGE),
    (&["run", "--", "p"], GOOD, NONE, &[], 1, USAGE),
    (&["run", "a", "b"], GOOD, NONE, &[], 1, USAGE),
    (&["run", "-p"], GOOD, NONE, &[], 1, USAGE),
    (&["run", "p q"], GOOD, NONE, &[], 1, USAGE),
    (&["run", ""], GOOD, NONE, &[], 1, USAGE),
    (&["go", "p"], GOOD, NONE, &[], 1, USAGE),
    (&["gen", "0", "g"], GOOD, NONE, &[], 1, USAGE),
    (&["run", "nope"], GOOD, NONE, &[], 3, b"cannot read nope\n"),
    (RUN, GOOD, NONE, &[0], 3, b"cannot read p\n"),
    (RUN, GOOD, NONE, &[1], 3, b"cannot read q1\n"),
    (RUN, GOOD, None, &[], 3, b"cannot read q1\n"),
    (RUN, GOOD, NONE, &[2], 4, b"cannot write r1\n"),
    (
        RUN,
        GOOD,
        Some(&[0; 66]),
        &[],
        2,
        b"malformed q1 offset 64\n",
    ),
    (
        RUN,
        b"nvmet-plan 1\ndisc x\n",
        Some(&[0; 66]),
        &[],
        2,
        b"malformed p line 2\n",
    ),
    (
        RUN,
        b"nvmet-plan 1\nconfig c\njournal j",
        NONE,
        &[],
        3,
        b"cannot read c\n",
    ),
    (RUN, GOOD, NONE, &[], 0, SUMMARY),
];

// The files before a run: a response file of an earlier one, and a file that no plan names.
fn files_of(alloc: Global, row: &Row) -> Result<MemFiles, Fail> {
    let mut files = MemFiles::new(alloc, Vec::from_slice(alloc, row.3)?);
    files.put("p", row.1)?;
    if let Some(q1) = row.2 {
        files.put("q1", q1)?;
    }
    files.put("r1", b"old")?;
    files.put("other", b"kept")?;
    Ok(files)
}

// Runs a row into a sink with so much room; what isn't as wanted is the answer.
fn differs<R: Wait + Threads + Sync>(
    rt: &R,
    alloc: Global,
    row: &Row,
    room: usize,
    status: u8,
    r1: &[u8],
) -> Result<&'static str, Fail> {
    let mut files = files_of(alloc, row)?;
    let mut out = MemSink::new(alloc, room, Vec::new(alloc))?;
    let mut words = Vec::new(alloc);
    for word in row.0 {
        words.push(String::from_str(alloc, word)?)?;
    }
    let answer = command(rt, alloc, &words, &mut files, &mut out, &OpenGate);
    let said = &row.5[..room.min(row.5.len())];
    let count = if row.2.is_some() { 4 } else { 3 };
    let kept = files.content("p") == Some(row.1)
        && files.content("q1") == row.2
        && files.content("other") == Some(b"kept".as_slice())
        && files.count() == count;
    Ok(if answer.code() != status {
        "status"
    } else if out.bytes() != said {
        "sink"
    } else if files.content("r1") != Some(r1) {
        "response file"
    } else if !kept {
        "other files"
    } else {
        ""
    })
}

#[test]
fn each_answer_has_its_line_and_leaves_the_files(rt: HostRuntime) -> Result<(), Fail> {
    for (number, row) in ROWS.iter().enumerate() {
        let written = row.4 == 0;
        let r1 = if written { b"".as_slice() } else { b"old" };
        let differs = differs(&rt, rt.alloc(), row, 4096, row.4, r1)?;
        assert_eq!(rt; differs, "", "row {number}");
    }
    Ok(())
}

// A sink that fails at each byte: of the summary that is a fault of its own, of another line it changes no status.
#[test]
fn a_sink_that_fails_at_each_byte(rt: HostRuntime) -> Result<(), Fail> {
    for (number, row) in ROWS.iter().enumerate() {
        let written = row.4 == 0;
        let r1 = if written { b"".as_slice() } else { b"old" };
        let status = if written { 4 } else { row.4 };
        for room in 0..row.5.len() {
            let differs = differs(&rt, rt.alloc(), row, room, status, r1)?;
            assert_eq!(rt; differs, "", "row {number}, room {room}");
        }
    }
    Ok(())
}

// A queue file with a Write and a Read of eight blocks.
fn first_queue(alloc: Global) -> Result<Vec<u8>, AllocError> {
    let mut q1 = Vec::from_slice(alloc, &write_sqe(&entry(0x01, 1, 1, 0, 7, 4096)))?;
    q1.extend_from_slice(&[7; 4096])?;
    q1.extend_from_slice(&write_sqe(&entry(0x02, 2, 1, 0, 7, 4096)))?;
    Ok(q1)
}

fn first_files(alloc: Global) -> Result<MemFiles, AllocError> {
    let mut files = MemFiles::new(alloc, Vec::new(alloc));
    let q1 = first_queue(alloc)?;
    for (name, bytes) in [("p", GOOD), ("q1", q1.as_slice()), ("r1", b"old")] {
        if files.put(name, bytes).is_err() {
            return Err(AllocError);
        }
    }
    Ok(files)
}

// With ample memory the first run ends well. The script `refused-memory` runs this test with each allocation refused in
// turn: then the run is out of memory, and the response file is as it was.
#[test]
fn the_first_run_with_refused_memory(rt: HostRuntime) -> Result<(), Fail> {
    let Ok(mut files) = first_files(rt.alloc()) else {
        return Ok(());
    };
    let Ok(mut out) = MemSink::new(rt.alloc(), 4096, Vec::new(rt.alloc())) else {
        return Ok(());
    };
    let status = run_plan(&rt, rt.alloc(), "p", &mut files, &mut out, &OpenGate);
    if status.code() == 0 {
        assert!(rt; files.content("r1") != Some(b"old".as_slice()));
        println!(rt; "the run ended well")?;
        return Ok(());
    }
    assert_eq!(rt; status.code(), 5);
    assert_eq!(rt; out.bytes(), b"out of memory\n".as_slice());
    assert_eq!(rt; files.content("r1"), Some(b"old".as_slice()));
    println!(rt; "the run was out of memory")?;
    Ok(())
}
