use crate::journal_rows::{HEADS, LINES};
use crate::mutations::{Dice, random_journal, random_responses};
use crate::slow_journal::slow_journal;
use crate::slow_responses::slow_responses;
use crate::texts::{Text, told_journal, told_responses};
use response_files::{read_journal, read_responses};
use std::alloc::Global;
use std::process::Abort;

// An Execute without data, and one of a Read of two bytes.
const RECORDS: [u8; 66] = [
    1, 0, 0, 0, 2, 1, 0, 0, 0, 0, 0, 0, 0, 0, 0, 0, // a head
    0, 0, 0, 0, 0, 0, 0, 0, 0, 0, 1, 0, 1, 0, 0, 0, // its completion
    3, 0, 0, 0, 2, 1, 0, 0, 1, 0, 0, 0, 2, 0, 0, 0, // a head
    0, 0, 0, 0, 0, 0, 0, 0, 0, 0, 1, 0, 1, 0, 0, 0, // its completion
    97, 98, // its data
];

// A byte of the second head, a value for it, and the offset of the malformed record, or 0 where there is none.
const DAMAGES: &[(usize, u8, u64)] = &[
    (0, 255, 0),
    (1, 1, 0),
    (2, 1, 0),
    (3, 255, 0),
    (4, 0, 32),
    (4, 1, 0),
    (4, 3, 0),
    (4, 4, 0),
    (4, 5, 32),
    (4, 255, 32),
    (5, 0, 32),
    (5, 2, 32),
    (5, 3, 32),
    (5, 4, 32),
    (5, 255, 32),
    (6, 1, 32),
    (6, 255, 32),
    (7, 1, 32),
    (7, 128, 32),
    (8, 255, 0),
    (9, 1, 0),
    (10, 1, 0),
    (11, 255, 0),
    (12, 0, 64),
    (12, 1, 65),
    (12, 3, 32),
    (13, 1, 32),
    (14, 1, 32),
    (15, 1, 32),
    (15, 255, 32),
    (16, 1, 0),
    (17, 1, 0),
    (18, 1, 0),
    (19, 1, 0),
    (20, 1, 0),
    (21, 1, 0),
    (22, 1, 0),
    (23, 255, 0),
    (24, 1, 0),
    (25, 1, 0),
    (26, 1, 0),
    (27, 1, 0),
    (28, 1, 0),
    (29, 1, 0),
    (30, 1, 0),
    (31, 255, 0),
];

// The answer of the reader, which the slow reader has to give too.
fn responses_answer(rt: &impl Abort, alloc: Global, file: &[u8]) -> Text {
    let answer = read_responses(alloc, file);
    let told = told_responses(rt, alloc, &answer, file);
    let slow = slow_responses(rt, alloc, file);
    assert!(rt; told.bytes == slow.bytes, "another answer");
    told
}

// Whether an answer is that the record at this offset is malformed.
fn is_malformed(rt: &impl Abort, alloc: Global, told: &Text, offset: u64) -> bool {
    let mut want = Text::new(alloc);
    want.place(rt, b"malformed", offset);
    told.bytes == want.bytes
}

#[test]
fn each_byte_of_a_head_damaged(rt: HostRuntime) {
    let alloc = rt.alloc();
    for (at, byte, offset) in DAMAGES {
        let mut file = RECORDS;
        if let Some(place) = file.get_mut(at.saturating_add(32)) {
            *place = *byte;
        }
        let told = responses_answer(&rt, alloc, &file);
        let is_fault = is_malformed(&rt, alloc, &told, *offset);
        assert!(rt; is_fault == (*offset != 0), "byte {at} is {byte}");
    }
}

#[test]
fn a_file_cut_at_each_place(rt: HostRuntime) {
    let alloc = rt.alloc();
    for n in 0..67 {
        let file = RECORDS.get(..n).expect(&rt, "so many bytes");
        let told = responses_answer(&rt, alloc, file);
        let begins = if n < 32 { 0 } else { 32 };
        let is_whole = n == 0 || n == 32 || n == 66;
        let is_fault = is_malformed(&rt, alloc, &told, begins);
        assert!(rt; is_fault == !is_whole, "cut at {n}");
    }
}

// A record of this kind and answer whose completion is zero but for a byte.
fn record_with(kind: u8, answer: u8, at: usize, byte: u8) -> [u8; 32] {
    let mut file = [0; 32];
    file[4] = kind;
    file[5] = answer;
    if let Some(place) = file.get_mut(at) {
        *place = byte;
    }
    file
}

#[test]
fn kinds_and_answers(rt: HostRuntime) {
    let alloc = rt.alloc();
    let answers: [&[u8]; 6] = [&[], &[0, 1, 2], &[1], &[1, 3], &[1], &[]];
    for (kind, listed) in answers.iter().enumerate() {
        for answer in 0..6 {
            let file = record_with(kind as u8, answer, 16, 0);
            let told = responses_answer(&rt, alloc, &file);
            let is_fault = is_malformed(&rt, alloc, &told, 0);
            assert!(rt;
                is_fault != listed.contains(&answer),
                "kind {kind}, answer {answer}"
            );
        }
    }
}

#[test]
fn completions_where_nothing_was_answered(rt: HostRuntime) {
    let alloc = rt.alloc();
    for (kind, answer) in [(1, 0), (1, 1), (1, 2), (3, 3)] {
        for at in 16..32 {
            let file = record_with(kind, answer, at, 1);
            let told = responses_answer(&rt, alloc, &file);
            let is_fault = is_malformed(&rt, alloc, &told, 0);
            assert!(rt; is_fault == (answer != 1), "answer {answer}, byte {at}");
        }
    }
}

// The answer of the reader, which the slow reader has to give too.
fn journal_answer(rt: &impl Abort, alloc: Global, file: &[u8]) -> Text {
    let told = told_journal(rt, alloc, &read_journal(alloc, file));
    let slow = slow_journal(rt, alloc, file);
    assert!(rt; told.bytes == slow.bytes, "another answer");
    told
}

fn run_journal(rt: &impl Abort, alloc: Global, file: &[u8], want: &str, row: usize) {
    let told = journal_answer(rt, alloc, file);
    if want == "read" {
        assert!(rt; told.bytes.starts_with(b"places"), "row {row}");
    } else {
        assert!(rt; told.bytes.as_slice() == want.as_bytes(), "row {row}");
    }
}

#[test]
fn journals(rt: HostRuntime) {
    let alloc = rt.alloc();
    for (i, row) in HEADS.iter().enumerate() {
        run_journal(&rt, alloc, row.0.as_bytes(), row.1, i);
    }
    for (i, row) in LINES.iter().enumerate() {
        let mut file = Text::new(alloc);
        file.put(&rt, b"nvmet-journal 1\nplaces 9\n");
        file.put(&rt, row.0.as_bytes());
        run_journal(&rt, alloc, &file.bytes, row.1, i);
        file.put(&rt, b"\n");
        run_journal(&rt, alloc, &file.bytes, row.1, i);
    }
}

#[test]
fn two_thousand_mutated_response_files(rt: HostRuntime) {
    let alloc = rt.alloc();
    let mut dice = Dice::new(44);
    let mut read = 0u64;
    for _ in 0..2_000 {
        let file = random_responses(&rt, alloc, &mut dice);
        let told = responses_answer(&rt, alloc, &file);
        if !told.bytes.starts_with(b"malformed") {
            read = read.saturating_add(1);
        }
    }
    assert!(rt; read > 200 && read < 1_800, "{read} read");
}

#[test]
fn two_thousand_mutated_journals(rt: HostRuntime) {
    let alloc = rt.alloc();
    let mut dice = Dice::new(45);
    let mut read = 0u64;
    for _ in 0..2_000 {
        let file = random_journal(&rt, alloc, &mut dice);
        let told = journal_answer(&rt, alloc, &file);
        if !told.bytes.starts_with(b"bad") {
            read = read.saturating_add(1);
        }
    }
    assert!(rt; read > 200 && read < 1_800, "{read} read");
}
