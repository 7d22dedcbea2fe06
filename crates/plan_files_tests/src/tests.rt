use crate::capsule_rows::{CUTS, ENDS, ROOMS, THREE};
use crate::mutations::{Dice, random_capsules, random_plan};
use crate::plan_rows::{HEAD, HEADS, NUMBERS, SIMPLE, WORDS};
use crate::slow_capsules::slow_capsules;
use crate::slow_plan::slow_plan;
use crate::texts::{Text, told_capsules, told_plan};
use crate::{capsule_rows, plan_rows};
use plan_files::{read_capsules, read_plan};
use std::alloc::Global;
use std::process::Abort;

// The answer of the reader, which the slow reader has to give too.
fn plan_answer(rt: &impl Abort, alloc: Global, file: &[u8]) -> Text {
    let answer = read_plan(alloc, file);
    let told = told_plan(rt, alloc, &answer);
    let slow = slow_plan(rt, alloc, file);
    assert!(rt; told.bytes == slow.bytes, "another answer");
    told
}

fn run_plans(rt: &impl Abort, alloc: Global, rows: &[plan_rows::Row]) {
    for (i, row) in rows.iter().enumerate() {
        let body = plan_rows::built(rt, alloc, "", row.0);
        let file = plan_rows::built(rt, alloc, HEAD, row.0);
        let told = plan_answer(rt, alloc, &file.bytes);
        if row.1 == "read" {
            assert!(rt; told.bytes == body.bytes, "row {i}");
        } else {
            assert!(rt; told.bytes.as_slice() == row.1.as_bytes(), "row {i}");
        }
    }
}

#[test]
fn plans(rt: HostRuntime) {
    let alloc = rt.alloc();
    for (i, row) in HEADS.iter().enumerate() {
        let told = plan_answer(&rt, alloc, row.0.as_bytes());
        assert!(rt; told.bytes.as_slice() == row.1.as_bytes(), "head {i}");
    }
    run_plans(&rt, alloc, WORDS);
    run_plans(&rt, alloc, NUMBERS);
    run_plans(&rt, alloc, SIMPLE);
}

// The answer of the reader, which the slow reader has to give too, capsule by capsule.
fn capsules_answer(rt: &impl Abort, alloc: Global, file: &[u8]) -> Text {
    let answer = read_capsules(alloc, file);
    let told = told_capsules(rt, alloc, &answer);
    let slow = slow_capsules(rt, alloc, file);
    assert!(rt; told.bytes == slow.told.bytes, "another answer");
    if let Ok(capsules) = &answer {
        for (capsule, place) in capsules.iter().zip(slow.places.iter()) {
            let at = (capsule.data_at as u64, capsule.data_len as u64);
            assert!(rt; at == (place.0, place.1), "data elsewhere");
            let fields = (capsule.sqe.opcode as u64, capsule.sqe.sgl_len as u64);
            assert!(rt; fields == (place.2, place.3), "another entry");
        }
    }
    told
}

fn run_capsules(rt: &impl Abort, alloc: Global, rows: &[capsule_rows::Row]) {
    for (i, row) in rows.iter().enumerate() {
        let file = capsule_rows::built(rt, alloc, row.0);
        let told = capsules_answer(rt, alloc, &file.bytes);
        assert!(rt; told.bytes.as_slice() == row.1.as_bytes(), "row {i}");
    }
}

#[test]
fn capsule_files(rt: HostRuntime) {
    let alloc = rt.alloc();
    run_capsules(&rt, alloc, CUTS);
    run_capsules(&rt, alloc, ROOMS);
}

// Whether a file of so many bytes is whole, and the place of the capsule that is cut otherwise.
fn cut_of(bytes: usize) -> (bool, usize) {
    let mut begins = 0;
    for end in ENDS {
        if *end <= bytes {
            begins = *end;
        }
    }
    (begins == bytes, begins)
}

#[test]
fn a_capsule_file_cut_at_each_place(rt: HostRuntime) {
    let alloc = rt.alloc();
    let whole = capsule_rows::built(&rt, alloc, THREE);
    assert!(rt; whole.bytes.len() == 197);
    for n in 0..198 {
        let file = whole.bytes.get(..n).expect(&rt, "so many bytes");
        let told = capsules_answer(&rt, alloc, file);
        let (is_whole, begins) = cut_of(n);
        let mut want = Text::new(alloc);
        want.place(&rt, b"offset", begins as u64);
        let as_wanted = told.bytes == want.bytes;
        assert!(rt; as_wanted == !is_whole, "cut at {n}");
        assert!(rt;
            told.bytes.starts_with(b"capsules") == is_whole,
            "cut at {n}"
        );
    }
}

#[test]
fn five_thousand_mutated_plans(rt: HostRuntime) {
    let alloc = rt.alloc();
    let mut dice = Dice::new(42);
    let mut read = 0u64;
    for _ in 0..5_000 {
        let file = random_plan(&rt, alloc, &mut dice);
        let told = plan_answer(&rt, alloc, &file);
        if !told.bytes.starts_with(b"line") && !told.bytes.starts_with(b"limit") {
            read = read.saturating_add(1);
        }
    }
    assert!(rt; read > 500 && read < 4_500, "{read} read");
}

#[test]
fn five_thousand_mutated_capsule_files(rt: HostRuntime) {
    let alloc = rt.alloc();
    let mut dice = Dice::new(43);
    let mut read = 0u64;
    for _ in 0..5_000 {
        let file = random_capsules(&rt, alloc, &mut dice);
        let told = capsules_answer(&rt, alloc, &file);
        if told.bytes.starts_with(b"capsules") {
            read = read.saturating_add(1);
        }
    }
    assert!(rt; read > 500 && read < 4_500, "{read} read");
}
