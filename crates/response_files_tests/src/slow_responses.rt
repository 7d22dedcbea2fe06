// A plain slow reader of response files, byte by byte.
use crate::texts::Text;
use std::alloc::Global;
use std::process::Abort;

// The codes of each call with an answer that it may have.
const TABLE: [(u64, u64); 7] = [(1, 0), (1, 1), (1, 2), (2, 1), (3, 1), (3, 3), (4, 1)];

// Where the numbers of a head stand after its first byte, and how many bytes each has; the zeros are left out.
const NUMBERS: [(u64, u64); 10] = [
    (0, 4),
    (4, 1),
    (5, 1),
    (8, 4),
    (12, 4),
    (16, 8),
    (24, 2),
    (26, 2),
    (28, 2),
    (30, 2),
];

fn byte(file: &[u8], at: u64, after: u64) -> u64 {
    let place = at.saturating_add(after) as usize;
    match file.get(place) {
        Some(byte) => *byte as u64,
        None => 0,
    }
}

fn number(file: &[u8], at: u64, after: u64, size: u64) -> u64 {
    let mut number = 0u64;
    for i in 0..size {
        let low_last = after.saturating_add(size.saturating_sub(1).saturating_sub(i));
        number = number
            .saturating_mul(256)
            .saturating_add(byte(file, at, low_last));
    }
    number
}

fn is_listed(kind: u64, answer: u64) -> bool {
    let mut is_listed = false;
    for row in TABLE {
        if row == (kind, answer) {
            is_listed = true;
        }
    }
    is_listed
}

// Whether a record stands at a place.
fn is_record(file: &[u8], at: u64) -> bool {
    let left = (file.len() as u64).saturating_sub(at);
    let len = number(file, at, 12, 4);
    if left < 32 || left.saturating_sub(32) < len {
        return false;
    }
    if byte(file, at, 6) != 0 || byte(file, at, 7) != 0 {
        return false;
    }
    let (kind, answer) = (byte(file, at, 4), byte(file, at, 5));
    let mut blank = true;
    for after in 16..32 {
        if byte(file, at, after) != 0 {
            blank = false;
        }
    }
    is_listed(kind, answer) && (answer == 1 || blank)
}

pub(crate) fn slow_responses(rt: &impl Abort, alloc: Global, file: &[u8]) -> Text {
    let mut out = Text::new(alloc);
    let mut at = 0u64;
    for _ in 0..file.len() {
        if at >= file.len() as u64 {
            return out;
        }
        if !is_record(file, at) {
            let mut fault = Text::new(alloc);
            fault.place(rt, b"malformed", at);
            return fault;
        }
        out.put(rt, b"record");
        for (after, size) in NUMBERS {
            out.number(rt, number(file, at, after, size));
        }
        out.put(rt, b" ");
        for i in 0..number(file, at, 12, 4) {
            let data = byte(file, at, i.saturating_add(32)) % 256;
            out.put(rt, &[data as u8]);
        }
        out.put(rt, b"\n");
        at = at
            .saturating_add(32)
            .saturating_add(number(file, at, 12, 4));
    }
    out
}
