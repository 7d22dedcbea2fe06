// A plain slow reader of journals, byte by byte.
use crate::texts::Text;
use std::alloc::Global;
use std::process::Abort;

const ANSWERS: [&str; 9] = [
    "ok",
    "EPERM",
    "ENOENT",
    "EACCES",
    "EBUSY",
    "EEXIST",
    "EINVAL",
    "ENOTEMPTY",
    "ENOSPC",
];

// Whether a word is digits alone that don't begin with a 0 before another, below 2^32.
fn is_number(word: &[u8]) -> bool {
    let mut value = 0u64;
    for b in word {
        if *b < b'0' || *b > b'9' {
            return false;
        }
        value = value
            .saturating_mul(10)
            .saturating_add((*b as u64).saturating_sub(48));
    }
    let begins_with_0 = word.starts_with(b"0") && word.len() > 1;
    !word.is_empty() && !begins_with_0 && value <= 4_294_967_295
}

fn is_answer(word: &[u8]) -> bool {
    let mut is_answer = false;
    for answer in ANSWERS {
        if answer.as_bytes() == word {
            is_answer = true;
        }
    }
    is_answer
}

// The parts of a text at a byte; a text that ends with it has an empty last part.
fn parts(rt: &impl Abort, alloc: Global, text: &[u8], end: u8) -> Vec<Text> {
    let mut parts = Vec::new(alloc);
    let mut part = Text::new(alloc);
    for b in text {
        if *b == end {
            assert!(rt; parts.push(part).is_ok(), "memory");
            part = Text::new(alloc);
        } else {
            part.put(rt, &[*b]);
        }
    }
    assert!(rt; parts.push(part).is_ok(), "memory");
    parts
}

fn word<'a>(words: &'a [Text], at: usize) -> &'a [u8] {
    match words.get(at) {
        Some(word) => word.bytes.as_slice(),
        None => b"",
    }
}

// Whether a line may stand there; lines count from 0.
fn may_stand(rt: &impl Abort, alloc: Global, at: usize, line: &[u8]) -> bool {
    if at == 0 {
        return line == b"nvmet-journal 1".as_slice();
    }
    let words = parts(rt, alloc, line, b' ');
    let kind = word(&words, 0);
    let numbered = is_number(word(&words, 1)) && is_number(word(&words, 2));
    if at == 1 {
        return words.len() == 2 && kind == b"places".as_slice() && is_number(word(&words, 1));
    }
    if words.len() == 3 {
        return kind == b"done".as_slice() && numbered;
    }
    words.len() == 4 && kind == b"edit".as_slice() && numbered && is_answer(word(&words, 3))
}

pub(crate) fn slow_journal(rt: &impl Abort, alloc: Global, file: &[u8]) -> Text {
    let mut out = Text::new(alloc);
    let mut lines = parts(rt, alloc, file, b'\n');
    if word(&lines, lines.len().saturating_sub(1)).is_empty() {
        let _ = lines.pop();
    }
    let mut bad = Text::new(alloc);
    for (at, line) in lines.iter().enumerate() {
        if !may_stand(rt, alloc, at, &line.bytes) {
            bad.place(rt, b"bad", (at as u64).saturating_add(1));
            return bad;
        }
        if at > 0 {
            out.put(rt, &line.bytes);
            out.put(rt, b"\n");
        }
    }
    if lines.len() < 2 {
        bad.place(rt, b"bad", (lines.len() as u64).saturating_add(1));
        return bad;
    }
    out
}
