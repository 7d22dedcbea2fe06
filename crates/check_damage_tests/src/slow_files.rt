// The first fault of the files that a run left, each looked at record by record and line by line.
use run_check_tests::{
    ANSWERED, CONTROL, Completion, EXECUTE, Finished, HELD, Line, NO_EVENT, POLL, Record, SUBMIT,
    Says, WAITING,
};

// What a file is refused for.
#[derive(Clone, Copy)]
pub(crate) enum Refusal {
    // A record that is none, by the name of its file and the offset of its first byte.
    Record(&'static str, u64),
    // A file with more than so many bytes.
    Bytes(&'static str, u64),
    // A line of the journal.
    Line(u64),
}

// Whether a record of this kind may have this answer.
fn go_together(kind: u8, answer: u8) -> bool {
    match kind {
        SUBMIT => answer == HELD || answer == ANSWERED || answer == WAITING,
        EXECUTE | CONTROL => answer == ANSWERED,
        POLL => answer == ANSWERED || answer == NO_EVENT,
        _ => false,
    }
}

fn is_record(record: &Record) -> bool {
    let is_blank = record.completion == Completion::NONE;
    go_together(record.kind, record.answer) && (record.answer == ANSWERED || is_blank)
}

// How many bytes a record has.
fn length_of(record: &Record) -> u64 {
    (record.bytes.len() as u64).saturating_add(32)
}

// A response file with room for so many bytes.
fn bad_responses(name: &'static str, records: &[Record], room: u64) -> Option<Refusal> {
    let mut length: u64 = 0;
    for record in records {
        length = length.saturating_add(length_of(record));
    }
    if room < length {
        return Some(Refusal::Bytes(name, room.saturating_add(1)));
    }
    let mut offset: u64 = 0;
    for record in records {
        if !is_record(record) {
            return Some(Refusal::Record(name, offset));
        }
        offset = offset.saturating_add(length_of(record));
    }
    None
}

// Linux's errnos that an edit may be refused by.
const ERRNOS: [&str; 8] = [
    "EPERM",
    "ENOENT",
    "EACCES",
    "EBUSY",
    "EEXIST",
    "EINVAL",
    "ENOTEMPTY",
    "ENOSPC",
];

fn is_errno(name: &str) -> bool {
    for errno in ERRNOS {
        if errno == name {
            return true;
        }
    }
    false
}

// A line, of which the first two of the file say what it is and how many places there are.
fn bad_line(lines: &[Line]) -> Option<Refusal> {
    let mut number: u64 = 2;
    for line in lines {
        number = number.saturating_add(1);
        if let Says::Errno(name) = line.says
            && !is_errno(name)
        {
            return Some(Refusal::Line(number));
        }
    }
    None
}

// The first file that is refused. The responses to queue 1 have room for 160 bytes, 96 for each of
// seven capsules and 4 of data, those to queue 2 for 160, six times 96 and three times 512.
pub(crate) fn refusal_of(run: &Finished) -> Option<Refusal> {
    if let Some(refusal) = bad_responses("r1", &run.admin, 836) {
        return Some(refusal);
    }
    if let Some(refusal) = bad_responses("r2", &run.io, 2272) {
        return Some(refusal);
    }
    bad_line(&run.lines)
}
