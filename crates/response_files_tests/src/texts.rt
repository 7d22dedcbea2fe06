// Answers as texts, so that two readers are compared byte by byte.
use journal_text::{Answer, JournalLine};
use response_files::{Journal, JournalError, Record, RecordError};
use std::alloc::Global;
use std::process::Abort;

// A text that grows.
#[derive(Drop)]
pub(crate) struct Text {
    alloc: Global,
    pub(crate) bytes: Vec<u8>,
}

impl Text {
    pub(crate) fn new(alloc: Global) -> Self {
        Text {
            alloc,
            bytes: Vec::new(alloc),
        }
    }

    pub(crate) fn put(&mut self, rt: &impl Abort, bytes: &[u8]) {
        assert!(rt; self.bytes.extend_from_slice(bytes).is_ok(), "memory");
    }

    // A space and a number.
    pub(crate) fn number(&mut self, rt: &impl Abort, number: u64) {
        let text = format!(in self.alloc; " {number}").expect(rt, "memory");
        self.put(rt, text.as_str().as_bytes());
    }

    // A word, a space and a number.
    pub(crate) fn place(&mut self, rt: &impl Abort, word: &[u8], place: u64) {
        self.put(rt, word);
        self.number(rt, place);
    }
}

// A record: the numbers of its head in the order of the file, and its data.
fn put_record(rt: &impl Abort, out: &mut Text, record: &Record, file: &[u8]) {
    let head = &record.head;
    let cqe = &head.cqe;
    let halves = [cqe.sq_head, cqe.sq_id, cqe.cid, cqe.status];
    out.place(rt, b"record", head.place as u64);
    out.number(rt, head.kind.code() as u64);
    out.number(rt, head.answer.code() as u64);
    out.number(rt, head.number as u64);
    out.number(rt, head.len as u64);
    out.number(rt, cqe.result);
    for half in halves {
        out.number(rt, half as u64);
    }
    out.put(rt, b" ");
    let end = record.data_at.saturating_add(head.len as usize);
    out.put(
        rt,
        file.get(record.data_at..end).expect(rt, "data in the file"),
    );
    out.put(rt, b"\n");
}

// The records, or the offset of the first that is malformed.
pub(crate) fn told_responses(
    rt: &impl Abort,
    alloc: Global,
    answer: &Result<Vec<Record>, RecordError>,
    file: &[u8],
) -> Text {
    let mut out = Text::new(alloc);
    match answer {
        Ok(records) => {
            for record in records {
                put_record(rt, &mut out, record, file);
            }
        }
        Err(RecordError::Malformed { offset }) => out.place(rt, b"malformed", *offset),
        Err(RecordError::Memory) => out.put(rt, b"memory"),
    }
    out
}

fn put_line(rt: &impl Abort, out: &mut Text, line: &JournalLine) {
    match line {
        JournalLine::Edit {
            place,
            line,
            answer,
        } => {
            out.place(rt, b"edit", *place as u64);
            out.number(rt, *line as u64);
            out.put(rt, b" ");
            match answer {
                Answer::Accepted => out.put(rt, b"ok"),
                Answer::Refused(errno) => out.put(rt, errno.name().as_bytes()),
            }
        }
        JournalLine::Done { place, line } => {
            out.place(rt, b"done", *place as u64);
            out.number(rt, *line as u64);
        }
    }
    out.put(rt, b"\n");
}

// The lines of the journal after its head, or the number of the first bad one.
pub(crate) fn told_journal(
    rt: &impl Abort,
    alloc: Global,
    answer: &Result<Journal, JournalError>,
) -> Text {
    let mut out = Text::new(alloc);
    match answer {
        Ok(journal) => {
            out.place(rt, b"places", journal.places as u64);
            out.put(rt, b"\n");
            for line in journal.lines.as_slice() {
                put_line(rt, &mut out, line);
            }
        }
        Err(JournalError::BadLine { line }) => out.place(rt, b"bad", *line),
        Err(JournalError::Memory) => out.put(rt, b"memory"),
    }
    out
}
