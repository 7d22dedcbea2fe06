// A finished run of two queues and an editor, worked by hand from the rules of the target. The
// editor disables the namespace while queue 2 has a Read held, so the drain ends behind its execute.
// Of three event requests the newest is answered first, and of the two kinds of events, at the end,
// that of namespaces.
use crate::answer::{Answer, check_in};
use crate::capsules::{Capsule, queue_file};
use crate::journal::{Line, Says, journal_file};
use crate::records::{
    ANSWERED, CONTROL, Completion, EXECUTE, HELD, NO_EVENT, POLL, Record, SUBMIT, WAITING,
    response_file,
};
use plan_files::MemFiles;
use std::alloc::Global;
use std::test::Fail;

const PLAN: &[u8] =
    b"nvmet-plan 1\ndisk /dev/ram0 9 16\nconfig c\nscript s\njournal j\nqueue 1 q1 r1\nqueue 1 q2 r2\n";

const CONFIG: &[u8] =
    b"{\"subsystems\":[{\"nqn\":\"s\",\"attr\":{\"allow_any_host\":\"1\"},\"namespaces\":[{\"nsid\":1,\"device\":{\"path\":\"/dev/ram0\"},\"enable\":1}]}],\"ports\":[{\"portid\":1,\"addr\":{\"trtype\":\"loop\"},\"subsystems\":[\"s\"]}]}";

/// The script; its edits stand in the lines 2, 3, 5, 6 and 7.
pub const SCRIPT: &[u8] =
    b"# a host\nmkdir hosts/h\nmkdir hosts/h\n\nset subsystems/s/namespaces/1 enable 0\nset subsystems/s/namespaces/1 enable 1\nset ports/1/ana_groups/1 ana_state non-optimized\n";

/// The capsules of queue 1, an admin queue.
pub const ADMIN_CAPSULES: &[Capsule] = &[
    Capsule::Connect(0),
    Capsule::Enable,
    Capsule::Event,
    Capsule::Event,
    Capsule::Event,
    Capsule::ChangedList,
    Capsule::KeepAlive,
];

/// The capsules of queue 2, an I/O queue.
pub const IO_CAPSULES: &[Capsule] = &[
    Capsule::Connect(1),
    Capsule::Write(1, b'w'),
    Capsule::Read(1),
    Capsule::Read(1),
    Capsule::Read(1),
    Capsule::Flush,
];

// A row of a table of records: what stands behind the place.
#[derive(Clone, Copy)]
enum Row {
    // A control call that succeeds: its number, the QID, its result.
    Control(u32, u16, u64),
    // A submit that is held, and one that waits.
    Held(u32),
    Waits(u32),
    // A submit that is answered: its number, the QID, the status field.
    Answered(u32, u16, u16),
    // One that gives the list of changed namespaces, which begins with this byte.
    List(u32, u8),
    // An execute on QID 1, without data and with a block of this byte.
    Executed(u32),
    Block(u32, u8),
    // A poll without event after so many capsules, and one with this event for this request.
    NoEvent(u32),
    Event(u32, u16, u64),
}

const NAMESPACE_EVENT: u64 = 0x0004_0002;

const ANA_EVENT: u64 = 0x000C_0302;

const ADMIN_ROWS: &[(u32, Row)] = &[
    (0, Row::Control(0, 0, 1)),
    (1, Row::Control(1, 0, 0)),
    (3, Row::Waits(2)),
    (4, Row::NoEvent(3)),
    (7, Row::Waits(3)),
    (9, Row::NoEvent(4)),
    (12, Row::Waits(4)),
    (13, Row::NoEvent(5)),
    // The namespace is being disabled since place 14.
    (15, Row::List(5, 1)),
    (17, Row::Event(6, 5, NAMESPACE_EVENT)),
    (20, Row::Answered(6, 0, 0)),
    (21, Row::NoEvent(7)),
    // It was enabled at place 22, and its group's state changed at 24.
    (28, Row::Event(7, 4, NAMESPACE_EVENT)),
    (29, Row::Event(7, 3, ANA_EVENT)),
    (30, Row::NoEvent(7)),
];

const IO_ROWS: &[(u32, Row)] = &[
    (2, Row::Control(0, 1, 1)),
    (6, Row::Held(1)),
    (8, Row::Executed(1)),
    (11, Row::Held(2)),
    (16, Row::Block(2, b'w')),
    (19, Row::Answered(3, 1, 0x0600)),
    (23, Row::Held(4)),
    (25, Row::Block(4, b'w')),
    (26, Row::Held(5)),
    (27, Row::Executed(5)),
];

// Place, line of the script, and what is said of it.
const LINES: &[(u32, u32, Says)] = &[
    (5, 2, Says::Ok),
    (10, 3, Says::Errno("EEXIST")),
    (14, 5, Says::Ok),
    (18, 5, Says::Done),
    (22, 6, Says::Ok),
    (24, 7, Says::Ok),
];

/// What a run left: the records of queue 1 and of queue 2, the lines of the journal, and its number
/// of places.
#[derive(Drop)]
pub struct Finished {
    pub alloc: Global,
    pub admin: Vec<Record>,
    pub io: Vec<Record>,
    pub lines: Vec<Line>,
    pub places: u32,
}

// The completion of a capsule, whose command identifier is its number and one.
fn completion(number: u32, sq_id: u16, status: u16, value: u64) -> Completion {
    let cid = u16::try_from(number).unwrap_or(0).saturating_add(1);
    Completion {
        result: value,
        sq_head: 0,
        sq_id,
        cid,
        status,
    }
}

// The kind, answer, number and completion of a row.
fn head_of(row: &Row) -> (u8, u8, u32, Completion) {
    match *row {
        Row::Control(n, qid, value) => (CONTROL, ANSWERED, n, completion(n, qid, 0, value)),
        Row::Held(n) => (SUBMIT, HELD, n, Completion::NONE),
        Row::Waits(n) => (SUBMIT, WAITING, n, Completion::NONE),
        Row::Answered(n, qid, status) => (SUBMIT, ANSWERED, n, completion(n, qid, status, 0)),
        Row::List(n, _) => (SUBMIT, ANSWERED, n, completion(n, 0, 0, 0)),
        Row::Executed(n) | Row::Block(n, _) => (EXECUTE, ANSWERED, n, completion(n, 1, 0, 0)),
        Row::NoEvent(n) => (POLL, NO_EVENT, n, Completion::NONE),
        Row::Event(n, cid, value) => {
            let event = Completion {
                result: value,
                sq_head: 0,
                sq_id: 0,
                cid,
                status: 0,
            };
            (POLL, ANSWERED, n, event)
        }
    }
}

// The data of a row.
fn data_of(alloc: Global, row: &Row) -> Result<Vec<u8>, Fail> {
    let data = match *row {
        Row::List(_, first) => Vec::from_slice(alloc, &[first, 0, 0, 0])?,
        Row::Block(_, byte) => Vec::from_slice(alloc, &[byte; 512])?,
        _ => Vec::new(alloc),
    };
    Ok(data)
}

// The records of a table.
fn records_of(alloc: Global, rows: &[(u32, Row)]) -> Result<Vec<Record>, Fail> {
    let mut records = Vec::new(alloc);
    for (place, row) in rows {
        let (kind, answer, number, completion) = head_of(row);
        records.push(Record {
            place: *place,
            kind,
            answer,
            number,
            completion,
            bytes: data_of(alloc, row)?,
        })?;
    }
    Ok(records)
}

impl Finished {
    /// The run as it was.
    pub fn new(alloc: Global) -> Result<Self, Fail> {
        let mut lines = Vec::new(alloc);
        for (place, line, says) in LINES {
            lines.push(Line {
                place: *place,
                line: *line,
                says: *says,
            })?;
        }
        Ok(Finished {
            alloc,
            admin: records_of(alloc, ADMIN_ROWS)?,
            io: records_of(alloc, IO_ROWS)?,
            lines,
            places: 31,
        })
    }

    /// Its files: those that it read, and those that it left.
    pub fn files(&self) -> Result<MemFiles, Fail> {
        let alloc = self.alloc;
        let mut files = MemFiles::new(alloc, Vec::new(alloc));
        files.put("p", PLAN)?;
        files.put("c", CONFIG)?;
        files.put("s", SCRIPT)?;
        files.put("q1", &queue_file(alloc, ADMIN_CAPSULES)?)?;
        files.put("q2", &queue_file(alloc, IO_CAPSULES)?)?;
        files.put("r1", &response_file(alloc, &self.admin)?)?;
        files.put("r2", &response_file(alloc, &self.io)?)?;
        files.put("j", &journal_file(alloc, self.places, &self.lines)?)?;
        Ok(files)
    }

    /// Its check.
    pub fn check(&self) -> Result<Answer, Fail> {
        check_in(self.alloc, self.files()?)
    }
}
