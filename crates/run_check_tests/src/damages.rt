// Damages of a finished run.
use crate::finished::Finished;
use crate::journal::{Line, Says};
use crate::records::Record;
use std::alloc::Global;
use std::test::Fail;

/// What a caller left: the records of queue 1, those of queue 2, or the journal's lines.
#[derive(Clone, Copy, Debug, PartialEq, Eq)]
pub enum Part {
    Admin,
    Io,
    Journal,
}

/// How all places change.
#[derive(Clone, Copy, Debug)]
pub enum Shift {
    /// The first place becomes the second, and those between make room.
    Move(u32, u32),
    Swap(u32, u32),
    /// Those from here on go one up, and those above here one down.
    Open(u32),
    Close(u32),
}

impl Shift {
    // What becomes of a place.
    fn of(self, place: u32) -> u32 {
        match self {
            Shift::Move(from, to) => {
                if place == from {
                    to
                } else if from < place && place <= to {
                    place.saturating_sub(1)
                } else if to <= place && place < from {
                    place.saturating_add(1)
                } else {
                    place
                }
            }
            Shift::Swap(a, b) => {
                if place == a {
                    b
                } else if place == b {
                    a
                } else {
                    place
                }
            }
            Shift::Open(from) => {
                if place < from {
                    place
                } else {
                    place.saturating_add(1)
                }
            }
            Shift::Close(at) => {
                if place <= at {
                    place
                } else {
                    place.saturating_sub(1)
                }
            }
        }
    }
}

/// A damage. Records and lines are counted from 0; one that isn't there is left.
#[derive(Clone, Copy, Debug)]
pub enum Damage {
    /// All places, with the number of places where one more or less is wanted.
    Places(Shift),
    /// The number of places that the journal says.
    Count(u32),
    /// A record or line: its place; where it stands, changed with another one; gone; twice.
    Place(Part, usize, u32),
    Swap(Part, usize, usize),
    Gone(Part, usize),
    Twice(Part, usize),
    /// A record's kind, answer and number.
    Kind(Part, usize, u8),
    Answer(Part, usize, u8),
    Number(Part, usize, u32),
    /// Of its completion the result, SQ head pointer, SQ identifier, command identifier and status.
    Outcome(Part, usize, u64),
    Head(Part, usize, u16),
    Queue(Part, usize, u16),
    Command(Part, usize, u16),
    Status(Part, usize, u16),
    /// One byte of its data, and how many there are.
    Byte(Part, usize, usize, u8),
    Length(Part, usize, usize),
    /// A journal line's line of the script, and what it says.
    Line(usize, u32),
    Says(usize, Says),
}

// All places of records.
fn shift_records(records: &mut [Record], shift: Shift) {
    for i in 0..records.len() {
        if let Some(record) = records.get_mut(i) {
            record.place = shift.of(record.place);
        }
    }
}

// All places of lines.
fn shift_lines(lines: &mut [Line], shift: Shift) {
    for i in 0..lines.len() {
        if let Some(line) = lines.get_mut(i) {
            line.place = shift.of(line.place);
        }
    }
}

// One field of a record.
fn change_record(record: &mut Record, damage: Damage) -> Result<(), Fail> {
    match damage {
        Damage::Place(_, _, place) => record.place = place,
        Damage::Kind(_, _, kind) => record.kind = kind,
        Damage::Answer(_, _, answer) => record.answer = answer,
        Damage::Number(_, _, number) => record.number = number,
        Damage::Outcome(_, _, value) => record.completion.result = value,
        Damage::Head(_, _, sq_head) => record.completion.sq_head = sq_head,
        Damage::Queue(_, _, sq_id) => record.completion.sq_id = sq_id,
        Damage::Command(_, _, cid) => record.completion.cid = cid,
        Damage::Status(_, _, status) => record.completion.status = status,
        Damage::Byte(_, _, at, byte) => {
            if let Some(b) = record.bytes.get_mut(at) {
                *b = byte;
            }
        }
        Damage::Length(_, _, length) => record.bytes.resize(length, 0)?,
        _ => {}
    }
    Ok(())
}

// The records of one queue.
fn damage_records(
    alloc: Global,
    records: &mut Vec<Record>,
    at: usize,
    damage: Damage,
) -> Result<(), Fail> {
    if records.len() <= at {
        return Ok(());
    }
    match damage {
        Damage::Swap(_, _, other) => {
            if other < records.len() {
                records.swap(at, other);
            }
        }
        Damage::Gone(_, _) => {
            let _ = records.remove(at);
        }
        Damage::Twice(_, _) => {
            let again = records[at].again(alloc)?;
            records.insert(at, again)?;
        }
        _ => change_record(&mut records[at], damage)?,
    }
    Ok(())
}

// The lines of the journal.
fn damage_lines(lines: &mut Vec<Line>, at: usize, damage: Damage) -> Result<(), Fail> {
    if lines.len() <= at {
        return Ok(());
    }
    match damage {
        Damage::Swap(_, _, other) => {
            if other < lines.len() {
                lines.swap(at, other);
            }
        }
        Damage::Gone(_, _) => {
            let _ = lines.remove(at);
        }
        Damage::Twice(_, _) => {
            let again = lines[at];
            lines.insert(at, again)?;
        }
        Damage::Place(_, _, place) => lines[at].place = place,
        Damage::Line(_, line) => lines[at].line = line,
        Damage::Says(_, says) => lines[at].says = says,
        _ => {}
    }
    Ok(())
}

impl Damage {
    // Whose records or lines it is of, and which.
    fn target(&self) -> (Part, usize) {
        match *self {
            Damage::Places(_) | Damage::Count(_) => (Part::Journal, usize::MAX),
            Damage::Line(at, _) | Damage::Says(at, _) => (Part::Journal, at),
            Damage::Place(part, at, _)
            | Damage::Swap(part, at, _)
            | Damage::Gone(part, at)
            | Damage::Twice(part, at)
            | Damage::Kind(part, at, _)
            | Damage::Answer(part, at, _)
            | Damage::Number(part, at, _)
            | Damage::Outcome(part, at, _)
            | Damage::Head(part, at, _)
            | Damage::Queue(part, at, _)
            | Damage::Command(part, at, _)
            | Damage::Status(part, at, _)
            | Damage::Byte(part, at, _, _)
            | Damage::Length(part, at, _) => (part, at),
        }
    }
}

impl Finished {
    // All places, and how many there are.
    fn shift(&mut self, shift: Shift) {
        shift_records(&mut self.admin, shift);
        shift_records(&mut self.io, shift);
        shift_lines(&mut self.lines, shift);
        match shift {
            Shift::Open(_) => self.places = self.places.saturating_add(1),
            Shift::Close(_) => self.places = self.places.saturating_sub(1),
            Shift::Move(_, _) | Shift::Swap(_, _) => {}
        }
    }

    /// Damages it.
    pub fn damage(&mut self, damage: Damage) -> Result<(), Fail> {
        match damage {
            Damage::Places(shift) => {
                self.shift(shift);
                return Ok(());
            }
            Damage::Count(places) => {
                self.places = places;
                return Ok(());
            }
            _ => {}
        }
        let (part, at) = damage.target();
        match part {
            Part::Admin => damage_records(self.alloc, &mut self.admin, at, damage),
            Part::Io => damage_records(self.alloc, &mut self.io, at, damage),
            Part::Journal => damage_lines(&mut self.lines, at, damage),
        }
    }
}
