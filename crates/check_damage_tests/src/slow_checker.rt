// The plain slow checker: a finished run made again place by place.
use crate::slow_files::{Refusal, refusal_of};
use crate::slow_places::{bad_place, entry_at, others_follow};
use crate::slow_seats::{Call, SlowSeat, front_of};
use crate::slow_target::{Made, SlowTarget};
use run_check_tests::{
    ADMIN_CAPSULES, CONTROL, Capsule, EXECUTE, Finished, IO_CAPSULES, Line, POLL, Part, Record,
    Says,
};
use std::alloc::Global;
use std::test::Fail;

// The lines of the script that are edits.
const EDIT_LINES: [u32; 5] = [2, 3, 5, 6, 7];

// What a run is.
#[derive(Clone, Copy)]
pub(crate) enum Found {
    Refused(Refusal),
    Legal(u32),
    // A place, and the field.
    Fault(u32, &'static str),
}

impl Found {
    // The exit status and the line.
    pub(crate) fn told(&self, alloc: Global) -> Result<(u8, String), Fail> {
        let told = match self {
            Found::Refused(Refusal::Record(name, offset)) => {
                (2, format!(in alloc; "malformed {name} offset {offset}\n")?)
            }
            Found::Refused(Refusal::Line(line)) => {
                (2, format!(in alloc; "malformed j line {line}\n")?)
            }
            Found::Refused(Refusal::Bytes(name, count)) => {
                (6, format!(in alloc; "limit {name} bytes {count}\n")?)
            }
            Found::Legal(places) => (0, format!(in alloc; "legal {places}\n")?),
            Found::Fault(place, field) => {
                (8, format!(in alloc; "not legal place {place} {field}\n")?)
            }
        };
        Ok(told)
    }
}

// The callers and the target, as far as all places agreed.
#[derive(Drop)]
struct Replay {
    admin: SlowSeat,
    io: SlowSeat,
    // How many lines agreed, and how many edits were made.
    lines: usize,
    edits: usize,
    target: SlowTarget,
}

// The first field in which a record differs from what was made.
fn difference(record: &Record, made: &Made) -> Option<&'static str> {
    if record.answer != made.answer {
        return Some("answer");
    }
    if record.completion != made.completion {
        return Some("completion");
    }
    if record.bytes.as_slice() != made.bytes.as_slice() {
        return Some("bytes");
    }
    None
}

// Makes a call of a queue.
fn make(target: &mut SlowTarget, capsules: &[Capsule], call: Call) -> Result<Made, Fail> {
    let capsule = match capsules.get(call.number as usize) {
        Some(capsule) => *capsule,
        None => Capsule::KeepAlive,
    };
    let cid = u16::try_from(call.number).unwrap_or(0).saturating_add(1);
    match call.kind {
        CONTROL => Ok(target.control(capsule, cid)),
        EXECUTE => target.execute(capsule, cid),
        POLL => Ok(target.poll()),
        _ => target.submit(capsule, cid),
    }
}

// A queue's record of a place: the first field that differs.
fn step_queue(
    run: &Finished,
    target: &mut SlowTarget,
    seat: &mut SlowSeat,
    records: &[Record],
    capsules: &[Capsule],
    fronts_before: usize,
    at: usize,
) -> Result<Option<&'static str>, Fail> {
    let Some(record) = records.get(at) else {
        return Ok(Some("order"));
    };
    let Some(call) = seat.next(capsules) else {
        return Ok(Some("order"));
    };
    let turn = fronts_before.saturating_add(seat.done);
    let is_late = seat.done < front_of(capsules) && record.place as usize != turn;
    let is_early = call.is_final && others_follow(run, ADMIN_CAPSULES, IO_CAPSULES, record.place);
    let is_other = record.kind != call.kind || record.number != call.number;
    if at != seat.done || is_late || is_early || is_other {
        return Ok(Some("order"));
    }
    let made = make(target, capsules, call)?;
    seat.go_on(call, made.answer);
    Ok(difference(record, &made))
}

// Whether a line says what an edit gave.
fn says_so(says: Says, errno: Option<&'static str>) -> bool {
    match (says, errno) {
        (Says::Ok, None) => true,
        (Says::Errno(told), Some(made)) => told == made,
        _ => false,
    }
}

impl Replay {
    fn new(alloc: Global) -> Self {
        Replay {
            admin: SlowSeat::new(true),
            io: SlowSeat::new(false),
            lines: 0,
            edits: 0,
            target: SlowTarget::new(alloc),
        }
    }

    // The line of a drain's end, which is wanted next.
    fn step_end(&mut self, line: &Line) -> Option<&'static str> {
        let last = EDIT_LINES.get(self.edits.saturating_sub(1));
        if !matches!(line.says, Says::Done) || last != Some(&line.line) {
            return Some("order");
        }
        if !self.target.may_end() {
            return Some("drain");
        }
        self.target.end_drain();
        None
    }

    // The line of an edit, which is wanted next.
    fn step_edit(&mut self, line: &Line) -> Option<&'static str> {
        let next = EDIT_LINES.get(self.edits);
        if matches!(line.says, Says::Done) || next != Some(&line.line) {
            return Some("order");
        }
        self.edits = self.edits.saturating_add(1);
        if says_so(line.says, self.target.edit(line.line)) {
            return None;
        }
        Some("errno")
    }

    fn step_line(&mut self, run: &Finished, at: usize) -> Option<&'static str> {
        let Some(line) = run.lines.get(at) else {
            return Some("order");
        };
        if at != self.lines {
            return Some("order");
        }
        self.lines = self.lines.saturating_add(1);
        if self.target.is_draining() {
            return self.step_end(line);
        }
        self.step_edit(line)
    }

    // The first field of this place that differs.
    fn step(&mut self, run: &Finished, place: u32) -> Result<Option<&'static str>, Fail> {
        let first = front_of(ADMIN_CAPSULES);
        match entry_at(run, place) {
            None => Ok(Some("place")),
            Some((Part::Journal, at)) => Ok(self.step_line(run, at)),
            Some((Part::Admin, at)) => step_queue(
                run,
                &mut self.target,
                &mut self.admin,
                &run.admin,
                ADMIN_CAPSULES,
                0,
                at,
            ),
            Some((Part::Io, at)) => step_queue(
                run,
                &mut self.target,
                &mut self.io,
                &run.io,
                IO_CAPSULES,
                first,
                at,
            ),
        }
    }

    // Whether a caller has something left to do.
    fn is_unfinished(&self) -> bool {
        self.target.is_draining()
            || self.edits < EDIT_LINES.len()
            || self.admin.next(ADMIN_CAPSULES).is_some()
            || self.io.next(IO_CAPSULES).is_some()
    }
}

// What a finished run is.
pub(crate) fn slow_check(run: &Finished) -> Result<Found, Fail> {
    if let Some(refusal) = refusal_of(run) {
        return Ok(Found::Refused(refusal));
    }
    if let Some(place) = bad_place(run) {
        return Ok(Found::Fault(place, "place"));
    }
    let mut replay = Replay::new(run.alloc);
    for place in 0..run.places {
        if let Some(field) = replay.step(run, place)? {
            return Ok(Found::Fault(place, field));
        }
    }
    if replay.is_unfinished() {
        return Ok(Found::Fault(run.places, "order"));
    }
    Ok(Found::Legal(run.places))
}
