// Questions about the places of a run, each answered by a look at all records and lines.
use run_check_tests::{CONTROL, Capsule, EXECUTE, Finished, POLL, Part, Record, SUBMIT};

// How many records of a queue have this place.
fn times_in(records: &[Record], place: u32) -> u32 {
    let mut times: u32 = 0;
    for record in records {
        if record.place == place {
            times = times.saturating_add(1);
        }
    }
    times
}

// How many records and lines have it.
fn times(run: &Finished, place: u32) -> u32 {
    let mut times = times_in(&run.admin, place).saturating_add(times_in(&run.io, place));
    for line in &run.lines {
        if line.place == place {
            times = times.saturating_add(1);
        }
    }
    times
}

// The lower of a place and one that may be lower, where that isn't below so many.
fn lower(lowest: Option<u32>, place: u32, number: u32) -> Option<u32> {
    if place < number {
        return lowest;
    }
    match lowest {
        Some(other) if other <= place => Some(other),
        _ => Some(place),
    }
}

// The lowest place that isn't below the run's number.
fn lowest_outside(run: &Finished) -> Option<u32> {
    let mut lowest = None;
    for record in &run.admin {
        lowest = lower(lowest, record.place, run.places);
    }
    for record in &run.io {
        lowest = lower(lowest, record.place, run.places);
    }
    for line in &run.lines {
        lowest = lower(lowest, line.place, run.places);
    }
    lowest
}

// The lowest place that is missing, doubled, or not below the run's number.
pub(crate) fn bad_place(run: &Finished) -> Option<u32> {
    for place in 0..run.places {
        if times(run, place) != 1 {
            return Some(place);
        }
    }
    lowest_outside(run)
}

// Where a queue has the record of this place.
fn position_in(records: &[Record], place: u32) -> Option<usize> {
    for (at, record) in records.iter().enumerate() {
        if record.place == place {
            return Some(at);
        }
    }
    None
}

// Whose record or line has this place, and which it is.
pub(crate) fn entry_at(run: &Finished, place: u32) -> Option<(Part, usize)> {
    if let Some(at) = position_in(&run.admin, place) {
        return Some((Part::Admin, at));
    }
    if let Some(at) = position_in(&run.io, place) {
        return Some((Part::Io, at));
    }
    for (at, line) in run.lines.iter().enumerate() {
        if line.place == place {
            return Some((Part::Journal, at));
        }
    }
    None
}

// How many submits and controls stand before a record, and the kind of the one right before it.
fn before(records: &[Record], at: usize) -> (usize, u8) {
    let mut taken: usize = 0;
    let mut last = 0;
    for record in records.iter().take(at) {
        if record.kind == SUBMIT || record.kind == CONTROL {
            taken = taken.saturating_add(1);
        }
        last = record.kind;
    }
    (taken, last)
}

// Whether a record is a final poll: a poll behind as many submits and controls as there are
// capsules, and not right behind a submit or an execute.
fn is_final_poll(records: &[Record], at: usize, capsules: usize) -> bool {
    let is_poll = records.get(at).is_some_and(|record| record.kind == POLL);
    let (taken, last) = before(records, at);
    is_poll && taken == capsules && last != SUBMIT && last != EXECUTE
}

// Whether a queue has a record at this place, or above it, that is no final poll.
fn has_other_from(records: &[Record], capsules: &[Capsule], place: u32) -> bool {
    for at in 0..records.len() {
        let is_above = records.get(at).is_some_and(|record| place <= record.place);
        if is_above && !is_final_poll(records, at, capsules.len()) {
            return true;
        }
    }
    false
}

// Whether anything but final polls stands at this place or above.
pub(crate) fn others_follow(run: &Finished, admin: &[Capsule], io: &[Capsule], place: u32) -> bool {
    for line in &run.lines {
        if place <= line.place {
            return true;
        }
    }
    has_other_from(&run.admin, admin, place) || has_other_from(&run.io, io, place)
}
