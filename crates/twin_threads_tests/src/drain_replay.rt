//! What threads note of their calls under drains, and the plain replay of it.

use percpu_ref::put_kinds::Put;
use std::alloc::Global;

/// What a call did.
#[derive(Clone, Copy)]
pub enum Deed {
    /// It read this number.
    Read(u64),
    /// It got a hold on this disk or not. The hold is put before the seat's next call.
    Once(u32, bool),
    /// It got a hold on this disk, which is put after the seat's next `Still`.
    Get(u32),
    /// It read this number while that hold stood.
    Still(u64),
    /// It set both words to this number.
    Edit(u64),
    /// It ended the drain of this disk.
    Done(u32),
}

/// The place, the serial and the deed of a call.
#[derive(Clone, Copy)]
pub struct Record {
    place: u32,
    serial: u32,
    deed: Deed,
}

/// What one thread notes.
#[derive(Drop)]
pub struct Log {
    records: Vec<Record>,
    /// The round and the disk of each put that was the last.
    lasts: Vec<(u32, u32)>,
    /// By round that waits the holds that stood on disk 0 and on disk 1.
    standing: Vec<(u64, u64)>,
}

impl Log {
    pub fn new(alloc: Global) -> Log {
        Log {
            records: Vec::new(alloc),
            lasts: Vec::new(alloc),
            standing: Vec::new(alloc),
        }
    }

    /// Notes a call: false where memory is refused.
    pub fn note(&mut self, place: u32, serial: u32, deed: Deed) -> bool {
        let record = Record {
            place,
            serial,
            deed,
        };
        self.records.push(record).is_ok()
    }

    /// Notes a put where it was the last: false where memory is refused.
    pub fn note_put(&mut self, round: u32, disk: u32, put: Option<Put>) -> bool {
        match put {
            Some(Put::Last) => self.lasts.push((round, disk)).is_ok(),
            _ => true,
        }
    }

    /// Notes the holds that were counted. Where memory is refused they are missed at the end.
    pub fn note_standing(&mut self, one: u64, two: u64) {
        let _ = self.standing.push((one, two));
    }
}

/// Whether the holds of this round are put only after the fold.
pub fn waits(round: u32) -> bool {
    round % 4 < 2
}

/// The seat, the serial and the deed of a call.
pub type Slot = Option<(usize, u32, Deed)>;

/// Puts the records of a seat at their places: false where one is taken or past the end.
pub fn place_all(slots: &mut [Slot], seat: usize, log: &Log) -> bool {
    for record in log.records.as_slice() {
        let at = record.place as usize;
        if at >= slots.len() || slots[at].is_some() {
            return false;
        }
        slots[at] = Some((seat, record.serial, record.deed));
    }
    true
}

// The target between two calls.
#[derive(Drop)]
struct Replay {
    // How many edits there were.
    published: u32,
    // The number that both words have.
    shown: u64,
    // By seat the disk of the hold that it keeps.
    held: [Option<u32>; 4],
    // Whether each disk was drained since it was hidden.
    drained: [bool; 2],
}

impl Replay {
    // The disk's drain may end: it is hidden, and no hold is kept on it.
    fn may_end(&self, disk: u32) -> bool {
        for held in self.held.as_slice() {
            if *held == Some(disk) {
                return false;
            }
        }
        self.shown == 0
    }

    // A call of a seat: whether it did what the target does there.
    fn fits(&mut self, seat: usize, deed: Deed) -> bool {
        if seat >= 4 {
            return false;
        }
        match deed {
            Deed::Read(word) => word == self.shown,
            Deed::Once(_, got) => got == (self.shown != 0),
            Deed::Get(disk) => {
                let free = self.held[seat].is_none();
                self.held[seat] = Some(disk);
                free && self.shown != 0
            }
            Deed::Still(word) => {
                let kept = self.held[seat].is_some();
                self.held[seat] = None;
                kept && word == self.shown
            }
            Deed::Edit(number) => {
                let due = number == 0 || self.drained == [true; 2];
                self.published = self.published.saturating_add(1);
                self.shown = number;
                self.drained = [false; 2];
                due
            }
            Deed::Done(disk) => {
                let at = disk as usize;
                if at >= 2 || self.drained[at] {
                    return false;
                }
                self.drained[at] = true;
                self.may_end(disk)
            }
        }
    }
}

/// Each place has a call, which did what the calls before it leave to it.
pub fn is_replay(slots: &[Slot]) -> bool {
    let mut target = Replay {
        published: 0,
        shown: 1,
        held: [None; 4],
        drained: [false; 2],
    };
    for slot in slots {
        let Some((seat, serial, deed)) = *slot else {
            return false;
        };
        if !target.fits(seat, deed) || serial != target.published {
            return false;
        }
    }
    true
}

// How many of these puts were the last of this disk in this round.
fn count_lasts(log: &Log, round: u32, disk: u32) -> u32 {
    let mut count: u32 = 0;
    for last in log.lasts.as_slice() {
        if *last == (round, disk) {
            count = count.saturating_add(1);
        }
    }
    count
}

/// A drain has one last put at most, and exactly one where holds stood at its fold.
pub fn are_last_once(rounds: u32, logs: [&Log; 3]) -> bool {
    for round in 0..rounds {
        for disk in 0..2 {
            let mut count: u32 = 0;
            for log in logs.as_slice() {
                count = count.saturating_add(count_lasts(log, round, disk));
            }
            if count > 1 || (waits(round) && count == 0) {
                return false;
            }
        }
    }
    true
}

// How many of the seats 1 to 3 have their hold of this round on this disk.
fn count_seats(round: u32, disk: u32) -> u64 {
    let mut count: u64 = 0;
    for seat in 1..4 {
        if round.saturating_add(seat) % 2 == disk {
            count = count.saturating_add(1);
        }
    }
    count
}

/// In each round that waits the holds of all three seats stood at the fold.
pub fn are_drained(rounds: u32, log: &Log) -> bool {
    let mut at: usize = 0;
    for round in 0..rounds {
        if waits(round) {
            let due = (count_seats(round, 0), count_seats(round, 1));
            if log.standing.get(at) != Some(&due) {
                return false;
            }
            at = at.saturating_add(1);
        }
    }
    at == log.standing.len()
}
