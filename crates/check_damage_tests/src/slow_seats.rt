// What a queue does next, from what it has done.
use run_check_tests::{CONTROL, Capsule, EXECUTE, HELD, NO_EVENT, POLL, SUBMIT};

// What a queue owes before its next capsule.
#[derive(Clone, Copy, PartialEq, Eq)]
enum Owes {
    Nothing,
    Execute,
    Poll,
    NoMore,
}

// A call, as a record names it.
#[derive(Clone, Copy)]
pub(crate) struct Call {
    pub(crate) kind: u8,
    pub(crate) number: u32,
    pub(crate) is_final: bool,
}

// How many records of a queue agreed, how many capsules it took, and what it owes.
#[derive(Clone, Copy)]
pub(crate) struct SlowSeat {
    pub(crate) done: usize,
    taken: u32,
    owes: Owes,
    has_polls: bool,
}

// Whether a capsule is a fabrics command.
fn is_fabrics(capsule: Capsule) -> bool {
    matches!(capsule, Capsule::Connect(_) | Capsule::Enable)
}

// How many fabrics commands a file begins with.
pub(crate) fn front_of(capsules: &[Capsule]) -> usize {
    for (at, capsule) in capsules.iter().enumerate() {
        if !is_fabrics(*capsule) {
            return at;
        }
    }
    capsules.len()
}

impl SlowSeat {
    // That of a queue at the start; an admin queue polls.
    pub(crate) fn new(has_polls: bool) -> Self {
        SlowSeat {
            done: 0,
            taken: 0,
            owes: Owes::Nothing,
            has_polls,
        }
    }

    fn poll(&self, is_final: bool) -> Call {
        Call {
            kind: POLL,
            number: self.taken,
            is_final,
        }
    }

    // The first call of the next capsule, or a poll at the end.
    fn first(&self, capsules: &[Capsule]) -> Option<Call> {
        match capsules.get(self.taken as usize) {
            Some(capsule) => Some(Call {
                kind: if is_fabrics(*capsule) {
                    CONTROL
                } else {
                    SUBMIT
                },
                number: self.taken,
                is_final: false,
            }),
            None if self.has_polls => Some(self.poll(true)),
            None => None,
        }
    }

    // The queue's next call, where one is left.
    pub(crate) fn next(&self, capsules: &[Capsule]) -> Option<Call> {
        match self.owes {
            Owes::NoMore => None,
            Owes::Execute => Some(Call {
                kind: EXECUTE,
                number: self.taken.saturating_sub(1),
                is_final: false,
            }),
            Owes::Poll if self.has_polls => Some(self.poll(false)),
            Owes::Poll | Owes::Nothing => self.first(capsules),
        }
    }

    // Goes on behind a call that had this answer.
    pub(crate) fn go_on(&mut self, call: Call, answer: u8) {
        self.done = self.done.saturating_add(1);
        match call.kind {
            SUBMIT => {
                self.taken = self.taken.saturating_add(1);
                self.owes = if answer == HELD {
                    Owes::Execute
                } else {
                    Owes::Poll
                };
            }
            CONTROL => {
                self.taken = self.taken.saturating_add(1);
                self.owes = Owes::Nothing;
            }
            EXECUTE => self.owes = Owes::Poll,
            _ => {
                let is_end = call.is_final && answer == NO_EVENT;
                self.owes = if is_end { Owes::NoMore } else { Owes::Nothing };
            }
        }
    }
}
