ghost use Rattle.std.specs.Prelude.{◌≡◌, ◌≤◌, ◌<◌, length, ◌==◌, List, ◌∷◌, [], ℕ};
ghost use Rattle.async_events.specs.Waits.{Pops};

use std::marker::Model;

/// How many event requests of a controller wait at most; the field AERL of Identify has one less.
pub const MOST_WAITING: usize = 4;

/// The command identifiers of the event requests that wait. Contracts see the list of them, the last
/// submitted first.
#[derive(Drop)]
pub struct Waiting {
    ids: [u16; 4],
    count: u8,
}

impl Model for Waiting {
    ghost use Rattle.std.specs.Prelude.{ℕ, List, take, reverse, length, ◌≡◌, ◌≤◌};

    ghost Value = { List ℕ };

    ghost view = { λ w. reverse (take w.count w.ids) };

    ghost invariant = { λ w. w.count ≤ 4 };
}

impl Waiting {
    /// None waits.
    pub fn new() -> Self
        ensures { result ≡ [] }
    {
        Waiting {
            ids: [0; 4],
            count: 0,
        }
    }

    /// Whether no more may wait.
    pub fn is_full(&self) -> bool
        ensures value { result ≡ (length self.now == MOST_WAITING) }
        ensures few { length self.now ≤ MOST_WAITING }
    {
        usize::from(self.count) == MOST_WAITING
    }

    /// Adds a request.
    pub fn push(&mut self, id: u16)
        requires { length self.old < MOST_WAITING }
        ensures { self.new ≡ id ∷ self.old }
    {
        self.ids[usize::from(self.count)] = id;
        self.count += 1;
    }

    /// Takes the request that was added last, if any waits.
    pub fn pop(&mut self) -> Option<u16>
        ensures { Pops self.old self.new result }
    {
        if self.count == 0 {
            return None;
        }
        self.count -= 1;
        Some(self.ids[usize::from(self.count)])
    }
}
