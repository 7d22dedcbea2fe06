//! Words of one configuration, loaded one by one.
ghost use Rattle.std.specs.Prelude.{◌≡◌, ◌≤◌, ◌<◌, ◌+◌, ℕ, List, length, slice_index};
ghost use Rattle.ns_table.specs.declared.layout.TheConstants.{WORDS};

/// The words of one configuration and its serial, as a read section or a list shows them.
///
/// What stands behind them is one value of a kind that each implementation chooses, and no call
/// changes it: so all words are those of one configuration. No call takes memory.
pub trait Rows {
    /// The kind of value that stands behind the words.
    ghost Behind: { Type 0 };

    /// What stands behind them.
    ghost behind: { Self → Behind };

    /// The words.
    ghost words: { Behind → List ℕ };

    /// How many changes were published before.
    ghost published: { Behind → ℕ };

    /// How many words were loaded.
    ghost loads: { Self → ℕ };

    /// Loads the word at a position.
    fn word(&mut self, at: u32) -> u64
        requires { at < WORDS }
        ensures value { result ≡ slice_index (words (behind self.old)) at }
        ensures behind { behind self.new ≡ behind self.old }
        ensures loads { loads self.new ≤ loads self.old + 1 };

    /// The serial of the configuration. Loads nothing.
    fn serial(&mut self) -> u32
        ensures value { result ≡ published (behind self.old) }
        ensures behind { behind self.new ≡ behind self.old }
        ensures loads { loads self.new ≤ loads self.old };
}

/// Words in a list, with their serial. It counts no load.
#[derive(Drop)]
pub struct ListedRows<'a> {
    pub words: &'a [u64],
    pub serial: u32,
    pub ghost all: { length words.now ≡ WORDS },
}

impl<'a> Rows for ListedRows<'a> {
    ghost Behind = { List ℕ × ℕ };

    ghost behind = { λ s. (s.words.now, s.serial) };

    ghost words = { λ b. b.0 };

    ghost published = { λ b. b.1 };

    ghost loads = { λ s. 0 };

    fn word(&mut self, at: u32) -> u64 {
        self.words[at as usize]
    }

    fn serial(&mut self) -> u32 {
        self.serial
    }
}
