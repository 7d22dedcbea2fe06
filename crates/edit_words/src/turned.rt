//! Words that differ from those of rows.
ghost use Rattle.std.specs.Prelude.{◌≡◌, ◌≤◌, ◌<◌, ◌+◌, ◌++◌, ◌∷◌, [], IfOk, length};
ghost use Rattle.edit_words.specs.Differing.{AreBelow, differing};
ghost use Rattle.ns_table.specs.declared.layout.TheConstants.{WORDS};

use ns_table::patches::Patch;
use ns_table::rows::Rows;
use std::alloc::{AllocError, Global};
use std::marker::Model;

/// The words that a change turned, with room for those of the largest change. Contracts see the
/// list of their positions and new values.
#[derive(Drop)]
pub struct TurnedWords {
    words: Vec<(u32, u64)>,
}

impl Model for TurnedWords {
    ghost use Rattle.std.specs.Prelude.{ℕ, List, ◌≤◌};
    ghost use Rattle.std.specs.Vec.{vec_capacity};

    ghost Value = { List (ℕ × ℕ) };

    ghost view = { λ w. w.words.items };

    ghost invariant = { λ w. 16 ≤ vec_capacity w.words };
}

impl TurnedWords {
    /// No word, with room for 16.
    pub fn new(alloc: Global) -> Result<Self, AllocError>
        ensures { IfOk result (λ w. w ≡ []) }
    {
        let words = Vec::with_capacity(alloc, 16)?;
        Ok(TurnedWords { words })
    }

    /// The words with their positions.
    pub fn words(&self) -> &[(u32, u64)]
        ensures { result.now ≡ self.now }
    {
        &self.words
    }

    /// Holds nothing.
    pub fn clear(&mut self)
        ensures { self.new ≡ [] }
    {
        self.words.clear();
    }

    // Puts a word. There are fewer than 16 before, so no memory is taken.
    fn put(&mut self, at: u32, word: u64)
        requires { length self.old < 16 }
        ensures value { self.new ≡ self.old ++ (at, word) ∷ [] }
        ensures len { length self.new ≡ length self.old + 1 }
    {
        self.words.push_reserved((at, word));
    }
}

// Puts a word that rows don't have at its position.
fn put_one<R: Rows>(at: u32, word: u64, rows: &mut R, to: &mut TurnedWords)
    requires below { at < WORDS }
    requires room { length to.old < 16 }
    ensures value { to.new ≡ to.old ++ differing (R.words (R.behind rows.old)) ((at, word) ∷ []) }
    ensures len { length to.new ≤ length to.old + 1 }
    ensures behind { R.behind rows.new ≡ R.behind rows.old }
    ensures loads { R.loads rows.new ≤ R.loads rows.old + 1 }
{
    if rows.word(at) != word {
        to.put(at, word);
    }
}

// Puts those of these words that rows don't have.
fn put_those<R: Rows>(words: &[(u32, u64)], rows: &mut R, to: &mut TurnedWords)
    requires below { AreBelow words.now }
    requires room { length to.old + length words.now ≤ 16 }
    ensures value { to.new ≡ to.old ++ differing (R.words (R.behind rows.old)) words.now }
    ensures len { length to.new ≤ length to.old + length words.now }
    ensures behind { R.behind rows.new ≡ R.behind rows.old }
    ensures loads { R.loads rows.new ≤ R.loads rows.old + length words.now }
{
    match words {
        [] => {}
        [(at, word), rest @ ..] => {
            put_one(*at, *word, rows, to);
            put_those(rest, rows, to);
        }
    }
}

/// Those words of a patch that rows don't have at their positions, in their order, in place of what
/// `to` held. Loads each word of the patch once. Takes no memory.
pub fn put_differing<R: Rows>(patch: &Patch, rows: &mut R, to: &mut TurnedWords)
    requires below { AreBelow patch.now }
    requires few { length patch.now ≤ 16 }
    ensures words { to.new ≡ differing (R.words (R.behind rows.old)) patch.now }
    ensures few { length to.new ≤ 16 }
    ensures behind { R.behind rows.new ≡ R.behind rows.old }
    ensures loads { R.loads rows.new ≤ R.loads rows.old + 16 }
{
    to.clear();
    put_those(patch.words(), rows, to);
}
