//! Edits with the words that they turn.
ghost use Rattle.std.specs.Prelude.{◌≡◌, ◌≤◌, ◌+◌, [], IfOk, IsTrue, OnErr, length};
ghost use Rattle.change_stamps.specs.Stamps.{Stamps as Kept, stamps_after};
ghost use Rattle.configfs_tree.specs.Gives.{Gives};
ghost use Rattle.edit_words.specs.Answered.{FitsAnswer, answer_words, change_words};
ghost use Rattle.edit_words.specs.Exact.{AreTurned};
ghost use Rattle.link_rules.specs.Table.{edit_outcome, is_fitting, may_grow};
ghost use Rattle.ns_table.specs.Kept.{HavePlaces, shape_of};
ghost use Rattle.ns_table.specs.Patches.{FitsChange};
ghost use Rattle.ns_table.specs.Words.{words_of};
ghost use Rattle.tree_target.specs.Stands.{noted_by};

use crate::turned::{TurnedWords, put_differing};
use change_stamps::ChangeStamps;
use configfs_tree::{Change, Refused, Tree};
use link_rules::{Edit, apply};
use mem_bdev::Disk;
use ns_table::patches::{Patch, put_change};
use ns_table::rows::Rows;
use sqe_cqe::Controllers;
use std::alloc::{AllocError, Global};
use std::marker::Model;

/// The words that an edit turned, beside room for all that its change tells of. Contracts see the
/// list of the words with their positions.
#[derive(Drop)]
pub struct EditWords {
    told: Patch,
    turned: TurnedWords,
}

impl Model for EditWords {
    ghost use Rattle.std.specs.Prelude.{ℕ, List};

    ghost Value = { List (ℕ × ℕ) };

    ghost view = { λ w. w.turned };
}

impl EditWords {
    /// No word.
    pub fn new(alloc: Global) -> Result<Self, AllocError>
        ensures { IfOk result (λ w. w ≡ []) }
    {
        let told = Patch::new(alloc)?;
        let turned = TurnedWords::new(alloc)?;
        Ok(EditWords { told, turned })
    }

    /// The words with their positions.
    pub fn words(&self) -> &[(u32, u64)]
        ensures { result.now ≡ self.now }
    {
        self.turned.words()
    }

    // Holds nothing.
    fn clear(&mut self)
        ensures { self.new ≡ [] }
    {
        self.turned.clear();
    }
}

// Stamps what an accepted edit changed.
fn note(stamps: &mut ChangeStamps, answer: &Result<Change, Refused>)
    ensures { stamps.new ≡ noted_by answer.now stamps.old }
{
    match answer {
        Ok(change) => stamps.note(change),
        Err(_) => {}
    }
}

// Puts the words that a published change turned.
fn put_published<R: Rows>(
    tree: &Tree,
    controllers: &Controllers,
    disks: &[Disk],
    stamps: &ChangeStamps,
    change: &Change,
    before: &mut R,
    to: &mut EditWords,
)
    requires fits { FitsChange change.now }
    requires published { IsTrue change.now.published }
    ensures words { (old : Kept) → HavePlaces old → stamps.now ≡ stamps_after change.now old
        → to.new ≡ change_words (R.words (R.behind before.old))
        (shape_of tree.now controllers.now disks.now stamps.now) change.now }
    ensures few { length to.new ≤ 16 }
    ensures behind { R.behind before.new ≡ R.behind before.old }
    ensures loads { R.loads before.new ≤ R.loads before.old + 16 }
{
    tree.certify();
    put_change(tree, controllers, disks, stamps, change, &mut to.told);
    put_differing(&to.told, before, &mut to.turned);
}

// Puts the words that a change turned.
fn put_words<R: Rows>(
    tree: &Tree,
    controllers: &Controllers,
    disks: &[Disk],
    stamps: &ChangeStamps,
    change: &Change,
    before: &mut R,
    to: &mut EditWords,
)
    requires { FitsChange change.now }
    ensures words { (old : Kept) → HavePlaces old → stamps.now ≡ stamps_after change.now old
        → to.new ≡ change_words (R.words (R.behind before.old))
        (shape_of tree.now controllers.now disks.now stamps.now) change.now }
    ensures few { length to.new ≤ 16 }
    ensures behind { R.behind before.new ≡ R.behind before.old }
    ensures loads { R.loads before.new ≤ R.loads before.old + 16 }
{
    if !change.published {
        to.clear();
        return;
    }
    put_published(tree, controllers, disks, stamps, change, before, to);
}

// Puts the words that an edit turned, by its answer.
fn put_answer<R: Rows>(
    tree: &Tree,
    controllers: &Controllers,
    disks: &[Disk],
    stamps: &ChangeStamps,
    answer: &Result<Change, Refused>,
    before: &mut R,
    to: &mut EditWords,
)
    requires { FitsAnswer answer.now }
    ensures words { (old : Kept) → HavePlaces old → stamps.now ≡ noted_by answer.now old
        → to.new ≡ answer_words (R.words (R.behind before.old))
        (shape_of tree.now controllers.now disks.now stamps.now) answer.now }
    ensures refused { OnErr answer.now (to.new ≡ []) }
    ensures few { length to.new ≤ 16 }
    ensures behind { R.behind before.new ≡ R.behind before.old }
    ensures loads { R.loads before.new ≤ R.loads before.old + 16 }
{
    match answer {
        Ok(change) => put_words(tree, controllers, disks, stamps, change, before, to),
        Err(_) => to.clear(),
    }
}

/// Makes an edit by the table of edits, notes what it changed in the stamps, and puts the words
/// that it turned in place of what `to` held: each word that differs after it, with its position
/// and its new value, once, and no other. A refused edit turns none, and so does one that writes
/// the value that stands.
///
/// `before` has the words of the configuration before the edit, as a read section of the editor's
/// own or a list shows them; at most 16 of them are loaded. The answers are those of
/// `link_rules::apply`; want of memory leaves all as before.
pub fn edit<R: Rows>(
    alloc: Global,
    e: &Edit,
    tree: &mut Tree,
    controllers: &Controllers,
    disks: &[Disk],
    stamps: &mut ChangeStamps,
    before: &mut R,
    to: &mut EditWords,
) -> Result<Change, Refused>
    requires fitting { IsTrue (is_fitting e.now) }
    requires places { HavePlaces stamps.old }
    requires rows { R.words (R.behind before.old)
        ≡ words_of (shape_of tree.old controllers.now disks.now stamps.old) }
    ensures gives { Gives (may_grow e.now) (edit_outcome tree.old e.now) tree.old result tree.new }
    ensures noted { stamps.new ≡ noted_by result stamps.old }
    ensures turned { AreTurned (words_of (shape_of tree.old controllers.now disks.now stamps.old))
        (words_of (shape_of tree.new controllers.now disks.now stamps.new)) to.new }
    ensures refused { OnErr result (to.new ≡ []) }
    ensures places { HavePlaces stamps.new }
    ensures few { length to.new ≤ 16 }
    ensures behind { R.behind before.new ≡ R.behind before.old }
    ensures loads { R.loads before.new ≤ R.loads before.old + 16 }
{
    tree.certify();
    let answer = apply(alloc, tree, e);
    tree.certify();
    note(stamps, &answer);
    put_answer(tree, controllers, disks, stamps, &answer, before, to);
    answer
}
