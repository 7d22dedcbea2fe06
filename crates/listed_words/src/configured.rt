//! A configuration with its words in a list, which each edit patches.
ghost use Rattle.std.specs.Prelude.{◌≡◌, IsTrue, IfOk, slice_set};
ghost use Rattle.link_rules.specs.Table.{is_fitting};
ghost use Rattle.ns_table.specs.Kept.{HavePlaces};
ghost use Rattle.listed_words.specs.Listed.{AreListed};
ghost use Rattle.ref_state.specs.State.{overlaid};

use change_stamps::ChangeStamps;
use configfs_rows::Phase;
use configfs_tree::{Change, Nqn, Refused, Tree};
use edit_words::edits::{EditWords, edit};
use edit_words::law::{drains_leave_words, turned_words_patch};
use link_rules::Edit;
use mem_bdev::Disk;
use ns_table::law::{kept_stamps_are_published, words_are_placed};
use ns_table::opening::opened_words;
use ns_table::rows::ListedRows;
use sqe_cqe::Controllers;
use std::alloc::{AllocError, Global};

// Sets a word, where there is one at its position.
#[tactic(auto, using(crate::proofs::Listing::set_past))]
fn put_word(words: &mut Vec<u64>, at: usize, word: u64)
    ensures { words.new.items ≡ slice_set words.old.items at word }
{
    if at < words.len() {
        words[at] = word;
    }
}

// Sets words, the last first.
fn put_words(words: &mut Vec<u64>, turned: &[(u32, u64)])
    ensures { words.new.items ≡ overlaid words.old.items turned.now }
{
    match turned {
        [] => {}
        [(at, word), rest @ ..] => {
            put_words(words, rest);
            put_word(words, *at as usize, *word);
        }
    }
}

/// A configuration whose words are listed beside it.
#[derive(Drop)]
pub struct Configured {
    pub tree: Tree,
    pub controllers: Controllers,
    pub disks: Vec<Disk>,
    /// The serials of its changes since it was opened.
    pub stamps: ChangeStamps,
    /// Its words.
    pub words: Vec<u64>,
    pub ghost listed: { AreListed tree controllers disks.items stamps words.items },
    pub ghost places: { HavePlaces stamps },
}

impl Configured {
    /// The configuration with its words, before any change is published.
    pub fn open(
        alloc: Global,
        tree: Tree,
        controllers: Controllers,
        disks: Vec<Disk>,
    ) -> Result<Configured, AllocError> {
        let words = opened_words(alloc, &tree, &controllers, &disks)?;
        let stamps = ChangeStamps::new(alloc)?;
        kept_stamps_are_published();
        Ok(Configured {
            tree,
            controllers,
            disks,
            stamps,
            words,
        })
    }

    /// Makes an edit, notes what it changed and patches the words: `turned` gets those that it
    /// turned, each with its position. A refused edit turns none.
    pub fn edited(
        self,
        alloc: Global,
        e: &Edit,
        turned: &mut EditWords,
    ) -> (Configured, Result<Change, Refused>)
        requires fitting { IsTrue (is_fitting e.now) }
    {
        let Configured {
            mut tree,
            controllers,
            disks,
            mut stamps,
            mut words,
        } = self;
        words_are_placed();
        turned_words_patch();
        let mut rows = ListedRows {
            words: &words,
            serial: stamps.serial(),
        };
        let answer = edit(
            alloc,
            e,
            &mut tree,
            &controllers,
            &disks,
            &mut stamps,
            &mut rows,
            turned,
        );
        put_words(&mut words, turned.words());
        let after = Configured {
            tree,
            controllers,
            disks,
            stamps,
            words,
        };
        (after, answer)
    }

    /// Ends the drain of a namespace, where it drains. The words stay.
    pub fn drained(self, sub: &Nqn, nsid: u32) -> Configured {
        let Configured {
            mut tree,
            controllers,
            disks,
            stamps,
            words,
        } = self;
        drains_leave_words();
        if let Some(Phase::Draining) = tree.phase(sub, nsid) {
            tree.end_drain(sub, nsid);
        }
        Configured {
            tree,
            controllers,
            disks,
            stamps,
            words,
        }
    }
}
