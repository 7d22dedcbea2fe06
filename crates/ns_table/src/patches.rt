//! The words that a change is published with.
ghost use Rattle.std.specs.Prelude.{◌≡◌, ◌≤◌, ◌<◌, ◌+◌, ◌++◌, ◌∷◌, [], List, IfOk, IfSome, IsTrue, Some, option_copied, length};
ghost use Rattle.mem_bdev.specs.Blocks.{Blocks};
ghost use Rattle.sqe_cqe.specs.declared.controllers.ControllerRow.{ControllerRow};
ghost use Rattle.configfs_tree.specs.Links.{subsystem_row};
ghost use Rattle.tree_target.specs.Views.{space_in};
ghost use Rattle.ns_table.specs.Changed.{disk_in, shape_before, stamps_after};
ghost use Rattle.ns_table.specs.Kept.{HavePlaces, shape_of};
ghost use Rattle.change_stamps.specs.Stamps.{Stamps as Kept, stamped};
ghost use Rattle.ns_table.specs.Holders.{is_held_shown};
ghost use Rattle.ns_table.specs.Patches.{FitsChange, FitsTouched, FitsPair, IsBelow, port_words, subsystem_words, told_places, touched_places, turned_words, words_at};
ghost use Rattle.ns_table.specs.Positions.{IsNsid};
ghost use Rattle.ns_table.specs.Words.{Stamps, is_shown, opened_shape};

use crate::layout::{
    ana_word, changes_word, ns_word, port_stamp_word, ready_word, shown_word, subsystem_stamp_word,
};
use crate::look::{has_controller, has_group, has_nsid};
use crate::opening::{bit_of, group_word, space_word};
use crate::shown::namespace_shows;
use change_stamps::ChangeStamps;
use configfs_rows::NamespaceRow;
use configfs_tree::{Change, Touched, Tree, subsystem_positions};
use mem_bdev::Disk;
use sqe_cqe::{Controllers, Look};
use std::alloc::{AllocError, Global};
use std::marker::Model;
use tree_target::TreeLook;

/// Words with their positions, for which there is room: as many as the largest change has.
/// Contracts see the list.
#[derive(Drop)]
pub struct Patch {
    words: Vec<(u32, u64)>,
}

impl Model for Patch {
    ghost use Rattle.std.specs.Prelude.{ℕ, List, ◌≤◌};
    ghost use Rattle.std.specs.Vec.{vec_capacity};

    ghost Value = { List (ℕ × ℕ) };

    ghost view = { λ p. p.words.items };

    ghost invariant = { λ p. 16 ≤ vec_capacity p.words };
}

impl Patch {
    /// No word, with room for 16.
    pub fn new(alloc: Global) -> Result<Self, AllocError>
        ensures { IfOk result (λ p. p ≡ []) }
    {
        let words = Vec::with_capacity(alloc, 16)?;
        Ok(Patch { words })
    }

    /// The words with their positions.
    pub fn words(&self) -> &[(u32, u64)]
        ensures { result.now ≡ self.now }
    {
        &self.words
    }

    // Holds nothing.
    fn clear(&mut self)
        ensures { self.new ≡ [] }
    {
        self.words.clear();
    }

    // Puts a word. There are fewer than 16 before, so no memory is taken.
    fn put(&mut self, at: u32, word: u64)
        requires { length self.old < 16 }
        ensures value { self.new ≡ self.old ++ (at, word) ∷ [] }
        ensures len { length self.new ≡ length self.old + 1 }
    {
        self.words.push_reserved((at, word));
    }
}

// Puts what stands at an NSID, but for its stamp.
fn put_space(p: &mut Patch, look: &mut TreeLook<'_>, sub: u8, nsid: u32)
    requires nsid { IsNsid sub nsid }
    requires room { length p.old ≡ 0 }
    ensures value { p.new ≡ words_at
        (opened_shape look.old.tree.now look.old.controllers.now look.old.disks.now)
        (touched_places (Touched.Namespace sub nsid)) }
    ensures len { length p.new ≤ 10 }
{
    let seen = look.ns(sub, nsid);
    for part in 0..10 {
        p.put(ns_word(sub, nsid, part), space_word(&seen, part));
    }
}

// Puts the row that was touched, but for its stamp.
fn put_touched(
    p: &mut Patch,
    tree: &Tree,
    controllers: &Controllers,
    disks: &[Disk],
    stamps: &ChangeStamps,
    touched: Touched,
)
    requires fits { FitsTouched touched }
    requires room { length p.old ≡ 0 }
    ensures value { p.new ≡ words_at (opened_shape tree.now controllers.now disks.now)
        (touched_places touched) }
    ensures len { length p.new ≤ 10 }
{
    let mut look = TreeLook::new(tree, controllers, disks, stamps);
    match touched {
        Touched::Nothing | Touched::Subsystem(_) => {}
        Touched::Namespace(sub, nsid) => put_space(p, &mut look, sub, nsid),
        Touched::Group(port, group) => {
            p.put(ana_word(port, group), group_word(&mut look, port, group));
        }
        Touched::Port(port) => p.put(ana_word(port, 1), group_word(&mut look, port, 1)),
        Touched::Controller(ctrl) => p.put(ready_word(ctrl), bit_of(look.ready(ctrl))),
    }
}

// Puts the stamp and the count of an ANA change of a port.
fn put_port(p: &mut Patch, tree: &Tree, port: Option<u8>, serial: u32)
    requires fits { IsBelow 8 port }
    requires room { length p.old ≤ 12 }
    ensures value { (controllers : List ControllerRow) (blocks : List Blocks) → p.new ≡ p.old
        ++ port_words (opened_shape tree.now controllers blocks) port serial }
    ensures len { length p.new ≤ length p.old + 2 }
{
    if let Some(port) = port {
        p.put(port_stamp_word(port), u64::from(serial));
        p.put(changes_word(), tree.ana_count());
    }
}

// Puts the stamp and the count of an ANA change of a subsystem.
fn put_subsystem(p: &mut Patch, tree: &Tree, sub: Option<u8>, serial: u32)
    requires fits { IsBelow 16 sub }
    requires room { length p.old ≤ 14 }
    ensures value { (controllers : List ControllerRow) (blocks : List Blocks) → p.new ≡ p.old
        ++ subsystem_words (opened_shape tree.now controllers blocks) sub serial }
    ensures len { length p.new ≤ length p.old + 2 }
{
    if let Some(sub) = sub {
        p.put(subsystem_stamp_word(sub), u64::from(serial));
        p.put(changes_word(), tree.ana_count());
    }
}

// The namespace at an NSID of the subsystem at a position.
fn namespace_at(tree: &Tree, sub: u8, nsid: u32) -> Option<&NamespaceRow>
    ensures { option_copied result ≡ space_in nsid (subsystem_row tree.now sub) }
{
    let row = tree.subsystems().at(sub)?;
    row.namespaces.get(nsid)
}

// The number of the disk that the namespace at an NSID keeps.
fn disk_number_at(tree: &Tree, sub: u8, nsid: u32) -> Option<u8>
    ensures number { result ≡ disk_in (space_in nsid (subsystem_row tree.now sub)) }
    ensures small { IfSome result (λ disk. disk < 64) }
{
    tree.certify();
    subsystem_positions(tree);
    let namespace = namespace_at(tree, sub, nsid)?;
    namespace.disk
}

// Whether the namespace that holds a disk is enabled on it.
fn is_held_shown(tree: &Tree, disk: u8) -> bool
    ensures { result ≡ is_held_shown tree.now disk }
{
    let Some(row) = tree.disks().get(disk) else {
        return false;
    };
    match &row.holder {
        None => false,
        Some(holder) => match namespace_at(tree, holder.sub, holder.nsid) {
            None => false,
            Some(namespace) => namespace_shows(namespace, disk),
        },
    }
}

// Whether an enabled namespace is on a disk. It could be only the one that holds the disk, so no
// other is looked at.
fn shows_disk(tree: &Tree, disk: u8) -> bool
    ensures { result ≡ is_shown tree.now disk }
{
    tree.certify();
    is_held_shown(tree, disk)
}

// Puts the stamp of a namespace that turned, and the word of its disk.
fn put_turned(p: &mut Patch, tree: &Tree, namespace: Option<(u8, u32)>, serial: u32)
    requires fits { FitsPair namespace }
    requires room { length p.old ≤ 10 }
    ensures value { (controllers : List ControllerRow) (blocks : List Blocks) → p.new ≡ p.old
        ++ turned_words (opened_shape tree.now controllers blocks) namespace serial }
    ensures len { length p.new ≤ length p.old + 2 }
{
    let Some((sub, nsid)) = namespace else {
        return;
    };
    p.put(ns_word(sub, nsid, 10), u64::from(serial));
    if let Some(disk) = disk_number_at(tree, sub, nsid) {
        p.put(shown_word(disk), bit_of(shows_disk(tree, disk)));
    }
}

fn fits_touched(touched: Touched) -> bool
    ensures { IsTrue result → FitsTouched touched }
{
    match touched {
        Touched::Nothing | Touched::Subsystem(_) => true,
        Touched::Namespace(sub, nsid) => has_nsid(sub, nsid),
        Touched::Group(port, group) => has_group(port, group),
        Touched::Port(port) => port < 8,
        Touched::Controller(ctrl) => has_controller(ctrl),
    }
}

fn fits_pair(namespace: Option<(u8, u32)>) -> bool
    ensures { IsTrue result → FitsPair namespace }
{
    match namespace {
        None => true,
        Some((sub, nsid)) => has_nsid(sub, nsid),
    }
}

fn is_below(most: u8, number: Option<u8>) -> bool
    ensures { IsTrue result → IsBelow most number }
{
    match number {
        None => true,
        Some(number) => number < most,
    }
}

/// Whether what a change names is within the limits of the table.
pub fn fits(change: &Change) -> bool
    ensures { IsTrue result → FitsChange change.now }
{
    fits_touched(change.touched)
        && fits_pair(change.namespace)
        && is_below(8, change.ana_port)
        && is_below(16, change.ana_subsystem)
}

/// The words of all that a change tells of, at the serial that publishes it, in place of what the
/// patch held: these are the only words that differ from those before the change
/// (`words_change_where_told`). The tree is the one after the change, and the stamps those in which
/// it was noted. Takes no memory.
pub fn put_change(
    tree: &Tree,
    controllers: &Controllers,
    disks: &[Disk],
    stamps: &ChangeStamps,
    change: &Change,
    to: &mut Patch,
)
    requires { FitsChange change.now }
    ensures words { (old : Stamps) → to.new
        ≡ words_at (shape_before tree.now controllers.now disks.now
        (stamps_after stamps.now.serial change.now old))
        (told_places tree.now change.now) }
    ensures noted { (old : Kept) → HavePlaces old → stamps.now ≡ stamped change.now old
        → to.new ≡ words_at (shape_of tree.now controllers.now disks.now stamps.now)
        (told_places tree.now change.now) }
    ensures few { length to.new ≤ 16 }
{
    let serial = stamps.serial();
    to.clear();
    put_touched(to, tree, controllers, disks, stamps, change.touched);
    put_turned(to, tree, change.namespace, serial);
    put_port(to, tree, change.ana_port, serial);
    put_subsystem(to, tree, change.ana_subsystem, serial);
}
