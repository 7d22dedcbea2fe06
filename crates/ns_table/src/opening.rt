//! The words of a configuration as a run begins, when no change was published yet.
ghost use Rattle.std.specs.Prelude.{◌≡◌, ◌<◌, ◌≤◌, IfOk, if◌then◌else◌, slice_index, take, drop};
ghost use Rattle.std.specs.Int.{from_le_bytes, w64};
ghost use Rattle.ns_table.specs.Positions.{place_at, space_place};
ghost use Rattle.ns_table.specs.Slots.{HaveShapes, slots_of};
ghost use Rattle.ns_table.specs.Words.{bit, opened_shape, space_words, state_word, word_for, words_of};
ghost use Rattle.tree_target.specs.Views.{group_in, seen_of, space_in};
ghost use Rattle.configfs_tree.specs.Links.{port_row, subsystem_row};

use crate::layout::WORDS;
use crate::shown::is_disk_shown;
use change_stamps::ChangeStamps;
use configfs_tree::Tree;
use disk_extents::{Extent, split};
use mem_bdev::Disk;
use sqe_cqe::{Controllers, Look, NsRow, Seen};
use std::alloc::{AllocError, Global};
use target_table::opening::Opening;
use tree_target::TreeLook;

pub(crate) fn bit_of(b: bool) -> u64
    ensures { result ≡ bit b }
{
    if b { 1 } else { 0 }
}

// The lower and the upper 8 bytes of 16, as numbers, low byte first.
fn low_half(bytes: &[u8; 16]) -> u64
    ensures { result ≡ from_le_bytes w64 (take 8 bytes.now) }
{
    let mut half = [0; 8];
    half.copy_from_slice(&bytes[..8]);
    u64::from_le_bytes(half)
}

fn high_half(bytes: &[u8; 16]) -> u64
    ensures { result ≡ from_le_bytes w64 (drop 8 bytes.now) }
{
    let mut half = [0; 8];
    half.copy_from_slice(&bytes[8..]);
    u64::from_le_bytes(half)
}

// A part of an enabled namespace.
fn row_word(row: &NsRow, part: u32) -> u64
    requires { part < 11 }
    ensures { result ≡ slice_index (space_words (Seen.On row.now) 0) part }
{
    match part {
        0 => 2,
        1 => u64::from(row.disk),
        2 => u64::from(row.shift),
        3 => row.blocks,
        4 => u64::from(row.group),
        5 => low_half(&row.uuid),
        6 => high_half(&row.uuid),
        7 => low_half(&row.nguid),
        8 => high_half(&row.nguid),
        _ => 0,
    }
}

// A part of what stands at an NSID.
pub(crate) fn space_word(seen: &Seen, part: u32) -> u64
    requires { part < 11 }
    ensures { result ≡ slice_index (space_words seen.now 0) part }
{
    match seen {
        Seen::NotConfigured => 0,
        Seen::Off => bit_of(part == 0),
        Seen::On(row) => row_word(row, part),
    }
}

// The word of a group at the port at a position.
pub(crate) fn group_word(look: &mut TreeLook<'_>, port: u8, group: u32) -> u64
    ensures { result ≡ state_word (group_in group (port_row look.old.tree.now port)) }
{
    if !look.group_made(port, group) {
        return 0;
    }
    u64::from(look.ana(port, group).number())
}

// The word with a number among those of namespaces, from 0.
fn namespace_word(look: &mut TreeLook<'_>, number: u32) -> u64
    requires { number < 360448 }
    ensures { result ≡ word_for
        (opened_shape look.old.tree.now look.old.controllers.now look.old.disks.now)
        (space_place number) }
{
    let sub = (number / 11 / 2_048) as u8;
    let nsid = number / 11 % 2_048 + 1;
    let seen = look.ns(sub, nsid);
    space_word(&seen, number % 11)
}

// The word at a position.
fn word_at(
    tree: &Tree,
    controllers: &Controllers,
    disks: &[Disk],
    stamps: &ChangeStamps,
    at: u32,
) -> u64
    requires { at < WORDS }
    ensures { result ≡ word_for (opened_shape tree.now controllers.now disks.now) (place_at at) }
{
    let mut look = TreeLook::new(tree, controllers, disks, stamps);
    if at < 64 {
        return bit_of(is_disk_shown(tree, at as u8));
    }
    if at < 95 {
        return bit_of(look.ready((at - 63) as u16));
    }
    if at < 96 {
        return tree.ana_count();
    }
    if at < 120 {
        return 0;
    }
    if at < 1_144 {
        let number = at - 120;
        return group_word(&mut look, (number / 128) as u8, number % 128 + 1);
    }
    namespace_word(&mut look, at - 1_144)
}

/// The words of a configuration as a run begins: with stamps that are all 0.
pub fn opened_words(
    alloc: Global,
    tree: &Tree,
    controllers: &Controllers,
    disks: &[Disk],
) -> Result<Vec<u64>, AllocError>
    ensures { IfOk result
        (λ v. v.items ≡ words_of (opened_shape tree.now controllers.now disks.now)) }
{
    let stamps = ChangeStamps::new(alloc)?;
    let mut words = Vec::with_capacity(alloc, WORDS as usize)?;
    for at in 0..WORDS {
        words.push(word_at(tree, controllers, disks, &stamps, at))?;
    }
    Ok(words)
}

/// The extents of all disks: that of disk `d` with number `x` at 8 `d` + `x`.
pub fn opened_slots(alloc: Global, disks: &[Disk]) -> Result<Vec<Extent>, AllocError>
    requires { HaveShapes disks.now }
    ensures { IfOk result (λ v. v.items ≡ slots_of disks.now) }
{
    let mut slots = Vec::new(alloc);
    for disk in disks {
        split(alloc, disk, &mut slots)?;
    }
    Ok(slots)
}

/// What the running table of a configuration is opened with: its words, the extents of its disks,
/// and these quotas of places. Want of memory drops all of it.
pub fn opening(
    alloc: Global,
    tree: &Tree,
    controllers: &Controllers,
    disks: &[Disk],
    quotas: Vec<u32>,
) -> Result<Opening<Extent>, AllocError>
    requires { HaveShapes disks.now }
    ensures rows { IfOk result
        (λ o. o.rows.items ≡ words_of (opened_shape tree.now controllers.now disks.now)) }
    ensures slots { IfOk result (λ o. o.slots.items ≡ slots_of disks.now) }
    ensures quotas { IfOk result (λ o. o.quotas ≡ quotas) }
{
    let rows = opened_words(alloc, tree, controllers, disks)?;
    let slots = opened_slots(alloc, disks)?;
    Ok(Opening {
        rows,
        slots,
        quotas,
    })
}
