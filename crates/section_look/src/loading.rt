//! Answers from words that are loaded one by one, as those of a look at listed words.
ghost use Rattle.std.specs.Prelude.{◌≡◌, ◌≤◌, ◌<◌, ◌+◌, ◌++◌, IsTrue, if◌then◌else◌, nat_lt, slice_index};
ghost use Rattle.std.specs.Int.{to_le_bytes, w64};
ghost use Rattle.sqe_cqe.specs.Answers.{HasShape};
ghost use Rattle.ns_table.specs.Positions.{at, PortStamp, SubsystemStamp, IsController, IsGroup, IsNsid, space_at};
ghost use Rattle.ns_table.specs.Looked.{may_be_row, row_in, row_or_off, seen_in, stamp_in, state_in, is_nsid, is_group, is_controller};
ghost use Rattle.section_look.specs.Loaded.{row_from};

use mem_bdev::MAX_DISK_BYTES;
use ns_table::layout::{ns_word, port_stamp_word, subsystem_stamp_word};
use ns_table::rows::Rows;
use sqe_cqe::{Ana, MAX_NSID, NsRow, Seen};

// The words of a row, as they were loaded.
#[derive(Clone, Copy)]
struct RowWords {
    disk: u64,
    shift: u64,
    blocks: u64,
    group: u64,
    uuid: (u64, u64),
    nguid: (u64, u64),
}

// 16 bytes that two words hold, low byte first.
fn identifier(low: u64, high: u64) -> [u8; 16]
    ensures { result ≡ to_le_bytes w64 low ++ to_le_bytes w64 high }
{
    let mut bytes = [0; 16];
    bytes[..8].copy_from_slice(&low.to_le_bytes());
    bytes[8..].copy_from_slice(&high.to_le_bytes());
    bytes
}

// Whether the words can be those of a row.
fn is_row(w: &RowWords) -> bool
    ensures { result ≡ may_be_row (row_from w.now) }
{
    w.disk < 256
        && w.shift < 13
        && w.blocks <= MAX_DISK_BYTES
        && w.blocks << w.shift <= MAX_DISK_BYTES
        && w.group <= 128
}

// The row of these words, or off.
fn seen_row(w: &RowWords) -> Seen
    ensures value { result ≡ row_or_off (row_from w.now) }
    ensures shape { HasShape result }
{
    if !is_row(w) {
        return Seen::Off;
    }
    Seen::On(NsRow {
        disk: w.disk as u8,
        shift: w.shift as u8,
        blocks: w.blocks,
        group: w.group as u8,
        uuid: identifier(w.uuid.0, w.uuid.1),
        nguid: identifier(w.nguid.0, w.nguid.1),
    })
}

// Loads a part of what stands at an NSID.
pub(crate) fn part<R: Rows>(rows: &mut R, sub: u8, nsid: u32, part: u32) -> u64
    requires nsid { IsNsid sub nsid }
    requires part { part < 11 }
    ensures value { result ≡ slice_index (R.words (R.behind rows.old)) (space_at sub nsid + part) }
    ensures behind { R.behind rows.new ≡ R.behind rows.old }
    ensures loads { R.loads rows.new ≤ R.loads rows.old + 1 }
{
    rows.word(ns_word(sub, nsid, part))
}

// Loads two neighbouring parts.
fn pair<R: Rows>(rows: &mut R, sub: u8, nsid: u32, first: u32) -> (u64, u64)
    requires nsid { IsNsid sub nsid }
    requires part { first < 10 }
    ensures low { result.0 ≡ slice_index (R.words (R.behind rows.old)) (space_at sub nsid + first) }
    ensures high { result.1 ≡ slice_index (R.words (R.behind rows.old))
        (space_at sub nsid + (first + 1)) }
    ensures behind { R.behind rows.new ≡ R.behind rows.old }
    ensures loads { R.loads rows.new ≤ R.loads rows.old + 2 }
{
    let low = part(rows, sub, nsid, first);
    let high = part(rows, sub, nsid, first + 1);
    (low, high)
}

// Loads the words of a row.
fn load_row<R: Rows>(rows: &mut R, sub: u8, nsid: u32) -> RowWords
    requires { IsNsid sub nsid }
    ensures value { row_from result ≡ row_in (R.words (R.behind rows.old)) (space_at sub nsid) }
    ensures behind { R.behind rows.new ≡ R.behind rows.old }
    ensures loads { R.loads rows.new ≤ R.loads rows.old + 8 }
{
    let (disk, shift) = pair(rows, sub, nsid, 1);
    let (blocks, group) = pair(rows, sub, nsid, 3);
    let uuid = pair(rows, sub, nsid, 5);
    let nguid = pair(rows, sub, nsid, 7);
    RowWords {
        disk,
        shift,
        blocks,
        group,
        uuid,
        nguid,
    }
}

// What stands at an NSID.
pub(crate) fn seen_at<R: Rows>(rows: &mut R, sub: u8, nsid: u32) -> Seen
    requires { IsNsid sub nsid }
    ensures value { result ≡ seen_in (R.words (R.behind rows.old)) (space_at sub nsid) }
    ensures behind { R.behind rows.new ≡ R.behind rows.old }
    ensures shape { HasShape result }
    ensures loads { R.loads rows.new ≤ R.loads rows.old + 9 }
{
    let phase = part(rows, sub, nsid, 0);
    if phase == 2 {
        let row = load_row(rows, sub, nsid);
        return seen_row(&row);
    }
    if phase == 1 {
        return Seen::Off;
    }
    Seen::NotConfigured
}

// The state that a word tells.
pub(crate) fn state_of(word: u64) -> Ana
    ensures { result ≡ state_in word }
{
    match word {
        1 => Ana::Optimized,
        2 => Ana::NonOptimized,
        4 => Ana::PersistentLoss,
        15 => Ana::Changing,
        _ => Ana::Inaccessible,
    }
}

pub(crate) fn has_nsid(sub: u8, nsid: u32) -> bool
    ensures test { result ≡ is_nsid sub nsid }
    ensures meant { IsTrue result → IsNsid sub nsid }
{
    sub < 16 && (0 < nsid && nsid < MAX_NSID + 1)
}

pub(crate) fn has_group(port: u8, group: u32) -> bool
    ensures test { result ≡ is_group port group }
    ensures meant { IsTrue result → IsGroup port group }
{
    port < 8 && (0 < group && group < 129)
}

pub(crate) fn has_controller(ctrl: u16) -> bool
    ensures test { result ≡ is_controller ctrl }
    ensures meant { IsTrue result → IsController ctrl }
{
    0 < ctrl && ctrl < 32
}

// The stamp that a word tells.
pub(crate) fn stamp_of(word: u64) -> u32
    ensures { result ≡ stamp_in word }
{
    (word % 0x1_0000_0000) as u32
}

// The stamp of the ANA changes of the subsystem at a position.
pub(crate) fn subsystem_stamp<R: Rows>(rows: &mut R, sub: u8) -> u32
    ensures value { result ≡ (if nat_lt sub 16
        then stamp_in (slice_index (R.words (R.behind rows.old)) (at (SubsystemStamp sub)))
        else 0) }
    ensures behind { R.behind rows.new ≡ R.behind rows.old }
{
    if sub < 16 {
        stamp_of(rows.word(subsystem_stamp_word(sub)))
    } else {
        0
    }
}

// The stamp of the ANA changes of the port at a position.
pub(crate) fn port_stamp<R: Rows>(rows: &mut R, port: u8) -> u32
    ensures value { result ≡ (if nat_lt port 8
        then stamp_in (slice_index (R.words (R.behind rows.old)) (at (PortStamp port))) else 0) }
    ensures behind { R.behind rows.new ≡ R.behind rows.old }
{
    if port < 8 {
        stamp_of(rows.word(port_stamp_word(port)))
    } else {
        0
    }
}
