//! A look at a configuration that is shown as words.
ghost use Rattle.std.specs.Prelude.{◌≡◌, ◌≤◌, ◌<◌, ◌+◌, ◌++◌, IsTrue, if◌then◌else◌, nat_lt, slice_index};
ghost use Rattle.std.specs.Int.{to_le_bytes, w64};
ghost use Rattle.sqe_cqe.specs.Answers.{HasShape};
ghost use Rattle.ns_table.specs.Positions.{at, PortStamp, SubsystemStamp, IsController, IsGroup, IsNsid, space_at};
ghost use Rattle.ns_table.specs.Looked.{may_be_row, row_in, row_or_off, seen_in, stamp_in, state_in, words_answers, is_nsid, is_group, is_controller};
ghost use Rattle.ns_table.specs.Loaded.{row_from};

use crate::layout::{
    ana_word, changes_word, ns_word, port_stamp_word, ready_word, subsystem_stamp_word,
};
use crate::rows::Rows;
use mem_bdev::MAX_DISK_BYTES;
use sqe_cqe::{Ana, Look, MAX_NSID, NsRow, Offers, Seen};

// The words of a row, as they were loaded.
#[derive(Clone, Copy)]
struct RowWords {
    disk: u64,
    shift: u64,
    blocks: u64,
    group: u64,
    uuid: (u64, u64),
    nguid: (u64, u64),
}

// 16 bytes that two words hold, low byte first.
fn identifier(low: u64, high: u64) -> [u8; 16]
    ensures { result ≡ to_le_bytes w64 low ++ to_le_bytes w64 high }
{
    let mut bytes = [0; 16];
    bytes[..8].copy_from_slice(&low.to_le_bytes());
    bytes[8..].copy_from_slice(&high.to_le_bytes());
    bytes
}

// Whether the words can be those of a row.
fn is_row(w: &RowWords) -> bool
    ensures { result ≡ may_be_row (row_from w.now) }
{
    w.disk < 256
        && w.shift < 13
        && w.blocks <= MAX_DISK_BYTES
        && w.blocks << w.shift <= MAX_DISK_BYTES
        && w.group <= 128
}

// The row of these words, or off.
fn seen_row(w: &RowWords) -> Seen
    ensures value { result ≡ row_or_off (row_from w.now) }
    ensures shape { HasShape result }
{
    if !is_row(w) {
        return Seen::Off;
    }
    Seen::On(NsRow {
        disk: w.disk as u8,
        shift: w.shift as u8,
        blocks: w.blocks,
        group: w.group as u8,
        uuid: identifier(w.uuid.0, w.uuid.1),
        nguid: identifier(w.nguid.0, w.nguid.1),
    })
}

// Loads a part of what stands at an NSID.
fn part<R: Rows>(rows: &mut R, sub: u8, nsid: u32, part: u32) -> u64
    requires nsid { IsNsid sub nsid }
    requires part { part < 11 }
    ensures value { result ≡ slice_index (R.words (R.behind rows.old)) (space_at sub nsid + part) }
    ensures behind { R.behind rows.new ≡ R.behind rows.old }
    ensures loads { R.loads rows.new ≤ R.loads rows.old + 1 }
{
    rows.word(ns_word(sub, nsid, part))
}

// Loads two neighbouring parts.
fn pair<R: Rows>(rows: &mut R, sub: u8, nsid: u32, first: u32) -> (u64, u64)
    requires nsid { IsNsid sub nsid }
    requires part { first < 10 }
    ensures low { result.0 ≡ slice_index (R.words (R.behind rows.old)) (space_at sub nsid + first) }
    ensures high { result.1 ≡ slice_index (R.words (R.behind rows.old))
        (space_at sub nsid + (first + 1)) }
    ensures behind { R.behind rows.new ≡ R.behind rows.old }
    ensures loads { R.loads rows.new ≤ R.loads rows.old + 2 }
{
    let low = part(rows, sub, nsid, first);
    let high = part(rows, sub, nsid, first + 1);
    (low, high)
}

// Loads the words of a row.
fn load_row<R: Rows>(rows: &mut R, sub: u8, nsid: u32) -> RowWords
    requires { IsNsid sub nsid }
    ensures value { row_from result ≡ row_in (R.words (R.behind rows.old)) (space_at sub nsid) }
    ensures behind { R.behind rows.new ≡ R.behind rows.old }
    ensures loads { R.loads rows.new ≤ R.loads rows.old + 8 }
{
    let (disk, shift) = pair(rows, sub, nsid, 1);
    let (blocks, group) = pair(rows, sub, nsid, 3);
    let uuid = pair(rows, sub, nsid, 5);
    let nguid = pair(rows, sub, nsid, 7);
    RowWords {
        disk,
        shift,
        blocks,
        group,
        uuid,
        nguid,
    }
}

// What stands at an NSID.
fn seen_at<R: Rows>(rows: &mut R, sub: u8, nsid: u32) -> Seen
    requires { IsNsid sub nsid }
    ensures value { result ≡ seen_in (R.words (R.behind rows.old)) (space_at sub nsid) }
    ensures behind { R.behind rows.new ≡ R.behind rows.old }
    ensures shape { HasShape result }
    ensures loads { R.loads rows.new ≤ R.loads rows.old + 9 }
{
    let phase = part(rows, sub, nsid, 0);
    if phase == 2 {
        let row = load_row(rows, sub, nsid);
        return seen_row(&row);
    }
    if phase == 1 {
        return Seen::Off;
    }
    Seen::NotConfigured
}

// The state that a word tells.
fn state_of(word: u64) -> Ana
    ensures { result ≡ state_in word }
{
    match word {
        1 => Ana::Optimized,
        2 => Ana::NonOptimized,
        4 => Ana::PersistentLoss,
        15 => Ana::Changing,
        _ => Ana::Inaccessible,
    }
}

pub(crate) fn has_nsid(sub: u8, nsid: u32) -> bool
    ensures test { result ≡ is_nsid sub nsid }
    ensures meant { IsTrue result → IsNsid sub nsid }
{
    sub < 16 && (0 < nsid && nsid < MAX_NSID + 1)
}

pub(crate) fn has_group(port: u8, group: u32) -> bool
    ensures test { result ≡ is_group port group }
    ensures meant { IsTrue result → IsGroup port group }
{
    port < 8 && (0 < group && group < 129)
}

pub(crate) fn has_controller(ctrl: u16) -> bool
    ensures test { result ≡ is_controller ctrl }
    ensures meant { IsTrue result → IsController ctrl }
{
    0 < ctrl && ctrl < 32
}

// The stamp that a word tells.
fn stamp_of(word: u64) -> u32
    ensures { result ≡ stamp_in word }
{
    (word % 0x1_0000_0000) as u32
}

// The stamp of the ANA changes of the subsystem at a position.
fn subsystem_stamp<R: Rows>(rows: &mut R, sub: u8) -> u32
    ensures value { result ≡ (if nat_lt sub 16
        then stamp_in (slice_index (R.words (R.behind rows.old)) (at (SubsystemStamp sub)))
        else 0) }
    ensures behind { R.behind rows.new ≡ R.behind rows.old }
{
    if sub < 16 {
        stamp_of(rows.word(subsystem_stamp_word(sub)))
    } else {
        0
    }
}

// The stamp of the ANA changes of the port at a position.
fn port_stamp<R: Rows>(rows: &mut R, port: u8) -> u32
    ensures value { result ≡ (if nat_lt port 8
        then stamp_in (slice_index (R.words (R.behind rows.old)) (at (PortStamp port))) else 0) }
    ensures behind { R.behind rows.new ≡ R.behind rows.old }
{
    if port < 8 {
        stamp_of(rows.word(port_stamp_word(port)))
    } else {
        0
    }
}

/// A look at the words of a configuration. What it answers is a function of them and of their
/// serial, which `look_of_words_is_the_trees` says is what the configuration answers.
#[derive(Drop)]
pub struct RowLook<R> {
    /// The words.
    pub rows: R,
}

impl<R: Rows> Look for RowLook<R> {
    ghost Behind = { R.Behind };

    ghost behind = { λ s. R.behind s.rows };

    ghost told = { λ b. words_answers (R.words b) (R.published b) };

    ghost loads = { λ s. R.loads s.rows };

    fn ready(&mut self, ctrl: u16) -> bool {
        if !has_controller(ctrl) {
            return false;
        }
        self.rows.word(ready_word(ctrl)) != 0
    }

    fn ns(&mut self, sub: u8, nsid: u32) -> Seen {
        if !has_nsid(sub, nsid) {
            return Seen::NotConfigured;
        }
        seen_at(&mut self.rows, sub, nsid)
    }

    fn ana(&mut self, port: u8, group: u32) -> Ana {
        if !has_group(port, group) {
            return Ana::Inaccessible;
        }
        state_of(self.rows.word(ana_word(port, group)))
    }

    fn group_made(&mut self, port: u8, group: u32) -> bool {
        if !has_group(port, group) {
            return false;
        }
        self.rows.word(ana_word(port, group)) != 0
    }

    fn ns_stamp(&mut self, sub: u8, nsid: u32) -> u32 {
        if !has_nsid(sub, nsid) {
            return 0;
        }
        stamp_of(part(&mut self.rows, sub, nsid, 10))
    }

    fn ana_stamp(&mut self, sub: u8, port: u8) -> u32 {
        let of_sub = subsystem_stamp(&mut self.rows, sub);
        let of_port = port_stamp(&mut self.rows, port);
        of_sub.max(of_port)
    }

    fn ana_count(&mut self) -> u64 {
        self.rows.word(changes_word())
    }

    fn serial(&mut self) -> u32 {
        self.rows.serial()
    }

    fn bars(&mut self, _ctrl: u16, _sub: u8, _nsid: u32, _opcode: u8) -> u16 {
        0
    }

    fn offers(&mut self) -> Offers {
        Offers {
            nsids: MAX_NSID,
            oncs: 0x0008,
            nwpc: 0,
            rescap: 0,
        }
    }

    fn marks(&mut self, _sub: u8, _nsid: u32) -> u8 {
        0
    }

    fn group_count(&mut self, _port: u8, _sub: u8, _group: u32) -> u64 {
        self.rows.word(changes_word())
    }
}
