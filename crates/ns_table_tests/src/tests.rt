use crate::made::At::{Group, Port, Space, Sub};
use crate::made::{At, empty, make, set};
use change_stamps::ChangeStamps;
use configfs_tree::Attr::*;
use configfs_tree::{Attr, Tree};
use mem_bdev::Disk;
use ns_table::layout::{ana_word, changes_word, ns_word, port_stamp_word, ready_word, shown_word};
use ns_table::look::RowLook;
use ns_table::opening::{opened_words, opening};
use ns_table::patches::{Patch, fits, put_change};
use ns_table::rows::ListedRows;
use sqe_cqe::{Controllers, Look};
use std::alloc::Global;
use std::process::Abort;
use std::test::Fail;
use tree_target::TreeLook;

const MADE: &[At] = &[
    Sub("s"),
    Sub("r"),
    Space("s", 1),
    Space("s", 7),
    Space("r", 2048),
    Port(1),
    Port(9),
    Group(1, 2),
    Group(9, 128),
];

const SET: &[(At, Attr, &str)] = &[
    (Space("s", 1), DevicePath, "/dev/ram0"),
    (
        Space("s", 1),
        DeviceUuid,
        "00112233-4455-6677-8899-aabbccddeeff",
    ),
    (Space("s", 1), Enable, "1"),
    (Space("r", 2048), DevicePath, "/dev/ram1"),
    (Space("r", 2048), AnaGrpid, "2"),
    (Space("r", 2048), Enable, "1"),
    (Group(1, 2), AnaState, "change"),
];

fn configured(rt: &impl Abort, alloc: Global) -> Tree {
    let mut tree = empty(rt, alloc);
    for at in MADE {
        let _ = make(rt, alloc, &mut tree, *at);
    }
    for (at, attr, value) in SET {
        let _ = set(rt, alloc, &mut tree, *at, *attr, value);
    }
    tree
}

fn disks(alloc: Global) -> Result<Vec<Disk>, Fail> {
    let mut disks = Vec::new(alloc);
    disks.push(Disk::new(alloc, 9, 16)?)?;
    disks.push(Disk::new(alloc, 12, 8)?)?;
    Ok(disks)
}

// The word at a position is this.
fn check(rt: &impl Abort, words: &[u64], at: u32, want: u64) {
    assert_eq!(rt; words.get(at as usize).copied(), Some(want), "word {at}");
}

// The parts of an NSID are these.
fn check_space(rt: &impl Abort, words: &[u64], sub: u8, nsid: u32, want: &[u64]) {
    assert!(rt; sub < 16 && nsid >= 1 && nsid <= 2048);
    assert_eq!(rt; want.len(), 11);
    for part in 0..11 {
        check(rt, words, ns_word(sub, nsid, part), want[part as usize]);
    }
}

#[test]
fn words_stand_at_their_positions(rt: HostRuntime) -> Result<(), Fail> {
    let tree = configured(&rt, rt.alloc());
    let controllers = Controllers::simple(rt.alloc())?;
    let disks = disks(rt.alloc())?;
    let words = opened_words(rt.alloc(), &tree, &controllers, &disks)?;
    assert_eq!(rt; words.len(), 361_592);
    check(&rt, &words, shown_word(0), 1);
    check(&rt, &words, shown_word(1), 1);
    check(&rt, &words, shown_word(2), 0);
    check(&rt, &words, ready_word(1), 1);
    check(&rt, &words, ready_word(2), 0);
    check(&rt, &words, changes_word(), 4);
    check(&rt, &words, ana_word(0, 1), 1);
    check(&rt, &words, ana_word(0, 2), 15);
    check(&rt, &words, ana_word(0, 3), 0);
    check(&rt, &words, ana_word(1, 128), 3);
    let first = [
        2,
        0,
        9,
        16,
        1,
        0x7766_5544_3322_1100,
        0xFFEE_DDCC_BBAA_9988,
        0,
        0,
        0,
        0,
    ];
    check_space(&rt, &words, 0, 1, &first);
    check_space(&rt, &words, 0, 2, &[0, 0, 0, 0, 0, 0, 0, 0, 0, 0, 0]);
    check_space(&rt, &words, 0, 7, &[1, 0, 0, 0, 0, 0, 0, 0, 0, 0, 0]);
    check_space(&rt, &words, 1, 2048, &[2, 1, 12, 8, 2, 0, 0, 0, 0, 0, 0]);
    Ok(())
}

// Both looks answer alike for an NSID of a subsystem.
fn same_space<L: Look, M: Look>(rt: &impl Abort, a: &mut L, b: &mut M, sub: u8, nsid: u32) {
    assert_eq!(rt; a.ns(sub, nsid), b.ns(sub, nsid), "NSID {nsid} of {sub}");
    assert_eq!(rt; a.ns_stamp(sub, nsid), b.ns_stamp(sub, nsid));
    assert_eq!(rt; a.marks(sub, nsid), b.marks(sub, nsid));
    assert_eq!(rt; a.bars(1, sub, nsid, 1), b.bars(1, sub, nsid, 1));
}

// Both looks answer alike for a group of a port.
fn same_group<L: Look, M: Look>(rt: &impl Abort, a: &mut L, b: &mut M, port: u8, group: u32) {
    assert_eq!(rt;
        a.ana(port, group),
        b.ana(port, group),
        "group {group} of {port}"
    );
    assert_eq!(rt; a.group_made(port, group), b.group_made(port, group));
    assert_eq!(rt;
        a.group_count(port, 0, group),
        b.group_count(port, 0, group)
    );
    assert_eq!(rt; a.ana_stamp(0, port), b.ana_stamp(0, port));
}

// Both looks answer alike, within the limits and beside them.
fn same_looks<L: Look, M: Look>(rt: &impl Abort, a: &mut L, b: &mut M) {
    for ctrl in 0..40 {
        assert_eq!(rt; a.ready(ctrl), b.ready(ctrl), "controller {ctrl}");
    }
    for nsid in 0..2_050 {
        for sub in 0..4 {
            same_space(rt, a, b, sub, nsid);
        }
        same_space(rt, a, b, 255, nsid);
    }
    for group in 0..131 {
        for port in 0..10 {
            same_group(rt, a, b, port, group);
        }
    }
    assert_eq!(rt; a.ana_count(), b.ana_count());
    assert_eq!(rt; a.serial(), b.serial());
    assert_eq!(rt; a.offers(), b.offers());
}

#[test]
fn the_look_of_words_is_the_look_of_the_tree(rt: HostRuntime) -> Result<(), Fail> {
    let tree = configured(&rt, rt.alloc());
    let controllers = Controllers::simple(rt.alloc())?;
    let disks = disks(rt.alloc())?;
    let words = opened_words(rt.alloc(), &tree, &controllers, &disks)?;
    assert_eq!(rt; words.len(), 361_592);
    let stamps = ChangeStamps::new(rt.alloc())?;
    let rows = ListedRows {
        words: &words,
        serial: 0,
    };
    let mut by_words = RowLook { rows };
    let mut by_tree = TreeLook::new(&tree, &controllers, &disks, &stamps);
    same_looks(&rt, &mut by_words, &mut by_tree);
    Ok(())
}

#[test]
fn a_table_is_opened_with_words_slots_and_quotas(rt: HostRuntime) -> Result<(), Fail> {
    let tree = configured(&rt, rt.alloc());
    let controllers = Controllers::simple(rt.alloc())?;
    let disks = Vec::new(rt.alloc());
    let quotas = [9, 4].to_vec(rt.alloc())?;
    let opened = opening(rt.alloc(), &tree, &controllers, &disks, quotas)?;
    assert_eq!(rt; opened.rows.len(), 361_592);
    assert_eq!(rt; opened.slots.len(), 0);
    assert_eq!(rt; opened.quotas.as_slice(), [9, 4].as_slice());
    Ok(())
}

// Puts a patch's words in place.
fn put_words(rt: &impl Abort, words: &mut [u64], patch: &Patch) {
    for (at, word) in patch.words() {
        let at = *at as usize;
        assert!(rt; at < words.len());
        words[at] = *word;
    }
}

// Whether the word at a position is a stamp, which fresh words have as 0.
fn is_stamp(at: usize) -> bool {
    (at >= 96 && at < 120) || (at >= 1_144 && (at - 1_144) % 11 == 10)
}

// The words are those of the tree as it is, but for stamps.
fn check_fresh(rt: &impl Abort, words: &[u64], fresh: &[u64]) {
    assert_eq!(rt; words.len(), fresh.len());
    for at in 0..words.len() {
        assert!(rt; is_stamp(at) || words[at] == fresh[at], "word {at}");
    }
}

const EDITS: &[(At, Attr, &str)] = &[
    (Space("s", 1), DevicePath, "/dev/ram0"),
    (
        Space("s", 1),
        DeviceNguid,
        "00112233-4455-6677-8899-aabbccddeeff",
    ),
    (Space("s", 1), Enable, "1"),
    (Space("s", 1), Enable, "1"),
    (Space("s", 7), AnaGrpid, "2"),
    (Group(1, 2), AnaState, "persistent-loss"),
    (Port(9), Trtype, "loop"),
    (Space("s", 1), Enable, "0"),
    (Space("r", 2048), DevicePath, "/dev/ram1"),
    (Space("r", 2048), Enable, "1"),
];

#[test]
fn patched_words_are_those_of_a_fresh_opening(rt: HostRuntime) -> Result<(), Fail> {
    let mut tree = empty(&rt, rt.alloc());
    let controllers = Controllers::simple(rt.alloc())?;
    let disks = disks(rt.alloc())?;
    let mut words = opened_words(rt.alloc(), &tree, &controllers, &disks)?;
    let mut patch = Patch::new(rt.alloc())?;
    let mut stamps = ChangeStamps::new(rt.alloc())?;
    for at in MADE {
        let change = make(&rt, rt.alloc(), &mut tree, *at);
        stamps.note(&change);
        assert!(rt; fits(&change));
        put_change(&tree, &controllers, &disks, &stamps, &change, &mut patch);
        put_words(&rt, &mut words, &patch);
        let fresh = opened_words(rt.alloc(), &tree, &controllers, &disks)?;
        check_fresh(&rt, &words, &fresh);
    }
    for (at, attr, value) in EDITS {
        let change = set(&rt, rt.alloc(), &mut tree, *at, *attr, value);
        stamps.note(&change);
        assert!(rt; fits(&change));
        put_change(&tree, &controllers, &disks, &stamps, &change, &mut patch);
        put_words(&rt, &mut words, &patch);
        let fresh = opened_words(rt.alloc(), &tree, &controllers, &disks)?;
        check_fresh(&rt, &words, &fresh);
    }
    // the last published change of namespace 1 of s is the 16th, of port 1 the 14th
    check(&rt, &words, ns_word(0, 1, 10), 16);
    check(&rt, &words, port_stamp_word(0), 14);
    check(&rt, &words, shown_word(0), 0);
    check(&rt, &words, shown_word(1), 1);
    assert_eq!(rt; words.len(), 361_592);
    let rows = ListedRows {
        words: &words,
        serial: stamps.serial(),
    };
    let mut by_words = RowLook { rows };
    let mut by_tree = TreeLook::new(&tree, &controllers, &disks, &stamps);
    same_looks(&rt, &mut by_words, &mut by_tree);
    Ok(())
}
