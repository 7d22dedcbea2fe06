use crate::admin::{
    ANA, Command, NAMESPACE, completes, connect, polls, read_changed, request, submit,
};
use crate::edits::{make_space, set_space, set_state, turn, two_subsystems};
use configfs_tree::Attr;
use look_tests::{Fields, first_uncounted, first_wrong};
use std::alloc::Global;
use std::process::Abort;
use std::test::Fail;
use tree_target::Target;

// A page of log 04h must list these NSIDs, rising, and nothing else.
fn lists(rt: &impl Abort, page: &[u8], nsids: Fields<'_>) {
    assert_eq!(rt; page.len(), 4096);
    assert_eq!(rt; first_wrong(page, nsids), None);
}

const NOTHING: Fields<'static> = &[];

const ONE: Fields<'static> = &[("NSID", 0, &[1, 0, 0, 0])];

const TWO: Fields<'static> = &[("NSID", 0, &[2, 0, 0, 0])];

const TOO_MANY: Fields<'static> = &[("NSID", 0, &[0xff, 0xff, 0xff, 0xff])];

// Namespaces 1 and 2 of `s` on a disk each: 1 is enabled and 2 is off. Queue 1 is the admin queue of a
// controller of `s`.
fn two_spaces(rt: &impl Abort, alloc: Global) -> Target {
    let mut target = two_subsystems(rt, alloc);
    make_space(rt, alloc, &mut target, (b"s", 1), b"/dev/ram0");
    make_space(rt, alloc, &mut target, (b"s", 2), b"/dev/ram1");
    turn(rt, alloc, &mut target, (b"s", 1), true);
    connect(rt, &mut target, 1, b"s", 1);
    target
}

#[test]
fn requests_wait_and_notices_come(rt: HostRuntime) -> Result<(), Fail> {
    let alloc = rt.alloc();
    let mut target = two_spaces(&rt, alloc);
    for cid in 10..14 {
        request(&rt, alloc, &mut target, 1, cid);
    }
    let (fifth, _) = submit(&rt, alloc, &mut target, 1, 14, &(0x0c, [0; 4], 0));
    completes(&rt, &fifth, 14, 0x820a, 0);
    polls(&rt, &mut target, 1, None);
    turn(&rt, alloc, &mut target, (b"s", 2), true);
    polls(&rt, &mut target, 1, Some((13, NAMESPACE)));
    polls(&rt, &mut target, 1, None);
    turn(&rt, alloc, &mut target, (b"s", 1), false);
    polls(&rt, &mut target, 1, None);
    let _read = read_changed(&rt, alloc, &mut target, 1, false);
    polls(&rt, &mut target, 1, None);
    turn(&rt, alloc, &mut target, (b"s", 1), true);
    polls(&rt, &mut target, 1, Some((12, NAMESPACE)));
    polls(&rt, &mut target, 1, None);
    set_state(&rt, alloc, &mut target, b"inaccessible");
    polls(&rt, &mut target, 1, Some((11, ANA)));
    polls(&rt, &mut target, 1, None);
    Ok(())
}

#[test]
fn both_kinds_are_told(rt: HostRuntime) -> Result<(), Fail> {
    let alloc = rt.alloc();
    let mut target = two_spaces(&rt, alloc);
    // the ANA change comes first, and its notice second
    set_state(&rt, alloc, &mut target, b"change");
    turn(&rt, alloc, &mut target, (b"s", 2), true);
    request(&rt, alloc, &mut target, 1, 20);
    request(&rt, alloc, &mut target, 1, 21);
    polls(&rt, &mut target, 1, Some((21, NAMESPACE)));
    polls(&rt, &mut target, 1, Some((20, ANA)));
    // a namespace that moves to another group is an ANA change
    request(&rt, alloc, &mut target, 1, 22);
    set_space(&rt, alloc, &mut target, (b"s", 1), Attr::AnaGrpid, b"2");
    polls(&rt, &mut target, 1, None);
    let (read, _) = submit(
        &rt,
        alloc,
        &mut target,
        1,
        9,
        &(0x02, [0x0000_000c, 0, 0, 0], 4),
    );
    completes(&rt, &read, 9, 0, 0);
    set_space(&rt, alloc, &mut target, (b"s", 1), Attr::AnaGrpid, b"2");
    polls(&rt, &mut target, 1, None);
    set_space(&rt, alloc, &mut target, (b"s", 1), Attr::AnaGrpid, b"1");
    polls(&rt, &mut target, 1, Some((22, ANA)));
    Ok(())
}

#[test]
fn bits_that_are_off_raise_nothing(rt: HostRuntime) -> Result<(), Fail> {
    let alloc = rt.alloc();
    let mut target = two_spaces(&rt, alloc);
    request(&rt, alloc, &mut target, 1, 30);
    let features: [(Command, u64); 3] = [
        ((0x0a, [0x0b, 0, 0, 0], 0), 0x900),
        ((0x09, [0x0b, 0x800, 0, 0], 0), 0),
        ((0x0a, [0x0b, 0, 0, 0], 0), 0x800),
    ];
    for (command, value) in &features {
        let (reply, _) = submit(&rt, alloc, &mut target, 1, 9, command);
        completes(&rt, &reply, 9, 0, *value);
    }
    turn(&rt, alloc, &mut target, (b"s", 2), true);
    let (on, _) = submit(
        &rt,
        alloc,
        &mut target,
        1,
        9,
        &(0x09, [0x0b, 0x900, 0, 0], 0),
    );
    completes(&rt, &on, 9, 0, 0);
    polls(&rt, &mut target, 1, None);
    // the changed list has it all the same
    lists(
        &rt,
        read_changed(&rt, alloc, &mut target, 1, true).bytes(),
        TWO,
    );
    turn(&rt, alloc, &mut target, (b"s", 2), false);
    polls(&rt, &mut target, 1, Some((30, NAMESPACE)));
    Ok(())
}

#[test]
fn a_namespace_is_listed_once(rt: HostRuntime) -> Result<(), Fail> {
    let alloc = rt.alloc();
    let mut target = two_spaces(&rt, alloc);
    lists(
        &rt,
        read_changed(&rt, alloc, &mut target, 1, false).bytes(),
        NOTHING,
    );
    turn(&rt, alloc, &mut target, (b"s", 1), false);
    turn(&rt, alloc, &mut target, (b"s", 1), true);
    lists(
        &rt,
        read_changed(&rt, alloc, &mut target, 1, true).bytes(),
        ONE,
    );
    lists(
        &rt,
        read_changed(&rt, alloc, &mut target, 1, false).bytes(),
        ONE,
    );
    lists(
        &rt,
        read_changed(&rt, alloc, &mut target, 1, true).bytes(),
        NOTHING,
    );
    Ok(())
}

#[test]
fn changes_are_of_one_subsystem(rt: HostRuntime) -> Result<(), Fail> {
    let alloc = rt.alloc();
    let mut target = two_spaces(&rt, alloc);
    make_space(&rt, alloc, &mut target, (b"u", 1), b"/dev/ram2");
    connect(&rt, &mut target, 2, b"u", 2);
    request(&rt, alloc, &mut target, 1, 40);
    request(&rt, alloc, &mut target, 2, 41);
    turn(&rt, alloc, &mut target, (b"u", 1), true);
    polls(&rt, &mut target, 1, None);
    lists(
        &rt,
        read_changed(&rt, alloc, &mut target, 1, true).bytes(),
        NOTHING,
    );
    polls(&rt, &mut target, 2, Some((41, NAMESPACE)));
    lists(
        &rt,
        read_changed(&rt, alloc, &mut target, 2, true).bytes(),
        ONE,
    );
    // the port is of both
    request(&rt, alloc, &mut target, 2, 42);
    set_state(&rt, alloc, &mut target, b"persistent-loss");
    polls(&rt, &mut target, 1, Some((40, ANA)));
    polls(&rt, &mut target, 2, Some((42, ANA)));
    Ok(())
}

// Makes namespaces on one disk, and enables and disables each before the next.
fn handle(rt: &impl Abort, alloc: Global, target: &mut Target, first: u32, end: u32) {
    for nsid in first..end {
        make_space(rt, alloc, target, (b"s", nsid), b"/dev/ram0");
        turn(rt, alloc, target, (b"s", nsid), true);
        turn(rt, alloc, target, (b"s", nsid), false);
    }
}

#[test]
fn a_list_of_more_than_1024_says_so(rt: HostRuntime) -> Result<(), Fail> {
    let alloc = rt.alloc();
    let mut target = two_subsystems(&rt, alloc);
    connect(&rt, &mut target, 1, b"s", 1);
    handle(&rt, alloc, &mut target, 1, 1025);
    for _time in 0..2 {
        let to = read_changed(&rt, alloc, &mut target, 1, true);
        assert_eq!(rt; to.bytes().len(), 4096);
        assert_eq!(rt; first_uncounted(to.bytes(), 1, 1024), None);
    }
    handle(&rt, alloc, &mut target, 1025, 1026);
    for _time in 0..2 {
        lists(
            &rt,
            read_changed(&rt, alloc, &mut target, 1, true).bytes(),
            TOO_MANY,
        );
    }
    lists(
        &rt,
        read_changed(&rt, alloc, &mut target, 1, false).bytes(),
        TOO_MANY,
    );
    lists(
        &rt,
        read_changed(&rt, alloc, &mut target, 1, true).bytes(),
        NOTHING,
    );
    Ok(())
}

// NSIDs 1 and 2 in group 1, which is optimized, after no ANA change.
const ANA_LOG: Fields<'static> = &[
    ("number of groups", 8, &[1, 0]),
    ("group", 16, &[1, 0, 0, 0]),
    ("number of NSIDs", 20, &[2, 0, 0, 0]),
    ("state", 32, &[1]),
    ("NSIDs", 48, &[1, 0, 0, 0, 2, 0, 0, 0]),
];

// The same after one ANA change, to inaccessible.
const ANA_CHANGED: Fields<'static> = &[
    ("change count", 0, &[1]),
    ("number of groups", 8, &[1, 0]),
    ("group", 16, &[1, 0, 0, 0]),
    ("number of NSIDs", 20, &[2, 0, 0, 0]),
    ("change count", 24, &[1]),
    ("state", 32, &[3]),
    ("NSIDs", 48, &[1, 0, 0, 0, 2, 0, 0, 0]),
];

const GROUPS_ONLY: Fields<'static> = &[
    ("number of groups", 8, &[1, 0]),
    ("group", 16, &[1, 0, 0, 0]),
    ("state", 32, &[1]),
];

const FROM_16: Fields<'static> = &[
    ("group", 0, &[1, 0, 0, 0]),
    ("number of NSIDs", 4, &[2, 0, 0, 0]),
    ("state", 16, &[1]),
    ("NSIDs", 32, &[1, 0, 0, 0, 2, 0, 0, 0]),
];

// Dwords 10 to 13, SGL length, and what is read.
const READS: &[([u32; 4], u32, Fields<'static>)] = &[
    ([0x000d_000c, 0, 0, 0], 56, ANA_LOG),
    ([0x000b_010c, 0, 0, 0], 48, GROUPS_ONLY),
    ([0x0009_000c, 0, 16, 0], 40, FROM_16),
    ([0x0009_000c, 0, 64, 0], 40, NOTHING),
    ([0x000d_000c, 0, 0xffff_fffc, 0xffff_ffff], 56, NOTHING),
];

// Dwords 10 to 13, SGL length, status.
const REFUSED: &[([u32; 4], u32, u16)] = &[
    ([0x000d_000c, 0, 2, 0], 56, 0x8004),
    ([0x000d_0002, 0, 0, 0], 56, 0x8004),
    ([0x000d_000c, 0, 0xffff_fffe, 0xffff_ffff], 56, 0x8004),
    ([0x000d_000c, 0, 0, 0], 52, 0x801e),
    ([0xffff_000c, 0xffff, 0, 0], 56, 0x801e),
    ([0xffff_000c, 0xffff, 2, 0], 56, 0x8004),
];

// Reads a part of a log, which must be this.
fn reads(
    rt: &impl Abort,
    alloc: Global,
    target: &mut Target,
    dwords: [u32; 4],
    len: u32,
    fields: Fields<'_>,
) {
    let (reply, to) = submit(rt, alloc, target, 1, 9, &(0x02, dwords, len));
    completes(rt, &reply, 9, 0, 0);
    assert_eq!(rt; to.bytes().len(), len as usize);
    assert_eq!(rt; first_wrong(to.bytes(), fields), None);
}

#[test]
fn the_ana_log_is_of_the_whole_target(rt: HostRuntime) -> Result<(), Fail> {
    let alloc = rt.alloc();
    let mut target = two_spaces(&rt, alloc);
    turn(&rt, alloc, &mut target, (b"s", 2), true);
    for (dwords, len, fields) in READS.iter() {
        reads(&rt, alloc, &mut target, *dwords, *len, *fields);
    }
    for (dwords, len, status) in REFUSED.iter() {
        let (reply, to) = submit(&rt, alloc, &mut target, 1, 9, &(0x02, *dwords, *len));
        completes(&rt, &reply, 9, *status, 0);
        assert_eq!(rt; to.bytes().len(), 0);
    }
    // the value that stands counts no change
    set_state(&rt, alloc, &mut target, b"optimized");
    reads(&rt, alloc, &mut target, [0x000d_000c, 0, 0, 0], 56, ANA_LOG);
    set_state(&rt, alloc, &mut target, b"inaccessible");
    reads(
        &rt,
        alloc,
        &mut target,
        [0x000d_000c, 0, 0, 0],
        56,
        ANA_CHANGED,
    );
    Ok(())
}
