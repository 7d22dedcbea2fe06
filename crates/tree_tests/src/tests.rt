// The table is run from the empty tree on, with links, a drain's end and a controller between.
use crate::edit_rows::{MADE, NAMESPACE_SET, PORT_SET, REMOVED, Row, SUBSYSTEM_SET, TURNS};
use crate::edits::{edit, name, tells_text};
use crate::whole::{Lines, difference, list_whole};
use configfs_tree::{Phase, Refused, Tree, may_be_disks};
use mem_bdev::{DiskLine, Name};
use std::alloc::Global;
use std::process::Abort;

fn line(rt: &impl Abort, alloc: Global, path: &str) -> DiskLine {
    DiskLine {
        path: Name::copied(alloc, path.as_bytes()).expect(rt, "memory"),
        shift: 9,
        blocks: 16,
    }
}

// The empty tree over two disks.
fn start(rt: &impl Abort, alloc: Global) -> Tree {
    let lines = [line(rt, alloc, "/dev/ram0"), line(rt, alloc, "/dev/ram1")];
    assert!(rt; may_be_disks(&lines));
    Tree::new(alloc, &lines).expect(rt, "memory")
}

// What an edit tells, or its errno.
fn tells(rt: &impl Abort, alloc: Global, tree: &mut Tree, row: &Row) -> String {
    let e = edit(rt, alloc, row.0);
    assert!(rt; e.is_fitting(), "an edit that may be read");
    match tree.apply_folder(alloc, &e) {
        Ok(change) => tells_text(rt, alloc, &change),
        Err(Refused::Errno(errno)) => String::from_str(alloc, errno.name()).expect(rt, "memory"),
        Err(Refused::Memory) => String::from_str(alloc, "memory").expect(rt, "memory"),
    }
}

// Looks at what differs since the tree had these lines, and lists it anew.
fn look(rt: &impl Abort, alloc: Global, tree: &Tree, before: &mut Lines, want: &str) {
    let after = list_whole(rt, alloc, tree);
    let found = difference(rt, alloc, before, &after);
    assert_eq!(rt; found.as_str(), want);
    *before = after;
}

fn run(rt: &impl Abort, alloc: Global, tree: &mut Tree, lines: &mut Lines, rows: &[Row]) {
    for (i, row) in rows.iter().enumerate() {
        let told = tells(rt, alloc, tree, row);
        assert!(rt; told.as_str() == row.1, "row {i}: {told}");
        look(rt, alloc, tree, lines, row.2);
    }
}

// Links, which are made and taken away beside the table of folders.
fn turn_links(rt: &impl Abort, alloc: Global, tree: &mut Tree, lines: &mut Lines) {
    for (linked, allowed_text, link_text) in [
        (true, "+allowed s h", "+link 9 s"),
        (false, "-allowed s h", "-link 9 s"),
    ] {
        let host = name(rt, alloc, "h");
        let sub = tree.subsystem_at(b"s").expect(rt, "there");
        assert!(rt; tree.has_host(&host) && !tree.allows_any_host(sub));
        assert!(rt; tree.set_allowed(sub, &host, linked).is_ok());
        look(rt, alloc, tree, lines, allowed_text);
        let sub = tree.subsystem_at(b"s").expect(rt, "there");
        let port = tree.port_at(9).expect(rt, "there");
        assert!(rt; tree.is_loop_port(port));
        assert!(rt; tree.set_link(port, sub, linked).is_ok());
        look(rt, alloc, tree, lines, link_text);
    }
}

const DRAINED: &str = "-namespace s 1 /dev/ram1 00112233445566778899aabbccddeeff \
ffeeddccbbaa99887766554433221100 128 draining; \
+namespace s 1 /dev/ram1 00112233445566778899aabbccddeeff \
ffeeddccbbaa99887766554433221100 128 off";

#[test]
fn what_edits_change_and_tell(rt: HostRuntime) {
    let alloc = rt.alloc();
    let mut tree = start(&rt, alloc);
    let mut lines = list_whole(&rt, alloc, &tree);
    for rows in [MADE, SUBSYSTEM_SET, NAMESPACE_SET, TURNS, PORT_SET] {
        run(&rt, alloc, &mut tree, &mut lines, rows);
    }
    turn_links(&rt, alloc, &mut tree, &mut lines);
    let sub = name(&rt, alloc, "s");
    assert!(rt; tree.phase(&sub, 1) == Some(Phase::Draining));
    tree.end_drain(&sub, 1);
    look(&rt, alloc, &tree, &mut lines, DRAINED);
    run(&rt, alloc, &mut tree, &mut lines, REMOVED);
    tree.end_load();
    look(&rt, alloc, &tree, &mut lines, "-changes 9; +changes 0");
}
