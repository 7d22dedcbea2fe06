// Texts are loaded, their edits made, and the trees saved.
use crate::rows::*;
use configfs_tree::{Attr, Folder, FolderEdit, Nqn, Refused, Tree, may_be_disks};
use mem_bdev::{DiskLine, Name};
use nvmetcli_json::{Edit, JsonError, LinkEdit, load, save};
use std::alloc::Global;
use std::process::Abort;

// Whether a text loads to this.
fn gives(alloc: Global, text: &[u8], wanted: &Answer) -> bool {
    match load(alloc, text) {
        Ok(loaded) => match wanted {
            Answer::Loads(edits, passed_over) => {
                loaded.edits.as_slice().len() == *edits && loaded.passed_over == *passed_over
            }
            _ => false,
        },
        Err(JsonError::NotJson) => matches!(wanted, Answer::NotJson),
        Err(JsonError::Shape { at }) => match wanted {
            Answer::Member(pointer) => at.as_bytes() == pointer.as_bytes(),
            _ => false,
        },
        Err(JsonError::Memory) => false,
    }
}

// The text between two others.
fn between(rt: &impl Abort, alloc: Global, front: &str, text: &str, back: &str) -> Vec<u8> {
    let mut bytes = Vec::from_slice(alloc, front.as_bytes()).expect(rt, "memory");
    assert!(rt; bytes.extend_from_slice(text.as_bytes()).is_ok(), "memory");
    assert!(rt; bytes.extend_from_slice(back.as_bytes()).is_ok(), "memory");
    bytes
}

// Loads each text between the two others.
fn try_rows(rt: &impl Abort, alloc: Global, rows: &[Row], front: &str, back: &str) {
    for (i, row) in rows.iter().enumerate() {
        let text = between(rt, alloc, front, row.0, back);
        assert!(rt; gives(alloc, &text, &row.1), "row {i} after {front}");
    }
}

#[test]
fn texts_load_to_their_answers(rt: HostRuntime) {
    let alloc = rt.alloc();
    try_rows(&rt, alloc, TOP, "", "");
    try_rows(&rt, alloc, SUBSYSTEMS, "{\"subsystems\":", "}");
    try_rows(
        &rt,
        alloc,
        NAMESPACES,
        "{\"subsystems\":[{\"nqn\":\"s\",\"namespaces\":[",
        "]}]}",
    );
    try_rows(&rt, alloc, PORTS, "{\"ports\":[", "]}");
}

// An unknown member with so many arrays in one another.
fn nested(rt: &impl Abort, alloc: Global, arrays: usize) -> Vec<u8> {
    let mut bytes = Vec::from_slice(alloc, b"{\"x\":").expect(rt, "memory");
    for _ in 0..arrays {
        assert!(rt; bytes.push(b'[').is_ok(), "memory");
    }
    for _ in 0..arrays {
        assert!(rt; bytes.push(b']').is_ok(), "memory");
    }
    assert!(rt; bytes.push(b'}').is_ok(), "memory");
    bytes
}

#[test]
fn nesting_ends_at_127(rt: HostRuntime) {
    let alloc = rt.alloc();
    let deepest = nested(&rt, alloc, 126);
    assert!(rt; gives(alloc, &deepest, &Answer::Loads(0, 1)));
    let too_deep = nested(&rt, alloc, 127);
    assert!(rt; gives(alloc, &too_deep, &Answer::NotJson));
}

#[test]
fn what_is_no_utf8_is_no_json(rt: HostRuntime) {
    let text: [u8; 5] = [b'"', 195, 40, b'"', b' '];
    assert!(rt; gives(rt.alloc(), &text, &Answer::NotJson));
}

fn line(rt: &impl Abort, alloc: Global, path: &str) -> DiskLine {
    DiskLine {
        path: Name::copied(alloc, path.as_bytes()).expect(rt, "memory"),
        shift: 9,
        blocks: 16,
    }
}

// The empty tree over one disk.
fn start(rt: &impl Abort, alloc: Global) -> Tree {
    let lines = [line(rt, alloc, "/dev/ram0")];
    assert!(rt; may_be_disks(&lines));
    Tree::new(alloc, &lines).expect(rt, "memory")
}

// Makes a link; what isn't as a link needs it is told.
fn link(tree: &mut Tree, e: &LinkEdit) -> &'static str {
    match e {
        LinkEdit::AllowHost(sub, host) => allow(tree, sub, host),
        LinkEdit::LinkSubsystem(id, sub) => link_port(tree, *id, sub),
        _ => "no configuration takes a link away",
    }
}

fn allow(tree: &mut Tree, sub: &Nqn, host: &Nqn) -> &'static str {
    let Some(at) = tree.subsystem_at(sub.as_bytes()) else {
        return "no subsystem";
    };
    if !tree.has_host(host) {
        return "no host";
    }
    if tree.allows_any_host(at) {
        return "any host is allowed";
    }
    match tree.set_allowed(at, host, true) {
        Ok(()) => "ok",
        Err(_) => "memory",
    }
}

fn link_port(tree: &mut Tree, id: u16, sub: &Nqn) -> &'static str {
    let Some(port) = tree.port_at(id) else {
        return "no port";
    };
    let Some(at) = tree.subsystem_at(sub.as_bytes()) else {
        return "no subsystem";
    };
    if !tree.is_loop_port(port) {
        return "EINVAL";
    }
    match tree.set_link(port, at, true) {
        Ok(()) => "ok",
        Err(_) => "memory",
    }
}

// Makes an edit.
fn make(rt: &impl Abort, alloc: Global, tree: &mut Tree, e: &Edit) -> &'static str {
    match e {
        Edit::Link(e) => link(tree, e),
        Edit::Folder(e) => {
            assert!(rt; e.is_fitting(), "an edit that may be made");
            match tree.apply_folder(alloc, e) {
                Ok(_) => "ok",
                Err(Refused::Memory) => "memory",
                Err(Refused::Errno(errno)) => errno.name(),
            }
        }
    }
}

// Makes the edits up to the first that is refused: its number from 1 with its errno.
fn make_all(
    rt: &impl Abort,
    alloc: Global,
    tree: &mut Tree,
    edits: &[Edit],
) -> (usize, &'static str) {
    for (i, e) in edits.iter().enumerate() {
        let answer = make(rt, alloc, tree, e);
        if answer != "ok" {
            return (i + 1, answer);
        }
    }
    (0, "ok")
}

// The tree of a text, with what was passed over.
fn loaded(rt: &impl Abort, alloc: Global, text: &[u8]) -> (Tree, u64) {
    let mut tree = start(rt, alloc);
    match load(alloc, text) {
        Ok(loaded) => {
            let answer = make_all(rt, alloc, &mut tree, loaded.edits.as_slice());
            assert!(rt; answer.0 == 0, "an edit is refused: {}", answer.1);
            (tree, loaded.passed_over)
        }
        Err(_) => {
            assert!(rt; false, "a text isn't loaded");
            (tree, 0)
        }
    }
}

#[test]
fn trees_are_saved_and_saved_again(rt: HostRuntime) {
    let alloc = rt.alloc();
    for (i, row) in SAVES.iter().enumerate() {
        let (tree, _) = loaded(&rt, alloc, row.0.as_bytes());
        let saved = save(alloc, &tree).expect(&rt, "memory");
        assert!(rt; saved.as_slice() == row.1.as_bytes(), "row {i}");
        let (again, passed_over) = loaded(&rt, alloc, &saved);
        assert!(rt; passed_over == 0, "row {i}");
        let text = save(alloc, &again).expect(&rt, "memory");
        assert!(rt; text.as_slice() == row.1.as_bytes(), "row {i}, saved again");
    }
}

#[test]
fn the_example_passes_four_members_over(rt: HostRuntime) {
    let (_, passed_over) = loaded(&rt, rt.alloc(), EXAMPLE.as_bytes());
    assert!(rt; passed_over == 4);
}

#[test]
fn the_first_refused_edit_is_told(rt: HostRuntime) {
    let alloc = rt.alloc();
    for (i, row) in REFUSED.iter().enumerate() {
        let mut tree = start(&rt, alloc);
        match load(alloc, row.0.as_bytes()) {
            Ok(loaded) => {
                let answer = make_all(&rt, alloc, &mut tree, loaded.edits.as_slice());
                assert!(rt; answer.0 == row.1, "row {i}");
                assert!(rt; answer.1 == row.2, "row {i}");
            }
            Err(_) => assert!(rt; false, "row {i} isn't loaded"),
        }
    }
}

#[test]
fn a_draining_namespace_is_saved_as_off(rt: HostRuntime) {
    let alloc = rt.alloc();
    let (mut tree, _) = loaded(&rt, alloc, EXAMPLE.as_bytes());
    let sub = Nqn::read(b"testnqn").expect(&rt, "an NQN");
    let off = Name::copied(alloc, b"0").expect(&rt, "memory");
    let edit = Edit::Folder(FolderEdit::Set(Folder::Namespace(sub, 1), Attr::Enable, off));
    assert!(rt; make(&rt, alloc, &mut tree, &edit) == "ok");
    let saved = save(alloc, &tree).expect(&rt, "memory");
    assert!(rt; saved.as_slice() == DRAINING_SAVED.as_bytes());
}
