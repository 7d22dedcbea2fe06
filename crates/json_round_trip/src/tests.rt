// Trees are saved and loaded again.
use crate::reload::{has_disks_of, reload_tree};
use crate::rows::*;
use configfs_tree::{Attr, Folder, FolderEdit, Nqn, Phase, Tree, may_be_disks};
use link_rules::{Edit, apply};
use mem_bdev::{DiskLine, Name};
use nvmetcli_json::{load, save};
use std::alloc::Global;
use std::process::Abort;

fn line(rt: &impl Abort, alloc: Global, path: &str) -> DiskLine {
    DiskLine {
        path: Name::copied(alloc, path.as_bytes()).expect(rt, "memory"),
        shift: 9,
        blocks: 16,
    }
}

// Two disks.
fn disks(rt: &impl Abort, alloc: Global) -> [DiskLine; 2] {
    [line(rt, alloc, "/dev/ram0"), line(rt, alloc, "/dev/ram1")]
}

fn make(rt: &impl Abort, alloc: Global, tree: &mut Tree, e: &Edit) {
    assert!(rt; e.is_fitting(), "an edit that may be made");
    assert!(rt; apply(alloc, tree, e).is_ok(), "an edit is refused");
}

// The tree of a text over these disks.
fn tree_of(rt: &impl Abort, alloc: Global, lines: &[DiskLine], text: &str) -> Tree {
    assert!(rt; may_be_disks(lines));
    let mut tree = Tree::new(alloc, lines).expect(rt, "memory");
    match load(alloc, text.as_bytes()) {
        Ok(loaded) => {
            for e in loaded.edits.as_slice() {
                make(rt, alloc, &mut tree, e);
            }
        }
        Err(_) => assert!(rt; false, "a text isn't loaded"),
    }
    tree
}

// The tree that is saved and loaded again, of which this text is saved.
fn again(rt: &impl Abort, alloc: Global, tree: &Tree, lines: &[DiskLine], text: &str) -> Tree {
    assert!(rt; has_disks_of(tree, lines), "the tree's disks");
    let other = reload_tree(alloc, tree, lines).expect(rt, "memory");
    let saved = save(alloc, &other).expect(rt, "memory");
    assert!(rt; saved.as_slice() == text.as_bytes(), "{text}");
    other
}

#[test]
fn trees_are_the_same_again(rt: HostRuntime) {
    let alloc = rt.alloc();
    let lines = disks(&rt, alloc);
    for row in SAVES {
        let tree = tree_of(&rt, alloc, &lines, row.0);
        let other = again(&rt, alloc, &tree, &lines, row.1);
        again(&rt, alloc, &other, &lines, row.1);
    }
}

// Subsystem `b` was made first, and `a` is the first by its name.
#[test]
fn positions_follow_the_names(rt: HostRuntime) {
    let alloc = rt.alloc();
    let lines = disks(&rt, alloc);
    let tree = tree_of(&rt, alloc, &lines, TWO);
    assert!(rt; tree.subsystem_at(b"b") == Some(0));
    assert!(rt; tree.subsystem_at(b"a") == Some(1));
    let other = again(&rt, alloc, &tree, &lines, TWO_SAVED);
    assert!(rt; other.subsystem_at(b"a") == Some(0));
    assert!(rt; other.subsystem_at(b"b") == Some(1));
}

#[test]
fn a_draining_namespace_is_off_again(rt: HostRuntime) {
    let alloc = rt.alloc();
    let lines = disks(&rt, alloc);
    let mut tree = tree_of(&rt, alloc, &lines, TWO);
    let sub = Nqn::read(b"a").expect(&rt, "an NQN");
    let off = Name::copied(alloc, b"0").expect(&rt, "memory");
    let edit = Edit::Folder(FolderEdit::Set(Folder::Namespace(sub, 1), Attr::Enable, off));
    make(&rt, alloc, &mut tree, &edit);
    let sub = Nqn::read(b"a").expect(&rt, "an NQN");
    assert!(rt; tree.phase(&sub, 1) == Some(Phase::Draining));
    let other = again(&rt, alloc, &tree, &lines, TWO_OFF_SAVED);
    assert!(rt; other.phase(&sub, 1) == Some(Phase::Off));
}

#[test]
fn other_disks_are_told(rt: HostRuntime) {
    let alloc = rt.alloc();
    let lines = disks(&rt, alloc);
    let tree = tree_of(&rt, alloc, &lines, "{}");
    let turned = [line(&rt, alloc, "/dev/ram1"), line(&rt, alloc, "/dev/ram0")];
    assert!(rt; has_disks_of(&tree, &lines));
    assert!(rt; !has_disks_of(&tree, &turned));
    assert!(rt; !has_disks_of(&tree, &lines[..1]));
}

// Where memory is refused to `reload_tree` alone, the tree stays, and the next call does it.
#[test]
fn refused_memory_is_told(rt: HostRuntime) {
    let alloc = rt.alloc();
    let lines = disks(&rt, alloc);
    let tree = tree_of(&rt, alloc, &lines, PORTS);
    assert!(rt; has_disks_of(&tree, &lines), "the tree's disks");
    if reload_tree(alloc, &tree, &lines).is_err() {
        again(&rt, alloc, &tree, &lines, PORTS_SAVED);
    }
}
