// The configuration of the tests.
use configfs_tree::{Attr, Change, Folder, FolderEdit, Nqn, Tree};
use mem_bdev::{DiskLine, Name};
use std::alloc::Global;
use std::process::Abort;

/// An attribute of a namespace, of a port or of a group.
#[derive(Clone, Copy)]
pub enum At {
    Sub(&'static str),
    Space(&'static str, u32),
    Port(u16),
    Group(u16, u32),
}

fn name(rt: &impl Abort, alloc: Global, text: &str) -> Nqn {
    let made = Nqn::new(alloc, text.as_bytes()).expect(rt, "memory");
    made.expect(rt, "an NQN")
}

fn folder(rt: &impl Abort, alloc: Global, at: At) -> Folder {
    match at {
        At::Sub(sub) => Folder::Subsystem(name(rt, alloc, sub)),
        At::Space(sub, nsid) => Folder::Namespace(name(rt, alloc, sub), nsid),
        At::Port(id) => Folder::Port(id),
        At::Group(id, group) => Folder::AnaGroup(id, group),
    }
}

fn apply(rt: &impl Abort, alloc: Global, tree: &mut Tree, e: &FolderEdit) -> Change {
    assert!(rt; e.is_fitting(), "an edit that may be read");
    match tree.apply_folder(alloc, e) {
        Ok(change) => change,
        Err(_) => {
            assert!(rt; false, "an accepted edit");
            Change::none()
        }
    }
}

/// Makes a folder.
pub fn make(rt: &impl Abort, alloc: Global, tree: &mut Tree, at: At) -> Change {
    apply(rt, alloc, tree, &FolderEdit::Mkdir(folder(rt, alloc, at)))
}

/// Writes an attribute.
pub fn set(
    rt: &impl Abort,
    alloc: Global,
    tree: &mut Tree,
    at: At,
    attr: Attr,
    value: &str,
) -> Change {
    let value = Name::copied(alloc, value.as_bytes()).expect(rt, "memory");
    let e = FolderEdit::Set(folder(rt, alloc, at), attr, value);
    apply(rt, alloc, tree, &e)
}

fn line(rt: &impl Abort, alloc: Global, path: &str, shift: u8, blocks: u64) -> DiskLine {
    let path = Name::copied(alloc, path.as_bytes()).expect(rt, "memory");
    DiskLine {
        path,
        shift,
        blocks,
    }
}

/// The empty tree over two disks: 16 blocks of 512 bytes, and 8 of 4,096.
pub fn empty(rt: &impl Abort, alloc: Global) -> Tree {
    let lines = [
        line(rt, alloc, "/dev/ram0", 9, 16),
        line(rt, alloc, "/dev/ram1", 12, 8),
    ];
    assert!(rt; configfs_tree::may_be_disks(&lines));
    Tree::new(alloc, &lines).expect(rt, "memory")
}
