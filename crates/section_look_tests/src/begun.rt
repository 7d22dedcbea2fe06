// The configuration that the tests begin with.
use crate::rolls::{named, written};
use configfs_tree::{Attr, Folder, FolderEdit, Tree, may_be_disks};
use link_rules::{Edit, LinkEdit, apply};
use listed_words::configured::Configured;
use mem_bdev::{Disk, DiskLine, Name};
use sqe_cqe::Controllers;
use std::alloc::Global;
use std::process::Abort;

fn line(rt: &impl Abort, alloc: Global, path: &str, shift: u8, blocks: u64) -> DiskLine {
    let path = Name::copied(alloc, path.as_bytes()).expect(rt, "memory");
    DiskLine {
        path,
        shift,
        blocks,
    }
}

/// Three disks of 16, 9 and 3 blocks.
pub fn lines(rt: &impl Abort, alloc: Global) -> [DiskLine; 3] {
    [
        line(rt, alloc, "/dev/ram0", 9, 16),
        line(rt, alloc, "/dev/ram1", 12, 9),
        line(rt, alloc, "/dev/ram2", 9, 3),
    ]
}

fn push_disk(rt: &impl Abort, alloc: Global, disks: &mut Vec<Disk>, shift: u8, blocks: u64) {
    assert!(rt; (shift == 9 || shift == 12) && blocks > 0 && blocks < 100);
    let disk = Disk::new(alloc, shift, blocks).expect(rt, "memory");
    disks.push(disk).expect(rt, "memory");
}

fn disks(rt: &impl Abort, alloc: Global) -> Vec<Disk> {
    let mut disks = Vec::new(alloc);
    push_disk(rt, alloc, &mut disks, 9, 16);
    push_disk(rt, alloc, &mut disks, 12, 9);
    push_disk(rt, alloc, &mut disks, 9, 3);
    disks
}

// A folder of the configuration, and what is done to it.
#[derive(Clone, Copy)]
enum Row {
    Host(&'static str),
    Sub(&'static str),
    Port(u16),
    Space(&'static str, u32),
    Group(u16, u32),
    AnyHost(&'static str),
    Loop(u16),
    Link(u16, &'static str),
    Path(&'static str, u32, &'static str),
    InGroup(&'static str, u32, &'static str),
    Enable(&'static str, u32),
    State(u16, u32, &'static str),
}

const ROWS: [Row; 32] = [
    Row::Host("h"),
    Row::Host("i"),
    Row::Sub("a"),
    Row::Sub("b"),
    Row::Port(1),
    Row::Port(65_535),
    Row::AnyHost("a"),
    Row::Loop(1),
    Row::Loop(65_535),
    Row::Link(1, "a"),
    Row::Link(65_535, "a"),
    Row::Link(65_535, "b"),
    Row::Group(1, 2),
    Row::Group(1, 128),
    Row::Group(65_535, 3),
    Row::State(1, 2, "non-optimized"),
    Row::State(65_535, 3, "inaccessible"),
    Row::Space("a", 1),
    Row::Path("a", 1, "/dev/ram0"),
    Row::Enable("a", 1),
    Row::Space("a", 2),
    Row::Path("a", 2, "/dev/ram1"),
    Row::InGroup("a", 2, "2"),
    Row::Enable("a", 2),
    Row::Space("a", 2_048),
    Row::Path("a", 2_048, "/dev/none"),
    Row::Space("b", 1),
    Row::Path("b", 1, "/dev/ram2"),
    Row::Space("b", 2),
    Row::Path("b", 2, "/dev/none"),
    Row::Space("b", 2_048),
    Row::Path("b", 2_048, "/dev/ram0"),
];

fn mkdir(folder: Folder) -> Edit {
    Edit::Folder(FolderEdit::Mkdir(folder))
}

fn set(rt: &impl Abort, alloc: Global, folder: Folder, attr: Attr, text: &str) -> Edit {
    Edit::Folder(written(rt, alloc, folder, attr, text))
}

fn space(rt: &impl Abort, alloc: Global, sub: &str, nsid: u32) -> Folder {
    Folder::Namespace(named(rt, alloc, sub), nsid)
}

fn made(rt: &impl Abort, alloc: Global, row: Row) -> Folder {
    match row {
        Row::Host(text) => Folder::Host(named(rt, alloc, text)),
        Row::Sub(text) | Row::AnyHost(text) => Folder::Subsystem(named(rt, alloc, text)),
        Row::Port(id) | Row::Loop(id) | Row::Link(id, _) => Folder::Port(id),
        Row::Group(id, group) | Row::State(id, group, _) => Folder::AnaGroup(id, group),
        Row::Space(sub, nsid)
        | Row::Path(sub, nsid, _)
        | Row::InGroup(sub, nsid, _)
        | Row::Enable(sub, nsid) => space(rt, alloc, sub, nsid),
    }
}

fn edit(rt: &impl Abort, alloc: Global, row: Row) -> Edit {
    let folder = made(rt, alloc, row);
    match row {
        Row::AnyHost(_) => set(rt, alloc, folder, Attr::AllowAnyHost, "1"),
        Row::Loop(_) => set(rt, alloc, folder, Attr::Trtype, "loop"),
        Row::Link(id, sub) => Edit::Link(LinkEdit::LinkSubsystem(id, named(rt, alloc, sub))),
        Row::Path(_, _, text) => set(rt, alloc, folder, Attr::DevicePath, text),
        Row::InGroup(_, _, text) => set(rt, alloc, folder, Attr::AnaGrpid, text),
        Row::Enable(_, _) => set(rt, alloc, folder, Attr::Enable, "1"),
        Row::State(_, _, text) => set(rt, alloc, folder, Attr::AnaState, text),
        _ => mkdir(folder),
    }
}

/// The edits that make two subsystems with three namespaces each, two ports that link them, three
/// groups and two hosts.
pub fn edits(rt: &impl Abort, alloc: Global) -> Vec<Edit> {
    let mut edits = Vec::new(alloc);
    for row in ROWS {
        edits.push(edit(rt, alloc, row)).expect(rt, "memory");
    }
    edits
}

// Makes the edits, which are all accepted.
fn make(rt: &impl Abort, alloc: Global, tree: &mut Tree, edits: &[Edit]) {
    for e in edits {
        assert!(rt; e.is_fitting());
        assert!(rt; apply(alloc, tree, e).is_ok(), "an accepted edit");
    }
}

// One controller at the first subsystem and the first port.
fn attach(rt: &impl Abort, tree: &mut Tree) {
    assert!(rt; tree.is_subsystem_place(0) && tree.is_port_place(0));
    assert!(rt; tree.has_room(0, 0));
    tree.attach(0, 0);
}

// The tree over these disks, empty.
fn planted(rt: &impl Abort, alloc: Global) -> Tree {
    let lines = lines(rt, alloc);
    assert!(rt; may_be_disks(&lines));
    Tree::new(alloc, &lines).expect(rt, "memory")
}

// The tree that the edits make, with one controller.
fn grown(rt: &impl Abort, alloc: Global) -> Tree {
    let mut tree = planted(rt, alloc);
    make(rt, alloc, &mut tree, &edits(rt, alloc));
    attach(rt, &mut tree);
    tree
}

/// The configuration with one controller, which is ready.
pub fn configured(rt: &impl Abort, alloc: Global) -> Configured {
    let tree = grown(rt, alloc);
    let controllers = Controllers::simple(alloc).expect(rt, "memory");
    let disks = disks(rt, alloc);
    Configured::open(alloc, tree, controllers, disks).expect(rt, "memory")
}
