// A target with two subsystems, and its edits.
use configfs_tree::{Attr, Folder, FolderEdit, Nqn, may_be_disks};
use link_rules::{Edit, LinkEdit};
use mem_bdev::{DiskLine, Name};
use std::alloc::Global;
use std::process::Abort;
use tree_target::{Reply, Target};

pub(crate) fn name(rt: &impl Abort, sub: &[u8]) -> Nqn {
    Nqn::read(sub).expect(rt, "an NQN")
}

fn disk(rt: &impl Abort, alloc: Global, path: &[u8]) -> DiskLine {
    let path = Name::copied(alloc, path).expect(rt, "memory");
    DiskLine {
        path,
        shift: 9,
        blocks: 16,
    }
}

pub(crate) fn mkdir(folder: Folder) -> Edit {
    Edit::Folder(FolderEdit::Mkdir(folder))
}

pub(crate) fn set(
    rt: &impl Abort,
    alloc: Global,
    folder: Folder,
    attr: Attr,
    value: &[u8],
) -> Edit {
    let value = Name::copied(alloc, value).expect(rt, "memory");
    Edit::Folder(FolderEdit::Set(folder, attr, value))
}

// Makes an edit, which must be accepted.
pub(crate) fn edit(rt: &impl Abort, alloc: Global, target: &mut Target, e: &Edit) {
    assert!(rt; e.is_fitting());
    let got = target.edit(alloc, 1, e);
    assert_eq!(rt; got.expect(rt, "memory"), Reply::Accepted);
}

// Sets an attribute of a namespace.
pub(crate) fn set_space(
    rt: &impl Abort,
    alloc: Global,
    target: &mut Target,
    space: (&'static [u8], u32),
    attr: Attr,
    value: &[u8],
) {
    let folder = Folder::Namespace(name(rt, space.0), space.1);
    let e = set(rt, alloc, folder, attr, value);
    edit(rt, alloc, target, &e);
}

// Makes a namespace on a disk, which stays off.
pub(crate) fn make_space(
    rt: &impl Abort,
    alloc: Global,
    target: &mut Target,
    space: (&'static [u8], u32),
    path: &[u8],
) {
    let e = mkdir(Folder::Namespace(name(rt, space.0), space.1));
    edit(rt, alloc, target, &e);
    set_space(rt, alloc, target, space, Attr::DevicePath, path);
}

// Enables a namespace; or disables it, and ends its drain.
pub(crate) fn turn(
    rt: &impl Abort,
    alloc: Global,
    target: &mut Target,
    space: (&'static [u8], u32),
    on: bool,
) {
    let value: &[u8] = if on { b"1" } else { b"0" };
    set_space(rt, alloc, target, space, Attr::Enable, value);
    if !on {
        let sub = name(rt, space.0);
        assert!(rt; target.may_end(&sub, space.1));
        assert_eq!(rt; target.end_drain(1, &sub, space.1), Reply::Ended);
    }
}

// Sets the state of ANA group 1 of port 1.
pub(crate) fn set_state(rt: &impl Abort, alloc: Global, target: &mut Target, state: &[u8]) {
    let e = set(rt, alloc, Folder::AnaGroup(1, 1), Attr::AnaState, state);
    edit(rt, alloc, target, &e);
}

// A subsystem that allows any host, linked to port 1.
fn make_subsystem(rt: &impl Abort, alloc: Global, target: &mut Target, sub: &[u8]) {
    edit(rt, alloc, target, &mkdir(Folder::Subsystem(name(rt, sub))));
    let any = set(
        rt,
        alloc,
        Folder::Subsystem(name(rt, sub)),
        Attr::AllowAnyHost,
        b"1",
    );
    edit(rt, alloc, target, &any);
    let link = Edit::Link(LinkEdit::LinkSubsystem(1, name(rt, sub)));
    edit(rt, alloc, target, &link);
}

// Three disks, port 1 with subsystems `s` and `u` without namespaces, and two queues at that port.
pub(crate) fn two_subsystems(rt: &impl Abort, alloc: Global) -> Target {
    let lines = [
        disk(rt, alloc, b"/dev/ram0"),
        disk(rt, alloc, b"/dev/ram1"),
        disk(rt, alloc, b"/dev/ram2"),
    ];
    assert!(rt; lines[0].is_shape() && lines[1].is_shape() && lines[2].is_shape());
    assert!(rt; may_be_disks(&lines));
    let loaded = Target::load(alloc, &lines, &[], &[1, 1]);
    let mut target = loaded.expect(rt, "loaded");
    edit(rt, alloc, &mut target, &mkdir(Folder::Port(1)));
    let e = set(rt, alloc, Folder::Port(1), Attr::Trtype, b"loop");
    edit(rt, alloc, &mut target, &e);
    make_subsystem(rt, alloc, &mut target, b"s");
    make_subsystem(rt, alloc, &mut target, b"u");
    target
}
