// Random steps, made in the tree and in the slow one, which are compared whole after each.
use crate::rolls::{At, Dice, Do, Step};
use crate::slow::Slow;
use crate::whole::{check_whole, name};
use configfs_tree::{Folder, FolderEdit, Phase, Refused, Tree, admits_host, may_be_disks, serves};
use mem_bdev::{DiskLine, Name};
use std::alloc::Global;
use std::process::Abort;

fn folder(rt: &impl Abort, alloc: Global, at: At) -> Folder {
    match at {
        At::Host(host) => Folder::Host(name(rt, alloc, "h", host)),
        At::Sub(sub) => Folder::Subsystem(name(rt, alloc, "s", sub)),
        At::Space(sub, nsid) => Folder::Namespace(name(rt, alloc, "s", sub), nsid),
        At::Port(id) => Folder::Port(id),
        At::Group(id, group) => Folder::AnaGroup(id, group),
    }
}

fn folder_edit(rt: &impl Abort, alloc: Global, what: Do) -> FolderEdit {
    match what {
        Do::Mkdir(at) => FolderEdit::Mkdir(folder(rt, alloc, at)),
        Do::Rmdir(at) => FolderEdit::Rmdir(folder(rt, alloc, at)),
        Do::Set(at, attr, value) => {
            let value = Name::copied(alloc, value.as_bytes()).expect(rt, "memory");
            FolderEdit::Set(folder(rt, alloc, at), attr, value)
        }
    }
}

// Makes an edit, and tells its answer as the journal writes it.
fn apply(rt: &impl Abort, alloc: Global, tree: &mut Tree, what: Do) -> &'static str {
    let e = folder_edit(rt, alloc, what);
    assert!(rt; e.is_fitting(), "an edit that may be read");
    match tree.apply_folder(alloc, &e) {
        Ok(_) => "ok",
        Err(Refused::Memory) => "memory",
        Err(Refused::Errno(errno)) => errno.name(),
    }
}

fn make_edit(rt: &impl Abort, alloc: Global, tree: &mut Tree, slow: &mut Slow, what: Do) {
    let want = slow.apply(rt, what);
    let answer = apply(rt, alloc, tree, what);
    assert!(rt; answer == want, "{answer} for {want}");
}

// Ends a drain in both, where the namespace drains.
fn end_drain(
    rt: &impl Abort,
    alloc: Global,
    tree: &mut Tree,
    slow: &mut Slow,
    sub: u64,
    nsid: u32,
) {
    let Some(old) = slow.space(sub, nsid) else {
        return;
    };
    if old.phase != Phase::Draining {
        return;
    }
    let nqn = name(rt, alloc, "s", sub);
    let phase = tree.phase(&nqn, nsid);
    let Some(Phase::Draining) = phase else {
        assert!(rt; false, "a namespace drains in both");
        return;
    };
    tree.end_drain(&nqn, nsid);
    slow.put_phase(sub, nsid, Phase::Off);
}

// Makes or takes away an allowed host in both, where the rules of links let it.
fn turn_allowed(
    rt: &impl Abort,
    alloc: Global,
    tree: &mut Tree,
    slow: &mut Slow,
    sub: u64,
    host: u64,
) {
    let Some(old) = slow.sub(sub) else {
        return;
    };
    let linked = !slow.is_allowed(sub, host);
    if old.any || !slow.has_host(host) {
        return;
    }
    let nqn = name(rt, alloc, "s", sub);
    let at = tree.subsystem_at(nqn.as_bytes()).expect(rt, "in both");
    assert!(rt; tree.is_subsystem_place(at));
    let host_nqn = name(rt, alloc, "h", host);
    assert!(rt; tree.has_host(&host_nqn) && !tree.allows_any_host(at));
    assert!(rt; tree.set_allowed(at, &host_nqn, linked).is_ok());
    if linked {
        assert!(rt; slow.allowed.push((sub, host)).is_ok());
    } else {
        slow.allowed.retain(|l| l.0 != sub || l.1 != host);
    }
    assert!(rt; admits_host(tree, at, host_nqn.as_bytes()) == linked);
}

// Makes or takes away a link of a port in both, where the rules of links let it.
fn turn_link(rt: &impl Abort, alloc: Global, tree: &mut Tree, slow: &mut Slow, id: u16, sub: u64) {
    let Some(old) = slow.port(id) else {
        return;
    };
    let linked = !slow.is_linked(id, sub);
    if slow.sub(sub).is_none() || linked && old.trtype != "loop" {
        return;
    }
    let nqn = name(rt, alloc, "s", sub);
    let at = tree.subsystem_at(nqn.as_bytes()).expect(rt, "in both");
    let port = tree.port_at(id).expect(rt, "in both");
    assert!(rt; tree.is_port_place(port));
    assert!(rt; tree.is_subsystem_place(at));
    let loops = tree.is_loop_port(port);
    assert!(rt; loops || !linked);
    assert!(rt; tree.set_link(port, at, linked).is_ok());
    if linked {
        assert!(rt; slow.links.push((id, sub)).is_ok());
    } else {
        slow.links.retain(|l| l.0 != id || l.1 != sub);
    }
    assert!(rt; serves(tree, port, at) == linked);
}

// Attaches a controller in both, where there is room for it.
fn attach(rt: &impl Abort, alloc: Global, tree: &mut Tree, slow: &mut Slow, sub: u64, id: u16) {
    let Some(old) = slow.sub(sub) else {
        return;
    };
    let Some(through) = slow.port(id) else {
        return;
    };
    let nqn = name(rt, alloc, "s", sub);
    let at = tree.subsystem_at(nqn.as_bytes()).expect(rt, "in both");
    let port = tree.port_at(id).expect(rt, "in both");
    assert!(rt; tree.is_port_place(port));
    assert!(rt; tree.is_subsystem_place(at));
    let room = tree.has_room(at, port);
    assert!(rt; room == (old.attached < 31 && through.attached < 31));
    if room {
        tree.attach(at, port);
        slow.attach(sub, id);
    }
}

fn make_step(rt: &impl Abort, alloc: Global, tree: &mut Tree, slow: &mut Slow, step: Step) {
    match step {
        Step::Edit(what) => make_edit(rt, alloc, tree, slow, what),
        Step::EndDrain(sub, nsid) => end_drain(rt, alloc, tree, slow, sub, nsid),
        Step::TurnAllowed(sub, host) => turn_allowed(rt, alloc, tree, slow, sub, host),
        Step::TurnLink(id, sub) => turn_link(rt, alloc, tree, slow, id, sub),
        Step::Attach(sub, id) => attach(rt, alloc, tree, slow, sub, id),
        Step::EndLoad => {
            tree.end_load();
            slow.changes = 0;
        }
    }
}

fn line(rt: &impl Abort, alloc: Global, path: &str) -> DiskLine {
    DiskLine {
        path: Name::copied(alloc, path.as_bytes()).expect(rt, "memory"),
        shift: 9,
        blocks: 16,
    }
}

// A run of steps, with the trees compared whole after each `every`th and at the end.
fn make_run(rt: &impl Abort, alloc: Global, mut dice: Dice, steps: u32, every: u32) {
    let lines = [line(rt, alloc, "/dev/ram0"), line(rt, alloc, "/dev/ram1")];
    assert!(rt; may_be_disks(&lines));
    let mut tree = Tree::new(alloc, &lines).expect(rt, "memory");
    let mut slow = Slow::new(alloc);
    for step in 0..steps {
        make_step(rt, alloc, &mut tree, &mut slow, dice.step());
        if every == 0 || step % every == 0 {
            check_whole(rt, alloc, &tree, &slow);
        }
    }
    check_whole(rt, alloc, &tree, &slow);
}

#[test]
fn random_steps_compared_after_each(rt: HostRuntime) {
    let alloc = rt.alloc();
    make_run(&rt, alloc, Dice { state: 7, sides: 0 }, 500, 1);
    make_run(
        &rt,
        alloc,
        Dice {
            state: 17,
            sides: 6,
        },
        500,
        1,
    );
}

#[test]
fn random_steps_over_long(rt: HostRuntime) {
    let alloc = rt.alloc();
    make_run(
        &rt,
        alloc,
        Dice {
            state: 11,
            sides: 0,
        },
        4_000,
        16,
    );
    make_run(
        &rt,
        alloc,
        Dice {
            state: 13,
            sides: 40,
        },
        4_000,
        16,
    );
}

#[test]
fn full_tables(rt: HostRuntime) {
    let alloc = rt.alloc();
    assert!(rt; may_be_disks(&[]));
    let mut tree = Tree::new(alloc, &[]).expect(&rt, "memory");
    for host in 0..64u64 {
        assert!(rt; apply(&rt, alloc, &mut tree, Do::Mkdir(At::Host(host))) == "ok");
    }
    assert!(rt; apply(&rt, alloc, &mut tree, Do::Mkdir(At::Host(64))) == "ENOSPC");
    for sub in 0..16u64 {
        assert!(rt; apply(&rt, alloc, &mut tree, Do::Mkdir(At::Sub(sub))) == "ok");
    }
    assert!(rt; apply(&rt, alloc, &mut tree, Do::Mkdir(At::Sub(16))) == "ENOSPC");
    for id in 1..9u16 {
        assert!(rt; apply(&rt, alloc, &mut tree, Do::Mkdir(At::Port(id))) == "ok");
    }
    assert!(rt; apply(&rt, alloc, &mut tree, Do::Mkdir(At::Port(9))) == "ENOSPC");
    for there in [At::Host(63), At::Sub(15), At::Port(8)] {
        assert!(rt; apply(&rt, alloc, &mut tree, Do::Mkdir(there)) == "EEXIST");
    }
    assert!(rt; apply(&rt, alloc, &mut tree, Do::Rmdir(At::Sub(3))) == "ok");
    assert!(rt; apply(&rt, alloc, &mut tree, Do::Mkdir(At::Sub(16))) == "ok");
    assert_eq!(rt; tree.subsystem_at(b"s16"), Some(3));
    assert_eq!(rt; tree.subsystem_at(b"s3"), None);
    assert_eq!(rt; tree.nth_subsystem(0), Some(0));
    assert_eq!(rt; tree.nth_subsystem(15), Some(9));
    assert_eq!(rt; tree.nth_subsystem(16), None);
    assert_eq!(rt; tree.nth_port(7), Some(7));
    assert_eq!(rt; tree.nth_port(8), None);
    assert!(rt; tree.nth_host(63).is_some() && tree.nth_host(64).is_none());
    assert!(rt; tree.has_host(&name(&rt, alloc, "h", 63)));
}
