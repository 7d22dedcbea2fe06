// The table of edits at its rows' conditions and just beside them, by edits written as data.
use crate::test_rows::*;
use crate::*;
use mem_bdev::{DiskLine, Name};
use std::alloc::Global;
use std::process::Abort;

fn name(rt: &impl Abort, alloc: Global, text: &str) -> Nqn {
    let made = Nqn::new(alloc, text.as_bytes()).expect(rt, "memory");
    made.expect(rt, "an NQN")
}

fn folder(rt: &impl Abort, alloc: Global, at: At) -> Folder {
    match at {
        At::Host(host) => Folder::Host(name(rt, alloc, host)),
        At::Sub(sub) => Folder::Subsystem(name(rt, alloc, sub)),
        At::Space(sub, nsid) => Folder::Namespace(name(rt, alloc, sub), nsid),
        At::Port(id) => Folder::Port(id),
        At::Group(id, group) => Folder::AnaGroup(id, group),
    }
}

// So many letters.
fn letters(rt: &impl Abort, alloc: Global, n: usize) -> Vec<u8> {
    let mut bytes = Vec::new(alloc);
    for _ in 0..n {
        assert!(rt; bytes.push(b'a').is_ok(), "memory");
    }
    bytes
}

fn edit(rt: &impl Abort, alloc: Global, what: Do) -> FolderEdit {
    match what {
        Do::Mkdir(at) => FolderEdit::Mkdir(folder(rt, alloc, at)),
        Do::Rmdir(at) => FolderEdit::Rmdir(folder(rt, alloc, at)),
        Do::Set(at, attr, value) => {
            let value = Name::copied(alloc, value.as_bytes()).expect(rt, "memory");
            FolderEdit::Set(folder(rt, alloc, at), attr, value)
        }
        Do::Fill(at, attr, n) => {
            let value = Name::from_vec(letters(rt, alloc, n));
            FolderEdit::Set(folder(rt, alloc, at), attr, value)
        }
    }
}

// The answer of an edit, as the journal writes it.
fn apply(rt: &impl Abort, alloc: Global, tree: &mut Tree, what: Do) -> &'static str {
    let e = edit(rt, alloc, what);
    assert!(rt; e.is_fitting(), "an edit that may be read");
    match tree.apply_folder(alloc, &e) {
        Ok(_) => "ok",
        Err(Refused::Memory) => "memory",
        Err(Refused::Errno(errno)) => errno.name(),
    }
}

fn run(rt: &impl Abort, alloc: Global, tree: &mut Tree, rows: &[Row]) {
    for (i, row) in rows.iter().enumerate() {
        let answer = apply(rt, alloc, tree, row.0);
        assert!(rt; answer == row.1, "row {i}: {answer}");
    }
}

fn line(rt: &impl Abort, alloc: Global, path: &str) -> DiskLine {
    DiskLine {
        path: Name::copied(alloc, path.as_bytes()).expect(rt, "memory"),
        shift: 9,
        blocks: 16,
    }
}

// The empty tree over two disks.
fn start(rt: &impl Abort, alloc: Global) -> Tree {
    let lines = [line(rt, alloc, "/dev/ram0"), line(rt, alloc, "/dev/ram1")];
    assert!(rt; may_be_disks(&lines));
    Tree::new(alloc, &lines).expect(rt, "memory")
}

// Whether bytes are an NQN.
fn is_name(rt: &impl Abort, alloc: Global, bytes: &[u8]) -> bool {
    Nqn::new(alloc, bytes).expect(rt, "memory").is_some()
}

#[test]
fn names_of_hosts_and_subsystems(rt: HostRuntime) {
    let alloc = rt.alloc();
    for (text, is) in NQNS {
        assert!(rt; is_name(&rt, alloc, text.as_bytes()) == *is, "{text}");
    }
    assert!(rt; is_name(&rt, alloc, &letters(&rt, alloc, NQN_LEN)));
    assert!(rt; !is_name(&rt, alloc, &letters(&rt, alloc, NQN_LEN + 1)));
}

#[test]
fn hosts_and_subsystems(rt: HostRuntime) {
    let alloc = rt.alloc();
    let mut tree = start(&rt, alloc);
    run(&rt, alloc, &mut tree, FRESH_SUBSYSTEM);
    let host = name(&rt, alloc, "h");
    let at = tree.subsystem_at(b"s").expect(&rt, "there");
    assert!(rt; tree.is_subsystem_place(at));
    assert!(rt; tree.has_host(&host) && !tree.allows_any_host(at));
    assert!(rt; tree.set_allowed(at, &host, true).is_ok());
    assert!(rt; admits_host(&tree, at, b"h") && !admits_host(&tree, at, b"g"));
    run(&rt, alloc, &mut tree, HOST_ALLOWED);
    assert!(rt; tree.is_subsystem_place(at));
    assert!(rt; tree.has_host(&host));
    assert!(rt; tree.set_allowed(at, &host, false).is_ok());
    run(&rt, alloc, &mut tree, HOST_FREE);
}

#[test]
fn namespaces(rt: HostRuntime) {
    let alloc = rt.alloc();
    let mut tree = start(&rt, alloc);
    run(&rt, alloc, &mut tree, NO_NAMESPACE);
    run(&rt, alloc, &mut tree, PATHS);
    run(&rt, alloc, &mut tree, ENABLED);
    run(&rt, alloc, &mut tree, DRAINING);
    let sub = name(&rt, alloc, "s");
    assert!(rt; tree.phase(&sub, 1) == Some(Phase::Draining));
    tree.end_drain(&sub, 1);
    assert!(rt; tree.phase(&sub, 1) == Some(Phase::Off));
    run(&rt, alloc, &mut tree, OFF);
    run(&rt, alloc, &mut tree, UUIDS);
    run(&rt, alloc, &mut tree, GROUPS_OF_NAMESPACES);
    assert!(rt; tree.ana_count() == 2);
    tree.end_load();
    assert!(rt; tree.ana_count() == 0);
    assert!(rt; tree.disable(&sub, 1).is_ok() && tree.disable(&sub, 9) == Err(Errno::ENOENT));
}

#[test]
fn ports_and_groups(rt: HostRuntime) {
    let alloc = rt.alloc();
    let mut tree = start(&rt, alloc);
    run(&rt, alloc, &mut tree, NO_PORT);
    run(&rt, alloc, &mut tree, GROUPS);
    assert!(rt; tree.ana_count() == 6);
    run(&rt, alloc, &mut tree, ADDRESSES);
    let port = tree.port_at(1).expect(&rt, "there");
    let sub = tree.subsystem_at(b"s").expect(&rt, "there");
    assert!(rt; tree.is_port_place(port) && tree.is_subsystem_place(sub));
    assert!(rt; tree.is_loop_port(port));
    assert!(rt; tree.set_link(port, sub, true).is_ok());
    assert!(rt; serves(&tree, port, sub));
    run(&rt, alloc, &mut tree, LINKED);
    assert!(rt; tree.is_port_place(port) && tree.is_subsystem_place(sub));
    assert!(rt; tree.has_room(sub, port));
    tree.attach(sub, port);
    assert!(rt; tree.is_port_place(port) && tree.is_subsystem_place(sub));
    assert!(rt; tree.set_link(port, sub, false).is_ok());
    run(&rt, alloc, &mut tree, ATTACHED);
}
