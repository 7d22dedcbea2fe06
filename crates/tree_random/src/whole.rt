// The whole tree beside the slow one: everything that either holds is looked up in the other, and
// lists are in their order.
use crate::slow::{Slow, SlowGroup, SlowPort, SlowSpace, SlowSub};
use configfs_tree::{Address, Holder, Names, Nqn, Phase, PortRow, SubsystemRow, Tree};
use mem_bdev::Name;
use sqe_cqe::Ana;
use std::alloc::Global;
use std::process::Abort;

/// The NQN of a host (`h`) or a subsystem (`s`) by its number.
pub fn name(rt: &impl Abort, alloc: Global, kind: &str, number: u64) -> Nqn {
    let text = format!(in alloc; "{kind}{number}").expect(rt, "memory");
    let made = Nqn::new(alloc, text.as_str().as_bytes()).expect(rt, "memory");
    made.expect(rt, "an NQN")
}

// The names are these, in byte order.
fn check_names(rt: &impl Abort, alloc: Global, names: &Names, kind: &str, numbers: &[u64]) {
    assert_eq!(rt; names.len(), numbers.len());
    for number in numbers {
        assert!(rt;
            names.contains(&name(rt, alloc, kind, *number)),
            "{kind}{number}"
        );
    }
    let mut last: &[u8] = b"";
    for next in names.iter() {
        assert!(rt; last < next.as_bytes(), "names rise");
        last = next.as_bytes();
    }
}

fn path_text(path: &Option<Name>) -> &[u8] {
    match path {
        None => b"",
        Some(path) => path.as_bytes(),
    }
}

// The number of the disk of a path.
fn disk_number(path: &str) -> Option<u8> {
    match path {
        "/dev/ram0" => Some(0),
        "/dev/ram1" => Some(1),
        _ => None,
    }
}

fn uuid_bytes(text: &str) -> [u8; 16] {
    match text {
        "00112233-4455-6677-8899-aabbccddeeff" => [
            0, 0x11, 0x22, 0x33, 0x44, 0x55, 0x66, 0x77, 0x88, 0x99, 0xAA, 0xBB, 0xCC, 0xDD, 0xEE,
            0xFF,
        ],
        "ffffffff-ffff-ffff-ffff-fffffffffff1" => [
            0xFF, 0xFF, 0xFF, 0xFF, 0xFF, 0xFF, 0xFF, 0xFF, 0xFF, 0xFF, 0xFF, 0xFF, 0xFF, 0xFF,
            0xFF, 0xF1,
        ],
        _ => [0; 16],
    }
}

fn group_number(text: &str) -> u8 {
    match text {
        "1" => 1,
        "2" => 2,
        _ => 128,
    }
}

fn state_of(text: &str) -> Ana {
    match text {
        "optimized" => Ana::Optimized,
        "non-optimized" => Ana::NonOptimized,
        "inaccessible" => Ana::Inaccessible,
        "persistent-loss" => Ana::PersistentLoss,
        _ => Ana::Changing,
    }
}

fn check_space(rt: &impl Abort, tree: &Tree, row: &SubsystemRow, space: &SlowSpace) {
    let found = row.namespaces.get(space.nsid).expect(rt, "in both");
    assert!(rt; path_text(&found.device_path) == space.path.as_bytes());
    assert_eq!(rt; found.disk, disk_number(space.path));
    assert_eq!(rt; found.uuid, uuid_bytes(space.uuid));
    assert_eq!(rt; found.nguid, uuid_bytes(space.nguid));
    assert_eq!(rt; found.group, group_number(space.group));
    assert_eq!(rt; found.enabled, space.phase == Phase::Enabled);
    assert_eq!(rt; tree.phase(&row.nqn, space.nsid), Some(space.phase));
}

// The namespaces are these, in rising order.
fn check_spaces(rt: &impl Abort, tree: &Tree, row: &SubsystemRow, spaces: &[SlowSpace]) {
    assert_eq!(rt; row.namespaces.len(), spaces.len());
    for space in spaces {
        check_space(rt, tree, row, space);
    }
    let mut last = 0;
    for (nsid, _) in row.namespaces.entries() {
        assert!(rt; last < *nsid, "NSIDs rise");
        last = *nsid;
    }
}

fn check_sub(rt: &impl Abort, alloc: Global, tree: &Tree, slow: &Slow, sub: &SlowSub) {
    let nqn = name(rt, alloc, "s", sub.name);
    let row = tree.subsystems().get(&nqn).expect(rt, "in both");
    assert!(rt; row.nqn == nqn);
    assert_eq!(rt; row.at, sub.at);
    assert_eq!(rt; row.allow_any_host, sub.any);
    assert!(rt; row.serial.as_bytes() == sub.serial.as_bytes());
    assert!(rt; row.model_name.as_bytes() == sub.model.as_bytes());
    let hosts = slow.hosts_of(rt, alloc, sub.name);
    check_names(rt, alloc, &row.allowed_hosts, "h", &hosts);
    check_spaces(rt, tree, row, &slow.spaces_of(rt, alloc, sub.name));
    assert_eq!(rt; tree.subsystem_at(nqn.as_bytes()), Some(sub.at));
    assert!(rt; tree.is_subsystem_place(sub.at));
    assert!(rt; tree.subsystem(sub.at).nqn == nqn);
}

// The subsystems are these, in byte order of NQN.
fn check_subs(rt: &impl Abort, alloc: Global, tree: &Tree, slow: &Slow) {
    assert_eq!(rt; tree.subsystems().len(), slow.subs.len());
    for sub in &slow.subs {
        check_sub(rt, alloc, tree, slow, sub);
    }
    let mut last: &[u8] = b"";
    for (_, row) in tree.subsystems().entries() {
        assert!(rt; last < row.nqn.as_bytes(), "NQNs rise");
        last = row.nqn.as_bytes();
    }
}

// The groups are these, in rising order.
fn check_groups(rt: &impl Abort, row: &PortRow, groups: &[SlowGroup]) {
    assert_eq!(rt; row.groups.len(), groups.len());
    for group in groups {
        let state = row.groups.get(group.group).expect(rt, "in both");
        assert!(rt; state.number() == state_of(group.state).number());
    }
    let mut last = 0;
    for (group, _) in row.groups.iter() {
        assert!(rt; last < *group, "groups rise");
        last = *group;
    }
}

fn check_addresses(rt: &impl Abort, row: &PortRow, port: &SlowPort) {
    for (address, text) in [
        (Address::Trtype, port.trtype),
        (Address::Adrfam, port.adrfam),
        (Address::Traddr, port.traddr),
        (Address::Trsvcid, port.trsvcid),
        (Address::Treq, port.treq),
    ] {
        assert!(rt;
            row.address(address).as_bytes() == text.as_bytes(),
            "{address:?}"
        );
    }
}

fn check_port(rt: &impl Abort, alloc: Global, tree: &Tree, slow: &Slow, port: &SlowPort) {
    let row = tree.ports().get(port.id).expect(rt, "in both");
    assert_eq!(rt; row.id, port.id);
    assert_eq!(rt; row.at, port.at);
    check_addresses(rt, row, port);
    let subs = slow.subs_of(rt, alloc, port.id);
    check_names(rt, alloc, &row.links, "s", &subs);
    check_groups(rt, row, &slow.groups_of(rt, alloc, port.id));
    assert_eq!(rt; tree.port_at(port.id), Some(port.at));
    assert!(rt; tree.is_port_place(port.at));
    assert_eq!(rt; tree.port(port.at).id, port.id);
}

// The ports are these, in the order of IDs.
fn check_ports(rt: &impl Abort, alloc: Global, tree: &Tree, slow: &Slow) {
    assert_eq!(rt; tree.ports().len(), slow.ports.len());
    for port in &slow.ports {
        check_port(rt, alloc, tree, slow, port);
    }
    let mut last = None;
    for (_, row) in tree.ports().entries() {
        assert!(rt; last < Some(row.id), "IDs rise");
        last = Some(row.id);
    }
}

// Each disk is held by the namespace that holds it in the slow tree.
fn check_disks(rt: &impl Abort, tree: &Tree, slow: &Slow) {
    for (number, path) in [(0, "/dev/ram0"), (1, "/dev/ram1")] {
        let disk = tree.disks().get(number).expect(rt, "two disks");
        assert!(rt; disk.path.as_bytes() == path.as_bytes());
        let holder = match slow.holder(path) {
            None => None,
            Some(space) => Some(Holder {
                sub: slow.sub(space.sub).expect(rt, "there").at,
                nsid: space.nsid,
            }),
        };
        assert_eq!(rt; disk.holder, holder);
    }
    assert_eq!(rt; tree.disks().len(), 2);
}

// A number past the last names nothing, and each before it a position in use or a host.
fn check_numbers(rt: &impl Abort, tree: &Tree, slow: &Slow) {
    for n in 0..65u32 {
        let place = n as usize;
        assert_eq!(rt; tree.nth_host(n).is_some(), place < slow.hosts.len());
        assert_eq!(rt; tree.nth_subsystem(n).is_some(), place < slow.subs.len());
        assert_eq!(rt; tree.nth_port(n).is_some(), place < slow.ports.len());
    }
}

/// The trees are one.
pub fn check_whole(rt: &impl Abort, alloc: Global, tree: &Tree, slow: &Slow) {
    check_names(rt, alloc, tree.hosts(), "h", &slow.hosts);
    check_subs(rt, alloc, tree, slow);
    check_ports(rt, alloc, tree, slow);
    check_disks(rt, tree, slow);
    check_numbers(rt, tree, slow);
    assert_eq!(rt; tree.ana_count(), slow.changes);
}
