// The whole tree as lines of text, one for each folder and each link, and one with the count of
// ANA changes.
use configfs_tree::{Nqn, Phase, PortRow, SubsystemRow, Tree};
use mem_bdev::Name;
use std::alloc::Global;
use std::process::Abort;
use std::str::from_utf8;

// The text of visible bytes and spaces.
fn text<'a>(rt: &impl Abort, bytes: &'a [u8]) -> &'a str {
    match from_utf8(bytes) {
        Ok(text) => text,
        Err(_) => rt.panic("no text"),
    }
}

// Sixteen bytes as hexadecimal digits.
fn digits(rt: &impl Abort, alloc: Global, bytes: &[u8; 16]) -> String {
    let mut digits = String::new(alloc);
    for byte in bytes {
        let two = format!(in alloc; "{byte:02x}").expect(rt, "memory");
        digits.push_str(two.as_str()).expect(rt, "memory");
    }
    digits
}

fn path_text<'a>(rt: &impl Abort, path: &'a Option<Name>) -> &'a str {
    match path {
        None => "unset",
        Some(path) => text(rt, path.as_bytes()),
    }
}

fn phase_text(phase: Option<Phase>) -> &'static str {
    match phase {
        None => "missing",
        Some(Phase::Off) => "off",
        Some(Phase::Enabled) => "enabled",
        Some(Phase::Draining) => "draining",
    }
}

/// Lines of text.
pub type Lines = Vec<String>;

fn add(rt: &impl Abort, lines: &mut Lines, line: String) {
    assert!(rt; lines.push(line).is_ok(), "memory");
}

// A namespace of a subsystem.
fn add_namespace(
    rt: &impl Abort,
    alloc: Global,
    tree: &Tree,
    row: &SubsystemRow,
    nsid: u32,
    lines: &mut Lines,
) {
    let namespace = row.namespaces.get(nsid).expect(rt, "listed");
    let sub = text(rt, row.nqn.as_bytes());
    let path = path_text(rt, &namespace.device_path);
    let uuid = digits(rt, alloc, &namespace.uuid);
    let nguid = digits(rt, alloc, &namespace.nguid);
    let group = namespace.group;
    let phase = phase_text(tree.phase(&row.nqn, nsid));
    let line = format!(in alloc; "namespace {sub} {nsid} {path} {uuid} {nguid} {group} {phase}");
    add(rt, lines, line.expect(rt, "memory"));
}

// The allowed hosts and the namespaces of a subsystem.
fn add_children(
    rt: &impl Abort,
    alloc: Global,
    tree: &Tree,
    row: &SubsystemRow,
    lines: &mut Lines,
) {
    let sub = text(rt, row.nqn.as_bytes());
    for n in 0..row.allowed_hosts.len() {
        let host: &Nqn = row.allowed_hosts.nth(n).expect(rt, "one of them");
        let host = text(rt, host.as_bytes());
        let line = format!(in alloc; "allowed {sub} {host}").expect(rt, "memory");
        add(rt, lines, line);
    }
    for n in 0..row.namespaces.len() {
        let nsid = row.namespaces.nth(n).expect(rt, "one of them");
        add_namespace(rt, alloc, tree, row, nsid, lines);
    }
}

fn add_subsystem(
    rt: &impl Abort,
    alloc: Global,
    tree: &Tree,
    row: &SubsystemRow,
    lines: &mut Lines,
) {
    let (at, sub) = (row.at, text(rt, row.nqn.as_bytes()));
    let any = u8::from(row.allow_any_host);
    let serial = text(rt, row.serial.as_bytes());
    let model = text(rt, row.model_name.as_bytes());
    let line = format!(in alloc; "subsystem {sub} {at} {any} '{serial}' '{model}'");
    add(rt, lines, line.expect(rt, "memory"));
    add_children(rt, alloc, tree, row, lines);
}

// The links and the ANA groups of a port.
fn add_port_children(rt: &impl Abort, alloc: Global, row: &PortRow, lines: &mut Lines) {
    let id = row.id;
    for n in 0..row.links.len() {
        let sub: &Nqn = row.links.nth(n).expect(rt, "one of them");
        let sub = text(rt, sub.as_bytes());
        let line = format!(in alloc; "link {id} {sub}").expect(rt, "memory");
        add(rt, lines, line);
    }
    for n in 0..row.groups.len() {
        let group = row.groups.nth(n).expect(rt, "one of them");
        let state = row.groups.get(group).expect(rt, "one of them").text();
        let line = format!(in alloc; "group {id} {group} {state}").expect(rt, "memory");
        add(rt, lines, line);
    }
}

fn add_port(rt: &impl Abort, alloc: Global, row: &PortRow, lines: &mut Lines) {
    let (id, at) = (row.id, row.at);
    let trtype = text(rt, row.trtype.as_bytes());
    let adrfam = text(rt, row.adrfam.as_bytes());
    let traddr = text(rt, row.traddr.as_bytes());
    let trsvcid = text(rt, row.trsvcid.as_bytes());
    let treq = text(rt, row.treq.as_bytes());
    let line = format!(in alloc;
        "port {id} {at} '{trtype}' '{adrfam}' '{traddr}' '{trsvcid}' '{treq}'"
    );
    add(rt, lines, line.expect(rt, "memory"));
    add_port_children(rt, alloc, row, lines);
}

fn add_hosts(rt: &impl Abort, alloc: Global, tree: &Tree, lines: &mut Lines) {
    for n in 0..64 {
        if let Some(host) = tree.nth_host(n) {
            let host = text(rt, host.as_bytes());
            let line = format!(in alloc; "host {host}").expect(rt, "memory");
            add(rt, lines, line);
        }
    }
}

/// The lines of the whole tree.
pub fn list_whole(rt: &impl Abort, alloc: Global, tree: &Tree) -> Lines {
    let mut lines = Vec::new(alloc);
    add_hosts(rt, alloc, tree, &mut lines);
    for n in 0..16 {
        if let Some(at) = tree.nth_subsystem(n) {
            add_subsystem(rt, alloc, tree, tree.subsystem(at), &mut lines);
        }
    }
    for n in 0..8 {
        if let Some(at) = tree.nth_port(n) {
            add_port(rt, alloc, tree.port(at), &mut lines);
        }
    }
    let changes = tree.ana_count();
    let line = format!(in alloc; "changes {changes}").expect(rt, "memory");
    add(rt, &mut lines, line);
    lines
}

// Whether a line is one of these.
fn has_line(lines: &Lines, line: &str) -> bool {
    lines.iter().any(|l| l.as_str() == line)
}

/// What differs between two lists of lines: `-` and each line that is gone, `+` and each new one,
/// with `; ` between them.
pub fn difference(rt: &impl Abort, alloc: Global, before: &Lines, after: &Lines) -> String {
    let mut text = String::new(alloc);
    for (sign, from, to) in [("-", before, after), ("+", after, before)] {
        for line in from.as_slice() {
            if !has_line(to, line.as_str()) {
                if !text.is_empty() {
                    text.push_str("; ").expect(rt, "memory");
                }
                text.push_str(sign).expect(rt, "memory");
                text.push_str(line.as_str()).expect(rt, "memory");
            }
        }
    }
    text
}
