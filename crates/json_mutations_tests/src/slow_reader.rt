// A plain slow reader of configurations: the whole text as values, then the first fault, then the
// edits as lines of a script, then what is passed over.
use crate::slow_json::{Kind, Node, children, member, slow_values};
use crate::slow_shape::{ADDR, ATTR, DEVICE, number_of, shape};
use crate::texts::Text;
use std::alloc::Global;
use std::process::Abort;

// The bytes of the member of this name.
fn bytes_of<'a>(
    rt: &impl Abort,
    alloc: Global,
    nodes: &'a [Node],
    of: usize,
    name: &str,
) -> Option<&'a [u8]> {
    let at = member(rt, alloc, nodes, of, name)?;
    let node = nodes.get(at)?;
    Some(node.text.as_slice())
}

// The number of the member of this name.
fn number_in(rt: &impl Abort, alloc: Global, nodes: &[Node], of: usize, name: &str) -> Option<u64> {
    let at = member(rt, alloc, nodes, of, name)?;
    number_of(nodes.get(at)?)
}

fn put_set(rt: &impl Abort, out: &mut Text, folder: &[u8], attribute: &[u8], value: &[u8]) {
    out.put(rt, b"set ");
    out.put(rt, folder);
    out.put(rt, b" ");
    out.put(rt, attribute);
    out.put(rt, b" ");
    out.put(rt, value);
    out.put(rt, b"\n");
}

fn put_mkdir(rt: &impl Abort, out: &mut Text, folder: &[u8]) {
    out.put(rt, b"mkdir ");
    out.put(rt, folder);
    out.put(rt, b"\n");
}

// The members of one object of values, each as an attribute with this before its name.
fn put_values(
    rt: &impl Abort,
    alloc: Global,
    nodes: &[Node],
    of: usize,
    names: &[&str],
    folder: &[u8],
    before: &str,
    out: &mut Text,
) {
    for name in names {
        if let Some(value) = bytes_of(rt, alloc, nodes, of, name) {
            if *name == "trtype" && value.is_empty() {
                continue;
            }
            let mut attribute = Text::new(alloc);
            attribute.put(rt, before.as_bytes());
            attribute.put(rt, name.as_bytes());
            put_set(rt, out, folder, &attribute.bytes, value);
        }
    }
}

// `FOLDER/KIND/NUMBER`
fn numbered(rt: &impl Abort, alloc: Global, folder: &[u8], kind: &[u8], number: u64) -> Vec<u8> {
    let mut path = Text::new(alloc);
    path.put(rt, folder);
    path.put(rt, kind);
    path.number(rt, number);
    path.bytes
}

fn put_namespace(
    rt: &impl Abort,
    alloc: Global,
    nodes: &[Node],
    at: usize,
    sub: &[u8],
    out: &mut Text,
) {
    let nsid = number_in(rt, alloc, nodes, at, "nsid").unwrap_or(0);
    let folder = numbered(rt, alloc, sub, b"/namespaces/", nsid);
    put_mkdir(rt, out, &folder);
    if let Some(device) = member(rt, alloc, nodes, at, "device") {
        put_values(rt, alloc, nodes, device, DEVICE, &folder, "device_", out);
    }
    if let Some(group) = bytes_of(rt, alloc, nodes, at, "ana_grpid") {
        put_set(rt, out, &folder, b"ana_grpid", group);
    } else if let Some(ana) = member(rt, alloc, nodes, at, "ana") {
        if let Some(group) = bytes_of(rt, alloc, nodes, ana, "grpid") {
            put_set(rt, out, &folder, b"ana_grpid", group);
        }
    }
    if bytes_of(rt, alloc, nodes, at, "enable") == Some(b"1".as_slice()) {
        put_set(rt, out, &folder, b"enable", b"1");
    }
}

fn put_subsystem(rt: &impl Abort, alloc: Global, nodes: &[Node], at: usize, out: &mut Text) {
    let mut sub = Text::new(alloc);
    sub.put(rt, b"subsystems/");
    sub.put(rt, bytes_of(rt, alloc, nodes, at, "nqn").unwrap_or(b""));
    put_mkdir(rt, out, &sub.bytes);
    if let Some(attr) = member(rt, alloc, nodes, at, "attr") {
        put_values(rt, alloc, nodes, attr, ATTR, &sub.bytes, "attr_", out);
    }
    if let Some(hosts) = member(rt, alloc, nodes, at, "allowed_hosts") {
        for host in &children(rt, alloc, nodes, hosts) {
            if let Some(node) = nodes.get(*host) {
                out.put(rt, b"link ");
                out.put(rt, &sub.bytes);
                out.put(rt, b"/allowed_hosts/");
                out.put(rt, &node.text);
                out.put(rt, b"\n");
            }
        }
    }
    if let Some(all) = member(rt, alloc, nodes, at, "namespaces") {
        for namespace in &children(rt, alloc, nodes, all) {
            put_namespace(rt, alloc, nodes, *namespace, &sub.bytes, out);
        }
    }
}

fn put_group(
    rt: &impl Abort,
    alloc: Global,
    nodes: &[Node],
    at: usize,
    port: &[u8],
    out: &mut Text,
) {
    let id = number_in(rt, alloc, nodes, at, "grpid").unwrap_or(0);
    let folder = numbered(rt, alloc, port, b"/ana_groups/", id);
    if id != 1 {
        put_mkdir(rt, out, &folder);
    }
    if let Some(ana) = member(rt, alloc, nodes, at, "ana") {
        put_values(rt, alloc, nodes, ana, &["state"], &folder, "ana_", out);
    }
}

fn put_port(rt: &impl Abort, alloc: Global, nodes: &[Node], at: usize, out: &mut Text) {
    let id = number_in(rt, alloc, nodes, at, "portid").unwrap_or(0);
    let folder = numbered(rt, alloc, b"ports", b"/", id);
    put_mkdir(rt, out, &folder);
    if let Some(addr) = member(rt, alloc, nodes, at, "addr") {
        put_values(rt, alloc, nodes, addr, ADDR, &folder, "addr_", out);
    }
    if let Some(groups) = member(rt, alloc, nodes, at, "ana_groups") {
        for group in &children(rt, alloc, nodes, groups) {
            put_group(rt, alloc, nodes, *group, &folder, out);
        }
    }
    if let Some(links) = member(rt, alloc, nodes, at, "subsystems") {
        for link in &children(rt, alloc, nodes, links) {
            if let Some(node) = nodes.get(*link) {
                out.put(rt, b"link ");
                out.put(rt, &folder);
                out.put(rt, b"/subsystems/");
                out.put(rt, &node.text);
                out.put(rt, b"\n");
            }
        }
    }
}

fn put_edits(rt: &impl Abort, alloc: Global, nodes: &[Node], out: &mut Text) {
    if let Some(hosts) = member(rt, alloc, nodes, 0, "hosts") {
        for host in &children(rt, alloc, nodes, hosts) {
            out.put(rt, b"mkdir hosts/");
            out.put(rt, bytes_of(rt, alloc, nodes, *host, "nqn").unwrap_or(b""));
            out.put(rt, b"\n");
        }
    }
    if let Some(subsystems) = member(rt, alloc, nodes, 0, "subsystems") {
        for subsystem in &children(rt, alloc, nodes, subsystems) {
            put_subsystem(rt, alloc, nodes, *subsystem, out);
        }
    }
    if let Some(ports) = member(rt, alloc, nodes, 0, "ports") {
        for port in &children(rt, alloc, nodes, ports) {
            put_port(rt, alloc, nodes, *port, out);
        }
    }
}

// How many members of one object have another name, each name once.
fn unknown(rt: &impl Abort, alloc: Global, nodes: &[Node], of: usize, names: &[&str]) -> u64 {
    let mut count = 0u64;
    let all = children(rt, alloc, nodes, of);
    for (i, at) in all.iter().enumerate() {
        let Some(node) = nodes.get(*at) else { continue };
        let key = node.key.as_slice();
        let is_known = names.iter().any(|name| name.as_bytes() == key);
        let mut comes_again = false;
        for (j, later) in all.iter().enumerate() {
            if let Some(other) = nodes.get(*later)
                && j > i
                && other.key.as_slice() == key
            {
                comes_again = true;
            }
        }
        if !is_known && !comes_again {
            count = count.saturating_add(1);
        }
    }
    count
}

// The unknown members of the object that is the member of this name.
fn unknown_in(
    rt: &impl Abort,
    alloc: Global,
    nodes: &[Node],
    of: usize,
    name: &str,
    names: &[&str],
) -> u64 {
    match member(rt, alloc, nodes, of, name) {
        Some(at) => unknown(rt, alloc, nodes, at, names),
        None => 0,
    }
}

// The entries of the array that is the member of this name.
fn entries_of(rt: &impl Abort, alloc: Global, nodes: &[Node], of: usize, name: &str) -> Vec<usize> {
    match member(rt, alloc, nodes, of, name) {
        Some(at) => children(rt, alloc, nodes, at),
        None => Vec::new(alloc),
    }
}

fn passed_over_in_subsystem(rt: &impl Abort, alloc: Global, nodes: &[Node], at: usize) -> u64 {
    let names = ["nqn", "attr", "allowed_hosts", "namespaces"];
    let mut count = unknown(rt, alloc, nodes, at, &names).saturating_add(unknown_in(
        rt, alloc, nodes, at, "attr", ATTR,
    ));
    for namespace in &entries_of(rt, alloc, nodes, at, "namespaces") {
        let names = ["nsid", "device", "ana_grpid", "ana", "enable"];
        count = count
            .saturating_add(unknown(rt, alloc, nodes, *namespace, &names))
            .saturating_add(unknown_in(rt, alloc, nodes, *namespace, "device", DEVICE))
            .saturating_add(unknown_in(rt, alloc, nodes, *namespace, "ana", &["grpid"]));
    }
    count
}

fn passed_over_in_port(rt: &impl Abort, alloc: Global, nodes: &[Node], at: usize) -> u64 {
    let names = ["portid", "addr", "referrals", "ana_groups", "subsystems"];
    let referrals = entries_of(rt, alloc, nodes, at, "referrals").len();
    let mut count = unknown(rt, alloc, nodes, at, &names)
        .saturating_add(unknown_in(rt, alloc, nodes, at, "addr", ADDR))
        .saturating_add(referrals as u64);
    for group in &entries_of(rt, alloc, nodes, at, "ana_groups") {
        count = count
            .saturating_add(unknown(rt, alloc, nodes, *group, &["grpid", "ana"]))
            .saturating_add(unknown_in(rt, alloc, nodes, *group, "ana", &["state"]));
    }
    count
}

fn passed_over(rt: &impl Abort, alloc: Global, nodes: &[Node]) -> u64 {
    let mut count = unknown(rt, alloc, nodes, 0, &["hosts", "ports", "subsystems"]);
    for host in &entries_of(rt, alloc, nodes, 0, "hosts") {
        count = count.saturating_add(unknown(rt, alloc, nodes, *host, &["nqn"]));
    }
    for subsystem in &entries_of(rt, alloc, nodes, 0, "subsystems") {
        count = count.saturating_add(passed_over_in_subsystem(rt, alloc, nodes, *subsystem));
    }
    for port in &entries_of(rt, alloc, nodes, 0, "ports") {
        count = count.saturating_add(passed_over_in_port(rt, alloc, nodes, *port));
    }
    count
}

// What a text loads to: `no JSON`, `member POINTER`, or the lines of its edits and the count.
pub(crate) fn slow_answer(rt: &impl Abort, alloc: Global, text: &[u8]) -> Text {
    let mut out = Text::new(alloc);
    let Some(nodes) = slow_values(rt, alloc, text) else {
        out.put(rt, b"no JSON");
        return out;
    };
    match shape(rt, alloc, &nodes) {
        Err(at) => {
            out.put(rt, b"member ");
            out.put(rt, &at);
        }
        Ok(()) => {
            put_edits(rt, alloc, &nodes, &mut out);
            out.number(rt, passed_over(rt, alloc, &nodes));
        }
    }
    out
}
