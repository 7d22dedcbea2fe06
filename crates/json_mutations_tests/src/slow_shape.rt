// The first member of another kind, looked for element by element.
use crate::slow_json::{Kind, Node, children, member};
use crate::slow_numbers::whole;
use crate::texts::Text;
use std::alloc::Global;
use std::process::Abort;

pub(crate) const ATTR: &[&str] = &["allow_any_host", "model", "serial"];

pub(crate) const DEVICE: &[&str] = &["nguid", "path", "uuid"];

pub(crate) const ADDR: &[&str] = &["adrfam", "traddr", "treq", "trsvcid", "trtype"];

// What a member has to be.
#[derive(Clone, Copy)]
enum Want {
    Nqn,
    // A text of bytes from 20h to 7Eh, or a whole number.
    Value,
    // A number below this, or its text.
    Number(u64),
    Flag,
}

// The number that a text or a number is.
pub(crate) fn number_of(node: &Node) -> Option<u64> {
    match node.kind {
        Kind::Text | Kind::Number => whole(&node.text),
        _ => None,
    }
}

fn fits(node: &Node, want: Want) -> bool {
    let text = node.text.as_slice();
    match want {
        Want::Nqn => {
            node.kind == Kind::Text
                && !text.is_empty()
                && text.len() < 224
                && text.iter().all(|b| *b > 32 && *b < 127 && *b != b'/')
        }
        Want::Value => match node.kind {
            Kind::Text => text.iter().all(|b| *b > 31 && *b < 127),
            Kind::Number => whole(text).is_some(),
            _ => false,
        },
        Want::Number(limit) => match number_of(node) {
            Some(number) => number < limit,
            None => false,
        },
        Want::Flag => {
            (node.kind == Kind::Text || node.kind == Kind::Number)
                && (text == b"0".as_slice() || text == b"1".as_slice())
        }
    }
}

// The pointer of the first fault.
type Shape = Result<(), Vec<u8>>;

fn pointer(rt: &impl Abort, alloc: Global, base: &[u8], name: &str) -> Vec<u8> {
    let mut text = Text::new(alloc);
    text.put(rt, base);
    text.put(rt, b"/");
    text.put(rt, name.as_bytes());
    text.bytes
}

fn entry(rt: &impl Abort, alloc: Global, base: &[u8], number: usize) -> Vec<u8> {
    let mut text = Text::new(alloc);
    text.put(rt, base);
    text.put(rt, b"/");
    text.number(rt, number as u64);
    text.bytes
}

fn is_of(rt: &impl Abort, alloc: Global, nodes: &[Node], at: usize, kind: Kind, p: &[u8]) -> Shape {
    match nodes.get(at) {
        Some(node) if node.kind == kind => Ok(()),
        _ => {
            let mut text = Text::new(alloc);
            text.put(rt, p);
            Err(text.bytes)
        }
    }
}

// One value.
fn value(rt: &impl Abort, alloc: Global, nodes: &[Node], at: usize, want: Want, p: &[u8]) -> Shape {
    match nodes.get(at) {
        Some(node) if fits(node, want) => Ok(()),
        _ => {
            let mut text = Text::new(alloc);
            text.put(rt, p);
            Err(text.bytes)
        }
    }
}

// A member that has to be there.
fn must(
    rt: &impl Abort,
    alloc: Global,
    nodes: &[Node],
    of: usize,
    name: &str,
    want: Want,
    p: &[u8],
) -> Shape {
    let here = pointer(rt, alloc, p, name);
    match member(rt, alloc, nodes, of, name) {
        Some(at) => value(rt, alloc, nodes, at, want, &here),
        None => Err(here),
    }
}

// Members that may be missing.
fn may(
    rt: &impl Abort,
    alloc: Global,
    nodes: &[Node],
    of: usize,
    names: &[&str],
    want: Want,
    p: &[u8],
) -> Shape {
    for name in names {
        if let Some(at) = member(rt, alloc, nodes, of, name) {
            value(rt, alloc, nodes, at, want, &pointer(rt, alloc, p, name))?;
        }
    }
    Ok(())
}

// An object of values of one kind, any of which may be missing.
fn values(
    rt: &impl Abort,
    alloc: Global,
    nodes: &[Node],
    of: usize,
    name: &str,
    names: &[&str],
    want: Want,
    p: &[u8],
) -> Shape {
    if let Some(at) = member(rt, alloc, nodes, of, name) {
        let here = pointer(rt, alloc, p, name);
        is_of(rt, alloc, nodes, at, Kind::Object, &here)?;
        may(rt, alloc, nodes, at, names, want, &here)?;
    }
    Ok(())
}

// The entries of a member that is an array; none where it is missing.
fn entries(
    rt: &impl Abort,
    alloc: Global,
    nodes: &[Node],
    of: usize,
    name: &str,
    p: &[u8],
) -> Result<Vec<usize>, Vec<u8>> {
    match member(rt, alloc, nodes, of, name) {
        Some(at) => {
            is_of(
                rt,
                alloc,
                nodes,
                at,
                Kind::Array,
                &pointer(rt, alloc, p, name),
            )?;
            Ok(children(rt, alloc, nodes, at))
        }
        None => Ok(Vec::new(alloc)),
    }
}

fn nqns(rt: &impl Abort, alloc: Global, nodes: &[Node], of: usize, name: &str, p: &[u8]) -> Shape {
    let here = pointer(rt, alloc, p, name);
    for (i, at) in entries(rt, alloc, nodes, of, name, p)?.iter().enumerate() {
        value(
            rt,
            alloc,
            nodes,
            *at,
            Want::Nqn,
            &entry(rt, alloc, &here, i),
        )?;
    }
    Ok(())
}

fn host(rt: &impl Abort, alloc: Global, nodes: &[Node], at: usize, p: &[u8]) -> Shape {
    is_of(rt, alloc, nodes, at, Kind::Object, p)?;
    must(rt, alloc, nodes, at, "nqn", Want::Nqn, p)
}

fn namespace(rt: &impl Abort, alloc: Global, nodes: &[Node], at: usize, p: &[u8]) -> Shape {
    is_of(rt, alloc, nodes, at, Kind::Object, p)?;
    let id = Want::Number(0x1_0000_0000);
    must(rt, alloc, nodes, at, "nsid", id, p)?;
    values(rt, alloc, nodes, at, "ana", &["grpid"], id, p)?;
    may(rt, alloc, nodes, at, &["ana_grpid"], Want::Value, p)?;
    values(rt, alloc, nodes, at, "device", DEVICE, Want::Value, p)?;
    may(rt, alloc, nodes, at, &["enable"], Want::Flag, p)
}

fn subsystem(rt: &impl Abort, alloc: Global, nodes: &[Node], at: usize, p: &[u8]) -> Shape {
    is_of(rt, alloc, nodes, at, Kind::Object, p)?;
    must(rt, alloc, nodes, at, "nqn", Want::Nqn, p)?;
    nqns(rt, alloc, nodes, at, "allowed_hosts", p)?;
    values(rt, alloc, nodes, at, "attr", ATTR, Want::Value, p)?;
    let here = pointer(rt, alloc, p, "namespaces");
    for (i, at) in entries(rt, alloc, nodes, at, "namespaces", p)?
        .iter()
        .enumerate()
    {
        namespace(rt, alloc, nodes, *at, &entry(rt, alloc, &here, i))?;
    }
    Ok(())
}

fn group(rt: &impl Abort, alloc: Global, nodes: &[Node], at: usize, p: &[u8]) -> Shape {
    is_of(rt, alloc, nodes, at, Kind::Object, p)?;
    must(
        rt,
        alloc,
        nodes,
        at,
        "grpid",
        Want::Number(0x1_0000_0000),
        p,
    )?;
    values(rt, alloc, nodes, at, "ana", &["state"], Want::Value, p)
}

fn port(rt: &impl Abort, alloc: Global, nodes: &[Node], at: usize, p: &[u8]) -> Shape {
    is_of(rt, alloc, nodes, at, Kind::Object, p)?;
    must(rt, alloc, nodes, at, "portid", Want::Number(65_536), p)?;
    values(rt, alloc, nodes, at, "addr", ADDR, Want::Value, p)?;
    let here = pointer(rt, alloc, p, "ana_groups");
    for (i, at) in entries(rt, alloc, nodes, at, "ana_groups", p)?
        .iter()
        .enumerate()
    {
        group(rt, alloc, nodes, *at, &entry(rt, alloc, &here, i))?;
    }
    entries(rt, alloc, nodes, at, "referrals", p)?;
    nqns(rt, alloc, nodes, at, "subsystems", p)
}

// The first member of another kind.
pub(crate) fn shape(rt: &impl Abort, alloc: Global, nodes: &[Node]) -> Shape {
    is_of(rt, alloc, nodes, 0, Kind::Object, b"")?;
    for (i, at) in entries(rt, alloc, nodes, 0, "hosts", b"")?
        .iter()
        .enumerate()
    {
        host(rt, alloc, nodes, *at, &entry(rt, alloc, b"/hosts", i))?;
    }
    for (i, at) in entries(rt, alloc, nodes, 0, "subsystems", b"")?
        .iter()
        .enumerate()
    {
        subsystem(rt, alloc, nodes, *at, &entry(rt, alloc, b"/subsystems", i))?;
    }
    for (i, at) in entries(rt, alloc, nodes, 0, "ports", b"")?
        .iter()
        .enumerate()
    {
        port(rt, alloc, nodes, *at, &entry(rt, alloc, b"/ports", i))?;
    }
    Ok(())
}
