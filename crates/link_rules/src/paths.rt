// The paths of folders and of links.
ghost use Rattle.std.specs.Prelude.{◌≡◌, ◌≢◌, ◌<◌, ◌==◌, ◌&&◌, ◌∷◌, ℕ, [], codes, length, slice_index, EachIndex, MatchOption};
ghost use Rattle.std.specs.Str.{bytes_eq};
ghost use Rattle.link_rules.specs.Parts.{AreParts};
ghost use Rattle.link_rules.specs.Reading.{folder_in, host_link, inner_folder, link_between, link_in, outer_folder, parts_of, port_link};

use crate::edits::LinkEdit;
use crate::words::{identifier, nqn, port_id};
use configfs_tree::{Folder, Nqn};

// Where a '/' first stands.
fn first_slash(path: &[u8]) -> Option<usize>
    ensures { MatchOption result
        (EachIndex path.now (λ k. slice_index path.now k ≢ 47))
        (λ i. (i < length path.now) × (slice_index path.now i ≡ 47)
        × ((k : ℕ) → k < i → slice_index path.now k ≢ 47)) }
{
    path.iter().position(|b| *b == b'/')
}

// The first part, and what follows the '/' after it.
fn cut_part(path: &[u8]) -> (&[u8], Option<&[u8]>)
    ensures { MatchOption result.1 (parts_of path.now ≡ result.0.now ∷ [])
        (λ rest. parts_of path.now ≡ result.0.now ∷ parts_of rest.now) }
{
    match first_slash(path) {
        Some(end) => (&path[..end], Some(&path[end + 1..])),
        None => (path, None),
    }
}

// The parts of a path, where there are as many as a folder or a link has.
pub(crate) enum Parts<'a> {
    Two(&'a [u8], &'a [u8]),
    Four(&'a [u8], &'a [u8], &'a [u8], &'a [u8]),
    Other,
}

fn path_parts(path: &[u8]) -> Parts<'_>
    ensures { AreParts (parts_of path.now) result }
{
    let (kind, rest) = cut_part(path);
    let Some(rest) = rest else {
        return Parts::Other;
    };
    let (name, rest) = cut_part(rest);
    let Some(rest) = rest else {
        return Parts::Two(kind, name);
    };
    let (inner, rest) = cut_part(rest);
    let Some(rest) = rest else {
        return Parts::Other;
    };
    let (last, rest) = cut_part(rest);
    match rest {
        None => Parts::Four(kind, name, inner, last),
        Some(_) => Parts::Other,
    }
}

fn is_subsystem(kind: &[u8]) -> bool
    ensures { result ≡ bytes_eq kind.now (codes "subsystems") }
{
    kind == b"subsystems".as_slice()
}

fn is_port(kind: &[u8]) -> bool
    ensures { result ≡ bytes_eq kind.now (codes "ports") }
{
    kind == b"ports".as_slice()
}

#[tactic(auto, unfolding(crate::specs::Reading::outer_folder))]
fn outer_folder(kind: &[u8], name: &[u8]) -> Option<Folder>
    ensures { result ≡ outer_folder kind.now name.now }
{
    if kind == b"hosts".as_slice() {
        return nqn(name).map(Folder::Host);
    }
    if is_subsystem(kind) {
        return nqn(name).map(Folder::Subsystem);
    }
    if is_port(kind) {
        return port_id(name).map(Folder::Port);
    }
    None
}

#[tactic(auto, unfolding(crate::specs::Reading::inner_folder))]
fn inner_folder(kind: &[u8], name: &[u8], inner: &[u8], last: &[u8]) -> Option<Folder>
    ensures { result ≡ inner_folder kind.now name.now inner.now last.now }
{
    if is_subsystem(kind) && inner == b"namespaces".as_slice() {
        let sub = nqn(name)?;
        let nsid = identifier(last)?;
        return Some(Folder::Namespace(sub, nsid));
    }
    if is_port(kind) && inner == b"ana_groups".as_slice() {
        let id = port_id(name)?;
        let group = identifier(last)?;
        return Some(Folder::AnaGroup(id, group));
    }
    None
}

/// The folder of a path.
pub(crate) fn folder(path: &[u8]) -> Option<Folder>
    ensures { result ≡ folder_in path.now }
{
    match path_parts(path) {
        Parts::Two(kind, name) => outer_folder(kind, name),
        Parts::Four(kind, name, inner, last) => inner_folder(kind, name, inner, last),
        Parts::Other => None,
    }
}

fn host_link(made: bool, sub: Nqn, host: Nqn) -> LinkEdit
    ensures { result ≡ host_link made sub host }
{
    if made {
        LinkEdit::AllowHost(sub, host)
    } else {
        LinkEdit::DisallowHost(sub, host)
    }
}

fn port_link(made: bool, id: u16, sub: Nqn) -> LinkEdit
    ensures { result ≡ port_link made id sub }
{
    if made {
        LinkEdit::LinkSubsystem(id, sub)
    } else {
        LinkEdit::UnlinkSubsystem(id, sub)
    }
}

#[tactic(auto, unfolding(crate::specs::Reading::link_between))]
fn link_between(made: bool, kind: &[u8], name: &[u8], inner: &[u8], last: &[u8]) -> Option<LinkEdit>
    ensures { result ≡ link_between made kind.now name.now inner.now last.now }
{
    if is_subsystem(kind) && inner == b"allowed_hosts".as_slice() {
        let sub = nqn(name)?;
        let host = nqn(last)?;
        return Some(host_link(made, sub, host));
    }
    if is_port(kind) && is_subsystem(inner) {
        let id = port_id(name)?;
        let sub = nqn(last)?;
        return Some(port_link(made, id, sub));
    }
    None
}

/// The edit that makes the link of a path, or takes it away.
pub(crate) fn link(made: bool, path: &[u8]) -> Option<LinkEdit>
    ensures { result ≡ link_in made path.now }
{
    match path_parts(path) {
        Parts::Four(kind, name, inner, last) => link_between(made, kind, name, inner, last),
        Parts::Two(_, _) | Parts::Other => None,
    }
}
