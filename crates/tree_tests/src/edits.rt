// Edits as data, and what an accepted one tells as a text.
use configfs_tree::{Attr, Change, Folder, FolderEdit, Nqn, Touched};
use mem_bdev::Name;
use std::alloc::Global;
use std::process::Abort;

/// A folder, by texts and numbers.
#[derive(Clone, Copy)]
pub enum At {
    Host(&'static str),
    Sub(&'static str),
    Space(&'static str, u32),
    Port(u16),
    Group(u16, u32),
}

/// An edit.
#[derive(Clone, Copy)]
pub enum Do {
    Mkdir(At),
    Rmdir(At),
    Set(At, Attr, &'static str),
}

/// The NQN of a text.
pub fn name(rt: &impl Abort, alloc: Global, text: &str) -> Nqn {
    let made = Nqn::new(alloc, text.as_bytes()).expect(rt, "memory");
    made.expect(rt, "an NQN")
}

fn folder(rt: &impl Abort, alloc: Global, at: At) -> Folder {
    match at {
        At::Host(host) => Folder::Host(name(rt, alloc, host)),
        At::Sub(sub) => Folder::Subsystem(name(rt, alloc, sub)),
        At::Space(sub, nsid) => Folder::Namespace(name(rt, alloc, sub), nsid),
        At::Port(id) => Folder::Port(id),
        At::Group(id, group) => Folder::AnaGroup(id, group),
    }
}

/// The edit that the data say.
pub fn edit(rt: &impl Abort, alloc: Global, what: Do) -> FolderEdit {
    match what {
        Do::Mkdir(at) => FolderEdit::Mkdir(folder(rt, alloc, at)),
        Do::Rmdir(at) => FolderEdit::Rmdir(folder(rt, alloc, at)),
        Do::Set(at, attr, value) => {
            let value = Name::copied(alloc, value.as_bytes()).expect(rt, "memory");
            FolderEdit::Set(folder(rt, alloc, at), attr, value)
        }
    }
}

// The row that a change names, with a space before it.
fn touched_text(rt: &impl Abort, alloc: Global, touched: Touched) -> String {
    let text = match touched {
        Touched::Nothing => String::from_str(alloc, ""),
        Touched::Namespace(at, nsid) => format!(in alloc; " namespace {at} {nsid}"),
        Touched::Group(at, group) => format!(in alloc; " group {at} {group}"),
        Touched::Port(at) => format!(in alloc; " port {at}"),
        Touched::Subsystem(at) => format!(in alloc; " subsystem {at}"),
        Touched::Controller(id) => format!(in alloc; " controller {id}"),
    };
    text.expect(rt, "memory")
}

// The namespace change and the ANA changes.
fn notices_text(rt: &impl Abort, alloc: Global, change: &Change) -> String {
    let mut text = String::new(alloc);
    if let Some((at, nsid)) = change.namespace {
        let part = format!(in alloc; ", turns {at} {nsid}").expect(rt, "memory");
        text.push_str(part.as_str()).expect(rt, "memory");
    }
    if change.drains {
        text.push_str(", drains").expect(rt, "memory");
    }
    if let Some(at) = change.ana_port {
        let part = format!(in alloc; ", ANA of port {at}").expect(rt, "memory");
        text.push_str(part.as_str()).expect(rt, "memory");
    }
    if let Some(at) = change.ana_subsystem {
        let part = format!(in alloc; ", ANA of subsystem {at}").expect(rt, "memory");
        text.push_str(part.as_str()).expect(rt, "memory");
    }
    text
}

/// What a change tells: whether the configuration differs, the row whose words may differ, the
/// namespace that turns, the port or subsystem with an ANA change.
pub fn tells_text(rt: &impl Abort, alloc: Global, change: &Change) -> String {
    let published = if change.published {
        "published"
    } else {
        "same"
    };
    let touched = touched_text(rt, alloc, change.touched);
    let notices = notices_text(rt, alloc, change);
    format!(in alloc; "{published}{touched}{notices}").expect(rt, "memory")
}
