// A small tree: the host hostnqn; the subsystems testnqn, which allows that host, anynqn, which allows any, and farnqn,
// which no port links; the ports 1, which links testnqn and anynqn, and 2, which links testnqn.
ghost use Rattle.std.specs.Prelude.{◌≡◌, []};
ghost use Rattle.fabrics_connect.specs.After.{AttachedAreThere};

use configfs_tree::{Attr, Folder, FolderEdit, Nqn, Tree};
use mem_bdev::Name;
use std::alloc::Global;
use std::process::Abort;

fn nqn(rt: &impl Abort, alloc: Global, text: &str) -> Nqn {
    let made = Nqn::new(alloc, text.as_bytes()).expect(rt, "memory");
    made.expect(rt, "an NQN")
}

// Makes an edit of the tree, which leaves what is attached.
fn apply(rt: &impl Abort, alloc: Global, t: &mut Tree, e: &FolderEdit)
    ensures { t.new.settings.attached ≡ t.old.settings.attached }
{
    assert!(rt; e.is_fitting(), "an edit that may be read");
    let done = t.apply_folder(alloc, e);
    assert!(rt; done.is_ok(), "an accepted edit");
}

fn set(rt: &impl Abort, alloc: Global, t: &mut Tree, folder: Folder, attr: Attr, value: &str)
    ensures { t.new.settings.attached ≡ t.old.settings.attached }
{
    let value = Name::copied(alloc, value.as_bytes()).expect(rt, "memory");
    apply(rt, alloc, t, &FolderEdit::Set(folder, attr, value));
}

fn make_sub(rt: &impl Abort, alloc: Global, t: &mut Tree, name: &str)
    ensures { t.new.settings.attached ≡ t.old.settings.attached }
{
    let folder = Folder::Subsystem(nqn(rt, alloc, name));
    apply(rt, alloc, t, &FolderEdit::Mkdir(folder));
}

fn make_port(rt: &impl Abort, alloc: Global, t: &mut Tree, id: u16)
    ensures { t.new.settings.attached ≡ t.old.settings.attached }
{
    apply(rt, alloc, t, &FolderEdit::Mkdir(Folder::Port(id)));
    set(rt, alloc, t, Folder::Port(id), Attr::Trtype, "loop");
}

/// Makes or takes away the link from a port to a subsystem.
#[tactic(auto, using(crate::proofs::Attached::link_leaves))]
pub fn link(rt: &impl Abort, t: &mut Tree, id: u16, sub: &str, linked: bool)
    ensures { t.new.settings.attached ≡ t.old.settings.attached }
{
    let port = t.port_at(id).expect(rt, "a port");
    let sub = t.subsystem_at(sub.as_bytes()).expect(rt, "a subsystem");
    assert!(rt; t.is_loop_port(port));
    let done = t.set_link(port, sub, linked);
    assert!(rt; done.is_ok(), "memory");
}

#[tactic(auto, using(crate::proofs::Attached::allow_leaves))]
fn allow(rt: &impl Abort, alloc: Global, t: &mut Tree, sub: &str, host: &str)
    ensures { t.new.settings.attached ≡ t.old.settings.attached }
{
    let host = nqn(rt, alloc, host);
    let sub = t.subsystem_at(sub.as_bytes()).expect(rt, "a subsystem");
    assert!(rt; t.has_host(&host) && !t.allows_any_host(sub));
    let done = t.set_allowed(sub, &host, true);
    assert!(rt; done.is_ok(), "memory");
}

fn make_subs(rt: &impl Abort, alloc: Global, t: &mut Tree)
    ensures { t.new.settings.attached ≡ t.old.settings.attached }
{
    let host = Folder::Host(nqn(rt, alloc, "hostnqn"));
    apply(rt, alloc, t, &FolderEdit::Mkdir(host));
    make_sub(rt, alloc, t, "testnqn");
    make_sub(rt, alloc, t, "anynqn");
    make_sub(rt, alloc, t, "farnqn");
    let any = Folder::Subsystem(nqn(rt, alloc, "anynqn"));
    set(rt, alloc, t, any, Attr::AllowAnyHost, "1");
    allow(rt, alloc, t, "testnqn", "hostnqn");
}

fn make_ports(rt: &impl Abort, alloc: Global, t: &mut Tree)
    ensures { t.new.settings.attached ≡ t.old.settings.attached }
{
    make_port(rt, alloc, t, 1);
    make_port(rt, alloc, t, 2);
    link(rt, t, 1, "testnqn", true);
    link(rt, t, 1, "anynqn", true);
    link(rt, t, 2, "testnqn", true);
}

/// The small tree.
#[tactic(auto, using(crate::proofs::Attached::none_attached))]
pub fn small_tree(rt: &impl Abort, alloc: Global) -> Tree
    ensures { AttachedAreThere result [] }
{
    let mut t = Tree::new(alloc, &[]).expect(rt, "memory");
    make_subs(rt, alloc, &mut t);
    make_ports(rt, alloc, &mut t);
    t
}
