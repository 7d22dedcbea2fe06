// The start of a simple plan: the edits that make its configuration, and the target over it.
ghost use Rattle.std.specs.Prelude.{◌≡◌, ℕ, IfOk, IsTrue, length};
ghost use Rattle.mem_bdev.specs.Blocks.{IsShape};
ghost use Rattle.plan_files.specs.Spelling.{is_name};
ghost use Rattle.tree_target.specs.Kept.{IsIdle};
ghost use Rattle.tree_target.specs.SimpleEdits.{SimpleIsEdited, mkdir_edit, simple_edits, tree_before_attach, set_edit};
ghost use Rattle.tree_target.specs.Stands.{StandsFor};
ghost use Rattle.tree_target.specs.Start.{simple_nqn, simple_start, simple_tree};

use crate::start::{LoadError, apply_edits};
use crate::target::Target;
use admin_commands::EventStates;
use change_stamps::ChangeStamps;
use configfs_tree::{Attr, Folder, FolderEdit, Nqn, Tree};
use link_rules::{Edit, LinkEdit};
use mem_bdev::{Disk, DiskLine, Name};
use plan_files::MAX_QUEUES;
use sqe_cqe::{Binding, Bound, Controllers};
use std::alloc::{AllocError, Global};
use std::slice;

// The name of the one subsystem.
#[tactic(auto, unfolding(configfs_rows::specs::Nqns::is_nqn))]
fn simple_nqn() -> Nqn
    ensures { result ≡ simple_nqn }
{
    match Nqn::read(b"nqn.2014-08.org.nvmexpress:simple") {
        Some(name) => name,
        None => unreachable!(),
    }
}

// The edit that makes a folder.
fn mkdir_edit(folder: Folder) -> Edit
    ensures { result ≡ mkdir_edit folder }
{
    Edit::Folder(FolderEdit::Mkdir(folder))
}

// The edit that writes a value into an attribute.
fn set_edit(alloc: Global, folder: Folder, attr: Attr, value: &[u8]) -> Result<Edit, AllocError>
    ensures { IfOk result (λ e. e ≡ set_edit folder attr value.now) }
{
    let value = Name::copied(alloc, value)?;
    Ok(Edit::Folder(FolderEdit::Set(folder, attr, value)))
}

// The edits that make the configuration.
fn simple_edits(alloc: Global, path: &[u8]) -> Result<[Edit; 8], AllocError>
    ensures { IfOk result (λ edits. edits ≡ simple_edits path.now) }
{
    let sub = Folder::Subsystem(simple_nqn());
    let any_host = set_edit(alloc, sub, Attr::AllowAnyHost, b"1")?;
    let space = Folder::Namespace(simple_nqn(), 1);
    let device_path = set_edit(alloc, space, Attr::DevicePath, path)?;
    let trtype = set_edit(alloc, Folder::Port(1), Attr::Trtype, b"loop")?;
    let space = Folder::Namespace(simple_nqn(), 1);
    let enable = set_edit(alloc, space, Attr::Enable, b"1")?;
    Ok([
        mkdir_edit(Folder::Subsystem(simple_nqn())),
        any_host,
        mkdir_edit(Folder::Namespace(simple_nqn(), 1)),
        device_path,
        mkdir_edit(Folder::Port(1)),
        trtype,
        Edit::Link(LinkEdit::LinkSubsystem(1, simple_nqn())),
        enable,
    ])
}

// What the edits make of the empty tree over the disk.
fn edited_tree(alloc: Global, disk: &DiskLine) -> Result<Tree, AllocError>
    requires { IsTrue (is_name disk.now.path) }
    ensures { IfOk result (λ t. t ≡ tree_before_attach disk.now.path) }
{
    let edits = simple_edits(alloc, disk.path.as_bytes())?;
    let empty = Tree::new(alloc, slice::from_ref(disk))?;
    match apply_edits(alloc, empty, &edits) {
        Ok(tree) => Ok(tree),
        Err(LoadError::Memory) => Err(AllocError),
        Err(LoadError::Refused { .. }) => unreachable!(),
    }
}

// The configuration, with its one controller attached.
fn simple_tree(alloc: Global, disk: &DiskLine) -> Result<Tree, AllocError>
    requires { IsTrue (is_name disk.now.path) }
    ensures { IfOk result (λ t. t ≡ simple_tree disk.now.path) }
{
    let mut tree = edited_tree(alloc, disk)?;
    tree.attach(0, 0);
    Ok(tree)
}

impl Target {
    /// The target of a simple plan: a subsystem that allows any host, its namespace 1 enabled on
    /// the plan's disk of zeros, port 1 of transport loop that links it, and queue 1 through that
    /// port, connected as QID 1 of controller 1, which is enabled and ready. No command is held.
    /// The disk's path is 1 to 255 bytes from 21h to 7Eh, as in each line of a plan
    /// (`plan_files::is_name` tells). After Linux nvmet's configfs.c and the loop transport.
    pub fn simple(alloc: Global, disk: &DiskLine) -> Result<Self, AllocError>
        requires shape { IsShape disk.now.shift disk.now.blocks }
        requires path { IsTrue (is_name disk.now.path) }
        ensures stands { IfOk result (λ k. StandsFor k (simple_start disk.now)) }
        ensures queues { IfOk result (λ k. length k.bindings ≡ 1) }
        ensures idle { IfOk result (λ k. (queue : ℕ) → IsIdle k queue) }
    {
        let tree = simple_tree(alloc, disk)?;
        let controllers = Controllers::simple(alloc)?;
        let mut disks = Vec::new(alloc);
        disks.push(Disk::new(alloc, disk.shift, disk.blocks)?)?;
        let mut bindings = Vec::new(alloc);
        let bound = Bound {
            ctrl: 1,
            qid: 1,
            sub: 0,
            port: 0,
        };
        bindings.push(Binding {
            port: 1,
            bound: Some(bound),
        })?;
        let held = Vec::with_capacity(alloc, MAX_QUEUES)?;
        let mut states = EventStates::new(alloc)?;
        states.add(0, 0);
        let stamps = ChangeStamps::new(alloc)?;
        Ok(Target {
            tree,
            controllers,
            disks,
            bindings,
            held,
            states,
            stamps,
        })
    }
}

/// A law, with nothing to run: the configuration of a simple plan is what its edits make of the
/// empty tree over its disk, with one controller attached. No edit is refused.
pub fn simple_is_edited()
    ensures { SimpleIsEdited }
{}
