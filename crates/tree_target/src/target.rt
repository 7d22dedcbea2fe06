ghost use Rattle.std.specs.Prelude.{◌≡◌, ◌≤◌, ℕ, IsTrue, IfOk, Some, length, All};
ghost use Rattle.configfs_tree.specs.Start.{are_disks};
ghost use Rattle.mem_bdev.specs.Blocks.{IsShape};
ghost use Rattle.mem_bdev.specs.declared.limits.TheConstants.{MAX_TRANSFER};
ghost use Rattle.plan_files.specs.declared.plan.TheConstants.{MAX_QUEUES};
ghost use Rattle.tree_target.specs.Edits.{is_well_formed};
ghost use Rattle.tree_target.specs.Loads.{IsFresh, LoadsTarget, start_of, loaded};
ghost use Rattle.tree_target.specs.Kept.{HasHeldData, HasQueue, IsIdle, binding_in, bound_in, is_admin_in, is_admin_bound, held_len, qid_from};
ghost use Rattle.tree_target.specs.Stands.{StandsFor};
ghost use Rattle.tree_target.specs.Kept.{answered};

use crate::calls::{Command, Reply};
use crate::commands::{command_of_queue, find_command, given, takes};
use crate::start::{LoadError, apply_edits, blank_disks, unconnected};
use admin_commands::EventStates;
use change_stamps::ChangeStamps;
use configfs_tree::Tree;
use link_rules::Edit;
use mem_bdev::{Disk, DiskLine};
use plan_files::MAX_QUEUES;
use sqe_cqe::{Binding, Controllers, Cqe};
use std::alloc::{AllocError, Global};
use std::marker::Model;

/// The target over the whole configuration tree, for one caller. Contracts see what it keeps; each
/// queue holds one command at the most, and a held command's job lies on its disk.
#[derive(Drop)]
pub struct Target {
    pub(crate) tree: Tree,
    pub(crate) controllers: Controllers,
    pub(crate) disks: Vec<Disk>,
    pub(crate) bindings: Vec<Binding>,
    pub(crate) held: Vec<Command>,
    pub(crate) states: EventStates,
    pub(crate) stamps: ChangeStamps,
}

impl Model for Target {
    ghost use Rattle.std.specs.Vec.{vec_capacity};
    ghost use Rattle.std.specs.Coded.{codes};
    ghost use Rattle.configfs_tree.specs.contracts.tree.Tree as tree_contract;
    ghost use Rattle.tree_target.specs.Kept.{Kept, IsKept};

    ghost Value = { Kept };

    ghost coded = { Prim.hlevel (codes, tree_contract.the_row.coded) };

    ghost view = { λ t. record { tree = t.tree; controllers = t.controllers; blocks = t.disks.items; bindings = t.bindings.items; held = t.held.items; events = t.states; stamps = t.stamps } };

    ghost invariant = { λ t. IsKept (record { tree = t.tree; controllers = t.controllers; blocks = t.disks.items; bindings = t.bindings.items; held = t.held.items; events = t.states; stamps = t.stamps }) (vec_capacity t.held) };
}

// A completion on the queue with this QID.
pub(crate) fn complete(qid: u16, cid: u16, status: u16) -> Reply
    ensures { result ≡ answered qid cid status }
{
    Reply::Answered(Cqe {
        result: 0,
        sq_head: 0,
        sq_id: qid,
        cid,
        status,
    })
}

impl Target {
    // The target over a tree: disks of zeros, and queues that aren't connected.
    fn over(
        alloc: Global,
        tree: Tree,
        lines: &[DiskLine],
        ports: &[u16],
    ) -> Result<Self, AllocError>
        requires few_queues { length ports.now ≤ MAX_QUEUES }
        requires disks { IsTrue (are_disks lines.now) }
        requires shaped { All (λ d. IsShape d.shift d.blocks) lines.now }
        requires fresh { IsFresh tree }
        ensures stands { IfOk result (λ k. StandsFor k (start_of tree lines.now ports.now)) }
        ensures queues { IfOk result (λ k. length k.bindings ≡ length ports.now) }
        ensures idle { IfOk result (λ k. (queue : ℕ) → IsIdle k queue) }
    {
        let controllers = Controllers::new(alloc)?;
        let disks = blank_disks(alloc, lines)?;
        let bindings = unconnected(alloc, ports)?;
        let held = Vec::with_capacity(alloc, MAX_QUEUES)?;
        let states = EventStates::new(alloc)?;
        let stamps = ChangeStamps::new(alloc)?;
        Ok(Target {
            tree,
            controllers,
            disks,
            bindings,
            held,
            states,
            stamps,
        })
    }

    /// Loads a configuration: the edits in their order over the empty tree, with the counts of
    /// changes at 0 after them. The first refused edit is named by its number, from 1. `ports`
    /// gives the port of each queue, at most 31; the disks are at most 64 with differing paths
    /// (`may_be_disks` tells). No queue is connected, and no command is held.
    pub fn load(
        alloc: Global,
        lines: &[DiskLine],
        edits: &[Edit],
        ports: &[u16],
    ) -> Result<Self, LoadError>
        requires few_queues { length ports.now ≤ MAX_QUEUES }
        requires disks { IsTrue (are_disks lines.now) }
        requires shaped { All (λ d. IsShape d.shift d.blocks) lines.now }
        requires well_formed { All (λ e. IsTrue (is_well_formed e)) edits.now }
        ensures loads { LoadsTarget (loaded lines.now edits.now) lines.now ports.now result }
        ensures queues { IfOk result (λ k. length k.bindings ≡ length ports.now) }
        ensures idle { IfOk result (λ k. (queue : ℕ) → IsIdle k queue) }
    {
        let Ok(empty) = Tree::new(alloc, lines) else {
            return Err(LoadError::Memory);
        };
        let mut tree = apply_edits(alloc, empty, edits)?;
        tree.end_load();
        let Ok(target) = Target::over(alloc, tree, lines, ports) else {
            return Err(LoadError::Memory);
        };
        Ok(target)
    }

    /// The binding of a queue, from 1 to the number of queues.
    pub fn binding(&self, queue: u32) -> &Binding
        requires { HasQueue self.now queue }
        ensures { binding_in self.now.bindings queue ≡ Some result.now }
    {
        &self.bindings[queue as usize - 1]
    }

    /// How many queues the target has; they are numbered from 1.
    pub fn queues(&self) -> usize
        ensures { result ≡ length self.now.bindings }
    {
        self.bindings.len()
    }

    /// The configuration, as it stands.
    pub fn tree(&self) -> &Tree
        ensures { result.now ≡ self.now.tree }
    {
        &self.tree
    }

    /// Whether the queue holds no command.
    pub fn is_idle(&self, queue: u32) -> bool
        ensures idle { IsTrue result → IsIdle self.now queue }
        ensures only { IsIdle self.now queue → IsTrue result }
    {
        match command_of_queue(&self.held, queue) {
            None => true,
            Some(_) => false,
        }
    }

    // The QID of a queue, 0 before Connect.
    pub(crate) fn qid(&self, queue: u32) -> u16
        ensures { result ≡ qid_from (bound_in self.now.bindings queue) }
    {
        if queue == 0 {
            return 0;
        }
        match self.bindings.get(queue as usize - 1) {
            Some(
                Binding {
                    port: _,
                    bound: Some(bound),
                },
            ) => bound.qid,
            _ => 0,
        }
    }

    /// Whether the queue is connected as an admin queue (QID 0).
    pub fn is_admin(&self, queue: u32) -> bool
        ensures { result ≡ is_admin_in self.now queue }
    {
        match self.bound(queue) {
            None => false,
            Some(bound) => bound.qid == 0,
        }
    }

    /// Whether data of this length are what the execute of this capsule's held command takes: those
    /// of a Write's blocks, and any of a command without data.
    pub fn takes(&self, queue: u32, number: u32, len: usize) -> bool
        ensures { IsTrue result → HasHeldData self.now queue number len }
    {
        match find_command(&self.held, queue, number) {
            None => true,
            Some(command) => takes(&self.disks, &command.job, len),
        }
    }

    /// How many bytes this capsule's held command gives to the host, at most 131,072; of no command
    /// none.
    pub fn held_len(&self, queue: u32, number: u32) -> u32
        ensures value { result ≡ held_len self.now queue number }
        ensures short { result ≤ MAX_TRANSFER }
    {
        match find_command(&self.held, queue, number) {
            None => 0,
            Some(command) => given(&self.disks, &command.job),
        }
    }
}
