// The calls of the editor, and which calls are lawful.
ghost use Rattle.std.specs.Prelude.{◌≡◌, [], IsTrue, IfOk, OnErr, is_some};
ghost use Rattle.std.specs.Option.{option_copied};
ghost use Rattle.configfs_tree.specs.Phases.{phase_at};
ghost use Rattle.tree_target.specs.Edits.{is_well_formed, disables};
ghost use Rattle.tree_target.specs.Model.{AnEdit, DrainEnd};
ghost use Rattle.tree_target.specs.Steps.{disk_at, is_draining_phase, is_enabled_phase, may_end};
ghost use Rattle.tree_target.specs.Kept.{LeavesOthers, holds};
ghost use Rattle.tree_target.specs.Lawful.{IsLawfulAs, EndsNothing, begins, ends};
ghost use Rattle.tree_target.specs.Stands.{Simulates, noted_by, reply_from};

use crate::calls::{Call, Reply};
use crate::commands::{find_command, is_free};
use crate::edits::disables;
use crate::target::Target;
use change_stamps::ChangeStamps;
use configfs_rows::{Nqn, Phase};
use configfs_tree::{Change, Refused, Tree};
use link_rules::{Edit, apply};
use std::alloc::{AllocError, Global};

// What an edit replies.
fn replied(answer: Result<Change, Refused>) -> Result<Reply, AllocError>
    ensures { result ≡ reply_from answer }
{
    match answer {
        Ok(_) => Ok(Reply::Accepted),
        Err(Refused::Errno(errno)) => Ok(Reply::Errno(errno)),
        Err(Refused::Memory) => Err(AllocError),
    }
}

// Stamps what an accepted edit changed.
fn note(stamps: &mut ChangeStamps, answer: &Result<Change, Refused>)
    ensures { stamps.new ≡ noted_by answer.now stamps.old }
{
    match answer {
        Ok(change) => stamps.note(change),
        Err(_) => {}
    }
}

// The number of the disk of a namespace.
fn disk_at(tree: &Tree, sub: &Nqn, nsid: u32) -> Option<u8>
    ensures { result ≡ disk_at tree.now sub.now nsid }
{
    let row = tree.subsystems().get(sub)?;
    let namespace = row.namespaces.get(nsid)?;
    namespace.disk
}

impl Target {
    /// Whether an execute of this capsule is lawful: its command is held. Takes no memory.
    pub fn is_held(&self, queue: u32, number: u32) -> bool
        ensures { result ≡ holds self.now queue number }
    {
        find_command(&self.held, queue, number).is_some()
    }

    /// Whether the end of the drain of this namespace is lawful: it is draining, and no command is
    /// held on its disk. Takes no memory.
    pub fn may_end(&self, sub: &Nqn, nsid: u32) -> bool
        ensures { result ≡ may_end self.now.tree self.now.held sub.now nsid }
    {
        match self.tree.phase(sub, nsid) {
            Some(Phase::Draining) => is_free(&self.held, disk_at(&self.tree, sub, nsid)),
            None | Some(Phase::Off) | Some(Phase::Enabled) => false,
        }
    }

    /// Whether this namespace is draining: it was disabled, and its drain hasn't ended. Takes no
    /// memory.
    pub fn is_draining(&self, sub: &Nqn, nsid: u32) -> bool
        ensures { result ≡ is_draining_phase (phase_at self.now.tree sub.now nsid) }
    {
        match self.tree.phase(sub, nsid) {
            Some(Phase::Draining) => true,
            None | Some(Phase::Off) | Some(Phase::Enabled) => false,
        }
    }

    // Whether the namespace that an edit disables may end its drain.
    fn ends(&self, e: &Edit) -> bool
        ensures { result ≡ ends self.now (disables e.now) }
    {
        match disables(e) {
            None => false,
            Some(space) => self.may_end(&space.sub, space.nsid),
        }
    }

    /// Whether a call is lawful here. Of the end of a drain `e` is the edit of its line, of every
    /// other call it is `None`. Takes no memory.
    pub fn lawful(&self, call: &Call, e: Option<&Edit>) -> bool
        ensures lawful { IsLawfulAs self.now call.now (option_copied e.entry) result }
        ensures ends_nothing { EndsNothing call.now (option_copied e.entry) result }
    {
        match call {
            Call::Submit { .. } | Call::Poll { .. } | Call::Control { .. } | Call::Edit { .. } =>
                true,
            Call::Execute { queue, number } => self.is_held(*queue, *number),
            Call::DrainEnd { .. } => match e {
                None => false,
                Some(edit) => self.ends(edit),
            },
        }
    }

    /// Whether an edit begins a drain: it sets to `0` the `enable` of a namespace that is enabled
    /// now. Takes no memory.
    pub fn drains(&self, e: &Edit) -> bool
        ensures { result ≡ begins self.now.tree (disables e.now) }
    {
        match disables(e) {
            None => false,
            Some(space) => match self.tree.phase(&space.sub, space.nsid) {
                Some(Phase::Enabled) => true,
                None | Some(Phase::Off) | Some(Phase::Draining) => false,
            },
        }
    }

    /// Makes an edit of the configuration, or refuses it with its errno and changes nothing. On
    /// want of memory the target is as before.
    pub fn edit(&mut self, alloc: Global, line: u32, e: &Edit) -> Result<Reply, AllocError>
        requires { IsTrue (is_well_formed e.now) }
        ensures does { IfOk result (λ reply. Simulates self.old (AnEdit line e.now) reply []
            self.new) }
        ensures others { IfOk result (λ _. LeavesOthers 0 self.old self.new) }
        ensures held { IfOk result (λ _. self.new.held ≡ self.old.held) }
        ensures same { OnErr result (self.new ≡ self.old) }
    {
        let _line = line;
        let answer = apply(alloc, &mut self.tree, e);
        note(&mut self.stamps, &answer);
        replied(answer)
    }

    /// Ends the drain of a namespace: its disk is free again. Takes no memory.
    pub fn end_drain(&mut self, line: u32, sub: &Nqn, nsid: u32) -> Reply
        requires { IsTrue (may_end self.old.tree self.old.held sub.now nsid) }
        ensures does { Simulates self.old (DrainEnd line sub.now nsid) result [] self.new }
        ensures others { LeavesOthers 0 self.old self.new }
        ensures held { self.new.held ≡ self.old.held }
    {
        let _line = line;
        self.tree.end_drain(sub, nsid);
        Reply::Ended
    }
}
