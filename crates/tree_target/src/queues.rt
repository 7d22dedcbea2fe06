// The calls of queues.
ghost use Rattle.std.specs.Prelude.{◌≡◌, ◌≢◌, ◌+◌, [], IsTrue, true, false, length};
ghost use Rattle.mem_bdev.specs.Texts.{HasRoom, appended};
ghost use Rattle.sqe_cqe.specs.Sqe.{direction_of, payload_len, host_len};
ghost use Rattle.sqe_cqe.specs.declared.codes.TheConstants.{FABRICS};
ghost use Rattle.sqe_cqe.specs.declared.way.Direction.TheVariants.{ToController};
ghost use Rattle.tree_target.specs.Kept.{HasQueue, IsIdle, IsHolding, LeavesOthers, HasHeldData, admission_by, bound_in, held_bytes, held_len, held_reply, holds, AdmitFits, given_room, is_admin_in, is_admin_reply, is_answered, is_poll_reply};
ghost use Rattle.tree_target.specs.Model.{Submit, Execute, Poll, Control};
ghost use Rattle.tree_target.specs.Stands.{Simulates, SubmitsAdmin};

use crate::admin::{add_state, event_reply, poll_events, raise_if, replied, serve};
use crate::calls::{Command, Reply};
use crate::commands::{take_command, work};
use crate::look::TreeLook;
use crate::target::{Target, complete};
use configfs_tree::{port_positions, subsystem_positions};
use fabrics_connect::control;
use io_commands::{Admit, admit_io};
use mem_bdev::Buffer;
use sqe_cqe::{Bound, INVALID_OPCODE, SUCCESS, Sqe};

impl Target {
    // What a queue is connected to.
    pub(crate) fn bound(&self, queue: u32) -> Option<Bound>
        ensures { result ≡ bound_in self.now.bindings queue }
    {
        if queue == 0 {
            return None;
        }
        match self.bindings.get(queue as usize - 1) {
            None => None,
            Some(binding) => binding.bound,
        }
    }

    /// What the submit of a command gets on a queue that isn't an admin queue (`is_admin` tells):
    /// the status of the first check that fails, or the job that it asks for.
    #[tactic(auto, unfolding(crate::specs::Kept::admission_by))]
    pub fn admit(&self, queue: u32, e: &Sqe) -> Admit
        ensures value { result ≡ admission_by self.now queue e.now }
        ensures fits { AdmitFits self.now.blocks e.now result }
    {
        let Some(bound) = self.bound(queue) else {
            return Admit::Refused(INVALID_OPCODE);
        };
        let mut look = TreeLook::new(&self.tree, &self.controllers, &self.disks, &self.stamps);
        admit_io(&bound, e, &mut look)
    }

    /// Submits a command of a queue that isn't an admin queue (`is_admin` tells): it is answered
    /// with the status of the first check that fails, or held. `number` is the capsule's number in
    /// its file, from 0. The queue's last command was executed. A command that is held asks for as
    /// many bytes of data, both ways, as its entry names. Takes no memory.
    #[inline(always)]
    pub fn submit(&mut self, queue: u32, number: u32, e: &Sqe) -> Reply
        requires queue { HasQueue self.old queue }
        requires idle { IsIdle self.old queue }
        requires not_admin { is_admin_in self.old queue ≡ false }
        ensures does { Simulates self.old (Submit queue number e.now) result [] self.new }
        ensures held { result ≡ Reply.Held →
            IsHolding self.new queue number (payload_len e.now) (host_len e.now) }
        ensures answered { result ≢ Reply.Held → IsIdle self.new queue }
        ensures bindings { self.new.bindings ≡ self.old.bindings }
        ensures others { LeavesOthers queue self.old self.new }
    {
        self.tree.certify();
        subsystem_positions(&self.tree);
        port_positions(&self.tree);
        match self.admit(queue, e) {
            Admit::Refused(status) => self.refuse(queue, number, e, status),
            Admit::Run(job) => {
                let command = Command {
                    queue,
                    number,
                    cid: e.cid,
                    job,
                };
                let Ok(()) = self.held.push(command) else {
                    unreachable!();
                };
                Reply::Held
            }
        }
    }

    /// Executes the command that is held, with its capsule's data. A Read's bytes are appended to
    /// `to`, which has room for them, straight from the disk. Takes no memory.
    #[inline(always)]
    pub fn execute(&mut self, queue: u32, number: u32, payload: &[u8], to: &mut Buffer) -> Reply
        requires held { IsTrue (holds self.old queue number) }
        requires data { HasHeldData self.old queue number (length payload.now) }
        requires room { HasRoom to.old (held_len self.old queue number) }
        ensures does { Simulates self.old (Execute queue number payload.now) result
            (held_bytes self.old queue number) self.new }
        ensures reply { result ≡ held_reply self.old queue number }
        ensures appends { to.new ≡ appended to.old (held_bytes self.old queue number) }
        ensures len { length to.new.bytes ≡ length to.old.bytes + held_len self.old queue number }
        ensures idle { IsIdle self.new queue }
        ensures bindings { self.new.bindings ≡ self.old.bindings }
        ensures others { LeavesOthers queue self.old self.new }
    {
        let qid = self.qid(queue);
        let Some(command) = take_command(&mut self.held, queue, number) else {
            unreachable!();
        };
        work(&mut self.disks, &command.job, payload, to);
        complete(qid, command.cid, SUCCESS)
    }

    /// Submits a command of a connected admin queue (`is_admin` tells): it is answered, or an event
    /// request waits, by `admin_commands::admit_admin`. Data for the host are appended to `to`,
    /// which has room for as many as the entry names. `number` is the capsule's number in its file,
    /// from 0. The queue's last command was executed. Takes no memory.
    pub fn submit_admin(&mut self, queue: u32, number: u32, e: &Sqe, to: &mut Buffer) -> Reply
        requires queue { HasQueue self.old queue }
        requires idle { IsIdle self.old queue }
        requires admin { is_admin_in self.old queue ≡ true }
        requires room { HasRoom to.old (given_room e.now) }
        ensures does { SubmitsAdmin self.old (Submit queue number e.now) result to.old to.new
            self.new }
        ensures answered { result ≢ Reply.Held }
        ensures replies { is_admin_reply result ≡ true }
        ensures idle { IsIdle self.new queue }
        ensures bindings { self.new.bindings ≡ self.old.bindings }
        ensures others { LeavesOthers queue self.old self.new }
    {
        self.tree.certify();
        subsystem_positions(&self.tree);
        port_positions(&self.tree);
        let _number = number;
        let Some(bound) = self.bound(queue) else {
            unreachable!();
        };
        let reply = serve(
            &self.tree,
            &self.controllers,
            &self.disks,
            &self.stamps,
            &mut self.states,
            &bound,
            e,
            to,
        );
        replied(reply, bound.qid, e.cid)
    }

    /// Polls an admin queue (`admin_commands::poll_admin`): it gets the completion of the event
    /// request that was submitted last, or no event. Another queue gets none. Takes no memory.
    pub fn poll(&mut self, queue: u32) -> Reply
        ensures does { Simulates self.old (Poll queue) result [] self.new }
        ensures replies { is_poll_reply result ≡ true }
        ensures idle { IsIdle self.old queue → IsIdle self.new queue }
        ensures bindings { self.new.bindings ≡ self.old.bindings }
        ensures others { LeavesOthers queue self.old self.new }
    {
        self.tree.certify();
        subsystem_positions(&self.tree);
        port_positions(&self.tree);
        if !self.is_admin(queue) {
            return Reply::NoEvent;
        }
        let Some(bound) = self.bound(queue) else {
            unreachable!();
        };
        let event = poll_events(
            &self.tree,
            &self.controllers,
            &self.disks,
            &self.stamps,
            &mut self.states,
            &bound,
        );
        event_reply(event, bound.qid)
    }

    /// A fabrics command (opcode 7Fh) on a queue: Connect, Property Get or Property Set, with as
    /// many bytes of data as a Connect's SGL length says. The first check that fails answers with
    /// its status and result, and changes nothing (`fabrics_connect::control`). The queue's last
    /// command was executed. Takes no memory.
    pub fn control(&mut self, queue: u32, number: u32, e: &Sqe, payload: &[u8]) -> Reply
        requires opcode { e.now.opcode ≡ FABRICS }
        requires payload { direction_of e.now ≡ ToController →
            length payload.now ≡ e.now.sgl_len }
        requires queue { HasQueue self.old queue }
        requires idle { IsIdle self.old queue }
        ensures does { Simulates self.old (Control queue number e.now payload.now) result []
            self.new }
        ensures answered { is_answered result ≡ true }
        ensures idle { IsIdle self.new queue }
        ensures others { LeavesOthers queue self.old self.new }
    {
        let _number = number;
        self.tree.certify();
        let at = queue as usize - 1;
        let mut binding = self.bindings[at];
        let told = control(
            &mut self.tree,
            &mut self.controllers,
            &mut binding,
            e,
            payload,
        );
        self.bindings[at] = binding;
        raise_if(&mut self.stamps, told.published);
        add_state(&mut self.states, self.stamps.serial(), &told.made, e);
        Reply::Answered(told.cqe)
    }
}
