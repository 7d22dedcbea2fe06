// A command that is executed as soon as it is submitted, with no other call between: it needn't be
// kept as held.
ghost use Rattle.std.specs.Prelude.{◌≡◌, ◌≢◌, ◌+◌, [], false, length};
ghost use Rattle.mem_bdev.specs.Texts.{HasRoom, appended};
ghost use Rattle.sqe_cqe.specs.Sqe.{payload_len, host_len};
ghost use Rattle.sqe_cqe.specs.declared.codes.TheConstants.{SUCCESS};
ghost use Rattle.io_commands.specs.declared.jobs.Admit.TheVariants.{Refused, Run};
ghost use Rattle.tree_target.specs.Kept.{AdmitsOn, HasQueue, IsIdle, LeavesOthers, admission_by, answered, bound_in, is_admin_in, job_bytes, qid_from};
ghost use Rattle.tree_target.specs.Model.{Submit};
ghost use Rattle.tree_target.specs.Stands.{RunsAtOnce, Simulates};

use crate::calls::Reply;
use crate::commands::work;
use crate::target::{Target, complete};
use configfs_tree::{port_positions, subsystem_positions};
use io_commands::Job;
use mem_bdev::Buffer;
use sqe_cqe::{SUCCESS, Sqe};

impl Target {
    /// Submits a command that `admit` refuses with this status, and replies it. That changes
    /// nothing. `number` is the capsule's number in its file, from 0.
    pub fn refuse(&self, queue: u32, number: u32, e: &Sqe, status: u16) -> Reply
        requires not_admin { is_admin_in self.now queue ≡ false }
        requires refused { admission_by self.now queue e.now ≡ Refused status }
        ensures does { Simulates self.now (Submit queue number e.now) result [] self.now }
        ensures answered { result ≢ Reply.Held }
    {
        self.tree.certify();
        subsystem_positions(&self.tree);
        port_positions(&self.tree);
        let _number = number;
        complete(self.qid(queue), e.cid, status)
    }

    /// What a job replies that is done on this queue for this entry: success.
    #[inline(always)]
    pub fn success(&self, queue: u32, e: &Sqe) -> Reply
        ensures { result ≡ answered (qid_from (bound_in self.now.bindings queue)) e.now.cid
            SUCCESS }
    {
        complete(self.qid(queue), e.cid, SUCCESS)
    }

    /// Submits a command that `admit` gives this job, by which it is held, and executes it at once,
    /// with its capsule's data: nothing that is kept of a held command is written down between.
    /// A Read's bytes are appended to `to`, which has room for them, straight from the disk.
    /// `number` is the capsule's number in its file, from 0. The queue's last command was executed.
    /// Takes no memory.
    #[inline(always)]
    pub fn run_at_once(
        &mut self,
        queue: u32,
        number: u32,
        e: &Sqe,
        job: &Job,
        payload: &[u8],
        to: &mut Buffer,
    )
        requires queue { HasQueue self.old queue }
        requires idle { IsIdle self.old queue }
        requires not_admin { is_admin_in self.old queue ≡ false }
        requires admitted { admission_by self.old queue e.now ≡ Run job.now }
        requires fits { AdmitsOn self.old.blocks e.now job.now }
        requires payload { length payload.now ≡ payload_len e.now }
        requires room { HasRoom to.old (host_len e.now) }
        ensures runs { RunsAtOnce self.old queue number e.now payload.now
            (answered (qid_from (bound_in self.old.bindings queue)) e.now.cid SUCCESS)
            (job_bytes self.old.blocks job.now) self.new }
        ensures appends { to.new ≡ appended to.old (job_bytes self.old.blocks job.now) }
        ensures len { length to.new.bytes ≡ length to.old.bytes + host_len e.now }
        ensures idle { IsIdle self.new queue }
        ensures bindings { self.new.bindings ≡ self.old.bindings }
        ensures others { LeavesOthers queue self.old self.new }
    {
        self.tree.certify();
        subsystem_positions(&self.tree);
        port_positions(&self.tree);
        let _queue = queue;
        let _number = number;
        let _e = e;
        work(&mut self.disks, job, payload, to);
    }
}
