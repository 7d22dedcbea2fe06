// What an admin queue's commands get of the target's parts.
ghost use Rattle.std.specs.Prelude.{◌≡◌, ◌<◌, ◌-◌, IfSome, Option, length};
ghost use Rattle.mem_bdev.specs.Texts.{HasRoom};
ghost use Rattle.admin_commands.specs.Admin.{AdmitsAt, most_given};
ghost use Rattle.sqe_cqe.specs.Answers.{view_of};
ghost use Rattle.fabrics_connect.specs.Checks.{numbered};
ghost use Rattle.tree_target.specs.Looked.{tree_answers};
ghost use Rattle.tree_target.specs.Controls.{raised_if};
ghost use Rattle.tree_target.specs.Kept.{PollsAdmin, ServesAdmin, ctrl_for, event_reply, reply_with, states_made};

use crate::calls::Reply;
use crate::look::TreeLook;
use admin_commands::{AdminReply, EventStates};
use change_stamps::ChangeStamps;
use configfs_tree::Tree;
use mem_bdev::{Buffer, Disk};
use sqe_cqe::{Bound, Controllers, Cqe, Ctrl, INVALID_OPCODE, SUCCESS, Sqe, keep_alive};

// The controller that an admin queue is bound to.
fn ctrl_of(controllers: &Controllers, bound: &Bound) -> Option<Ctrl>
    ensures { result ≡ ctrl_for bound.now (numbered controllers.now bound.now.ctrl) }
{
    if bound.ctrl == 0 {
        return None;
    }
    let row = controllers.rows().get(bound.ctrl as usize - 1)?;
    let mut ctrl = row.ctrl;
    ctrl.bound = *bound;
    Some(ctrl)
}

// Does a command of the admin queue that is bound so. No controller without its state.
pub(crate) fn serve(
    tree: &Tree,
    controllers: &Controllers,
    disks: &[Disk],
    stamps: &ChangeStamps,
    states: &mut EventStates,
    bound: &Bound,
    e: &Sqe,
    to: &mut Buffer,
) -> AdminReply
    requires states { length states.old ≡ length controllers.now }
    requires room { HasRoom to.old (most_given e.now) }
    ensures { let v = view_of (tree_answers tree.now controllers.now disks.now stamps.now) bound.now in
        let c = ctrl_for bound.now (numbered controllers.now bound.now.ctrl) in
        ServesAdmin v e.now bound.now.ctrl c states.old result to.old to.new states.new }
{
    let Some(ctrl) = ctrl_of(controllers, bound) else {
        return AdminReply::Completes(INVALID_OPCODE, 0);
    };
    let mut look = TreeLook::new(tree, controllers, disks, stamps);
    let at = bound.ctrl as usize - 1;
    states.admit(at, &ctrl, e, &mut look, to)
}

// The reply on the queue with this QID.
pub(crate) fn replied(reply: AdminReply, qid: u16, cid: u16) -> Reply
    ensures { result ≡ reply_with qid cid reply }
{
    match reply {
        AdminReply::Waits => Reply::Waiting,
        AdminReply::Completes(status, value) => Reply::Answered(Cqe {
            result: u64::from(value),
            sq_head: 0,
            sq_id: qid,
            cid,
            status,
        }),
    }
}

// Polls the admin queue that is bound so. No controller without its events.
pub(crate) fn poll_events(
    tree: &Tree,
    controllers: &Controllers,
    disks: &[Disk],
    stamps: &ChangeStamps,
    states: &mut EventStates,
    bound: &Bound,
) -> Option<(u16, u32)>
    requires { length states.old ≡ length controllers.now }
    ensures { let v = view_of (tree_answers tree.now controllers.now disks.now stamps.now) bound.now in
        let c = ctrl_for bound.now (numbered controllers.now bound.now.ctrl) in
        PollsAdmin v bound.now.ctrl c states.old result states.new }
{
    let ctrl = ctrl_of(controllers, bound)?;
    let mut look = TreeLook::new(tree, controllers, disks, stamps);
    let at = bound.ctrl as usize - 1;
    states.poll(at, &ctrl, &mut look)
}

// The reply to a poll on the queue with this QID.
pub(crate) fn event_reply(event: Option<(u16, u32)>, qid: u16) -> Reply
    ensures { result ≡ event_reply qid event }
{
    match event {
        None => Reply::NoEvent,
        Some((cid, value)) => Reply::Answered(Cqe {
            result: u64::from(value),
            sq_head: 0,
            sq_id: qid,
            cid,
            status: SUCCESS,
        }),
    }
}

// A change of the controllers raises the serial.
pub(crate) fn raise_if(stamps: &mut ChangeStamps, published: bool)
    ensures { stamps.new ≡ raised_if published stamps.old }
{
    if published {
        stamps.raise();
    }
}

// A controller that a Connect made, at this serial, keeps the time of its entry.
pub(crate) fn add_state(states: &mut EventStates, since: u32, made: &Option<Ctrl>, e: &Sqe)
    requires { IfSome made.now (λ _. length states.old < 31) }
    ensures { states.new ≡ states_made since states.old e.now made.now }
{
    match made {
        None => {}
        Some(_) => states.add(since, keep_alive(e)),
    }
}
