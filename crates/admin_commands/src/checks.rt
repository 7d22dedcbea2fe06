// The checks that all commands of an admin queue have in common.
ghost use Rattle.std.specs.Prelude.{◌≡◌};
ghost use Rattle.sqe_cqe.specs.Answers.{view_of};
ghost use Rattle.admin_commands.specs.Admin.{is_admin_opcode, status_before};

use async_events::{GET_FEATURES, SET_FEATURES};
use sqe_cqe::{
    COMMAND_SEQUENCE_ERROR, Ctrl, INVALID_FIELD, INVALID_OPCODE, Look, SGL, SUCCESS, Sqe,
};

/// Opcode of Get Log Page.
pub const GET_LOG_PAGE: u8 = 0x02;

/// Opcode of Identify.
pub const IDENTIFY: u8 = 0x06;

/// Opcode of Abort.
pub const ABORT: u8 = 0x08;

/// Opcode of Asynchronous Event Request.
pub const EVENT_REQUEST: u8 = 0x0c;

/// Opcode of Keep Alive.
pub const KEEP_ALIVE: u8 = 0x18;

#[tactic(auto, unfolding(crate::specs::Admin::is_admin_opcode))]
fn is_known(opcode: u8) -> bool
    ensures { result ≡ is_admin_opcode opcode }
{
    opcode == GET_LOG_PAGE
        || opcode == IDENTIFY
        || opcode == ABORT
        || opcode == SET_FEATURES
        || opcode == GET_FEATURES
        || opcode == EVENT_REQUEST
        || opcode == KEEP_ALIVE
}

// The status before a command's own checks.
#[tactic(auto, unfolding(crate::specs::Admin::status_before))]
pub(crate) fn check_admin<L: Look>(c: &Ctrl, e: &Sqe, look: &mut L) -> u16
    ensures value { let v = view_of (L.told (L.behind look.old)) c.now.bound in
        result ≡ status_before v e.now }
    ensures behind { L.behind look.new ≡ L.behind look.old }
{
    if !is_known(e.opcode) {
        return INVALID_OPCODE;
    }
    if e.flags != SGL {
        return INVALID_FIELD;
    }
    if !look.ready(c.bound.ctrl) {
        return COMMAND_SEQUENCE_ERROR;
    }
    SUCCESS
}
