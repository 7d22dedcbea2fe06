ghost use Rattle.std.specs.Prelude.{◌≡◌, ◌≤◌, ◌==◌, false, length};
ghost use Rattle.mem_bdev.specs.Texts.{HasRoom, appended};
ghost use Rattle.sqe_cqe.specs.Answers.{View, view_of};
ghost use Rattle.sqe_cqe.specs.declared.codes.TheConstants.{SUCCESS};
ghost use Rattle.admin_identify.specs.Identify.{identify_status, identify_page};
ghost use Rattle.async_events.specs.Features.{feature_after};
ghost use Rattle.async_events.specs.Stamps.{caught_up_with, cleared_of};
ghost use Rattle.log_pages.specs.Logs.{log_status, log_bytes, log_events};
ghost use Rattle.look_pages.specs.declared.walk.TheConstants.{PAGE};
ghost use Rattle.admin_commands.specs.Admin.{admin_bytes, admin_reply, after_log, after_request, event_of, events_after, events_by, featured, given_with, most_given, polled, reply_by, requested_by, without_data};

use crate::checks::{ABORT, EVENT_REQUEST, GET_LOG_PAGE, IDENTIFY, KEEP_ALIVE, check_admin};
use admin_identify::{check_identify, write_identify};
use async_events::{Events, features};
use log_pages::{check_log, write_log};
use look_pages::PAGE;
use mem_bdev::Buffer;
use sqe_cqe::{Ctrl, DATA_SGL_LENGTH_INVALID, Look, SUCCESS, Sqe};

/// What a command of an admin queue gets.
#[derive(Clone, Copy, Debug, PartialEq, Eq)]
pub enum AdminReply {
    /// It is complete: the status field and the result.
    Completes(u16, u32),
    /// An event request waits for a notice.
    Waits,
}

// Writes the page that an Identify asks for behind what a buffer holds.
fn put_page<L: Look>(c: &Ctrl, e: &Sqe, look: &mut L, to: &mut Buffer)
    requires { HasRoom to.old PAGE }
    ensures page { let v = view_of (L.told (L.behind look.old)) c.now.bound in
        to.new ≡ appended to.old (identify_page v c.now e.now) }
    ensures len { let v = view_of (L.told (L.behind look.old)) c.now.bound in
        length (identify_page v c.now e.now) ≡ PAGE }
    ensures behind { L.behind look.new ≡ L.behind look.old }
{
    let at = to.len();
    let bytes = to.fill(PAGE);
    write_identify(c, e, look, &mut bytes[at..]);
}

// Identify.
#[tactic(auto, using(crate::proofs::Rooms::page_room, crate::proofs::Rooms::none_appended))]
fn identify<L: Look>(c: &Ctrl, k: &Events, e: &Sqe, look: &mut L, to: &mut Buffer) -> AdminReply
    requires opcode { e.now.opcode ≡ IDENTIFY }
    requires room { HasRoom to.old (most_given e.now) }
    ensures reply { let v = view_of (L.told (L.behind look.old)) c.now.bound in
        result ≡ AdminReply.Completes (identify_status v e.now) 0 }
    ensures bytes { let v = view_of (L.told (L.behind look.old)) c.now.bound in
        to.new ≡ appended to.old (given_with v c.now k.now e.now result) }
    ensures short { let v = view_of (L.told (L.behind look.old)) c.now.bound in
        length (given_with v c.now k.now e.now result) ≤ most_given e.now }
    ensures behind { L.behind look.new ≡ L.behind look.old }
{
    let _events = k;
    let status = check_identify(c, e, look);
    if status == SUCCESS {
        put_page(c, e, look, to);
    }
    AdminReply::Completes(status, 0)
}

// Writes the part of a log that a command asks for behind what a buffer holds.
fn put_log<L: Look>(c: &Ctrl, ev: &mut Events, e: &Sqe, look: &mut L, to: &mut Buffer)
    requires passed { log_status e.now ≡ SUCCESS }
    requires room { HasRoom to.old e.now.sgl_len }
    ensures bytes { let v = view_of (L.told (L.behind look.old)) c.now.bound in
        to.new ≡ appended to.old (log_bytes v (cleared_of ev.old) e.now) }
    ensures len { let v = view_of (L.told (L.behind look.old)) c.now.bound in
        length (log_bytes v (cleared_of ev.old) e.now) ≡ e.now.sgl_len }
    ensures events { let v = view_of (L.told (L.behind look.old)) c.now.bound in
        ev.new ≡ log_events v e.now ev.old }
    ensures behind { L.behind look.new ≡ L.behind look.old }
{
    let at = to.len();
    let bytes = to.fill(e.sgl_len as usize);
    write_log(c, ev, e, look, &mut bytes[at..]);
}

// Get Log Page.
#[tactic(auto, using(crate::proofs::Rooms::log_room, crate::proofs::Rooms::none_appended))]
fn log<L: Look>(c: &Ctrl, ev: &mut Events, e: &Sqe, look: &mut L, to: &mut Buffer) -> AdminReply
    requires opcode { e.now.opcode ≡ GET_LOG_PAGE }
    requires room { HasRoom to.old (most_given e.now) }
    ensures reply { result ≡ AdminReply.Completes (log_status e.now) 0 }
    ensures bytes { let v = view_of (L.told (L.behind look.old)) c.now.bound in
        to.new ≡ appended to.old (given_with v c.now ev.old e.now result) }
    ensures short { let v = view_of (L.told (L.behind look.old)) c.now.bound in
        length (given_with v c.now ev.old e.now result) ≤ most_given e.now }
    ensures events { let v = view_of (L.told (L.behind look.old)) c.now.bound in
        ev.new ≡ after_log v ev.old e.now }
    ensures behind { L.behind look.new ≡ L.behind look.old }
{
    let status = check_log(e);
    if status == SUCCESS {
        put_log(c, ev, e, look, to);
    }
    AdminReply::Completes(status, 0)
}

// A command without data that does nothing but to answer with a result.
fn answer(e: &Sqe, value: u32) -> AdminReply
    ensures { result ≡ without_data e.now (AdminReply.Completes SUCCESS value) }
{
    if e.sgl_len != 0 {
        return AdminReply::Completes(DATA_SGL_LENGTH_INVALID, 0);
    }
    AdminReply::Completes(SUCCESS, value)
}

// Asynchronous Event Request.
fn request(ev: &mut Events, e: &Sqe) -> AdminReply
    ensures reply { result ≡ without_data e.now (requested_by ev.old) }
    ensures events { ev.new ≡ after_request ev.old e.now }
{
    if e.sgl_len != 0 {
        return AdminReply::Completes(DATA_SGL_LENGTH_INVALID, 0);
    }
    let status = ev.request(e.cid);
    if status == SUCCESS {
        AdminReply::Waits
    } else {
        AdminReply::Completes(status, 0)
    }
}

// Set Features and Get Features.
fn feature<L: Look>(c: &Ctrl, ev: &mut Events, e: &Sqe, look: &mut L) -> AdminReply
    ensures reply { let v = view_of (L.told (L.behind look.old)) c.now.bound in
        result ≡ featured v ev.old e.now }
    ensures events { let v = view_of (L.told (L.behind look.old)) c.now.bound in
        ev.new ≡ feature_after (caught_up_with v ev.old) e.now }
    ensures behind { L.behind look.new ≡ L.behind look.old }
{
    ev.catch_up(c, look);
    let (status, value) = features(ev, e);
    AdminReply::Completes(status, value)
}

// The commands without data for the host.
fn admit_plain<L: Look>(c: &Ctrl, ev: &mut Events, e: &Sqe, look: &mut L) -> AdminReply
    requires log { (e.now.opcode == GET_LOG_PAGE) ≡ false }
    requires identify { (e.now.opcode == IDENTIFY) ≡ false }
    ensures reply { let v = view_of (L.told (L.behind look.old)) c.now.bound in
        result ≡ reply_by v ev.old e.now }
    ensures events { let v = view_of (L.told (L.behind look.old)) c.now.bound in
        ev.new ≡ events_by v ev.old e.now }
    ensures behind { L.behind look.new ≡ L.behind look.old }
{
    if e.opcode == ABORT {
        return answer(e, 1);
    }
    if e.opcode == EVENT_REQUEST {
        return request(ev, e);
    }
    if e.opcode == KEEP_ALIVE {
        return answer(e, 0);
    }
    feature(c, ev, e, look)
}

/// Does a command of a connected admin queue. Its checks come in this order: an opcode that isn't
/// known is 8002h, flags other than 40h are 8004h, a controller that isn't ready is 8018h; then the
/// command's own. Data of a command that succeeds are written behind what `to` holds, once. A
/// refused command changes nothing that the host can see. Takes no memory.
///
/// Get Log Page is checked by `check_log`, Identify by `check_identify`. All others have no data,
/// else 801Eh: Abort answers with 1 (nothing was aborted), Keep Alive with 0, Set Features and Get
/// Features as `features` says, and an Asynchronous Event Request waits, or is 820Ah exactly where
/// four wait.
#[tactic(auto, using(crate::proofs::Rooms::none_appended), unfolding(crate::specs::Admin::admin_reply, crate::specs::Admin::admin_bytes, crate::specs::Admin::events_after))]
pub fn admit_admin<L: Look>(
    c: &Ctrl,
    ev: &mut Events,
    e: &Sqe,
    look: &mut L,
    to: &mut Buffer,
) -> AdminReply
    requires room { HasRoom to.old (most_given e.now) }
    ensures reply { let v = view_of (L.told (L.behind look.old)) c.now.bound in
        result ≡ admin_reply v ev.old e.now }
    ensures bytes { let v = view_of (L.told (L.behind look.old)) c.now.bound in
        to.new ≡ appended to.old (admin_bytes v c.now ev.old e.now) }
    ensures short { let v = view_of (L.told (L.behind look.old)) c.now.bound in
        length (admin_bytes v c.now ev.old e.now) ≤ most_given e.now }
    ensures events { let v = view_of (L.told (L.behind look.old)) c.now.bound in
        ev.new ≡ events_after v ev.old e.now }
    ensures behind { L.behind look.new ≡ L.behind look.old }
{
    let status = check_admin(c, e, look);
    if status != SUCCESS {
        return AdminReply::Completes(status, 0);
    }
    if e.opcode == GET_LOG_PAGE {
        return log(c, ev, e, look, to);
    }
    if e.opcode == IDENTIFY {
        return identify(c, ev, e, look, to);
    }
    admit_plain(c, ev, e, look)
}

/// Polls an admin queue: where an event request waits and a notice is pending, the request that was
/// submitted last is completed: its command identifier, and the result. A namespace notice comes
/// before an ANA notice.
#[tactic(auto, unfolding(crate::specs::Admin::polled, crate::specs::Admin::event_of))]
pub fn poll_admin<L: Look>(c: &Ctrl, ev: &mut Events, look: &mut L) -> Option<(u16, u32)>
    ensures event { let v = view_of (L.told (L.behind look.old)) c.now.bound in
        result ≡ event_of v ev.old }
    ensures events { let v = view_of (L.told (L.behind look.old)) c.now.bound in
        ev.new ≡ polled v ev.old }
    ensures behind { L.behind look.new ≡ L.behind look.old }
{
    ev.catch_up(c, look);
    ev.take()
}
