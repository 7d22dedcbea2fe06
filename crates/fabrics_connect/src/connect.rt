// The checks of Connect, in their order (NVMe over Fabrics 1.1, 3.3; Linux nvmet, fabrics-cmd.c).
ghost use Rattle.std.specs.Prelude.{◌≡◌, ◌≤◌, ◌<◌, ◌+◌, ◌-◌, ◌==◌, ◌||◌, length, drop, Some, None, IsTrue, true, false};
ghost use Rattle.configfs_tree.specs.Asked.{subsystem_place_taken, port_place_taken};
ghost use Rattle.configfs_rows.specs.declared.limits.TheConstants.{MAX_CONTROLLERS};
ghost use Rattle.sqe_cqe.specs.Connect.{connect_of};
ghost use Rattle.std.specs.Option.{option_copied};
ghost use Rattle.fabrics_connect.specs.declared.answer.Answer.TheVariants.{Refused};
ghost use Rattle.fabrics_connect.specs.After.{FitsAnswer, is_at};
ghost use Rattle.fabrics_connect.specs.Checks.{is_admin, connect_answer, connect_checks, connected, decided, has_qid, is_of, numbered, port_asked, subsystem_asked};

use crate::answer::{Answer, Fault};
use crate::names::{are_one_name, kept, name_or_empty};
use configfs_tree::{Tree, admits_host, serves};
use sqe_cqe::{
    Bound, COMMAND_SEQUENCE_ERROR, CONNECT_INCOMPATIBLE_FORMAT, CONNECT_INVALID_HOST,
    CONNECT_INVALID_PARAMETERS, ConnectData, ControllerRow, Controllers, DATA_SGL_LENGTH_INVALID,
    Sqe, qid, queue_size, read_connect, record_format,
};

/// How many bytes of data a Connect has.
pub const CONNECT_LEN: u32 = 1024;

/// The controller ID that asks for a new controller.
pub const NEW_CONTROLLER: u16 = 0xffff;

/// The highest QID of an I/O queue; the lowest is 1.
pub const MAX_QID: u16 = 128;

/// The highest queue size, counted from 0; the lowest is 1.
pub const MAX_QUEUE_SIZE: u16 = 127;

/// Result that names the controller ID in the data: its offset, with bit 16 for the data.
pub const CNTLID_IN_DATA: u64 = 0x1_0010;

/// Result that names the NQN of the subsystem in the data.
pub const SUBNQN_IN_DATA: u64 = 0x1_0100;

/// Result that names the NQN of the host in the data.
pub const HOSTNQN_IN_DATA: u64 = 0x1_0200;

/// Result that names the QID in the entry: its offset.
pub const QID_IN_ENTRY: u64 = 0x2a;

/// Result that names the queue size in the entry.
pub const SQSIZE_IN_ENTRY: u64 = 0x2c;

pub(crate) fn refused(status: u16, at: u64) -> Answer
    ensures { result ≡ Refused (record { status = status; result = at }) }
{
    Answer::Refused(Fault { status, result: at })
}

fn data_of(payload: &[u8]) -> ConnectData
    requires { length payload.now ≡ 1024 }
    ensures { result ≡ connect_of payload.now }
{
    let mut bytes = [0; 1024];
    bytes.copy_from_slice(payload);
    read_connect(&bytes)
}

// The controller with this number, from 1.
pub(crate) fn row_of(controllers: &Controllers, number: u16) -> Option<&ControllerRow>
    ensures { option_copied result ≡ numbered controllers.now number }
{
    if number == 0 {
        return None;
    }
    controllers.rows().get(number as usize - 1)
}

// Whether a controller is there, at this subsystem and this port and of this host.
fn is_theirs(controllers: &Controllers, number: u16, sub: u8, port: u8, host: &[u8; 256]) -> bool
    ensures is { result ≡ is_of (Some sub) (Some port) host.now (numbered controllers.now number) }
    ensures there { IsTrue result → is_at sub port (numbered controllers.now number) ≡ true }
{
    match row_of(controllers, number) {
        Some(row) => {
            sub == row.ctrl.bound.sub
                && port == row.ctrl.bound.port
                && are_one_name(host, &row.host)
        }
        None => false,
    }
}

// Whether a QID of a controller is connected.
fn has_queue(controllers: &Controllers, number: u16, qid: u16) -> bool
    requires { (1 ≤ qid) × (qid ≤ MAX_QID) }
    ensures { result ≡ has_qid qid (numbered controllers.now number) }
{
    match row_of(controllers, number) {
        Some(row) => (row.qids >> (qid - 1)) % 2 == 1,
        None => false,
    }
}

// QID, queue size, and whether that QID is connected: then the Connect is accepted.
fn check_queue(
    t: &Tree,
    controllers: &Controllers,
    id: u16,
    e: &Sqe,
    d: &ConnectData,
    sub: u8,
    port: u8,
) -> Answer
    requires sub { subsystem_asked t.now d.now ≡ Some sub }
    requires port { port_asked t.now id ≡ Some port }
    requires sub_in_use { IsTrue (subsystem_place_taken t.now sub) }
    requires port_in_use { IsTrue (port_place_taken t.now port) }
    requires room { length controllers.now < MAX_CONTROLLERS }
    requires theirs { is_admin e.now ≡ false → is_at sub port (numbered controllers.now
        d.now.cntlid) ≡ true }
    ensures is { result ≡ decided (drop 6 (connect_checks t.now controllers.now id e.now d.now))
        (connected t.now controllers.now id e.now d.now) }
    ensures fits { FitsAnswer t.now controllers.now result }
{
    let qid = qid(e);
    if qid > MAX_QID {
        return refused(CONNECT_INVALID_PARAMETERS, QID_IN_ENTRY);
    }
    let size = queue_size(e);
    if size == 0 || size > MAX_QUEUE_SIZE {
        return refused(CONNECT_INVALID_PARAMETERS, SQSIZE_IN_ENTRY);
    }
    if qid == 0 {
        let ctrl = controllers.rows().len() as u16 + 1;
        return Answer::Makes(
            Bound {
                ctrl,
                qid,
                sub,
                port,
            },
            kept(&d.hostnqn),
        );
    }
    let ctrl = d.cntlid;
    if has_queue(controllers, ctrl, qid) {
        return refused(COMMAND_SEQUENCE_ERROR, 0);
    }
    Answer::Joins(Bound {
        ctrl,
        qid,
        sub,
        port,
    })
}

// Of an admin queue whether the host is allowed, of an I/O queue whether the controller is theirs.
fn check_host(
    t: &Tree,
    controllers: &Controllers,
    id: u16,
    e: &Sqe,
    d: &ConnectData,
    sub: u8,
    port: u8,
) -> Answer
    requires sub { subsystem_asked t.now d.now ≡ Some sub }
    requires port { port_asked t.now id ≡ Some port }
    requires sub_in_use { IsTrue (subsystem_place_taken t.now sub) }
    requires port_in_use { IsTrue (port_place_taken t.now port) }
    requires room { length controllers.now < MAX_CONTROLLERS }
    ensures is { result ≡ decided (drop 4 (connect_checks t.now controllers.now id e.now d.now))
        (connected t.now controllers.now id e.now d.now) }
    ensures fits { FitsAnswer t.now controllers.now result }
{
    let is_admin = qid(e) == 0;
    if is_admin && !admits_host(t, sub, name_or_empty(&d.hostnqn)) {
        return refused(CONNECT_INVALID_HOST, HOSTNQN_IN_DATA);
    }
    if !is_admin && !is_theirs(controllers, d.cntlid, sub, port, &d.hostnqn) {
        return refused(CONNECT_INVALID_PARAMETERS, CNTLID_IN_DATA);
    }
    check_queue(t, controllers, id, e, d, sub, port)
}

// The controller ID of an admin queue, and whether the port is there and links the subsystem.
fn check_data(t: &Tree, controllers: &Controllers, id: u16, e: &Sqe, d: &ConnectData) -> Answer
    requires room { length controllers.now < MAX_CONTROLLERS }
    ensures is { result ≡ decided (drop 2 (connect_checks t.now controllers.now id e.now d.now))
        (connected t.now controllers.now id e.now d.now) }
    ensures fits { FitsAnswer t.now controllers.now result }
{
    if qid(e) == 0 && d.cntlid != NEW_CONTROLLER {
        return refused(CONNECT_INVALID_PARAMETERS, CNTLID_IN_DATA);
    }
    let Some(port) = t.port_at(id) else {
        return refused(CONNECT_INVALID_PARAMETERS, SUBNQN_IN_DATA);
    };
    let Some(sub) = t.subsystem_at(name_or_empty(&d.subnqn)) else {
        return refused(CONNECT_INVALID_PARAMETERS, SUBNQN_IN_DATA);
    };
    if !serves(t, port, sub) {
        return refused(CONNECT_INVALID_PARAMETERS, SUBNQN_IN_DATA);
    }
    check_host(t, controllers, id, e, d, sub, port)
}

// All checks of a Connect, on a queue through the port with an ID.
#[tactic(auto, unfolding(crate::specs::Checks::connect_answer))]
pub(crate) fn check_connect(
    t: &Tree,
    controllers: &Controllers,
    id: u16,
    e: &Sqe,
    payload: &[u8],
) -> Answer
    requires room { length controllers.now < MAX_CONTROLLERS }
    requires payload { e.now.sgl_len ≡ 1024 → length payload.now ≡ 1024 }
    ensures is { result ≡ connect_answer t.now controllers.now id e.now (connect_of payload.now) }
    ensures fits { FitsAnswer t.now controllers.now result }
{
    if e.sgl_len != CONNECT_LEN {
        return refused(DATA_SGL_LENGTH_INVALID, 0);
    }
    if record_format(e) != 0 {
        return refused(CONNECT_INCOMPATIBLE_FORMAT, 0);
    }
    check_data(t, controllers, id, e, &data_of(payload))
}
