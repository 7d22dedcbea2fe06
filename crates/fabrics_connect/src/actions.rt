// What a fabrics command does and tells.
ghost use Rattle.std.specs.Prelude.{◌≡◌, ◌≢◌, ◌≤◌, ◌<◌, ◌∷◌, ◌++◌, [], None, IsTrue, false, length};
ghost use Rattle.configfs_rows.specs.declared.limits.TheConstants.{MAX_CONTROLLERS, SERIAL_LEN, MODEL_LEN};
ghost use Rattle.configfs_rows.specs.Nqns.{is_nqn};
ghost use Rattle.configfs_tree.specs.Asked.{subsystem_place_taken, port_place_taken};
ghost use Rattle.configfs_tree.specs.Links.{subsystem_row, with_attached};
ghost use Rattle.sqe_cqe.specs.Sqe.{direction_of};
ghost use Rattle.sqe_cqe.specs.declared.codes.TheConstants.{FABRICS, SUCCESS};
ghost use Rattle.sqe_cqe.specs.declared.way.Direction.TheVariants.{ToController};
ghost use Rattle.fabrics_connect.specs.After.{AttachedAreThere, FitsAnswer, HasRoom, binding_after, changed, changed_bound, controllers_after, ctrl_at, new_controller, new_ctrl, sets_differ, told_by, tree_after, with_qid, qid_from};
ghost use Rattle.fabrics_connect.specs.Registers.{after_set};
ghost use Rattle.fabrics_connect.specs.Checks.{control_answer, takes};

use crate::answer::{Answer, Control};
use crate::connect::{check_connect, refused, row_of};
use crate::properties::check_property;
use crate::registers::{has_changed, set};
use configfs_rows::SubsystemRow;
use configfs_tree::{Tree, subsystem_positions};
use sqe_cqe::{
    Binding, Bound, CONNECT, ControllerRow, Controllers, Cqe, Ctrl, INVALID_FIELD, INVALID_OPCODE,
    PROPERTY_GET, PROPERTY_SET, SGL, SUCCESS, Sqe, fctype, put_text,
};

// Whether a queue takes fabrics commands of a type.
fn may_take(bound: &Option<Bound>, kind: u8) -> bool
    ensures { result ≡ takes bound.now kind }
{
    match bound {
        None => kind == CONNECT,
        Some(bound) => bound.qid == 0 && (kind == PROPERTY_GET || kind == PROPERTY_SET),
    }
}

// All checks of a fabrics command.
#[tactic(auto, unfolding(crate::specs::Checks::control_answer, sqe_cqe::specs::Sqe::direction_of))]
fn check(t: &Tree, controllers: &Controllers, b: &Binding, e: &Sqe, payload: &[u8]) -> Answer
    requires opcode { e.now.opcode ≡ FABRICS }
    requires payload { direction_of e.now ≡ ToController → length payload.now ≡ e.now.sgl_len }
    requires room { HasRoom controllers.now b.now.bound }
    ensures is { result ≡ control_answer t.now controllers.now b.now e.now payload.now }
    ensures fits { FitsAnswer t.now controllers.now result }
{
    if !may_take(&b.bound, fctype(e)) {
        return refused(INVALID_OPCODE, 0);
    }
    if e.flags != SGL {
        return refused(INVALID_FIELD, 0);
    }
    match b.bound {
        None => check_connect(t, controllers, b.port, e, payload),
        Some(bound) => check_property(controllers, &bound, e),
    }
}

// Says that the texts of a subsystem fit the fields of Identify Controller, and does nothing.
fn texts_fit(_t: &Tree, _at: u8, _row: &SubsystemRow)
    requires { subsystem_row _t.now _at ≡ Some _row.now }
    ensures nqn { length _row.now.nqn ≤ 256 }
    ensures serial { length _row.now.serial ≤ 20 }
    ensures model { length _row.now.model_name ≤ 40 }
{
    _t.certify();
    subsystem_positions(_t);
}

// A new controller, as admin commands see it.
fn ctrl_of(t: &Tree, bound: Bound) -> Ctrl
    requires { IsTrue (subsystem_place_taken t.now bound.sub) }
    ensures { result ≡ new_ctrl t.now bound }
{
    let row = t.subsystem(bound.sub);
    texts_fit(t, bound.sub, row);
    let mut subnqn = [0; 256];
    put_text(&mut subnqn, row.nqn.as_bytes(), 0);
    let mut serial = [0; 20];
    put_text(&mut serial, row.serial.as_bytes(), b' ');
    let mut model_name = [0; 40];
    put_text(&mut model_name, row.model_name.as_bytes(), b' ');
    Ctrl {
        bound,
        since: 0,
        subnqn,
        serial,
        model_name,
    }
}

// Makes a controller and attaches it.
fn make(t: &mut Tree, controllers: &mut Controllers, bound: Bound, host: [u8; 256]) -> Ctrl
    requires sub { IsTrue (subsystem_place_taken t.old bound.sub) }
    requires port { IsTrue (port_place_taken t.old bound.port) }
    requires room { length controllers.old < MAX_CONTROLLERS }
    requires attached { AttachedAreThere t.old controllers.old }
    ensures made { result ≡ new_ctrl t.old bound }
    ensures tree { t.new ≡ with_attached t.old bound.sub bound.port }
    ensures rows { controllers.new ≡ controllers.old ++ new_controller t.old bound host ∷ [] }
{
    let ctrl = ctrl_of(t, bound);
    t.attach(bound.sub, bound.port);
    controllers.add(ControllerRow {
        ctrl,
        host,
        cc: 0,
        csts: 0,
        qids: 0,
    });
    ctrl
}

// A controller with one more QID connected.
fn row_with_queue(row: &ControllerRow, qid: u16) -> ControllerRow
    requires { (1 ≤ qid) × (qid ≤ 128) }
    ensures { result ≡ with_qid qid row.now }
{
    let mut new = *row;
    new.qids = row.qids | (1 << (qid - 1));
    new
}

// Connects an I/O queue to its controller.
fn join(controllers: &mut Controllers, bound: Bound)
    requires { (1 ≤ bound.qid) × (bound.qid ≤ 128) }
    ensures { controllers.new ≡ changed controllers.old bound.ctrl (with_qid bound.qid) }
{
    let Some(row) = row_of(controllers, bound.ctrl) else {
        return;
    };
    let row = row_with_queue(row, bound.qid);
    controllers.put(bound.ctrl as usize - 1, row);
}

// Sets CC of the controller that a queue is bound to. Answers whether CC or CSTS changed.
fn set_bound(controllers: &mut Controllers, bound: &Option<Bound>, cc: u32) -> bool
    ensures changed { result ≡ sets_differ controllers.old bound.now cc }
    ensures controllers { controllers.new ≡ changed_bound controllers.old bound.now (after_set cc) }
{
    let Some(bound) = bound else {
        return false;
    };
    let Some(row) = row_of(controllers, bound.ctrl) else {
        return false;
    };
    let new = set(row, cc);
    let has_changed = has_changed(row, &new);
    controllers.put(bound.ctrl as usize - 1, new);
    has_changed
}

fn qid_of(bound: &Option<Bound>) -> u16
    ensures { result ≡ qid_from bound.now }
{
    match bound {
        None => 0,
        Some(bound) => bound.qid,
    }
}

// What is told of a command, on a queue as it is bound after it.
fn told(
    b: &Binding,
    e: &Sqe,
    status: u16,
    value: u64,
    published: bool,
    made: Option<Ctrl>,
) -> Control
    ensures { result ≡ record {
      cqe = record { result = value; sq_head = 0; sq_id = qid_from b.now.bound; cid = e.now.cid; status = status };
      published = published;
      made = made;
    } }
{
    let cqe = Cqe {
        result: value,
        sq_head: 0,
        sq_id: qid_of(&b.bound),
        cid: e.cid,
        status,
    };
    Control {
        cqe,
        published,
        made,
    }
}

// Does what the checks came to.
#[tactic(auto, unfolding(crate::specs::After::controllers_after, crate::specs::After::tree_after, crate::specs::After::binding_after, crate::specs::After::completion_of, crate::specs::After::is_published, crate::specs::After::made_by, crate::specs::After::told_by))]
fn act(
    t: &mut Tree,
    controllers: &mut Controllers,
    b: &mut Binding,
    e: &Sqe,
    answer: Answer,
) -> Control
    requires fits { FitsAnswer t.old controllers.old answer }
    requires attached { AttachedAreThere t.old controllers.old }
    ensures told { result ≡ told_by t.old controllers.old b.old e.now answer }
    ensures tree { t.new ≡ tree_after t.old answer }
    ensures controllers { controllers.new ≡ controllers_after t.old controllers.old b.old answer }
    ensures binding { b.new ≡ binding_after b.old answer }
{
    match answer {
        Answer::Refused(fault) => told(b, e, fault.status, fault.result, false, None),
        Answer::Makes(bound, host) => {
            let made = make(t, controllers, bound, host);
            b.bound = Some(bound);
            told(b, e, SUCCESS, u64::from(bound.ctrl), true, Some(made))
        }
        Answer::Joins(bound) => {
            join(controllers, bound);
            b.bound = Some(bound);
            told(b, e, SUCCESS, u64::from(bound.ctrl), true, None)
        }
        Answer::Reads(value) => told(b, e, SUCCESS, value, false, None),
        Answer::Sets(cc) => {
            let published = set_bound(controllers, &b.bound, cc);
            told(b, e, SUCCESS, 0, published, None)
        }
    }
}

/// Does a fabrics command (opcode 7Fh) on a queue: Connect, Property Get or Property Set.
///
/// Checks go in the order of `specs/Checks.antt`; the first that fails answers with its status and
/// its result, and leaves tree, controllers and binding as before. An accepted admin Connect makes
/// the next controller, attaches it to its subsystem and its port, and binds the queue; an I/O
/// Connect connects its QID and binds the queue. A Property Set of CC enables, disables or shuts
/// down the queue's controller. The completion carries the queue's QID, of a Connect that is
/// accepted the QID that it connects.
///
/// `payload` has as many bytes as the SGL length of a Connect says. A queue that isn't connected
/// comes with fewer than 31 controllers, and no position has more attached than there are. Takes
/// no memory. The keep-alive time isn't kept here: `sqe_cqe::keep_alive` reads it of the entry that
/// made a controller. After NVMe over Fabrics 1.1, 3.3, 3.5 and 3.6, and Linux nvmet,
/// fabrics-cmd.c.
pub fn control(
    t: &mut Tree,
    controllers: &mut Controllers,
    b: &mut Binding,
    e: &Sqe,
    payload: &[u8],
) -> Control
    requires opcode { e.now.opcode ≡ FABRICS }
    requires payload { direction_of e.now ≡ ToController → length payload.now ≡ e.now.sgl_len }
    requires room { HasRoom controllers.old b.old.bound }
    requires attached { AttachedAreThere t.old controllers.old }
    ensures told { let a = control_answer t.old controllers.old b.old e.now payload.now in
        result ≡ told_by t.old controllers.old b.old e.now a }
    ensures tree { let a = control_answer t.old controllers.old b.old e.now payload.now in
        t.new ≡ tree_after t.old a }
    ensures controllers { let a = control_answer t.old controllers.old b.old e.now payload.now in
        controllers.new ≡ controllers_after t.old controllers.old b.old a }
    ensures binding { let a = control_answer t.old controllers.old b.old e.now payload.now in
        b.new ≡ binding_after b.old a }
    ensures accepted { let a = control_answer t.old controllers.old b.old e.now payload.now in
        FitsAnswer t.old controllers.old a }
    ensures refused { result.cqe.status ≢ SUCCESS → (t.new ≡ t.old)
        × (controllers.new ≡ controllers.old) × (b.new ≡ b.old) × (result.published ≡ false)
        × (result.made ≡ None) }
    ensures attached { AttachedAreThere t.new controllers.new }
{
    let answer = check(t, controllers, b, e, payload);
    act(t, controllers, b, e, answer)
}
