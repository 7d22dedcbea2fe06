// Fabrics commands as data, and what is compared of one.
ghost use Rattle.std.specs.Prelude.{◌≡◌, ◌≤◌, length, take};
ghost use Rattle.fabrics_connect.specs.After.{AttachedAreThere};

use configfs_tree::Tree;
use fabrics_connect::{CONNECT_LEN, Control, control};
use sqe_cqe::{
    Binding, CONNECT, Controllers, Direction, FABRICS, PROPERTY_GET, PROPERTY_SET, SGL, Sqe,
    direction, read_sqe,
};
use std::process::Abort;

/// What a Connect asks for: subsystem and host as the bytes of their fields, CNTLID, QID, SQSIZE.
#[derive(Clone, Copy)]
pub struct Ask(
    pub &'static [u8],
    pub &'static [u8],
    pub u16,
    pub u16,
    pub u16,
);

/// A fabrics command.
#[derive(Clone, Copy)]
pub enum Call {
    /// A Connect.
    Connect(Ask),
    /// A Connect with other flags.
    Flags(u8, Ask),
    /// A Connect with so many bytes of data.
    Len(u32, Ask),
    /// A Connect with a record format.
    Format(u16, Ask),
    /// A Property Get, of eight bytes or four, at an offset.
    Get(bool, u32),
    /// A Property Set, of eight bytes or four, at an offset, of a value.
    Set(bool, u32, u64),
    /// A command of another type, with flags and an SGL length.
    Other(u8, u8, u32),
}

/// A queue by its number, a command, and what it gets: status, result, SQ identifier, whether it is published.
#[derive(Clone, Copy)]
pub struct Row(pub u8, pub Call, pub u16, pub u64, pub u16, pub bool);

fn entry(kind: u8, flags: u8, len: u32) -> Sqe {
    let mut e = read_sqe(&[0; 64]);
    e.opcode = FABRICS;
    e.flags = flags;
    e.cid = 0x1234;
    e.nsid = u32::from(kind);
    e.sgl_len = len;
    e
}

fn connect(flags: u8, len: u32, format: u16, ask: Ask) -> Sqe {
    let mut e = entry(CONNECT, flags, len);
    e.cdw10 = u32::from(format) + u32::from(ask.3) * 0x1_0000;
    e.cdw11 = u32::from(ask.4);
    e.cdw12 = 120_000;
    e
}

fn property(kind: u8, is_long: bool, offset: u32, value: u64) -> Sqe {
    let mut e = entry(kind, SGL, 0);
    e.cdw10 = u32::from(is_long);
    e.cdw11 = offset;
    e.cdw12 = (value % 0x1_0000_0000) as u32;
    e.cdw13 = (value / 0x1_0000_0000) as u32;
    e
}

/// The entry of a command.
pub fn entry_of(call: Call) -> Sqe {
    match call {
        Call::Connect(ask) => connect(SGL, CONNECT_LEN, 0, ask),
        Call::Flags(flags, ask) => connect(flags, CONNECT_LEN, 0, ask),
        Call::Len(len, ask) => connect(SGL, len, 0, ask),
        Call::Format(format, ask) => connect(SGL, CONNECT_LEN, format, ask),
        Call::Get(is_long, offset) => property(PROPERTY_GET, is_long, offset, 0),
        Call::Set(is_long, offset, value) => property(PROPERTY_SET, is_long, offset, value),
        Call::Other(kind, flags, len) => entry(kind, flags, len),
    }
}

fn put(rt: &impl Abort, data: &mut [u8; 2048], at: usize, bytes: &[u8]) {
    assert!(rt; at <= 1024 && bytes.len() <= 256);
    data[at..at + bytes.len()].copy_from_slice(bytes);
}

/// The data of a command, in front of zeros.
pub fn data_of(rt: &impl Abort, call: Call) -> [u8; 2048] {
    let mut data = [0; 2048];
    match call {
        Call::Connect(ask) | Call::Flags(_, ask) | Call::Len(_, ask) | Call::Format(_, ask) => {
            put(rt, &mut data, 16, &ask.2.to_le_bytes());
            put(rt, &mut data, 256, ask.0);
            put(rt, &mut data, 512, ask.1);
        }
        _ => {}
    }
    data
}

/// Makes a call, where its conditions hold.
pub fn make_call(
    rt: &impl Abort,
    t: &mut Tree,
    controllers: &mut Controllers,
    b: &mut Binding,
    call: Call,
) -> Control
    requires { AttachedAreThere t.old controllers.old }
    ensures { AttachedAreThere t.new controllers.new }
{
    let e = entry_of(call);
    let data = data_of(rt, call);
    assert!(rt; e.opcode == FABRICS);
    assert!(rt; controllers.rows().len() < 31);
    let len = if direction(&e) == Direction::ToController {
        e.sgl_len as usize
    } else {
        0
    };
    assert!(rt; len <= 2048);
    control(t, controllers, b, &e, &data[..len])
}

// Runs one row.
fn run_row(
    rt: &impl Abort,
    t: &mut Tree,
    controllers: &mut Controllers,
    b: &mut Binding,
    row: &Row,
    number: usize,
)
    requires { AttachedAreThere t.old controllers.old }
    ensures { AttachedAreThere t.new controllers.new }
{
    let told = make_call(rt, t, controllers, b, row.1);
    assert_eq!(rt; told.cqe.status, row.2, "row {number}");
    assert_eq!(rt; told.cqe.result, row.3, "row {number}");
    assert_eq!(rt; told.cqe.sq_id, row.4, "row {number}");
    assert_eq!(rt; told.published, row.5, "row {number}");
    assert_eq!(rt; told.cqe.cid, 0x1234, "row {number}");
    assert_eq!(rt; told.cqe.sq_head, 0, "row {number}");
}

/// Runs a table of rows from a number on.
pub fn run(
    rt: &impl Abort,
    t: &mut Tree,
    controllers: &mut Controllers,
    queues: &mut [Binding],
    rows: &[Row],
    from: usize,
)
    requires { AttachedAreThere t.old controllers.old }
    ensures { AttachedAreThere t.new controllers.new }
{
    match rows {
        [] => {}
        [row, rest @ ..] => {
            let queue = row.0 as usize;
            assert!(rt; queue < queues.len());
            assert!(rt; from < 1000);
            run_row(rt, t, controllers, &mut queues[queue], row, from);
            run(rt, t, controllers, queues, rest, from + 1);
        }
    }
}
