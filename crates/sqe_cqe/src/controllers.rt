ghost use Rattle.std.specs.Prelude.{◌≡◌, ◌≤◌, ◌<◌, [], ◌∷◌, ◌++◌, IfOk, length, slice_set};
ghost use Rattle.sqe_cqe.specs.Ready.{filled, is_ready_row, ready_in, simple_ctrl, simple_rows};

use std::alloc::{AllocError, Global};
use std::marker::Model;

/// What a connected queue is bound to: its controller by number, from 1, its QID, 0 for the admin queue, and the
/// positions of its subsystem and its port.
#[derive(Clone, Copy, Debug, PartialEq, Eq)]
pub struct Bound {
    pub ctrl: u16,
    pub qid: u16,
    pub sub: u8,
    pub port: u8,
}

/// A queue: the ID of the port that it comes through, and what it is connected to.
#[derive(Clone, Copy, Debug, PartialEq, Eq)]
pub struct Binding {
    pub port: u16,
    pub bound: Option<Bound>,
}

/// A controller, as admin commands see it.
#[derive(Clone, Copy, Debug, PartialEq, Eq)]
pub struct Ctrl {
    /// Its admin queue's binding.
    pub bound: Bound,
    /// The serial of its Connect: how many changes were published before.
    pub since: u32,
    /// The NQN of its subsystem, filled up with zero bytes.
    pub subnqn: [u8; 256],
    /// Serial number (SN).
    pub serial: [u8; 20],
    /// Model number (MN).
    pub model_name: [u8; 40],
}

/// A controller with what Connect and properties keep of it.
#[derive(Clone, Copy, Debug, PartialEq, Eq)]
pub struct ControllerRow {
    pub ctrl: Ctrl,
    /// The NQN of its host, filled up with zero bytes: all zeros are the empty name, and 256 bytes without a zero byte
    /// name nothing.
    pub host: [u8; 256],
    /// Controller configuration (CC).
    pub cc: u32,
    /// Controller status (CSTS).
    pub csts: u32,
    /// Which I/O queues are connected: bit q - 1 for QID q.
    pub qids: u128,
}

/// The controllers in the order of their numbers, from 1, with room for 31. Contracts see the list of rows.
#[derive(Drop)]
pub struct Controllers {
    rows: Vec<ControllerRow>,
}

impl Model for Controllers {
    ghost use Rattle.std.specs.Prelude.{List, ◌≤◌};
    ghost use Rattle.std.specs.Vec.{vec_capacity};
    ghost use Rattle.sqe_cqe.specs.declared.controllers.ControllerRow.{ControllerRow};

    ghost Value = { List ControllerRow };

    ghost view = { λ c. c.rows.items };

    ghost invariant = { λ c. 31 ≤ vec_capacity c.rows };
}

// CC with EN set and queue entries of 64 and 16 bytes (IOSQES 6, IOCQES 4).
const ENABLED: u32 = 0x0046_0001;

/// Writes a text, which is no longer than the field, at the front of it and fills up the rest.
#[tactic(auto, unfolding(crate::specs::Ready::filled))]
pub fn put_text(field: &mut [u8], text: &[u8], fill: u8)
    requires { length text.now ≤ length field.old }
    ensures { field.new ≡ filled (length field.old) fill text.now }
{
    field.fill(fill);
    field[..text.len()].copy_from_slice(text);
}

// Makes a field of 256 bytes with the empty name.
fn empty_name() -> [u8; 256]
    ensures { result ≡ filled 256 0 [] }
{
    let mut field = [0; 256];
    put_text(&mut field, b"", 0);
    field
}

// The controller of a simple plan.
#[tactic(auto, unfolding(crate::specs::Ready::simple_ctrl))]
fn simple_controller() -> Ctrl
    ensures { result ≡ simple_ctrl }
{
    let mut subnqn = [0; 256];
    put_text(&mut subnqn, b"nqn.2014-08.org.nvmexpress:simple", 0);
    let mut serial = [0; 20];
    put_text(&mut serial, b"00000000000000000001", b' ');
    let mut model_name = [0; 40];
    put_text(&mut model_name, b"Linux", b' ');
    Ctrl {
        bound: Bound {
            ctrl: 1,
            qid: 0,
            sub: 0,
            port: 0,
        },
        since: 0,
        subnqn,
        serial,
        model_name,
    }
}

impl Controllers {
    /// No controller, with room for 31.
    pub fn new(alloc: Global) -> Result<Self, AllocError>
        ensures { IfOk result (λ c. c ≡ []) }
    {
        let rows = Vec::with_capacity(alloc, 31)?;
        Ok(Controllers { rows })
    }

    /// The one controller of a simple plan: number 1, at subsystem and port 0, enabled and ready, with QID 1 connected,
    /// and with the empty name as its host's, since no Connect named one.
    #[tactic(auto, unfolding(crate::specs::Ready::simple_rows))]
    pub fn simple(alloc: Global) -> Result<Self, AllocError>
        ensures { IfOk result (λ c. c ≡ simple_rows) }
    {
        let mut rows = Vec::with_capacity(alloc, 31)?;
        rows.push(ControllerRow {
            ctrl: simple_controller(),
            host: empty_name(),
            cc: ENABLED,
            csts: 1,
            qids: 1,
        })?;
        Ok(Controllers { rows })
    }

    /// The controllers in the order of their numbers: number n stands at n - 1.
    pub fn rows(&self) -> &[ControllerRow]
        ensures { result.now ≡ self.now }
    {
        &self.rows
    }

    /// Makes the next controller. There are fewer than 31 before, so no memory is taken.
    pub fn add(&mut self, row: ControllerRow)
        requires { length self.old < 31 }
        ensures { self.new ≡ self.old ++ row ∷ [] }
    {
        self.rows.push_reserved(row);
    }

    /// Puts another row at a place, counted from 0, where a controller stands.
    pub fn put(&mut self, at: usize, row: ControllerRow)
        requires { at < length self.old }
        ensures { self.new ≡ slice_set self.old at row }
    {
        self.rows[at] = row;
    }
}

// EN and RDY are bit 0 of CC and of CSTS.
fn is_ready(row: &ControllerRow) -> bool
    ensures { result ≡ is_ready_row row.now }
{
    row.cc % 2 == 1 && row.csts % 2 == 1
}

/// Whether a controller is ready: it is there, CC.EN is 1 and CSTS.RDY is 1 (NVMe Base 2.0, 3.1.3).
pub fn ready(controllers: &Controllers, ctrl: u16) -> bool
    ensures { result ≡ ready_in controllers.now ctrl }
{
    if ctrl == 0 {
        return false;
    }
    match controllers.rows.get(ctrl as usize - 1) {
        None => false,
        Some(row) => is_ready(row),
    }
}
