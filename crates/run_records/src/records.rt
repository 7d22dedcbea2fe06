// Response records: what a queue answered to its calls, as bytes.
ghost use Rattle.std.specs.Prelude.{◌≡◌, ◌≤◌, ◌+◌, ◌++◌, length};
ghost use Rattle.sqe_cqe.specs.Cqe.{cqe_bytes};
ghost use Rattle.mem_bdev.specs.Texts.{HasRoom, appended};
ghost use Rattle.run_records.specs.Records.{HeadFieldsFill, answer_code, call_bytes, head_bytes, kind_code, record_bytes};

use mem_bdev::Buffer;
use sqe_cqe::{Cqe, write_cqe};

/// How many bytes the head of a record has.
pub const HEAD_BYTES: usize = 32;

/// Which call of a queue a record is of.
#[derive(Clone, Copy, Debug, PartialEq, Eq)]
pub enum Kind {
    Submit,
    Execute,
    Poll,
    Control,
}

/// What a call answered.
#[derive(Clone, Copy, Debug, PartialEq, Eq)]
pub enum Answer {
    /// The command is held.
    Held,
    /// The call is complete; of a poll: an event.
    Answered,
    /// An event request waits.
    Waiting,
    /// A poll found no event.
    NoEvent,
}

/// The head of a record of a response file: a call of a queue, and what it answered. The data for the host follow it.
#[derive(Clone, Copy, Debug, PartialEq, Eq)]
pub struct Head {
    /// The place of the call in the order of all calls of the run, from 0.
    pub place: u32,
    pub kind: Kind,
    pub answer: Answer,
    /// The capsule's number in its file, from 0; of a poll, how many capsules the queue has taken.
    pub number: u32,
    /// How many bytes of data follow.
    pub len: u32,
    /// The completion; all fields 0 where nothing was answered.
    pub cqe: Cqe,
}

impl Kind {
    /// The kind's code in a record: 1 submit, 2 execute, 3 poll, 4 control.
    pub fn code(self) -> u8
        ensures { result ≡ kind_code self }
    {
        match self {
            Kind::Submit => 1,
            Kind::Execute => 2,
            Kind::Poll => 3,
            Kind::Control => 4,
        }
    }
}

impl Answer {
    /// The answer's code in a record: 0 held, 1 answered, 2 waiting, 3 no event.
    pub fn code(self) -> u8
        ensures { result ≡ answer_code self }
    {
        match self {
            Answer::Held => 0,
            Answer::Answered => 1,
            Answer::Waiting => 2,
            Answer::NoEvent => 3,
        }
    }
}

// The 16 bytes before the completion.
#[tactic(auto, unfolding(crate::specs::Records::call_bytes))]
fn write_call(h: &Head) -> [u8; 16]
    ensures { result ≡ call_bytes h.now }
{
    let [p0, p1, p2, p3] = h.place.to_le_bytes();
    let ([k], [a]) = (h.kind.code().to_le_bytes(), h.answer.code().to_le_bytes());
    let [z0, z1] = 0u16.to_le_bytes();
    let [n0, n1, n2, n3] = h.number.to_le_bytes();
    let [l0, l1, l2, l3] = h.len.to_le_bytes();
    [p0, p1, p2, p3, k, a, z0, z1, n0, n1, n2, n3, l0, l1, l2, l3]
}

/// The 32 bytes of a record's head: its fields one after another, each little-endian.
#[inline(always)]
pub fn write_head(h: &Head) -> [u8; HEAD_BYTES]
    ensures { result ≡ head_bytes h.now }
{
    let mut bytes = [0; HEAD_BYTES];
    bytes[..16].copy_from_slice(&write_call(h));
    bytes[16..].copy_from_slice(&write_cqe(&h.cqe));
    bytes
}

/// Appends a record, its head and then its data, for which there is room. Takes no memory.
#[inline(always)]
pub fn put_record(h: &Head, payload: &[u8], to: &mut Buffer)
    requires len { h.now.len ≡ length payload.now }
    requires room { HasRoom to.old (HEAD_BYTES + length payload.now) }
    ensures value { to.new ≡ appended to.old (record_bytes h.now payload.now) }
    ensures len { length to.new.bytes ≡ length to.old.bytes + (HEAD_BYTES + length payload.now) }
{
    to.put(&write_head(h));
    if !payload.is_empty() {
        to.put(payload);
    }
}

/// A law, with nothing to run: the fields of a head fill its 32 bytes without a gap, in the order in which they are
/// written.
pub fn head_fields_fill()
    ensures { HeadFieldsFill }
{}
