ghost use Rattle.std.specs.Prelude.{◌≡◌, ◌≤◌, ◌<◌, ◌+◌, ◌*◌, ◌^◌, [], length, IfOk};
ghost use Rattle.mem_bdev.specs.Texts.{HasRoom};
ghost use Rattle.run_transcript.specs.Printing.{answer_of, completion_of, head_of};
ghost use Rattle.run_transcript.specs.Sums.{answered_count, failure_count, waiting_count};
ghost use Rattle.run_serving.specs.Tallies.{submits_by, executes_by, refusals_by, events_by};

use mem_bdev::Buffer;
use run_records::{Answer, HEAD_BYTES, Head, Kind, put_record};
use sqe_cqe::{Cqe, SUCCESS};
use std::alloc::{AllocError, Global};
use tree_target::Reply;

/// What a queue's calls have given so far: the records, and the numbers of the summary. `calls` are
/// all of them; `refused` are completions with another status than success, those of polls left out;
/// `events` are completions of polls, `waiting` the event requests that had to wait. Data are
/// counted in bytes: `taken` from the host by executes, `given` to it.
#[derive(Drop)]
pub struct Output {
    pub records: Buffer,
    pub calls: u32,
    pub submitted: u32,
    pub executed: u32,
    pub refused: u32,
    pub events: u32,
    pub waiting: u32,
    pub taken: u64,
    pub given: u64,
    ghost few: { (submitted ≤ calls) × (executed ≤ calls) × (refused ≤ calls) },
    ghost few_events: { (events ≤ calls) × (waiting ≤ calls) },
    ghost taken_fits: { taken ≤ calls * 4294967296 },
    ghost given_fits: { given ≤ calls * 4294967296 },
}

fn submits(kind: Kind) -> u32
    ensures value { result ≡ submits_by kind }
    ensures small { result ≤ 1 }
{
    match kind {
        Kind::Submit => 1,
        Kind::Execute | Kind::Poll | Kind::Control => 0,
    }
}

fn executes(kind: Kind) -> u32
    ensures value { result ≡ executes_by kind }
    ensures small { result ≤ 1 }
{
    match kind {
        Kind::Execute => 1,
        Kind::Submit | Kind::Poll | Kind::Control => 0,
    }
}

fn failures(reply: &Reply) -> u32
    ensures value { result ≡ failure_count reply.now }
    ensures small { result ≤ 1 }
{
    match reply {
        Reply::Answered(cqe) => { if cqe.status == SUCCESS { 0 } else { 1 } }
        Reply::Held
        | Reply::Waiting
        | Reply::NoEvent
        | Reply::Accepted
        | Reply::Errno(_)
        | Reply::Ended => 0,
    }
}

fn refusals(kind: Kind, reply: &Reply) -> u32
    ensures value { result ≡ refusals_by kind reply.now }
    ensures small { result ≤ 1 }
{
    match kind {
        Kind::Poll => 0,
        Kind::Submit | Kind::Execute | Kind::Control => failures(reply),
    }
}

fn answers(reply: &Reply) -> u32
    ensures value { result ≡ answered_count reply.now }
    ensures small { result ≤ 1 }
{
    match reply {
        Reply::Answered(_) => 1,
        Reply::Held
        | Reply::Waiting
        | Reply::NoEvent
        | Reply::Accepted
        | Reply::Errno(_)
        | Reply::Ended => 0,
    }
}

fn events(kind: Kind, reply: &Reply) -> u32
    ensures value { result ≡ events_by kind reply.now }
    ensures small { result ≤ 1 }
{
    match kind {
        Kind::Poll => answers(reply),
        Kind::Submit | Kind::Execute | Kind::Control => 0,
    }
}

fn waits(reply: &Reply) -> u32
    ensures value { result ≡ waiting_count reply.now }
    ensures small { result ≤ 1 }
{
    match reply {
        Reply::Waiting => 1,
        Reply::Held
        | Reply::Answered(_)
        | Reply::NoEvent
        | Reply::Accepted
        | Reply::Errno(_)
        | Reply::Ended => 0,
    }
}

impl Output {
    ghost use Rattle.run_serving.specs.Prints.{Adds, Counts, Prints};

    /// An output of no calls, with room for this many bytes of records.
    pub(crate) fn new(alloc: Global, room: usize) -> Result<Self, AllocError>
        ensures prints { IfOk result (λ o. Prints o []) }
        ensures calls { IfOk result (λ o. o.calls ≡ 0) }
        ensures room { IfOk result (λ o. o.records ≡ record { bytes = []; room = room }) }
    {
        let records = Buffer::with_room(alloc, room)?;
        Ok(Output {
            records,
            calls: 0,
            submitted: 0,
            executed: 0,
            refused: 0,
            events: 0,
            waiting: 0,
            taken: 0,
            given: 0,
        })
    }

    /// Counts a call whose record was appended: it took `payload` bytes of data and gave `given`.
    #[inline(always)]
    pub(crate) fn count(&mut self, kind: Kind, reply: &Reply, payload: usize, given: usize)
        requires few { self.old.calls < 4294967295 }
        requires payload { payload < 2 ^ 32 }
        requires given { given < 2 ^ 32 }
        ensures same { self.new.records ≡ self.old.records }
        ensures counts { Counts self.old self.new kind reply.now payload given }
    {
        let calls = self.calls + 1;
        let submitted = self.submitted + submits(kind);
        let executed = self.executed + executes(kind);
        let refused = self.refused + refusals(kind, reply);
        let events = self.events + events(kind, reply);
        let waiting = self.waiting + waits(reply);
        let taken = self.taken + payload as u64;
        let given = self.given + given as u64;
        self.calls = calls;
        self.submitted = submitted;
        self.executed = executed;
        self.refused = refused;
        self.events = events;
        self.waiting = waiting;
        self.taken = taken;
        self.given = given;
    }

    /// Adds the record of a call that takes and gives no data, at its place. There is room for it,
    /// so it takes no memory.
    #[inline(always)]
    pub(crate) fn add(&mut self, place: u32, kind: Kind, number: u32, reply: &Reply)
        requires few { self.old.calls < 4294967295 }
        requires room { HasRoom self.old.records HEAD_BYTES }
        ensures adds { Adds self.old self.new place kind number reply.now 0 [] }
        ensures len { length self.new.records.bytes ≡ length self.old.records.bytes + HEAD_BYTES }
    {
        let head = head(place, kind, number, reply, 0);
        put_record(&head, &[], &mut self.records);
        self.count(kind, reply, 0, 0);
    }
}

/// The head of the record of a call, with so many bytes of data after it.
pub(crate) fn head(place: u32, kind: Kind, number: u32, reply: &Reply, len: u32) -> Head
    ensures { result ≡ head_of place kind number reply.now len }
{
    Head {
        place,
        kind,
        answer: answer(reply),
        number,
        len,
        cqe: completion(reply),
    }
}

fn completion(reply: &Reply) -> Cqe
    ensures { result ≡ completion_of reply.now }
{
    match reply {
        Reply::Answered(cqe) => *cqe,
        Reply::Held
        | Reply::Waiting
        | Reply::NoEvent
        | Reply::Accepted
        | Reply::Errno(_)
        | Reply::Ended => Cqe {
            result: 0,
            sq_head: 0,
            sq_id: 0,
            cid: 0,
            status: 0,
        },
    }
}

fn answer(reply: &Reply) -> Answer
    ensures { result ≡ answer_of reply.now }
{
    match reply {
        Reply::Held => Answer::Held,
        Reply::Answered(_) => Answer::Answered,
        Reply::Waiting => Answer::Waiting,
        Reply::NoEvent | Reply::Accepted | Reply::Errno(_) | Reply::Ended => Answer::NoEvent,
    }
}
