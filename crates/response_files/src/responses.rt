// Response files: records one after another.
ghost use Rattle.std.specs.Prelude.{◌≡◌, ◌≤◌, ◌+◌, ◌≢◌, ℕ, List, Ok, Err, IfOk, IfErr, All, drop, length, take};
ghost use Rattle.sqe_cqe.specs.Fields.{field};
ghost use Rattle.sqe_cqe.specs.Cqe.{cqe_of};
ghost use Rattle.response_files.specs.Responses as file;
ghost use Rattle.response_files.specs.Responses.{AreResponses, IsMalformedAt, IsWholeIn, StandBetween, is_blank, may_answer, response_in, responses_in};
ghost use Rattle.response_files.specs.ResponseReading.{Gives, answer_coded, head_in, is_well, kind_coded, next_response, responses_of};
ghost use Rattle.response_files.specs.declared.responses.RecordError.TheVariants.{Malformed, Memory};

use byteorder::{ByteOrder, LittleEndian};
use run_records::{Answer, HEAD_BYTES, Head, Kind};
use sqe_cqe::{Cqe, read_cqe};
use std::alloc::{AllocFailed, Global};
use thiserror::Error;

/// A record of a response file: its head, and where its data stand in the file.
#[derive(Clone, Copy, Debug, PartialEq, Eq)]
pub struct Record {
    /// The call and what it answered; its `len` is the number of bytes of data.
    pub head: Head,
    /// The offset of the data in the file, in bytes: right after the head's 32.
    pub data_at: usize,
}

/// Why a response file was not read.
#[derive(Clone, Copy, Debug, PartialEq, Eq, Error)]
pub enum RecordError {
    /// The record at this offset, the first such, is cut, has a byte that isn't 0 where it must be,
    /// an answer that its kind of call can't have, or a completion though nothing was answered.
    #[error("the record at byte {offset} is malformed")]
    Malformed { offset: u64 },
    /// No memory for the records.
    #[error("out of memory")]
    Memory,
}

impl<T: Drop> From<AllocFailed<T>> for RecordError {
    ghost from_gives = { λ _ e. e ≡ Memory };

    fn from(_e: AllocFailed<T>) -> RecordError {
        RecordError::Memory
    }
}

impl Record {
    /// The data of a record, in the bytes of its file.
    pub fn data<'a>(&self, bytes: &'a [u8]) -> &'a [u8]
        requires { IsWholeIn bytes.now self.now }
        ensures { result.now ≡ (response_in bytes.now self.now).payload }
    {
        &bytes[self.data_at..self.data_at + self.head.len as usize]
    }
}

fn byte_at(bytes: &[u8], at: usize) -> u8
    requires { at + 1 ≤ length bytes.now }
    ensures { result ≡ field at 1 bytes.now }
{
    bytes[at]
}

fn half_at(bytes: &[u8], at: usize) -> u16
    requires { at + 2 ≤ length bytes.now }
    ensures { result ≡ field at 2 bytes.now }
{
    LittleEndian::read_u16(&bytes[at..])
}

fn word_at(bytes: &[u8], at: usize) -> u32
    requires { at + 4 ≤ length bytes.now }
    ensures { result ≡ field at 4 bytes.now }
{
    LittleEndian::read_u32(&bytes[at..])
}

fn completion(bytes: &[u8]) -> Cqe
    requires { HEAD_BYTES ≤ length bytes.now }
    ensures { result ≡ cqe_of (take 16 (drop 16 bytes.now)) }
{
    let mut cqe = [0; 16];
    cqe.copy_from_slice(&bytes[16..32]);
    read_cqe(&cqe)
}

// The kind of call that a code stands for.
fn kind_coded(code: u8) -> Option<Kind>
    ensures { result ≡ kind_coded code }
{
    match code {
        1 => Some(Kind::Submit),
        2 => Some(Kind::Execute),
        3 => Some(Kind::Poll),
        4 => Some(Kind::Control),
        _ => None,
    }
}

// The answer that a code stands for.
fn answer_coded(code: u8) -> Option<Answer>
    ensures { result ≡ answer_coded code }
{
    match code {
        0 => Some(Answer::Held),
        1 => Some(Answer::Answered),
        2 => Some(Answer::Waiting),
        3 => Some(Answer::NoEvent),
        _ => None,
    }
}

// Whether a call of this kind may have this answer.
fn may_answer(kind: Kind, answer: Answer) -> bool
    ensures { result ≡ may_answer kind answer }
{
    match (kind, answer) {
        (Kind::Submit, Answer::Held | Answer::Answered | Answer::Waiting) => true,
        (Kind::Execute, Answer::Answered) => true,
        (Kind::Poll, Answer::Answered | Answer::NoEvent) => true,
        (Kind::Control, Answer::Answered) => true,
        _ => false,
    }
}

// Whether each field of a completion is 0.
#[tactic(auto, unfolding(crate::specs::Responses::is_blank))]
fn is_blank(c: &Cqe) -> bool
    ensures { result ≡ is_blank c.now }
{
    c.result == 0 && c.sq_head == 0 && c.sq_id == 0 && c.cid == 0 && c.status == 0
}

// Whether the zeros, the answer and the completion of a head are what they must be.
#[tactic(auto, unfolding(crate::specs::ResponseReading::is_well))]
fn is_well(bytes: &[u8], head: &Head) -> bool
    requires { HEAD_BYTES ≤ length bytes.now }
    ensures { result ≡ is_well bytes.now head.now }
{
    half_at(bytes, 6) == 0
        && may_answer(head.kind, head.answer)
        && (matches!(head.answer, Answer::Answered) || is_blank(&head.cqe))
}

// The head in the first 32 bytes.
#[tactic(auto, unfolding(crate::specs::ResponseReading::head_in, crate::specs::ResponseReading::head_if_well))]
fn head_in(bytes: &[u8]) -> Option<Head>
    requires { HEAD_BYTES ≤ length bytes.now }
    ensures { result ≡ head_in bytes.now }
{
    let kind = kind_coded(byte_at(bytes, 4))?;
    let answer = answer_coded(byte_at(bytes, 5))?;
    let head = Head {
        place: word_at(bytes, 0),
        kind,
        answer,
        number: word_at(bytes, 8),
        len: word_at(bytes, 12),
        cqe: completion(bytes),
    };
    if is_well(bytes, &head) {
        Some(head)
    } else {
        None
    }
}

// The bytes from an offset on.
fn from_offset(bytes: &[u8], at: usize) -> &[u8]
    requires { at ≤ length bytes.now }
    ensures { result.now ≡ drop at bytes.now }
{
    &bytes[at..]
}

// The record at an offset.
#[tactic(auto, unfolding(crate::specs::ResponseReading::next_response, crate::specs::ResponseReading::with_data))]
fn record_at(bytes: &[u8], at: usize) -> Result<Record, RecordError>
    requires { at ≤ length bytes.now }
    ensures exact { Gives (λ r. response_in bytes.now r) result
        (next_response at (drop at bytes.now)) }
    ensures whole { IfOk result (λ r. IsWholeIn bytes.now r) }
    ensures place { IfOk result (λ r. r.data_at ≡ at + HEAD_BYTES) }
{
    let malformed = RecordError::Malformed { offset: at as u64 };
    let rest = from_offset(bytes, at);
    if rest.len() < HEAD_BYTES {
        return Err(malformed);
    }
    let Some(head) = head_in(rest) else {
        return Err(malformed);
    };
    if rest.len() - HEAD_BYTES < head.len as usize {
        return Err(malformed);
    }
    let data_at = at + HEAD_BYTES;
    Ok(Record { head, data_at })
}

// The records of a file, or the first malformed one.
fn all_records(alloc: Global, bytes: &[u8]) -> Result<Vec<Record>, RecordError>
    ensures exact { Gives (λ v. responses_in bytes.now v.items) result (responses_of bytes.now) }
    ensures whole { IfOk result (λ v. All (IsWholeIn bytes.now) v.items) }
    ensures places { IfOk result (λ v. StandBetween 0 (length bytes.now) v.items) }
{
    let mut records = Vec::new(alloc);
    let mut at = 0;
    while at < bytes.len() {
        let record = record_at(bytes, at)?;
        at = record.data_at + record.head.len as usize;
        records.push(record)?;
    }
    Ok(records)
}

/// The records of a response file, one after another with nothing between or after them: a head of 32
/// bytes, and as many bytes of data as it says.
///
/// The answer is exact: the records, or the offset of the first that is malformed. Their data stay in
/// `bytes`, where `Record::data` finds them.
pub fn read_responses(alloc: Global, bytes: &[u8]) -> Result<Vec<Record>, RecordError>
    // What is read is printed so.
    ensures spelled { IfOk result (λ v. AreResponses bytes.now (responses_in bytes.now v.items)) }
    // What is printed so is read, unless memory runs out.
    ensures only { (rs : List file.Response) → AreResponses bytes.now rs
        → Gives (λ v. responses_in bytes.now v.items) result (Ok rs) }
    // Which fault it is.
    ensures exact { Gives (λ v. responses_in bytes.now v.items) result (responses_of bytes.now) }
    // The offset is that of the first malformed record, and a file with one is refused so, unless
    // memory runs out.
    ensures fault { IfErr result (λ e. e ≢ Memory
        → (offset : ℕ) × (e ≡ Malformed offset) × IsMalformedAt bytes.now offset) }
    ensures faults { (offset : ℕ) → IsMalformedAt bytes.now offset
        → Gives (λ v. responses_in bytes.now v.items) result (Err (Malformed offset)) }
    // Where the data stand: right after the head, and the next record right after them, up to the end
    // of the file.
    ensures whole { IfOk result (λ v. All (IsWholeIn bytes.now) v.items) }
    ensures places { IfOk result (λ v. StandBetween 0 (length bytes.now) v.items) }
{
    all_records(alloc, bytes)
}
