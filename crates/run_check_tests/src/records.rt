// Records of response files, written by the table of their fields.
use std::alloc::Global;
use std::test::Fail;

/// Kinds of records.
pub const SUBMIT: u8 = 1;

pub const EXECUTE: u8 = 2;

pub const POLL: u8 = 3;

pub const CONTROL: u8 = 4;

/// Answers of records.
pub const HELD: u8 = 0;

pub const ANSWERED: u8 = 1;

pub const WAITING: u8 = 2;

pub const NO_EVENT: u8 = 3;

/// A completion: its result, SQ head pointer, SQ identifier, command identifier and status field.
#[derive(Clone, Copy, PartialEq, Eq)]
pub struct Completion {
    pub result: u64,
    pub sq_head: u16,
    pub sq_id: u16,
    pub cid: u16,
    pub status: u16,
}

impl Completion {
    /// That of a record whose answer is none.
    pub const NONE: Completion = Completion {
        result: 0,
        sq_head: 0,
        sq_id: 0,
        cid: 0,
        status: 0,
    };
}

/// A record.
#[derive(Drop)]
pub struct Record {
    pub place: u32,
    pub kind: u8,
    pub answer: u8,
    pub number: u32,
    pub completion: Completion,
    pub bytes: Vec<u8>,
}

impl Record {
    /// The same once more.
    pub fn again(&self, alloc: Global) -> Result<Record, Fail> {
        Ok(Record {
            place: self.place,
            kind: self.kind,
            answer: self.answer,
            number: self.number,
            completion: self.completion,
            bytes: Vec::from_slice(alloc, &self.bytes)?,
        })
    }

    // Appends it.
    fn put(&self, to: &mut Vec<u8>) -> Result<(), Fail> {
        let length = u32::try_from(self.bytes.len()).unwrap_or(u32::MAX);
        to.extend_from_slice(&self.place.to_le_bytes())?;
        to.extend_from_slice(&[self.kind, self.answer, 0, 0])?;
        to.extend_from_slice(&self.number.to_le_bytes())?;
        to.extend_from_slice(&length.to_le_bytes())?;
        to.extend_from_slice(&self.completion.result.to_le_bytes())?;
        to.extend_from_slice(&self.completion.sq_head.to_le_bytes())?;
        to.extend_from_slice(&self.completion.sq_id.to_le_bytes())?;
        to.extend_from_slice(&self.completion.cid.to_le_bytes())?;
        to.extend_from_slice(&self.completion.status.to_le_bytes())?;
        to.extend_from_slice(&self.bytes)?;
        Ok(())
    }
}

// The response file of these records.
pub(crate) fn response_file(alloc: Global, records: &[Record]) -> Result<Vec<u8>, Fail> {
    let mut bytes = Vec::new(alloc);
    for record in records {
        record.put(&mut bytes)?;
    }
    Ok(bytes)
}
