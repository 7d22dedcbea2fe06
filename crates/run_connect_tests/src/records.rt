// Records of response files, written from the table of their fields.
use std::alloc::Global;
use std::test::Fail;

/// One record of a table.
#[derive(Clone, Copy)]
pub enum Record {
    /// A control call: place, number, QID, command identifier, status, result.
    Control(u32, u32, u16, u16, u16, u64),
    /// A submit that is answered: the same without a result, which is 0.
    Answered(u32, u32, u16, u16, u16),
    /// A submit that is held: place and number.
    Held(u32, u32),
    /// An execute that succeeds: place, number, QID, command identifier.
    Executed(u32, u32, u16, u16),
    /// The same with one block of this byte.
    WithBlock(u32, u32, u16, u16, u8),
    /// A poll that gives no event: place, and the capsules that the queue took.
    NoEvent(u32, u32),
}

// The 32 bytes before a record's data.
fn put_head(
    bytes: &mut Vec<u8>,
    place: u32,
    kind: u8,
    answer: u8,
    number: u32,
    length: u32,
    completion: (u64, u16, u16, u16),
) -> Result<(), Fail> {
    let (result, qid, cid, status) = completion;
    bytes.extend_from_slice(&place.to_le_bytes())?;
    bytes.extend_from_slice(&[kind, answer, 0, 0])?;
    bytes.extend_from_slice(&number.to_le_bytes())?;
    bytes.extend_from_slice(&length.to_le_bytes())?;
    bytes.extend_from_slice(&result.to_le_bytes())?;
    bytes.extend_from_slice(&[0, 0])?;
    bytes.extend_from_slice(&qid.to_le_bytes())?;
    bytes.extend_from_slice(&cid.to_le_bytes())?;
    bytes.extend_from_slice(&status.to_le_bytes())?;
    Ok(())
}

/// The response file of these records.
pub fn response_file(alloc: Global, records: &[Record]) -> Result<Vec<u8>, Fail> {
    let mut bytes = Vec::new(alloc);
    for record in records {
        match *record {
            Record::Control(place, number, qid, cid, status, result) => {
                put_head(
                    &mut bytes,
                    place,
                    4,
                    1,
                    number,
                    0,
                    (result, qid, cid, status),
                )?;
            }
            Record::Answered(place, number, qid, cid, status) => {
                put_head(&mut bytes, place, 1, 1, number, 0, (0, qid, cid, status))?;
            }
            Record::Held(place, number) => {
                put_head(&mut bytes, place, 1, 0, number, 0, (0, 0, 0, 0))?;
            }
            Record::Executed(place, number, qid, cid) => {
                put_head(&mut bytes, place, 2, 1, number, 0, (0, qid, cid, 0))?;
            }
            Record::WithBlock(place, number, qid, cid, byte) => {
                put_head(&mut bytes, place, 2, 1, number, 512, (0, qid, cid, 0))?;
                bytes.extend_from_slice(&[byte; 512])?;
            }
            Record::NoEvent(place, number) => {
                put_head(&mut bytes, place, 3, 3, number, 0, (0, 0, 0, 0))?;
            }
        }
    }
    Ok(bytes)
}
