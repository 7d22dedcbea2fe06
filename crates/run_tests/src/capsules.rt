// Entries of commands, and heads of records, by the tables of the formats.
use sqe_cqe::Sqe;

/// A submission entry with flags 40h.
pub fn entry(opcode: u8, cid: u16, nsid: u32, slba: u64, nlb: u16, sgl_len: u32) -> Sqe {
    Sqe {
        opcode,
        flags: 0x40,
        cid,
        nsid,
        cdw2: 0,
        cdw3: 0,
        mptr: 0,
        sgl_addr: 0,
        sgl_len,
        sgl_rest: [0; 4],
        cdw10: (slba % 0x1_0000_0000) as u32,
        cdw11: (slba / 0x1_0000_0000) as u32,
        cdw12: u32::from(nlb),
        cdw13: 0,
        cdw14: 0,
        cdw15: 0,
    }
}

/// The head and completion of a record without data, on a queue with this QID.
pub fn record(
    place: u8,
    kind: u8,
    answer: u8,
    number: u8,
    qid: u8,
    cid: u8,
    status: u16,
) -> [u8; 32] {
    let [low, high] = status.to_le_bytes();
    let id = if answer == 1 { qid } else { 0 };
    [
        place, 0, 0, 0, kind, answer, 0, 0, number, 0, 0, 0, 0, 0, 0, 0, 0, 0, 0, 0, 0, 0, 0, 0, 0,
        0, id, 0, cid, 0, low, high,
    ]
}
