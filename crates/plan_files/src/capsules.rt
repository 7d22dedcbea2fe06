// Capsule files: submission entries and the data that go with them to the controller.
ghost use Rattle.std.specs.Prelude.{◌≡◌, ◌≤◌, ◌<◌, ◌+◌, ◌*◌, ◌≢◌, List, IfOk, IfErr, Ok, Err, All, length, drop};
ghost use Rattle.plan_files.specs.Capsules as file;
ghost use Rattle.plan_files.specs.Capsules.{AreCapsules, AreWithin, IsWholeIn, StandBetween, capsule_in, capsules_in, head_of};
ghost use Rattle.plan_files.specs.CapsuleFaults.{FirstFault};
ghost use Rattle.plan_files.specs.declared.capsules.CapsuleError as file_error;
ghost use Rattle.plan_files.specs.CapsuleReading.{Gives, next_capsule, capsules_of};
ghost use Rattle.plan_files.specs.Rooms.{capsule_room, room_of};
ghost use Rattle.plan_files.specs.declared.capsules.CapsuleError.TheVariants.{Memory, TooLong};

use crate::limits::What;
use mem_bdev::MAX_TRANSFER;
use sqe_cqe::{Direction, Sqe, data_len, direction, read_sqe};
use std::alloc::{AllocFailed, Global};
use thiserror::Error;

/// How many capsules one queue file has at most.
pub const MAX_CAPSULES: usize = 65_536;

/// How many bytes of room the responses to one queue file take at most: 64 MiB.
pub const MAX_OUTPUT: u64 = 67_108_864;

/// A capsule: its submission entry, and where its data stand in the file.
#[derive(Clone, Copy, Debug)]
pub struct Capsule {
    /// The submission queue entry.
    pub sqe: Sqe,
    /// The offset of the data in the file, in bytes: right after the entry's 64.
    pub data_at: usize,
    /// The number of bytes of data: the SGL length of an entry whose data go to the controller, 0
    /// of any other.
    pub data_len: usize,
}

/// The capsules of a file, and how many bytes the responses to them take at most.
#[derive(Drop)]
pub struct SizedCapsules {
    /// The capsules, in the file's order.
    pub capsules: Vec<Capsule>,
    /// Their `room`.
    pub room: u64,
}

/// Why a capsule file was not read.
#[derive(Clone, Copy, Debug, PartialEq, Eq, Error)]
pub enum CapsuleError {
    /// An entry or its data run past the end of the file. The offset is that of the capsule's first
    /// byte.
    #[error("the capsule at byte {offset} is cut off")]
    Cut { offset: u64 },
    /// A limit is passed; the count is the counted number where it first passes it.
    #[error("the limit on {what} is passed: {count}")]
    TooLong { what: What, count: u64 },
    /// No memory for the capsules.
    #[error("out of memory")]
    Memory,
}

impl<T: Drop> From<AllocFailed<T>> for CapsuleError {
    ghost from_gives = { λ _ e. e ≡ Memory };

    fn from(_e: AllocFailed<T>) -> CapsuleError {
        CapsuleError::Memory
    }
}

// The entry at a place, from which 64 bytes are left.
#[tactic(auto, unfolding(crate::specs::Capsules::head_of))]
fn entry_at(bytes: &[u8], at: usize) -> Sqe
    requires { at + 64 ≤ length bytes.now }
    ensures { result ≡ head_of (drop at bytes.now) }
{
    let mut entry = [0; 64];
    entry.copy_from_slice(&bytes[at..at + 64]);
    read_sqe(&entry)
}

// The room that a capsule with this entry needs.
#[tactic(auto, unfolding(crate::specs::Rooms::capsule_room))]
fn room_for(e: &Sqe) -> u64
    ensures value { result ≡ capsule_room e.now }
    ensures small { result ≤ 131168 }
{
    match direction(e) {
        Direction::ToHost if e.sgl_len as usize <= MAX_TRANSFER => 96 + e.sgl_len as u64,
        _ => 96,
    }
}

// The next capsule of a file, and the room that it and those before it need.
#[derive(Drop)]
struct NextCapsule {
    capsule: Capsule,
    room: u64,
}

// The capsule at an offset, after capsules that need so much room.
#[tactic(auto, unfolding(crate::specs::CapsuleReading::next_capsule))]
fn capsule_at(bytes: &[u8], at: usize, room: u64) -> Result<NextCapsule, CapsuleError>
    requires inside { at ≤ length bytes.now }
    requires small { room ≤ MAX_OUTPUT }
    ensures exact { Gives (λ n. capsule_in bytes.now n.capsule) result
        (next_capsule at room (drop at bytes.now)) }
    ensures whole { IfOk result (λ n. IsWholeIn bytes.now n.capsule) }
    ensures place { IfOk result (λ n. n.capsule.data_at ≡ at + 64) }
    ensures room { IfOk result (λ n. n.room ≡ room + capsule_room n.capsule.sqe) }
    ensures roomy { IfOk result (λ n. n.room ≤ MAX_OUTPUT) }
{
    let cut = CapsuleError::Cut { offset: at as u64 };
    let left = bytes.len() - at;
    if left < 64 {
        return Err(cut);
    }
    let sqe = entry_at(bytes, at);
    let data_len = data_len(&sqe);
    if data_len > MAX_TRANSFER {
        return Err(too_long(What::Data, data_len as u64));
    }
    if left < 64 + data_len {
        return Err(cut);
    }
    let room = room + room_for(&sqe);
    if room > MAX_OUTPUT {
        return Err(too_long(What::Output, room));
    }
    let capsule = Capsule {
        sqe,
        data_at: at + 64,
        data_len,
    };
    Ok(NextCapsule { capsule, room })
}

fn too_long(what: What, count: u64) -> CapsuleError
    ensures { result ≡ TooLong what count }
{
    CapsuleError::TooLong { what, count }
}

// The capsules of a file and their room, or its first fault.
fn all_capsules(alloc: Global, bytes: &[u8]) -> Result<SizedCapsules, CapsuleError>
    ensures exact { Gives (λ s. capsules_in bytes.now s.capsules.items) result
        (capsules_of bytes.now) }
    ensures whole { IfOk result (λ s. All (IsWholeIn bytes.now) s.capsules.items) }
    ensures places { IfOk result (λ s. StandBetween 0 (length bytes.now) s.capsules.items) }
    ensures room { IfOk result (λ s. s.room ≡ room_of (λ c. c.sqe) s.capsules.items) }
{
    let mut capsules = Vec::new(alloc);
    let mut at = 0;
    let mut room = 160;
    while at < bytes.len() {
        if capsules.len() >= MAX_CAPSULES {
            return Err(too_long(What::Capsules, MAX_CAPSULES as u64 + 1));
        }
        let next = capsule_at(bytes, at, room)?;
        room = next.room;
        at = next.capsule.data_at + next.capsule.data_len;
        capsules.push(next.capsule)?;
    }
    Ok(SizedCapsules { capsules, room })
}

// The capsules of a file without their room, or its first fault.
fn capsules_alone(alloc: Global, bytes: &[u8]) -> Result<Vec<Capsule>, CapsuleError>
    ensures exact { Gives (λ v. capsules_in bytes.now v.items) result (capsules_of bytes.now) }
    ensures whole { IfOk result (λ v. All (IsWholeIn bytes.now) v.items) }
    ensures places { IfOk result (λ v. StandBetween 0 (length bytes.now) v.items) }
{
    match all_capsules(alloc, bytes) {
        Ok(read) => Ok(read.capsules),
        Err(error) => Err(error),
    }
}

/// The capsules of a file, one after another with nothing between or after them: an entry of 64
/// bytes and, where its data go to the controller, as many bytes as its SGL length says.
///
/// The answer is exact: the capsules, or the first cut or passed limit of the file. The limits are
/// 65,536 capsules, 131,072 bytes of data in one, and 67,108,864 bytes of `room`.
pub fn read_capsules(alloc: Global, bytes: &[u8]) -> Result<Vec<Capsule>, CapsuleError>
    // What is read is spelled so, within the limits.
    ensures spelled { IfOk result (λ v. AreCapsules bytes.now (capsules_in bytes.now v.items)) }
    ensures within { IfOk result (λ v. AreWithin (capsules_in bytes.now v.items)) }
    // What is spelled so is read, unless memory runs out.
    ensures only { (cs : List file.Capsule) → AreWithin cs → AreCapsules bytes.now cs
        → Gives (λ v. capsules_in bytes.now v.items) result (Ok cs) }
    // Which fault it is.
    ensures exact { Gives (λ v. capsules_in bytes.now v.items) result (capsules_of bytes.now) }
    // The error is the file's first fault, and its first fault the error, unless memory runs out.
    ensures fault { IfErr result (λ e. e ≢ Memory → FirstFault bytes.now e) }
    ensures faults { (e : file_error.CapsuleError) → FirstFault bytes.now e
        → Gives (λ v. capsules_in bytes.now v.items) result (Err e) }
    // Where the data stand: right after the entry, and the next capsule right after them, up to the
    // end of the file.
    ensures whole { IfOk result (λ v. All (IsWholeIn bytes.now) v.items) }
    ensures places { IfOk result (λ v. StandBetween 0 (length bytes.now) v.items) }
{
    capsules_alone(alloc, bytes)
}

/// What `read_capsules` gives, and the room of these capsules, which the same pass counts.
pub fn read_sized_capsules(alloc: Global, bytes: &[u8]) -> Result<SizedCapsules, CapsuleError>
    // What is read is spelled so, within the limits.
    ensures spelled { IfOk result
        (λ s. AreCapsules bytes.now (capsules_in bytes.now s.capsules.items)) }
    ensures within { IfOk result (λ s. AreWithin (capsules_in bytes.now s.capsules.items)) }
    // What is spelled so is read, unless memory runs out.
    ensures only { (cs : List file.Capsule) → AreWithin cs → AreCapsules bytes.now cs
        → Gives (λ s. capsules_in bytes.now s.capsules.items) result (Ok cs) }
    // Which fault it is.
    ensures exact { Gives (λ s. capsules_in bytes.now s.capsules.items) result
        (capsules_of bytes.now) }
    // The error is the file's first fault, and its first fault the error, unless memory runs out.
    ensures fault { IfErr result (λ e. e ≢ Memory → FirstFault bytes.now e) }
    ensures faults { (e : file_error.CapsuleError) → FirstFault bytes.now e
        → Gives (λ s. capsules_in bytes.now s.capsules.items) result (Err e) }
    // Where the data stand, as in what `read_capsules` gives.
    ensures whole { IfOk result (λ s. All (IsWholeIn bytes.now) s.capsules.items) }
    ensures places { IfOk result (λ s. StandBetween 0 (length bytes.now) s.capsules.items) }
    // The room is that of these capsules.
    ensures room { IfOk result (λ s. s.room ≡ room_of (λ c. c.sqe) s.capsules.items) }
{
    all_capsules(alloc, bytes)
}

/// How many bytes the responses to these capsules take at most: 160 and, for each capsule, 96 and
/// its SGL length, where its data go to the host and are at most 131,072 bytes. It takes no memory.
pub fn room(capsules: &[Capsule]) -> u64
    requires { length capsules.now ≤ MAX_CAPSULES }
    ensures { result ≡ room_of (λ c. c.sqe) capsules.now }
{
    let mut total = 160;
    for capsule in capsules {
        total += room_for(&capsule.sqe);
    }
    total
}

/// How many records the responses to these capsules are at most: 3 for each capsule, and 6. It
/// takes no memory.
pub fn quota(capsules: &[Capsule]) -> u32
    requires { length capsules.now ≤ MAX_CAPSULES }
    ensures { result ≡ 3 * length capsules.now + 6 }
{
    3 * capsules.len() as u32 + 6
}
