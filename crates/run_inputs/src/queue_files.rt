// The capsule files of a run.
ghost use Rattle.std.specs.Prelude.{◌≡◌, ◌≤◌, ◌+◌, ◌^◌, ℕ, [], All, IfErr, IfOk, IsUtf8, Ok, Err, length, map};
ghost use Rattle.plan_files.specs.Capsules.{IsWholeIn, capsules_in};
ghost use Rattle.plan_files.specs.CapsuleReading.{capsules_of};
ghost use Rattle.plan_files.specs.Rooms.{room_of};
ghost use Rattle.run_outcomes.specs.Outsides.{told_by};
ghost use Rattle.run_inputs.specs.Contents.{total_of};
ghost use Rattle.run_inputs.specs.Gives.{CapsulesGive};
ghost use Rattle.run_inputs.specs.InputFiles.{capsule_files};
ghost use Rattle.run_inputs.specs.Known.{Known};
ghost use Rattle.run_inputs.specs.QueueFile.{capsule_error, counted, counted_in, or_fault, queue_of_file};
ghost use Rattle.run_inputs.specs.Ready.{IsReady, capsules_of_file};
ghost use Rattle.run_inputs.specs.Reading.{Reading};
ghost use Rattle.run_inputs.specs.Stages.{Gives, QueuesRead, ReadsQueue, StoppedIn, with_files};
ghost use Rattle.run_inputs.specs.Views.{IsEarlier, seen};

use crate::contents::{MAX_QUEUE_BYTES, read_content};
use mem_bdev::Name;
use plan_files::{
    CapsuleError, Files, MAX_CAPSULES, MAX_OUTPUT, MAX_QUEUES, QueueLine, SizedCapsules, What,
    read_sized_capsules,
};
use run_outcomes::{At, Fault, FileNo, capsules_number};
use run_transcript::CapsuleFile;
use std::alloc::Global;

/// How many bytes all capsule files of a run have at most: 512 MiB.
pub const MAX_ALL_INPUT: u64 = 536_870_912;

/// How many bytes of room the responses to all of them take at most: 512 MiB.
pub const MAX_ALL_OUTPUT: u64 = 536_870_912;

// A capsule file, with the bytes of all capsule files up to it and the room of all responses.
#[derive(Drop)]
struct CountedFile {
    file: CapsuleFile,
    input: u64,
    output: u64,
}

// A number that is counted at this file, where it is at most so much.
#[tactic(auto, unfolding(crate::specs::Contents::total_of))]
fn count_within(limit: u64, file: FileNo, what: What, count: u64) -> Result<u64, Fault>
    ensures exact { Gives (λ n. n) result (total_of limit file what count) }
    ensures within { IfOk result (λ n. (n ≡ count) × (n ≤ limit)) }
{
    if count > limit {
        return Err(Fault::Limit { file, what, count });
    }
    Ok(count)
}

fn capsules_fault(file: FileNo, error: CapsuleError) -> Fault
    ensures { result ≡ capsule_error file error }
{
    match error {
        CapsuleError::Cut { offset } => Fault::Malformed {
            file,
            at: At::Offset(offset),
        },
        CapsuleError::TooLong { what, count } => Fault::Limit { file, what, count },
        CapsuleError::Memory => Fault::Memory,
    }
}

// The capsules in these bytes, with their room.
fn parse_capsules(alloc: Global, file: FileNo, bytes: &[u8]) -> Result<SizedCapsules, Fault>
    ensures exact { Gives (λ s. capsules_in bytes.now s.capsules.items) result
        (or_fault file (capsules_of bytes.now)) }
    ensures whole { IfOk result (λ s. All (IsWholeIn bytes.now) s.capsules.items) }
    ensures few { IfOk result (λ s. length s.capsules.items ≤ MAX_CAPSULES) }
    ensures room { IfOk result (λ s. s.room ≡ room_of (λ c. c.sqe) s.capsules.items) }
    ensures small { IfOk result (λ s. s.room ≤ MAX_OUTPUT) }
{
    match read_sized_capsules(alloc, bytes) {
        Ok(read) => Ok(read),
        Err(error) => Err(capsules_fault(file, error)),
    }
}

// The capsules of a file, after files with so many bytes and so much room.
fn count_capsules(
    alloc: Global,
    file: FileNo,
    before: u64,
    room: u64,
    bytes: Vec<u8>,
) -> Result<CountedFile, Fault>
    requires short { length bytes.items ≤ MAX_QUEUE_BYTES }
    requires input { before ≤ MAX_ALL_INPUT }
    requires output { room ≤ MAX_ALL_OUTPUT }
    ensures exact { Gives (λ c. counted (capsules_of_file c.file) c.input c.output) result
        (counted_in file before room bytes.items) }
    ensures same { IfOk result (λ c. c.file.bytes.items ≡ bytes.items) }
    ensures ready { IfOk result (λ c. IsReady c.file) }
    ensures input { IfOk result (λ c. c.input ≤ MAX_ALL_INPUT) }
    ensures output { IfOk result (λ c. c.output ≤ MAX_ALL_OUTPUT) }
{
    let input = match count_within(
        MAX_ALL_INPUT,
        file,
        What::AllInput,
        before + bytes.len() as u64,
    ) {
        Ok(input) => input,
        Err(fault) => return Err(fault),
    };
    let read = match parse_capsules(alloc, file, &bytes) {
        Ok(read) => read,
        Err(fault) => return Err(fault),
    };
    let output = match count_within(MAX_ALL_OUTPUT, file, What::AllOutput, room + read.room) {
        Ok(output) => output,
        Err(fault) => return Err(fault),
    };
    let file = CapsuleFile {
        bytes,
        capsules: read.capsules,
        room: read.room,
    };
    Ok(CountedFile {
        file,
        input,
        output,
    })
}

// Reads the capsule file with this number and name, after files with so many bytes and so much
// room.
fn read_queue_file<F: Files>(
    alloc: Global,
    file: FileNo,
    name: &Name,
    before: u64,
    room: u64,
    files: &mut F,
) -> Result<CountedFile, Fault>
    requires name { IsUtf8 name.now }
    requires input { before ≤ MAX_ALL_INPUT }
    requires output { room ≤ MAX_ALL_OUTPUT }
    ensures read { IfOk result (λ c. ReadsQueue (told_by (F.tells files.old) (F.told files.old))
        file name.now before room (counted (capsules_of_file c.file) c.input c.output)) }
    ensures ready { IfOk result (λ c. IsReady c.file) }
    ensures input { IfOk result (λ c. c.input ≤ MAX_ALL_INPUT) }
    ensures output { IfOk result (λ c. c.output ≤ MAX_ALL_OUTPUT) }
    ensures refused { IfErr result (λ f. (s : Known) → s.input ≡ before → s.output ≡ room → Reading
        (seen (F.tells files.old) (F.told files.old) (F.faults files.old) (F.last files.old))
        (seen (F.tells files.new) (F.told files.new) (F.faults files.new) (F.last files.new))
        file name.now (CapsulesGive file s) (Err f)) }
    ensures later { IsEarlier
        (seen (F.tells files.old) (F.told files.old) (F.faults files.old) (F.last files.old))
        (seen (F.tells files.new) (F.told files.new) (F.faults files.new) (F.last files.new)) }
{
    let name = name.as_text().unwrap();
    match read_content(alloc, name, MAX_QUEUE_BYTES, file, files) {
        Ok(bytes) => count_capsules(alloc, file, before, room, bytes),
        Err(fault) => Err(fault),
    }
}

/// The capsule files of these queues, in their order.
pub fn read_queue_files<F: Files>(
    alloc: Global,
    lines: &[QueueLine],
    files: &mut F,
) -> Result<Vec<CapsuleFile>, Fault>
    requires names { All (λ q. IsUtf8 q.capsules × IsUtf8 q.responses) lines.now }
    requires few { length lines.now ≤ MAX_QUEUES }
    ensures read { IfOk result (λ v. QueuesRead
        (seen (F.tells files.old) (F.told files.old) (F.faults files.old) (F.last files.old))
        lines.now (map capsules_of_file v.items)) }
    ensures ready { IfOk result (λ v. All IsReady v.items) }
    ensures all { IfOk result (λ v. length v.items ≡ length lines.now) }
    ensures refused { IfErr result (λ f. (s : Known) → StoppedIn
        (seen (F.tells files.old) (F.told files.old) (F.faults files.old) (F.last files.old))
        (seen (F.tells files.new) (F.told files.new) (F.faults files.new) (F.last files.new))
        (capsule_files 1 lines.now) (with_files s [] 0 0) f) }
    ensures later { IsEarlier
        (seen (F.tells files.old) (F.told files.old) (F.faults files.old) (F.last files.old))
        (seen (F.tells files.new) (F.told files.new) (F.faults files.new) (F.last files.new)) }
{
    let mut read = Vec::new(alloc);
    let mut input = 0;
    let mut output = 0;
    for (i, line) in lines.iter().enumerate() {
        let number = capsules_number(i as u32 + 1);
        let next = read_queue_file(alloc, number, &line.capsules, input, output, files)?;
        input = next.input;
        output = next.output;
        read.push(next.file)?;
    }
    Ok(read)
}

#[cfg(test)]
mod tests {
    use super::*;
    use std::test::Fail;

    // What a file of so many zeros gives after so many bytes and so much room: a passed limit with
    // its count, or the offset of a cut capsule, or the bytes and the room of all.
    fn counts(
        alloc: Global,
        before: u64,
        room: u64,
        len: usize,
    ) -> Result<(&'static str, u64), Fail>
        requires { before ≤ MAX_ALL_INPUT × room ≤ MAX_ALL_OUTPUT × len ≤ MAX_QUEUE_BYTES }
    {
        let bytes = vec![in alloc; 0; len]?;
        match count_capsules(alloc, capsules_number(2), before, room, bytes) {
            Ok(counted) => Ok(("read", counted.input + counted.output)),
            Err(Fault::Limit { what, count, .. }) => Ok((what.word(), count)),
            Err(
                Fault::Malformed {
                    at: At::Offset(offset),
                    ..
                },
            ) => Ok(("offset", offset)),
            Err(_) => Ok(("other", 0)),
        }
    }

    #[test]
    fn limits_on_all_files(rt: HostRuntime) -> Result<(), Fail> {
        let alloc = rt.alloc();
        // The bytes of all come before the file's first cut, its cut before the room of all.
        assert!(rt; counts(alloc, MAX_ALL_INPUT, 0, 63)? == ("all-input", 536_870_975));
        assert!(rt; counts(alloc, MAX_ALL_INPUT - 63, 536_870_912, 63)? == ("offset", 0));
        assert!(rt; counts(alloc, 0, MAX_ALL_OUTPUT - 255, 64)? == ("all-output", 536_870_913));
        assert!(rt; counts(alloc, 7, 1_000, 64)? == ("read", 1_327));
        Ok(())
    }
}
