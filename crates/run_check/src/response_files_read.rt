// The response files of a finished run.
ghost use Rattle.std.specs.Prelude.{◌≡◌, ◌≤◌, [], All, IfErr, IfOk, IsUtf8, Err, length};
ghost use Rattle.response_files.specs.ResponseReading.{responses_of as responses_given};
ghost use Rattle.plan_files.specs.declared.plan.TheConstants.{MAX_QUEUES};
ghost use Rattle.run_inputs.specs.Ready.{IsReady};
ghost use Rattle.run_inputs.specs.Stages.{Gives};
ghost use Rattle.run_inputs.specs.Views.{IsEarlier, seen};
ghost use Rattle.run_outcomes.specs.Outsides.{told_by};
ghost use Rattle.check_records.specs.Cursors.{capsules_of};
ghost use Rattle.check_records.specs.Seats.{AreRead, all_responses, files_of, responses_of};
ghost use Rattle.run_check.specs.Finished.{Finished};
ghost use Rattle.run_check.specs.RecordFiles.{or_record_fault, record_error, response_files};
ghost use Rattle.run_check.specs.RecordReading.{GivesResponses, ReadOn, Reading, ReadsResponses, StoppedIn};

use crate::contents::read_content;
use check_records::Responses;
use mem_bdev::Name;
use plan_files::{Files, QueueLine};
use response_files::{RecordError, read_responses};
use run_outcomes::{At, Fault, FileNo, responses_number};
use run_transcript::CapsuleFile;
use std::alloc::Global;

fn record_fault(file: FileNo, error: RecordError) -> Fault
    ensures { result ≡ record_error file error }
{
    match error {
        RecordError::Malformed { offset } => Fault::Malformed {
            file,
            at: At::Offset(offset),
        },
        RecordError::Memory => Fault::Memory,
    }
}

// The records in these bytes.
fn parse_responses(alloc: Global, file: FileNo, bytes: Vec<u8>) -> Result<Responses, Fault>
    ensures exact { Gives (λ r. responses_of r) result
        (or_record_fault file (responses_given bytes.items)) }
    ensures read { IfOk result (λ r. AreRead r) }
{
    match read_responses(alloc, &bytes) {
        Ok(records) => Ok(Responses { bytes, records }),
        Err(error) => Err(record_fault(file, error)),
    }
}

// Reads the response file with this number and name, of at most `room` bytes.
fn read_response_file<F: Files>(
    alloc: Global,
    file: FileNo,
    name: &Name,
    room: u64,
    files: &mut F,
) -> Result<Responses, Fault>
    requires name { IsUtf8 name.now }
    ensures read { IfOk result (λ r. ReadsResponses
        (told_by (F.tells files.old) (F.told files.old)) file name.now room (responses_of r)) }
    ensures ready { IfOk result (λ r. AreRead r) }
    ensures refused { IfErr result (λ f. (s : Finished) → Reading
        (seen (F.tells files.old) (F.told files.old) (F.faults files.old) (F.last files.old))
        (seen (F.tells files.new) (F.told files.new) (F.faults files.new) (F.last files.new))
        file name.now (GivesResponses file room s) (Err f)) }
    ensures later { IsEarlier
        (seen (F.tells files.old) (F.told files.old) (F.faults files.old) (F.last files.old))
        (seen (F.tells files.new) (F.told files.new) (F.faults files.new) (F.last files.new)) }
{
    let name = name.as_text().unwrap();
    match read_content(alloc, name, room as usize, file, files) {
        Ok(bytes) => parse_responses(alloc, file, bytes),
        Err(fault) => Err(fault),
    }
}

/// The response files of these queues, in their order, each of at most as many bytes as the
/// responses to the queue's capsules can need.
pub(crate) fn read_response_files<F: Files>(
    alloc: Global,
    lines: &[QueueLine],
    capsules: &[CapsuleFile],
    files: &mut F,
) -> Result<Vec<Responses>, Fault>
    requires names { All (λ q. IsUtf8 q.capsules × IsUtf8 q.responses) lines.now }
    requires few { length lines.now ≤ MAX_QUEUES }
    requires same { length capsules.now ≡ length lines.now }
    requires ready { All IsReady capsules.now }
    ensures read { IfOk result (λ v. (s : Finished) → ReadOn
        (seen (F.tells files.old) (F.told files.old) (F.faults files.old) (F.last files.old))
        (response_files 1 lines.now (files_of capsules.now)) (record s { responses = [] })
        (record s { responses = all_responses v.items })) }
    ensures are_read { IfOk result (λ v. All AreRead v.items) }
    ensures all { IfOk result (λ v. length v.items ≡ length lines.now) }
    ensures refused { IfErr result (λ f. (s : Finished) → StoppedIn
        (seen (F.tells files.old) (F.told files.old) (F.faults files.old) (F.last files.old))
        (seen (F.tells files.new) (F.told files.new) (F.faults files.new) (F.last files.new))
        (response_files 1 lines.now (files_of capsules.now)) (record s { responses = [] }) f) }
    ensures later { IsEarlier
        (seen (F.tells files.old) (F.told files.old) (F.faults files.old) (F.last files.old))
        (seen (F.tells files.new) (F.told files.new) (F.faults files.new) (F.last files.new)) }
{
    let mut read = Vec::new(alloc);
    for (i, line) in lines.iter().enumerate() {
        let number = responses_number(i as u32 + 1);
        let next = read_response_file(alloc, number, &line.responses, capsules[i].room, files)?;
        read.push(next)?;
    }
    Ok(read)
}
