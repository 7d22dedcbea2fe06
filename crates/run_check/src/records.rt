// The records of a finished run.
ghost use Rattle.std.specs.Prelude.{◌≡◌, ◌≤◌, All, IfErr, IfOk, length};
ghost use Rattle.run_inputs.specs.Known.{Known};
ghost use Rattle.run_inputs.specs.Planned.{IsPlanned};
ghost use Rattle.run_inputs.specs.Ready.{IsReady};
ghost use Rattle.run_inputs.specs.Views.{IsEarlier, seen};
ghost use Rattle.check_records.specs.Seats.{AreRead, files_of};
ghost use Rattle.run_check.specs.Finished.{unread};
ghost use Rattle.run_check.specs.ToldRun.{finished_of};
ghost use Rattle.run_check.specs.RecordFiles.{record_files};
ghost use Rattle.run_check.specs.RecordReading.{ReadOn, StoppedIn};

use crate::journal_file::read_journal_file;
use crate::response_files_read::read_response_files;
use check_records::Responses;
use plan_files::{Files, Plan};
use response_files::Journal;
use run_outcomes::Fault;
use run_transcript::CapsuleFile;
use std::alloc::Global;

/// The records of a finished run: the response files of queues 1, 2, .., and the journal, where the
/// plan has one.
#[derive(Drop)]
pub struct Records {
    pub responses: Vec<Responses>,
    pub journal: Option<Journal>,
}

/// The files that a run of this plan over these capsules leaves: the response file of each queue, of
/// at most as many bytes as the responses to its capsules can need, then the journal, of at most
/// 4 MiB.
///
/// Where one can't be read, the answer is the first malformed record, bad line or passed limit in
/// this order, with the number of its file; `ReadFault` where a read failed, and then that was the
/// last call on the files; or want of memory.
pub fn read_records<F: Files>(
    alloc: Global,
    plan: &Plan,
    capsules: &[CapsuleFile],
    files: &mut F,
) -> Result<Records, Fault>
    requires planned { IsPlanned plan.now }
    requires same { length capsules.now ≡ length plan.now.queues }
    requires ready { All IsReady capsules.now }
    ensures read { IfOk result (λ r. (s : Known) → ReadOn
        (seen (F.tells files.old) (F.told files.old) (F.faults files.old) (F.last files.old))
        (record_files plan.now (files_of capsules.now)) (unread s) (finished_of s r)) }
    ensures are_read { IfOk result (λ r. All AreRead r.responses.items) }
    ensures all { IfOk result (λ r. length r.responses.items ≡ length capsules.now) }
    ensures refused { IfErr result (λ f. (s : Known) → StoppedIn
        (seen (F.tells files.old) (F.told files.old) (F.faults files.old) (F.last files.old))
        (seen (F.tells files.new) (F.told files.new) (F.faults files.new) (F.last files.new))
        (record_files plan.now (files_of capsules.now)) (unread s) f) }
    // Names hold what they held, and the count of faults does not fall.
    ensures later { IsEarlier
        (seen (F.tells files.old) (F.told files.old) (F.faults files.old) (F.last files.old))
        (seen (F.tells files.new) (F.told files.new) (F.faults files.new) (F.last files.new)) }
{
    let responses = match read_response_files(alloc, plan.queues.as_slice(), capsules, files) {
        Ok(responses) => responses,
        Err(fault) => return Err(fault),
    };
    match read_journal_file(alloc, &plan.journal, files) {
        Ok(journal) => Ok(Records { responses, journal }),
        Err(fault) => Err(fault),
    }
}
