// The journal of a finished run.
ghost use Rattle.std.specs.Prelude.{◌≡◌, ◌≤◌, IfErr, IfOk, IfSome, IsUtf8, Ok, Err, None, Some, length};
ghost use Rattle.response_files.specs.JournalReading.{journal_in};
ghost use Rattle.run_inputs.specs.Stages.{Gives};
ghost use Rattle.run_inputs.specs.Views.{IsEarlier, seen};
ghost use Rattle.run_check.specs.Finished.{Finished};
ghost use Rattle.run_check.specs.RecordFiles.{journal_error, journal_files, or_journal_fault};
ghost use Rattle.run_check.specs.RecordReading.{ReadOn, StoppedIn};

use crate::contents::{MAX_JOURNAL_BYTES, read_content};
use mem_bdev::Name;
use plan_files::Files;
use response_files::{Journal, JournalError, read_journal};
use run_outcomes::{At, Fault, JOURNAL};
use std::alloc::Global;

fn bad_line(line: u32) -> Fault
    ensures { result ≡ Fault.Malformed JOURNAL (At.Line line) }
{
    Fault::Malformed {
        file: JOURNAL,
        at: At::Line(line),
    }
}

// What these bytes say.
fn parse_journal(alloc: Global, bytes: &[u8]) -> Result<Journal, Fault>
    requires { length bytes.now ≤ MAX_JOURNAL_BYTES }
    ensures exact { Gives (λ j. j) result (or_journal_fault (journal_in bytes.now)) }
{
    match read_journal(alloc, bytes) {
        Ok(journal) => Ok(journal),
        Err(JournalError::BadLine { line }) => Err(bad_line(line as u32)),
        Err(JournalError::Memory) => Err(Fault::Memory),
    }
}

// The journal of this name.
fn read_named_journal<F: Files>(alloc: Global, name: &Name, files: &mut F) -> Result<Journal, Fault>
    requires { IsUtf8 name.now }
    ensures read { IfOk result (λ j. (s : Finished) → ReadOn
        (seen (F.tells files.old) (F.told files.old) (F.faults files.old) (F.last files.old))
        (journal_files (Some name.now)) s (record s { journal = Some j })) }
    ensures refused { IfErr result (λ f. (s : Finished) → StoppedIn
        (seen (F.tells files.old) (F.told files.old) (F.faults files.old) (F.last files.old))
        (seen (F.tells files.new) (F.told files.new) (F.faults files.new) (F.last files.new))
        (journal_files (Some name.now)) s f) }
    ensures later { IsEarlier
        (seen (F.tells files.old) (F.told files.old) (F.faults files.old) (F.last files.old))
        (seen (F.tells files.new) (F.told files.new) (F.faults files.new) (F.last files.new)) }
{
    let name = name.as_text().unwrap();
    match read_content(alloc, name, MAX_JOURNAL_BYTES, JOURNAL, files) {
        Ok(bytes) => parse_journal(alloc, &bytes),
        Err(fault) => Err(fault),
    }
}

/// The journal of a run, a file of at most 4 MiB; none where the plan has none.
pub(crate) fn read_journal_file<F: Files>(
    alloc: Global,
    journal: &Option<Name>,
    files: &mut F,
) -> Result<Option<Journal>, Fault>
    requires { IfSome journal.now (λ name. IsUtf8 name) }
    ensures read { IfOk result (λ j. (s : Finished) → ReadOn
        (seen (F.tells files.old) (F.told files.old) (F.faults files.old) (F.last files.old))
        (journal_files journal.now) (record s { journal = None }) (record s { journal = j })) }
    ensures refused { IfErr result (λ f. (s : Finished) → StoppedIn
        (seen (F.tells files.old) (F.told files.old) (F.faults files.old) (F.last files.old))
        (seen (F.tells files.new) (F.told files.new) (F.faults files.new) (F.last files.new))
        (journal_files journal.now) s f) }
    ensures later { IsEarlier
        (seen (F.tells files.old) (F.told files.old) (F.faults files.old) (F.last files.old))
        (seen (F.tells files.new) (F.told files.new) (F.faults files.new) (F.last files.new)) }
{
    let Some(name) = journal else {
        return Ok(None);
    };
    match read_named_journal(alloc, name, files) {
        Ok(journal) => Ok(Some(journal)),
        Err(fault) => Err(fault),
    }
}
