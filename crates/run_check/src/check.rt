// Checks of finished runs.
ghost use Rattle.std.specs.Prelude.{◌≡◌, ◌≤◌, ℕ, List, All, IsTrue, IfOk, IfErr, OnOk, Ok, Err, length};
ghost use Rattle.run_outside.specs.Outside.{Rose};
ghost use Rattle.plan_files.specs.declared.plan.TheConstants.{MAX_QUEUES};
ghost use Rattle.tree_target.specs.Kept.{IsIdle};
ghost use Rattle.run_inputs.specs.Gives.{PlanBegins};
ghost use Rattle.run_inputs.specs.Known.{Known, begun};
ghost use Rattle.run_inputs.specs.Planned.{IsPlanned};
ghost use Rattle.run_inputs.specs.Reading.{ReadsSo};
ghost use Rattle.run_inputs.specs.Ready.{HoldsRest, IsReady};
ghost use Rattle.run_inputs.specs.Views.{IsEarlier, seen};
ghost use Rattle.link_rules.specs.Table.{is_fitting};
ghost use Rattle.check_records.specs.Seats.{AreRead};
ghost use Rattle.run_outcomes.specs.declared.faults.Fault.{Fault};
ghost use Rattle.run_outcomes.specs.Outsides.{Outside, told_by, sink_view, outside};
ghost use Rattle.run_verdicts.specs.Faults.{IsFault, IsRight};
ghost use Rattle.run_verdicts.specs.Laws.{RightIsTranscript};
ghost use Rattle.run_verdicts.specs.declared.verdict.Field.{Field};
ghost use Rattle.run_check.specs.Checked.{HasFirstFault, IsLegalFile};
ghost use Rattle.run_check.specs.Finished.{Finished, number_of};
ghost use Rattle.run_check.specs.ToldRun.{finished_of, run_of};
ghost use Rattle.run_check.specs.RecordReading.{BothTell};
ghost use Rattle.run_check.specs.Ends.{Answers, Ends, PutsVerdict};
ghost use Rattle.run_check.specs.Refusals.{Refusal, Stops};
ghost use Rattle.run_check.specs.Verdicts.{IsJudged, WasJudged};

use crate::judging::judge_finished;
use crate::records::{Records, read_records};
use crate::report::{put_legal, put_not_legal};
use plan_files::{Files, Plan, Sink};
use run_inputs::{PlanInputs, file_name, read_plan_file, read_plan_inputs, told_files_settle};
use run_outcomes::{Fault, SINK, report_fault};
use run_verdicts::{
    Field, Verdict, right_runs_are_transcripts, right_runs_have_no_fault, runs_have_one_fault,
};
use std::alloc::{AllocError, Global};

/// Why a finished run was not found legal.
#[derive(Debug, Drop)]
pub enum CheckFault {
    /// It was not judged, or the line of a legal one was not taken.
    Stopped(Fault),
    /// It has a first fault, at this place and in this field.
    NotLegal { place: u32, field: Field },
}

// Judges what was read.
fn judge_inputs(
    alloc: Global,
    inputs: &mut PlanInputs,
    records: &Records,
) -> Result<Verdict, AllocError>
    requires fitting { All (λ s. IsTrue (is_fitting s.edit)) inputs.old.script.items }
    requires ready { All IsReady inputs.old.files.items }
    requires queues { length inputs.old.target.bindings ≡ length inputs.old.files.items }
    requires few { length inputs.old.files.items ≤ MAX_QUEUES }
    requires idle { (queue : ℕ) → IsIdle inputs.old.target queue }
    requires read { All AreRead records.now.responses.items }
    requires same { length records.now.responses.items ≡ length inputs.old.files.items }
    ensures { IfOk result (λ v. (s : Known) → HoldsRest inputs.old s
        → IsJudged (finished_of s records.now) v) }
{
    judge_finished(
        alloc,
        &mut inputs.target,
        &inputs.script,
        &inputs.files,
        records,
    )
}

// Reads the files that a plan names, and the records of its run, and judges it.
fn judge_plan<F: Files>(alloc: Global, plan: &Plan, files: &mut F) -> Result<Verdict, Fault>
    requires { IsPlanned plan.now }
    ensures judged { IfOk result (λ v. (name : List ℕ)
        → ReadsSo (told_by (F.tells files.old) (F.told files.old)) name PlanBegins
        (Ok (begun plan.now))
        → WasJudged (told_by (F.tells files.old) (F.told files.old)) name v) }
    ensures refused { IfErr result (λ f. Stops
        (seen (F.tells files.old) (F.told files.old) (F.faults files.old) (F.last files.old))
        (seen (F.tells files.new) (F.told files.new) (F.faults files.new) (F.last files.new))
        plan.now f) }
    ensures later { IsEarlier
        (seen (F.tells files.old) (F.told files.old) (F.faults files.old) (F.last files.old))
        (seen (F.tells files.new) (F.told files.new) (F.faults files.new) (F.last files.new)) }
{
    let mut inputs = match read_plan_inputs(alloc, plan, files) {
        Ok(inputs) => inputs,
        Err(fault) => return Err(fault),
    };
    let records = match read_records(alloc, plan, &inputs.files, files) {
        Ok(records) => records,
        Err(fault) => return Err(fault),
    };
    match judge_inputs(alloc, &mut inputs, &records) {
        Ok(verdict) => Ok(verdict),
        Err(_) => Err(Fault::Memory),
    }
}

// Puts the line of a verdict.
fn put_verdict<K: Sink>(verdict: Verdict, out: &mut K) -> Result<(), CheckFault>
    ensures { PutsVerdict verdict
        (sink_view (K.taken out.old) (K.faults out.old))
        (sink_view (K.taken out.new) (K.faults out.new)) result }
{
    match verdict {
        Verdict::Legal { places } => match put_legal(places, out) {
            Ok(()) => Ok(()),
            Err(_) => Err(CheckFault::Stopped(Fault::WriteFault { file: SINK })),
        },
        Verdict::NotLegal { place, field } => {
            let _ = put_not_legal(place, field, out);
            Err(CheckFault::NotLegal { place, field })
        }
    }
}

// The check of a plan that was read.
fn check_read<F: Files, K: Sink>(
    alloc: Global,
    name: &str,
    plan: &Plan,
    files: &mut F,
    out: &mut K,
) -> Result<(), CheckFault>
    requires { IsPlanned plan.now }
    // As each earlier view of the outside tells it.
    ensures { (before : Outside) → RightIsTranscript → IsEarlier before.files
        (seen (F.tells files.old) (F.told files.old) (F.faults files.old) (F.last files.old))
        → before.sink ≡ sink_view (K.taken out.old) (K.faults out.old)
        → ReadsSo before.files.told name.now PlanBegins (Ok (begun plan.now)) → Ends before
        (outside (told_by (F.tells files.new) (F.told files.new)) (F.faults files.new)
        (F.last files.new) (K.taken out.new) (K.faults out.new)) name.now result }
{
    match judge_plan(alloc, plan, files) {
        Ok(verdict) => put_verdict(verdict, out),
        Err(fault) => {
            report_fault(file_name(name.as_bytes(), plan, fault.file()), &fault, out);
            Err(CheckFault::Stopped(fault))
        }
    }
}

// The check of a plan, with its line.
fn check_whole<F: Files, K: Sink>(
    alloc: Global,
    plan: &str,
    files: &mut F,
    out: &mut K,
) -> Result<(), CheckFault>
    ensures { Ends
        (outside (told_by (F.tells files.old) (F.told files.old)) (F.faults files.old)
        (F.last files.old) (K.taken out.old) (K.faults out.old))
        (outside (told_by (F.tells files.new) (F.told files.new)) (F.faults files.new)
        (F.last files.new) (K.taken out.new) (K.faults out.new)) plan.now result }
{
    right_runs_are_transcripts();
    let read = match read_plan_file(alloc, plan, files) {
        Ok(read) => read,
        Err(fault) => {
            report_fault(plan.as_bytes(), &fault, out);
            return Err(CheckFault::Stopped(fault));
        }
    };
    check_read(alloc, plan, &read, files, out)
}

/// Checks a finished run: reads all that the run of this plan read, then the response file of each
/// queue and the journal, and judges the run that they tell against the sequential target.
///
/// - `Ok`: the run is legal, which is to say ordered, served and legal; the sink took `legal N` with
///   its number of places, by its journal; in a simple plan, which has none, the number of records.
/// - `NotLegal`: its first fault. First comes the lowest place that is missing below N, is doubled or
///   isn't below N (`place`); then the first place whose record differs, in its first field; at last,
///   at the place N, a caller whose records end too early (`order`).
/// - `Stopped`: `Malformed`, `Limit` or `ConfigRefused` at the first bad place, passed limit or refused
///   edit in the order of reading, that of a run and then the records; `ReadFault` where the read of
///   that file failed, and then it was the last call on the files and their count of faults rose;
///   `WriteFault` of the sink where it failed while it took `legal N`; `Memory` where memory ran out.
///
/// A response file has at most as many bytes as the responses to its queue's capsules can need, the
/// journal at most 4 MiB. No file is written. With any answer but `Ok` the sink takes the one line of
/// that answer, or a front of it where it fails, which changes no answer; but where it failed under
/// `legal N`, it took a front of that, and nothing more is put.
pub fn check_plan<F: Files, K: Sink>(
    alloc: Global,
    plan: &str,
    files: &mut F,
    out: &mut K,
) -> Result<(), CheckFault>
    // What a legal run is, and what was put.
    ensures legal { OnOk result (IsLegalFile (told_by (F.tells files.old) (F.told files.old))
        (told_by (F.tells files.new) (F.told files.new)) (K.taken out.old) (K.taken out.new)
        plan.now) }
    // The fault that is named is the run's first.
    ensures not_legal { (place : ℕ) (field : Field) → result ≡ Err (CheckFault.NotLegal place field)
        → HasFirstFault
        (outside (told_by (F.tells files.old) (F.told files.old)) (F.faults files.old)
        (F.last files.old) (K.taken out.old) (K.faults out.old))
        (outside (told_by (F.tells files.new) (F.told files.new)) (F.faults files.new)
        (F.last files.new) (K.taken out.new) (K.faults out.new)) plan.now place field }
    // Why the run was not judged, and what that left.
    ensures refused { (f : Fault) → result ≡ Err (CheckFault.Stopped f) → Refusal
        (outside (told_by (F.tells files.old) (F.told files.old)) (F.faults files.old)
        (F.last files.old) (K.taken out.old) (K.faults out.old))
        (outside (told_by (F.tells files.new) (F.told files.new)) (F.faults files.new)
        (F.last files.new) (K.taken out.new) (K.faults out.new)) plan.now f }
    // Where told files have a first fault and no call on files fails, it's the answer, unless memory
    // runs out.
    ensures exact { (f : Fault) → BothTell (told_by (F.tells files.old) (F.told files.old))
        plan.now (Err f) → ¬ Rose (F.faults files.old) (F.faults files.new)
        → Answers (CheckFault.Stopped f) result }
    // Where told files have none, the run that they tell has a first fault and no call on files
    // fails, that is the answer, unless memory runs out.
    ensures named { (s : Finished) (place : ℕ) (field : Field)
        → BothTell (told_by (F.tells files.old) (F.told files.old)) plan.now (Ok s)
        → IsFault (number_of s) (run_of s) place field
        → ¬ Rose (F.faults files.old) (F.faults files.new)
        → Answers (CheckFault.NotLegal place field) result }
    // Where told files have none, the run that they tell is right and no call fails, it is found
    // legal, unless memory runs out.
    ensures complete { (s : Finished)
        → BothTell (told_by (F.tells files.old) (F.told files.old)) plan.now (Ok s)
        → IsRight (number_of s) (run_of s)
        → ¬ Rose (F.faults files.old) (F.faults files.new)
        → ¬ Rose (K.faults out.old) (K.faults out.new)
        → IfErr result (λ e. e ≡ CheckFault.Stopped Fault.Memory) }
{
    told_files_settle();
    right_runs_have_no_fault();
    runs_have_one_fault();
    check_whole(alloc, plan, files, out)
}
