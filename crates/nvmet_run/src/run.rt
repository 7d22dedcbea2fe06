// Runs of plans.
ghost use Rattle.std.specs.Prelude.{◌≡◌, ◌≢◌, ◌⊎◌, ℕ, List, IfOk, IfErr, OnOk, Ok, Err, map, string_bytes};
ghost use Rattle.run_outside.specs.Outside.{Rose};
ghost use Rattle.run_inputs.specs.Gives.{PlanBegins};
ghost use Rattle.run_inputs.specs.Known.{Known, begun};
ghost use Rattle.run_inputs.specs.Planned.{IsPlanned};
ghost use Rattle.run_inputs.specs.Reading.{FilesTell, ReadsSo};
ghost use Rattle.run_inputs.specs.Views.{IsEarlier, seen};
ghost use Rattle.run_outcomes.specs.declared.faults.Fault.{Fault};
ghost use Rattle.run_outcomes.specs.Names.{to_write};
ghost use Rattle.run_outcomes.specs.Outsides.{told_by, files_view, outside, Took};
ghost use Rattle.run_outcomes.specs.Written.{AllWritten};
ghost use Rattle.run_verdicts.specs.declared.verdict.Field.{Field};
ghost use Rattle.nvmet_run.specs.Codes.{status_of};
ghost use Rattle.nvmet_run.specs.Headline.{Ran};
ghost use Rattle.nvmet_run.specs.Made.{MakesPlan, RunEnds, Stops, WriteEnds};
ghost use Rattle.nvmet_run.specs.Refusals.{Refusal};

use crate::status::Status;
use crate::writing::write_files;
use plan_files::{Files, Gate, Plan, Sink};
use run_inputs::{file_name, read_plan_file, read_plan_inputs, told_files_settle};
use run_outcomes::{Fault, plans_have_apart_names, put_text, report_fault};
use run_prints::{Printed, serve_inputs};
use std::alloc::Global;
use std::sync::Wait;
use std::thread::Threads;

// Reads the files that a plan names, and serves them.
fn make_run<F: Files>(alloc: Global, plan: &Plan, files: &mut F) -> Result<Printed, Fault>
    requires { IsPlanned plan.now }
    ensures made { IfOk result (λ m. (name : List ℕ)
        → ReadsSo (told_by (F.tells files.old) (F.told files.old)) name PlanBegins
        (Ok (begun plan.now))
        → MakesPlan (told_by (F.tells files.old) (F.told files.old)) name plan.now
        (map (λ o. o.records.bytes) m.served.outputs.items) m.journal.bytes
        (string_bytes m.text)) }
    ensures refused { IfErr result (λ f. Stops
        (seen (F.tells files.old) (F.told files.old) (F.faults files.old) (F.last files.old))
        (seen (F.tells files.new) (F.told files.new) (F.faults files.new) (F.last files.new))
        plan.now f) }
    ensures later { IsEarlier
        (seen (F.tells files.old) (F.told files.old) (F.faults files.old) (F.last files.old))
        (seen (F.tells files.new) (F.told files.new) (F.faults files.new) (F.last files.new)) }
{
    match read_plan_inputs(alloc, plan, files) {
        Ok(mut inputs) => match serve_inputs(alloc, &mut inputs) {
            Ok(printed) => Ok(printed),
            Err(_) => Err(Fault::Memory),
        },
        Err(fault) => Err(fault),
    }
}

// Writes the files of a run, and puts its summary.
fn write_run<F: Files, K: Sink>(
    plan: &Plan,
    printed: &Printed,
    files: &mut F,
    out: &mut K,
) -> Result<(), Fault>
    requires { IsPlanned plan.now }
    ensures written { OnOk result (AllWritten (to_write plan.now
        (map (λ o. o.records.bytes) printed.now.served.outputs.items) printed.now.journal.bytes)
        (told_by (F.tells files.old) (F.told files.old))
        (told_by (F.tells files.new) (F.told files.new))) }
    ensures put { OnOk result (Took (K.taken out.old) (K.taken out.new)
        (string_bytes printed.now.text)) }
    ensures refused { IfErr result (λ f. WriteEnds (to_write plan.now
        (map (λ o. o.records.bytes) printed.now.served.outputs.items) printed.now.journal.bytes)
        (outside (told_by (F.tells files.old) (F.told files.old)) (F.faults files.old)
        (F.last files.old) (K.taken out.old) (K.faults out.old))
        (outside (told_by (F.tells files.new) (F.told files.new)) (F.faults files.new)
        (F.last files.new) (K.taken out.new) (K.faults out.new)) (string_bytes printed.now.text)
        f) }
{
    plans_have_apart_names();
    let lines = plan.queues.as_slice();
    let text = printed.journal.bytes();
    match write_files(
        1,
        lines,
        &printed.served.outputs,
        &plan.journal,
        text,
        files,
    ) {
        Ok(()) => put_text(printed.text.as_bytes(), out),
        Err(fault) => Err(fault),
    }
}

// Runs a plan that was read, up to the line of its fault.
fn run_read<F: Files, K: Sink>(
    alloc: Global,
    plan: &Plan,
    files: &mut F,
    out: &mut K,
) -> Result<(), Fault>
    requires { IsPlanned plan.now }
    ensures ran { OnOk result ((name : List ℕ)
        → ReadsSo (told_by (F.tells files.old) (F.told files.old)) name PlanBegins
        (Ok (begun plan.now))
        → Ran (told_by (F.tells files.old) (F.told files.old)) (told_by (F.tells files.new)
        (F.told files.new)) (K.taken out.old) (K.taken out.new) name) }
    ensures refused { IfErr result (λ f. (name : List ℕ)
        → ReadsSo (told_by (F.tells files.old) (F.told files.old)) name PlanBegins
        (Ok (begun plan.now)) → RunEnds
        (outside (told_by (F.tells files.old) (F.told files.old)) (F.faults files.old)
        (F.last files.old) (K.taken out.old) (K.faults out.old))
        (outside (told_by (F.tells files.new) (F.told files.new)) (F.faults files.new)
        (F.last files.new) (K.taken out.new) (K.faults out.new)) name plan.now f) }
{
    match make_run(alloc, plan, files) {
        Ok(printed) => match write_run(plan, &printed, files, out) {
            Ok(()) => Ok(()),
            Err(fault) => Err(fault),
        },
        Err(fault) => Err(fault),
    }
}

// The run of a plan, with the line of its fault.
fn run_whole<F: Files, K: Sink>(
    alloc: Global,
    plan: &str,
    files: &mut F,
    out: &mut K,
) -> Result<(), Fault>
    ensures ran { OnOk result (Ran (told_by (F.tells files.old) (F.told files.old))
        (told_by (F.tells files.new) (F.told files.new)) (K.taken out.old) (K.taken out.new)
        plan.now) }
    ensures refused { IfErr result (λ f. Refusal
        (outside (told_by (F.tells files.old) (F.told files.old)) (F.faults files.old)
        (F.last files.old) (K.taken out.old) (K.faults out.old))
        (outside (told_by (F.tells files.new) (F.told files.new)) (F.faults files.new)
        (F.last files.new) (K.taken out.new) (K.faults out.new)) plan.now f) }
{
    let read = match read_plan_file(alloc, plan, files) {
        Ok(read) => read,
        Err(fault) => {
            report_fault(plan.as_bytes(), &fault, out);
            return Err(fault);
        }
    };
    match run_read(alloc, &read, files, out) {
        Ok(()) => Ok(()),
        Err(fault) => {
            report_fault(file_name(plan.as_bytes(), &read, fault.file()), &fault, out);
            Err(fault)
        }
    }
}

/// Runs a plan: reads it and the files that it names, serves them, writes the response files and the
/// journal, and puts the summary.
///
/// - `Fine`: the run theorem holds.
/// - `Malformed`, `Limit`, `ConfigRefused`: the first bad place, passed limit or refused edit in the
///   order of reading: the plan, its configuration, its script, the files of its queues.
/// - `ReadFault`: the read of that file failed. It was the last call on the files, and their count of
///   faults rose.
/// - `WriteFault`: the same of the write of that file, and the files before it are written; or the
///   sink failed while it took the summary.
/// - `Memory`: memory ran out, before anything was written or at the write of a file.
///
/// With any status but `Fine` the sink takes the one line of that status, or a front of it where it
/// fails, which changes no status; but where it failed under the summary, it took a front of the
/// summary, and nothing more is put. Before all is read and served no file is touched, and none but
/// the response files and the journal ever is. The call may wait.
pub fn run_plan<R: Wait + Threads + Sync, F: Files, K: Sink, G: Gate + Sync>(
    _rt: &R,
    alloc: Global,
    plan: &str,
    files: &mut F,
    out: &mut K,
    _gate: &G,
) -> Status
    ensures fine { result ≡ Status.Fine → Ran (told_by (F.tells files.old) (F.told files.old))
        (told_by (F.tells files.new) (F.told files.new)) (K.taken out.old) (K.taken out.new)
        plan.now }
    // The words are no matter of this call, and no records are judged.
    ensures usage { result ≢ Status.Usage }
    ensures not_legal { (place : ℕ) → (field : Field) → result ≢ Status.NotLegal place field }
    // Why another status came, and what it left.
    ensures refused { (f : Fault) → result ≡ status_of f → Refusal
        (outside (told_by (F.tells files.old) (F.told files.old)) (F.faults files.old)
        (F.last files.old) (K.taken out.old) (K.faults out.old))
        (outside (told_by (F.tells files.new) (F.told files.new)) (F.faults files.new)
        (F.last files.new) (K.taken out.new) (K.faults out.new)) plan.now f }
    // Where told files have a first fault and no call on files fails, it's the answer, unless memory
    // runs out.
    ensures exact { (f : Fault) → FilesTell (told_by (F.tells files.old) (F.told files.old))
        plan.now (Err f) → ¬ Rose (F.faults files.old) (F.faults files.new)
        → (result ≡ status_of f) ⊎ (result ≡ Status.Memory) }
    // Where told files have none and no call fails, the run ends well, unless memory runs out.
    ensures complete { (s : Known) → FilesTell (told_by (F.tells files.old) (F.told files.old))
        plan.now (Ok s) → ¬ Rose (F.faults files.old) (F.faults files.new)
        → ¬ Rose (K.faults out.old) (K.faults out.new) → (result ≡ Status.Fine)
        ⊎ (result ≡ Status.Memory) }
{
    told_files_settle();
    match run_whole(alloc, plan, files, out) {
        Ok(()) => Status::Fine,
        Err(fault) => Status::of(fault),
    }
}
