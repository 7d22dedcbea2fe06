// The start of a plan, shown.
ghost use Rattle.std.specs.Prelude.{◌≡◌, ◌≤◌, ◌⊎◌, ◌++◌, ◌∷◌, [], ℕ, List, IfErr, IfOk, OnOk, Ok, Err};
ghost use Rattle.nvmetcli_json.specs.Saving.{saved};
ghost use Rattle.run_inputs.specs.Gives.{PlanBegins};
ghost use Rattle.run_inputs.specs.InputFiles.{configuration_files};
ghost use Rattle.run_inputs.specs.Known.{begun};
ghost use Rattle.run_inputs.specs.Planned.{IsPlanned};
ghost use Rattle.run_inputs.specs.Reading.{ReadsSo};
ghost use Rattle.run_inputs.specs.Stages.{StoppedIn};
ghost use Rattle.run_inputs.specs.Views.{IsEarlier, seen};
ghost use Rattle.run_outcomes.specs.Outsides.{outside, told_by};
ghost use Rattle.run_show.specs.Refusals.{ShowRefusal};
ghost use Rattle.run_show.specs.Shown.{IsShowComplete, IsShowExact, Shown};
ghost use Rattle.run_show.specs.Stages.{ShowEnds, ShowsText};

use configfs_tree::Tree;
use nvmetcli_json::save;
use plan_files::{Files, Plan, Sink};
use run_inputs::{file_name, read_plan_file, read_start};
use run_outcomes::{Fault, put_text, report_fault};
use std::alloc::{AllocError, Global};

// The saved text of a tree, and a line end.
fn tree_line(alloc: Global, tree: &Tree) -> Result<Vec<u8>, AllocError>
    ensures { IfOk result (λ v. v.items ≡ saved tree.now ++ 10 ∷ []) }
{
    let mut text = save(alloc, tree)?;
    text.push(b'\n')?;
    Ok(text)
}

// Reads the configuration of a plan that was read, and makes the text that is shown.
fn make_text<F: Files>(alloc: Global, plan: &Plan, files: &mut F) -> Result<Vec<u8>, Fault>
    requires { IsPlanned plan.now }
    ensures made { IfOk result (λ v. (name : List ℕ)
        → ReadsSo (told_by (F.tells files.old) (F.told files.old)) name PlanBegins
        (Ok (begun plan.now))
        → ShowsText (told_by (F.tells files.old) (F.told files.old)) name v.items) }
    ensures refused { IfErr result (λ f. StoppedIn
        (seen (F.tells files.old) (F.told files.old) (F.faults files.old) (F.last files.old))
        (seen (F.tells files.new) (F.told files.new) (F.faults files.new) (F.last files.new))
        (configuration_files plan.now.config) (begun plan.now) f) }
    ensures later { IsEarlier
        (seen (F.tells files.old) (F.told files.old) (F.faults files.old) (F.last files.old))
        (seen (F.tells files.new) (F.told files.new) (F.faults files.new) (F.last files.new)) }
{
    match read_start(alloc, plan, files) {
        Ok(start) => match tree_line(alloc, start.target.tree()) {
            Ok(text) => Ok(text),
            Err(_) => Err(Fault::Memory),
        },
        Err(fault) => Err(fault),
    }
}

// Shows a plan that was read, up to the line of its fault.
fn show_read<F: Files, K: Sink>(
    alloc: Global,
    plan: &Plan,
    files: &mut F,
    out: &mut K,
) -> Result<(), Fault>
    requires { IsPlanned plan.now }
    ensures shown { OnOk result ((name : List ℕ)
        → ReadsSo (told_by (F.tells files.old) (F.told files.old)) name PlanBegins
        (Ok (begun plan.now))
        → Shown (told_by (F.tells files.old) (F.told files.old)) (told_by (F.tells files.new)
        (F.told files.new)) (K.taken out.old) (K.taken out.new) name) }
    ensures refused { IfErr result (λ f. (name : List ℕ)
        → ReadsSo (told_by (F.tells files.old) (F.told files.old)) name PlanBegins
        (Ok (begun plan.now)) → ShowEnds
        (outside (told_by (F.tells files.old) (F.told files.old)) (F.faults files.old)
        (F.last files.old) (K.taken out.old) (K.faults out.old))
        (outside (told_by (F.tells files.new) (F.told files.new)) (F.faults files.new)
        (F.last files.new) (K.taken out.new) (K.faults out.new)) name plan.now f) }
    ensures later { IsEarlier
        (seen (F.tells files.old) (F.told files.old) (F.faults files.old) (F.last files.old))
        (seen (F.tells files.new) (F.told files.new) (F.faults files.new) (F.last files.new)) }
{
    match make_text(alloc, plan, files) {
        Ok(text) => match put_text(&text, out) {
            Ok(()) => Ok(()),
            Err(fault) => Err(fault),
        },
        Err(fault) => Err(fault),
    }
}

// The showing of a plan, with the line of its fault.
fn show_whole<F: Files, K: Sink>(
    alloc: Global,
    plan: &str,
    files: &mut F,
    out: &mut K,
) -> Result<(), Fault>
    ensures shown { OnOk result (Shown (told_by (F.tells files.old) (F.told files.old))
        (told_by (F.tells files.new) (F.told files.new)) (K.taken out.old) (K.taken out.new)
        plan.now) }
    ensures refused { IfErr result (λ f. ShowRefusal
        (outside (told_by (F.tells files.old) (F.told files.old)) (F.faults files.old)
        (F.last files.old) (K.taken out.old) (K.faults out.old))
        (outside (told_by (F.tells files.new) (F.told files.new)) (F.faults files.new)
        (F.last files.new) (K.taken out.new) (K.faults out.new)) plan.now f) }
{
    let read = match read_plan_file(alloc, plan, files) {
        Ok(read) => read,
        Err(fault) => {
            report_fault(plan.as_bytes(), &fault, out);
            return Err(fault);
        }
    };
    match show_read(alloc, &read, files, out) {
        Ok(()) => Ok(()),
        Err(fault) => {
            report_fault(file_name(plan.as_bytes(), &read, fault.file()), &fault, out);
            Err(fault)
        }
    }
}

/// Shows the configuration that a run of the plan of this name starts with: reads the plan, a file
/// of at most 64 KiB, and its configuration, a file of at most 4 MiB whose edits are loaded over the
/// plan's disks, and puts the compact JSON that nvmetcli saves of it, and a line end. A simple plan
/// names no configuration; its own start is shown. No file is written, and no other one is read.
///
/// - `Malformed`, `Limit`, `ConfigRefused`: the first bad place, passed limit or refused edit of the
///   plan and then of its configuration, as a run of the plan has it.
/// - `ReadFault`: the read of that file failed. It was the last call on the files, and their count of
///   faults rose.
/// - `WriteFault` of the sink: it failed while it took the text, and took a front of it. Nothing more
///   is put.
/// - `Memory`: memory ran out before anything was put.
///
/// With any other fault the sink takes the one line of that fault, or a front of it where it fails,
/// which changes no fault.
pub fn show_plan<F: Files, K: Sink>(
    alloc: Global,
    plan: &str,
    files: &mut F,
    out: &mut K,
) -> Result<(), Fault>
    ensures shown { OnOk result (Shown (told_by (F.tells files.old) (F.told files.old))
        (told_by (F.tells files.new) (F.told files.new)) (K.taken out.old) (K.taken out.new)
        plan.now) }
    // Why another answer came, and what it left.
    ensures refused { IfErr result (λ f. ShowRefusal
        (outside (told_by (F.tells files.old) (F.told files.old)) (F.faults files.old)
        (F.last files.old) (K.taken out.old) (K.faults out.old))
        (outside (told_by (F.tells files.new) (F.told files.new)) (F.faults files.new)
        (F.last files.new) (K.taken out.new) (K.faults out.new)) plan.now f) }
    // Where told files have a first fault and no call on files fails, it's the answer, unless memory
    // runs out.
    ensures exact { IsShowExact
        (outside (told_by (F.tells files.old) (F.told files.old)) (F.faults files.old)
        (F.last files.old) (K.taken out.old) (K.faults out.old))
        (outside (told_by (F.tells files.new) (F.told files.new)) (F.faults files.new)
        (F.last files.new) (K.taken out.new) (K.faults out.new)) plan.now result }
    // Where told files have none and no call fails, all is shown, unless memory runs out.
    ensures complete { IsShowComplete
        (outside (told_by (F.tells files.old) (F.told files.old)) (F.faults files.old)
        (F.last files.old) (K.taken out.old) (K.faults out.old))
        (outside (told_by (F.tells files.new) (F.told files.new)) (F.faults files.new)
        (F.last files.new) (K.taken out.new) (K.faults out.new)) plan.now result }
{
    match show_whole(alloc, plan, files, out) {
        Ok(()) => Ok(()),
        Err(fault) => Err(fault),
    }
}
