// All that a run reads.
ghost use Rattle.std.specs.Prelude.{◌≡◌, ◌≤◌, ℕ, All, IfErr, IfOk, IsTrue, Ok, Err, length};
ghost use Rattle.link_rules.specs.Table.{is_fitting};
ghost use Rattle.script_lines.specs.declared.lines.TheConstants.{MAX_LINES};
ghost use Rattle.tree_target.specs.Kept.{IsIdle};
ghost use Rattle.run_outcomes.specs.Outsides.{told_by};
ghost use Rattle.run_inputs.specs.InputFiles.{input_files};
ghost use Rattle.run_inputs.specs.Known.{begun};
ghost use Rattle.run_inputs.specs.Planned.{IsPlanned};
ghost use Rattle.run_inputs.specs.Reading.{ReadsAll};
ghost use Rattle.run_inputs.specs.Ready.{IsComplete, IsExact, IsReady, ReadsInputs, ReadsRest};
ghost use Rattle.run_inputs.specs.Stages.{StoppedIn};
ghost use Rattle.run_inputs.specs.Views.{IsEarlier, seen};

use crate::configuration_file::read_start;
use crate::law::told_files_settle;
use crate::plan_file::read_plan_file;
use crate::queue_files::read_queue_files;
use crate::script_file::read_script_file;
use plan_files::{Files, Plan};
use run_outcomes::Fault;
use run_transcript::{CapsuleFile, ScriptEdit};
use std::alloc::Global;
use tree_target::Target;

/// What the files that a plan names have given.
#[derive(Drop)]
pub struct PlanInputs {
    /// The target that the run starts with.
    pub target: Target,
    /// How many members and referrals of the configuration were passed over.
    pub passed_over: u64,
    /// The edits of the script, with the numbers of their lines.
    pub script: Vec<ScriptEdit>,
    /// The capsule files, of queues 1, 2, ..
    pub files: Vec<CapsuleFile>,
}

/// All that a run reads.
#[derive(Drop)]
pub struct Inputs {
    /// The plan.
    pub plan: Plan,
    /// The target that the run starts with.
    pub target: Target,
    /// How many members and referrals of the configuration were passed over.
    pub passed_over: u64,
    /// The edits of the script, with the numbers of their lines.
    pub script: Vec<ScriptEdit>,
    /// The capsule files, of queues 1, 2, ..
    pub files: Vec<CapsuleFile>,
}

/// The files that a plan names, in the order of reading: its configuration, where it is not simple,
/// its script, where it has one, and the capsule file of each queue.
pub fn read_plan_inputs<F: Files>(
    alloc: Global,
    plan: &Plan,
    files: &mut F,
) -> Result<PlanInputs, Fault>
    requires { IsPlanned plan.now }
    ensures read { IfOk result (λ i. ReadsRest
        (seen (F.tells files.old) (F.told files.old) (F.faults files.old) (F.last files.old))
        plan.now i) }
    ensures refused { IfErr result (λ f. StoppedIn
        (seen (F.tells files.old) (F.told files.old) (F.faults files.old) (F.last files.old))
        (seen (F.tells files.new) (F.told files.new) (F.faults files.new) (F.last files.new))
        (input_files plan.now) (begun plan.now) f) }
    // The target has the queues of the plan, and none of them holds a command.
    ensures queues { IfOk result (λ i. length i.target.bindings ≡ length plan.now.queues) }
    ensures idle { IfOk result (λ i. (queue : ℕ) → IsIdle i.target queue) }
    // The script is short, and each of its edits may be made.
    ensures lines { IfOk result (λ i. length i.script.items ≤ MAX_LINES) }
    ensures fitting { IfOk result (λ i. All (λ s. IsTrue (is_fitting s.edit)) i.script.items) }
    // Each queue has its file, with whole capsules and their room.
    ensures files { IfOk result (λ i. length i.files.items ≡ length plan.now.queues) }
    ensures ready { IfOk result (λ i. All IsReady i.files.items) }
    // Names hold what they held, and the count of faults does not fall.
    ensures later { IsEarlier
        (seen (F.tells files.old) (F.told files.old) (F.faults files.old) (F.last files.old))
        (seen (F.tells files.new) (F.told files.new) (F.faults files.new) (F.last files.new)) }
{
    let start = match read_start(alloc, plan, files) {
        Ok(start) => start,
        Err(fault) => return Err(fault),
    };
    let script = match read_script_file(alloc, &plan.script, files) {
        Ok(script) => script,
        Err(fault) => return Err(fault),
    };
    match read_queue_files(alloc, plan.queues.as_slice(), files) {
        Ok(read) => Ok(PlanInputs {
            target: start.target,
            passed_over: start.passed_over,
            script,
            files: read,
        }),
        Err(fault) => Err(fault),
    }
}

/// All that a run of the plan of this name reads: the plan, a file of at most 64 KiB, and then the
/// files that it names (`read_plan_inputs`).
///
/// Where it can't be read, the answer is the first bad place, passed limit or refused edit in the
/// order of reading, with the number of its file; `ReadFault` where a read failed, and then that
/// was the last call on the files; or want of memory.
pub fn read_inputs<F: Files>(alloc: Global, name: &str, files: &mut F) -> Result<Inputs, Fault>
    ensures read { IfOk result (λ i. ReadsInputs (told_by (F.tells files.old) (F.told files.old))
        name.now i) }
    ensures refused { IfErr result (λ f. ReadsAll
        (seen (F.tells files.old) (F.told files.old) (F.faults files.old) (F.last files.old))
        (seen (F.tells files.new) (F.told files.new) (F.faults files.new) (F.last files.new))
        name.now (Err f)) }
    // Told files with a first fault, and those with none, where no call fails.
    ensures exact { IsExact
        (seen (F.tells files.old) (F.told files.old) (F.faults files.old) (F.last files.old))
        (seen (F.tells files.new) (F.told files.new) (F.faults files.new) (F.last files.new))
        name.now result }
    ensures complete { IsComplete
        (seen (F.tells files.old) (F.told files.old) (F.faults files.old) (F.last files.old))
        (seen (F.tells files.new) (F.told files.new) (F.faults files.new) (F.last files.new))
        name.now result }
    // The plan's names are texts, and it fits a target.
    ensures planned { IfOk result (λ i. IsPlanned i.plan) }
    // The target has the queues of the plan, and none of them holds a command.
    ensures queues { IfOk result (λ i. length i.target.bindings ≡ length i.plan.queues) }
    ensures idle { IfOk result (λ i. (queue : ℕ) → IsIdle i.target queue) }
    // The script is short, and each of its edits may be made.
    ensures lines { IfOk result (λ i. length i.script.items ≤ MAX_LINES) }
    ensures fitting { IfOk result (λ i. All (λ s. IsTrue (is_fitting s.edit)) i.script.items) }
    // Each queue has its file, with whole capsules and their room.
    ensures files { IfOk result (λ i. length i.files.items ≡ length i.plan.queues) }
    ensures ready { IfOk result (λ i. All IsReady i.files.items) }
    // Names hold what they held, and the count of faults does not fall.
    ensures later { IsEarlier
        (seen (F.tells files.old) (F.told files.old) (F.faults files.old) (F.last files.old))
        (seen (F.tells files.new) (F.told files.new) (F.faults files.new) (F.last files.new)) }
{
    told_files_settle();
    let plan = match read_plan_file(alloc, name, files) {
        Ok(plan) => plan,
        Err(fault) => return Err(fault),
    };
    match read_plan_inputs(alloc, &plan, files) {
        Ok(inputs) => Ok(Inputs {
            plan,
            target: inputs.target,
            passed_over: inputs.passed_over,
            script: inputs.script,
            files: inputs.files,
        }),
        Err(fault) => Err(fault),
    }
}
