ghost use Rattle.std.specs.Prelude.{◌≡◌, ◌≤◌, ◌+◌, All, IfOk, IsTrue, length, ℕ};
ghost use Rattle.plan_files.specs.declared.items.Plan.{Plan};
ghost use Rattle.plan_files.specs.declared.plan.TheConstants.{MAX_QUEUES};
ghost use Rattle.tree_target.specs.Edits.{is_well_formed};
ghost use Rattle.tree_target.specs.Kept.{IsIdle};
ghost use Rattle.tree_target.specs.Model as model;
ghost use Rattle.tree_target.specs.Stands.{StandsFor};
ghost use Rattle.run_serving.specs.Fresh.{AreFresh};
ghost use Rattle.run_serving.specs.Ran.{Ran};
ghost use Rattle.run_serving.specs.Readiness.{AreReady, AreServable, nothing_of};
ghost use Rattle.run_serving.specs.Lines.{AreFew};
ghost use Rattle.run_serving.specs.InTurn.{ServesInTurn};

use crate::editing::{Edited, serve_script};
use crate::output::Output;
use crate::rounds::{poll_all, serve_fronts, serve_rests};
use journal_text::JournalLine;
use run_transcript::{CapsuleFile, ScriptEdit};
use std::alloc::{AllocError, Global};
use tree_target::{Target, bindings_are_own, queues_leave_desk};

/// What a run gave: the outputs of queues 1, 2, .., the journal's lines, how many places were given,
/// and how many edits were accepted and refused and drains ended.
#[derive(Drop)]
pub struct Served {
    pub outputs: Vec<Output>,
    pub journal: Vec<JournalLine>,
    pub places: u32,
    pub accepted: u32,
    pub refused: u32,
    pub drains: u32,
}

// An output for each file, with the room that its capsules need.
fn new_outputs(alloc: Global, files: &[CapsuleFile]) -> Result<Vec<Output>, AllocError>
    requires { AreServable files.now }
    ensures { IfOk result (λ outputs. AreFresh files.now outputs.items) }
{
    let mut outputs = Vec::with_capacity(alloc, files.len())?;
    for file in files {
        outputs.push(Output::new(alloc, file.room as usize)?)?;
    }
    Ok(outputs)
}

// Serves files and script in turn. Gives how many places were given.
fn serve_in_turn(
    alloc: Global,
    target: &mut Target,
    script: &[ScriptEdit],
    files: &[CapsuleFile],
    outputs: &mut [Output],
    edited: &mut Edited,
) -> Result<u32, AllocError>
    requires queues { length files.now ≡ length target.old.bindings }
    requires same { length outputs.old ≡ length files.now }
    requires few_queues { length files.now ≤ MAX_QUEUES }
    requires idle { (q : ℕ) → IsIdle target.old q }
    requires servable { AreServable files.now }
    requires ready { AreReady nothing_of files.now outputs.old }
    requires few_edits { length script.now ≤ 65536 }
    requires well_formed { All (λ s. IsTrue (is_well_formed s.edit)) script.now }
    requires fresh { AreFew edited.old 0 }
    ensures serves { IfOk result (λ places. ServesInTurn script.now files.now target.old outputs.old
        edited.old target.new outputs.new edited.new places) }
{
    let next = serve_fronts(target, 1, files, 0, outputs);
    let next = serve_script(alloc, target, script, next, edited)?;
    let next = serve_rests(target, 1, files, next, outputs);
    Ok(poll_all(target, 1, files, next, outputs))
}

/// Serves a whole run by one caller: the fronts of the files, the script, the rest of each file, and
/// the final polls. File `n` is that of queue `n`, counted from 1; an edit carries the number of its
/// line. All memory for records and journal is found before the first call; after that only an edit
/// can want memory, and the run is then given up.
pub fn serve(
    alloc: Global,
    target: &mut Target,
    script: &[ScriptEdit],
    files: &[CapsuleFile],
) -> Result<Served, AllocError>
    requires queues { length files.now ≡ length target.old.bindings }
    requires few_queues { length files.now ≤ MAX_QUEUES }
    requires idle { (q : ℕ) → IsIdle target.old q }
    requires servable { AreServable files.now }
    requires few_edits { length script.now ≤ 65536 }
    requires well_formed { All (λ s. IsTrue (is_well_formed s.edit)) script.now }
    ensures runs { IfOk result (λ o. (plan : Plan) (passed_over : ℕ) (start : model.Target)
        → StandsFor target.old start → Ran plan passed_over start script.now files.now o) }
{
    bindings_are_own();
    queues_leave_desk();
    let mut outputs = new_outputs(alloc, files)?;
    let mut edited = Edited::new(alloc, script.len())?;
    let slots = outputs.as_mut_slice();
    let places = serve_in_turn(alloc, target, script, files, slots, &mut edited)?;
    Ok(Served {
        outputs,
        journal: edited.lines,
        places,
        accepted: edited.accepted,
        refused: edited.refused,
        drains: edited.drains,
    })
}
