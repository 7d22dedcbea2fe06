// What was read, served and printed.
ghost use Rattle.std.specs.Prelude.{◌≡◌, ◌≤◌, ℕ, All, IsTrue, IfOk, length, map, string_bytes};
ghost use Rattle.plan_files.specs.declared.plan.TheConstants.{MAX_QUEUES};
ghost use Rattle.link_rules.specs.Table.{is_fitting};
ghost use Rattle.script_lines.specs.declared.lines.TheConstants.{MAX_LINES};
ghost use Rattle.tree_target.specs.Kept.{IsIdle};
ghost use Rattle.run_inputs.specs.Known.{Known};
ghost use Rattle.run_inputs.specs.Ready.{HoldsRest, IsReady};
ghost use Rattle.run_prints.specs.Prints.{Makes};

use crate::journal::journal_of;
use crate::summary::summary_text;
use mem_bdev::Buffer;
use run_inputs::PlanInputs;
use run_serving::{Served, serve};
use std::alloc::{AllocError, Global};

/// What is printed of a run: the records of each queue beside the counts of its calls, the text of
/// the journal, and the summary.
#[derive(Drop)]
pub struct Printed {
    pub served: Served,
    pub journal: Buffer,
    pub text: String,
}

/// Serves what was read by one caller in turn, and makes the prints of that run: it is ordered, served
/// and legal. Only memory may be wanting.
pub fn serve_inputs(alloc: Global, inputs: &mut PlanInputs) -> Result<Printed, AllocError>
    requires queues { length inputs.old.files.items ≡ length inputs.old.target.bindings }
    requires few_queues { length inputs.old.files.items ≤ MAX_QUEUES }
    requires idle { (queue : ℕ) → IsIdle inputs.old.target queue }
    requires ready { All IsReady inputs.old.files.items }
    requires lines { length inputs.old.script.items ≤ MAX_LINES }
    requires fitting { All (λ s. IsTrue (is_fitting s.edit)) inputs.old.script.items }
    ensures { IfOk result (λ m. (s : Known) → HoldsRest inputs.old s
        → Makes s (map (λ o. o.records.bytes) m.served.outputs.items) m.journal.bytes
        (string_bytes m.text)) }
{
    let served = serve(alloc, &mut inputs.target, &inputs.script, &inputs.files)?;
    let journal = journal_of(alloc, served.places, &served.journal)?;
    let text = summary_text(alloc, &served, inputs.passed_over)?;
    Ok(Printed {
        served,
        journal,
        text,
    })
}
