// The summary of the run of files, by one caller.
ghost use Rattle.std.specs.Prelude.{◌≡◌, ◌⊎◌, IfErr, IfOk, Err, string_bytes};
ghost use Rattle.run_inputs.specs.Reading.{ReadsAll};
ghost use Rattle.run_inputs.specs.Views.{seen};
ghost use Rattle.run_outcomes.specs.declared.faults.Fault.{Fault};
ghost use Rattle.run_outcomes.specs.Outsides.{told_by};
ghost use Rattle.run_gen.specs.Summed.{IsSummed};

use plan_files::Files;
use run_inputs::{PlanInputs, read_inputs};
use run_outcomes::Fault;
use run_prints::serve_inputs;
use std::alloc::Global;

/// Reads the plan of this name and the files that it names, serves them by one caller, and gives the
/// summary. No file is written.
pub fn sum_run<F: Files>(alloc: Global, name: &str, files: &mut F) -> Result<String, Fault>
    ensures summed { IfOk result (λ t. IsSummed (told_by (F.tells files.old) (F.told files.old))
        name.now (string_bytes t)) }
    ensures refused { IfErr result (λ f. (f ≡ Fault.Memory) ⊎ ReadsAll
        (seen (F.tells files.old) (F.told files.old) (F.faults files.old) (F.last files.old))
        (seen (F.tells files.new) (F.told files.new) (F.faults files.new) (F.last files.new))
        name.now (Err f)) }
{
    let mut inputs = match read_inputs(alloc, name, files) {
        Ok(inputs) => PlanInputs {
            target: inputs.target,
            passed_over: inputs.passed_over,
            script: inputs.script,
            files: inputs.files,
        },
        Err(fault) => return Err(fault),
    };
    match serve_inputs(alloc, &mut inputs) {
        Ok(printed) => Ok(printed.text),
        Err(_) => Err(Fault::Memory),
    }
}
