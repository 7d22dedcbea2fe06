// The plan of a run.
ghost use Rattle.std.specs.Prelude.{◌≡◌, ◌≤◌, IfErr, IfOk, length, Ok, Err};
ghost use Rattle.run_inputs.specs.Gives.{PlanBegins};
ghost use Rattle.run_inputs.specs.Known.{begun};
ghost use Rattle.run_inputs.specs.PlanFile.{plan_error, plan_of_file};
ghost use Rattle.run_inputs.specs.Planned.{IsPlanned};
ghost use Rattle.run_inputs.specs.Reading.{Reading, ReadsSo};
ghost use Rattle.run_inputs.specs.Stages.{Gives};
ghost use Rattle.run_inputs.specs.Views.{IsEarlier, seen};
ghost use Rattle.run_outcomes.specs.Outsides.{told_by};

use crate::contents::{MAX_PLAN_BYTES, read_content};
use plan_files::{Files, Plan, PlanError, read_plan};
use run_outcomes::{At, Fault, PLAN};
use std::alloc::Global;
use tree_target::plans_fit_targets;

fn plan_fault(error: PlanError) -> Fault
    ensures { result ≡ plan_error error }
{
    match error {
        PlanError::BadLine { line } => Fault::Malformed {
            file: PLAN,
            at: At::Line(line),
        },
        PlanError::TooLong { what, count } => Fault::Limit {
            file: PLAN,
            what,
            count,
        },
        PlanError::Memory => Fault::Memory,
    }
}

// The plan in these bytes.
fn parse_plan(alloc: Global, bytes: &[u8]) -> Result<Plan, Fault>
    requires { length bytes.now ≤ MAX_PLAN_BYTES }
    ensures exact { Gives (λ plan. plan) result (plan_of_file bytes.now) }
    ensures planned { IfOk result (λ plan. IsPlanned plan) }
{
    match read_plan(alloc, bytes) {
        Ok(plan) => {
            plans_fit_targets();
            Ok(plan)
        }
        Err(error) => Err(plan_fault(error)),
    }
}

/// The plan of this name.
pub fn read_plan_file<F: Files>(alloc: Global, name: &str, files: &mut F) -> Result<Plan, Fault>
    ensures read { IfOk result (λ plan. ReadsSo (told_by (F.tells files.old) (F.told files.old))
        name.now PlanBegins (Ok (begun plan))) }
    ensures planned { IfOk result (λ plan. IsPlanned plan) }
    ensures refused { IfErr result (λ f. Reading
        (seen (F.tells files.old) (F.told files.old) (F.faults files.old) (F.last files.old))
        (seen (F.tells files.new) (F.told files.new) (F.faults files.new) (F.last files.new))
        PLAN name.now PlanBegins (Err f)) }
    ensures later { IsEarlier
        (seen (F.tells files.old) (F.told files.old) (F.faults files.old) (F.last files.old))
        (seen (F.tells files.new) (F.told files.new) (F.faults files.new)
        (F.last files.new)) }
{
    match read_content(alloc, name, MAX_PLAN_BYTES, PLAN, files) {
        Ok(bytes) => parse_plan(alloc, &bytes),
        Err(fault) => Err(fault),
    }
}
