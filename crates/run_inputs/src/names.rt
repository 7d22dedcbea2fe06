// The names of a run's files.
ghost use Rattle.std.specs.Prelude.{◌≡◌, ◌≤◌, ◌+◌, length};
ghost use Rattle.plan_files.specs.declared.plan.TheConstants.{MAX_QUEUES};
ghost use Rattle.run_inputs.specs.InputFiles.{name_of, name_or, queue_name};

use mem_bdev::Name;
use plan_files::{Plan, QueueLine};
use run_outcomes::{CONFIG, FileNo, JOURNAL, SCRIPT};

// The name, or another where there is none.
fn name_or<'a>(slot: &'a Option<Name>, name: &'a [u8]) -> &'a [u8]
    ensures { result.now ≡ name_or slot.now name.now }
{
    match slot {
        Some(name) => name.as_bytes(),
        None => name,
    }
}

// The name of a file of these queues, the first of which has this number.
fn queue_name<'a>(queue: u32, queues: &'a [QueueLine], number: u32, name: &'a [u8]) -> &'a [u8]
    requires { queue + length queues.now ≤ MAX_QUEUES + 1 }
    ensures { result.now ≡ queue_name queue queues.now number name.now }
{
    match queues {
        [] => name,
        [line, rest @ ..] => {
            if number == 2 + 2 * queue {
                line.capsules.as_bytes()
            } else if number == 3 + 2 * queue {
                line.responses.as_bytes()
            } else {
                queue_name(queue + 1, rest, number, name)
            }
        }
    }
}

/// The name of a file of a run, by its number, where the plan has this name; the plan's own for a
/// number that no file of the plan has.
#[tactic(auto, unfolding(crate::specs::InputFiles::name_of))]
pub fn file_name<'a>(name: &'a [u8], plan: &'a Plan, file: FileNo) -> &'a [u8]
    requires { length plan.now.queues ≤ MAX_QUEUES }
    ensures { result.now ≡ name_of name.now plan.now file }
{
    if file.0 == CONFIG.0 {
        return name_or(&plan.config, name);
    }
    if file.0 == SCRIPT.0 {
        return name_or(&plan.script, name);
    }
    if file.0 == JOURNAL.0 {
        return name_or(&plan.journal, name);
    }
    queue_name(1, plan.queues.as_slice(), file.0, name)
}
