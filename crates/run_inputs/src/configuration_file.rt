// The start of a run: by the configuration, or that of a simple plan.
ghost use Rattle.std.specs.Prelude.{◌≡◌, ℕ, true, IfErr, IfOk, IsUtf8, Some, length};
ghost use Rattle.std.specs.List.{list_all};
ghost use Rattle.link_rules.specs.Table.{is_fitting};
ghost use Rattle.tree_target.specs.Kept.{IsIdle};
ghost use Rattle.tree_target.specs.Loads.{LoadsWell, loaded};
ghost use Rattle.tree_target.specs.PlanDisks.{FitsTarget};
ghost use Rattle.tree_target.specs.Stands.{StandsFor};
ghost use Rattle.run_inputs.specs.ConfigurationFile.{TextStarts, json_error};
ghost use Rattle.run_inputs.specs.InputFiles.{configuration_files};
ghost use Rattle.run_inputs.specs.Known.{Known, begun, ports_of};
ghost use Rattle.run_inputs.specs.Planned.{IsPlanned};
ghost use Rattle.run_inputs.specs.Stages.{EditsRefused, GivesFault, StartsIn, StartsText, StoppedIn};
ghost use Rattle.run_inputs.specs.Views.{IsEarlier, seen};

use crate::contents::{MAX_CONFIGURATION_BYTES, read_content};
use mem_bdev::Name;
use nvmetcli_json::{Edits, JsonError, load};
use plan_files::{Files, Plan, QueueLine};
use run_outcomes::{At, CONFIG, Fault};
use std::alloc::{AllocError, Global};
use tree_target::{LoadError, Target};

/// The target that a run starts with, and how many members of its configuration were passed over.
#[derive(Drop)]
pub struct Start {
    pub target: Target,
    pub passed_over: u64,
}

fn json_fault(error: JsonError) -> Fault
    ensures { result ≡ json_error error }
{
    match error {
        JsonError::NotJson => Fault::Malformed {
            file: CONFIG,
            at: At::Json,
        },
        JsonError::Shape { at } => Fault::Malformed {
            file: CONFIG,
            at: At::Shape(at),
        },
        JsonError::Memory => Fault::Memory,
    }
}

// The ports of the queues of a plan.
fn ports(alloc: Global, queues: &[QueueLine]) -> Result<Vec<u16>, AllocError>
    ensures { IfOk result (λ v. v.items ≡ ports_of queues.now) }
{
    queues.iter().map(|q| q.port).collect(alloc)
}

// The target after these edits, over the disks and queues of a plan.
fn load_target(alloc: Global, edits: &Edits, plan: &Plan) -> Result<Target, Fault>
    requires planned { FitsTarget plan.now }
    requires fitting { list_all is_fitting edits.now ≡ true }
    ensures started { IfOk result (λ k. LoadsWell (loaded plan.now.disks edits.now) plan.now.disks
        (ports_of plan.now.queues) k) }
    ensures refused { IfErr result (λ f. EditsRefused (loaded plan.now.disks edits.now) f) }
    ensures queues { IfOk result (λ k. length k.bindings ≡ length plan.now.queues) }
    ensures idle { IfOk result (λ k. (queue : ℕ) → IsIdle k queue) }
{
    let Ok(ports) = ports(alloc, plan.queues.as_slice()) else {
        return Err(Fault::Memory);
    };
    match Target::load(alloc, plan.disks.as_slice(), edits.as_slice(), &ports) {
        Ok(target) => Ok(target),
        Err(LoadError::Refused { edit, errno }) => Err(Fault::ConfigRefused { edit, errno }),
        Err(LoadError::Memory) => Err(Fault::Memory),
    }
}

// The target that the configuration in these bytes makes.
fn parse_configuration(alloc: Global, bytes: &[u8], plan: &Plan) -> Result<Start, Fault>
    requires planned { FitsTarget plan.now }
    ensures started { IfOk result (λ t. (s : Known) → s.plan ≡ plan.now → StartsText s bytes.now
        t.target t.passed_over) }
    ensures refused { IfErr result (λ f. (s : Known) → s.plan ≡ plan.now
        → GivesFault (TextStarts s bytes.now) f) }
    ensures queues { IfOk result (λ t. length t.target.bindings ≡ length plan.now.queues) }
    ensures idle { IfOk result (λ t. (queue : ℕ) → IsIdle t.target queue) }
{
    let config = match load(alloc, bytes) {
        Ok(config) => config,
        Err(error) => return Err(json_fault(error)),
    };
    match load_target(alloc, &config.edits, plan) {
        Ok(target) => Ok(Start {
            target,
            passed_over: config.passed_over,
        }),
        Err(fault) => Err(fault),
    }
}

// The target that the configuration of this name makes.
fn read_configuration<F: Files>(
    alloc: Global,
    name: &Name,
    plan: &Plan,
    files: &mut F,
) -> Result<Start, Fault>
    requires name { IsUtf8 name.now }
    requires planned { FitsTarget plan.now }
    ensures read { IfOk result (λ t. StartsIn
        (seen (F.tells files.old) (F.told files.old) (F.faults files.old) (F.last files.old))
        (configuration_files (Some name.now)) (begun plan.now) t.target t.passed_over) }
    ensures queues { IfOk result (λ t. length t.target.bindings ≡ length plan.now.queues) }
    ensures idle { IfOk result (λ t. (queue : ℕ) → IsIdle t.target queue) }
    ensures refused { IfErr result (λ f. StoppedIn
        (seen (F.tells files.old) (F.told files.old) (F.faults files.old) (F.last files.old))
        (seen (F.tells files.new) (F.told files.new) (F.faults files.new) (F.last files.new))
        (configuration_files (Some name.now)) (begun plan.now) f) }
    ensures later { IsEarlier
        (seen (F.tells files.old) (F.told files.old) (F.faults files.old) (F.last files.old))
        (seen (F.tells files.new) (F.told files.new) (F.faults files.new) (F.last files.new)) }
{
    let name = name.as_text().unwrap();
    match read_content(alloc, name, MAX_CONFIGURATION_BYTES, CONFIG, files) {
        Ok(bytes) => parse_configuration(alloc, &bytes, plan),
        Err(fault) => Err(fault),
    }
}

// The target of a simple plan.
fn simple_target(alloc: Global, plan: &Plan) -> Result<Start, Fault>
    requires planned { FitsTarget plan.now }
    requires simple { plan.now.simple ≡ true }
    ensures stands { IfOk result (λ t. StandsFor t.target (begun plan.now).start) }
    ensures none { IfOk result (λ t. t.passed_over ≡ 0) }
    ensures queues { IfOk result (λ t. length t.target.bindings ≡ length plan.now.queues) }
    ensures idle { IfOk result (λ t. (queue : ℕ) → IsIdle t.target queue) }
    ensures memory { IfErr result (λ f. f ≡ Fault.Memory) }
{
    let [disk] = plan.disks.as_slice() else {
        unreachable!();
    };
    match Target::simple(alloc, disk) {
        Ok(target) => Ok(Start {
            target,
            passed_over: 0,
        }),
        Err(_) => Err(Fault::Memory),
    }
}

/// The target that a run of this plan starts with: by its configuration, a file of at most 4 MiB
/// whose edits are loaded over the plan's disks, or, where the plan is simple, its own.
pub fn read_start<F: Files>(alloc: Global, plan: &Plan, files: &mut F) -> Result<Start, Fault>
    requires { IsPlanned plan.now }
    ensures read { IfOk result (λ t. StartsIn
        (seen (F.tells files.old) (F.told files.old) (F.faults files.old) (F.last files.old))
        (configuration_files plan.now.config) (begun plan.now) t.target t.passed_over) }
    ensures queues { IfOk result (λ t. length t.target.bindings ≡ length plan.now.queues) }
    ensures idle { IfOk result (λ t. (queue : ℕ) → IsIdle t.target queue) }
    ensures refused { IfErr result (λ f. StoppedIn
        (seen (F.tells files.old) (F.told files.old) (F.faults files.old) (F.last files.old))
        (seen (F.tells files.new) (F.told files.new) (F.faults files.new) (F.last files.new))
        (configuration_files plan.now.config) (begun plan.now) f) }
    ensures later { IsEarlier
        (seen (F.tells files.old) (F.told files.old) (F.faults files.old) (F.last files.old))
        (seen (F.tells files.new) (F.told files.new) (F.faults files.new) (F.last files.new)) }
{
    match &plan.config {
        Some(name) => read_configuration(alloc, name, plan, files),
        None => simple_target(alloc, plan),
    }
}
