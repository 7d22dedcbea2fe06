// The seven files of a generated plan.
ghost use Rattle.std.specs.Prelude.{◌≡◌, ◌≤◌, ◌++◌, IfOk, IsUtf8, map};
ghost use Rattle.std.specs.List.{AllByRecursion};
ghost use Rattle.gen_files.specs.declared.made.MadeFile.{MadeFile};
ghost use Rattle.gen_files.specs.Contents.{content, content_of, contents, plan_name};
ghost use Rattle.gen_files.specs.Commands.{io_queue_bytes};

use crate::commands::{admin_queue, io_queue};
use crate::seed::Seed;
use crate::texts::{configuration_text, plan_text, script_text};
use mem_bdev::Name;
use std::alloc::{AllocError, Global};

/// A file of a generated plan.
#[derive(Drop)]
pub struct MadeFile {
    /// The number that the file has in its plan: the plan 0, the configuration 1, the script 2, the
    /// capsules of queue q 2 + 2q.
    pub number: u32,
    /// Its name.
    pub name: Name,
    /// What it holds.
    pub bytes: Vec<u8>,
}

// The seed's name with an ending.
fn ended(alloc: Global, seed: &Seed, end: &str) -> Result<Name, AllocError>
    ensures value { IfOk result (λ n. n ≡ seed.now.name ++ end.now) }
    ensures text { IfOk result (λ n. IsUtf8 n) }
{
    let mut text = String::from_str(alloc, seed.text())?;
    text.push_str(end)?;
    Ok(Name::from_vec(text.into_bytes()))
}

/// The name of the plan.
pub fn plan_name(alloc: Global, seed: &Seed) -> Result<Name, AllocError>
    ensures value { IfOk result (λ n. n ≡ plan_name seed.now.name) }
    ensures text { IfOk result (λ n. IsUtf8 n) }
{
    ended(alloc, seed, ".plan")
}

fn made(
    alloc: Global,
    number: u32,
    seed: &Seed,
    end: &str,
    bytes: Vec<u8>,
) -> Result<MadeFile, AllocError>
    ensures value { IfOk result (λ f. content_of f ≡ content number (seed.now.name ++ end.now)
        bytes.items) }
    ensures text { IfOk result (λ f. IsUtf8 f.name) }
{
    let name = ended(alloc, seed, end)?;
    Ok(MadeFile {
        number,
        name,
        bytes,
    })
}

// The file of an I/O queue.
fn io_file(
    alloc: Global,
    seed: &Seed,
    number: u32,
    end: &str,
    qid: u16,
) -> Result<MadeFile, AllocError>
    requires first { 1 ≤ qid }
    requires last { qid ≤ 3 }
    ensures value { IfOk result (λ f. content_of f ≡ content number (seed.now.name ++ end.now)
        (io_queue_bytes seed.now.rounds qid)) }
    ensures text { IfOk result (λ f. IsUtf8 f.name) }
{
    let bytes = io_queue(alloc, seed.rounds(), qid)?;
    made(alloc, number, seed, end, bytes)
}

/// Makes the seven files of a generated plan, in the order in which they are written: its plan, its
/// configuration, its script, and the capsules of queues 1 to 4. The names are texts.
#[tactic(auto, unfolding(crate::specs::Contents::contents))]
pub fn make_files(alloc: Global, seed: &Seed) -> Result<Vec<MadeFile>, AllocError>
    ensures value { IfOk result (λ v. map content_of v.items ≡ contents seed.now) }
    ensures text { IfOk result (λ v. AllByRecursion (λ (f : MadeFile). IsUtf8 f.name) v.items) }
{
    let plan = made(alloc, 0, seed, ".plan", plan_text(alloc, seed.name())?)?;
    let configuration = made(alloc, 1, seed, ".json", configuration_text(alloc)?)?;
    let script = made(alloc, 2, seed, ".script", script_text(alloc)?)?;
    let admin = made(alloc, 4, seed, ".q1", admin_queue(alloc)?)?;
    let first = io_file(alloc, seed, 6, ".q2", 1)?;
    let second = io_file(alloc, seed, 8, ".q3", 2)?;
    let third = io_file(alloc, seed, 10, ".q4", 3)?;
    Ok(vec![in alloc; plan, configuration, script, admin, first, second, third]?)
}
