// The commands that don't run a plan.
ghost use Rattle.std.specs.Prelude.{◌≡◌, ◌⊎◌, ◌↔◌, ◌∷◌, ◌++◌, [], ℕ, List, true, false, codes, is_some, Ok, Err, IfOk, IfSome, IsErr};
ghost use Rattle.run_outside.specs.Outside.{Rose};
ghost use Rattle.command_words.specs.Commands.{are_said};
ghost use Rattle.command_words.specs.declared.words.Words.TheVariants as words;
ghost use Rattle.run_check.specs.Checked.{HasFirstFault, IsLegalFile};
ghost use Rattle.run_check.specs.Finished.{Finished, number_of};
ghost use Rattle.run_check.specs.RecordReading.{BothTell};
ghost use Rattle.run_check.specs.Refusals as check;
ghost use Rattle.run_check.specs.ToldRun.{run_of};
ghost use Rattle.run_gen.specs.Generated.{Generated};
ghost use Rattle.run_gen.specs.Refusals as gen;
ghost use Rattle.run_inputs.specs.Known.{Known};
ghost use Rattle.run_outcomes.specs.declared.faults.Fault.{Fault};
ghost use Rattle.run_outcomes.specs.Outsides.{told_by, files_view, sink_view, outside, Said};
ghost use Rattle.run_outcomes.specs.Texts.{usage_line};
ghost use Rattle.run_show.specs.Refusals.{ShowRefusal};
ghost use Rattle.run_show.specs.Shown.{Shown};
ghost use Rattle.run_show.specs.Starts.{StartTells};
ghost use Rattle.run_verdicts.specs.Faults.{IsFault, IsRight};
ghost use Rattle.run_verdicts.specs.declared.verdict.Field.{Field};
ghost use Rattle.nvmet_run.specs.Answers.{EndsBy, EndsNotLegal, EndsWell, TellsFault, TellsNone, TellsNotLegal, base_of};
ghost use Rattle.nvmet_run.specs.Codes.{status_of};
ghost use Rattle.nvmet_run.specs.Commands.{is_run};

use crate::status::Status;
use command_words::{MAX_GEN, Words, is_gen_name, plan_text};
use gen_files::Seed;
use mem_bdev::Name;
use plan_files::{Files, Sink};
use run_check::{CheckFault, check_plan};
use run_gen::generate;
use run_outcomes::put_usage;
use run_show::show_plan;
use std::alloc::{AllocError, Global};

// Words that are no command: the sink takes the line that says how to call the program.
pub(crate) fn refuse_words<K: Sink>(out: &mut K) -> Status
    ensures usage { result ≡ Status.Usage }
    ensures said { Said
        (sink_view (K.taken out.old) (K.faults out.old))
        (sink_view (K.taken out.new) (K.faults out.new)) usage_line }
{
    let _ = put_usage(out);
    Status::Usage
}

// There was no memory for the words: the sink takes the line that says so.
pub(crate) fn lack_memory<K: Sink>(out: &mut K) -> Status
    ensures memory { result ≡ Status.Memory }
    ensures said { Said
        (sink_view (K.taken out.old) (K.faults out.old))
        (sink_view (K.taken out.new) (K.faults out.new)) (codes "out of memory" ++ 10 ∷ []) }
{
    let _ = out.put(b"out of memory\n");
    Status::Memory
}

// The showing of a plan of this name, and how it ended.
fn show_named<F: Files, K: Sink>(alloc: Global, plan: &str, files: &mut F, out: &mut K) -> Status
    ensures fine { result ≡ Status.Fine → Shown (told_by (F.tells files.old) (F.told files.old))
        (told_by (F.tells files.new) (F.told files.new)) (K.taken out.old) (K.taken out.new)
        plan.now }
    ensures usage { result ≡ Status.Usage → ⊥ }
    ensures not_legal { (place : ℕ) → (field : Field) → result ≡ Status.NotLegal place field → ⊥ }
    ensures refused { (f : Fault) → result ≡ status_of f → ShowRefusal
        (outside (told_by (F.tells files.old) (F.told files.old)) (F.faults files.old)
        (F.last files.old) (K.taken out.old) (K.faults out.old))
        (outside (told_by (F.tells files.new) (F.told files.new)) (F.faults files.new)
        (F.last files.new) (K.taken out.new) (K.faults out.new)) plan.now f }
    ensures exact { (f : Fault) → StartTells (told_by (F.tells files.old) (F.told files.old))
        plan.now (Err f) → ¬ Rose (F.faults files.old) (F.faults files.new)
        → (result ≡ status_of f) ⊎ (result ≡ Status.Memory) }
    ensures complete { (s : Known) → StartTells (told_by (F.tells files.old) (F.told files.old))
        plan.now (Ok s) → ¬ Rose (F.faults files.old) (F.faults files.new)
        → ¬ Rose (K.faults out.old) (K.faults out.new) → (result ≡ Status.Fine)
        ⊎ (result ≡ Status.Memory) }
{
    match show_plan(alloc, plan, files, out) {
        Ok(()) => Status::Fine,
        Err(fault) => Status::of(fault),
    }
}

// The check of the finished run of a plan of this name, and how it ended.
fn check_named<F: Files, K: Sink>(alloc: Global, plan: &str, files: &mut F, out: &mut K) -> Status
    ensures fine { result ≡ Status.Fine → IsLegalFile
        (told_by (F.tells files.old) (F.told files.old))
        (told_by (F.tells files.new) (F.told files.new)) (K.taken out.old) (K.taken out.new)
        plan.now }
    ensures usage { result ≡ Status.Usage → ⊥ }
    ensures not_legal { (place : ℕ) → (field : Field) → result ≡ Status.NotLegal place field
        → HasFirstFault
        (outside (told_by (F.tells files.old) (F.told files.old)) (F.faults files.old)
        (F.last files.old) (K.taken out.old) (K.faults out.old))
        (outside (told_by (F.tells files.new) (F.told files.new)) (F.faults files.new)
        (F.last files.new) (K.taken out.new) (K.faults out.new)) plan.now place field }
    ensures refused { (f : Fault) → result ≡ status_of f → check.Refusal
        (outside (told_by (F.tells files.old) (F.told files.old)) (F.faults files.old)
        (F.last files.old) (K.taken out.old) (K.faults out.old))
        (outside (told_by (F.tells files.new) (F.told files.new)) (F.faults files.new)
        (F.last files.new) (K.taken out.new) (K.faults out.new)) plan.now f }
    ensures exact { (f : Fault) → BothTell (told_by (F.tells files.old) (F.told files.old))
        plan.now (Err f) → ¬ Rose (F.faults files.old) (F.faults files.new)
        → (result ≡ status_of f) ⊎ (result ≡ Status.Memory) }
    ensures named { (s : Finished) → (place : ℕ) → (field : Field)
        → BothTell (told_by (F.tells files.old) (F.told files.old)) plan.now (Ok s)
        → IsFault (number_of s) (run_of s) place field
        → ¬ Rose (F.faults files.old) (F.faults files.new)
        → (result ≡ Status.NotLegal place field) ⊎ (result ≡ Status.Memory) }
    ensures complete { (s : Finished)
        → BothTell (told_by (F.tells files.old) (F.told files.old)) plan.now (Ok s)
        → IsRight (number_of s) (run_of s) → ¬ Rose (F.faults files.old) (F.faults files.new)
        → ¬ Rose (K.faults out.old) (K.faults out.new) → (result ≡ Status.Fine)
        ⊎ (result ≡ Status.Memory) }
{
    match check_plan(alloc, plan, files, out) {
        Ok(()) => Status::Fine,
        Err(CheckFault::NotLegal { place, field }) => Status::NotLegal { place, field },
        Err(CheckFault::Stopped(fault)) => Status::of(fault),
    }
}

// The generating of a plan from a seed, and how it ended.
fn generate_from<F: Files, K: Sink>(
    alloc: Global,
    seed: &Seed,
    files: &mut F,
    out: &mut K,
) -> Status
    ensures fine { result ≡ Status.Fine → Generated
        (told_by (F.tells files.old) (F.told files.old))
        (told_by (F.tells files.new) (F.told files.new)) (K.taken out.old) (K.taken out.new)
        seed.now }
    ensures usage { result ≡ Status.Usage → ⊥ }
    ensures not_legal { (place : ℕ) → (field : Field) → result ≡ Status.NotLegal place field → ⊥ }
    ensures refused { (f : Fault) → result ≡ status_of f → gen.Refusal
        (outside (told_by (F.tells files.old) (F.told files.old)) (F.faults files.old)
        (F.last files.old) (K.taken out.old) (K.faults out.old))
        (outside (told_by (F.tells files.new) (F.told files.new)) (F.faults files.new)
        (F.last files.new) (K.taken out.new) (K.faults out.new)) seed.now f }
{
    match generate(alloc, seed, files, out) {
        Ok(()) => Status::Fine,
        Err(fault) => Status::of(fault),
    }
}

// Whether words may have these.
fn may_generate(n: u32, name: &Name) -> bool
    ensures { result ≡ are_said (words.Gen n name.now) }
{
    1 <= n && u64::from(n) <= MAX_GEN && is_gen_name(name.as_bytes())
}

// What a plan is made from; `None` where words may not have these.
fn seed_of(alloc: Global, n: u32, name: &Name) -> Result<Option<Seed>, AllocError>
    ensures seed { IfOk result (λ o. IfSome o (λ s. s ≡ base_of n name.now)) }
    ensures said { IfOk result (λ o. is_some o ≡ are_said (words.Gen n name.now)) }
    ensures asked { IsErr result → are_said (words.Gen n name.now) ≡ true }
{
    if !may_generate(n, name) {
        return Ok(None);
    }
    let copy = Name::copied(alloc, name.as_bytes())?;
    Ok(Seed::new(n, copy))
}

// The generating of a plan from this number and this name, and how it ended.
fn generate_named<F: Files, K: Sink>(
    alloc: Global,
    n: u32,
    name: &Name,
    files: &mut F,
    out: &mut K,
) -> Status
    ensures fine { result ≡ Status.Fine → Generated
        (told_by (F.tells files.old) (F.told files.old))
        (told_by (F.tells files.new) (F.told files.new)) (K.taken out.old) (K.taken out.new)
        (base_of n name.now) }
    ensures usage { (result ≡ Status.Usage) ↔ (are_said (words.Gen n name.now) ≡ false) }
    ensures untouched { result ≡ Status.Usage
        → files_view (told_by (F.tells files.new) (F.told files.new)) (F.faults files.new)
        (F.last files.new) ≡ files_view (told_by (F.tells files.old) (F.told files.old))
        (F.faults files.old) (F.last files.old) }
    ensures said { result ≡ Status.Usage → Said
        (sink_view (K.taken out.old) (K.faults out.old))
        (sink_view (K.taken out.new) (K.faults out.new)) usage_line }
    ensures not_legal { (place : ℕ) → (field : Field) → result ≡ Status.NotLegal place field → ⊥ }
    ensures refused { (f : Fault) → result ≡ status_of f → gen.Refusal
        (outside (told_by (F.tells files.old) (F.told files.old)) (F.faults files.old)
        (F.last files.old) (K.taken out.old) (K.faults out.old))
        (outside (told_by (F.tells files.new) (F.told files.new)) (F.faults files.new)
        (F.last files.new) (K.taken out.new) (K.faults out.new)) (base_of n name.now) f }
{
    match seed_of(alloc, n, name) {
        Ok(Some(seed)) => generate_from(alloc, &seed, files, out),
        Ok(None) => refuse_words(out),
        Err(_) => lack_memory(out),
    }
}

/// The answer to the words of a command that is no run; it always returns.
///
/// `check PLAN`: the answers of `check_plan` of `run_check`. `show PLAN`: those of `show_plan` of
/// `run_show`. `gen N NAME`: those of `generate` of `run_gen`. A name or a number that words may not
/// have, and a run, are a usage fault: then no file is touched, and the sink takes the line that says
/// how to call the program.
pub fn plain<F: Files, K: Sink>(alloc: Global, words: &Words, files: &mut F, out: &mut K) -> Status
    requires { is_run words.now ≡ false }
    ensures fine { result ≡ Status.Fine → EndsWell
        (outside (told_by (F.tells files.old) (F.told files.old)) (F.faults files.old)
        (F.last files.old) (K.taken out.old) (K.faults out.old))
        (outside (told_by (F.tells files.new) (F.told files.new)) (F.faults files.new)
        (F.last files.new) (K.taken out.new) (K.faults out.new)) words.now }
    // Where they are no words, and only there.
    ensures usage { (result ≡ Status.Usage) ↔ (are_said words.now ≡ false) }
    // No file is then touched, and the sink took the line that says how to call the program.
    ensures untouched { result ≡ Status.Usage
        → files_view (told_by (F.tells files.new) (F.told files.new)) (F.faults files.new)
        (F.last files.new) ≡ files_view (told_by (F.tells files.old) (F.told files.old))
        (F.faults files.old) (F.last files.old) }
    ensures said { result ≡ Status.Usage → Said
        (sink_view (K.taken out.old) (K.faults out.old))
        (sink_view (K.taken out.new) (K.faults out.new)) usage_line }
    // Why another status came, and what it left.
    ensures refused { (f : Fault) → result ≡ status_of f → EndsBy
        (outside (told_by (F.tells files.old) (F.told files.old)) (F.faults files.old)
        (F.last files.old) (K.taken out.old) (K.faults out.old))
        (outside (told_by (F.tells files.new) (F.told files.new)) (F.faults files.new)
        (F.last files.new) (K.taken out.new) (K.faults out.new)) words.now f }
    ensures not_legal { (place : ℕ) → (field : Field) → result ≡ Status.NotLegal place field
        → EndsNotLegal
        (outside (told_by (F.tells files.old) (F.told files.old)) (F.faults files.old)
        (F.last files.old) (K.taken out.old) (K.faults out.old))
        (outside (told_by (F.tells files.new) (F.told files.new)) (F.faults files.new)
        (F.last files.new) (K.taken out.new) (K.faults out.new)) words.now place field }
    // Where told files have a first fault and no call on files fails, it's the answer, unless memory
    // runs out.
    ensures exact { are_said words.now ≡ true → (f : Fault)
        → TellsFault (told_by (F.tells files.old) (F.told files.old)) words.now f
        → ¬ Rose (F.faults files.old) (F.faults files.new)
        → (result ≡ status_of f) ⊎ (result ≡ Status.Memory) }
    // Where told files have none, and what they tell of a finished run has a first one, that is the
    // answer to `check`, if no call on files fails and memory doesn't run out.
    ensures named { are_said words.now ≡ true → (place : ℕ) → (field : Field)
        → TellsNotLegal (told_by (F.tells files.old) (F.told files.old)) words.now place field
        → ¬ Rose (F.faults files.old) (F.faults files.new)
        → (result ≡ Status.NotLegal place field) ⊎ (result ≡ Status.Memory) }
    // Where told files have none and no call fails, the command ends well, unless memory runs out.
    ensures complete { are_said words.now ≡ true
        → TellsNone (told_by (F.tells files.old) (F.told files.old)) words.now
        → ¬ Rose (F.faults files.old) (F.faults files.new)
        → ¬ Rose (K.faults out.old) (K.faults out.new) → (result ≡ Status.Fine)
        ⊎ (result ≡ Status.Memory) }
{
    match words {
        Words::Check { plan } => match plan_text(plan) {
            Some(plan) => check_named(alloc, plan, files, out),
            None => refuse_words(out),
        },
        Words::Show { plan } => match plan_text(plan) {
            Some(plan) => show_named(alloc, plan, files, out),
            None => refuse_words(out),
        },
        Words::Gen { n, name } => generate_named(alloc, *n, name, files, out),
        Words::Run { .. } => refuse_words(out),
    }
}
