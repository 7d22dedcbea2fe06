ghost use Rattle.std.specs.Prelude.{◌≡◌, ◌⊎◌, ◌↔◌, ℕ, List, Some, None, Ok, Err};
ghost use Rattle.run_outside.specs.Outside.{Rose};
ghost use Rattle.command_words.specs.Commands.{said_by};
ghost use Rattle.command_words.specs.declared.words.Words.{Words};
ghost use Rattle.run_outcomes.specs.declared.faults.Fault.{Fault};
ghost use Rattle.run_outcomes.specs.Outsides.{told_by, files_view, sink_view, outside, Said};
ghost use Rattle.run_outcomes.specs.Texts.{usage_line};
ghost use Rattle.run_verdicts.specs.declared.verdict.Field.{Field};
ghost use Rattle.nvmet_run.specs.Answers.{EndsBy, EndsNotLegal, EndsWell, TellsFault, TellsNone, TellsNotLegal};
ghost use Rattle.nvmet_run.specs.Codes.{status_of};

use crate::commands::{lack_memory, plain, refuse_words};
use crate::run::run_plan;
use crate::status::Status;
use command_words::{Words, WordsError, plan_text, read_words};
use plan_files::{Files, Gate, Sink};
use std::alloc::Global;
use std::sync::Wait;
use std::thread::Threads;

/// The top call: reads the words of the command line and does what they say (see [`read_words`]).
///
/// Words that say nothing are a usage fault: no file is touched, and the sink takes the line that
/// says how to call the program. The answers of `run PLAN` are those of [`run_plan`], those of
/// `check PLAN`, `show PLAN` and `gen N NAME` those of [`plain`]; `Memory` comes too where there is
/// no memory for the words, before any file is touched.
pub fn command<R: Wait + Threads + Sync, F: Files, K: Sink, G: Gate + Sync>(
    rt: &R,
    alloc: Global,
    words: &[String],
    files: &mut F,
    out: &mut K,
    gate: &G,
) -> Status
    ensures fine { result ≡ Status.Fine → (w : Words) × (said_by words.now ≡ Some w) × EndsWell
        (outside (told_by (F.tells files.old) (F.told files.old)) (F.faults files.old)
        (F.last files.old) (K.taken out.old) (K.faults out.old))
        (outside (told_by (F.tells files.new) (F.told files.new)) (F.faults files.new)
        (F.last files.new) (K.taken out.new) (K.faults out.new)) w }
    // Where the words say nothing, and only there.
    ensures usage { (result ≡ Status.Usage) ↔ (said_by words.now ≡ None) }
    // No file is then touched, and the sink took the line that says how to call the program.
    ensures untouched { result ≡ Status.Usage
        → files_view (told_by (F.tells files.new) (F.told files.new)) (F.faults files.new)
        (F.last files.new) ≡ files_view (told_by (F.tells files.old) (F.told files.old))
        (F.faults files.old) (F.last files.old) }
    ensures said { result ≡ Status.Usage → Said
        (sink_view (K.taken out.old) (K.faults out.old))
        (sink_view (K.taken out.new) (K.faults out.new)) usage_line }
    // Why another status came, and what it left.
    ensures refused { (f : Fault) → result ≡ status_of f
        → (w : Words) × (said_by words.now ≡ Some w) × EndsBy
        (outside (told_by (F.tells files.old) (F.told files.old)) (F.faults files.old)
        (F.last files.old) (K.taken out.old) (K.faults out.old))
        (outside (told_by (F.tells files.new) (F.told files.new)) (F.faults files.new)
        (F.last files.new) (K.taken out.new) (K.faults out.new)) w f }
    ensures not_legal { (place : ℕ) → (field : Field) → result ≡ Status.NotLegal place field
        → (w : Words) × (said_by words.now ≡ Some w) × EndsNotLegal
        (outside (told_by (F.tells files.old) (F.told files.old)) (F.faults files.old)
        (F.last files.old) (K.taken out.old) (K.faults out.old))
        (outside (told_by (F.tells files.new) (F.told files.new)) (F.faults files.new)
        (F.last files.new) (K.taken out.new) (K.faults out.new)) w place field }
    // Where told files have a first fault and no call on files fails, it's the answer, unless memory
    // runs out.
    ensures exact { (w : Words) → said_by words.now ≡ Some w → (f : Fault)
        → TellsFault (told_by (F.tells files.old) (F.told files.old)) w f
        → ¬ Rose (F.faults files.old) (F.faults files.new) → (result ≡ status_of f)
        ⊎ (result ≡ Status.Memory) }
    // Where told files have none, and what they tell of a finished run has a first one, that is the
    // answer to `check`, if no call on files fails and memory doesn't run out.
    ensures named { (w : Words) → said_by words.now ≡ Some w → (place : ℕ) → (field : Field)
        → TellsNotLegal (told_by (F.tells files.old) (F.told files.old)) w place field
        → ¬ Rose (F.faults files.old) (F.faults files.new)
        → (result ≡ Status.NotLegal place field) ⊎ (result ≡ Status.Memory) }
    // Where told files have none and no call fails, the command ends well, unless memory runs out.
    ensures complete { (w : Words) → said_by words.now ≡ Some w
        → TellsNone (told_by (F.tells files.old) (F.told files.old)) w
        → ¬ Rose (F.faults files.old) (F.faults files.new)
        → ¬ Rose (K.faults out.old) (K.faults out.new) → (result ≡ Status.Fine)
        ⊎ (result ≡ Status.Memory) }
{
    match read_words(alloc, words) {
        Ok(Words::Run { plan }) => match plan_text(&plan) {
            Some(plan) => run_plan(rt, alloc, plan, files, out, gate),
            None => refuse_words(out),
        },
        Ok(words) => plain(alloc, &words, files, out),
        Err(WordsError::Usage) => refuse_words(out),
        Err(WordsError::Memory) => lack_memory(out),
    }
}
