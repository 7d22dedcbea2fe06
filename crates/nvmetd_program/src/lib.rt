//! The program `nvmetd` over values: the words of its command line, the answer to them, its exit
//! status. A program's `main` is `run_on_host` alone, over the real files and standard output.
#![tactic(auto)]

ghost use Rattle.std.specs.Prelude.{◌≡◌, ◌⊎◌, ◌↔◌, ℕ, Some, None, [], drop, IfOk, IsErr, IsOkAnd, OnErr};
ghost use Rattle.std.specs.Process.{exit_status};
ghost use Rattle.std.specs.Vec.Iter.{into_iter_items};
ghost use Rattle.command_words.specs.Commands.{said_by};
ghost use Rattle.command_words.specs.declared.words.Words.{Words};
ghost use Rattle.run_verdicts.specs.declared.verdict.Field.{Field};
ghost use Rattle.nvmet_run.specs.Answers.{EndsBy, EndsNotLegal, EndsWell};
ghost use Rattle.nvmet_run.specs.Codes.{code_of, status_of};
ghost use Rattle.run_outcomes.specs.Outsides.{told_by, files_view, sink_view, outside, Said};
ghost use Rattle.run_outcomes.specs.declared.faults.Fault.{Fault};
ghost use Rattle.nvmetd_program.specs.Words.{given_words, LacksMemory, memory_line};

use nvmet_run::{Status, command};
use plan_files::{Files, Gate, HostFiles, HostSink, OpenGate, Sink};
use std::alloc::{AllocError, Global};
use std::env::{Args, Env, args};
use std::process::ExitCode;
use std::sync::Wait;
use std::thread::Threads;
use std::{io, rt};

/// The exit status of a program whose command ended so: 0 to 8 in the order of the variants.
pub fn exit_code(status: &Status) -> ExitCode
    ensures { exit_status result ≡ code_of status.now }
{
    ExitCode::from(status.code())
}

// The words after the first.
fn collect_words(alloc: Global, args: Args) -> Result<Vec<String>, AllocError>
    ensures { IfOk result (λ v. v.items ≡ drop 1 (into_iter_items args)) }
{
    let mut rest = args;
    let _name = rest.next();
    let mut words = Vec::new(alloc);
    while let Some(word) = rest.next() {
        words.push(word)?;
    }
    Ok(words)
}

/// The words after the program's name, all of them and in their order.
///
/// Words of which one is no text are no command, as no words are. An error says that there was no
/// memory for them.
pub fn words_after_name(alloc: Global, args: io::Result<Args>) -> Result<Vec<String>, AllocError>
    ensures words { IfOk result (λ v. v.items ≡ given_words args) }
    ensures memory { LacksMemory args → IsErr result }
{
    match args {
        Ok(args) => collect_words(alloc, args),
        Err(error) => {
            if error.kind() == io::ErrorKind::OutOfMemory {
                Err(AllocError)
            } else {
                Ok(Vec::new(alloc))
            }
        }
    }
}

/// The answer to the words of a command line: that of [`command`], or `Memory` where there was no
/// memory for the words. Then no file is touched, and the sink takes the line that says so.
pub fn answer<R: Wait + Threads + Sync, F: Files, K: Sink, G: Gate + Sync>(
    rt: &R,
    alloc: Global,
    words: Result<Vec<String>, AllocError>,
    files: &mut F,
    out: &mut K,
    gate: &G,
) -> Status
    // It ends well only where the words say a command, and then as that command does.
    ensures fine { result ≡ Status.Fine → IsOkAnd words (λ v. (w : Words)
        × (said_by v.items ≡ Some w) × EndsWell
        (outside (told_by (F.tells files.old) (F.told files.old)) (F.faults files.old)
        (F.last files.old) (K.taken out.old) (K.faults out.old))
        (outside (told_by (F.tells files.new) (F.told files.new)) (F.faults files.new)
        (F.last files.new) (K.taken out.new) (K.faults out.new)) w) }
    // The words say nothing, and there was memory for them.
    ensures usage { (result ≡ Status.Usage) ↔ IsOkAnd words (λ v. said_by v.items ≡ None) }
    // Another status has its cause in the command that the words say.
    ensures refused { (f : Fault) → result ≡ status_of f → IsErr words
        ⊎ IsOkAnd words (λ v. (w : Words) × (said_by v.items ≡ Some w) × EndsBy
        (outside (told_by (F.tells files.old) (F.told files.old)) (F.faults files.old)
        (F.last files.old) (K.taken out.old) (K.faults out.old))
        (outside (told_by (F.tells files.new) (F.told files.new)) (F.faults files.new)
        (F.last files.new) (K.taken out.new) (K.faults out.new)) w f) }
    ensures not_legal { (place : ℕ) → (field : Field) → result ≡ Status.NotLegal place field
        → IsOkAnd words (λ v. (w : Words) × (said_by v.items ≡ Some w) × EndsNotLegal
        (outside (told_by (F.tells files.old) (F.told files.old)) (F.faults files.old)
        (F.last files.old) (K.taken out.old) (K.faults out.old))
        (outside (told_by (F.tells files.new) (F.told files.new)) (F.faults files.new)
        (F.last files.new) (K.taken out.new) (K.faults out.new)) w place field) }
    ensures memory { OnErr words (result ≡ Status.Memory) }
    ensures untouched { OnErr words
        (files_view (told_by (F.tells files.new) (F.told files.new)) (F.faults files.new) (F.last files.new)
        ≡ files_view (told_by (F.tells files.old) (F.told files.old)) (F.faults files.old) (F.last files.old)) }
    ensures said { OnErr words (Said (sink_view (K.taken out.old) (K.faults out.old))
        (sink_view (K.taken out.new) (K.faults out.new)) memory_line) }
{
    match words {
        Ok(words) => command(rt, alloc, &words, files, out, gate),
        Err(_) => {
            let _ = out.put(b"out of memory\n");
            Status::Memory
        }
    }
}

/// The whole program over the real files, standard output and the words of the command line.
pub fn run_on_host<R: Wait + Threads + Sync + rt::Files + Print + Env + AllocGlobal>(
    rt: &R,
) -> ExitCode {
    let words = words_after_name(rt.alloc(), args(rt));
    let mut files = HostFiles::new(rt, rt.alloc());
    let mut out = HostSink::new(rt);
    exit_code(&answer(rt, rt.alloc(), words, &mut files, &mut out, &OpenGate))
}
