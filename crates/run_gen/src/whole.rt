// Plans that are generated.
ghost use Rattle.std.specs.Prelude.{◌≡◌, IsUtf8, IfOk, IfErr, OnOk, map, string_bytes};
ghost use Rattle.std.specs.List.{AllByRecursion};
ghost use Rattle.gen_files.specs.Contents.{content_of, contents};
ghost use Rattle.gen_files.specs.declared.made.MadeFile.{MadeFile};
ghost use Rattle.run_outcomes.specs.Outsides.{told_by, outside, Took};
ghost use Rattle.run_outcomes.specs.Written.{AllWritten, AreApart};
ghost use Rattle.run_gen.specs.Generated.{Generated};
ghost use Rattle.run_gen.specs.Refusals.{Ends, Refusal, SummedInMemory, Unmade, WriteEnds};
ghost use Rattle.run_gen.specs.Written.{in_hand};

use crate::summing::sum_run;
use crate::writing::{in_memory, name_or, write_made};
use gen_files::{MadeFile, Seed, make_files, plan_name};
use plan_files::{Files, Sink};
use run_outcomes::{Fault, put_text, report_fault};
use std::alloc::Global;

// The summary of the run of these files, by one caller.
fn sum_made(alloc: Global, seed: &Seed, made: &[MadeFile]) -> Result<String, Fault>
    requires made { map content_of made.now ≡ contents seed.now }
    requires names { AllByRecursion (λ (f : MadeFile). IsUtf8 f.name) made.now }
    ensures summed { IfOk result (λ t. SummedInMemory seed.now (string_bytes t)) }
    ensures refused { IfErr result (λ f. Unmade seed.now f) }
{
    let mut files = match in_memory(alloc, made) {
        Ok(files) => files,
        Err(fault) => return Err(fault),
    };
    let name = match plan_name(alloc, seed) {
        Ok(name) => name,
        Err(_) => return Err(Fault::Memory),
    };
    let name = name.as_text().unwrap();
    match sum_run(alloc, name, &mut files) {
        Ok(text) => Ok(text),
        Err(fault) => Err(fault),
    }
}

// Writes the files, and puts the summary.
fn write_out<F: Files, K: Sink>(
    made: &[MadeFile],
    text: &str,
    files: &mut F,
    out: &mut K,
) -> Result<(), Fault>
    requires apart { AreApart (in_hand made.now) }
    requires names { AllByRecursion (λ (f : MadeFile). IsUtf8 f.name) made.now }
    ensures written { OnOk result (AllWritten (in_hand made.now)
        (told_by (F.tells files.old) (F.told files.old))
        (told_by (F.tells files.new) (F.told files.new))) }
    ensures put { OnOk result (Took (K.taken out.old) (K.taken out.new) text.now) }
    ensures refused { IfErr result (λ f. WriteEnds (in_hand made.now)
        (outside (told_by (F.tells files.old) (F.told files.old)) (F.faults files.old)
        (F.last files.old) (K.taken out.old) (K.faults out.old))
        (outside (told_by (F.tells files.new) (F.told files.new)) (F.faults files.new)
        (F.last files.new) (K.taken out.new) (K.faults out.new)) text.now f) }
    ensures tells { F.tells files.new ≡ F.tells files.old }
{
    match write_made(made, files) {
        Ok(()) => put_text(text.as_bytes(), out),
        Err(fault) => Err(fault),
    }
}

// Generates a plan whose files are made, up to the line of its fault.
fn generate_made<F: Files, K: Sink>(
    alloc: Global,
    seed: &Seed,
    made: &[MadeFile],
    files: &mut F,
    out: &mut K,
) -> Result<(), Fault>
    requires made { map content_of made.now ≡ contents seed.now }
    requires names { AllByRecursion (λ (f : MadeFile). IsUtf8 f.name) made.now }
    ensures fine { OnOk result (Generated (told_by (F.tells files.old) (F.told files.old))
        (told_by (F.tells files.new) (F.told files.new)) (K.taken out.old) (K.taken out.new)
        seed.now) }
    ensures refused { IfErr result (λ f. Ends
        (outside (told_by (F.tells files.old) (F.told files.old)) (F.faults files.old)
        (F.last files.old) (K.taken out.old) (K.faults out.old))
        (outside (told_by (F.tells files.new) (F.told files.new)) (F.faults files.new)
        (F.last files.new) (K.taken out.new) (K.faults out.new)) seed.now f) }
{
    match sum_made(alloc, seed, made) {
        Ok(text) => match write_out(made, text.as_str(), files, out) {
            Ok(()) => Ok(()),
            Err(fault) => Err(fault),
        },
        Err(fault) => Err(fault),
    }
}

/// Generates a plan: writes its seven files, in their order, and puts the summary of their run by
/// one caller. What is written is what was read and served before, in memory.
///
/// - `Ok`: the seven files hold exactly their bytes, no other name was touched, and the sink took
///   the summary of the one run that is read from these very files.
/// - `WriteFault`: the write of that file failed; it was the last call on the files, and their count
///   of faults rose. The files before it are written whole, no later one is touched. Or, with the
///   sink's number, the sink failed while it took the summary.
/// - `Memory`: memory ran out, before anything was written or at the write of a file.
/// - Any other fault: the seven files are no files of a run; reading them in memory ends by that
///   fault, and nothing is written.
///
/// With any fault the sink takes its one line, or a front of it where it fails; but where it failed
/// under the summary, it took a front of that, and nothing more is put. No file is read. The call
/// does not wait, and always returns.
pub fn generate<F: Files, K: Sink>(
    alloc: Global,
    seed: &Seed,
    files: &mut F,
    out: &mut K,
) -> Result<(), Fault>
    ensures fine { OnOk result (Generated (told_by (F.tells files.old) (F.told files.old))
        (told_by (F.tells files.new) (F.told files.new)) (K.taken out.old) (K.taken out.new)
        seed.now) }
    ensures refused { IfErr result (λ f. Refusal
        (outside (told_by (F.tells files.old) (F.told files.old)) (F.faults files.old)
        (F.last files.old) (K.taken out.old) (K.faults out.old))
        (outside (told_by (F.tells files.new) (F.told files.new)) (F.faults files.new)
        (F.last files.new) (K.taken out.new) (K.faults out.new)) seed.now f) }
{
    let made = match make_files(alloc, seed) {
        Ok(made) => made,
        Err(_) => {
            report_fault(seed.name(), &Fault::Memory, out);
            return Err(Fault::Memory);
        }
    };
    match generate_made(alloc, seed, &made, files, out) {
        Ok(()) => Ok(()),
        Err(fault) => {
            report_fault(name_or(&made, fault.file().0, seed.name()), &fault, out);
            Err(fault)
        }
    }
}
