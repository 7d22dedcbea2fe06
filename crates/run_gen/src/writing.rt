// The files of a generated plan, written one after another.
ghost use Rattle.std.specs.Prelude.{◌≡◌, ◌≤◌, length, IsUtf8, IfOk, IfErr};
ghost use Rattle.std.specs.List.{AllByRecursion};
ghost use Rattle.gen_files.specs.declared.made.MadeFile.{MadeFile};
ghost use Rattle.run_outcomes.specs.Outsides.{told_by, files_view};
ghost use Rattle.run_outcomes.specs.Written.{AreApart, Writes};
ghost use Rattle.run_outcomes.specs.declared.faults.Fault.{Fault};
ghost use Rattle.run_gen.specs.Written.{HoldsJust, in_hand, name_or};

use gen_files::MadeFile;
use plan_files::{Files, MemFiles};
use run_outcomes::{Fault, FileNo, write_file};
use std::alloc::Global;

/// Writes these files, in their order.
pub fn write_made<F: Files>(made: &[MadeFile], files: &mut F) -> Result<(), Fault>
    requires apart { AreApart (in_hand made.now) }
    requires names { AllByRecursion (λ (f : MadeFile). IsUtf8 f.name) made.now }
    ensures writes { Writes (in_hand made.now)
        (files_view (told_by (F.tells files.old) (F.told files.old)) (F.faults files.old)
        (F.last files.old))
        (files_view (told_by (F.tells files.new) (F.told files.new)) (F.faults files.new)
        (F.last files.new)) result }
    ensures tells { F.tells files.new ≡ F.tells files.old }
    ensures later { F.faults files.old ≤ F.faults files.new }
{
    match made {
        [] => Ok(()),
        [first, rest @ ..] => {
            let number = FileNo(first.number);
            match write_file(number, &first.name, &first.bytes, files) {
                Ok(()) => write_made(rest, files),
                Err(fault) => Err(fault),
            }
        }
    }
}

/// Files in memory that hold just these.
pub fn in_memory(alloc: Global, made: &[MadeFile]) -> Result<MemFiles, Fault>
    requires apart { AreApart (in_hand made.now) }
    requires names { AllByRecursion (λ (f : MadeFile). IsUtf8 f.name) made.now }
    ensures just { IfOk result (λ m. HoldsJust (in_hand made.now)
        (told_by (⟦<MemFiles as Files>⟧.tells m) (⟦<MemFiles as Files>⟧.told m))) }
    ensures memory { IfErr result (λ f. f ≡ Fault.Memory) }
{
    let mut files = MemFiles::new(alloc, Vec::new(alloc));
    match write_made(made, &mut files) {
        Ok(()) => Ok(files),
        Err(_) => Err(Fault::Memory),
    }
}

/// The name of the file with this number, or another where none has it.
pub fn name_or<'a>(made: &'a [MadeFile], number: u32, name: &'a [u8]) -> &'a [u8]
    ensures { result.now ≡ name_or (in_hand made.now) number name.now }
{
    match made {
        [] => name,
        [first, rest @ ..] => {
            if first.number == number {
                first.name.as_bytes()
            } else {
                name_or(rest, number, name)
            }
        }
    }
}
