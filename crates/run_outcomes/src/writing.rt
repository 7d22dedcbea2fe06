ghost use Rattle.std.specs.Prelude.{◌≡◌, ◌≤◌, ◌∷◌, [], IsUtf8};
ghost use Rattle.run_outcomes.specs.Outsides.{told_by, files_view};
ghost use Rattle.run_outcomes.specs.Written.{ToWrite, Writes};

use crate::faults::Fault;
use crate::numbers::FileNo;
use mem_bdev::Name;
use plan_files::{Files, WriteError};

/// Writes one file of a run: its name holds exactly these bytes after it, and no other name is
/// touched. Where the write fails, or there is no memory for it, the fault says so.
pub fn write_file<F: Files>(
    file: FileNo,
    name: &Name,
    bytes: &[u8],
    files: &mut F,
) -> Result<(), Fault>
    requires { IsUtf8 name.now }
    ensures writes { Writes ((record { file = file; name = name.now; bytes = bytes.now }) ∷ [])
        (files_view (told_by (F.tells files.old) (F.told files.old)) (F.faults files.old)
        (F.last files.old))
        (files_view (told_by (F.tells files.new) (F.told files.new)) (F.faults files.new)
        (F.last files.new)) result }
    ensures tells { F.tells files.new ≡ F.tells files.old }
    ensures later { F.faults files.old ≤ F.faults files.new }
{
    let name = name.as_text().unwrap();
    match files.write(name, bytes) {
        Ok(()) => Ok(()),
        Err(WriteError::Failed) => Err(Fault::WriteFault { file }),
        Err(WriteError::Memory) => Err(Fault::Memory),
    }
}
