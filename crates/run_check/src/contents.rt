// The bytes of a file, within its limit.
ghost use Rattle.std.specs.Prelude.{◌≡◌, ◌≤◌, length, IfErr, IfOk};
ghost use Rattle.run_inputs.specs.Views.{IsEarlier, seen};
ghost use Rattle.run_outcomes.specs.Outsides.{HoldsOf, told_by};
ghost use Rattle.run_inputs.specs.Stages.{ContentRefused};

use plan_files::{FileError, Files, What};
use run_outcomes::{Fault, FileNo};
use std::alloc::Global;

/// How many bytes a journal has at most: 4 MiB.
pub const MAX_JOURNAL_BYTES: usize = 4_194_304;

// Reads a file of at most `limit` bytes whole.
pub(crate) fn read_content<F: Files>(
    alloc: Global,
    name: &str,
    limit: usize,
    file: FileNo,
    files: &mut F,
) -> Result<Vec<u8>, Fault>
    ensures told { IfOk result (λ v. HoldsOf (told_by (F.tells files.old) (F.told files.old))
        name.now v.items) }
    ensures short { IfOk result (λ v. length v.items ≤ limit) }
    ensures refused { IfErr result (λ f. ContentRefused limit file name.now
        (seen (F.tells files.old) (F.told files.old) (F.faults files.old) (F.last files.old))
        (seen (F.tells files.new) (F.told files.new) (F.faults files.new) (F.last files.new))
        f) }
    ensures later { IsEarlier
        (seen (F.tells files.old) (F.told files.old) (F.faults files.old) (F.last files.old))
        (seen (F.tells files.new) (F.told files.new) (F.faults files.new)
        (F.last files.new)) }
{
    let mut bytes = Vec::new(alloc);
    match files.read(name, limit, &mut bytes) {
        Ok(()) => Ok(bytes),
        Err(FileError::Failed) => Err(Fault::ReadFault { file }),
        Err(FileError::TooLong) => Err(Fault::Limit {
            file,
            what: What::Bytes,
            count: bytes.len() as u64,
        }),
        Err(FileError::Memory) => Err(Fault::Memory),
    }
}
