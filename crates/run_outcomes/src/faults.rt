ghost use Rattle.std.specs.Prelude.{◌≡◌};
ghost use Rattle.run_outcomes.specs.declared.faults.Fault.TheVariants.{Memory};

use crate::numbers::{FileNo, PLAN};
use configfs_tree::Errno;
use nvmetcli_json::Pointer;
use plan_files::What;
use std::alloc::{AllocError, AllocFailed};

/// Where a file is malformed: a line counted from 1; the offset in bytes of a capsule; nowhere in
/// particular, as it is no JSON; or the member at a JSON pointer.
#[derive(Debug, Drop)]
pub enum At {
    Line(u32),
    Offset(u64),
    Json,
    Shape(Pointer),
}

/// Why a run did not end well.
#[derive(Debug, Drop)]
pub enum Fault {
    /// A file is malformed, at its first bad place.
    Malformed {
        file: FileNo,
        at: At,
    },
    /// A file could not be read.
    ReadFault {
        file: FileNo,
    },
    /// A file could not be written, or the sink did not take the text.
    WriteFault {
        file: FileNo,
    },
    /// Memory ran out.
    Memory,
    /// A counted quantity of a file passes its limit.
    Limit {
        file: FileNo,
        what: What,
        count: u64,
    },
    /// The first edit of the configuration that is refused, by its number from 1.
    ConfigRefused {
        edit: u64,
        errno: Errno,
    },
}

impl Fault {
    ghost use Rattle.run_outcomes.specs.Numbers.{file_of};

    /// The file of this fault; the plan for want of memory and for an edit that was refused, whose
    /// lines name none.
    pub fn file(&self) -> FileNo
        ensures { result ≡ file_of self.now }
    {
        match self {
            Fault::Malformed { file, .. }
            | Fault::ReadFault { file }
            | Fault::WriteFault { file }
            | Fault::Limit { file, .. } => *file,
            Fault::Memory | Fault::ConfigRefused { .. } => PLAN,
        }
    }
}

impl From<AllocError> for Fault {
    ghost from_gives = { λ _ e. e ≡ Memory };

    fn from(_e: AllocError) -> Fault {
        Fault::Memory
    }
}

impl<T: Drop> From<AllocFailed<T>> for Fault {
    ghost from_gives = { λ _ e. e ≡ Memory };

    fn from(_e: AllocFailed<T>) -> Fault {
        Fault::Memory
    }
}
