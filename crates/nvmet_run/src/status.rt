ghost use Rattle.std.specs.Prelude.{◌≡◌};

use configfs_tree::Errno;
use plan_files::What;
use run_outcomes::{At, Fault, FileNo};
use run_verdicts::Field;

/// How a command of the program ended.
#[derive(Debug, Drop)]
pub enum Status {
    /// All was served, written and put.
    Fine,
    /// The words are no command.
    Usage,
    /// A file is malformed, at its first bad place.
    Malformed {
        file: FileNo,
        at: At,
    },
    /// A file could not be read.
    ReadFault {
        file: FileNo,
    },
    /// A file could not be written, or the sink did not take the text of a run that ended well.
    WriteFault {
        file: FileNo,
    },
    /// Memory ran out.
    Memory,
    /// A counted quantity of a file passes its limit.
    Limit {
        file: FileNo,
        what: What,
        count: u64,
    },
    /// An edit of the configuration is refused: the first one, by its number from 1.
    ConfigRefused {
        edit: u64,
        errno: Errno,
    },
    /// The records of a finished run are not those of the sequential target: the first place where
    /// they differ, and the field.
    NotLegal {
        place: u32,
        field: Field,
    },
}

impl Status {
    ghost use Rattle.nvmet_run.specs.Codes.{code_of, status_of};

    /// The exit status: 0 to 8 in the order of the variants.
    pub fn code(&self) -> u8
        ensures { result ≡ code_of self.now }
    {
        match self {
            Status::Fine => 0,
            Status::Usage => 1,
            Status::Malformed { .. } => 2,
            Status::ReadFault { .. } => 3,
            Status::WriteFault { .. } => 4,
            Status::Memory => 5,
            Status::Limit { .. } => 6,
            Status::ConfigRefused { .. } => 7,
            Status::NotLegal { .. } => 8,
        }
    }

    /// The status of a run that ended by a fault.
    pub fn of(fault: Fault) -> Status
        ensures { result ≡ status_of fault }
    {
        match fault {
            Fault::Malformed { file, at } => Status::Malformed { file, at },
            Fault::ReadFault { file } => Status::ReadFault { file },
            Fault::WriteFault { file } => Status::WriteFault { file },
            Fault::Memory => Status::Memory,
            Fault::Limit { file, what, count } => Status::Limit { file, what, count },
            Fault::ConfigRefused { edit, errno } => Status::ConfigRefused { edit, errno },
        }
    }
}
