// What a passed limit counts.
ghost use Rattle.std.specs.Prelude.{◌≡◌};
ghost use Rattle.plan_files.specs.Words.{word_of};

use std::fmt;

/// What a passed limit counts.
#[derive(Clone, Copy, Debug, PartialEq, Eq)]
pub enum What {
    /// The bytes of one file.
    Bytes,
    /// The lines of a script.
    Lines,
    /// The capsules of a queue file.
    Capsules,
    /// The bytes of data of one capsule.
    Data,
    /// The bytes of room for the responses of one queue file.
    Output,
    /// The bytes of all queue files.
    AllInput,
    /// The bytes of room for the responses of all queue files.
    AllOutput,
    /// The disks of a plan.
    Disks,
    /// The bytes of one disk.
    DiskBytes,
    /// The bytes of all disks.
    AllDiskBytes,
    /// The queues of a plan.
    Queues,
}

impl What {
    /// The word that stands for it in the line of a passed limit.
    pub fn word(&self) -> &'static str
        ensures { result.now ≡ word_of self.now }
    {
        match self {
            What::Bytes => "bytes",
            What::Lines => "lines",
            What::Capsules => "capsules",
            What::Data => "data",
            What::Output => "output",
            What::AllInput => "all-input",
            What::AllOutput => "all-output",
            What::Disks => "disks",
            What::DiskBytes => "disk-bytes",
            What::AllDiskBytes => "all-disk-bytes",
            What::Queues => "queues",
        }
    }
}

impl fmt::Display for What {
    fn fmt<W: fmt::Write>(&self, f: &mut fmt::Formatter<W>) -> fmt::Result {
        f.write_str(self.word())
    }
}
