// Plans as values.
use lists::items::Items;
use mem_bdev::{DiskLine, Name};

/// A queue of the plan: the port that it comes through, and its two files.
#[derive(Debug, Drop)]
pub struct QueueLine {
    /// The number of the port, 0 to 65535.
    pub port: u16,
    /// The name of the capsule file that is read.
    pub capsules: Name,
    /// The name of the response file that is written.
    pub responses: Name,
}

/// What one line of a plan says.
#[derive(Debug, Drop)]
pub enum Item {
    /// The simple plan.
    Simple,
    /// A disk.
    Disk(DiskLine),
    /// The file of the configuration.
    Config(Name),
    /// The file of the script.
    Script(Name),
    /// The file of the journal.
    Journal(Name),
    /// A queue.
    Queue(QueueLine),
}

/// What a plan says.
#[derive(Drop)]
pub struct Plan {
    /// Whether it is the simple plan: one disk, one queue, a start that needs no other file.
    pub simple: bool,
    /// The disks, in the plan's order.
    pub disks: Items<DiskLine>,
    /// The file of the configuration.
    pub config: Option<Name>,
    /// The file of the script.
    pub script: Option<Name>,
    /// The file of the journal.
    pub journal: Option<Name>,
    /// The queues, in the plan's order.
    pub queues: Items<QueueLine>,
}
