use configfs_tree::Errno;
use io_commands::Job;
use sqe_cqe::Cqe;

/// A call by its numbers: those of its queue, from 1, and of its capsule in that queue's file, from
/// 0; or that of its line of the script, from 1.
#[derive(Clone, Copy, Debug, PartialEq, Eq)]
pub enum Call {
    /// A command is looked up and admitted.
    Submit { queue: u32, number: u32 },
    /// A held command's job is done.
    Execute { queue: u32, number: u32 },
    /// The queue asks for an event.
    Poll { queue: u32 },
    /// A fabrics command.
    Control { queue: u32, number: u32 },
    /// The edit of a line.
    Edit { line: u32 },
    /// The end of the drain that the edit of a line began.
    DrainEnd { line: u32 },
}

/// What a call replies.
#[derive(Clone, Copy, Debug, PartialEq, Eq)]
pub enum Reply {
    /// The command is held on its disk until its execute.
    Held,
    /// The command is complete.
    Answered(Cqe),
    /// An event request waits.
    Waiting,
    /// A poll found no event.
    NoEvent,
    /// The edit was made, or wrote what stood.
    Accepted,
    /// The edit was refused, and changed nothing.
    Errno(Errno),
    /// The drain has ended.
    Ended,
}

/// A command between its submit and its execute: its queue, its capsule's number in that queue's
/// file, from 0, its command identifier, and its job, which names its disk.
#[derive(Clone, Copy, Debug, PartialEq, Eq)]
pub struct Command {
    pub queue: u32,
    pub number: u32,
    pub cid: u16,
    pub job: Job,
}
