use configfs_tree::Errno;

/// What an edit of a script was answered.
#[derive(Clone, Copy, Debug, PartialEq, Eq)]
pub enum Answer {
    /// It was made.
    Accepted,
    /// It was refused, and changed nothing.
    Refused(Errno),
}

/// A line of a journal: a call of the editor at its place.
#[derive(Clone, Copy, Debug, PartialEq, Eq)]
pub enum JournalLine {
    /// An edit, with the number of its line in the script, from 1.
    Edit {
        place: u32,
        line: u32,
        answer: Answer,
    },
    /// The end of a drain, with the number of the line that began it.
    Done {
        place: u32,
        line: u32,
    },
}
