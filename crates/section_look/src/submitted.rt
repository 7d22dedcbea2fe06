//! What a submitted command gets.
use io_commands::Job;
use percpu_ref::holds::Hold;

/// What a submitted command of an I/O queue gets in its section.
pub enum Submitted<S> {
    /// It is refused with this status, and holds nothing.
    Refused(u16),
    /// It is held: what it does, and its hold on the disk of its namespace, which has to be put
    /// once its Execute is placed.
    Held(Job, Hold<S>),
}
