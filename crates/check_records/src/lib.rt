//! The records of a finished run, made again on the one sequential target.
//!
//! A record of a response file tells a call of its queue, a line of the journal one of the editor
//! (`specs/Told.antt`). Laid in the order of places they are made again, one after another, on one
//! target, for any number of queues and any interleaving: what stands at a place must be its
//! caller's next call there, in its front's turn and with no final poll too early, and what it
//! tells what the target replies and gives. `lowest_bad` names the lowest place that is missing,
//! doubled or out of range. Where none is, `judge` makes all places again, by `step_place` one after another,
//! and looks whether a caller has a call left: the run is right, or its first fault by the
//! definitions of `run_verdicts` is named. Work per place doesn't grow with the records; data are
//! compared where they stand in the response file. After Linux nvmet (core.c, fabrics-cmd.c, configfs.c).
#![tactic(auto)]

mod calls;
mod cursor;
mod differences;
mod editor_steps;
mod ending;
mod places;
mod queue_steps;
mod replay;
mod seats;
#[cfg(test)]
mod tests;

pub use cursor::{Cursor, Stage};
pub use differences::difference;
pub use editor_steps::EditCursor;
pub use ending::judge;
pub use places::lowest_bad;
pub use replay::step_place;
pub use run_verdicts::{Field, Verdict};
pub use seats::{Desk, Responses, Seat};
