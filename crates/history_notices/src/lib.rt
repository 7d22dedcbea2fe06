//! Laws alone: wherever a legal history leads the sequential target, its admin queues answer by the
//! rules of notices, folded over that history.
//!
//! What each entry of a history is to the controller of an admin queue (`specs/Marks.antt`), the
//! notices and the changed list that the rules make of it from the queue's Connect on, and the count
//! of ANA changes. The target keeps no history for that: it compares the serials of last changes. The
//! laws say that polls, event requests, log pages and features answer what the folds say. After Linux
//! nvmet (core.c, admin-cmd.c) and NVMe Base 2.0, Asynchronous Event Request.
#![tactic(auto)]

mod law;

pub use law::{histories_begin, logs_are_by_history, notices_are_by_history};
