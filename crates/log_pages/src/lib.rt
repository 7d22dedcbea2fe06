//! Get Log Page on a connected admin queue: the Changed Namespace List (04h) and the Asymmetric
//! Namespace Access log (0Ch) of NVMe Base 2.0.
//!
//! Any part of a page is written in place, from any offset that is a multiple of 4 on, with zeros past
//! the end of the page; no page is built to be cut. What a successful read with Retain Asynchronous
//! Event 0 clears is cleared in the controller's events. Nothing takes memory.
#![tactic(auto)]

mod law;
mod log;

pub use law::changed_list_is_by_history;
pub use log::{ANA_LOG, CHANGED_NAMESPACES, MOST_READ, changed_page, check_log, write_log};
