//! Tests alone: pages, logs and events over a small configuration of plain arrays, each compared with
//! bytes that were worked by hand from the public structures.
#![tactic(auto)]

#[cfg(test)]
mod ana_rows;
#[cfg(test)]
mod changed_rows;
#[cfg(test)]
mod event_rows;
mod expected;
#[cfg(test)]
mod list_rows;
#[cfg(test)]
mod log_rows;
mod world;

pub use expected::{Fields, first_uncounted, first_wrong};
pub use world::{NONE, OFF, PORT, SUBSYSTEM, World, WorldLook, controller};
