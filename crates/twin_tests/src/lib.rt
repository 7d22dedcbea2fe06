//! Tests alone: sections, spare sides, holds and drains on a twin table, one step after the other.
#![tactic(auto)]

#[cfg(test)]
mod hold_rows;
#[cfg(test)]
mod section_rows;
#[cfg(test)]
mod wait_rows;
