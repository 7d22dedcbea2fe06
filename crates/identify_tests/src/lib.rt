//! Tests alone: the pages of Identify over a small configuration, each compared with bytes that were
//! worked by hand at the offsets of the public structures.
#![tactic(auto)]

#[cfg(test)]
mod page_rows;
#[cfg(test)]
mod status_rows;
