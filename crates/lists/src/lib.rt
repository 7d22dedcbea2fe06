//! The list that contracts see as a list: a `Vec` with the list of its items for a model.
//!
//! Promises: each call is one equation over the items, by the standard library's words for lists. A
//! call that is refused memory leaves the list as it was.
#![tactic(auto)]

pub mod items;
#[cfg(test)]
mod tests;
