//! Tests alone: an administrator changes a whole target, and its hosts are told and read the logs.
//! Each event, status and byte is worked from the public structures.
#![tactic(auto)]

#[cfg(test)]
mod admin;
#[cfg(test)]
mod edits;
#[cfg(test)]
mod tests;
