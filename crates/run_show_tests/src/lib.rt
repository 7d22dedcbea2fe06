//! Tests alone: plans shown over files in memory, each with its status, its line or text, and what it
//! leaves of each file. The texts are worked from the format of nvmetcli's JSON.
#![tactic(auto)]

#[cfg(test)]
mod rows;
#[cfg(test)]
mod tests;
