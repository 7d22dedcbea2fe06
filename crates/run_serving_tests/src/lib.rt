//! Tests alone: whole runs on a target without a configuration, with their journals, and with the
//! records of queues that aren't connected.
#![tactic(auto)]

#[cfg(test)]
mod tests;
