//! Tests alone: threads on one running table while the editor publishes. What they answer is the
//! same whatever the schedule.
#![tactic(auto)]

#[cfg(test)]
mod publish_tests;
