//! Tests alone: threads that read, get and put on a twin table while the editor publishes and
//! drains. What they answer is the same whatever the schedule.
#![tactic(auto)]

#[cfg(test)]
mod drain_replay;
#[cfg(test)]
mod drain_threads;
#[cfg(test)]
mod reader_threads;
#[cfg(test)]
mod replay_threads;
