//! Tests alone: runs of the executable concurrency core. Tables of steps with the answer of each,
//! and 10,000 random allowed steps. After each step the core is looked at by a plain check of
//! soundness, which shares no code with the core.
#![tactic(auto)]

#[cfg(test)]
mod counts;
#[cfg(test)]
mod driver;
#[cfg(test)]
mod fingerprint;
#[cfg(test)]
mod grace;
#[cfg(test)]
mod random_tests;
#[cfg(test)]
mod references;
#[cfg(test)]
mod soundness;
#[cfg(test)]
mod table_tests;
