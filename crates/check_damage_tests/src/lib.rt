//! Tests alone: two thousand damages of a finished run, each judged by the check and by a plain slow
//! checker that shares nothing with it: its own small target, and every question answered by a look
//! at all records.
#![tactic(auto)]

#[cfg(test)]
mod dice;
#[cfg(test)]
mod random_damages;
#[cfg(test)]
mod slow_checker;
#[cfg(test)]
mod slow_files;
#[cfg(test)]
mod slow_places;
#[cfg(test)]
mod slow_seats;
#[cfg(test)]
mod slow_target;
#[cfg(test)]
mod tests;
