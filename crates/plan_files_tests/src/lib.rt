//! Tests alone: plans and capsule files at each boundary with their exact answers, and random
//! mutations of valid files, each compared with what a plain slow reader answers, which shares no
//! code with the readers.
#![tactic(auto)]

#[cfg(test)]
mod capsule_rows;
#[cfg(test)]
mod mutations;
#[cfg(test)]
mod outside;
#[cfg(test)]
mod plan_rows;
#[cfg(test)]
mod slow_capsules;
#[cfg(test)]
mod slow_plan;
#[cfg(test)]
mod tests;
#[cfg(test)]
mod texts;
