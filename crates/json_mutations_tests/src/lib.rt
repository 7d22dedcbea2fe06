//! Tests alone: two thousand mutated configurations, each read by `load` and by a plain slow
//! reader that shares nothing with it.
#![tactic(auto)]

#[cfg(test)]
mod edit_lines;
#[cfg(test)]
mod mutations;
#[cfg(test)]
mod slow_json;
#[cfg(test)]
mod slow_numbers;
#[cfg(test)]
mod slow_reader;
#[cfg(test)]
mod slow_shape;
#[cfg(test)]
mod tests;
#[cfg(test)]
mod texts;
