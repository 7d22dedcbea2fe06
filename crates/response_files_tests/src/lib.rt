//! Tests alone: response files and journals at each boundary with their exact answers, and random
//! mutations of valid files, each compared with what a plain slow reader answers, which shares no
//! code with the readers.
#![tactic(auto)]

#[cfg(test)]
mod journal_rows;
#[cfg(test)]
mod mutations;
#[cfg(test)]
mod slow_journal;
#[cfg(test)]
mod slow_responses;
#[cfg(test)]
mod tests;
#[cfg(test)]
mod texts;
