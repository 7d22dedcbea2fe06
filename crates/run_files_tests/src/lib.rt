//! Tests alone: whole runs over real files in a temporary folder, with the host's files.
#![tactic(auto)]

#[cfg(test)]
mod records;
#[cfg(test)]
mod tests;
