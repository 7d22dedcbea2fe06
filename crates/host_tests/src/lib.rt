//! Tests alone: the host's files and standard output, which no contract can tell of, over real files
//! in a temporary folder and over readers, writers and disks that fail where a test says so.
#![tactic(auto)]

#[cfg(test)]
mod fakes;
#[cfg(test)]
mod flawed;
#[cfg(test)]
mod overwrite_tests;
#[cfg(test)]
mod piece_tests;
#[cfg(test)]
mod real_tests;
