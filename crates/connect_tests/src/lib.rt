//! Tests alone: fabrics commands on a small tree as tables of rows, each with its status, its result, its SQ identifier
//! and whether it is published, by the rules.
#![tactic(auto)]

#[cfg(test)]
mod calls;
#[cfg(test)]
mod folders;
#[cfg(test)]
mod rows;
#[cfg(test)]
mod tests;
