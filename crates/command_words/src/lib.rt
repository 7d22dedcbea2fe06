//! The words of the command line: a command and its values.
//!
//! `run PLAN`, `check PLAN`, `show PLAN` and `gen N NAME`, and no other words. There are no options.
//! The command line is this project's own.
#![tactic(auto)]

mod law;
mod numerals;
#[cfg(test)]
mod tests;
mod words;

pub use law::words_are_spelled;
pub use words::{
    MAX_GEN, MAX_GEN_NAME, Verb, Words, WordsError, is_gen_name, is_plan_name, plan_text,
    read_words, verb_of,
};
