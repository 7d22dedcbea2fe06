//! One read section of a running table in which all is asked: its look is compared with another,
//! its words with a list, and a command is admitted there.
//!
//! Promises: the section is entered, gets its place by a bare call, and is left; its seat rests
//! after it as before. It holds nothing, and takes no memory.
#![tactic(auto)]

pub mod comparing;
