//! The states of the sequential target that the calls of a running table reach, and the laws that
//! such a table asks of them.
//!
//! A call of the table is a tag: its kind, its caller and a number. What callers bring to a run
//! (entries and data of capsules, edits of lines) makes calls of the target of them, so a list of
//! tags gives a state of the target. The laws say of each such state what a queue's worker and the
//! editor rely on when others are at work beside them: which calls leave the words of the
//! configuration, on what the outcome of an edit and of a fabrics command depends, and that a command
//! is held on a disk that the words show. No code runs here. After Linux nvmet (core.c, configfs.c),
//! where the same facts hold by a lock, RCU and references.
#![tactic(auto)]

pub mod law;
pub mod parts;
