//! Laws alone: what the serials of last changes show a controller of any edits is what the rules of
//! notices make of these edits.
//!
//! A change that an edit tells is a mark of the controller at given positions (`specs/Marks.antt`).
//! The serials that stand beside the tree are a fold of these marks, so what a controller shows by
//! comparing serials, however many edits came between two calls of its own, is the fold of the event
//! rules over them, and the changed list holds exactly what changed. These laws are of stamps and
//! marks; that a target's whole history is such a fold isn't said here. After Linux nvmet (core.c)
//! and NVMe Base 2.0, Asynchronous Event Request.
#![tactic(auto)]

mod law;

pub use law::{edits_name_in_range, notices_are_the_fold, stamps_are_marks};
