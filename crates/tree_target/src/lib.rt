//! The sequential target over the whole configuration tree: one thread, one call at a time.
//!
//! Its model is one plain record: the configuration with the holders of disks, the controllers, the
//! blocks of each disk, the bindings of queues, the held commands, the events of controllers, the
//! serials of last changes and the history. Its step (where a call is lawful, what it replies, the
//! bytes that the host gets, the target after it) is a function of the record and the call alone.
//! Each call of the program's `Target` replies what the model replies and stands for the model's
//! next state, from every state that it stood for before. After Linux nvmet (core.c, configfs.c,
//! io-cmd-bdev.c).
#![tactic(auto)]

mod admin;
mod at_once;
mod calls;
mod commands;
mod editor;
mod edits;
mod law;
mod look;
mod plans;
mod queues;
mod simple;
#[cfg(test)]
mod simple_tests;
mod start;
mod target;
#[cfg(test)]
mod tests;

pub use calls::{Call, Command, Reply};
pub use edits::{Space, disables};
pub use law::{
    bindings_are_own, edits_are_as_computed, edits_depend_on_the_tree, edits_leave_attached,
    held_changes, held_is_shown, held_keeps_holder, held_replies, lawful_calls_are_legal,
    plain_at_desk, queues_leave_desk, simple_stands, unpublished_leave_fixed,
};
pub use look::TreeLook;
pub use plan_files::MAX_QUEUES;
pub use plans::plans_fit_targets;
pub use simple::simple_is_edited;
pub use start::LoadError;
pub use target::Target;
