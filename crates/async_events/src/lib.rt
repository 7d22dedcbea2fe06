//! The events of a controller: which notices of changes are pending, the event requests that wait for
//! them, and the features that configure them.
//!
//! What a controller should be told is a fold over the history of the target, one entry after another
//! (`specs/Notices.antt`). The code keeps no history: it compares the serials of last changes, which a
//! look tells, with the serial up to which it has looked (`specs/Stamps.antt`). The laws of `law.rt`
//! say that both agree wherever the code is asked. After Linux nvmet (core.c, admin-cmd.c) and NVMe
//! Base 2.0, Asynchronous Event Request and Asynchronous Event Configuration. Nothing takes memory.
#![tactic(auto)]

mod events;
mod feature;
mod kinds;
mod law;
mod waits;

pub use events::{ANA_NOTICE, Events, NAMESPACE_NOTICE, REQUEST_LIMIT};
pub use feature::{
    ASYNC_EVENTS, GET_FEATURES, KEEP_ALIVE_TIMER, NUMBER_OF_QUEUES, QUEUES, SET_FEATURES, features,
};
pub use kinds::{Kind, Log};
pub use law::{changed_since_read, events_are_the_fold, own_calls_are_the_fold, set_is_got};
pub use waits::{MOST_WAITING, Waiting};
