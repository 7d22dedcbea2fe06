//! The configuration JSON of nvmetcli: the edits that a text brings, and the text of a tree.
#![tactic(auto)]

mod count;
mod edits;
mod elements;
mod error;
mod kinds;
mod laws;
mod loading;
mod members;
mod saving;

pub use edits::Edits;
pub use error::{JsonError, Pointer};
pub use laws::{read_edits_fit, saved_hosts_are_made, saved_tree_is_read};
pub use link_rules::{Edit, LinkEdit};
pub use loading::{Loaded, load};
pub use saving::save;
