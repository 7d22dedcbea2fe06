//! What is saved of a configuration in nvmetcli's JSON loads to it again.
#![tactic(auto)]

mod laws;
mod reload;
#[cfg(test)]
mod rows;
#[cfg(test)]
mod tests;
mod typed;

pub use laws::{saved_configuration_loads_again, saved_tree_loads_again};
pub use reload::{has_disks_of, reload_tree};
pub use typed::certify_types;
