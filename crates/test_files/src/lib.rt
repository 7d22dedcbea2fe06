//! What tests over real files share: temporary folders and contents. Nothing that ships stands on it.
#![tactic(auto)]

mod content;
mod folder;

pub use content::{LENGTHS, make_content};
pub use folder::Folder;
