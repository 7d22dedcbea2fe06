//! What the readers of text files share.
//!
//! A text is cut at its first line end or space, and the parts are its lines and words as std's split has them. Beside the
//! code stand the definitions by which a reader is exact: what it answers is what the file gives, unless memory runs out.
#![tactic(auto)]

mod cuts;
mod lines;
#[cfg(test)]
mod tests;

pub use cuts::cut_at;
pub use lines::{cut_line, is_passed_over};
