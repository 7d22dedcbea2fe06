//! Pages that are written from a look at a configuration, in place and without memory.
//!
//! Three forms serve all pages. A page of fixed size is a table of fields over zeros (`put` and its
//! kin). A page of any length, of which a command wants the part from an offset on, is written by a
//! cursor (`emit`): each call adds bytes at a position of the page, and what lies outside the part is
//! passed over, so no page is built to be cut. A list of NSIDs (`list_part`) is one walk over the
//! NSIDs of the look. The pages are those of NVMe Base 2.0, Identify and Get Log Page.
#![tactic(auto)]

mod fields;
mod law;
mod list;
mod walk;
mod window;

pub use fields::{clear, put, put_byte, put_half, put_long, put_word};
pub use law::{listed_nsids, page_shows_its_fields};
pub use list::{Choice, chosen, count_chosen};
pub use walk::{MOST_LISTED, PAGE, emit_nsids, list_part};
pub use window::{emit, emit_word};
