//! Finished entries.
ghost use Rattle.std.specs.Prelude.{◌≡◌, position};
ghost use Rattle.ref_state.specs.Steps.{is_at};

use lists::items::Items;
use ref_state::state::Entry;

/// Where the entry of a place stands, if it does.
pub fn entry_index(entries: &Items<Entry>, place: u32) -> Option<usize>
    ensures { result ≡ position (is_at place) entries.now }
{
    entries.as_slice().iter().position(|e| e.place == place)
}
