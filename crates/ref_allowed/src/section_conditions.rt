//! What a step asks of a read section.
ghost use Rattle.std.specs.Prelude.{◌≡◌, ◌↔◌, ◌<◌, ℕ, true, IsTrue};
ghost use Rattle.ref_state.specs.State.{view, is_open, Reads, Shows};
ghost use Rattle.ref_state.specs.Steps.{has_none};

use ref_state::state::{Editor, LoadedMode, Section, State, View};

/// No section of the seat is open.
pub fn is_out(section: &Section) -> bool
    ensures { IsTrue result ↔ (section.now ≡ Section.Out) }
{
    matches!(section, Section::Out)
}

/// A section of the seat is open.
pub fn is_entered(section: &Section) -> bool
    ensures { result ≡ is_open section.now }
{
    !matches!(section, Section::Out)
}

/// No mode is in hand.
pub fn is_not_loaded(loaded: &LoadedMode) -> bool
    ensures { IsTrue result ↔ (loaded.now ≡ LoadedMode.NotLoaded) }
{
    matches!(loaded, LoadedMode::NotLoaded)
}

/// The serial shows the disk.
pub fn shows(editor: &Editor, serial: u32, disk: u32) -> bool
    ensures { IsTrue result ↔ Shows editor.now serial disk }
{
    let i = serial as usize;
    if i < editor.confs.len() {
        editor.confs.at(i).at_or(disk as usize, 0) != 0
    } else {
        false
    }
}

fn may_read(view: &View) -> bool
    ensures { IsTrue result ↔ ((s : ℕ) × Reads view.now s) }
{
    matches!(view.section, Section::Placed(_))
}

/// The section has its place, and its serial shows the disk.
pub fn section_shows(editor: &Editor, view: &View, disk: u32) -> bool
    ensures { IsTrue result ↔ ((s : ℕ) × Reads view.now s × Shows editor.now s disk) }
{
    match &view.section {
        Section::Placed(e) => shows(editor, e.serial, disk),
        _ => false,
    }
}

/// A section is open without its place, and a place is left.
pub fn may_draw(view: &View) -> bool
    ensures { IsTrue result ↔ ((view.now.section ≡ Section.In) × (0 < view.now.left)) }
{
    matches!(view.section, Section::In) && view.left > 0
}

/// The section has its place, and the word is there.
pub fn may_load_row(s: &State, view: &View, word: u32) -> bool
    ensures { IsTrue result ↔ ((word < s.now.rows) × ((r : ℕ) × Reads view.now r)) }
{
    word < s.rows && may_read(view)
}

/// A section is open, and no mode is in hand.
pub fn may_leave(view: &View) -> bool
    ensures { IsTrue result ↔ ((is_open view.now.section ≡ true)
        × (view.now.loaded ≡ LoadedMode.NotLoaded)) }
{
    is_entered(&view.section) && is_not_loaded(&view.loaded)
}

/// The section has its place and has got no hold yet.
pub fn has_no_hold(section: &Section) -> bool
    ensures { result ≡ has_none section.now }
{
    match section {
        Section::Placed(e) => !e.got,
        _ => false,
    }
}
