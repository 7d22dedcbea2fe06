//! What a get, a put, or a load of the mode asks of a seat.
ghost use Rattle.std.specs.Prelude.{◌≡◌, ◌↔◌, ◌<◌, length, true, IsTrue};
ghost use Rattle.std.specs.List.{list_any};
ghost use Rattle.ref_state.specs.State.{view, is_open};
ghost use Rattle.ref_allowed.specs.HoldTests.{passes};
ghost use Rattle.ref_state.specs.Steps.{MayLoad, MayAdd, Some_where, is_on, may_put, is_held};

use crate::holds::HoldTest;
use crate::section_conditions::{has_no_hold, is_entered, section_shows};
use lists::items::Items;
use ref_state::kinds::Tag;
use ref_state::state::{Editor, Hold, LoadedMode, State, View};

fn is_live_on(loaded: &LoadedMode, disk: u32) -> bool
    ensures { IsTrue result ↔ (loaded.now ≡ LoadedMode.Live disk) }
{
    match loaded {
        LoadedMode::Live(d) => *d == disk,
        _ => false,
    }
}

fn is_killed_on(loaded: &LoadedMode, disk: u32) -> bool
    ensures { IsTrue result ↔ (loaded.now ≡ LoadedMode.Killed disk) }
{
    match loaded {
        LoadedMode::Killed(d) => *d == disk,
        _ => false,
    }
}

fn any_hold(holds: &Items<Hold>, test: &HoldTest) -> bool
    ensures { result ≡ list_any (passes test.now) holds.now }
{
    holds.as_slice().iter().any(|h| test.passes(h))
}

/// The mode of the disk may be loaded.
pub fn may_load_mode(s: &State, view: &View, disk: u32) -> bool
    ensures { IsTrue result ↔ ((disk < length s.now.disks) × (is_open view.now.section ≡ true)
        × MayLoad s.now.editor view.now disk) }
{
    (disk as usize) < s.disks.len() && is_entered(&view.section) && may_load(&s.editor, view, disk)
}

/// A hold on the disk is kept.
pub fn keeps_hold(view: &View, disk: u32) -> bool
    ensures { IsTrue result ↔ Some_where (is_on disk) view.now.holds }
{
    any_hold(&view.holds, &HoldTest::On(disk))
}

fn keeps_putable(view: &View, disk: u32) -> bool
    ensures { IsTrue result ↔ Some_where (may_put disk) view.now.holds }
{
    any_hold(&view.holds, &HoldTest::MayPut(disk))
}

/// The hold of the command on the disk is kept, its Execute not placed.
pub fn keeps_held(view: &View, call: Tag, disk: u32) -> bool
    ensures { IsTrue result ↔ Some_where (is_held call disk) view.now.holds }
{
    any_hold(&view.holds, &HoldTest::Held(call, disk))
}

fn may_load(editor: &Editor, view: &View, disk: u32) -> bool
    ensures { IsTrue result ↔ MayLoad editor.now view.now disk }
{
    section_shows(editor, view, disk) || keeps_hold(view, disk)
}

fn may_get(editor: &Editor, view: &View, disk: u32) -> bool
    ensures { IsTrue result ↔ MayAdd editor.now view.now disk true }
{
    section_shows(editor, view, disk) && has_no_hold(&view.section)
}

fn may_add(editor: &Editor, view: &View, disk: u32, up: bool) -> bool
    ensures { IsTrue result ↔ MayAdd editor.now view.now disk up }
{
    if up {
        may_get(editor, view, disk)
    } else {
        keeps_putable(view, disk)
    }
}

/// A get or a put on the own counter is allowed.
pub fn may_add_own(s: &State, view: &View, disk: u32, up: bool) -> bool
    ensures { IsTrue result ↔ ((view.now.loaded ≡ LoadedMode.Live disk)
        × MayAdd s.now.editor view.now disk up × (disk < length s.now.disks)) }
{
    is_live_on(&view.loaded, disk)
        && may_add(&s.editor, view, disk, up)
        && (disk as usize) < s.disks.len()
}

/// A get or a put on the shared count is allowed.
pub fn may_add_shared(s: &State, view: &View, disk: u32, up: bool) -> bool
    ensures { IsTrue result ↔ ((view.now.loaded ≡ LoadedMode.Killed disk)
        × MayAdd s.now.editor view.now disk up × (disk < length s.now.disks)) }
{
    is_killed_on(&view.loaded, disk)
        && may_add(&s.editor, view, disk, up)
        && (disk as usize) < s.disks.len()
}
