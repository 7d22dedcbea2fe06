//! What a step asks of the two sides of words and of their grace period.
ghost use Rattle.std.specs.Prelude.{◌≡◌, ◌≢◌, ◌↔◌, ◌<◌, ◌+◌, ℕ, length, IsTrue, slice_index};
ghost use Rattle.ref_state.specs.State.{view, side, AllPassed, drain, mark};

use lists::items::Items;
use ref_state::state::{Editor, Mark, Phase, State, View};

fn has_passed(marks: &Items<Mark>, seat: u32) -> bool
    ensures { IsTrue result ↔ (mark marks.now seat ≡ Mark.Passed) }
{
    matches!(marks.at_or(seat as usize, Mark::Unseen), Mark::Passed)
}

/// The grace period is over: each seat has been outside a section since it began.
pub fn have_passed(marks: &Items<Mark>, seats: u32) -> bool
    ensures { IsTrue result ↔ AllPassed seats marks.now }
{
    for seat in 0..seats {
        if !has_passed(marks, seat) {
            return false;
        }
    }
    true
}

/// The two phases are the same.
pub fn is_phase(one: Phase, other: Phase) -> bool
    ensures { IsTrue result ↔ (one ≡ other) }
{
    match one {
        Phase::Live => matches!(other, Phase::Live),
        Phase::Killed => matches!(other, Phase::Killed),
        Phase::Folded => matches!(other, Phase::Folded),
        Phase::Drained => matches!(other, Phase::Drained),
        Phase::Armed => matches!(other, Phase::Armed),
    }
}

/// The phase of a disk, live where there is none.
pub fn phase_of(editor: &Editor, disk: usize) -> Phase
    ensures { result ≡ (drain editor.now disk).phase }
{
    if disk < editor.drains.len() {
        editor.drains.at(disk).phase
    } else {
        Phase::Live
    }
}

/// The editor's seat may write a word of the spare side.
pub fn may_store(s: &State, seat: u32, word: u32) -> bool
    ensures { IsTrue result ↔ ((seat ≡ 0) × (word < s.now.rows)
        × AllPassed s.now.seats s.now.editor.marks) }
{
    seat == 0 && word < s.rows && have_passed(&s.editor.marks, s.seats)
}

// A word of the spare side, or 0 where there is none.
fn spare_word(s: &State, word: usize) -> u64
    ensures { result ≡ slice_index (side s.now (s.now.serial + 1)) word }
{
    let spare = (1 - s.serial % 2) as usize;
    if spare < s.sides.len() {
        s.sides.at(spare).at_or(word, 0)
    } else {
        0
    }
}

// The spare side doesn't show the disk, or it is live.
fn spare_allows(s: &State, disk: usize) -> bool
    ensures { IsTrue result ↔ (slice_index (side s.now (s.now.serial + 1)) disk ≢ 0
        → (drain s.now.editor disk).phase ≡ Phase.Live) }
{
    spare_word(s, disk) == 0 || is_phase(phase_of(&s.editor, disk), Phase::Live)
}

// Each disk that the spare side shows is live.
fn spare_shows_live(s: &State) -> bool
    ensures { IsTrue result ↔ ((d : ℕ) → d < length s.now.disks
        → slice_index (side s.now (s.now.serial + 1)) d ≢ 0 → (drain s.now.editor d).phase
        ≡ Phase.Live) }
{
    for d in 0..s.disks.len() {
        if !spare_allows(s, d) {
            return false;
        }
    }
    true
}

/// The editor's seat may publish the spare side.
pub fn may_publish(s: &State, seat: u32, view: &View) -> bool
    ensures { IsTrue result ↔ ((seat ≡ 0) × (0 < view.now.left)
        × AllPassed s.now.seats s.now.editor.marks × ((d : ℕ) → d < length s.now.disks
        → slice_index (side s.now (s.now.serial + 1)) d ≢ 0 → (drain s.now.editor d).phase
        ≡ Phase.Live)) }
{
    seat == 0 && view.left > 0 && have_passed(&s.editor.marks, s.seats) && spare_shows_live(s)
}
