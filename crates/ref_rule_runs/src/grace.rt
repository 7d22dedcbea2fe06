//! Soundness of places, sides and sections.
use crate::counts::{EntryTest, entries};
use lists::items::Items;
use ref_rule::state::{By, Editor, Entry, Mark, Role, Section, State, View};

// How many serials are published up to the place.
fn serial_at(s: &State, place: u32) -> usize {
    s.editor
        .published
        .as_slice()
        .iter()
        .filter(|p| p.place <= place)
        .count()
}

// The place is that at which its serial was published.
fn is_published_at(s: &State, serial: u32, place: u32) -> bool {
    let i = (serial as usize).wrapping_sub(1);
    match s.editor.published.as_slice().get(i) {
        Some(p) => p.place == place,
        None => false,
    }
}

fn entry_agrees(s: &State, e: &Entry) -> bool {
    let publishes = matches!(e.by, By::Publish);
    e.place < s.given
        && e.serial as usize == serial_at(s, e.place)
        && is_published_at(s, e.serial, e.place) == publishes
}

fn view_agrees(s: &State, view: &View) -> bool {
    let own = match &view.section {
        Section::Placed(e) => entry_agrees(s, e),
        _ => true,
    };
    own && view.seen <= s.given && view.entries.as_slice().iter().all(|e| entry_agrees(s, e))
}

// It has seen the places of all that it keeps.
fn knows_its_own(view: &View) -> bool {
    let own = match &view.section {
        Section::Placed(e) => e.place < view.seen,
        _ => true,
    };
    own && view.entries.as_slice().iter().all(|e| e.place < view.seen)
        && view.holds.as_slice().iter().all(|h| h.place < view.seen)
}

fn places_left(s: &State) -> u64 {
    let mut sum: u64 = 0;
    for view in s.views.as_slice() {
        sum = sum.wrapping_add(view.left as u64);
    }
    sum
}

fn serials_rise(s: &State) -> bool {
    for (i, p) in s.editor.published.as_slice().iter().enumerate() {
        if p.place >= s.given || serial_at(s, p.place) != i.wrapping_add(1) {
            return false;
        }
    }
    true
}

fn each_place_once(s: &State) -> bool {
    for k in 0..s.given {
        if entries(s, EntryTest::At(k)) != 1 {
            return false;
        }
    }
    entries(s, EntryTest::Any) == s.given as usize
}

/// The places given are those of the entries, each with the serial of its place.
pub fn places_and_serials(s: &State) -> bool {
    each_place_once(s)
        && s.views
            .as_slice()
            .iter()
            .all(|v| view_agrees(s, v) && knows_its_own(v))
        && s.editor.published.len() == s.serial as usize
        && entries(s, EntryTest::Published) == s.serial as usize
        && serials_rise(s)
        && (s.given as u64).wrapping_add(places_left(s)) == s.quotas as u64
}

// The word of the side or configuration, or none.
fn word_of(rows: &Items<Items<u64>>, row: usize, word: usize) -> Option<u64> {
    rows.as_slice().get(row)?.as_slice().get(word).copied()
}

// The last that was set of the word since the last publish.
fn pending(editor: &Editor, word: usize) -> Option<u64> {
    editor
        .pending
        .as_slice()
        .iter()
        .find(|p| p.0 as usize == word)
        .map(|p| p.1)
}

fn words_agree(s: &State, word: usize) -> bool {
    let confs = &s.editor.confs;
    let serial = s.serial as usize;
    let last = word_of(&s.sides, serial % 2, word);
    let spare = word_of(&s.sides, 1 - serial % 2, word);
    let before = word_of(confs, serial.saturating_sub(1), word);
    let want = pending(&s.editor, word).or(before);
    last.is_some() && last == word_of(confs, serial, word) && spare == want
}

pub fn all_passed(marks: &Items<Mark>, seats: u32) -> bool {
    for seat in 0..seats {
        if !matches!(marks.at_or(seat as usize, Mark::Unseen), Mark::Passed) {
            return false;
        }
    }
    true
}

/// The serial that a section reads, once it has its place.
pub fn read_serial(view: &View) -> Option<u32> {
    match &view.section {
        Section::Placed(e) => Some(e.serial),
        _ => None,
    }
}

// It reads the last serial, or where not all have passed the one before.
fn reads_near(s: &State, view: &View, passed: bool) -> bool {
    match read_serial(view) {
        Some(serial) => {
            serial == s.serial || (!passed && serial.checked_add(1) == Some(s.serial))
        }
        None => true,
    }
}

/// Each side has the words of its serial, the spare one with what was set since.
pub fn sides_agree(s: &State) -> bool {
    let passed = all_passed(&s.editor.marks, s.seats);
    for word in 0..s.rows {
        if !words_agree(s, word as usize) {
            return false;
        }
    }
    s.sides.len() == 2
        && s.editor.confs.len() == (s.serial as usize).wrapping_add(1)
        && (passed || s.editor.pending.len() == 0)
        && s.views.as_slice().iter().all(|v| reads_near(s, v, passed))
}

/// The grace period waits for the seat, whose word this is.
pub fn is_awaited(marks: &Items<Mark>, seat: usize, word: u64) -> bool {
    match marks.at_or(seat, Mark::Unseen) {
        Mark::Unseen => true,
        Mark::Noted(noted) => word == noted,
        Mark::Passed => false,
    }
}

fn section_agrees(s: &State, i: usize, view: &View) -> bool {
    let open = !matches!(view.section, Section::Out);
    let seat = matches!(view.role, Role::Seat);
    let before = match read_serial(view) {
        Some(serial) => serial != s.serial,
        None => false,
    };
    (view.word % 2 == 1) == open
        && (seat || !open)
        && (!seat || i < s.seats as usize)
        && (!before || is_awaited(&s.editor.marks, i, view.word))
}

/// A word is odd exactly inside, and who reads the serial before is awaited.
pub fn grace_period(s: &State) -> bool {
    for (i, view) in s.views.as_slice().iter().enumerate() {
        if !section_agrees(s, i, view) {
            return false;
        }
    }
    s.views.len() >= s.seats as usize && s.editor.marks.len() == s.seats as usize
}
