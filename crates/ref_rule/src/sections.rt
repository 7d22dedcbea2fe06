//! Steps of read sections and of the two sides of words.
ghost use Rattle.std.specs.Prelude.{◌≡◌, ◌+◌, ◌++◌, ◌^◌, ◌<◌, length, map, IfOk, OnErr, OnOk, slice_index};
ghost use Rattle.ref_state.specs.State.{view, side, looked, own_entry};
ghost use Rattle.ref_state.specs.Steps.{next_core, answer_of, serial_of, at_mark, at_drain};

use lists::items::Items;
use ref_state::kinds::{Answer, Kind, Tag};
use ref_state::state::{By, Drain, Entry, Mark, Phase, Published, Section, State, View};
use std::alloc::{AllocError, Global};

/// The seat's word is made odd.
pub fn enter_section(s: &mut State, seat: u32) -> Answer
    requires { seat < length s.old.views }
    ensures done { s.new ≡ next_core s.old seat Kind.EnterSection }
    ensures answer { result ≡ answer_of s.old seat Kind.EnterSection }
{
    let view = s.views.at_mut(seat as usize);
    view.word = view.word.wrapping_add(1);
    view.section = Section::In;
    Answer::Nothing
}

/// The section gets its place and serial, by one step on the clock.
pub fn draw_place(s: &mut State, seat: u32, call: Tag) -> Answer
    requires there { seat < length s.old.views }
    requires left { 0 < (view s.old.views seat).left }
    requires room { s.old.given + 1 < 2 ^ 32 }
    ensures done { s.new ≡ next_core s.old seat (Kind.DrawPlace call) }
    ensures answer { result ≡ answer_of s.old seat (Kind.DrawPlace call) }
{
    let (place, serial) = (s.given, s.serial);
    let view = s.views.at_mut(seat as usize);
    view.left -= 1;
    view.seen = place + 1;
    view.section = Section::Placed(Entry {
        place,
        serial,
        call,
        by: By::Draw,
        got: false,
    });
    s.given = place + 1;
    Answer::Pair(place, serial)
}

// The serial that a section reads, or 0.
fn section_serial(section: &Section) -> u32
    ensures { result ≡ serial_of section.now }
{
    match section {
        Section::Placed(e) => e.serial,
        _ => 0,
    }
}

// A word of the side that the serial is on, or 0 where there is none.
pub fn side_word(s: &State, serial: u32, word: u32) -> u64
    ensures { result ≡ slice_index (side s.now serial) word }
{
    let i = (serial % 2) as usize;
    if i < s.sides.len() {
        s.sides.at(i).at_or(word as usize, 0)
    } else {
        0
    }
}

/// A word of the section's side.
pub fn load_row(s: &State, seat: u32, word: u32) -> Answer
    requires { seat < length s.now.views }
    ensures { result ≡ answer_of s.now seat (Kind.LoadRow word) }
{
    let serial = section_serial(&s.views.at(seat as usize).section);
    Answer::Word(side_word(s, serial, word))
}

// The finished entries once the section is left: that of the section too, where it has its place.
fn finished_entries(alloc: Global, view: &View) -> Result<Items<Entry>, AllocError>
    ensures { IfOk result (λ r. r ≡ own_entry view.now.section ++ view.now.entries) }
{
    if let Section::Placed(entry) = view.section {
        return view.entries.with_front(alloc, entry);
    }
    let none = Items::new(alloc);
    none.concat(alloc, &view.entries)
}

/// The seat's word is made even. Where the section has its place, its entry is finished.
pub fn leave_section(alloc: Global, s: &mut State, seat: u32) -> Result<Answer, AllocError>
    requires { seat < length s.old.views }
    ensures done { OnOk result (s.new ≡ next_core s.old seat Kind.LeaveSection) }
    ensures answer { IfOk result (λ a. a ≡ answer_of s.old seat Kind.LeaveSection) }
    ensures memory { OnErr result (s.new ≡ s.old) }
{
    let entries = finished_entries(alloc, s.views.at(seat as usize))?;
    let view = s.views.at_mut(seat as usize);
    view.entries = entries;
    view.word = view.word.wrapping_add(1);
    view.section = Section::Out;
    Ok(Answer::Nothing)
}

/// A word of the spare side is set.
pub fn store_row(alloc: Global, s: &mut State, word: u32, value: u64) -> Result<Answer, AllocError>
    requires two { length s.old.sides ≡ 2 }
    ensures done { OnOk result (s.new ≡ next_core s.old 0 (Kind.StoreRow word value)) }
    ensures answer { IfOk result (λ a. a ≡ answer_of s.old 0 (Kind.StoreRow word value)) }
    ensures memory { OnErr result (s.new ≡ s.old) }
{
    s.editor.pending.push_front((word, value))?;
    let spare = (1 - s.serial % 2) as usize;
    s.sides.at_mut(spare).put(word as usize, value);
    Ok(Answer::Nothing)
}

/// The spare side becomes that of the last serial, and a grace period begins.
pub fn publish(alloc: Global, s: &mut State, seat: u32, call: Tag) -> Result<Answer, AllocError>
    requires there { seat < length s.old.views }
    requires two { length s.old.sides ≡ 2 }
    requires left { 0 < (view s.old.views seat).left }
    requires room { s.old.given + 1 < 2 ^ 32 }
    requires serials { s.old.serial + 1 < 2 ^ 32 }
    ensures done { OnOk result (s.new ≡ next_core s.old seat (Kind.Publish call)) }
    ensures answer { IfOk result (λ a. a ≡ answer_of s.old seat (Kind.Publish call)) }
    ensures memory { OnErr result (s.new ≡ s.old) }
{
    let (place, serial) = (s.given, s.serial + 1);
    let entry = Entry {
        place,
        serial,
        call,
        by: By::Publish,
        got: false,
    };
    let entries = s.views.at(seat as usize).entries.with_front(alloc, entry)?;
    let published = s
        .editor
        .published
        .with_back(alloc, Published { place, call })?;
    let marks = Items::copies(alloc, s.seats as usize, Mark::Unseen)?;
    let none = Items::new(alloc);
    let words = s.sides.at((serial % 2) as usize).concat(alloc, &none)?;
    s.editor.confs.push(words)?;
    let view = s.views.at_mut(seat as usize);
    view.entries = entries;
    view.left -= 1;
    view.seen = place + 1;
    s.given = place + 1;
    s.serial = serial;
    s.editor.published = published;
    s.editor.pending = Items::new(alloc);
    s.editor.marks = marks;
    Ok(Answer::Pair(place, serial))
}

/// A seat's mark after a look that found its word.
pub fn mark_after(mark: Mark, word: u64) -> Mark
    ensures { result ≡ looked mark word }
{
    let odd = word % 2 == 1;
    match mark {
        Mark::Unseen if odd => Mark::Noted(word),
        Mark::Noted(noted) if odd && word == noted => Mark::Noted(noted),
        _ => Mark::Passed,
    }
}

// One seat's mark after a look.
fn look_marks(marks: &mut Items<Mark>, other: u32, word: u64)
    ensures { marks.new ≡ at_mark other word marks.old }
{
    let mark = mark_after(marks.at_or(other as usize, Mark::Unseen), word);
    marks.put(other as usize, mark);
}

// The same for the grace period of a killed disk.
fn look_drain(drain: &mut Drain, other: u32, word: u64)
    ensures { drain.new ≡ at_drain other word drain.old }
{
    if let Phase::Killed = drain.phase {
        look_marks(&mut drain.marks, other, word);
    }
}

// The same for each killed disk.
fn look_drains(drains: &mut Items<Drain>, other: u32, word: u64)
    ensures { drains.new ≡ map (at_drain other word) drains.old }
{
    for i in 0..drains.len() {
        look_drain(drains.at_mut(i), other, word);
    }
}

/// A seat's section word is looked at, for every grace period that is under way.
pub fn look_section(s: &mut State, other: u32) -> Answer
    requires there { other < length s.old.views }
    ensures done { s.new ≡ next_core s.old 0 (Kind.LookSection other) }
    ensures answer { result ≡ answer_of s.old 0 (Kind.LookSection other) }
{
    let word = s.views.at(other as usize).word;
    look_marks(&mut s.editor.marks, other, word);
    look_drains(&mut s.editor.drains, other, word);
    Answer::Word(word)
}
