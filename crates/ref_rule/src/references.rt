//! Steps on a disk's reference: gets and puts, and what the editor does from the kill to the next
//! life.
ghost use Rattle.std.specs.Prelude.{◌≡◌, ◌+◌, ◌++◌, ◌^◌, ◌<◌, length, map, true, false, if◌then◌else◌, IfOk, OnErr, OnOk, slice_index_or, slice_set};
ghost use Rattle.ref_state.specs.State.{view, disk as disk_at, no_count};
ghost use Rattle.ref_state.specs.Steps.{next_core, answer_of, count_after, word_after, count_or, hold_of, section_got, loaded_mode, may_put, without_least, after_add};

use lists::items::Items;
use ref_allowed::counts::{ZERO, count_word};
use ref_allowed::holds::{HoldTest, remove_hold};
use ref_state::kinds::{Answer, Kind, Tag};
use ref_state::limits::{BIAS, KILLED, LIVE};
use ref_state::state::{By, Count, Entry, Hold, LoadedMode, Mark, Phase, Section, State, View};
use std::alloc::{AllocError, Global};

fn mode_of(disk: u32, word: u64) -> LoadedMode
    ensures { result ≡ loaded_mode disk word }
{
    if word == LIVE {
        LoadedMode::Live(disk)
    } else {
        LoadedMode::Killed(disk)
    }
}

/// The seat loads the mode of a disk's reference.
pub fn load_mode(s: &mut State, seat: u32, disk: u32) -> Answer
    requires there { seat < length s.old.views }
    requires disk { disk < length s.old.disks }
    ensures done { s.new ≡ next_core s.old seat (Kind.LoadMode disk) }
    ensures answer { result ≡ answer_of s.old seat (Kind.LoadMode disk) }
{
    let mode = s.disks.at(disk as usize).mode;
    s.views.at_mut(seat as usize).loaded = mode_of(disk, mode);
    Answer::Word(mode)
}

fn step_count(up: bool, count: Count) -> Count
    requires up { up ≡ true → count.ups + 1 < 2 ^ 64 }
    requires down { up ≡ false → count.downs + 1 < 2 ^ 64 }
    ensures { result ≡ count_after up count }
{
    let Count { ups, downs } = count;
    if up {
        Count {
            ups: ups + 1,
            downs,
        }
    } else {
        Count {
            ups,
            downs: downs + 1,
        }
    }
}

fn step_word(up: bool, word: u64) -> u64
    ensures { result ≡ word_after up word }
{
    if up {
        word.wrapping_add(1)
    } else {
        word.wrapping_add(u64::MAX)
    }
}

// The section, marked as having got a hold.
fn mark_got(section: Section) -> Section
    ensures { result ≡ section_got section }
{
    match section {
        Section::Placed(e) => Section::Placed(Entry { got: true, ..e }),
        other => other,
    }
}

// The holds that a seat has after a get on a disk.
fn holds_got(alloc: Global, view: &View, disk: u32) -> Result<Items<Hold>, AllocError>
    ensures { IfOk result (λ r. r ≡ hold_of disk view.now.section ++ view.now.holds) }
{
    if let Section::Placed(e) = view.section {
        let hold = Hold {
            disk,
            place: e.place,
            call: e.call,
            executed: false,
        };
        return view.holds.with_front(alloc, hold);
    }
    let none = Items::new(alloc);
    none.concat(alloc, &view.holds)
}

// The holds that a seat has after a put on a disk.
fn holds_put(alloc: Global, view: &View, disk: u32) -> Result<Items<Hold>, AllocError>
    ensures { IfOk result (λ r. r ≡ without_least (may_put disk) view.now.holds) }
{
    let none = Items::new(alloc);
    let mut holds = none.concat(alloc, &view.holds)?;
    remove_hold(&mut holds, &HoldTest::MayPut(disk));
    Ok(holds)
}

// The holds that a seat has after a get or a put on a disk.
fn holds_after(alloc: Global, view: &View, disk: u32, up: bool) -> Result<Items<Hold>, AllocError>
    ensures { IfOk result (λ r. r ≡ (after_add disk up view.now).holds) }
{
    if up {
        holds_got(alloc, view, disk)
    } else {
        holds_put(alloc, view, disk)
    }
}

// What the seat keeps after a get or a put.
fn add_hold(s: &mut State, seat: u32, holds: Items<Hold>, up: bool)
    requires { seat < length s.old.views }
    ensures { s.new ≡ record s.old {
      views =
          slice_set s.old.views seat (record (view s.old.views seat) {
            loaded = LoadedMode.NotLoaded;
            section = (if up then section_got (view s.old.views seat).section else
                (view s.old.views seat).section);
            holds = holds;
          });
    } }
{
    let view = s.views.at_mut(seat as usize);
    view.holds = holds;
    view.loaded = LoadedMode::NotLoaded;
    if up {
        view.section = mark_got(view.section);
    }
}

/// A get or a put on the seat's own counter.
pub fn add_own(
    alloc: Global,
    s: &mut State,
    seat: u32,
    disk: u32,
    up: bool,
) -> Result<Answer, AllocError>
    requires there { seat < length s.old.views }
    requires disk { disk < length s.old.disks }
    requires up { up ≡ true → (slice_index_or (disk_at s.old disk).own seat no_count).ups
        + 1 < 2 ^ 64 }
    requires down { up ≡ false → (slice_index_or (disk_at s.old disk).own seat no_count).downs
        + 1 < 2 ^ 64 }
    ensures done { OnOk result (s.new ≡ next_core s.old seat (Kind.AddOwn disk up)) }
    ensures answer { IfOk result (λ a. a ≡ answer_of s.old seat (Kind.AddOwn disk up)) }
    ensures memory { OnErr result (s.new ≡ s.old) }
{
    let holds = holds_after(alloc, s.views.at(seat as usize), disk, up)?;
    add_hold(s, seat, holds, up);
    let own = &mut s.disks.at_mut(disk as usize).own;
    let count = step_count(up, own.at_or(seat as usize, ZERO));
    own.put(seat as usize, count);
    Ok(Answer::Nothing)
}

/// A get or a put on the shared count, and its old word.
pub fn add_shared(
    alloc: Global,
    s: &mut State,
    seat: u32,
    disk: u32,
    up: bool,
) -> Result<Answer, AllocError>
    requires there { seat < length s.old.views }
    requires disk { disk < length s.old.disks }
    ensures done { OnOk result (s.new ≡ next_core s.old seat (Kind.AddShared disk up)) }
    ensures answer { IfOk result (λ a. a ≡ answer_of s.old seat (Kind.AddShared disk up)) }
    ensures memory { OnErr result (s.new ≡ s.old) }
{
    let holds = holds_after(alloc, s.views.at(seat as usize), disk, up)?;
    add_hold(s, seat, holds, up);
    let words = s.disks.at_mut(disk as usize);
    let old = words.shared;
    words.shared = step_word(up, old);
    Ok(Answer::Word(old))
}

/// The mode is killed, and a grace period begins.
pub fn kill(alloc: Global, s: &mut State, disk: u32) -> Result<Answer, AllocError>
    requires disk { disk < length s.old.disks }
    requires drain { disk < length s.old.editor.drains }
    ensures done { OnOk result (s.new ≡ next_core s.old 0 (Kind.Kill disk)) }
    ensures answer { IfOk result (λ a. a ≡ answer_of s.old 0 (Kind.Kill disk)) }
    ensures memory { OnErr result (s.new ≡ s.old) }
{
    let marks = Items::copies(alloc, s.seats as usize, Mark::Unseen)?;
    let looked = Items::copies(alloc, s.seats as usize, None)?;
    s.disks.at_mut(disk as usize).mode = KILLED;
    let drain = s.editor.drains.at_mut(disk as usize);
    drain.phase = Phase::Killed;
    drain.marks = marks;
    drain.looked = looked;
    Ok(Answer::Nothing)
}

/// A seat's own counter is looked at.
pub fn look_counter(s: &mut State, disk: u32, other: u32) -> Answer
    requires disk { disk < length s.old.disks }
    requires drain { disk < length s.old.editor.drains }
    ensures done { s.new ≡ next_core s.old 0 (Kind.LookCounter disk other) }
    ensures answer { result ≡ answer_of s.old 0 (Kind.LookCounter disk other) }
{
    let count = s.disks.at(disk as usize).own.at_or(other as usize, ZERO);
    s.editor
        .drains
        .at_mut(disk as usize)
        .looked
        .put(other as usize, Some(count));
    Answer::Word(count_word(count))
}

// The counters as they were looked at.
fn counts_of(alloc: Global, looked: &Items<Option<Count>>) -> Result<Items<Count>, AllocError>
    ensures { IfOk result (λ r. r ≡ map count_or looked.now) }
{
    let mut counts = Items::new(alloc);
    for found in looked.as_slice() {
        counts.push(found.unwrap_or(ZERO))?;
    }
    Ok(counts)
}

/// The own counters go into the shared count and the bias off it, by one addition. The old word is
/// answered.
pub fn fold(alloc: Global, s: &mut State, disk: u32, delta: u64) -> Result<Answer, AllocError>
    requires disk { disk < length s.old.disks }
    requires drain { disk < length s.old.editor.drains }
    ensures done { OnOk result (s.new ≡ next_core s.old 0 (Kind.Fold disk delta)) }
    ensures answer { IfOk result (λ a. a ≡ answer_of s.old 0 (Kind.Fold disk delta)) }
    ensures memory { OnErr result (s.new ≡ s.old) }
{
    let bases = counts_of(alloc, &s.editor.drains.at(disk as usize).looked)?;
    let words = s.disks.at_mut(disk as usize);
    let old = words.shared;
    words.shared = old.wrapping_add(delta);
    let drain = s.editor.drains.at_mut(disk as usize);
    drain.phase = Phase::Folded;
    drain.bases = bases;
    Ok(Answer::Word(old))
}

/// The shared count of a folded reference is looked at. Where it is 0, the reference is drained.
pub fn look_zero(s: &mut State, disk: u32) -> Answer
    requires disk { disk < length s.old.disks }
    requires drain { disk < length s.old.editor.drains }
    ensures done { s.new ≡ next_core s.old 0 (Kind.LookZero disk) }
    ensures answer { result ≡ answer_of s.old 0 (Kind.LookZero disk) }
{
    let found = s.disks.at(disk as usize).shared;
    if found == 0 {
        let drain = s.editor.drains.at_mut(disk as usize);
        drain.phase = Phase::Drained;
        drain.done_placed = false;
    }
    Answer::Word(found)
}

/// The drain's end takes its place.
pub fn place_done(
    alloc: Global,
    s: &mut State,
    seat: u32,
    disk: u32,
    call: Tag,
) -> Result<Answer, AllocError>
    requires there { seat < length s.old.views }
    requires drain { disk < length s.old.editor.drains }
    requires left { 0 < (view s.old.views seat).left }
    requires room { s.old.given + 1 < 2 ^ 32 }
    ensures done { OnOk result (s.new ≡ next_core s.old seat (Kind.PlaceDone disk call)) }
    ensures answer { IfOk result (λ a. a ≡ answer_of s.old seat (Kind.PlaceDone disk call)) }
    ensures memory { OnErr result (s.new ≡ s.old) }
{
    let (place, serial) = (s.given, s.serial);
    let entry = Entry {
        place,
        serial,
        call,
        by: By::Done,
        got: false,
    };
    let entries = s.views.at(seat as usize).entries.with_front(alloc, entry)?;
    let view = s.views.at_mut(seat as usize);
    view.entries = entries;
    view.left -= 1;
    view.seen = place + 1;
    s.given = place + 1;
    s.editor.drains.at_mut(disk as usize).done_placed = true;
    Ok(Answer::Word(place as u64))
}

/// The bias is back in the shared count.
pub fn live_shared(s: &mut State, disk: u32) -> Answer
    requires disk { disk < length s.old.disks }
    requires drain { disk < length s.old.editor.drains }
    ensures done { s.new ≡ next_core s.old 0 (Kind.LiveShared disk) }
    ensures answer { result ≡ answer_of s.old 0 (Kind.LiveShared disk) }
{
    s.disks.at_mut(disk as usize).shared = BIAS;
    s.editor.drains.at_mut(disk as usize).phase = Phase::Armed;
    Answer::Nothing
}

/// The mode is live again.
pub fn live_mode(s: &mut State, disk: u32) -> Answer
    requires disk { disk < length s.old.disks }
    requires drain { disk < length s.old.editor.drains }
    ensures done { s.new ≡ next_core s.old 0 (Kind.LiveMode disk) }
    ensures answer { result ≡ answer_of s.old 0 (Kind.LiveMode disk) }
{
    s.disks.at_mut(disk as usize).mode = LIVE;
    s.editor.drains.at_mut(disk as usize).phase = Phase::Live;
    Answer::Nothing
}
