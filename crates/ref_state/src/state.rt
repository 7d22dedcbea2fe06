//! The state of the core as plain data: the shared words, what each seat or part of a seat keeps,
//! and what the editor's seat keeps beside. The types serve as the code's data and as what
//! contracts see.
use crate::kinds::Tag;
use lists::items::Items;

/// By which kind of step an entry took its place on the clock.
#[derive(Clone, Copy)]
pub enum By {
    /// A call's own place, drawn in its read section.
    Draw,
    /// A change of the configuration, at the step that publishes the other side.
    Publish,
    /// The end of a drain.
    Done,
    /// The Execute of the submit at this place.
    Execute(u32),
}

/// A call with its place in the one history.
#[derive(Clone, Copy)]
pub struct Entry {
    /// The place, counted from 0: the low half of the clock at its step.
    pub place: u32,
    /// The number of published entries up to this place, itself included: the high half of the
    /// clock.
    pub serial: u32,
    pub call: Tag,
    pub by: By,
    /// Its section got a hold.
    pub got: bool,
}

/// A reference on a disk that was got and not yet put.
#[derive(Clone, Copy)]
pub struct Hold {
    pub disk: u32,
    /// The place of the section that got it.
    pub place: u32,
    /// The call of that section.
    pub call: Tag,
    /// The Execute of its command is placed.
    pub executed: bool,
}

/// A read section, as in `rcu_read_lock`: closed, open, or open with its place.
#[derive(Clone, Copy)]
pub enum Section {
    Out,
    In,
    /// The entry is the section's own. It is finished where the section is left.
    Placed(Entry),
}

/// The reference's mode as a section loaded it, with its disk: what `__ref_is_percpu` answers.
#[derive(Clone, Copy)]
pub enum LoadedMode {
    NotLoaded,
    /// Gets and puts go to the seat's own counter.
    Live(u32),
    /// Gets and puts go to the shared count.
    Killed(u32),
}

/// A turn that a seat has: it alone reaches the extent.
#[derive(Clone, Copy)]
pub struct Turn {
    /// `EXTENTS` times the disk, plus the extent.
    pub slot: u32,
    /// The extent is in hand, and not at home in its slot.
    pub out: bool,
}

/// A seat takes steps. A part carries what was split off a seat, and takes none. A spent one was
/// joined into another.
#[derive(Clone, Copy)]
pub enum Role {
    Seat,
    Part,
    Spent,
}

/// What a seat or a part keeps. Lists have the newest first.
#[derive(Drop)]
pub struct View {
    pub role: Role,
    /// The seat's number, or that of the seat that the part was split from.
    pub number: u32,
    /// The seat's section word. Only this seat writes it: odd inside a section.
    pub word: u64,
    pub section: Section,
    pub loaded: LoadedMode,
    pub holds: Items<Hold>,
    pub turns: Items<Turn>,
    /// Places left of its quota.
    pub left: u32,
    /// The number of places seen.
    pub seen: u32,
    /// The finished entries.
    pub entries: Items<Entry>,
}

/// How far a grace period has come for one seat: what was seen of its section word since a publish
/// or a kill.
#[derive(Clone, Copy)]
pub enum Mark {
    Unseen,
    /// The word was odd at the first look, and was this.
    Noted(u64),
    /// The word was even, or another than the noted one: the seat has been outside a section since.
    Passed,
}

/// A counter as a whole number, which may be below 0: `ups` less `downs`. Its word is that number
/// modulo 2^64.
#[derive(Clone, Copy)]
pub struct Count {
    /// How often it was raised.
    pub ups: u64,
    /// How often it was lowered.
    pub downs: u64,
}

/// Where a disk's reference stands in its life, as in the kernel's percpu reference counter.
#[derive(Clone, Copy)]
pub enum Phase {
    /// Counted on the seats' own counters; the shared count is the bias.
    Live,
    /// New sections count on the shared count; older ones may still use their own counters.
    Killed,
    /// The own counters were added into the shared count, and the bias was taken off.
    Folded,
    /// The shared count was found to be 0.
    Drained,
    /// The bias is back, the mode is not yet live.
    Armed,
}

/// What the editor's seat keeps of one disk.
#[derive(Drop)]
pub struct Drain {
    pub phase: Phase,
    /// The disk is drained, and its Done is placed.
    pub done_placed: bool,
    /// Per seat, where its own counter stood at the last fold.
    pub bases: Items<Count>,
    /// Per seat, its own counter as it was looked at since the kill.
    pub looked: Items<Option<Count>>,
    /// The grace period since the kill.
    pub marks: Items<Mark>,
}

/// The entry that published a serial.
#[derive(Clone, Copy)]
pub struct Published {
    pub place: u32,
    pub call: Tag,
}

/// What the editor's seat, number 0, keeps beside its view.
#[derive(Drop)]
pub struct Editor {
    /// The words of the configuration at each serial, from 0 on.
    pub confs: Items<Items<u64>>,
    /// The place and call of each serial, from 1 on.
    pub published: Items<Published>,
    /// The words set on the spare side since the last publish, the newest first.
    pub pending: Items<(u32, u64)>,
    /// The grace period since the last publish.
    pub marks: Items<Mark>,
    pub drains: Items<Drain>,
}

/// The shared words of one disk's reference.
#[derive(Drop)]
pub struct Disk {
    /// `LIVE` or `KILLED`.
    pub mode: u64,
    /// The shared count, with the bias (`BIAS`) while the reference is live.
    pub shared: u64,
    /// One own counter per seat.
    pub own: Items<Count>,
}

/// The whole core: what the words and slots of a table show, and what each seat keeps.
#[derive(Drop)]
pub struct State {
    /// The low half of the clock: how many places are given.
    pub given: u32,
    /// The high half of the clock: how many entries are published.
    pub serial: u32,
    /// Two sides of words. The last serial's is the one at its number modulo 2, the other is spare.
    pub sides: Items<Items<u64>>,
    pub disks: Items<Disk>,
    /// Per slot 0, or the number of the seat that has the turn plus 1.
    pub turns: Items<u64>,
    /// The seats, then the parts in the order of their making.
    pub views: Items<View>,
    pub editor: Editor,
    /// The number of seats.
    pub seats: u32,
    /// The number of words of a side.
    pub rows: u32,
    /// The sum of the quotas.
    pub quotas: u32,
}
