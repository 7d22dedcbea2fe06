//! The kinds of atomic step, and what each answers.

/// The kind of a bare call, which changes nothing.
pub const BARE: u8 = 0;

/// The kind of a submit.
pub const SUBMIT: u8 = 1;

/// The kind of a submit's Execute.
pub const EXECUTE: u8 = 2;

/// The kind of a poll for events.
pub const POLL: u8 = 3;

/// The kind of a fabrics command, which the editor's seat places for the queue's.
pub const CONTROL: u8 = 4;

/// The kind of a command that is passed through, which the editor's seat places for the queue's.
pub const THROUGH: u8 = 5;

/// The kind of an edit of the configuration.
pub const EDIT: u8 = 6;

/// The kind of a Done, the end of a drain.
pub const DONE: u8 = 7;

/// The name of the call that takes a place.
#[derive(Clone, Copy, PartialEq, Eq, Debug)]
pub struct Tag {
    /// One of `BARE` to `DONE`.
    pub kind: u8,
    /// The queue or editor whose call it is.
    pub caller: u32,
    /// Which of that caller's calls of its kind.
    pub number: u32,
}

/// What a part takes beside what its seat has seen.
#[derive(Clone, Copy, Debug)]
pub enum Take {
    Nothing,
    /// The hold on this disk with the least place.
    Hold(u32),
    /// One place of the quota.
    Place,
    /// The finished entry of a call of kind `CONTROL` or `THROUGH` at this place.
    Entry(u32),
}

/// One step on one shared word or slot, or on none. `disk`, `word`, `slot`, `other` and `part`
/// count from 0.
#[derive(Clone, Copy, Debug)]
pub enum Kind {
    /// Store the own section word, made odd: `rcu_read_lock`.
    EnterSection,
    /// Fetch-add 1 on the clock: the section's place and serial.
    DrawPlace { call: Tag },
    /// Load a word of the section's side.
    LoadRow { word: u32 },
    /// Store the own section word, made even: `rcu_read_unlock`.
    LeaveSection,
    /// The editor stores a word of the spare side.
    StoreRow { word: u32, value: u64 },
    /// The editor fetch-adds 2^32 + 1 on the clock: the spare side is the last serial's from now
    /// on.
    Publish { call: Tag },
    /// The editor loads a seat's section word, for every grace period that is under way.
    LookSection { other: u32 },
    /// Load the mode of a disk's reference.
    LoadMode { disk: u32 },
    /// Fetch-add 1, or 2^64 - 1, on the own counter: a get, or a put.
    AddOwn { disk: u32, up: bool },
    /// The same on the shared count.
    AddShared { disk: u32, up: bool },
    /// Make a part of the seat.
    Split { take: Take },
    /// Take in a part, or at the end of a run a seat.
    Join { part: u32 },
    /// The editor stores the mode killed: `percpu_ref_kill`.
    Kill { disk: u32 },
    /// The editor loads a seat's own counter.
    LookCounter { disk: u32, other: u32 },
    /// The editor fetch-adds the sum of the own counters, less the bias, on the shared count.
    Fold { disk: u32, delta: u64 },
    /// The editor loads the shared count of a folded reference.
    LookZero { disk: u32 },
    /// The editor fetch-adds 1 on the clock: the drain's end has its place.
    PlaceDone { disk: u32, call: Tag },
    /// The editor stores the bias in the shared count.
    LiveShared { disk: u32 },
    /// The editor stores the mode live.
    LiveMode { disk: u32 },
    /// Compare-exchange of an extent's turn, 0 to the own number plus 1, one try.
    TakeTurn { slot: u32 },
    /// Move the extent out of its slot.
    SlotOut { slot: u32 },
    /// Fetch-add 1 on the clock: a held command's Execute has its place.
    PlaceExecute { slot: u32, call: Tag },
    /// Move the extent back into its slot.
    SlotIn { slot: u32 },
    /// Store 0 in an extent's turn.
    GiveTurn { slot: u32 },
}

/// What a step answers: a number, the place and serial, whether the turn was got, or nothing.
#[derive(Clone, Copy, PartialEq, Eq, Debug)]
pub enum Answer {
    Nothing,
    Word(u64),
    Pair(u32, u32),
    Yes,
    No,
}
