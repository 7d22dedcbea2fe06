//! What holds of every step and of every run. Each law is the contract of a function that does
//! nothing.
ghost use Rattle.std.specs.Prelude.{◌≡◌, ℕ, List, sum_by};
ghost use Rattle.ref_state.specs.State.{total};
ghost use Rattle.ref_state.specs.Runs.{PlacesKept, SidesKept, SectionsKept, SplitCountsKept, FoldedCountsKept, ModesKept, ShownKept, TurnsKept, HoldsKept, SoundKept, AlwaysSound, ReadSideStays, RowsOfSerial, LastSerialAlone, ConfsStay, WordsAreCounters, ShownCounts, GetsMeetNoFold, FoldedIsHolds, LastPutEnds, DoneIsOver, OverStays};
ghost use Rattle.ref_state.specs.Lives.{DonesFollowLives, DoneOnceInLife, LifeAfterItsDone};
ghost use Rattle.ref_state.specs.OneStep.{PutThatFindsOne, WordsFollowCounts, OthersStay, EntriesAndPlacesLeft, GatheredHasAll, LookTells, PlacesAreNew, JoinKeepsTheLarger};
ghost use Rattle.ref_state.specs.Owners.{HoldsHaveEntries, ExecutesHaveSubmits, PartOfItsSeat, NumbersStay};

/// Every allowed step from a sound core leaves each place with one entry, and each entry with the
/// serial of its place.
pub fn places_kept()
    ensures { PlacesKept }
{}

/// Every allowed step leaves the side of the last serial with its words, and the other with those
/// before and what was set since.
pub fn sides_kept()
    ensures { SidesKept }
{}

/// Every allowed step leaves the grace period waiting for each section that reads the serial
/// before.
pub fn sections_kept()
    ensures { SectionsKept }
{}

/// Every allowed step leaves each split count in balance with the holds that stand.
pub fn split_counts_kept()
    ensures { SplitCountsKept }
{}

/// Every allowed step leaves each folded count at the number of holds.
pub fn folded_counts_kept()
    ensures { FoldedCountsKept }
{}

/// Every allowed step leaves each loaded mode good for one step on a counter.
pub fn modes_kept()
    ensures { ModesKept }
{}

/// Every allowed step leaves each disk that a section shows live, or killed with that section
/// awaited.
pub fn shown_kept()
    ensures { ShownKept }
{}

/// Every allowed step leaves each turn with one holder at most.
pub fn turns_kept()
    ensures { TurnsKept }
{}

/// Every allowed step leaves each submit that got a hold with one hold or one Execute.
pub fn holds_kept()
    ensures { HoldsKept }
{}

/// Every allowed step keeps all nine.
pub fn sound_kept()
    ensures { SoundKept }
{}

/// Whatever seats there are, and whatever allowed steps they take from an opened core, the core is
/// sound after each.
pub fn always_sound()
    ensures { AlwaysSound }
{}

/// No step writes a side while a section reads it.
pub fn read_side_stays()
    ensures { ReadSideStays }
{}

/// Every row that a section loads is the configuration's at the serial of its place, and stays so.
pub fn rows_of_serial()
    ensures rows { RowsOfSerial }
    ensures stay { ConfsStay }
{}

/// Where every seat has passed since the last publish, a section reads the last serial alone.
pub fn last_serial_alone()
    ensures { LastSerialAlone }
{}

/// The word that a seat keeps of its own counter is that counter as a two's complement number,
/// though the counter may be below 0.
pub fn words_are_counters()
    ensures { WordsAreCounters }
{}

/// A get in a section that shows the disk never meets a folded, drained or armed reference.
pub fn gets_meet_no_fold()
    ensures shown { ShownCounts }
    ensures gets { GetsMeetNoFold }
{}

/// After the fold the shared count is the number of holds, and the put that brings it to 0 put the
/// last one.
pub fn folded_is_holds()
    ensures count { FoldedIsHolds }
    ensures last { LastPutEnds }
{}

/// At a placed Done no hold of that life stands.
pub fn done_is_over()
    ensures { DoneIsOver }
{}

/// Once no hold of a folded reference stands, none is got or put until it is made live again: the
/// last put and the Done come at most once in a life.
pub fn over_stays()
    ensures { OverStays }
{}

/// A life of a disk's reference has one Done: it is placed at most once before the disk is made
/// live again, and the disk is made live again only where it was placed. Along a whole run the
/// Dones are as many as the new lives, but for one that is placed in the life that stands.
pub fn life_has_one_done()
    ensures runs { DonesFollowLives }
    ensures once { DoneOnceInLife }
    ensures before { LifeAfterItsDone }
{}

/// A put that finds 1 on the shared count put the last hold of a folded life: none stands any more.
pub fn put_tells_the_end()
    ensures { PutThatFindsOne }
{}

/// A fetch-add on the word of a counter leaves the word of the counter after it.
pub fn words_follow_counts()
    ensures { WordsFollowCounts }
{}

/// A step changes what its seat keeps, and of the others only one that it joins.
pub fn others_stay()
    ensures { OthersStay }
{}

/// Entries and places left are the quotas. So a seat that has gathered as many keeps the entry of
/// every place that was given.
pub fn gathered_has_all()
    ensures quotas { EntriesAndPlacesLeft }
    ensures every { GatheredHasAll }
{}

/// After a look at a section word the seat has passed, or is noted with the odd word just found,
/// for every grace period under way.
pub fn look_tells()
    ensures { LookTells }
{}

/// A place is none that its seat has seen before, and the seat has seen it afterwards. Who joins
/// another has seen what either had.
pub fn places_are_new()
    ensures places { PlacesAreNew }
    ensures joins { JoinKeepsTheLarger }
{}

/// A hold belongs to one entry by place and call, and an Execute to one submit by place, caller and
/// number.
pub fn holds_have_entries()
    ensures holds { HoldsHaveEntries }
    ensures executes { ExecutesHaveSubmits }
{}

/// A part has the number of the seat that it was split from, and no step changes a number.
pub fn numbers_stay()
    ensures parts { PartOfItsSeat }
    ensures all { NumbersStay }
{}

/// The sums in the definitions are std's sums over a list.
pub fn totals_are_sums<T>()
    ensures { (f : T → ℕ) (xs : List T) → total f xs ≡ sum_by f xs }
{}
