//! What holds of gets and puts, and of a killed reference. A law is the contract of a function
//! that does nothing.
ghost use Rattle.percpu_ref.specs.Holds.{CountsOnce};
ghost use Rattle.percpu_ref.specs.Lives.{KilledStays, OthersStay};

/// A killed reference stays killed, with the section words that were noted at its kill, whatever
/// the editor looks at meanwhile.
pub fn killed_stays()
    ensures { KilledStays }
{}

/// What the editor notes of one disk's life leaves what it notes of another's.
pub fn others_stay()
    ensures { OthersStay }
{}

/// A get or a put counts by one step: on its seat's own counter where it loaded the mode live, and
/// else on the shared count.
pub fn counts_once()
    ensures { CountsOnce }
{}
