ghost use Rattle.notice_laws.specs.Laws.{EditsNameInRange, ListIsTheFold, NoticesAreTheFold, RaiseIsAMark, StampsAreMarks, StampsStaySound, StartIsSound};

/// A law, with nothing to run: what a published change stamps is what its mark stamps, at any
/// positions; one of controllers alone raises the serial. The start is sound, and a change leaves
/// the stamps sound.
pub fn stamps_are_marks()
    ensures marks { StampsAreMarks }
    ensures raised { RaiseIsAMark }
    ensures start { StartIsSound }
    ensures stay { StampsStaySound }
{}

/// A law, with nothing to run: after any changes, the notices that a controller shows by serials
/// are the fold of the event rules over the marks of these changes, and an NSID is in its changed
/// list exactly where the fold lists it.
pub fn notices_are_the_fold()
    ensures notices { NoticesAreTheFold }
    ensures list { ListIsTheFold }
{}

/// A law, with nothing to run: the change that an accepted edit tells names a namespace that
/// stands, and positions of the tables of subsystems and ports.
pub fn edits_name_in_range()
    ensures { EditsNameInRange }
{}
