//! Laws of the meaning. A law is the contract of a function that does nothing.
ghost use Rattle.target_meaning.specs.Callers.{BindingsAreOwn, EditorsArePlain, EndsMayCome, HeldIsReplied, PublishedAsComputed, QueuesArePlain};
ghost use Rattle.target_meaning.specs.Executes.{ExecutesByParts};
ghost use Rattle.target_meaning.specs.Histories.{HistoriesAreLegal, OpensAsAsked, RepliesAreTheTargets, StatesAreTheTargets};

/// The table's history is one of the sequential target: the target after each call is the one that
/// the sequential target makes of the calls so far, the reply is its reply there, and a history that
/// is legal for the table is a legal history of the sequential target.
pub fn histories_are_the_targets()
    ensures states { StatesAreTheTargets }
    ensures replies { RepliesAreTheTargets }
    ensures legal { HistoriesAreLegal }
{}

/// The words and the extents of a start without published changes are those that `open` asks for,
/// `WORDS` words and the eight extents of each disk.
pub fn opens_as_asked()
    ensures { OpensAsAsked }
{}

/// Where `draw_place` asks that a call leave the published part: a queue's submits, Executes and
/// polls do wherever they come, and the editor's calls that publish nothing do where the desk is
/// the one that the editor knows.
pub fn places_are_plain()
    ensures queues { QueuesArePlain }
    ensures editors { EditorsArePlain }
{}

/// Where `publish` asks for the words after the call: they are those that the editor computes from
/// the history that it knows.
pub fn published_as_computed()
    ensures { PublishedAsComputed }
{}

/// Where `place_done` asks that the call be lawful: the drain of a namespace that the editor knows
/// to be draining on a disk may end once no command is held on that disk.
pub fn ends_may_come()
    ensures { EndsMayCome }
{}

/// The reply to a submit is Held exactly where the table counts the command as held, and to what a
/// queue is connected is changed by that queue's fabrics commands alone.
pub fn queues_know_their_own()
    ensures held { HeldIsReplied }
    ensures bindings { BindingsAreOwn }
{}

/// An Execute of a held command succeeds. It may be done extent by extent: what `do_part` makes of
/// each extent is what stands there afterwards, and the bytes are those that the job reads.
pub fn executes_by_parts()
    ensures { ExecutesByParts }
{}
