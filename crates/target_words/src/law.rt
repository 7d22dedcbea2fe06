//! Laws of the words. A law is the contract of a function that does nothing.
ghost use Rattle.target_words.specs.Laws.{EndsLeaveWords, HeldIsInWords, SlotsStand, StartsAreOpened, UnpublishedLeaveWords, WordsDependOnTheDesk, WordsFollowFixed};

/// A submit's reply is Held only on a disk whose word isn't 0: an enabled namespace is on it.
pub fn held_is_in_words()
    ensures { HeldIsInWords }
{}

/// The words are those of settings, controllers and the serials of last changes. What an edit, a
/// Connect or a property call leaves of them is what the editor computes from what it knows,
/// whatever queues call before the place is drawn.
pub fn words_depend_on_the_desk()
    ensures follow { WordsFollowFixed }
    ensures depend { WordsDependOnTheDesk }
{}

/// A refused edit, one that writes what stood, a refused Connect, a Property Get: what isn't
/// published leaves the words. So does the end of a drain.
pub fn unpublished_leave_words()
    ensures unpublished { UnpublishedLeaveWords }
    ensures ends { EndsLeaveWords }
{}

/// Where nothing was published yet, the words and the extents that a table is opened with are the
/// target's.
pub fn starts_are_opened()
    ensures words { StartsAreOpened }
    ensures slots { SlotsStand }
{}
