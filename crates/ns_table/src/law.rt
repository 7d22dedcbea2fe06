//! Laws of the words. A law is the contract of a function that does nothing.
ghost use Rattle.ns_table.specs.Changed.{WordsChangeWhereTold};
ghost use Rattle.ns_table.specs.Follows.{WordsFollowSettings};
ghost use Rattle.ns_table.specs.Looked.{LookOfWordsIsTheShapes, LookOfWordsIsTheTrees};
ghost use Rattle.ns_table.specs.Noted.{NotedIsPublished, NothingIsStamped, PlacesFromTheStart, PlacesStay, SerialsFromTheStart, SerialsStay};
ghost use Rattle.ns_table.specs.Patches.{PatchesAreOnce, PatchesAreWhole};
ghost use Rattle.ns_table.specs.Shown.{EnabledIsShown, ShownIsEnabled};
ghost use Rattle.ns_table.specs.Slots.{SlotsAreExtents};
ghost use Rattle.ns_table.specs.Words.{WordsArePlaced};

/// Each word of a configuration is the one for its place, and there are no others.
pub fn words_are_placed()
    ensures { WordsArePlaced }
{}

/// What a configuration's words answer is what its tree, its controllers, its disks and any stamps
/// and serial answer: of each of the twelve questions of a look.
pub fn look_of_words_is_the_shapes()
    ensures { LookOfWordsIsTheShapes }
{}

/// What the words of a target's configuration answer, at the serial of its stamps, is what a look
/// at its tree, its controllers, its disks and the stamps that it keeps answers: of each of the
/// twelve questions of a look.
pub fn look_of_words_is_the_trees()
    ensures { LookOfWordsIsTheTrees }
{}

/// Extent `e` of disk number `i` is in slot 8 `i` + `e`.
pub fn slots_are_extents()
    ensures { SlotsAreExtents }
{}

/// Where an enabled namespace is seen, the word of its disk isn't 0.
pub fn enabled_is_shown()
    ensures { EnabledIsShown }
{}

/// Where the word of a disk isn't 0, an enabled namespace is on it.
pub fn shown_is_enabled()
    ensures { ShownIsEnabled }
{}

/// The words follow the settings of the tree, the controllers, the stamps and the sizes of disks
/// alone: a write to a disk, the end of a drain and a poll leave them.
pub fn words_follow_settings()
    ensures { WordsFollowSettings }
{}

/// An edit changes no word but those that its change tells of: the row that it touched, the stamps
/// of what it names, the count of ANA changes, and the disk of a namespace that turned.
pub fn words_change_where_told()
    ensures { WordsChangeWhereTold }
{}

/// A word that an edit changes has its place among those that its patch has.
pub fn patches_are_whole()
    ensures { PatchesAreWhole }
{}

/// No place is in a patch twice, where an ANA change is of a port or of a subsystem.
pub fn patches_are_once()
    ensures { PatchesAreOnce }
{}

/// The stamps that a target keeps are those of its words: none as a run begins, and after a
/// published change that was noted those that the change is published with. What
/// `look_of_words_is_the_trees` asks of them, a place for each position and no other and that they
/// are serials, holds from the start on.
pub fn kept_stamps_are_published()
    ensures start { NothingIsStamped }
    ensures start_places { PlacesFromTheStart }
    ensures noted { NotedIsPublished }
    ensures places { PlacesStay }
    ensures start_serials { SerialsFromTheStart }
    ensures serials { SerialsStay }
{}
