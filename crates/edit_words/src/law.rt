//! Laws of the words that calls turn. A law is the contract of a function that does nothing.
ghost use Rattle.edit_words.specs.Controls.{ConnectsLeaveWords, ControlsChangeReadiness, ControlsTurn, RaisedKeepsStamps};
ghost use Rattle.edit_words.specs.Identifiers.{ControlsKeepIdentifiers, DrainsKeepIdentifiers, EditsKeepIdentifiers, NothingLacksIdentifiers};
ghost use Rattle.edit_words.specs.Laws.{DrainsLeaveWords, EditsFit, EditsKeep, EditsTurn};
ghost use Rattle.edit_words.specs.Memory.{TableIsSmall};
ghost use Rattle.edit_words.specs.Patching.{TurnedWordsPatch};

/// An accepted edit, of a folder or of a link, keeps what the patch of its words rests on: a
/// namespace that is enabled before or after it keeps the number of its disk, and a subsystem or a
/// port that stays keeps its position.
pub fn edits_keep()
    ensures { EditsKeep }
{}

/// What the change of an accepted edit names is in the table.
pub fn edits_fit()
    ensures { EditsFit }
{}

/// After an accepted edit whose change was noted, those words of its patch that the words before
/// it don't have are exactly the words that it turned: each word that differs, with its position
/// and its new value, once, and no other.
pub fn edits_turn()
    ensures { EditsTurn }
{}

/// The words before an edit, with those that it turned put in place, are the words after it: so the
/// words of `edit` are all that has to be published.
pub fn turned_words_patch()
    ensures { TurnedWordsPatch }
{}

/// The UUID and the NGUID of each namespace are of 16 bytes, as `FitsTable` of `ns_table` asks: in
/// the empty tree, and after every accepted edit, end of a drain and fabrics command on a tree where
/// they are.
pub fn identifiers_are_kept()
    ensures start { NothingLacksIdentifiers }
    ensures edits { EditsKeepIdentifiers }
    ensures drains { DrainsKeepIdentifiers }
    ensures controls { ControlsKeepIdentifiers }
{}

/// The end of a drain leaves all words.
pub fn drains_leave_words()
    ensures { DrainsLeaveWords }
{}

/// A fabrics command, whatever its checks come to, turns no word but the readiness of the
/// controller to which its queue is bound: so a Connect turns none, and a Property Set at most
/// one. That it is published raises the serial and leaves the stamps.
pub fn controls_turn_readiness()
    ensures changed { ControlsChangeReadiness }
    ensures turned { ControlsTurn }
    ensures unbound { ConnectsLeaveWords }
    ensures stamps { RaisedKeepsStamps }
{}

/// The shared words of a running table of the configuration take 5,846,976 bytes, whatever the
/// configuration holds; with 512 slots of at most 128 bytes, beside the blocks of the disks, a table
/// takes under 32 MiB.
pub fn table_is_small()
    ensures { TableIsSmall }
{}
