// Laws of the target, each the contract of a function that does nothing.
ghost use Rattle.tree_target.specs.Legal.{LawfulCallsAreLegal};
ghost use Rattle.tree_target.specs.Fixed.{UnpublishedLeaveFixed, QueuesLeaveDesk, PlainAtDesk, EditsDependOnTheTree, EditsAreAsComputed, EditsLeaveAttached};
ghost use Rattle.tree_target.specs.Held.{HeldChanges, HeldIsShown, HeldReplies, HeldKeepsHolder, BindingsAreOwn};
ghost use Rattle.tree_target.specs.Simple.{SimpleStands};

use io_commands::admitted_is_on_a_seen_disk;

/// The history that lawful calls make is legal.
pub fn lawful_calls_are_legal()
    ensures { LawfulCallsAreLegal }
{}

/// A call that isn't published leaves settings, controllers and the serials of last changes.
pub fn unpublished_leave_fixed()
    ensures { UnpublishedLeaveFixed }
{}

/// A submit, an execute and a poll leave the whole tree, holders too, the controllers and the
/// serials of last changes. Fabrics commands get their places from the editor.
pub fn queues_leave_desk()
    ensures { QueuesLeaveDesk }
{}

/// The reply to an edit is a function of the tree.
pub fn edits_depend_on_the_tree()
    ensures { EditsDependOnTheTree }
{}

/// An edit replies and leaves what it does before calls of queues.
pub fn edits_are_as_computed()
    ensures { EditsAreAsComputed }
{}

/// An edit that publishes nothing where it was computed publishes nothing where the editor's part
/// is the same.
pub fn plain_at_desk()
    ensures { PlainAtDesk }
{}

/// An accepted edit leaves the rows where controllers are attached, at their positions.
pub fn edits_leave_attached()
    ensures { EditsLeaveAttached }
{}

/// How the held commands change.
pub fn held_changes()
    ensures { HeldChanges }
{}

/// A submit's reply is Held only on a disk on which an enabled namespace is.
pub fn held_is_shown()
    ensures { HeldIsShown }
{
    admitted_is_on_a_seen_disk();
}

/// The reply is Held where a disk is held.
pub fn held_replies()
    ensures { HeldReplies }
{}

/// While a command is held on a disk, the same namespace holds that disk: so no command held in a
/// life is no command held on its disk.
pub fn held_keeps_holder()
    ensures { HeldKeepsHolder }
{}

/// A queue's binding changes by its own calls alone.
pub fn bindings_are_own()
    ensures { BindingsAreOwn }
{}

/// The start of a simple plan as a target keeps it, by positions, stands for that start by names.
pub fn simple_stands()
    ensures { SimpleStands }
{}
