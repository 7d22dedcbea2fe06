//! Laws of the states that calls reach. A law is the contract of a function that does nothing.
ghost use Rattle.target_states.specs.Starts.{LoadedStarts, SimpleStarts};
ghost use Rattle.target_states.specs.Bindings.{BindingsAreOfEntries};
ghost use Rattle.target_states.specs.Laws.{EditorsAreAsComputed, EditorsDependOnTheDesk, EndsLeaveFixed, QueuesLeaveTheDesk, StatesAreKept, UnpublishedLeaveFixed};

/// After any calls a disk has the size that it began with, and each held command does what its
/// capsule asks, lies on its disk and has its data.
pub fn states_are_kept()
    ensures { StatesAreKept }
{}

/// No submit, Execute or poll changes what the editor's seat knows: the configuration with the
/// holders of disks, the controllers, the serials of last changes, and to what queues are connected.
pub fn queues_leave_the_desk()
    ensures { QueuesLeaveTheDesk }
{}

/// What an edit, a Connect, a property call or the end of a drain replies, whether it is published,
/// and what it leaves of the desk, are functions of the desk. So the editor may compute them where
/// it stands, and draw their place later: whatever queues call in between, they come to the same.
pub fn editors_depend_on_the_desk()
    ensures depend { EditorsDependOnTheDesk }
    ensures computed { EditorsAreAsComputed }
{}

/// A refused edit, one that writes what stood, a refused Connect, a Property Get: what isn't
/// published leaves settings, controllers and the serials of last changes. So does the end of a
/// drain, whatever stands.
pub fn unpublished_leave_what_is_fixed()
    ensures unpublished { UnpublishedLeaveFixed }
    ensures ends { EndsLeaveFixed }
{}

/// A configuration that was loaded over at most 64 disks, and the start of a simple plan, are starts
/// of which these laws speak, where each capsule's data are as long as its entry says.
pub fn plans_start_runs()
    ensures loaded { LoadedStarts }
    ensures simple { SimpleStarts }
{}

/// To what a queue is connected is told by its own entries: a completion of success on a queue that
/// isn't connected is that of a Connect, and it names the controller and the QID.
pub fn bindings_are_of_entries()
    ensures { BindingsAreOfEntries }
{}
