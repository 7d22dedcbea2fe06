ghost use Rattle.history_notices.specs.Laws.{AnaLogByFold, BitsByFold, ChangedListByFold, LoadedStarts, PollsByFold, ReadsClear, RequestsByFold, SimpleStarts};

/// A law, with nothing to run: the targets that plans begin with are starts of histories, in which
/// nothing was published and no admin queue is connected.
pub fn histories_begin()
    ensures loaded { LoadedStarts }
    ensures simple { SimpleStarts }
{}

/// A law, with nothing to run: after any legal history of fewer than 2^32 - 1 entries a poll gives the
/// event that the rules tell, an event request waits, or is refused where four wait, and Get Features
/// tells the bits.
pub fn notices_are_by_history()
    ensures polls { PollsByFold }
    ensures requests { RequestsByFold }
    ensures bits { BitsByFold }
{}

/// A law, with nothing to run: after any such history log 04h lists the namespaces that changed since
/// the Connect and the last read that cleared, log 0Ch counts the ANA changes, and a read of log 04h
/// with RAE 0 empties that list, where one with RAE 1 leaves it.
pub fn logs_are_by_history()
    ensures list { ChangedListByFold }
    ensures ana { AnaLogByFold }
    ensures clears { ReadsClear }
{}
