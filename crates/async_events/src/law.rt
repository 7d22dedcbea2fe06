ghost use Rattle.async_events.specs.Laws.{ShowsFold, CatchUpShows, CaughtUpIsKept, StampsStay, StampsList, BeginsFresh, RequestWaits, ReadUnmasks, PollTakes, PollGives, BitsSet, ReadEmpties, ListsWhatChanged};
ghost use Rattle.async_events.specs.Features.{SetIsGot};

/// A law, with nothing to run: what the serials of last changes show is the fold over the history.
///
/// Entries that leave this controller's own state, one or many, show what the fold makes of them
/// (`fold`), and keep stamps at or below the serial (`stay`). To catch up changes nothing that is shown
/// (`catching`), and right after it what is kept is what is shown (`kept`). What is stamped above the
/// serial of a clearing read is what the changed list has by the fold (`list`).
pub fn events_are_the_fold()
    ensures fold { ShowsFold }
    ensures catching { CatchUpShows }
    ensures kept { CaughtUpIsKept }
    ensures stay { StampsStay }
    ensures list { StampsList }
{}

/// A law, with nothing to run: a controller's own calls are those of the fold. Its Connect and its
/// event requests are so at any time, and a read, a poll, what the poll gives, and new bits are so
/// where its kinds are caught up.
pub fn own_calls_are_the_fold()
    ensures begins { BeginsFresh }
    ensures request { RequestWaits }
    ensures read { ReadUnmasks }
    ensures poll { PollTakes }
    ensures gives { PollGives }
    ensures bits { BitsSet }
{}

/// A law, with nothing to run: the changed list of the fold holds exactly what some entry changed after
/// the last clearing read.
pub fn changed_since_read()
    ensures empties { ReadEmpties }
    ensures lists { ListsWhatChanged }
{}

/// A law, with nothing to run: notices and the keep alive time are got as they were set.
pub fn set_is_got()
    ensures { SetIsGot }
{}
