ghost use Rattle.log_pages.specs.ChangedList.{ListIsStamps};

/// A law, with nothing to run: the NSIDs that are stamped above the serial of the last clearing read
/// are those with a namespace change in the entries after it.
pub fn changed_list_is_by_history()
    ensures { ListIsStamps }
{}
