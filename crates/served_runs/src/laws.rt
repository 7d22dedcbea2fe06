// The law, as the contract of a function that does nothing.
ghost use Rattle.served_runs.specs.Reading.{ServedIsReadThrough};

/// An ordered and served run is read through, capsule by capsule and line by line.
pub fn served_runs_are_read()
    ensures { ServedIsReadThrough }
{}
