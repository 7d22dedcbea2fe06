// Laws of right runs and of faults, each the contract of a function that does nothing.
ghost use Rattle.run_verdicts.specs.Laws.{OneFault, RightHasNoFault, RightIsTranscript, TranscriptIsRight};

/// A right run is ordered, served and legal, and has as many places as are looked for.
pub fn right_runs_are_transcripts()
    ensures { RightIsTranscript }
{}

/// A run that is ordered, served and legal is right.
pub fn transcripts_are_right()
    ensures { TranscriptIsRight }
{}

/// A right run has no fault.
pub fn right_runs_have_no_fault()
    ensures { RightHasNoFault }
{}

/// A run has one fault at the most, by its place and its field.
pub fn runs_have_one_fault()
    ensures { OneFault }
{}
