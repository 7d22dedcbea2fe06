ghost use Rattle.io_commands.specs.Admission.{AdmittedIsOnSeen};

/// A law, with nothing to run: a command is admitted only where an enabled namespace is seen at its NSID, on whose disk its
/// job is and fits.
pub fn admitted_is_on_a_seen_disk()
    ensures { AdmittedIsOnSeen }
{}
