// Laws, each the contract of a function that does nothing.
ghost use Rattle.run_inputs.specs.Ready.{ToldFilesSettle};

/// A law, with nothing to run: what told files give in the order of reading is what was read of
/// them, unless a call on the files failed or memory ran out.
pub fn told_files_settle()
    ensures { ToldFilesSettle }
{}
