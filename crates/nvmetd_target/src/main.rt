//! The program `nvmetd` once more, run on a configuration whose namespaces and ANA groups a script
//! changes, with an admin queue and an I/O queue: the files of examples/target.
#![tactic(auto)]

use nvmetd_program::run_on_host;
use std::process::ExitCode;

fn main(rt: HostRuntime) -> ExitCode {
    run_on_host(&rt)
}
