//! The program `nvmetd` once more, run on a plan of which a line is bad.
#![tactic(auto)]

use nvmetd_program::run_on_host;
use std::process::ExitCode;

fn main(rt: HostRuntime) -> ExitCode {
    run_on_host(&rt)
}
