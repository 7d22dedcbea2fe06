//! The program `nvmetd` once more, run to generate a plan of seven rounds.
#![tactic(auto)]

use nvmetd_program::run_on_host;
use std::process::ExitCode;

fn main(rt: HostRuntime) -> ExitCode {
    run_on_host(&rt)
}
