//! The program `nvmetd` once more, run to show a configuration that nvmetcli saved, as a plan loads
//! it.
#![tactic(auto)]

use nvmetd_program::run_on_host;
use std::process::ExitCode;

fn main(rt: HostRuntime) -> ExitCode {
    run_on_host(&rt)
}
