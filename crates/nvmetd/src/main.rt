//! The program `nvmetd`: an NVMe target that serves files of commands.
//!
//! All that it does is `run_on_host` of `nvmetd_program`.
#![tactic(auto)]

use nvmetd_program::run_on_host;
use std::process::ExitCode;

fn main(rt: HostRuntime) -> ExitCode {
    run_on_host(&rt)
}
