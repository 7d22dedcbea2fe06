//! The program `nvmetd` once more, run on a script with refused edits, links and a drain, beside a
//! queue whose Connect is refused: the files of examples/script.
#![tactic(auto)]

use nvmetd_program::run_on_host;
use std::process::ExitCode;

fn main(rt: HostRuntime) -> ExitCode {
    run_on_host(&rt)
}
