// The check of a plan over files in memory.
use plan_files::{MemFiles, MemSink};
use run_check::{CheckFault, check_plan};
use run_outcomes::Fault;
use std::alloc::Global;
use std::test::Fail;

/// How a check ended: the exit status that stands for it, and what the sink took.
#[derive(Drop)]
pub struct Answer {
    pub status: u8,
    pub out: MemSink,
}

impl Answer {
    /// What the sink took.
    pub fn text(&self) -> &[u8] {
        self.out.bytes()
    }
}

// The exit status, by the table of statuses.
fn status_of(end: &Result<(), CheckFault>) -> u8 {
    match end {
        Ok(()) => 0,
        Err(CheckFault::Stopped(Fault::Malformed { .. })) => 2,
        Err(CheckFault::Stopped(Fault::ReadFault { .. })) => 3,
        Err(CheckFault::Stopped(Fault::WriteFault { .. })) => 4,
        Err(CheckFault::Stopped(Fault::Memory)) => 5,
        Err(CheckFault::Stopped(Fault::Limit { .. })) => 6,
        Err(CheckFault::Stopped(Fault::ConfigRefused { .. })) => 7,
        Err(CheckFault::NotLegal { .. }) => 8,
    }
}

/// Checks the plan `p` over these files.
pub fn check_in(alloc: Global, mut files: MemFiles) -> Result<Answer, Fail> {
    let mut out = MemSink::new(alloc, 256, Vec::new(alloc))?;
    let end = check_plan(alloc, "p", &mut files, &mut out);
    Ok(Answer {
        status: status_of(&end),
        out,
    })
}

/// The same with these contents.
pub fn check_files(alloc: Global, contents: &[(&str, &[u8])]) -> Result<Answer, Fail> {
    let mut files = MemFiles::new(alloc, Vec::new(alloc));
    for (name, bytes) in contents {
        files.put(name, bytes)?;
    }
    check_in(alloc, files)
}
