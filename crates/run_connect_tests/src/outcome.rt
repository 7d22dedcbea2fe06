// A run over files in memory, and what it left.
use nvmet_run::run_plan;
use plan_files::{MemFiles, MemSink, OpenGate};
use std::alloc::Global;
use std::sync::Wait;
use std::test::Fail;
use std::thread::Threads;

/// What a run left: its exit status, the files, what the sink took.
#[derive(Drop)]
pub struct Outcome {
    pub code: u8,
    pub files: MemFiles,
    pub out: MemSink,
}

impl Outcome {
    /// What the sink took.
    pub fn text(&self) -> &[u8] {
        self.out.bytes()
    }

    /// What a name holds; nothing where it isn't there.
    pub fn content(&self, name: &str) -> &[u8] {
        match self.files.content(name) {
            Some(bytes) => bytes,
            None => &[],
        }
    }
}

/// Runs the plan `p` over files in memory.
pub fn run_files<R: Wait + Threads + Sync>(
    rt: &R,
    alloc: Global,
    mut files: MemFiles,
) -> Result<Outcome, Fail> {
    let mut out = MemSink::new(alloc, 4096, Vec::new(alloc))?;
    let status = run_plan(rt, alloc, "p", &mut files, &mut out, &OpenGate);
    Ok(Outcome {
        code: status.code(),
        files,
        out,
    })
}

/// Runs the plan `p` over these files.
pub fn run<R: Wait + Threads + Sync>(
    rt: &R,
    alloc: Global,
    contents: &[(&str, &[u8])],
) -> Result<Outcome, Fail> {
    let mut files = MemFiles::new(alloc, Vec::new(alloc));
    for (name, bytes) in contents {
        files.put(name, bytes)?;
    }
    run_files(rt, alloc, files)
}
