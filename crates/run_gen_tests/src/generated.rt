// Commands over files in memory.
use crate::wanted::ENDINGS;
use nvmet_run::command;
use plan_files::{MemFiles, MemSink, OpenGate};
use std::alloc::Global;
use std::sync::Wait;
use std::test::Fail;
use std::thread::Threads;

/// The exit status of a command on these files, with a sink of so much room, and what it took.
pub fn answer_within<R: Wait + Threads + Sync>(
    rt: &R,
    alloc: Global,
    words: &[&str],
    files: &mut MemFiles,
    room: usize,
) -> Result<(u8, MemSink), Fail> {
    let mut line = Vec::new(alloc);
    for word in words {
        line.push(String::from_str(alloc, word)?)?;
    }
    let mut out = MemSink::new(alloc, room, Vec::new(alloc))?;
    let status = command(rt, alloc, &line, files, &mut out, &OpenGate);
    Ok((status.code(), out))
}

/// The same with ample room.
pub fn answer<R: Wait + Threads + Sync>(
    rt: &R,
    alloc: Global,
    words: &[&str],
    files: &mut MemFiles,
) -> Result<(u8, MemSink), Fail> {
    answer_within(rt, alloc, words, files, 4096)
}

/// The first of these files, as many as the names have endings, that doesn't hold what is wanted of
/// it; nothing where each does.
pub fn first_other(
    alloc: Global,
    files: &MemFiles,
    name: &str,
    wanted: &[Vec<u8>],
) -> Result<&'static str, Fail> {
    for (ending, bytes) in ENDINGS.iter().zip(wanted) {
        let name = format!(in alloc; "{name}{ending}")?;
        if files.content(name.as_str()) != Some(bytes.as_slice()) {
            return Ok(ending);
        }
    }
    Ok("")
}
