// A run that writes more than 64 KiB, and runs that would write over what they read.
use crate::records::{TRANSFER, capsules, responses};
use nvmet_run::{Status, run_plan};
use plan_files::{HostFiles, MemSink, OpenGate};
use run_outcomes::FileNo;
use std::alloc::Global;
use std::fs;
use std::sync::Wait;
use std::test::Fail;
use std::thread::Threads;
use test_files::{Folder, make_content};

// The plan of one queue, whose files have these names.
fn plan_of(alloc: Global, queue: &str, responses: &str) -> Result<String, Fail> {
    let head = "nvmet-plan 1\nsimple\ndisk /dev/ram0 12 32\n";
    Ok(format!(in alloc; "{head}queue 1 {queue} {responses}\n")?)
}

// Runs a plan over the real files, and says how it ended and what it put.
fn run<R: Wait + Threads + Sync>(
    rt: &R,
    host: &HostRuntime,
    plan: &str,
) -> Result<(Status, MemSink), Fail> {
    let alloc = host.alloc();
    let mut files = HostFiles::new(host, alloc);
    let mut out = MemSink::new(alloc, 4096, Vec::new(alloc))?;
    let status = run_plan(rt, alloc, plan, &mut files, &mut out, &OpenGate);
    Ok((status, out))
}

const SUMMARY: &str = "places 4\nedits 0 accepted 0 refused\ndrains 0\n\
commands 2 submitted 2 executed 0 refused\nevents 0 answered 0 waiting\n\
bytes 131072 in 131072 out\nconfig 0 passed over\n";

#[test]
fn a_response_file_of_many_pieces(rt: HostRuntime) -> Result<(), Fail> {
    let folder = Folder::new(&rt, "a-response-file-of-many-pieces")?;
    let (plan, queue, response) = (folder.name("p")?, folder.name("q1")?, folder.name("r1")?);
    let text = plan_of(rt.alloc(), queue.as_str(), response.as_str())?;
    let written = make_content(rt.alloc(), TRANSFER)?;
    fs::write(&rt, plan.as_str(), text.as_str())?;
    let served = capsules(rt.alloc(), &written)?;
    fs::write(&rt, queue.as_str(), served.as_slice())?;
    let (status, out) = run(&rt, &rt, plan.as_str())?;
    assert_eq!(rt; status.code(), 0);
    assert_eq!(rt; out.bytes(), SUMMARY.as_bytes());
    let found = fs::read(&rt, response.as_str())?;
    let want = responses(rt.alloc(), &written)?;
    assert_eq!(rt; found.len(), 131_200);
    assert!(rt; found.as_slice() == want.as_slice());
    assert_eq!(rt; folder.count()?, 3);
    folder.remove()
}

#[test]
fn a_run_writes_over_nothing_that_it_read(rt: HostRuntime) -> Result<(), Fail> {
    let folder = Folder::new(&rt, "a-run-writes-over-nothing")?;
    let (plan, queue) = (folder.name("p")?, folder.name("q1")?);
    let served = capsules(rt.alloc(), make_content(rt.alloc(), TRANSFER)?.as_slice())?;
    for response in ["./q1", "p", "./p"] {
        let response = folder.name(response)?;
        let text = plan_of(rt.alloc(), queue.as_str(), response.as_str())?;
        fs::write(&rt, plan.as_str(), text.as_str())?;
        fs::write(&rt, queue.as_str(), served.as_slice())?;
        let (status, out) = run(&rt, &rt, plan.as_str())?;
        let is_of_responses = match &status {
            Status::WriteFault { file } => file.0 == FileNo(5).0,
            _ => false,
        };
        assert!(rt; is_of_responses, "{response}");
        let line = format!(in rt.alloc(); "cannot write {response}\n")?;
        assert_eq!(rt; out.bytes(), line.as_bytes());
        assert!(rt; fs::read(&rt, plan.as_str())?.as_slice() == text.as_bytes());
        assert!(rt; fs::read(&rt, queue.as_str())?.as_slice() == served.as_slice());
        assert_eq!(rt; folder.count()?, 2);
    }
    folder.remove()
}
