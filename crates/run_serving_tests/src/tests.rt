// Whole runs: the journals of scripts, and the records of queues that aren't connected.
ghost use Rattle.std.specs.Prelude.{◌≡◌, ◌≤◌, All, IsTrue, length, ℕ};
ghost use Rattle.tree_target.specs.Edits.{is_well_formed};
ghost use Rattle.tree_target.specs.Kept.{IsIdle};
ghost use Rattle.run_serving.specs.Readiness.{IsServable};

use configfs_tree::{Errno, may_be_disks};
use journal_text::{Answer, JournalLine};
use link_rules::read_edit;
use mem_bdev::{DiskLine, Name};
use plan_files::read_sized_capsules;
use run_serving::{Output, Served, serve};
use run_transcript::{CapsuleFile, ScriptEdit};
use script_lines::read_lines;
use std::alloc::Global;
use std::process::Abort;
use std::test::Fail;
use tree_target::Target;

// A target over one disk with these queues, which aren't connected, and no configuration.
fn empty(rt: &impl Abort, alloc: Global, ports: &[u16]) -> Target
    ensures queues { length result.bindings ≡ length ports.now }
    ensures idle { (q : ℕ) → IsIdle result q }
{
    let line = DiskLine {
        path: Name::copied(alloc, b"/dev/ram0").expect(rt, "memory"),
        shift: 9,
        blocks: 16,
    };
    assert!(rt; line.is_shape());
    let lines = [line];
    assert!(rt; may_be_disks(&lines));
    assert!(rt; ports.len() <= 31);
    Target::load(alloc, &lines, &[], ports).expect(rt, "loaded")
}

// The edits of a script, each with the number of its line.
fn script_of(rt: &impl Abort, alloc: Global, text: &str) -> Vec<ScriptEdit> {
    let lines = read_lines(alloc, text.as_bytes());
    let lines = lines.ok().expect(rt, "lines");
    let mut script = Vec::new(alloc);
    for line in &lines {
        let found = read_edit(alloc, line).expect(rt, "memory");
        let edit = found.expect(rt, "an edit");
        let line = line.number;
        script
            .push(ScriptEdit { line, edit })
            .ok()
            .expect(rt, "memory");
    }
    script
}

fn file_of(rt: &impl Abort, alloc: Global, bytes: &[u8]) -> CapsuleFile
    ensures { IsServable result }
{
    let sized = read_sized_capsules(alloc, bytes);
    let sized = sized.ok().expect(rt, "capsules");
    CapsuleFile {
        bytes: bytes.to_vec(alloc).expect(rt, "memory"),
        capsules: sized.capsules,
        room: sized.room,
    }
}

// The edits of a script that may be served.
fn fitting(rt: &impl Abort, alloc: Global, text: &str) -> Vec<ScriptEdit>
    ensures few { length result.items ≤ 65536 }
    ensures well_formed { All (λ s. IsTrue (is_well_formed s.edit)) result.items }
{
    let script = script_of(rt, alloc, text);
    assert!(rt; script.len() <= 65_536);
    assert!(rt; script.iter().all(|s| s.edit.is_fitting()));
    script
}

// Serves a script and no capsule, with one queue.
fn scripted(rt: &impl Abort, alloc: Global, text: &str) -> Served {
    let mut target = empty(rt, alloc, &[1]);
    let script = fitting(rt, alloc, text);
    let files = [file_of(rt, alloc, &[])];
    serve(alloc, &mut target, &script, &files).expect(rt, "memory")
}

// Serves a script and two files, of queues that aren't connected.
fn served(rt: &impl Abort, alloc: Global, text: &str, first: &[u8], second: &[u8]) -> Served {
    let mut target = empty(rt, alloc, &[1, 1]);
    let script = fitting(rt, alloc, text);
    let files = [file_of(rt, alloc, first), file_of(rt, alloc, second)];
    serve(alloc, &mut target, &script, &files).expect(rt, "memory")
}

fn made(place: u32, line: u32) -> JournalLine {
    JournalLine::Edit {
        place,
        line,
        answer: Answer::Accepted,
    }
}

fn refused(place: u32, line: u32, errno: Errno) -> JournalLine {
    JournalLine::Edit {
        place,
        line,
        answer: Answer::Refused(errno),
    }
}

#[test]
fn edits_have_lines_in_the_journal(rt: HostRuntime) -> Result<(), Fail> {
    let text = "mkdir hosts/h\nmkdir hosts/h\nmkdir subsystems/s\n\
        link subsystems/s/allowed_hosts/h\nrmdir hosts/h\n";
    let ran = scripted(&rt, rt.alloc(), text);
    let lines = [
        made(0, 1),
        refused(1, 2, Errno::EEXIST),
        made(2, 3),
        made(3, 4),
        refused(4, 5, Errno::EBUSY),
    ];
    assert_eq!(rt; ran.journal.as_slice(), lines.as_slice());
    assert_eq!(rt; ran.places, 5);
    assert_eq!(rt; ran.accepted, 3);
    assert_eq!(rt; ran.refused, 2);
    assert_eq!(rt; ran.drains, 0);
    Ok(())
}

#[test]
fn a_drain_ends_at_once(rt: HostRuntime) -> Result<(), Fail> {
    let text = "mkdir subsystems/s\nmkdir subsystems/s/namespaces/1\n\
        set subsystems/s/namespaces/1 device_path /dev/ram0\n\
        set subsystems/s/namespaces/1 enable 1\nset subsystems/s/namespaces/1 enable 0\n\
        set subsystems/s/namespaces/1 enable 0\n";
    let ran = scripted(&rt, rt.alloc(), text);
    let lines = [
        made(0, 1),
        made(1, 2),
        made(2, 3),
        made(3, 4),
        made(4, 5),
        JournalLine::Done { place: 5, line: 5 },
        made(6, 6),
    ];
    assert_eq!(rt; ran.journal.as_slice(), lines.as_slice());
    assert_eq!(rt; ran.places, 7);
    assert_eq!(rt; ran.drains, 1);
    Ok(())
}

// A capsule of 64 bytes: a command with this opcode and identifier, and no data.
fn capsule(opcode: u8, cid: u8) -> [u8; 64] {
    let mut bytes = [0; 64];
    bytes[0] = opcode;
    bytes[2] = cid;
    bytes
}

// The record of a refusal, Invalid Opcode with Do Not Retry, on a queue that isn't connected.
fn refusal(place: u8, kind: u8, number: u8, cid: u8) -> [u8; 32] {
    let mut bytes = [0; 32];
    bytes[0] = place;
    bytes[4] = kind;
    bytes[5] = 1;
    bytes[8] = number;
    bytes[28] = cid;
    bytes[30] = 0x02;
    bytes[31] = 0x80;
    bytes
}

// Two capsules or two records, one behind the other.
fn both(rt: &impl Abort, alloc: Global, first: &[u8], second: &[u8]) -> Vec<u8> {
    let mut bytes = first.to_vec(alloc).expect(rt, "memory");
    bytes.extend_from_slice(second).ok().expect(rt, "memory");
    bytes
}

// An output of one refused submit and one refused fabrics command, with these records.
fn check_refusals(rt: &impl Abort, output: Option<&Output>, records: &[u8]) {
    let output = output.expect(rt, "an output");
    assert_eq!(rt; output.records.bytes(), records);
    assert_eq!(rt; output.submitted, 1);
    assert_eq!(rt; output.executed, 0);
    assert_eq!(rt; output.refused, 2);
}

#[test]
fn fronts_come_first_and_places_go_on(rt: HostRuntime) {
    let alloc = rt.alloc();
    let first = both(&rt, alloc, &capsule(0x02, 7), &capsule(0x7f, 8));
    let second = both(&rt, alloc, &capsule(0x7f, 9), &capsule(0x00, 10));
    let ran = served(&rt, alloc, "mkdir hosts/h\n", &first, &second);
    assert_eq!(rt; ran.journal.as_slice(), [made(1, 1)].as_slice());
    assert_eq!(rt; ran.places, 5);
    assert_eq!(rt; ran.outputs.len(), 2);
    let first = both(&rt, alloc, &refusal(2, 1, 0, 7), &refusal(3, 4, 1, 8));
    check_refusals(&rt, ran.outputs.get(0), &first);
    let second = both(&rt, alloc, &refusal(0, 4, 0, 9), &refusal(4, 1, 1, 10));
    check_refusals(&rt, ran.outputs.get(1), &second);
}
