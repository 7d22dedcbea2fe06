// What is read of files in memory, and each first fault with its place.
use crate::{Inputs, file_name, read_inputs};
use plan_files::{MemFiles, read_plan};
use run_outcomes::{At, Fault, FileNo};
use std::alloc::{AllocError, Global};
use std::test::Fail;

fn put_place(alloc: Global, file: u32, at: &At) -> Result<String, AllocError> {
    match at {
        At::Line(line) => format!(in alloc; "{file} line {line}"),
        At::Offset(offset) => format!(in alloc; "{file} offset {offset}"),
        At::Json => format!(in alloc; "{file} json"),
        At::Shape(pointer) => {
            let mut text = format!(in alloc; "{file} member ")?;
            text.push_str(std::str::from_utf8(pointer.as_bytes()).unwrap_or("?"))?;
            Ok(text)
        }
    }
}

// A fault as a text, with the number of its file.
fn fault_text(alloc: Global, fault: &Fault) -> Result<String, AllocError> {
    match fault {
        Fault::Malformed { file, at } => put_place(alloc, file.0, at),
        Fault::ReadFault { file } => {
            let number = file.0;
            format!(in alloc; "{number} not read")
        }
        Fault::WriteFault { file } => {
            let number = file.0;
            format!(in alloc; "{number} not written")
        }
        Fault::Memory => format!(in alloc; "memory"),
        Fault::Limit { file, what, count } => {
            let number = file.0;
            let word = what.word();
            format!(in alloc; "{number} {word} {count}")
        }
        Fault::ConfigRefused { edit, errno } => {
            let word = errno.name();
            format!(in alloc; "edit {edit} {word}")
        }
    }
}

// How much was read: queues, edits, files, and what was passed over.
fn inputs_text(alloc: Global, i: &Inputs) -> Result<String, AllocError> {
    let queues = i.target.queues();
    let edits = i.script.len();
    let files = i.files.len();
    let passed_over = i.passed_over;
    format!(in alloc; "queues {queues} edits {edits} files {files} passed {passed_over}")
}

// What reading gives, where these calls fail.
fn told(alloc: Global, named: &[(&str, &[u8])], fails: &[u64]) -> Result<String, Fail> {
    let mut files = MemFiles::new(alloc, fails.to_vec(alloc)?);
    for (name, bytes) in named {
        files.put(name, bytes)?;
    }
    match read_inputs(alloc, "p", &mut files) {
        Ok(inputs) => Ok(inputs_text(alloc, &inputs)?),
        Err(fault) => Ok(fault_text(alloc, &fault)?),
    }
}

const SIMPLE: &[u8] = b"nvmet-plan 1\nsimple\ndisk /dev/ram0 9 16\nqueue 1 q1 r1\n";

const PLAN: &[u8] =
    b"nvmet-plan 1\ndisk /dev/ram0 9 16\nconfig c\nscript s\njournal j\nqueue 1 q1 r1\nqueue 1 q2 r2\n";

const NO_SCRIPT: &[u8] = b"nvmet-plan 1\nconfig c\njournal j\n";

// The example of nvmetcli's JSON: four of its members say nothing here.
const EXAMPLE: &[u8] =
    b"{\"hosts\":[{\"nqn\":\"hostnqn\"}],\"ports\":[{\"addr\":{\"adrfam\":\"\",\"traddr\":\"\",\"treq\":\"not specified\",\"trsvcid\":\"\",\"trtype\":\"loop\"},\"param\":{\"inline_data_size\":\"16384\"},\"portid\":1,\"referrals\":[],\"subsystems\":[\"testnqn\"]}],\"subsystems\":[{\"allowed_hosts\":[\"hostnqn\"],\"attr\":{\"allow_any_host\":\"0\",\"cntlid_max\":\"65519\",\"cntlid_min\":\"1\",\"model\":\"Linux\",\"serial\":\"5aefdbbc0a7be8e7\",\"version\":\"1.3\"},\"namespaces\":[{\"ana_grpid\":1,\"device\":{\"nguid\":\"ef90689c-6c46-d44c-89c1-4067801309a8\",\"path\":\"/dev/ram0\"},\"enable\":1,\"nsid\":1}],\"nqn\":\"testnqn\"}]}";

// Namespace 1 is enabled by the fourth edit, on a disk that isn't there.
const NO_DISK: &[u8] =
    b"{\"subsystems\":[{\"nqn\":\"s\",\"namespaces\":[{\"nsid\":1,\"device\":{\"path\":\"/dev/none\"},\"enable\":1}]}]}";

// Line 5 has byte 1Fh, but line 3 says no edit.
const SCRIPT: &[u8] = b"mkdir hosts/h\n#\nmkdir host/h\nmkdir hosts/i\nmkdir \x1f\n";

// Plan, configuration, script, the capsules of queues 1 and 2, and what reading gives.
type Row = (
    &'static [u8],
    &'static [u8],
    &'static [u8],
    &'static [u8],
    &'static [u8],
    &'static str,
);

const CUT: &[u8] = &[0; 63];

const CUT_LATER: &[u8] = &[0; 65];

const ONE: &[u8] = &[0; 64];

const ROWS: &[Row] = &[
    (
        SIMPLE,
        b"",
        b"",
        b"",
        b"",
        "queues 1 edits 0 files 1 passed 0",
    ),
    (
        SIMPLE,
        b"",
        b"",
        ONE,
        b"",
        "queues 1 edits 0 files 1 passed 0",
    ),
    (
        PLAN,
        b"{}",
        b"",
        b"",
        b"",
        "queues 2 edits 0 files 2 passed 0",
    ),
    (
        PLAN,
        EXAMPLE,
        b"#\nmkdir hosts/h\n",
        ONE,
        b"",
        "queues 2 edits 1 files 2 passed 4",
    ),
    (
        NO_SCRIPT,
        b"{\"x\":1}",
        SCRIPT,
        CUT,
        CUT,
        "queues 0 edits 0 files 0 passed 1",
    ),
    (b"", b"", b"", b"", b"", "0 line 1"),
    (
        b"nvmet-plan 1\nqueue 1 a b\n",
        b"[",
        b"",
        b"",
        b"",
        "0 line 3",
    ),
    (PLAN, b"[1", SCRIPT, CUT, CUT, "1 json"),
    (
        PLAN,
        b"{\"hosts\":[{}]}",
        SCRIPT,
        CUT,
        CUT,
        "1 member /hosts/0/nqn",
    ),
    (
        PLAN,
        b"{\"ports\":[{\"portid\":65536}]}",
        b"",
        b"",
        b"",
        "1 member /ports/0/portid",
    ),
    (PLAN, b"[]", b"", b"", b"", "1 member "),
    (PLAN, NO_DISK, SCRIPT, CUT, CUT, "edit 4 ENOENT"),
    (PLAN, b"{}", SCRIPT, CUT, CUT, "2 line 3"),
    (PLAN, b"{}", b"\n\x1f\n", CUT, CUT, "2 line 2"),
    (PLAN, b"{}", b"", CUT, CUT, "4 offset 0"),
    (PLAN, b"{}", b"", CUT_LATER, CUT, "4 offset 64"),
    (PLAN, b"{}", b"", ONE, CUT, "6 offset 0"),
    (PLAN, b"{}", b"", b"", CUT_LATER, "6 offset 64"),
];

#[test]
fn first_faults_in_order(rt: HostRuntime) -> Result<(), Fail> {
    for (plan, config, script, first, second, want) in ROWS {
        let named: [(&str, &[u8]); 5] = [
            ("p", plan),
            ("c", config),
            ("s", script),
            ("q1", first),
            ("q2", second),
        ];
        let told = told(rt.alloc(), &named, &[])?;
        assert_eq!(rt; told.as_str(), *want);
    }
    Ok(())
}

// The number of the call that fails, or of the files that are there, and what reading gives.
const CALLS: &[(u64, usize, &str)] = &[
    (0, 5, "0 not read"),
    (1, 5, "1 not read"),
    (2, 5, "2 not read"),
    (3, 5, "4 not read"),
    (4, 5, "6 not read"),
    (5, 5, "queues 2 edits 0 files 2 passed 0"),
    (9, 0, "0 not read"),
    (9, 1, "1 not read"),
    (9, 2, "2 not read"),
    (9, 3, "4 not read"),
    (9, 4, "6 not read"),
];

#[test]
fn reads_that_fail(rt: HostRuntime) -> Result<(), Fail> {
    let named: [(&str, &[u8]); 5] = [
        ("p", PLAN),
        ("c", b"{}"),
        ("s", b""),
        ("q1", b""),
        ("q2", b""),
    ];
    for (call, there, want) in CALLS {
        let there = (*there).min(5);
        let told = told(rt.alloc(), &named[..there], &[*call])?;
        assert_eq!(rt; told.as_str(), *want);
    }
    Ok(())
}

// A file of so many times one byte, and what reading gives. A line end alone is a line that is
// passed over, and 64 zeros are a capsule.
const LIMITS: &[(&str, u8, usize, &str)] = &[
    ("p", b'#', 65_537, "0 bytes 65537"),
    ("p", b'#', 65_536, "0 line 1"),
    ("c", b'[', 4_194_305, "1 bytes 4194305"),
    ("c", b'[', 4_194_304, "1 json"),
    ("s", b'a', 4_194_305, "2 bytes 4194305"),
    ("s", b'a', 4_194_304, "2 line 1"),
    ("s", b'\n', 65_536, "queues 2 edits 0 files 2 passed 0"),
    ("s", b'\n', 65_537, "2 lines 65537"),
    ("s", b'a', 1_025, "2 line 1"),
    ("q2", 0, 4_194_304, "queues 2 edits 0 files 2 passed 0"),
    ("q2", 0, 4_194_305, "6 capsules 65537"),
];

#[test]
fn limits_at_both_sides(rt: HostRuntime) -> Result<(), Fail> {
    let alloc = rt.alloc();
    for (name, byte, count, want) in LIMITS {
        let long = vec![in alloc; *byte; *count]?;
        let named: [(&str, &[u8]); 6] = [
            ("p", PLAN),
            ("c", b"{}"),
            ("s", b""),
            ("q1", b""),
            ("q2", b""),
            (name, &long),
        ];
        let told = told(alloc, &named, &[])?;
        assert_eq!(rt; told.as_str(), *want);
    }
    Ok(())
}

// The number of a file, and its name.
const NAMES: &[(u32, &str)] = &[
    (0, "p"),
    (1, "c"),
    (2, "s"),
    (3, "j"),
    (4, "q1"),
    (5, "r1"),
    (6, "q2"),
    (7, "r2"),
    (8, "p"),
];

#[test]
fn names_by_number(rt: HostRuntime) -> Result<(), Fail> {
    let Ok(plan) = read_plan(rt.alloc(), PLAN) else {
        return Err("no plan".into());
    };
    for (number, want) in NAMES {
        if plan.queues.len() <= 31 {
            let name = file_name(b"p", &plan, FileNo(*number));
            assert!(rt; name == want.as_bytes());
        }
    }
    Ok(())
}
