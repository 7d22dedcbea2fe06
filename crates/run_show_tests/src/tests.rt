// Every answer of a showing with its line, and that it leaves each file.
use crate::rows::*;
use plan_files::{MemFiles, MemSink};
use run_inputs::read_inputs;
use run_outcomes::Fault;
use run_show::show_plan;
use std::alloc::Global;
use std::test::Fail;

const PLAN: &[u8] = b"nvmet-plan 1\ndisk /dev/ram0 9 16\nconfig c\njournal j\n";

// With a script and a queue whose files aren't there.
const WIDE_PLAN: &[u8] =
    b"nvmet-plan 1\ndisk /dev/ram0 9 16\nconfig c\nscript s\njournal j\nqueue 1 q1 r1\n";

const SIMPLE: &[u8] = b"nvmet-plan 1\nsimple\ndisk /dev/ram0 9 16\nqueue 1 q1 r1\n";

// The name of the plan that is shown, the plan `p`, the configuration `c` if there is one, the
// numbers of the calls on files that fail, the status, and what the sink takes.
type Row = (
    &'static str,
    &'static [u8],
    Option<&'static str>,
    &'static [u64],
    u8,
    &'static str,
);

const NOT_FOUND: Option<&str> = Some(
    "{\"subsystems\":[{\"nqn\":\"s\",\"namespaces\":[{\"nsid\":1,\"device\":{\"path\":\"/dev/none\"},\"enable\":1}]}]}",
);

const ROWS: &[Row] = &[
    ("p", PLAN, Some(EXAMPLE), &[], 0, SHOWN),
    ("p", WIDE_PLAN, Some(EXAMPLE), &[], 0, SHOWN),
    ("p", PLAN, Some(TWO_PORTS), &[], 0, TWO_PORTS_SHOWN),
    ("p", PLAN, Some("{}"), &[], 0, EMPTY_SHOWN),
    ("p", SIMPLE, None, &[], 0, SIMPLE_SHOWN),
    ("p", PLAN, Some("[1"), &[], 2, "malformed c json\n"),
    ("p", PLAN, Some("[]"), &[], 2, "malformed c member \n"),
    (
        "p",
        PLAN,
        Some("{\"hosts\":[{}]}"),
        &[],
        2,
        "malformed c member /hosts/0/nqn\n",
    ),
    (
        "p",
        PLAN,
        Some("{\"ports\":[{\"portid\":65536}]}"),
        &[],
        2,
        "malformed c member /ports/0/portid\n",
    ),
    (
        "p",
        b"nvmet-plan 1\ndisc x\n",
        Some("[1"),
        &[],
        2,
        "malformed p line 2\n",
    ),
    ("nope", PLAN, Some("{}"), &[], 3, "cannot read nope\n"),
    ("p", PLAN, Some("{}"), &[0], 3, "cannot read p\n"),
    ("p", PLAN, Some("{}"), &[1], 3, "cannot read c\n"),
    ("p", PLAN, None, &[], 3, "cannot read c\n"),
    ("p", PLAN, NOT_FOUND, &[], 7, "config edit 4 ENOENT\n"),
    (
        "p",
        PLAN,
        Some("{\"hosts\":[{\"nqn\":\"h\"},{\"nqn\":\"h\"}]}"),
        &[],
        7,
        "config edit 2 EEXIST\n",
    ),
];

// The status of an answer, as a run has it.
fn status_of(answer: &Result<(), Fault>) -> u8 {
    match answer {
        Ok(()) => 0,
        Err(Fault::Malformed { .. }) => 2,
        Err(Fault::ReadFault { .. }) => 3,
        Err(Fault::WriteFault { .. }) => 4,
        Err(Fault::Memory) => 5,
        Err(Fault::Limit { .. }) => 6,
        Err(Fault::ConfigRefused { .. }) => 7,
    }
}

// The files before a showing, a response file and a journal of an earlier run among them.
fn files_of(alloc: Global, row: &Row) -> Result<MemFiles, Fail> {
    let mut files = MemFiles::new(alloc, Vec::from_slice(alloc, row.3)?);
    files.put("p", row.1)?;
    if let Some(c) = row.2 {
        files.put("c", c.as_bytes())?;
    }
    files.put("r1", b"old")?;
    files.put("j", b"older")?;
    Ok(files)
}

// Whether the files of a row are as they were.
fn are_kept(files: &MemFiles, row: &Row) -> bool {
    let config = match row.2 {
        Some(c) => files.content("c") == Some(c.as_bytes()) && files.count() == 4,
        None => files.count() == 3,
    };
    config
        && files.content("p") == Some(row.1)
        && files.content("r1") == Some(b"old".as_slice())
        && files.content("j") == Some(b"older".as_slice())
}

// Shows a row into a sink with so much room; what isn't as wanted is the answer.
fn differs(alloc: Global, row: &Row, room: usize, status: u8) -> Result<&'static str, Fail> {
    let mut files = files_of(alloc, row)?;
    let mut out = MemSink::new(alloc, room, Vec::new(alloc))?;
    let answer = show_plan(alloc, row.0, &mut files, &mut out);
    let text = row.5.as_bytes();
    let said = &text[..room.min(text.len())];
    Ok(if status_of(&answer) != status {
        "status"
    } else if out.bytes() != said {
        "sink"
    } else if !are_kept(&files, row) {
        "files"
    } else {
        ""
    })
}

#[test]
fn each_answer_has_its_text_and_leaves_the_files(rt: HostRuntime) -> Result<(), Fail> {
    for (number, row) in ROWS.iter().enumerate() {
        let differs = differs(rt.alloc(), row, 4096, row.4)?;
        assert_eq!(rt; differs, "", "row {number}");
    }
    Ok(())
}

// A sink that fails at the first byte, at every 97th and at the last: of the text that is shown that
// is a fault of its own, of another line it changes no status.
#[test]
fn a_sink_that_fails(rt: HostRuntime) -> Result<(), Fail> {
    for (number, row) in ROWS.iter().enumerate() {
        let status = if row.4 == 0 { 4 } else { row.4 };
        let bytes = row.5.len();
        for room in 0..bytes {
            if room % 97 == 0 || room + 1 == bytes {
                let differs = differs(rt.alloc(), row, room, status)?;
                assert_eq!(rt; differs, "", "row {number}, room {room}");
            }
        }
    }
    Ok(())
}

// What is shown of the plan with this configuration.
fn shown(alloc: Global, config: &[u8]) -> Result<Vec<u8>, Fail> {
    let mut files = MemFiles::new(alloc, Vec::new(alloc));
    files.put("p", PLAN)?;
    files.put("c", config)?;
    let mut out = MemSink::new(alloc, 4096, Vec::new(alloc))?;
    let _ = show_plan(alloc, "p", &mut files, &mut out);
    Ok(Vec::from_slice(alloc, out.bytes())?)
}

// How many members of this configuration a run of the plan passes over.
fn passed_over(alloc: Global, config: &[u8]) -> Result<Option<u64>, Fail> {
    let mut files = MemFiles::new(alloc, Vec::new(alloc));
    files.put("p", PLAN)?;
    files.put("c", config)?;
    Ok(match read_inputs(alloc, "p", &mut files) {
        Ok(inputs) => Some(inputs.passed_over),
        Err(_) => None,
    })
}

// A configuration, and how many of its members are passed over.
const LOADS: &[(&str, u64)] = &[
    (EXAMPLE, 4),
    (SHOWN, 0),
    (TWO_PORTS, 0),
    (TWO_PORTS_SHOWN, 0),
];

// What is shown of a configuration is loaded again with nothing passed over, and the same is shown of
// it.
#[test]
fn what_is_shown_is_shown_again(rt: HostRuntime) -> Result<(), Fail> {
    for (config, count) in LOADS {
        let text = shown(rt.alloc(), config.as_bytes())?;
        let again = shown(rt.alloc(), &text)?;
        assert!(rt; again.as_slice() == text.as_slice());
        assert!(rt; passed_over(rt.alloc(), config.as_bytes())? == Some(*count));
        assert!(rt; passed_over(rt.alloc(), &text)? == Some(0));
    }
    Ok(())
}

// With ample memory a configuration is shown. With an allocation refused the line says so, and
// nothing is written.
#[test]
fn a_showing_with_refused_memory(rt: HostRuntime) -> Result<(), Fail> {
    let alloc = rt.alloc();
    let mut files = MemFiles::new(alloc, Vec::new(alloc));
    if files.put("p", PLAN).is_err() || files.put("c", EXAMPLE.as_bytes()).is_err() {
        return Ok(());
    }
    let Ok(mut out) = MemSink::new(alloc, 4096, Vec::new(alloc)) else {
        return Ok(());
    };
    let answer = show_plan(alloc, "p", &mut files, &mut out);
    assert_eq!(rt; files.count(), 2);
    if status_of(&answer) == 0 {
        assert_eq!(rt; out.bytes(), SHOWN.as_bytes());
    } else {
        assert_eq!(rt; status_of(&answer), 5);
        assert_eq!(rt; out.bytes(), b"out of memory\n".as_slice());
    }
    Ok(())
}
