// The four commands by their words, and words that are none.
use crate::capsules::entry;
use nvmet_run::command;
use plan_files::{MemFiles, MemSink, OpenGate};
use sqe_cqe::write_sqe;
use std::alloc::Global;
use std::sync::Wait;
use std::test::Fail;
use std::thread::Threads;

const PLAN: &[u8] = b"nvmet-plan 1\nsimple\ndisk /dev/ram0 9 16\nqueue 1 q1 r1\n";

const USAGE: &[u8] = b"usage: nvmetd run PLAN | check PLAN | show PLAN | gen N NAME\n";

// What a simple plan starts with, as nvmetcli would save it.
const SHOWN: &[u8] =
    b"{\"hosts\":[],\"ports\":[{\"addr\":{\"adrfam\":\"\",\"traddr\":\"\",\"treq\":\"not specified\",\"trsvcid\":\"\",\"trtype\":\"loop\"},\"ana_groups\":[{\"ana\":{\"state\":\"optimized\"},\"grpid\":1}],\"portid\":1,\"referrals\":[],\"subsystems\":[\"nqn.2014-08.org.nvmexpress:simple\"]}],\"subsystems\":[{\"allowed_hosts\":[],\"attr\":{\"allow_any_host\":\"1\",\"model\":\"Linux\",\"serial\":\"00000000000000000001\"},\"namespaces\":[{\"ana_grpid\":1,\"device\":{\"nguid\":\"00000000-0000-0000-0000-000000000000\",\"path\":\"/dev/ram0\",\"uuid\":\"00000000-0000-0000-0000-000000000000\"},\"enable\":1,\"nsid\":1}],\"nqn\":\"nqn.2014-08.org.nvmexpress:simple\"}]}\n";

const GENERATED: &[u8] =
    b"places 238\nedits 16 accepted 0 refused\ndrains 8\ncommands 104 submitted 84 executed 0 refused\nevents 1 answered 3 waiting\nbytes 43008 in 151552 out\nconfig 0 passed over\n";

// Words, one after another on the same files, with the exit status and what the sink takes; of a
// run, the summary stands in other tests.
const ROWS: &[(&[&str], u8, Option<&[u8]>)] = &[
    (&["check", "p"], 3, Some(b"cannot read r1\n")),
    (&["run", "p"], 0, None),
    (&["check", "p"], 0, Some(b"legal 0\n")),
    (&["show", "p"], 0, Some(SHOWN)),
    (&["gen", "7", "g"], 0, Some(GENERATED)),
    (&["check", "g.plan"], 3, Some(b"cannot read g.r1\n")),
    (&["run", "g.plan"], 0, Some(GENERATED)),
    (&["check", "g.plan"], 0, Some(b"legal 238\n")),
    (&["check"], 1, Some(USAGE)),
    (&["check", "-p"], 1, Some(USAGE)),
    (&["check", "p", "p"], 1, Some(USAGE)),
    (&["Show", "p"], 1, Some(USAGE)),
    (&["show", ""], 1, Some(USAGE)),
    (&["gen", "7"], 1, Some(USAGE)),
    (&["gen", "0", "g"], 1, Some(USAGE)),
    (&["gen", "07", "g"], 1, Some(USAGE)),
    (&["gen", "+7", "g"], 1, Some(USAGE)),
    (&["gen", "4097", "g"], 1, Some(USAGE)),
    (&["gen", "7", "-g"], 1, Some(USAGE)),
    (&["gen", "7", "g", "g"], 1, Some(USAGE)),
];

// The exit status of a command on these files, and what the sink took.
fn answer<R: Wait + Threads + Sync>(
    rt: &R,
    alloc: Global,
    words: &[&str],
    files: &mut MemFiles,
) -> Result<(u8, MemSink), Fail> {
    let mut line = Vec::new(alloc);
    for word in words {
        line.push(String::from_str(alloc, word)?)?;
    }
    let mut out = MemSink::new(alloc, 4096, Vec::new(alloc))?;
    let status = command(rt, alloc, &line, files, &mut out, &OpenGate);
    Ok((status.code(), out))
}

#[test]
fn each_line_of_words_has_its_answer(rt: HostRuntime) -> Result<(), Fail> {
    let alloc = rt.alloc();
    let mut files = MemFiles::new(alloc, Vec::new(alloc));
    files.put("p", PLAN)?;
    files.put("q1", b"")?;
    for (i, (words, code, text)) in ROWS.iter().enumerate() {
        let (status, out) = answer(&rt, alloc, words, &mut files)?;
        assert_eq!(rt; status, *code, "row {i}");
        if let Some(text) = text {
            assert_eq!(rt; out.bytes(), *text, "row {i}");
        }
    }
    assert_eq!(rt; files.content("g.q1").map(|bytes| bytes.len()), Some(2432));
    assert_eq!(rt; files.content("g.q2").map(|bytes| bytes.len()), Some(17216));
    Ok(())
}

// A name of 200 bytes is one of `gen`, and one of 201 isn't.
#[test]
fn names_of_gen_end_at_200_bytes(rt: HostRuntime) -> Result<(), Fail> {
    let alloc = rt.alloc();
    let mut files = MemFiles::new(alloc, Vec::new(alloc));
    let mut name = String::new(alloc);
    for _ in 0..200 {
        name.push_str("n")?;
    }
    let (status, _) = answer(&rt, alloc, &["gen", "1", name.as_str()], &mut files)?;
    assert_eq!(rt; (status, files.count()), (0, 7));
    name.push_str("n")?;
    let (status, _) = answer(&rt, alloc, &["gen", "1", name.as_str()], &mut files)?;
    assert_eq!(rt; (status, files.count()), (1, 7));
    Ok(())
}

// What is done to r1 behind a run: one byte of it is another, and only so many bytes are left. The
// exit status of its check, and the line.
const DAMAGES: &[(usize, u8, usize, u8, &[u8])] = &[
    (32, 1, 4224, 0, b"legal 4\n"),
    (32, 3, 4224, 8, b"not legal place 1 place\n"),
    (4223, 2, 4224, 8, b"not legal place 3 bytes\n"),
    (32, 1, 96, 8, b"not legal place 3 order\n"),
    (36, 9, 4224, 2, b"malformed r1 offset 32\n"),
];

// A Write of eight blocks of byte 1 and a Read of the same are run, and r1 is checked as it was left,
// and damaged.
#[test]
fn a_run_is_checked_as_it_was_left_and_damaged(rt: HostRuntime) -> Result<(), Fail> {
    let alloc = rt.alloc();
    let mut files = MemFiles::new(alloc, Vec::new(alloc));
    files.put("p", PLAN)?;
    let mut q1 = Vec::from_slice(alloc, &write_sqe(&entry(1, 1, 1, 0, 7, 4096)))?;
    q1.extend_from_slice(&[1; 4096])?;
    q1.extend_from_slice(&write_sqe(&entry(2, 2, 1, 0, 7, 4096)))?;
    files.put("q1", &q1)?;
    let (status, _) = answer(&rt, alloc, &["run", "p"], &mut files)?;
    assert_eq!(rt; status, 0);
    let whole = Vec::from_slice(alloc, files.content("r1").unwrap_or(&[]))?;
    assert_eq!(rt; whole.len(), 4224);
    for (at, byte, length, code, line) in DAMAGES {
        let mut r1 = Vec::from_slice(alloc, &whole)?;
        if let Some(b) = r1.get_mut(*at) {
            *b = *byte;
        }
        r1.truncate(*length);
        files.put("r1", &r1)?;
        let (status, out) = answer(&rt, alloc, &["check", "p"], &mut files)?;
        assert_eq!(rt; status, *code);
        assert_eq!(rt; out.bytes(), *line);
    }
    Ok(())
}
