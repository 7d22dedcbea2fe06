// Runs with a configuration and a script: the journal, the places, the lines of faults.
use crate::capsules::{entry, record};
use crate::outcome::run;
use sqe_cqe::write_sqe;
use std::test::Fail;

// A plan with a disk, a configuration, a script and two queues.
const PLAN: &[u8] =
    b"nvmet-plan 1\ndisk /dev/ram0 9 16\nconfig c\nscript s\njournal j\nqueue 1 q1 r1\nqueue 2 q2 r2\n";

// A script, the journal that it gives on an empty configuration, and the second line of the summary.
const JOURNALS: &[(&str, &str, &str)] = &[
    (
        "",
        "nvmet-journal 1\nplaces 0\n",
        "edits 0 accepted 0 refused",
    ),
    (
        "mkdir hosts/h\nmkdir hosts/h\nmkdir subsystems/s\nlink subsystems/s/allowed_hosts/h\nrmdir hosts/h\n",
        "nvmet-journal 1\nplaces 5\nedit 0 1 ok\nedit 1 2 EEXIST\nedit 2 3 ok\nedit 3 4 ok\nedit 4 5 EBUSY\n",
        "edits 3 accepted 2 refused",
    ),
    (
        "mkdir subsystems/s\nmkdir subsystems/s/namespaces/1\nset subsystems/s/namespaces/1 device_path /dev/ram0\nset subsystems/s/namespaces/1 enable 1\nset subsystems/s/namespaces/1 enable 0\nset subsystems/s/namespaces/1 enable 0",
        "nvmet-journal 1\nplaces 7\nedit 0 1 ok\nedit 1 2 ok\nedit 2 3 ok\nedit 3 4 ok\nedit 4 5 ok\ndone 5 5\nedit 6 6 ok\n",
        "edits 6 accepted 0 refused",
    ),
    (
        "# links\nmkdir subsystems/s\nmkdir ports/1\n\nlink ports/1/subsystems/s\nset ports/1 addr_trtype tcp\nlink ports/1/subsystems/s\nset ports/1 addr_trtype loop\nlink ports/1/subsystems/s\nlink ports/1/subsystems/s\nset ports/1 addr_traddr x\n",
        "nvmet-journal 1\nplaces 9\nedit 0 2 ok\nedit 1 3 ok\nedit 2 5 EINVAL\nedit 3 6 ok\nedit 4 7 EINVAL\nedit 5 8 ok\nedit 6 9 ok\nedit 7 10 EEXIST\nedit 8 11 EACCES\n",
        "edits 5 accepted 4 refused",
    ),
    (
        "mkdir subsystems/s\nmkdir subsystems/s/namespaces/1\nmkdir subsystems/s/namespaces/2\nset subsystems/s/namespaces/1 device_path /dev/ram0\nset subsystems/s/namespaces/2 device_path /dev/ram0\nset subsystems/s/namespaces/1 enable 1\nset subsystems/s/namespaces/2 enable 1\nset subsystems/s/namespaces/2 device_path /dev/none\nset subsystems/s/namespaces/2 enable 1\nrmdir subsystems/s/namespaces/1\nlink subsystems/s/allowed_hosts/h\n",
        "nvmet-journal 1\nplaces 11\nedit 0 1 ok\nedit 1 2 ok\nedit 2 3 ok\nedit 3 4 ok\nedit 4 5 ok\nedit 5 6 ok\nedit 6 7 EBUSY\nedit 7 8 ok\nedit 8 9 ENOENT\nedit 9 10 EBUSY\nedit 10 11 ENOENT\n",
        "edits 7 accepted 4 refused",
    ),
];

#[test]
fn each_script_has_its_journal(rt: HostRuntime) -> Result<(), Fail> {
    for (script, journal, edits) in JOURNALS {
        let contents = [
            ("p", PLAN),
            ("c", b"{}".as_slice()),
            ("s", script.as_bytes()),
            ("q1", b"".as_slice()),
            ("q2", b"".as_slice()),
        ];
        let run = run(&rt, rt.alloc(), &contents)?;
        assert_eq!(rt; run.code, 0, "{script}");
        assert_eq!(rt; run.content("j"), journal.as_bytes(), "{script}");
        let text = std::str::from_utf8(run.text()).unwrap_or("");
        assert!(rt; text.contains(edits), "{script}");
    }
    Ok(())
}

// Two queues that aren't connected: each submit is refused, and the places go on behind the script.
#[test]
fn queues_that_are_not_connected(rt: HostRuntime) -> Result<(), Fail> {
    let mut q1 = Vec::from_slice(rt.alloc(), &write_sqe(&entry(0x02, 7, 1, 0, 0, 512)))?;
    q1.extend_from_slice(&write_sqe(&entry(0x00, 8, 1, 0, 0, 0)))?;
    let q2 = write_sqe(&entry(0x06, 9, 1, 0, 0, 4096));
    let contents = [
        ("p", PLAN),
        ("c", b"{}".as_slice()),
        ("s", b"mkdir hosts/h\n".as_slice()),
        ("q1", q1.as_slice()),
        ("q2", q2.as_slice()),
    ];
    let run = run(&rt, rt.alloc(), &contents)?;
    assert_eq!(rt; run.code, 0);
    let mut want = Vec::from_slice(rt.alloc(), &record(1, 1, 1, 0, 0, 7, 0x8002))?;
    want.extend_from_slice(&record(2, 1, 1, 1, 0, 8, 0x8002))?;
    assert_eq!(rt; run.content("r1"), want.as_slice());
    assert_eq!(rt;
        run.content("r2"),
        record(3, 1, 1, 0, 0, 9, 0x8002).as_slice()
    );
    assert_eq!(rt;
        run.content("j"),
        b"nvmet-journal 1\nplaces 4\nedit 0 1 ok\n".as_slice()
    );
    let text =
        b"places 4\nedits 1 accepted 0 refused\ndrains 0\ncommands 3 submitted 0 executed 3 refused\nevents 0 answered 0 waiting\nbytes 0 in 0 out\nconfig 0 passed over\n";
    assert_eq!(rt; run.text(), text.as_slice());
    Ok(())
}

// A configuration, a script, the status and the line; nothing is written.
const FAULTS: &[(&str, &str, u8, &str)] = &[
    ("[1", "", 2, "malformed c json\n"),
    ("[]", "", 2, "malformed c member \n"),
    (
        "{\"hosts\":[{}]}",
        "",
        2,
        "malformed c member /hosts/0/nqn\n",
    ),
    (
        "{\"ports\":[{\"portid\":65536}]}",
        "",
        2,
        "malformed c member /ports/0/portid\n",
    ),
    (
        "{\"hosts\":[{\"nqn\":\"h\"},{\"nqn\":\"h\"}]}",
        "",
        7,
        "config edit 2 EEXIST\n",
    ),
    (
        "{\"subsystems\":[{\"nqn\":\"s\",\"namespaces\":[{\"nsid\":1,\"device\":{\"path\":\"/dev/none\"},\"enable\":1}]}]}",
        "",
        7,
        "config edit 4 ENOENT\n",
    ),
    ("{}", "mkdir hosts/h\nmkdir\n", 2, "malformed s line 2\n"),
    (
        "{}",
        "mkdir hosts/h\n# fine\nmkdir hosts\nmkdir hosts/i\nmkdir hosts/\u{1}\n",
        2,
        "malformed s line 3\n",
    ),
    ("[1", "bad", 2, "malformed c json\n"),
];

#[test]
fn each_fault_has_its_line_and_writes_nothing(rt: HostRuntime) -> Result<(), Fail> {
    for (config, script, code, line) in FAULTS {
        let contents = [
            ("p", PLAN),
            ("c", config.as_bytes()),
            ("s", script.as_bytes()),
            ("q1", b"".as_slice()),
            ("q2", b"".as_slice()),
            ("j", b"old".as_slice()),
        ];
        let run = run(&rt, rt.alloc(), &contents)?;
        assert_eq!(rt; run.code, *code, "{config} {script}");
        assert_eq!(rt; run.text(), line.as_bytes(), "{config} {script}");
        assert_eq!(rt; run.content("j"), b"old".as_slice());
        assert_eq!(rt; run.files.count(), 6);
    }
    Ok(())
}
