// One run of eight queues: every check of Connect and of properties, admin and I/O queues on four
// controllers, edits that controllers make busy, and the order of fronts, script, rests and polls.
use crate::capsules::Capsule::{Connect, Get, Other, Read, Set, Write};
use crate::capsules::Nqn::{Name, Unended};
use crate::capsules::{Capsule, Nqn, queue_file};
use crate::outcome::run_files;
use crate::records::Record::{Answered, Control, Executed, Held, NoEvent, WithBlock};
use crate::records::{Record, response_file};
use plan_files::MemFiles;
use std::test::Fail;

const PLAN: &[u8] =
    b"nvmet-plan 1\ndisk /dev/ram0 9 16\nconfig c\nscript s\njournal j\nqueue 1 q1 r1\nqueue 1 q2 r2\nqueue 1 q3 r3\nqueue 2 q4 r4\nqueue 2 q5 r5\nqueue 1 q6 r6\nqueue 1 q7 r7\nqueue 1 q8 r8\n";

// testnqn allows hostnqn and stands at both ports; anynqn allows any host and stands at port 1;
// farnqn stands at no port.
const CONFIG: &[u8] =
    b"{\"hosts\":[{\"nqn\":\"hostnqn\"}],\"subsystems\":[{\"nqn\":\"testnqn\",\"allowed_hosts\":[\"hostnqn\"],\"namespaces\":[{\"nsid\":1,\"device\":{\"path\":\"/dev/ram0\"},\"enable\":1},{\"nsid\":5}]},{\"nqn\":\"anynqn\",\"attr\":{\"allow_any_host\":\"1\"}},{\"nqn\":\"farnqn\",\"attr\":{\"allow_any_host\":\"1\"}}],\"ports\":[{\"portid\":1,\"addr\":{\"trtype\":\"loop\"},\"subsystems\":[\"testnqn\",\"anynqn\"]},{\"portid\":2,\"addr\":{\"trtype\":\"loop\"},\"subsystems\":[\"testnqn\"]}]}";

// A controller keeps its subsystem busy behind the end of its link.
const SCRIPT: &[u8] =
    b"unlink ports/1/subsystems/anynqn\nrmdir subsystems/anynqn\nlink ports/1/subsystems/anynqn\n";

const JOURNAL: &[u8] = b"nvmet-journal 1\nplaces 66\nedit 42 1 ok\nedit 43 2 EBUSY\nedit 44 3 ok\n";

const SUMMARY: &[u8] =
    b"places 66\nedits 2 accepted 1 refused\ndrains 0\ncommands 10 submitted 4 executed 27 refused\nevents 0 answered 0 waiting\nbytes 512 in 1536 out\nconfig 0 passed over\n";

const TEST: Nqn = Name("testnqn");

const ANY: Nqn = Name("anynqn");

const HOST: Nqn = Name("hostnqn");

// The capsules of a queue, and its records.
const QUEUES: &[(&[Capsule], &[Record])] = &[
    // An admin queue: each check of an admin Connect, then controller 1 is enabled.
    (
        &[
            Connect(0x40, 1024, 0, 0, 31, 0xFFFF, Name("farnqn"), HOST),
            Connect(0x40, 1024, 0, 0, 31, 0xFFFF, TEST, Name("other")),
            Connect(0x40, 1024, 0, 0, 31, 1, TEST, HOST),
            Connect(0x40, 1024, 0, 0, 0, 0xFFFF, TEST, HOST),
            Connect(0x40, 1024, 0, 0, 31, 0xFFFF, TEST, HOST),
            Connect(0x40, 1024, 0, 0, 31, 0xFFFF, TEST, HOST),
            Get(1, 0),
            Get(0, 0x1C),
            Set(0x14, 0x0046_0001),
            Get(0, 0x1C),
            Set(0x1C, 0),
            Get(0, 8),
            Get(0, 0x14),
            Other(0x18),
        ],
        &[
            Control(0, 0, 0, 1, 0x8304, 0x1_0100),
            Control(1, 1, 0, 2, 0x8308, 0x1_0200),
            Control(2, 2, 0, 3, 0x8304, 0x1_0010),
            Control(3, 3, 0, 4, 0x8304, 0x2C),
            Control(4, 4, 0, 5, 0, 1),
            Control(5, 5, 0, 6, 0x8002, 0),
            Control(6, 6, 0, 7, 0, 0x20_0F01_007F),
            Control(7, 7, 0, 8, 0, 0),
            Control(8, 8, 0, 9, 0, 0),
            Control(9, 9, 0, 10, 0, 1),
            Control(10, 10, 0, 11, 0x8004, 0),
            Control(11, 11, 0, 12, 0, 0x1_0400),
            Control(12, 12, 0, 13, 0, 0x46_0001),
            Answered(45, 13, 0, 14, 0),
            NoEvent(46, 14),
            NoEvent(62, 14),
        ],
    ),
    // An I/O queue of controller 1: each check of an I/O Connect, then reads and a write.
    (
        &[
            Get(0, 0x1C),
            Connect(0x40, 1024, 0, 129, 31, 1, TEST, HOST),
            Connect(0x40, 1024, 0, 1, 31, 1, TEST, Name("other")),
            Connect(0x40, 1024, 0, 1, 31, 2, TEST, HOST),
            Connect(0x40, 1023, 0, 1, 31, 1, TEST, HOST),
            Connect(0x40, 1024, 0, 1, 127, 1, TEST, HOST),
            Connect(0x40, 1024, 0, 1, 127, 1, TEST, HOST),
            Read(1),
            Write(1, b'w'),
            Read(1),
            Read(7),
            Read(5),
            Get(0, 0x1C),
        ],
        &[
            Control(13, 0, 0, 1, 0x8002, 0),
            Control(14, 1, 0, 2, 0x8304, 0x2A),
            Control(15, 2, 0, 3, 0x8304, 0x1_0010),
            Control(16, 3, 0, 4, 0x8304, 0x1_0010),
            Control(17, 4, 0, 5, 0x801E, 0),
            Control(18, 5, 1, 6, 0, 1),
            Control(19, 6, 1, 7, 0x8002, 0),
            Held(47, 7),
            WithBlock(48, 7, 1, 8, 0),
            Held(49, 8),
            Executed(50, 8, 1, 9),
            Held(51, 9),
            WithBlock(52, 9, 1, 10, b'w'),
            Answered(53, 10, 1, 11, 0x8016),
            Answered(54, 11, 1, 12, 0x0600),
            Control(55, 12, 1, 13, 0x8002, 0),
        ],
    ),
    // A second one, behind the remaining checks.
    (
        &[
            Connect(0x40, 1024, 0, 1, 127, 1, TEST, HOST),
            Connect(0x40, 1024, 1, 2, 127, 1, TEST, HOST),
            Connect(0x40, 1025, 0, 2, 127, 1, TEST, HOST),
            Connect(0, 1024, 0, 2, 127, 1, TEST, HOST),
            Connect(0x40, 1024, 0, 2, 128, 1, TEST, HOST),
            Connect(0x40, 1024, 0, 2, 127, 1, TEST, HOST),
            Read(1),
        ],
        &[
            Control(20, 0, 0, 1, 0x8018, 0),
            Control(21, 1, 0, 2, 0x8300, 0),
            Control(22, 2, 0, 3, 0x801E, 0),
            Control(23, 3, 0, 4, 0x8004, 0),
            Control(24, 4, 0, 5, 0x8304, 0x2C),
            Control(25, 5, 2, 6, 0, 1),
            Held(56, 6),
            WithBlock(57, 6, 2, 7, b'w'),
        ],
    ),
    // Port 2: controller 1 can't be joined from here; controller 2 is enabled with queue entries
    // of another size.
    (
        &[
            Connect(0x40, 1024, 0, 3, 31, 1, TEST, HOST),
            Connect(0x40, 1024, 0, 0, 31, 0xFFFF, TEST, HOST),
            Set(0x14, 1),
            Get(0, 0x1C),
            Other(0x18),
        ],
        &[
            Control(26, 0, 0, 1, 0x8304, 0x1_0010),
            Control(27, 1, 0, 2, 0, 2),
            Control(28, 2, 0, 3, 0, 0),
            Control(29, 3, 0, 4, 0, 2),
            Answered(58, 4, 0, 5, 0x8018),
            NoEvent(59, 5),
            NoEvent(63, 5),
        ],
    ),
    (
        &[Connect(0x40, 1024, 0, 1, 1, 2, TEST, HOST), Read(1)],
        &[Control(30, 0, 1, 1, 0, 2), Answered(60, 1, 1, 2, 0x8018)],
    ),
    // An empty host name, and a subsystem without an end; controller 3 is shut down.
    (
        &[
            Connect(0x40, 1024, 0, 0, 31, 0xFFFF, TEST, Name("")),
            Connect(0x40, 1024, 0, 0, 31, 0xFFFF, Unended, HOST),
            Connect(0x40, 1024, 0, 0, 31, 0xFFFF, ANY, Name("")),
            Set(0x14, 0x0046_0001),
            Get(0, 0x1C),
            Set(0x14, 0x0046_4001),
            Get(0, 0x1C),
            Get(0, 0x14),
        ],
        &[
            Control(31, 0, 0, 1, 0x8308, 0x1_0200),
            Control(32, 1, 0, 2, 0x8304, 0x1_0100),
            Control(33, 2, 0, 3, 0, 3),
            Control(34, 3, 0, 4, 0, 0),
            Control(35, 4, 0, 5, 0, 1),
            Control(36, 5, 0, 6, 0, 0),
            Control(37, 6, 0, 7, 0, 8),
            Control(38, 7, 0, 8, 0, 0),
            NoEvent(64, 8),
        ],
    ),
    // A host without an end makes a controller that no I/O queue can join.
    (
        &[Connect(0x40, 1024, 0, 0, 31, 0xFFFF, ANY, Unended)],
        &[Control(39, 0, 0, 1, 0, 4), NoEvent(65, 1)],
    ),
    (
        &[
            Connect(0x40, 1024, 0, 1, 31, 4, ANY, Unended),
            Connect(0x40, 1024, 0, 1, 1, 3, ANY, Name("")),
            Read(1),
        ],
        &[
            Control(40, 0, 0, 1, 0x8304, 0x1_0010),
            Control(41, 1, 1, 2, 0, 3),
            Answered(61, 2, 1, 3, 0x8018),
        ],
    ),
];

const NAMES: &[(&str, &str)] = &[
    ("q1", "r1"),
    ("q2", "r2"),
    ("q3", "r3"),
    ("q4", "r4"),
    ("q5", "r5"),
    ("q6", "r6"),
    ("q7", "r7"),
    ("q8", "r8"),
];

#[test]
fn each_call_of_eight_queues_has_its_record(rt: HostRuntime) -> Result<(), Fail> {
    let alloc = rt.alloc();
    let mut files = MemFiles::new(alloc, Vec::new(alloc));
    files.put("p", PLAN)?;
    files.put("c", CONFIG)?;
    files.put("s", SCRIPT)?;
    for ((name, _), (capsules, _)) in NAMES.iter().zip(QUEUES) {
        files.put(name, &queue_file(alloc, capsules)?)?;
    }
    let outcome = run_files(&rt, alloc, files)?;
    assert_eq!(rt; outcome.code, 0);
    for ((_, name), (_, records)) in NAMES.iter().zip(QUEUES) {
        let want = response_file(alloc, records)?;
        assert_eq!(rt; outcome.content(name), want.as_slice(), "{name}");
    }
    assert_eq!(rt; outcome.content("j"), JOURNAL);
    assert_eq!(rt; outcome.text(), SUMMARY);
    Ok(())
}
