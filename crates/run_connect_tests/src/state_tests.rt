// What decides about a Read, and about a late Connect: the script before it, CC, and the NSID.
use crate::capsules::Capsule::{Connect, Other, Read, Set};
use crate::capsules::Nqn::Name;
use crate::capsules::queue_file;
use crate::outcome::run;
use crate::records::{Record, response_file};
use std::test::Fail;

const PLAN: &[u8] =
    b"nvmet-plan 1\ndisk /dev/ram0 9 16\ndisk /dev/ram1 9 16\nconfig c\nscript s\njournal j\nqueue 1 q1 r1\nqueue 1 q2 r2\nqueue 1 q3 r3\n";

const CONFIG: &[u8] =
    b"{\"subsystems\":[{\"nqn\":\"s\",\"attr\":{\"allow_any_host\":\"1\"},\"namespaces\":[{\"nsid\":1,\"device\":{\"path\":\"/dev/ram0\"},\"enable\":1}]}],\"ports\":[{\"portid\":1,\"addr\":{\"trtype\":\"loop\"},\"subsystems\":[\"s\"]}]}";

// The script, its edits (a drain's end among them), CC, the NSID, the status of the Read, or
// nothing where it is held, and the status and result of a Connect behind it.
const ROWS: &[(&str, u32, u32, u32, Option<u16>, (u16, u64))] = &[
    ("", 0, 0x46_0001, 1, None, (0, 2)),
    ("", 0, 0, 1, Some(0x8018), (0, 2)),
    ("", 0, 1, 1, Some(0x8018), (0, 2)),
    ("", 0, 0x46_4001, 1, Some(0x8018), (0, 2)),
    ("", 0, 0x46_0001, 0, Some(0x8016), (0, 2)),
    ("", 0, 0x46_0001, 0xFFFF_FFFF, Some(0x8016), (0, 2)),
    ("", 0, 0x46_0001, 7, Some(0x8016), (0, 2)),
    (
        "mkdir subsystems/s/namespaces/7\n",
        1,
        0x46_0001,
        7,
        Some(0x0600),
        (0, 2),
    ),
    (
        "mkdir subsystems/s/namespaces/7\nset subsystems/s/namespaces/7 device_path /dev/ram1\nset subsystems/s/namespaces/7 enable 1\n",
        3,
        0x46_0001,
        7,
        None,
        (0, 2),
    ),
    (
        "set subsystems/s/namespaces/1 enable 0\n",
        2,
        0x46_0001,
        1,
        Some(0x0600),
        (0, 2),
    ),
    (
        "set ports/1/ana_groups/1 ana_state optimized\n",
        1,
        0x46_0001,
        1,
        None,
        (0, 2),
    ),
    (
        "set ports/1/ana_groups/1 ana_state non-optimized\n",
        1,
        0x46_0001,
        1,
        None,
        (0, 2),
    ),
    (
        "set ports/1/ana_groups/1 ana_state inaccessible\n",
        1,
        0x46_0001,
        1,
        Some(0x0604),
        (0, 2),
    ),
    (
        "set ports/1/ana_groups/1 ana_state persistent-loss\n",
        1,
        0x46_0001,
        1,
        Some(0x0602),
        (0, 2),
    ),
    (
        "set ports/1/ana_groups/1 ana_state change\n",
        1,
        0x46_0001,
        1,
        Some(0x0606),
        (0, 2),
    ),
    (
        "unlink ports/1/subsystems/s\n",
        1,
        0x46_0001,
        1,
        None,
        (0x8304, 0x1_0100),
    ),
];

#[test]
fn a_read_is_decided_by_what_came_before(rt: HostRuntime) -> Result<(), Fail> {
    let alloc = rt.alloc();
    for (script, edits, cc, nsid, status, (refusal, result)) in ROWS {
        let admin = Connect(0x40, 1024, 0, 0, 31, 0xFFFF, Name("s"), Name("h"));
        let q1 = queue_file(alloc, &[admin, Set(0x14, *cc)])?;
        let io = Connect(0x40, 1024, 0, 1, 31, 1, Name("s"), Name("h"));
        let q2 = queue_file(alloc, &[io, Read(*nsid)])?;
        let q3 = queue_file(alloc, &[Other(0), admin])?;
        let contents = [
            ("p", PLAN),
            ("c", CONFIG),
            ("s", script.as_bytes()),
            ("q1", q1.as_slice()),
            ("q2", q2.as_slice()),
            ("q3", q3.as_slice()),
        ];
        let outcome = run(&rt, alloc, &contents)?;
        assert_eq!(rt; outcome.code, 0);
        let at = edits.saturating_add(3);
        let mut records = Vec::from_slice(alloc, &[Record::Control(2, 0, 1, 1, 0, 1)])?;
        let next = match *status {
            Some(status) => {
                records.push(Record::Answered(at, 1, 1, 2, status))?;
                at.saturating_add(1)
            }
            None => {
                records.push(Record::Held(at, 1))?;
                records.push(Record::WithBlock(at.saturating_add(1), 1, 1, 2, 0))?;
                at.saturating_add(2)
            }
        };
        let want = response_file(alloc, &records)?;
        assert_eq!(rt;
            outcome.content("r2"),
            want.as_slice(),
            "{script} {cc} {nsid}"
        );
        records = Vec::from_slice(
            alloc,
            &[
                Record::Answered(next, 0, 0, 1, 0x8002),
                Record::Control(next.saturating_add(1), 1, 0, 2, *refusal, *result),
            ],
        )?;
        if *refusal == 0 {
            records.push(Record::NoEvent(next.saturating_add(3), 2))?;
        }
        let late = response_file(alloc, &records)?;
        assert_eq!(rt;
            outcome.content("r3"),
            late.as_slice(),
            "{script} {cc} {nsid}"
        );
    }
    Ok(())
}
