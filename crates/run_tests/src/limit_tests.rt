// The first bad place or passed limit of plans and capsule files, as a run says it, beside the last
// that is allowed.
use crate::capsules::entry;
use crate::outcome::run;
use sqe_cqe::write_sqe;
use std::alloc::Global;
use std::sync::Wait;
use std::test::Fail;
use std::thread::Threads;

// What the sink takes of a run with an empty configuration; nothing where it ended well.
fn said<'x, R: Wait + Threads + Sync>(
    rt: &R,
    alloc: Global,
    plan: &'x [u8],
    q1: &'x [u8],
) -> Result<Vec<u8>, Fail> {
    let run = run(rt, alloc, &[("p", plan), ("q1", q1), ("c", b"{}")])?;
    if run.code == 0 {
        return Ok(Vec::new(alloc));
    }
    Ok(Vec::from_slice(alloc, run.text())?)
}

// Commands of this opcode and SGL length so many times, one kind after another; then so many bytes;
// and the line.
type QueueRow = (&'static [(u8, u32, usize)], usize, &'static str);

const QUEUES: &[QueueRow] = &[
    (
        &[(0x00, 0, 1), (0x02, 512, 1)],
        2,
        "malformed q1 offset 128\n",
    ),
    (&[(0x01, 4096, 1)], 100, "malformed q1 offset 0\n"),
    (&[(0x01, 4096, 1)], 4095, "malformed q1 offset 0\n"),
    (&[(0x01, 4096, 1)], 4096, ""),
    (&[], 63, "malformed q1 offset 0\n"),
    (&[], 64, ""),
    (&[(0x02, 512, 1)], 63, "malformed q1 offset 64\n"),
    (&[(0x01, 131_073, 1)], 0, "limit q1 data 131073\n"),
    (&[(0x01, 131_072, 1)], 131_072, ""),
    (&[(0x01, u32::MAX, 1)], 0, "limit q1 data 4294967295\n"),
];

// The same of files whose responses, capsules or bytes are as many as a run takes, or one more.
const LARGE_QUEUES: &[QueueRow] = &[
    (&[(0x02, 131_072, 512)], 0, "limit q1 output 67158176\n"),
    (&[(0x02, 131_072, 512)], 5, "limit q1 output 67158176\n"),
    (&[(0x02, 131_072, 511)], 5, "malformed q1 offset 32704\n"),
    (&[(0x02, 131_072, 511), (0x02, 81_760, 1)], 0, ""),
    (
        &[(0x02, 131_072, 511), (0x02, 81_761, 1)],
        0,
        "limit q1 output 67108865\n",
    ),
    (&[(0x00, 0, 65_536)], 0, ""),
    (&[(0x00, 0, 65_536)], 1, "limit q1 capsules 65537\n"),
    (&[], 67_108_864, "limit q1 capsules 65537\n"),
    (&[], 67_108_865, "limit q1 bytes 67108865\n"),
];

fn queue_of(alloc: Global, row: &QueueRow) -> Result<Vec<u8>, Fail> {
    let mut bytes = Vec::new(alloc);
    for (opcode, len, count) in row.0 {
        let sqe = write_sqe(&entry(*opcode, 1, 1, 0, 0, *len));
        for _ in 0..*count {
            bytes.extend_from_slice(&sqe)?;
        }
    }
    bytes.extend_from_slice(&vec![in alloc; 0; row.1]?)?;
    Ok(bytes)
}

// The first row whose line the sink doesn't take; nothing where there is none.
fn first_other<R: Wait + Threads + Sync>(
    rt: &R,
    alloc: Global,
    rows: &[QueueRow],
) -> Result<&'static str, Fail> {
    let plan = b"nvmet-plan 1\nsimple\ndisk /dev/ram0 9 16\nqueue 1 q1 r1\n";
    for row in rows {
        let q1 = queue_of(alloc, row)?;
        let said = said(rt, alloc, plan, &q1)?;
        if said.as_slice() != row.2.as_bytes() {
            return Ok(if row.2.is_empty() {
                "a fine row"
            } else {
                row.2
            });
        }
    }
    Ok("")
}

#[test]
fn the_first_fault_of_a_queue_file(rt: HostRuntime) -> Result<(), Fail> {
    assert_eq!(rt; first_other(&rt, rt.alloc(), QUEUES)?, "");
    Ok(())
}

#[test]
fn the_first_fault_of_a_large_queue_file(rt: HostRuntime) -> Result<(), Fail> {
    assert_eq!(rt; first_other(&rt, rt.alloc(), LARGE_QUEUES)?, "");
    Ok(())
}

// The lines of a plan, and the run's line.
const PLANS: &[(&str, &str)] = &[
    ("", "malformed p line 1\n"),
    ("nvmet-plan 2\n", "malformed p line 1\n"),
    ("nvmet-plan 1\ndisc x\n", "malformed p line 2\n"),
    ("nvmet-plan 1\nconfig c", "malformed p line 3\n"),
    ("nvmet-plan 1\nconfig c\n", "malformed p line 3\n"),
    ("nvmet-plan 1\nconfig c\n\n", "malformed p line 4\n"),
    (
        "nvmet-plan 1\nsimple\nqueue 1 q1 q1\n",
        "malformed p line 3\n",
    ),
    (
        "nvmet-plan 1\njournal j\nqueue 1 q1 r1\nqueue 1 q1 r2\nconfig c\n",
        "malformed p line 4\n",
    ),
    (
        "nvmet-plan 1\nsimple\ndisk d 9 01\nqueue 1 q1 r1\n",
        "malformed p line 3\n",
    ),
    ("nvmet-plan 1\nqueue 1 q1 r1\ndisk d 9 1\nsimple", ""),
];

#[test]
fn the_first_bad_line_of_a_plan(rt: HostRuntime) -> Result<(), Fail> {
    for (plan, want) in PLANS {
        let said = said(&rt, rt.alloc(), plan.as_bytes(), b"")?;
        assert_eq!(rt; said.as_slice(), want.as_bytes(), "{plan}");
    }
    Ok(())
}

// A plan with an empty configuration, so many disks of so many blocks of 4,096 bytes, so many queues
// whose files aren't there, and a comment of so many bytes; and the run's line.
const TABLES: &[(u32, u32, u32, usize, &str)] = &[
    (64, 1, 0, 0, ""),
    (65, 1, 0, 0, "limit p disks 65\n"),
    (1, 4096, 0, 0, ""),
    (1, 4097, 0, 0, "limit p disk-bytes 16781312\n"),
    (16, 4096, 0, 0, ""),
    (17, 4096, 0, 0, "limit p all-disk-bytes 285212672\n"),
    (0, 0, 31, 0, "cannot read q0\n"),
    (0, 0, 32, 0, "limit p queues 32\n"),
    (0, 0, 0, 65_502, ""),
    (0, 0, 0, 65_503, "limit p bytes 65537\n"),
];

fn plan_of(
    alloc: Global,
    disks: u32,
    blocks: u32,
    queues: u32,
    comment: usize,
) -> Result<String, Fail> {
    let mut plan = String::from_str(alloc, "nvmet-plan 1\nconfig c\njournal j\n#")?;
    for _ in 0..comment {
        plan.push_str("#")?;
    }
    plan.push_str("\n")?;
    for i in 0..disks {
        plan.push_str(&format!(in alloc; "disk /dev/ram{i} 12 {blocks}\n")?)?;
    }
    for i in 0..queues {
        plan.push_str(&format!(in alloc; "queue 1 q{i} r{i}\n")?)?;
    }
    Ok(plan)
}

#[test]
fn each_limit_of_a_plan(rt: HostRuntime) -> Result<(), Fail> {
    for (disks, blocks, queues, comment, want) in TABLES {
        let plan = plan_of(rt.alloc(), *disks, *blocks, *queues, *comment)?;
        let said = said(&rt, rt.alloc(), plan.as_bytes(), b"")?;
        assert_eq!(rt; said.as_slice(), want.as_bytes(), "{want}");
    }
    Ok(())
}
