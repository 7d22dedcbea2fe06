// Runs of simple plans, record by record.
use crate::capsules::{entry, record};
use crate::outcome::run;
use sqe_cqe::write_sqe;
use std::test::Fail;

const PLAN: &[u8] = b"nvmet-plan 1\nsimple\ndisk /dev/ram0 9 16\nqueue 1 q1 r1\n";

#[test]
fn a_write_and_a_read_of_eight_blocks(rt: HostRuntime) -> Result<(), Fail> {
    let mut block = Vec::new(rt.alloc());
    for i in 0..4096u32 {
        block.push((i * 7 % 251) as u8)?;
    }
    let mut q1 = Vec::from_slice(rt.alloc(), &write_sqe(&entry(0x01, 1, 1, 0, 7, 4096)))?;
    q1.extend_from_slice(&block)?;
    q1.extend_from_slice(&write_sqe(&entry(0x02, 2, 1, 0, 7, 4096)))?;
    assert_eq!(rt; q1.len(), 4224);
    assert_eq!(rt; &q1[..8], [0x01, 0x40, 1, 0, 1, 0, 0, 0].as_slice());
    let run = run(&rt, rt.alloc(), &[("p", PLAN), ("q1", &q1)])?;
    assert_eq!(rt; run.code, 0);
    let mut want = Vec::new(rt.alloc());
    want.extend_from_slice(&record(0, 1, 0, 0, 1, 0, 0))?;
    want.extend_from_slice(&record(1, 2, 1, 0, 1, 1, 0))?;
    want.extend_from_slice(&record(2, 1, 0, 1, 1, 0, 0))?;
    let mut last = record(3, 2, 1, 1, 1, 2, 0);
    last[13] = 0x10;
    want.extend_from_slice(&last)?;
    want.extend_from_slice(&block)?;
    assert_eq!(rt; run.content("r1").len(), 4224);
    assert_eq!(rt; run.content("r1"), want.as_slice());
    let text =
        b"places 4\nedits 0 accepted 0 refused\ndrains 0\ncommands 2 submitted 2 executed 0 refused\nevents 0 answered 0 waiting\nbytes 4096 in 4096 out\nconfig 0 passed over\n";
    assert_eq!(rt; run.text(), text.as_slice());
    Ok(())
}

#[test]
fn an_empty_queue_file(rt: HostRuntime) -> Result<(), Fail> {
    let run = run(&rt, rt.alloc(), &[("p", PLAN), ("q1", b"")])?;
    assert_eq!(rt; run.code, 0);
    assert!(rt; run.content("r1").is_empty());
    let text =
        b"places 0\nedits 0 accepted 0 refused\ndrains 0\ncommands 0 submitted 0 executed 0 refused\nevents 0 answered 0 waiting\nbytes 0 in 0 out\nconfig 0 passed over\n";
    assert_eq!(rt; run.text(), text.as_slice());
    Ok(())
}

#[test]
fn a_disk_of_large_blocks(rt: HostRuntime) -> Result<(), Fail> {
    let plan = b"nvmet-plan 1\n# blocks of 4,096 bytes\nqueue 1 q1 r1\ndisk /dev/ram1 12 2\nsimple";
    let mut q1 = Vec::from_slice(rt.alloc(), &write_sqe(&entry(0x01, 1, 1, 1, 0, 4096)))?;
    q1.extend_from_slice(&[9; 4096])?;
    q1.extend_from_slice(&write_sqe(&entry(0x02, 2, 1, 0, 1, 8192)))?;
    let run = run(&rt, rt.alloc(), &[("p", plan), ("q1", &q1)])?;
    assert_eq!(rt; run.code, 0);
    let records = run.content("r1");
    assert_eq!(rt; records.len(), 128 + 8192);
    assert_eq!(rt; records[128 + 4095], 0);
    assert_eq!(rt; records[128 + 4096], 9);
    assert_eq!(rt; records[128 + 8191], 9);
    Ok(())
}

// Opcode, flags, NSID, SLBA, NLB, SGL length, and the status of the submit, 0 where the command is held.
const CHECKS: &[(u8, u8, u32, u64, u16, u32, u16)] = &[
    (0x02, 0x40, 1, 15, 0, 512, 0),
    (0x02, 0x40, 1, 15, 1, 1024, 0x8100),
    (0x02, 0x40, 1, u64::MAX, 0, 512, 0x8100),
    (0x02, 0x40, 1, 0, 0, 511, 0x801e),
    (0x02, 0x00, 1, 0, 0, 512, 0x8004),
    (0x02, 0x00, 2, 0, 0, 512, 0x8004),
    (0x02, 0x40, 2, 0, 0, 512, 0x8016),
    (0x7e, 0x40, 2, 0, 0, 0, 0x8002),
    (0x00, 0x40, 1, 0, 0, 0, 0),
    (0x08, 0x40, 1, 0, 15, 0, 0),
    (0x08, 0x40, 1, 1, 15, 0, 0x8100),
];

#[test]
fn each_check_of_a_submit(rt: HostRuntime) -> Result<(), Fail> {
    for &(opcode, flags, nsid, slba, nlb, len, status) in CHECKS {
        let mut e = entry(opcode, 5, nsid, slba, nlb, len);
        e.flags = flags;
        let run = run(&rt, rt.alloc(), &[("p", PLAN), ("q1", &write_sqe(&e))])?;
        assert_eq!(rt; run.code, 0);
        let records = run.content("r1");
        assert!(rt; records.len() >= 32);
        let held = status == 0;
        let answer = if held { 0 } else { 1 };
        let cid = if held { 0 } else { 5 };
        assert_eq!(rt;
            &records[..32],
            record(0, 1, answer, 0, 1, cid, status).as_slice(),
            "{opcode} {flags} {nsid} {slba} {nlb} {len}"
        );
        let data = if held && opcode == 0x02 { 512 } else { 0 };
        let want = if held { 64 + data } else { 32 };
        assert_eq!(rt;
            records.len(),
            want,
            "{opcode} {flags} {nsid} {slba} {nlb} {len}"
        );
    }
    Ok(())
}

#[test]
fn a_short_write_and_a_fabrics_command(rt: HostRuntime) -> Result<(), Fail> {
    let mut q1 = Vec::from_slice(rt.alloc(), &write_sqe(&entry(0x01, 3, 1, 0, 0, 511)))?;
    q1.extend_from_slice(&[1; 511])?;
    q1.extend_from_slice(&write_sqe(&entry(0x7f, 4, 4, 0, 0, 0)))?;
    let run = run(&rt, rt.alloc(), &[("p", PLAN), ("q1", &q1)])?;
    assert_eq!(rt; run.code, 0);
    let mut want = Vec::new(rt.alloc());
    want.extend_from_slice(&record(0, 1, 1, 0, 1, 3, 0x801e))?;
    want.extend_from_slice(&record(1, 4, 1, 1, 1, 4, 0x8002))?;
    assert_eq!(rt; run.content("r1"), want.as_slice());
    Ok(())
}
