// Each public call on its happy path.
use crate::*;
use std::test::Fail;

#[test]
fn names_limits(rt: HostRuntime) {
    let words = [
        (What::Bytes, "bytes"),
        (What::Lines, "lines"),
        (What::Capsules, "capsules"),
        (What::Data, "data"),
        (What::Output, "output"),
        (What::AllInput, "all-input"),
        (What::AllOutput, "all-output"),
        (What::Disks, "disks"),
        (What::DiskBytes, "disk-bytes"),
        (What::AllDiskBytes, "all-disk-bytes"),
        (What::Queues, "queues"),
    ];
    for (what, word) in words {
        assert_eq!(rt; what.word(), word);
    }
}

const PLAN: &str = "nvmet-plan 1\n# a comment\n\nsimple\ndisk /dev/ram0 9 16\nqueue 1 q1 r1";

#[test]
fn reads_a_plan(rt: HostRuntime) -> Result<(), Fail> {
    let plan = read_plan(rt.alloc(), PLAN.as_bytes())?;
    assert!(rt; plan.simple);
    assert!(rt; plan.config.is_none() && plan.script.is_none() && plan.journal.is_none());
    assert_eq!(rt; plan.disks.as_slice().len(), 1);
    assert_eq!(rt; plan.queues.as_slice().len(), 1);
    for disk in plan.disks.as_slice() {
        assert_eq!(rt; disk.path.as_bytes(), b"/dev/ram0".as_slice());
        assert_eq!(rt; disk.shift, 9);
        assert_eq!(rt; disk.blocks, 16);
    }
    for queue in plan.queues.as_slice() {
        assert_eq!(rt; queue.port, 1);
        assert_eq!(rt; queue.capsules.as_bytes(), b"q1".as_slice());
        assert_eq!(rt; queue.responses.as_bytes(), b"r1".as_slice());
    }
    Ok(())
}

// A Read of 512 bytes and a Write of 3, of no more meaning here than their directions.
#[test]
fn reads_capsules(rt: HostRuntime) -> Result<(), Fail> {
    let mut bytes = vec![in rt.alloc(); 0; 131]?;
    for (at, byte) in bytes.iter_mut().enumerate() {
        *byte = match at {
            0 => 2,
            33 => 2,
            64 => 1,
            96 => 3,
            128 => 7,
            _ => 0,
        };
    }
    let capsules = read_capsules(rt.alloc(), &bytes)?;
    assert_eq!(rt; capsules.len(), 2);
    assert_eq!(rt; (capsules[0].data_at, capsules[0].data_len), (64, 0));
    assert_eq!(rt; (capsules[1].data_at, capsules[1].data_len), (128, 3));
    assert_eq!(rt; room(&capsules), 160 + 96 + 512 + 96);
    assert_eq!(rt; quota(&capsules), 12);
    let sized = read_sized_capsules(rt.alloc(), &bytes)?;
    assert_eq!(rt; sized.capsules.len(), 2);
    assert_eq!(rt; sized.room, 160 + 96 + 512 + 96);
    Ok(())
}
