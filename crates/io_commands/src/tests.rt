ghost use Rattle.sqe_cqe.specs.Answers.{HasShape};

use super::*;
use mem_bdev::{Buffer, Disk};
use sqe_cqe::{
    Ana, Bound, FLUSH, NsRow, OneLook, OneRow, READ, SGL, Seen, Sqe, WRITE, WRITE_ZEROES, read_sqe,
};
use std::test::Fail;

const QUEUE: Bound = Bound {
    ctrl: 1,
    qid: 1,
    sub: 0,
    port: 0,
};

// 1,024 blocks of 512 bytes.
const SMALL: NsRow = NsRow {
    disk: 3,
    shift: 9,
    blocks: 1024,
    group: 1,
    uuid: [0; 16],
    nguid: [0; 16],
};

// 1,024 blocks of 4,096 bytes.
const LARGE: NsRow = NsRow {
    disk: 3,
    shift: 12,
    blocks: 1024,
    group: 1,
    uuid: [0; 16],
    nguid: [0; 16],
};

fn entry(opcode: u8, flags: u8, nsid: u32, slba: u64, cdw12: u32, len: u32) -> Sqe {
    let mut e = read_sqe(&[0; 64]);
    e.opcode = opcode;
    e.flags = flags;
    e.nsid = nsid;
    e.cdw10 = (slba % 0x1_0000_0000) as u32;
    e.cdw11 = (slba / 0x1_0000_0000) as u32;
    e.cdw12 = cdw12;
    e.sgl_len = len;
    e
}

// What a command gets over a look at this configuration.
fn admitted(ready: bool, seen: Seen, ana: Ana, bars: u16, e: &Sqe) -> Admit
    requires { HasShape seen }
{
    let row = OneRow {
        ready,
        seen,
        ana,
        bars,
        serial: 0,
        ns_stamp: 0,
        ana_stamp: 0,
        ana_count: 0,
    };
    let mut look = OneLook::new(&row);
    admit_io(&QUEUE, e, &mut look)
}

// The status of a refusal, 0 of a command that is held.
fn status(admit: &Admit) -> u16 {
    match admit {
        Admit::Refused(status) => *status,
        Admit::Run(_) => 0,
    }
}

// Opcode, flags, NSID, SLBA, dword 12, SGL length, status; over blocks of 512 bytes.
const OVER_SMALL: &[(u8, u8, u32, u64, u32, u32, u16)] = &[
    (READ, SGL, 1, 1023, 0, 512, 0),
    (READ, SGL, 1, 1022, 1, 1024, 0),
    (READ, SGL, 1, 1023, 1, 1024, 0x8100),
    (READ, SGL, 1, 1024, 0, 512, 0x8100),
    (READ, SGL, 1, 0x1_0000_0000, 0, 512, 0x8100),
    (READ, SGL, 1, u64::MAX, 0, 512, 0x8100),
    (WRITE_ZEROES, SGL, 1, u64::MAX, 0xffff, 0, 0x8100),
    (READ, SGL, 1, 0, 0, 511, 0x801e),
    (READ, SGL, 1, 0, 0, 513, 0x801e),
    (WRITE, SGL, 1, 0, 0, 511, 0x801e),
    (WRITE, SGL, 1, 0, 1, 512, 0x801e),
    (READ, SGL, 1, 0, 255, 131_072, 0),
    (WRITE, SGL, 1, 0, 255, 131_072, 0),
    (READ, SGL, 1, 0, 256, 131_584, 0x8004),
    (WRITE, SGL, 1, 0, 256, 131_584, 0x8004),
    (READ, SGL, 1, 0, 0xffff_0000, 512, 0),
    (WRITE_ZEROES, SGL, 1, 0, 1023, 0, 0),
    (WRITE_ZEROES, SGL, 1, 0, 1024, 0, 0x8100),
    (WRITE_ZEROES, SGL, 1, 0, 0, 512, 0x801e),
    (FLUSH, SGL, 1, u64::MAX, 0xffff, 0, 0),
    (FLUSH, SGL, 1, 0, 0, 1, 0x801e),
    (0x03, SGL, 1, 0, 0, 512, 0x8002),
    (0x7e, SGL, 1, 0, 0, 0, 0x8002),
    (0x7e, 0, 2, 0, 0, 0, 0x8002),
    (READ, 0, 1, 0, 0, 512, 0x8004),
    (READ, 0x41, 1, 0, 0, 512, 0x8004),
    (READ, 0, 2, 0, 0, 512, 0x8004),
    (READ, SGL, 0, 0, 0, 512, 0x8016),
    (READ, SGL, 2, 0, 0, 512, 0x8016),
    (READ, SGL, u32::MAX, 0, 0, 512, 0x8016),
    (READ, SGL, 2, 1024, 0, 512, 0x8016),
    (READ, SGL, 1, 1024, 0, 511, 0x8100),
    (READ, SGL, 1, 0, 0, 131_073, 0x801e),
];

// The same over blocks of 4,096 bytes.
const OVER_LARGE: &[(u8, u8, u32, u64, u32, u32, u16)] = &[
    (READ, SGL, 1, 1023, 0, 4096, 0),
    (READ, SGL, 1, 1023, 1, 8192, 0x8100),
    (WRITE, SGL, 1, 1024, 0, 4096, 0x8100),
    (READ, SGL, 1, u64::MAX, 0, 4096, 0x8100),
    (READ, SGL, 1, 0, 0, 4095, 0x801e),
    (READ, SGL, 1, 0, 0, 4097, 0x801e),
    (WRITE, SGL, 1, 0, 0, 512, 0x801e),
    (READ, SGL, 1, 0, 31, 131_072, 0),
    (WRITE, SGL, 1, 0, 31, 131_072, 0),
    (READ, SGL, 1, 0, 32, 135_168, 0x8004),
    (WRITE, SGL, 1, 0, 32, 135_168, 0x8004),
    (WRITE_ZEROES, SGL, 1, 0, 1023, 0, 0),
    (WRITE_ZEROES, SGL, 1, 1, 1023, 0, 0x8100),
    (WRITE_ZEROES, SGL, 1, 0, 0, 4096, 0x801e),
    (FLUSH, SGL, 1, 1024, 0, 0, 0),
    (FLUSH, SGL, 1, 0, 0, 4096, 0x801e),
];

#[test]
fn each_check_at_its_boundary(rt: HostRuntime) {
    for &(opcode, flags, nsid, slba, cdw12, len, want) in OVER_SMALL {
        let e = entry(opcode, flags, nsid, slba, cdw12, len);
        let got = admitted(true, Seen::On(SMALL), Ana::Optimized, 0, &e);
        assert_eq!(rt;
            status(&got),
            want,
            "{opcode} {flags} {nsid} {slba} {cdw12} {len}"
        );
    }
    for &(opcode, flags, nsid, slba, cdw12, len, want) in OVER_LARGE {
        let e = entry(opcode, flags, nsid, slba, cdw12, len);
        let got = admitted(true, Seen::On(LARGE), Ana::NonOptimized, 0, &e);
        assert_eq!(rt;
            status(&got),
            want,
            "{opcode} {flags} {nsid} {slba} {cdw12} {len}"
        );
    }
}

// Whether the controller is ready, what stands at the NSID, the state of the group, what bars the controller, SLBA,
// status.
const STATES: &[(bool, Seen, Ana, u16, u64, u16)] = &[
    (true, Seen::On(SMALL), Ana::Optimized, 0, 0, 0),
    (true, Seen::On(SMALL), Ana::NonOptimized, 0, 0, 0),
    (true, Seen::On(SMALL), Ana::Inaccessible, 0, 0, 0x0604),
    (true, Seen::On(SMALL), Ana::PersistentLoss, 0, 0, 0x0602),
    (true, Seen::On(SMALL), Ana::Changing, 0, 0, 0x0606),
    (true, Seen::On(SMALL), Ana::Changing, 0x40, 0, 0x0606),
    (true, Seen::On(SMALL), Ana::Optimized, 0x40, 1024, 0x40),
    (true, Seen::Off, Ana::Inaccessible, 0, 0, 0x0600),
    (true, Seen::NotConfigured, Ana::Optimized, 0, 0, 0x8016),
    (false, Seen::On(SMALL), Ana::Optimized, 0, 0, 0x8018),
    (false, Seen::NotConfigured, Ana::Optimized, 0, 0, 0x8018),
];

#[test]
fn each_state_of_the_configuration(rt: HostRuntime) {
    for &(ready, seen, ana, bars, slba, want) in STATES {
        let e = entry(WRITE, SGL, 1, slba, 0, 512);
        let got = match seen {
            Seen::On(_) => admitted(ready, Seen::On(SMALL), ana, bars, &e),
            Seen::Off => admitted(ready, Seen::Off, ana, bars, &e),
            Seen::NotConfigured => admitted(ready, Seen::NotConfigured, ana, bars, &e),
        };
        assert_eq!(rt;
            status(&got),
            want,
            "{ready} {seen:?} {ana:?} {bars} {slba}"
        );
    }
}

#[test]
fn what_is_held_is_done(rt: HostRuntime) -> Result<(), Fail> {
    let seen = Seen::On(SMALL);
    let slba = 1021;
    for (opcode, len, want) in [
        (
            READ,
            1024,
            Job::Read {
                disk: 3,
                lba: slba,
                count: 2,
            },
        ),
        (
            WRITE,
            1024,
            Job::Write {
                disk: 3,
                lba: slba,
                count: 2,
            },
        ),
        (
            WRITE_ZEROES,
            0,
            Job::Zero {
                disk: 3,
                lba: slba,
                count: 2,
            },
        ),
        (FLUSH, 0, Job::Flush { disk: 3 }),
    ] {
        let e = entry(opcode, SGL, 1, slba, 1, len);
        let got = admitted(true, seen, Ana::Optimized, 0, &e);
        assert_eq!(rt; got, Admit::Run(want), "opcode {opcode}");
    }
    let mut disk = Disk::new(rt.alloc(), 9, 4)?;
    let mut to = Buffer::with_room(rt.alloc(), 1536)?;
    let write = Job::Write {
        disk: 0,
        lba: 1,
        count: 2,
    };
    do_io(&write, &mut disk, &[7; 1024], &mut to);
    assert!(rt; to.bytes().is_empty());
    let zero = Job::Zero {
        disk: 0,
        lba: 2,
        count: 2,
    };
    do_io(&zero, &mut disk, &[], &mut to);
    do_io(&Job::Flush { disk: 0 }, &mut disk, &[], &mut to);
    let read = Job::Read {
        disk: 0,
        lba: 0,
        count: 3,
    };
    do_io(&read, &mut disk, &[], &mut to);
    let bytes = to.bytes();
    assert_eq!(rt; bytes.len(), 1536);
    assert_eq!(rt; &bytes[..512], [0; 512].as_slice());
    assert_eq!(rt; &bytes[512..1024], [7; 512].as_slice());
    assert_eq!(rt; &bytes[1024..], [0; 512].as_slice());
    Ok(())
}
