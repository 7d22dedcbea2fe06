// Readers and writers that give and take a part, fail in the middle, or take nothing.
use crate::fakes::{Narrow, Screen, Trickle};
use plan_files::{FileError, HostSink, Sink, SinkFault, read_content, write_pieces};
use std::cell::RefCell;
use std::io::{ErrorKind, pipe};
use std::test::Fail;
use test_files::{LENGTHS, make_content};

const STEPS: [usize; 4] = [1, 4_095, 65_536, 1_000_000];

#[test]
fn short_reads_are_read_on(rt: HostRuntime) -> Result<(), Fail> {
    for left in LENGTHS {
        for step in STEPS {
            let mut source = Trickle {
                left,
                step,
                fails: None,
                at: 0,
            };
            let mut into = Vec::new(rt.alloc());
            assert_eq!(rt; read_content(&mut source, left, &mut into), Ok(()));
            let whole = make_content(rt.alloc(), left)?;
            assert!(rt; into.as_slice() == whole.as_slice(), "{left} by {step}");
        }
    }
    Ok(())
}

#[test]
fn a_read_that_fails_is_no_end(rt: HostRuntime) -> Result<(), Fail> {
    for left in LENGTHS {
        for kind in [ErrorKind::Other, ErrorKind::Interrupted] {
            let mut source = Trickle {
                left,
                step: 1_000,
                fails: Some(kind),
                at: 0,
            };
            let mut into = Vec::from_slice(rt.alloc(), b"before")?;
            let answer = read_content(&mut source, 1_000_000, &mut into);
            assert_eq!(rt; answer, Err(FileError::Failed), "after {left}");
            assert_eq!(rt; into.as_slice(), b"before".as_slice());
        }
    }
    Ok(())
}

#[test]
fn a_limit_is_passed_by_one_byte(rt: HostRuntime) -> Result<(), Fail> {
    for limit in LENGTHS {
        for more in [1, 70_000] {
            let mut source = Trickle {
                left: limit + more,
                step: 4_095,
                fails: None,
                at: 0,
            };
            let mut into = Vec::new(rt.alloc());
            let answer = read_content(&mut source, limit, &mut into);
            assert_eq!(rt; answer, Err(FileError::TooLong), "{limit} and {more}");
            let front = make_content(rt.alloc(), limit + 1)?;
            assert!(rt; into.as_slice() == front.as_slice(), "{limit} and {more}");
        }
    }
    Ok(())
}

#[test]
fn short_writes_are_written_on(rt: HostRuntime) -> Result<(), Fail> {
    for len in LENGTHS {
        let bytes = make_content(rt.alloc(), len)?;
        for step in STEPS {
            let mut to = Narrow::new(rt.alloc(), len, step, None);
            assert!(rt; write_pieces(&mut to, &bytes), "{len} by {step}");
            assert!(rt; to.taken.as_slice() == bytes.as_slice(), "{len} by {step}");
        }
    }
    Ok(())
}

#[test]
fn a_write_that_fails_or_takes_nothing_is_a_fault(rt: HostRuntime) -> Result<(), Fail> {
    let bytes = make_content(rt.alloc(), 300_000)?;
    let fails = [
        None,
        Some(ErrorKind::StorageFull),
        Some(ErrorKind::Interrupted),
    ];
    for room in [0, 1, 65_535, 65_536, 65_537, 299_999] {
        for kind in fails {
            let mut to = Narrow::new(rt.alloc(), room, 1_000_000, kind);
            assert!(rt; !write_pieces(&mut to, &bytes), "{room} bytes");
            let front = make_content(rt.alloc(), room)?;
            assert!(rt; to.taken.as_slice() == front.as_slice(), "{room} bytes");
        }
    }
    Ok(())
}

#[test]
fn a_screen_takes_all_or_is_a_fault(rt: HostRuntime) -> Result<(), Fail> {
    let bytes = make_content(rt.alloc(), 300_000)?;
    for room in [0, 1, 65_536, 299_999, 300_000, 300_001] {
        let to = Narrow::new(rt.alloc(), room, 5_000, None);
        let screen = Screen {
            to: RefCell::new(to),
        };
        let mut sink = HostSink::new(&screen);
        let answer = sink.put(&bytes);
        let Screen { to } = screen;
        let taken = to.into_inner().taken;
        let front = make_content(rt.alloc(), room.min(300_000))?;
        let want = if room < 300_000 {
            Err(SinkFault)
        } else {
            Ok(())
        };
        assert_eq!(rt; answer, want, "room for {room}");
        assert!(rt; taken.as_slice() == front.as_slice(), "room for {room}");
    }
    Ok(())
}

#[test]
fn a_closed_output_is_a_fault(rt: HostRuntime) -> Result<(), Fail> {
    let (reader, mut writer) = pipe(&rt)?;
    assert!(rt; write_pieces(&mut writer, b"read by nobody"));
    drop(reader);
    assert!(rt; !write_pieces(&mut writer, b"written to nobody"));
    Ok(())
}
