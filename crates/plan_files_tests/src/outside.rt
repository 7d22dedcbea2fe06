// Files and a sink in memory fail where they are told to, and the readers' errors print themselves.
use plan_files::{
    CapsuleError, FileError, Files, MemFiles, MemSink, PlanError, Sink, SinkFault, What, WriteError,
};
use std::test::Fail;

#[test]
fn files_in_memory_fail_where_they_are_told_to(rt: HostRuntime) -> Result<(), Fail> {
    let mut files = MemFiles::new(rt.alloc(), vec![in rt.alloc(); 1, 3]?);
    files.put("a", b"abc")?;
    let mut into = Vec::new(rt.alloc());
    assert_eq!(rt; files.read("a", 3, &mut into), Ok(()));
    assert_eq!(rt; files.read("a", 3, &mut into), Err(FileError::Failed));
    assert_eq!(rt; files.write("a", b"xy"), Ok(()));
    assert_eq!(rt; files.write("a", b"z"), Err(WriteError::Failed));
    assert!(rt; files.content("a") == Some(b"xy".as_slice()));
    assert_eq!(rt; files.read("nope", 3, &mut into), Err(FileError::Failed));
    assert_eq!(rt; into.as_slice(), b"abc".as_slice());
    files.put("", b"")?;
    assert_eq!(rt; files.read("", 0, &mut into), Ok(()));
    assert_eq!(rt; files.calls(), 6);
    assert_eq!(rt; files.count(), 2);
    Ok(())
}

#[test]
fn a_sink_in_memory_fails_where_it_is_told_to(rt: HostRuntime) -> Result<(), Fail> {
    let mut sink = MemSink::new(rt.alloc(), 5, vec![in rt.alloc(); 1, 2]?)?;
    assert_eq!(rt; sink.put(b"abc"), Ok(()));
    assert_eq!(rt; sink.put(b"d"), Err(SinkFault));
    // A put of nothing fails too, where it is told to.
    assert_eq!(rt; sink.put(b""), Err(SinkFault));
    assert_eq!(rt; sink.put(b"de"), Ok(()));
    assert_eq!(rt; sink.put(b"f"), Err(SinkFault));
    assert_eq!(rt; sink.bytes(), b"abcde".as_slice());
    Ok(())
}

#[test]
fn errors_are_printed(rt: HostRuntime) -> Result<(), Fail> {
    let bad = PlanError::BadLine { line: 3 };
    let many = PlanError::TooLong {
        what: What::Disks,
        count: 65,
    };
    let cut = CapsuleError::Cut { offset: 4_224 };
    let long = CapsuleError::TooLong {
        what: What::Data,
        count: 131_073,
    };
    let alloc = rt.alloc();
    assert_eq!(rt; format!(in alloc; "{bad}")?.as_str(), "line 3 is bad");
    assert_eq!(rt;
        format!(in alloc; "{many}")?.as_str(),
        "the limit on disks is passed: 65"
    );
    assert_eq!(rt;
        format!(in alloc; "{cut}")?.as_str(),
        "the capsule at byte 4224 is cut off"
    );
    assert_eq!(rt;
        format!(in alloc; "{long}")?.as_str(),
        "the limit on data is passed: 131073"
    );
    assert_eq!(rt;
        format!(in alloc; "{}", PlanError::Memory)?.as_str(),
        "out of memory"
    );
    Ok(())
}
