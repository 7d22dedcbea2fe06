// Each public call on its happy path, and each adapter failing where it is told to.
use crate::*;
use std::test::Fail;

#[test]
fn keeps_files_in_memory(rt: HostRuntime) -> Result<(), Fail> {
    let fails = vec![in rt.alloc(); 2, 4]?;
    let mut files = MemFiles::new(rt.alloc(), fails);
    files.put("a", b"abc")?;
    let mut into = Vec::new(rt.alloc());
    assert_eq!(rt; files.read("a", 3, &mut into), Ok(()));
    assert_eq!(rt; into.as_slice(), b"abc".as_slice());
    assert_eq!(rt; files.read("a", 1, &mut into), Err(FileError::TooLong));
    assert_eq!(rt; into.as_slice(), b"abcab".as_slice());
    assert_eq!(rt; files.read("a", 3, &mut into), Err(FileError::Failed));
    assert_eq!(rt; files.write("b", b"xy"), Ok(()));
    assert_eq!(rt; files.write("b", b"z"), Err(WriteError::Failed));
    assert_eq!(rt; files.read("c", 3, &mut into), Err(FileError::Failed));
    assert_eq!(rt; files.read("a", usize::MAX, &mut into), Ok(()));
    assert_eq!(rt; into.as_slice(), b"abcababc".as_slice());
    assert!(rt; files.content("b") == Some(b"xy".as_slice()));
    assert!(rt; files.content("c") == None);
    assert_eq!(rt; files.count(), 2);
    assert_eq!(rt; files.calls(), 7);
    Ok(())
}

#[test]
fn keeps_text_in_memory(rt: HostRuntime) -> Result<(), Fail> {
    let fails = vec![in rt.alloc(); 1]?;
    let mut sink = MemSink::new(rt.alloc(), 7, fails)?;
    assert_eq!(rt; sink.put(b"abc"), Ok(()));
    assert_eq!(rt; sink.put(b"d"), Err(SinkFault));
    assert_eq!(rt; sink.put(b"de"), Ok(()));
    assert_eq!(rt; sink.put(b"fgh"), Err(SinkFault));
    assert_eq!(rt; sink.bytes(), b"abcdefg".as_slice());
    assert_eq!(rt; sink.put(b""), Ok(()));
    Ok(())
}

#[test]
fn reaches_real_files(rt: HostRuntime) -> Result<(), Fail> {
    let mut files = HostFiles::new(&rt, rt.alloc());
    let mut into = Vec::new(rt.alloc());
    assert_eq!(rt; files.write("run_outside_test", b"some text"), Ok(()));
    assert_eq!(rt; files.read("run_outside_test", 9, &mut into), Ok(()));
    assert_eq!(rt;
        files.read("run_outside_test", 3, &mut into),
        Err(FileError::TooLong)
    );
    assert_eq!(rt; into.as_slice(), b"some textsome".as_slice());
    assert_eq!(rt;
        files.read("no such file", 3, &mut into),
        Err(FileError::Failed)
    );
    assert_eq!(rt;
        files.write("no such folder/file", b""),
        Err(WriteError::Failed)
    );
    std::fs::remove_file(&rt, "run_outside_test")?;
    let mut sink = HostSink::new(&rt);
    assert_eq!(rt; sink.put(b"to standard output\n"), Ok(()));
    Ok(())
}
