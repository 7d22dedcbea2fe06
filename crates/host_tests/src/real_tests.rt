// Real files in a temporary folder, read and written by the host's files and by std.
use plan_files::{FileError, Files, HostFiles, WriteError};
use std::fs;
use std::fs::create_dir;
use std::os::unix::fs::symlink;
use std::test::Fail;
use test_files::{Folder, LENGTHS, make_content};

#[test]
fn what_std_wrote_is_read(rt: HostRuntime) -> Result<(), Fail> {
    let folder = Folder::new(&rt, "what-std-wrote-is-read")?;
    let name = folder.name("file")?;
    for len in LENGTHS {
        let bytes = make_content(rt.alloc(), len)?;
        fs::write(&rt, name.as_str(), bytes.as_slice())?;
        let mut files = HostFiles::new(&rt, rt.alloc());
        let mut into = Vec::new(rt.alloc());
        assert_eq!(rt; files.read(name.as_str(), len, &mut into), Ok(()));
        assert!(rt; into.as_slice() == bytes.as_slice(), "{len} bytes");
    }
    folder.remove()
}

#[test]
fn what_is_written_std_reads(rt: HostRuntime) -> Result<(), Fail> {
    let folder = Folder::new(&rt, "what-is-written-std-reads")?;
    let name = folder.name("file")?;
    let mut files = HostFiles::new(&rt, rt.alloc());
    for len in [300_000, 65_537, 65_536, 65_535, 1, 0, 300_000] {
        let bytes = make_content(rt.alloc(), len)?;
        assert_eq!(rt; files.write(name.as_str(), bytes.as_slice()), Ok(()));
        let found = fs::read(&rt, name.as_str())?;
        assert!(rt; found.as_slice() == bytes.as_slice(), "{len} bytes");
    }
    assert_eq!(rt; folder.count()?, 1);
    folder.remove()
}

#[test]
fn a_file_at_its_limit_is_read(rt: HostRuntime) -> Result<(), Fail> {
    let folder = Folder::new(&rt, "a-file-at-its-limit-is-read")?;
    let name = folder.name("file")?;
    for limit in LENGTHS {
        let bytes = make_content(rt.alloc(), limit + 1)?;
        fs::write(&rt, name.as_str(), bytes.as_slice())?;
        let mut files = HostFiles::new(&rt, rt.alloc());
        let mut into = Vec::new(rt.alloc());
        let answer = files.read(name.as_str(), limit, &mut into);
        assert_eq!(rt; answer, Err(FileError::TooLong), "{limit}");
        assert!(rt; into.as_slice() == bytes.as_slice(), "{limit}");
        let mut again = Vec::new(rt.alloc());
        assert_eq!(rt; files.read(name.as_str(), limit + 1, &mut again), Ok(()));
        assert!(rt; again.as_slice() == bytes.as_slice(), "{limit}");
    }
    folder.remove()
}

#[test]
fn what_can_not_be_read_is_a_fault(rt: HostRuntime) -> Result<(), Fail> {
    let folder = Folder::new(&rt, "what-can-not-be-read-is-a-fault")?;
    let (inner, file) = (folder.name("folder")?, folder.name("file")?);
    create_dir(&rt, inner.as_str())?;
    fs::write(&rt, file.as_str(), "text")?;
    symlink(&rt, "nowhere", folder.name("link")?)?;
    let names = [
        folder.name("no such file")?,
        folder.name("no such folder/file")?,
        folder.name("file/below a file")?,
        folder.name("link")?,
        inner,
        String::from_str(rt.alloc(), "/proc/self/mem")?,
        String::new(rt.alloc()),
    ];
    for name in names.as_slice() {
        let mut files = HostFiles::new(&rt, rt.alloc());
        let mut into = Vec::from_slice(rt.alloc(), b"before")?;
        let answer = files.read(name.as_str(), 1_000_000, &mut into);
        assert_eq!(rt; answer, Err(FileError::Failed), "{name}");
        assert_eq!(rt; into.as_slice(), b"before".as_slice());
    }
    folder.remove()
}

#[test]
fn what_can_not_be_written_is_a_fault(rt: HostRuntime) -> Result<(), Fail> {
    let folder = Folder::new(&rt, "what-can-not-be-written-is-a-fault")?;
    let (inner, file) = (folder.name("folder")?, folder.name("file")?);
    create_dir(&rt, inner.as_str())?;
    fs::write(&rt, file.as_str(), "text")?;
    let names = [
        folder.name("no such folder/file")?,
        folder.name("file/below a file")?,
        folder.name("no such name/")?,
        inner,
        String::from_str(rt.alloc(), "/dev/full")?,
        String::from_str(rt.alloc(), "/proc/version")?,
        String::new(rt.alloc()),
    ];
    let mut files = HostFiles::new(&rt, rt.alloc());
    for name in names.as_slice() {
        let answer = files.write(name.as_str(), b"new");
        assert_eq!(rt; answer, Err(WriteError::Failed), "{name}");
    }
    assert_eq!(rt;
        fs::read(&rt, file.as_str())?.as_slice(),
        b"text".as_slice()
    );
    assert_eq!(rt; folder.count()?, 2);
    folder.remove()
}
