// No file that was read is written over, and a write that fails leaves what was there.
use crate::flawed::{Flaw, FlawedFiles};
use plan_files::{FileError, Files, HostFiles, WriteError};
use std::fs;
use std::os::unix::fs::{PermissionsExt, symlink};
use std::test::Fail;
use test_files::{Folder, make_content};

#[test]
fn a_file_that_was_read_is_not_written_over(rt: HostRuntime) -> Result<(), Fail> {
    let folder = Folder::new(&rt, "a-file-that-was-read")?;
    let name = folder.name("q1")?;
    fs::write(&rt, name.as_str(), "capsules")?;
    fs::hard_link(&rt, name.as_str(), folder.name("hard")?)?;
    symlink(&rt, name.as_str(), folder.name("soft")?)?;
    let mut files = HostFiles::new(&rt, rt.alloc());
    let mut into = Vec::new(rt.alloc());
    assert_eq!(rt; files.read(name.as_str(), 100, &mut into), Ok(()));
    for file in ["q1", "./q1", "hard", "soft"] {
        let answer = files.write(folder.name(file)?.as_str(), b"responses");
        assert_eq!(rt; answer, Err(WriteError::Failed), "{file}");
        assert_eq!(rt;
            fs::read(&rt, name.as_str())?.as_slice(),
            b"capsules".as_slice()
        );
    }
    assert_eq!(rt; folder.count()?, 3);
    let other = folder.name("r1")?;
    for _ in 0..2 {
        assert_eq!(rt; files.write(other.as_str(), b"responses"), Ok(()));
    }
    assert_eq!(rt; files.read(other.as_str(), 100, &mut into), Ok(()));
    assert_eq!(rt;
        files.write(other.as_str(), b"again"),
        Err(WriteError::Failed)
    );
    assert_eq!(rt;
        fs::read(&rt, other.as_str())?.as_slice(),
        b"responses".as_slice()
    );
    folder.remove()
}

#[test]
fn a_new_file_is_like_the_old_one(rt: HostRuntime) -> Result<(), Fail> {
    let folder = Folder::new(&rt, "a-new-file-is-like-the-old-one")?;
    let (name, stale) = (folder.name("r1")?, folder.name(".nvmetd-new-0")?);
    fs::write(&rt, name.as_str(), "old")?;
    fs::write(&rt, stale.as_str(), "of an earlier run")?;
    for mode in [0o600, 0o640, 0o666] {
        fs::set_permissions(&rt, name.as_str(), fs::Permissions::from_mode(mode))?;
        let mut files = HostFiles::new(&rt, rt.alloc());
        assert_eq!(rt; files.write(name.as_str(), b"new"), Ok(()));
        let permissions = fs::metadata(&rt, name.as_str())?.permissions();
        assert_eq!(rt; permissions.mode() & 0o777, mode);
    }
    assert_eq!(rt; fs::read(&rt, name.as_str())?.as_slice(), b"new".as_slice());
    assert_eq!(rt;
        fs::read(&rt, stale.as_str())?.as_slice(),
        b"of an earlier run".as_slice()
    );
    assert_eq!(rt; folder.count()?, 2);
    folder.remove()
}

#[test]
fn a_link_and_a_device_are_written_in_place(rt: HostRuntime) -> Result<(), Fail> {
    let folder = Folder::new(&rt, "a-link-and-a-device")?;
    let (name, link) = (folder.name("r1")?, folder.name("link")?);
    fs::write(&rt, name.as_str(), "longer than the new one")?;
    symlink(&rt, "r1", link.as_str())?;
    let mut files = HostFiles::new(&rt, rt.alloc());
    assert_eq!(rt; files.write(link.as_str(), b"new"), Ok(()));
    assert_eq!(rt; fs::read(&rt, name.as_str())?.as_slice(), b"new".as_slice());
    assert!(rt; fs::symlink_metadata(&rt, link.as_str())?.is_symlink());
    assert_eq!(rt; files.write("/dev/null", b"new"), Ok(()));
    assert_eq!(rt; folder.count()?, 2);
    folder.remove()
}

#[test]
fn a_write_that_fails_leaves_the_old_content(rt: HostRuntime) -> Result<(), Fail> {
    let folder = Folder::new(&rt, "a-write-that-fails")?;
    let (old, new) = (folder.name("old")?, folder.name("new")?);
    fs::write(&rt, old.as_str(), "old content")?;
    let bytes = make_content(rt.alloc(), 300_000)?;
    let flaws = [
        (Flaw::Full(0), true),
        (Flaw::Full(65_536), true),
        (Flaw::Full(299_999), true),
        (Flaw::Stuck(65_536), true),
        (Flaw::Sync, true),
        (Flaw::Rename, true),
        (Flaw::Permissions, false),
        (Flaw::Metadata, false),
    ];
    for (flaw, of_new) in flaws {
        let flawed = FlawedFiles { rt: &rt, flaw };
        let mut files = HostFiles::new(&flawed, rt.alloc());
        let answer = files.write(old.as_str(), &bytes);
        assert_eq!(rt; answer, Err(WriteError::Failed), "{flaw:?}");
        if of_new {
            let answer = files.write(new.as_str(), &bytes);
            assert_eq!(rt; answer, Err(WriteError::Failed), "{flaw:?}");
        }
        assert_eq!(rt;
            fs::read(&rt, old.as_str())?.as_slice(),
            b"old content".as_slice()
        );
        assert_eq!(rt; folder.count()?, 1, "{flaw:?}");
    }
    folder.remove()
}

#[test]
fn a_read_that_fails_in_the_middle_is_a_fault(rt: HostRuntime) -> Result<(), Fail> {
    let folder = Folder::new(&rt, "a-read-that-fails")?;
    let name = folder.name("file")?;
    fs::write(
        &rt,
        name.as_str(),
        make_content(rt.alloc(), 300_000)?.as_slice(),
    )?;
    let flaws = [
        Flaw::Read(0),
        Flaw::Read(1),
        Flaw::Read(65_536),
        Flaw::Read(300_000),
        Flaw::Metadata,
    ];
    for flaw in flaws {
        let flawed = FlawedFiles { rt: &rt, flaw };
        let mut files = HostFiles::new(&flawed, rt.alloc());
        let mut into = Vec::from_slice(rt.alloc(), b"before")?;
        let answer = files.read(name.as_str(), 1_000_000, &mut into);
        assert_eq!(rt; answer, Err(FileError::Failed), "{flaw:?}");
        assert_eq!(rt; into.as_slice(), b"before".as_slice());
    }
    folder.remove()
}
