// The real files of a disk on which one thing goes wrong.
ghost use Rattle.std.specs.Prelude.{IsErr};

use std::alloc::Allocator;
use std::fs::{File, FileTimes, Metadata, OpenFile, OpenOptions, Permissions};
use std::io;
use std::io::{ErrorKind, Read, Seek, SeekFrom, Write};
use std::rt::Files;

/// What goes wrong.
#[derive(Clone, Copy, Debug, PartialEq, Eq)]
pub enum Flaw {
    /// The disk is full after so many bytes of a file.
    Full(usize),
    /// A write after so many bytes takes nothing, and says so.
    Stuck(usize),
    /// What was written doesn't come to the device.
    Sync,
    /// No name can be given to another file.
    Rename,
    /// Permissions can't be set.
    Permissions,
    /// A read fails after so many bytes.
    Read(usize),
    /// Which file it is isn't told.
    Metadata,
}

/// The real files, with one flaw.
#[derive(Drop)]
pub struct FlawedFiles<'a> {
    pub rt: &'a HostRuntime,
    pub flaw: Flaw,
}

/// An open file, with how many bytes it was asked for so far.
#[derive(Drop)]
pub struct FlawedFile {
    file: File,
    flaw: Flaw,
    done: usize,
}

fn fault<T>(kind: ErrorKind) -> io::Result<T>
    ensures { IsErr result }
{
    Err(io::Error::from(kind))
}

impl FlawedFile {
    // How many more bytes go well, at most.
    fn room(&self, end: usize) -> usize {
        end.saturating_sub(self.done)
    }
}

impl Read for FlawedFile {
    fn read(&mut self, buf: &mut [u8]) -> io::Result<usize> {
        let mut count = buf.len();
        if let Flaw::Read(end) = self.flaw {
            count = count.min(self.room(end));
            if count == 0 {
                return fault(ErrorKind::Other);
            }
        }
        let read = self.file.read(&mut buf[..count])?;
        self.done = self.done.saturating_add(read);
        Ok(read)
    }
}

impl Write for FlawedFile {
    fn write(&mut self, buf: &[u8]) -> io::Result<usize> {
        let mut count = buf.len();
        match self.flaw {
            Flaw::Full(end) => {
                count = count.min(self.room(end));
                if count == 0 {
                    return fault(ErrorKind::StorageFull);
                }
            }
            Flaw::Stuck(end) => count = count.min(self.room(end)),
            _ => {}
        }
        let written = self.file.write(&buf[..count])?;
        self.done = self.done.saturating_add(written);
        Ok(written)
    }

    fn flush(&mut self) -> io::Result<()> {
        Ok(())
    }
}

impl Seek for FlawedFile {
    fn seek(&mut self, to: SeekFrom) -> io::Result<u64> {
        self.file.seek(to)
    }
}

impl OpenFile for FlawedFile {
    fn metadata(&self) -> io::Result<Metadata> {
        if self.flaw == Flaw::Metadata {
            return fault(ErrorKind::Other);
        }
        self.file.metadata()
    }

    fn set_len(&self, size: u64) -> io::Result<()> {
        self.file.set_len(size)
    }

    fn sync_all(&self) -> io::Result<()> {
        if self.flaw == Flaw::Sync {
            return fault(ErrorKind::Other);
        }
        self.file.sync_all()
    }

    fn sync_data(&self) -> io::Result<()> {
        self.file.sync_data()
    }

    fn set_permissions(&self, permissions: Permissions) -> io::Result<()> {
        if self.flaw == Flaw::Permissions {
            return fault(ErrorKind::PermissionDenied);
        }
        self.file.set_permissions(permissions)
    }

    fn set_times(&self, times: FileTimes) -> io::Result<()> {
        self.file.set_times(times)
    }
}

impl<'a> Files for FlawedFiles<'a> {
    type File = FlawedFile;

    type Dir = File;

    fn open_file(&self, how: &OpenOptions, path: &str) -> io::Result<FlawedFile> {
        let file = self.rt.open_file(how, path)?;
        Ok(FlawedFile {
            file,
            flaw: self.flaw,
            done: 0,
        })
    }

    fn open_dir(&self, path: &str) -> io::Result<File> {
        File::open(self.rt, path)
    }

    fn metadata(&self, path: &str) -> io::Result<Metadata> {
        self.rt.metadata(path)
    }

    fn symlink_metadata(&self, path: &str) -> io::Result<Metadata> {
        self.rt.symlink_metadata(path)
    }

    fn copy(&self, from: &str, to: &str) -> io::Result<u64> {
        self.rt.copy(from, to)
    }

    fn rename(&self, from: &str, to: &str) -> io::Result<()> {
        if self.flaw == Flaw::Rename {
            return fault(ErrorKind::Other);
        }
        self.rt.rename(from, to)
    }

    fn remove_file(&self, path: &str) -> io::Result<()> {
        self.rt.remove_file(path)
    }

    fn create_dir(&self, path: &str) -> io::Result<()> {
        self.rt.create_dir(path)
    }

    fn remove_dir(&self, path: &str) -> io::Result<()> {
        self.rt.remove_dir(path)
    }

    fn remove_dir_all<B: Allocator>(&self, alloc: B, path: &str) -> io::Result<()> {
        self.rt.remove_dir_all(alloc, path)
    }
}
