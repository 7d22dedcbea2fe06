// The real files and standard output. They tell nothing of contents.
ghost use Rattle.std.specs.Prelude.{◌≡◌, ◌≢◌, None, false, IsTrue, IfErr};
ghost use Rattle.std.specs.Option.{option_map};
ghost use Rattle.std.specs.Io.KnownBytes.{Appends};
ghost use Rattle.run_outside.specs.Kept.{kept_call};

use crate::faults::{KeptCall, has_risen, keep_call, raise_count};
use crate::outside::{FileError, Files, Sink, SinkFault, WriteError};
use crate::pieces::{read_content, write_pieces};
use std::alloc::{AllocError, Global};
use std::fs::{Metadata, OpenFile, OpenOptions, Permissions};
use std::io::{ErrorKind, Write};
use std::os::unix::fs::MetadataExt;
use std::path::Path;
use std::{fs, io, rt};

// Which file of the system stands behind a name.
#[derive(Clone, Copy, PartialEq, Eq)]
struct FileId {
    device: u64,
    inode: u64,
}

impl FileId {
    fn of(metadata: &Metadata) -> Self {
        FileId {
            device: metadata.dev(),
            inode: metadata.ino(),
        }
    }
}

// Where the bytes of a write go.
#[derive(Drop)]
enum Destination<F: Drop> {
    // No file is there.
    Missing,
    // A file that is replaced by a new one with these permissions.
    Replaced(Permissions),
    // What stands behind a link is written in place, and so is a device or pipe.
    InPlace(F),
}

// Looks at what a name stands for, without a change. None where it can't be written, or is one of the
// files that were read.
fn find_destination<R: rt::Files>(
    rt: &R,
    name: &str,
    seen: &[FileId],
) -> Option<Destination<R::File>> {
    let mut how = OpenOptions::new();
    how.write(true);
    let file = match how.open(rt, name) {
        Ok(file) => file,
        Err(error) if error.kind() == ErrorKind::NotFound => return Some(Destination::Missing),
        Err(_) => return None,
    };
    let Ok(metadata) = file.metadata() else {
        return None;
    };
    if seen.contains(&FileId::of(&metadata)) {
        return None;
    }
    if !metadata.is_file() {
        return Some(Destination::InPlace(file));
    }
    let Ok(unfollowed) = fs::symlink_metadata(rt, name) else {
        return None;
    };
    if unfollowed.is_file() {
        return Some(Destination::Replaced(metadata.permissions()));
    }
    match file.set_len(0) {
        Ok(()) => Some(Destination::InPlace(file)),
        Err(_) => None,
    }
}

// How many names are tried for a new file.
const TRIES: u32 = 1000;

// Makes a new file in the folder of a name, and says how it is called.
fn create_beside<R: rt::Files>(
    rt: &R,
    alloc: Global,
    name: &str,
) -> Result<(String, R::File), WriteError> {
    let mut how = OpenOptions::new();
    how.write(true).create_new(true);
    for number in 0..TRIES {
        let Ok(beside) = name_beside(alloc, name, number) else {
            return Err(WriteError::Memory);
        };
        match how.open(rt, beside.as_str()) {
            Ok(file) => return Ok((beside, file)),
            Err(error) if error.kind() == ErrorKind::AlreadyExists => {}
            Err(_) => return Err(WriteError::Failed),
        }
    }
    Err(WriteError::Failed)
}

// A name in the same folder.
fn name_beside(alloc: Global, name: &str, number: u32) -> Result<String, AllocError> {
    let file = format!(in alloc; ".nvmetd-new-{number}")?;
    let path = Path::new(name).with_file_name(alloc, file.as_str())?;
    Ok(path.into_string())
}

// Fills a new file, and says whether all of the bytes are on its device.
fn fill<F: Write + OpenFile>(file: &mut F, like: Option<Permissions>, bytes: &[u8]) -> bool
    ensures { IsTrue result → Appends (F.contents file.old) (F.contents file.new) bytes.now }
{
    if let Some(permissions) = like {
        if file.set_permissions(permissions).is_err() {
            return false;
        }
    }
    write_pieces(file, bytes) && file.sync_all().is_ok()
}

// Puts a new file with these bytes in the place of a name. At a fault the name holds what it held,
// and the new file is removed.
fn replace<R: rt::Files>(
    rt: &R,
    alloc: Global,
    name: &str,
    like: Option<Permissions>,
    bytes: &[u8],
) -> Result<(), WriteError> {
    let (beside, mut file) = create_beside(rt, alloc, name)?;
    if fill(&mut file, like, bytes) && fs::rename(rt, beside.as_str(), name).is_ok() {
        return Ok(());
    }
    let _ = fs::remove_file(rt, beside.as_str());
    Err(WriteError::Failed)
}

/// The real files, under the names that the operating system gives them. Each error of the system
/// is a fault, an interrupted call too.
///
/// A name that stands for a file that was read, by device and inode, is not written: that is a
/// fault, whatever the name. A file is written as a new one beside it (`.nvmetd-new-` and a number),
/// with the permissions of the old one, that takes its name once all of its bytes are on the device;
/// so at a fault the name holds what it held. A device, a pipe and what a link leads to are written
/// in place.
#[derive(Drop)]
pub struct HostFiles<'a, R> {
    rt: &'a R,
    alloc: Global,
    seen: Vec<FileId>,
    faults: u64,
    last: Option<KeptCall>,
}

impl<'a, R: rt::Files> HostFiles<'a, R> {
    /// The files of this runtime: no faults so far, and no last call. Memory is taken from `alloc`
    /// to note which files were read, and for the name of a new file.
    pub fn new(rt: &'a R, alloc: Global) -> Self
        ensures faults { ⟦<HostFiles<'a, R> as Files>⟧.faults result ≡ 0 }
        ensures last { ⟦<HostFiles<'a, R> as Files>⟧.last result ≡ None }
    {
        HostFiles {
            rt,
            alloc,
            seen: Vec::new(alloc),
            faults: 0,
            last: None,
        }
    }

    // Opens a file to be read, and notes which one it is.
    fn open(&mut self, name: &str) -> Result<R::File, FileError>
        ensures faults { self.new.faults ≡ self.old.faults }
        ensures never { IfErr result (λ e. e ≢ FileError.TooLong) }
    {
        let Ok(file) = fs::open(self.rt, name) else {
            return Err(FileError::Failed);
        };
        let Ok(metadata) = file.metadata() else {
            return Err(FileError::Failed);
        };
        let id = FileId::of(&metadata);
        if !self.seen.contains(&id) && self.seen.push(id).is_err() {
            return Err(FileError::Memory);
        }
        Ok(file)
    }

    // Writes over what a name stands for.
    fn write_over(&self, name: &str, bytes: &[u8]) -> Result<(), WriteError> {
        match find_destination(self.rt, name, &self.seen) {
            Some(Destination::Missing) => replace(self.rt, self.alloc, name, None, bytes),
            Some(Destination::Replaced(permissions)) => {
                replace(self.rt, self.alloc, name, Some(permissions), bytes)
            }
            Some(Destination::InPlace(mut file)) => {
                if write_pieces(&mut file, bytes) {
                    Ok(())
                } else {
                    Err(WriteError::Failed)
                }
            }
            None => Err(WriteError::Failed),
        }
    }
}

impl<'a, R: rt::Files> Files for HostFiles<'a, R> {
    ghost tells = { λ s. false };

    ghost told = { λ s name. None };

    ghost faults = { λ s. s.faults };

    ghost last = { λ s. option_map kept_call s.last };

    fn read(&mut self, name: &str, limit: usize, into: &mut Vec<u8>) -> Result<(), FileError> {
        let result = match self.open(name) {
            Ok(mut file) => read_content(&mut file, limit, into),
            Err(error) => Err(error),
        };
        let before = self.faults;
        if matches!(result, Err(FileError::Failed)) {
            self.faults = raise_count(before);
        }
        self.last = Some(keep_call(false, name.as_bytes(), has_risen(before, self.faults)));
        result
    }

    fn write(&mut self, name: &str, bytes: &[u8]) -> Result<(), WriteError> {
        let result = self.write_over(name, bytes);
        let before = self.faults;
        if matches!(result, Err(WriteError::Failed)) {
            self.faults = raise_count(before);
        }
        self.last = Some(keep_call(true, name.as_bytes(), has_risen(before, self.faults)));
        result
    }
}

/// Standard output.
#[derive(Drop)]
pub struct HostSink<'a, R> {
    rt: &'a R,
    faults: u64,
}

impl<'a, R: Print> HostSink<'a, R> {
    /// The standard output of this runtime: no faults so far.
    pub fn new(rt: &'a R) -> Self
        ensures { ⟦<HostSink<'a, R> as Sink>⟧.faults result ≡ 0 }
    {
        HostSink { rt, faults: 0 }
    }
}

impl<'a, R: Print> Sink for HostSink<'a, R> {
    ghost taken = { λ s. None };

    ghost faults = { λ s. s.faults };

    fn put(&mut self, bytes: &[u8]) -> Result<(), SinkFault> {
        let mut out = io::writer(self.rt);
        if write_pieces(&mut out, bytes) {
            return Ok(());
        }
        self.faults = raise_count(self.faults);
        Err(SinkFault)
    }
}
