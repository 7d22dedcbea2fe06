// What lies outside the program: files, a sink for text, and a gate that tests use.
ghost use Rattle.std.specs.Prelude.{◌≡◌, ℕ, Bool, IsTrue, List, Option, Some, None, Err};
ghost use Rattle.run_outside.specs.Outside.{LastCall, read_call, write_call, ReadGives, WriteGives, ReadCause, WriteCause, SinkCause, SinkTakes};

use std::sync::Wait;

/// Why a file was not read.
#[derive(Clone, Copy, Debug, PartialEq, Eq)]
pub enum FileError {
    /// The file could not be opened or read; a name that isn't there is such a fault. The count of
    /// faults rose in the call, and nothing was appended.
    Failed,
    /// The content is longer than the limit. So many bytes of it and one more were appended.
    TooLong,
    /// No memory for the content. Nothing was appended.
    Memory,
}

/// Why a file was not written.
#[derive(Clone, Copy, Debug, PartialEq, Eq)]
pub enum WriteError {
    /// The file could not be made or written. The count of faults rose in the call, and what the
    /// name holds is open.
    Failed,
    /// No memory for the write. Every name is as before.
    Memory,
}

/// Named files.
///
/// An implementation may tell what names hold (as files in memory do) or not (as real files do):
/// contracts claim contents only where they are told.
pub trait Files {
    /// Whether contents are told at all. Then a name of which nothing is told isn't there. No call
    /// changes it.
    ghost tells: { Self → Bool };

    /// What a name holds, where that is told. A name that isn't there has nothing to tell.
    ghost told: { Self → List ℕ → Option (List ℕ) };

    /// How many calls have failed. It rises in a call that answers `Failed`, and in no other; it
    /// never falls, and stands still at 2^64 - 1.
    ghost faults: { Self → ℕ };

    /// The last call: read or write, the first 255 bytes of the name, and whether the count of
    /// faults rose in it. None before the first.
    ghost last: { Self → Option LastCall };

    /// Appends the content of a name, of at most `limit` bytes, to `into`.
    ///
    /// `Failed` and `Memory` leave `into` as before; `TooLong` leaves it followed by `limit + 1`
    /// bytes. Whatever the answer, each name holds what it held, told or not as before. A name that
    /// isn't there is never read as an empty one.
    fn read(&mut self, name: &str, limit: usize, into: &mut Vec<u8>) -> Result<(), FileError>
        // Where contents are told, a name that isn't there can't be read.
        ensures missing { IsTrue (tells self.old) → told self.old name.now ≡ None
            → result ≡ Err FileError.Failed }
        ensures content { ReadGives (told self.old name.now) limit into.old.items into.new.items
            result }
        ensures same { told self.new ≡ told self.old }
        ensures tells { tells self.new ≡ tells self.old }
        ensures cause { ReadCause (faults self.old) (faults self.new) result }
        ensures last { last self.new
            ≡ Some (read_call name.now (faults self.old) (faults self.new)) };

    /// Makes a name hold exactly these bytes, in place of what it held.
    ///
    /// Other names stay as before, whatever the answer. `Failed` leaves what this name holds open,
    /// `Memory` leaves it as before. Writing never stops a name from being told.
    fn write(&mut self, name: &str, bytes: &[u8]) -> Result<(), WriteError>
        ensures content { WriteGives (tells self.old) (told self.old) (told self.new) name.now
            bytes.now result }
        ensures tells { tells self.new ≡ tells self.old }
        ensures cause { WriteCause (faults self.old) (faults self.new) result }
        ensures last { last self.new ≡ Some (write_call name.now (faults self.old)
            (faults self.new)) };
}

/// The sink failed: the count of faults rose in the call, and a front of the bytes, maybe empty,
/// was taken.
#[derive(Clone, Copy, Debug, PartialEq, Eq)]
pub struct SinkFault;

/// Where text goes.
pub trait Sink {
    /// The bytes taken so far, where that is told.
    ghost taken: { Self → Option (List ℕ) };

    /// How many calls have failed. It rises in a call that fails, and in no other; it never falls,
    /// and stands still at 2^64 - 1.
    ghost faults: { Self → ℕ };

    /// Takes all of these bytes after the earlier ones, or, at a fault, a front of them.
    fn put(&mut self, bytes: &[u8]) -> Result<(), SinkFault>
        ensures content { SinkTakes (taken self.old) (taken self.new) bytes.now result }
        ensures cause { SinkCause (faults self.old) (faults self.new) result };
}

/// Where a caller of the target is when it calls the gate.
#[derive(Clone, Copy, Debug, PartialEq, Eq)]
pub enum Point {
    /// Before a capsule is submitted.
    BeforeSubmit,
    /// In the read section of a submit, before its look-up.
    InSection,
    /// After a submit that was held, before its execute.
    Held,
    /// After an execute.
    Executed,
    /// Before the first try of a script line, with the editor's lock held.
    BeforeEdit,
    /// After an edit or a control call that found a read section open.
    Reading,
    /// After a drain that found commands held.
    Draining,
}

/// What a test stops callers with. It tells nothing, and changes nothing that a contract speaks of.
pub trait Gate {
    /// Called at a point, by a caller's seat. The number is the capsule's number in its file, from
    /// 0, or the script's line, from 1. It may wait.
    fn at<R: Wait + Sync>(&self, rt: &R, point: Point, seat: u32, number: u32);
}

/// The gate that lets all pass, the one that ships.
#[derive(Clone, Copy, Debug)]
pub struct OpenGate;

impl Gate for OpenGate {
    fn at<R: Wait + Sync>(&self, _rt: &R, _point: Point, _seat: u32, _number: u32) {}
}
