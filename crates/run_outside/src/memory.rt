// Files and a sink in memory, which tell what they hold, and fail at the calls that a list names.
ghost use Rattle.std.specs.Prelude.{◌≡◌, ◌≢◌, ◌≤◌, ◌<◌, ◌⊎◌, ◌↔◌, ◌++◌, ℕ, List, [], Err, Some, None, true, IsTrue, IsErr, IfOk, IfSome, MatchOption, take, length, vec_capacity};
ghost use Rattle.std.specs.Option.{option_map};
ghost use Rattle.run_outside.specs.Kept.{kept_call};
ghost use Rattle.run_outside.specs.Outside.{next_count, read_call, write_call, ReadGives, WriteGives, ReadCause, WriteCause, SinkTakes, SinkCause};
ghost use Rattle.run_outside.specs.Stored.{holds, names_after, StoredAt};
ghost use Rattle.std.specs.BTreeMap.{btree_map_len};

use crate::faults::{KeptCall, has_risen, keep_call, raise_count};
use crate::outside::{FileError, Files, Sink, SinkFault, WriteError};
use std::alloc::{AllocError, Global};
use std::collections::BTreeMap;

/// Files in memory. They tell what each name holds.
#[derive(Drop)]
pub struct MemFiles {
    alloc: Global,
    files: BTreeMap<String, Vec<u8>>,
    fails: Vec<u64>,
    calls: u64,
    faults: u64,
    last: Option<KeptCall>,
}

impl MemFiles {
    ghost use Rattle.run_outside.specs.Adapters.{calls_of, failing, fails_next, count_after, count_of};

    /// No files, no faults so far, and no last call. `fails` has the numbers of the calls of `read`
    /// and `write`, counted together from 0, that are to fail; a write that fails changes nothing.
    pub fn new(alloc: Global, fails: Vec<u64>) -> Self
        ensures empty { (name : List ℕ) → ⟦<MemFiles as Files>⟧.told result name ≡ None }
        ensures tells { IsTrue (⟦<MemFiles as Files>⟧.tells result) }
        ensures faults { ⟦<MemFiles as Files>⟧.faults result ≡ 0 }
        ensures last { ⟦<MemFiles as Files>⟧.last result ≡ None }
        ensures calls { calls_of result ≡ 0 }
        ensures failing { failing result ≡ fails.items }
    {
        MemFiles {
            alloc,
            files: BTreeMap::new(alloc),
            fails,
            calls: 0,
            faults: 0,
            last: None,
        }
    }

    /// Puts a content in before a run. It is no call of `write`: no count moves, and the last call
    /// stays. Without memory every name is as before.
    pub fn put(&mut self, name: &str, bytes: &[u8]) -> Result<(), WriteError>
        ensures stored { WriteGives true (⟦<MemFiles as Files>⟧.told self.old)
            (⟦<MemFiles as Files>⟧.told self.new) name.now bytes.now result }
        ensures faults { ⟦<MemFiles as Files>⟧.faults self.new ≡ ⟦<MemFiles as Files>⟧.faults
            self.old }
        ensures last { ⟦<MemFiles as Files>⟧.last self.new ≡ ⟦<MemFiles as Files>⟧.last self.old }
        ensures calls { calls_of self.new ≡ calls_of self.old }
        ensures failing { failing self.new ≡ failing self.old }
        ensures never { result ≢ Err WriteError.Failed }
        ensures count { count_of self.new ≡ count_after self.old name.now result }
    {
        store(self.alloc, &mut self.files, name, bytes)
    }

    /// What a name holds; None where it isn't there.
    pub fn content(&self, name: &str) -> Option<&[u8]>
        ensures { MatchOption result (⟦<MemFiles as Files>⟧.told self.now name.now ≡ None)
            (λ bytes. ⟦<MemFiles as Files>⟧.told self.now name.now ≡ Some bytes.now) }
    {
        match self.files.get(name) {
            Some(bytes) => Some(bytes.as_slice()),
            None => None,
        }
    }

    /// How many names hold something.
    pub fn count(&self) -> usize
        ensures { result ≡ count_of self.now }
    {
        self.files.len()
    }

    /// How many calls of `read` and `write` there were.
    pub fn calls(&self) -> u64
        ensures { result ≡ calls_of self.now }
    {
        self.calls
    }

    // Counts a call, and says whether it is to fail.
    fn fails_now(&mut self) -> bool
        ensures failing { result ≡ fails_next self.old }
        ensures counted { self.new ≡ record self.old { calls = next_count self.old.calls } }
    {
        let now = self.calls;
        self.calls = raise_count(now);
        self.fails.contains(&now)
    }

    // Appends what a name holds, in a call that fails or doesn't.
    fn append(
        &self,
        is_failing: bool,
        name: &str,
        limit: usize,
        into: &mut Vec<u8>,
    ) -> Result<(), FileError>
        ensures gives { ReadGives (holds self.now.files name.now) limit into.old.items
            into.new.items result }
        ensures failed { (result ≡ Err FileError.Failed)
            ↔ (IsTrue is_failing ⊎ (holds self.now.files name.now ≡ None)) }
    {
        if is_failing {
            return Err(FileError::Failed);
        }
        match self.files.get(name) {
            Some(bytes) => append_copy(bytes.as_slice(), limit, into),
            None => Err(FileError::Failed),
        }
    }
}

impl Files for MemFiles {
    ghost use Rattle.run_outside.specs.Adapters.{told_of, faults_of, last_of, count_after, count_of, fails_next, CountsCall};

    ghost tells = { λ s. true };

    ghost told = { λ s name. holds s.files name };

    ghost faults = { λ s. s.faults };

    ghost last = { λ s. option_map kept_call s.last };

    fn read(&mut self, name: &str, limit: usize, into: &mut Vec<u8>) -> Result<(), FileError>
        ensures missing { told_of self.old name.now ≡ None → result ≡ Err FileError.Failed }
        ensures content { ReadGives (told_of self.old name.now) limit into.old.items into.new.items
            result }
        ensures same { told_of self.new ≡ told_of self.old }
        ensures cause { ReadCause (faults_of self.old) (faults_of self.new) result }
        ensures last { last_of self.new ≡ Some (read_call name.now (faults_of self.old)
            (faults_of self.new)) }
        // It fails where the list names this call or the name isn't there, and nowhere else.
        ensures failed { (result ≡ Err FileError.Failed) ↔ (IsTrue (fails_next self.old)
            ⊎ (told_of self.old name.now ≡ None)) }
        ensures one_fault { result ≡ Err FileError.Failed
            → faults_of self.new ≡ next_count (faults_of self.old) }
        ensures counted { CountsCall self.old self.new }
        ensures count { count_of self.new ≡ count_of self.old }
    {
        let is_failing = self.fails_now();
        let before = self.faults;
        let result = self.append(is_failing, name, limit, into);
        if matches!(result, Err(FileError::Failed)) {
            self.faults = raise_count(before);
        }
        self.last = Some(keep_call(false, name.as_bytes(), has_risen(before, self.faults)));
        result
    }

    fn write(&mut self, name: &str, bytes: &[u8]) -> Result<(), WriteError>
        ensures content { WriteGives true (told_of self.old) (told_of self.new) name.now bytes.now
            result }
        ensures cause { WriteCause (faults_of self.old) (faults_of self.new) result }
        ensures last { last_of self.new ≡ Some (write_call name.now (faults_of self.old)
            (faults_of self.new)) }
        // It fails where the list names this call, and nowhere else; then each name is as before.
        ensures failed { (result ≡ Err WriteError.Failed) ↔ IsTrue (fails_next self.old) }
        ensures kept { result ≡ Err WriteError.Failed → told_of self.new ≡ told_of self.old }
        ensures one_fault { result ≡ Err WriteError.Failed
            → faults_of self.new ≡ next_count (faults_of self.old) }
        ensures counted { CountsCall self.old self.new }
        // Where it was written, one name more holds something, unless the name held something before.
        ensures count { count_of self.new ≡ count_after self.old name.now result }
    {
        let is_failing = self.fails_now();
        let before = self.faults;
        if is_failing {
            self.faults = raise_count(before);
        }
        self.last = Some(keep_call(true, name.as_bytes(), has_risen(before, self.faults)));
        if is_failing {
            return Err(WriteError::Failed);
        }
        store(self.alloc, &mut self.files, name, bytes)
    }
}

// Appends a content of at most `limit` bytes, or the front of a longer one.
fn append_copy(bytes: &[u8], limit: usize, into: &mut Vec<u8>) -> Result<(), FileError>
    ensures gives { ReadGives (Some bytes.now) limit into.old.items into.new.items result }
    ensures never { result ≢ Err FileError.Failed }
{
    if bytes.len() > limit {
        return match into.extend_from_slice(&bytes[..limit + 1]) {
            Ok(()) => Err(FileError::TooLong),
            Err(_) => Err(FileError::Memory),
        };
    }
    match into.extend_from_slice(bytes) {
        Ok(()) => Ok(()),
        Err(_) => Err(FileError::Memory),
    }
}

// Puts bytes at a name.
fn store(
    alloc: Global,
    files: &mut BTreeMap<String, Vec<u8>>,
    name: &str,
    bytes: &[u8],
) -> Result<(), WriteError>
    ensures stored { StoredAt files.old files.new name.now bytes.now result }
    ensures never { result ≢ Err WriteError.Failed }
    ensures count { btree_map_len files.new ≡ names_after files.old name.now result }
{
    let Ok(key) = String::from_str(alloc, name) else {
        return Err(WriteError::Memory);
    };
    let Ok(content) = Vec::from_slice(alloc, bytes) else {
        return Err(WriteError::Memory);
    };
    match files.insert(key, content) {
        Ok(_) => Ok(()),
        Err(_) => Err(WriteError::Memory),
    }
}

/// A sink in memory, with room for so many bytes. It tells what it took.
#[derive(Drop)]
pub struct MemSink {
    bytes: Vec<u8>,
    room: usize,
    fails: Vec<u64>,
    calls: u64,
    faults: u64,
    ghost reserved: { room ≤ vec_capacity bytes },
}

impl MemSink {
    ghost use Rattle.run_outside.specs.Adapters.{sink_room, sink_calls, sink_failing, sink_fails_next, takes_next};

    /// Nothing taken and no faults so far, with memory for `room` bytes. `fails` has the numbers of
    /// the calls of `put`, from 0, that are to fail and take nothing. A put past the room takes
    /// what fits, and is a fault.
    pub fn new(alloc: Global, room: usize, fails: Vec<u64>) -> Result<Self, AllocError>
        ensures taken { IfOk result (λ s. ⟦<MemSink as Sink>⟧.taken s ≡ Some []) }
        ensures faults { IfOk result (λ s. ⟦<MemSink as Sink>⟧.faults s ≡ 0) }
        ensures room { IfOk result (λ s. sink_room s ≡ room) }
        ensures calls { IfOk result (λ s. sink_calls s ≡ 0) }
        ensures failing { IfOk result (λ s. sink_failing s ≡ fails.items) }
    {
        let bytes = Vec::with_capacity(alloc, room)?;
        Ok(MemSink {
            bytes,
            room,
            fails,
            calls: 0,
            faults: 0,
        })
    }

    /// The bytes taken so far.
    pub fn bytes(&self) -> &[u8]
        ensures { ⟦<MemSink as Sink>⟧.taken self.now ≡ Some result.now }
    {
        &self.bytes
    }

    // Counts a call, and says how many of so many bytes it is to take, and whether it is to fail
    // in any case.
    fn takes_now(&mut self, len: usize) -> (usize, bool)
        ensures takes { result.0 ≡ takes_next self.old len }
        ensures fails { result.1 ≡ sink_fails_next self.old }
        ensures bytes { self.new.bytes ≡ self.old.bytes }
        ensures room { self.new.room ≡ self.old.room }
        ensures failing { self.new.fails.items ≡ self.old.fails.items }
        ensures calls { self.new.calls ≡ next_count self.old.calls }
        ensures faults { self.new.faults ≡ self.old.faults }
    {
        let now = self.calls;
        self.calls = raise_count(now);
        if self.fails.contains(&now) {
            return (0, true);
        }
        (len.min(self.room.saturating_sub(self.bytes.len())), false)
    }
}

impl Sink for MemSink {
    ghost use Rattle.run_outside.specs.Adapters.{taken_of, sink_faults, sink_fails_next, takes_next, CountsPut};

    ghost taken = { λ s. Some s.bytes.items };

    ghost faults = { λ s. s.faults };

    fn put(&mut self, bytes: &[u8]) -> Result<(), SinkFault>
        ensures content { SinkTakes (Some (taken_of self.old)) (Some (taken_of self.new)) bytes.now
            result }
        ensures cause { SinkCause (sink_faults self.old) (sink_faults self.new) result }
        // It fails where the list names this call or the bytes don't fit, and nowhere else.
        ensures failed { IsErr result ↔ (IsTrue (sink_fails_next self.old)
            ⊎ (takes_next self.old (length bytes.now) < length bytes.now)) }
        ensures takes { taken_of self.new ≡ taken_of self.old
            ++ take (takes_next self.old (length bytes.now)) bytes.now }
        ensures one_fault { IsErr result
            → sink_faults self.new ≡ next_count (sink_faults self.old) }
        ensures counted { CountsPut self.old self.new }
    {
        let (count, is_failing) = self.takes_now(bytes.len());
        let taken = self.bytes.extend_from_slice(&bytes[..count]).is_ok();
        if taken && !is_failing && count == bytes.len() {
            return Ok(());
        }
        self.faults = raise_count(self.faults);
        Err(SinkFault)
    }
}
