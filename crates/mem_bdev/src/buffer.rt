ghost use Rattle.std.specs.Prelude.{◌≡◌, ◌≤◌, ◌+◌, ◌++◌, IfOk, [], length, take, replicate};
ghost use Rattle.mem_bdev.specs.Texts.{HasRoom, appended, overwritten, with_bytes};
ghost use Rattle.std.specs.Vec.{vec_capacity, vec_len};

use crate::slices::copy_in;
use std::alloc::{AllocError, Global};
use std::marker::Model;

/// Bytes that grow within room that is found once: a response text, a page, the data of a transfer. Contracts see the
/// bytes, and how many there is room for in all.
#[derive(Drop)]
pub struct Buffer {
    bytes: Vec<u8>,
    room: usize,
}

impl Model for Buffer {
    ghost use Rattle.mem_bdev.specs.Texts.{Text};

    ghost Value = { Text };

    ghost use Rattle.std.specs.Prelude.{◌≤◌, length};
    ghost use Rattle.std.specs.Vec.{vec_capacity};

    ghost view = { λ b. record { bytes = b.bytes.items; room = b.room } };

    ghost invariant = { λ b. (b.room ≤ vec_capacity b.bytes) × (length b.bytes.items ≤ b.room) };
}

// Appends zeros, for which there is the capacity.
fn append_zeros(bytes: &mut Vec<u8>, len: usize)
    requires { vec_len bytes.old + len ≤ vec_capacity bytes.old }
    ensures items { bytes.new.items ≡ bytes.old.items ++ replicate len 0 }
    ensures len { vec_len bytes.new ≡ vec_len bytes.old + len }
    ensures capacity { vec_capacity bytes.old ≤ vec_capacity bytes.new }
{
    let len = bytes.len() + len;
    let _ = bytes.resize(len, 0);
}

impl Buffer {
    ghost use Rattle.std.specs.Borrow.{sem};
    ghost use Rattle.mem_bdev.specs.Lending.{LendsBytes};

    /// No bytes, with room for this many.
    pub fn with_room(alloc: Global, room: usize) -> Result<Self, AllocError>
        ensures { IfOk result (λ b. b ≡ record { bytes = []; room = room }) }
    {
        let bytes = Vec::with_capacity(alloc, room)?;
        Ok(Buffer { bytes, room })
    }

    /// Lends the bytes.
    pub fn bytes(&self) -> &[u8]
        ensures value { result.now ≡ self.now.bytes }
        ensures small { length self.now.bytes ≤ self.now.room }
    {
        &self.bytes
    }

    /// How many bytes it holds.
    #[inline(always)]
    pub fn len(&self) -> usize
        ensures value { result ≡ length self.now.bytes }
        ensures small { result ≤ self.now.room }
    {
        self.bytes.len()
    }

    /// Holds nothing. Keeps its room.
    pub fn clear(&mut self)
        ensures { self.new ≡ with_bytes self.old [] }
    {
        self.bytes.clear();
    }

    /// Appends bytes, for which there is room. Takes no memory.
    #[inline(always)]
    pub fn put(&mut self, bytes: &[u8])
        requires { HasRoom self.old (length bytes.now) }
        ensures { self.new ≡ appended self.old bytes.now }
    {
        let _ = self.bytes.extend_from_slice(bytes);
    }

    /// Appends `len` zeros, for which there is room, and lends all bytes to be written: what stood, then the zeros. Takes
    /// no memory.
    pub fn fill(&mut self, len: usize) -> &mut [u8]
        requires { HasRoom self.old len }
        ensures* writes_back { sem 𝓛 (LendsBytes self.entry len result) }
        ensures value { result.now ≡ self.old.bytes ++ replicate len 0 }
    {
        append_zeros(&mut self.bytes, len);
        self.bytes.as_mut_slice()
    }

    /// Writes over bytes that stand, from the byte `at` on: a head that is known after what follows it. Takes no memory.
    #[inline(always)]
    pub fn write_at(&mut self, at: usize, bytes: &[u8])
        requires { at + length bytes.now ≤ length self.old.bytes }
        ensures { self.new ≡ with_bytes self.old (overwritten self.old.bytes at bytes.now) }
    {
        copy_in(&mut self.bytes, at, bytes);
    }
}
