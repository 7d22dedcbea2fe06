ghost use Rattle.std.specs.Prelude.{◌≡◌, IfOk, IfSome, IsSome, IsUtf8};

use std::alloc::{AllocError, Global};
use std::marker::Model;

/// A text that was read from outside. Contracts see the list of its bytes.
#[derive(Debug, Drop)]
pub struct Name {
    bytes: Vec<u8>,
}

impl Model for Name {
    ghost use Rattle.std.specs.Prelude.{ℕ, List};

    ghost Value = { List ℕ };

    ghost view = { λ n. n.bytes.items };
}

impl Name {
    /// The text of these bytes. Takes no memory.
    pub fn from_vec(bytes: Vec<u8>) -> Self
        ensures { result ≡ bytes.items }
    {
        Name { bytes }
    }

    /// A copy of these bytes.
    pub fn copied(alloc: Global, bytes: &[u8]) -> Result<Self, AllocError>
        ensures { IfOk result (λ n. n ≡ bytes.now) }
    {
        let bytes = Vec::from_slice(alloc, bytes)?;
        Ok(Name { bytes })
    }

    /// Lends the bytes.
    pub fn as_bytes(&self) -> &[u8]
        ensures { result.now ≡ self.now }
    {
        &self.bytes
    }

    /// Lends the text, where the bytes are UTF-8.
    pub fn as_text(&self) -> Option<&str>
        ensures value { IfSome result (λ t. t.now ≡ self.now) }
        ensures text { IsUtf8 self.now → IsSome result }
    {
        match str::from_utf8(&self.bytes) {
            Ok(text) => Some(text),
            Err(_) => None,
        }
    }

    /// Gives the bytes back. Takes no memory.
    pub fn into_vec(self) -> Vec<u8>
        ensures { result.items ≡ self }
    {
        self.bytes
    }
}
