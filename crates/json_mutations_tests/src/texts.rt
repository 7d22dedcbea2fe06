// Texts that are built of pieces.
use std::alloc::Global;
use std::process::Abort;

// A text that grows.
#[derive(Drop)]
pub(crate) struct Text {
    alloc: Global,
    pub(crate) bytes: Vec<u8>,
}

impl Text {
    pub(crate) fn new(alloc: Global) -> Self {
        Text {
            alloc,
            bytes: Vec::new(alloc),
        }
    }

    pub(crate) fn put(&mut self, rt: &impl Abort, bytes: &[u8]) {
        assert!(rt; self.bytes.extend_from_slice(bytes).is_ok(), "memory");
    }

    pub(crate) fn number(&mut self, rt: &impl Abort, number: u64) {
        let text = format!(in self.alloc; "{number}").expect(rt, "memory");
        self.put(rt, text.as_str().as_bytes());
    }
}
