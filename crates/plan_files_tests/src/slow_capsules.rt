// A plain slow reader of capsule files, byte by byte.
use crate::texts::Text;
use std::alloc::Global;
use std::process::Abort;

// Where the data of a capsule stand and how many bytes they are, its opcode and its SGL length.
pub(crate) type Place = (u64, u64, u64, u64);

// The answer as a text, and the capsules before the first fault.
#[derive(Drop)]
pub(crate) struct Slow {
    pub(crate) told: Text,
    pub(crate) places: Vec<Place>,
}

fn byte(file: &[u8], at: u64, after: u64) -> u64 {
    let place = at.saturating_add(after) as usize;
    match file.get(place) {
        Some(byte) => *byte as u64,
        None => 0,
    }
}

fn sgl_len(file: &[u8], at: u64) -> u64 {
    let mut len = 0u64;
    for after in [35, 34, 33, 32] {
        len = len
            .saturating_mul(256)
            .saturating_add(byte(file, at, after));
    }
    len
}

// Bits 1:0 of what says the direction.
fn way(file: &[u8], at: u64) -> u64 {
    let opcode = byte(file, at, 0);
    let kind = if opcode == 127 {
        byte(file, at, 4)
    } else {
        opcode
    };
    kind % 4
}

impl Slow {
    // Takes the capsule at a place. The answer is its bytes and its room, or nothing at a fault.
    fn take(&mut self, rt: &impl Abort, file: &[u8], at: u64, room: u64) -> Option<(u64, u64)> {
        let left = (file.len() as u64).saturating_sub(at);
        let way = way(file, at);
        let len = sgl_len(file, at);
        let bytes = if way == 1 { len } else { 0 };
        let long = bytes > 131_072 && left >= 64;
        if long {
            self.told.limit(rt, b"data", bytes);
            return None;
        }
        let whole = bytes.saturating_add(64);
        if left < whole {
            self.told.place(rt, b"offset", at);
            return None;
        }
        let mut more = 96u64;
        if way == 2 && len <= 131_072 {
            more = more.saturating_add(len);
        }
        let all = room.saturating_add(more);
        if all > 67_108_864 {
            self.told.limit(rt, b"output", all);
            return None;
        }
        let place = (at.saturating_add(64), bytes, byte(file, at, 0), len);
        assert!(rt; self.places.push(place).is_ok(), "memory");
        Some((whole, all))
    }
}

pub(crate) fn slow_capsules(rt: &impl Abort, alloc: Global, file: &[u8]) -> Slow {
    let mut slow = Slow {
        told: Text::new(alloc),
        places: Vec::new(alloc),
    };
    let mut at = 0u64;
    let mut room = 160u64;
    for count in 0..65_537u64 {
        if at >= file.len() as u64 {
            let quota = count.saturating_mul(3).saturating_add(6);
            slow.told.counts(rt, count, room, quota);
            return slow;
        }
        if count == 65_536 {
            slow.told.limit(rt, b"capsules", 65_537);
            return slow;
        }
        let Some((whole, all)) = slow.take(rt, file, at, room) else {
            return slow;
        };
        at = at.saturating_add(whole);
        room = all;
    }
    slow
}
