// Random mutations of valid files, from a fixed seed.
use crate::texts::Text;
use rand_core::utils::NextWord;
use rand_pcg::Pcg32;
use std::alloc::Global;
use std::process::Abort;

// What lines are drawn from. The first ones make the valid plans below.
const LINES: [&str; 20] = [
    "simple",
    "disk /dev/ram0 9 16",
    "queue 1 q1 r1",
    "config c",
    "journal j",
    "script s",
    "disk /dev/ram1 12 4096",
    "queue 65535 q2 r2",
    "# simple",
    "",
    "disk /dev/ram0 12 1",
    "disk /dev/ram2 9 32769",
    "disk /dev/ram3 9 0",
    "disk c 9 1",
    "queue 0 c r3",
    "queue 1 q3 q3",
    "config d",
    "journal r1",
    "script c",
    "disk /dev/ram4 9  1",
];

const SIMPLE: [usize; 3] = [0, 1, 2];

const FULL: [usize; 9] = [3, 8, 4, 5, 1, 6, 9, 2, 7];

const TEXT_BYTES: [u8; 12] = [10, 32, 35, 48, 49, 57, 47, 99, 113, 120, 127, 0];

const ENTRY_BYTES: [u8; 8] = [0, 1, 2, 3, 9, 0x7f, 0x81, 0xff];

const OPCODES: [u8; 8] = [0, 1, 1, 2, 3, 0x7f, 0x81, 0x12];

const LENGTHS: [u32; 8] = [0, 1, 2, 3, 64, 131_072, 131_073, 512];

#[derive(Drop)]
pub(crate) struct Dice {
    words: Pcg32,
}

impl Dice {
    pub(crate) fn new(seed: u64) -> Self {
        Dice {
            words: Pcg32::new(seed, 54),
        }
    }

    // A number below so many, or 0.
    fn roll(&mut self, sides: usize) -> usize {
        let word = self.words.next_word() as usize;
        if sides == 0 { 0 } else { word % sides }
    }

    fn byte(&mut self, from: &[u8]) -> u8 {
        let at = self.roll(from.len());
        from.get(at).copied().unwrap_or(0)
    }
}

// Puts, inserts or takes away a byte, or cuts the file.
fn mutate(rt: &impl Abort, dice: &mut Dice, file: &mut Vec<u8>, from: &[u8]) {
    let at = dice.roll(file.len());
    let byte = dice.byte(from);
    if at >= file.len() {
        return;
    }
    match dice.roll(8) {
        0 => file.truncate(at),
        1 => {
            let _ = file.remove(at);
        }
        2 => {
            let _ = file.remove(at);
        }
        3 => assert!(rt; file.insert(at, byte).is_ok(), "memory"),
        4 => assert!(rt; file.insert(at, byte).is_ok(), "memory"),
        _ => file[at] = byte,
    }
}

// Inserts a line, takes one away, or turns two.
fn mutate_lines(rt: &impl Abort, dice: &mut Dice, lines: &mut Vec<usize>) {
    let a = dice.roll(lines.len());
    let b = dice.roll(lines.len());
    if a >= lines.len() || b >= lines.len() {
        return;
    }
    match dice.roll(4) {
        0 => {
            let _ = lines.remove(a);
        }
        1 => lines.swap(a, b),
        _ => {
            let line = dice.roll(LINES.len());
            assert!(rt; lines.insert(a, line).is_ok(), "memory");
        }
    }
}

// A valid plan with some mutations of its lines and then of its bytes.
pub(crate) fn random_plan(rt: &impl Abort, alloc: Global, dice: &mut Dice) -> Vec<u8> {
    let base = if dice.roll(2) == 0 {
        SIMPLE.as_slice()
    } else {
        FULL.as_slice()
    };
    let mut lines = Vec::from_slice(alloc, base).expect(rt, "memory");
    for _ in 0..dice.roll(4) {
        mutate_lines(rt, dice, &mut lines);
    }
    let mut text = Text::new(alloc);
    text.put(rt, b"nvmet-plan 1\n");
    for line in lines.iter() {
        let line = LINES.get(*line).copied().unwrap_or("");
        text.put(rt, line.as_bytes());
        text.put(rt, b"\n");
    }
    let mut file = text.bytes;
    for _ in 0..dice.roll(3) {
        mutate(rt, dice, &mut file, &TEXT_BYTES);
    }
    file
}

// An entry with the data that go with it.
fn put_capsule(rt: &impl Abort, dice: &mut Dice, file: &mut Text) {
    let opcode = dice.byte(&OPCODES);
    let fctype = dice.byte(&[0, 1, 2, 3]);
    let at = dice.roll(LENGTHS.len());
    let len = LENGTHS.get(at).copied().unwrap_or(0);
    let mut entry = [7; 64];
    entry[0] = opcode;
    entry[4] = fctype;
    for (to, from) in entry[32..36].iter_mut().zip(len.to_le_bytes()) {
        *to = from;
    }
    file.put(rt, &entry);
    let kind = if opcode == 0x7f { fctype } else { opcode };
    if kind % 4 == 1 && len <= 512 {
        for _ in 0..len {
            file.put(rt, b"a");
        }
    }
}

// A file of some capsules, most of them whole, with some mutations of its bytes.
pub(crate) fn random_capsules(rt: &impl Abort, alloc: Global, dice: &mut Dice) -> Vec<u8> {
    let mut text = Text::new(alloc);
    for _ in 0..dice.roll(8) {
        put_capsule(rt, dice, &mut text);
    }
    let mut file = text.bytes;
    for _ in 0..dice.roll(4) {
        mutate(rt, dice, &mut file, &ENTRY_BYTES);
    }
    file
}
