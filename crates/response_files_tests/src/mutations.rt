// Random mutations of valid files, from a fixed seed.
use crate::texts::Text;
use rand_core::utils::NextWord;
use rand_pcg::Pcg32;
use std::alloc::Global;
use std::process::Abort;

// What lines are drawn from; all but the last three may stand after the second line.
const LINES: [&str; 9] = [
    "edit 0 1 ok",
    "edit 12 3 EBUSY",
    "edit 4294967295 70 ENOTEMPTY",
    "done 10 9",
    "edit 7 8 EINVAL",
    "done 0 4294967295",
    "edit 0 1 EIO",
    "done 4294967296 1",
    "",
];

// Kinds with their answers; the last two are none of the table.
const CALLS: [(u8, u8); 9] = [
    (1, 0),
    (1, 1),
    (1, 2),
    (2, 1),
    (3, 1),
    (3, 3),
    (4, 1),
    (2, 2),
    (4, 3),
];

const TEXT_BYTES: [u8; 12] = [10, 32, 48, 49, 57, 100, 107, 69, 43, 13, 127, 0];

const RECORD_BYTES: [u8; 8] = [0, 0, 1, 2, 3, 4, 32, 0xff];

#[derive(Drop)]
pub(crate) struct Dice {
    words: Pcg32,
}

impl Dice {
    pub(crate) fn new(seed: u64) -> Self {
        Dice {
            words: Pcg32::new(seed, 54),
        }
    }

    // A number below so many, or 0.
    fn roll(&mut self, sides: usize) -> usize {
        let word = self.words.next_word() as usize;
        if sides == 0 { 0 } else { word % sides }
    }

    fn byte(&mut self, from: &[u8]) -> u8 {
        let at = self.roll(from.len());
        from.get(at).copied().unwrap_or(0)
    }
}

// Puts, inserts or takes away a byte, or cuts the file.
fn mutate(rt: &impl Abort, dice: &mut Dice, file: &mut Vec<u8>, from: &[u8]) {
    let at = dice.roll(file.len());
    let byte = dice.byte(from);
    if at >= file.len() {
        return;
    }
    match dice.roll(8) {
        0 => file.truncate(at),
        1 => {
            let _ = file.remove(at);
        }
        2 => assert!(rt; file.insert(at, byte).is_ok(), "memory"),
        _ => file[at] = byte,
    }
}

// A record, most often of the table, with up to three bytes of data.
fn put_record(rt: &impl Abort, dice: &mut Dice, file: &mut Text) {
    let at = dice.roll(CALLS.len());
    let (kind, answer) = CALLS.get(at).copied().unwrap_or((1, 0));
    let len = dice.byte(&[0, 0, 1, 3]);
    let mut head = [0; 32];
    head[0] = dice.byte(&RECORD_BYTES);
    head[4] = kind;
    head[5] = answer;
    head[8] = dice.byte(&RECORD_BYTES);
    head[12] = len;
    if answer == 1 {
        head[16] = dice.byte(&RECORD_BYTES);
        head[26] = dice.byte(&RECORD_BYTES);
        head[31] = dice.byte(&RECORD_BYTES);
    }
    file.put(rt, &head);
    for _ in 0..len {
        file.put(rt, b"a");
    }
}

// A file of some records, most of them well, with some mutations of its bytes.
pub(crate) fn random_responses(rt: &impl Abort, alloc: Global, dice: &mut Dice) -> Vec<u8> {
    let mut text = Text::new(alloc);
    for _ in 0..dice.roll(6) {
        put_record(rt, dice, &mut text);
    }
    let mut file = text.bytes;
    for _ in 0..dice.roll(4) {
        mutate(rt, dice, &mut file, &RECORD_BYTES);
    }
    file
}

// A journal of some lines, most of them well, with some mutations of its bytes.
pub(crate) fn random_journal(rt: &impl Abort, alloc: Global, dice: &mut Dice) -> Vec<u8> {
    let mut text = Text::new(alloc);
    text.put(rt, b"nvmet-journal 1\nplaces 4294967295\n");
    for _ in 0..dice.roll(6) {
        let at = dice.roll(LINES.len());
        let line = LINES.get(at).copied().unwrap_or("");
        text.put(rt, line.as_bytes());
        text.put(rt, b"\n");
    }
    let mut file = text.bytes;
    for _ in 0..dice.roll(4) {
        mutate(rt, dice, &mut file, &TEXT_BYTES);
    }
    file
}
