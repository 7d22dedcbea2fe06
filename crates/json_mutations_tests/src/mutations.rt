// Random configurations, most members well, some of another kind, missing, unknown or twice; then
// some mutations of bytes. From a fixed seed.
use crate::texts::Text;
use rand_core::utils::NextWord;
use rand_pcg::Pcg32;
use std::alloc::Global;
use std::process::Abort;

#[derive(Drop)]
pub(crate) struct Dice {
    words: Pcg32,
}

// Values of one kind: those that are well, and those that aren't.
type Pool = (&'static [&'static str], &'static [&'static str]);

// A member's name, and how its value is drawn.
type Member = (&'static str, Pool);

const NQNS: Pool = (
    &[
        "\"h\"",
        "\"testnqn\"",
        "\"nqn.2014-08.org.nvmexpress:uuid:a\"",
        "\"\\u0061~\"",
    ],
    &[
        "\"\"",
        "\"a/b\"",
        "7",
        "null",
        "\"a b\"",
        "[]",
        "\"\\u00e9\"",
    ],
);

const VALUES: Pool = (
    &[
        "\"1\"",
        "\"Linux\"",
        "0",
        "18446744073709551615",
        "\" ~\"",
        "\"\\u0041\\n\\\"\"",
        "\"\"",
    ],
    &[
        "null",
        "true",
        "1.0",
        "-0",
        "18446744073709551616",
        "\"\\u001f\"",
        "[]",
        "{}",
        "1e2",
        "\"\\ud83d\\ude00\"",
    ],
);

const ADDRESSES: Pool = (
    &["\"loop\"", "\"\"", "\"not specified\"", "4420"],
    &["null", "[1]"],
);

const NUMBERS: Pool = (
    &["1", "\"2\"", "4294967295", "0", "\"77\""],
    &[
        "4294967296",
        "\"01\"",
        "\"\"",
        "-1",
        "1.5",
        "null",
        "\"+1\"",
        "1e0",
    ],
);

const PORT_IDS: Pool = (&["1", "\"2\"", "65535", "0"], &["65536", "\"65536\"", "{}"]);

const FLAGS: Pool = (
    &["0", "1", "\"0\"", "\"1\""],
    &["2", "\"2\"", "true", "\"\"", "\"01\""],
);

const UNKNOWN: Pool = (
    &[
        "{\"nqn\":1}",
        "[[[]],{}]",
        "null",
        "1e30",
        "\"\\u0001\\ud83d\\ude00\"",
        "-7.25E-2",
    ],
    &["[{\"a\":[]}]"],
);

const ARRAYS: [&str; 4] = ["null", "{}", "\"a\"", "1"];

const ATTR: &[Member] = &[
    ("allow_any_host", VALUES),
    ("model", VALUES),
    ("serial", VALUES),
    ("version", UNKNOWN),
];

const DEVICE: &[Member] = &[
    ("uuid", VALUES),
    ("path", VALUES),
    ("nguid", VALUES),
    ("size", UNKNOWN),
];

const ADDR: &[Member] = &[
    ("trtype", ADDRESSES),
    ("adrfam", ADDRESSES),
    ("traddr", ADDRESSES),
    ("trsvcid", ADDRESSES),
    ("treq", ADDRESSES),
    ("tsas", UNKNOWN),
];

const BYTES: [u8; 20] = [
    b'{', b'}', b'[', b']', b'"', b',', b':', b'\\', b'0', b'1', b'9', b'.', b'-', b'e', b' ',
    b'n', b'u', b'/', 7, 195,
];

impl Dice {
    pub(crate) fn new(seed: u64) -> Self {
        Dice {
            words: Pcg32::new(seed, 54),
        }
    }

    // A number below so many, or 0.
    fn roll(&mut self, sides: usize) -> usize {
        let word = self.words.next_word() as usize;
        if sides == 0 { 0 } else { word % sides }
    }

    // One in so many.
    fn hits(&mut self, sides: usize) -> bool {
        self.roll(sides) == 0
    }
}

fn put_value(rt: &impl Abort, dice: &mut Dice, out: &mut Text, pool: Pool) {
    let (good, bad) = pool;
    let from = if dice.hits(40) { bad } else { good };
    let at = dice.roll(from.len());
    out.put(rt, from.get(at).copied().unwrap_or("0").as_bytes());
}

// A name, quoted, behind a comma where it isn't the first.
fn put_name(rt: &impl Abort, out: &mut Text, name: &str) {
    if out.bytes.last() != Some(&b'{') {
        out.put(rt, b",");
    }
    out.put(rt, b"\"");
    out.put(rt, name.as_bytes());
    out.put(rt, b"\":");
}

// A member that must be there, most often.
fn put_must(rt: &impl Abort, dice: &mut Dice, out: &mut Text, name: &str, pool: Pool) {
    if !dice.hits(60) {
        put_name(rt, out, name);
        put_value(rt, dice, out, pool);
    }
    if dice.hits(30) {
        put_name(rt, out, name);
        put_value(rt, dice, out, pool);
    }
}

fn put_may(rt: &impl Abort, dice: &mut Dice, out: &mut Text, name: &str, pool: Pool) {
    if dice.hits(2) {
        put_must(rt, dice, out, name, pool);
    }
}

// An object of values, as a member.
fn put_values(rt: &impl Abort, dice: &mut Dice, out: &mut Text, name: &str, members: &[Member]) {
    put_name(rt, out, name);
    if dice.hits(40) {
        out.put(rt, b"null");
        return;
    }
    out.put(rt, b"{");
    for (name, pool) in members {
        put_may(rt, dice, out, name, *pool);
    }
    out.put(rt, b"}");
}

// Begins an array as a member and tells how many entries it gets; another value, at times.
fn begin_array(rt: &impl Abort, dice: &mut Dice, out: &mut Text, name: &str, most: usize) -> usize {
    put_name(rt, out, name);
    if dice.hits(40) {
        let at = dice.roll(ARRAYS.len());
        out.put(rt, ARRAYS.get(at).copied().unwrap_or("0").as_bytes());
        return 0;
    }
    out.put(rt, b"[");
    let entries = dice.roll(most.saturating_add(1));
    if entries == 0 {
        out.put(rt, b"]");
    }
    entries
}

// Behind an entry: a comma, or the array's end.
fn end_entry(rt: &impl Abort, out: &mut Text, i: usize, entries: usize) {
    let is_last = i.saturating_add(1) == entries;
    out.put(rt, if is_last { b"]" } else { b"," });
}

fn put_names(rt: &impl Abort, dice: &mut Dice, out: &mut Text, name: &str) {
    let entries = begin_array(rt, dice, out, name, 3);
    for i in 0..entries {
        put_value(rt, dice, out, NQNS);
        end_entry(rt, out, i, entries);
    }
}

fn put_namespace(rt: &impl Abort, dice: &mut Dice, out: &mut Text) {
    out.put(rt, b"{");
    put_must(rt, dice, out, "nsid", NUMBERS);
    put_may(rt, dice, out, "ana_grpid", VALUES);
    if dice.hits(2) {
        put_values(
            rt,
            dice,
            out,
            "ana",
            &[("grpid", NUMBERS), ("state", UNKNOWN)],
        );
    }
    if dice.hits(2) {
        put_values(rt, dice, out, "device", DEVICE);
    }
    put_may(rt, dice, out, "enable", FLAGS);
    put_may(rt, dice, out, "resv_enable", UNKNOWN);
    out.put(rt, b"}");
}

fn put_subsystem(rt: &impl Abort, dice: &mut Dice, out: &mut Text) {
    out.put(rt, b"{");
    put_may(rt, dice, out, "passthru", UNKNOWN);
    if dice.hits(2) {
        put_values(rt, dice, out, "attr", ATTR);
    }
    let entries = begin_array(rt, dice, out, "namespaces", 3);
    for i in 0..entries {
        put_namespace(rt, dice, out);
        end_entry(rt, out, i, entries);
    }
    if dice.hits(2) {
        put_names(rt, dice, out, "allowed_hosts");
    }
    put_must(rt, dice, out, "nqn", NQNS);
    out.put(rt, b"}");
}

fn put_group(rt: &impl Abort, dice: &mut Dice, out: &mut Text) {
    out.put(rt, b"{");
    put_must(rt, dice, out, "grpid", NUMBERS);
    if dice.hits(2) {
        put_values(
            rt,
            dice,
            out,
            "ana",
            &[("state", VALUES), ("grpid", UNKNOWN)],
        );
    }
    out.put(rt, b"}");
}

fn put_port(rt: &impl Abort, dice: &mut Dice, out: &mut Text) {
    out.put(rt, b"{");
    if dice.hits(2) {
        put_values(rt, dice, out, "addr", ADDR);
    }
    put_must(rt, dice, out, "portid", PORT_IDS);
    if dice.hits(2) {
        let entries = begin_array(rt, dice, out, "ana_groups", 3);
        for i in 0..entries {
            put_group(rt, dice, out);
            end_entry(rt, out, i, entries);
        }
    }
    if dice.hits(2) {
        let entries = begin_array(rt, dice, out, "referrals", 3);
        for i in 0..entries {
            put_value(rt, dice, out, UNKNOWN);
            end_entry(rt, out, i, entries);
        }
    }
    if dice.hits(2) {
        put_names(rt, dice, out, "subsystems");
    }
    put_may(rt, dice, out, "param", UNKNOWN);
    out.put(rt, b"}");
}

fn put_host(rt: &impl Abort, dice: &mut Dice, out: &mut Text) {
    out.put(rt, b"{");
    put_must(rt, dice, out, "nqn", NQNS);
    put_may(rt, dice, out, "dhchap_key", UNKNOWN);
    out.put(rt, b"}");
}

// Puts, inserts or takes away a byte, or cuts the text.
fn mutate(rt: &impl Abort, dice: &mut Dice, text: &mut Vec<u8>) {
    let at = dice.roll(text.len());
    let from = dice.roll(BYTES.len());
    let byte = BYTES.get(from).copied().unwrap_or(0);
    if at >= text.len() {
        return;
    }
    match dice.roll(8) {
        0 => text.truncate(at),
        1 | 2 => {
            let _ = text.remove(at);
        }
        3 | 4 => assert!(rt; text.insert(at, byte).is_ok(), "memory"),
        _ => text[at] = byte,
    }
}

// A configuration.
pub(crate) fn random_configuration(rt: &impl Abort, alloc: Global, dice: &mut Dice) -> Vec<u8> {
    let mut out = Text::new(alloc);
    out.put(rt, b"{");
    put_may(rt, dice, &mut out, "version", UNKNOWN);
    if dice.hits(2) {
        let entries = begin_array(rt, dice, &mut out, "ports", 2);
        for i in 0..entries {
            put_port(rt, dice, &mut out);
            end_entry(rt, &mut out, i, entries);
        }
    }
    if dice.hits(2) {
        let entries = begin_array(rt, dice, &mut out, "hosts", 3);
        for i in 0..entries {
            put_host(rt, dice, &mut out);
            end_entry(rt, &mut out, i, entries);
        }
    }
    if dice.hits(2) {
        let entries = begin_array(rt, dice, &mut out, "subsystems", 2);
        for i in 0..entries {
            put_subsystem(rt, dice, &mut out);
            end_entry(rt, &mut out, i, entries);
        }
    }
    out.put(rt, b"}");
    let mut text = out.bytes;
    if dice.hits(3) {
        for _ in 0..dice.roll(3).saturating_add(1) {
            mutate(rt, dice, &mut text);
        }
    }
    text
}
