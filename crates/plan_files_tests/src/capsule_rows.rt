// Capsule files with their answers: where a fault stands, a passed limit with its count, or how
// many capsules are read, with their room and their quota.
use crate::texts::Text;
use std::alloc::Global;
use std::process::Abort;

// A piece of a capsule file.
#[derive(Clone, Copy)]
pub(crate) enum Piece {
    // So many entries with this opcode and SGL length.
    Entries(usize, u8, u32),
    // A fabrics command with this FCTYPE and SGL length.
    Fabrics(u8, u32),
    // So many letters, which are no harmless entry.
    Letters(usize),
}

use Piece::{Entries, Fabrics, Letters};

pub(crate) type Row = (&'static [Piece], &'static str);

const FLUSH: u8 = 0x00;

const WRITE: u8 = 0x01;

const READ: u8 = 0x02;

// A reserved opcode whose bits say both directions.
const BOTH: u8 = 0x03;

// A vendor's opcode whose data go to the controller.
const VENDOR: u8 = 0x81;

fn entry(opcode: u8, fctype: u8, len: u32) -> [u8; 64] {
    let mut bytes = [0; 64];
    let [a, b, c, d] = len.to_le_bytes();
    bytes[0] = opcode;
    bytes[4] = fctype;
    bytes[32] = a;
    bytes[33] = b;
    bytes[34] = c;
    bytes[35] = d;
    bytes[40] = 0xff;
    bytes
}

fn put_piece(rt: &impl Abort, out: &mut Text, piece: Piece) {
    match piece {
        Piece::Entries(n, opcode, len) => {
            for _ in 0..n {
                out.put(rt, &entry(opcode, 2, len));
            }
        }
        Piece::Fabrics(fctype, len) => out.put(rt, &entry(0x7f, fctype, len)),
        Piece::Letters(n) => {
            for _ in 0..n {
                out.put(rt, b"a");
            }
        }
    }
}

pub(crate) fn built(rt: &impl Abort, alloc: Global, pieces: &[Piece]) -> Text {
    let mut out = Text::new(alloc);
    for piece in pieces {
        put_piece(rt, &mut out, *piece);
    }
    out
}

// A file of a Flush, a Write with its data and a Read, and where each of its capsules begins and
// the last one ends.
pub(crate) const THREE: &[Piece] = &[
    Entries(1, FLUSH, 0),
    Entries(1, WRITE, 5),
    Letters(5),
    Entries(1, READ, 9),
];

pub(crate) const ENDS: &[usize] = &[0, 64, 133, 197];

// Cuts, data and their limit.
pub(crate) const CUTS: &[Row] = &[
    (&[], "capsules 0 room 160 quota 6"),
    (&[Letters(1)], "offset 0"),
    (&[Letters(63)], "offset 0"),
    (&[Entries(1, FLUSH, 0)], "capsules 1 room 256 quota 9"),
    (&[Entries(1, FLUSH, 0), Letters(1)], "offset 64"),
    (
        &[Entries(1, FLUSH, 0), Entries(1, READ, 512), Letters(2)],
        "offset 128",
    ),
    (&[Entries(1, READ, 512), Letters(63)], "offset 64"),
    (&[Entries(1, WRITE, 4096), Letters(100)], "offset 0"),
    (&[Entries(1, WRITE, 4096), Letters(4095)], "offset 0"),
    (
        &[Entries(1, WRITE, 4096), Letters(4096)],
        "capsules 1 room 256 quota 9",
    ),
    (&[Entries(1, WRITE, 4096), Letters(4097)], "offset 4160"),
    (&[Entries(1, WRITE, 0)], "capsules 1 room 256 quota 9"),
    (&[Entries(1, WRITE, 1)], "offset 0"),
    (
        &[Entries(2, FLUSH, 9), Entries(1, WRITE, 512), Letters(511)],
        "offset 128",
    ),
    (
        &[Entries(1, WRITE, 131_072), Letters(131_072)],
        "capsules 1 room 256 quota 9",
    ),
    (&[Entries(1, WRITE, 131_072), Letters(131_071)], "offset 0"),
    (
        &[Entries(1, WRITE, 131_073), Letters(131_073)],
        "limit data 131073",
    ),
    (&[Entries(1, WRITE, 131_073)], "limit data 131073"),
    (&[Entries(1, WRITE, 0xffff_ffff)], "limit data 4294967295"),
    (
        &[Entries(1, FLUSH, 0), Entries(1, WRITE, 131_073)],
        "limit data 131073",
    ),
    (
        &[Letters(63), Entries(1, WRITE, 131_073)],
        "limit data 1633771873",
    ),
    (&[Entries(1, WRITE, 1), Letters(64)], "offset 65"),
    (
        &[Entries(1, VENDOR, 3), Letters(3)],
        "capsules 1 room 256 quota 9",
    ),
    (&[Entries(1, VENDOR, 3), Letters(2)], "offset 0"),
    (&[Entries(1, BOTH, 131_073)], "capsules 1 room 256 quota 9"),
    (&[Entries(1, BOTH, 512), Letters(1)], "offset 64"),
    (&[Fabrics(0, 1024)], "capsules 1 room 256 quota 9"),
    (
        &[Fabrics(1, 1024), Letters(1024)],
        "capsules 1 room 256 quota 9",
    ),
    (&[Fabrics(1, 1024), Letters(1023)], "offset 0"),
    (&[Fabrics(1, 131_073)], "limit data 131073"),
    (&[Fabrics(2, 1024)], "capsules 1 room 1280 quota 9"),
    (&[Fabrics(3, 1024)], "capsules 1 room 256 quota 9"),
];

// Room and the number of capsules.
pub(crate) const ROOMS: &[Row] = &[
    (&[Entries(1, READ, 512)], "capsules 1 room 768 quota 9"),
    (
        &[Entries(1, READ, 131_072)],
        "capsules 1 room 131328 quota 9",
    ),
    (&[Entries(1, READ, 131_073)], "capsules 1 room 256 quota 9"),
    (
        &[Entries(1, READ, 0xffff_ffff)],
        "capsules 1 room 256 quota 9",
    ),
    (
        &[Entries(511, READ, 131_072)],
        "capsules 511 room 67027008 quota 1539",
    ),
    (&[Entries(512, READ, 131_072)], "limit output 67158176"),
    (
        &[Entries(512, READ, 131_072), Letters(1)],
        "limit output 67158176",
    ),
    (
        &[Entries(512, READ, 131_072), Entries(1, WRITE, 131_073)],
        "limit output 67158176",
    ),
    (&[Entries(511, READ, 131_072), Letters(63)], "offset 32704"),
    (
        &[Entries(511, READ, 131_072), Entries(1, READ, 81_760)],
        "capsules 512 room 67108864 quota 1542",
    ),
    (
        &[Entries(511, READ, 131_072), Entries(1, READ, 81_761)],
        "limit output 67108865",
    ),
    (
        &[
            Entries(511, READ, 131_072),
            Entries(1, READ, 81_760),
            Entries(1, FLUSH, 0),
        ],
        "limit output 67108960",
    ),
    (
        &[
            Entries(511, READ, 131_072),
            Entries(1, READ, 81_760),
            Entries(1, WRITE, 2),
            Letters(1),
        ],
        "offset 32768",
    ),
    (
        &[
            Entries(511, READ, 131_072),
            Entries(1, READ, 81_760),
            Entries(1, WRITE, 2),
            Letters(2),
        ],
        "limit output 67108960",
    ),
    (
        &[Entries(65_536, FLUSH, 0)],
        "capsules 65536 room 6291616 quota 196614",
    ),
    (&[Entries(65_537, FLUSH, 0)], "limit capsules 65537"),
    (
        &[Entries(65_536, FLUSH, 0), Letters(1)],
        "limit capsules 65537",
    ),
    (
        &[Entries(65_536, FLUSH, 0), Entries(1, WRITE, 131_073)],
        "limit capsules 65537",
    ),
    (&[Entries(65_535, FLUSH, 0), Letters(63)], "offset 4194240"),
];
