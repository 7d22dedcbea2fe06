// Plans with their answers: where a fault stands, or a passed limit with its count. `read` says
// that the plan is read and is spelled by the very lines that follow the first.
use crate::texts::Text;
use std::alloc::Global;
use std::process::Abort;

// A piece of a plan.
#[derive(Clone, Copy)]
pub(crate) enum Piece {
    // A text.
    Line(&'static str),
    // So many letters.
    Letters(usize),
    // So many disks, each of so many blocks of 512 bytes.
    Disks(u64, u64),
    // So many queues.
    Queues(u64),
}

use Piece::{Disks, Letters, Line, Queues};

pub(crate) type Row = (&'static [Piece], &'static str);

fn put_piece(rt: &impl Abort, alloc: Global, out: &mut Text, piece: Piece) {
    match piece {
        Piece::Line(text) => out.put(rt, text.as_bytes()),
        Piece::Letters(n) => {
            for _ in 0..n {
                out.put(rt, b"n");
            }
        }
        Piece::Disks(n, blocks) => {
            for i in 0..n {
                let path = format!(in alloc; "/dev/ram{i}").expect(rt, "memory");
                out.disk(rt, path.as_str().as_bytes(), 9, blocks);
            }
        }
        Piece::Queues(n) => {
            for i in 0..n {
                let capsules = format!(in alloc; "q{i}").expect(rt, "memory");
                let responses = format!(in alloc; "r{i}").expect(rt, "memory");
                out.queue(
                    rt,
                    1,
                    capsules.as_str().as_bytes(),
                    responses.as_str().as_bytes(),
                );
            }
        }
    }
}

pub(crate) fn built(rt: &impl Abort, alloc: Global, head: &str, pieces: &[Piece]) -> Text {
    let mut out = Text::new(alloc);
    out.put(rt, head.as_bytes());
    for piece in pieces {
        put_piece(rt, alloc, &mut out, *piece);
    }
    out
}

pub(crate) const HEAD: &str = "nvmet-plan 1\n";

// Whole files.
pub(crate) const HEADS: &[(&str, &str)] = &[
    ("", "line 1"),
    ("\n", "line 1"),
    ("nvmet-plan 2\nconfig c\njournal j\n", "line 1"),
    ("nvmet-plan 1 \nconfig c\njournal j\n", "line 1"),
    (" nvmet-plan 1\nconfig c\njournal j\n", "line 1"),
    ("# plan\nnvmet-plan 1\nconfig c\njournal j\n", "line 1"),
    ("\nnvmet-plan 1\nconfig c\njournal j\n", "line 1"),
    ("nvmet-plan 1\r\nconfig c\njournal j\n", "line 1"),
    ("nvmet-plan 1", "line 2"),
    ("nvmet-plan 1\n", "line 2"),
    ("nvmet-plan 1\ndisc x\nconfig c\njournal j\n", "line 2"),
    ("nvmet-plan 1\nconfig c", "line 3"),
    ("nvmet-plan 1\nconfig c\n", "line 3"),
    ("nvmet-plan 1\nconfig c\n\n", "line 4"),
    ("nvmet-plan 1\njournal j\n", "line 3"),
    ("nvmet-plan 1\nconfig c\njournal j", "config c\njournal j\n"),
    (
        "nvmet-plan 1\njournal j\nconfig c\n",
        "config c\njournal j\n",
    ),
    (
        "nvmet-plan 1\n#simple\nconfig c\n\njournal j\n#",
        "config c\njournal j\n",
    ),
    ("nvmet-plan 1\n # x\nconfig c\njournal j\n", "line 2"),
    (
        "nvmet-plan 1\nnvmet-plan 1\nconfig c\njournal j\n",
        "line 2",
    ),
];

// What follows the first line: words, and what a plan without `simple` may have.
pub(crate) const WORDS: &[Row] = &[
    (&[Line("config c\njournal j\n")], "read"),
    (&[Line("config c\nscript s\njournal j\n")], "read"),
    (&[Line("config c\njournal j\nqueue 0 q r\n")], "read"),
    (&[Line("Config c\njournal j\n")], "line 2"),
    (&[Line("config\njournal j\n")], "line 2"),
    (&[Line("config \njournal j\n")], "line 2"),
    (&[Line("config  c\njournal j\n")], "line 2"),
    (&[Line("config c \njournal j\n")], "line 2"),
    (&[Line(" config c\njournal j\n")], "line 2"),
    (&[Line("config c d\njournal j\n")], "line 2"),
    (&[Line("config\tc\njournal j\n")], "line 2"),
    (&[Line("config c\tc\njournal j\n")], "line 2"),
    (&[Line("config c\u{7f}\njournal j\n")], "line 2"),
    (&[Line("config \u{e9}\njournal j\n")], "line 2"),
    (&[Line("config !\njournal ~\n")], "read"),
    (&[Line("config c\njournal j\ndisk\n")], "line 4"),
    (&[Line("config c\njournal j\ndisk d 9\n")], "line 4"),
    (&[Line("config c\njournal j\ndisk d 9 1 1\n")], "line 4"),
    (&[Line("config c\njournal j\nqueue 1 q\n")], "line 4"),
    (&[Line("config c\njournal j\nqueue 1 q r s\n")], "line 4"),
    (&[Line("config c\njournal j\nconfig d\n")], "line 4"),
    (
        &[Line("script s\nscript t\nconfig c\njournal j\n")],
        "line 3",
    ),
    (&[Line("config c\njournal j\njournal k\n")], "line 4"),
    (&[Line("config c\nscript c\njournal j\n")], "line 3"),
    (&[Line("config c\njournal c\n")], "line 3"),
    (&[Line("script c\njournal j\nconfig c\n")], "line 4"),
    (&[Line("config c\njournal j\nqueue 1 c r\n")], "line 4"),
    (&[Line("config c\njournal j\nqueue 1 q j\n")], "line 4"),
    (&[Line("config c\njournal j\nqueue 1 q q\n")], "line 4"),
    (
        &[Line("config c\njournal j\nqueue 1 q r\nqueue 1 r s\n")],
        "line 5",
    ),
    (&[Line("queue 1 q r\nconfig c\njournal r\n")], "line 4"),
    (
        &[Line("disk c 9 1\ndisk d 9 1\nconfig c\njournal d\n")],
        "read",
    ),
    (
        &[Line("disk d 9 1\ndisk d 12 2\nconfig c\njournal j\n")],
        "line 3",
    ),
    (
        &[Line("config "), Letters(255), Line("\njournal j\n")],
        "read",
    ),
    (
        &[Line("config "), Letters(256), Line("\njournal j\n")],
        "line 2",
    ),
    (
        &[
            Line("config c\nscript "),
            Letters(255),
            Line("\njournal j\n"),
        ],
        "read",
    ),
    (
        &[
            Line("config c\nscript "),
            Letters(256),
            Line("\njournal j\n"),
        ],
        "line 3",
    ),
    (
        &[Line("config c\njournal "), Letters(255), Line("\n")],
        "read",
    ),
    (
        &[Line("config c\njournal "), Letters(256), Line("\n")],
        "line 3",
    ),
    (
        &[
            Line("disk "),
            Letters(255),
            Line(" 9 1\nconfig c\njournal j\n"),
        ],
        "read",
    ),
    (
        &[
            Line("disk "),
            Letters(256),
            Line(" 9 1\nconfig c\njournal j\n"),
        ],
        "line 2",
    ),
    (
        &[
            Line("config c\njournal j\nqueue 1 "),
            Letters(255),
            Line(" r\n"),
        ],
        "read",
    ),
    (
        &[
            Line("config c\njournal j\nqueue 1 "),
            Letters(256),
            Line(" r\n"),
        ],
        "line 4",
    ),
    (
        &[
            Line("config c\njournal j\nqueue 1 q "),
            Letters(255),
            Line("\n"),
        ],
        "read",
    ),
    (
        &[
            Line("config c\njournal j\nqueue 1 q "),
            Letters(256),
            Line("\n"),
        ],
        "line 4",
    ),
];

// Numbers at the last that is read and the first that is refused, and limits.
pub(crate) const NUMBERS: &[Row] = &[
    (&[Line("disk d 8 1\nconfig c\njournal j\n")], "line 2"),
    (&[Line("disk d 10 1\nconfig c\njournal j\n")], "line 2"),
    (&[Line("disk d 11 1\nconfig c\njournal j\n")], "line 2"),
    (&[Line("disk d 12 1\nconfig c\njournal j\n")], "read"),
    (&[Line("disk d 13 1\nconfig c\njournal j\n")], "line 2"),
    (&[Line("disk d 09 1\nconfig c\njournal j\n")], "line 2"),
    (&[Line("disk d +9 1\nconfig c\njournal j\n")], "line 2"),
    (&[Line("disk d 9x 1\nconfig c\njournal j\n")], "line 2"),
    (&[Line("disk d 265 1\nconfig c\njournal j\n")], "line 2"),
    (&[Line("disk d 9 0\nconfig c\njournal j\n")], "line 2"),
    (&[Line("disk d 9 01\nconfig c\njournal j\n")], "line 2"),
    (&[Line("disk d 9 00\nconfig c\njournal j\n")], "line 2"),
    (&[Line("disk d 9 1\nconfig c\njournal j\n")], "read"),
    (&[Line("disk d 9 32768\nconfig c\njournal j\n")], "read"),
    (
        &[Line("disk d 9 32769\nconfig c\njournal j\n")],
        "limit disk-bytes 16777728",
    ),
    (&[Line("disk d 12 4096\nconfig c\njournal j\n")], "read"),
    (
        &[Line("disk d 12 4097\nconfig c\njournal j\n")],
        "limit disk-bytes 16781312",
    ),
    (
        &[Line("disk d 9 4503599627370495\nconfig c\njournal j\n")],
        "limit disk-bytes 2305843009213693440",
    ),
    (
        &[Line("disk d 12 4503599627370495\nconfig c\njournal j\n")],
        "limit disk-bytes 18446744073709547520",
    ),
    (
        &[Line("disk d 9 4503599627370496\nconfig c\njournal j\n")],
        "line 2",
    ),
    (
        &[Line("disk d 9 18446744073709551616\nconfig c\njournal j\n")],
        "line 2",
    ),
    (
        &[Line("disk d 9 18446744073709551617\nconfig c\njournal j\n")],
        "line 2",
    ),
    (&[Line("config c\njournal j\nqueue 65535 q r\n")], "read"),
    (&[Line("config c\njournal j\nqueue 65536 q r\n")], "line 4"),
    (&[Line("config c\njournal j\nqueue 65537 q r\n")], "line 4"),
    (&[Line("config c\njournal j\nqueue 00 q r\n")], "line 4"),
    (&[Line("config c\njournal j\nqueue 01 q r\n")], "line 4"),
    (&[Line("config c\njournal j\nqueue -1 q r\n")], "line 4"),
    (&[Disks(64, 1), Line("config c\njournal j\n")], "read"),
    (
        &[Disks(65, 1), Line("config c\njournal j\n")],
        "limit disks 65",
    ),
    (&[Disks(64, 1), Line("disk d 9 32769\n")], "limit disks 65"),
    (&[Disks(64, 1), Line("disk d 9 0\n")], "line 66"),
    (&[Disks(64, 1), Line("disk /dev/ram0 9 1\n")], "line 66"),
    (&[Disks(64, 1), Line("bad\ndisk d 9 1\n")], "line 66"),
    (&[Disks(65, 1), Line("bad\n")], "limit disks 65"),
    (&[Disks(16, 32_768), Line("config c\njournal j\n")], "read"),
    (
        &[Disks(17, 32_768), Line("config c\njournal j\n")],
        "limit all-disk-bytes 285212672",
    ),
    (
        &[Disks(16, 32_768), Line("disk d 9 1\n")],
        "limit all-disk-bytes 268435968",
    ),
    (
        &[Disks(16, 32_768), Line("disk d 9 32769\n")],
        "limit disk-bytes 16777728",
    ),
    (&[Line("config c\njournal j\n"), Queues(31)], "read"),
    (
        &[Line("config c\njournal j\n"), Queues(32)],
        "limit queues 32",
    ),
    (
        &[
            Line("config c\njournal j\n"),
            Queues(31),
            Line("queue 1 q0 r\n"),
        ],
        "line 35",
    ),
    (&[Queues(32)], "limit queues 32"),
    (&[Disks(65, 1), Queues(32)], "limit disks 65"),
    (&[Queues(32), Disks(65, 1)], "limit queues 32"),
];

// Simple plans.
pub(crate) const SIMPLE: &[Row] = &[
    (&[Line("simple\ndisk d 9 16\nqueue 1 q r\n")], "read"),
    (
        &[Line("queue 1 q r\ndisk d 9 16\nsimple")],
        "simple\ndisk d 9 16\nqueue 1 q r\n",
    ),
    (&[Line("simple\n")], "line 3"),
    (&[Line("simple\ndisk d 9 16\n")], "line 4"),
    (&[Line("simple\nqueue 1 q r\n")], "line 4"),
    (&[Line("simple x\ndisk d 9 16\nqueue 1 q r\n")], "line 2"),
    (&[Line("simple \ndisk d 9 16\nqueue 1 q r\n")], "line 2"),
    (
        &[Line("simple\nsimple\ndisk d 9 16\nqueue 1 q r\n")],
        "line 3",
    ),
    (
        &[Line("simple\ndisk d 9 16\nqueue 1 q r\nsimple\n")],
        "line 5",
    ),
    (
        &[Line("simple\nconfig c\ndisk d 9 16\nqueue 1 q r\n")],
        "line 3",
    ),
    (
        &[Line("config c\nsimple\ndisk d 9 16\nqueue 1 q r\n")],
        "line 3",
    ),
    (
        &[Line("simple\nscript s\ndisk d 9 16\nqueue 1 q r\n")],
        "line 3",
    ),
    (
        &[Line("script s\ndisk d 9 16\nqueue 1 q r\nsimple\n")],
        "line 5",
    ),
    (
        &[Line("simple\njournal j\ndisk d 9 16\nqueue 1 q r\n")],
        "line 3",
    ),
    (
        &[Line("journal j\nsimple\ndisk d 9 16\nqueue 1 q r\n")],
        "line 3",
    ),
    (
        &[Line("simple\ndisk d 9 16\ndisk e 9 16\nqueue 1 q r\n")],
        "line 4",
    ),
    (
        &[Line("disk d 9 16\ndisk e 9 16\nsimple\nqueue 1 q r\n")],
        "line 4",
    ),
    (
        &[Line("simple\ndisk d 9 16\nqueue 1 q r\nqueue 1 s t\n")],
        "line 5",
    ),
    (
        &[Line("queue 1 q r\nqueue 1 s t\nsimple\ndisk d 9 16\n")],
        "line 4",
    ),
    (&[Line("simple\ndisk d 9 16\nqueue 0 q r\n")], "line 4"),
    (&[Line("simple\ndisk d 9 16\nqueue 2 q r\n")], "line 4"),
    (&[Line("queue 2 q r\ndisk d 9 16\nsimple\n")], "line 4"),
    (&[Line("simple\ndisk d 9 16\ndisk e 9 32769\n")], "line 4"),
    (
        &[Line("simple\ndisk d 9 32769\nqueue 1 q r\n")],
        "limit disk-bytes 16777728",
    ),
];
