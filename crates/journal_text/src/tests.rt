// Journals as texts.
use crate::*;
use configfs_tree::Errno;
use mem_bdev::Buffer;
use std::alloc::Global;
use std::process::Abort;

const NO_EDITS: &[JournalLine] = &[];

const REFUSED: &[JournalLine] = &[
    JournalLine::Edit {
        place: 0,
        line: 1,
        answer: Answer::Accepted,
    },
    JournalLine::Edit {
        place: 1,
        line: 2,
        answer: Answer::Refused(Errno::EEXIST),
    },
    JournalLine::Edit {
        place: 2,
        line: 3,
        answer: Answer::Accepted,
    },
    JournalLine::Edit {
        place: 3,
        line: 4,
        answer: Answer::Accepted,
    },
    JournalLine::Edit {
        place: 4,
        line: 5,
        answer: Answer::Refused(Errno::EBUSY),
    },
];

const DRAINED: &[JournalLine] = &[
    JournalLine::Edit {
        place: 3,
        line: 4,
        answer: Answer::Accepted,
    },
    JournalLine::Edit {
        place: 4,
        line: 5,
        answer: Answer::Accepted,
    },
    JournalLine::Done { place: 5, line: 5 },
    JournalLine::Edit {
        place: 6,
        line: 6,
        answer: Answer::Accepted,
    },
];

const ERRNOS: &[JournalLine] = &[
    JournalLine::Edit {
        place: 0,
        line: 1,
        answer: Answer::Refused(Errno::EPERM),
    },
    JournalLine::Edit {
        place: 10,
        line: 2,
        answer: Answer::Refused(Errno::ENOENT),
    },
    JournalLine::Edit {
        place: 20,
        line: 3,
        answer: Answer::Refused(Errno::EACCES),
    },
    JournalLine::Edit {
        place: 30,
        line: 4,
        answer: Answer::Refused(Errno::EBUSY),
    },
    JournalLine::Edit {
        place: 40,
        line: 5,
        answer: Answer::Refused(Errno::EEXIST),
    },
    JournalLine::Edit {
        place: 50,
        line: 6,
        answer: Answer::Refused(Errno::EINVAL),
    },
    JournalLine::Edit {
        place: 60,
        line: 7,
        answer: Answer::Refused(Errno::ENOTEMPTY),
    },
    JournalLine::Edit {
        place: 70,
        line: 8,
        answer: Answer::Refused(Errno::ENOSPC),
    },
];

const LONGEST: &[JournalLine] = &[
    JournalLine::Edit {
        place: 4294967295,
        line: 4294967295,
        answer: Answer::Refused(Errno::ENOTEMPTY),
    },
    JournalLine::Done {
        place: 4294967295,
        line: 4294967295,
    },
];

// The journal of a run with so many places and these lines, with its text.
const JOURNALS: &[(u32, &[JournalLine], &str)] = &[
    (
        0,
        NO_EDITS,
        "nvmet-journal 1\n\
         places 0\n",
    ),
    (
        5,
        REFUSED,
        "nvmet-journal 1\n\
         places 5\n\
         edit 0 1 ok\n\
         edit 1 2 EEXIST\n\
         edit 2 3 ok\n\
         edit 3 4 ok\n\
         edit 4 5 EBUSY\n",
    ),
    (
        7,
        DRAINED,
        "nvmet-journal 1\n\
         places 7\n\
         edit 3 4 ok\n\
         edit 4 5 ok\n\
         done 5 5\n\
         edit 6 6 ok\n",
    ),
    (
        300,
        ERRNOS,
        "nvmet-journal 1\n\
         places 300\n\
         edit 0 1 EPERM\n\
         edit 10 2 ENOENT\n\
         edit 20 3 EACCES\n\
         edit 30 4 EBUSY\n\
         edit 40 5 EEXIST\n\
         edit 50 6 EINVAL\n\
         edit 60 7 ENOTEMPTY\n\
         edit 70 8 ENOSPC\n",
    ),
    (
        4294967295,
        LONGEST,
        "nvmet-journal 1\n\
         places 4294967295\n\
         edit 4294967295 4294967295 ENOTEMPTY\n\
         done 4294967295 4294967295\n",
    ),
];

// Writes a journal into the room of so many edits.
fn written(
    rt: &impl Abort,
    alloc: Global,
    places: u32,
    lines: &[JournalLine],
    edits: u32,
) -> Buffer {
    let mut text = Buffer::with_room(alloc, room(edits)).expect(rt, "memory");
    assert!(rt; are_within(lines, edits), "few lines");
    journals_fit();
    put_journal(places, lines, &mut text);
    text
}

#[test]
fn journals_are_texts(rt: HostRuntime) {
    for (places, lines, want) in JOURNALS {
        let text = written(&rt, rt.alloc(), *places, lines, 8);
        let is_text = text.bytes() == want.as_bytes();
        assert!(rt; is_text, "places {places}");
    }
}

#[test]
fn the_longest_lines_fill_their_room(rt: HostRuntime) {
    let text = written(&rt, rt.alloc(), 4_294_967_295, LONGEST, 1);
    assert!(rt; text.len() == HEAD_BYTES + EDIT_BYTES + DONE_BYTES);
    assert!(rt; text.len() == room(1));
    assert!(rt; !are_within(LONGEST, 0) && are_within(NO_EDITS, 0));
}
