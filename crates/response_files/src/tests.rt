// Each public call on its happy path, and the errors in print.
use crate::*;
use journal_text::{Answer, JournalLine};
use std::test::Fail;

// An Execute of a Read of two bytes, after one that was held.
const RECORDS: [u8; 66] = [
    0, 0, 0, 0, 1, 0, 0, 0, 0, 0, 0, 0, 0, 0, 0, 0, // a head
    0, 0, 0, 0, 0, 0, 0, 0, 0, 0, 0, 0, 0, 0, 0, 0, // no completion
    3, 0, 0, 0, 2, 1, 0, 0, 1, 0, 0, 0, 2, 0, 0, 0, // a head
    0, 0, 0, 0, 0, 0, 0, 0, 0, 0, 1, 0, 7, 0, 0, 0, // its completion
    97, 98, // its data
];

#[test]
fn reads_responses(rt: HostRuntime) -> Result<(), Fail> {
    malformed_bytes_begin_no_record();
    let records = read_responses(rt.alloc(), &RECORDS)?;
    assert_eq!(rt; records.len(), 2);
    let (first, second) = (records[0], records[1]);
    assert_eq!(rt;
        (first.head.place, first.head.number, first.head.len),
        (0, 0, 0)
    );
    assert_eq!(rt; first.head.answer, run_records::Answer::Held);
    assert_eq!(rt;
        (second.head.place, second.head.number, second.head.len),
        (3, 1, 2)
    );
    assert_eq!(rt; second.head.kind, run_records::Kind::Execute);
    assert_eq!(rt; (second.head.cqe.sq_id, second.head.cqe.cid), (1, 7));
    assert_eq!(rt; first.data(&RECORDS), b"".as_slice());
    assert_eq!(rt; second.data(&RECORDS), b"ab".as_slice());
    Ok(())
}

#[test]
fn reads_journals(rt: HostRuntime) -> Result<(), Fail> {
    let text = b"nvmet-journal 1\nplaces 7\nedit 3 4 EBUSY\ndone 5 5\n";
    let journal = read_journal(rt.alloc(), text)?;
    assert_eq!(rt; journal.places, 7);
    let lines = [
        JournalLine::Edit {
            place: 3,
            line: 4,
            answer: Answer::Refused(configfs_tree::Errno::EBUSY),
        },
        JournalLine::Done { place: 5, line: 5 },
    ];
    assert!(rt; journal.lines.as_slice() == lines.as_slice());
    Ok(())
}

const DONES: &str = "nvmet-journal 1\nplaces 12\n\
    done 0 1\ndone 1 2\ndone 2 3\ndone 3 4\ndone 4 5\ndone 5 6\n\
    done 6 7\ndone 7 8\ndone 8 9\ndone 9 10\ndone 10 11\ndone 11 12";

// Lists that grow more than once, so that each growth can be refused memory.
#[test]
fn reads_longer_files(rt: HostRuntime) -> Result<(), Fail> {
    let mut file = [0; 640];
    for i in 0..20 {
        file[32 * i + 4] = 1;
    }
    let records = read_responses(rt.alloc(), &file)?;
    assert_eq!(rt; records.len(), 20);
    let journal = read_journal(rt.alloc(), DONES.as_bytes())?;
    assert_eq!(rt; (journal.places, journal.lines.len()), (12, 12));
    Ok(())
}

#[test]
fn errors_in_print(rt: HostRuntime) -> Result<(), Fail> {
    let alloc = rt.alloc();
    let malformed = format!(in alloc; "{}", RecordError::Malformed { offset: 32 })?;
    assert_eq!(rt; malformed.as_str(), "the record at byte 32 is malformed");
    let memory = format!(in alloc; "{}", RecordError::Memory)?;
    assert_eq!(rt; memory.as_str(), "out of memory");
    let bad = format!(in alloc; "{}", JournalError::BadLine { line: 3 })?;
    assert_eq!(rt; bad.as_str(), "line 3 is bad");
    let memory = format!(in alloc; "{}", JournalError::Memory)?;
    assert_eq!(rt; memory.as_str(), "out of memory");
    Ok(())
}
