// What check reads of a response file and of the journal, files that aren't there or fail, and the
// order of reading.
use crate::answer::check_in;
use crate::finished::Finished;
use plan_files::MemFiles;
use run_check::MAX_JOURNAL_BYTES;
use std::alloc::Global;
use std::test::Fail;

// A file of the finished run, with this content and then zeros up to its length.
fn long_file(alloc: Global, files: &MemFiles, name: &str, length: usize) -> Result<Vec<u8>, Fail> {
    let whole = files.content(name).unwrap_or(&[]);
    let mut bytes = Vec::with_capacity(alloc, length)?;
    bytes.extend_from_slice(whole)?;
    bytes.resize(length, 0)?;
    Ok(bytes)
}

// A file, its length, the status and the line. The responses to queue 1 have room for 160 bytes,
// 96 for each of seven capsules, and 4 bytes of data; those to queue 2 for 160, six times 96, and
// three times 512. The records end at 484 and 1,344.
const LENGTHS: &[(&str, usize, u8, &[u8])] = &[
    ("r1", 484, 0, b"legal 31\n"),
    ("r1", 836, 2, b"malformed r1 offset 484\n"),
    ("r1", 837, 6, b"limit r1 bytes 837\n"),
    ("r1", 4000, 6, b"limit r1 bytes 837\n"),
    ("r2", 1344, 0, b"legal 31\n"),
    ("r2", 2272, 2, b"malformed r2 offset 1344\n"),
    ("r2", 2273, 6, b"limit r2 bytes 2273\n"),
    ("j", 0x40_0000, 2, b"malformed j line 9\n"),
    ("j", 0x40_0001, 6, b"limit j bytes 4194305\n"),
];

#[test]
fn each_file_is_read_up_to_its_limit(rt: HostRuntime) -> Result<(), Fail> {
    let alloc = rt.alloc();
    assert_eq!(rt; MAX_JOURNAL_BYTES, 0x40_0000);
    let run = Finished::new(alloc)?;
    for (name, length, status, line) in LENGTHS {
        let mut files = run.files()?;
        let bytes = long_file(alloc, &files, name, *length)?;
        files.put(name, &bytes)?;
        let answer = check_in(alloc, files)?;
        assert_eq!(rt; answer.text(), *line, "{name} {length}");
        assert_eq!(rt; answer.status, *status, "{name} {length}");
    }
    Ok(())
}

// The names in the order of reading.
const NAMES: [&str; 8] = ["p", "c", "s", "q1", "q2", "r1", "r2", "j"];

// Of the names those from one on hold a byte that no file of their kind begins with: the first is
// named. Those before it are whole.
#[test]
fn the_first_bad_file_is_named(rt: HostRuntime) -> Result<(), Fail> {
    let lines: [&[u8]; 8] = [
        b"malformed p line 1\n",
        b"malformed c json\n",
        b"malformed s line 1\n",
        b"malformed q1 offset 0\n",
        b"malformed q2 offset 0\n",
        b"malformed r1 offset 0\n",
        b"malformed r2 offset 0\n",
        b"malformed j line 1\n",
    ];
    let alloc = rt.alloc();
    let run = Finished::new(alloc)?;
    for (first, line) in lines.iter().enumerate() {
        let mut files = run.files()?;
        for name in NAMES.iter().skip(first) {
            files.put(name, b"?")?;
        }
        let answer = check_in(alloc, files)?;
        assert_eq!(rt; answer.text(), *line);
        assert_eq!(rt; answer.status, 2);
    }
    Ok(())
}

// Each of the eight reads fails in turn.
#[test]
fn a_read_that_fails_is_named(rt: HostRuntime) -> Result<(), Fail> {
    let alloc = rt.alloc();
    let run = Finished::new(alloc)?;
    let whole = run.files()?;
    for (number, name) in NAMES.iter().enumerate() {
        let fails = Vec::from_slice(alloc, &[number as u64])?;
        let mut files = MemFiles::new(alloc, fails);
        for name in NAMES {
            files.put(name, whole.content(name).unwrap_or(&[]))?;
        }
        let answer = check_in(alloc, files)?;
        let line = format!(in alloc; "cannot read {name}\n")?;
        assert_eq!(rt; answer.text(), line.as_bytes());
        assert_eq!(rt; answer.status, 3);
    }
    Ok(())
}
