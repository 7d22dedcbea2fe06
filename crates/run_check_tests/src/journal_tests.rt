// Journals that are none, each named at its first bad line.
use crate::answer::check_in;
use crate::finished::Finished;
use std::test::Fail;

const WHOLE: &str =
    "nvmet-journal 1\nplaces 31\nedit 5 2 ok\nedit 10 3 EEXIST\nedit 14 5 ok\ndone 18 5\nedit 22 6 ok\nedit 24 7 ok\n";

// A journal, the status, and the line.
const ROWS: &[(&str, u8, &[u8])] = &[
    (WHOLE, 0, b"legal 31\n"),
    // The last line may lack its end.
    (
        "nvmet-journal 1\nplaces 31\nedit 5 2 ok\nedit 10 3 EEXIST\nedit 14 5 ok\ndone 18 5\nedit 22 6 ok\nedit 24 7 ok",
        0,
        b"legal 31\n",
    ),
    // Lines that are missing.
    ("", 2, b"malformed j line 1\n"),
    ("nvmet-journal 1", 2, b"malformed j line 2\n"),
    ("nvmet-journal 1\n", 2, b"malformed j line 2\n"),
    (
        "nvmet-journal 1\nplaces 31\n",
        8,
        b"not legal place 5 place\n",
    ),
    // The first two.
    ("nvmet-journal 2\nplaces 31\n", 2, b"malformed j line 1\n"),
    ("\nnvmet-journal 1\nplaces 31\n", 2, b"malformed j line 1\n"),
    ("places 31\nnvmet-journal 1\n", 2, b"malformed j line 1\n"),
    ("nvmet-journal 1\nplaces 031\n", 2, b"malformed j line 2\n"),
    (
        "nvmet-journal 1\nplaces 4294967296\n",
        2,
        b"malformed j line 2\n",
    ),
    (
        "nvmet-journal 1\nedit 5 2 ok\nplaces 31\n",
        2,
        b"malformed j line 2\n",
    ),
    // The others.
    ("nvmet-journal 1\nplaces 31\n\n", 2, b"malformed j line 3\n"),
    (
        "nvmet-journal 1\nplaces 31\n# edits\n",
        2,
        b"malformed j line 3\n",
    ),
    (
        "nvmet-journal 1\nplaces 31\nedit 5 2 EIO\n",
        2,
        b"malformed j line 3\n",
    ),
    (
        "nvmet-journal 1\nplaces 31\nedit 5 2\n",
        2,
        b"malformed j line 3\n",
    ),
    (
        "nvmet-journal 1\nplaces 31\nedit 5 2 ok \n",
        2,
        b"malformed j line 3\n",
    ),
    (
        "nvmet-journal 1\nplaces 31\nedit  5 2 ok\n",
        2,
        b"malformed j line 3\n",
    ),
    (
        "nvmet-journal 1\nplaces 31\ndone 5 5 ok\n",
        2,
        b"malformed j line 3\n",
    ),
    (
        "nvmet-journal 1\nplaces 31\nedit 5 2 ok\nedit 10 03 EEXIST\nbad\n",
        2,
        b"malformed j line 4\n",
    ),
    (
        "nvmet-journal 1\nplaces 31\nedit 5 2 ok\ndone 4294967296 3\n",
        2,
        b"malformed j line 4\n",
    ),
];

#[test]
fn each_journal_that_is_none_is_named_at_its_first_bad_line(rt: HostRuntime) -> Result<(), Fail> {
    let alloc = rt.alloc();
    let run = Finished::new(alloc)?;
    for (journal, status, line) in ROWS {
        let mut files = run.files()?;
        files.put("j", journal.as_bytes())?;
        let answer = check_in(alloc, files)?;
        assert_eq!(rt; answer.text(), *line, "{journal}");
        assert_eq!(rt; answer.status, *status, "{journal}");
    }
    Ok(())
}
