// What words say, and which of them say nothing.
use crate::words::{Words, WordsError, read_words};
use std::alloc::Global;
use std::test::Fail;

// Words with one space between each two, and what they ask for: the first letter of the command, its
// number and its name; `-` where they are no command.
const ROWS: &[(&str, char, u32, &str)] = &[
    ("run p", 'r', 0, "p"),
    ("check p", 'c', 0, "p"),
    ("show ~/p", 's', 0, "~/p"),
    ("gen 1 g", 'g', 1, "g"),
    ("gen 4096 g", 'g', 4096, "g"),
    ("gen 0 g", '-', 0, ""),
    ("gen 07 g", '-', 0, ""),
    ("gen 4097 g", '-', 0, ""),
    ("gen +7 g", '-', 0, ""),
    ("gen 18446744073709551617 g", '-', 0, ""),
    ("gen 7 -g", '-', 0, ""),
    ("gen -- g", '-', 0, ""),
    ("gen 7", '-', 0, ""),
    ("gen g", '-', 0, ""),
    ("gen 7 g h", '-', 0, ""),
    ("run", '-', 0, ""),
    ("show", '-', 0, ""),
    ("show -p", '-', 0, ""),
    ("show --", '-', 0, ""),
    ("show p q", '-', 0, ""),
    ("check 7 p", '-', 0, ""),
    ("Run p", '-', 0, ""),
    ("help p", '-', 0, ""),
    ("--help", '-', 0, ""),
    ("go p", '-', 0, ""),
];

fn read(alloc: Global, line: &str) -> Result<Result<Words, WordsError>, Fail> {
    let mut words = Vec::new(alloc);
    for word in line.split(' ') {
        words.push(String::from_str(alloc, word)?)?;
    }
    Ok(read_words(alloc, &words))
}

// Whether words that were read are these.
fn are(read: &Result<Words, WordsError>, letter: char, number: u32, name: &str) -> bool {
    match read {
        Ok(Words::Run { plan }) => letter == 'r' && plan.as_bytes() == name.as_bytes(),
        Ok(Words::Check { plan }) => letter == 'c' && plan.as_bytes() == name.as_bytes(),
        Ok(Words::Show { plan }) => letter == 's' && plan.as_bytes() == name.as_bytes(),
        Ok(Words::Gen { n, name: of }) => {
            letter == 'g' && *n == number && of.as_bytes() == name.as_bytes()
        }
        Err(WordsError::Usage) => letter == '-',
        Err(WordsError::Memory) => false,
    }
}

#[test]
fn each_line_says_its_command(rt: HostRuntime) -> Result<(), Fail> {
    for row in ROWS {
        let words = read(rt.alloc(), row.0)?;
        assert!(rt; are(&words, row.1, row.2, row.3), "{}", row.0);
    }
    Ok(())
}

// A line with a name of so many bytes.
fn named(alloc: Global, before: &str, bytes: usize) -> Result<bool, Fail> {
    let mut line = String::from_str(alloc, before)?;
    for _ in 0..bytes {
        line.push_str("n")?;
    }
    let words = read(alloc, line.as_str())?;
    Ok(words.is_ok())
}

// The longest names, and those of one byte more.
#[test]
fn names_end_at_their_limits(rt: HostRuntime) -> Result<(), Fail> {
    assert!(rt; named(rt.alloc(), "show ", 255)?);
    assert!(rt; !named(rt.alloc(), "show ", 256)?);
    assert!(rt; named(rt.alloc(), "gen 1 ", 200)?);
    assert!(rt; !named(rt.alloc(), "gen 1 ", 201)?);
    Ok(())
}
