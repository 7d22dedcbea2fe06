// Journals, written line by line.
use std::alloc::Global;
use std::test::Fail;

/// What a journal says of a line of the script: its edit was made, or was refused by this errno, or
/// the drain that it began has ended.
#[derive(Clone, Copy, Debug)]
pub enum Says {
    Ok,
    Errno(&'static str),
    Done,
}

/// A line of a journal.
#[derive(Clone, Copy)]
pub struct Line {
    pub place: u32,
    pub line: u32,
    pub says: Says,
}

impl Line {
    // The line as a text.
    fn text(&self, alloc: Global) -> Result<String, Fail> {
        let place = self.place;
        let line = self.line;
        let text = match self.says {
            Says::Ok => format!(in alloc; "edit {place} {line} ok\n")?,
            Says::Errno(name) => format!(in alloc; "edit {place} {line} {name}\n")?,
            Says::Done => format!(in alloc; "done {place} {line}\n")?,
        };
        Ok(text)
    }
}

// The journal of so many places and these lines.
pub(crate) fn journal_file(alloc: Global, places: u32, lines: &[Line]) -> Result<Vec<u8>, Fail> {
    let head = format!(in alloc; "nvmet-journal 1\nplaces {places}\n")?;
    let mut bytes = Vec::from_slice(alloc, head.as_bytes())?;
    for line in lines {
        bytes.extend_from_slice(line.text(alloc)?.as_bytes())?;
    }
    Ok(bytes)
}
