// One line of a plan: its words, and the item that they say.
ghost use Rattle.std.specs.Prelude.{◌≡◌, IfOk};
ghost use Rattle.std.specs.Char.{is_ascii_digit, is_ascii_graphic};
ghost use Rattle.std.specs.List.{list_all};
ghost use Rattle.text_lines.specs.Lines.{words_of};
ghost use Rattle.plan_files.specs.Spelling.{is_name, is_numeral, number_of, disk_of, queue_of, file_of, table_of, said_by, item_in};
ghost use Rattle.plan_files.specs.Shown.{AreWords};

use crate::items::{Item, QueueLine};
use mem_bdev::{DiskLine, Name};
use std::alloc::{AllocError, Global};
use text_lines::cut_at;

/// How many bytes a name has at most.
pub const MAX_NAME: usize = 255;

// The words of a line, where there are as many as some item has.
pub(crate) enum LineWords<'a> {
    One(&'a [u8]),
    Two(&'a [u8], &'a [u8]),
    Four(&'a [u8], &'a [u8], &'a [u8], &'a [u8]),
    Other,
}

fn line_words(line: &[u8]) -> LineWords<'_>
    ensures { AreWords (words_of line.now) result }
{
    let (kind, rest) = cut_at(b' ', line);
    let Some(rest) = rest else {
        return LineWords::One(kind);
    };
    let (first, rest) = cut_at(b' ', rest);
    let Some(rest) = rest else {
        return LineWords::Two(kind, first);
    };
    let (second, rest) = cut_at(b' ', rest);
    let Some(rest) = rest else {
        return LineWords::Other;
    };
    let (third, rest) = cut_at(b' ', rest);
    match rest {
        None => LineWords::Four(kind, first, second, third),
        Some(_) => LineWords::Other,
    }
}

fn all_visible(word: &[u8]) -> bool
    ensures { result ≡ list_all is_ascii_graphic word.now }
{
    word.iter().all(|b| b.is_ascii_graphic())
}

fn all_digits(word: &[u8]) -> bool
    ensures { result ≡ list_all is_ascii_digit word.now }
{
    word.iter().all(|b| b.is_ascii_digit())
}

/// Whether a word is a name of a file or a disk: 1 to 255 bytes from 21h to 7Eh.
#[tactic(auto, unfolding(crate::specs::Spelling::is_name))]
pub fn is_name(word: &[u8]) -> bool
    ensures { result ≡ is_name word.now }
{
    1 <= word.len() && word.len() <= MAX_NAME && all_visible(word)
}

// Whether a word is digits alone, with no leading zero but in `0` itself.
#[tactic(auto, unfolding(crate::specs::Spelling::is_numeral))]
fn is_numeral(word: &[u8]) -> bool
    ensures { result ≡ is_numeral word.now }
{
    1 <= word.len() && (word.len() == 1 || word[0] != b'0') && all_digits(word)
}

// The number that a word is.
fn number(word: &[u8]) -> Option<u64>
    ensures { result ≡ number_of word.now }
{
    if !is_numeral(word) {
        return None;
    }
    match str::from_utf8(word) {
        Ok(text) => text.parse::<u64>().ok(),
        Err(_) => None,
    }
}

// The disk that these words say.
#[tactic(auto, unfolding(crate::specs::Spelling::disk_of, crate::specs::Spelling::fits_disk))]
fn disk(alloc: Global, path: &[u8], shift: &[u8], blocks: &[u8]) -> Result<Option<Item>, AllocError>
    ensures { IfOk result (λ item. item ≡ disk_of path.now shift.now blocks.now) }
{
    let Some(shift) = number(shift) else {
        return Ok(None);
    };
    let Some(blocks) = number(blocks) else {
        return Ok(None);
    };
    if !is_name(path) || (shift != 9 && shift != 12) || blocks < 1 || blocks >= 1 << 52 {
        return Ok(None);
    }
    let path = Name::copied(alloc, path)?;
    Ok(Some(Item::Disk(DiskLine {
        path,
        shift: shift as u8,
        blocks,
    })))
}

// The queue that these words say.
#[tactic(auto, unfolding(crate::specs::Spelling::queue_of, crate::specs::Spelling::fits_queue))]
fn queue(
    alloc: Global,
    port: &[u8],
    capsules: &[u8],
    responses: &[u8],
) -> Result<Option<Item>, AllocError>
    ensures { IfOk result (λ item. item ≡ queue_of port.now capsules.now responses.now) }
{
    let Some(port) = number(port) else {
        return Ok(None);
    };
    if port >= 65_536 || !is_name(capsules) || !is_name(responses) {
        return Ok(None);
    }
    let capsules = Name::copied(alloc, capsules)?;
    let responses = Name::copied(alloc, responses)?;
    Ok(Some(Item::Queue(QueueLine {
        port: port as u16,
        capsules,
        responses,
    })))
}

// The file that these words say.
#[tactic(auto, unfolding(crate::specs::Spelling::file_of))]
fn file(alloc: Global, kind: &[u8], name: &[u8]) -> Result<Option<Item>, AllocError>
    ensures { IfOk result (λ item. item ≡ file_of kind.now name.now) }
{
    let is_fit = is_name(name);
    if kind == b"config".as_slice() && is_fit {
        return Ok(Some(Item::Config(Name::copied(alloc, name)?)));
    }
    if kind == b"script".as_slice() && is_fit {
        return Ok(Some(Item::Script(Name::copied(alloc, name)?)));
    }
    if kind == b"journal".as_slice() && is_fit {
        return Ok(Some(Item::Journal(Name::copied(alloc, name)?)));
    }
    Ok(None)
}

// The disk or the queue that these words say.
#[tactic(auto, unfolding(crate::specs::Spelling::table_of))]
fn table(
    alloc: Global,
    kind: &[u8],
    first: &[u8],
    second: &[u8],
    third: &[u8],
) -> Result<Option<Item>, AllocError>
    ensures { IfOk result (λ item. item ≡ table_of kind.now first.now second.now third.now) }
{
    if kind == b"disk".as_slice() {
        let item = disk(alloc, first, second, third)?;
        return Ok(item);
    }
    if kind == b"queue".as_slice() {
        let item = queue(alloc, first, second, third)?;
        return Ok(item);
    }
    Ok(None)
}

// The item that a line says.
pub(crate) fn line_item(alloc: Global, line: &[u8]) -> Result<Option<Item>, AllocError>
    ensures { IfOk result (λ item. item ≡ item_in line.now) }
{
    match line_words(line) {
        LineWords::One(kind) => {
            if kind == b"simple".as_slice() {
                return Ok(Some(Item::Simple));
            }
            Ok(None)
        }
        LineWords::Two(kind, name) => {
            let item = file(alloc, kind, name)?;
            Ok(item)
        }
        LineWords::Four(kind, first, second, third) => {
            let item = table(alloc, kind, first, second, third)?;
            Ok(item)
        }
        LineWords::Other => Ok(None),
    }
}
