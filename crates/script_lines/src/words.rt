// The words of a line.
ghost use Rattle.std.specs.Prelude.{◌≡◌, ◌∷◌, ◌++◌, [], IfOk, codes};
ghost use Rattle.std.specs.Str.{bytes_eq};
ghost use Rattle.text_lines.specs.Lines.{words_of};
ghost use Rattle.script_lines.specs.Script.{script_words};

use lists::items::Items;
use mem_bdev::Name;
use std::alloc::{AllocError, Global};
use text_lines::cut_at;

// Adds a word at the end.
fn add_word(alloc: Global, words: &mut Items<Name>, word: &[u8]) -> Result<(), AllocError>
    ensures { IfOk result (λ _. words.new ≡ words.old ++ word.now ∷ []) }
{
    let word = Name::copied(alloc, word)?;
    words.push(word)?;
    Ok(())
}

// The words between the spaces of a text.
fn split_words(alloc: Global, text: &[u8]) -> Result<Items<Name>, AllocError>
    ensures { IfOk result (λ words. words ≡ words_of text.now) }
{
    let mut words = Items::new(alloc);
    let mut rest = text;
    loop {
        let (word, after) = cut_at(b' ', rest);
        add_word(alloc, &mut words, word)?;
        match after {
            Some(after) => rest = after,
            None => return Ok(words),
        }
    }
}

// The words of a `set`, whose value is the last one.
fn join_words(
    alloc: Global,
    kind: &[u8],
    folder: &[u8],
    attribute: &[u8],
    value: &[u8],
) -> Result<Items<Name>, AllocError>
    ensures { IfOk result (λ words. words ≡ kind.now ∷ folder.now ∷ attribute.now ∷ value.now
        ∷ []) }
{
    let mut words = Items::new(alloc);
    add_word(alloc, &mut words, kind)?;
    add_word(alloc, &mut words, folder)?;
    add_word(alloc, &mut words, attribute)?;
    add_word(alloc, &mut words, value)?;
    Ok(words)
}

fn is_set(kind: &[u8]) -> bool
    ensures { result ≡ bytes_eq kind.now (codes "set") }
{
    kind == b"set".as_slice()
}

// The words of a line.
pub(crate) fn read_words(alloc: Global, line: &[u8]) -> Result<Items<Name>, AllocError>
    ensures { IfOk result (λ words. words ≡ script_words line.now) }
{
    let (kind, rest) = cut_at(b' ', line);
    let Some(rest) = rest else {
        return split_words(alloc, line);
    };
    if !is_set(kind) {
        return split_words(alloc, line);
    }
    let (folder, rest) = cut_at(b' ', rest);
    let Some(rest) = rest else {
        return split_words(alloc, line);
    };
    let (attribute, value) = cut_at(b' ', rest);
    match value {
        Some(value) => join_words(alloc, kind, folder, attribute, value),
        None => join_words(alloc, kind, folder, attribute, &[]),
    }
}
