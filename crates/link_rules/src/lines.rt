// The edit that a line of a script says.
ghost use Rattle.std.specs.Prelude.{◌≡◌, IfOk, IfSome, IsTrue, Some, OnErr};
ghost use Rattle.link_rules.specs.Reading.{edit_said, path_said, set_of, set_said};
ghost use Rattle.link_rules.specs.Spelling.{edit_words, fits};
ghost use Rattle.link_rules.specs.Table.{is_fitting};

use crate::edits::Edit;
use crate::paths::{folder, link};
use crate::words::attribute_of;
use configfs_tree::{Attr, Folder, FolderEdit};
use mem_bdev::Name;
use script_lines::Line;
use std::alloc::{AllocError, Global};

// The edit of a line of two words.
#[tactic(auto, unfolding(crate::specs::Reading::path_said))]
fn path_edit(verb: &[u8], path: &[u8]) -> Option<Edit>
    ensures { result ≡ path_said verb.now path.now }
{
    if verb == b"mkdir".as_slice() {
        let folder = folder(path)?;
        return Some(Edit::Folder(FolderEdit::Mkdir(folder)));
    }
    if verb == b"rmdir".as_slice() {
        let folder = folder(path)?;
        return Some(Edit::Folder(FolderEdit::Rmdir(folder)));
    }
    if verb == b"link".as_slice() {
        let link = link(true, path)?;
        return Some(Edit::Link(link));
    }
    if verb == b"unlink".as_slice() {
        let link = link(false, path)?;
        return Some(Edit::Link(link));
    }
    None
}

// The edit that sets an attribute of a folder to a value, where the folder has it and the value is
// a text.
#[tactic(auto, unfolding(crate::specs::Reading::set_of))]
fn set_of(
    alloc: Global,
    folder: Folder,
    attr: Attr,
    value: &[u8],
) -> Result<Option<Edit>, AllocError>
    ensures { IfOk result (λ e. e ≡ set_of folder attr value.now) }
{
    let value = Name::copied(alloc, value)?;
    let edit = FolderEdit::Set(folder, attr, value);
    if edit.is_fitting() {
        return Ok(Some(Edit::Folder(edit)));
    }
    Ok(None)
}

// The edit of a line of four words.
#[tactic(auto, unfolding(crate::specs::Reading::set_said))]
fn set_edit(
    alloc: Global,
    verb: &[u8],
    path: &[u8],
    attribute: &[u8],
    value: &[u8],
) -> Result<Option<Edit>, AllocError>
    ensures { IfOk result (λ e. e ≡ set_said verb.now path.now attribute.now value.now) }
{
    if verb != b"set".as_slice() {
        return Ok(None);
    }
    let Some(folder) = folder(path) else {
        return Ok(None);
    };
    let Some(attr) = attribute_of(attribute) else {
        return Ok(None);
    };
    set_of(alloc, folder, attr, value)
}

// The edit of a line, by its words.
fn edit_of(alloc: Global, words: &[Name]) -> Result<Option<Edit>, AllocError>
    ensures { IfOk result (λ e. e ≡ edit_said words.now) }
{
    match words {
        [verb, path] => Ok(path_edit(verb.as_bytes(), path.as_bytes())),
        [verb, path, attribute, value] => set_edit(
            alloc,
            verb.as_bytes(),
            path.as_bytes(),
            attribute.as_bytes(),
            value.as_bytes(),
        ),
        _ => Ok(None),
    }
}

/// The edit that a line of a script says, or `None` exactly where it says none.
///
/// A line is `mkdir FOLDER`, `rmdir FOLDER`, `set FOLDER ATTRIBUTE VALUE`, `link LINK` or
/// `unlink LINK`. FOLDER is `hosts/NQN`, `subsystems/NQN`, `subsystems/NQN/namespaces/NSID`,
/// `ports/ID` or `ports/ID/ana_groups/ID`; LINK is `subsystems/NQN/allowed_hosts/HOST` or
/// `ports/ID/subsystems/NQN`. Numbers are decimal, that of a port below 65,536 and the others below
/// 2^32; the attribute is one of the folder's, and VALUE holds bytes from 20h to 7Eh.
pub fn read_edit(alloc: Global, l: &Line) -> Result<Option<Edit>, AllocError>
    ensures spelled { IfOk result (λ found. IfSome found (λ e. IsTrue (fits e)
        × (l.now.words ≡ edit_words e))) }
    ensures only { (e : Edit) → IsTrue (fits e) → l.now.words ≡ edit_words e
        → IfOk result (λ found. found ≡ Some e) }
    ensures fitting { IfOk result (λ found. IfSome found (λ e. IsTrue (is_fitting e))) }
    ensures exact { IfOk result (λ found. found ≡ edit_said l.now.words) }
{
    edit_of(alloc, l.words.as_slice())
}
