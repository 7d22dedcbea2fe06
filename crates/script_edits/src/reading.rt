// The edits of a script, line after line.
ghost use Rattle.std.specs.Prelude.{◌≡◌, ◌≤◌, ◌+◌, length, All, IfOk, IsTrue, false, true};
ghost use Rattle.link_rules.specs.Table.{is_fitting};
ghost use Rattle.text_lines.specs.Lines.{is_passed_over};
ghost use Rattle.script_lines.specs.Reading.{Gives};
ghost use Rattle.script_edits.specs.Script.{IsUnbroken, Leaves, edit_in, line_taken, said_or_bad, script_in};

use link_rules::{Edit, read_edit};
use plan_files::What;
use run_transcript::ScriptEdit;
use script_lines::{LineError, MAX_LINES, read_lines};
use std::alloc::Global;
use text_lines::{cut_line, is_passed_over};

// The edit of a line that isn't passed over. By itself such a line is a script of one line.
fn line_edit(alloc: Global, number: u32, line: &[u8]) -> Result<Edit, LineError>
    requires unbroken { IsUnbroken line.now }
    requires looked_at { is_passed_over line.now ≡ false }
    ensures exact { Gives (λ e. e) result (said_or_bad number (edit_in line.now)) }
    ensures fitting { IfOk result (λ e. IsTrue (is_fitting e)) }
{
    let bad = LineError::BadLine { line: number };
    let lines = match read_lines(alloc, line) {
        Ok(lines) => lines,
        Err(LineError::Memory) => return Err(LineError::Memory),
        Err(LineError::BadLine { .. }) => return Err(bad),
        Err(LineError::TooLong { .. }) => return Err(bad),
    };
    let Some(words) = lines.first() else {
        return Err(bad);
    };
    match read_edit(alloc, words) {
        Ok(Some(edit)) => Ok(edit),
        Ok(None) => Err(bad),
        Err(_) => Err(LineError::Memory),
    }
}

// Adds the edit of a line, unless it is passed over.
#[tactic(auto, unfolding(crate::specs::Script::line_taken))]
fn take_line(
    alloc: Global,
    number: u32,
    line: &[u8],
    edits: &mut Vec<ScriptEdit>,
) -> Result<(), LineError>
    requires unbroken { IsUnbroken line.now }
    requires fitting { All (λ s. IsTrue (is_fitting s.edit)) edits.old.items }
    ensures exact { Leaves edits.new.items result (line_taken number edits.old.items line.now) }
    ensures fitting { IfOk result (λ _. All (λ s. IsTrue (is_fitting s.edit)) edits.new.items) }
    ensures one { IfOk result (λ _. length edits.new.items ≤ length edits.old.items + 1) }
{
    if is_passed_over(line) {
        return Ok(());
    }
    let edit = line_edit(alloc, number, line)?;
    edits.push(ScriptEdit { line: number, edit })?;
    Ok(())
}

/// The edits of a script, with the numbers of their lines, from 1. Lines that are empty or begin
/// with `#` are passed over, and counted.
///
/// The answer is exact: the edits, or the first line, of the first 65,536, that isn't passed over
/// and has more than 1,024 bytes, a byte outside 20h to 7Eh, or no edit to say; or, where none of
/// these is such a one, that there are more than so many.
pub fn read_script(alloc: Global, bytes: &[u8]) -> Result<Vec<ScriptEdit>, LineError>
    ensures exact { Gives (λ v. v.items) result (script_in bytes.now) }
    // An attribute that an edit sets is one of its folder's, and the value is a text.
    ensures fitting { IfOk result (λ v. All (λ s. IsTrue (is_fitting s.edit)) v.items) }
    ensures few { IfOk result (λ v. length v.items ≤ MAX_LINES) }
{
    let mut edits = Vec::new(alloc);
    let mut number = 0;
    let mut rest = bytes;
    while !rest.is_empty() {
        let (line, after) = cut_line(rest);
        if number >= MAX_LINES {
            return Err(LineError::TooLong {
                what: What::Lines,
                count: u64::from(MAX_LINES) + 1,
            });
        }
        number += 1;
        take_line(alloc, number, line, &mut edits)?;
        rest = after;
    }
    Ok(edits)
}
