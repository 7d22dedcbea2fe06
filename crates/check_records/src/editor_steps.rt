// One line of the journal, made again.
ghost use Rattle.std.specs.Prelude.{◌≡◌, ◌<◌, ◌+◌, All, Decides, IfOk, IfSome, IsTrue, None, length, Option, ℕ};
ghost use Rattle.tree_target.specs.Edits.{is_well_formed};
ghost use Rattle.tree_target.specs.Kept.{LeavesOthers};
ghost use Rattle.tree_target.specs.Model as model;
ghost use Rattle.tree_target.specs.Stands.{StandsFor};
ghost use Rattle.run_transcript.specs.Turns.{edit_after, editing_after, next_edit};
ghost use Rattle.journal_text.specs.declared.lines.JournalLine.TheVariants as journal;
ghost use Rattle.check_records.specs.Told.{answer_told, line_told};
ghost use Rattle.check_records.specs.Editors.{disabled_at, disabled_of, editing_at, end_or};
ghost use Rattle.check_records.specs.Steps.{Steps};
ghost use Rattle.run_transcript.specs.Turns as turns;

use journal_text::{Answer, JournalLine};
use run_transcript::ScriptEdit;
use run_verdicts::Field;
use std::alloc::{AllocError, Global};
use tree_target::{Reply, Space, Target, disables};

/// How many edits of the script were made, and the number of the last one, from 0, until a drain
/// that it began has ended.
#[derive(Clone, Copy, Debug, PartialEq, Eq)]
pub struct EditCursor {
    pub made: usize,
    pub open: Option<usize>,
}

/// An open drain: the line of the edit that began it, and its namespace.
#[derive(Drop)]
pub struct Drain {
    pub line: u32,
    pub space: Space,
}

// The drain that the last edit began, where it is open.
pub(crate) fn open_drain(target: &Target, script: &[ScriptEdit], at: &EditCursor) -> Option<Drain>
    ensures next { (t : model.Target) (next : Option model.Call) → StandsFor target.now t →
        edit_after t (disabled_at script.now at.now) next ≡ end_or result next }
    ensures is { IfSome result (λ d. disabled_at script.now at.now ≡ Some (disabled_of d)) }
{
    let number = at.open?;
    let Some(last) = script.get(number) else {
        return None;
    };
    let Some(space) = disables(&last.edit) else {
        return None;
    };
    if !target.is_draining(&space.sub, space.nsid) {
        return None;
    }
    Some(Drain {
        line: last.line,
        space,
    })
}

fn reply_told(answer: &Answer) -> Reply
    ensures { result ≡ answer_told answer.now }
{
    match answer {
        Answer::Accepted => Reply::Accepted,
        Answer::Refused(errno) => Reply::Errno(*errno),
    }
}

fn is_same_reply(a: &Reply, b: &Reply) -> bool
    ensures { Decides result (a.now ≡ b.now) }
{
    a == b
}

// The line of an edit.
fn edit_line(
    alloc: Global,
    target: &mut Target,
    script: &[ScriptEdit],
    place: u32,
    line: u32,
    answer: &Answer,
    at: &mut EditCursor,
) -> Result<Option<Field>, AllocError>
    requires well_formed { All (λ s. IsTrue (is_well_formed s.edit)) script.now }
    ensures steps { IfOk result (λ o. (t : model.Target) → StandsFor target.old t →
        Steps (next_edit t script.now (editing_at script.now at.old)) t
        (line_told script.now (editing_at script.now at.old)
        (journal.Edit place line answer.now)).entry
        o target.new) }
    ensures progress { IfOk result (λ o. o ≡ None → editing_at script.now at.new
        ≡ editing_after (editing_at script.now at.old)
        (line_told script.now (editing_at script.now at.old)
        (journal.Edit place line answer.now)).entry) }
    ensures others { IfOk result (λ o. o ≡ None → LeavesOthers 0 target.old target.new) }
{
    let _place = place;
    if open_drain(target, script, at).is_some() {
        return Ok(Some(Field::Order));
    }
    let Some(s) = script.get(at.made) else {
        return Ok(Some(Field::Order));
    };
    if s.line != line {
        return Ok(Some(Field::Order));
    }
    let reply = target.edit(alloc, s.line, &s.edit)?;
    at.open = Some(at.made);
    at.made += 1;
    if is_same_reply(&reply_told(answer), &reply) {
        return Ok(None);
    }
    Ok(Some(Field::Errno))
}

// The line of a drain's end.
fn done_line(
    target: &mut Target,
    script: &[ScriptEdit],
    place: u32,
    line: u32,
    at: &mut EditCursor,
) -> Option<Field>
    ensures steps { (t : model.Target) → StandsFor target.old t →
        Steps (next_edit t script.now (editing_at script.now at.old)) t
        (line_told script.now (editing_at script.now at.old) (journal.Done place line)).entry
        result target.new }
    ensures progress { result ≡ None → editing_at script.now at.new
        ≡ editing_after (editing_at script.now at.old)
        (line_told script.now (editing_at script.now at.old) (journal.Done place line)).entry }
    ensures others { result ≡ None → LeavesOthers 0 target.old target.new }
{
    let _place = place;
    let Some(drain) = open_drain(target, script, at) else {
        return Some(Field::Order);
    };
    if drain.line != line {
        return Some(Field::Order);
    }
    if !target.may_end(&drain.space.sub, drain.space.nsid) {
        return Some(Field::Drain);
    }
    target.end_drain(line, &drain.space.sub, drain.space.nsid);
    at.open = None;
    None
}

/// Makes the editor's next line again: nothing where it agrees, else the first field that differs.
/// The cursor goes on behind it. On want of memory it is lost.
pub fn step_edit(
    alloc: Global,
    target: &mut Target,
    script: &[ScriptEdit],
    line: &JournalLine,
    at: &mut EditCursor,
) -> Result<Option<Field>, AllocError>
    requires well_formed { All (λ s. IsTrue (is_well_formed s.edit)) script.now }
    ensures steps { IfOk result (λ o. (t : model.Target) → StandsFor target.old t →
        Steps (next_edit t script.now (editing_at script.now at.old)) t
        (line_told script.now (editing_at script.now at.old) line.now).entry o target.new) }
    ensures progress { IfOk result (λ o. o ≡ None → editing_at script.now at.new
        ≡ editing_after (editing_at script.now at.old)
        (line_told script.now (editing_at script.now at.old) line.now).entry) }
    ensures others { IfOk result (λ o. o ≡ None → LeavesOthers 0 target.old target.new) }
{
    match line {
        JournalLine::Edit {
            place,
            line,
            answer,
        } => { edit_line(alloc, target, script, *place, *line, answer, at) }
        JournalLine::Done { place, line } => Ok(done_line(target, script, *place, *line, at)),
    }
}
