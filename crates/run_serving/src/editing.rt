// The script: its edits, and the ends of the drains that they begin.
ghost use Rattle.std.specs.Prelude.{◌≡◌, ◌≤◌, ◌<◌, ◌+◌, ◌*◌, ◌^◌, [], ◌∷◌, All, IfOk, IsTrue, length, List, ℕ};
ghost use Rattle.run_transcript.specs.Printing.{edit_line};
ghost use Rattle.run_transcript.specs.Sums.{accepted_count, errno_count};
ghost use Rattle.tree_target.specs.Edits.{is_well_formed};
ghost use Rattle.tree_target.specs.Kept.{IsIdle};
ghost use Rattle.journal_text.specs.declared.lines.JournalLine.TheVariants as journal;
ghost use Rattle.run_serving.specs.Lines.{AddsLines, AreFew, Journals};
ghost use Rattle.run_serving.specs.Editor.{HasMade, MakesEdits, ServesEdit};

use journal_text::{Answer, JournalLine};
use run_transcript::ScriptEdit;
use std::alloc::{AllocError, Global};
use tree_target::{Reply, Target, disables};

/// What the editor's calls have given so far: the journal's lines, and how many edits were accepted
/// and refused and how many drains ended.
#[derive(Drop)]
pub(crate) struct Edited {
    pub lines: Vec<JournalLine>,
    pub accepted: u32,
    pub refused: u32,
    pub drains: u32,
}

impl Edited {
    /// No line, with room for those of so many edits: two each at the most.
    pub(crate) fn new(alloc: Global, edits: usize) -> Result<Self, AllocError>
        requires { edits ≤ 65536 }
        ensures journals { IfOk result (λ o. Journals o []) }
        ensures fresh { IfOk result (λ o. AreFew o 0) }
    {
        let lines = Vec::with_capacity(alloc, 2 * edits)?;
        Ok(Edited {
            lines,
            accepted: 0,
            refused: 0,
            drains: 0,
        })
    }

    /// Adds the line of an edit at its place, and counts it.
    pub(crate) fn add_edit(
        &mut self,
        place: u32,
        line: u32,
        reply: &Reply,
    ) -> Result<(), AllocError>
        requires { AreFew self.old 4294967294 }
        ensures adds { IfOk result (λ _. AddsLines self.old self.new (edit_line place line reply.now)
            (accepted_count reply.now) (errno_count reply.now) 0) }
    {
        match reply {
            Reply::Accepted => {
                self.lines.push(JournalLine::Edit {
                    place,
                    line,
                    answer: Answer::Accepted,
                })?;
                self.accepted += 1;
                Ok(())
            }
            Reply::Errno(errno) => {
                self.lines.push(JournalLine::Edit {
                    place,
                    line,
                    answer: Answer::Refused(*errno),
                })?;
                self.refused += 1;
                Ok(())
            }
            Reply::Held | Reply::Answered(_) | Reply::Waiting | Reply::NoEvent | Reply::Ended => Ok(
                (),
            ),
        }
    }

    /// Adds the line of a drain that ended at its place, and counts it. The line is that of the
    /// edit that began it.
    pub(crate) fn add_done(&mut self, place: u32, line: u32) -> Result<(), AllocError>
        requires { AreFew self.old 4294967294 }
        ensures adds { IfOk result (λ _. AddsLines self.old self.new
            (journal.Done place line ∷ []) 0 0 1) }
    {
        self.lines.push(JournalLine::Done { place, line })?;
        self.drains += 1;
        Ok(())
    }
}

// Makes an edit of the script, and ends the drain that it begins at once: nothing is held here.
// Gives the next place. The room for the journal's lines was found before, so only the edit itself
// can want memory.
fn edit_one(
    alloc: Global,
    target: &mut Target,
    edit: &ScriptEdit,
    place: u32,
    edited: &mut Edited,
) -> Result<u32, AllocError>
    requires idle { (q : ℕ) → IsIdle target.old q }
    requires well_formed { IsTrue (is_well_formed edit.now.edit) }
    requires few { AreFew edited.old 4294967292 }
    requires places { place + 2 < 2 ^ 32 }
    ensures places { IfOk result (λ next. next ≤ place + 2) }
    ensures few { IfOk result (λ next. (m : ℕ) → AreFew edited.old m → AreFew edited.new (m + 2)) }
    ensures idle { IfOk result (λ _. (q : ℕ) → IsIdle target.new q) }
    ensures queues { IfOk result (λ _. length target.new.bindings ≡ length target.old.bindings) }
    ensures serves { IfOk result (λ next. ServesEdit edit.now target.old edited.old place target.new
        edited.new next) }
{
    let reply = target.edit(alloc, edit.line, &edit.edit)?;
    edited.add_edit(place, edit.line, &reply)?;
    let Some(space) = disables(&edit.edit) else {
        return Ok(place + 1);
    };
    if !target.may_end(&space.sub, space.nsid) {
        return Ok(place + 1);
    }
    target.end_drain(edit.line, &space.sub, space.nsid);
    edited.add_done(place + 1, edit.line)?;
    Ok(place + 1 + 1)
}

/// Makes the edits of a script in their order, and ends each drain that they begin at once. Gives
/// the next place.
pub(crate) fn serve_script(
    alloc: Global,
    target: &mut Target,
    script: &[ScriptEdit],
    place: u32,
    edited: &mut Edited,
) -> Result<u32, AllocError>
    requires idle { (q : ℕ) → IsIdle target.old q }
    requires well_formed { All (λ s. IsTrue (is_well_formed s.edit)) script.now }
    requires few { length script.now ≤ 65536 }
    requires fresh { AreFew edited.old 0 }
    requires places { place + 131072 < 2 ^ 32 }
    ensures places { IfOk result (λ next. next ≤ place + 131072) }
    ensures idle { IfOk result (λ _. (q : ℕ) → IsIdle target.new q) }
    ensures queues { IfOk result (λ _. length target.new.bindings ≡ length target.old.bindings) }
    ensures serves { IfOk result (λ next. MakesEdits script.now (HasMade 0) target.old edited.old
        place (HasMade (length script.now)) target.new edited.new next) }
{
    let mut next = place;
    for edit in script {
        next = edit_one(alloc, target, edit, next, edited)?;
    }
    Ok(next)
}
