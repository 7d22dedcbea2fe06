// The files that a run writes.
ghost use Rattle.std.specs.Prelude.{◌≡◌, ◌≤◌, ◌<◌, ◌+◌, ◌∷◌, length, map, IsUtf8, IfSome, IfNone};
ghost use Rattle.std.specs.List.{AllByRecursion};
ghost use Rattle.plan_files.specs.declared.items.QueueLine.{QueueLine};
ghost use Rattle.run_outcomes.specs.Numbers.{responses_no};
ghost use Rattle.run_outcomes.specs.Outsides.{told_by, files_view};
ghost use Rattle.run_outcomes.specs.Names.{journal_to_write, responses_to_write};
ghost use Rattle.run_outcomes.specs.Written.{AreApart, Writes};

use mem_bdev::Name;
use plan_files::{Files, QueueLine};
use run_outcomes::{Fault, JOURNAL, responses_number, write_file};
use run_serving::Output;

// Writes the journal, where the plan has one.
fn write_journal<F: Files>(name: &Option<Name>, text: &[u8], files: &mut F) -> Result<(), Fault>
    requires { IfSome name.now (λ n. IsUtf8 n) }
    ensures writes { Writes (journal_to_write name.now text.now)
        (files_view (told_by (F.tells files.old) (F.told files.old)) (F.faults files.old)
        (F.last files.old))
        (files_view (told_by (F.tells files.new) (F.told files.new)) (F.faults files.new)
        (F.last files.new)) result }
    ensures later { F.faults files.old ≤ F.faults files.new }
{
    match name {
        None => Ok(()),
        Some(name) => write_file(JOURNAL, name, text, files),
    }
}

// The next queue's line and output, and those after them.
#[derive(Clone, Copy)]
struct Next<'a> {
    line: &'a QueueLine,
    output: &'a Output,
    lines: &'a [QueueLine],
    outputs: &'a [Output],
}

// The next response file to write, if one is left. It says of the rest what is asked of the whole.
fn next_response<'a>(
    _queue: u32,
    lines: &'a [QueueLine],
    outputs: &'a [Output],
    _journal: &Option<Name>,
    _text: &[u8],
) -> Option<Next<'a>>
    requires apart { AreApart (responses_to_write _queue lines.now
        (map (λ o. o.records.bytes) outputs.now) (journal_to_write _journal.now _text.now)) }
    requires names { AllByRecursion (λ (q : QueueLine). IsUtf8 q.responses) lines.now }
    requires few { _queue + length lines.now ≤ 32 }
    ensures some { IfSome result (λ n. responses_to_write _queue lines.now
        (map (λ o. o.records.bytes) outputs.now) (journal_to_write _journal.now _text.now)
        ≡ (record {
          file = responses_no _queue;
          name = n.line.now.responses;
          bytes = n.output.now.records.bytes;
        }) ∷ responses_to_write (_queue + 1) n.lines.now
        (map (λ o. o.records.bytes) n.outputs.now) (journal_to_write _journal.now _text.now)) }
    ensures apart { IfSome result (λ n. AreApart (responses_to_write (_queue + 1) n.lines.now
        (map (λ o. o.records.bytes) n.outputs.now) (journal_to_write _journal.now _text.now))) }
    ensures name { IfSome result (λ n. IsUtf8 n.line.now.responses) }
    ensures names { IfSome result (λ n. AllByRecursion (λ (q : QueueLine). IsUtf8 q.responses) n.lines.now) }
    ensures few { IfSome result (λ n. _queue + 1 + length n.lines.now ≤ 32) }
    ensures shorter { IfSome result (λ n. length n.lines.now < length lines.now) }
    ensures none { IfNone result (responses_to_write _queue lines.now
        (map (λ o. o.records.bytes) outputs.now) (journal_to_write _journal.now _text.now)
        ≡ journal_to_write _journal.now _text.now) }
{
    let (line, lines) = lines.split_first()?;
    let (output, outputs) = outputs.split_first()?;
    Some(Next {
        line,
        output,
        lines,
        outputs,
    })
}

/// Writes the response files of queues from this number on, and then the journal.
pub fn write_files<F: Files>(
    queue: u32,
    lines: &[QueueLine],
    outputs: &[Output],
    journal: &Option<Name>,
    text: &[u8],
    files: &mut F,
) -> Result<(), Fault>
    requires apart { AreApart (responses_to_write queue lines.now
        (map (λ o. o.records.bytes) outputs.now) (journal_to_write journal.now text.now)) }
    requires names { AllByRecursion (λ (q : QueueLine). IsUtf8 q.responses) lines.now }
    requires journal_name { IfSome journal.now (λ n. IsUtf8 n) }
    requires few { queue + length lines.now ≤ 32 }
    ensures writes { Writes (responses_to_write queue lines.now
        (map (λ o. o.records.bytes) outputs.now) (journal_to_write journal.now text.now))
        (files_view (told_by (F.tells files.old) (F.told files.old)) (F.faults files.old)
        (F.last files.old))
        (files_view (told_by (F.tells files.new) (F.told files.new)) (F.faults files.new)
        (F.last files.new)) result }
    ensures later { F.faults files.old ≤ F.faults files.new }
{
    let Some(next) = next_response(queue, lines, outputs, journal, text) else {
        return write_journal(journal, text, files);
    };
    let bytes = next.output.records.bytes();
    match write_file(responses_number(queue), &next.line.responses, bytes, files) {
        Ok(()) => write_files(queue + 1, next.lines, next.outputs, journal, text, files),
        Err(fault) => Err(fault),
    }
}
