//! One read section whose answers are compared.
ghost use Rattle.std.specs.Prelude.{◌≡◌, ◌+◌, ◌<◌, true};
ghost use Rattle.ns_table.specs.declared.layout.TheConstants.{WORDS};
ghost use Rattle.section_look.specs.Read.{is_placed};
ghost use Rattle.patched_tables.specs.Keeping.{Rests};

use io_commands::Admit;
use ns_table::rows::Rows;
use patched_tables::meaning::{Patches, Table};
use rcu_sections::sections::{Section, enter, leave, place};
use ref_state::kinds::{BARE, Tag};
use same_looks::admissions::same_admissions;
use same_looks::answers::same_answers;
use same_looks::difference::Difference;
use same_looks::pages::{same_logs, same_namespaces, same_pages};
use section_look::admission::look_up;
use section_look::look::look_at;
use sqe_cqe::{Bound, Ctrl, Look, Sqe};
use std::sync::ledger::Ledger;
use table_rule::meaning::Means;
use table_rule::ticks::Steps;
use target_table::table::{Seat, TargetTable};

/// What is asked in a section.
#[derive(Clone, Copy)]
pub struct Question<'q> {
    /// The controller for which pages and logs are read.
    pub ctrl: &'q Ctrl,
    /// How its I/O queue is connected.
    pub bound: Bound,
    /// A command of that queue.
    pub entry: &'q Sqe,
    /// The serial after which changed namespaces are listed.
    pub since: u32,
    /// Whether the pages of every NSID are compared, and not those of some.
    pub whole: bool,
    /// The words that are wanted.
    pub words: &'q [u64],
}

/// What was found in a section.
#[derive(Clone, Copy, Debug)]
pub struct Found {
    /// Where its look and the other first differ.
    pub looks: Result<(), Difference>,
    /// The first position whose word isn't the wanted one.
    pub word: Option<u32>,
    /// The admission of the command.
    pub admitted: Admit,
}

// Pages, logs and admissions over two looks.
fn same_commands<A: Look, B: Look>(q: &Question<'_>, a: &mut A, b: &mut B) -> Result<(), Difference>
    ensures a { A.behind a.new ≡ A.behind a.old }
    ensures b { B.behind b.new ≡ B.behind b.old }
{
    if q.whole {
        same_namespaces(q.ctrl, a, b)?;
    }
    same_pages(q.ctrl, a, b)?;
    same_logs(q.ctrl, q.since, a, b)?;
    same_admissions(&q.bound, a, b)
}

// All that two looks answer.
fn same_all<A: Look, B: Look>(q: &Question<'_>, a: &mut A, b: &mut B) -> Result<(), Difference>
    ensures a { A.behind a.new ≡ A.behind a.old }
    ensures b { B.behind b.new ≡ B.behind b.old }
{
    same_answers(a, b)?;
    same_commands(q, a, b)
}

// The first position whose word isn't the wanted one.
fn other_word<R: Rows>(rows: &mut R, words: &[u64]) -> Option<u32>
    ensures { R.behind rows.new ≡ R.behind rows.old }
{
    for at in 0..ns_table::layout::WORDS {
        if words.get(at as usize) != Some(&rows.word(at)) {
            return Some(at);
        }
    }
    None
}

// What a look in the section and another answer.
fn looks_in<S, M: Means<S>, L: Ledger, B: Look>(
    table: &TargetTable<S, M>,
    section: &mut Section<'_, S>,
    q: &Question<'_>,
    other: &mut B,
    steps: &mut Steps<L>,
) -> Result<(), Difference>
    requires own { section.old.seat.now.base.table_id ≡ table.now.table.shared.table_id }
    requires rows { table.now.table.shared.key.rows ≡ WORDS }
    requires placed { is_placed section.old.seat.now.base.me.0.view.section ≡ true }
    ensures same { section.new.seat.ghost_name ≡ section.old.seat.ghost_name }
    ensures own { section.new.seat.now.base.table_id ≡ section.old.seat.now.base.table_id }
    ensures view { section.new.seat.now.base.me ≡ section.old.seat.now.base.me }
{
    let mut look = look_at(table, section.seat, steps);
    same_all(q, &mut look, other)
}

// The words of the section.
fn words_in<S, M: Means<S>, L: Ledger>(
    table: &TargetTable<S, M>,
    section: &mut Section<'_, S>,
    words: &[u64],
    steps: &mut Steps<L>,
) -> Option<u32>
    requires own { section.old.seat.now.base.table_id ≡ table.now.table.shared.table_id }
    requires rows { table.now.table.shared.key.rows ≡ WORDS }
    requires placed { is_placed section.old.seat.now.base.me.0.view.section ≡ true }
    ensures same { section.new.seat.ghost_name ≡ section.old.seat.ghost_name }
    ensures own { section.new.seat.now.base.table_id ≡ section.old.seat.now.base.table_id }
    ensures view { section.new.seat.now.base.me ≡ section.old.seat.now.base.me }
{
    let mut look = look_at(table, section.seat, steps);
    other_word(&mut look, words)
}

// All that is asked, in a placed section.
fn found_in<S, M: Means<S>, L: Ledger, B: Look>(
    table: &TargetTable<S, M>,
    section: &mut Section<'_, S>,
    q: &Question<'_>,
    other: &mut B,
    steps: &mut Steps<L>,
) -> Found
    requires own { section.old.seat.now.base.table_id ≡ table.now.table.shared.table_id }
    requires rows { table.now.table.shared.key.rows ≡ WORDS }
    requires placed { is_placed section.old.seat.now.base.me.0.view.section ≡ true }
    ensures same { section.new.seat.ghost_name ≡ section.old.seat.ghost_name }
    ensures own { section.new.seat.now.base.table_id ≡ section.old.seat.now.base.table_id }
    ensures view { section.new.seat.now.base.me ≡ section.old.seat.now.base.me }
{
    let looks = looks_in(table, section, q, other, steps);
    let word = words_in(table, section, q.words, steps);
    let admitted = look_up(table, section, &q.bound, q.entry, steps);
    Found {
        looks,
        word,
        admitted,
    }
}

/// Asks all of a question in one read section of its own, at the place of a bare call with this
/// number: place, serial and what was found. The section is left.
pub fn compare<I: Patches, L: Ledger, B: Look>(
    table: &Table<I>,
    seat: &mut Seat<u64>,
    number: u32,
    q: &Question<'_>,
    other: &mut B,
    steps: &mut Steps<L>,
) -> (u32, u32, Found)
    requires own { seat.old.base.table_id ≡ table.now.table.shared.table_id }
    requires rows { table.now.table.shared.key.rows ≡ WORDS }
    requires rests { Rests seat.old.number seat.old.base.me.0 }
    requires left { 0 < seat.old.left }
    ensures own { seat.new.base.table_id ≡ seat.old.base.table_id }
    ensures rests { Rests seat.new.number seat.new.base.me.0 }
{
    let call = Tag {
        kind: BARE,
        caller: seat.number,
        number,
    };
    let mut section = enter(table, seat, steps);
    let (at, serial) = place(table, &mut section, call, steps);
    let found = found_in(table, &mut section, q, other, steps);
    leave(table, section, steps);
    (at, serial, found)
}
