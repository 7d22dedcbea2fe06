//! The admission of an I/O command in a read section, with the hold of a held one.
ghost use Rattle.std.specs.Prelude.{◌≡◌, ◌≢◌, ◌+◌, ◌≤◌, ◌<◌, ◌∷◌, ◌++◌, [], ℕ, true, false, List};
ghost use Rattle.ns_table.specs.declared.layout.TheConstants.{WORDS};
ghost use Rattle.ref_state.specs.declared.kinds.Tag.{Tag as TagOf};
ghost use Rattle.ref_state.specs.declared.state.Section.TheVariants.{Out, In};
ghost use Rattle.ref_state.specs.declared.state.LoadedMode.TheVariants.{NotLoaded};
ghost use Rattle.ref_state.specs.State.{total};
ghost use Rattle.ref_state.specs.Steps.{after_enter, after_leave};
ghost use Rattle.table_rule.specs.Meant.{target, Legal, MayDraw, IsPlain};
ghost use Rattle.table_rule.specs.Shown.{claims_of, IsNewIn};
ghost use Rattle.io_commands.specs.Jobs.{disk_of};
ghost use Rattle.section_look.specs.Read.{all_steps, entry_of, is_placed, no_rows, section_serial, section_words, target_before};
ghost use Rattle.section_look.specs.Admissions.{Admits, admission_in, is_held};
ghost use Rattle.section_look.specs.Submits.{Admitted, HasHold, IsFinished, Submits, admit_of};

use crate::look::SectionLook;
use crate::submitted::Submitted;
use io_commands::{Admit, Job, admit_io};
use percpu_ref::references::get;
use rcu_sections::sections::{Section, enter, leave, place};
use ref_state::kinds::Tag;
use sqe_cqe::{Bound, Sqe};
use std::sync::ledger::Ledger;
use table_rule::meaning::Means;
use table_rule::ticks::Steps;
use target_table::table::{Seat, TargetTable};

// The number of a job's disk.
fn disk_number(job: &Job) -> u32
    ensures { result ≡ disk_of job.now }
{
    match *job {
        Job::Read { disk, .. }
        | Job::Write { disk, .. }
        | Job::Zero { disk, .. }
        | Job::Flush { disk } => u32::from(disk),
    }
}

/// The admission of a command over the configuration at the place of the section. Loads at most
/// fifteen words, and takes no other step.
pub fn look_up<S, M: Means<S>, L: Ledger>(
    table: &TargetTable<S, M>,
    section: &mut Section<'_, S>,
    b: &Bound,
    e: &Sqe,
    steps: &mut Steps<L>,
) -> Admit
    requires own { section.old.seat.now.base.table_id ≡ table.now.table.shared.table_id }
    requires rows { table.now.table.shared.key.rows ≡ WORDS }
    requires placed { is_placed section.old.seat.now.base.me.0.view.section ≡ true }
    ensures same { section.new.seat.ghost_name ≡ section.old.seat.ghost_name }
    ensures own { section.new.seat.now.base.table_id ≡ section.old.seat.now.base.table_id }
    ensures view { section.new.seat.now.base.me ≡ section.old.seat.now.base.me }
    ensures value { let v = section.old.seat.now.base.me.0
        in result ≡ admission_in (section_words M.means v) (section_serial v) b.now e.now }
    ensures kinds { no_rows steps.new ≡ no_rows steps.old }
    ensures loads { steps.new.row ≤ steps.old.row + 15 }
{
    let mut look = SectionLook {
        table,
        seat: section.seat,
        steps,
    };
    admit_io(b, e, &mut look)
}

/// The admission of the section's call, with the hold of a held one: at most fifteen loads, and
/// three steps for the get. The call is a submit of this command: it is Held at its place exactly
/// where the command is admitted over the configuration there. After it the section may be left.
pub fn admit<S, M: Means<S>, L: Ledger>(
    table: &TargetTable<S, M>,
    section: &mut Section<'_, S>,
    b: &Bound,
    e: &Sqe,
    steps: &mut Steps<L>,
) -> Submitted<S>
    requires own { section.old.seat.now.base.table_id ≡ table.now.table.shared.table_id }
    requires rows { table.now.table.shared.key.rows ≡ WORDS }
    requires placed { is_placed section.old.seat.now.base.me.0.view.section ≡ true }
    requires new { (entry_of section.old.seat.now.base.me.0.view.section).got ≡ false }
    requires free { (section.old.seat.now.base.me.0.view.loaded ≡ NotLoaded)
        × (section.old.seat.now.base.me.0.view.holds ≡ []) }
    requires words { let v = section.old.seat.now.base.me.0
        in section_words M.means v ≡ M.means.words (target_before M.means v) }
    requires admits { let v = section.old.seat.now.base.me.0
        in Admits M.means table.now.table.shared.key.disks (entry_of v.view.section).call b.now e.now
        (target_before M.means v) }
    ensures same { section.new.seat.ghost_name ≡ section.old.seat.ghost_name }
    ensures own { (section.new.seat.now.base.table_id ≡ section.old.seat.now.base.table_id)
        × (section.new.seat.now.base.me.1 ≡ section.old.seat.now.base.me.1) }
    ensures value { let v = section.old.seat.now.base.me.0 in admit_of result
        ≡ admission_in (section_words M.means v) (section_serial v) b.now e.now }
    ensures hold { let v = section.old.seat.now.base.me.0 in let x = entry_of v.view.section
        in HasHold section.old.seat.now.base.table_id v.known x.place x.call result }
    ensures told { Admitted (is_held (admit_of result)) section.old.seat.now.base.me.0
        section.new.seat.now.base.me.0 }
    ensures finished { IsFinished M.means section.new.seat.now.base.me.0 }
    ensures steps { all_steps steps.new ≤ all_steps steps.old + 18 }
{
    match look_up(table, section, b, e, steps) {
        Admit::Refused(status) => Submitted::Refused(status),
        Admit::Run(job) => {
            let hold = get(table, section, disk_number(&job), steps);
            Submitted::Held(job, hold)
        }
    }
}

/// A submit in a section that was entered: draws its place, admits the command there, and gets the
/// hold of a held one. Place, counted from 0, serial and answer. At most nineteen steps. The section
/// may then be left (`rcu_sections::sections::leave`).
pub fn submit_in<S, M: Means<S>, L: Ledger>(
    table: &TargetTable<S, M>,
    section: &mut Section<'_, S>,
    call: Tag,
    b: &Bound,
    e: &Sqe,
    steps: &mut Steps<L>,
) -> (u32, u32, Submitted<S>)
    requires own { section.old.seat.now.base.table_id ≡ table.now.table.shared.table_id }
    requires rows { table.now.table.shared.key.rows ≡ WORDS }
    requires inside { section.old.seat.now.base.me.0.view.section ≡ In }
    requires free { (section.old.seat.now.base.me.0.view.loaded ≡ NotLoaded)
        × (section.old.seat.now.base.me.0.view.holds ≡ []) }
    requires left { 0 < section.old.seat.now.left }
    requires draws { MayDraw section.old.seat.now.number call }
    requires plain { IsPlain M.means section.old.seat.now.number
        section.old.seat.now.base.me.0.known call }
    requires caller { 0 < total (claims_of call.caller) section.old.seat.now.base.me.0.claims }
    requires new { call.kind ≡ 1 → IsNewIn call section.old.seat.now.base.me.0.claims }
    requires admits { (between : List TagOf)
        → Legal M.means ((section.old.seat.now.base.me.0.known ++ between) ++ call ∷ [])
        → Admits M.means table.now.table.shared.key.disks call b.now e.now
        (target M.means (section.old.seat.now.base.me.0.known ++ between)) }
    ensures same { section.new.seat.ghost_name ≡ section.old.seat.ghost_name }
    ensures own { (section.new.seat.now.base.table_id ≡ section.old.seat.now.base.table_id)
        × (section.new.seat.now.base.me.1 ≡ section.old.seat.now.base.me.1) }
    ensures submits { Submits M.means call b.now e.now section.old.seat.now.base.me.0
        section.new.seat.now.base.me.0 result.0 result.1 (admit_of result.2) }
    ensures hold { HasHold section.old.seat.now.base.table_id section.new.seat.now.base.me.0.known
        result.0 call result.2 }
    ensures finished { IsFinished M.means section.new.seat.now.base.me.0 }
    ensures steps { all_steps steps.new ≤ all_steps steps.old + 19 }
{
    let (at, serial) = place(table, section, call, steps);
    let answer = admit(table, section, b, e, steps);
    (at, serial, answer)
}

/// A submit by a seat: enters a section, draws the place there, admits the command, gets the hold
/// of a held one, and leaves the section. Place, counted from 0, serial and answer. At most 21
/// steps: fifteen loads of words, one on the clock, two on the section word, and three for the get.
pub fn submit<S, M: Means<S>, L: Ledger>(
    table: &TargetTable<S, M>,
    seat: &mut Seat<S>,
    call: Tag,
    b: &Bound,
    e: &Sqe,
    steps: &mut Steps<L>,
) -> (u32, u32, Submitted<S>)
    requires own { seat.old.base.table_id ≡ table.now.table.shared.table_id }
    requires rows { table.now.table.shared.key.rows ≡ WORDS }
    requires closed { seat.old.base.me.0.view.section ≡ Out }
    requires free { (seat.old.base.me.0.view.loaded ≡ NotLoaded)
        × (seat.old.base.me.0.view.holds ≡ []) }
    requires left { 0 < seat.old.left }
    requires draws { MayDraw seat.old.number call }
    requires plain { IsPlain M.means seat.old.number seat.old.base.me.0.known call }
    requires caller { 0 < total (claims_of call.caller) seat.old.base.me.0.claims }
    requires new { call.kind ≡ 1 → IsNewIn call seat.old.base.me.0.claims }
    requires admits { (between : List TagOf)
        → Legal M.means ((seat.old.base.me.0.known ++ between) ++ call ∷ [])
        → Admits M.means table.now.table.shared.key.disks call b.now e.now
        (target M.means (seat.old.base.me.0.known ++ between)) }
    ensures own { (seat.new.base.table_id ≡ seat.old.base.table_id)
        × (seat.new.base.me.1 ≡ seat.old.base.me.1) }
    ensures submits { let v = seat.old.base.me.0 in (mid : _) × Submits M.means call b.now e.now
        (record v { view = after_enter v.view }) mid result.0 result.1 (admit_of result.2)
        × (seat.new.base.me.0 ≡ record mid { view = after_leave mid.view }) }
    ensures hold { HasHold seat.old.base.table_id seat.new.base.me.0.known result.0 call result.2 }
    ensures steps { all_steps steps.new ≤ all_steps steps.old + 21 }
{
    let mut section = enter(table, seat, steps);
    let (at, serial, answer) = submit_in(table, &mut section, call, b, e, steps);
    leave(table, section, steps);
    (at, serial, answer)
}
