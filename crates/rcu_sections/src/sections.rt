//! Read-side critical sections: enter, draw a place, load rows, leave.
ghost use Rattle.std.specs.Prelude.{◌≡◌, ◌+◌, ◌<◌, true, take, slice_index, is_some};
ghost use Rattle.ref_state.specs.declared.state.Entry.{Entry};
ghost use Rattle.ref_state.specs.declared.state.Section.TheVariants.{Out, In, Placed};
ghost use Rattle.ref_state.specs.declared.state.LoadedMode.TheVariants.{NotLoaded};
ghost use Rattle.ref_state.specs.State.{total, is_open};
ghost use Rattle.ref_state.specs.Steps.{after_enter, after_leave};
ghost use Rattle.table_rule.specs.Meant.{target, MayDraw, IsPlain};
ghost use Rattle.table_rule.specs.Shown.{claims_of, IsNewIn};
ghost use Rattle.table_rule.specs.Plays.{Drew};

use ref_state::kinds::Tag;
use std::sync::ledger::Ledger;
use table_rule::meaning::Means;
use table_rule::ticks::Steps;
use target_table::table::{Seat, TargetTable};

/// An open read-side critical section. It borrows its seat, so a seat has one at most, and it has
/// to be left.
pub struct Section<'s, S> {
    pub seat: &'s mut Seat<S>,
}

/// Enters a read-side critical section: `rcu_read_lock`. One step.
pub fn enter<'s, S, M: Means<S>, L: Ledger>(
    table: &TargetTable<S, M>,
    seat: &'s mut Seat<S>,
    steps: &mut Steps<L>,
) -> Section<'s, S>
    requires own { seat.old.base.table_id ≡ table.now.table.shared.table_id }
    requires closed { seat.old.base.me.0.view.section ≡ Out }
    ensures same { result.seat.ghost_name ≡ seat.entry.ghost_name }
    ensures own { result.seat.now.base.table_id ≡ seat.old.base.table_id }
    ensures view { result.seat.now.base.me
        ≡ (
          record seat.old.base.me.0 { view = after_enter seat.old.base.me.0.view },
          seat.old.base.me.1,
        ) }
    ensures ticks { steps.new ≡ record steps.old { own = steps.old.own + 1 } }
{
    table.enter_section(seat, steps);
    Section { seat }
}

/// Draws the place of the section's call, counted from 0, with the serial that the section reads,
/// by one step on the clock: no edit comes between the two.
pub fn place<S, M: Means<S>, L: Ledger>(
    table: &TargetTable<S, M>,
    section: &mut Section<'_, S>,
    call: Tag,
    steps: &mut Steps<L>,
) -> (u32, u32)
    requires own { section.old.seat.now.base.table_id ≡ table.now.table.shared.table_id }
    requires inside { section.old.seat.now.base.me.0.view.section ≡ In }
    requires left { 0 < section.old.seat.now.left }
    requires draws { MayDraw section.old.seat.now.number call }
    requires plain { IsPlain M.means section.old.seat.now.number
        section.old.seat.now.base.me.0.known call }
    requires caller { 0 < total (claims_of call.caller) section.old.seat.now.base.me.0.claims }
    requires new { call.kind ≡ 1 → IsNewIn call section.old.seat.now.base.me.0.claims }
    ensures same { section.new.seat.ghost_name ≡ section.old.seat.ghost_name }
    ensures own { (section.new.seat.now.base.table_id ≡ section.old.seat.now.base.table_id)
        × (section.new.seat.now.base.me.1 ≡ section.old.seat.now.base.me.1) }
    ensures drew { Drew M.means call section.old.seat.now.base.me.0 section.new.seat.now.base.me.0
        result.0 result.1 }
    ensures ticks { steps.new ≡ record steps.old { clock = steps.old.clock + 1 } }
{
    table.draw_place(section.seat, call, steps)
}

/// Loads a word of the section's side, counted from 0: the word of the configuration at the
/// section's place. One step.
pub fn row<S, M: Means<S>, L: Ledger>(
    table: &TargetTable<S, M>,
    section: &mut Section<'_, S>,
    word: u32,
    steps: &mut Steps<L>,
) -> u64
    requires own { section.old.seat.now.base.table_id ≡ table.now.table.shared.table_id }
    requires placed { (e : Entry) × (section.old.seat.now.base.me.0.view.section ≡ Placed e) }
    requires near { word < table.now.table.shared.key.rows }
    ensures same { section.new.seat.ghost_name ≡ section.old.seat.ghost_name }
    ensures own { section.new.seat.now.base.table_id ≡ section.old.seat.now.base.table_id }
    ensures view { section.new.seat.now.base.me ≡ section.old.seat.now.base.me }
    ensures row { (e : Entry) → section.old.seat.now.base.me.0.view.section ≡ Placed e
        → result ≡ slice_index (M.means.words (target M.means
        (take (e.place + 1) section.old.seat.now.base.me.0.known))) word }
    ensures ticks { steps.new ≡ record steps.old { row = steps.old.row + 1 } }
{
    table.load_row(section.seat, word, steps)
}

/// Leaves the section: `rcu_read_unlock`. Where its call is a submit, its reply is Held exactly
/// where the section got a hold. One step.
pub fn leave<S, M: Means<S>, L: Ledger>(
    table: &TargetTable<S, M>,
    section: Section<'_, S>,
    steps: &mut Steps<L>,
)
    requires own { section.seat.now.base.table_id ≡ table.now.table.shared.table_id }
    requires open { is_open section.seat.now.base.me.0.view.section ≡ true }
    requires loaded { section.seat.now.base.me.0.view.loaded ≡ NotLoaded }
    requires finished { (e : Entry) → section.seat.now.base.me.0.view.section ≡ Placed e
        → e.call.kind ≡ 1 → is_some (M.means.held
        (target M.means (take e.place section.seat.now.base.me.0.known)) e.call) ≡ e.got }
    ensures own { section.exit.0.now.base.table_id ≡ section.entry.seat.now.base.table_id }
    ensures view { section.exit.0.now.base.me ≡ (
      record section.entry.seat.now.base.me.0 {
        view = after_leave section.entry.seat.now.base.me.0.view;
      },
      section.entry.seat.now.base.me.1,
    ) }
    ensures ticks { steps.new ≡ record steps.old { own = steps.old.own + 1 } }
{
    let Section { seat } = section;
    table.leave_section(seat, steps);
}
