//! The steps of a read section: enter, place, rows, leave.
ghost use Rattle.std.specs.Prelude.{◌≡◌, ◌≢◌, ◌+◌, ◌<◌, true, take, slice_index, is_some};
ghost use Rattle.ref_state.specs.declared.state.Entry.{Entry};
ghost use Rattle.ref_state.specs.declared.state.Section.TheVariants.{Out, In, Placed};
ghost use Rattle.ref_state.specs.declared.state.LoadedMode.TheVariants.{NotLoaded};
ghost use Rattle.ref_state.specs.State.{total, is_open};
ghost use Rattle.ref_state.specs.Steps.{after_enter, after_leave};
ghost use Rattle.table_rule.specs.Meant.{target, MayDraw, IsPlain};
ghost use Rattle.table_rule.specs.Shown.{claims_of, IsNewIn};
ghost use Rattle.table_rule.specs.Plays.{Drew};

use crate::table::{Seat, TargetTable};
use ref_state::kinds::Tag;
use std::marker::Brand;
use std::sync::ledger::Ledger;
use table_rule::meaning::{Called, Means};
use table_rule::rule::{Draw, Enter, Leave, Load};
use table_rule::ticks::Steps;

impl<S, M: Means<S>> TargetTable<S, M> {
    /// Stores the own section word, made odd: `rcu_read_lock`.
    pub fn enter_section<L: Ledger>(&self, seat: &mut Seat<S>, steps: &mut Steps<L>)
        requires own { seat.old.base.table_id ≡ self.now.table.shared.table_id }
        requires closed { seat.old.base.me.0.view.section ≡ Out }
        ensures own { seat.new.base.table_id ≡ seat.old.base.table_id }
        ensures view { seat.new.base.me
            ≡ (
              record seat.old.base.me.0 { view = after_enter seat.old.base.me.0.view },
              seat.old.base.me.1,
            ) }
        ensures ticks { steps.new ≡ record steps.old { own = steps.old.own + 1 } }
    {
        steps.tick_own();
        let word = seat.word.wrapping_add(1);
        let at = 8 + 80 * seat.number as usize;
        self.table.shared.store::<Enter>(&mut seat.base, at, word);
        seat.word = word;
    }

    /// Stores the own section word, made even: `rcu_read_unlock`. Where the section's call is a
    /// submit, its reply is Held exactly where the section got a hold.
    pub fn leave_section<L: Ledger>(&self, seat: &mut Seat<S>, steps: &mut Steps<L>)
        requires own { seat.old.base.table_id ≡ self.now.table.shared.table_id }
        requires open { is_open seat.old.base.me.0.view.section ≡ true }
        requires loaded { seat.old.base.me.0.view.loaded ≡ NotLoaded }
        requires finished { (e : Entry) → seat.old.base.me.0.view.section ≡ Placed e
            → e.call.kind ≡ 1 → is_some (M.means.held
            (target M.means (take e.place seat.old.base.me.0.known)) e.call) ≡ e.got }
        ensures own { seat.new.base.table_id ≡ seat.old.base.table_id }
        ensures view { seat.new.base.me
            ≡ (
              record seat.old.base.me.0 { view = after_leave seat.old.base.me.0.view },
              seat.old.base.me.1,
            ) }
        ensures ticks { steps.new ≡ record steps.old { own = steps.old.own + 1 } }
    {
        steps.tick_own();
        let word = seat.word.wrapping_add(1);
        let at = 8 + 80 * seat.number as usize;
        self.table.shared.store::<Leave>(&mut seat.base, at, word);
        seat.word = word;
    }

    fn draw_as<C: Called>(&self, seat: &mut Seat<S>, call: Tag) -> (u32, u32)
        requires own { seat.old.base.table_id ≡ self.now.table.shared.table_id }
        requires inside { seat.old.base.me.0.view.section ≡ In }
        requires left { 0 < seat.old.left }
        requires draws { MayDraw seat.old.number C.tag }
        requires plain { IsPlain M.means seat.old.number seat.old.base.me.0.known C.tag }
        requires caller { 0 < total (claims_of C.tag.caller) seat.old.base.me.0.claims }
        requires new { C.tag.kind ≡ 1 → IsNewIn C.tag seat.old.base.me.0.claims }
        requires tag { call ≡ C.tag }
        ensures own { (seat.new.base.table_id ≡ seat.old.base.table_id)
            × (seat.new.base.me.1 ≡ seat.old.base.me.1) }
        ensures drew { Drew M.means call seat.old.base.me.0 seat.new.base.me.0 result.0 result.1 }
    {
        let _ = call;
        let found = self
            .table
            .shared
            .fetch_add::<Draw<M, C>>(&mut seat.base, 0, 1);
        let place = (found % 4294967296) as u32;
        let serial = (found / 4294967296) as u32;
        seat.left -= 1;
        seat.read = serial;
        (place, serial)
    }

    /// Draws a place for the call by one fetch-add on the clock: the place, counted from 0, and the
    /// serial of the configuration that stands there. The seat knows all calls before it. A queue's
    /// seat draws for calls that are plain at every target; the editor's seat for those that are
    /// plain with the desk that it knows, which is the desk at its place.
    pub fn draw_place<L: Ledger>(
        &self,
        seat: &mut Seat<S>,
        call: Tag,
        steps: &mut Steps<L>,
    ) -> (u32, u32)
        requires own { seat.old.base.table_id ≡ self.now.table.shared.table_id }
        requires inside { seat.old.base.me.0.view.section ≡ In }
        requires left { 0 < seat.old.left }
        requires draws { MayDraw seat.old.number call }
        requires plain { IsPlain M.means seat.old.number seat.old.base.me.0.known call }
        requires caller { 0 < total (claims_of call.caller) seat.old.base.me.0.claims }
        requires new { call.kind ≡ 1 → IsNewIn call seat.old.base.me.0.claims }
        ensures own { (seat.new.base.table_id ≡ seat.old.base.table_id)
            × (seat.new.base.me.1 ≡ seat.old.base.me.1) }
        ensures drew { Drew M.means call seat.old.base.me.0 seat.new.base.me.0 result.0 result.1 }
        ensures ticks { steps.new ≡ record steps.old { clock = steps.old.clock + 1 } }
    {
        steps.tick_clock();
        self.draw_as::<Brand>(seat, call)
    }

    /// Loads the word of the section's side at `word`, counted from 0: the word of the
    /// configuration at the section's place.
    pub fn load_row<L: Ledger>(&self, seat: &mut Seat<S>, word: u32, steps: &mut Steps<L>) -> u64
        requires own { seat.old.base.table_id ≡ self.now.table.shared.table_id }
        requires placed { (e : Entry) × (seat.old.base.me.0.view.section ≡ Placed e) }
        requires near { word < self.now.table.shared.key.rows }
        ensures own { seat.new.base.table_id ≡ seat.old.base.table_id }
        ensures view { seat.new.base.me ≡ seat.old.base.me }
        ensures row { (e : Entry) → seat.old.base.me.0.view.section ≡ Placed e
            → result ≡ slice_index (M.means.words (target M.means
            (take (e.place + 1) seat.old.base.me.0.known))) word }
        ensures ticks { steps.new ≡ record steps.old { row = steps.old.row + 1 } }
    {
        steps.tick_row();
        let word = word as usize;
        let side = (seat.read % 2) as usize;
        let at = 7688 + (16 * (word / 8) + (8 * side + word % 8));
        self.table.shared.load::<Load<M>>(&mut seat.base, at)
    }
}
