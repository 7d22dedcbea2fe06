//! The editor's steps on the two sides: store a word of the spare side, publish it, look at who
//! still reads the other.
ghost use Rattle.std.specs.Prelude.{◌≡◌, ◌≢◌, ◌+◌, ◌<◌, ◌∷◌, ℕ, length, slice_index};
ghost use Rattle.ref_state.specs.declared.state.Phase.TheVariants.{Live as IsLive};
ghost use Rattle.ref_state.specs.State.{total, AllPassed, drain};
ghost use Rattle.ref_state.specs.Steps.{looked_at};
ghost use Rattle.table_rule.specs.Meant.{target, IsSteady};
ghost use Rattle.table_rule.specs.Shown.{claims_of};
ghost use Rattle.table_rule.specs.Words.{at, SectionOf};
ghost use Rattle.table_rule.specs.Plays.{Published, spare_of};

use crate::table::{Seat, TargetTable};
use ref_state::kinds::Tag;
use std::marker::Brand;
use std::sync::ledger::Ledger;
use table_rule::meaning::{Called, Means};
use table_rule::rule::{Look, Publish, Store};
use table_rule::ticks::Steps;

impl<S, M: Means<S>> TargetTable<S, M> {
    /// The editor stores the word of the spare side at `word`, counted from 0. Every section that
    /// could read that side has passed.
    pub fn store_row<L: Ledger>(
        &self,
        seat: &mut Seat<S>,
        word: u32,
        value: u64,
        steps: &mut Steps<L>,
    )
        requires own { seat.old.base.table_id ≡ self.now.table.shared.table_id }
        requires editor { seat.old.number ≡ 0 }
        requires near { word < self.now.table.shared.key.rows }
        requires passed { AllPassed seat.old.base.me.0.seats seat.old.base.me.0.notes.marks }
        ensures own { seat.new.base.table_id ≡ seat.old.base.table_id }
        ensures view { seat.new.base.me
            ≡ (
              record seat.old.base.me.0 {
                notes = record seat.old.base.me.0.notes {
                  pending
                      = (word, value) ∷ seat.old.base.me.0.notes.pending;
                };
              },
              seat.old.base.me.1,
            ) }
        ensures ticks { steps.new ≡ record steps.old { row = steps.old.row + 1 } }
    {
        steps.tick_row();
        let word = word as usize;
        let side = (seat.serial as usize + 1) % 2;
        let at = 7688 + (16 * (word / 8) + (8 * side + word % 8));
        self.table.shared.store::<Store>(&mut seat.base, at, value);
    }

    /// The editor loads a seat's section word. It notes it where it is odd, for the last publish
    /// and for each killed disk, and finds that the seat has passed where it is even or another
    /// than the noted one.
    pub fn look_section<L: Ledger>(
        &self,
        seat: &mut Seat<S>,
        other: u32,
        steps: &mut Steps<L>,
    ) -> u64
        requires own { seat.old.base.table_id ≡ self.now.table.shared.table_id }
        requires editor { seat.old.number ≡ 0 }
        requires there { (other < seat.old.base.me.0.seats) × (other < 32) }
        ensures own { seat.new.base.table_id ≡ seat.old.base.table_id }
        ensures view { seat.new.base.me
            ≡ (
              record seat.old.base.me.0 {
                notes = looked_at other result seat.old.base.me.0.notes;
                found = (at (SectionOf other), result) ∷ seat.old.base.me.0.found;
              },
              seat.old.base.me.1,
            ) }
        ensures ticks { steps.new ≡ record steps.old { row = steps.old.row + 1 } }
    {
        steps.tick_row();
        self.table
            .shared
            .load::<Look>(&mut seat.base, 8 + 80 * other as usize)
    }

    fn publish_as<C: Called>(&self, seat: &mut Seat<S>, call: Tag) -> (u32, u32)
        requires own { seat.old.base.table_id ≡ self.now.table.shared.table_id }
        requires editor { seat.old.number ≡ 0 }
        requires left { 0 < seat.old.left }
        requires kind { (3 < C.tag.kind) × (C.tag.kind < 7) }
        requires caller { 0 < total (claims_of C.tag.caller) seat.old.base.me.0.claims }
        requires passed { AllPassed seat.old.base.me.0.seats seat.old.base.me.0.notes.marks }
        requires live { (d : ℕ) → d < self.now.table.shared.key.disks
            → slice_index (spare_of seat.old.base.me.0.notes) d ≢ 0
            → (drain seat.old.base.me.0.notes d).phase ≡ IsLive }
        requires words { (t : M.Target) → IsSteady M.means
            (target M.means seat.old.base.me.0.known) t
            → length (spare_of seat.old.base.me.0.notes) ≡ self.now.table.shared.key.rows
            → M.means.words (M.means.next t C.tag) ≡ spare_of seat.old.base.me.0.notes }
        requires tag { call ≡ C.tag }
        ensures own { (seat.new.base.table_id ≡ seat.old.base.table_id)
            × (seat.new.base.me.1 ≡ seat.old.base.me.1) }
        ensures published { Published M.means call seat.old.base.me.0 seat.new.base.me.0 result.0
            result.1 }
    {
        let _ = call;
        let found = self
            .table
            .shared
            .fetch_add::<Publish<M, C>>(&mut seat.base, 0, 4294967297);
        seat.left -= 1;
        seat.serial += 1;
        ((found % 4294967296) as u32, seat.serial)
    }

    /// The editor publishes the spare side by this call, one of kind `CONTROL`, `THROUGH` or
    /// `EDIT`, with one fetch-add on the clock: its place, counted from 0, and the serial that it
    /// begins. The words of the target after the call are those of the spare side: at its place
    /// stands the desk that the editor knows.
    pub fn publish<L: Ledger>(
        &self,
        seat: &mut Seat<S>,
        call: Tag,
        steps: &mut Steps<L>,
    ) -> (u32, u32)
        requires own { seat.old.base.table_id ≡ self.now.table.shared.table_id }
        requires editor { seat.old.number ≡ 0 }
        requires left { 0 < seat.old.left }
        requires kind { (3 < call.kind) × (call.kind < 7) }
        requires editors { 5 < call.kind → call.caller ≡ 0 }
        requires caller { 0 < total (claims_of call.caller) seat.old.base.me.0.claims }
        requires passed { AllPassed seat.old.base.me.0.seats seat.old.base.me.0.notes.marks }
        requires live { (d : ℕ) → d < self.now.table.shared.key.disks
            → slice_index (spare_of seat.old.base.me.0.notes) d ≢ 0
            → (drain seat.old.base.me.0.notes d).phase ≡ IsLive }
        requires words { (t : M.Target) → IsSteady M.means
            (target M.means seat.old.base.me.0.known) t
            → length (spare_of seat.old.base.me.0.notes) ≡ self.now.table.shared.key.rows
            → M.means.words (M.means.next t call) ≡ spare_of seat.old.base.me.0.notes }
        ensures own { (seat.new.base.table_id ≡ seat.old.base.table_id)
            × (seat.new.base.me.1 ≡ seat.old.base.me.1) }
        ensures published { Published M.means call seat.old.base.me.0 seat.new.base.me.0 result.0
            result.1 }
        ensures ticks { steps.new ≡ record steps.old { clock = steps.old.clock + 1 } }
    {
        steps.tick_clock();
        self.publish_as::<Brand>(seat, call)
    }
}
