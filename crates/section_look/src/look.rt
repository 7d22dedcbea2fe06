//! A look over a placed read section.
ghost use Rattle.std.specs.Prelude.{◌≡◌, ◌+◌, ◌≤◌, ◌<◌, ℕ, true, slice_index};
ghost use Rattle.ns_table.specs.declared.layout.TheConstants.{WORDS};
ghost use Rattle.ns_table.specs.Looked.{words_answers};
ghost use Rattle.section_look.specs.Read.{is_placed, section_serial, section_words};
ghost use Rattle.section_look.specs.Trees.{AnswersAsTree};

use crate::loading::{
    has_controller, has_group, has_nsid, part, port_stamp, seen_at, stamp_of, state_of,
    subsystem_stamp,
};
use ns_table::layout::{ana_word, changes_word, ready_word};
use ns_table::rows::Rows;
use sqe_cqe::{Ana, Look, MAX_NSID, Offers, Seen};
use std::sync::ledger::Ledger;
use table_rule::meaning::Means;
use table_rule::ticks::Steps;
use target_table::table::{Seat, TargetTable};

/// A look over the placed section of a seat, whose loads this counter gets. All its calls answer
/// from the words of the configuration at the section's place: at most one load by each of `ready`,
/// `ana` and `bars`, and twelve by `ns`, each a step of kind row. No other step is taken.
#[derive(Drop)]
pub struct SectionLook<'t, 'a, 'c, S, M: Means<S>, L: Ledger> {
    /// The table.
    pub table: &'t TargetTable<S, M>,
    /// The seat of the section.
    pub seat: &'a mut Seat<S>,
    /// The counter that the loads go to.
    pub steps: &'c mut Steps<L>,
    pub ghost own: { seat.now.base.table_id ≡ table.now.table.shared.table_id },
    pub ghost rows: { table.now.table.shared.key.rows ≡ WORDS },
    pub ghost placed: { is_placed seat.now.base.me.0.view.section ≡ true },
}

impl<'t, 'a, 'c, S, M: Means<S>, L: Ledger> Rows for SectionLook<'t, 'a, 'c, S, M, L> {
    ghost use Rattle.section_look.specs.Read.{Reads, no_rows, section_serial, section_words};

    ghost Behind = { Reads S };

    ghost behind = { λ s. (
      s.seat.now.base.me,
      (s.seat.now.base.table_id, (s.seat.ghost_name, (s.steps.ghost_name, no_rows s.steps.now))),
    ) };

    ghost words = { λ b. section_words M.means b.0.0 };

    ghost published = { λ b. section_serial b.0.0 };

    ghost loads = { λ s. s.steps.now.row };

    fn word(&mut self, at: u32) -> u64 {
        self.table.load_row(self.seat, at, self.steps)
    }

    fn serial(&mut self) -> u32 {
        self.seat.read
    }
}

impl<'t, 'a, 'c, S, M: Means<S>, L: Ledger> Look for SectionLook<'t, 'a, 'c, S, M, L> {
    ghost use Rattle.section_look.specs.Read.{Reads, no_rows, section_serial, section_words};

    ghost Behind = { Reads S };

    ghost behind = { λ s. (
      s.seat.now.base.me,
      (s.seat.now.base.table_id, (s.seat.ghost_name, (s.steps.ghost_name, no_rows s.steps.now))),
    ) };

    ghost told = { λ b. words_answers (section_words M.means b.0.0) (section_serial b.0.0) };

    ghost loads = { λ s. s.steps.now.row };

    fn ready(&mut self, ctrl: u16) -> bool {
        if !has_controller(ctrl) {
            return false;
        }
        self.word(ready_word(ctrl)) != 0
    }

    fn ns(&mut self, sub: u8, nsid: u32) -> Seen {
        if !has_nsid(sub, nsid) {
            return Seen::NotConfigured;
        }
        seen_at(self, sub, nsid)
    }

    fn ana(&mut self, port: u8, group: u32) -> Ana {
        if !has_group(port, group) {
            return Ana::Inaccessible;
        }
        state_of(self.word(ana_word(port, group)))
    }

    fn group_made(&mut self, port: u8, group: u32) -> bool {
        if !has_group(port, group) {
            return false;
        }
        self.word(ana_word(port, group)) != 0
    }

    fn ns_stamp(&mut self, sub: u8, nsid: u32) -> u32 {
        if !has_nsid(sub, nsid) {
            return 0;
        }
        stamp_of(part(self, sub, nsid, 10))
    }

    fn ana_stamp(&mut self, sub: u8, port: u8) -> u32 {
        let of_sub = subsystem_stamp(self, sub);
        let of_port = port_stamp(self, port);
        of_sub.max(of_port)
    }

    fn ana_count(&mut self) -> u64 {
        self.word(changes_word())
    }

    fn serial(&mut self) -> u32 {
        self.seat.read
    }

    fn bars(&mut self, _ctrl: u16, _sub: u8, _nsid: u32, _opcode: u8) -> u16 {
        0
    }

    fn offers(&mut self) -> Offers {
        Offers {
            nsids: MAX_NSID,
            oncs: 0x0008,
            nwpc: 0,
            rescap: 0,
        }
    }

    fn marks(&mut self, _sub: u8, _nsid: u32) -> u8 {
        0
    }

    fn group_count(&mut self, _port: u8, _sub: u8, _group: u32) -> u64 {
        self.word(changes_word())
    }
}

/// A look over the placed section of a seat. Where the words at its place are those of a target's
/// configuration, its answers are those of the look at the target's tree: of each of the twelve
/// questions of a look.
pub fn look_at<'t, 'a, 'c, S, M: Means<S>, L: Ledger>(
    table: &'t TargetTable<S, M>,
    seat: &'a mut Seat<S>,
    steps: &'c mut Steps<L>,
) -> SectionLook<'t, 'a, 'c, S, M, L>
    requires own { seat.old.base.table_id ≡ table.now.table.shared.table_id }
    requires rows { table.now.table.shared.key.rows ≡ WORDS }
    requires placed { is_placed seat.old.base.me.0.view.section ≡ true }
    ensures same { (result.seat.ghost_name ≡ seat.entry.ghost_name)
        × (result.steps.ghost_name ≡ steps.entry.ghost_name) }
    ensures seat { (result.seat.now.base.me ≡ seat.old.base.me)
        × (result.seat.now.base.table_id ≡ seat.old.base.table_id) }
    ensures steps { result.steps.now ≡ steps.old }
    ensures told { ⟦<SectionLook<'t, 'a, 'c, S, M, L> as Look>⟧.told
        (⟦<SectionLook<'t, 'a, 'c, S, M, L> as Look>⟧.behind result)
        ≡ words_answers (section_words M.means seat.old.base.me.0)
        (section_serial seat.old.base.me.0) }
    ensures tree { AnswersAsTree (⟦<SectionLook<'t, 'a, 'c, S, M, L> as Look>⟧.told
        (⟦<SectionLook<'t, 'a, 'c, S, M, L> as Look>⟧.behind result))
        (section_words M.means seat.old.base.me.0) (section_serial seat.old.base.me.0) }
{
    SectionLook { table, seat, steps }
}
