//! Submits and references in sections.
ghost use Rattle.std.specs.Prelude.{◌≡◌, ◌≢◌, ◌+◌, ◌<◌, ◌≤◌, ◌∷◌, [], true, false, Some, map};
ghost use Rattle.ref_state.specs.State.{is_open};
ghost use Rattle.ref_state.specs.Steps.{after_add, Some_where, may_put, is_on};
ghost use Rattle.table_seats.specs.EndingMeans.{ending_means};
ghost use Rattle.table_rule.specs.Shown.{IsNewIn, extended};
ghost use Rattle.table_rule.specs.Plays.{MayGet};
ghost use Rattle.table_seats.specs.Resting.{Rests};

use crate::ground::Table;
use ref_state::kinds::{BARE, SUBMIT, Tag};
use ref_state::limits::LIVE;
use std::sync::ledger::Ledger;
use table_rule::ticks::Steps;
use target_table::table::Seat;

/// Gets a hold on the disk for the seat's section, on the counter that the mode tells.
pub fn get_hold<L: Ledger>(table: &Table, seat: &mut Seat<u64>, steps: &mut Steps<L>)
    requires own { seat.old.base.table_id ≡ table.now.table.shared.table_id }
    requires disk { 0 < table.now.table.shared.key.disks }
    requires open { is_open seat.old.base.me.0.view.section ≡ true }
    requires shown { MayGet ending_means seat.old.base.me.0 0 }
    ensures own { seat.new.base.table_id ≡ seat.old.base.table_id }
    ensures view { (found : _) × (seat.new.base.me
        ≡ (
          record seat.old.base.me.0 {
            view = after_add 0 true seat.old.base.me.0.view;
            found = found;
          },
          seat.old.base.me.1,
        )) }
{
    let mode = table.load_mode(seat, 0, steps);
    if mode == LIVE {
        table.add_own(seat, 0, true, steps);
    } else {
        let _before = table.add_shared(seat, 0, true, steps);
    }
}

/// Puts a hold on the disk, in a section: the count that stood before where it went to the shared
/// count, and else nothing.
pub fn put_hold<L: Ledger>(table: &Table, seat: &mut Seat<u64>, steps: &mut Steps<L>) -> Option<u64>
    requires own { seat.old.base.table_id ≡ table.now.table.shared.table_id }
    requires disk { 0 < table.now.table.shared.key.disks }
    requires open { is_open seat.old.base.me.0.view.section ≡ true }
    requires held { Some_where (is_on 0) seat.old.base.me.0.view.holds }
    requires may { Some_where (may_put 0) seat.old.base.me.0.view.holds }
    ensures own { seat.new.base.table_id ≡ seat.old.base.table_id }
    ensures view { (found : _) × (seat.new.base.me
        ≡ (
          record seat.old.base.me.0 {
            view = after_add 0 false seat.old.base.me.0.view;
            found = found;
          },
          seat.old.base.me.1,
        )) }
{
    let mode = table.load_mode(seat, 0, steps);
    if mode == LIVE {
        table.add_own(seat, 0, false, steps);
        None
    } else {
        let before = table.add_shared(seat, 0, false, steps);
        Some(before)
    }
}

/// A submit in a section of its own: its place, or nothing where the disk isn't shown there. The
/// section of a held one has got a hold.
pub fn submit<L: Ledger>(
    table: &Table,
    seat: &mut Seat<u64>,
    number: u32,
    steps: &mut Steps<L>,
) -> Option<u32>
    requires own { seat.old.base.table_id ≡ table.now.table.shared.table_id }
    requires disk { (0 < table.now.table.shared.key.disks) × (0 < table.now.table.shared.key.rows) }
    requires queue { seat.old.number ≢ 0 }
    requires rests { Rests seat.old.number seat.old.base.me }
    requires left { 0 < seat.old.left }
    requires new { IsNewIn record {
      kind = 1;
      caller = seat.old.number;
      number = number;
    } seat.old.base.me.0.claims }
    ensures own { seat.new.base.table_id ≡ seat.old.base.table_id }
    ensures number { seat.new.number ≡ seat.old.number }
    ensures rests { Rests seat.new.number seat.new.base.me }
    ensures left { seat.new.left + 1 ≡ seat.old.left }
    ensures turns { (seat.new.base.me.0.view.turns ≡ seat.old.base.me.0.view.turns)
        × (seat.new.base.me.1 ≡ seat.old.base.me.1) }
    ensures claims { seat.new.base.me.0.claims ≡ map (extended record {
      kind = 1;
      caller = seat.old.number;
      number = number;
    }) seat.old.base.me.0.claims }
    ensures held { (place : _) → result ≡ Some place → seat.new.base.me.0.view.holds
        ≡ record {
          disk = 0;
          place = place;
          call = record {
            kind = 1;
            caller = seat.old.number;
            number = number;
          };
          executed = false;
        } ∷ seat.old.base.me.0.view.holds }
{
    let call = Tag {
        kind: SUBMIT,
        caller: seat.number,
        number,
    };
    table.enter_section(seat, steps);
    let (place, _serial) = table.draw_place(seat, call, steps);
    let row = table.load_row(seat, 0, steps);
    if row == 0 {
        table.leave_section(seat, steps);
        return None;
    }
    get_hold(table, seat, steps);
    table.leave_section(seat, steps);
    Some(place)
}

/// Puts the seat's one hold, whose command is executed, in a section of its own: the count that
/// stood before where it went to the shared count, and else nothing.
pub fn finish<L: Ledger>(table: &Table, seat: &mut Seat<u64>, steps: &mut Steps<L>) -> Option<u64>
    requires own { seat.old.base.table_id ≡ table.now.table.shared.table_id }
    requires disk { 0 < table.now.table.shared.key.disks }
    requires rests { Rests seat.old.number seat.old.base.me }
    requires done { (h : _) × (seat.old.base.me.0.view.holds ≡ h ∷ []) × (h.disk ≡ 0)
        × (h.executed ≡ true) }
    ensures own { seat.new.base.table_id ≡ seat.old.base.table_id }
    ensures number { seat.new.number ≡ seat.old.number }
    ensures rests { Rests seat.new.number seat.new.base.me }
    ensures left { seat.new.left ≡ seat.old.left }
    ensures none { seat.new.base.me.0.view.holds ≡ [] }
    ensures claims { seat.new.base.me.0.claims ≡ seat.old.base.me.0.claims }
    ensures turns { (seat.new.base.me.0.view.turns ≡ seat.old.base.me.0.view.turns)
        × (seat.new.base.me.1 ≡ seat.old.base.me.1) }
{
    table.enter_section(seat, steps);
    let before = put_hold(table, seat, steps);
    table.leave_section(seat, steps);
    before
}

/// A bare call in a section of its own: its place and serial, and the word of row 0 there.
pub fn bare<L: Ledger>(
    table: &Table,
    seat: &mut Seat<u64>,
    number: u32,
    steps: &mut Steps<L>,
) -> (u32, u32, u64)
    requires own { seat.old.base.table_id ≡ table.now.table.shared.table_id }
    requires rows { 0 < table.now.table.shared.key.rows }
    requires rests { Rests seat.old.number seat.old.base.me }
    requires left { 0 < seat.old.left }
    ensures own { seat.new.base.table_id ≡ seat.old.base.table_id }
    ensures number { seat.new.number ≡ seat.old.number }
    ensures rests { Rests seat.new.number seat.new.base.me }
    ensures left { seat.new.left + 1 ≡ seat.old.left }
{
    let call = Tag {
        kind: BARE,
        caller: seat.number,
        number,
    };
    table.enter_section(seat, steps);
    let (place, serial) = table.draw_place(seat, call, steps);
    let row = table.load_row(seat, 0, steps);
    table.leave_section(seat, steps);
    (place, serial, row)
}
