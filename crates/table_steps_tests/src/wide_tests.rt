//! One Execute that writes three extents, over the wide target.
ghost use Rattle.std.specs.Prelude.{◌≡◌, ◌≢◌, ◌+◌, ◌<◌, ◌∷◌, [], ℕ, true, false, None, IfOk, IfSome, replicate};
ghost use Rattle.ref_state.specs.State.{is_open};
ghost use Rattle.ref_state.specs.Steps.{after_add, first, is_slot};
ghost use Rattle.table_rule.specs.Plays.{MayGet};
ghost use Rattle.table_rule.specs.Shown.{opened_seat};
ghost use Rattle.table_steps_tests.specs.WideMeans.{wide_means, wide_plan};

use extent_executes::executes::execute;
use extent_executes::works::Work;
use lists::items::Items;
use ref_state::kinds::{EXECUTE, SUBMIT, Tag};
use ref_state::limits::LIVE;
use ref_state::state::Hold;
use small_target::Wide;
use std::alloc::{AllocError, Global};
use std::marker::Brand;
use std::sync::ledger::{Blank, Ledger};
use table_rule::meaning::Means;
use table_rule::ticks::Steps;
use target_table::opening::Opening;
use target_table::table::{Seat, TargetTable};

/// The wide target as the meaning of a table. An extent is one number.
struct WideMeaning;

impl Means<u64> for WideMeaning {
    ghost use Rattle.table_steps_tests.specs.WideMeans.{wide_means};

    type Target = Wide;

    type Fixed = u64;

    type Desk = u64;

    type Reply = u64;

    ghost means = { wide_means };
}

type Table = TargetTable<u64, WideMeaning>;

fn one_word(alloc: Global) -> Result<Vec<u64>, AllocError>
    ensures { IfOk result (λ v. v.items ≡ 1 ∷ []) }
{
    let mut rows = Vec::new(alloc);
    rows.push(1)?;
    Ok(rows)
}

fn blank_extents(alloc: Global) -> Result<Vec<u64>, AllocError>
    ensures { IfOk result (λ v. v.items ≡ replicate 8 0) }
{
    let all = Items::copies(alloc, 8, 0)?;
    Ok(all.into_vec())
}

fn two_quotas(alloc: Global) -> Result<Vec<u32>, AllocError>
    ensures { IfOk result (λ v. v.items ≡ 4 ∷ (4 ∷ [])) }
{
    let mut quotas = Vec::new(alloc);
    quotas.push(4)?;
    quotas.push(4)?;
    Ok(quotas)
}

// A table of the wide target, and its seat 1.
fn open_wide(alloc: Global) -> Result<(Table, Seat<u64>), AllocError>
    ensures key { IfOk result (λ r. r.0.table.shared.key ≡ wide_plan (4 ∷ (4 ∷ []))) }
    ensures seat { IfOk result (λ r. (r.1.base.table_id ≡ r.0.table.shared.table_id)
        × (r.1.base.me ≡ (opened_seat r.0.table.shared.key 1, []))) }
{
    let rows = one_word(alloc)?;
    let slots = blank_extents(alloc)?;
    let quotas = two_quotas(alloc)?;
    let opening = Opening {
        rows,
        slots,
        quotas,
    };
    let (table, _editor, mut others) = TargetTable::<u64, WideMeaning>::open(alloc, opening)?;
    let seat = others.remove(0);
    Ok((table, seat))
}

// The job of seat 1's command 7, submitted at place 0: its number to all three extents.
struct Seven;

impl Work<u64, WideMeaning> for Seven {
    ghost tag = { record { kind = 2; caller = 1; number = 7 } };

    ghost hold = { record {
      disk = 0;
      place = 0;
      call = record { kind = 1; caller = 1; number = 7 };
      executed = false;
    } };

    fn apply(&self, slot: u32, value: u64) -> u64 {
        if slot < 3 {
            return 7;
        }
        value
    }
}

// Gets a hold on the disk for the seat's section, on the counter that the mode tells.
fn get_hold<L: Ledger>(table: &Table, seat: &mut Seat<u64>, steps: &mut Steps<L>)
    requires own { seat.old.base.table_id ≡ table.now.table.shared.table_id }
    requires disk { 0 < table.now.table.shared.key.disks }
    requires open { is_open seat.old.base.me.0.view.section ≡ true }
    requires shown { MayGet wide_means seat.old.base.me.0 0 }
    ensures own { seat.new.base.table_id ≡ seat.old.base.table_id }
    ensures view { (found : _) × (seat.new.base.me
        ≡ (
          record seat.old.base.me.0 {
            view = after_add 0 true seat.old.base.me.0.view;
            found = found;
          },
          seat.old.base.me.1,
        )) }
{
    let mode = table.load_mode(seat, 0, steps);
    if mode == LIVE {
        table.add_own(seat, 0, true, steps);
    } else {
        let _before = table.add_shared(seat, 0, true, steps);
    }
}

// Submits command 7 of seat 1, which has just been opened: its place.
fn submit_seven<L: Ledger>(table: &Table, seat: &mut Seat<u64>, steps: &mut Steps<L>) -> u32
    requires own { seat.old.base.table_id ≡ table.now.table.shared.table_id }
    requires key { table.now.table.shared.key ≡ wide_plan (4 ∷ (4 ∷ [])) }
    requires opened { seat.old.base.me ≡ (opened_seat table.now.table.shared.key 1, []) }
    ensures own { seat.new.base.table_id ≡ seat.old.base.table_id }
    ensures left { seat.new.left ≡ 3 }
    ensures free { seat.new.base.me.0.view.turns ≡ [] }
    ensures held { seat.new.base.me.0.view.holds
        ≡ record {
          disk = 0;
          place = result;
          call = record { kind = 1; caller = 1; number = 7 };
          executed = false;
        } ∷ [] }
{
    let call = Tag {
        kind: SUBMIT,
        caller: 1,
        number: 7,
    };
    table.enter_section(seat, steps);
    let (place, _serial) = table.draw_place(seat, call, steps);
    get_hold(table, seat, steps);
    table.leave_section(seat, steps);
    place
}

// Executes command 7 over its three extents: its place, or nothing where a turn is taken.
fn execute_seven<L: Ledger>(
    table: &Table,
    seat: &mut Seat<u64>,
    steps: &mut Steps<L>,
) -> Option<u32>
    requires own { seat.old.base.table_id ≡ table.now.table.shared.table_id }
    requires key { table.now.table.shared.key ≡ wide_plan (4 ∷ (4 ∷ [])) }
    requires left { 0 < seat.old.left }
    requires free { seat.old.base.me.0.view.turns ≡ [] }
    requires held { seat.old.base.me.0.view.holds
        ≡ record {
          disk = 0;
          place = 0;
          call = record { kind = 1; caller = 1; number = 7 };
          executed = false;
        } ∷ [] }
    ensures own { seat.new.base.table_id ≡ seat.old.base.table_id }
    ensures free { seat.new.base.me.0.view.turns ≡ [] }
    ensures steps { IfSome result (λ place. steps.new ≡ record steps.old {
      turn = steps.old.turn + 12;
      clock = steps.old.clock + 1;
    }) }
{
    let call = Tag {
        kind: EXECUTE,
        caller: 1,
        number: 7,
    };
    let hold = Hold {
        disk: 0,
        place: 0,
        call: Tag {
            kind: SUBMIT,
            caller: 1,
            number: 7,
        },
        executed: false,
    };
    execute(table, seat, &Seven, call, hold, &[0, 1, 2], steps)
}

// What an extent holds, whose turn stays taken, or nothing where it is taken already.
fn take_out<L: Ledger>(
    table: &Table,
    seat: &mut Seat<u64>,
    slot: u32,
    steps: &mut Steps<L>,
) -> Option<u64>
    requires own { seat.old.base.table_id ≡ table.now.table.shared.table_id }
    requires near { (slot < table.now.table.shared.key.slots) × (slot < 512) }
    requires without { first (is_slot slot) seat.old.base.me.0.view.turns ≡ None }
    ensures own { seat.new.base.table_id ≡ seat.old.base.table_id }
    ensures turns { IfSome result (λ x. seat.new.base.me.0.view.turns
        ≡ record { slot = slot; out = false } ∷ seat.old.base.me.0.view.turns) }
{
    if !table.take_turn(seat, slot, steps) {
        return None;
    }
    Some(table.slot_out(seat, slot, steps))
}

// What the three extents hold, or nothing from one on whose turn is taken.
fn three_extents<L: Ledger>(
    table: &Table,
    seat: &mut Seat<u64>,
    steps: &mut Steps<L>,
) -> [Option<u64>; 3]
    requires own { seat.old.base.table_id ≡ table.now.table.shared.table_id }
    requires slots { table.now.table.shared.key.slots ≡ 8 }
    requires free { seat.old.base.me.0.view.turns ≡ [] }
{
    let Some(first) = take_out(table, seat, 0, steps) else {
        return [None; 3];
    };
    let Some(second) = take_out(table, seat, 1, steps) else {
        return [Some(first), None, None];
    };
    let third = take_out(table, seat, 2, steps);
    [Some(first), Some(second), third]
}

/// The place of the Execute, and what the three extents hold after it.
type Found = (Option<u32>, [Option<u64>; 3]);

// Seat 1 submits command 7 and executes it.
fn write_three<L: Ledger>(alloc: Global, blank: Blank) -> Result<Option<Found>, AllocError>
    requires name { blank.name ≡ L.name }
    requires parts { blank.parts ≡ L.parts }
    requires five { L.parts ≡ 5 }
{
    let (table, mut seat) = open_wide(alloc)?;
    let mut steps = Steps::<L>::start(blank);
    if submit_seven(&table, &mut seat, &mut steps) != 0 {
        return Ok(None);
    }
    let placed = execute_seven(&table, &mut seat, &mut steps);
    let extents = three_extents(&table, &mut seat, &mut steps);
    Ok(Some((placed, extents)))
}

#[test]
fn one_execute_writes_three_extents(rt: HostRuntime) -> Result<(), AllocError> {
    let found = write_three::<Brand>(rt.alloc(), Blank::new(5))?;
    assert!(rt; found == Some((Some(1), [Some(7), Some(7), Some(7)])));
    Ok(())
}
