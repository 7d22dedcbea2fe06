//! Edits, and whole drains of a disk.
ghost use Rattle.std.specs.Prelude.{◌≡◌, ◌≢◌, ◌+◌, ◌<◌, ◌≤◌, ◌∷◌, [], ℕ, true, false, IfOk, IfErr, IfSome, IfNone};
ghost use Rattle.ref_state.specs.declared.state.Phase.TheVariants.{Live as IsLive, Folded as IsFolded, Drained as IsDrained};
ghost use Rattle.ref_state.specs.State.{drain};
ghost use Rattle.percpu_ref.specs.Lives.{IsKilled};
ghost use Rattle.twin_tables.specs.Keeping.{Edits, IsIn, LeavesOthers};

use crate::meaning::Table;
use percpu_ref::drains::{fold, kill, place_done, poll, revive};
use percpu_ref::lives::{Folded, Killed, Polled};
use rcu_sections::editor::Editor;
use rcu_sections::grace_periods::Reading;
use rcu_sections::sides::{publish, set_row, spare};
use ref_state::kinds::{DONE, EDIT, Tag};
use std::sync::ledger::Ledger;
use table_rule::ticks::Steps;

/// Publishes both words with this number, where no section still reads the spare side: the place
/// and serial of the edit.
pub fn edit<L: Ledger>(
    table: &Table,
    editor: &mut Editor<u64>,
    number: u32,
    steps: &mut Steps<L>,
) -> Result<(u32, u32), Reading>
    requires own { editor.old.seat.base.table_id ≡ table.now.table.shared.table_id }
    requires plan { (table.now.table.shared.key.rows ≡ 2) × (table.now.table.shared.key.disks ≡ 2) }
    requires left { 0 < editor.old.seat.left }
    requires edits { (n : ℕ) × Edits n editor.old.seat.base.me.0 }
    requires live { IsIn IsLive 0 editor.old.seat.base.me.0
        × IsIn IsLive 1 editor.old.seat.base.me.0 }
    ensures own { editor.new.seat.base.table_id ≡ editor.old.seat.base.table_id }
    ensures counts { (editor.new.seats ≡ editor.old.seats) × (editor.new.disks ≡ editor.old.disks) }
    ensures live { IsIn IsLive 0 editor.new.seat.base.me.0
        × IsIn IsLive 1 editor.new.seat.base.me.0 }
    ensures edits { (n : ℕ) × Edits n editor.new.seat.base.me.0 }
    ensures left { editor.old.seat.left ≤ editor.new.seat.left + 1 }
    ensures edited { IfOk result (λ r. Edits number editor.new.seat.base.me.0
        × (editor.new.seat.left + 1 ≡ editor.old.seat.left)) }
    ensures reading { IfErr result (λ r. ((n : ℕ) × Edits n editor.new.seat.base.me.0)
        × (editor.new.seat.left ≡ editor.old.seat.left)) }
{
    let mut side = match spare(table, editor, steps) {
        Ok(side) => side,
        Err(reading) => return Err(reading),
    };
    set_row(table, editor, &mut side, 0, number as u64, steps);
    set_row(table, editor, &mut side, 1, number as u64, steps);
    let call = Tag {
        kind: EDIT,
        caller: 0,
        number,
    };
    Ok(publish(table, editor, side, call, steps))
}

// How often the editor asks again at most.
const TRIES: u32 = 100000000;

/// Asks for an edit again and again: its place and serial, or nothing where it was refused each
/// time.
pub fn edit_until<L: Ledger>(
    table: &Table,
    editor: &mut Editor<u64>,
    number: u32,
    steps: &mut Steps<L>,
) -> Option<(u32, u32)>
    requires own { editor.old.seat.base.table_id ≡ table.now.table.shared.table_id }
    requires plan { (table.now.table.shared.key.rows ≡ 2) × (table.now.table.shared.key.disks ≡ 2) }
    requires left { 0 < editor.old.seat.left }
    requires edits { (n : ℕ) × Edits n editor.old.seat.base.me.0 }
    requires live { IsIn IsLive 0 editor.old.seat.base.me.0
        × IsIn IsLive 1 editor.old.seat.base.me.0 }
    ensures own { editor.new.seat.base.table_id ≡ editor.old.seat.base.table_id }
    ensures counts { (editor.new.seats ≡ editor.old.seats) × (editor.new.disks ≡ editor.old.disks) }
    ensures live { IsIn IsLive 0 editor.new.seat.base.me.0
        × IsIn IsLive 1 editor.new.seat.base.me.0 }
    ensures edited { IfSome result (λ r. Edits number editor.new.seat.base.me.0
        × (editor.new.seat.left + 1 ≡ editor.old.seat.left)) }
{
    let mut tries = 0;
    while tries < TRIES {
        if let Ok(drew) = edit(table, editor, number, steps) {
            return Some(drew);
        }
        tries += 1;
    }
    None
}

// Asks for the fold of a killed disk again and again: nothing where a section was found open each
// time.
fn fold_until<L: Ledger>(
    table: &Table,
    editor: &mut Editor<u64>,
    killed: Killed,
    steps: &mut Steps<L>,
) -> Option<Folded>
    requires own { editor.old.seat.base.table_id ≡ table.now.table.shared.table_id }
    requires plan { (table.now.table.shared.key.disks ≡ 2) × (editor.old.disks ≡ 2) }
    requires near { killed.disk < 2 }
    requires edits { Edits 0 editor.old.seat.base.me.0 }
    requires killed { IsKilled killed.disk killed.words editor.old.seat.base.me.0 }
    ensures own { editor.new.seat.base.table_id ≡ editor.old.seat.base.table_id }
    ensures counts { (editor.new.seats ≡ editor.old.seats) × (editor.new.disks ≡ editor.old.disks)
        × (editor.new.seat.left ≡ editor.old.seat.left) }
    ensures edits { Edits 0 editor.new.seat.base.me.0 }
    ensures folded { IfSome result (λ f. (f.disk ≡ killed.disk)
        × IsIn IsFolded killed.disk editor.new.seat.base.me.0) }
    ensures others { LeavesOthers killed.disk editor.old.seat.base.me.0
        editor.new.seat.base.me.0 }
{
    let mut killed = killed;
    let mut tries = 0;
    while tries < TRIES {
        match fold(table, editor, killed, steps) {
            Ok(folded) => return Some(folded),
            Err((again, _)) => killed = again,
        }
        tries += 1;
    }
    let Killed { disk: _, words: _ } = killed;
    None
}

// Polls a folded disk again and again: false where a hold stood each time.
fn poll_until<L: Ledger>(
    table: &Table,
    editor: &mut Editor<u64>,
    folded: Folded,
    steps: &mut Steps<L>,
) -> bool
    requires own { editor.old.seat.base.table_id ≡ table.now.table.shared.table_id }
    requires plan { (table.now.table.shared.key.disks ≡ 2) × (editor.old.disks ≡ 2) }
    requires near { folded.disk < 2 }
    requires edits { Edits 0 editor.old.seat.base.me.0 }
    requires folded { IsIn IsFolded folded.disk editor.old.seat.base.me.0 }
    ensures own { editor.new.seat.base.table_id ≡ editor.old.seat.base.table_id }
    ensures counts { (editor.new.seats ≡ editor.old.seats) × (editor.new.disks ≡ editor.old.disks)
        × (editor.new.seat.left ≡ editor.old.seat.left) }
    ensures edits { Edits 0 editor.new.seat.base.me.0 }
    ensures drained { result ≡ true → IsIn IsDrained folded.disk editor.new.seat.base.me.0
        × ((drain editor.new.seat.base.me.0.notes folded.disk).done_placed ≡ false) }
    ensures others { LeavesOthers folded.disk editor.old.seat.base.me.0
        editor.new.seat.base.me.0 }
{
    let mut folded = folded;
    let mut tries = 0;
    while tries < TRIES {
        match poll(table, editor, folded, steps) {
            Polled::Drained => return true,
            Polled::Draining(again, _) => folded = again,
        }
        tries += 1;
    }
    let Folded { disk: _ } = folded;
    false
}

/// The start of a drain of a hidden disk: it is killed and folded. Nothing where that took too many
/// tries.
pub fn start_drain<L: Ledger>(
    table: &Table,
    editor: &mut Editor<u64>,
    disk: u32,
    steps: &mut Steps<L>,
) -> Option<Folded>
    requires own { editor.old.seat.base.table_id ≡ table.now.table.shared.table_id }
    requires plan { (table.now.table.shared.key.disks ≡ 2) × (editor.old.disks ≡ 2) }
    requires near { disk < 2 }
    requires edits { Edits 0 editor.old.seat.base.me.0 }
    requires live { IsIn IsLive disk editor.old.seat.base.me.0 }
    ensures own { editor.new.seat.base.table_id ≡ editor.old.seat.base.table_id }
    ensures counts { (editor.new.seats ≡ editor.old.seats) × (editor.new.disks ≡ editor.old.disks)
        × (editor.new.seat.left ≡ editor.old.seat.left) }
    ensures edits { Edits 0 editor.new.seat.base.me.0 }
    ensures folded { IfSome result (λ f. (f.disk ≡ disk)
        × IsIn IsFolded disk editor.new.seat.base.me.0) }
    ensures others { LeavesOthers disk editor.old.seat.base.me.0 editor.new.seat.base.me.0 }
{
    let killed = kill(table, editor, disk, steps);
    fold_until(table, editor, killed, steps)
}

/// One look at a folded disk: its reference goes on, with how many holds stand. Nothing where none
/// does: the disk is drained.
pub fn count_holds<L: Ledger>(
    table: &Table,
    editor: &mut Editor<u64>,
    folded: Folded,
    steps: &mut Steps<L>,
) -> Option<(Folded, u64)>
    requires own { editor.old.seat.base.table_id ≡ table.now.table.shared.table_id }
    requires plan { (table.now.table.shared.key.disks ≡ 2) × (editor.old.disks ≡ 2) }
    requires near { folded.disk < 2 }
    requires edits { Edits 0 editor.old.seat.base.me.0 }
    requires folded { IsIn IsFolded folded.disk editor.old.seat.base.me.0 }
    ensures own { editor.new.seat.base.table_id ≡ editor.old.seat.base.table_id }
    ensures counts { (editor.new.seats ≡ editor.old.seats) × (editor.new.disks ≡ editor.old.disks)
        × (editor.new.seat.left ≡ editor.old.seat.left) }
    ensures edits { Edits 0 editor.new.seat.base.me.0 }
    ensures standing { IfSome result (λ r. (r.0.disk ≡ folded.disk) × (r.1 ≢ 0)
        × IsIn IsFolded folded.disk editor.new.seat.base.me.0) }
    ensures drained { IfNone result (IsIn IsDrained folded.disk editor.new.seat.base.me.0) }
    ensures others { LeavesOthers folded.disk editor.old.seat.base.me.0
        editor.new.seat.base.me.0 }
{
    match poll(table, editor, folded, steps) {
        Polled::Drained => None,
        Polled::Draining(again, holds) => Some((again, holds)),
    }
}

/// The end of a drain of a folded disk: polled until no hold stands, ended and made live again. The
/// place of its Done, or nothing where it took too many tries.
pub fn end_drain<L: Ledger>(
    table: &Table,
    editor: &mut Editor<u64>,
    folded: Folded,
    steps: &mut Steps<L>,
) -> Option<u32>
    requires own { editor.old.seat.base.table_id ≡ table.now.table.shared.table_id }
    requires plan { (table.now.table.shared.key.disks ≡ 2) × (editor.old.disks ≡ 2) }
    requires near { folded.disk < 2 }
    requires left { 0 < editor.old.seat.left }
    requires edits { Edits 0 editor.old.seat.base.me.0 }
    requires folded { IsIn IsFolded folded.disk editor.old.seat.base.me.0 }
    ensures own { editor.new.seat.base.table_id ≡ editor.old.seat.base.table_id }
    ensures counts { (editor.new.seats ≡ editor.old.seats)
        × (editor.new.disks ≡ editor.old.disks) }
    ensures left { IfSome result (λ place. editor.new.seat.left + 1 ≡ editor.old.seat.left) }
    ensures edits { IfSome result (λ place. Edits 0 editor.new.seat.base.me.0) }
    ensures live { IfSome result (λ place. IsIn IsLive folded.disk editor.new.seat.base.me.0) }
    ensures others { IfSome result (λ place. LeavesOthers folded.disk editor.old.seat.base.me.0
        editor.new.seat.base.me.0) }
{
    let disk = folded.disk;
    if !poll_until(table, editor, folded, steps) {
        return None;
    }
    let call = Tag {
        kind: DONE,
        caller: 0,
        number: disk,
    };
    let place = place_done(table, editor, disk, call, steps);
    revive(table, editor, disk, steps);
    Some(place)
}

/// Starts the drains of both hidden disks. Nothing where one took too many tries.
pub fn start_drains<L: Ledger>(
    table: &Table,
    editor: &mut Editor<u64>,
    steps: &mut Steps<L>,
) -> Option<(Folded, Folded)>
    requires own { editor.old.seat.base.table_id ≡ table.now.table.shared.table_id }
    requires plan { (table.now.table.shared.key.disks ≡ 2) × (editor.old.disks ≡ 2) }
    requires edits { Edits 0 editor.old.seat.base.me.0 }
    requires live { IsIn IsLive 0 editor.old.seat.base.me.0
        × IsIn IsLive 1 editor.old.seat.base.me.0 }
    ensures own { editor.new.seat.base.table_id ≡ editor.old.seat.base.table_id }
    ensures counts { (editor.new.disks ≡ editor.old.disks)
        × (editor.new.seat.left ≡ editor.old.seat.left) }
    ensures edits { IfSome result (λ r. Edits 0 editor.new.seat.base.me.0) }
    ensures folded { IfSome result (λ r. (r.0.disk ≡ 0) × (r.1.disk ≡ 1)
        × IsIn IsFolded 0 editor.new.seat.base.me.0
        × IsIn IsFolded 1 editor.new.seat.base.me.0) }
{
    let first = start_drain(table, editor, 0, steps)?;
    match start_drain(table, editor, 1, steps) {
        Some(second) => Some((first, second)),
        None => {
            let Folded { disk: _ } = first;
            None
        }
    }
}

/// Ends the drains of both folded disks: the places of both Dones. Nothing where one took too many
/// tries.
pub fn end_drains<L: Ledger>(
    table: &Table,
    editor: &mut Editor<u64>,
    first: Folded,
    second: Folded,
    steps: &mut Steps<L>,
) -> Option<(u32, u32)>
    requires own { editor.old.seat.base.table_id ≡ table.now.table.shared.table_id }
    requires plan { (table.now.table.shared.key.disks ≡ 2) × (editor.old.disks ≡ 2) }
    requires near { (first.disk ≡ 0) × (second.disk ≡ 1) }
    requires left { 1 < editor.old.seat.left }
    requires edits { Edits 0 editor.old.seat.base.me.0 }
    requires folded { IsIn IsFolded 0 editor.old.seat.base.me.0
        × IsIn IsFolded 1 editor.old.seat.base.me.0 }
    ensures own { editor.new.seat.base.table_id ≡ editor.old.seat.base.table_id }
    ensures disks { editor.new.disks ≡ editor.old.disks }
    ensures left { IfSome result (λ r. editor.new.seat.left + 2 ≡ editor.old.seat.left) }
    ensures edits { IfSome result (λ r. Edits 0 editor.new.seat.base.me.0) }
    ensures live { IfSome result (λ r. IsIn IsLive 0 editor.new.seat.base.me.0
        × IsIn IsLive 1 editor.new.seat.base.me.0) }
{
    let Some(one) = end_drain(table, editor, first, steps) else {
        let Folded { disk: _ } = second;
        return None;
    };
    let two = end_drain(table, editor, second, steps)?;
    Some((one, two))
}
