//! A table of words with an editor and one reader.
ghost use Rattle.std.specs.Prelude.{◌≡◌, ◌<◌, ◌∷◌, [], IfOk, length, replicate};
ghost use Rattle.patched_tables.specs.Keeping.{IsOpened, Keeps, disks, slots};
ghost use mathlib.Core.Option.{some};
ghost use lib.ListN.{get_elem?};

use crate::meaning::{PatchMeaning, Patches, Table};
use lists::items::Items;
use rcu_sections::editor::Editor;
use std::alloc::{AllocError, Global};
use target_table::opening::Opening;
use target_table::table::{Seat, TargetTable};

fn quotas(alloc: Global, edits: u32, reads: u32) -> Result<Vec<u32>, AllocError>
    ensures { IfOk result (λ v. v.items ≡ edits ∷ (reads ∷ [])) }
{
    let mut quotas = Vec::new(alloc);
    quotas.push(edits)?;
    quotas.push(reads)?;
    Ok(quotas)
}

fn blank_extents(alloc: Global) -> Result<Vec<u64>, AllocError>
    ensures { IfOk result (λ v. v.items ≡ replicate slots 0) }
{
    let all = Items::copies(alloc, 24, 0)?;
    Ok(all.into_vec())
}

// The first seat of a list.
fn first_seat(seats: Vec<Seat<u64>>) -> Seat<u64>
    requires { length seats.items ≡ 1 }
    ensures { get_elem? seats.items 0 ≡ some result }
{
    let mut seats = seats;
    seats.remove(0)
}

/// A table of three disks with these words, an editor that has so many places, and seat 1 with so
/// many.
pub fn open_patched<I: Patches>(
    alloc: Global,
    rows: Vec<u64>,
    edits: u32,
    reads: u32,
) -> Result<(Table<I>, Editor<u64>, Seat<u64>), AllocError>
    requires rows { rows.items ≡ I.opened }
    requires long { length rows.items < 4294967296 }
    requires few { (edits < 10000000) × (reads < 10000000) }
    ensures key { IfOk result (λ r. (r.0.table.shared.key.rows ≡ length I.opened)
        × (r.0.table.shared.key.disks ≡ disks)) }
    ensures editor { IfOk result (λ r. (r.1.seat.base.table_id ≡ r.0.table.shared.table_id)
        × Keeps I.opened I.patches [] r.1.seat.base.me.0 × (r.1.disks ≡ disks)
        × (r.1.seat.left ≡ edits)) }
    ensures reader { IfOk result (λ r. IsOpened r.0.table.shared.table_id 1 reads r.2) }
{
    let slots = blank_extents(alloc)?;
    let quotas = quotas(alloc, edits, reads)?;
    let (table, seat, others) = TargetTable::<u64, PatchMeaning<I>>::open(
        alloc,
        Opening {
            rows,
            slots,
            quotas,
        },
    )?;
    let reader = first_seat(others);
    let editor = Editor::new(&table, seat, 2, 3);
    Ok((table, editor, reader))
}
