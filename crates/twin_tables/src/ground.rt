//! A twin table with an editor and four seats.
ghost use Rattle.std.specs.Prelude.{◌≡◌, ◌<◌, ◌∷◌, [], IfOk, length};
ghost use Rattle.ref_state.specs.declared.state.Phase.TheVariants.{Live as IsLive};
ghost use Rattle.twin_tables.specs.Twins.{twin_plan};
ghost use Rattle.twin_tables.specs.Keeping.{Edits, IsIn};
ghost use Rattle.twin_tables.specs.Opened.{IsOpened};
ghost use mathlib.Core.Option.{some};
ghost use lib.ListN.{get_elem?};

use crate::meaning::{Table, open_twins};
use rcu_sections::editor::Editor;
use std::alloc::{AllocError, Global};
use target_table::table::Seat;

fn quotas(alloc: Global, editor: u32, each: u32) -> Result<Vec<u32>, AllocError>
    ensures { IfOk result (λ v. v.items ≡ editor ∷ (each ∷ (each ∷ (each ∷ (each ∷ []))))) }
{
    let mut quotas = Vec::new(alloc);
    quotas.push(editor)?;
    quotas.push(each)?;
    quotas.push(each)?;
    quotas.push(each)?;
    quotas.push(each)?;
    Ok(quotas)
}

/// Four seats of one table, with the numbers 1 to 4.
pub struct Queues {
    pub one: Seat<u64>,
    pub two: Seat<u64>,
    pub three: Seat<u64>,
    pub four: Seat<u64>,
}

/// The first four seats of a list.
fn first_four(seats: Vec<Seat<u64>>) -> Queues
    requires many { length seats.items ≡ 4 }
    ensures one { get_elem? seats.items 0 ≡ some result.one }
    ensures two { get_elem? seats.items 1 ≡ some result.two }
    ensures three { get_elem? seats.items 2 ≡ some result.three }
    ensures four { get_elem? seats.items 3 ≡ some result.four }
{
    let mut seats = seats;
    let one = seats.remove(0);
    let two = seats.remove(0);
    let three = seats.remove(0);
    let four = seats.remove(0);
    Queues {
        one,
        two,
        three,
        four,
    }
}

/// A table with an editor that has so many places, and seats 1 to 4 with so many each. Both disks
/// are shown by the number 1.
pub fn five(
    alloc: Global,
    editor: u32,
    each: u32,
) -> Result<(Table, Editor<u64>, Queues), AllocError>
    requires few { (editor < 10000000) × (each < 10000000) }
    ensures key { IfOk result (λ r. r.0.table.shared.key
        ≡ twin_plan (editor ∷ (each ∷ (each ∷ (each ∷ (each ∷ [])))))) }
    ensures editor { IfOk result (λ r. (r.1.seat.base.table_id ≡ r.0.table.shared.table_id)
        × Edits 1 r.1.seat.base.me.0 × (r.1.seats ≡ 5) × (r.1.disks ≡ 2)
        × (r.1.seat.left ≡ editor)) }
    ensures live { IfOk result (λ r. IsIn IsLive 0 r.1.seat.base.me.0
        × IsIn IsLive 1 r.1.seat.base.me.0) }
    ensures one { IfOk result (λ r. IsOpened r.0.table.shared.table_id 1 each r.2.one) }
    ensures two { IfOk result (λ r. IsOpened r.0.table.shared.table_id 2 each r.2.two) }
    ensures three { IfOk result (λ r. IsOpened r.0.table.shared.table_id 3 each r.2.three) }
    ensures four { IfOk result (λ r. IsOpened r.0.table.shared.table_id 4 each r.2.four) }
{
    let quotas = quotas(alloc, editor, each)?;
    let (table, seat, others) = open_twins(alloc, quotas)?;
    let queues = first_four(others);
    let editor = Editor::new(&table, seat, 5, 2);
    Ok((table, editor, queues))
}
