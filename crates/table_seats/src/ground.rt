//! A small table with three seats.
ghost use Rattle.std.specs.Prelude.{◌≡◌, ◌≢◌, ◌<◌, ◌≤◌, ◌∷◌, [], IfOk};
ghost use Rattle.table_seats.specs.EndingMeans.{ending_means, small_plan};
ghost use Rattle.table_rule.specs.Shown.{opened_editor, opened_seat};

use crate::meaning::{EndingMeaning, open_small};
use std::alloc::{AllocError, Global};
use target_table::table::{Seat, TargetTable};

/// A table of the small target.
pub type Table = TargetTable<u64, EndingMeaning>;

fn quotas(alloc: Global, each: u32) -> Result<Vec<u32>, AllocError>
    ensures { IfOk result (λ v. v.items ≡ each ∷ (each ∷ (each ∷ []))) }
{
    let mut quotas = Vec::new(alloc);
    quotas.push(each)?;
    quotas.push(each)?;
    quotas.push(each)?;
    Ok(quotas)
}

/// A table with the editor's seat and seats 1 and 2, each with this many places.
pub fn three(
    alloc: Global,
    each: u32,
) -> Result<(Table, Seat<u64>, Seat<u64>, Seat<u64>), AllocError>
    requires few { each < 1000000 }
    ensures key { IfOk result (λ r. r.0.table.shared.key
        ≡ small_plan (each ∷ (each ∷ (each ∷ [])))) }
    ensures editor { IfOk result (λ r. (r.1.base.table_id ≡ r.0.table.shared.table_id)
        × (r.1.base.me ≡ (opened_editor ending_means r.0.table.shared.key, []))) }
    ensures one { IfOk result (λ r. (r.2.base.table_id ≡ r.0.table.shared.table_id)
        × (r.2.base.me ≡ (opened_seat r.0.table.shared.key 1, []))) }
    ensures two { IfOk result (λ r. (r.3.base.table_id ≡ r.0.table.shared.table_id)
        × (r.3.base.me ≡ (opened_seat r.0.table.shared.key 2, []))) }
{
    let quotas = quotas(alloc, each)?;
    let (table, editor, mut others) = open_small(alloc, quotas)?;
    let one = others.remove(0);
    let two = others.remove(0);
    Ok((table, editor, one, two))
}
