//! The meaning that the tests serve, and tables of it with a seat for each quota.
ghost use Rattle.std.specs.Prelude.{◌≡◌, ◌+◌, ◌<◌, ◌≤◌, ◌∷◌, [], ℕ, IfOk, length, replicate};
ghost use mathlib.Core.Option.{some};
ghost use lib.ListN.{get_elem?};
ghost use Rattle.ref_state.specs.Soundness.{sum_of};
ghost use Rattle.table_rule.specs.Shown.{opened_editor, opened_seat};
ghost use Rattle.table_seats.specs.EndingMeans.{ending_means, small_plan};

use lists::items::Items;
use small_target::Small;
use std::alloc::{AllocError, Global};
use table_rule::meaning::Means;
use target_table::opening::Opening;
use target_table::table::{Seat, TargetTable};

/// The small target as the meaning of a table, in which a drain ends once no command is held. An
/// extent is one number.
pub struct EndingMeaning;

impl Means<u64> for EndingMeaning {
    ghost use Rattle.table_seats.specs.EndingMeans.{ending_means};

    type Target = Small;

    type Fixed = u64;

    type Desk = (u64, u64);

    type Reply = u64;

    ghost means = { ending_means };
}

fn one_row(alloc: Global) -> Result<Vec<u64>, AllocError>
    ensures { IfOk result (λ v. v.items ≡ 1 ∷ []) }
{
    let mut rows = Vec::new(alloc);
    rows.push(1)?;
    Ok(rows)
}

fn eight_extents(alloc: Global) -> Result<Vec<u64>, AllocError>
    ensures { IfOk result (λ v. v.items ≡ replicate 8 0) }
{
    let all = Items::copies(alloc, 8, 0)?;
    Ok(all.into_vec())
}

/// A table of the small target at its start, with a seat for each quota: the editor's, and the
/// others from number 1 on.
pub fn open_small(
    alloc: Global,
    quotas: Vec<u32>,
) -> Result<(TargetTable<u64, EndingMeaning>, Seat<u64>, Vec<Seat<u64>>), AllocError>
    requires seats { (0 < length quotas.items) × (length quotas.items ≤ 32) }
    requires places { sum_of quotas.items < 4294967296 }
    ensures key { IfOk result (λ r. r.0.table.shared.key ≡ small_plan quotas.items) }
    ensures editor { IfOk result (λ r. (r.1.base.table_id ≡ r.0.table.shared.table_id)
        × (r.1.base.me ≡ (opened_editor ending_means r.0.table.shared.key, []))) }
    ensures count { IfOk result (λ r. length r.2.items + 1 ≡ length quotas.items) }
    ensures others { IfOk result (λ r. (j : ℕ) (s : _) → get_elem? r.2.items j ≡ some s
        → (s.base.table_id ≡ r.0.table.shared.table_id)
        × (s.base.me ≡ (opened_seat r.0.table.shared.key (j + 1), []))) }
{
    let rows = one_row(alloc)?;
    let slots = eight_extents(alloc)?;
    TargetTable::<u64, EndingMeaning>::open(
        alloc,
        Opening {
            rows,
            slots,
            quotas,
        },
    )
}
