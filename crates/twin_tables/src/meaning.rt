//! The twin target as the meaning of a table, and tables of it.
ghost use Rattle.std.specs.Prelude.{◌≡◌, ◌+◌, ◌<◌, ◌≤◌, ◌∷◌, [], ℕ, IfOk, length, replicate};
ghost use mathlib.Core.Option.{some};
ghost use lib.ListN.{get_elem?};
ghost use Rattle.ref_state.specs.Soundness.{sum_of};
ghost use Rattle.table_rule.specs.Shown.{opened_editor, opened_seat};
ghost use Rattle.twin_tables.specs.Twins.{twin_means, twin_plan};

use lists::items::Items;
use std::alloc::{AllocError, Global};
use table_rule::meaning::Means;
use target_table::opening::Opening;
use target_table::table::{Seat, TargetTable};

/// Two words of configuration, which each edit sets both to its number.
pub struct TwinMeaning;

impl Means<u64> for TwinMeaning {
    ghost use Rattle.twin_tables.specs.Twins.{twin_means};

    type Target = u64;

    type Fixed = u64;

    type Desk = u64;

    type Reply = u64;

    ghost means = { twin_means };
}

/// A table of the twin target.
pub type Table = TargetTable<u64, TwinMeaning>;

fn two_rows(alloc: Global) -> Result<Vec<u64>, AllocError>
    ensures { IfOk result (λ v. v.items ≡ 1 ∷ (1 ∷ [])) }
{
    let mut rows = Vec::new(alloc);
    rows.push(1)?;
    rows.push(1)?;
    Ok(rows)
}

fn blank_extents(alloc: Global) -> Result<Vec<u64>, AllocError>
    ensures { IfOk result (λ v. v.items ≡ replicate 16 0) }
{
    let all = Items::copies(alloc, 16, 0)?;
    Ok(all.into_vec())
}

/// A table of the twin target at its start, with a seat for each quota: the editor's, and the
/// others from number 1 on.
pub fn open_twins(
    alloc: Global,
    quotas: Vec<u32>,
) -> Result<(Table, Seat<u64>, Vec<Seat<u64>>), AllocError>
    requires seats { (0 < length quotas.items) × (length quotas.items ≤ 32) }
    requires places { sum_of quotas.items < 4294967296 }
    ensures key { IfOk result (λ r. r.0.table.shared.key ≡ twin_plan quotas.items) }
    ensures editor { IfOk result (λ r. (r.1.base.table_id ≡ r.0.table.shared.table_id)
        × (r.1.base.me ≡ (opened_editor twin_means r.0.table.shared.key, []))) }
    ensures count { IfOk result (λ r. length r.2.items + 1 ≡ length quotas.items) }
    ensures others { IfOk result (λ r. (j : ℕ) (s : _) → get_elem? r.2.items j ≡ some s
        → (s.base.table_id ≡ r.0.table.shared.table_id)
        × (s.base.me ≡ (opened_seat r.0.table.shared.key (j + 1), []))) }
{
    let rows = two_rows(alloc)?;
    let slots = blank_extents(alloc)?;
    TargetTable::<u64, TwinMeaning>::open(
        alloc,
        Opening {
            rows,
            slots,
            quotas,
        },
    )
}
