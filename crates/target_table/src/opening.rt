//! The table's opening: its words are laid out, and its seats are made.
ghost use Rattle.std.specs.Prelude.{◌≡◌, ◌≢◌, ◌+◌, ◌*◌, ◌/◌, ◌<◌, ◌≤◌, [], ℕ, length, map, replicate, IfOk, OnOk, Some};
ghost use mathlib.Core.Option.{some};
ghost use lib.ListN.{get_elem?};
ghost use Rattle.ref_state.specs.Soundness.{opened_core, sum_of};
ghost use Rattle.table_rule.specs.Shown.{first, head_or, opened_editor, opened_seat};
ghost use Rattle.table_rule.specs.Words.{Words, IsLaid, width};

use crate::table::{Seat, TargetTable};
use lists::items::Items;
use ref_state::limits::BIAS;
use std::alloc::{AllocError, Global};
use table_rule::meaning::Means;
use table_rule::rule::Plan;

/// What a table is opened with.
#[derive(Drop)]
pub struct Opening<S> {
    /// The words of the configuration at the start, which both sides begin with.
    pub rows: Vec<u64>,
    /// The extents, eight a disk: that of disk `d` and number `x` at 8 `d` + `x`.
    pub slots: Vec<S>,
    /// The places of each seat, the editor's first.
    pub quotas: Vec<u32>,
}

fn zeros(alloc: Global, n: usize) -> Result<Vec<u64>, AllocError>
    ensures { IfOk result (λ v. v.items ≡ replicate n 0) }
{
    let all = Items::copies(alloc, n, 0)?;
    Ok(all.into_vec())
}

fn lay_biases(mut words: Vec<u64>, about: &Plan) -> Vec<u64>
    requires few { (length about.now.quotas ≤ 32) × (about.now.disks ≤ 64)
        × (about.now.slots ≤ 512) }
    requires zeros { IsLaid about.now 0 0 0 [] words.items }
    ensures { IsLaid about.now about.now.disks 0 0 [] result.items }
{
    for disk in 0..about.disks {
        words[2576 + 16 * disk as usize] = BIAS;
    }
    words
}

fn lay_rows(mut words: Vec<u64>, about: &Plan, rows: &[u64]) -> Vec<u64>
    requires few { (length about.now.quotas ≤ 32) × (about.now.disks ≤ 64)
        × (about.now.slots ≤ 512) }
    requires rows { length rows.now ≡ about.now.rows }
    requires biases { IsLaid about.now about.now.disks 0 0 [] words.items }
    ensures { IsLaid about.now about.now.disks about.now.rows about.now.rows rows.now result.items }
{
    for word in 0..rows.len() {
        let at = 7688 + (16 * (word / 8) + word % 8);
        words[at] = rows[word];
        words[at + 8] = rows[word];
    }
    words
}

fn lay_words(alloc: Global, about: &Plan, rows: &[u64]) -> Result<Vec<u64>, AllocError>
    requires few { (length about.now.quotas ≤ 32) × (about.now.disks ≤ 64)
        × (about.now.slots ≤ 512) }
    requires rows { length rows.now ≡ about.now.rows }
    ensures { IfOk result
        (λ v. Words about.now
        (opened_core about.now.quotas about.now.disks about.now.slots rows.now) v.items) }
{
    let words = zeros(alloc, 7688 + 16 * ((rows.len() + 7) / 8))?;
    let words = lay_biases(words, about);
    Ok(lay_rows(words, about, rows))
}

fn filled<S: Drop>(alloc: Global, extents: Vec<S>) -> Result<Vec<Option<S>>, AllocError>
    ensures { IfOk result (λ v. v.items ≡ map Some extents.items) }
{
    let mut slots = Vec::new(alloc);
    for extent in extents {
        slots.push(Some(extent))?;
    }
    Ok(slots)
}

fn deal_all<S: Drop, M: Means<S>>(
    alloc: Global,
    table: &TargetTable<S, M>,
    editor: &mut Seat<S>,
    quotas: &[u32],
) -> Result<Vec<Seat<S>>, AllocError>
    requires own { editor.old.base.table_id ≡ table.now.table.shared.table_id }
    requires quotas { quotas.now ≡ table.now.table.shared.key.quotas }
    requires few { (0 < length quotas.now) × (length quotas.now ≤ 32) }
    requires start { editor.old.base.me ≡ (first M.means table.now.table.shared.key, []) }
    ensures own { editor.new.base.table_id ≡ editor.old.base.table_id }
    ensures editor { OnOk result (editor.new.base.me
        ≡ (opened_editor M.means table.now.table.shared.key, [])) }
    ensures count { IfOk result (λ r. length r.items + 1 ≡ length quotas.now) }
    ensures seats { IfOk result (λ r. (j : ℕ) (s : _) → get_elem? r.items j ≡ some s
        → (s.base.table_id ≡ table.now.table.shared.table_id)
        × (s.base.me ≡ (opened_seat table.now.table.shared.key (j + 1), []))) }
{
    let mut others = Vec::new(alloc);
    let mut number: u32 = 1;
    while (number as usize) < quotas.len() {
        let other = table.deal(editor, number, quotas[number as usize]);
        others.push(other)?;
        number += 1;
    }
    Ok(others)
}

impl<S: Drop, M: Means<S>> TargetTable<S, M> {
    /// Opens a table for the start of its meaning: the editor's seat, and the others in the order
    /// of their numbers, from 1 on. Each disk is live and each extent at home. Want of memory drops
    /// the opening.
    pub fn open(
        alloc: Global,
        opening: Opening<S>,
    ) -> Result<(TargetTable<S, M>, Seat<S>, Vec<Seat<S>>), AllocError>
        requires seats { (0 < length opening.quotas.items) × (length opening.quotas.items ≤ 32) }
        requires places { sum_of opening.quotas.items < 4294967296 }
        requires slots { (8 * (length opening.slots.items / 8) ≡ length opening.slots.items)
            × (length opening.slots.items ≤ 512) }
        requires few { length opening.rows.items < 4294967296 }
        requires rows { opening.rows.items ≡ M.means.words M.means.start }
        requires extents { (n : ℕ) (x : S) → get_elem? opening.slots.items n ≡ some x
            → M.means.stands x n M.means.start }
        ensures key { IfOk result (λ r. r.0.table.shared.key
            ≡ record {
              quotas = opening.quotas.items;
              disks = length opening.slots.items / 8;
              slots = length opening.slots.items;
              rows = length opening.rows.items;
            }) }
        ensures editor { IfOk result (λ r. (r.1.base.table_id ≡ r.0.table.shared.table_id)
            × (r.1.base.me ≡ (opened_editor M.means r.0.table.shared.key, []))) }
        ensures count { IfOk result (λ r. length r.2.items + 1 ≡ length opening.quotas.items) }
        ensures others { IfOk result (λ r. (j : ℕ) (s : _) → get_elem? r.2.items j ≡ some s
            → (s.base.table_id ≡ r.0.table.shared.table_id)
            × (s.base.me ≡ (opened_seat r.0.table.shared.key (j + 1), []))) }
    {
        let Opening {
            rows,
            slots,
            quotas,
        } = opening;
        let about = Plan {
            disks: (slots.len() / 8) as u32,
            slots: slots.len() as u32,
            rows: rows.len() as u32,
            quotas: Items::from_vec(quotas),
        };
        let words = lay_words(alloc, &about, rows.as_slice())?;
        let slots = filled(alloc, slots)?;
        let quota = *about.quotas.at(0);
        let (table, mut editor) = TargetTable::with_words(
            alloc,
            words.as_slice(),
            slots,
            &about,
            quota,
        )?;
        let others = deal_all(alloc, &table, &mut editor, about.quotas.as_slice())?;
        Ok((table, editor, others))
    }
}
