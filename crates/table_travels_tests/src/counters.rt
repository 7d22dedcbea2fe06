//! The own counters of a killed disk, read out before its fold.
ghost use Rattle.std.specs.Prelude.{◌≡◌};
ghost use Rattle.ref_state.specs.declared.state.Count.{Count};
ghost use Rattle.ref_state.specs.declared.state.Phase.TheVariants.{Folded as IsFolded};
ghost use Rattle.table_seats.specs.Lives.{Edits, passed, killed_life, counted_life};

use ref_state::limits::BIAS;
use std::sync::ledger::Ledger;
use table_rule::ticks::Steps;
use table_seats::ground::Table;
use target_table::table::Seat;

/// Looks at every counter of the killed disk and folds them: the words found, by seat.
pub fn fold_shown<L: Ledger>(
    table: &Table,
    editor: &mut Seat<u64>,
    steps: &mut Steps<L>,
) -> [u64; 3]
    requires own { editor.old.base.table_id ≡ table.now.table.shared.table_id }
    requires plan { table.now.table.shared.key.disks ≡ 1 }
    requires edits { (p : _) × Edits (passed p killed_life) 0 1 editor.old.base.me.0 }
    ensures own { editor.new.base.table_id ≡ editor.old.base.table_id }
    ensures left { editor.new.left ≡ editor.old.left }
    ensures edits { (p : _) × (x : Count) × (y : Count) × (z : Count)
        × Edits (passed p (counted_life IsFolded x y z)) 0 1 editor.new.base.me.0 }
{
    let zeroth = table.look_counter(editor, 0, 0, steps);
    let first = table.look_counter(editor, 0, 1, steps);
    let second = table.look_counter(editor, 0, 2, steps);
    let sum = zeroth.wrapping_add(first).wrapping_add(second);
    table.fold(editor, 0, sum.wrapping_sub(BIAS), steps);
    [zeroth, first, second]
}
