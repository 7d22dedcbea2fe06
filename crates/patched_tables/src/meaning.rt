//! Patches as the meaning of a table's edits.
ghost use Rattle.std.specs.Prelude.{ℕ, List, []};

use std::collections::LinkedList;
use std::marker::{Brand, PhantomData};
use table_rule::meaning::Means;
use target_table::table::TargetTable;

/// The words that a table is opened with, and by its number the patch of each edit.
pub trait Patches {
    ghost opened: { List ℕ };

    ghost patches: { List (List (ℕ × ℕ)) };
}

impl Patches for Brand {
    ghost opened = { [] };

    ghost patches = { [] };
}

/// Words, of which each edit sets those of its patch. No command is ever held, and no value of it
/// is made.
pub struct PatchMeaning<I> {
    patches: PhantomData<I>,
}

impl<I: Patches> Means<u64> for PatchMeaning<I> {
    ghost use Rattle.patched_tables.specs.Patching.{patch_means};

    type Target = LinkedList<u64>;

    type Fixed = LinkedList<u64>;

    type Desk = LinkedList<u64>;

    type Reply = u64;

    ghost means = { patch_means I.opened I.patches };
}

/// A table whose edits are patches.
pub type Table<I> = TargetTable<u64, PatchMeaning<I>>;
