//! The meaning of a run's table.
ghost use Rattle.target_meaning.specs.TreeMeans.{Run, empty_run};

use disk_extents::Extent;
use ref_state::kinds::Tag;
use std::collections::LinkedList;
use std::marker::{Brand, PhantomData};
use table_rule::meaning::Means;
use target_states::parts::{Answer, Desk, Fixed};

/// A run: the target that it begins with, and the capsules and edits that its callers bring.
pub trait Begins {
    ghost run: { Run };
}

impl Begins for Brand {
    ghost run = { empty_run };
}

/// The sequential target as the meaning of the table of the run `I`. A call is named by its tag:
/// the capsule's number in its queue's file, or the number of the script's line. No value of it is
/// made.
pub struct TreeMeaning<I> {
    run: PhantomData<I>,
}

impl<I: Begins> Means<Extent> for TreeMeaning<I> {
    ghost use Rattle.target_meaning.specs.TreeMeans.{tree_means};

    type Target = LinkedList<Tag>;

    type Fixed = Fixed;

    type Desk = Desk;

    type Reply = Answer;

    ghost means = { tree_means I.run };
}
