// A tree that is saved and loaded again, as over a restart.
ghost use Rattle.std.specs.Prelude.{◌≡◌, true, Decides, IfOk, IsTrue, Ok};
ghost use Rattle.std.specs.List.{All, list_all};
ghost use Rattle.link_rules.specs.Table.{is_fitting};
ghost use Rattle.nvmetcli_json.specs.Loading.{edits_in};
ghost use Rattle.nvmetcli_json.specs.Saving.{saved, tree_data};
ghost use Rattle.tree_target.specs.Loads.{load_from, LoadedTree};
ghost use Rattle.json_round_trip.specs.Reloads.{HasDisksOf, IsAccepted, IsSameTree};

use crate::laws::saved_tree_loads_again;
use configfs_tree::{Refused, Tree};
use link_rules::apply;
use mem_bdev::DiskLine;
use nvmetcli_json::{Edit, Edits, JsonError, load, save};
use std::alloc::{AllocError, Global};

// The edits that the saved text of a tree brings.
fn saved_edits(alloc: Global, t: &Tree) -> Result<Edits, AllocError>
    ensures edits { IfOk result (λ es. edits_in (tree_data t.now) ≡ Ok es) }
    ensures fitting { IfOk result (λ es. list_all is_fitting es ≡ true) }
{
    let text = save(alloc, t)?;
    match load(alloc, &text) {
        Ok(loaded) => Ok(loaded.edits),
        Err(JsonError::Memory) => Err(AllocError),
        Err(_) => unreachable!(),
    }
}

// The tree after edits that are all accepted, one after another.
fn make_edits(alloc: Global, tree: Tree, edits: &[Edit]) -> Result<Tree, AllocError>
    requires fitting { All (λ e. IsTrue (is_fitting e)) edits.now }
    requires accepted { IsAccepted tree edits.now }
    ensures { IfOk result (λ u. load_from 1 tree edits.now ≡ LoadedTree u) }
{
    let mut made = tree;
    for (i, e) in edits.iter().enumerate() {
        match apply(alloc, &mut made, e) {
            Ok(_) => {}
            Err(Refused::Memory) => return Err(AllocError),
            Err(Refused::Errno(_)) => unreachable!(),
        }
    }
    Ok(made)
}

/// Whether the disks of a tree are those of a plan, in its order: they have the same paths.
pub fn has_disks_of(t: &Tree, lines: &[DiskLine]) -> bool
    ensures { Decides result (HasDisksOf lines.now t.now) }
{
    t.certify();
    let disks = t.disks();
    if disks.len() != lines.len() {
        return false;
    }
    for (i, line) in lines.iter().enumerate() {
        let Some(row) = disks.get(i as u8) else {
            return false;
        };
        if row.path.as_bytes() != line.path.as_bytes() {
            return false;
        }
    }
    true
}

/// Saves a tree in nvmetcli's JSON and loads the text over the same disks (`has_disks_of` tells):
/// the tree as a saved file brings it back. It is the same but for its positions, its holders and
/// its counts, so that a namespace that was draining is off, and of it the same text is saved. What
/// is saved is always read, and none of its edits is refused: only memory may be wanting. The tree
/// that was saved stays.
pub fn reload_tree(alloc: Global, t: &Tree, lines: &[DiskLine]) -> Result<Tree, AllocError>
    requires { HasDisksOf lines.now t.now }
    ensures tree { IfOk result (λ u. IsSameTree t.now u) }
    ensures text { IfOk result (λ u. saved u ≡ saved t.now) }
{
    t.certify();
    saved_tree_loads_again(t, lines);
    let edits = saved_edits(alloc, t)?;
    let empty = Tree::new(alloc, lines)?;
    make_edits(alloc, empty, edits.as_slice())
}
