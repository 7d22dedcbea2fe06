// Laws of saving and loading again, each the contract of a function that does nothing.
ghost use Rattle.std.specs.Prelude.{List};
ghost use Rattle.mem_bdev.specs.declared.disk.DiskLine.{DiskLine as Line};
ghost use Rattle.configfs_tree.specs.Standing.{IsStanding};
ghost use Rattle.configfs_tree.specs.declared.configuration.Configuration as whole;
ghost use Rattle.json_round_trip.specs.Reloads.{HasDisksOf, IsTyped, Reloads};

use crate::typed::certify_types;
use configfs_tree::Tree;
use mem_bdev::DiskLine;

/// What is saved of a configuration that stands is read and, over the same disks, loaded without a
/// refusal, to a configuration that is the same but for its positions, and of which the same text
/// is saved. A namespace that was draining is off then.
pub fn saved_configuration_loads_again()
    ensures { (t : whole.Configuration) → (lines : List Line) → IsStanding t → IsTyped t
        → HasDisksOf lines t → Reloads lines t }
{}

/// So it is of each tree, over the disks that it was made with.
pub fn saved_tree_loads_again(_t: &Tree, _lines: &[DiskLine])
    ensures { HasDisksOf _lines.now _t.now → Reloads _lines.now _t.now }
{
    _t.certify();
    certify_types(_t);
}
