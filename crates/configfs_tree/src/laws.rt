// Laws of the tree, each the contract of a function that does nothing.
ghost use Rattle.configfs_tree.specs.Standing.{HeldMeansAnother, LiveHoldsDisk};
ghost use Rattle.configfs_tree.specs.Links.{SubsystemPositions, PortPositions};

use crate::tree::Tree;
use configfs_rows::Nqn;

/// Of a namespace that is off: the disk of its path is held,
/// as the last row of set `enable` to `1` asks, exactly where another namespace that is enabled
/// or draining has the same path.
pub fn held_means_another(_t: &Tree, _sub: &Nqn, _nsid: u32)
    ensures { HeldMeansAnother _t.now _sub.now _nsid }
{
    _t.certify();
}

/// A namespace that is enabled or draining keeps the number of the disk that it holds: so the
/// disk is found with no path compared.
pub fn live_holds_disk(_t: &Tree, _sub: &Nqn, _nsid: u32)
    ensures { LiveHoldsDisk _t.now _sub.now _nsid }
{
    _t.certify();
}

/// The subsystem of a name is the one at its position, and the one at a position is found by
/// its name.
pub fn subsystem_positions(_t: &Tree)
    ensures { SubsystemPositions _t.now }
{
    _t.certify();
}

/// The port of an ID is the one at its position, and the one at a position is found by its ID.
pub fn port_positions(_t: &Tree)
    ensures { PortPositions _t.now }
{
    _t.certify();
}
