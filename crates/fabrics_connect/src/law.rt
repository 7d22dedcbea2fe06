// Laws of the definitions, each the contract of a function that does nothing.
ghost use Rattle.std.specs.Prelude.{◌≡◌, ◌↔◌, ◌≤◌, ℕ, IsTrue, true};
ghost use Rattle.fabrics_connect.specs.Checks.{is_served};
ghost use Rattle.fabrics_connect.specs.Laws.{ConnectsJustThisQid, IsServedByName, KeptNamesTheSame, ReadyAfterSet};

use configfs_tree::{Tree, port_positions, subsystem_positions};
use sqe_cqe::ConnectData;

/// A Connect of an I/O queue connects its QID, and leaves every other as it is.
pub fn connects_just_this_qid()
    ensures { ConnectsJustThisQid }
{}

/// The check of a subsystem, which goes by positions, by names: the port with the queue's ID is
/// there, the subsystem that the data name is there, and the port links that name.
pub fn served_by_name(_t: &Tree, _id: u16, _d: &ConnectData)
    ensures { is_served _t.now _id _d.now ≡ true ↔ IsServedByName _t.now _id _d.now }
{
    _t.certify();
    subsystem_positions(_t);
    port_positions(_t);
}

/// A controller is ready after a Property Set of CC exactly where EN is set, no shutdown begins,
/// and it was ready before, or is enabled now with sizes that are known.
pub fn ready_after_set()
    ensures { ReadyAfterSet }
{}

/// What a controller keeps of its host's field names the same as the field: zeros after the name
/// change no name, and a field that names nothing stays one.
pub fn kept_names_the_same()
    ensures { KeptNamesTheSame }
{}
