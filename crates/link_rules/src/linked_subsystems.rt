// Edits of the links from ports to subsystems, each by its rows of the table.
ghost use Rattle.std.specs.Prelude.{◌≡◌, IfOk, true};
ghost use Rattle.configfs_tree.specs.Gives.{Gives, GivesErrno};
ghost use Rattle.configfs_tree.specs.Stays.{Stays};
ghost use Rattle.configfs_tree.specs.Told.{Tells};
ghost use Rattle.link_rules.specs.Table.{link_subsystem, unlink_subsystem};

use crate::found::{port_of, subsystem_of};
use configfs_tree::{Change, Errno, Nqn, Refused, Touched, Tree};

#[tactic(auto, unfolding(crate::specs::Table::link_subsystem, configfs_tree::specs::Outcome::first_of, configfs_tree::specs::Outcome::if_subsystem, configfs_tree::specs::Outcome::if_port))]
pub(crate) fn link_subsystem(t: &mut Tree, id: u16, sub: &Nqn) -> Result<Change, Refused>
    ensures gives { Gives true (link_subsystem t.old id sub.now) t.old result t.new }
    ensures stays { IfOk result (λ _. Stays t.old t.new) }
    ensures tells { IfOk result (λ change. Tells t.old t.new change) }
{
    let Some(port) = port_of(t, id) else {
        return Err(Refused::Errno(Errno::ENOENT));
    };
    let port_at = port.at;
    let is_linked = port.links.contains(sub);
    let is_loop = port.trtype.as_bytes() == b"loop".as_slice();
    let Some(row) = subsystem_of(t, sub) else {
        return Err(Refused::Errno(Errno::ENOENT));
    };
    let at = row.at;
    if is_linked {
        return Err(Refused::Errno(Errno::EEXIST));
    }
    if !is_loop {
        return Err(Refused::Errno(Errno::EINVAL));
    }
    if t.set_link(port_at, at, true).is_err() {
        return Err(Refused::Memory);
    }
    Ok(Change::of(Touched::Port(port_at)))
}

#[tactic(auto, unfolding(crate::specs::Table::unlink_subsystem, configfs_tree::specs::Outcome::first_of, configfs_tree::specs::Outcome::if_subsystem, configfs_tree::specs::Outcome::if_port))]
pub(crate) fn unlink_subsystem(t: &mut Tree, id: u16, sub: &Nqn) -> Result<Change, Errno>
    ensures gives { GivesErrno (unlink_subsystem t.old id sub.now) t.old result t.new }
    ensures stays { IfOk result (λ _. Stays t.old t.new) }
    ensures tells { IfOk result (λ change. Tells t.old t.new change) }
{
    let Some(port) = port_of(t, id) else {
        return Err(Errno::ENOENT);
    };
    let port_at = port.at;
    let is_linked = port.links.contains(sub);
    let Some(row) = subsystem_of(t, sub) else {
        return Err(Errno::ENOENT);
    };
    let at = row.at;
    if !is_linked {
        return Err(Errno::ENOENT);
    }
    let _ = t.set_link(port_at, at, false);
    Ok(Change::of(Touched::Port(port_at)))
}
