// Edits of the links from subsystems to the hosts that they allow, each by its rows of the table.
ghost use Rattle.std.specs.Prelude.{◌≡◌, IfOk, true};
ghost use Rattle.configfs_tree.specs.Gives.{Gives, GivesErrno};
ghost use Rattle.configfs_tree.specs.Stays.{Stays};
ghost use Rattle.configfs_tree.specs.Told.{Tells};
ghost use Rattle.link_rules.specs.Table.{allow_host, disallow_host};

use crate::found::subsystem_of;
use configfs_tree::{Change, Errno, Nqn, Refused, Touched, Tree};

#[tactic(auto, unfolding(crate::specs::Table::allow_host, configfs_tree::specs::Outcome::first_of, configfs_tree::specs::Outcome::if_subsystem))]
pub(crate) fn allow_host(t: &mut Tree, sub: &Nqn, host: &Nqn) -> Result<Change, Refused>
    ensures gives { Gives true (allow_host t.old sub.now host.now) t.old result t.new }
    ensures stays { IfOk result (λ _. Stays t.old t.new) }
    ensures tells { IfOk result (λ change. Tells t.old t.new change) }
{
    let Some(row) = subsystem_of(t, sub) else {
        return Err(Refused::Errno(Errno::ENOENT));
    };
    let at = row.at;
    let is_linked = row.allowed_hosts.contains(host);
    let allows_any = row.allow_any_host;
    if !t.has_host(host) {
        return Err(Refused::Errno(Errno::ENOENT));
    }
    if is_linked {
        return Err(Refused::Errno(Errno::EEXIST));
    }
    if allows_any {
        return Err(Refused::Errno(Errno::EINVAL));
    }
    if t.set_allowed(at, host, true).is_err() {
        return Err(Refused::Memory);
    }
    Ok(Change::of(Touched::Subsystem(at)))
}

#[tactic(auto, unfolding(crate::specs::Table::disallow_host, configfs_tree::specs::Outcome::first_of, configfs_tree::specs::Outcome::if_subsystem))]
pub(crate) fn disallow_host(t: &mut Tree, sub: &Nqn, host: &Nqn) -> Result<Change, Errno>
    ensures gives { GivesErrno (disallow_host t.old sub.now host.now) t.old result t.new }
    ensures stays { IfOk result (λ _. Stays t.old t.new) }
    ensures tells { IfOk result (λ change. Tells t.old t.new change) }
{
    let Some(row) = subsystem_of(t, sub) else {
        return Err(Errno::ENOENT);
    };
    let at = row.at;
    let is_linked = row.allowed_hosts.contains(host);
    if !t.has_host(host) {
        return Err(Errno::ENOENT);
    }
    if !is_linked {
        return Err(Errno::ENOENT);
    }
    let _ = t.set_allowed(at, host, false);
    Ok(Change::of(Touched::Subsystem(at)))
}
