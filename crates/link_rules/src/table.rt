// The whole table of edits.
ghost use Rattle.std.specs.Prelude.{◌≡◌, IfOk, IsTrue};
ghost use Rattle.configfs_tree.specs.Gives.{Gives, with_errno};
ghost use Rattle.configfs_tree.specs.Stays.{Stays};
ghost use Rattle.configfs_tree.specs.Told.{Tells};
ghost use Rattle.link_rules.specs.Table.{edit_outcome, is_fitting, link_may_grow, link_outcome, may_grow};

use crate::allowed_hosts::{allow_host, disallow_host};
use crate::edits::{Edit, LinkEdit};
use crate::linked_subsystems::{link_subsystem, unlink_subsystem};
use configfs_tree::{Change, Errno, Refused, Tree};
use std::alloc::Global;

// An answer that takes no memory as one that may.
fn refusing(answer: Result<Change, Errno>) -> Result<Change, Refused>
    ensures { result ≡ with_errno answer }
{
    match answer {
        Ok(change) => Ok(change),
        Err(errno) => Err(Refused::Errno(errno)),
    }
}

fn apply_link(t: &mut Tree, e: &LinkEdit) -> Result<Change, Refused>
    ensures gives { Gives (link_may_grow e.now) (link_outcome t.old e.now) t.old result t.new }
    ensures stays { IfOk result (λ _. Stays t.old t.new) }
    ensures tells { IfOk result (λ change. Tells t.old t.new change) }
{
    match e {
        LinkEdit::AllowHost(sub, host) => allow_host(t, sub, host),
        LinkEdit::DisallowHost(sub, host) => refusing(disallow_host(t, sub, host)),
        LinkEdit::LinkSubsystem(id, sub) => link_subsystem(t, *id, sub),
        LinkEdit::UnlinkSubsystem(id, sub) => refusing(unlink_subsystem(t, *id, sub)),
    }
}

/// Makes an edit, by the table of edits: it answers what changed, or the errno of the first row
/// whose condition holds. A refused edit and want of memory leave the tree as it was. Want of
/// memory comes only of an edit that makes a folder or a link or writes a text, where the table
/// accepts it and something changes. Where a controller is attached, an accepted edit leaves the
/// subsystem and the port, at their positions. A link that is made or taken away touches the row
/// that keeps it: the subsystem's, or the port's.
pub fn apply(alloc: Global, t: &mut Tree, e: &Edit) -> Result<Change, Refused>
    requires { IsTrue (is_fitting e.now) }
    ensures gives { Gives (may_grow e.now) (edit_outcome t.old e.now) t.old result t.new }
    ensures stays { IfOk result (λ _. Stays t.old t.new) }
    ensures tells { IfOk result (λ change. Tells t.old t.new change) }
{
    match e {
        Edit::Folder(e) => t.apply_folder(alloc, e),
        Edit::Link(e) => apply_link(t, e),
    }
}
