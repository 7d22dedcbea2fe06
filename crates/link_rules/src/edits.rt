ghost use Rattle.std.specs.Prelude.{◌≡◌};
ghost use Rattle.link_rules.specs.Table.{is_fitting};

use configfs_tree::{FolderEdit, Nqn};

/// An edit of a link, by the names of its two ends.
#[derive(Drop)]
pub enum LinkEdit {
    /// Make `subsystems/NQN/allowed_hosts/HOST`: the subsystem, then the host.
    AllowHost(Nqn, Nqn),
    /// Take `subsystems/NQN/allowed_hosts/HOST` away: the subsystem, then the host.
    DisallowHost(Nqn, Nqn),
    /// Make `ports/ID/subsystems/NQN`: the port, then the subsystem.
    LinkSubsystem(u16, Nqn),
    /// Take `ports/ID/subsystems/NQN` away: the port, then the subsystem.
    UnlinkSubsystem(u16, Nqn),
}

/// An edit of the configuration: of a folder, or of a link.
#[derive(Drop)]
pub enum Edit {
    Folder(FolderEdit),
    Link(LinkEdit),
}

impl Edit {
    /// Whether an attribute that it sets is one of the folder's and the value holds bytes from 20h
    /// to 7Eh only, as of each edit that is read.
    pub fn is_fitting(&self) -> bool
        ensures { result ≡ is_fitting self.now }
    {
        match self {
            Edit::Folder(e) => e.is_fitting(),
            Edit::Link(_) => true,
        }
    }
}
