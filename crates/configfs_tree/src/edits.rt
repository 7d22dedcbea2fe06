ghost use Rattle.std.specs.Prelude.{◌≡◌, ◌&&◌};
ghost use Rattle.configfs_tree.specs.Outcome.{nothing, touching, namespace_change, port_change, group_change};
ghost use Rattle.configfs_tree.specs.Asked.{fits};
ghost use Rattle.configfs_tree.specs.Errnos.{name_of};

use configfs_rows::Nqn;
use mem_bdev::Name;

/// A folder of the tree, by the names on its path.
#[derive(Drop)]
pub enum Folder {
    /// `hosts/NQN`
    Host(Nqn),
    /// `subsystems/NQN`
    Subsystem(Nqn),
    /// `subsystems/NQN/namespaces/NSID`
    Namespace(Nqn, u32),
    /// `ports/ID`
    Port(u16),
    /// `ports/ID/ana_groups/ID`
    AnaGroup(u16, u32),
}

/// An attribute of a folder, as nvmet's configfs names it.
#[derive(Clone, Copy, Debug, PartialEq, Eq)]
pub enum Attr {
    /// `attr_allow_any_host` of a subsystem
    AllowAnyHost,
    /// `attr_serial` of a subsystem
    Serial,
    /// `attr_model` of a subsystem
    ModelName,
    /// `device_path` of a namespace
    DevicePath,
    /// `device_uuid` of a namespace
    DeviceUuid,
    /// `device_nguid` of a namespace
    DeviceNguid,
    /// `ana_grpid` of a namespace
    AnaGrpid,
    /// `enable` of a namespace
    Enable,
    /// `addr_trtype` of a port
    Trtype,
    /// `addr_adrfam` of a port
    Adrfam,
    /// `addr_traddr` of a port
    Traddr,
    /// `addr_trsvcid` of a port
    Trsvcid,
    /// `addr_treq` of a port
    Treq,
    /// `ana_state` of an ANA group
    AnaState,
}

/// An edit of a folder: make it, remove it, or write a value into one of its attributes.
#[derive(Drop)]
pub enum FolderEdit {
    Mkdir(Folder),
    Rmdir(Folder),
    Set(Folder, Attr, Name),
}

/// The errnos of refused edits, by their names in Linux.
#[derive(Clone, Copy, Debug, PartialEq, Eq)]
pub enum Errno {
    EPERM,
    ENOENT,
    EACCES,
    EBUSY,
    EEXIST,
    EINVAL,
    ENOTEMPTY,
    ENOSPC,
}

impl Errno {
    /// The errno's name in Linux, as a journal has it.
    pub fn name(&self) -> &'static str
        ensures { result.now ≡ name_of self.now }
    {
        match self {
            Errno::EPERM => "EPERM",
            Errno::ENOENT => "ENOENT",
            Errno::EACCES => "EACCES",
            Errno::EBUSY => "EBUSY",
            Errno::EEXIST => "EEXIST",
            Errno::EINVAL => "EINVAL",
            Errno::ENOTEMPTY => "ENOTEMPTY",
            Errno::ENOSPC => "ENOSPC",
        }
    }
}

/// Why an edit was not made: by the table of edits, or for want of memory. Either leaves the
/// tree as it was.
#[derive(Clone, Copy, Debug, PartialEq, Eq)]
pub enum Refused {
    Errno(Errno),
    Memory,
}

/// The one row whose words may differ after an edit, beside stamps, counts of ANA changes and
/// the disks' words: by the position of its subsystem or its port, with an NSID or a group.
#[derive(Clone, Copy, Debug, PartialEq, Eq)]
pub enum Touched {
    Nothing,
    Namespace(u8, u32),
    Group(u8, u32),
    Port(u8),
    Subsystem(u8),
    Controller(u16),
}

/// What an accepted edit changed. Each part tells of a change of value: to write what stands
/// changes nothing.
#[derive(Clone, Copy, Debug, PartialEq, Eq)]
pub struct Change {
    /// The configuration differs.
    pub published: bool,
    /// The namespace, by its subsystem's position and its NSID, that got enabled or began to
    /// drain.
    pub namespace: Option<(u8, u32)>,
    /// The position of the port with an ANA change.
    pub ana_port: Option<u8>,
    /// The position of the subsystem with an ANA change.
    pub ana_subsystem: Option<u8>,
    /// The edit began the drain of the namespace.
    pub drains: bool,
    /// The row whose words may differ.
    pub touched: Touched,
}

impl Change {
    /// No change.
    pub fn none() -> Self
        ensures { result ≡ nothing }
    {
        Change {
            published: false,
            namespace: None,
            ana_port: None,
            ana_subsystem: None,
            drains: false,
            touched: Touched::Nothing,
        }
    }

    /// A change of a row.
    pub fn of(touched: Touched) -> Self
        ensures { result ≡ touching touched }
    {
        let mut change = Change::none();
        change.published = true;
        change.touched = touched;
        change
    }

    /// A namespace gets enabled, or begins to drain.
    pub fn of_namespace(at: u8, nsid: u32, drains: bool) -> Self
        ensures { result ≡ namespace_change at nsid drains }
    {
        let mut change = Change::of(Touched::Namespace(at, nsid));
        change.namespace = Some((at, nsid));
        change.drains = drains;
        change
    }

    /// An ANA change of a port, by its position and the group.
    pub fn of_port(at: u8, group: u32) -> Self
        ensures { result ≡ port_change at group }
    {
        let mut change = Change::of(Touched::Group(at, group));
        change.ana_port = Some(at);
        change
    }

    /// An ANA change of a subsystem, by its position and the NSID of the namespace that came
    /// into another group.
    pub fn of_group(at: u8, nsid: u32) -> Self
        ensures { result ≡ group_change at nsid }
    {
        let mut change = Change::of(Touched::Namespace(at, nsid));
        change.ana_subsystem = Some(at);
        change
    }
}

impl Folder {
    /// Whether the folder has the attribute.
    pub fn has(&self, attr: Attr) -> bool
        ensures { result ≡ fits self.now attr }
    {
        match self {
            Folder::Host(_) => false,
            Folder::Subsystem(_) => {
                matches!(attr, Attr::AllowAnyHost | Attr::Serial | Attr::ModelName)
            }
            Folder::Namespace(_, _) => matches!(
                attr,
                Attr::DevicePath
                    | Attr::DeviceUuid
                    | Attr::DeviceNguid
                    | Attr::AnaGrpid
                    | Attr::Enable
            ),
            Folder::Port(_) => matches!(
                attr,
                Attr::Trtype | Attr::Adrfam | Attr::Traddr | Attr::Trsvcid | Attr::Treq
            ),
            Folder::AnaGroup(_, _) => matches!(attr, Attr::AnaState),
        }
    }
}
