ghost use Rattle.std.specs.Prelude.{◌≡◌, true, IsTrue, IfOk};
ghost use Rattle.configfs_tree.specs.Asked.{is_fitting, is_text_attr, may_grow, has_name, is_named};
ghost use Rattle.configfs_tree.specs.Stays.{Stays};
ghost use Rattle.configfs_tree.specs.Gives.{Gives, GivesErrno, with_errno};
ghost use Rattle.configfs_tree.specs.Table.{edit_outcome, mkdir, rmdir, set_of_subsystem, set_of_namespace, set_of_port, set_of_group};
ghost use Rattle.configfs_tree.specs.Told.{Tells};
ghost use Rattle.configfs_rows.specs.Values.{is_text};

use crate::configuration::Configuration;
use crate::edits::{Attr, Change, Errno, Folder, FolderEdit, Refused};
use crate::tree::Tree;
use configfs_rows::{Identifier, Nqn, may_be_text};
use std::alloc::Global;

impl FolderEdit {
    /// Whether the attribute is one of the folder's and the value holds bytes from 20h to 7Eh
    /// only, as of each edit that is read.
    pub fn is_fitting(&self) -> bool
        ensures { result ≡ is_fitting self.now }
    {
        match self {
            FolderEdit::Mkdir(_) => true,
            FolderEdit::Rmdir(_) => true,
            FolderEdit::Set(folder, attr, value) => {
                folder.has(*attr) && may_be_text(value.as_bytes())
            }
        }
    }
}

// Says that the name of a folder is an NQN.
fn certify_name(folder: &Folder)
    ensures { IsTrue (has_name folder.now) }
{
    match folder {
        Folder::Host(name) => name.certify(),
        Folder::Subsystem(name) => name.certify(),
        Folder::Namespace(name, _) => name.certify(),
        Folder::Port(_) => {}
        Folder::AnaGroup(_, _) => {}
    }
}

// Says that the name of an edit's folder is an NQN.
fn certify_names(e: &FolderEdit)
    ensures { IsTrue (is_named e.now) }
{
    match e {
        FolderEdit::Mkdir(folder) => certify_name(folder),
        FolderEdit::Rmdir(folder) => certify_name(folder),
        FolderEdit::Set(folder, _, _) => certify_name(folder),
    }
}

// An answer that takes no memory as one that may.
fn into_refused(answer: Result<Change, Errno>) -> Result<Change, Refused>
    ensures { result ≡ with_errno answer }
{
    match answer {
        Ok(change) => Ok(change),
        Err(errno) => Err(Refused::Errno(errno)),
    }
}

impl Configuration {
    fn mkdir(&mut self, alloc: Global, folder: &Folder) -> Result<Change, Refused>
        ensures { Gives true (mkdir self.old folder.now) self.old result self.new }
    {
        match folder {
            Folder::Host(host) => self.mkdir_host(host),
            Folder::Subsystem(sub) => self.mkdir_subsystem(alloc, sub),
            Folder::Namespace(sub, nsid) => self.mkdir_namespace(sub, *nsid),
            Folder::Port(id) => self.mkdir_port(alloc, *id),
            Folder::AnaGroup(id, group) => self.mkdir_ana_group(*id, *group),
        }
    }

    fn rmdir(&mut self, folder: &Folder) -> Result<Change, Errno>
        ensures { GivesErrno (rmdir self.old folder.now) self.old result self.new }
    {
        match folder {
            Folder::Host(host) => self.rmdir_host(host),
            Folder::Subsystem(sub) => self.rmdir_subsystem(sub),
            Folder::Namespace(sub, nsid) => self.rmdir_namespace(sub, *nsid),
            Folder::Port(id) => self.rmdir_port(*id),
            Folder::AnaGroup(id, group) => self.rmdir_ana_group(*id, *group),
        }
    }

    fn set_of_subsystem(
        &mut self,
        alloc: Global,
        sub: &Nqn,
        attr: Attr,
        value: &[u8],
    ) -> Result<Change, Refused>
        ensures { Gives (is_text_attr attr) (set_of_subsystem self.old sub.now attr value.now)
            self.old result self.new }
    {
        match attr {
            Attr::AllowAnyHost => into_refused(self.set_attr_allow_any_host(sub, value)),
            Attr::Serial => self.set_attr_serial(alloc, sub, value),
            Attr::ModelName => self.set_attr_model(alloc, sub, value),
            _ => Err(Refused::Errno(Errno::EINVAL)),
        }
    }

    fn set_of_namespace(
        &mut self,
        alloc: Global,
        sub: &Nqn,
        nsid: u32,
        attr: Attr,
        value: &[u8],
    ) -> Result<Change, Refused>
        ensures { Gives (is_text_attr attr) (set_of_namespace self.old sub.now nsid attr value.now)
            self.old result self.new }
    {
        match attr {
            Attr::DevicePath => self.set_device_path(alloc, sub, nsid, value),
            Attr::DeviceUuid => {
                into_refused(self.set_identifier(sub, nsid, Identifier::Uuid, value))
            }
            Attr::DeviceNguid => {
                into_refused(self.set_identifier(sub, nsid, Identifier::Nguid, value))
            }
            Attr::AnaGrpid => into_refused(self.set_ana_grpid(sub, nsid, value)),
            Attr::Enable => into_refused(self.set_enable(sub, nsid, value)),
            _ => Err(Refused::Errno(Errno::EINVAL)),
        }
    }

    fn set_of_port(
        &mut self,
        alloc: Global,
        id: u16,
        attr: Attr,
        value: &[u8],
    ) -> Result<Change, Refused>
        ensures { Gives (is_text_attr attr) (set_of_port self.old id attr value.now) self.old result
            self.new }
    {
        match attr {
            Attr::Trtype => self.set_addr_trtype(alloc, id, value),
            Attr::Adrfam => self.set_addr_adrfam(alloc, id, value),
            Attr::Treq => self.set_addr_treq(alloc, id, value),
            Attr::Traddr => self.set_addr_traddr(alloc, id, value),
            Attr::Trsvcid => self.set_addr_trsvcid(alloc, id, value),
            _ => Err(Refused::Errno(Errno::EINVAL)),
        }
    }

    fn set_of_group(
        &mut self,
        id: u16,
        group: u32,
        attr: Attr,
        value: &[u8],
    ) -> Result<Change, Refused>
        ensures { Gives (is_text_attr attr) (set_of_group self.old id group attr value.now) self.old
            result self.new }
    {
        match attr {
            Attr::AnaState => into_refused(self.set_ana_state(id, group, value)),
            _ => Err(Refused::Errno(Errno::EINVAL)),
        }
    }

    fn edit_folder(&mut self, alloc: Global, e: &FolderEdit) -> Result<Change, Refused>
        ensures { Gives (may_grow e.now) (edit_outcome self.old e.now) self.old result self.new }
    {
        match e {
            FolderEdit::Mkdir(folder) => self.mkdir(alloc, folder),
            FolderEdit::Rmdir(folder) => into_refused(self.rmdir(folder)),
            FolderEdit::Set(Folder::Host(_), _, _) => Err(Refused::Errno(Errno::EINVAL)),
            FolderEdit::Set(Folder::Subsystem(sub), attr, value) => {
                self.set_of_subsystem(alloc, sub, *attr, value.as_bytes())
            }
            FolderEdit::Set(Folder::Namespace(sub, nsid), attr, value) => {
                self.set_of_namespace(alloc, sub, *nsid, *attr, value.as_bytes())
            }
            FolderEdit::Set(Folder::Port(id), attr, value) => {
                self.set_of_port(alloc, *id, *attr, value.as_bytes())
            }
            FolderEdit::Set(Folder::AnaGroup(id, group), attr, value) => {
                self.set_of_group(*id, *group, *attr, value.as_bytes())
            }
        }
    }
}

impl Tree {
    /// Makes an edit of a folder, by the table of edits: it answers what changed, or the errno of
    /// the first row whose condition holds. A refused edit and want of memory leave the tree as
    /// it was. Want of memory comes only of an edit that makes a folder or writes a text, where
    /// the table accepts it and something changes. Where a controller is attached, an accepted
    /// edit leaves the subsystem and the port, at their positions.
    pub fn apply_folder(&mut self, alloc: Global, e: &FolderEdit) -> Result<Change, Refused>
        requires { IsTrue (is_fitting e.now) }
        ensures gives { Gives (may_grow e.now) (edit_outcome self.old e.now) self.old result
            self.new }
        ensures stays { IfOk result (λ _. Stays self.old self.new) }
        ensures tells { IfOk result (λ change. Tells self.old self.new change) }
    {
        certify_names(e);
        self.configuration.edit_folder(alloc, e)
    }
}
