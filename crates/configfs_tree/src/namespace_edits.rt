// Edits of namespaces, each by its rows of the table, and the end of a drain.
ghost use Rattle.std.specs.Prelude.{◌≡◌, true, Some, codes, IsTrue, IfOk};
ghost use Rattle.configfs_tree.specs.Drained.{drained};
ghost use Rattle.configfs_tree.specs.Gives.{Gives, GivesErrno};
ghost use Rattle.configfs_tree.specs.Phases.{phase_at};
ghost use Rattle.configfs_tree.specs.Table.{mkdir_namespace, rmdir_namespace, set_device_path, set_identifier, set_ana_grpid, set_enable};
ghost use Rattle.configfs_tree.specs.Told.{Tells};
ghost use Rattle.configfs_rows.specs.Values.{is_text};

use crate::configuration::{Configuration, count_up};
use crate::edits::{Change, Errno, Refused, Touched};
use crate::tree::Tree;
use configfs_rows::{
    Holder, Identifier, MAX_NSID, NamespacePut, Nqn, Phase, group_number, has_path, may_be_path,
    parse_uuid,
};
use mem_bdev::Name;
use std::alloc::Global;

impl Configuration {
    #[tactic(auto, unfolding(crate::specs::Table::mkdir_namespace, crate::specs::Outcome::first_of, crate::specs::Outcome::if_subsystem))]
    pub(crate) fn mkdir_namespace(&mut self, sub: &Nqn, nsid: u32) -> Result<Change, Refused>
        ensures { Gives true (mkdir_namespace self.old sub.now nsid) self.old result self.new }
    {
        let Some(row) = self.settings.subsystems.get(sub) else {
            return Err(Refused::Errno(Errno::ENOENT));
        };
        let at = row.at;
        if nsid == 0 || nsid > MAX_NSID {
            return Err(Refused::Errno(Errno::EINVAL));
        }
        if row.namespaces.get(nsid).is_some() {
            return Err(Refused::Errno(Errno::EEXIST));
        }
        if self.settings.subsystems.add_namespace(sub, nsid).is_err() {
            return Err(Refused::Memory);
        }
        Ok(Change::of(Touched::Namespace(at, nsid)))
    }

    #[tactic(auto, unfolding(crate::specs::Table::rmdir_namespace, crate::specs::Outcome::first_of, crate::specs::Outcome::if_rows))]
    pub(crate) fn rmdir_namespace(&mut self, sub: &Nqn, nsid: u32) -> Result<Change, Errno>
        ensures { GivesErrno (rmdir_namespace self.old sub.now nsid) self.old result self.new }
    {
        let Some((row, namespace)) = self.settings.find_namespace(sub, nsid) else {
            return Err(Errno::ENOENT);
        };
        let at = row.at;
        if self.is_busy(at, nsid, namespace) {
            return Err(Errno::EBUSY);
        }
        self.settings.subsystems.remove_namespace(sub, nsid);
        Ok(Change::of(Touched::Namespace(at, nsid)))
    }

    #[tactic(auto, unfolding(crate::specs::Table::set_device_path, crate::specs::Outcome::first_of, crate::specs::Outcome::unless_stands, crate::specs::Outcome::if_rows))]
    pub(crate) fn set_device_path(
        &mut self,
        alloc: Global,
        sub: &Nqn,
        nsid: u32,
        value: &[u8],
    ) -> Result<Change, Refused>
        ensures { Gives true (set_device_path self.old sub.now nsid value.now) self.old result
            self.new }
    {
        let Some((row, namespace)) = self.settings.find_namespace(sub, nsid) else {
            return Err(Refused::Errno(Errno::ENOENT));
        };
        let at = row.at;
        if self.is_busy(at, nsid, namespace) {
            return Err(Refused::Errno(Errno::EBUSY));
        }
        if !may_be_path(value) {
            return Err(Refused::Errno(Errno::EINVAL));
        }
        if has_path(&namespace.device_path, value) {
            return Ok(Change::none());
        }
        let disk = self.disks.number(value);
        let Ok(path) = Name::copied(alloc, value) else {
            return Err(Refused::Memory);
        };
        self.settings
            .subsystems
            .put_namespace(sub, nsid, NamespacePut::Path(path, disk));
        Ok(Change::of(Touched::Namespace(at, nsid)))
    }

    #[tactic(auto, unfolding(crate::specs::Table::set_identifier, crate::specs::Outcome::first_of, crate::specs::Outcome::unless_stands, crate::specs::Outcome::if_rows))]
    pub(crate) fn set_identifier(
        &mut self,
        sub: &Nqn,
        nsid: u32,
        which: Identifier,
        value: &[u8],
    ) -> Result<Change, Errno>
        ensures { GivesErrno (set_identifier self.old sub.now nsid which value.now) self.old result
            self.new }
    {
        let Some((row, namespace)) = self.settings.find_namespace(sub, nsid) else {
            return Err(Errno::ENOENT);
        };
        let at = row.at;
        if self.is_busy(at, nsid, namespace) {
            return Err(Errno::EBUSY);
        }
        let Some(bytes) = parse_uuid(value) else {
            return Err(Errno::EINVAL);
        };
        if namespace.identifier(which).as_slice() == bytes.as_slice() {
            return Ok(Change::none());
        }
        self.settings
            .subsystems
            .put_namespace(sub, nsid, NamespacePut::Identifier(which, bytes));
        Ok(Change::of(Touched::Namespace(at, nsid)))
    }

    #[tactic(auto, unfolding(crate::specs::Table::set_ana_grpid, crate::specs::Outcome::first_of, crate::specs::Outcome::unless_stands, crate::specs::Outcome::if_rows))]
    pub(crate) fn set_ana_grpid(
        &mut self,
        sub: &Nqn,
        nsid: u32,
        value: &[u8],
    ) -> Result<Change, Errno>
        ensures { GivesErrno (set_ana_grpid self.old sub.now nsid value.now) self.old result
            self.new }
    {
        let Some((row, namespace)) = self.settings.find_namespace(sub, nsid) else {
            return Err(Errno::ENOENT);
        };
        let at = row.at;
        let Some(group) = group_number(value) else {
            return Err(Errno::EINVAL);
        };
        if namespace.group == group {
            return Ok(Change::none());
        }
        self.settings
            .subsystems
            .put_namespace(sub, nsid, NamespacePut::Group(group));
        self.settings.ana_count = count_up(self.settings.ana_count);
        Ok(Change::of_group(at, nsid))
    }

    #[tactic(auto, unfolding(crate::specs::Table::set_enable, crate::specs::Outcome::first_of, crate::specs::Outcome::unless_stands, crate::specs::Outcome::either, crate::specs::Outcome::if_rows))]
    pub(crate) fn set_enable(&mut self, sub: &Nqn, nsid: u32, value: &[u8]) -> Result<Change, Errno>
        ensures { GivesErrno (set_enable self.old sub.now nsid value.now) self.old result self.new }
    {
        let Some((row, namespace)) = self.settings.find_namespace(sub, nsid) else {
            return Err(Errno::ENOENT);
        };
        let at = row.at;
        let was = namespace.enabled;
        if value == b"0".as_slice() {
            if !was {
                return Ok(Change::none());
            }
            self.settings
                .subsystems
                .put_namespace(sub, nsid, NamespacePut::Enabled(false));
            return Ok(Change::of_namespace(at, nsid, true));
        }
        if value != b"1".as_slice() {
            return Err(Errno::EINVAL);
        }
        if was {
            return Ok(Change::none());
        }
        if self.disks.holds(at, nsid, &namespace.device_path) {
            return Err(Errno::EBUSY);
        }
        if !self.disks.has(&namespace.device_path) {
            return Err(Errno::ENOENT);
        }
        if self.disks.is_held(&namespace.device_path) {
            return Err(Errno::EBUSY);
        }
        if let Some(path) = &namespace.device_path {
            self.disks
                .hold(path.as_bytes(), Some(Holder { sub: at, nsid }));
        }
        self.settings
            .subsystems
            .put_namespace(sub, nsid, NamespacePut::Enabled(true));
        Ok(Change::of_namespace(at, nsid, false))
    }

    // Frees the disk that a namespace holds.
    fn free_disk(&mut self, sub: &Nqn, nsid: u32)
        ensures { self.new ≡ drained self.old sub.now nsid }
    {
        let Some((_, namespace)) = self.settings.find_namespace(sub, nsid) else {
            return;
        };
        if let Some(path) = &namespace.device_path {
            self.disks.hold(path.as_bytes(), None);
        }
    }
}

impl Tree {
    /// Makes the edit set `enable` to `0`, without memory: an enabled namespace begins to drain,
    /// another stays as it is. ENOENT is exactly where the subsystem or the namespace isn't there.
    pub fn disable(&mut self, sub: &Nqn, nsid: u32) -> Result<Change, Errno>
        ensures gives { GivesErrno (set_enable self.old sub.now nsid (codes "0")) self.old result
            self.new }
        ensures tells { IfOk result (λ change. Tells self.old self.new change) }
    {
        self.configuration.set_enable(sub, nsid, b"0")
    }

    /// Ends the drain of a namespace that is draining: it becomes off, and its disk is free.
    pub fn end_drain(&mut self, sub: &Nqn, nsid: u32)
        requires { phase_at self.old sub.now nsid ≡ Some Phase.Draining }
        ensures { self.new ≡ drained self.old sub.now nsid }
    {
        self.configuration.free_disk(sub, nsid);
    }
}
