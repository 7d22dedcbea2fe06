// Edits of subsystems, each by its rows of the table.
ghost use Rattle.std.specs.Prelude.{true};
ghost use Rattle.configfs_tree.specs.Gives.{Gives, GivesErrno};
ghost use Rattle.configfs_tree.specs.Table.{mkdir_subsystem, rmdir_subsystem, set_attr_allow_any_host, set_attr_serial, set_attr_model};

use crate::configuration::Configuration;
use crate::edits::{Change, Errno, Refused, Touched};
use configfs_rows::{MAX_SUBSYSTEMS, MODEL_LEN, Nqn, SERIAL_LEN, SubsystemPut, SubsystemRow};
use mem_bdev::Name;
use std::alloc::Global;

impl Configuration {
    #[tactic(auto, unfolding(crate::specs::Table::mkdir_subsystem, crate::specs::Outcome::first_of))]
    pub(crate) fn mkdir_subsystem(&mut self, alloc: Global, sub: &Nqn) -> Result<Change, Refused>
        ensures { Gives true (mkdir_subsystem self.old sub.now) self.old result self.new }
    {
        if sub.as_bytes() == b"nqn.2014-08.org.nvmexpress.discovery".as_slice() {
            return Err(Refused::Errno(Errno::EINVAL));
        }
        if self.settings.subsystems.get(sub).is_some() {
            return Err(Refused::Errno(Errno::EEXIST));
        }
        if self.settings.subsystems.len() >= MAX_SUBSYSTEMS {
            return Err(Refused::Errno(Errno::ENOSPC));
        }
        let at = self.settings.subsystems.free_place();
        let Ok(row) = SubsystemRow::fresh(alloc, sub, at) else {
            return Err(Refused::Memory);
        };
        if self.settings.subsystems.add(sub.copied(), row).is_err() {
            return Err(Refused::Memory);
        }
        Ok(Change::of(Touched::Subsystem(at)))
    }

    #[tactic(auto, unfolding(crate::specs::Table::rmdir_subsystem, crate::specs::Outcome::first_of, crate::specs::Outcome::if_subsystem))]
    pub(crate) fn rmdir_subsystem(&mut self, sub: &Nqn) -> Result<Change, Errno>
        ensures { GivesErrno (rmdir_subsystem self.old sub.now) self.old result self.new }
    {
        let Some(row) = self.settings.subsystems.get(sub) else {
            return Err(Errno::ENOENT);
        };
        let at = row.at;
        let filled = row.is_filled();
        if self.settings.ports.some_links(sub) {
            return Err(Errno::EBUSY);
        }
        if self.controller_at_subsystem(at) {
            return Err(Errno::EBUSY);
        }
        if filled {
            return Err(Errno::ENOTEMPTY);
        }
        self.settings.subsystems.remove(sub);
        Ok(Change::of(Touched::Subsystem(at)))
    }

    #[tactic(auto, unfolding(crate::specs::Table::set_attr_allow_any_host, crate::specs::Outcome::first_of, crate::specs::Outcome::unless_stands, crate::specs::Outcome::if_subsystem))]
    pub(crate) fn set_attr_allow_any_host(
        &mut self,
        sub: &Nqn,
        value: &[u8],
    ) -> Result<Change, Errno>
        ensures { GivesErrno (set_attr_allow_any_host self.old sub.now value.now) self.old result
            self.new }
    {
        let Some(row) = self.settings.subsystems.get(sub) else {
            return Err(Errno::ENOENT);
        };
        let at = row.at;
        let any = value == b"1".as_slice();
        if !any && value != b"0".as_slice() {
            return Err(Errno::EINVAL);
        }
        if any && row.allowed_hosts.len() > 0 {
            return Err(Errno::EINVAL);
        }
        if row.allow_any_host == any {
            return Ok(Change::none());
        }
        self.settings
            .subsystems
            .put(sub, SubsystemPut::AllowAnyHost(any));
        Ok(Change::of(Touched::Subsystem(at)))
    }

    #[tactic(auto, unfolding(crate::specs::Table::set_attr_serial, crate::specs::Outcome::first_of, crate::specs::Outcome::unless_stands, crate::specs::Outcome::if_subsystem))]
    pub(crate) fn set_attr_serial(
        &mut self,
        alloc: Global,
        sub: &Nqn,
        value: &[u8],
    ) -> Result<Change, Refused>
        ensures { Gives true (set_attr_serial self.old sub.now value.now) self.old result self.new }
    {
        let Some(row) = self.settings.subsystems.get(sub) else {
            return Err(Refused::Errno(Errno::ENOENT));
        };
        let at = row.at;
        if value.len() > SERIAL_LEN || self.controller_at_subsystem(at) {
            return Err(Refused::Errno(Errno::EINVAL));
        }
        if row.serial.as_bytes() == value {
            return Ok(Change::none());
        }
        let Ok(serial) = Name::copied(alloc, value) else {
            return Err(Refused::Memory);
        };
        self.settings
            .subsystems
            .put(sub, SubsystemPut::Serial(serial));
        Ok(Change::of(Touched::Subsystem(at)))
    }

    #[tactic(auto, unfolding(crate::specs::Table::set_attr_model, crate::specs::Outcome::first_of, crate::specs::Outcome::unless_stands, crate::specs::Outcome::if_subsystem))]
    pub(crate) fn set_attr_model(
        &mut self,
        alloc: Global,
        sub: &Nqn,
        value: &[u8],
    ) -> Result<Change, Refused>
        ensures { Gives true (set_attr_model self.old sub.now value.now) self.old result self.new }
    {
        let Some(row) = self.settings.subsystems.get(sub) else {
            return Err(Refused::Errno(Errno::ENOENT));
        };
        let at = row.at;
        if value.is_empty() || value.len() > MODEL_LEN || self.controller_at_subsystem(at) {
            return Err(Refused::Errno(Errno::EINVAL));
        }
        if row.model_name.as_bytes() == value {
            return Ok(Change::none());
        }
        let Ok(name) = Name::copied(alloc, value) else {
            return Err(Refused::Memory);
        };
        self.settings
            .subsystems
            .put(sub, SubsystemPut::ModelName(name));
        Ok(Change::of(Touched::Subsystem(at)))
    }
}
