// Edits of ports and their ANA groups, each by its rows of the table.
ghost use Rattle.std.specs.Prelude.{true};
ghost use Rattle.configfs_tree.specs.Gives.{Gives, GivesErrno};
ghost use Rattle.configfs_tree.specs.Table.{mkdir_port, rmdir_port, mkdir_ana_group, rmdir_ana_group, set_address, set_addr_trtype, set_addr_adrfam, set_addr_treq, set_addr_traddr, set_addr_trsvcid, set_ana_state};

use crate::configuration::{Configuration, count_up};
use crate::edits::{Change, Errno, Refused, Touched};
use configfs_rows::{
    Address, MAX_ANA_GROUPS, MAX_PORTS, PortRow, TRADDR_LEN, TRSVCID_LEN, is_adrfam, is_treq,
    is_trtype,
};
use mem_bdev::Name;
use sqe_cqe::Ana;
use std::alloc::Global;

impl Configuration {
    #[tactic(auto, unfolding(crate::specs::Table::mkdir_port, crate::specs::Outcome::first_of))]
    pub(crate) fn mkdir_port(&mut self, alloc: Global, id: u16) -> Result<Change, Refused>
        ensures { Gives true (mkdir_port self.old id) self.old result self.new }
    {
        if self.settings.ports.get(id).is_some() {
            return Err(Refused::Errno(Errno::EEXIST));
        }
        if self.settings.ports.len() >= MAX_PORTS {
            return Err(Refused::Errno(Errno::ENOSPC));
        }
        let at = self.settings.ports.free_place();
        let Ok(row) = PortRow::fresh(alloc, id, at) else {
            return Err(Refused::Memory);
        };
        if self.settings.ports.add(id, row).is_err() {
            return Err(Refused::Memory);
        }
        Ok(Change::of(Touched::Port(at)))
    }

    #[tactic(auto, unfolding(crate::specs::Table::mkdir_ana_group, crate::specs::Outcome::first_of, crate::specs::Outcome::if_port))]
    pub(crate) fn mkdir_ana_group(&mut self, id: u16, group: u32) -> Result<Change, Refused>
        ensures { Gives true (mkdir_ana_group self.old id group) self.old result self.new }
    {
        let Some(row) = self.settings.ports.get(id) else {
            return Err(Refused::Errno(Errno::ENOENT));
        };
        let at = row.at;
        if group == 0 || group > MAX_ANA_GROUPS {
            return Err(Refused::Errno(Errno::EINVAL));
        }
        if row.groups.get(group).is_some() {
            return Err(Refused::Errno(Errno::EEXIST));
        }
        if self
            .settings
            .ports
            .put_group(id, group, Ana::Inaccessible)
            .is_err()
        {
            return Err(Refused::Memory);
        }
        self.settings.ana_count = count_up(self.settings.ana_count);
        Ok(Change::of_port(at, group))
    }

    #[tactic(auto, unfolding(crate::specs::Table::rmdir_port, crate::specs::Outcome::first_of, crate::specs::Outcome::if_port))]
    pub(crate) fn rmdir_port(&mut self, id: u16) -> Result<Change, Errno>
        ensures { GivesErrno (rmdir_port self.old id) self.old result self.new }
    {
        let Some(row) = self.settings.ports.get(id) else {
            return Err(Errno::ENOENT);
        };
        let at = row.at;
        let filled = row.is_filled();
        if self.controller_at_port(at) {
            return Err(Errno::EBUSY);
        }
        if filled {
            return Err(Errno::ENOTEMPTY);
        }
        self.settings.ports.remove(id);
        Ok(Change::of(Touched::Port(at)))
    }

    #[tactic(auto, unfolding(crate::specs::Table::rmdir_ana_group, crate::specs::Outcome::first_of, crate::specs::Outcome::if_port, crate::specs::Outcome::if_group))]
    pub(crate) fn rmdir_ana_group(&mut self, id: u16, group: u32) -> Result<Change, Errno>
        ensures { GivesErrno (rmdir_ana_group self.old id group) self.old result self.new }
    {
        let Some(row) = self.settings.ports.get(id) else {
            return Err(Errno::ENOENT);
        };
        let at = row.at;
        if row.groups.get(group).is_none() {
            return Err(Errno::ENOENT);
        }
        if group == 1 {
            return Err(Errno::EPERM);
        }
        self.settings.ports.remove_group(id, group);
        self.settings.ana_count = count_up(self.settings.ana_count);
        Ok(Change::of_port(at, group))
    }

    // Sets an address, where the value is good.
    #[tactic(auto, unfolding(crate::specs::Outcome::first_of, crate::specs::Outcome::unless_stands, crate::specs::Outcome::if_port))]
    fn set_address(
        &mut self,
        alloc: Global,
        id: u16,
        address: Address,
        good: bool,
        value: &[u8],
    ) -> Result<Change, Refused>
        ensures { Gives true (set_address self.old id address good value.now) self.old result
            self.new }
    {
        let Some(row) = self.settings.ports.get(id) else {
            return Err(Refused::Errno(Errno::ENOENT));
        };
        let at = row.at;
        if row.links.len() > 0 {
            return Err(Refused::Errno(Errno::EACCES));
        }
        if !good {
            return Err(Refused::Errno(Errno::EINVAL));
        }
        if row.address(address).as_bytes() == value {
            return Ok(Change::none());
        }
        let Ok(copy) = Name::copied(alloc, value) else {
            return Err(Refused::Memory);
        };
        self.settings.ports.put(id, address, copy);
        Ok(Change::of(Touched::Port(at)))
    }

    #[tactic(auto, unfolding(crate::specs::Table::set_addr_trtype))]
    pub(crate) fn set_addr_trtype(
        &mut self,
        alloc: Global,
        id: u16,
        value: &[u8],
    ) -> Result<Change, Refused>
        ensures { Gives true (set_addr_trtype self.old id value.now) self.old result self.new }
    {
        self.set_address(alloc, id, Address::Trtype, is_trtype(value), value)
    }

    #[tactic(auto, unfolding(crate::specs::Table::set_addr_adrfam))]
    pub(crate) fn set_addr_adrfam(
        &mut self,
        alloc: Global,
        id: u16,
        value: &[u8],
    ) -> Result<Change, Refused>
        ensures { Gives true (set_addr_adrfam self.old id value.now) self.old result self.new }
    {
        self.set_address(alloc, id, Address::Adrfam, is_adrfam(value), value)
    }

    #[tactic(auto, unfolding(crate::specs::Table::set_addr_treq))]
    pub(crate) fn set_addr_treq(
        &mut self,
        alloc: Global,
        id: u16,
        value: &[u8],
    ) -> Result<Change, Refused>
        ensures { Gives true (set_addr_treq self.old id value.now) self.old result self.new }
    {
        self.set_address(alloc, id, Address::Treq, is_treq(value), value)
    }

    #[tactic(auto, unfolding(crate::specs::Table::set_addr_traddr))]
    pub(crate) fn set_addr_traddr(
        &mut self,
        alloc: Global,
        id: u16,
        value: &[u8],
    ) -> Result<Change, Refused>
        ensures { Gives true (set_addr_traddr self.old id value.now) self.old result self.new }
    {
        let short = value.len() <= TRADDR_LEN;
        self.set_address(alloc, id, Address::Traddr, short, value)
    }

    #[tactic(auto, unfolding(crate::specs::Table::set_addr_trsvcid))]
    pub(crate) fn set_addr_trsvcid(
        &mut self,
        alloc: Global,
        id: u16,
        value: &[u8],
    ) -> Result<Change, Refused>
        ensures { Gives true (set_addr_trsvcid self.old id value.now) self.old result self.new }
    {
        let short = value.len() <= TRSVCID_LEN;
        self.set_address(alloc, id, Address::Trsvcid, short, value)
    }

    #[tactic(auto, unfolding(crate::specs::Table::set_ana_state, crate::specs::Outcome::first_of, crate::specs::Outcome::unless_stands, crate::specs::Outcome::if_port, crate::specs::Outcome::if_group))]
    pub(crate) fn set_ana_state(
        &mut self,
        id: u16,
        group: u32,
        value: &[u8],
    ) -> Result<Change, Errno>
        ensures { GivesErrno (set_ana_state self.old id group value.now) self.old result self.new }
    {
        let Some(row) = self.settings.ports.get(id) else {
            return Err(Errno::ENOENT);
        };
        let at = row.at;
        let Some(state) = row.groups.get(group) else {
            return Err(Errno::ENOENT);
        };
        let Some(new) = Ana::named(value) else {
            return Err(Errno::EINVAL);
        };
        if state.number() == new.number() {
            return Ok(Change::none());
        }
        // A group that is made takes no memory.
        let Ok(()) = self.settings.ports.put_group(id, group, new) else {
            unreachable!()
        };
        self.settings.ana_count = count_up(self.settings.ana_count);
        Ok(Change::of_port(at, group))
    }
}
