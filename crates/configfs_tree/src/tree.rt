ghost use Rattle.std.specs.Prelude.{◌≡◌, ◌<◌, slice_index, Some, IfOk, IfSome, IsTrue, option_copied};
ghost use Rattle.std.specs.List.{slice_get};
ghost use Rattle.std.specs.FinMap as maps;
ghost use Rattle.configfs_tree.specs.Asked.{subsystem_place_taken, port_place_taken};
ghost use Rattle.configfs_rows.specs.declared.limits.TheConstants.{MAX_CONTROLLERS};
ghost use Rattle.configfs_tree.specs.Links.{subsystem_row, port_row, subsystem_place, port_place, place_named, with_attached, with_no_changes};
ghost use Rattle.configfs_tree.specs.Phases.{phase_at};
ghost use Rattle.configfs_tree.specs.Standing.{IsStanding};
ghost use Rattle.configfs_tree.specs.Start.{are_disks, empty_tree};

use crate::configuration::{Configuration, count_at, raise_at};
use configfs_rows::{
    Disks, MAX_CONTROLLERS, Names, Nqn, Phase, PortRow, Ports, SubsystemRow, Subsystems,
};
use mem_bdev::DiskLine;
use std::alloc::{AllocError, Global};
use std::marker::Model;

/// The configuration tree, with the disks that namespaces hold. Contracts see the configuration
/// that it keeps, and the standing facts hold of it at every call.
#[derive(Drop)]
pub struct Tree {
    pub(crate) configuration: Configuration,
}

impl Model for Tree {
    ghost use Rattle.configfs_tree.specs.declared.configuration.Configuration.{Configuration};
    ghost use Rattle.configfs_tree.specs.contracts.configuration.Configuration as row;
    ghost use Rattle.configfs_tree.specs.Standing.{IsStanding};

    ghost Value = { Configuration };

    ghost coded = { row.the_row.coded };

    ghost view = { λ t. t.configuration };

    ghost invariant = { λ t. IsStanding t.configuration };
}

impl Tree {
    /// Says that the standing facts hold, and does nothing.
    pub fn certify(&self)
        ensures { IsStanding self.now }
    {
        let _configuration = &self.configuration;
    }

    /// The empty tree over the disks of a plan, which are at most 64 with differing paths.
    pub fn new(alloc: Global, disks: &[DiskLine]) -> Result<Self, AllocError>
        requires { IsTrue (are_disks disks.now) }
        ensures { IfOk result (λ t. t ≡ empty_tree disks.now) }
    {
        let configuration = Configuration::empty(alloc, disks)?;
        Ok(Tree { configuration })
    }

    /// Makes the counts of changes 0, after the last edit of a configuration that is loaded, and
    /// changes nothing else.
    pub fn end_load(&mut self)
        ensures { self.new ≡ with_no_changes self.old }
    {
        self.configuration.settings.ana_count = 0;
    }

    /// Counts one more controller, at the positions of its subsystem and its port. Fewer than
    /// `MAX_CONTROLLERS` are attached there before (`has_room` tells).
    pub fn attach(&mut self, sub: u8, port: u8)
        requires sub_in_use { IsTrue (subsystem_place_taken self.old sub) }
        requires port_in_use { IsTrue (port_place_taken self.old port) }
        requires sub_room { slice_index self.old.settings.attached.subsystems sub < MAX_CONTROLLERS }
        requires port_room { slice_index self.old.settings.attached.ports port < MAX_CONTROLLERS }
        ensures { self.new ≡ with_attached self.old sub port }
    {
        raise_at(&mut self.configuration.settings.attached.subsystems, sub);
        raise_at(&mut self.configuration.settings.attached.ports, port);
    }

    /// Whether one more controller may be attached at these positions.
    pub fn has_room(&self, sub: u8, port: u8) -> bool
        ensures sub_room { IsTrue result → slice_index self.now.settings.attached.subsystems sub <
            MAX_CONTROLLERS }
        ensures port_room { IsTrue result → slice_index self.now.settings.attached.ports port <
            MAX_CONTROLLERS }
        ensures room { slice_index self.now.settings.attached.subsystems sub < MAX_CONTROLLERS
            → slice_index self.now.settings.attached.ports port < MAX_CONTROLLERS → IsTrue result }
    {
        let attached = &self.configuration.settings.attached;
        count_at(&attached.subsystems, sub) < MAX_CONTROLLERS
            && count_at(&attached.ports, port) < MAX_CONTROLLERS
    }

    /// The phase of a namespace, or `None` exactly where it isn't there.
    pub fn phase(&self, sub: &Nqn, nsid: u32) -> Option<Phase>
        ensures { result ≡ phase_at self.now sub.now nsid }
    {
        let (row, namespace) = self.configuration.settings.find_namespace(sub, nsid)?;
        if namespace.enabled {
            return Some(Phase::Enabled);
        }
        if self
            .configuration
            .disks
            .holds(row.at, nsid, &namespace.device_path)
        {
            return Some(Phase::Draining);
        }
        Some(Phase::Off)
    }

    fn place_of_name(&self, sub: &[u8]) -> Option<u8>
        ensures { result ≡ place_named self.now sub.now }
    {
        let Some(name) = Nqn::read(sub) else {
            return None;
        };
        match self.configuration.settings.subsystems.get(&name) {
            Some(row) => Some(row.at),
            None => None,
        }
    }

    /// The position of the subsystem of a name, or `None` exactly where the bytes are no NQN or
    /// no subsystem has that name. The position is in use.
    pub fn subsystem_at(&self, sub: &[u8]) -> Option<u8>
        ensures is { result ≡ place_named self.now sub.now }
        ensures in_use { IfSome result (λ at. IsTrue (subsystem_place_taken self.now at)) }
    {
        self.place_of_name(sub)
    }

    fn place_of_id(&self, id: u16) -> Option<u8>
        ensures { result ≡ port_place (maps.get self.now.settings.ports id) }
    {
        match self.configuration.settings.ports.get(id) {
            Some(row) => Some(row.at),
            None => None,
        }
    }

    /// The position of the port of an ID, or `None` exactly where there is none. The position is in
    /// use.
    pub fn port_at(&self, id: u16) -> Option<u8>
        ensures is { result ≡ port_place (maps.get self.now.settings.ports id) }
        ensures in_use { IfSome result (λ at. IsTrue (port_place_taken self.now at)) }
    {
        self.place_of_id(id)
    }

    /// The subsystem at a position that is in use.
    pub fn subsystem(&self, at: u8) -> &SubsystemRow
        requires { IsTrue (subsystem_place_taken self.now at) }
        ensures { subsystem_row self.now at ≡ Some result.now }
    {
        match self.configuration.settings.subsystems.at(at) {
            Some(row) => row,
            None => unreachable!(),
        }
    }

    /// The port at a position that is in use.
    pub fn port(&self, at: u8) -> &PortRow
        requires { IsTrue (port_place_taken self.now at) }
        ensures { port_row self.now at ≡ Some result.now }
    {
        match self.configuration.settings.ports.at(at) {
            Some(row) => row,
            None => unreachable!(),
        }
    }

    /// Whether a subsystem stands at the position.
    pub fn is_subsystem_place(&self, at: u8) -> bool
        ensures { result ≡ subsystem_place_taken self.now at }
    {
        self.configuration.settings.subsystems.has_place(at)
    }

    /// Whether a port stands at the position.
    pub fn is_port_place(&self, at: u8) -> bool
        ensures { result ≡ port_place_taken self.now at }
    {
        self.configuration.settings.ports.has_place(at)
    }

    /// The hosts, in byte order under `iter`.
    pub fn hosts(&self) -> &Names
        ensures { result.now ≡ self.now.settings.hosts }
    {
        &self.configuration.settings.hosts
    }

    /// The subsystems, in byte order of NQN under `iter`.
    pub fn subsystems(&self) -> &Subsystems
        ensures { result.now ≡ self.now.settings.subsystems }
    {
        &self.configuration.settings.subsystems
    }

    /// The ports, in the order of IDs under `iter`.
    pub fn ports(&self) -> &Ports
        ensures { result.now ≡ self.now.settings.ports }
    {
        &self.configuration.settings.ports
    }

    /// The disks with their holders, by number.
    pub fn disks(&self) -> &Disks
        ensures { result.now ≡ self.now.disks }
    {
        &self.configuration.disks
    }

    /// The count of ANA changes since loading.
    pub fn ana_count(&self) -> u64
        ensures { result ≡ self.now.settings.ana_count }
    {
        self.configuration.settings.ana_count
    }

    /// Whether the host is there.
    pub fn has_host(&self, host: &Nqn) -> bool
        ensures { result ≡ maps.contains_key self.now.settings.hosts host.now }
    {
        self.configuration.settings.hosts.contains(host)
    }

    /// The host with this number, from 0, in byte order; `None` exactly where there are not more
    /// than so many.
    pub fn nth_host(&self, n: u32) -> Option<&Nqn>
        ensures { option_copied result ≡ slice_get (maps.keys self.now.settings.hosts) n }
    {
        self.configuration.settings.hosts.nth(n as usize)
    }

    fn nth_place(&self, n: u32) -> Option<u8>
        ensures { result ≡ subsystem_place (slice_get (maps.values self.now.settings.subsystems) n) }
    {
        match self.configuration.settings.subsystems.nth(n as usize) {
            Some(row) => Some(row.at),
            None => None,
        }
    }

    /// The position of the subsystem with this number, from 0, in byte order of NQN; `None`
    /// exactly where there are not more than so many. The position is in use.
    pub fn nth_subsystem(&self, n: u32) -> Option<u8>
        ensures is { result ≡ subsystem_place (slice_get (maps.values self.now.settings.subsystems)
            n) }
        ensures in_use { IfSome result (λ at. IsTrue (subsystem_place_taken self.now at)) }
    {
        self.nth_place(n)
    }

    fn nth_port_place(&self, n: u32) -> Option<u8>
        ensures { result ≡ port_place (slice_get (maps.values self.now.settings.ports) n) }
    {
        match self.configuration.settings.ports.nth(n as usize) {
            Some(row) => Some(row.at),
            None => None,
        }
    }

    /// The position of the port with this number, from 0, in the order of IDs; `None` exactly
    /// where there are not more than so many. The position is in use.
    pub fn nth_port(&self, n: u32) -> Option<u8>
        ensures is { result ≡ port_place (slice_get (maps.values self.now.settings.ports) n) }
        ensures in_use { IfSome result (λ at. IsTrue (port_place_taken self.now at)) }
    {
        self.nth_port_place(n)
    }
}
