// The two kinds of link, by the positions of their ends, and what they say of a Connect.
ghost use Rattle.std.specs.Prelude.{◌≡◌, OnOk, OnErr, IsOk, IsTrue, false};
ghost use Rattle.std.specs.FinMap as maps;
ghost use Rattle.configfs_tree.specs.Asked.{subsystem_place_taken, port_place_taken};
ghost use Rattle.configfs_tree.specs.Links.{allows_any, is_loop, subsystem_row, port_row, with_allowed, with_link, admits, links_it};

use crate::configuration::Configuration;
use crate::tree::Tree;
use configfs_rows::Nqn;
use std::alloc::AllocError;

impl Configuration {
    // Where no subsystem stands at the position, nothing changes.
    fn put_allowed(&mut self, sub: u8, host: &Nqn, linked: bool) -> Result<(), AllocError>
        ensures ok { OnOk result (self.new ≡ with_allowed self.old sub host.now linked) }
        ensures err { OnErr result (self.new ≡ self.old) }
        ensures taken { linked ≡ false → IsOk result }
    {
        let Some(row) = self.settings.subsystems.at(sub) else {
            return Ok(());
        };
        let name = row.nqn.copied();
        self.settings.subsystems.put_allowed(&name, host, linked)
    }

    // Where nothing stands at a position, nothing changes.
    fn put_link(&mut self, port: u8, sub: u8, linked: bool) -> Result<(), AllocError>
        ensures ok { OnOk result (self.new ≡ with_link self.old port sub linked) }
        ensures err { OnErr result (self.new ≡ self.old) }
        ensures taken { linked ≡ false → IsOk result }
    {
        let Some(row) = self.settings.ports.at(port) else {
            return Ok(());
        };
        let id = row.id;
        let Some(subsystem) = self.settings.subsystems.at(sub) else {
            return Ok(());
        };
        let name = subsystem.nqn.copied();
        self.settings.ports.put_link(id, &name, linked)
    }
}

impl Tree {
    /// Makes the link from the subsystem at a position to a host, or takes it away, and nothing
    /// else. On want of memory the tree is as before; taking away takes none and answers Ok.
    /// Both ends are there, and a subsystem that gets a link doesn't allow any host
    /// (`has_host`, `is_subsystem_place` and `allows_any_host` tell).
    pub fn set_allowed(&mut self, sub: u8, host: &Nqn, linked: bool) -> Result<(), AllocError>
        requires sub { IsTrue (subsystem_place_taken self.old sub) }
        requires host { IsTrue (maps.contains_key self.old.settings.hosts host.now) }
        requires listed { IsTrue linked → allows_any (subsystem_row self.old sub) ≡ false }
        ensures ok { OnOk result (self.new ≡ with_allowed self.old sub host.now linked) }
        ensures err { OnErr result (self.new ≡ self.old) }
        ensures taken { linked ≡ false → IsOk result }
    {
        self.configuration.put_allowed(sub, host, linked)
    }

    /// Makes the link from the port at a position to the subsystem at a position, or takes it
    /// away, and nothing else. On want of memory the tree is as before; taking away takes none
    /// and answers Ok. Both ends are there, and a port that gets a link has the transport type
    /// `loop` (`is_port_place`, `is_subsystem_place` and `is_loop_port` tell).
    pub fn set_link(&mut self, port: u8, sub: u8, linked: bool) -> Result<(), AllocError>
        requires port { IsTrue (port_place_taken self.old port) }
        requires sub { IsTrue (subsystem_place_taken self.old sub) }
        requires loop_port { IsTrue linked → IsTrue (is_loop (port_row self.old port)) }
        ensures ok { OnOk result (self.new ≡ with_link self.old port sub linked) }
        ensures err { OnErr result (self.new ≡ self.old) }
        ensures taken { linked ≡ false → IsOk result }
    {
        self.configuration.put_link(port, sub, linked)
    }
}

impl Tree {
    /// Whether the subsystem at a position allows any host; where none stands there, it doesn't.
    pub fn allows_any_host(&self, sub: u8) -> bool
        ensures { result ≡ allows_any (subsystem_row self.now sub) }
    {
        match self.configuration.settings.subsystems.at(sub) {
            Some(row) => row.allow_any_host,
            None => false,
        }
    }

    /// Whether the port at a position has the transport type `loop`; where none stands there, it
    /// hasn't.
    pub fn is_loop_port(&self, port: u8) -> bool
        ensures { result ≡ is_loop (port_row self.now port) }
    {
        match self.configuration.settings.ports.at(port) {
            Some(row) => row.trtype.as_bytes() == b"loop".as_slice(),
            None => false,
        }
    }
}

/// Whether the subsystem at a position allows the host: it allows any host, or it links to it.
/// Where no subsystem stands there, none is allowed.
pub fn admits_host(t: &Tree, sub: u8, host: &[u8]) -> bool
    ensures { result ≡ admits host.now (subsystem_row t.now sub) }
{
    let Some(row) = t.configuration.settings.subsystems.at(sub) else {
        return false;
    };
    if row.allow_any_host {
        return true;
    }
    match Nqn::read(host) {
        Some(name) => row.allowed_hosts.contains(&name),
        None => false,
    }
}

/// Whether the port at a position links the subsystem at a position.
pub fn serves(t: &Tree, port: u8, sub: u8) -> bool
    ensures { result ≡ links_it (port_row t.now port) (subsystem_row t.now sub) }
{
    let Some(row) = t.configuration.settings.ports.at(port) else {
        return false;
    };
    let Some(subsystem) = t.configuration.settings.subsystems.at(sub) else {
        return false;
    };
    row.links.contains(&subsystem.nqn)
}
