// A plain slow tree: lists that are scanned, with numbers for names and texts for values. It
// shares no code with the tree.
use crate::rolls::{At, Do};
use configfs_tree::{Attr, Phase};
use std::alloc::Global;
use std::process::Abort;

/// A subsystem, with how many controllers are attached to it.
#[derive(Clone, Copy)]
pub struct SlowSub {
    pub name: u64,
    pub at: u8,
    pub any: bool,
    pub serial: &'static str,
    pub model: &'static str,
    pub attached: u64,
}

/// A namespace; an unset path is empty.
#[derive(Clone, Copy)]
pub struct SlowSpace {
    pub sub: u64,
    pub nsid: u32,
    pub path: &'static str,
    pub uuid: &'static str,
    pub nguid: &'static str,
    pub group: &'static str,
    pub phase: Phase,
}

/// A port, with how many controllers are attached through it.
#[derive(Clone, Copy)]
pub struct SlowPort {
    pub id: u16,
    pub at: u8,
    pub trtype: &'static str,
    pub adrfam: &'static str,
    pub traddr: &'static str,
    pub trsvcid: &'static str,
    pub treq: &'static str,
    pub attached: u64,
}

/// An ANA group of a port.
#[derive(Clone, Copy)]
pub struct SlowGroup {
    pub port: u16,
    pub group: u32,
    pub state: &'static str,
}

/// The tree.
#[derive(Drop)]
pub struct Slow {
    pub hosts: Vec<u64>,
    pub subs: Vec<SlowSub>,
    pub spaces: Vec<SlowSpace>,
    pub ports: Vec<SlowPort>,
    pub groups: Vec<SlowGroup>,
    /// The allowed hosts, each after its subsystem.
    pub allowed: Vec<(u64, u64)>,
    /// The linked subsystems, each after its port.
    pub links: Vec<(u16, u64)>,
    pub changes: u64,
}

impl SlowSpace {
    fn put(&mut self, attr: Attr, value: &'static str) {
        match attr {
            Attr::DevicePath => self.path = value,
            Attr::DeviceUuid => self.uuid = value,
            Attr::DeviceNguid => self.nguid = value,
            _ => self.group = value,
        }
    }
}

impl SlowPort {
    fn put(&mut self, attr: Attr, value: &'static str) {
        match attr {
            Attr::Trtype => self.trtype = value,
            Attr::Adrfam => self.adrfam = value,
            Attr::Traddr => self.traddr = value,
            Attr::Trsvcid => self.trsvcid = value,
            _ => self.treq = value,
        }
    }
}

const NO_UUID: &str = "00000000-0000-0000-0000-000000000000";

impl Slow {
    /// The empty tree.
    pub fn new(alloc: Global) -> Self {
        Slow {
            hosts: Vec::new(alloc),
            subs: Vec::new(alloc),
            spaces: Vec::new(alloc),
            ports: Vec::new(alloc),
            groups: Vec::new(alloc),
            allowed: Vec::new(alloc),
            links: Vec::new(alloc),
            changes: 0,
        }
    }

    pub fn has_host(&self, host: u64) -> bool {
        self.hosts.iter().any(|h| *h == host)
    }

    pub fn sub(&self, name: u64) -> Option<SlowSub> {
        self.subs.iter().find(|s| s.name == name).copied()
    }

    pub fn space(&self, sub: u64, nsid: u32) -> Option<SlowSpace> {
        self.spaces
            .iter()
            .find(|n| n.sub == sub && n.nsid == nsid)
            .copied()
    }

    pub fn port(&self, id: u16) -> Option<SlowPort> {
        self.ports.iter().find(|p| p.id == id).copied()
    }

    pub fn group(&self, port: u16, group: u32) -> Option<SlowGroup> {
        self.groups
            .iter()
            .find(|g| g.port == port && g.group == group)
            .copied()
    }

    pub fn is_linked(&self, port: u16, sub: u64) -> bool {
        self.links.iter().any(|l| l.0 == port && l.1 == sub)
    }

    pub fn is_allowed(&self, sub: u64, host: u64) -> bool {
        self.allowed.iter().any(|l| l.0 == sub && l.1 == host)
    }

    /// Whether a port links anything.
    pub fn links_any(&self, port: u16) -> bool {
        self.links.iter().any(|l| l.0 == port)
    }

    /// Whether a subsystem allows a host by name.
    pub fn allows_some(&self, sub: u64) -> bool {
        self.allowed.iter().any(|l| l.0 == sub)
    }

    fn change(&mut self) {
        self.changes = self.changes.saturating_add(1);
    }

    // The lowest position at which no subsystem stands.
    fn free_sub(&self) -> u8 {
        for at in 0..16u8 {
            if !self.subs.iter().any(|s| s.at == at) {
                return at;
            }
        }
        16
    }

    // The lowest position at which no port stands.
    fn free_port(&self) -> u8 {
        for at in 0..8u8 {
            if !self.ports.iter().any(|p| p.at == at) {
                return at;
            }
        }
        8
    }

    fn mkdir_host(&mut self, rt: &impl Abort, host: u64) -> &'static str {
        if self.has_host(host) {
            return "EEXIST";
        }
        if self.hosts.len() >= 64 {
            return "ENOSPC";
        }
        assert!(rt; self.hosts.push(host).is_ok());
        "ok"
    }

    fn mkdir_sub(&mut self, rt: &impl Abort, name: u64) -> &'static str {
        if self.sub(name).is_some() {
            return "EEXIST";
        }
        if self.subs.len() >= 16 {
            return "ENOSPC";
        }
        let made = SlowSub {
            name,
            at: self.free_sub(),
            any: false,
            serial: "00000000000000000001",
            model: "Linux",
            attached: 0,
        };
        assert!(rt; self.subs.push(made).is_ok());
        "ok"
    }

    fn mkdir_space(&mut self, rt: &impl Abort, sub: u64, nsid: u32) -> &'static str {
        if self.sub(sub).is_none() {
            return "ENOENT";
        }
        if nsid < 1 || nsid > 2048 {
            return "EINVAL";
        }
        if self.space(sub, nsid).is_some() {
            return "EEXIST";
        }
        let made = SlowSpace {
            sub,
            nsid,
            path: "",
            uuid: NO_UUID,
            nguid: NO_UUID,
            group: "1",
            phase: Phase::Off,
        };
        assert!(rt; self.spaces.push(made).is_ok());
        "ok"
    }

    fn mkdir_port(&mut self, rt: &impl Abort, id: u16) -> &'static str {
        if self.port(id).is_some() {
            return "EEXIST";
        }
        if self.ports.len() >= 8 {
            return "ENOSPC";
        }
        let made = SlowPort {
            id,
            at: self.free_port(),
            trtype: "",
            adrfam: "",
            traddr: "",
            trsvcid: "",
            treq: "not specified",
            attached: 0,
        };
        assert!(rt; self.ports.push(made).is_ok());
        self.put_group(rt, id, 1, "optimized");
        "ok"
    }

    fn mkdir_group(&mut self, rt: &impl Abort, port: u16, group: u32) -> &'static str {
        if self.port(port).is_none() {
            return "ENOENT";
        }
        if group < 1 || group > 128 {
            return "EINVAL";
        }
        if self.group(port, group).is_some() {
            return "EEXIST";
        }
        self.put_group(rt, port, group, "inaccessible");
        self.change();
        "ok"
    }

    fn put_group(&mut self, rt: &impl Abort, port: u16, group: u32, state: &'static str) {
        let made = SlowGroup { port, group, state };
        assert!(rt; self.groups.push(made).is_ok());
    }

    fn mkdir(&mut self, rt: &impl Abort, at: At) -> &'static str {
        match at {
            At::Host(host) => self.mkdir_host(rt, host),
            At::Sub(name) => self.mkdir_sub(rt, name),
            At::Space(sub, nsid) => self.mkdir_space(rt, sub, nsid),
            At::Port(id) => self.mkdir_port(rt, id),
            At::Group(port, group) => self.mkdir_group(rt, port, group),
        }
    }

    fn rmdir_host(&mut self, host: u64) -> &'static str {
        if !self.has_host(host) {
            return "ENOENT";
        }
        if self.allowed.iter().any(|l| l.1 == host) {
            return "EBUSY";
        }
        self.hosts.retain(|h| *h != host);
        "ok"
    }

    fn rmdir_sub(&mut self, name: u64) -> &'static str {
        let Some(old) = self.sub(name) else {
            return "ENOENT";
        };
        if old.attached > 0 || self.links.iter().any(|l| l.1 == name) {
            return "EBUSY";
        }
        if self.allows_some(name) || self.spaces.iter().any(|n| n.sub == name) {
            return "ENOTEMPTY";
        }
        self.subs.retain(|s| s.name != name);
        "ok"
    }

    fn rmdir_space(&mut self, sub: u64, nsid: u32) -> &'static str {
        match self.space(sub, nsid) {
            None => "ENOENT",
            Some(n) if n.phase != Phase::Off => "EBUSY",
            Some(_) => {
                self.spaces.retain(|n| n.sub != sub || n.nsid != nsid);
                "ok"
            }
        }
    }

    fn rmdir_port(&mut self, id: u16) -> &'static str {
        let Some(old) = self.port(id) else {
            return "ENOENT";
        };
        if old.attached > 0 {
            return "EBUSY";
        }
        if self.links_any(id) || self.groups.iter().any(|g| g.port == id && g.group != 1) {
            return "ENOTEMPTY";
        }
        self.ports.retain(|p| p.id != id);
        self.groups.retain(|g| g.port != id);
        "ok"
    }

    fn rmdir_group(&mut self, port: u16, group: u32) -> &'static str {
        if self.group(port, group).is_none() {
            return "ENOENT";
        }
        if group == 1 {
            return "EPERM";
        }
        self.groups.retain(|g| g.port != port || g.group != group);
        self.change();
        "ok"
    }

    fn rmdir(&mut self, at: At) -> &'static str {
        match at {
            At::Host(host) => self.rmdir_host(host),
            At::Sub(name) => self.rmdir_sub(name),
            At::Space(sub, nsid) => self.rmdir_space(sub, nsid),
            At::Port(id) => self.rmdir_port(id),
            At::Group(port, group) => self.rmdir_group(port, group),
        }
    }

    fn set_any(&mut self, sub: u64, value: &'static str) -> &'static str {
        if value != "0" && value != "1" {
            return "EINVAL";
        }
        if value == "1" && self.allows_some(sub) {
            return "EINVAL";
        }
        for s in self.subs.iter_mut() {
            if s.name == sub {
                s.any = value == "1";
            }
        }
        "ok"
    }

    fn set_text(&mut self, old: SlowSub, attr: Attr, value: &'static str) -> &'static str {
        let serial = attr == Attr::Serial;
        let most = if serial { 20 } else { 40 };
        if value.len() > most || (!serial && value == "") || old.attached > 0 {
            return "EINVAL";
        }
        for s in self.subs.iter_mut() {
            if s.name == old.name && serial {
                s.serial = value;
            } else if s.name == old.name {
                s.model = value;
            }
        }
        "ok"
    }

    // Where an enabled namespace would be disabled, or one that is off enabled.
    fn set_enable(&mut self, old: SlowSpace, value: &'static str) -> &'static str {
        match value {
            "0" if old.phase == Phase::Enabled => {
                self.put_phase(old.sub, old.nsid, Phase::Draining)
            }
            "0" => "ok",
            "1" if old.phase == Phase::Draining => "EBUSY",
            "1" if old.phase == Phase::Enabled => "ok",
            "1" => self.enable(old),
            _ => "EINVAL",
        }
    }

    fn enable(&mut self, old: SlowSpace) -> &'static str {
        if old.path != "/dev/ram0" && old.path != "/dev/ram1" {
            return "ENOENT";
        }
        if self.holder(old.path).is_some() {
            return "EBUSY";
        }
        self.put_phase(old.sub, old.nsid, Phase::Enabled)
    }

    /// The namespace that holds the disk of a path.
    pub fn holder(&self, path: &'static str) -> Option<SlowSpace> {
        self.spaces
            .iter()
            .find(|n| n.path == path && n.phase != Phase::Off)
            .copied()
    }

    /// Gives a namespace a phase.
    pub fn put_phase(&mut self, sub: u64, nsid: u32, phase: Phase) -> &'static str {
        for n in self.spaces.iter_mut() {
            if n.sub == sub && n.nsid == nsid {
                n.phase = phase;
            }
        }
        "ok"
    }

    fn set_space(&mut self, old: SlowSpace, attr: Attr, value: &'static str) -> &'static str {
        match attr {
            Attr::Enable => self.set_enable(old, value),
            Attr::AnaGrpid => self.set_grpid(old, value),
            _ if old.phase != Phase::Off => "EBUSY",
            Attr::DevicePath if value == "" || value == "a b" => "EINVAL",
            Attr::DevicePath => self.put_space(old, attr, value),
            _ if value.len() != 36 => "EINVAL",
            _ => self.put_space(old, attr, value),
        }
    }

    fn set_grpid(&mut self, old: SlowSpace, value: &'static str) -> &'static str {
        if value != "1" && value != "2" && value != "128" {
            return "EINVAL";
        }
        if old.group != value {
            self.change();
        }
        self.put_space(old, Attr::AnaGrpid, value)
    }

    fn put_space(&mut self, old: SlowSpace, attr: Attr, value: &'static str) -> &'static str {
        for n in self.spaces.iter_mut() {
            if n.sub == old.sub && n.nsid == old.nsid {
                n.put(attr, value);
            }
        }
        "ok"
    }

    fn set_port(&mut self, id: u16, attr: Attr, value: &'static str) -> &'static str {
        if self.port(id).is_none() {
            return "ENOENT";
        }
        if self.links_any(id) {
            return "EACCES";
        }
        if value == "pci" || value == "IPv4" || value == "maybe" || value.len() > 31 {
            return "EINVAL";
        }
        for p in self.ports.iter_mut() {
            if p.id == id {
                p.put(attr, value);
            }
        }
        "ok"
    }

    fn set_state(&mut self, port: u16, group: u32, value: &'static str) -> &'static str {
        let Some(old) = self.group(port, group) else {
            return "ENOENT";
        };
        if value == "none" {
            return "EINVAL";
        }
        if old.state != value {
            self.change();
        }
        for g in self.groups.iter_mut() {
            if g.port == port && g.group == group {
                g.state = value;
            }
        }
        "ok"
    }

    fn set(&mut self, at: At, attr: Attr, value: &'static str) -> &'static str {
        match at {
            At::Host(_) => "EINVAL",
            At::Sub(sub) => match self.sub(sub) {
                None => "ENOENT",
                Some(_) if attr == Attr::AllowAnyHost => self.set_any(sub, value),
                Some(old) => self.set_text(old, attr, value),
            },
            At::Space(sub, nsid) => match self.space(sub, nsid) {
                None => "ENOENT",
                Some(old) => self.set_space(old, attr, value),
            },
            At::Port(id) => self.set_port(id, attr, value),
            At::Group(port, group) => self.set_state(port, group, value),
        }
    }

    /// Makes an edit, and tells `ok` or the errno's name.
    pub fn apply(&mut self, rt: &impl Abort, what: Do) -> &'static str {
        match what {
            Do::Mkdir(at) => self.mkdir(rt, at),
            Do::Rmdir(at) => self.rmdir(at),
            Do::Set(at, attr, value) => self.set(at, attr, value),
        }
    }

    /// Counts a controller.
    pub fn attach(&mut self, sub: u64, port: u16) {
        self.attach_sub(sub);
        for p in self.ports.iter_mut() {
            if p.id == port {
                p.attached = p.attached.saturating_add(1);
            }
        }
    }

    fn attach_sub(&mut self, sub: u64) {
        for s in self.subs.iter_mut() {
            if s.name == sub {
                s.attached = s.attached.saturating_add(1);
            }
        }
    }

    /// The hosts that a subsystem allows by name.
    pub fn hosts_of(&self, rt: &impl Abort, alloc: Global, sub: u64) -> Vec<u64> {
        let mut found = Vec::new(alloc);
        for link in &self.allowed {
            if link.0 == sub {
                assert!(rt; found.push(link.1).is_ok());
            }
        }
        found
    }

    /// The subsystems that a port links.
    pub fn subs_of(&self, rt: &impl Abort, alloc: Global, port: u16) -> Vec<u64> {
        let mut found = Vec::new(alloc);
        for link in &self.links {
            if link.0 == port {
                assert!(rt; found.push(link.1).is_ok());
            }
        }
        found
    }

    /// The namespaces of a subsystem.
    pub fn spaces_of(&self, rt: &impl Abort, alloc: Global, sub: u64) -> Vec<SlowSpace> {
        let mut found = Vec::new(alloc);
        for space in &self.spaces {
            if space.sub == sub {
                assert!(rt; found.push(*space).is_ok());
            }
        }
        found
    }

    /// The ANA groups of a port.
    pub fn groups_of(&self, rt: &impl Abort, alloc: Global, port: u16) -> Vec<SlowGroup> {
        let mut found = Vec::new(alloc);
        for group in &self.groups {
            if group.port == port {
                assert!(rt; found.push(*group).is_ok());
            }
        }
        found
    }
}
