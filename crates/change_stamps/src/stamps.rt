ghost use Rattle.std.specs.Prelude.{◌≡◌, IfOk, slice_index};
ghost use Rattle.change_stamps.specs.Stamps.{ana_stamp, no_stamps, place_of, raised, space_place, space_stamp, stamped, stamped_at, stamps_after, untouched};

use configfs_rows::{MAX_PORTS, MAX_SUBSYSTEMS};
use configfs_tree::Change;
use sqe_cqe::MAX_NSID;
use std::alloc::{AllocError, Global};
use std::marker::Model;

/// The serials of last changes. Contracts see the lists of them.
#[derive(Drop)]
pub struct ChangeStamps {
    serial: u32,
    spaces: Vec<u32>,
    subs: Vec<u32>,
    ports: Vec<u32>,
}

impl Model for ChangeStamps {
    ghost use Rattle.change_stamps.specs.Stamps.{Stamps};

    ghost Value = { Stamps };

    ghost view = { λ s. record { serial = s.serial; spaces = s.spaces.items; subs = s.subs.items; ports = s.ports.items } };
}

// So many stamps of nothing.
#[tactic(auto, unfolding(crate::specs::Stamps::untouched))]
fn zeros(alloc: Global, count: usize) -> Result<Vec<u32>, AllocError>
    ensures { IfOk result (λ v. v.items ≡ untouched count) }
{
    let mut stamps = Vec::new(alloc);
    stamps.resize(count, 0)?;
    Ok(stamps)
}

// Where the stamp of a namespace stands.
fn place(sub: u8, nsid: u32) -> usize
    ensures { result ≡ place_of sub nsid }
{
    usize::from(sub) * (MAX_NSID as usize + 1) + nsid as usize
}

// The stamp at a place, 0 past the end.
fn stamp_at(stamps: &[u32], at: usize) -> u32
    ensures { result ≡ slice_index stamps.now at }
{
    match stamps.get(at) {
        None => 0,
        Some(stamp) => *stamp,
    }
}

// Writes a stamp at a place, if there is one.
#[tactic(auto, using(crate::proofs::Past::set_past))]
fn stamp(stamps: &mut Vec<u32>, at: Option<usize>, serial: u32)
    ensures { stamps.new.items ≡ stamped_at serial at stamps.old.items }
{
    let Some(at) = at else {
        return;
    };
    if at < stamps.len() {
        stamps[at] = serial;
    }
}

fn place_named(namespace: Option<(u8, u32)>) -> Option<usize>
    ensures { result ≡ space_place namespace }
{
    match namespace {
        None => None,
        Some((sub, nsid)) => Some(place(sub, nsid)),
    }
}

fn place_at(at: Option<u8>) -> Option<usize>
    ensures { result ≡ at }
{
    match at {
        None => None,
        Some(at) => Some(usize::from(at)),
    }
}

impl ChangeStamps {
    /// Of a configuration that was loaded: no change was published yet.
    #[tactic(auto, unfolding(crate::specs::Stamps::no_stamps))]
    pub fn new(alloc: Global) -> Result<Self, AllocError>
        ensures { IfOk result (λ s. s ≡ no_stamps) }
    {
        let spaces = zeros(alloc, MAX_SUBSYSTEMS * (MAX_NSID as usize + 1))?;
        let subs = zeros(alloc, MAX_SUBSYSTEMS)?;
        let ports = zeros(alloc, MAX_PORTS)?;
        Ok(ChangeStamps {
            serial: 0,
            spaces,
            subs,
            ports,
        })
    }

    /// How many changes were published; the count stays at 2^32 - 1.
    pub fn serial(&self) -> u32
        ensures { result ≡ self.now.serial }
    {
        self.serial
    }

    /// The serial of the last namespace change of an NSID of the subsystem at a position, or 0.
    #[tactic(auto, unfolding(crate::specs::Stamps::space_stamp))]
    pub fn space(&self, sub: u8, nsid: u32) -> u32
        ensures { result ≡ space_stamp self.now sub nsid }
    {
        if nsid > MAX_NSID {
            return 0;
        }
        stamp_at(&self.spaces, place(sub, nsid))
    }

    /// The serial of the last ANA change of the subsystem or the port at these positions, or 0.
    #[tactic(auto, unfolding(crate::specs::Stamps::ana_stamp))]
    pub fn ana(&self, sub: u8, port: u8) -> u32
        ensures { result ≡ ana_stamp self.now sub port }
    {
        let sub = stamp_at(&self.subs, usize::from(sub));
        let port = stamp_at(&self.ports, usize::from(port));
        sub.max(port)
    }

    /// A change was published that touches no namespace and no ANA group.
    pub fn raise(&mut self)
        ensures { self.new ≡ raised self.old }
    {
        self.serial = self.serial.saturating_add(1);
    }

    // Stamps what a change names.
    #[tactic(auto, unfolding(crate::specs::Stamps::stamped))]
    fn publish(&mut self, change: &Change)
        ensures { self.new ≡ stamped change.now self.old }
    {
        self.serial = self.serial.saturating_add(1);
        stamp(&mut self.spaces, place_named(change.namespace), self.serial);
        stamp(&mut self.subs, place_at(change.ana_subsystem), self.serial);
        stamp(&mut self.ports, place_at(change.ana_port), self.serial);
    }

    /// An edit was accepted and told this change: where it is published, it raises the serial and
    /// stamps what it names. Takes no memory.
    pub fn note(&mut self, change: &Change)
        ensures { self.new ≡ stamps_after change.now self.old }
    {
        if change.published {
            self.publish(change);
        }
    }
}
