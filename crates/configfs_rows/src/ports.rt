ghost use Rattle.std.specs.Prelude.{◌≡◌, ◌==◌, ◌||◌, nat_lt, false, OnOk, OnErr, IsOk, IfOk, IsTrue, option_copied};
ghost use Rattle.std.specs.List.{list_any, find, slice_get};
ghost use Rattle.configfs_rows.specs.Maps.{update_at};
ghost use Rattle.configfs_rows.specs.Places.{lowest_free};
ghost use Rattle.configfs_rows.specs.Ports.{fresh_port, has_group, address_of, with_address, put_group, remove_group, put_link};
ghost use Rattle.std.specs.FinMap as map;

use crate::limits::MAX_PORTS;
use crate::linked_rows::{LinkedRow, lowest_place, row_at, some_row_links};
use crate::names::Names;
use crate::nqn::Nqn;
use crate::ordered_rows::{put_row, row_of, search, take_row};
use mem_bdev::Name;
use sqe_cqe::Ana;
use std::alloc::{AllocError, Global};
use std::collections::BTreeMap;
use std::collections::btree_map::Iter;
use std::marker::Model;

/// The ANA groups of a port that are made, with their states. Contracts see a finite map. A
/// group that isn't made is inaccessible.
#[derive(Drop)]
pub struct Groups {
    rows: BTreeMap<u32, Ana>,
}

impl Model for Groups {
    ghost use Rattle.std.specs.Ordering.{nat_cmp};
    ghost use Rattle.std.specs.FinMap as map;
    ghost use Rattle.std.specs.Coded.{coded_ℕ};
    ghost use Rattle.sqe_cqe.specs.declared.rows.Ana.{Ana};
    ghost use Rattle.sqe_cqe.specs.contracts.rows.Ana as state;

    ghost Value = { map.FinMap nat_cmp Ana };

    ghost coded = { map.code coded_ℕ state.the_row.coded };

    ghost view = { λ g. map.from_entries g.rows.entries };
}

impl Groups {
    /// No group.
    pub fn new(alloc: Global) -> Self
        ensures { result ≡ map.empty }
    {
        Groups {
            rows: BTreeMap::new(alloc),
        }
    }

    /// How many groups are made.
    pub fn len(&self) -> usize
        ensures { result ≡ map.len self.now }
    {
        self.rows.len()
    }

    /// The state of a group that is made.
    pub fn get(&self, group: u32) -> Option<Ana>
        ensures { result ≡ map.get self.now group }
    {
        self.rows.get(&group).copied()
    }

    /// Gives a group a state. On want of memory all is as before. Where the group is made, this
    /// takes no memory and answers Ok.
    pub fn put(&mut self, group: u32, state: Ana) -> Result<(), AllocError>
        ensures ok { OnOk result (self.new ≡ map.insert self.old group state) }
        ensures err { OnErr result (self.new ≡ self.old) }
        ensures made { IsTrue (map.contains_key self.old group) → IsOk result }
    {
        if let Some(row) = self.rows.get_mut(&group) {
            *row = state;
            return Ok(());
        }
        self.rows.insert(group, state)?;
        Ok(())
    }

    /// Takes a group away.
    pub fn remove(&mut self, group: u32)
        ensures { self.new ≡ map.remove self.old group }
    {
        let _ = self.rows.remove(&group);
    }

    /// The groups that are made with their states, in rising order of identifiers.
    pub fn iter(&self) -> Iter<'_, u32, Ana>
        ensures { result ≡ map.entries self.now }
    {
        self.rows.iter()
    }

    /// The group with this number, from 0, in rising order of identifiers; `None` exactly where
    /// there are not more than so many.
    pub fn nth(&self, n: usize) -> Option<u32>
        ensures { result ≡ slice_get (map.keys self.now) n }
    {
        self.rows.keys().nth(n).copied()
    }
}

/// A port: its ID, its position (the lowest free one as it was made, kept until it is removed),
/// its addresses as texts, the subsystems that it links, and its ANA groups.
#[derive(Drop)]
pub struct PortRow {
    pub id: u16,
    pub at: u8,
    pub trtype: Name,
    pub adrfam: Name,
    pub traddr: Name,
    pub trsvcid: Name,
    pub treq: Name,
    pub links: Names,
    pub groups: Groups,
}

/// An address of a port, as nvmet's configfs names it.
#[derive(Clone, Copy, Debug, PartialEq, Eq)]
pub enum Address {
    /// `addr_trtype`
    Trtype,
    /// `addr_adrfam`
    Adrfam,
    /// `addr_traddr`
    Traddr,
    /// `addr_trsvcid`
    Trsvcid,
    /// `addr_treq`
    Treq,
}

impl PortRow {
    /// A port as it is made, with group 1.
    pub fn fresh(alloc: Global, id: u16, at: u8) -> Result<Self, AllocError>
        ensures { IfOk result (λ p. p ≡ fresh_port id at) }
    {
        let treq = Name::copied(alloc, b"not specified")?;
        let mut groups = Groups::new(alloc);
        groups.put(1, Ana::Optimized)?;
        Ok(PortRow {
            id,
            at,
            trtype: Name::from_vec(Vec::new(alloc)),
            adrfam: Name::from_vec(Vec::new(alloc)),
            traddr: Name::from_vec(Vec::new(alloc)),
            trsvcid: Name::from_vec(Vec::new(alloc)),
            treq,
            links: Names::new(alloc),
            groups,
        })
    }

    /// Whether it has a subsystem link or an ANA group other than 1.
    pub fn is_filled(&self) -> bool
        ensures { result ≡ (nat_lt 0 (map.len self.now.links) || nat_lt 1 (map.len self.now.groups)) }
    {
        self.links.len() > 0 || self.groups.len() > 1
    }

    /// One of its addresses.
    pub fn address(&self, address: Address) -> &Name
        ensures { result.now ≡ address_of address self.now }
    {
        match address {
            Address::Trtype => &self.trtype,
            Address::Adrfam => &self.adrfam,
            Address::Traddr => &self.traddr,
            Address::Trsvcid => &self.trsvcid,
            Address::Treq => &self.treq,
        }
    }

    // Puts an address.
    fn put(&mut self, address: Address, value: Name)
        ensures { self.new ≡ with_address address value self.old }
    {
        match address {
            Address::Trtype => self.trtype = value,
            Address::Adrfam => self.adrfam = value,
            Address::Traddr => self.traddr = value,
            Address::Trsvcid => self.trsvcid = value,
            Address::Treq => self.treq = value,
        }
    }
}

impl LinkedRow for PortRow {
    ghost place = { λ p. p.at };

    ghost linked = { λ p. p.links };

    fn place(&self) -> u8 {
        self.at
    }

    fn links(&self) -> &Names {
        &self.links
    }
}

/// The ports in the order of their IDs. Contracts see a finite map.
#[derive(Drop)]
pub struct Ports {
    rows: Vec<(u16, PortRow)>,
}

impl Model for Ports {
    ghost use Rattle.std.specs.Prelude.{IsTrue};
    ghost use Rattle.std.specs.Ordering.{nat_cmp};
    ghost use Rattle.std.specs.FinMap as map;
    ghost use Rattle.std.specs.Coded.{coded_ℕ};
    ghost use Rattle.configfs_rows.specs.declared.ports.PortRow.{PortRow};
    ghost use Rattle.configfs_rows.specs.contracts.ports.PortRow as row;

    ghost Value = { map.FinMap nat_cmp PortRow };

    ghost coded = { map.code coded_ℕ row.the_row.coded };

    ghost view = { λ p. map.from_sorted p.rows.items };

    ghost invariant = { λ p. IsTrue (map.is_sorted nat_cmp p.rows.items) };
}

impl Ports {
    /// No port.
    pub fn new(alloc: Global) -> Self
        ensures { result ≡ map.empty }
    {
        Ports {
            rows: Vec::new(alloc),
        }
    }

    /// How many ports there are.
    pub fn len(&self) -> usize
        ensures { result ≡ map.len self.now }
    {
        self.entries().len()
    }

    /// The port of an ID.
    pub fn get(&self, id: u16) -> Option<&PortRow>
        ensures { option_copied result ≡ map.get self.now id }
    {
        row_of(&self.rows, &id)
    }

    /// Makes a port. On want of memory all is as before.
    pub fn add(&mut self, id: u16, row: PortRow) -> Result<(), AllocError>
        ensures ok { OnOk result (self.new ≡ map.insert self.old id row) }
        ensures err { OnErr result (self.new ≡ self.old) }
    {
        put_row(&mut self.rows, id, row)?;
        Ok(())
    }

    /// Takes a port away.
    pub fn remove(&mut self, id: u16)
        ensures { self.new ≡ map.remove self.old id }
    {
        take_row(&mut self.rows, &id);
    }

    /// Puts an address into a port.
    pub fn put(&mut self, id: u16, address: Address, value: Name)
        ensures { self.new ≡ update_at self.old id (with_address address value) }
    {
        let Ok(at) = search(&self.rows, &id) else {
            return;
        };
        self.rows[at].1.put(address, value);
    }

    /// Gives a group of a port a state. On want of memory all is as before.
    pub fn put_group(&mut self, id: u16, group: u32, state: Ana) -> Result<(), AllocError>
        ensures ok { OnOk result (self.new ≡ update_at self.old id (put_group group state)) }
        ensures err { OnErr result (self.new ≡ self.old) }
        ensures made { IsTrue (has_group (map.get self.old id) group) → IsOk result }
    {
        let Ok(at) = search(&self.rows, &id) else {
            return Ok(());
        };
        self.rows[at].1.groups.put(group, state)?;
        Ok(())
    }

    /// Takes a group of a port away.
    pub fn remove_group(&mut self, id: u16, group: u32)
        ensures { self.new ≡ update_at self.old id (remove_group group) }
    {
        let Ok(at) = search(&self.rows, &id) else {
            return;
        };
        self.rows[at].1.groups.remove(group);
    }

    /// Whether a port links the subsystem.
    pub fn some_links(&self, name: &Nqn) -> bool
        ensures { result ≡ list_any (λ p. map.contains_key p.links name.now) (map.values self.now) }
    {
        some_row_links(self.entries(), name)
    }

    /// Whether a port stands at the position.
    pub fn has_place(&self, at: u8) -> bool
        ensures { result ≡ list_any (λ p. p.at == at) (map.values self.now) }
    {
        self.at(at).is_some()
    }

    /// The lowest free position.
    pub fn free_place(&self) -> u8
        ensures { result ≡ lowest_free MAX_PORTS 0 (λ at. list_any (λ p. p.at == at)
            (map.values self.now)) }
    {
        lowest_place(self.entries(), MAX_PORTS as u8)
    }

    /// The port at a position, or `None` exactly where none stands there.
    pub fn at(&self, at: u8) -> Option<&PortRow>
        ensures { option_copied result ≡ find (λ p. p.at == at) (map.values self.now) }
    {
        row_at(self.entries(), at)
    }

    /// The ports with their IDs, in rising order of ID.
    pub fn entries(&self) -> &[(u16, PortRow)]
        ensures { result.now ≡ map.entries self.now }
    {
        &self.rows
    }

    /// The port with this number, from 0, in the order of IDs; `None` exactly where there are
    /// not more than so many.
    pub fn nth(&self, n: usize) -> Option<&PortRow>
        ensures { option_copied result ≡ slice_get (map.values self.now) n }
    {
        match self.entries().get(n) {
            Some((_, row)) => Some(row),
            None => None,
        }
    }

    /// Makes the link to a subsystem, or takes it away.
    pub fn put_link(&mut self, id: u16, nqn: &Nqn, linked: bool) -> Result<(), AllocError>
        ensures ok { OnOk result (self.new ≡ update_at self.old id (put_link nqn.now linked)) }
        ensures err { OnErr result (self.new ≡ self.old) }
        ensures taken { linked ≡ false → IsOk result }
    {
        let Ok(at) = search(&self.rows, &id) else {
            return Ok(());
        };
        self.rows[at].1.links.keep_or_take(nqn, linked)?;
        Ok(())
    }
}
