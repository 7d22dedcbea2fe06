ghost use Rattle.std.specs.Prelude.{◌≡◌, ◌==◌, ◌||◌, nat_lt, false, OnOk, OnErr, IsOk, IfOk};
ghost use Rattle.std.specs.Option.{option_copied};
ghost use Rattle.std.specs.List.{list_any, find, slice_get};
ghost use Rattle.std.specs.FinMap as map;
ghost use Rattle.configfs_rows.specs.Maps.{update_at};
ghost use Rattle.configfs_rows.specs.Places.{lowest_free};
ghost use Rattle.configfs_rows.specs.Subsystems.{fresh_subsystem, put_namespace, add_namespace, remove_namespace, put_in_subsystem, put_allowed};

use crate::limits::MAX_SUBSYSTEMS;
use crate::linked_rows::{LinkedRow, lowest_place, row_at, some_row_links};
use crate::names::Names;
use crate::namespaces::{NamespacePut, Namespaces};
use crate::nqn::Nqn;
use crate::ordered_rows::{put_row, row_of, search, take_row};
use mem_bdev::Name;
use std::alloc::{AllocError, Global};
use std::marker::Model;

/// A subsystem: its NQN, its position (the lowest free one as it was made, kept until it is
/// removed), whether it allows any host, its serial number (at most 20 bytes), its model number
/// (1 to 40 bytes), the hosts that it allows, and its namespaces.
#[derive(Drop)]
pub struct SubsystemRow {
    pub nqn: Nqn,
    pub at: u8,
    pub allow_any_host: bool,
    pub serial: Name,
    pub model_name: Name,
    pub allowed_hosts: Names,
    pub namespaces: Namespaces,
}

/// A new value of an attribute of a subsystem.
#[derive(Drop)]
pub enum SubsystemPut {
    AllowAnyHost(bool),
    Serial(Name),
    ModelName(Name),
}

impl SubsystemRow {
    /// Whether it has a namespace or an allowed host.
    pub fn is_filled(&self) -> bool
        ensures { result ≡ (nat_lt 0 (map.len self.now.namespaces) || nat_lt 0
            (map.len self.now.allowed_hosts)) }
    {
        self.namespaces.len() > 0 || self.allowed_hosts.len() > 0
    }

    /// A subsystem as it is made.
    pub fn fresh(alloc: Global, nqn: &Nqn, at: u8) -> Result<Self, AllocError>
        ensures { IfOk result (λ s. s ≡ fresh_subsystem nqn.now at) }
    {
        let serial = Name::copied(alloc, b"00000000000000000001")?;
        let model_name = Name::copied(alloc, b"Linux")?;
        Ok(SubsystemRow {
            nqn: nqn.copied(),
            at,
            allow_any_host: false,
            serial,
            model_name,
            allowed_hosts: Names::new(alloc),
            namespaces: Namespaces::new(alloc),
        })
    }

    // Puts a value into its attribute.
    fn put(&mut self, put: SubsystemPut)
        ensures { self.new ≡ put_in_subsystem put self.old }
    {
        match put {
            SubsystemPut::AllowAnyHost(any) => self.allow_any_host = any,
            SubsystemPut::Serial(serial) => self.serial = serial,
            SubsystemPut::ModelName(name) => self.model_name = name,
        }
    }
}

impl LinkedRow for SubsystemRow {
    ghost place = { λ s. s.at };

    ghost linked = { λ s. s.allowed_hosts };

    fn place(&self) -> u8 {
        self.at
    }

    fn links(&self) -> &Names {
        &self.allowed_hosts
    }
}

/// The subsystems in the order of their NQNs. Contracts see a finite map.
#[derive(Drop)]
pub struct Subsystems {
    rows: Vec<(Nqn, SubsystemRow)>,
}

impl Model for Subsystems {
    ghost use Rattle.std.specs.Prelude.{IsTrue};
    ghost use Rattle.std.specs.FinMap as map;
    ghost use Rattle.std.specs.Coded.{coded_ℕ, coded_list};
    ghost use Rattle.configfs_rows.specs.Nqns.{name_order};
    ghost use Rattle.configfs_rows.specs.declared.subsystems.SubsystemRow.{SubsystemRow};
    ghost use Rattle.configfs_rows.specs.contracts.subsystems.SubsystemRow as row;

    ghost Value = { map.FinMap name_order SubsystemRow };

    ghost coded = { map.code (coded_list coded_ℕ) row.the_row.coded };

    ghost view = { λ s. map.from_sorted s.rows.items };

    ghost invariant = { λ s. IsTrue (map.is_sorted name_order s.rows.items) };
}

impl Subsystems {
    /// No subsystem.
    pub fn new(alloc: Global) -> Self
        ensures { result ≡ map.empty }
    {
        Subsystems {
            rows: Vec::new(alloc),
        }
    }

    /// The subsystem of a name.
    pub fn get(&self, name: &Nqn) -> Option<&SubsystemRow>
        ensures { option_copied result ≡ map.get self.now name.now }
    {
        row_of(&self.rows, name)
    }

    /// Puts a value into a namespace of a subsystem.
    pub fn put_namespace(&mut self, name: &Nqn, nsid: u32, put: NamespacePut)
        ensures { self.new ≡ update_at self.old name.now (put_namespace nsid put) }
    {
        let Ok(at) = search(&self.rows, name) else {
            return;
        };
        self.rows[at].1.namespaces.put(nsid, put);
    }

    /// Makes a namespace, where the subsystem is there. On want of memory all is as before.
    pub fn add_namespace(&mut self, name: &Nqn, nsid: u32) -> Result<(), AllocError>
        ensures ok { OnOk result (self.new ≡ update_at self.old name.now (add_namespace nsid)) }
        ensures err { OnErr result (self.new ≡ self.old) }
    {
        let Ok(at) = search(&self.rows, name) else {
            return Ok(());
        };
        self.rows[at].1.namespaces.add(nsid)?;
        Ok(())
    }

    /// Takes a namespace away.
    pub fn remove_namespace(&mut self, name: &Nqn, nsid: u32)
        ensures { self.new ≡ update_at self.old name.now (remove_namespace nsid) }
    {
        let Ok(at) = search(&self.rows, name) else {
            return;
        };
        self.rows[at].1.namespaces.remove(nsid);
    }

    /// Whether a subsystem allows the host by a link.
    pub fn some_allows(&self, host: &Nqn) -> bool
        ensures { result ≡ list_any (λ s. map.contains_key s.allowed_hosts host.now)
            (map.values self.now) }
    {
        some_row_links(self.entries(), host)
    }

    /// How many subsystems there are.
    pub fn len(&self) -> usize
        ensures { result ≡ map.len self.now }
    {
        self.entries().len()
    }

    /// Makes a subsystem. On want of memory all is as before.
    pub fn add(&mut self, name: Nqn, row: SubsystemRow) -> Result<(), AllocError>
        ensures ok { OnOk result (self.new ≡ map.insert self.old name row) }
        ensures err { OnErr result (self.new ≡ self.old) }
    {
        put_row(&mut self.rows, name, row)?;
        Ok(())
    }

    /// Whether a subsystem stands at the position.
    pub fn has_place(&self, at: u8) -> bool
        ensures { result ≡ list_any (λ s. s.at == at) (map.values self.now) }
    {
        self.at(at).is_some()
    }

    /// The lowest free position.
    pub fn free_place(&self) -> u8
        ensures { result ≡ lowest_free MAX_SUBSYSTEMS 0 (λ at. list_any (λ s. s.at == at)
            (map.values self.now)) }
    {
        lowest_place(self.entries(), MAX_SUBSYSTEMS as u8)
    }

    /// Puts a value into a subsystem, where it is there.
    pub fn put(&mut self, name: &Nqn, put: SubsystemPut)
        ensures { self.new ≡ update_at self.old name.now (put_in_subsystem put) }
    {
        let Ok(at) = search(&self.rows, name) else {
            return;
        };
        self.rows[at].1.put(put);
    }

    /// Takes a subsystem away.
    pub fn remove(&mut self, name: &Nqn)
        ensures { self.new ≡ map.remove self.old name.now }
    {
        take_row(&mut self.rows, name);
    }

    /// The subsystem at a position.
    pub fn at(&self, at: u8) -> Option<&SubsystemRow>
        ensures { option_copied result ≡ find (λ s. s.at == at) (map.values self.now) }
    {
        row_at(self.entries(), at)
    }

    /// The subsystems with their NQNs, in byte order of NQN.
    pub fn entries(&self) -> &[(Nqn, SubsystemRow)]
        ensures { result.now ≡ map.entries self.now }
    {
        &self.rows
    }

    /// The subsystem with this number, from 0, in byte order of NQN; `None` exactly where there
    /// are not more than so many.
    pub fn nth(&self, n: usize) -> Option<&SubsystemRow>
        ensures { option_copied result ≡ slice_get (map.values self.now) n }
    {
        match self.entries().get(n) {
            Some((_, row)) => Some(row),
            None => None,
        }
    }

    /// Makes the link to a host, or takes it away.
    pub fn put_allowed(&mut self, name: &Nqn, host: &Nqn, linked: bool) -> Result<(), AllocError>
        ensures ok { OnOk result (self.new ≡ update_at self.old name.now
            (put_allowed host.now linked)) }
        ensures err { OnErr result (self.new ≡ self.old) }
        ensures taken { linked ≡ false → IsOk result }
    {
        let Ok(at) = search(&self.rows, name) else {
            return Ok(());
        };
        self.rows[at].1.allowed_hosts.keep_or_take(host, linked)?;
        Ok(())
    }
}
