ghost use Rattle.std.specs.Prelude.{◌≡◌, ℕ, Some, None, OnOk, OnErr, option_copied};
ghost use Rattle.std.specs.Ordering.{nat_cmp};
ghost use Rattle.std.specs.List.{slice_get};
ghost use Rattle.std.specs.FinMap as map;
ghost use Rattle.configfs_rows.specs.Maps.{update_at, IsPlaceOf};
ghost use Rattle.configfs_rows.specs.Rows.{put_in, identifier_of, fresh_namespace};

use crate::ordered_rows::{search, take_at};
use mem_bdev::Name;
use std::alloc::{AllocError, Global};
use std::marker::Model;

/// A namespace with its attributes: the path of its disk (unset at first) with the number of the
/// disk that it names (from 0 in the plan's order, if it names one), its UUID and NGUID
/// (16 zero bytes at first), its ANA group (1 at first), and whether it is enabled. A namespace
/// that isn't enabled and still holds the disk of its path is draining.
#[derive(Debug, Drop)]
pub struct NamespaceRow {
    pub device_path: Option<Name>,
    pub disk: Option<u8>,
    pub uuid: [u8; 16],
    pub nguid: [u8; 16],
    pub group: u8,
    pub enabled: bool,
}

/// The phase of a namespace: enabled; draining, from the edit that disables it to the end of
/// its drain; or off.
#[derive(Clone, Copy, Debug, PartialEq, Eq)]
pub enum Phase {
    Off,
    Enabled,
    Draining,
}

/// An identifier of a namespace, as nvmet's configfs names it.
#[derive(Clone, Copy, Debug, PartialEq, Eq)]
pub enum Identifier {
    /// `device_uuid`
    Uuid,
    /// `device_nguid`
    Nguid,
}

/// A new value of an attribute of a namespace.
#[derive(Debug, Drop)]
pub enum NamespacePut {
    /// A path, with the number of the disk that it names.
    Path(Name, Option<u8>),
    Identifier(Identifier, [u8; 16]),
    Group(u8),
    Enabled(bool),
}

impl NamespaceRow {
    // A namespace as it is made.
    fn fresh() -> Self
        ensures { result ≡ fresh_namespace }
    {
        NamespaceRow {
            device_path: None,
            disk: None,
            uuid: [0; 16],
            nguid: [0; 16],
            group: 1,
            enabled: false,
        }
    }

    // Makes it as it was made.
    fn renew(&mut self)
        ensures { self.new ≡ fresh_namespace }
    {
        *self = NamespaceRow::fresh();
    }

    /// One of its identifiers.
    pub fn identifier(&self, which: Identifier) -> &[u8; 16]
        ensures { result.now ≡ identifier_of which self.now }
    {
        match which {
            Identifier::Uuid => &self.uuid,
            Identifier::Nguid => &self.nguid,
        }
    }

    // Puts a value into its attribute.
    fn put(&mut self, put: NamespacePut)
        ensures { self.new ≡ put_in put self.old }
    {
        match put {
            NamespacePut::Path(path, disk) => {
                self.device_path = Some(path);
                self.disk = disk;
            }
            NamespacePut::Identifier(Identifier::Uuid, uuid) => self.uuid = uuid,
            NamespacePut::Identifier(Identifier::Nguid, nguid) => self.nguid = nguid,
            NamespacePut::Group(group) => self.group = group,
            NamespacePut::Enabled(enabled) => self.enabled = enabled,
        }
    }
}

// Where the namespace with this NSID stands, or where it would. Most configurations number
// namespaces from 1 on without a gap, so the row is looked for at its number first.
fn search_nsid(rows: &[(u32, NamespaceRow)], nsid: u32) -> Result<usize, usize>
    ensures { IsPlaceOf nat_cmp nsid rows.now result }
{
    let guess = (nsid as usize).wrapping_sub(1);
    if let Some(row) = rows.get(guess) {
        if row.0 == nsid {
            return Ok(guess);
        }
    }
    search(rows, &nsid)
}

/// The namespaces of a subsystem in the order of their NSIDs. Contracts see a finite map.
#[derive(Drop)]
pub struct Namespaces {
    rows: Vec<(u32, NamespaceRow)>,
}

impl Model for Namespaces {
    ghost use Rattle.std.specs.Prelude.{IsTrue};
    ghost use Rattle.std.specs.Ordering.{nat_cmp};
    ghost use Rattle.std.specs.FinMap as map;
    ghost use Rattle.std.specs.Coded.{coded_ℕ};
    ghost use Rattle.configfs_rows.specs.declared.namespaces.NamespaceRow.{NamespaceRow};
    ghost use Rattle.configfs_rows.specs.contracts.namespaces.NamespaceRow as row;

    ghost Value = { map.FinMap nat_cmp NamespaceRow };

    ghost coded = { map.code coded_ℕ row.the_row.coded };

    ghost view = { λ n. map.from_sorted n.rows.items };

    ghost invariant = { λ n. IsTrue (map.is_sorted nat_cmp n.rows.items) };
}

impl Namespaces {
    /// No namespace.
    pub fn new(alloc: Global) -> Self
        ensures { result ≡ map.empty }
    {
        Namespaces {
            rows: Vec::new(alloc),
        }
    }

    /// The namespaces with their NSIDs, in rising order.
    pub fn entries(&self) -> &[(u32, NamespaceRow)]
        ensures { result.now ≡ map.entries self.now }
    {
        &self.rows
    }

    /// The namespace with this NSID.
    pub fn get(&self, nsid: u32) -> Option<&NamespaceRow>
        ensures { option_copied result ≡ map.get self.now nsid }
    {
        match search_nsid(&self.rows, nsid) {
            Ok(at) => Some(&self.rows[at].1),
            Err(_) => None,
        }
    }

    /// How many namespaces there are.
    pub fn len(&self) -> usize
        ensures { result ≡ map.len self.now }
    {
        self.entries().len()
    }

    /// Makes a namespace. On want of memory all is as before.
    pub fn add(&mut self, nsid: u32) -> Result<(), AllocError>
        ensures ok { OnOk result (self.new ≡ map.insert self.old nsid fresh_namespace) }
        ensures err { OnErr result (self.new ≡ self.old) }
    {
        match search_nsid(&self.rows, nsid) {
            Ok(at) => self.rows[at].1.renew(),
            Err(at) => self.rows.insert(at, (nsid, NamespaceRow::fresh()))?,
        }
        Ok(())
    }

    /// Takes a namespace away.
    pub fn remove(&mut self, nsid: u32)
        ensures { self.new ≡ map.remove self.old nsid }
    {
        if let Ok(at) = search_nsid(&self.rows, nsid) {
            take_at(&mut self.rows, at);
        }
    }

    /// Puts a value into a namespace, where it is there.
    pub fn put(&mut self, nsid: u32, put: NamespacePut)
        ensures { self.new ≡ update_at self.old nsid (put_in put) }
    {
        if let Ok(at) = search_nsid(&self.rows, nsid) {
            self.rows[at].1.put(put);
        }
    }

    /// The NSID with this number, from 0, in rising order; `None`
    /// exactly where there are not more than so many.
    pub fn nth(&self, n: usize) -> Option<u32>
        ensures { result ≡ slice_get (map.keys self.now) n }
    {
        match self.entries().get(n) {
            Some(row) => Some(row.0),
            None => None,
        }
    }
}
