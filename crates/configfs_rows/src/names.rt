ghost use Rattle.std.specs.Prelude.{◌≡◌, OnOk, OnErr, IsOk, false, ◌==◌, option_copied};
ghost use Rattle.std.specs.List.{slice_get};
ghost use Rattle.configfs_rows.specs.Maps.{kept_or_taken};
ghost use Rattle.std.specs.FinMap as map;

use crate::nqn::Nqn;
use std::alloc::{AllocError, Global};
use std::collections::BTreeMap;
use std::collections::btree_map::Keys;
use std::marker::Model;

/// A set of NQNs: the hosts of a tree, the hosts that a subsystem allows, the subsystems that a
/// port links. Contracts see a finite map from names to nothing.
#[derive(Drop)]
pub struct Names {
    names: BTreeMap<Nqn, ()>,
}

impl Model for Names {
    ghost use Rattle.std.specs.Coded.{coded_ℕ, coded_list};
    ghost use base.Stored.{coded_unit};
    ghost use Rattle.std.specs.FinMap as map;
    ghost use Rattle.configfs_rows.specs.Nqns.{name_order};

    ghost Value = { map.FinMap name_order (Unit {0}) };

    ghost coded = { map.code (coded_list coded_ℕ) coded_unit };

    ghost view = { λ n. map.from_entries n.names.entries };
}

impl Names {
    /// The empty set.
    pub fn new(alloc: Global) -> Self
        ensures { result ≡ map.empty }
    {
        Names {
            names: BTreeMap::new(alloc),
        }
    }

    /// How many names there are.
    pub fn len(&self) -> usize
        ensures { result ≡ map.len self.now }
    {
        self.names.len()
    }

    /// Whether there is no name.
    pub fn is_empty(&self) -> bool
        ensures { result ≡ (map.len self.now == 0) }
    {
        self.names.len() == 0
    }

    /// Whether the name is there.
    pub fn contains(&self, name: &Nqn) -> bool
        ensures { result ≡ map.contains_key self.now name.now }
    {
        self.names.contains_key(name)
    }

    /// Adds a name. On want of memory the set is as before.
    pub fn insert(&mut self, name: Nqn) -> Result<(), AllocError>
        ensures ok { OnOk result (self.new ≡ map.insert self.old name tt) }
        ensures err { OnErr result (self.new ≡ self.old) }
    {
        self.names.insert(name, ())?;
        Ok(())
    }

    /// Takes a name away.
    pub fn remove(&mut self, name: &Nqn)
        ensures { self.new ≡ map.remove self.old name.now }
    {
        let _ = self.names.remove(name);
    }

    /// The name with this number, from 0, in byte order; `None` exactly where there are not
    /// more than so many.
    pub fn nth(&self, n: usize) -> Option<&Nqn>
        ensures { option_copied result ≡ slice_get (map.keys self.now) n }
    {
        self.iter().nth(n)
    }

    /// The names in byte order.
    pub fn iter(&self) -> Keys<'_, Nqn, ()>
        ensures { result ≡ map.keys self.now }
    {
        self.names.keys()
    }

    /// Puts a name in, or takes it away. Taking away takes no memory.
    pub fn keep_or_take(&mut self, name: &Nqn, kept: bool) -> Result<(), AllocError>
        ensures ok { OnOk result (self.new ≡ kept_or_taken self.old name.now kept) }
        ensures err { OnErr result (self.new ≡ self.old) }
        ensures taken { kept ≡ false → IsOk result }
    {
        if kept {
            self.insert(name.copied())
        } else {
            self.remove(name);
            Ok(())
        }
    }
}
