ghost use Rattle.std.specs.Prelude.{◌≡◌, ◌≤◌, ◌<◌, ℕ, List, is_some, length, IfSome};
ghost use Rattle.std.specs.List.{slice_get};
ghost use Rattle.std.specs.Str.{bytes_eq};
ghost use Rattle.std.specs.Option.{option_copied};
ghost use Rattle.configfs_rows.specs.Holders.{disk_of, holder_of, hold, holds_path, has_disk, is_held, number_of, paths_of};

use crate::limits::MAX_DISKS;
use mem_bdev::Name;
use std::marker::Model;

/// The namespace that holds a disk, by the position of its subsystem and its NSID: it is enabled,
/// or it is draining.
#[derive(Clone, Copy, Debug, PartialEq, Eq)]
pub struct Holder {
    pub sub: u8,
    pub nsid: u32,
}

/// A disk of the plan: its path, and the namespace that holds it, if any.
#[derive(Debug, Drop)]
pub struct DiskRow {
    pub path: Name,
    pub holder: Option<Holder>,
}

/// The disks in the plan's order, at most 64, numbered from 0. Contracts see the list.
#[derive(Debug, Drop)]
pub struct Disks {
    rows: Vec<DiskRow>,
}

impl Model for Disks {
    ghost use Rattle.std.specs.Prelude.{List, length, ◌≤◌};
    ghost use Rattle.configfs_rows.specs.declared.limits.TheConstants.{MAX_DISKS};
    ghost use Rattle.configfs_rows.specs.declared.disks.DiskRow.{DiskRow};

    ghost Value = { List DiskRow };

    ghost view = { λ d. d.rows.items };

    ghost invariant = { λ d. length d.rows.items ≤ MAX_DISKS };
}

impl Disks {
    /// These disks.
    pub fn from_vec(rows: Vec<DiskRow>) -> Self
        requires { length rows.items ≤ MAX_DISKS }
        ensures { result ≡ rows.items }
    {
        Disks { rows }
    }

    /// Whether the namespace, by the position of its subsystem, holds the disk of the path.
    pub fn holds(&self, sub: u8, nsid: u32, path: &Option<Name>) -> bool
        ensures { result ≡ holds_path self.now sub nsid path.now }
    {
        match path {
            None => false,
            Some(path) => match find_holder(&self.rows, path.as_bytes()) {
                None => false,
                Some(h) => h.sub == sub && h.nsid == nsid,
            },
        }
    }

    /// Whether a path names a disk.
    pub fn has(&self, path: &Option<Name>) -> bool
        ensures { result ≡ has_disk self.now path.now }
    {
        match path {
            None => false,
            Some(path) => names_disk(&self.rows, path.as_bytes()),
        }
    }

    /// Whether the disk of a path is held.
    pub fn is_held(&self, path: &Option<Name>) -> bool
        ensures { result ≡ is_held self.now path.now }
    {
        match path {
            None => false,
            Some(path) => find_holder(&self.rows, path.as_bytes()).is_some(),
        }
    }

    /// How many disks there are.
    pub fn len(&self) -> usize
        ensures { result ≡ length self.now }
    {
        self.rows.len()
    }

    /// The disk with this number, with its path and its holder; `None` exactly where there are
    /// not more than so many.
    pub fn get(&self, number: u8) -> Option<&DiskRow>
        ensures { option_copied result ≡ slice_get self.now number }
    {
        self.rows.get(number as usize)
    }

    /// The number of the disk of a path; `None` exactly where the path names no disk.
    pub fn number(&self, path: &[u8]) -> Option<u8>
        ensures { result ≡ number_of path.now (paths_of self.now) }
    {
        match find_number(&self.rows, path) {
            None => None,
            Some(number) => Some(number as u8),
        }
    }

    /// Gives the disk of a path another holder, or none.
    pub fn hold(&mut self, path: &[u8], h: Option<Holder>)
        ensures { self.new ≡ hold path.now h self.old }
    {
        put_holder(self.rows.as_mut_slice(), path, h);
    }
}

fn names_disk(rows: &[DiskRow], path: &[u8]) -> bool
    ensures { result ≡ is_some (disk_of path.now rows.now) }
{
    match rows {
        [] => false,
        [d, rest @ ..] => d.path.as_bytes() == path || names_disk(rest, path),
    }
}

fn find_holder(rows: &[DiskRow], path: &[u8]) -> Option<Holder>
    ensures { result ≡ holder_of (disk_of path.now rows.now) }
{
    match rows {
        [] => None,
        [d, rest @ ..] => {
            if d.path.as_bytes() == path {
                d.holder
            } else {
                find_holder(rest, path)
            }
        }
    }
}

fn find_number(rows: &[DiskRow], path: &[u8]) -> Option<usize>
    ensures is { result ≡ number_of path.now (paths_of rows.now) }
    ensures below { IfSome result (λ n. n < length rows.now) }
{
    match rows {
        [] => None,
        [d, rest @ ..] => {
            if d.path.as_bytes() == path {
                Some(0)
            } else {
                match find_number(rest, path) {
                    Some(n) => Some(n + 1),
                    None => None,
                }
            }
        }
    }
}

fn put_holder(rows: &mut [DiskRow], path: &[u8], h: Option<Holder>)
    ensures { rows.new ≡ hold path.now h rows.old }
{
    for i in 0..rows.len() {
        if rows[i].path.as_bytes() == path {
            rows[i].holder = h;
            return;
        }
    }
}
