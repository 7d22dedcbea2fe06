//! Which disks have an enabled namespace.
ghost use Rattle.std.specs.Prelude.{◌≡◌};
ghost use Rattle.std.specs.List.{list_any};
ghost use Rattle.ns_table.specs.Words.{entry_shows, is_shown, shows, subsystem_shows};

use configfs_rows::{NamespaceRow, Nqn, SubsystemRow};
use configfs_tree::Tree;

// Whether a namespace is enabled on the disk.
pub(crate) fn namespace_shows(namespace: &NamespaceRow, disk: u8) -> bool
    ensures { result ≡ shows disk namespace.now }
{
    match namespace.disk {
        None => false,
        Some(number) => namespace.enabled && number == disk,
    }
}

// Whether one of its namespaces is enabled on the disk.
fn some_shows(row: &SubsystemRow, disk: u8) -> bool
    ensures { result ≡ subsystem_shows disk row.now }
{
    row.namespaces
        .entries()
        .iter()
        .any(|(_, namespace)| namespace_shows(namespace, disk))
}

// Whether one of the subsystems has a namespace that is enabled on the disk.
fn any_shows(rows: &[(Nqn, SubsystemRow)], disk: u8) -> bool
    ensures { result ≡ list_any (entry_shows disk) rows.now }
{
    rows.iter().any(|(_, row)| some_shows(row, disk))
}

/// Whether an enabled namespace is on a disk, by its number from 0.
pub fn is_disk_shown(tree: &Tree, disk: u8) -> bool
    ensures { result ≡ is_shown tree.now disk }
{
    any_shows(tree.subsystems().entries(), disk)
}
