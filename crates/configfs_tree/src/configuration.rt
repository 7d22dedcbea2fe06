ghost use Rattle.std.specs.Prelude.{◌≡◌, ◌≤◌, ◌||◌, ◌+◌, ◌-◌, ◌^◌, ◌<◌, length, min, nat_lt, slice_index, IfOk, map, MatchOption, None, Some};
ghost use Rattle.std.specs.List.{list_any};
ghost use Rattle.std.specs.Str.{bytes_eq};
ghost use Rattle.configfs_rows.specs.Holders.{are_apart, holds_path};
ghost use Rattle.configfs_rows.specs.declared.limits.TheConstants.{MAX_DISKS, MAX_CONTROLLERS};
ghost use Rattle.configfs_tree.specs.Links.{one_more};
ghost use Rattle.configfs_tree.specs.NamespaceRows.{rows_of};
ghost use Rattle.configfs_tree.specs.Start.{are_disks, empty_tree, free_disk, line_path};

use configfs_rows::{
    DiskRow, Disks, MAX_CONTROLLERS, MAX_DISKS, MAX_PORTS, MAX_SUBSYSTEMS, Names, NamespaceRow,
    Nqn, Ports, SubsystemRow, Subsystems,
};
use mem_bdev::{DiskLine, Name};
use std::alloc::{AllocError, Global};

/// How many controllers are attached, by the positions of their subsystems and of their ports.
#[derive(Clone, Copy, Debug, PartialEq, Eq)]
pub struct Attached {
    pub subsystems: [u8; MAX_SUBSYSTEMS],
    pub ports: [u8; MAX_PORTS],
}

/// The part of the configuration that published calls alone change: hosts, subsystems and ports,
/// the attached controllers, and the count of ANA changes. The end of a drain leaves it.
#[derive(Drop)]
pub struct Settings {
    pub hosts: Names,
    pub subsystems: Subsystems,
    pub ports: Ports,
    pub attached: Attached,
    pub ana_count: u64,
}

/// The configuration, and the disks with their holders: what a tree keeps, and what contracts
/// see of one. A value outside of a tree need not meet the standing facts.
#[derive(Drop)]
pub struct Configuration {
    pub settings: Settings,
    pub disks: Disks,
}

// Whether a disk has this path.
fn has_line(lines: &[DiskLine], path: &[u8]) -> bool
    ensures { result ≡ list_any (bytes_eq path.now) (map line_path lines.now) }
{
    match lines {
        [] => false,
        [line, rest @ ..] => path == line.path.as_bytes() || has_line(rest, path),
    }
}

// Whether the paths of disks differ.
fn paths_differ(lines: &[DiskLine]) -> bool
    ensures { result ≡ are_apart (map line_path lines.now) }
{
    match lines {
        [] => true,
        [line, rest @ ..] => !has_line(rest, line.path.as_bytes()) && paths_differ(rest),
    }
}

/// Whether a tree may have these disks: there are at most 64, and their paths differ.
pub fn may_be_disks(lines: &[DiskLine]) -> bool
    ensures { result ≡ are_disks lines.now }
{
    lines.len() <= MAX_DISKS && paths_differ(lines)
}

// The disks of a plan, each of them free.
fn make_disks(alloc: Global, lines: &[DiskLine]) -> Result<Disks, AllocError>
    requires { length lines.now ≤ MAX_DISKS }
    ensures { IfOk result (λ d. d ≡ map free_disk lines.now) }
{
    let mut rows = Vec::new(alloc);
    for line in lines {
        let path = Name::copied(alloc, line.path.as_bytes())?;
        rows.push(DiskRow { path, holder: None })?;
    }
    Ok(Disks::from_vec(rows))
}

// A count after one more, which stands still at its last number.
pub(crate) fn count_up(count: u64) -> u64
    ensures { result ≡ min (count + 1) (2 ^ 64 - 1) }
{
    count.saturating_add(1)
}

// The count at a position, or 0 past the last.
pub(crate) fn count_at(counts: &[u8], at: u8) -> u8
    ensures { result ≡ slice_index counts.now at }
{
    match counts.get(at as usize) {
        Some(n) => *n,
        None => 0,
    }
}

// Counts one more at a position.
pub(crate) fn raise_at(counts: &mut [u8], at: u8)
    requires { slice_index counts.old at < MAX_CONTROLLERS }
    ensures { counts.new ≡ one_more counts.old at }
{
    if (at as usize) < counts.len() {
        counts[at as usize] += 1;
    }
}

impl Settings {
    // The row of a namespace with the row of its subsystem.
    pub(crate) fn find_namespace(
        &self,
        sub: &Nqn,
        nsid: u32,
    ) -> Option<(&SubsystemRow, &NamespaceRow)>
        ensures { MatchOption result (rows_of self.now sub.now nsid ≡ None)
            (λ rows. rows_of self.now sub.now nsid ≡ Some (rows.0.now, rows.1.now)) }
    {
        let row = self.subsystems.get(sub)?;
        let namespace = row.namespaces.get(nsid)?;
        Some((row, namespace))
    }
}

impl Configuration {
    // The empty configuration over the disks of a plan.
    pub(crate) fn empty(alloc: Global, disks: &[DiskLine]) -> Result<Self, AllocError>
        requires { length disks.now ≤ MAX_DISKS }
        ensures { IfOk result (λ t. t ≡ empty_tree disks.now) }
    {
        let disks = make_disks(alloc, disks)?;
        let settings = Settings {
            hosts: Names::new(alloc),
            subsystems: Subsystems::new(alloc),
            ports: Ports::new(alloc),
            attached: Attached {
                subsystems: [0; MAX_SUBSYSTEMS],
                ports: [0; MAX_PORTS],
            },
            ana_count: 0,
        };
        Ok(Configuration { settings, disks })
    }

    // Whether a controller is attached to the subsystem at a position.
    pub(crate) fn controller_at_subsystem(&self, at: u8) -> bool
        ensures { result ≡ nat_lt 0 (slice_index self.now.settings.attached.subsystems at) }
    {
        count_at(&self.settings.attached.subsystems, at) > 0
    }

    // Whether a controller is attached through the port at a position.
    pub(crate) fn controller_at_port(&self, at: u8) -> bool
        ensures { result ≡ nat_lt 0 (slice_index self.now.settings.attached.ports at) }
    {
        count_at(&self.settings.attached.ports, at) > 0
    }

    // Whether a namespace is enabled or draining.
    pub(crate) fn is_busy(&self, at: u8, nsid: u32, row: &NamespaceRow) -> bool
        ensures { result ≡ (row.now.enabled || holds_path self.now.disks at nsid
            row.now.device_path) }
    {
        row.enabled || self.disks.holds(at, nsid, &row.device_path)
    }
}
