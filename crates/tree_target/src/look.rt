ghost use Rattle.std.specs.Prelude.{◌≡◌, ◌≤◌, Some};
ghost use Rattle.sqe_cqe.specs.Answers.{HasShape};
ghost use Rattle.configfs_tree.specs.Links.{subsystem_row, port_row};
ghost use Rattle.tree_target.specs.Views.{seen_of, space_in, row_of, group_in};

use change_stamps::ChangeStamps;
use configfs_rows::NamespaceRow;
use configfs_tree::{Tree, subsystem_positions};
use mem_bdev::Disk;
use sqe_cqe::{Ana, Controllers, Look, NsRow, Offers, Seen, ready};

// An enabled namespace on the disk with this number.
#[inline(always)]
fn row_on(number: u8, disk: &Disk, namespace: &NamespaceRow) -> Seen
    requires { namespace.now.group ≤ 128 }
    ensures value { result ≡ Seen.On (row_of number disk.now namespace.now) }
    ensures shape { HasShape result }
{
    Seen::On(NsRow {
        disk: number,
        shift: disk.shift(),
        blocks: disk.blocks(),
        group: namespace.group,
        uuid: namespace.uuid,
        nguid: namespace.nguid,
    })
}

// What stands at a namespace, on the disk whose number it keeps.
#[inline(always)]
fn seen_at(disks: &[Disk], namespace: &NamespaceRow) -> Seen
    requires { namespace.now.group ≤ 128 }
    ensures value { result ≡ seen_of disks.now (Some namespace.now) }
    ensures shape { HasShape result }
{
    if !namespace.enabled {
        return Seen::Off;
    }
    let Some(number) = namespace.disk else {
        return Seen::Off;
    };
    let Some(disk) = disks.get(usize::from(number)) else {
        return Seen::Off;
    };
    row_on(number, disk, namespace)
}

// What stands at an NSID of the subsystem at a position.
#[inline(always)]
fn seen(tree: &Tree, disks: &[Disk], sub: u8, nsid: u32) -> Seen
    ensures value { result ≡ seen_of disks.now (space_in nsid (subsystem_row tree.now sub)) }
    ensures shape { HasShape result }
{
    tree.certify();
    subsystem_positions(tree);
    let Some(row) = tree.subsystems().at(sub) else {
        return Seen::NotConfigured;
    };
    let Some(namespace) = row.namespaces.get(nsid) else {
        return Seen::NotConfigured;
    };
    seen_at(disks, namespace)
}

// The state of a group at the port at a position, where it is made.
#[inline(always)]
fn group_at(tree: &Tree, port: u8, group: u32) -> Option<Ana>
    ensures { result ≡ group_in group (port_row tree.now port) }
{
    let Some(row) = tree.ports().at(port) else {
        return None;
    };
    row.groups.get(group)
}

/// A look at a tree, its controllers and its disks, by positions and disk numbers: no path is
/// compared. It loads nothing that is counted.
#[derive(Drop)]
pub struct TreeLook<'a> {
    tree: &'a Tree,
    controllers: &'a Controllers,
    disks: &'a [Disk],
    stamps: &'a ChangeStamps,
}

impl<'a> TreeLook<'a> {
    ghost use Rattle.tree_target.specs.Looked.{tree_answers};

    /// A look at this configuration. The disks are those of the tree, in their order, and the
    /// stamps those of its last changes.
    pub fn new(
        tree: &'a Tree,
        controllers: &'a Controllers,
        disks: &'a [Disk],
        stamps: &'a ChangeStamps,
    ) -> Self
        ensures tree { result.tree.now ≡ tree.now }
        ensures controllers { result.controllers.now ≡ controllers.now }
        ensures disks { result.disks.now ≡ disks.now }
        ensures stamps { result.stamps.now ≡ stamps.now }
    {
        TreeLook {
            tree,
            controllers,
            disks,
            stamps,
        }
    }
}

impl<'a> Look for TreeLook<'a> {
    ghost use Rattle.std.specs.Prelude.{List};
    ghost use Rattle.mem_bdev.specs.Blocks.{Blocks};
    ghost use Rattle.sqe_cqe.specs.declared.controllers.ControllerRow.{ControllerRow};
    ghost use Rattle.configfs_tree.specs.declared.configuration.Configuration.{Configuration};
    ghost use Rattle.tree_target.specs.Looked.{tree_answers};
    ghost use Rattle.change_stamps.specs.Stamps.{Stamps};

    ghost Behind = { Configuration × List ControllerRow × List Blocks × Stamps };

    ghost behind = { λ s. (s.tree.now, s.controllers.now, s.disks.now, s.stamps.now) };

    ghost told = { λ b. tree_answers b.0 b.1 b.2 b.3 };

    ghost loads = { λ s. 0 };

    fn ready(&mut self, ctrl: u16) -> bool {
        ready(self.controllers, ctrl)
    }

    #[inline(always)]
    fn ns(&mut self, sub: u8, nsid: u32) -> Seen {
        seen(self.tree, self.disks, sub, nsid)
    }

    #[inline(always)]
    fn ana(&mut self, port: u8, group: u32) -> Ana {
        match group_at(self.tree, port, group) {
            None => Ana::Inaccessible,
            Some(state) => state,
        }
    }

    fn group_made(&mut self, port: u8, group: u32) -> bool {
        group_at(self.tree, port, group).is_some()
    }

    fn ns_stamp(&mut self, sub: u8, nsid: u32) -> u32 {
        self.stamps.space(sub, nsid)
    }

    fn ana_stamp(&mut self, sub: u8, port: u8) -> u32 {
        self.stamps.ana(sub, port)
    }

    fn ana_count(&mut self) -> u64 {
        self.tree.ana_count()
    }

    fn serial(&mut self) -> u32 {
        self.stamps.serial()
    }

    fn bars(&mut self, _ctrl: u16, _sub: u8, _nsid: u32, _opcode: u8) -> u16 {
        0
    }

    fn offers(&mut self) -> Offers {
        Offers {
            nsids: 2048,
            oncs: 0x0008,
            nwpc: 0,
            rescap: 0,
        }
    }

    fn marks(&mut self, _sub: u8, _nsid: u32) -> u8 {
        0
    }

    fn group_count(&mut self, _port: u8, _sub: u8, _group: u32) -> u64 {
        self.tree.ana_count()
    }
}
