ghost use Rattle.std.specs.Prelude.{◌≡◌, All, IfOk, IsTrue, map};
ghost use Rattle.configfs_tree.specs.Start.{are_disks, empty_tree};
ghost use Rattle.mem_bdev.specs.Blocks.{IsShape};
ghost use Rattle.tree_target.specs.Edits.{is_well_formed};
ghost use Rattle.tree_target.specs.Loads.{blank_of, code_unconnected, load_from, LoadsTree};

use configfs_tree::{Errno, Refused, Tree};
use link_rules::{Edit, apply};
use mem_bdev::{Disk, DiskLine};
use sqe_cqe::Binding;
use std::alloc::{AllocError, Global};

/// Why a configuration wasn't loaded: its first refused edit, numbered from 1, or want of memory.
#[derive(Clone, Copy, Debug, PartialEq, Eq)]
pub enum LoadError {
    Refused { edit: u64, errno: Errno },
    Memory,
}

// The disks of a plan, all zeros.
pub(crate) fn blank_disks(alloc: Global, lines: &[DiskLine]) -> Result<Vec<Disk>, AllocError>
    requires { All (λ d. IsShape d.shift d.blocks) lines.now }
    ensures { IfOk result (λ v. v.items ≡ map blank_of lines.now) }
{
    let mut disks = Vec::new(alloc);
    for line in lines {
        disks.push(Disk::new(alloc, line.shift, line.blocks)?)?;
    }
    Ok(disks)
}

// The queues of a plan, none of them connected.
pub(crate) fn unconnected(alloc: Global, ports: &[u16]) -> Result<Vec<Binding>, AllocError>
    ensures { IfOk result (λ v. v.items ≡ map code_unconnected ports.now) }
{
    let mut bindings = Vec::new(alloc);
    for port in ports {
        bindings.push(Binding {
            port: *port,
            bound: None,
        })?;
    }
    Ok(bindings)
}

// The tree after edits in their order, or the first that is refused.
pub(crate) fn apply_edits(alloc: Global, tree: Tree, edits: &[Edit]) -> Result<Tree, LoadError>
    requires { All (λ e. IsTrue (is_well_formed e)) edits.now }
    ensures { LoadsTree (load_from 1 tree edits.now) result }
{
    let mut made = tree;
    for (i, e) in edits.iter().enumerate() {
        match apply(alloc, &mut made, e) {
            Ok(_) => {}
            Err(Refused::Errno(errno)) => {
                return Err(LoadError::Refused {
                    edit: i as u64 + 1,
                    errno,
                });
            }
            Err(Refused::Memory) => return Err(LoadError::Memory),
        }
    }
    Ok(made)
}
