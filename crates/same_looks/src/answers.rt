//! The twelve questions of a look, at every place.
ghost use Rattle.std.specs.Prelude.{◌≡◌};

use crate::difference::Difference;
use sqe_cqe::Look;

// The positions of subsystems and of ports, the NSIDs, the groups and the controllers that are
// asked for: each that there is, and those just beside them.
const SUBSYSTEMS: u8 = 17;

const PORTS: u8 = 9;

const NSIDS: u32 = 2_050;

const GROUPS: u32 = 130;

const CONTROLLERS: u16 = 34;

// Both looks see the same at an NSID.
fn same_row<A: Look, B: Look>(a: &mut A, b: &mut B, sub: u8, nsid: u32) -> bool
    ensures a { A.behind a.new ≡ A.behind a.old }
    ensures b { B.behind b.new ≡ B.behind b.old }
{
    let one = a.ns(sub, nsid);
    let other = b.ns(sub, nsid);
    one == other
}

// Both looks mark an NSID the same.
fn same_marks<A: Look, B: Look>(a: &mut A, b: &mut B, sub: u8, nsid: u32) -> bool
    ensures a { A.behind a.new ≡ A.behind a.old }
    ensures b { B.behind b.new ≡ B.behind b.old }
{
    let stamps = a.ns_stamp(sub, nsid) == b.ns_stamp(sub, nsid);
    let marks = a.marks(sub, nsid) == b.marks(sub, nsid);
    let bars = a.bars(1, sub, nsid, 1) == b.bars(1, sub, nsid, 1);
    stamps && marks && bars
}

/// Whether both looks answer alike for an NSID of the subsystem at a position.
pub fn same_space<A: Look, B: Look>(a: &mut A, b: &mut B, sub: u8, nsid: u32) -> bool
    ensures a { A.behind a.new ≡ A.behind a.old }
    ensures b { B.behind b.new ≡ B.behind b.old }
{
    let rows = same_row(a, b, sub, nsid);
    let marks = same_marks(a, b, sub, nsid);
    rows && marks
}

/// Whether both looks answer alike for a group of the port at a position.
pub fn same_group<A: Look, B: Look>(a: &mut A, b: &mut B, port: u8, group: u32) -> bool
    ensures a { A.behind a.new ≡ A.behind a.old }
    ensures b { B.behind b.new ≡ B.behind b.old }
{
    let states = a.ana(port, group) == b.ana(port, group);
    let made = a.group_made(port, group) == b.group_made(port, group);
    let counts = a.group_count(port, 0, group) == b.group_count(port, 0, group);
    states && made && counts
}

// The NSIDs of the subsystem at a position.
fn same_spaces<A: Look, B: Look>(a: &mut A, b: &mut B, sub: u8) -> Result<(), Difference>
    ensures a { A.behind a.new ≡ A.behind a.old }
    ensures b { B.behind b.new ≡ B.behind b.old }
{
    for nsid in 0..NSIDS {
        if !same_space(a, b, sub, nsid) {
            return Err(Difference::Space(sub, nsid));
        }
    }
    Ok(())
}

// The stamps of ANA changes of the subsystem at a position.
fn same_stamps<A: Look, B: Look>(a: &mut A, b: &mut B, sub: u8) -> Result<(), Difference>
    ensures a { A.behind a.new ≡ A.behind a.old }
    ensures b { B.behind b.new ≡ B.behind b.old }
{
    for port in 0..PORTS {
        if a.ana_stamp(sub, port) != b.ana_stamp(sub, port) {
            return Err(Difference::Stamp(sub, port));
        }
    }
    Ok(())
}

/// Both looks answer alike for every NSID, from 0 to 2,049, of every position of a subsystem and of
/// the one past the last.
pub fn same_subsystems<A: Look, B: Look>(a: &mut A, b: &mut B) -> Result<(), Difference>
    ensures a { A.behind a.new ≡ A.behind a.old }
    ensures b { B.behind b.new ≡ B.behind b.old }
{
    for sub in 0..SUBSYSTEMS {
        same_spaces(a, b, sub)?;
        same_stamps(a, b, sub)?;
    }
    Ok(())
}

// The groups of the port at a position.
fn same_groups<A: Look, B: Look>(a: &mut A, b: &mut B, port: u8) -> Result<(), Difference>
    ensures a { A.behind a.new ≡ A.behind a.old }
    ensures b { B.behind b.new ≡ B.behind b.old }
{
    for group in 0..GROUPS {
        if !same_group(a, b, port, group) {
            return Err(Difference::Group(port, group));
        }
    }
    Ok(())
}

/// Both looks answer alike for every group, from 0 to 129, of every position of a port and of the
/// one past the last.
pub fn same_ports<A: Look, B: Look>(a: &mut A, b: &mut B) -> Result<(), Difference>
    ensures a { A.behind a.new ≡ A.behind a.old }
    ensures b { B.behind b.new ≡ B.behind b.old }
{
    for port in 0..PORTS {
        same_groups(a, b, port)?;
    }
    Ok(())
}

/// Both looks find the same controllers ready, of the numbers from 0 to 33.
pub fn same_controllers<A: Look, B: Look>(a: &mut A, b: &mut B) -> Result<(), Difference>
    ensures a { A.behind a.new ≡ A.behind a.old }
    ensures b { B.behind b.new ≡ B.behind b.old }
{
    for ctrl in 0..CONTROLLERS {
        if a.ready(ctrl) != b.ready(ctrl) {
            return Err(Difference::Controller(ctrl));
        }
    }
    Ok(())
}

/// Both looks tell the same number of ANA changes, the same serial and the same offers.
pub fn same_whole<A: Look, B: Look>(a: &mut A, b: &mut B) -> Result<(), Difference>
    ensures a { A.behind a.new ≡ A.behind a.old }
    ensures b { B.behind b.new ≡ B.behind b.old }
{
    let counts = a.ana_count() == b.ana_count();
    let serials = a.serial() == b.serial();
    let offers = a.offers() == b.offers();
    if counts && serials && offers {
        Ok(())
    } else {
        Err(Difference::Whole)
    }
}

/// Both looks answer alike: every controller, every NSID of every subsystem, every group of every
/// port, and just beside them.
pub fn same_answers<A: Look, B: Look>(a: &mut A, b: &mut B) -> Result<(), Difference>
    ensures a { A.behind a.new ≡ A.behind a.old }
    ensures b { B.behind b.new ≡ B.behind b.old }
{
    same_controllers(a, b)?;
    same_subsystems(a, b)?;
    same_ports(a, b)?;
    same_whole(a, b)
}
