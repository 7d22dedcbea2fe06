//! Identify pages and logs over two looks.
ghost use Rattle.std.specs.Prelude.{◌≡◌};

use crate::difference::Difference;
use admin_identify::{
    CNS_ACTIVE_LIST, CNS_CONTROLLER, CNS_DESCRIPTORS, CNS_NAMESPACE, check_identify, write_identify,
};
use async_events::Events;
use log_pages::{ANA_LOG, CHANGED_NAMESPACES, check_log, write_log};
use sqe_cqe::{Ctrl, Look, SUCCESS, Sqe, read_sqe};

// The size of an Identify page.
const PAGE: usize = 4_096;

// How many bytes of a log are read: more than the largest ANA log has.
const LOG: usize = 16_384;

// The NSIDs above which active namespaces are listed, and that pages of few NSIDs are asked for.
const SOME: [u32; 8] = [0, 1, 2, 3, 1_024, 2_047, 2_048, 2_049];

// The NSIDs that pages of namespaces are asked for.
const NSIDS: u32 = 2_050;

fn identify(cns: u32, nsid: u32) -> Sqe {
    let mut e = read_sqe(&[0; 64]);
    e.opcode = 0x06;
    e.flags = 0x40;
    e.nsid = nsid;
    e.sgl_len = 4_096;
    e.cdw10 = cns;
    e
}

/// Whether an Identify gets the same status and the same page over both looks.
pub fn same_identify<A: Look, B: Look>(c: &Ctrl, e: &Sqe, a: &mut A, b: &mut B) -> bool
    ensures a { A.behind a.new ≡ A.behind a.old }
    ensures b { B.behind b.new ≡ B.behind b.old }
{
    let one = check_identify(c, e, a);
    let other = check_identify(c, e, b);
    let mut first = [0; PAGE];
    let mut second = [0xee; PAGE];
    write_identify(c, e, a, &mut first);
    write_identify(c, e, b, &mut second);
    one == other && first == second
}

// The pages of one namespace: its own, and its descriptors.
fn same_namespace<A: Look, B: Look>(
    c: &Ctrl,
    nsid: u32,
    a: &mut A,
    b: &mut B,
) -> Result<(), Difference>
    ensures a { A.behind a.new ≡ A.behind a.old }
    ensures b { B.behind b.new ≡ B.behind b.old }
{
    if !same_identify(c, &identify(CNS_NAMESPACE, nsid), a, b) {
        return Err(Difference::Identify(CNS_NAMESPACE, nsid));
    }
    if !same_identify(c, &identify(CNS_DESCRIPTORS, nsid), a, b) {
        return Err(Difference::Identify(CNS_DESCRIPTORS, nsid));
    }
    Ok(())
}

/// The Identify pages of each NSID from 0 to 2,049 are the same over both looks for a controller.
pub fn same_namespaces<A: Look, B: Look>(c: &Ctrl, a: &mut A, b: &mut B) -> Result<(), Difference>
    ensures a { A.behind a.new ≡ A.behind a.old }
    ensures b { B.behind b.new ≡ B.behind b.old }
{
    for nsid in 0..NSIDS {
        same_namespace(c, nsid, a, b)?;
    }
    Ok(())
}

// The active namespaces above an NSID.
fn same_list<A: Look, B: Look>(c: &Ctrl, above: u32, a: &mut A, b: &mut B) -> Result<(), Difference>
    ensures a { A.behind a.new ≡ A.behind a.old }
    ensures b { B.behind b.new ≡ B.behind b.old }
{
    if same_identify(c, &identify(CNS_ACTIVE_LIST, above), a, b) {
        Ok(())
    } else {
        Err(Difference::Identify(CNS_ACTIVE_LIST, above))
    }
}

/// The pages of some NSIDs, the lists of active namespaces and the controller's page are the same
/// over both looks for a controller.
pub fn same_pages<A: Look, B: Look>(c: &Ctrl, a: &mut A, b: &mut B) -> Result<(), Difference>
    ensures a { A.behind a.new ≡ A.behind a.old }
    ensures b { B.behind b.new ≡ B.behind b.old }
{
    for nsid in SOME {
        same_namespace(c, nsid, a, b)?;
        same_list(c, nsid, a, b)?;
    }
    if same_identify(c, &identify(CNS_CONTROLLER, 0), a, b) {
        Ok(())
    } else {
        Err(Difference::Identify(CNS_CONTROLLER, 0))
    }
}

// A Get Log Page for the first bytes of a log; the events are retained.
fn get_log(id: u32, groups_only: bool) -> Sqe {
    let mut e = read_sqe(&[0; 64]);
    e.opcode = 0x02;
    e.flags = 0x40;
    e.nsid = 0xffff_ffff;
    e.sgl_len = LOG as u32;
    let specific = if groups_only { 0x100 } else { 0 };
    e.cdw10 = 0x0fff_8000 | specific | id;
    e
}

// The bytes of a log over a look, of changes since a serial: none where the entry is refused.
fn read_log<A: Look>(c: &Ctrl, since: u32, e: &Sqe, a: &mut A, to: &mut [u8; LOG]) -> bool
    ensures { A.behind a.new ≡ A.behind a.old }
{
    let mut events = Events::new(since, 0);
    if check_log(e) != SUCCESS || e.sgl_len as usize != LOG {
        return false;
    }
    write_log(c, &mut events, e, a, to);
    true
}

/// Whether a log has the same bytes over both looks.
pub fn same_log<A: Look, B: Look>(c: &Ctrl, since: u32, e: &Sqe, a: &mut A, b: &mut B) -> bool
    ensures a { A.behind a.new ≡ A.behind a.old }
    ensures b { B.behind b.new ≡ B.behind b.old }
{
    let mut first = [0; LOG];
    let mut second = [0xee; LOG];
    let one = read_log(c, since, e, a, &mut first);
    let other = read_log(c, since, e, b, &mut second);
    one && other && first == second
}

/// The log of the ANA groups, with its NSIDs and without, and the list of the namespaces that
/// changed after a serial are the same over both looks for a controller.
pub fn same_logs<A: Look, B: Look>(
    c: &Ctrl,
    since: u32,
    a: &mut A,
    b: &mut B,
) -> Result<(), Difference>
    ensures a { A.behind a.new ≡ A.behind a.old }
    ensures b { B.behind b.new ≡ B.behind b.old }
{
    let whole = same_log(c, since, &get_log(ANA_LOG, false), a, b);
    let groups = same_log(c, since, &get_log(ANA_LOG, true), a, b);
    if !whole || !groups {
        return Err(Difference::Log(ANA_LOG));
    }
    if !same_log(c, since, &get_log(CHANGED_NAMESPACES, false), a, b) {
        return Err(Difference::Log(CHANGED_NAMESPACES));
    }
    Ok(())
}
