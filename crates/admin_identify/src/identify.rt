ghost use Rattle.std.specs.Prelude.{◌≡◌, length};
ghost use Rattle.sqe_cqe.specs.declared.codes.TheConstants.{SUCCESS};
ghost use Rattle.sqe_cqe.specs.Answers.{view_of};
ghost use Rattle.look_pages.specs.declared.walk.TheConstants.{PAGE};
ghost use Rattle.admin_identify.specs.Identify.{cns_of, seen_status, cns_status, identify_status, identify_page};

use crate::controller::write_controller;
use crate::descriptors::write_descriptors;
use crate::lists::write_active_list;
use crate::namespace::write_namespace;
use look_pages::{PAGE, clear};
use sqe_cqe::{
    Bound, Ctrl, DATA_SGL_LENGTH_INVALID, INTERNAL_PATH_ERROR, INVALID_FIELD, INVALID_NAMESPACE,
    Look, SUCCESS, Seen, Sqe,
};

/// Identify Namespace data structure (CNS).
pub const CNS_NAMESPACE: u32 = 0x00;

/// Identify Controller data structure.
pub const CNS_CONTROLLER: u32 = 0x01;

/// Active Namespace ID list.
pub const CNS_ACTIVE_LIST: u32 = 0x02;

/// Namespace Identification Descriptor list.
pub const CNS_DESCRIPTORS: u32 = 0x03;

// The NSID that stands for all namespaces.
const ALL_NAMESPACES: u32 = 0xffff_ffff;

fn cns(e: &Sqe) -> u32
    ensures { result ≡ cns_of e.now }
{
    e.cdw10 % 0x100
}

// Whether a namespace has descriptors to show.
fn check_seen<L: Look>(b: &Bound, nsid: u32, look: &mut L) -> u16
    ensures value { let v = view_of (L.told (L.behind look.old)) b.now in
        result ≡ seen_status (v.ns nsid) }
    ensures behind { L.behind look.new ≡ L.behind look.old }
{
    match look.ns(b.sub, nsid) {
        Seen::NotConfigured => INVALID_NAMESPACE,
        Seen::Off => INTERNAL_PATH_ERROR,
        Seen::On(_) => SUCCESS,
    }
}

// Which page, and whether there is one for the NSID.
fn check_cns<L: Look>(b: &Bound, e: &Sqe, look: &mut L) -> u16
    ensures value { result ≡ cns_status (view_of (L.told (L.behind look.old)) b.now) e.now }
    ensures behind { L.behind look.new ≡ L.behind look.old }
{
    let page = cns(e);
    if page == CNS_NAMESPACE {
        return if e.nsid == ALL_NAMESPACES {
            INVALID_NAMESPACE
        } else {
            SUCCESS
        };
    }
    if page == CNS_CONTROLLER {
        return SUCCESS;
    }
    if page == CNS_ACTIVE_LIST {
        return if e.nsid >= ALL_NAMESPACES - 1 {
            INVALID_NAMESPACE
        } else {
            SUCCESS
        };
    }
    if page == CNS_DESCRIPTORS {
        return check_seen(b, e.nsid, look);
    }
    INVALID_FIELD
}

/// The status of Identify by its own checks in their order: an SGL length other than 4,096 is 801Eh; a
/// CNS above 03h is 8004h; a namespace page of NSID FFFFFFFFh, and an active list from NSID FFFFFFFEh
/// or FFFFFFFFh, are 8016h; descriptors of an NSID that isn't configured are 8016h, and of one that is
/// off 0600h; else 0.
#[tactic(auto, unfolding(crate::specs::Identify::identify_status))]
pub fn check_identify<L: Look>(c: &Ctrl, e: &Sqe, look: &mut L) -> u16
    ensures value { let v = view_of (L.told (L.behind look.old)) c.now.bound in
        result ≡ identify_status v e.now }
    ensures behind { L.behind look.new ≡ L.behind look.old }
{
    if e.sgl_len as usize != PAGE {
        return DATA_SGL_LENGTH_INVALID;
    }
    check_cns(&c.bound, e, look)
}

/// Writes the page that an Identify asks for, all of `to`. Before it, `check_identify` tells whether
/// there is such a page; of a CNS that has none, zeros are written.
#[tactic(auto, unfolding(crate::specs::Identify::identify_page))]
pub fn write_identify<L: Look>(c: &Ctrl, e: &Sqe, look: &mut L, to: &mut [u8])
    requires { length to.old ≡ PAGE }
    ensures page { let v = view_of (L.told (L.behind look.old)) c.now.bound in
        to.new ≡ identify_page v c.now e.now }
    ensures behind { L.behind look.new ≡ L.behind look.old }
{
    clear(to);
    let page = cns(e);
    if page == CNS_NAMESPACE {
        write_namespace(&c.bound, e.nsid, look, to);
    } else if page == CNS_CONTROLLER {
        let offers = look.offers();
        write_controller(c, &offers, to);
    } else if page == CNS_ACTIVE_LIST {
        write_active_list(&c.bound, e.nsid, look, to);
    } else if page == CNS_DESCRIPTORS {
        write_descriptors(&c.bound, e.nsid, look, to);
    }
}
