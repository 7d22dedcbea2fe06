ghost use Rattle.std.specs.Prelude.{◌≡◌, ◌≤◌, ◌+◌, ◌*◌, length};
ghost use Rattle.sqe_cqe.specs.declared.codes.TheConstants.{SUCCESS};
ghost use Rattle.sqe_cqe.specs.Answers.{view_of};
ghost use Rattle.look_pages.specs.declared.list.Choice.TheVariants.{Changed};
ghost use Rattle.look_pages.specs.Pages.{list_bytes};
ghost use Rattle.look_pages.specs.Chosen.{chosen_nsids};
ghost use Rattle.async_events.specs.Stamps.{cleared_of};
ghost use Rattle.log_pages.specs.Logs.{log_id, log_offset, log_len, log_of, retains, groups_only, is_changed_log, log_status, log_bytes, log_events};

use ana_groups::ana_page;
use async_events::{Events, Log};
use look_pages::{Choice, list_part};
use mem_bdev::MAX_TRANSFER;
use sqe_cqe::{Ctrl, DATA_SGL_LENGTH_INVALID, INVALID_FIELD, Look, SUCCESS, Sqe};

/// The log page Changed Namespace List (LID).
pub const CHANGED_NAMESPACES: u32 = 0x04;

/// The log page Asymmetric Namespace Access (LID).
pub const ANA_LOG: u32 = 0x0c;

/// The most bytes that one command reads: 2^MDTS pages of 4,096 bytes, with MDTS 5.
pub const MOST_READ: u32 = MAX_TRANSFER as u32;

/// Writes the Changed Namespace List of a controller: the NSIDs of its subsystem with a namespace
/// change after this serial, rising, and zeros; FFFFFFFFh and zeros where there are more than 1,024.
#[tactic(auto, using(look_pages::proofs::Parts::window_all, look_pages::proofs::Ranges::page_has_its_size))]
pub fn changed_page<L: Look>(c: &Ctrl, cleared: u32, look: &mut L, page: &mut [u8; 4096])
    ensures page { let v = view_of (L.told (L.behind look.old)) c.now.bound in
        page.new ≡ list_bytes (chosen_nsids (Changed cleared) v) }
    ensures behind { L.behind look.new ≡ L.behind look.old }
{
    list_part(Choice::Changed(cleared), &c.bound, 0, look, page);
}

// The log page offset (LPOL, LPOU), in bytes.
fn offset_of(e: &Sqe) -> u64
    ensures { result ≡ log_offset e.now }
{
    u64::from(e.cdw12) + (u64::from(e.cdw13) << 32)
}

// The number of dwords (NUMDL, NUMDU), counted from 0, in bytes.
fn len_of(e: &Sqe) -> u64
    ensures { result ≡ log_len e.now }
{
    (u64::from(e.cdw10 / 0x1_0000) + u64::from(e.cdw11 % 0x1_0000) * 0x1_0000 + 1) * 4
}

// The log page identifier (LID).
fn id_of(e: &Sqe) -> u32
    ensures { result ≡ log_id e.now }
{
    e.cdw10 % 0x100
}

/// The status of Get Log Page by its own checks in their order: a log other than 04h and 0Ch, or an
/// offset that isn't a multiple of 4, is 8004h; an SGL length other than (NUMD + 1) times 4 is 801Eh;
/// more than 131,072 bytes are 8004h; else 0. It looks at the entry alone.
#[tactic(auto, unfolding(crate::specs::Logs::log_status))]
pub fn check_log(e: &Sqe) -> u16
    ensures value { result ≡ log_status e.now }
    ensures room { result ≡ SUCCESS → e.now.sgl_len ≤ MOST_READ }
{
    let id = id_of(e);
    if id != CHANGED_NAMESPACES && id != ANA_LOG {
        return INVALID_FIELD;
    }
    if offset_of(e) % 4 != 0 {
        return INVALID_FIELD;
    }
    if u64::from(e.sgl_len) != len_of(e) {
        return DATA_SGL_LENGTH_INVALID;
    }
    if e.sgl_len > MOST_READ {
        return INVALID_FIELD;
    }
    SUCCESS
}

fn is_changed(e: &Sqe) -> bool
    ensures { result ≡ is_changed_log e.now }
{
    e.cdw10 % 0x100 == CHANGED_NAMESPACES
}

// Bit 8 of dword 10 is Return Groups Only (RGO) of the ANA log.
fn only_groups(e: &Sqe) -> bool
    ensures { result ≡ groups_only e.now }
{
    e.cdw10 / 0x100 % 2 == 1
}

// Bit 15 of dword 10 is Retain Asynchronous Event (RAE).
fn is_retaining(e: &Sqe) -> bool
    ensures { result ≡ retains e.now }
{
    e.cdw10 / 0x8000 % 2 == 1
}

fn log_named(e: &Sqe) -> Log
    ensures { result ≡ log_of e.now }
{
    if is_changed(e) {
        Log::Changed
    } else {
        Log::Ana
    }
}

// Writes the part of the page that a command asks for.
fn write_part<L: Look>(c: &Ctrl, cleared: u32, e: &Sqe, look: &mut L, to: &mut [u8])
    requires { length to.old ≡ e.now.sgl_len }
    ensures bytes { let v = view_of (L.told (L.behind look.old)) c.now.bound in
        to.new ≡ log_bytes v cleared e.now }
    ensures behind { L.behind look.new ≡ L.behind look.old }
{
    let offset = offset_of(e);
    if is_changed(e) {
        list_part(Choice::Changed(cleared), &c.bound, offset, look, to);
    } else {
        ana_page(c, only_groups(e), offset, look, to);
    }
}

// Clears what a read clears.
#[tactic(auto, unfolding(crate::specs::Logs::log_events))]
fn settle<L: Look>(c: &Ctrl, ev: &mut Events, e: &Sqe, look: &mut L)
    ensures value { let v = view_of (L.told (L.behind look.old)) c.now.bound in
        ev.new ≡ log_events v e.now ev.old }
    ensures behind { L.behind look.new ≡ L.behind look.old }
{
    if is_retaining(e) {
        return;
    }
    ev.catch_up(c, look);
    let serial = look.serial();
    ev.read_done(log_named(e), serial);
}

/// Does a Get Log Page whose checks it has passed: writes all of `to`, which has as many bytes as the
/// SGL length, and clears what the read clears. With RAE 1 the events stay as they were. With RAE 0 the
/// kind of the log is unmasked, and a read of the Changed Namespace List, whatever its offset and
/// length, empties that list.
pub fn write_log<L: Look>(c: &Ctrl, ev: &mut Events, e: &Sqe, look: &mut L, to: &mut [u8])
    requires passed { log_status e.now ≡ SUCCESS }
    requires room { length to.old ≡ e.now.sgl_len }
    ensures bytes { let v = view_of (L.told (L.behind look.old)) c.now.bound in
        to.new ≡ log_bytes v (cleared_of ev.old) e.now }
    ensures events { let v = view_of (L.told (L.behind look.old)) c.now.bound in
        ev.new ≡ log_events v e.now ev.old }
    ensures behind { L.behind look.new ≡ L.behind look.old }
{
    write_part(c, ev.cleared(), e, look, to);
    settle(c, ev, e, look);
}
