ghost use Rattle.std.specs.Prelude.{◌≡◌, ◌+◌, length};
ghost use Rattle.look_pages.specs.declared.walk.TheConstants.{PAGE};
ghost use Rattle.look_pages.specs.Pages.{zeros};
ghost use Rattle.look_pages.specs.Tables.{with_fields};
ghost use Rattle.admin_identify.specs.Controller.{identity_fields, event_fields, queue_fields, transport_fields, controller_page};

use ana_groups::GROUPS;
use async_events::MOST_WAITING;
use look_pages::{put, put_byte, put_half, put_word};
use sqe_cqe::{Ctrl, Offers};

/// Firmware revision (FR), filled up with spaces.
pub const FR: [u8; 8] = [b'1', b'.', b'0', b' ', b' ', b' ', b' ', b' '];

/// Multi-path and sharing (CMIC): more ports, more controllers, and ANA reporting.
pub const CMIC: u8 = 0x0b;

/// The largest transfer (MDTS), as a power of two of pages of 4,096 bytes: 131,072 bytes.
pub const MDTS: u8 = 5;

/// The version of the standard (VER): 1.4.
pub const VER: u32 = 0x0001_0400;

/// The events that are told (OAES): namespace attributes in bit 8, ANA changes in bit 11.
pub const OAES: u32 = 0x0000_0900;

/// The type of controller (CNTRLTYPE): an I/O controller.
pub const CNTRLTYPE: u8 = 1;

/// Attributes of log pages (LPA): offsets and extended lengths.
pub const LPA: u8 = 0x04;

/// The granularity of the keep alive timer (KAS), in units of 100 ms.
pub const KAS: u16 = 10;

/// The longest ANA transition (ANATT), in seconds.
pub const ANATT: u8 = 10;

/// The ANA states that are reported (ANACAP): all five.
pub const ANACAP: u8 = 0x1f;

/// The size of a submission entry (SQES), as powers of two: at least and at most 64 bytes.
pub const SQES: u8 = 0x66;

/// The size of a completion (CQES), as powers of two: at least and at most 16 bytes.
pub const CQES: u8 = 0x44;

/// The most commands of a queue at one time (MAXCMD).
pub const MAXCMD: u16 = 128;

/// Support of SGLs (SGLS): without alignment.
pub const SGLS: u32 = 1;

/// The size of a command capsule of an I/O queue (IOCCSZ), in units of 16 bytes.
pub const IOCCSZ: u32 = 4;

/// The size of a response capsule of an I/O queue (IORCSZ), in units of 16 bytes.
pub const IORCSZ: u32 = 1;

// Who the controller is: serial number, model, firmware, sharing, largest transfer, number.
fn put_identity(c: &Ctrl, page: &mut [u8])
    requires { length page.old ≡ PAGE }
    ensures { page.new ≡ with_fields (identity_fields c.now) page.old }
{
    put(page, 4, &c.serial);
    put(page, 24, &c.model_name);
    put(page, 64, &FR);
    put_byte(page, 76, CMIC);
    put_byte(page, 77, MDTS);
    put_half(page, 78, c.bound.ctrl);
    put_word(page, 80, VER);
}

// Events, logs and ANA.
fn put_events(page: &mut [u8])
    requires { length page.old ≡ PAGE }
    ensures { page.new ≡ with_fields event_fields page.old }
{
    put_word(page, 92, OAES);
    put_byte(page, 111, CNTRLTYPE);
    put_byte(page, 259, MOST_WAITING as u8 - 1);
    put_byte(page, 261, LPA);
    put_half(page, 320, KAS);
    put_byte(page, 342, ANATT);
    put_byte(page, 343, ANACAP);
    put_word(page, 344, GROUPS);
    put_word(page, 348, GROUPS);
}

// Queues, namespaces and commands.
fn put_queues(offers: &Offers, page: &mut [u8])
    requires { length page.old ≡ PAGE }
    ensures { page.new ≡ with_fields (queue_fields offers.now) page.old }
{
    put_byte(page, 512, SQES);
    put_byte(page, 513, CQES);
    put_half(page, 514, MAXCMD);
    put_word(page, 516, offers.nsids);
    put_half(page, 520, offers.oncs);
    put_byte(page, 531, offers.nwpc);
    put_word(page, 536, SGLS);
    put_word(page, 540, offers.nsids);
}

// The subsystem's name, and capsules.
fn put_transport(c: &Ctrl, page: &mut [u8])
    requires { length page.old ≡ PAGE }
    ensures { page.new ≡ with_fields (transport_fields c.now) page.old }
{
    put(page, 768, &c.subnqn);
    put_word(page, 1792, IOCCSZ);
    put_word(page, 1796, IORCSZ);
}

/// Writes the page of a controller over zeros.
#[tactic(auto, unfolding(crate::specs::Controller::controller_page))]
pub fn write_controller(c: &Ctrl, offers: &Offers, page: &mut [u8])
    requires size { length page.old ≡ PAGE }
    requires zeros { page.old ≡ zeros PAGE }
    ensures { page.new ≡ controller_page c.now offers.now }
{
    put_identity(c, page);
    put_events(page);
    put_queues(offers, page);
    put_transport(c, page);
}
