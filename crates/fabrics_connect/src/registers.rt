// CAP, VS, CC and CSTS (NVMe Base 2.0, 3.1.3; Linux nvmet, core.c: nvmet_update_cc).
ghost use Rattle.std.specs.Prelude.{◌≡◌, ◌^◌, ◌≤◌, ◌<◌, ◌+◌, ◌/◌, ◌%◌};
ghost use Rattle.fabrics_connect.specs.Registers.{after_set, asks_shutdown, bits, can_enable, differ, is_enabled, not_ready, property_at, shut_down};

use sqe_cqe::ControllerRow;

/// Controller capabilities (CAP): queues of 128 entries that lie together, a timeout of 7.5
/// seconds, the NVM command set.
pub const CAPABILITIES: u64 = 0x0000_0020_0f01_007f;

/// Version (VS): 1.4.
pub const VERSION: u64 = 0x0001_0400;

/// Offset of CAP, which has eight bytes.
pub const OFFSET_CAP: u32 = 0x00;

/// Offset of VS.
pub const OFFSET_VS: u32 = 0x08;

/// Offset of CC.
pub const OFFSET_CC: u32 = 0x14;

/// Offset of CSTS.
pub const OFFSET_CSTS: u32 = 0x1c;

// CC.EN
fn enabled(cc: u32) -> bool
    ensures { result ≡ is_enabled cc }
{
    cc % 2 == 1
}

// Whether CC.SHN asks for a shutdown.
fn shuts_down(cc: u32) -> bool
    ensures { result ≡ asks_shutdown cc }
{
    cc / 0x4000 % 4 != 0
}

// Whether a controller can be enabled with these sizes: IOSQES 6, IOCQES 4, and MPS, AMS and CSS 0.
fn has_known_sizes(cc: u32) -> bool
    ensures { result ≡ can_enable cc }
{
    cc / 0x1_0000 % 16 == 6
        && cc / 0x10_0000 % 16 == 4
        && cc / 0x80 % 16 == 0
        && cc / 0x800 % 8 == 0
        && cc / 0x10 % 8 == 0
}

fn without_ready(csts: u32) -> u32
    ensures { result ≡ not_ready csts }
{
    csts - csts % 2
}

fn with_shutdown(csts: u32) -> u32
    ensures { result ≡ shut_down csts }
{
    csts - csts / 4 % 4 * 4 + 8
}

// A controller after a Property Set of CC.
#[tactic(auto, unfolding(crate::specs::Registers::after_set, crate::specs::Registers::registers_after))]
pub(crate) fn set(row: &ControllerRow, cc: u32) -> ControllerRow
    ensures { result ≡ after_set cc row.now }
{
    let (was, is) = (enabled(row.cc), enabled(cc));
    let mut new = *row;
    new.cc = cc;
    if is && !was {
        new.csts = if has_known_sizes(cc) { 1 } else { 2 };
    }
    if was && !is {
        new.csts = without_ready(row.csts);
        new.cc = 0;
    }
    if shuts_down(cc) && !shuts_down(row.cc) {
        new.csts = with_shutdown(without_ready(new.csts));
        new.cc = 0;
    }
    new
}

// Whether CC or CSTS changed.
pub(crate) fn has_changed(old: &ControllerRow, new: &ControllerRow) -> bool
    ensures { result ≡ differ old.now new.now }
{
    old.cc != new.cc || old.csts != new.csts
}

// The property at an offset, or `None` where none of this size is there.
#[tactic(auto, unfolding(crate::specs::Registers::property_at))]
pub(crate) fn property(row: &ControllerRow, is_long: bool, offset: u32) -> Option<u64>
    ensures { result ≡ property_at row.now is_long offset }
{
    if is_long {
        return if offset == OFFSET_CAP {
            Some(CAPABILITIES)
        } else {
            None
        };
    }
    match offset {
        OFFSET_VS => Some(VERSION),
        OFFSET_CC => Some(u64::from(row.cc)),
        OFFSET_CSTS => Some(u64::from(row.csts)),
        _ => None,
    }
}
