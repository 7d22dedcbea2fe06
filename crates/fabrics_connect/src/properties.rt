// The checks of Property Get and Property Set (NVMe over Fabrics 1.1, 3.5 and 3.6).
ghost use Rattle.std.specs.Prelude.{◌≡◌, ◌<◌};
ghost use Rattle.fabrics_connect.specs.After.{FitsAnswer};
ghost use Rattle.fabrics_connect.specs.Checks.{accessed, numbered, property_answer, property_answer_at, set_answer};

use crate::answer::Answer;
use crate::connect::{refused, row_of};
use crate::registers::{OFFSET_CC, property};
use sqe_cqe::{
    Bound, ControllerRow, Controllers, DATA_SGL_LENGTH_INVALID, INVALID_FIELD, PROPERTY_GET, Sqe,
    fctype, is_long_property, property_offset, property_value,
};

fn check_set(e: &Sqe) -> Answer
    ensures { result ≡ set_answer e.now }
{
    if is_long_property(e) || property_offset(e) != OFFSET_CC {
        return refused(INVALID_FIELD, 0);
    }
    Answer::Sets((property_value(e) % 0x1_0000_0000) as u32)
}

fn check_access(row: &ControllerRow, e: &Sqe) -> Answer
    ensures { result ≡ accessed row.now e.now }
{
    if fctype(e) != PROPERTY_GET {
        return check_set(e);
    }
    match property(row, is_long_property(e), property_offset(e)) {
        Some(value) => Answer::Reads(value),
        None => refused(INVALID_FIELD, 0),
    }
}

// All checks of a Property Get or Property Set of a controller.
#[tactic(auto, unfolding(crate::specs::Checks::property_answer))]
fn check_of(row: &ControllerRow, e: &Sqe) -> Answer
    ensures { result ≡ property_answer row.now e.now }
{
    if e.sgl_len != 0 {
        return refused(DATA_SGL_LENGTH_INVALID, 0);
    }
    check_access(row, e)
}

// All checks of a Property Get or Property Set on a connected admin queue.
pub(crate) fn check_property(controllers: &Controllers, bound: &Bound, e: &Sqe) -> Answer
    ensures { result ≡ property_answer_at (numbered controllers.now bound.now.ctrl) e.now }
{
    match row_of(controllers, bound.ctrl) {
        Some(row) => check_of(row, e),
        None => refused(INVALID_FIELD, 0),
    }
}
