//! Whether a step is allowed, by its kind.
ghost use Rattle.std.specs.Prelude.{◌≡◌, ◌↔◌, length, IsTrue};
ghost use Rattle.ref_state.specs.State.{view};
ghost use Rattle.ref_state.specs.State.{view as view_at};
ghost use Rattle.ref_state.specs.Steps.{IsAllowed, MayStep};

use crate::drain_conditions::{
    is_at_phase, may_arm, may_fold, may_kill, may_look_counter, may_place_done,
};
use crate::part_conditions::{may_join, may_split};
use crate::reference_conditions::{may_add_own, may_add_shared, may_load_mode};
use crate::section_conditions::{is_out, may_draw, may_leave, may_load_row};
use crate::side_conditions::{may_publish, may_store};
use crate::turn_conditions::{has_home, has_out, may_place_execute, may_take_turn};
use ref_state::kinds::Kind;
use ref_state::state::{Phase, Role, State, View};

fn is_seat(role: &Role) -> bool
    ensures { IsTrue result ↔ (role.now ≡ Role.Seat) }
{
    matches!(role, Role::Seat)
}

// Whether the seat, which keeps the view, may take the step.
fn may_step(s: &State, seat: u32, view: &View, k: &Kind) -> bool
    requires drains { length s.now.editor.drains ≡ length s.now.disks }
    requires seat { view.now ≡ view_at s.now.views seat }
    ensures { IsTrue result ↔ MayStep s.now seat (view_at s.now.views seat) k.now }
{
    match *k {
        Kind::EnterSection => is_out(&view.section),
        Kind::DrawPlace { .. } => may_draw(view),
        Kind::LoadRow { word } => may_load_row(s, view, word),
        Kind::LeaveSection => may_leave(view),
        Kind::StoreRow { word, .. } => may_store(s, seat, word),
        Kind::Publish { .. } => may_publish(s, seat, view),
        Kind::LookSection { other } => seat == 0 && other < s.seats,
        Kind::LoadMode { disk } => may_load_mode(s, view, disk),
        Kind::AddOwn { disk, up } => may_add_own(s, view, disk, up),
        Kind::AddShared { disk, up } => may_add_shared(s, view, disk, up),
        Kind::Split { take } => may_split(view, take),
        Kind::Join { part } => may_join(s, seat, part),
        Kind::Kill { disk } => may_kill(s, seat, disk),
        Kind::LookCounter { disk, other } => may_look_counter(s, seat, disk, other),
        Kind::Fold { disk, delta } => may_fold(s, seat, disk, delta),
        Kind::LookZero { disk } => is_at_phase(s, seat, disk, Phase::Folded),
        Kind::PlaceDone { disk, .. } => may_place_done(s, seat, view, disk),
        Kind::LiveShared { disk } => may_arm(s, seat, disk),
        Kind::LiveMode { disk } => is_at_phase(s, seat, disk, Phase::Armed),
        Kind::TakeTurn { slot } => may_take_turn(s, view, slot),
        Kind::SlotOut { slot } => has_home(view, slot),
        Kind::PlaceExecute { slot, call } => may_place_execute(s, view, slot, call),
        Kind::SlotIn { slot } => has_out(view, slot),
        Kind::GiveTurn { slot } => has_home(view, slot),
    }
}

/// Whether the seat may take the step: it is a seat, what the kind names is there, and the kind's
/// condition holds. It takes no memory and changes nothing.
pub fn may_take_step(s: &State, seat: u32, k: &Kind) -> bool
    requires { length s.now.editor.drains ≡ length s.now.disks }
    ensures { IsTrue result ↔ IsAllowed s.now seat k.now }
{
    if (seat as usize) >= s.views.len() {
        return false;
    }
    let view = s.views.at(seat as usize);
    is_seat(&view.role) && may_step(s, seat, view, k)
}
