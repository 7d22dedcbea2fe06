//! The executable core: opened, asked, and taken from step to step.
ghost use Rattle.std.specs.Prelude.{◌≡◌, ◌↔◌, IsTrue, ◌*◌, ◌^◌, ◌<◌, ◌≤◌, length, replicate, IfOk, OnErr, OnOk};
ghost use Rattle.ref_state.specs.Steps.{IsAllowed, next_core, answer_of};
ghost use Rattle.ref_state.specs.Soundness.{IsSound, opened_core, sum_of};

use crate::opening::opened_state;
use crate::{parts, references, sections, turns};
use ref_allowed::allowance::may_take_step;
use ref_state::kinds::{Answer, Kind};
use ref_state::limits::{EXTENTS, MAX_DISKS, MAX_SEATS};
use ref_state::state::State;
use std::alloc::{AllocError, Global};
use std::marker::Model;

/// Memory was refused.
#[derive(Clone, Copy, PartialEq, Eq, Debug)]
pub struct Memory;

impl From<AllocError> for Memory {
    fn from(_error: AllocError) -> Memory {
        Memory
    }
}

/// The concurrency core of a table: shared words and what each seat keeps, as plain data. Contracts
/// see it as its state, which is sound at all times.
#[derive(Drop)]
pub struct Core {
    state: State,
}

impl Model for Core {
    ghost use Rattle.ref_state.specs.declared.state.State.{State as CoreState};

    ghost Value = { CoreState };

    ghost use Rattle.ref_state.specs.Soundness.{IsSound};

    ghost view = { λ c. c.state };

    ghost invariant = { λ c. IsSound c.state };
}

impl Core {
    /// One seat for each quota, the number of places that it may draw; `disks` disks with a slot
    /// for each extent; two sides of `rows` words, all 0. Only want of memory is refused.
    pub fn opened(alloc: Global, quotas: &[u32], disks: u32, rows: u32) -> Result<Core, Memory>
        requires some { 0 < length quotas.now }
        requires seats { length quotas.now ≤ MAX_SEATS }
        requires sum { sum_of quotas.now < 2 ^ 32 }
        requires disks { disks ≤ MAX_DISKS }
        requires rows { disks ≤ rows }
        ensures { IfOk result (λ c. c ≡ opened_core quotas.now disks (EXTENTS * disks)
            (replicate rows 0)) }
    {
        let state = opened_state(alloc, quotas, disks, rows)?;
        Ok(Core { state })
    }

    /// The state, to be read.
    pub fn state(&self) -> &State
        ensures same { result.now ≡ self.now }
        ensures sound { IsSound self.now }
    {
        &self.state
    }
}

// The step on the state.
fn take_step(alloc: Global, s: &mut State, seat: u32, k: &Kind) -> Result<Answer, AllocError>
    requires sound { IsSound s.old }
    requires allowed { IsAllowed s.old seat k.now }
    ensures done { OnOk result (s.new ≡ next_core s.old seat k.now) }
    ensures answer { IfOk result (λ a. a ≡ answer_of s.old seat k.now) }
    ensures memory { OnErr result (s.new ≡ s.old) }
{
    match *k {
        Kind::EnterSection => Ok(sections::enter_section(s, seat)),
        Kind::DrawPlace { call } => Ok(sections::draw_place(s, seat, call)),
        Kind::LoadRow { word } => Ok(sections::load_row(s, seat, word)),
        Kind::LeaveSection => sections::leave_section(alloc, s, seat),
        Kind::StoreRow { word, value } => sections::store_row(alloc, s, word, value),
        Kind::Publish { call } => sections::publish(alloc, s, seat, call),
        Kind::LookSection { other } => Ok(sections::look_section(s, other)),
        Kind::LoadMode { disk } => Ok(references::load_mode(s, seat, disk)),
        Kind::AddOwn { disk, up } => references::add_own(alloc, s, seat, disk, up),
        Kind::AddShared { disk, up } => references::add_shared(alloc, s, seat, disk, up),
        Kind::Split { take } => parts::split(alloc, s, seat, take),
        Kind::Join { part } => parts::join(alloc, s, seat, part),
        Kind::Kill { disk } => references::kill(alloc, s, disk),
        Kind::LookCounter { disk, other } => Ok(references::look_counter(s, disk, other)),
        Kind::Fold { disk, delta } => references::fold(alloc, s, disk, delta),
        Kind::LookZero { disk } => Ok(references::look_zero(s, disk)),
        Kind::PlaceDone { disk, call } => references::place_done(alloc, s, seat, disk, call),
        Kind::LiveShared { disk } => Ok(references::live_shared(s, disk)),
        Kind::LiveMode { disk } => Ok(references::live_mode(s, disk)),
        Kind::TakeTurn { slot } => turns::take_turn(alloc, s, seat, slot),
        Kind::SlotOut { slot } => Ok(turns::slot_out(s, seat, slot)),
        Kind::PlaceExecute { slot, call } => turns::place_execute(alloc, s, seat, slot, call),
        Kind::SlotIn { slot } => Ok(turns::slot_in(s, seat, slot)),
        Kind::GiveTurn { slot } => Ok(turns::give_turn(s, seat, slot)),
    }
}

/// Whether the seat may take the step: it is a seat, what the kind names is there, and the kind's
/// condition holds. It takes no memory and changes nothing.
pub fn allowed(c: &Core, seat: u32, k: &Kind) -> bool
    ensures { IsTrue result ↔ IsAllowed c.now seat k.now }
{
    may_take_step(c.state(), seat, k)
}

/// The seat takes a step. It leaves and answers what the one step relation says; where memory is
/// refused, the core is as before.
pub fn step(alloc: Global, c: &mut Core, seat: u32, k: &Kind) -> Result<Answer, Memory>
    requires { IsAllowed c.old seat k.now }
    ensures done { OnOk result (c.new ≡ next_core c.old seat k.now) }
    ensures answer { IfOk result (λ a. a ≡ answer_of c.old seat k.now) }
    ensures memory { OnErr result (c.new ≡ c.old) }
{
    let answer = take_step(alloc, &mut c.state, seat, k)?;
    Ok(answer)
}
