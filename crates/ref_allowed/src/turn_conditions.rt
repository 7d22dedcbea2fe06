//! What a step asks of the turns of extents.
ghost use Rattle.std.specs.Prelude.{◌≡◌, ◌↔◌, ◌<◌, ◌/◌, length, IsTrue, None};
ghost use Rattle.std.specs.List.{list_any};
ghost use Rattle.ref_state.specs.State.{view};
ghost use Rattle.ref_state.specs.Steps.{Some_where, first, is_held, is_slot, is_home_slot, is_out_slot};

use crate::reference_conditions::keeps_held;
use lists::items::Items;
use ref_state::kinds::Tag;
use ref_state::limits::EXTENTS;
use ref_state::state::{State, Turn, View};

fn any_turn(turns: &Items<Turn>, slot: u32) -> bool
    ensures { result ≡ list_any (is_slot slot) turns.now }
{
    turns.as_slice().iter().any(|t| t.slot == slot)
}

fn any_home(turns: &Items<Turn>, slot: u32) -> bool
    ensures { result ≡ list_any (is_home_slot slot) turns.now }
{
    turns.as_slice().iter().any(|t| t.slot == slot && !t.out)
}

fn any_out(turns: &Items<Turn>, slot: u32) -> bool
    ensures { result ≡ list_any (is_out_slot slot) turns.now }
{
    turns.as_slice().iter().any(|t| t.slot == slot && t.out)
}

fn has_no_turn(view: &View, slot: u32) -> bool
    ensures { IsTrue result ↔ (first (is_slot slot) view.now.turns ≡ None) }
{
    !any_turn(&view.turns, slot)
}

/// The slot is there, and its turn is not in hand.
pub fn may_take_turn(s: &State, view: &View, slot: u32) -> bool
    ensures { IsTrue result ↔ ((slot < length s.now.turns) × (first (is_slot slot) view.now.turns
        ≡ None)) }
{
    (slot as usize) < s.turns.len() && has_no_turn(view, slot)
}

/// A place is left, and the hold of the command is kept.
pub fn may_place_execute(s: &State, view: &View, slot: u32, call: Tag) -> bool
    ensures { IsTrue result ↔ ((0 < view.now.left) × (slot < length s.now.turns)
        × Some_where (is_held call (slot / EXTENTS)) view.now.holds) }
{
    view.left > 0 && (slot as usize) < s.turns.len() && keeps_held(view, call, slot / EXTENTS)
}

/// The turn of the slot is in hand, the extent at home.
pub fn has_home(view: &View, slot: u32) -> bool
    ensures { IsTrue result ↔ Some_where (is_home_slot slot) view.now.turns }
{
    any_home(&view.turns, slot)
}

/// The extent of the slot is in hand.
pub fn has_out(view: &View, slot: u32) -> bool
    ensures { IsTrue result ↔ Some_where (is_out_slot slot) view.now.turns }
{
    any_out(&view.turns, slot)
}
