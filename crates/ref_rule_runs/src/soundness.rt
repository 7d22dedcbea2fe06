//! The nine parts of soundness, looked at in plain loops over the state.
use crate::counts::{EntryTest, HoldTest, entries, holds};
use crate::{grace, references};
use ref_rule::state::{By, Entry, State, View};

fn turns_of(view: &View, slot: usize) -> usize {
    view.turns
        .as_slice()
        .iter()
        .filter(|t| t.slot as usize == slot)
        .count()
}

fn holders(s: &State, slot: usize) -> usize {
    let mut n: usize = 0;
    for view in s.views.as_slice() {
        n = n.saturating_add(turns_of(view, slot));
    }
    n
}

// A seat has the number of its place, a part that of a seat.
fn is_numbered(s: &State, i: usize, view: &View) -> bool {
    view.number < s.seats && (i >= s.seats as usize || view.number as usize == i)
}

// Each turn that the view has names its seat.
fn owns(s: &State, i: usize, view: &View) -> bool {
    let word = (i as u64).wrapping_add(1);
    view.turns
        .as_slice()
        .iter()
        .all(|t| s.turns.at_or(t.slot as usize, 0) == word)
}

fn turns_owned(s: &State) -> bool {
    for (slot, turn) in s.turns.as_slice().iter().enumerate() {
        let want = if *turn == 0 { 0 } else { 1 };
        if holders(s, slot) != want {
            return false;
        }
    }
    for (i, view) in s.views.as_slice().iter().enumerate() {
        if !owns(s, i, view) || !is_numbered(s, i, view) {
            return false;
        }
    }
    true
}

fn one_hold_at(s: &State, k: u32) -> bool {
    let executes = entries(s, EntryTest::ExecuteOf(k));
    holds(s, HoldTest::Waiting(k)).saturating_add(executes) == entries(s, EntryTest::SubmitGot(k))
        && holds(s, HoldTest::Executed(k)) <= executes
        && holds(s, HoldTest::Bare(k)) <= entries(s, EntryTest::BareGot(k))
}

// It is no Execute, or one of one submit, whose caller and number it has.
fn names_its_submit(s: &State, e: &Entry) -> bool {
    match e.by {
        By::Execute(of) => entries(s, EntryTest::SubmitNamed(of, e.call)) == 1,
        _ => true,
    }
}

fn name_their_submits(s: &State, view: &View) -> bool {
    view.entries
        .as_slice()
        .iter()
        .all(|e| names_its_submit(s, e))
}

fn one_hold_per_submit(s: &State) -> bool {
    if !s.views.as_slice().iter().all(|v| name_their_submits(s, v)) {
        return false;
    }
    for k in 0..s.given {
        if !one_hold_at(s, k) {
            return false;
        }
    }
    true
}

/// The first part that doesn't hold, if one doesn't.
pub fn first_broken(s: &State) -> Option<&'static str> {
    if !grace::places_and_serials(s) {
        return Some("places and serials");
    }
    if !grace::sides_agree(s) {
        return Some("sides agree");
    }
    if !grace::grace_period(s) {
        return Some("grace period");
    }
    if !references::split_counts_balance(s) {
        return Some("split counts balance");
    }
    if !references::folded_counts_exact(s) {
        return Some("folded count exact");
    }
    if !references::mode_snapshots(s) {
        return Some("mode snapshots");
    }
    if !references::shown_is_live(s) {
        return Some("shown is live");
    }
    if !turns_owned(s) {
        return Some("turns owned");
    }
    if !one_hold_per_submit(s) {
        return Some("one hold per submit");
    }
    None
}
