//! Which hold a step takes.
ghost use Rattle.std.specs.Prelude.{◌≡◌, position, true};
ghost use Rattle.ref_state.specs.Steps.{is_least, least, least_place, lesser, place_of, without_least, change};
ghost use Rattle.ref_allowed.specs.HoldTests.{passes};

use lists::items::Items;
use ref_state::kinds::{BARE, Tag};
use ref_state::state::Hold;

/// What a step asks of the hold that it takes.
#[derive(Clone, Copy)]
pub enum HoldTest {
    /// It is on this disk.
    On(u32),
    /// It is on this disk, and a bare call took it or its Execute is placed.
    MayPut(u32),
    /// It is on this disk, and of the command of this caller and number, whose Execute isn't
    /// placed.
    Held(Tag, u32),
}

impl HoldTest {
    ghost use Rattle.ref_allowed.specs.HoldTests.{passes};

    /// Whether the hold passes.
    pub fn passes(&self, h: &Hold) -> bool
        ensures { result ≡ passes self.now h.now }
    {
        let bare = h.call.kind == BARE;
        match self {
            HoldTest::On(disk) => h.disk == *disk,
            HoldTest::MayPut(disk) => h.disk == *disk && (bare || h.executed),
            HoldTest::Held(call, disk) => {
                h.disk == *disk
                    && h.call.caller == call.caller
                    && h.call.number == call.number
                    && !bare
                    && !h.executed
            }
        }
    }
}

fn lesser(place: u32, other: Option<u32>) -> u32
    ensures { result ≡ lesser place other }
{
    match other {
        Some(least) if place > least => least,
        _ => place,
    }
}

// The least place of the holds that pass.
fn find_least(holds: &Items<Hold>, test: &HoldTest) -> Option<u32>
    ensures { result ≡ least_place (passes test.now) holds.now }
{
    let mut least: Option<u32> = None;
    let mut i = holds.len();
    while i > 0 {
        i -= 1;
        let h = holds.at(i);
        if test.passes(h) {
            least = Some(lesser(h.place, least));
        }
    }
    least
}

/// Where the hold with the least place of those that pass stands, if one does.
pub fn hold_index(holds: &Items<Hold>, test: &HoldTest) -> Option<usize>
    ensures { result ≡ position (is_least (passes test.now) holds.now) holds.now }
{
    let place = find_least(holds, test).unwrap_or(0);
    holds
        .as_slice()
        .iter()
        .position(|h| test.passes(h) && h.place == place)
}

/// The place of that hold, or 0.
pub fn hold_place(holds: &Items<Hold>, test: &HoldTest) -> u32
    ensures { result ≡ place_of (least (passes test.now) holds.now) }
{
    match hold_index(holds, test) {
        Some(i) => holds.at(i).place,
        None => 0,
    }
}

/// Takes that hold out, where one passes.
pub fn remove_hold(holds: &mut Items<Hold>, test: &HoldTest)
    ensures { holds.new ≡ without_least (passes test.now) holds.old }
{
    if let Some(i) = hold_index(holds, test) {
        holds.remove(i);
    }
}

/// Marks that hold as having its Execute placed, where one passes.
pub fn mark_executed(holds: &mut Items<Hold>, test: &HoldTest)
    ensures { holds.new ≡ change (is_least (passes test.now) holds.old) (λ h. record h {
      executed =
          true;
    }) holds.old }
{
    if let Some(i) = hold_index(holds, test) {
        holds.at_mut(i).executed = true;
    }
}
