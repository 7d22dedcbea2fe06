//! What the editor asks of a reference from the kill to the next life.
ghost use Rattle.std.specs.Prelude.{◌≡◌, ◌↔◌, ◌<◌, ◌+◌, ◌%◌, ℕ, length, map, true, false, IsTrue, Some, None, slice_index_or};
ghost use Rattle.ref_state.specs.declared.state.Count.{Count as CountRecord};
ghost use Rattle.ref_state.specs.State.{view, Shows, AllPassed, drain, total, word_of, bias};
ghost use Rattle.ref_state.specs.State.{drain as drain_at};
ghost use Rattle.ref_state.specs.Steps.{MayStep, count_or};

use crate::counts::{ZERO, count_word};
use crate::section_conditions::shows;
use crate::side_conditions::{have_passed, is_phase, phase_of};
use lists::items::Items;
use ref_state::kinds::Kind;
use ref_state::limits::BIAS;
use ref_state::state::{Count, Drain, Editor, Phase, State, View};

fn is_done_placed(editor: &Editor, disk: u32) -> bool
    ensures { result ≡ (drain editor.now disk).done_placed }
{
    let i = disk as usize;
    if i < editor.drains.len() {
        editor.drains.at(i).done_placed
    } else {
        false
    }
}

/// The editor's seat, a disk that is there, and its phase.
pub fn is_at_phase(s: &State, seat: u32, disk: u32, phase: Phase) -> bool
    ensures { IsTrue result ↔ ((seat ≡ 0) × (disk < length s.now.disks)
        × ((drain s.now.editor disk).phase ≡ phase)) }
{
    seat == 0
        && (disk as usize) < s.disks.len()
        && is_phase(phase_of(&s.editor, disk as usize), phase)
}

/// The editor's seat may kill the mode of the disk.
pub fn may_kill(s: &State, seat: u32, disk: u32) -> bool
    ensures { IsTrue result ↔ ((seat ≡ 0) × (disk < length s.now.disks)
        × ((drain s.now.editor disk).phase ≡ Phase.Live) × ¬ Shows s.now.editor s.now.serial disk) }
{
    is_at_phase(s, seat, disk, Phase::Live) && !shows(&s.editor, s.serial, disk)
}

fn passed_since_kill(s: &State, disk: u32) -> bool
    requires { disk < length s.now.editor.drains }
    ensures { IsTrue result ↔ AllPassed s.now.seats (drain s.now.editor disk).marks }
{
    have_passed(&s.editor.drains.at(disk as usize).marks, s.seats)
}

/// The editor's seat may look at an own counter.
pub fn may_look_counter(s: &State, seat: u32, disk: u32, other: u32) -> bool
    requires { length s.now.editor.drains ≡ length s.now.disks }
    ensures { IsTrue result ↔ ((seat ≡ 0) × (disk < length s.now.disks) × (other < s.now.seats)
        × ((drain s.now.editor disk).phase ≡ Phase.Killed)
        × AllPassed s.now.seats (drain s.now.editor disk).marks) }
{
    is_at_phase(s, seat, disk, Phase::Killed) && other < s.seats && passed_since_kill(s, disk)
}

/// The editor's seat may place the end of the drain.
pub fn may_place_done(s: &State, seat: u32, view: &View, disk: u32) -> bool
    ensures { IsTrue result ↔ ((seat ≡ 0) × (disk < length s.now.disks) × (0 < view.now.left)
        × ((drain s.now.editor disk).phase ≡ Phase.Drained) × ((drain s.now.editor disk).done_placed
        ≡ false)) }
{
    is_at_phase(s, seat, disk, Phase::Drained) && view.left > 0 && !is_done_placed(&s.editor, disk)
}

/// The editor's seat may put the bias back.
pub fn may_arm(s: &State, seat: u32, disk: u32) -> bool
    ensures { IsTrue result ↔ ((seat ≡ 0) × (disk < length s.now.disks)
        × ((drain s.now.editor disk).phase ≡ Phase.Drained) × ((drain s.now.editor disk).done_placed
        ≡ true) × ¬ Shows s.now.editor s.now.serial disk) }
{
    is_at_phase(s, seat, disk, Phase::Drained)
        && is_done_placed(&s.editor, disk)
        && !shows(&s.editor, s.serial, disk)
}

// The words of the counters, added up modulo 2^64.
fn word_sum(counts: &Items<Count>) -> u64
    ensures { result ≡ total word_of counts.now % 18446744073709551616 }
{
    let mut sum: u64 = 0;
    for count in counts.as_slice() {
        sum = sum.wrapping_add(count_word(*count));
    }
    sum
}

// The same of the counters as they were looked at.
fn looked_sum(looked: &Items<Option<Count>>) -> u64
    ensures { result ≡ total word_of (map count_or looked.now) % 18446744073709551616 }
{
    let mut sum: u64 = 0;
    for found in looked.as_slice() {
        sum = sum.wrapping_add(count_word(found.unwrap_or(ZERO)));
    }
    sum
}

// What is added to the shared count is the sum of the counters less that of their bases less the
// bias.
fn is_delta(bases: &Items<Count>, looked: &Items<Option<Count>>, delta: u64) -> bool
    ensures { IsTrue result ↔ ((delta + (total word_of bases.now + bias)) % 18446744073709551616
        ≡ total word_of (map count_or looked.now) % 18446744073709551616) }
{
    let taken = word_sum(bases).wrapping_add(BIAS);
    delta.wrapping_add(taken) == looked_sum(looked)
}

fn has_looked(looked: &Items<Option<Count>>, other: u32) -> bool
    ensures { IsTrue result ↔ ((x : CountRecord) × (slice_index_or looked.now other None
        ≡ Some x)) }
{
    looked.at_or(other as usize, None).is_some()
}

// Each counter was looked at.
fn have_looked(looked: &Items<Option<Count>>, seats: u32) -> bool
    ensures { IsTrue result ↔ ((o : ℕ) → o < seats → (x : CountRecord)
        × (slice_index_or looked.now o None ≡ Some x)) }
{
    for other in 0..seats {
        if !has_looked(looked, other) {
            return false;
        }
    }
    true
}

// All counters of the disk were looked at, and this is what is to be added.
fn drain_folds_by(drain: &Drain, seats: u32, delta: u64) -> bool
    ensures { IsTrue result ↔ (((o : ℕ) → o < seats → (x : CountRecord)
        × (slice_index_or drain.now.looked o None ≡ Some x))
        × ((delta + (total word_of drain.now.bases + bias)) % 18446744073709551616
        ≡ total word_of (map count_or drain.now.looked) % 18446744073709551616)) }
{
    have_looked(&drain.looked, seats) && is_delta(&drain.bases, &drain.looked, delta)
}

fn may_fold_by(s: &State, disk: u32, delta: u64) -> bool
    requires { disk < length s.now.editor.drains }
    ensures { IsTrue result ↔ (((o : ℕ) → o < s.now.seats → (x : CountRecord)
        × (slice_index_or (drain_at s.now.editor disk).looked o None ≡ Some x))
        × ((delta + (total word_of (drain_at s.now.editor disk).bases
        + bias)) % 18446744073709551616 ≡ total word_of (map count_or
        (drain_at s.now.editor disk).looked) % 18446744073709551616)) }
{
    drain_folds_by(s.editor.drains.at(disk as usize), s.seats, delta)
}

/// The editor's seat may add this to the shared count.
pub fn may_fold(s: &State, seat: u32, disk: u32, delta: u64) -> bool
    requires { length s.now.editor.drains ≡ length s.now.disks }
    ensures { IsTrue result ↔ MayStep s.now seat (view s.now.views seat) (Kind.Fold disk delta) }
{
    is_at_phase(s, seat, disk, Phase::Killed) && may_fold_by(s, disk, delta)
}
