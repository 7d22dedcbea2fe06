//! The state of an opened core.
ghost use Rattle.std.specs.Prelude.{◌≡◌, ◌*◌, ◌^◌, ◌<◌, ◌≤◌, ◌∷◌, [], length, replicate, IfOk};
ghost use Rattle.ref_state.specs.Soundness.{opened_core, live_disk, live_drain, seat_view, seats_from, sum_of};

use lists::items::Items;
use ref_allowed::counts::ZERO;
use ref_state::limits::{BIAS, EXTENTS, LIVE, MAX_DISKS, MAX_SEATS};
use ref_state::state::{Disk, Drain, Editor, LoadedMode, Mark, Phase, Role, Section, State, View};
use std::alloc::{AllocError, Global};

// The words of live references.
fn live_disks(alloc: Global, seats: usize, disks: usize) -> Result<Items<Disk>, AllocError>
    ensures { IfOk result (λ r. r ≡ replicate disks (live_disk seats)) }
{
    let mut all = Items::new(alloc);
    for _k in 0..disks {
        let own = Items::copies(alloc, seats, ZERO)?;
        all.push_front(Disk {
            mode: LIVE,
            shared: BIAS,
            own,
        })?;
    }
    Ok(all)
}

// What the editor's seat keeps of them.
fn live_drains(alloc: Global, seats: usize, disks: usize) -> Result<Items<Drain>, AllocError>
    ensures { IfOk result (λ r. r ≡ replicate disks (live_drain seats)) }
{
    let mut all = Items::new(alloc);
    for _k in 0..disks {
        let bases = Items::copies(alloc, seats, ZERO)?;
        let marks = Items::copies(alloc, seats, Mark::Passed)?;
        all.push_front(Drain {
            phase: Phase::Live,
            done_placed: false,
            bases,
            looked: Items::new(alloc),
            marks,
        })?;
    }
    Ok(all)
}

// A seat that has made no step.
fn fresh_seat(alloc: Global, number: u32, quota: u32) -> View
    ensures { result ≡ seat_view number quota }
{
    View {
        role: Role::Seat,
        number,
        word: 0,
        section: Section::Out,
        loaded: LoadedMode::NotLoaded,
        holds: Items::new(alloc),
        turns: Items::new(alloc),
        left: quota,
        seen: 0,
        entries: Items::new(alloc),
    }
}

// One seat for each quota.
fn fresh_seats(alloc: Global, quotas: &[u32]) -> Result<Items<View>, AllocError>
    requires { length quotas.now < 2 ^ 32 }
    ensures { IfOk result (λ r. r ≡ seats_from 0 quotas.now) }
{
    let mut all = Items::new(alloc);
    let mut i = quotas.len();
    while i > 0 {
        i -= 1;
        all.push_front(fresh_seat(alloc, i as u32, quotas[i]))?;
    }
    Ok(all)
}

// The sum of the quotas.
fn quota_sum(quotas: &[u32]) -> u32
    requires { sum_of quotas.now < 2 ^ 32 }
    ensures { result ≡ sum_of quotas.now }
{
    let mut sum = 0;
    for q in quotas {
        sum += *q;
    }
    sum
}

// One list of zeros for each side of words.
fn zero_rows(alloc: Global, rows: usize) -> Result<Items<u64>, AllocError>
    ensures { IfOk result (λ r. r ≡ replicate rows 0) }
{
    Items::copies(alloc, rows, 0)
}

// Two sides of zeros.
fn zero_sides(alloc: Global, rows: usize) -> Result<Items<Items<u64>>, AllocError>
    ensures { IfOk result (λ r. r ≡ replicate rows 0 ∷ replicate rows 0 ∷ []) }
{
    let mut sides = Items::new(alloc);
    sides.push(zero_rows(alloc, rows)?)?;
    sides.push(zero_rows(alloc, rows)?)?;
    Ok(sides)
}

// What the editor's seat keeps at first.
fn fresh_editor(
    alloc: Global,
    seats: usize,
    disks: usize,
    rows: usize,
) -> Result<Editor, AllocError>
    ensures { IfOk result (λ e. e ≡ record {
      confs = replicate rows 0 ∷ [];
      published = [];
      pending = [];
      marks = replicate seats Mark.Passed;
      drains =
          replicate disks (live_drain seats);
    }) }
{
    let mut confs = Items::new(alloc);
    confs.push(zero_rows(alloc, rows)?)?;
    let marks = Items::copies(alloc, seats, Mark::Passed)?;
    let drains = live_drains(alloc, seats, disks)?;
    Ok(Editor {
        confs,
        published: Items::new(alloc),
        pending: Items::new(alloc),
        marks,
        drains,
    })
}

/// The state of an opened core: one seat for each quota, a slot for each extent of a disk, and
/// sides of zeros.
pub fn opened_state(
    alloc: Global,
    quotas: &[u32],
    disks: u32,
    rows: u32,
) -> Result<State, AllocError>
    requires seats { length quotas.now ≤ MAX_SEATS }
    requires sum { sum_of quotas.now < 2 ^ 32 }
    requires disks { disks ≤ MAX_DISKS }
    ensures { IfOk result (λ s. s ≡ opened_core quotas.now disks (EXTENTS * disks)
        (replicate rows 0)) }
{
    let seats = quotas.len();
    let sides = zero_sides(alloc, rows as usize)?;
    let references = live_disks(alloc, seats, disks as usize)?;
    let turns = Items::copies(alloc, EXTENTS as usize * disks as usize, 0)?;
    let views = fresh_seats(alloc, quotas)?;
    let editor = fresh_editor(alloc, seats, disks as usize, rows as usize)?;
    Ok(State {
        given: 0,
        serial: 0,
        sides,
        disks: references,
        turns,
        views,
        editor,
        seats: seats as u32,
        rows,
        quotas: quota_sum(quotas),
    })
}
