//! Soundness of references: counts, modes, and what is shown.
use crate::counts::{EntryTest, HoldTest, entries, holds};
use crate::grace::{all_passed, is_awaited, read_serial};
use lists::items::Items;
use ref_rule::limits::BIAS;
use ref_rule::state::{Count, Disk, Drain, LoadedMode, Phase, Section, State, View};

/// The sum of the counters modulo 2^64.
pub fn word_sum(counts: &Items<Count>) -> u64 {
    let mut sum: u64 = 0;
    for c in counts.as_slice() {
        sum = sum.wrapping_add(c.ups).wrapping_sub(c.downs);
    }
    sum
}

fn same_counts(xs: &Items<Count>, ys: &Items<Count>) -> bool {
    let same = xs
        .as_slice()
        .iter()
        .zip(ys.as_slice())
        .all(|(x, y)| x.ups == y.ups && x.downs == y.downs);
    same && xs.len() == ys.len()
}

fn are_within(counts: &Items<Count>, seats: u32, gets: u64, puts: u64) -> bool {
    let near = counts
        .as_slice()
        .iter()
        .all(|c| c.ups <= gets && c.downs <= puts);
    near && counts.len() == seats as usize
}

fn in_balance(disk: &Disk, drain: &Drain, on: u64) -> bool {
    let own = word_sum(&disk.own).wrapping_sub(word_sum(&drain.bases));
    disk.shared.wrapping_sub(BIAS).wrapping_add(own) == on
}

// Before the fold.
fn split_count(disk: &Disk, drain: &Drain, on: u64, gets: u64, puts: u64) -> bool {
    match drain.phase {
        Phase::Live => disk.shared == BIAS && in_balance(disk, drain, on),
        Phase::Armed => disk.shared == BIAS && on == 0 && in_balance(disk, drain, on),
        Phase::Killed => {
            disk.shared.wrapping_sub(BIAS).wrapping_add(puts) <= gets.wrapping_add(puts)
                && in_balance(disk, drain, on)
        }
        _ => true,
    }
}

// From the fold on.
fn folded_count(disk: &Disk, drain: &Drain, on: u64) -> bool {
    match drain.phase {
        Phase::Folded => disk.shared == on && same_counts(&disk.own, &drain.bases),
        Phase::Drained => { disk.shared == 0 && on == 0 && same_counts(&disk.own, &drain.bases) }
        _ => true,
    }
}

// To each hold there is one entry at its place, with its call, whose section got it.
fn belong(s: &State, view: &View) -> bool {
    view.holds
        .as_slice()
        .iter()
        .all(|h| entries(s, EntryTest::GotBy(h.place, h.call)) == 1)
}

// Each hold that stands is that of one entry whose section got it, and no two are of the same.
fn holds_of_one(s: &State) -> bool {
    if !s.views.as_slice().iter().all(|v| belong(s, v)) {
        return false;
    }
    for k in 0..s.given {
        if holds(s, HoldTest::GotBy(k)) > entries(s, EntryTest::GotAt(k)) {
            return false;
        }
    }
    true
}

/// Shared count, own counters and bases add up to the holds that stand.
pub fn split_counts_balance(s: &State) -> bool {
    let gets = entries(s, EntryTest::Got) as u64;
    let standing = holds(s, HoldTest::Any) as u64;
    let puts = gets.wrapping_sub(standing);
    let mut d: u32 = 0;
    for (disk, drain) in s.disks.as_slice().iter().zip(s.editor.drains.as_slice()) {
        let on = holds(s, HoldTest::On(d)) as u64;
        let within = are_within(&disk.own, s.seats, gets, puts)
            && are_within(&drain.bases, s.seats, gets, puts);
        if !within || !split_count(disk, drain, on, gets, puts) {
            return false;
        }
        d = d.wrapping_add(1);
    }
    standing <= gets && s.disks.len() == s.editor.drains.len() && holds_of_one(s)
}

/// After the fold the shared count is the number of holds.
pub fn folded_counts_exact(s: &State) -> bool {
    let mut d: u32 = 0;
    for (disk, drain) in s.disks.as_slice().iter().zip(s.editor.drains.as_slice()) {
        if !folded_count(disk, drain, holds(s, HoldTest::On(d)) as u64) {
            return false;
        }
        d = d.wrapping_add(1);
    }
    true
}

/// The serial shows the disk.
pub fn shows(s: &State, serial: u32, disk: u32) -> bool {
    match s.editor.confs.as_slice().get(serial as usize) {
        Some(words) => words.at_or(disk as usize, 0) != 0,
        None => false,
    }
}

fn section_shows(s: &State, view: &View, disk: u32) -> bool {
    match read_serial(view) {
        Some(serial) => shows(s, serial, disk),
        None => false,
    }
}

// Live, or killed with the seat awaited.
fn live_or_awaited(s: &State, i: usize, view: &View, disk: u32) -> bool {
    match s.editor.drains.as_slice().get(disk as usize) {
        Some(drain) => match drain.phase {
            Phase::Live => true,
            Phase::Killed => is_awaited(&drain.marks, i, view.word),
            _ => false,
        },
        None => false,
    }
}

fn killed_or_folded(s: &State, disk: u32) -> bool {
    match s.editor.drains.as_slice().get(disk as usize) {
        Some(drain) => matches!(drain.phase, Phase::Killed | Phase::Folded),
        None => false,
    }
}

// In an open section that shows the disk, or whose seat keeps a hold on it.
fn may_use(s: &State, view: &View, disk: u32) -> bool {
    let open = !matches!(view.section, Section::Out);
    let held = view.holds.as_slice().iter().any(|h| h.disk == disk);
    open && (held || section_shows(s, view, disk))
}

fn loaded_fits(s: &State, i: usize, view: &View) -> bool {
    match view.loaded {
        LoadedMode::NotLoaded => true,
        LoadedMode::Live(disk) => may_use(s, view, disk) && live_or_awaited(s, i, view, disk),
        LoadedMode::Killed(disk) => may_use(s, view, disk) && killed_or_folded(s, disk),
    }
}

// Each seat has a mark and a counter that may be looked at.
fn are_wide(s: &State, drain: &Drain) -> bool {
    drain.marks.len() == s.seats as usize && drain.looked.len() == s.seats as usize
}

// A counter that was looked at since the kill stands as it was looked at.
fn looked_stand(s: &State, disk: &Disk, drain: &Drain) -> bool {
    let mut any = false;
    for (found, own) in drain.looked.as_slice().iter().zip(disk.own.as_slice()) {
        if let Some(x) = found {
            any = true;
            if x.ups != own.ups || x.downs != own.downs {
                return false;
            }
        }
    }
    !any || all_passed(&drain.marks, s.seats)
}

fn mode_fits(s: &State, disk: &Disk, drain: &Drain) -> bool {
    let live = matches!(drain.phase, Phase::Live);
    let killed = matches!(drain.phase, Phase::Killed);
    (disk.mode == 0) == live && (!killed || (are_wide(s, drain) && looked_stand(s, disk, drain)))
}

/// The mode is live in the phase live alone, and a loaded one is still good for one step.
pub fn mode_snapshots(s: &State) -> bool {
    for (disk, drain) in s.disks.as_slice().iter().zip(s.editor.drains.as_slice()) {
        if !mode_fits(s, disk, drain) {
            return false;
        }
    }
    for (i, view) in s.views.as_slice().iter().enumerate() {
        if !loaded_fits(s, i, view) {
            return false;
        }
    }
    true
}

fn shown_to(s: &State, disk: u32) -> bool {
    for (i, view) in s.views.as_slice().iter().enumerate() {
        if section_shows(s, view, disk) && !live_or_awaited(s, i, view, disk) {
            return false;
        }
    }
    true
}

/// What the last serial shows is live; what a section shows is live, or killed with that section
/// awaited.
pub fn shown_is_live(s: &State) -> bool {
    let mut disk: u32 = 0;
    for drain in s.editor.drains.as_slice() {
        let live = matches!(drain.phase, Phase::Live);
        if (shows(s, s.serial, disk) && !live) || !shown_to(s, disk) {
            return false;
        }
        disk = disk.wrapping_add(1);
    }
    true
}
