//! Random allowed steps from fixed seeds.
use crate::driver::{opened, tried};
use crate::references::word_sum;
use crate::soundness::first_broken;
use lists::items::Items;
use rand_core::utils::NextWord;
use rand_pcg::Pcg32;
use ref_rule::kinds::{BARE, CONTROL, DONE, EDIT, EXECUTE, SUBMIT, THROUGH};
use ref_rule::limits::{BIAS, EXTENTS};
use ref_rule::state::{Count, LoadedMode, Mark, Phase, Role, State, View};
use ref_rule::{Kind, Tag, Take};
use std::alloc::Global;
use std::process::Abort;

const SEEDS: u64 = 40;

const STEPS: u32 = 250;

// How often each kind was taken, in the order of `Kind`.
const TAKEN: [u32; 24] = [
    1371, 713, 822, 1275, 579, 141, 974, 391, 323, 12, 244, 235, 61, 297, 33, 26, 19, 16, 12, 903,
    492, 150, 388, 523,
];

// One of the numbers below `len`, or 0.
fn index(dice: &mut Pcg32, len: usize) -> usize {
    let word = dice.next_word() as usize;
    if len == 0 { 0 } else { word % len }
}

// One of the numbers below `sides`, or 0.
fn roll(dice: &mut Pcg32, sides: u32) -> u32 {
    let word = dice.next_word();
    if sides == 0 { 0 } else { word % sides }
}

// A call that takes a place in a section: mostly a submit, else a bare call, or one that is placed
// for another seat.
fn drawn_call(dice: &mut Pcg32, caller: u32, number: u32) -> Tag {
    let kind = match roll(dice, 6) {
        0 => BARE,
        1 => CONTROL,
        2 => THROUGH,
        _ => SUBMIT,
    };
    Tag {
        kind,
        caller,
        number,
    }
}

// The Execute of one of the holds, and a slot of its disk.
fn execute(dice: &mut Pcg32, view: &View) -> Kind {
    let n = index(dice, view.holds.len());
    let extent = roll(dice, 8);
    match view.holds.as_slice().get(n) {
        Some(h) => Kind::PlaceExecute {
            slot: h.disk.wrapping_mul(EXTENTS).wrapping_add(extent),
            call: Tag {
                kind: EXECUTE,
                ..h.call
            },
        },
        None => Kind::EnterSection,
    }
}

fn looked_sum(looked: &Items<Option<Count>>) -> u64 {
    let mut sum: u64 = 0;
    for found in looked.as_slice() {
        if let Some(c) = found {
            sum = sum.wrapping_add(c.ups).wrapping_sub(c.downs);
        }
    }
    sum
}

// What is to be added at the fold: the looked counters, less the bases, less the bias.
fn delta(s: &State, disk: u32) -> u64 {
    match s.editor.drains.as_slice().get(disk as usize) {
        Some(drain) => looked_sum(&drain.looked)
            .wrapping_sub(word_sum(&drain.bases))
            .wrapping_sub(BIAS),
        None => 0,
    }
}

// A part that isn't spent, or seat 0, which is never joined.
fn loose_part(dice: &mut Pcg32, s: &State) -> u32 {
    let mut left = index(dice, s.views.len());
    let mut part: u32 = 0;
    for view in s.views.as_slice() {
        if left == 0 && matches!(view.role, Role::Part) {
            return part;
        }
        left = left.saturating_sub(1);
        part = part.wrapping_add(1);
    }
    0
}

fn take(dice: &mut Pcg32, s: &State) -> Take {
    match roll(dice, 6) {
        0 => Take::Nothing,
        1 => Take::Place,
        2 => Take::Entry(roll(dice, s.given)),
        _ => Take::Hold(roll(dice, 2)),
    }
}

// A look would tell the grace period more than it knows.
fn is_news(marks: &Items<Mark>, seat: u32, word: u64) -> bool {
    match marks.at_or(seat as usize, Mark::Unseen) {
        Mark::Unseen => true,
        Mark::Noted(noted) => noted != word,
        Mark::Passed => false,
    }
}

// A grace period, that of the last publish or of the disk, wants to look at the seat.
fn is_wanted(s: &State, disk: u32, seat: u32) -> bool {
    let word = match s.views.as_slice().get(seat as usize) {
        Some(view) => view.word,
        None => 0,
    };
    let killed = match s.editor.drains.as_slice().get(disk as usize) {
        Some(drain) => is_news(&drain.marks, seat, word),
        None => false,
    };
    killed || is_news(&s.editor.marks, seat, word)
}

// Mostly a look at a seat that a grace period wants to look at, else a word for the next publish.
fn look(dice: &mut Pcg32, s: &State, disk: u32) -> Kind {
    let other = roll(dice, 3);
    if is_wanted(s, disk, other) || roll(dice, 16) == 0 {
        Kind::LookSection { other }
    } else {
        store(dice, disk)
    }
}

// The disk is shown, or more seldom hidden.
fn store(dice: &mut Pcg32, disk: u32) -> Kind {
    Kind::StoreRow {
        word: disk,
        value: (roll(dice, 3) > 0) as u64,
    }
}

// A step of the editor's seat.
fn editor_kind(dice: &mut Pcg32, s: &State) -> Kind {
    let disk = roll(dice, 2);
    let other = roll(dice, 3);
    let number = s.given;
    let call = Tag {
        kind: EDIT,
        caller: 0,
        number,
    };
    match roll(dice, 20) {
        0 => store(dice, other),
        1 | 2 | 3 | 4 => Kind::Publish { call },
        5 | 6 if s.serial > 1 => Kind::Kill { disk },
        7 | 8 | 9 => Kind::LookCounter { disk, other },
        10 => Kind::Fold {
            disk,
            delta: delta(s, disk),
        },
        11 => Kind::LookZero { disk },
        12 => Kind::PlaceDone {
            disk,
            call: Tag { kind: DONE, ..call },
        },
        13 => Kind::LiveShared { disk },
        14 => Kind::LiveMode { disk },
        _ => look(dice, s, disk),
    }
}

// A get or a put on the disk whose mode is loaded.
fn add(dice: &mut Pcg32, view: &View) -> Kind {
    let up = roll(dice, 2) == 0;
    match view.loaded {
        LoadedMode::Live(disk) => Kind::AddOwn { disk, up },
        LoadedMode::Killed(disk) => Kind::AddShared { disk, up },
        LoadedMode::NotLoaded => Kind::LoadMode {
            disk: roll(dice, 2),
        },
    }
}

// The slot of one of the turns that are kept, or any.
fn kept_slot(dice: &mut Pcg32, view: &View) -> u32 {
    let n = index(dice, view.turns.len());
    match view.turns.as_slice().get(n) {
        Some(turn) => turn.slot,
        None => roll(dice, 16),
    }
}

// A step that any seat may try.
fn seat_kind(dice: &mut Pcg32, s: &State, seat: u32, view: &View) -> Kind {
    match roll(dice, 28) {
        0 | 1 => Kind::EnterSection,
        2 | 3 | 4 => Kind::DrawPlace {
            call: drawn_call(dice, seat, s.given),
        },
        5 | 6 | 7 => Kind::LeaveSection,
        8 => Kind::LoadRow {
            word: roll(dice, 3),
        },
        9 | 10 | 11 | 12 | 13 | 14 | 15 | 16 => add(dice, view),
        17 => Kind::Split {
            take: take(dice, s),
        },
        18 => Kind::Join {
            part: loose_part(dice, s),
        },
        19 if view.turns.len() < 3 => Kind::TakeTurn {
            slot: roll(dice, 16),
        },
        20 => Kind::SlotOut {
            slot: kept_slot(dice, view),
        },
        21 => Kind::SlotIn {
            slot: kept_slot(dice, view),
        },
        22 => Kind::GiveTurn {
            slot: kept_slot(dice, view),
        },
        _ => execute(dice, view),
    }
}

fn random_step(dice: &mut Pcg32, s: &State) -> (u32, Kind) {
    if roll(dice, 3) == 0 {
        return (0, editor_kind(dice, s));
    }
    let seat = roll(dice, 3);
    match s.views.as_slice().get(seat as usize) {
        Some(view) => (seat, seat_kind(dice, s, seat, view)),
        None => (seat, Kind::EnterSection),
    }
}

// Where the kind stands in `Kind`.
fn number_of(kind: &Kind) -> usize {
    match kind {
        Kind::EnterSection => 0,
        Kind::DrawPlace { .. } => 1,
        Kind::LoadRow { .. } => 2,
        Kind::LeaveSection => 3,
        Kind::StoreRow { .. } => 4,
        Kind::Publish { .. } => 5,
        Kind::LookSection { .. } => 6,
        Kind::LoadMode { .. } => 7,
        Kind::AddOwn { .. } => 8,
        Kind::AddShared { .. } => 9,
        Kind::Split { .. } => 10,
        Kind::Join { .. } => 11,
        Kind::Kill { .. } => 12,
        Kind::LookCounter { .. } => 13,
        Kind::Fold { .. } => 14,
        Kind::LookZero { .. } => 15,
        Kind::PlaceDone { .. } => 16,
        Kind::LiveShared { .. } => 17,
        Kind::LiveMode { .. } => 18,
        Kind::TakeTurn { .. } => 19,
        Kind::SlotOut { .. } => 20,
        Kind::PlaceExecute { .. } => 21,
        Kind::SlotIn { .. } => 22,
        Kind::GiveTurn { .. } => 23,
    }
}

fn count(taken: &mut [u32; 24], kind: &Kind) {
    if let Some(n) = taken.get_mut(number_of(kind)) {
        *n = n.wrapping_add(1);
    }
}

// Steps from one seed, each followed by a check of soundness.
fn run(rt: &impl Abort, alloc: Global, seed: u64, taken: &mut [u32; 24]) {
    let mut dice = Pcg32::new(seed, 54);
    let mut core = opened(rt, alloc);
    let mut steps: u32 = 0;
    for _ in 0..100_000 {
        if steps >= STEPS {
            break;
        }
        let (seat, kind) = random_step(&mut dice, core.state());
        if tried(rt, alloc, &mut core, seat, &kind).is_some() {
            steps = steps.wrapping_add(1);
            count(taken, &kind);
            assert_eq!(rt;
                first_broken(core.state()),
                None,
                "seed {seed}, step {steps}"
            );
        }
    }
    assert_eq!(rt; steps, STEPS, "seed {seed}");
}

#[test]
fn ten_thousand_random_steps(rt: HostRuntime) {
    let mut taken = [0; 24];
    for seed in 0..SEEDS {
        run(&rt, rt.alloc(), seed, &mut taken);
    }
    assert_eq!(rt; taken, TAKEN);
}
