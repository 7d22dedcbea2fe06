//! Tables of steps, each with the answer that it must give, or none where it must not be allowed.
use crate::driver::{opened, tried_with_care};
use crate::soundness::first_broken;
use ref_rule::limits::BIAS;
use ref_rule::{Answer, Kind, Tag, Take, kinds};
use std::alloc::Global;
use std::process::Abort;

type Row = (u32, Kind, Option<Answer>);

const DONE: Option<Answer> = Some(Answer::Nothing);

const ZERO: Option<Answer> = Some(Answer::Word(0));

// 2^63, and 2^64 - 1.

const BELOW_ZERO: u64 = 0xFFFF_FFFF_FFFF_FFFF;

const BARE: Tag = Tag {
    kind: kinds::BARE,
    caller: 2,
    number: 0,
};

const FIRST: Tag = Tag {
    kind: kinds::SUBMIT,
    caller: 1,
    number: 0,
};

const SECOND: Tag = Tag {
    kind: kinds::SUBMIT,
    caller: 1,
    number: 1,
};

const FIRST_EXECUTE: Tag = Tag {
    kind: kinds::EXECUTE,
    caller: 1,
    number: 0,
};

const SECOND_EXECUTE: Tag = Tag {
    kind: kinds::EXECUTE,
    caller: 1,
    number: 1,
};

const EDIT: Tag = Tag {
    kind: kinds::EDIT,
    caller: 0,
    number: 0,
};

const END: Tag = Tag {
    kind: kinds::DONE,
    caller: 0,
    number: 1,
};

const SHOW: Kind = Kind::StoreRow { word: 0, value: 1 };

const HIDE: Kind = Kind::StoreRow { word: 0, value: 0 };

const PUBLISH: Kind = Kind::Publish { call: EDIT };

const LOOK_0: Kind = Kind::LookSection { other: 0 };

const LOOK_1: Kind = Kind::LookSection { other: 1 };

const LOOK_2: Kind = Kind::LookSection { other: 2 };

const MODE: Kind = Kind::LoadMode { disk: 0 };

const GET: Kind = Kind::AddOwn { disk: 0, up: true };

const PUT: Kind = Kind::AddOwn { disk: 0, up: false };

const SHARED_GET: Kind = Kind::AddShared { disk: 0, up: true };

const SHARED_PUT: Kind = Kind::AddShared { disk: 0, up: false };

const COUNTER_0: Kind = Kind::LookCounter { disk: 0, other: 0 };

const COUNTER_1: Kind = Kind::LookCounter { disk: 0, other: 1 };

const COUNTER_2: Kind = Kind::LookCounter { disk: 0, other: 2 };

const KILL: Kind = Kind::Kill { disk: 0 };

const LOOK_ZERO: Kind = Kind::LookZero { disk: 0 };

const LEND: Kind = Kind::Split {
    take: Take::Hold(0),
};

const ENTER: Kind = Kind::EnterSection;

const LEAVE: Kind = Kind::LeaveSection;

const JOIN_3: Kind = Kind::Join { part: 3 };

const FOLD_0: Kind = Kind::Fold {
    disk: 0,
    delta: BIAS,
};

// A submit of seat 1 gets a hold; seat 2 executes it and puts the hold while the reference is live.
// Then the disk is hidden, killed, folded and drained, and lives again.
const PUT_ELSEWHERE: &[Row] = &[
    (0, SHOW, DONE),
    (0, PUBLISH, Some(Answer::Pair(0, 1))),
    (1, ENTER, DONE),
    (1, GET, None),
    (1, Kind::DrawPlace { call: FIRST }, Some(Answer::Pair(1, 1))),
    (1, Kind::LoadRow { word: 0 }, Some(Answer::Word(1))),
    (1, MODE, ZERO),
    (1, SHARED_GET, None),
    (1, PUT, None),
    (1, LEAVE, None),
    (1, GET, DONE),
    (1, LEAVE, DONE),
    (1, LEND, DONE),
    (2, JOIN_3, DONE),
    (2, Kind::TakeTurn { slot: 0 }, Some(Answer::Yes)),
    (2, Kind::SlotOut { slot: 0 }, DONE),
    (
        2,
        Kind::PlaceExecute {
            slot: 0,
            call: FIRST_EXECUTE,
        },
        Some(Answer::Word(2)),
    ),
    (
        2,
        Kind::PlaceExecute {
            slot: 0,
            call: FIRST_EXECUTE,
        },
        None,
    ),
    (2, Kind::SlotIn { slot: 0 }, DONE),
    (2, Kind::GiveTurn { slot: 0 }, DONE),
    (2, ENTER, DONE),
    (2, MODE, ZERO),
    (2, PUT, DONE),
    (2, LEAVE, DONE),
    (0, LOOK_0, ZERO),
    (0, LOOK_1, Some(Answer::Word(2))),
    (0, LOOK_2, Some(Answer::Word(2))),
    (0, HIDE, DONE),
    (0, KILL, None),
    (0, PUBLISH, Some(Answer::Pair(3, 2))),
    (0, KILL, DONE),
    (0, LOOK_ZERO, None),
    (0, COUNTER_0, None),
    (0, LOOK_0, ZERO),
    (0, LOOK_1, Some(Answer::Word(2))),
    (0, LOOK_2, Some(Answer::Word(2))),
    (0, COUNTER_0, ZERO),
    (0, COUNTER_1, Some(Answer::Word(1))),
    (0, FOLD_0, None),
    (0, COUNTER_2, Some(Answer::Word(BELOW_ZERO))),
    (0, Kind::Fold { disk: 0, delta: 0 }, None),
    (0, FOLD_0, Some(Answer::Word(BIAS))),
    (0, LOOK_ZERO, ZERO),
    (0, Kind::LiveShared { disk: 0 }, None),
    (
        0,
        Kind::PlaceDone { disk: 0, call: END },
        Some(Answer::Word(4)),
    ),
    (0, Kind::LiveMode { disk: 0 }, None),
    (0, Kind::LiveShared { disk: 0 }, DONE),
    (0, SHOW, DONE),
    (0, PUBLISH, None),
    (0, Kind::LiveMode { disk: 0 }, DONE),
    (0, PUBLISH, Some(Answer::Pair(5, 3))),
];

// Two submits of seat 1 get holds; after the fold seat 2 puts the first and seat 1 the second.
const TWO_HOLDS: &[Row] = &[
    (0, SHOW, DONE),
    (0, PUBLISH, Some(Answer::Pair(0, 1))),
    (1, ENTER, DONE),
    (1, Kind::DrawPlace { call: FIRST }, Some(Answer::Pair(1, 1))),
    (1, MODE, ZERO),
    (1, GET, DONE),
    (1, LEAVE, DONE),
    (1, ENTER, DONE),
    (
        1,
        Kind::DrawPlace { call: SECOND },
        Some(Answer::Pair(2, 1)),
    ),
    (1, MODE, ZERO),
    (1, GET, DONE),
    (1, LEAVE, DONE),
    (1, LEND, DONE),
    (2, JOIN_3, DONE),
    (0, LOOK_0, ZERO),
    (0, LOOK_1, Some(Answer::Word(4))),
    (0, LOOK_2, ZERO),
    (0, HIDE, DONE),
    (0, PUBLISH, Some(Answer::Pair(3, 2))),
    (0, KILL, DONE),
    (0, LOOK_0, ZERO),
    (0, LOOK_1, Some(Answer::Word(4))),
    (0, LOOK_2, ZERO),
    (0, COUNTER_0, ZERO),
    (0, COUNTER_1, Some(Answer::Word(2))),
    (0, COUNTER_2, ZERO),
    (
        0,
        Kind::Fold {
            disk: 0,
            delta: BIAS + 2,
        },
        Some(Answer::Word(BIAS)),
    ),
    (0, LOOK_ZERO, Some(Answer::Word(2))),
    (
        2,
        Kind::PlaceExecute {
            slot: 0,
            call: SECOND_EXECUTE,
        },
        None,
    ),
    (
        2,
        Kind::PlaceExecute {
            slot: 0,
            call: FIRST_EXECUTE,
        },
        Some(Answer::Word(4)),
    ),
    (2, ENTER, DONE),
    (2, MODE, Some(Answer::Word(1))),
    (2, PUT, None),
    (2, SHARED_PUT, Some(Answer::Word(2))),
    (2, LEAVE, DONE),
    (0, LOOK_ZERO, Some(Answer::Word(1))),
    (0, Kind::PlaceDone { disk: 0, call: END }, None),
    (
        1,
        Kind::PlaceExecute {
            slot: 1,
            call: SECOND_EXECUTE,
        },
        Some(Answer::Word(5)),
    ),
    (1, ENTER, DONE),
    (1, MODE, Some(Answer::Word(1))),
    (1, SHARED_PUT, Some(Answer::Word(1))),
    (1, LEAVE, DONE),
    (0, LOOK_ZERO, ZERO),
    (
        0,
        Kind::PlaceDone { disk: 0, call: END },
        Some(Answer::Word(6)),
    ),
    (0, Kind::PlaceDone { disk: 0, call: END }, None),
];

// Seat 1 is in a section that shows the disk and has no hold, while the disk is hidden and killed.
const FOLD_WAITS: &[Row] = &[
    (0, SHOW, DONE),
    (0, PUBLISH, Some(Answer::Pair(0, 1))),
    (0, LOOK_0, ZERO),
    (0, LOOK_1, ZERO),
    (0, LOOK_2, ZERO),
    (1, ENTER, DONE),
    (1, Kind::DrawPlace { call: BARE }, Some(Answer::Pair(1, 1))),
    (0, HIDE, DONE),
    (0, PUBLISH, Some(Answer::Pair(2, 2))),
    (0, KILL, DONE),
    (0, LOOK_0, ZERO),
    (0, LOOK_1, Some(Answer::Word(1))),
    (0, LOOK_2, ZERO),
    (0, COUNTER_0, None),
    (0, FOLD_0, None),
    (0, LOOK_1, Some(Answer::Word(1))),
    (0, COUNTER_0, None),
    (1, Kind::LoadRow { word: 0 }, Some(Answer::Word(1))),
    (1, MODE, Some(Answer::Word(1))),
    (1, GET, None),
    (1, SHARED_GET, Some(Answer::Word(BIAS))),
    (0, FOLD_0, None),
    (1, LEAVE, DONE),
    (0, COUNTER_0, None),
    (0, LOOK_1, Some(Answer::Word(2))),
    (0, COUNTER_0, ZERO),
    (0, COUNTER_1, ZERO),
    (0, COUNTER_2, ZERO),
    (0, FOLD_0, Some(Answer::Word(BIAS + 1))),
    (0, LOOK_ZERO, Some(Answer::Word(1))),
    (1, ENTER, DONE),
    (1, MODE, Some(Answer::Word(1))),
    (1, SHARED_PUT, Some(Answer::Word(1))),
    (1, LEAVE, DONE),
    (0, LOOK_ZERO, ZERO),
];

// Seat 1 is in a section with a place while a configuration is published. The next isn't before
// seat 1 has left.
const ONE_PUBLISH: &[Row] = &[
    (0, Kind::StoreRow { word: 2, value: 7 }, DONE),
    (0, PUBLISH, Some(Answer::Pair(0, 1))),
    (0, LOOK_0, ZERO),
    (0, LOOK_1, ZERO),
    (0, LOOK_2, ZERO),
    (1, ENTER, DONE),
    (1, Kind::LoadRow { word: 2 }, None),
    (1, Kind::DrawPlace { call: BARE }, Some(Answer::Pair(1, 1))),
    (1, Kind::LoadRow { word: 3 }, None),
    (1, Kind::LoadRow { word: 2 }, Some(Answer::Word(7))),
    (0, Kind::StoreRow { word: 2, value: 8 }, DONE),
    (1, Kind::LoadRow { word: 2 }, Some(Answer::Word(7))),
    (0, PUBLISH, Some(Answer::Pair(2, 2))),
    (1, Kind::LoadRow { word: 2 }, Some(Answer::Word(7))),
    (0, Kind::StoreRow { word: 2, value: 9 }, None),
    (0, PUBLISH, None),
    (0, LOOK_0, ZERO),
    (0, LOOK_1, Some(Answer::Word(1))),
    (0, LOOK_2, ZERO),
    (0, LOOK_1, Some(Answer::Word(1))),
    (0, Kind::StoreRow { word: 2, value: 9 }, None),
    (0, PUBLISH, None),
    (1, Kind::LoadRow { word: 2 }, Some(Answer::Word(7))),
    (1, LEAVE, DONE),
    (0, Kind::StoreRow { word: 2, value: 9 }, None),
    (0, LOOK_1, Some(Answer::Word(2))),
    (0, Kind::StoreRow { word: 2, value: 9 }, DONE),
    (0, PUBLISH, Some(Answer::Pair(3, 3))),
    (2, ENTER, DONE),
    (2, Kind::DrawPlace { call: BARE }, Some(Answer::Pair(4, 3))),
    (2, Kind::LoadRow { word: 2 }, Some(Answer::Word(9))),
];

// Two seats and the slots 0 and 1.
const TURNS: &[Row] = &[
    (1, Kind::TakeTurn { slot: 0 }, Some(Answer::Yes)),
    (2, Kind::TakeTurn { slot: 1 }, Some(Answer::Yes)),
    (2, Kind::TakeTurn { slot: 0 }, Some(Answer::No)),
    (1, Kind::TakeTurn { slot: 0 }, None),
    (2, Kind::SlotOut { slot: 0 }, None),
    (2, Kind::SlotOut { slot: 1 }, DONE),
    (2, Kind::GiveTurn { slot: 1 }, None),
    (2, Kind::SlotIn { slot: 1 }, DONE),
    (2, Kind::GiveTurn { slot: 1 }, DONE),
    (1, Kind::GiveTurn { slot: 0 }, DONE),
    (2, Kind::TakeTurn { slot: 0 }, Some(Answer::Yes)),
    (1, Kind::TakeTurn { slot: 15 }, Some(Answer::Yes)),
    (1, Kind::TakeTurn { slot: 16 }, None),
];

// Seats and parts are joined, and what is joined takes no step.
const JOINS: &[Row] = &[
    (1, ENTER, DONE),
    (1, Kind::DrawPlace { call: BARE }, Some(Answer::Pair(0, 0))),
    (0, Kind::Join { part: 1 }, None),
    (1, LEAVE, DONE),
    (
        1,
        Kind::Split {
            take: Take::Entry(0),
        },
        None,
    ),
    (1, Kind::Split { take: Take::Place }, DONE),
    (3, ENTER, None),
    (1, Kind::Join { part: 0 }, None),
    (1, Kind::Join { part: 1 }, None),
    (1, Kind::Join { part: 4 }, None),
    (0, Kind::Join { part: 1 }, DONE),
    (0, Kind::Join { part: 1 }, None),
    (1, ENTER, None),
    (0, LOOK_1, Some(Answer::Word(2))),
    (0, JOIN_3, DONE),
    (0, Kind::Join { part: 2 }, DONE),
];

fn gives_answers(rt: &impl Abort, alloc: Global, rows: &[Row]) {
    let mut core = opened(rt, alloc);
    for (i, row) in rows.iter().enumerate() {
        let (seat, kind, want) = *row;
        let answer = tried_with_care(rt, alloc, &mut core, seat, &kind);
        assert_eq!(rt; answer, want, "row {i}");
        assert_eq!(rt; first_broken(core.state()), None, "row {i}");
    }
}

#[test]
fn a_hold_put_by_another_seat(rt: HostRuntime) {
    gives_answers(&rt, rt.alloc(), PUT_ELSEWHERE);
}

#[test]
fn the_second_put_finds_zero(rt: HostRuntime) {
    gives_answers(&rt, rt.alloc(), TWO_HOLDS);
}

#[test]
fn a_fold_waits_for_a_section(rt: HostRuntime) {
    gives_answers(&rt, rt.alloc(), FOLD_WAITS);
}

#[test]
fn one_publish_beside_a_section(rt: HostRuntime) {
    gives_answers(&rt, rt.alloc(), ONE_PUBLISH);
}

#[test]
fn a_slot_has_one_holder(rt: HostRuntime) {
    gives_answers(&rt, rt.alloc(), TURNS);
}

#[test]
fn what_is_joined_takes_no_step(rt: HostRuntime) {
    gives_answers(&rt, rt.alloc(), JOINS);
}
