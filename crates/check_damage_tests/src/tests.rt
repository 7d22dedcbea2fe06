// Each damaged run is judged by both, and what they say is compared byte by byte: two thousand runs,
// by ten seeds.
use crate::dice::Dice;
use crate::random_damages::random_story;
use crate::slow_checker::{Found, slow_check};
use run_check_tests::Finished;
use std::alloc::Global;
use std::process::Abort;
use std::test::Fail;

// How often each was found.
#[derive(Clone, Copy, Debug)]
struct Counts {
    refused: u32,
    legal: u32,
    // By the fields in their order: place, order, answer, completion, bytes, errno, drain.
    fields: [u32; 7],
}

const FIELDS: [&str; 7] = [
    "place",
    "order",
    "answer",
    "completion",
    "bytes",
    "errno",
    "drain",
];

impl Counts {
    fn add(&mut self, found: Found) {
        match found {
            Found::Refused(_) => self.refused = self.refused.saturating_add(1),
            Found::Legal(_) => self.legal = self.legal.saturating_add(1),
            Found::Fault(_, name) => {
                for (field, count) in FIELDS.iter().zip(self.fields.iter_mut()) {
                    if *field == name {
                        *count = count.saturating_add(1);
                    }
                }
            }
        }
    }
}

// A run, damaged and judged twice.
fn compare(
    rt: &impl Abort,
    alloc: Global,
    dice: &mut Dice,
    counts: &mut Counts,
) -> Result<(), Fail> {
    let story = random_story(Finished::new(alloc)?, dice)?;
    let found = slow_check(&story.run)?;
    let (status, line) = found.told(alloc)?;
    let answer = story.run.check()?;
    assert_eq!(rt;
        std::str::from_utf8(answer.text()).unwrap_or("?"),
        line.as_str(),
        "{:?}",
        story.damages
    );
    assert_eq!(rt; answer.status, status, "{:?}", story.damages);
    counts.add(found);
    Ok(())
}

// Two hundred damaged runs of this seed. Each field is the first fault of some.
fn judge_two_hundred(rt: &impl Abort, alloc: Global, seed: u64) -> Result<(), Fail> {
    let mut dice = Dice::new(seed);
    let mut counts = Counts {
        refused: 0,
        legal: 0,
        fields: [0; 7],
    };
    for _ in 0..200 {
        compare(rt, alloc, &mut dice, &mut counts)?;
    }
    assert!(rt; counts.refused >= 5 && counts.legal >= 5, "{counts:?}");
    for count in counts.fields {
        assert!(rt; count >= 1, "{counts:?}");
    }
    Ok(())
}

#[test]
fn the_first_two_hundred_damaged_runs(rt: HostRuntime) -> Result<(), Fail> {
    judge_two_hundred(&rt, rt.alloc(), 1)
}

#[test]
fn the_second_two_hundred_damaged_runs(rt: HostRuntime) -> Result<(), Fail> {
    judge_two_hundred(&rt, rt.alloc(), 2)
}

#[test]
fn the_third_two_hundred_damaged_runs(rt: HostRuntime) -> Result<(), Fail> {
    judge_two_hundred(&rt, rt.alloc(), 3)
}

#[test]
fn the_fourth_two_hundred_damaged_runs(rt: HostRuntime) -> Result<(), Fail> {
    judge_two_hundred(&rt, rt.alloc(), 4)
}

#[test]
fn the_fifth_two_hundred_damaged_runs(rt: HostRuntime) -> Result<(), Fail> {
    judge_two_hundred(&rt, rt.alloc(), 5)
}

#[test]
fn the_sixth_two_hundred_damaged_runs(rt: HostRuntime) -> Result<(), Fail> {
    judge_two_hundred(&rt, rt.alloc(), 6)
}

#[test]
fn the_seventh_two_hundred_damaged_runs(rt: HostRuntime) -> Result<(), Fail> {
    judge_two_hundred(&rt, rt.alloc(), 7)
}

#[test]
fn the_eighth_two_hundred_damaged_runs(rt: HostRuntime) -> Result<(), Fail> {
    judge_two_hundred(&rt, rt.alloc(), 8)
}

#[test]
fn the_ninth_two_hundred_damaged_runs(rt: HostRuntime) -> Result<(), Fail> {
    judge_two_hundred(&rt, rt.alloc(), 9)
}

#[test]
fn the_tenth_two_hundred_damaged_runs(rt: HostRuntime) -> Result<(), Fail> {
    judge_two_hundred(&rt, rt.alloc(), 10)
}
