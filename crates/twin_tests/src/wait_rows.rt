//! A fold that waits for a section which gets a hold after the kill.
ghost use Rattle.std.specs.Prelude.{◌≡◌};

use percpu_ref::drains::{fold, kill, poll};
use percpu_ref::lives::{Folded, Killed, Polled};
use percpu_ref::put_kinds::Put;
use percpu_ref::references::{get, put};
use rcu_sections::grace_periods::Reading;
use rcu_sections::sections::{enter, leave, place, row};
use ref_state::kinds::{BARE, Tag};
use std::alloc::{AllocError, Global};
use std::marker::Brand;
use std::sync::ledger::{Blank, Ledger};
use table_rule::ticks::Steps;
use twin_tables::edits::edit;
use twin_tables::ground::{Queues, five};

// Seat 1 is in a section that shows disk 0, without a hold. The disk is hidden and killed, and the
// fold is asked for; then the section gets a hold and is left, the fold is asked for again, the
// reference polled, the hold put, and the reference polled once more: who still read, the count
// polled, and what the put answered.
fn fold_beside_a_section<L: Ledger>(
    alloc: Global,
    blank: Blank,
) -> Result<Option<(Reading, u64, Put)>, AllocError>
    requires name { (blank.name ≡ L.name) × (blank.parts ≡ L.parts) × (L.parts ≡ 5) }
{
    let (table, mut editor, queues) = five(alloc, 8, 4)?;
    let Queues {
        mut one,
        two: _,
        three: _,
        four: _,
    } = queues;
    let mut steps = Steps::<L>::start(blank);
    let call = Tag {
        kind: BARE,
        caller: 1,
        number: 0,
    };
    let mut section = enter(&table, &mut one, &mut steps);
    let _ = place(&table, &mut section, call, &mut steps);
    let shown = row(&table, &mut section, 0, &mut steps);
    if shown == 0 {
        leave(&table, section, &mut steps);
        return Ok(None);
    }
    if edit(&table, &mut editor, 0, &mut steps).is_err() {
        leave(&table, section, &mut steps);
        return Ok(None);
    }
    let killed = kill(&table, &mut editor, 0, &mut steps);
    let (killed, reading) = match fold(&table, &mut editor, killed, &mut steps) {
        Err(waits) => waits,
        Ok(folded) => {
            let Folded { disk: _ } = folded;
            leave(&table, section, &mut steps);
            return Ok(None);
        }
    };
    let hold = get(&table, &mut section, 0, &mut steps);
    leave(&table, section, &mut steps);
    let folded = match fold(&table, &mut editor, killed, &mut steps) {
        Ok(folded) => folded,
        Err((again, _)) => {
            let Killed { disk: _, words: _ } = again;
            let _ = put(&table, &mut one, hold, &mut steps);
            return Ok(None);
        }
    };
    let (folded, holds) = match poll(&table, &mut editor, folded, &mut steps) {
        Polled::Draining(again, holds) => (again, holds),
        Polled::Drained => {
            let _ = put(&table, &mut one, hold, &mut steps);
            return Ok(None);
        }
    };
    let answer = put(&table, &mut one, hold, &mut steps);
    match poll(&table, &mut editor, folded, &mut steps) {
        Polled::Drained => Ok(Some((reading, holds, answer))),
        Polled::Draining(again, _) => {
            let Folded { disk: _ } = again;
            Ok(None)
        }
    }
}

#[test]
fn a_fold_waits_for_a_section(rt: HostRuntime) -> Result<(), AllocError> {
    let found = fold_beside_a_section::<Brand>(rt.alloc(), Blank::new(5))?;
    assert!(rt; found == Some((Reading { seat: 1, count: 1 }, 1, Put::Last)));
    Ok(())
}
