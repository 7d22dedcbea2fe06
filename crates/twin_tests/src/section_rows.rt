//! A section beside edits.
ghost use Rattle.std.specs.Prelude.{◌≡◌};

use rcu_sections::grace_periods::Reading;
use rcu_sections::sections::{enter, leave, place, row};
use ref_state::kinds::{BARE, Tag};
use std::alloc::{AllocError, Global};
use std::marker::Brand;
use std::sync::ledger::{Blank, Ledger};
use table_rule::ticks::Steps;
use twin_tables::edits::edit;
use twin_tables::ground::{Queues, five};

/// The place and serial of an edit, or who still reads.
type Edited = Result<(u32, u32), Reading>;

// Seat 1 enters a section and places a call, the editor publishes one edit and asks for another;
// then the section is left, and the editor asks again: the place and serial of the call, its two
// words, and the three answers.
fn edit_beside_a_section<L: Ledger>(
    alloc: Global,
    blank: Blank,
) -> Result<((u32, u32), (u64, u64), [Edited; 3]), AllocError>
    requires name { (blank.name ≡ L.name) × (blank.parts ≡ L.parts) × (L.parts ≡ 5) }
{
    let (table, mut editor, queues) = five(alloc, 8, 4)?;
    let Queues {
        mut one,
        two: _,
        three: _,
        four: _,
    } = queues;
    let mut steps = Steps::<L>::start(blank);
    let call = Tag {
        kind: BARE,
        caller: 1,
        number: 0,
    };
    let mut section = enter(&table, &mut one, &mut steps);
    let drew = place(&table, &mut section, call, &mut steps);
    let first = edit(&table, &mut editor, 5, &mut steps);
    let second = edit(&table, &mut editor, 6, &mut steps);
    let word = row(&table, &mut section, 0, &mut steps);
    let other = row(&table, &mut section, 1, &mut steps);
    leave(&table, section, &mut steps);
    let third = edit(&table, &mut editor, 6, &mut steps);
    Ok((drew, (word, other), [first, second, third]))
}

#[test]
fn a_section_reads_what_stood_before_an_edit(rt: HostRuntime) -> Result<(), AllocError> {
    let (drew, words, edits) = edit_beside_a_section::<Brand>(rt.alloc(), Blank::new(5))?;
    assert!(rt; drew == (0, 0));
    assert!(rt; words == (1, 1));
    assert!(rt; edits[0] == Ok((1, 1)));
    assert!(rt; edits[1] == Err(Reading { seat: 1, count: 1 }));
    assert!(rt; edits[2] == Ok((2, 2)));
    Ok(())
}
