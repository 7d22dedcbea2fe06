//! One seat at a time has the turn of a slot.
ghost use Rattle.std.specs.Prelude.{◌≡◌};

use std::alloc::{AllocError, Global};
use std::marker::Brand;
use std::sync::ledger::{Blank, Ledger};
use table_rule::ticks::Steps;
use table_seats::ground::three;

// Seat 1 tries slot 0, and seat 2 tries slots 1 and 0.
fn three_tries<L: Ledger>(alloc: Global, blank: Blank) -> Result<(bool, bool, bool), AllocError>
    requires name { blank.name ≡ L.name }
    requires parts { blank.parts ≡ L.parts }
    requires five { L.parts ≡ 5 }
{
    let (table, _editor, mut one, mut two) = three(alloc, 1)?;
    let mut steps = Steps::<L>::start(blank);
    let first = table.take_turn(&mut one, 0, &mut steps);
    let beside = table.take_turn(&mut two, 1, &mut steps);
    let same = table.take_turn(&mut two, 0, &mut steps);
    Ok((first, beside, same))
}

#[test]
fn a_turn_is_had_once(rt: HostRuntime) -> Result<(), AllocError> {
    let tries = three_tries::<Brand>(rt.alloc(), Blank::new(5))?;
    assert!(rt; tries == (true, true, false));
    Ok(())
}
