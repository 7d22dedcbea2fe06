//! Bare calls in sections.
ghost use Rattle.std.specs.Prelude.{◌≡◌};

use std::alloc::{AllocError, Global};
use std::marker::Brand;
use std::sync::ledger::{Blank, Ledger};
use table_rule::ticks::Steps;
use table_seats::ground::three;
use table_seats::sections::bare;

// Three bare calls: of seat 1, of seat 2, and of seat 1 again.
fn three_sections<L: Ledger>(
    alloc: Global,
    blank: Blank,
) -> Result<[(u32, u32, u64); 3], AllocError>
    requires name { blank.name ≡ L.name }
    requires parts { blank.parts ≡ L.parts }
    requires five { L.parts ≡ 5 }
{
    let (table, _editor, mut one, mut two) = three(alloc, 2)?;
    let mut steps = Steps::<L>::start(blank);
    let first = bare(&table, &mut one, 0, &mut steps);
    let second = bare(&table, &mut two, 0, &mut steps);
    let third = bare(&table, &mut one, 1, &mut steps);
    Ok([first, second, third])
}

#[test]
fn sections_have_places_in_order(rt: HostRuntime) -> Result<(), AllocError> {
    let found = three_sections::<Brand>(rt.alloc(), Blank::new(5))?;
    assert!(rt; found == [(0, 0, 1), (1, 0, 1), (2, 0, 1)]);
    Ok(())
}
