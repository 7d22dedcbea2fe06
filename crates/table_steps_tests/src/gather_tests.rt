//! All seats are joined into the editor's, which then knows the whole history.
ghost use Rattle.std.specs.Prelude.{◌≡◌, ◌≢◌, ◌+◌, ◌<◌, ◌≤◌};

use std::alloc::{AllocError, Global};
use std::marker::Brand;
use std::sync::ledger::{Blank, Ledger};
use table_rule::ticks::Steps;
use table_seats::ground::three;

// Joins two seats into the editor's: the places that it has left.
fn gather<L: Ledger>(alloc: Global, blank: Blank) -> Result<u32, AllocError>
    requires name { blank.name ≡ L.name }
    requires parts { blank.parts ≡ L.parts }
    requires five { L.parts ≡ 5 }
{
    let (table, mut editor, one, two) = three(alloc, 4)?;
    let mut steps = Steps::<L>::start(blank);
    table.join(&mut editor, one.into_part(), &mut steps);
    table.join(&mut editor, two.into_part(), &mut steps);
    table.learn(&mut editor);
    Ok(editor.left())
}

#[test]
fn the_editor_gathers_all_places(rt: HostRuntime) -> Result<(), AllocError> {
    let left = gather::<Brand>(rt.alloc(), Blank::new(5))?;
    assert_eq!(rt; left, 12);
    Ok(())
}
