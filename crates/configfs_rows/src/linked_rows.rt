// What the maps of subsystems and of ports are asked alike: the row at a position, whether a row
// links a name, and the lowest free position.
ghost use Rattle.std.specs.Prelude.{◌≡◌, ◌==◌, ℕ, option_copied};
ghost use Rattle.std.specs.List.{list_any, find};
ghost use Rattle.std.specs.Map.{values_of};
ghost use Rattle.std.specs.FinMap as map;
ghost use Rattle.configfs_rows.specs.Nqns.{name_order};
ghost use Rattle.configfs_rows.specs.Places.{lowest_free};

use crate::names::Names;
use crate::nqn::Nqn;

/// A row with a position, from 0, and with links to names.
pub(crate) trait LinkedRow {
    ghost place: { Self → ℕ };

    ghost linked: { Self → map.FinMap name_order (Unit {0}) };

    fn place(&self) -> u8
        ensures { result ≡ place self.now };

    fn links(&self) -> &Names
        ensures { result.now ≡ linked self.now };
}

// The row at a position, or `None` exactly where none stands there.
pub(crate) fn row_at<'a, K, X: LinkedRow>(rows: &'a [(K, X)], at: u8) -> Option<&'a X>
    ensures { option_copied result ≡ find (λ x. X.place x == at) (values_of rows.now) }
{
    for (_, row) in rows {
        if row.place() == at {
            return Some(row);
        }
    }
    None
}

// Whether a row links the name.
pub(crate) fn some_row_links<K, X: LinkedRow>(rows: &[(K, X)], name: &Nqn) -> bool
    ensures { result ≡ list_any (λ x. map.contains_key (X.linked x) name.now) (values_of rows.now) }
{
    for (_, row) in rows {
        if row.links().contains(name) {
            return true;
        }
    }
    false
}

// The lowest free position of so many.
pub(crate) fn lowest_place<K, X: LinkedRow>(rows: &[(K, X)], most: u8) -> u8
    ensures { result ≡ lowest_free most 0 (λ at. list_any (λ x. X.place x == at)
        (values_of rows.now)) }
{
    for at in 0..most {
        if row_at(rows, at).is_none() {
            return at;
        }
    }
    most
}
