// Rows in the order of their keys: what is asked of them, and what is made of them, for every kind
// of key and row alike.
ghost use Rattle.std.specs.Prelude.{◌≡◌, ◌<◌, IsTrue, OnOk, OnErr, option_copied};
ghost use Rattle.std.specs.Vec.{vec_len};
ghost use Rattle.std.specs.List.{remove};
ghost use Rattle.std.specs.FinMap.{find, put, is_sorted};
ghost use Rattle.configfs_rows.specs.Maps.{IsPlaceOf, others};

use std::alloc::AllocError;
use std::cmp::Ordering;

/// Where the row of a key stands, or where one of it would be put in.
pub(crate) fn search<K: Ord, X>(rows: &[(K, X)], key: &K) -> Result<usize, usize>
    ensures { IsPlaceOf K.cmp key.now rows.now result }
{
    rows.binary_search_by(
        |row: &(K, X)| -> Ordering
            ensures { result ≡ K.cmp row.now.0 key.entry.now }
        { row.0.cmp(key) },
    )
}

/// The row of a key.
pub(crate) fn row_of<'a, K: Ord, X>(rows: &'a [(K, X)], key: &K) -> Option<&'a X>
    ensures { IsTrue (is_sorted K.cmp rows.now) → option_copied result ≡ find K.cmp key.now rows.now }
{
    match search(rows, key) {
        Ok(at) => Some(&rows[at].1),
        Err(_) => None,
    }
}

/// Puts the row of a key over the one that stands, or where it stands in the order. On want of
/// memory all is as before.
pub(crate) fn put_row<K: Ord + Drop, X: Drop>(
    rows: &mut Vec<(K, X)>,
    key: K,
    row: X,
) -> Result<(), AllocError>
    ensures ok { IsTrue (is_sorted K.cmp rows.old.items) → OnOk result (rows.new.items ≡
        put K.cmp key row rows.old.items) }
    ensures err { OnErr result (rows.new.items ≡ rows.old.items) }
{
    match search(rows, &key) {
        Ok(at) => rows[at].1 = row,
        Err(at) => rows.insert(at, (key, row))?,
    }
    Ok(())
}

/// Takes a row away.
pub(crate) fn take_at<K: Drop, X: Drop>(rows: &mut Vec<(K, X)>, at: usize)
    requires { at < vec_len rows.old }
    ensures { rows.new.items ≡ remove rows.old.items at }
{
    let _ = rows.remove(at);
}

/// Takes the row of a key away, where it is there.
pub(crate) fn take_row<K: Ord + Drop, X: Drop>(rows: &mut Vec<(K, X)>, key: &K)
    ensures { IsTrue (is_sorted K.cmp rows.old.items) → rows.new.items ≡
        others K.cmp key.now rows.old.items }
{
    if let Ok(at) = search(rows, key) {
        take_at(rows, at);
    }
}
