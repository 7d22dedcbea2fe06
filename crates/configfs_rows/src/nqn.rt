ghost use Rattle.std.specs.Prelude.{◌≡◌, ◌≤◌, length, take, IsTrue, IsOk, IfOk, is_some, IfSome};
ghost use Rattle.configfs_rows.specs.Nqns.{is_name_byte, is_nqn};
ghost use Rattle.std.specs.List.{list_all};

use crate::limits::NQN_LEN;
use std::alloc::{AllocError, Global};
use std::cmp::Ordering;
use std::marker::Model;

/// The NVMe qualified name of a host or a subsystem (NVMe Base 2.0, 4.5): 1 to 223 bytes, each
/// from 21h to 7Eh and none of them `/`, since a name is a folder of the tree.
///
/// Contracts see the list of its bytes. Names are ordered by their bytes.
#[derive(Drop)]
pub struct Nqn {
    bytes: [u8; NQN_LEN],
    len: usize,
}

impl Model for Nqn {
    ghost use Rattle.std.specs.Prelude.{ℕ, List, take, ◌≤◌, IsTrue};
    ghost use Rattle.configfs_rows.specs.Nqns.{is_nqn};
    ghost use Rattle.configfs_rows.specs.declared.limits.TheConstants.{NQN_LEN};

    ghost Value = { List ℕ };

    ghost view = { λ n. take n.len n.bytes };

    ghost invariant = { λ n. (n.len ≤ NQN_LEN) × IsTrue (is_nqn (take n.len n.bytes)) };
}

// Copies bytes to the front of an array.
fn front(bytes: &[u8]) -> [u8; NQN_LEN]
    requires { length bytes.now ≤ NQN_LEN }
    ensures { take (length bytes.now) result ≡ bytes.now }
{
    let mut array = [0; NQN_LEN];
    array[..bytes.len()].copy_from_slice(bytes);
    array
}

// Whether each byte may stand in a name.
fn all_name_bytes(bytes: &[u8]) -> bool
    ensures { result ≡ list_all is_name_byte bytes.now }
{
    bytes.iter().all(|b| *b > b' ' && *b <= b'~' && *b != b'/')
}

// Whether bytes are an NQN.
#[tactic(auto, unfolding(crate::specs::Nqns::is_nqn))]
fn is_name(bytes: &[u8]) -> bool
    ensures is { result ≡ is_nqn bytes.now }
    ensures short { IsTrue result → length bytes.now ≤ NQN_LEN }
{
    if bytes.is_empty() {
        return false;
    }
    if bytes.len() > NQN_LEN {
        return false;
    }
    all_name_bytes(bytes)
}

impl Nqn {
    /// The NQN of these bytes, or `None` exactly where they are none. The name keeps its bytes
    /// in itself, so no call takes memory today; the answer for want of it is the caller's
    /// to pass on, so that a name may move to the heap.
    pub fn new(_alloc: Global, bytes: &[u8]) -> Result<Option<Self>, AllocError>
        ensures ok { IsOk result }
        ensures is { IfOk result (λ o. is_some o ≡ is_nqn bytes.now) }
        ensures of { IfOk result (λ o. IfSome o (λ n. n ≡ bytes.now)) }
    {
        Ok(Nqn::read(bytes))
    }

    /// The NQN of these bytes, without memory.
    pub fn read(bytes: &[u8]) -> Option<Self>
        ensures is { is_some result ≡ is_nqn bytes.now }
        ensures of { IfSome result (λ n. n ≡ bytes.now) }
    {
        if !is_name(bytes) {
            return None;
        }
        Some(Nqn {
            bytes: front(bytes),
            len: bytes.len(),
        })
    }

    /// The bytes of the name.
    pub fn as_bytes(&self) -> &[u8]
        ensures { result.now ≡ self.now }
    {
        &self.bytes[..self.len]
    }

    /// Says that the name is an NQN, and does nothing.
    pub fn certify(&self)
        ensures { IsTrue (is_nqn self.now) }
    {
        let _bytes = &self.bytes;
    }

    /// A copy, without memory.
    pub fn copied(&self) -> Self
        ensures { result ≡ self.now }
    {
        Nqn {
            bytes: self.bytes,
            len: self.len,
        }
    }
}

impl PartialEq for Nqn {
    ghost use Rattle.std.proofs.Common.{rules};
    ghost use Rattle.std.specs.Ordering.{eq_by_cmp};
    ghost use Rattle.std.specs.Cmp.{eq_by_cmp_equiv};
    ghost use Rattle.std.specs.Cmp.Lexicographic.{nat_list_cmp_total};
    ghost use Rattle.std.specs.Cmp.Rules.{comparing};
    ghost use Rattle.configfs_rows.specs.Nqns.{name_order};

    ghost eq = { eq_by_cmp name_order };

    ghost laws = { Prim.search (comparing, rules) };

    fn eq(&self, other: &Nqn) -> bool {
        self.as_bytes().cmp(other.as_bytes()) == Ordering::Equal
    }
}

impl Eq for Nqn {
    ghost use Rattle.std.specs.Cmp.{eq_by_cmp_equiv};
    ghost use Rattle.std.specs.Cmp.Lexicographic.{nat_list_cmp_total};

    ghost laws = { eq_by_cmp_equiv nat_list_cmp_total };
}

impl PartialOrd for Nqn {
    ghost use Rattle.std.proofs.Common.{rules};
    ghost use Rattle.std.specs.Cmp.{partial_order_from_own_ties};
    ghost use Rattle.std.specs.Cmp.Rules.{comparing};
    ghost use Rattle.std.specs.Ordering.{as_partial_cmp};
    ghost use Rattle.configfs_rows.specs.Nqns.{name_order};

    ghost partial_cmp = { as_partial_cmp name_order };

    ghost laws = { partial_order_from_own_ties (Prim.search (comparing, rules)) (Prim.search (comparing, rules)) };

    fn partial_cmp(&self, other: &Nqn) -> Option<Ordering> {
        Some(self.cmp(other))
    }
}

impl Ord for Nqn {
    ghost use Rattle.std.proofs.Common.{rules};
    ghost use Rattle.std.specs.Cmp.Rules.{comparing};
    ghost use Rattle.std.specs.Cmp.Lexicographic.{nat_list_cmp_total};
    ghost use Rattle.configfs_rows.specs.Nqns.{name_order};

    ghost cmp = { name_order };

    ghost total = { nat_list_cmp_total };

    ghost matches_partial_cmp = { Prim.search (comparing, rules) };

    ghost matches_eq = { Prim.search (comparing, rules) };

    fn cmp(&self, other: &Nqn) -> Ordering {
        self.as_bytes().cmp(other.as_bytes())
    }
}
