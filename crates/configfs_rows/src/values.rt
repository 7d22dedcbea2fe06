// Tests of the texts that edits write into attributes.
ghost use Rattle.std.specs.Prelude.{◌≡◌, ◌==◌, ◌+◌, ◌-◌, ◌*◌, ◌<◌, ◌≤◌, not, length, slice_index, IsTrue};
ghost use Rattle.std.specs.List.{list_all};
ghost use Rattle.configfs_rows.specs.Values.{has_path};
ghost use Rattle.configfs_rows.specs.Values.{is_text, is_path, is_digit, starts_well, decimal_value, group_named, is_trtype, is_adrfam, is_treq};
ghost use Rattle.uuid.specs.Text.{parsed};

use crate::limits::{MAX_ANA_GROUPS, PATH_LEN};
use mem_bdev::Name;
use uuid::Uuid;

/// Whether each byte may stand in a value: a printable character or a space.
pub fn may_be_text(value: &[u8]) -> bool
    ensures { result ≡ is_text value.now }
{
    value.iter().all(|b| *b >= b' ' && *b <= b'~')
}

// Whether no byte is a space.
fn has_no_space(value: &[u8]) -> bool
    ensures { result ≡ list_all (λ b. not (b == 32)) value.now }
{
    value.iter().all(|b| *b != b' ')
}

/// Whether a text may be a device path.
pub fn may_be_path(value: &[u8]) -> bool
    ensures { result ≡ is_path value.now }
{
    if value.is_empty() {
        return false;
    }
    if value.len() > PATH_LEN {
        return false;
    }
    has_no_space(value)
}

/// Whether a path is set to a value.
pub fn has_path(path: &Option<Name>, value: &[u8]) -> bool
    ensures { result ≡ has_path path.now value.now }
{
    match path {
        None => false,
        Some(path) => path.as_bytes() == value,
    }
}

/// The bytes that a text parses to as a UUID.
pub fn parse_uuid(value: &[u8]) -> Option<[u8; 16]>
    ensures { result ≡ parsed value.now }
{
    match Uuid::try_parse_ascii(value) {
        Ok(uuid) => Some(uuid.into_bytes()),
        Err(_) => None,
    }
}

// Whether each byte is a digit.
fn all_digits(value: &[u8]) -> bool
    ensures { result ≡ list_all is_digit value.now }
{
    value.iter().all(|b| *b >= b'0' && *b <= b'9')
}

// Whether no digit 0 stands in front of another.
fn starts_well(digits: &[u8]) -> bool
    ensures { result ≡ starts_well digits.now }
{
    match digits {
        [] => true,
        [_] => true,
        [a, ..] => *a != b'0',
    }
}

// The number of up to three digits.
fn small_number(digits: &[u8]) -> u32
    requires few { length digits.now < 4 }
    requires digits { IsTrue (list_all is_digit digits.now) }
    ensures { result ≡ decimal_value 0 digits.now }
{
    match digits {
        [] => 0,
        [a] => (*a - b'0') as u32,
        [a, b] => (*a - b'0') as u32 * 10 + (*b - b'0') as u32,
        [a, b, c] => { ((*a - b'0') as u32 * 10 + (*b - b'0') as u32) * 10 + (*c - b'0') as u32 }
        _ => unreachable!(),
    }
}

/// The ANA group that a text names: a decimal number from 1 to 128.
#[tactic(auto, unfolding(crate::specs::Values::group_named))]
pub fn group_number(value: &[u8]) -> Option<u8>
    ensures { result ≡ group_named value.now }
{
    if value.is_empty() || !all_digits(value) || !starts_well(value) {
        return None;
    }
    if value.len() > 3 {
        return None;
    }
    let number = small_number(value);
    if number == 0 || number > MAX_ANA_GROUPS {
        return None;
    }
    Some(number as u8)
}

/// Whether a text names a transport type.
pub fn is_trtype(value: &[u8]) -> bool
    ensures { result ≡ is_trtype value.now }
{
    value == b"loop".as_slice()
        || value == b"tcp".as_slice()
        || value == b"rdma".as_slice()
        || value == b"fc".as_slice()
}

/// Whether a text names an address family, or is empty.
pub fn is_adrfam(value: &[u8]) -> bool
    ensures { result ≡ is_adrfam value.now }
{
    value.is_empty()
        || value == b"ipv4".as_slice()
        || value == b"ipv6".as_slice()
        || value == b"ib".as_slice()
        || value == b"fc".as_slice()
        || value == b"loop".as_slice()
        || value == b"pcie".as_slice()
}

/// Whether a text says if secure channels are required.
pub fn is_treq(value: &[u8]) -> bool
    ensures { result ≡ is_treq value.now }
{
    value == b"not specified".as_slice()
        || value == b"required".as_slice()
        || value == b"not required".as_slice()
}
