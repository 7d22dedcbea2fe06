// The kinds of value that members have.
ghost use Rattle.std.specs.Prelude.{◌≡◌, ◌<◌, ◌&&◌, nat_le, Some, IfOk};
ghost use Rattle.std.specs.List.{list_all};
ghost use Rattle.std.specs.Fmt.{decimal};
ghost use Rattle.serde_json.specs.View.{view};
ghost use Rattle.nvmetcli_json.specs.Faults.{Gives};
ghost use Rattle.nvmetcli_json.specs.Kinds.{is_numeral, number_of, nqn_in, value_in, number_in, flag_in};

use crate::error::{JsonError, misfit};
use configfs_rows::may_be_text;
use configfs_tree::Nqn;
use itoa::Buffer;
use mem_bdev::Name;
use serde_json::Value;
use std::alloc::{AllocError, Global};

fn all_digits(word: &[u8]) -> bool
    ensures { result ≡ list_all (λ b. nat_le 48 b && nat_le b 57) word.now }
{
    word.iter().all(|b| 48 <= *b && *b <= 57)
}

// Whether a word is digits alone, with no leading zero but in `0` itself.
#[tactic(auto, unfolding(crate::specs::Kinds::is_numeral))]
fn is_numeral(word: &[u8]) -> bool
    ensures { result ≡ is_numeral word.now }
{
    1 <= word.len() && (word.len() == 1 || word[0] != 48) && all_digits(word)
}

// The number that a text is.
fn number(word: &str) -> Option<u64>
    ensures { result ≡ number_of word.now }
{
    if !is_numeral(word.as_bytes()) {
        return None;
    }
    word.parse::<u64>().ok()
}

// The decimal text of a number.
pub(crate) fn decimal_name(alloc: Global, n: u64) -> Result<Name, AllocError>
    ensures { IfOk result (λ name. name ≡ decimal n) }
{
    let mut buffer = Buffer::new();
    Name::copied(alloc, buffer.format(n).as_bytes())
}

// An NQN.
#[tactic(auto, unfolding(crate::specs::Kinds::nqn_in))]
pub(crate) fn nqn(alloc: Global, v: &Value) -> Result<Nqn, JsonError>
    ensures { Gives result (nqn_in (view v.now)) }
{
    let Some(text) = v.as_str() else {
        return Err(misfit(alloc));
    };
    match Nqn::new(alloc, text.as_bytes()) {
        Ok(Some(name)) => Ok(name),
        Ok(None) => Err(misfit(alloc)),
        Err(_) => Err(JsonError::Memory),
    }
}

// The value of an attribute.
#[tactic(auto, unfolding(crate::specs::Kinds::value_in))]
pub(crate) fn value(alloc: Global, v: &Value) -> Result<Name, JsonError>
    ensures { Gives result (value_in (view v.now)) }
{
    if let Some(text) = v.as_str() {
        if !may_be_text(text.as_bytes()) {
            return Err(misfit(alloc));
        }
        return Ok(Name::copied(alloc, text.as_bytes())?);
    }
    let Some(n) = v.as_u64() else {
        return Err(misfit(alloc));
    };
    Ok(decimal_name(alloc, n)?)
}

// A number below a limit.
#[tactic(auto, unfolding(crate::specs::Kinds::number_in))]
pub(crate) fn number_below(alloc: Global, limit: u64, v: &Value) -> Result<u64, JsonError>
    ensures exact { Gives result (number_in limit (view v.now)) }
    ensures below { IfOk result (λ n. n < limit) }
{
    let found = match v.as_str() {
        Some(text) => number(text),
        None => v.as_u64(),
    };
    let Some(n) = found else {
        return Err(misfit(alloc));
    };
    if n < limit {
        return Ok(n);
    }
    Err(misfit(alloc))
}

// 0 or 1, or its text.
#[tactic(auto, unfolding(crate::specs::Kinds::flag_in))]
pub(crate) fn flag(alloc: Global, v: &Value) -> Result<bool, JsonError>
    ensures { Gives result (flag_in (view v.now)) }
{
    if let Some(text) = v.as_str() {
        if text.as_bytes() == b"0".as_slice() {
            return Ok(false);
        }
        if text.as_bytes() == b"1".as_slice() {
            return Ok(true);
        }
        return Err(misfit(alloc));
    }
    match v.as_u64() {
        None => Err(misfit(alloc)),
        Some(n) => {
            if n == 0 {
                return Ok(false);
            }
            if n == 1 {
                return Ok(true);
            }
            Err(misfit(alloc))
        }
    }
}
