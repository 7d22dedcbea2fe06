//! Counters, their words, and the bias.
ghost use Rattle.std.specs.Prelude.{◌≡◌};
ghost use Rattle.ref_state.specs.State.{word_of};

use ref_state::state::Count;

/// A counter that was never raised or lowered.
pub const ZERO: Count = Count { ups: 0, downs: 0 };

/// The word of a counter: the whole number modulo 2^64.
pub fn count_word(count: Count) -> u64
    ensures { result ≡ word_of count }
{
    count.ups.wrapping_sub(count.downs)
}
