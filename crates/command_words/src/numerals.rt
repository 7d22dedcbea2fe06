// Decimal numbers among words.
ghost use Rattle.std.specs.Prelude.{◌≡◌};
ghost use Rattle.std.specs.Char.{is_ascii_digit};
ghost use Rattle.std.specs.List.{list_all};
ghost use Rattle.plan_files.specs.Spelling.{is_numeral, number_of};

fn all_digits(word: &[u8]) -> bool
    ensures { result ≡ list_all is_ascii_digit word.now }
{
    word.iter().all(|b| b.is_ascii_digit())
}

// Whether a word is digits alone, with no leading zero but in `0` itself.
#[tactic(auto, unfolding(plan_files::specs::Spelling::is_numeral))]
fn is_numeral(word: &[u8]) -> bool
    ensures { result ≡ is_numeral word.now }
{
    1 <= word.len() && (word.len() == 1 || word[0] != b'0') && all_digits(word)
}

/// The number that a word is, below 2^64.
pub(crate) fn number(word: &str) -> Option<u64>
    ensures { result ≡ number_of word.now }
{
    if !is_numeral(word.as_bytes()) {
        return None;
    }
    word.parse::<u64>().ok()
}
