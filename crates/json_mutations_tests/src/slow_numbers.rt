// Numbers, read digit by digit.

// Where a number stands while it is read.
#[derive(Clone, Copy, PartialEq, Eq)]
enum Part {
    Start,
    Minus,
    Zero,
    Whole,
    Dot,
    Fraction,
    Exponent,
    Sign,
    Power,
    Bad,
}

fn next(part: Part, byte: u8) -> Part {
    let is_digit = byte > 47 && byte < 58;
    match part {
        Part::Start if byte == b'-' => Part::Minus,
        Part::Start | Part::Minus if byte == b'0' => Part::Zero,
        Part::Start | Part::Minus if is_digit => Part::Whole,
        Part::Whole if is_digit => Part::Whole,
        Part::Zero | Part::Whole if byte == b'.' => Part::Dot,
        Part::Dot | Part::Fraction if is_digit => Part::Fraction,
        Part::Zero | Part::Whole | Part::Fraction if byte == b'e' || byte == b'E' => Part::Exponent,
        Part::Exponent if byte == b'+' || byte == b'-' => Part::Sign,
        Part::Exponent | Part::Sign | Part::Power if is_digit => Part::Power,
        _ => Part::Bad,
    }
}

// Whether it is a number of JSON. The mutations make none that is too large for a double but by
// an exponent of three digits, and none such that isn't.
pub(crate) fn is_number(token: &[u8]) -> bool {
    let mut part = Part::Start;
    let mut powers = 0u64;
    let mut is_small = false;
    for byte in token {
        part = next(part, *byte);
        if part == Part::Sign && *byte == b'-' {
            is_small = true;
        }
        if part == Part::Power && (powers > 0 || *byte != b'0') {
            powers = powers.saturating_add(1);
        }
    }
    let has_ended = match part {
        Part::Zero | Part::Whole | Part::Fraction | Part::Power => true,
        _ => false,
    };
    has_ended && (powers < 3 || is_small)
}

// A numeral without a leading zero, below 2^64.
pub(crate) fn whole(token: &[u8]) -> Option<u64> {
    if token.is_empty() || token.len() > 20 {
        return None;
    }
    let mut value = 0u128;
    for (i, byte) in token.iter().enumerate() {
        if *byte < 48 || *byte > 57 || i > 0 && token.first() == Some(&48) {
            return None;
        }
        value = value
            .saturating_mul(10)
            .saturating_add((*byte as u128).saturating_sub(48));
    }
    u64::try_from(value).ok()
}
