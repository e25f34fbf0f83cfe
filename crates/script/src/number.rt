//! Decimal numbers in their one spelling: as they are printed.
ghost use Rattle.std.specs.Prelude.{◌≡◌, ◌≢◌, ◌<◌, ◌≤◌, ◌^◌, ℕ, ℤ, MatchOption, length, decimal};
ghost use Rattle.std.specs.Str.Parse.{AllDigits, digits_value};
ghost use Rattle.script.specs.Lines.{IsNumber, IsThreshold};

use itoa::Buffer;

/// The value of at most 19 digits, or none where a byte is no digit.
#[inline(always)]
fn value_of(digits: &[u8]) -> Option<u64>
    requires { length digits.now ≤ 19 }
    ensures { MatchOption result (AllDigits 10 digits.now → ⊥)
        (λ n. AllDigits 10 digits.now × (n ≡ digits_value 10 digits.now)) }
{
    let mut value = 0u64;
    for byte in digits {
        if !byte.is_ascii_digit() {
            return None;
        }
        value = 10 * value + u64::from(*byte - b'0');
    }
    Some(value)
}

/// The number from 0 on, below 10^19, that the word is, or none.
#[inline(always)]
fn read_size(word: &[u8]) -> Option<u64>
    ensures { MatchOption result ((n : ℕ) → n < 10 ^ 19 → word.now ≢ decimal n)
        (λ n. (n < 10 ^ 19) × (word.now ≡ decimal n)) }
{
    let length = word.len();
    if length < 1 {
        return None;
    }
    if length > 19 {
        return None;
    }
    if length > 1 && word[0] == b'0' {
        return None;
    }
    value_of(word)
}

/// How many numbers there are below 0.
const BELOW_ZERO: u64 = 1 << 63;

/// The signed number that the word is, or none.
#[inline(always)]
pub(crate) fn read_number(word: &[u8]) -> Option<i64>
    ensures { MatchOption result ((n : ℤ) → IsNumber word.now n → ⊥) (λ n. IsNumber word.now n) }
{
    if word.starts_with(b"-") {
        let size = read_size(&word[1..])?;
        if size < 1 {
            return None;
        }
        if size > BELOW_ZERO {
            return None;
        }
        return Some((-i128::from(size)) as i64);
    }
    let size = read_size(word)?;
    if size >= BELOW_ZERO {
        return None;
    }
    Some(size as i64)
}

/// The number from 0 on that the word is, or none.
pub(crate) fn read_threshold(word: &[u8]) -> Option<u64>
    ensures { MatchOption result ((n : ℕ) → IsThreshold word.now n → ⊥)
        (λ n. IsThreshold word.now n) }
{
    let Ok(text) = str::from_utf8(word) else {
        return None;
    };
    let Ok(threshold) = text.parse::<u64>() else {
        return None;
    };
    let mut buffer = Buffer::new();
    if buffer.format(threshold).as_bytes() == word {
        Some(threshold)
    } else {
        None
    }
}
