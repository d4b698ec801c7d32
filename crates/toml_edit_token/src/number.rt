//! Integers, as whole words. (TOML, "Integer".)
ghost use Rattle.std.specs.Prelude.{◌≡◌, ◌+◌, ◌<◌, ◌≤◌, ◌^◌, is_some, option_map, pos, IfSome};
ghost use Rattle.toml_edit_laws.specs.reading.Tokens as spec;
ghost use Rattle.toml_edit_model.specs.Spelling.{plus, minus, unsigned};

use crate::run::byte_of;

/// Returns `true` if these are digits of the base, with single underscores between them.
fn is_natural(digits: &[u8], base: u32) -> bool
    requires low { 2 ≤ base }
    requires high { base ≤ 16 }
    ensures { result ≡ is_some (spec.natural_of base digits.now) }
{
    let mut follows_digit = false;
    'digits: for byte in digits {
        if char::from(*byte).is_digit(base) {
            follows_digit = true;
        } else if follows_digit && *byte == b'_' {
            follows_digit = false;
        } else {
            return false;
        }
    }
    follows_digit
}

/// Returns `true` if a 0 leads other digits.
fn leads_with_zero(digits: &[u8]) -> bool
    ensures { result ≡ spec.leads_with_zero digits.now }
{
    byte_of(digits, 0) == b'0' && digits.len() > 1
}

/// Returns `true` if these are decimal digits, with single underscores between them. Most numbers
/// have none, and a loop of no other tests is shorter.
#[inline(always)]
fn are_digits(digits: &[u8]) -> bool
    ensures { result ≡ is_some (spec.natural_of 10 digits.now) }
{
    'digits: for byte in digits {
        if !byte.is_ascii_digit() {
            return *byte == b'_' && is_natural(digits, 10);
        }
    }
    !digits.is_empty()
}

/// Returns `true` if these are decimal digits, without a leading 0.
#[tactic(auto, unfolding(toml_edit_laws::specs::reading::Tokens::decimal_of))]
fn is_decimal(digits: &[u8]) -> bool
    ensures plus { result ≡ is_some (spec.decimal_of plus digits.now) }
    ensures minus { result ≡ is_some (spec.decimal_of minus digits.now) }
    ensures unsigned { result ≡ is_some (spec.decimal_of unsigned digits.now) }
{
    !leads_with_zero(digits) && are_digits(digits)
}

/// Returns `true` if a word spells an integer, however large.
#[tactic(auto, unfolding(toml_edit_laws::specs::reading::Tokens::integer_of, toml_edit_laws::specs::reading::Tokens::prefixed_of))]
#[inline(always)]
pub(crate) fn is_integer(word: &[u8]) -> bool
    ensures { result ≡ is_some (spec.integer_of word.now) }
{
    match (byte_of(word, 0), byte_of(word, 1)) {
        (b'0', b'x') => is_natural(&word[2..], 16),
        (b'0', b'o') => is_natural(&word[2..], 8),
        (b'0', b'b') => is_natural(&word[2..], 2),
        (b'+' | b'-', _) => is_decimal(&word[1..]),
        _ => is_decimal(word),
    }
}

/// Returns the number that digits of the base write, with single underscores between them, if it is
/// below the limit.
fn natural_number(digits: &[u8], base: u32, limit: u64) -> Option<u64>
    requires low { 2 ≤ base }
    requires high { base ≤ 16 }
    requires limit { limit ≤ 2 ^ 63 + 1 }
    ensures value { result ≡ spec.if_below limit (spec.natural_of base digits.now) }
    ensures below { IfSome result (λ n. n < limit) }
{
    let mut value = 0u64;
    let mut after_digit = false;
    'digits: for byte in digits {
        match char::from(*byte).to_digit(base) {
            Some(digit) => {
                let next = u128::from(value) * u128::from(base) + u128::from(digit);
                if next >= u128::from(limit) {
                    return None;
                }
                value = next as u64;
                after_digit = true;
            }
            None => {
                if !after_digit || *byte != b'_' {
                    return None;
                }
                after_digit = false;
            }
        }
    }
    if after_digit && value < limit {
        Some(value)
    } else {
        None
    }
}

/// The most decimal digits of a number that is surely in range.
const MOST_DIGITS: usize = 18;

/// Returns the number that decimal digits write, with single underscores between them, if it is
/// below the limit. Most numbers are short and have none, and a loop of no other tests is shorter.
#[inline(always)]
fn decimal_number(digits: &[u8], limit: u64) -> Option<u64>
    requires room { 10 ^ 18 ≤ limit }
    requires limit { limit ≤ 2 ^ 63 + 1 }
    ensures value { result ≡ spec.if_below limit (spec.natural_of 10 digits.now) }
    ensures below { IfSome result (λ n. n < limit) }
{
    if !byte_of(digits, 0).is_ascii_digit() {
        return None;
    }
    if digits.len() > MOST_DIGITS {
        return natural_number(digits, 10, limit);
    }
    let mut value = 0u64;
    'digits: for byte in digits {
        if !byte.is_ascii_digit() {
            return if *byte == b'_' {
                natural_number(digits, 10, limit)
            } else {
                None
            };
        }
        value = value * 10 + u64::from(*byte - b'0');
    }
    Some(value)
}

/// Returns the integer that decimal digits write without a minus sign.
#[tactic(auto, unfolding(toml_edit_laws::specs::reading::Tokens::decimal_of))]
fn positive_integer(digits: &[u8]) -> Option<i64>
    ensures unsigned { result ≡ spec.fitting (spec.decimal_of unsigned digits.now) }
    ensures plus { result ≡ spec.fitting (spec.decimal_of plus digits.now) }
{
    if leads_with_zero(digits) {
        return None;
    }
    let n = decimal_number(digits, 1 << 63)?;
    Some(n as i64)
}

/// Returns the integer that decimal digits write after a minus sign.
#[tactic(auto, unfolding(toml_edit_laws::specs::reading::Tokens::decimal_of))]
fn negative_integer(digits: &[u8]) -> Option<i64>
    ensures { result ≡ spec.fitting (spec.decimal_of minus digits.now) }
{
    if leads_with_zero(digits) {
        return None;
    }
    let n = decimal_number(digits, (1 << 63) + 1)?;
    if n == 1 << 63 {
        Some(i64::MIN)
    } else {
        Some(-(n as i64))
    }
}

/// Returns the integer that digits of the base write.
fn based_integer(digits: &[u8], base: u32) -> Option<i64>
    requires low { 2 ≤ base }
    requires high { base ≤ 16 }
    ensures { result ≡ spec.fitting (option_map pos (spec.natural_of base digits.now)) }
{
    let n = natural_number(digits, base, 1 << 63)?;
    Some(n as i64)
}

/// Returns the integer that a word spells, or `None` if it spells none, or one that 64 bits do not
/// hold.
#[tactic(auto, unfolding(toml_edit_laws::specs::reading::Tokens::integer_of, toml_edit_laws::specs::reading::Tokens::prefixed_of))]
#[inline(always)]
pub(crate) fn decode_integer(word: &[u8]) -> Option<i64>
    ensures { result ≡ spec.fitting (spec.integer_of word.now) }
{
    let first = byte_of(word, 0);
    // quotes come before signs and digits
    if first < b'+' {
        return None;
    }
    match (first, byte_of(word, 1)) {
        (b'0', b'x') => based_integer(&word[2..], 16),
        (b'0', b'o') => based_integer(&word[2..], 8),
        (b'0', b'b') => based_integer(&word[2..], 2),
        (b'+', _) => positive_integer(&word[1..]),
        (b'-', _) => negative_integer(&word[1..]),
        _ => positive_integer(word),
    }
}
