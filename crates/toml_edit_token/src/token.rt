//! The ends of keys and scalars.
ghost use Rattle.std.specs.Prelude.{◌≡◌, ◌<◌, ◌≤◌, ◌++◌, true, Some, length, take, drop, is_some, option_map, IfSome};
ghost use Rattle.toml_edit_model.specs.Text.{Text};
ghost use Rattle.toml_edit_model.specs.Scalars.{Scalar};
ghost use Rattle.toml_edit_model.specs.Spelling.{SpellsKey, Spells};
ghost use Rattle.toml_edit_laws.specs.reading.BlockReading as block;
ghost use Rattle.toml_edit_laws.specs.reading.ScalarReading as scalar;
ghost use Rattle.toml_edit_laws.specs.reading.Tokens as spec;

use crate::block_string::{after_block, block_stop};
use crate::number::is_integer;
use crate::run::{Class, byte_at, first_byte, is_bare, is_word, run_len, skip, split_run};
use crate::string::{after_string, basic_stop};
use toml_edit_datetime::{is_datetime, is_float};

/// Returns the text after the simple key at the front, or `None` if there is none. A bare key goes
/// as far as its bytes do. (TOML, "Keys".)
pub fn after_key(s: &str) -> Option<&str>
    ensures found { IfSome result
        (λ rest. (k spelled : Text) × SpellsKey k spelled × (s.now ≡ spelled ++ rest.now)) }
    // Each key that is there and ends where keys do is that one.
    ensures only { (k spelled rest : Text) → SpellsKey k spelled → spec.ends_key rest ≡ true
        → s.now ≡ spelled ++ rest
        → option_map (λ r. r.now) result ≡ Some rest }
    ensures rest { option_map (λ r. r.now) result ≡ option_map (λ p. p.1) (spec.key_at s.now) }
    ensures within { IfSome result (λ r. length r.now ≤ length s.now) }
{
    after_run_or_string(s)
}

/// Returns the text after the run of a bare key, or after the string, at the front.
#[tactic(auto, unfolding(toml_edit_laws::specs::reading::Tokens::key_at))]
fn after_run_or_string(s: &str) -> Option<&str>
    ensures rest { option_map (λ r. r.now) result ≡ option_map (λ p. p.1) (spec.key_at s.now) }
    ensures within { IfSome result (λ r. length r.now ≤ length s.now) }
{
    if is_bare(first_byte(s)) {
        let (_, rest) = split_run(s, Class::Bare);
        Some(rest)
    } else {
        after_string(s)
    }
}

/// Returns `true` if a run of so many bytes at the front is a date, and a space and a digit follow.
fn goes_on(s: &str, run: usize) -> bool
    ensures result { result ≡ scalar.goes_on run s.now }
    ensures within { result ≡ true → 11 < length s.now }
{
    let is_date = run == 10 && byte_at(s, 4) == b'-' && byte_at(s, 7) == b'-';
    is_date && byte_at(s, 10) == b' ' && byte_at(s, 11).is_ascii_digit()
}

/// Returns the number of bytes of the word at the front: a run, or a date, a space and the run of a
/// time.
#[tactic(auto, unfolding(toml_edit_laws::specs::reading::ScalarReading::word_len))]
fn word_len(s: &str) -> usize
    ensures len { result ≡ scalar.word_len s.now }
    ensures within { result ≤ length s.now }
{
    let run = run_len(s.as_bytes(), Class::Word);
    if goes_on(s, run) {
        11 + run_len(&s.as_bytes()[11..], Class::Word)
    } else {
        run
    }
}

/// Splits off the word at the front.
fn split_word(s: &str) -> (&str, &str)
    ensures word { result.0.now ≡ take (scalar.word_len s.now) s.now }
    ensures rest { result.1.now ≡ drop (scalar.word_len s.now) s.now }
    ensures within { length result.1.now ≤ length s.now }
{
    s.split_at(word_len(s))
}

/// Returns `true` if a word spells a boolean, a number, a date or a time, in range or not.
#[tactic(auto, unfolding(toml_edit_laws::specs::reading::ScalarReading::word_scalar))]
fn is_scalar_word(word: &str) -> bool
    ensures { result ≡ is_some (scalar.word_scalar word.now) }
{
    // numbers first: comparing texts costs more than their first byte
    is_integer(word.as_bytes())
        || is_float(word)
        || word == "true"
        || word == "false"
        || is_datetime(word)
}

/// Returns `true` if three quotes of one kind are at the front.
pub(crate) fn opens_block(s: &str) -> bool
    ensures { result ≡ block.opens_block s.now }
{
    let quote = first_byte(s);
    (quote == b'"' || quote == b'\'') && byte_at(s, 1) == quote && byte_at(s, 2) == quote
}

/// Returns the text after the scalar at the front, or `None` if there is none. A word goes as far
/// as its bytes do. (TOML, "String" to "Local Time".)
pub fn after_scalar(s: &str) -> Option<&str>
    ensures found { IfSome result
        (λ rest. (x : Scalar) × (spelled : Text) × Spells x spelled
        × (s.now ≡ spelled ++ rest.now)) }
    // Each scalar that is there and ends where scalars do is that one.
    ensures only { (x : Scalar) (spelled rest : Text) → Spells x spelled
        → scalar.ends_scalar rest ≡ true → s.now ≡ spelled ++ rest
        → option_map (λ r. r.now) result ≡ Some rest }
    ensures rest { option_map (λ r. r.now) result ≡ option_map (λ p. p.1) (scalar.scalar_at s.now) }
    ensures within { IfSome result (λ r. length r.now ≤ length s.now) }
{
    behind_scalar(s)
}

/// Returns the text after the scalar at the front.
#[tactic(auto, unfolding(toml_edit_laws::specs::reading::ScalarReading::scalar_at))]
fn behind_scalar(s: &str) -> Option<&str>
    ensures rest { option_map (λ r. r.now) result ≡ option_map (λ p. p.1) (scalar.scalar_at s.now) }
    ensures within { IfSome result (λ r. length r.now ≤ length s.now) }
{
    if !is_word(first_byte(s)) {
        return if opens_block(s) {
            after_block(s)
        } else {
            after_string(s)
        };
    }
    let (word, rest) = split_word(s);
    if is_scalar_word(word) {
        Some(rest)
    } else {
        None
    }
}

/// Returns the text where the string at the front cannot go on: at an escape that does not exist,
/// at a character that may not be in it, or at the end of its line or of the text. A string that
/// has an end goes on up to it.
pub fn string_stop(s: &str) -> &str
    ensures within { length result.now ≤ length s.now }
{
    if opens_block(s) {
        return block_stop(s);
    }
    match first_byte(s) {
        b'"' => basic_stop(skip(s, 1)),
        b'\'' => split_run(skip(s, 1), Class::Literal).1,
        _ => s,
    }
}
