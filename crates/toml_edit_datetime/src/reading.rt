//! Reading a date-time from its bytes. Most functions here split a part off the front of the text,
//! and return it with the rest.
ghost use Rattle.std.specs.Prelude.{◌≡◌, ℕ, ◌<◌, ◌≤◌, true, length, is_some, slice_index, IfSome, option_map};
ghost use Rattle.std.specs.List.{prefix_len};
ghost use Rattle.std.specs.Option.{option_copied};
ghost use Rattle.std.specs.Char.{is_ascii_digit};
ghost use Rattle.toml_edit_model.specs.Spelling.{nanoseconds};
ghost use Rattle.toml_edit_laws.specs.reading.DatetimeReading as spec;
ghost use Rattle.toml_edit_datetime.specs.PartsView.{date_parts_view, time_parts_view, offset_parts_view, parts_view, read_as, read_of};

use crate::datetime::Offset;
use crate::parts::{DateParts, OffsetParts, Parts, TimeParts};

/// Reads a text that is a date-time, in range or not.
#[tactic(auto, unfolding(toml_edit_laws::specs::reading::DatetimeReading::parts_of))]
pub(crate) fn read(text: &[u8]) -> Option<Parts>
    ensures { option_map parts_view result ≡ spec.parts_of text.now }
{
    if matches!(text, [_, _, b':', ..]) {
        let time = value_if_whole(read_time(text))?;
        return Some(Parts {
            date: None,
            time: Some(time),
            offset: None,
        });
    }
    let (date, rest) = read_date(text)?;
    after_date(date, rest)
}

/// Reads what follows a date: nothing, or a time and perhaps an offset.
#[tactic(auto, unfolding(toml_edit_laws::specs::reading::DatetimeReading::after_date))]
fn after_date(date: DateParts, text: &[u8]) -> Option<Parts>
    ensures { option_map parts_view result ≡ spec.after_date (date_parts_view date) text.now }
{
    let [mark, rest @ ..] = text else {
        return Some(Parts {
            date: Some(date),
            time: None,
            offset: None,
        });
    };
    if !matches!(mark, b'T' | b't' | b' ') {
        return None;
    }
    let (time, rest) = read_time(rest)?;
    let offset = if rest.is_empty() {
        None
    } else {
        Some(value_if_whole(read_offset(rest))?)
    };
    Some(Parts {
        date: Some(date),
        time: Some(time),
        offset,
    })
}

/// Reads `YYYY-MM-DD`.
#[tactic(auto, unfolding(toml_edit_laws::specs::reading::DatetimeReading::date_at))]
fn read_date(text: &[u8]) -> Option<(DateParts, &[u8])>
    ensures { read_as date_parts_view result ≡ spec.date_at text.now }
{
    let (century, rest) = two_digits(text)?;
    let (year, rest) = two_digits(rest)?;
    let (month, rest) = two_digits(after_byte(rest, b'-')?)?;
    let (day, rest) = two_digits(after_byte(rest, b'-')?)?;
    let date = DateParts {
        year: 100 * u16::from(century) + u16::from(year),
        month,
        day,
    };
    Some((date, rest))
}

/// Reads `hh:mm`, and then perhaps `:ss` and a fraction.
#[tactic(auto, unfolding(toml_edit_laws::specs::reading::DatetimeReading::time_at))]
fn read_time(text: &[u8]) -> Option<(TimeParts, &[u8])>
    ensures { read_as time_parts_view result ≡ spec.time_at text.now }
{
    let ((hour, minute), rest) = read_clock(text)?;
    let ((second, nanosecond), rest) = read_seconds(rest)?;
    let time = TimeParts {
        hour,
        minute,
        second,
        nanosecond,
    };
    Some((time, rest))
}

/// Reads `hh:mm`.
#[tactic(auto, unfolding(toml_edit_laws::specs::reading::DatetimeReading::clock_at))]
fn read_clock(text: &[u8]) -> Option<((u8, u8), &[u8])>
    ensures value { read_of result ≡ spec.clock_at text.now }
    ensures small { IfSome result (λ p. (p.0.0 < 100) × (p.0.1 < 100)) }
{
    let (hour, rest) = two_digits(text)?;
    let (minute, rest) = two_digits(after_byte(rest, b':')?)?;
    Some(((hour, minute), rest))
}

/// Reads nothing, or `:ss` and perhaps a fraction.
#[tactic(auto, unfolding(toml_edit_laws::specs::reading::DatetimeReading::seconds_at))]
fn read_seconds(text: &[u8]) -> Option<((Option<u8>, Option<u32>), &[u8])>
    ensures { read_of result ≡ spec.seconds_at text.now }
{
    let [b':', rest @ ..] = text else {
        return Some(((None, None), text));
    };
    let (second, rest) = two_digits(rest)?;
    let [b'.', digits @ ..] = rest else {
        return Some(((Some(second), None), rest));
    };
    let (nanosecond, rest) = read_fraction(digits)?;
    Some(((Some(second), Some(nanosecond)), rest))
}

/// Reads the digits after a point, as nanoseconds.
#[tactic(auto, unfolding(toml_edit_laws::specs::reading::DatetimeReading::fraction_at))]
fn read_fraction(text: &[u8]) -> Option<(u32, &[u8])>
    ensures { read_of result ≡ spec.fraction_at text.now }
{
    let len = digits_len(text);
    if len == 0 {
        return None;
    }
    let (digits, rest) = text.split_at(len);
    Some((nanoseconds_of(digits), rest))
}

/// Returns the number of nine digits: the first of these, and then zeros.
fn nanoseconds_of(digits: &[u8]) -> u32
    requires { (k : ℕ) → k < length digits.now → is_ascii_digit (slice_index digits.now k) ≡ true }
    ensures { result ≡ nanoseconds digits.now }
{
    let mut value = 0u32;
    for place in 0..9 {
        let digit = match digits.get(place) {
            Some(digit) => *digit - b'0',
            None => 0,
        };
        value = value * 10 + u32::from(digit);
    }
    value
}

/// Returns the number of decimal digits at the front.
fn digits_len(text: &[u8]) -> usize
    ensures len { result ≡ prefix_len is_ascii_digit text.now }
    ensures within { result ≤ length text.now }
    ensures digits { (k : ℕ) → k < result → is_ascii_digit (slice_index text.now k) ≡ true }
{
    text.iter().take_while(|b| b.is_ascii_digit()).count()
}

/// Reads `Z`, `z`, or a sign and `hh:mm`.
#[tactic(auto, unfolding(toml_edit_laws::specs::reading::DatetimeReading::offset_at))]
fn read_offset(text: &[u8]) -> Option<(OffsetParts, &[u8])>
    ensures { read_as offset_parts_view result ≡ spec.offset_at text.now }
{
    match text {
        [b'Z' | b'z', rest @ ..] => {
            let parts = OffsetParts {
                offset: Offset::Z,
                is_real: true,
            };
            Some((parts, rest))
        }
        [b'+', rest @ ..] => {
            let ((hours, minutes), rest) = read_clock(rest)?;
            let all = 60 * u16::from(hours) + u16::from(minutes);
            Some((shift(all as i16, hours, minutes), rest))
        }
        [b'-', rest @ ..] => {
            let ((hours, minutes), rest) = read_clock(rest)?;
            let all = 60 * u16::from(hours) + u16::from(minutes);
            Some((shift(-(all as i16), hours, minutes), rest))
        }
        _ => None,
    }
}

/// Makes an offset of so many minutes, written by these hours and minutes.
fn shift(all: i16, hours: u8, minutes: u8) -> OffsetParts
    ensures { offset_parts_view result ≡ spec.shift_parts all hours minutes }
{
    OffsetParts {
        offset: Offset::Custom { minutes: all },
        is_real: hours < 24 && minutes < 60,
    }
}

/// Reads two decimal digits.
#[tactic(auto, unfolding(toml_edit_laws::specs::reading::DatetimeReading::two_at))]
fn two_digits(text: &[u8]) -> Option<(u8, &[u8])>
    ensures value { read_of result ≡ spec.two_at text.now }
    ensures small { IfSome result (λ p. p.0 < 100) }
{
    match text {
        [a @ b'0'..=b'9', b @ b'0'..=b'9', rest @ ..] => {
            Some((10 * (a - b'0') + (b - b'0'), rest))
        }
        _ => None,
    }
}

/// Returns the text after this byte at the front.
fn after_byte(text: &[u8], byte: u8) -> Option<&[u8]>
    ensures { option_copied result ≡ spec.after_byte byte text.now }
{
    match text {
        [first, rest @ ..] if *first == byte => Some(rest),
        _ => None,
    }
}

/// Returns what was read if nothing is left.
fn value_if_whole<T: Copy>(read: Option<(T, &[u8])>) -> Option<T>
    ensures { result ≡ spec.whole (read_of read.entry) }
{
    match read {
        Some((value, [])) => Some(value),
        _ => None,
    }
}
