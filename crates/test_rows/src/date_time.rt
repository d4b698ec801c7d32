//! Rows on dates and times.
use crate::program::Texts;
use serde_json::Value as Json;
use test_rows_read::{Answer, Row, steps};
use toml_edit::{Date, Datetime, Offset, Time, Value};

/// Answers rows on a date-time that is made or parsed.
pub fn answer(row: Row<'_>, out: &mut Answer) {
    steps::found::<Texts, _>(made(row), row, out);
}

fn made(row: Row<'_>) -> Option<Value> {
    match row.kind {
        "date" => row.subject().and_then(date).map(Value::from),
        "time" => row.subject().and_then(time).map(Value::from),
        "parts" => row.subject().and_then(of_parts).map(Value::from),
        _ => row.text().parse::<Datetime>().ok().map(Value::from),
    }
}

fn number(numbers: &Json, at: usize) -> Option<u64> {
    match numbers.get(at) {
        Some(number) => number.as_u64(),
        None => None,
    }
}

/// Returns the number, or one that is out of range if it is missing or beyond a byte.
fn small(number: Option<u64>) -> u8 {
    match number {
        Some(number) => u8::try_from(number).unwrap_or(u8::MAX),
        None => u8::MAX,
    }
}

/// Makes the date of three numbers: year, month and day.
fn date(numbers: &Json) -> Option<Date> {
    Date::new(
        year(number(numbers, 0)),
        small(number(numbers, 1)),
        small(number(numbers, 2)),
    )
}

fn year(number: Option<u64>) -> u16 {
    match number {
        Some(number) => u16::try_from(number).unwrap_or(u16::MAX),
        None => u16::MAX,
    }
}

/// Makes the time of up to four numbers: hour, minute, second and nanosecond. The last two may be
/// missing or `null`.
fn time(numbers: &Json) -> Option<Time> {
    Time::new(
        small(number(numbers, 0)),
        small(number(numbers, 1)),
        second(number(numbers, 2)),
        nanosecond(number(numbers, 3)),
    )
}

fn second(number: Option<u64>) -> Option<u8> {
    match number {
        Some(_) => Some(small(number)),
        None => None,
    }
}

fn nanosecond(number: Option<u64>) -> Option<u32> {
    match number {
        Some(number) => Some(u32::try_from(number).unwrap_or(u32::MAX)),
        None => None,
    }
}

/// Makes the date-time of an object with `date`, `time` and `offset`, each of which may be missing.
fn of_parts(parts: &Json) -> Option<Datetime> {
    Datetime::new(
        parts.get("date").and_then(date),
        parts.get("time").and_then(time),
        parts.get("offset").map(offset),
    )
}

/// Makes the offset of a number of minutes, or of `"Z"`.
fn offset(offset: &Json) -> Offset {
    match offset.as_i64() {
        Some(minutes) => Offset::Custom {
            minutes: i16::try_from(minutes).unwrap_or(i16::MAX),
        },
        None => Offset::Z,
    }
}
