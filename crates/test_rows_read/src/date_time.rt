//! Questions on dates and times.
use crate::answer::Answer;
use crate::steps;
use serde_json::Value as Json;
use toml_edit_datetime::{Date, Datetime, Offset, Time};

/// Answers a question on a date-time, if there is one.
pub fn ask(found: Option<&Datetime>, words: &[Json], out: &mut Answer) {
    match found {
        Some(datetime) => ask_datetime(*datetime, steps::word(words, 0), out),
        None => out.text("none"),
    }
}

fn ask_datetime(datetime: Datetime, call: &str, out: &mut Answer) {
    match call {
        "" => out.shown(&datetime),
        "date" => out.shown_or_none(datetime.date().as_ref()),
        "time" => out.shown_or_none(datetime.time().as_ref()),
        "offset" => ask_offset(datetime.offset(), out),
        "year" | "month" | "day" => ask_date(datetime.date(), call, out),
        _ => ask_time(datetime.time(), call, out),
    }
}

fn ask_offset(offset: Option<Offset>, out: &mut Answer) {
    match offset {
        None => out.text("none"),
        Some(Offset::Z) => out.text("Z"),
        Some(Offset::Custom { minutes }) => out.shown(&minutes),
    }
}

fn ask_date(date: Option<Date>, call: &str, out: &mut Answer) {
    match date {
        Some(date) => ask_that_date(date, call, out),
        None => out.text("none"),
    }
}

fn ask_that_date(date: Date, call: &str, out: &mut Answer) {
    match call {
        "year" => out.shown(&date.year()),
        "month" => out.shown(&date.month()),
        _ => out.shown(&date.day()),
    }
}

fn ask_time(time: Option<Time>, call: &str, out: &mut Answer) {
    match time {
        Some(time) => ask_that_time(time, call, out),
        None => out.text("none"),
    }
}

fn ask_that_time(time: Time, call: &str, out: &mut Answer) {
    match call {
        "hour" => out.shown(&time.hour()),
        "minute" => out.shown(&time.minute()),
        "second" => out.shown_or_none(time.second().as_ref()),
        "nanosecond" => out.shown_or_none(time.nanosecond().as_ref()),
        _ => out.no_such(call),
    }
}
