//! Putting the default spellings of dates and times into sinks.
#![tactic(auto, using(toml_edit_io::proofs::Puts::put_steps))]

ghost use Rattle.std.specs.Prelude.{◌≡◌, ◌+◌, ◌<◌, true, [], ◌∷◌, ◌++◌, option_map};
ghost use Rattle.std.specs.Fmt.{WritesInCalls};
ghost use Rattle.toml_edit_model.specs.Spelling.{two_digits, date_text, clock_text, digit};
ghost use Rattle.toml_edit_model.specs.Scalars.{is_absent_or, is_absent_or_below};
ghost use Rattle.toml_edit_model.specs.Tree.{is_real_shift};
ghost use Rattle.toml_edit_model.specs.DefaultSpelling as spec;
ghost use Rattle.toml_edit_datetime.specs.DateView.{date_view};
ghost use Rattle.toml_edit_datetime.specs.TimeView.{time_view};
ghost use Rattle.toml_edit_datetime.specs.OffsetView.{offset_view};
ghost use Rattle.toml_edit_datetime.specs.FractionText.{fraction_text};

use crate::date::Date;
use crate::datetime::{Datetime, Offset};
use crate::time::Time;
use std::fmt;
use std::fmt::{Formatter, Write};
use toml_edit_io::{Printed, Sink, show};

/// Writes the date, the time of day and the offset, as far as there are such, with a `T` between a
/// date and a time: `1979-05-27T07:32:00Z`, for example.
impl fmt::Display for Datetime {
    ghost use Rattle.std.specs.Prelude.{Some};
    ghost use Rattle.toml_edit_datetime.specs.DatetimeView.{datetime_view};

    ghost output = { λ d. Some (spec.datetime_spelling (datetime_view d)) };

    fn fmt<W: Write>(&self, f: &mut Formatter<W>) -> fmt::Result {
        show(f, self)
    }
}

impl Printed for Datetime {
    ghost use Rattle.toml_edit_datetime.specs.DatetimeView.{datetime_view};

    ghost text = { λ d. spec.datetime_spelling (datetime_view d) };

    fn put_into<S: Sink>(&self, out: &mut S) {
        put_date(out, self.date());
        put_time(out, self.date(), self.time());
        put_offset(out, self.offset())
    }
}

/// Puts the date, if there is one.
fn put_date<S: Sink>(out: &mut S, date: Option<Date>)
    ensures { WritesInCalls S.puts out.old
        (spec.part_spelling date_text (option_map date_view date)) out.new }
{
    match date {
        Some(date) => date.put_into(out),
        None => {}
    }
}

/// Puts the time of day, if there is one, with a `T` before it if there is a date.
fn put_time<S: Sink>(out: &mut S, date: Option<Date>, time: Option<Time>)
    ensures { WritesInCalls S.puts out.old
        (spec.date_mark (option_map date_view date) (option_map time_view time)
        ++ spec.part_spelling spec.time_spelling (option_map time_view time))
        out.new }
{
    match (date, time) {
        (Some(_), Some(time)) => put_marked_time(out, time),
        (None, Some(time)) => time.put_into(out),
        (_, None) => {}
    }
}

/// Puts a `T` and the time after it.
fn put_marked_time<S: Sink>(out: &mut S, time: Time)
    ensures { WritesInCalls S.puts out.old (84 ∷ spec.time_spelling (time_view time)) out.new }
{
    out.put("T");
    time.put_into(out)
}

/// Puts `Z`, or a sign and `hh:mm`. Without an offset nothing is put.
fn put_offset<S: Sink>(out: &mut S, offset: Option<Offset>)
    requires { is_absent_or is_real_shift (option_map offset_view offset) ≡ true }
    ensures { WritesInCalls S.puts out.old
        (spec.part_spelling spec.offset_spelling (option_map offset_view offset)) out.new }
{
    match offset {
        None => {}
        Some(Offset::Z) => out.put("Z"),
        Some(Offset::Custom { minutes }) => {
            out.put(if minutes < 0 { "-" } else { "+" });
            let minutes = minutes.unsigned_abs();
            put_clock(out, minutes / 60, minutes % 60)
        }
    }
}

/// Writes `YYYY-MM-DD`.
impl fmt::Display for Date {
    ghost use Rattle.std.specs.Prelude.{Some};

    ghost output = { λ d. Some (date_text (date_view d)) };

    fn fmt<W: Write>(&self, f: &mut Formatter<W>) -> fmt::Result {
        show(f, self)
    }
}

impl Printed for Date {
    ghost text = { λ d. date_text (date_view d) };

    fn put_into<S: Sink>(&self, out: &mut S) {
        put_two_digits(out, self.year() / 100);
        put_two_digits(out, self.year() % 100);
        out.put("-");
        put_two_digits(out, u16::from(self.month()));
        out.put("-");
        put_two_digits(out, u16::from(self.day()))
    }
}

/// Writes `hh:mm`, and `:ss` and a fraction of a second if they are there.
///
/// The fraction has one to nine digits, of which the last isn't 0 unless it is the only one.
impl fmt::Display for Time {
    ghost use Rattle.std.specs.Prelude.{Some};

    ghost output = { λ t. Some (spec.time_spelling (time_view t)) };

    fn fmt<W: Write>(&self, f: &mut Formatter<W>) -> fmt::Result {
        show(f, self)
    }
}

impl Printed for Time {
    ghost text = { λ t. spec.time_spelling (time_view t) };

    fn put_into<S: Sink>(&self, out: &mut S) {
        put_clock(out, u16::from(self.hour()), u16::from(self.minute()));
        put_seconds(out, self.second(), self.nanosecond())
    }
}

/// Puts `:ss` and the fraction, if they are there.
#[tactic(auto, using(toml_edit_io::proofs::Puts::put_steps), unfolding(crate::specs::FractionText::fraction_text))]
fn put_seconds<S: Sink>(out: &mut S, second: Option<u8>, nanosecond: Option<u32>)
    requires second { is_absent_or_below 61 second ≡ true }
    requires nanosecond { is_absent_or_below 1000000000 nanosecond ≡ true }
    ensures { WritesInCalls S.puts out.old (spec.seconds_spelling second nanosecond) out.new }
{
    let Some(second) = second else {
        return;
    };
    out.put(":");
    put_two_digits(out, u16::from(second));
    let Some(nanosecond) = nanosecond else {
        return;
    };
    out.put(".");
    put_fraction(out, nanosecond)
}

/// Puts `hh:mm`.
fn put_clock<S: Sink>(out: &mut S, hours: u16, minutes: u16)
    requires hours { hours < 100 }
    requires minutes { minutes < 100 }
    ensures { WritesInCalls S.puts out.old (clock_text hours minutes) out.new }
{
    put_two_digits(out, hours);
    out.put(":");
    put_two_digits(out, minutes)
}

/// Puts the digits of a fraction of a second, up to the last that isn't 0, and at least one.
fn put_fraction<S: Sink>(out: &mut S, nanosecond: u32)
    requires { nanosecond < 1_000_000_000 }
    ensures { WritesInCalls S.puts out.old (fraction_text nanosecond) out.new }
{
    let mut left = nanosecond;
    let mut place = 100_000_000;
    'digits: loop {
        put_digit(out, left / place);
        left %= place;
        if left == 0 {
            return;
        }
        place /= 10;
    }
}

/// Puts a number as two digits.
fn put_two_digits<S: Sink>(out: &mut S, n: u16)
    requires { n < 100 }
    ensures { WritesInCalls S.puts out.old (two_digits n) out.new }
{
    put_digit(out, u32::from(n / 10));
    put_digit(out, u32::from(n % 10))
}

/// Puts a digit.
fn put_digit<S: Sink>(out: &mut S, d: u32)
    requires { d < 10 }
    ensures { WritesInCalls S.puts out.old (digit d ∷ []) out.new }
{
    out.put_char(char::from(b'0' + d as u8))
}
