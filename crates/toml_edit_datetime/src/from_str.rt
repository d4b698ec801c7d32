//! Parsing date-times, and checking that they are in range.
ghost use Rattle.std.specs.Prelude.{◌≡◌, ◌↔◌, ◌==◌, IsTrue, Some, None, is_some, if◌then◌else◌, option_map};
ghost use Rattle.std.specs.Result.{result_ok};
ghost use Rattle.toml_edit_model.specs.Scalars.{Datetime as DatetimeRecord, is_absent_or, is_real_date, is_real_time};
ghost use Rattle.toml_edit_model.specs.Spelling.{SpellsDatetime};
ghost use Rattle.toml_edit_datetime.specs.DateView.{date_view};
ghost use Rattle.toml_edit_datetime.specs.TimeView.{time_view};
ghost use Rattle.toml_edit_datetime.specs.OffsetView.{offset_view};
ghost use Rattle.toml_edit_datetime.specs.DatetimeView.{datetime_view};
ghost use Rattle.toml_edit_laws.specs.reading.DatetimeReading as spec;
ghost use Rattle.toml_edit_datetime.specs.PartsView.{date_parts_view, time_parts_view, offset_parts_view};

use crate::date::Date;
use crate::datetime::{Datetime, DatetimeFault, Offset};
use crate::parts::{DateParts, OffsetParts, TimeParts};
use crate::reading;
use crate::time::Time;
use std::str::FromStr;

/// Returns `true` if the text spells a date, a time of day or both, with an offset or without, in
/// range or not.
pub fn is_datetime(text: &str) -> bool
    ensures spelled { IsTrue result ↔ ((d : DatetimeRecord) × SpellsDatetime d text.now) }
    ensures read { result ≡ is_some (spec.datetime_of text.now) }
{
    reading::read(text.as_bytes()).is_some()
}

/// Parses a date, a time of day, or both, then with an offset or without.
///
/// Digits of a fraction after the ninth are dropped, and the offset `-00:00` is one of 0 minutes.
/// The error is [`DatetimeFault`], of a text that spells no date-time, or one that does not exist.
/// (TOML, "Offset Date-Time", "Local Date-Time", "Local Date", "Local Time".)
impl FromStr for Datetime {
    ghost use Rattle.toml_edit_datetime.specs.ReadsDatetime.{ReadsDatetime};

    type Err = DatetimeFault;

    ghost from_str_gives = { ReadsDatetime };

    fn from_str(text: &str) -> Result<Datetime, DatetimeFault> {
        real_datetime(text)
    }
}

/// Returns the date-time that a text spells, if it exists.
fn real_datetime(text: &str) -> Result<Datetime, DatetimeFault>
    ensures { option_map datetime_view (result_ok result) ≡ spec.ranged_of text.now }
{
    let parts = reading::read(text.as_bytes()).ok_or(DatetimeFault)?;
    let date = date_of_parts(parts.date)?;
    let time = real_time(parts.time)?;
    let offset = real_offset(parts.offset)?;
    Datetime::new(date, time, offset).ok_or(DatetimeFault)
}

/// Returns the date, if there is one. Fails if the calendar has no such day.
fn date_of_parts(parts: Option<DateParts>) -> Result<Option<Date>, DatetimeFault>
    ensures { option_map (option_map date_view) (result_ok result)
        ≡ (if is_absent_or is_real_date (option_map date_parts_view parts)
        then Some (option_map date_parts_view parts) else None) }
{
    let Some(parts) = parts else {
        return Ok(None);
    };
    let date = Date::new(parts.year, parts.month, parts.day).ok_or(DatetimeFault)?;
    Ok(Some(date))
}

/// Returns the time, if there is one. Fails if no day has it.
fn real_time(parts: Option<TimeParts>) -> Result<Option<Time>, DatetimeFault>
    ensures { option_map (option_map time_view) (result_ok result)
        ≡ (if is_absent_or is_real_time (option_map time_parts_view parts)
        then Some (option_map time_parts_view parts) else None) }
{
    let Some(parts) = parts else {
        return Ok(None);
    };
    let time = Time::new(parts.hour, parts.minute, parts.second, parts.nanosecond).ok_or(
        DatetimeFault,
    )?;
    Ok(Some(time))
}

/// Returns the offset, if there is one. Fails if its hours or minutes are not those of a day.
fn real_offset(parts: Option<OffsetParts>) -> Result<Option<Offset>, DatetimeFault>
    ensures { option_map (option_map offset_view) (result_ok result)
        ≡ (if is_absent_or (λ o. o.is_real) (option_map offset_parts_view parts)
        then Some (option_map (λ o. o.offset) (option_map offset_parts_view parts)) else None) }
{
    match parts {
        None => Ok(None),
        Some(parts) if parts.is_real => Ok(Some(parts.offset)),
        Some(_) => Err(DatetimeFault),
    }
}
