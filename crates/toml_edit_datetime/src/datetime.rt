//! Date-times, and their offsets from UTC.
ghost use Rattle.std.specs.Prelude.{◌≡◌, true, option_map};
ghost use Rattle.toml_edit_model.specs.Tree.{has_real_parts};
ghost use Rattle.toml_edit_datetime.specs.DateView.{date_view};
ghost use Rattle.toml_edit_datetime.specs.TimeView.{time_view};
ghost use Rattle.toml_edit_datetime.specs.OffsetView.{offset_view};

use crate::date::Date;
use crate::time::Time;
use std::error::Error;
use std::fmt;

/// The offset of a local time from Coordinated Universal Time. (TOML, "Offset Date-Time".)
///
/// # Examples
///
/// ```rust,ignore
/// Datetime::new(Some(date), Some(time), Some(Offset::Z))
/// ```
///
/// From `utc` of the crate `example_calls`.
#[derive(Clone, Copy, Debug, PartialEq, Eq, Hash)]
pub enum Offset {
    /// The offset 0, written `Z`.
    Z,
    /// An offset in minutes, positive ahead of UTC: 120 for `+02:00`, -60 for `-01:00`.
    Custom { minutes: i16 },
}

/// The error of a text that is not a date-time, or one out of range.
///
/// # Examples
///
/// ```rust,ignore
/// Err(DatetimeFault) => Ok(false),
/// ```
///
/// From `set_date_time` of the crate `example_calls`.
#[derive(Clone, Copy, Debug, PartialEq, Eq, Hash)]
pub struct DatetimeFault;

/// Writes `invalid date-time`.
impl fmt::Display for DatetimeFault {
    ghost use Rattle.std.specs.Prelude.{Some, codes};

    ghost output = { λ _. Some (codes "invalid date-time") };

    fn fmt<W: fmt::Write>(&self, f: &mut fmt::Formatter<W>) -> fmt::Result {
        f.write_str("invalid date-time")
    }
}

impl Error for DatetimeFault {}

/// A date, a time of day, or both, then perhaps with an offset of less than a day. (TOML, "Offset
/// Date-Time", "Local Date-Time", "Local Date", "Local Time".)
///
/// # Examples
///
/// ```rust,ignore
/// let date = Date::new(year, month, day)?;
/// let time = Time::new(hour, minute, Some(0), None)?;
/// Datetime::new(Some(date), Some(time), Some(Offset::Z))
/// ```
///
/// From `utc` of the crate `example_calls`.
#[derive(Clone, Copy, Debug, PartialEq, Eq, Hash)]
pub struct Datetime {
    date: Option<Date>,
    time: Option<Time>,
    offset: Option<Offset>,
    pub ghost real: { has_real_parts (option_map date_view date) (option_map time_view time)
        (option_map offset_view offset) ≡ true },
}

impl Datetime {
    ghost use Rattle.std.specs.Prelude.{if◌then◌else◌, Some, None};
    ghost use Rattle.toml_edit_datetime.specs.DatetimeView.{datetime_of, datetime_view};

    /// Makes a date-time of its parts.
    ///
    /// Returns `None` if there is neither a date nor a time, if there is an offset without both, or
    /// if the offset is more than 1439 minutes either way.
    pub fn new(date: Option<Date>, time: Option<Time>, offset: Option<Offset>) -> Option<Datetime>
        ensures { option_map datetime_view result
            ≡ (if has_real_parts (option_map date_view date) (option_map time_view time)
            (option_map offset_view offset)
            then Some (datetime_of date time offset) else None) }
    {
        let is_real = match (date, time, offset) {
            (Some(_), Some(_), Some(Offset::Custom { minutes })) => minutes.unsigned_abs() < 1440,
            (Some(_), Some(_), _) => true,
            (None, None, _) => false,
            _ => offset.is_none(),
        };
        if is_real {
            Some(Datetime { date, time, offset })
        } else {
            None
        }
    }

    /// Returns the date, or `None` if this is a time alone.
    pub fn date(&self) -> Option<Date>
        ensures { option_map date_view result ≡ (datetime_view self.now).date }
    {
        self.date
    }

    /// Returns the time of day, or `None` if this is a date alone.
    pub fn time(&self) -> Option<Time>
        ensures { option_map time_view result ≡ (datetime_view self.now).time }
    {
        self.time
    }

    /// Returns the offset, or `None` if this is a local date-time, a date or a time. A date-time
    /// with an offset has both a date and a time.
    pub fn offset(&self) -> Option<Offset>
        ensures { option_map offset_view result ≡ (datetime_view self.now).offset }
    {
        self.offset
    }
}

/// Makes a date-time of a date alone.
impl From<Date> for Datetime {
    ghost use Rattle.std.specs.Prelude.{Some, None};
    ghost use Rattle.toml_edit_datetime.specs.DatetimeView.{datetime_view};

    ghost from_gives = { λ date d. datetime_view d
        ≡ record { date = Some (date_view date); time = None; offset = None } };

    fn from(date: Date) -> Datetime {
        Datetime {
            date: Some(date),
            time: None,
            offset: None,
        }
    }
}

/// Makes a date-time of a time of day alone.
impl From<Time> for Datetime {
    ghost use Rattle.std.specs.Prelude.{Some, None};
    ghost use Rattle.toml_edit_datetime.specs.DatetimeView.{datetime_view};

    ghost from_gives = { λ time d. datetime_view d
        ≡ record { date = None; time = Some (time_view time); offset = None } };

    fn from(time: Time) -> Datetime {
        Datetime {
            date: None,
            time: Some(time),
            offset: None,
        }
    }
}
