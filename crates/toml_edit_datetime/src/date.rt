//! Dates.
ghost use Rattle.std.specs.Prelude.{◌≡◌, true};
ghost use Rattle.toml_edit_model.specs.Scalars.{is_real_date};

/// A day of the Gregorian calendar in the years 0 to 9999. (TOML, "Local Date".)
///
/// # Examples
///
/// ```rust,ignore
/// let date = Date::new(year, month, day)?;
/// ```
///
/// From `utc` of the crate `example_calls`.
#[derive(Clone, Copy, Debug, PartialEq, Eq, Hash)]
pub struct Date {
    year: u16,
    month: u8,
    day: u8,
    pub ghost real: { is_real_date (record { year = year; month = month; day = day }) ≡ true },
}

impl Date {
    ghost use Rattle.std.specs.Prelude.{if◌then◌else◌, Some, None, option_map};
    ghost use Rattle.toml_edit_datetime.specs.DateView.{date_view};

    /// Makes a date of the year, the month from 1, and the day of the month from 1.
    ///
    /// Returns `None` if the calendar has no such day, or if the year is above 9999.
    pub fn new(year: u16, month: u8, day: u8) -> Option<Date>
        ensures { option_map date_view result
            ≡ (if is_real_date (record { year = year; month = month; day = day })
            then Some (record { year = year; month = month; day = day }) else None) }
    {
        if year > 9999 || month > 12 || day > 31 {
            return None;
        }
        if jiff::civil::Date::new(year as i16, month as i8, day as i8).is_err() {
            return None;
        }
        Some(Date { year, month, day })
    }

    /// Returns the year, from 0 to 9999.
    pub fn year(&self) -> u16
        ensures { result ≡ (date_view self.now).year }
    {
        self.year
    }

    /// Returns the month, from 1 to 12.
    pub fn month(&self) -> u8
        ensures { result ≡ (date_view self.now).month }
    {
        self.month
    }

    /// Returns the day of the month, from 1 to 31.
    pub fn day(&self) -> u8
        ensures { result ≡ (date_view self.now).day }
    {
        self.day
    }
}
