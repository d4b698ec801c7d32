//! Times of day.
ghost use Rattle.std.specs.Prelude.{◌≡◌, true};
ghost use Rattle.toml_edit_model.specs.Scalars.{is_real_time};

/// A time of day, to the nanosecond. The second may be missing, and may be 60. (TOML, "Local
/// Time".)
///
/// # Examples
///
/// ```rust,ignore
/// let time = Time::new(hour, minute, Some(0), None)?;
/// ```
///
/// From `utc` of the crate `example_calls`.
#[derive(Clone, Copy, Debug, PartialEq, Eq, Hash)]
pub struct Time {
    hour: u8,
    minute: u8,
    second: Option<u8>,
    nanosecond: Option<u32>,
    pub ghost real: { is_real_time
        (record { hour = hour; minute = minute; second = second; nanosecond = nanosecond })
        ≡ true },
}

impl Time {
    ghost use Rattle.std.specs.Prelude.{if◌then◌else◌, Some, None, option_map};
    ghost use Rattle.toml_edit_datetime.specs.TimeView.{time_of, time_view};

    /// Makes a time of its parts.
    ///
    /// Returns `None` if the hour is above 23, the minute above 59, the second above 60 or the
    /// nanosecond above 999,999,999, or if there is a nanosecond but no second.
    pub fn new(hour: u8, minute: u8, second: Option<u8>, nanosecond: Option<u32>) -> Option<Time>
        ensures { option_map time_view result
            ≡ (if is_real_time (time_of hour minute second nanosecond)
            then Some (time_of hour minute second nanosecond) else None) }
    {
        let is_real = hour < 24
            && minute < 60
            && second.is_none_or(|second| second < 61)
            && nanosecond.is_none_or(|nanosecond| nanosecond < 1_000_000_000)
            && (second.is_some() || nanosecond.is_none());
        if is_real {
            Some(Time {
                hour,
                minute,
                second,
                nanosecond,
            })
        } else {
            None
        }
    }

    /// Returns the hour, from 0 to 23.
    pub fn hour(&self) -> u8
        ensures { result ≡ (time_view self.now).hour }
    {
        self.hour
    }

    /// Returns the minute, from 0 to 59.
    pub fn minute(&self) -> u8
        ensures { result ≡ (time_view self.now).minute }
    {
        self.minute
    }

    /// Returns the second, from 0 to 60, or `None` if the time was written without one (`07:30`).
    pub fn second(&self) -> Option<u8>
        ensures { result ≡ (time_view self.now).second }
    {
        self.second
    }

    /// Returns the nanosecond within the second, below 1,000,000,000, or `None` if the time has no
    /// fraction of a second.
    pub fn nanosecond(&self) -> Option<u32>
        ensures { result ≡ (time_view self.now).nanosecond }
    {
        self.nanosecond
    }
}
