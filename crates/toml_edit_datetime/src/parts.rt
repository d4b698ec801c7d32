//! The fields of a date-time as they are written, in range or not.

use crate::datetime::Offset;

/// The fields of `YYYY-MM-DD`.
#[derive(Clone, Copy)]
pub(crate) struct DateParts {
    pub(crate) year: u16,
    pub(crate) month: u8,
    pub(crate) day: u8,
}

/// The fields of `hh:mm`, of `hh:mm:ss`, or of that with a fraction.
#[derive(Clone, Copy)]
pub(crate) struct TimeParts {
    pub(crate) hour: u8,
    pub(crate) minute: u8,
    pub(crate) second: Option<u8>,
    pub(crate) nanosecond: Option<u32>,
}

/// An offset, and whether the hours and minutes that it is written with are those of a day.
#[derive(Clone, Copy)]
pub(crate) struct OffsetParts {
    pub(crate) offset: Offset,
    pub(crate) is_real: bool,
}

/// The parts of a date-time.
#[derive(Clone, Copy)]
pub(crate) struct Parts {
    pub(crate) date: Option<DateParts>,
    pub(crate) time: Option<TimeParts>,
    pub(crate) offset: Option<OffsetParts>,
}
