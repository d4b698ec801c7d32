//! Dates and times of TOML, and floats as texts.
#![tactic(auto)]

pub mod date;
pub mod datetime;
mod display;
pub mod float_text;
mod from_str;
mod parts;
mod reading;
pub mod time;

pub use date::Date;
pub use datetime::{Datetime, DatetimeFault, Offset};
pub use float_text::{FloatText, is_float};
pub use from_str::is_datetime;
pub use time::Time;
