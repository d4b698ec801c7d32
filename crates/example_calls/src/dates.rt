//! Dates, times and floats.
ghost use Rattle.std.specs.Prelude.{◌≡◌, ◌↔◌, IfOk, IfSome, IsFalse, IsSome, IsTrue, None, OnErr, option_map};
ghost use Rattle.example_calls.specs.Dates.{in_utc, year_in, SetsSpelled, SpellsNoDate};
ghost use Rattle.toml_edit.specs.datetime.DatetimeView.{datetime_view};
ghost use Rattle.toml_edit.specs.model.Scalars.{float};
ghost use Rattle.toml_edit.specs.model.Spelling.{IsFloat};
ghost use Rattle.toml_edit.specs.model.Tree.{leaf, unset};
ghost use Rattle.toml_edit.specs.tree.SlotsOf.{slots_of};
ghost use Rattle.toml_edit.specs.tree.View.{value_view};

use crate::adding::no_memory;
use std::alloc::Global;
use toml_edit::{Date, Datetime, DatetimeFault, FloatText, Mem, Offset, Table, Time, Value};

/// Makes a date-time in UTC, or returns `None` if there is no such day or minute.
pub fn utc(year: u16, month: u8, day: u8, hour: u8, minute: u8) -> Option<Datetime>
    ensures { option_map datetime_view result
        ≡ in_utc (record { year = year; month = month; day = day }) hour minute }
{
    let date = Date::new(year, month, day)?;
    let time = Time::new(hour, minute, Some(0), None)?;
    Datetime::new(Some(date), Some(time), Some(Offset::Z))
}

/// Returns the year of a date, with a time or without.
pub fn year_of(value: &Value) -> Option<u16>
    ensures { result ≡ year_in (value_view value.now) }
{
    Some(value.as_datetime()?.date()?.year())
}

/// Inserts the date, the time of day or both that the text spells, or returns `false`.
pub fn set_date_time(table: &mut Table, key: &str, text: &str) -> Mem<bool>
    ensures set { IfOk result (λ is_set. IsTrue is_set
        → SetsSpelled key.now text.now (slots_of table.old) (slots_of table.new)) }
    ensures refused { IfOk result (λ is_set. IsFalse is_set
        → SpellsNoDate text.now × (table.new ≡ table.old)) }
    ensures err { OnErr result (table.new ≡ table.old) }
{
    match text.parse::<Datetime>() {
        Ok(datetime) => {
            let item = toml_edit::value(datetime);
            drop(table.insert(key, item).map_err(no_memory)?);
            Ok(true)
        }
        Err(DatetimeFault) => Ok(false),
    }
}

/// Makes a float of the text that spells it, such as `1e-9`, or returns `None`.
pub fn float_of(alloc: Global, text: &str) -> Mem<Option<Value>>
    ensures float { IfOk result (λ made. IsSome made ↔ IsFloat text.now) }
    ensures value { IfOk result (λ made. IfSome made (λ value.
        value_view value ≡ leaf (float text.now) None unset)) }
{
    match FloatText::from_text(alloc, text)? {
        Some(float) => Ok(Some(Value::from(float))),
        None => Ok(None),
    }
}
