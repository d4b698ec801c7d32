//! Floats, dates and times as scalar values.
use crate::repr::{Repr, ScalarValue, ValueRepr, default_repr_of};
use std::alloc::Global;
use toml_edit_datetime::{Datetime, FloatText};
use toml_edit_io::{Printed, Sink};
use toml_edit_text::{Mem, RawString};

impl ScalarValue for FloatText {
    ghost use Rattle.toml_edit_model.specs.Scalars.{float};

    ghost scalar = { float };

    fn put_default<S: Sink>(&self, out: &mut S) {
        out.put(self.as_str())
    }

    fn copy(&self, alloc: Global) -> Mem<FloatText> {
        self.clone(alloc)
    }
}

impl ValueRepr for FloatText {
    ghost use Rattle.toml_edit_model.specs.Scalars.{float};
    ghost use Rattle.toml_edit_model.specs.Spelling.{SpellsInRange};

    ghost spells = { λ t value. SpellsInRange (float value) t };

    ghost spells_scalar = { λ t x. (λ spelled. spelled, λ spelled. spelled) };

    fn to_repr(&self, alloc: Global) -> Mem<Repr> {
        Ok(Repr::new(RawString::from_text(alloc, self.as_str())?))
    }
}

impl ScalarValue for Datetime {
    ghost use Rattle.toml_edit_model.specs.Scalars.{datetime};
    ghost use Rattle.toml_edit_datetime.specs.DatetimeView.{datetime_view};

    ghost scalar = { λ value. datetime (datetime_view value) };

    fn put_default<S: Sink>(&self, out: &mut S) {
        self.put_into(out)
    }

    fn copy(&self, _alloc: Global) -> Mem<Datetime> {
        Ok(*self)
    }
}

impl ValueRepr for Datetime {
    ghost use Rattle.toml_edit_model.specs.Scalars.{datetime};
    ghost use Rattle.toml_edit_model.specs.Spelling.{SpellsInRange};
    ghost use Rattle.toml_edit_datetime.specs.DatetimeView.{datetime_view};

    ghost spells = { λ t value. SpellsInRange (datetime (datetime_view value)) t };

    ghost spells_scalar = { λ t x. (λ spelled. spelled, λ spelled. spelled) };

    fn to_repr(&self, alloc: Global) -> Mem<Repr> {
        default_repr_of(alloc, self)
    }
}
