//! The message about a scalar that is out of range.
ghost use Rattle.std.specs.Prelude.{◌≡◌, false, Contains};
ghost use Rattle.toml_edit_model.specs.Scalars.{Scalar};
ghost use Rattle.toml_edit_model.specs.Spelling.{Spells, is_in_range};
ghost use Rattle.toml_edit_model.specs.Faults as faults;
ghost use Rattle.toml_edit_model.specs.Messages.{fault_messages};

use crate::number::is_integer;

/// Returns the message about a scalar that is spelled so and is out of range: an integer that 64
/// bits do not hold, or a date, a time or an offset that does not exist.
pub fn range_message(text: &str) -> &'static str
    ensures message { (s : Scalar) → Spells s text.now → is_in_range s text.now ≡ false
        → result.now ≡ faults.range_message s }
    // It is one of the listed messages.
    ensures listed { Contains fault_messages result.now }
{
    if is_integer(text.as_bytes()) {
        "integer number overflowed"
    } else {
        "invalid date-time"
    }
}
