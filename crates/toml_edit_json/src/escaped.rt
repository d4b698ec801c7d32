//! A sink between quotes.
ghost use Rattle.std.specs.Fmt.{WritesInCalls};
ghost use Rattle.json.specs.Print.{escape};
ghost use Rattle.toml_edit_json.specs.Texts.{written};
ghost use Rattle.toml_edit_json.specs.declared.runs.Form.TheVariants.{Number};
ghost use Rattle.toml_edit_datetime.specs.DatetimeView.{datetime_view};
ghost use Rattle.toml_edit_model.specs.DefaultSpelling.{default_spelling};
ghost use Rattle.toml_edit_model.specs.Scalars.{datetime};

use crate::runs::{Form, put_text};
use toml_edit_datetime::Datetime;
use toml_edit_io::{Printed, Sink};

/// A sink that puts into another one what stands for its bytes between quotes.
#[derive(Drop)]
struct Escaped<'a, S> {
    out: &'a mut S,
}

impl<S: Sink> Sink for Escaped<'_, S> {
    ghost use Rattle.toml_edit_json.specs.Escapes.{Escapes};

    ghost puts = { λ s text t. Escapes S.puts s.out text t.out };

    fn put(&mut self, text: &str) {
        put_text(self.out, text, Form::Quoted)
    }
}

/// Puts the text of a float, as it stands between quotes.
pub(crate) fn put_escaped_float<S: Sink>(out: &mut S, text: &str)
    ensures { WritesInCalls S.puts out.old (escape (written Number text.now)) out.new }
{
    let mut escaped = Escaped { out };
    put_text(&mut escaped, text, Form::Number)
}

/// Puts a date or a time, as it stands between quotes.
pub(crate) fn put_escaped_datetime<S: Sink>(out: &mut S, value: &Datetime)
    ensures { WritesInCalls S.puts out.old
        (escape (default_spelling (datetime (datetime_view value.now)))) out.new }
{
    let mut escaped = Escaped { out };
    value.put_into(&mut escaped)
}
