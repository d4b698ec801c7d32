//! What is wrong with a text, and the errors that say so.
ghost use Rattle.std.specs.Prelude.{◌≡◌, Contains, None, true};
ghost use Rattle.toml_edit_model.specs.Faults as faults;
ghost use Rattle.toml_edit_model.specs.Faults.{recursion_limit};
ghost use Rattle.toml_edit_model.specs.Messages.{fault_messages};
ghost use Rattle.toml_edit_model.specs.Roles.{Role, extends};
ghost use Rattle.toml_edit_model.specs.Version.{Version, v1_0};
ghost use Rattle.toml_edit_laws.specs.TableClash.{table_way_message};
ghost use Rattle.toml_edit_error.specs.Fault.{IfToml};
ghost use Rattle.toml_edit_syntax.specs.Events.{IsSpanOf};
ghost use Rattle.toml_edit_tree.specs.View.{value_view};
ghost use Rattle.toml_edit_parser.specs.Faults.{fault_message};
ghost use Rattle.toml_edit_parser.specs.Listed.{IsErrorIn, IsErrorOf, IsMessageIn, Says};

use crate::reader::Reader;
use toml_edit_error::ParseFault;
use toml_edit_syntax::Span;
use toml_edit_tree::Value;

/// What is wrong with a text, found in its events.
#[derive(Clone, Copy)]
pub(crate) enum Fault {
    /// A key that exists already.
    DuplicateKey,
    /// A path that goes on through a string.
    ExtendsString,
    /// A path that goes on through an integer.
    ExtendsInteger,
    /// A path that goes on through a float.
    ExtendsFloat,
    /// A path that goes on through a boolean.
    ExtendsBoolean,
    /// A path that goes on through a date or a time.
    ExtendsDatetime,
    /// A path that goes on through an array.
    ExtendsArray,
    /// A path that goes on through an inline table.
    ExtendsInlineTable,
    /// More brackets are open at once, or more keys in a path, than the limit.
    RecursionLimit,
    /// A part that the version of TOML lacks.
    NeedsLaterVersion,
    /// Events that the lexer never makes.
    Malformed,
}

impl Fault {
    /// Returns what is wrong with a path that goes on through this value.
    pub(crate) fn extending(value: &Value) -> Fault
        ensures message { (later : Role) → extends later ≡ true
            → fault_message result ≡ table_way_message later (value_view value.now) }
        // Its message is one of the listed ones.
        ensures listed { Contains fault_messages (fault_message result) }
    {
        match value {
            Value::String(_) => Fault::ExtendsString,
            Value::Integer(_) => Fault::ExtendsInteger,
            Value::Float(_) => Fault::ExtendsFloat,
            Value::Boolean(_) => Fault::ExtendsBoolean,
            Value::Datetime(_) => Fault::ExtendsDatetime,
            Value::Array(_) => Fault::ExtendsArray,
            Value::InlineTable(_) => Fault::ExtendsInlineTable,
        }
    }

    /// Returns the message of the error.
    pub(crate) fn message(self) -> &'static str
        ensures message { result.now ≡ fault_message self }
        // It is one of the listed messages of TOML 1.0, which has them all.
        ensures listed { IsMessageIn v1_0 result.now }
    {
        match self {
            Fault::DuplicateKey => "duplicate key",
            Fault::ExtendsString => "cannot extend value of type string with a dotted key",
            Fault::ExtendsInteger => "cannot extend value of type integer with a dotted key",
            Fault::ExtendsFloat => "cannot extend value of type float with a dotted key",
            Fault::ExtendsBoolean => "cannot extend value of type boolean with a dotted key",
            Fault::ExtendsDatetime => "cannot extend value of type datetime with a dotted key",
            Fault::ExtendsArray => "cannot extend value of type array with a dotted key",
            Fault::ExtendsInlineTable => {
                "cannot extend value of type inline table with a dotted key"
            }
            Fault::RecursionLimit => "recursion limit",
            Fault::NeedsLaterVersion => "needs TOML 1.1",
            Fault::Malformed => "unexpected character",
        }
    }
}

/// Returns the error about what is wrong at the span.
#[cold]
#[inline(never)]
pub(crate) fn refusal(reader: &Reader<'_>, fault: Fault, span: Span) -> ParseFault
    requires { IsSpanOf reader.now.source.now span }
    ensures report { Says reader.now.source.now (fault_message fault) span result }
    // It is an error of each version that has the message.
    ensures refused { (version : Version) → IsMessageIn version (fault_message fault)
        → IfToml result (IsErrorIn version reader.now.source.now) }
{
    refusal_with(reader, fault.message(), span)
}

/// Returns the error with this message, of the lexer or of a scalar that is out of range, about the
/// span.
#[cold]
#[inline(never)]
pub(crate) fn refusal_with(reader: &Reader<'_>, message: &str, span: Span) -> ParseFault
    requires { IsSpanOf reader.now.source.now span }
    ensures report { Says reader.now.source.now message.now span result }
    // It is an error of each version that has the message.
    ensures refused { (version : Version) → IsMessageIn version message.now
        → IfToml result (IsErrorIn version reader.now.source.now) }
{
    toml_edit_error::refusal(
        reader.alloc,
        reader.source,
        message,
        Some((span.start, span.end)),
    )
}

/// Returns the error about a limit that the text passes, which marks no part of it.
#[cold]
#[inline(never)]
pub(crate) fn refusal_of_all(reader: &Reader<'_>) -> ParseFault
    ensures report { IfToml result
        (λ r. r ≡ record { message = recursion_limit; span = None; input = reader.now.source.now }) }
    ensures refused { (version : Version) → IfToml result
        (IsErrorIn version reader.now.source.now) }
{
    toml_edit_error::refusal(
        reader.alloc,
        reader.source,
        Fault::RecursionLimit.message(),
        None,
    )
}

/// Returns the error about a key at this span that exists already.
#[cold]
#[inline(never)]
pub(crate) fn duplicate_key(reader: &Reader<'_>, span: Span) -> ParseFault
    requires { IsSpanOf reader.now.source.now span }
    ensures report { Says reader.now.source.now faults.duplicate_key span result }
    ensures refused { IfToml result (IsErrorOf reader.now.source.now) }
{
    refusal(reader, Fault::DuplicateKey, span)
}

/// Returns the error about events that the lexer never makes.
///
/// It gives the events of the grammar alone, each with those that belong to it, so no text has this
/// error. The type of the events doesn't promise that, so their reader needs a way out.
#[cold]
#[inline(never)]
pub(crate) fn malformed(reader: &Reader<'_>) -> ParseFault
    ensures { IfToml result (IsErrorOf reader.now.source.now) }
{
    let end = reader.source.len();
    refusal(reader, Fault::Malformed, Span { start: end, end })
}
