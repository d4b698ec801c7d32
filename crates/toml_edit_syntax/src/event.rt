//! Spans and events, the parts of a text in its order.
ghost use Rattle.std.specs.Prelude.{◌≡◌};
ghost use Rattle.toml_edit_model.specs.OwnedForm.{cut_out};
ghost use Rattle.toml_edit_syntax.specs.Events.{IsSpanOf};

/// A part of a text in bytes, from `start` up to `end`.
#[derive(Clone, Copy, Debug, PartialEq, Eq)]
pub struct Span {
    pub start: usize,
    pub end: usize,
}

/// The kinds of the parts of a text.
#[derive(Clone, Copy, Debug, PartialEq, Eq)]
pub enum EventKind {
    /// The whitespace, newlines and comments before a statement, or before a pair of an inline
    /// table.
    Leading,
    /// A simple key, as it is spelled.
    Key,
    /// The whitespace between a simple key and the dot after it.
    BeforeDot,
    /// The whitespace between a dot and the simple key after it.
    AfterDot,
    /// The sign `=` between a key and a value. All else between them is whitespace.
    Equals,
    /// A scalar, as it is spelled.
    Scalar,
    /// The bracket that opens an array.
    ArrayOpen,
    /// The bracket that closes an array.
    ArrayClose,
    /// The bracket that opens an inline table.
    InlineTableOpen,
    /// The bracket that closes an inline table.
    InlineTableClose,
    /// The whitespace, newlines and comments before an element of an array.
    Before,
    /// The whitespace, newlines and comments after an element of an array, or after a pair of an
    /// inline table.
    After,
    /// The comma after the last element or pair.
    Comma,
    /// The whitespace, newlines and comments before a closing bracket, after a comma or in empty
    /// brackets.
    Inner,
    /// An opening bracket inside as many as may be open. Nothing follows it.
    TooDeep,
    /// The bracket that opens the header of a table.
    HeaderOpen,
    /// The two brackets that open the header of an array's element.
    ArrayHeaderOpen,
    /// The whitespace between the opening brackets of a header and its key.
    BeforeKey,
    /// The whitespace between the key of a header and its closing brackets.
    AfterKey,
    /// The bracket that closes the header of a table, or the two that close that of an array's
    /// element.
    HeaderClose,
    /// The whitespace and the comment after a statement.
    LineEnd,
    /// The whitespace and the comments after the last statement.
    Final,
}

/// A part of a text with its span.
#[derive(Clone, Copy, Debug, PartialEq, Eq)]
pub struct Event {
    pub kind: EventKind,
    pub span: Span,
}

/// Returns the bytes of the source at the span.
pub fn text_at(source: &str, span: Span) -> &str
    requires { IsSpanOf source.now span }
    ensures { result.now ≡ cut_out source.now span.start span.end }
{
    &source[span.start..span.end]
}
