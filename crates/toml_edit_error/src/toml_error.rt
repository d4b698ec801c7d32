//! Errors of parsing.
ghost use Rattle.std.specs.Prelude.{◌≡◌, ◌↔◌, IfOk, IsTrue, option_map, string_bytes, suc};
ghost use Rattle.toml_edit_model.specs.Excerpt.{position_in};
ghost use Rattle.toml_edit_error.specs.Fault.{IfToml};
ghost use Rattle.toml_edit_error.specs.Report.{SpanIsIn, report};

use crate::excerpt::{Excerpt, write_message};
use crate::place::line_column;
use std::alloc::{AllocError, AllocFailed, Global};
use std::error::Error;
use std::fmt;
use std::hash::{Hash, Hasher};
use std::marker::Model;
use std::ops::Range;

/// The error of a text that is refused: a message, mostly with the span that it is about.
///
/// It owns a copy of the text, of which `Display` shows the line with the span marked below it.
/// docs/ERRORS.md lists the messages.
///
/// # Examples
///
/// ```rust,ignore
/// Err(ParseFault::Toml(error)) => error.to_string(alloc),
/// ```
///
/// From `report` of the crate `example_calls`.
#[derive(Debug)]
pub struct TomlError {
    // In a box, so that the result of a call that mostly succeeds is no larger for its error.
    parts: Box<Parts>,
}

// By hand, so that a crate that drops an error proves one call.
impl Drop for TomlError {
    fn drop(self) {
        let TomlError { parts } = self;
        drop(parts);
    }
}

/// The parts of an error, which are boxed.
#[derive(Debug, Drop)]
struct Parts {
    message: String,
    span: Option<(usize, usize)>,
    input: String,
}

impl Model for TomlError {
    ghost use Rattle.std.specs.Prelude.{string_bytes};
    ghost use Rattle.toml_edit_error.specs.Report.{Report, SpanIsIn};

    ghost Value = { Report };

    ghost view = { λ a. record {
      message = string_bytes a.parts.value.message;
      span = a.parts.value.span;
      input = string_bytes a.parts.value.input;
    } };

    ghost invariant = { λ a. ∥ SpanIsIn (string_bytes a.parts.value.input) a.parts.value.span ∥₁ };
}

impl TomlError {
    /// Makes an error of a message about the bytes of `input` in the span, if there is one.
    ///
    /// # Errors
    ///
    /// Returns an `AllocError` if out of memory.
    pub fn new(
        alloc: Global,
        message: String,
        span: Option<(usize, usize)>,
        input: String,
    ) -> Result<TomlError, AllocError>
        requires { ∥ SpanIsIn (string_bytes input) span ∥₁ }
        ensures { IfOk result (λ e. e ≡ report (string_bytes message) span (string_bytes input)) }
    {
        let parts = Parts {
            message,
            span,
            input,
        };
        Ok(TomlError {
            parts: Box::new(alloc, parts)?,
        })
    }

    /// Returns the message, without the excerpt of the text.
    ///
    /// For both, use `Display`.
    pub fn message(&self) -> &str
        ensures { result.now ≡ self.now.message }
    {
        self.parts.message.as_str()
    }

    /// Returns the bytes of the text that the message is about, or `None` if it is about no place.
    ///
    /// The span lies in the text, and begins and ends between characters.
    pub fn span(&self) -> Option<Range<usize>>
        ensures span { option_map (λ r. (r.start, r.end)) result ≡ self.now.span }
        ensures within { ∥ SpanIsIn self.now.input self.now.span ∥₁ }
    {
        self.parts.span.map(|(start, end)| start..end)
    }

    /// Returns the line in which the span begins, from 1, or `None` if there is no span.
    pub fn line(&self) -> Option<usize>
        ensures { result
            ≡ option_map (λ s. suc (position_in self.now.input s.0).line) self.now.span }
    {
        let (start, _) = self.parts.span?;
        Some(line_column(self.parts.input.as_str(), start).0)
    }

    /// Returns the column at which the span begins, from 1 and in characters, or `None` if there is
    /// no span.
    ///
    /// For the line and the column of any byte of a text, see [`line_column`].
    pub fn column(&self) -> Option<usize>
        ensures { result
            ≡ option_map (λ s. suc (position_in self.now.input s.0).column) self.now.span }
    {
        let (start, _) = self.parts.span?;
        Some(line_column(self.parts.input.as_str(), start).1)
    }

    /// Returns an equal copy, with its message, its span and its text.
    ///
    /// # Errors
    ///
    /// Returns an `AllocError` if out of memory.
    pub fn clone(&self, alloc: Global) -> Result<TomlError, AllocError>
        ensures { IfOk result (λ copy. copy ≡ self.now) }
    {
        error(
            alloc,
            self.parts.input.as_str(),
            self.parts.message.as_str(),
            self.parts.span,
        )
    }
}

/// Compares messages, spans and texts.
impl PartialEq for TomlError {
    ghost use Rattle.toml_edit_error.specs.Sameness.{same_report};
    ghost use Rattle.toml_edit_error.specs.SamenessLaws.{same_report_partial_equiv};

    ghost eq = { same_report };

    ghost laws = { same_report_partial_equiv };

    fn eq(&self, other: &TomlError) -> bool
        ensures answer { result ≡ same_report self.now other.now }
        ensures exact { IsTrue result ↔ (self.now ≡ other.now) }
    {
        self.parts.message == other.parts.message
            && self.parts.span == other.parts.span
            && self.parts.input == other.parts.input
    }
}

impl Eq for TomlError {
    ghost use Rattle.toml_edit_error.specs.SamenessLaws.{same_report_equiv};

    ghost laws = { same_report_equiv };
}

impl Hash for TomlError {
    ghost use Rattle.toml_edit_error.specs.Sameness.{report_hash_input};
    ghost use Rattle.toml_edit_error.specs.SamenessLaws.{report_hash_respects};

    ghost hash_input = { report_hash_input };

    ghost respects_eq = { report_hash_respects };

    fn hash<H: Hasher>(&self, state: &mut H) {
        self.parts.message.hash(state);
        self.parts.span.hash(state);
        self.parts.input.hash(state);
    }
}

/// Writes the line and the column of the span, the line of the text that it begins in, with marks
/// below the characters of the span, and then the message.
///
/// Without a span it writes the message alone. Each line ends in a line feed (LF), and lines and
/// columns count from 1, columns in characters. For the message alone, see
/// [`message`](TomlError::message); for a title of your own, [`Excerpt`].
impl fmt::Display for TomlError {
    ghost use Rattle.std.specs.Prelude.{Some};
    ghost use Rattle.toml_edit_model.specs.Excerpt.{excerpt};

    ghost output = { λ e. Some (excerpt e.input e.span e.message) };

    fn fmt<W: fmt::Write>(&self, f: &mut fmt::Formatter<W>) -> fmt::Result {
        match self.parts.span {
            Some(span) => {
                let excerpt = Excerpt {
                    title: "TOML parse error",
                    source: self.parts.input.as_str(),
                    span,
                    message: self.parts.message.as_str(),
                };
                excerpt.fmt(f)
            }
            None => write_message(f, self.parts.message.as_str()),
        }
    }
}

impl Error for TomlError {}

/// The error of a call that parses a text. See the example of [`TomlError`].
///
/// # Examples
///
/// ```rust,ignore
/// Ok(_document) => Ok(String::new(alloc)),
/// Err(ParseFault::Toml(error)) => error.to_string(alloc),
/// Err(ParseFault::Memory) => Err(AllocError),
/// ```
///
/// From `report` of the crate `example_calls`.
#[derive(Debug, Drop)]
pub enum ParseFault {
    /// The text is refused.
    Toml(TomlError),
    /// Out of memory.
    Memory,
}

/// Writes the error as [`TomlError`] does, or `out of memory` and a line feed (LF).
impl fmt::Display for ParseFault {
    ghost use Rattle.std.specs.Prelude.{Some};
    ghost use Rattle.toml_edit_error.specs.Fault.{fault_text};

    ghost output = { λ e. Some (fault_text e) };

    fn fmt<W: fmt::Write>(&self, f: &mut fmt::Formatter<W>) -> fmt::Result {
        match self {
            ParseFault::Toml(error) => error.fmt(f),
            ParseFault::Memory => f.write_str("out of memory\n"),
        }
    }
}

impl Error for ParseFault {}

/// Converts the error into [`ParseFault::Memory`].
impl From<AllocError> for ParseFault {
    ghost use Rattle.std.specs.Prelude.{◌≡◌};
    ghost use Rattle.toml_edit_error.specs.declared.toml_error.ParseFault.TheVariants.{Memory};

    ghost from_gives = { λ _ e. e ≡ Memory };

    fn from(_refused: AllocError) -> ParseFault {
        ParseFault::Memory
    }
}

/// Converts the error into [`ParseFault::Memory`], and drops the value that it has.
impl<T: Drop> From<AllocFailed<T>> for ParseFault {
    ghost use Rattle.std.specs.Prelude.{◌≡◌};
    ghost use Rattle.toml_edit_error.specs.declared.toml_error.ParseFault.TheVariants.{Memory};

    ghost from_gives = { λ _ e. e ≡ Memory };

    fn from(_refused: AllocFailed<T>) -> ParseFault {
        ParseFault::Memory
    }
}

/// Returns the fault of a text that is refused with a message about the bytes in the span, if there
/// is one.
///
/// The error holds copies of text and message. If there is no memory for them, it is
/// `ParseFault::Memory`.
pub fn refusal(alloc: Global, text: &str, message: &str, span: Option<(usize, usize)>) -> ParseFault
    requires { ∥ SpanIsIn text.now span ∥₁ }
    ensures { IfToml result
        (λ r. r ≡ record { message = message.now; span = span; input = text.now }) }
{
    match error(alloc, text, message, span) {
        Ok(error) => ParseFault::Toml(error),
        Err(_) => ParseFault::Memory,
    }
}

/// Makes an error of copies of text and message, or returns an `AllocError` if out of memory.
fn error(
    alloc: Global,
    text: &str,
    message: &str,
    span: Option<(usize, usize)>,
) -> Result<TomlError, AllocError>
    requires { ∥ SpanIsIn text.now span ∥₁ }
    ensures { IfOk result
        (λ r. r ≡ record { message = message.now; span = span; input = text.now }) }
{
    let message = String::from_str(alloc, message)?;
    let input = String::from_str(alloc, text)?;
    TomlError::new(alloc, message, span, input)
}
