//! Writing an excerpt of a text, as an error shows one.
ghost use Rattle.std.specs.Prelude.{◌≡◌, ◌≤◌, ◌+◌, ◌++◌, codes, decimal, length, replicate, slice_index};
ghost use Rattle.std.specs.Fmt.{WritesOnOk};
ghost use Rattle.toml_edit_model.specs.Excerpt.{spaces};
ghost use Rattle.toml_edit_model.specs.Text.{newline};
ghost use Rattle.toml_edit_error.specs.Place.{place_text};

use crate::place::Place;
use std::fmt;
use std::fmt::{Formatter, Write};

/// An excerpt of a text under a title of the caller's, which marks a span and says something of it.
///
/// `Display` writes it as it writes a [`TomlError`](crate::TomlError) under `TOML parse error`: the
/// title with the line and the column of the span, the line of the text that it begins in, with
/// marks below the characters of the span, and then the message. Each line ends in a line feed
/// (LF).
///
/// Any span will do. Lines and columns are those of [`line_column`](crate::line_column); a span
/// that ends before it begins has one mark.
#[derive(Clone, Copy, Debug, Drop)]
pub struct Excerpt<'a> {
    /// What stands before the line and the column.
    pub title: &'a str,
    /// The text.
    pub source: &'a str,
    /// The bytes of the text that are marked, from the first number up to the second.
    pub span: (usize, usize),
    /// The message about the span.
    pub message: &'a str,
}

impl fmt::Display for Excerpt<'_> {
    ghost use Rattle.std.specs.Prelude.{Some};
    ghost use Rattle.toml_edit_model.specs.Excerpt.{excerpt_under};

    ghost output = { λ e. Some
        (excerpt_under e.title.now e.source.now e.span.0 e.span.1 e.message.now) };

    fn fmt<W: fmt::Write>(&self, f: &mut fmt::Formatter<W>) -> fmt::Result {
        let (start, end) = self.span;
        let place = Place::new(self.source, start, end);
        write_place(f, self.title, &place)?;
        write_message(f, self.message)
    }
}

/// Writes the message, and a line feed (LF).
pub fn write_message<W: Write>(f: &mut Formatter<W>, message: &str) -> fmt::Result
    ensures { WritesOnOk W.write_str_gives f.old result (message.now ++ newline) f.new }
{
    f.write_str(message)?;
    f.write_str("\n")
}

/// Writes the title with the line and the column, the line itself, and the marks below it.
fn write_place<W: Write>(f: &mut Formatter<W>, title: &str, place: &Place<'_>) -> fmt::Result
    ensures { WritesOnOk W.write_str_gives f.old result
        (place_text title.now place.now.line place.now.column place.now.content.now
        place.now.marks) f.new }
{
    let width = digit_count(place.line) + 1;
    writeln!(
        f,
        "{} at line {}, column {}",
        title, place.line, place.column
    )?;
    write_gutter(f, width)?;
    f.write_str("\n")?;
    write_line(f, place)?;
    write_gutter(f, width)?;
    write_marks(f, place)
}

/// Writes the number of the line, and the line.
fn write_line<W: Write>(f: &mut Formatter<W>, place: &Place<'_>) -> fmt::Result
    ensures { WritesOnOk W.write_str_gives f.old result
        (decimal place.now.line ++ (codes " | " ++ (place.now.content.now ++ newline))) f.new }
{
    writeln!(f, "{} | {}", place.line, place.content)
}

/// Writes `width` spaces and a bar, so that the bars of all lines are below one another.
fn write_gutter<W: Write>(f: &mut Formatter<W>, width: usize) -> fmt::Result
    ensures { WritesOnOk W.write_str_gives f.old result (spaces width ++ codes "|") f.new }
{
    write_repeated(f, " ", width)?;
    f.write_str("|")
}

/// Writes a mark below each character of the span, as far as it is in the line, and at least one.
fn write_marks<W: Write>(f: &mut Formatter<W>, place: &Place<'_>) -> fmt::Result
    ensures { WritesOnOk W.write_str_gives f.old result
        (spaces place.now.column ++ (replicate place.now.marks 0x5E ++ newline)) f.new }
{
    write_repeated(f, " ", place.column)?;
    write_repeated(f, "^", place.marks)?;
    f.write_str("\n")
}

/// Writes a character of one byte `count` times.
fn write_repeated<W: Write>(f: &mut Formatter<W>, character: &str, count: usize) -> fmt::Result
    requires { length character.now ≡ 1 }
    ensures { WritesOnOk W.write_str_gives f.old result
        (replicate count (slice_index character.now 0)) f.new }
{
    for _i in 0..count {
        f.write_str(character)?;
    }
    Ok(())
}

/// Returns the number of decimal digits of a number.
fn digit_count(number: usize) -> usize
    ensures digits { result ≡ length (decimal number) }
    ensures bound { result ≤ 20 }
{
    let mut count = 1;
    let mut rest = number;
    while rest >= 10 {
        rest /= 10;
        count += 1;
    }
    count
}
