//! The comments of a decor: those before a key, a value or a header, and the one after it.
ghost use Rattle.std.specs.Prelude.{◌≡◌, ◌<◌, [], ◌∷◌, ◌++◌, if◌then◌else◌, IfOk, IfSome, IsTrue, MatchOption, OnErr, OnOk, Some, None, is_none, length, string_bytes, take, take_while};
ghost use Rattle.std.specs.List.{list_all, prefix_len};
ghost use Rattle.std.specs.Option.{option_copied};
ghost use Rattle.std.specs.Str.{IsCharBoundary};
ghost use Rattle.toml_edit_model.specs.Comments.{after_first_line, before_comment, body_in, comments, end_of_words, first_comment, first_line, last_newline, lines, side_text, with_comment_line, with_first_comment, without_comments, words};
ghost use Rattle.toml_edit_model.specs.Text.{has_byte, line_feed};
ghost use Rattle.toml_edit_model.specs.Trivia.{is_blank, is_visible};
ghost use Rattle.toml_edit_repr.specs.CommentPlaces.{IsHashPlace};

use crate::repr::Decor;
use crate::write::side_text;
use memchr::{memchr, memrchr};
use std::alloc::{AllocError, Global};
use std::error::Error;
use std::fmt;
use toml_edit_text::{Mem, RawString};

/// The error of a change of a comment that is refused.
#[derive(Clone, Copy, Debug, PartialEq, Eq, Hash)]
pub enum CommentFault {
    /// The text has a control character other than tab, such as a newline.
    Text,
    /// Memory ran out.
    Memory,
}

/// Writes `invalid comment` or `out of memory`.
impl fmt::Display for CommentFault {
    ghost use Rattle.std.specs.Prelude.{Some};
    ghost use Rattle.toml_edit_repr.specs.Comments.{fault_text};

    ghost output = { λ fault. Some (fault_text fault) };

    fn fmt<W: fmt::Write>(&self, f: &mut fmt::Formatter<W>) -> fmt::Result {
        match self {
            CommentFault::Text => f.write_str("invalid comment"),
            CommentFault::Memory => f.write_str("out of memory"),
        }
    }
}

impl Error for CommentFault {}

/// Returns `CommentFault::Memory`, so that `?` passes on that memory ran out.
impl From<AllocError> for CommentFault {
    ghost use Rattle.std.specs.Prelude.{◌≡◌};
    ghost use Rattle.toml_edit_repr.specs.declared.comments.CommentFault.TheVariants.{Memory};

    ghost from_gives = { λ _ fault. fault ≡ Memory };

    fn from(_refused: AllocError) -> CommentFault {
        CommentFault::Memory
    }
}

/// An iterator over the comments before a key, a value or a header, in order.
///
/// Returned by [`Decor::comments_before`].
#[derive(Drop)]
pub struct Comments<'a> {
    // the lines that are left
    rest: &'a str,
}

impl<'a> Iterator for Comments<'a> {
    ghost use Rattle.std.specs.Iterator.{YieldsFirstRef, item_count};
    ghost use Rattle.toml_edit_repr.specs.CommentsLeft.{comments_left};

    type Item = &'a str;

    ghost next_gives = { YieldsFirstRef comments_left };

    ghost remaining = { item_count comments_left };

    fn next(&mut self) -> Option<&'a str> {
        let (comment, rest) = next_comment(self.rest)?;
        self.rest = rest;
        Some(comment)
    }
}

impl Decor {
    ghost use Rattle.toml_edit_model.specs.Comments.{AreBodies, comment_after, comments_before, with_comment_after, with_comment_before, without_comments_before};
    ghost use Rattle.toml_edit_model.specs.Fits.{EndsLine};
    ghost use Rattle.toml_edit_model.specs.Mode.{Mode};
    ghost use Rattle.toml_edit_model.specs.Tree.{shown_prefix, shown_suffix};
    ghost use Rattle.toml_edit_model.specs.Trivia.{IsWholeTrivia};
    ghost use Rattle.toml_edit_repr.specs.Comments.{PutsComment};
    ghost use Rattle.toml_edit_repr.specs.CommentsLeft.{comments_left};

    /// Returns the comments before the key, value or header, in order.
    ///
    /// Each is the text after the `#` up to the end of its line. Nothing is trimmed. A side that is
    /// unset or a span has none.
    pub fn comments_before(&self) -> Comments<'_>
        ensures lines { comments_left result ≡ comments_before self.now }
        ensures pieces { AreBodies (side_text self.now.prefix) (comments_left result) }
    {
        Comments {
            rest: text_of_side(self.prefix()),
        }
    }

    /// Returns the comment after the key, value or header, or `None` if there is none on its line.
    ///
    /// It is the text after the `#` up to the end of the line. Nothing is trimmed. A side that is
    /// unset or a span has none.
    pub fn comment_after(&self) -> Option<&str>
        ensures { option_copied result ≡ comment_after self.now }
    {
        first_comment(text_of_side(self.suffix()))
    }

    /// Sets the comment after the key, value or header, or removes it if `comment` is `None`.
    ///
    /// The comment is the text after the `#`, which is added here. White space before an old
    /// comment stays, and is removed with the comment. A comment where there was none is put after
    /// one space. A side that is unset or a span counts as empty.
    ///
    /// A comment suits the end of a line: the suffix of a header, of a value that is not inside an
    /// array or an inline table, or one that has a newline.
    ///
    /// # Errors
    ///
    /// Fails with [`CommentFault::Text`] if the comment has a control character other than tab,
    /// such as a newline, and with [`CommentFault::Memory`] if out of memory. The decor is
    /// unchanged then.
    pub fn set_comment_after(
        &mut self,
        alloc: Global,
        comment: Option<&str>,
    ) -> Result<(), CommentFault>
        ensures changes { PutsComment (option_copied comment.entry)
            (with_comment_after (option_copied comment.entry) self.old) self.old self.new result }
        ensures suits { (mode : Mode) → EndsLine mode (shown_suffix mode [] self.old)
            → EndsLine mode (shown_suffix mode [] self.new) }
        ensures inside { (mode : Mode) → IsTrue (has_byte line_feed (side_text self.old.suffix))
            → IsWholeTrivia (shown_suffix mode [] self.old)
            → IsWholeTrivia (shown_suffix mode [] self.new) }
    {
        match comment {
            Some(comment) => self.put_comment_after(alloc, comment),
            None => self.remove_comment_after(alloc),
        }
    }

    /// Sets the comment after the key, value or header.
    fn put_comment_after(&mut self, alloc: Global, comment: &str) -> Result<(), CommentFault>
        ensures { PutsComment (Some comment.now) (with_comment_after (Some comment.now) self.old)
            self.old self.new result }
    {
        if !is_comment(comment) {
            return Err(CommentFault::Text);
        }
        let suffix = put_first_comment(alloc, text_of_side(self.suffix()), comment)?;
        self.set_suffix(RawString::from_string(suffix)?);
        Ok(())
    }

    /// Removes the comment after the key, value or header, if there is one.
    fn remove_comment_after(&mut self, alloc: Global) -> Result<(), CommentFault>
        ensures { PutsComment None (with_comment_after None self.old) self.old self.new result }
    {
        let text = text_of_side(self.suffix());
        if first_comment(text).is_none() {
            return Ok(());
        }
        let (_, after) = split_first_line(text);
        let suffix = RawString::from_text(alloc, after)?;
        self.set_suffix(suffix);
        Ok(())
    }

    /// Adds a comment on a line of its own before the line of the key, value or header.
    ///
    /// The comment is the text after the `#`, which is added here. The new line is indented as the
    /// line of the key, value or header is, and ends as the line before it does: in CR LF, or else in
    /// LF. A side that is unset or a span counts as empty.
    ///
    /// # Errors
    ///
    /// Fails with [`CommentFault::Text`] if the comment has a control character other than tab,
    /// such as a newline, and with [`CommentFault::Memory`] if out of memory. The decor is
    /// unchanged then.
    pub fn add_comment_before(&mut self, alloc: Global, comment: &str) -> Result<(), CommentFault>
        ensures changes { PutsComment (Some comment.now)
            (with_comment_before comment.now self.old) self.old self.new result }
        ensures suits { (mode : Mode) → IsWholeTrivia (shown_prefix mode [] self.old)
            → IsWholeTrivia (shown_prefix mode [] self.new) }
    {
        if !is_comment(comment) {
            return Err(CommentFault::Text);
        }
        let prefix = add_comment_line(alloc, text_of_side(self.prefix()), comment)?;
        let raw = RawString::from_string(prefix)?;
        self.set_prefix(raw);
        Ok(())
    }

    /// Removes the comments before the key, value or header, each with its line.
    ///
    /// Empty lines stay, and so does the indentation of the key, value or header. In an array the
    /// first line of a value's prefix is the rest of the line of the value before it, so a comment
    /// there is removed too: it is the `line_comment` of that value.
    ///
    /// # Errors
    ///
    /// Returns an `AllocError` if out of memory, and then leaves the decor as it was.
    pub fn remove_comments_before(&mut self, alloc: Global) -> Mem<()>
        ensures ok { OnOk result (self.new ≡ without_comments_before self.old) }
        ensures err { OnErr result (self.new ≡ self.old) }
        ensures suits { (mode : Mode) → IsWholeTrivia (shown_prefix mode [] self.old)
            → IsWholeTrivia (shown_prefix mode [] self.new) }
    {
        let Some(text) = side_text(self.prefix()) else {
            return Ok(());
        };
        let prefix = remove_comment_lines(alloc, text)?;
        let raw = RawString::from_string(prefix)?;
        self.set_prefix(raw);
        Ok(())
    }
}

/// Returns the text of a side of a decor, which is empty if the side is unset or a span.
fn text_of_side(side: Option<&RawString>) -> &str
    ensures { result.now ≡ side_text (option_copied side.entry) }
{
    side_text(side).unwrap_or("")
}

/// Returns `true` if the text can be a comment: it has no control character but tab.
fn is_comment(text: &str) -> bool
    ensures { result ≡ list_all is_visible text.now }
{
    text.as_bytes()
        .iter()
        .all(|byte| *byte == b'\t' || (*byte >= 32 && *byte != 127))
}

/// Splits off the first line, with its newline, or returns `None` if the text is empty.
#[doc(hidden)]
pub fn split_line(text: &str) -> Option<(&str, &str)>
    ensures parts { MatchOption result (lines text.now ≡ [])
        (λ p. lines text.now ≡ p.0.now ∷ lines p.1.now) }
    ensures shorter { IfSome result (λ p. length p.1.now < length text.now) }
{
    if text.is_empty() {
        return None;
    }
    match memchr(b'\n', text.as_bytes()) {
        Some(at) => Some(text.split_at(at + 1)),
        None => Some((text, "")),
    }
}

/// Returns the first comment of the text and the lines after it, or `None` if it has no comment.
fn next_comment(text: &str) -> Option<(&str, &str)>
    ensures { MatchOption result (comments text.now ≡ [])
        (λ p. comments text.now ≡ p.0.now ∷ comments p.1.now) }
{
    let mut rest = text;
    'lines: while let Some((line, after)) = split_line(rest) {
        if let Some(comment) = first_comment(line) {
            return Some((comment, after));
        }
        rest = after;
    }
    None
}

/// Splits the text where the newline of its first line begins.
#[doc(hidden)]
pub fn split_first_line(text: &str) -> (&str, &str)
    ensures line { result.0.now ≡ first_line text.now }
    ensures after { result.1.now ≡ after_first_line text.now }
{
    text.split_at(first_line_len(text))
}

/// Returns the place where the newline of the first line begins.
fn first_line_len(text: &str) -> usize
    ensures boundary { IsCharBoundary text.now result }
    ensures line { first_line text.now ≡ take result text.now }
{
    let bytes = text.as_bytes();
    let end = memchr(b'\n', bytes).unwrap_or(bytes.len());
    if end == 0 || bytes[end - 1] != b'\r' {
        return end;
    }
    end - 1
}

/// Returns the comment of the first line, if it has one.
#[doc(hidden)]
pub fn first_comment(text: &str) -> Option<&str>
    ensures { option_copied result ≡ first_comment text.now }
{
    body_in(split_first_line(text).0)
}

/// Returns the comment of a line, if it has one.
fn body_in(line: &str) -> Option<&str>
    ensures { option_copied result ≡ body_in line.now }
{
    let at = hash_place(line)?;
    Some(line.split_at(at + 1).1)
}

/// Returns the place of the `#` of a line's comment, if it has one.
fn hash_place(line: &str) -> Option<usize>
    ensures { IsHashPlace line.now result }
{
    let bytes = line.as_bytes();
    for (at, byte) in bytes.iter().enumerate() {
        if *byte == b'#' {
            return Some(at);
        }
        if !is_blank(*byte) {
            return None;
        }
    }
    None
}

/// Returns the place where the white space that the text ends in begins.
#[doc(hidden)]
pub fn end_of_words(text: &str) -> usize
    ensures boundary { IsCharBoundary text.now result }
    ensures place { result ≡ end_of_words text.now }
{
    let bytes = text.as_bytes();
    let mut end = bytes.len();
    'blanks: while end > 0 && is_blank(bytes[end - 1]) {
        end -= 1;
    }
    end
}

/// Splits the text where the white space that it begins with ends.
#[doc(hidden)]
pub fn split_white(text: &str) -> (&str, &str)
    ensures white { result.0.now ≡ take_while is_blank text.now }
    ensures words { result.1.now ≡ words text.now }
{
    text.split_at(white_len(text))
}

/// Returns the place where the white space that the text begins with ends.
fn white_len(text: &str) -> usize
    ensures boundary { IsCharBoundary text.now result }
    ensures place { result ≡ prefix_len is_blank text.now }
{
    let bytes = text.as_bytes();
    for (at, byte) in bytes.iter().enumerate() {
        if !is_blank(*byte) {
            return at;
        }
    }
    text.len()
}

/// Returns the last newline of the text, or LF if it has none.
fn last_newline(text: &str) -> &str
    ensures { result.now ≡ last_newline text.now }
{
    let bytes = text.as_bytes();
    let end = memrchr(b'\n', bytes).unwrap_or(0);
    if end == 0 || bytes[end - 1] != b'\r' {
        return "\n";
    }
    "\r\n"
}

/// Returns `true` if the byte is a space or a tab.
fn is_blank(byte: u8) -> bool
    ensures { result ≡ is_blank byte }
{
    byte == b' ' || byte == b'\t'
}

/// Returns what is before a comment that is put on the line, in two parts.
fn before_comment(line: &str) -> (&str, &str)
    ensures { result.0.now ++ result.1.now ≡ before_comment line.now }
{
    match hash_place(line) {
        Some(at) => {
            let parts = line.split_at(at);
            (parts.0, "")
        }
        None => {
            let words = line.split_at(end_of_words(line));
            (words.0, " ")
        }
    }
}

/// Returns the text with this comment on its first line.
fn put_first_comment(alloc: Global, text: &str, comment: &str) -> Mem<String>
    ensures { IfOk result (λ new. string_bytes new ≡ with_first_comment comment.now text.now) }
{
    let (line, after) = split_first_line(text);
    let (before, space) = before_comment(line);
    let changed = [before, space, "#", comment, after].concat(alloc)?;
    Ok(changed)
}

/// Returns the text with one more line, which has this comment.
fn add_comment_line<'a>(alloc: Global, text: &'a str, comment: &'a str) -> Mem<String>
    ensures { IfOk result (λ new. string_bytes new ≡ with_comment_line comment.now text.now) }
{
    let (_, indent) = text.split_at(end_of_words(text));
    let changed = [text, "#", comment, last_newline(text), indent].concat(alloc)?;
    Ok(changed)
}

/// Returns the text without the lines that have comments.
fn remove_comment_lines(alloc: Global, text: &str) -> Mem<String>
    ensures { IfOk result (λ new. string_bytes new ≡ without_comments text.now) }
{
    let mut kept = String::new(alloc);
    let mut rest = text;
    'lines: while let Some((line, after)) = split_line(rest) {
        kept.push_str(kept_line(line))?;
        rest = after;
    }
    Ok(kept)
}

/// Returns the line, or an empty text if it has a comment.
fn kept_line(line: &str) -> &str
    ensures { result.now ≡ (if is_none (first_comment line.now) then line.now else []) }
{
    match first_comment(line) {
        Some(_) => "",
        None => line,
    }
}
