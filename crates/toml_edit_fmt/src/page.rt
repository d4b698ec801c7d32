//! The text that is written: its indentation, and comments that are aligned.
ghost use Rattle.std.specs.Prelude.{◌≡◌, ◌==◌, ◌++◌, [], ◌∷◌, IfOk, OnOk, drop, length, string_bytes, take};
ghost use Rattle.std.specs.Str.{IsCharBoundary};
ghost use Rattle.toml_edit_model.specs.OwnedForm.{cut_out};
ghost use Rattle.toml_edit_syntax.specs.Events.{IsSpanOf};
ghost use Rattle.toml_edit_fmt_laws.specs.Aligned.{newlines};
ghost use Rattle.toml_edit_fmt_laws.specs.Laying.{columns, last_line};
ghost use Rattle.toml_edit_fmt_laws.specs.Rules.{made_newline, spaces, units};
ghost use Rattle.toml_edit_fmt.specs.PageView.{Gains, Grows, comment_bits, ended, goes_on, most_columns, parts_of, place, run_ended, spaces_apart, written};
ghost use Rattle.toml_edit_fmt.specs.RulesView.{comments_of, rules_of};

use crate::columns::{columns, last_line};
use crate::rules::{Comments, Rules};
use std::alloc::Global;
use std::mem::replace;
use toml_edit_repr::Mem;
use toml_edit_syntax::{Event, text_at};

/// A text, and after it the place of a comment that is aligned with those of the lines beside it: after
/// how many columns, and in a list at which depth.
#[derive(Drop)]
struct Part {
    text: String,
    columns: usize,
    depth: usize,
}

/// The text that is written.
#[derive(Drop)]
pub(crate) struct Page<'a> {
    pub(crate) alloc: Global,
    pub(crate) source: &'a str,
    pub(crate) rules: Rules,
    // Up to the comments of neighbouring lines, which have no space before them yet.
    run: Vec<Part>,
    // What is after them.
    text: String,
}

impl<'a> Page<'a> {
    /// Makes an empty page for a source.
    pub(crate) fn new(alloc: Global, source: &'a str, rules: &Rules) -> Page<'a>
        ensures source { result.source.now ≡ source.now }
        ensures rules { result.rules ≡ rules.now }
        ensures written { written result ≡ record { text = []; run = [] } }
    {
        Page {
            alloc,
            source,
            rules: *rules,
            run: Vec::new(alloc),
            text: String::new(alloc),
        }
    }

    /// Returns the text of an event.
    pub(crate) fn text_of(&self, event: &Event) -> &'a str
        requires { IsSpanOf self.now.source.now event.now.span }
        ensures { result.now ≡ cut_out self.now.source.now event.now.span.start event.now.span.end }
    {
        text_at(self.source, event.span)
    }

    /// Adds a text.
    pub(crate) fn put(&mut self, text: &str) -> Mem<()>
        ensures { OnOk result (Gains text.now self.old self.new) }
    {
        self.text.push_str(text)
    }

    /// Adds the text of an event.
    pub(crate) fn put_event(&mut self, event: &Event) -> Mem<()>
        requires { IsSpanOf self.old.source.now event.now.span }
        ensures { OnOk result
            (Gains (cut_out self.old.source.now event.now.span.start event.now.span.end)
            self.old self.new) }
    {
        let text = self.text_of(event);
        self.put(text)
    }

    /// Adds so many spaces.
    pub(crate) fn put_spaces(&mut self, count: usize) -> Mem<()>
        ensures { OnOk result (Gains (spaces count) self.old self.new) }
    {
        push_spaces(&mut self.text, count)
    }

    /// Adds so many units of indentation.
    pub(crate) fn put_indent(&mut self, depth: usize) -> Mem<()>
        ensures { OnOk result (Gains (units (rules_of self.old.rules) depth) self.old self.new) }
    {
        for at in 0..depth {
            self.put_spaces(self.rules.unit)?;
        }
        Ok(())
    }

    /// Adds the newline of a line that is made.
    pub(crate) fn put_newline(&mut self) -> Mem<()>
        ensures { OnOk result (Gains (made_newline (rules_of self.old.rules)) self.old self.new) }
    {
        if self.rules.returns {
            self.put("\r\n")
        } else {
            self.put("\n")
        }
    }

    /// Returns the number of bytes after the last place of a comment.
    pub(crate) fn len(&self) -> usize
        ensures { result ≡ length (string_bytes self.now.text) }
    {
        self.text.len()
    }

    /// Takes back what is after so many bytes.
    pub(crate) fn take_back(&mut self, len: usize)
        requires { IsCharBoundary (string_bytes self.old.text) len }
        ensures source { self.new.source ≡ self.old.source }
        ensures rules { self.new.rules ≡ self.old.rules }
        ensures text { string_bytes self.new.text ≡ take len (string_bytes self.old.text) }
        ensures run { self.new.run ≡ self.old.run }
    {
        self.text.truncate(len);
    }

    /// Returns the number of columns on the last line.
    fn columns(&self) -> usize
        ensures { result ≡ columns (last_line (string_bytes self.now.text)) }
    {
        columns(last_line(self.text.as_str()))
    }

    /// Returns the number of columns on the last line, where it begins after so many bytes or later.
    pub(crate) fn columns_since(&self, start: usize) -> usize
        ensures { IsCharBoundary (string_bytes self.now.text) start
            → result ≡ columns (last_line (drop start (string_bytes self.now.text))) }
    {
        columns(last_line(self.text.as_str().get(start..).unwrap_or("")))
    }

    /// Adds a comment after something on its line. One of a list is aligned with those of its
    /// neighbours there, if so asked.
    pub(crate) fn put_comment(&mut self, list: Option<usize>, comment: &str) -> Mem<()>
        ensures { OnOk result
            (Grows (comment_bits (comments_of self.old.rules.comments) list comment.now)
            self.old self.new) }
    {
        match self.rules.comments {
            Comments::AsTheyAre => {}
            Comments::Apart(count) => self.put_spaces(count)?,
            Comments::Aligned(count) => match list {
                Some(depth) => self.put_mark(depth)?,
                None => self.put_spaces(count)?,
            },
        }
        self.put(comment)
    }

    /// Marks the place of a comment of a list.
    fn put_mark(&mut self, depth: usize) -> Mem<()>
        ensures { OnOk result (Grows (place depth ∷ []) self.old self.new) }
    {
        if !self.goes_on(depth) {
            self.end_run()?;
        }
        let columns = self.columns();
        let text = replace(&mut self.text, String::new(self.alloc));
        self.run.push(Part {
            text,
            columns,
            depth,
        })?;
        Ok(())
    }

    /// Returns `true` if the last line is right below that of the last mark, which is of a list at
    /// this depth.
    fn goes_on(&self, depth: usize) -> bool
        ensures { result ≡ goes_on depth (written self.now) }
    {
        match self.run.last() {
            Some(part) => part.depth == depth && has_one_newline(self.text.as_bytes()),
            None => false,
        }
    }

    /// Moves the comments of the run into one column.
    fn end_run(&mut self) -> Mem<()>
        ensures source { OnOk result (self.new.source ≡ self.old.source) }
        ensures rules { OnOk result (self.new.rules ≡ self.old.rules) }
        ensures written { OnOk result
            (written self.new ≡ ended (comments_of self.old.rules.comments) (written self.old)) }
    {
        let most = self.most_columns();
        let apart = self.spaces_apart();
        let Some(first) = self.run.first_mut() else {
            return Ok(());
        };
        let mut all = replace(&mut first.text, String::new(self.alloc));
        for part in self.run.as_slice() {
            all.push_str(part.text.as_str())?;
            push_spaces(&mut all, most.saturating_sub(part.columns))?;
            push_spaces(&mut all, apart)?;
        }
        all.push_str(self.text.as_str())?;
        self.text = all;
        self.run.clear();
        Ok(())
    }

    /// Returns the greatest number of columns before a comment of the run.
    fn most_columns(&self) -> usize
        ensures { result ≡ most_columns (parts_of self.now.run.items) }
    {
        let mut most: usize = 0;
        for part in self.run.as_slice() {
            most = most.max(part.columns);
        }
        most
    }

    /// Returns the number of spaces between that column and the comments.
    fn spaces_apart(&self) -> usize
        ensures { result ≡ spaces_apart (comments_of self.now.rules.comments) }
    {
        match self.rules.comments {
            Comments::AsTheyAre => 0,
            Comments::Apart(_) => 0,
            Comments::Aligned(count) => count,
        }
    }

    /// Returns the text.
    pub(crate) fn finish(self) -> Mem<String>
        ensures { IfOk result
            (λ s. string_bytes s
            ≡ run_ended (comments_of self.entry.rules.comments) (parts_of self.entry.run.items)
            (string_bytes self.entry.text)) }
    {
        let mut page = self;
        page.end_run()?;
        let Page { text, .. } = page;
        Ok(text)
    }
}

/// Adds so many spaces.
fn push_spaces(text: &mut String, count: usize) -> Mem<()>
    ensures { OnOk result (string_bytes text.new ≡ string_bytes text.old ++ spaces count) }
{
    for at in 0..count {
        text.push_str(" ")?;
    }
    Ok(())
}

/// Returns `true` if exactly one byte is a line feed.
fn has_one_newline(bytes: &[u8]) -> bool
    ensures { result ≡ (newlines bytes.now == 1) }
{
    bytes.iter().filter(|byte| **byte == b'\n').count() == 1
}
