//! The text at each kind of place between statements and values, laid out line by line.
ghost use Rattle.std.specs.Prelude.{◌≡◌, ◌==◌, ◌<◌, ◌+◌, ◌^◌, ◌∷◌, [], MatchOption, IfSome, IsTrue, OnOk, ◌&&◌, drop, is_some, false, length, not};
ghost use Rattle.std.specs.List.{before_first};
ghost use Rattle.toml_edit_model.specs.Comments.{comments, lines};
ghost use Rattle.toml_edit_model.specs.Mode.{exact, line_newline};
ghost use Rattle.toml_edit_model.specs.Text.{is_empty, joined, line_feed};
ghost use Rattle.toml_edit_fmt_laws.specs.Laying.{final_text, header_leading, is_broken, is_empty_line, laid_lines, leading, line_words};
ghost use Rattle.toml_edit_fmt.specs.LinesView.{below_text, beside_bits, gap_bits, indent_as, is_at_end, is_at_start, is_kept, laid_line, list_before, rest_bits};
ghost use Rattle.toml_edit_fmt.specs.PageView.{Gains, Grows};
ghost use Rattle.toml_edit_fmt.specs.RulesView.{comments_of, indentation_of, rules_of};

use crate::page::Page;
use crate::rules::{Comments, Indentation};
use toml_edit_repr::Mem;
use toml_edit_repr::comments::{first_comment, split_first_line, split_line, split_white};

/// Returns `true` if the text has a newline.
pub(crate) fn is_broken(text: &str) -> bool
    ensures { result ≡ is_broken text.now }
{
    text.as_bytes().contains(&b'\n')
}

/// Splits off the first comment of the text and what is before it, or returns `None` if it has none.
pub(crate) fn split_comment(text: &str) -> Option<(&str, &str)>
    ensures parts { MatchOption result (comments text.now ≡ [])
        (λ p. comments text.now ≡ p.0.now ∷ comments p.1.now) }
    ensures shorter { IfSome result (λ p. length p.1.now < length text.now) }
{
    let mut rest = text;
    'lines: while let Some((line, after)) = split_line(rest) {
        if let Some(comment) = first_comment(line) {
            return Some((comment, after));
        }
        rest = after;
    }
    None
}

/// Returns `true` if a line of the text has a comment.
pub(crate) fn has_comments(text: &str) -> bool
    ensures { result ≡ not (is_empty (comments text.now)) }
{
    split_comment(text).is_some()
}

/// Returns `true` if the line has nothing but white space before its newline.
fn has_no_words(line: &str) -> bool
    ensures { result ≡ is_empty (line_words line.now) }
{
    split_white(split_first_line(line).0).1.is_empty()
}

/// Returns `true` if the line has a newline and nothing else but white space.
fn is_empty_line(line: &str) -> bool
    ensures { result ≡ is_empty_line line.now }
{
    is_broken(line) && has_no_words(line)
}

/// Returns `true` if the line is laid out. With an indentation, white space after the last newline is
/// left out.
fn is_kept(indent: Option<usize>, line: &str) -> bool
    ensures { result ≡ is_kept indent line.now }
{
    indent.is_none() || is_broken(line) || !has_no_words(line)
}

/// Returns `true` if the line is an empty one, of which so many at most may be in a row.
fn is_spaced(page: &Page<'_>, line: &str) -> bool
    ensures { result ≡ is_some page.now.rules.blank_lines && is_empty_line line.now }
{
    page.rules.blank_lines.is_some() && is_empty_line(line)
}

/// Adds a line with this indentation, or as it is. An empty one is then only its newline.
fn put_line(page: &mut Page<'_>, indent: Option<usize>, line: &str) -> Mem<()>
    ensures { OnOk result
        (Gains (laid_line (rules_of page.old.rules) indent line.now) page.old page.new) }
{
    let Some(depth) = indent else {
        return page.put(line);
    };
    if !has_no_words(line) {
        page.put_indent(depth)?;
    }
    page.put(split_white(line).1)
}

/// Adds the lines of the text, with at most so many empty ones in a row if so asked, and none at the
/// start or at the end of all that is laid out.
fn put_lines(
    page: &mut Page<'_>,
    is_start: bool,
    is_end: bool,
    indent: Option<usize>,
    text: &str,
) -> Mem<()>
    ensures { OnOk result
        (Gains (laid_lines (rules_of page.old.rules) is_start is_end indent text.now)
        page.old page.new) }
{
    let most = page.rules.blank_lines.unwrap_or(0);
    let mut left = if is_start { 0 } else { most };
    let mut end = page.len();
    let mut rest = text;
    'lines: while let Some((line, after)) = split_line(rest) {
        rest = after;
        if !is_kept(indent, line) {
            continue;
        }
        if !is_spaced(page, line) {
            put_line(page, indent, line)?;
            left = most;
            end = page.len();
        } else if left > 0 {
            put_line(page, indent, line)?;
            left -= 1;
        }
    }
    if is_end {
        page.take_back(end);
    }
    Ok(())
}

/// Returns the indentation of lines at this depth, or `None` if they stay as they are.
fn line_indent(page: &Page<'_>, depth: usize) -> Option<usize>
    ensures { result ≡ indent_as (indentation_of page.now.rules.indentation) depth }
{
    match page.rules.indentation {
        Indentation::AsItIs => None,
        Indentation::Flush | Indentation::ByDepth => Some(depth),
    }
}

/// Adds what is before a statement: its lines, and the indentation of its own.
pub(crate) fn put_leading(page: &mut Page<'_>, is_start: bool, depth: usize, text: &str) -> Mem<()>
    ensures { OnOk result
        (Gains (leading (rules_of page.old.rules) is_start depth text.now) page.old page.new) }
{
    let indent = line_indent(page, depth);
    put_lines(page, is_start, false, indent, text)?;
    page.put_indent(indent.unwrap_or(0))
}

/// Adds what is before a header. Where that is nothing but indentation, and the header does not begin
/// the text, an empty line is added.
pub(crate) fn put_header_leading(
    page: &mut Page<'_>,
    is_start: bool,
    depth: usize,
    text: &str,
) -> Mem<()>
    ensures { OnOk result
        (Gains (header_leading (rules_of page.old.rules) is_start depth text.now) page.old page.new) }
{
    let may_be_empty = page.rules.blank_lines.unwrap_or(0) > 0;
    if may_be_empty && !is_start && !is_broken(text) {
        page.put_newline()?;
    }
    put_leading(page, is_start, depth, text)
}

/// Adds the end of the text.
pub(crate) fn put_final(page: &mut Page<'_>, is_start: bool, text: &str) -> Mem<()>
    ensures { OnOk result
        (Gains (final_text (rules_of page.old.rules) is_start text.now) page.old page.new) }
{
    let indent = line_indent(page, 0);
    put_lines(page, is_start, true, indent, text)
}

/// Adds what is after something on its line, which may be a member of a list: a comment, or nothing.
pub(crate) fn put_rest(page: &mut Page<'_>, list: Option<usize>, text: &str) -> Mem<()>
    ensures { OnOk result
        (Grows (rest_bits (comments_of page.old.rules.comments) list text.now) page.old page.new) }
{
    if page.rules.comments == Comments::AsTheyAre {
        return page.put(text);
    }
    let (_, words) = split_white(text);
    if first_comment(text).is_none() {
        return page.put(words);
    }
    page.put_comment(list, words)
}

/// Splits the text at its first newline: into this and the lines below, or returns `None` if it has
/// none.
fn split_newline(text: &str) -> Option<(&str, &str)>
    ensures newline { MatchOption result (is_broken text.now ≡ false)
        (λ p. IsTrue (is_broken text.now)
        × (p.0.now ≡ line_newline exact (before_first (λ c. c == line_feed) text.now))) }
    ensures below { MatchOption result (joined (drop 1 (lines text.now)) ≡ [])
        (λ p. joined (drop 1 (lines text.now)) ≡ p.1.now) }
{
    if !is_broken(text) {
        return None;
    }
    split_line(split_first_line(text).1)
}

/// Where a gap on lines of its own is between brackets.
#[derive(Clone, Copy, PartialEq, Eq)]
pub(crate) enum Gap {
    /// After the opening bracket.
    First,
    /// After the comma of a member, before the next one.
    Next,
    /// After a member, before its comma.
    Comma,
    /// After the last member, before the closing bracket.
    Last,
    /// In empty brackets.
    Only,
}

impl Gap {
    /// Returns `true` if it is after the opening bracket.
    fn is_at_start(self) -> bool
        ensures { result ≡ is_at_start self }
    {
        matches!(self, Gap::First | Gap::Only)
    }

    /// Returns `true` if it is before the closing bracket.
    fn is_at_end(self) -> bool
        ensures { result ≡ is_at_end self }
    {
        matches!(self, Gap::Last | Gap::Only)
    }

    /// Returns the depth of the list of which a member is on the line before.
    fn list_before(self, depth: usize) -> Option<usize>
        requires { depth + 1 < 2 ^ 64 }
        ensures { result ≡ list_before depth self }
    {
        match self {
            Gap::Next | Gap::Last => Some(depth + 1),
            Gap::First | Gap::Comma | Gap::Only => None,
        }
    }
}

/// Adds the comment on the first line of a gap.
fn put_beside(page: &mut Page<'_>, list: Option<usize>, text: &str) -> Mem<()>
    ensures { OnOk result
        (Grows (beside_bits (comments_of page.old.rules.comments) list text.now) page.old page.new) }
{
    if first_comment(text).is_none() {
        return Ok(());
    }
    put_rest(page, list, split_first_line(text).0)
}

/// Adds a newline and the other lines of a gap, moved in so far.
fn put_below(page: &mut Page<'_>, is_start: bool, is_end: bool, depth: usize, text: &str) -> Mem<()>
    ensures { OnOk result
        (Gains (below_text (rules_of page.old.rules) is_start is_end depth text.now)
        page.old page.new) }
{
    match split_newline(text) {
        Some((newline, lines)) => {
            page.put(newline)?;
            put_lines(page, is_start, is_end, Some(depth), lines)
        }
        None => page.put_newline(),
    }
}

/// Adds a gap, between brackets on a line that is indented so far: the comment on the line of what is
/// before, a newline, the other lines moved in, and the indentation of what is after.
pub(crate) fn put_gap(page: &mut Page<'_>, depth: usize, gap: Gap, text: &str) -> Mem<()>
    requires { depth + 1 < 2 ^ 64 }
    ensures { OnOk result
        (Grows (gap_bits (rules_of page.old.rules) depth gap text.now) page.old page.new) }
{
    put_beside(page, gap.list_before(depth), text)?;
    let is_end = gap.is_at_end();
    put_below(page, gap.is_at_start(), is_end, depth + 1, text)?;
    page.put_indent(if is_end { depth } else { depth + 1 })
}
