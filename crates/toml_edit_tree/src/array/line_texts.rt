//! The texts before and after the values of an array, line by line.
ghost use Rattle.std.specs.Prelude.{[], ◌++◌, ◌==◌, ◌≡◌, IfOk, OnOk, drop, filter, if◌then◌else◌, not, string_bytes};
ghost use Rattle.std.specs.List.{list_all};
ghost use Rattle.std.specs.Option.{option_copied};
ghost use Rattle.toml_edit_model.specs.Comments.{after_first_line, first_line, lines, side_text};
ghost use Rattle.toml_edit_model.specs.Mode.{exact};
ghost use Rattle.toml_edit_model.specs.Print.{element_default};
ghost use Rattle.toml_edit_model.specs.Text.{is_empty};
ghost use Rattle.toml_edit_model.specs.Tree.{owned, shown_side};
ghost use Rattle.toml_edit_model.specs.Trivia.{is_blank};
ghost use Rattle.toml_edit_tree.specs.ArrayLines.{after_newline, commented_line, decor_taken, first_newline, is_alone, is_broken, is_kept, left_of, line_before, line_words, lines_above, lines_before, moved, own_comment, takes_lines, text_above, text_after};

use std::alloc::Global;
use toml_edit_repr::comments::{first_comment, split_first_line, split_line, split_white};
use toml_edit_repr::{Decor, Mem, RawString};

/// Returns the gaps before and after a value that gets lines of its own.
pub(crate) fn gaps_of_line(
    alloc: Global,
    gap: &str,
    above: &str,
    after: &str,
    newline: &str,
    indent: &str,
) -> Mem<(RawString, RawString)>
    ensures before { IfOk result (λ gaps. gaps.0
        ≡ owned (first_line gap.now ++ (above.now ++ (newline.now ++ indent.now)))) }
    ensures after { IfOk result (λ gaps. gaps.1 ≡ owned (after.now ++ after_first_line gap.now)) }
{
    let (line, next) = split_first_line(gap);
    let start = join_three(alloc, above, newline, indent)?;
    let before = join_three(alloc, line, start.as_str(), "")?;
    let after = join_three(alloc, after, next, "")?;
    let before = RawString::from_string(before)?;
    Ok((before, RawString::from_string(after)?))
}

/// Returns the gap, or else a newline and the indentation, if the gap has no newline.
pub(crate) fn broken_gap(alloc: Global, gap: &str, newline: &str, indent: &str) -> Mem<String>
    ensures { IfOk result (λ text. string_bytes text
        ≡ (if is_broken gap.now then gap.now else newline.now ++ indent.now)) }
{
    if is_broken(gap) {
        String::from_str(alloc, gap)
    } else {
        join_three(alloc, newline, indent, "")
    }
}

/// Returns `true` if a value between these texts gets lines of its own.
pub(crate) fn takes_lines(gap: &str, above: &str, after: &str) -> bool
    ensures { result ≡ takes_lines gap.now above.now after.now }
{
    is_broken(gap) || !above.is_empty() || !after.is_empty()
}

/// Returns the lines of the prefix of a value, each on a new line.
pub(crate) fn text_above(alloc: Global, decor: &Decor, newline: &str, indent: &str) -> Mem<String>
    ensures { IfOk result (λ text. string_bytes text
        ≡ text_above newline.now indent.now decor.now) }
{
    let mut above = String::new(alloc);
    let mut rest = own_lines(text_of(decor.prefix()));
    'lines: while let Some((line, after)) = split_line(rest) {
        add_kept_line(&mut above, line, newline, indent)?;
        rest = after;
    }
    Ok(above)
}

/// Returns the text without its first line, if that is white space.
fn own_lines(text: &str) -> &str
    ensures { filter is_kept (lines result.now) ≡ lines_above (lines text.now) }
{
    if let Some((line, after)) = split_line(text) {
        if line_words(line).is_empty() {
            return after;
        }
    }
    text
}

/// Adds the line on a new one, unless it is indentation.
fn add_kept_line(text: &mut String, line: &str, newline: &str, indent: &str) -> Mem<()>
    ensures { OnOk result (string_bytes text.new ≡ string_bytes text.old
        ++ (if is_kept line.now then moved newline.now indent.now line.now else [])) }
{
    if is_kept(line) {
        add_moved(text, line, newline, indent)?;
    }
    Ok(())
}

/// Returns `true` if a line of a prefix is more than indentation.
fn is_kept(line: &str) -> bool
    ensures { result ≡ is_kept line.now }
{
    is_broken(line) || !line_words(line).is_empty()
}

/// Returns the comment after a value, and each further line of its suffix on a new line.
pub(crate) fn text_after(alloc: Global, decor: &Decor, newline: &str, indent: &str) -> Mem<String>
    ensures { IfOk result (λ text. string_bytes text
        ≡ text_after newline.now indent.now decor.now) }
{
    let mut below = String::from_str(alloc, own_comment(decor))?;
    let mut rest = further_lines(text_of(decor.suffix()));
    'lines: while let Some((line, after)) = split_line(rest) {
        add_line_with_words(&mut below, line, newline, indent)?;
        rest = after;
    }
    Ok(below)
}

/// Returns the text without its first line.
fn further_lines(text: &str) -> &str
    ensures { lines result.now ≡ drop 1 (lines text.now) }
{
    match split_line(text) {
        Some((_, after)) => after,
        None => text,
    }
}

/// Adds the line on a new one, unless it is white space.
fn add_line_with_words(text: &mut String, line: &str, newline: &str, indent: &str) -> Mem<()>
    ensures { OnOk result (string_bytes text.new ≡ string_bytes text.old
        ++ (if not (is_empty (line_words line.now)) then moved newline.now indent.now line.now
        else [])) }
{
    if !line_words(line).is_empty() {
        add_moved(text, line, newline, indent)?;
    }
    Ok(())
}

/// Adds the line on a new one: after the newline and, unless it is empty, the indentation.
fn add_moved(text: &mut String, line: &str, newline: &str, indent: &str) -> Mem<()>
    ensures { OnOk result (string_bytes text.new
        ≡ string_bytes text.old ++ moved newline.now indent.now line.now) }
{
    let words = line_words(line);
    text.push_str(newline)?;
    if words.is_empty() {
        return Ok(());
    }
    text.push_str(indent)?;
    text.push_str(words)
}

/// Returns the first line without the white space that it begins with.
fn line_words(line: &str) -> &str
    ensures { result.now ≡ line_words line.now }
{
    split_white(split_first_line(line).0).1
}

/// Returns `true` if no other value is on the line of the value between these gaps.
fn is_alone(before: &str, after: &str, is_first: bool) -> bool
    ensures { result ≡ is_alone before.now after.now is_first }
{
    is_broken(after) && (is_broken(before) || is_first)
}

/// Returns the rest of the line before a value that is alone on its line, and then its own lines.
fn split_before(before: &str) -> (&str, &str)
    ensures line { result.0.now ≡ line_before before.now }
    ensures lines { result.1.now ≡ lines_before before.now }
{
    if is_broken(before) {
        split_first_line(before)
    } else {
        ("", before)
    }
}

/// Returns what is left of the gaps before and after a value.
pub(crate) fn left_of(
    alloc: Global,
    before: &str,
    after: &str,
    is_first: bool,
    is_last: bool,
) -> Mem<String>
    ensures { IfOk result (λ left. string_bytes left
        ≡ left_of before.now after.now is_first is_last) }
{
    if is_alone(before, after, is_first) {
        let (line, _) = split_before(before);
        return join_three(alloc, line, split_first_line(after).1, "");
    }
    if is_broken(after) || is_last {
        return after_comment(alloc, before, after);
    }
    String::from_str(alloc, before)
}

/// Returns the decor that a value takes with it, if it is alone on its line.
pub(crate) fn decor_taken(
    alloc: Global,
    before: &str,
    suffix: &str,
    after: &str,
    is_first: bool,
) -> Mem<Option<Decor>>
    ensures { IfOk result (λ decor. decor
        ≡ decor_taken before.now suffix.now after.now is_first) }
{
    if !is_alone(before, after, is_first) {
        return Ok(None);
    }
    let (line, _) = split_first_line(after);
    let suffix = join_three(alloc, suffix, line, "")?;
    let prefix = RawString::from_text(alloc, split_before(before).1)?;
    Ok(Some(Decor::new(prefix, RawString::from_string(suffix)?)))
}

/// Returns the text after the comment of the first line of what was before it, if there is one.
fn after_comment(alloc: Global, before: &str, text: &str) -> Mem<String>
    ensures { IfOk result (λ joined. string_bytes joined
        ≡ commented_line before.now ++ text.now) }
{
    match first_comment(before) {
        Some(_) => join_three(
            alloc,
            split_first_line(before).0,
            first_newline(before),
            text,
        ),
        None => String::from_str(alloc, text),
    }
}

/// Returns the three texts, one after another.
pub(crate) fn join_three<'a>(
    alloc: Global,
    first: &'a str,
    second: &'a str,
    third: &'a str,
) -> Mem<String>
    ensures { IfOk result (λ text. string_bytes text
        ≡ first.now ++ (second.now ++ third.now)) }
{
    [first, second, third].concat(alloc)
}

/// Returns the comment after a value, or nothing if it has none.
pub(crate) fn own_comment(decor: &Decor) -> &str
    ensures { result.now ≡ own_comment decor.now }
{
    match decor.comment_after() {
        Some(_) => split_first_line(text_of(decor.suffix())).0,
        None => "",
    }
}

/// Returns the text of a side of a decor, which is empty if the side is unset or a span.
pub(crate) fn text_of(side: Option<&RawString>) -> &str
    ensures { result.now ≡ side_text (option_copied side.entry) }
{
    match side {
        Some(raw) => raw.as_str().unwrap_or(""),
        None => "",
    }
}

/// Returns the text of a side of a decor, or `default` if the side is unset or a span.
pub(crate) fn text_or<'a>(side: Option<&'a RawString>, default: &'a str) -> &'a str
    ensures { result.now ≡ shown_side exact default.entry.now (option_copied side.entry) }
{
    match side {
        Some(raw) => raw.as_str().unwrap_or(default),
        None => default,
    }
}

/// Returns what an unset prefix of the value at the place stands for.
pub(crate) fn default_before(at: usize) -> &'static str
    ensures { result.now ≡ element_default (at == 0) }
{
    if at == 0 { "" } else { " " }
}

/// Returns `true` if the text has a newline.
pub(crate) fn is_broken(text: &str) -> bool
    ensures { result ≡ is_broken text.now }
{
    text.as_bytes().iter().any(|byte| *byte == b'\n')
}

/// Returns the newline that ends the first line.
pub(crate) fn first_newline(text: &str) -> &'static str
    ensures { result.now ≡ first_newline text.now }
{
    match split_first_line(text).1.as_bytes().first() {
        Some(b'\r') => "\r\n",
        _ => "\n",
    }
}

/// Returns the text after the last newline, if there is one.
pub(crate) fn after_newline(text: &str) -> Option<&str>
    ensures { option_copied result ≡ after_newline text.now }
{
    match text.rsplit_once('\n') {
        Some((_, after)) => Some(after),
        None => None,
    }
}

/// Returns `true` if the text is white space.
pub(crate) fn is_white(text: &str) -> bool
    ensures { result ≡ list_all is_blank text.now }
{
    text.as_bytes()
        .iter()
        .all(|byte| *byte == b' ' || *byte == b'\t')
}
