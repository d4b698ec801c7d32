//! Comments of the values of an array: on the line of a value, and on the lines above it.
ghost use Rattle.std.specs.Prelude.{[], ◌+◌, ◌++◌, ◌<◌, ◌≡◌, IfErr, IfOk, IsSome, OnErr, OnOk, Some, if◌then◌else◌, length, not, nat_lt, option_map, string_bytes, suc, true};
ghost use Rattle.std.specs.Option.{option_copied};
ghost use Rattle.toml_edit_model.specs.ArrayCalls.{value_at};
ghost use Rattle.std.specs.List.{list_all};
ghost use Rattle.toml_edit_model.specs.Comments.{side_text};
ghost use Rattle.toml_edit_model.specs.Slots.{changed_at};
ghost use Rattle.toml_edit_model.specs.Trivia.{is_visible};
ghost use Rattle.toml_edit_model.specs.Tree.{owned};
ghost use Rattle.toml_edit_repr.specs.Comments.{may_stand};
ghost use Rattle.toml_edit_repr.specs.declared.comments.CommentFault.TheVariants.{Memory};
ghost use Rattle.toml_edit_tree.specs.ArrayLines.{broken_gap, indent_at, is_broken, newline_at, prefix_at};
ghost use Rattle.toml_edit_tree.specs.Elements.{array_fields, items_of};
ghost use Rattle.toml_edit_tree.specs.LineComments.{SetsComment, commented, fields_commented, gap_commented, gap_ended, line_commented, uncommented, without_comments_above};
ghost use Rattle.toml_edit_tree.specs.View.{array_view};

use super::line_texts::{broken_gap, is_broken, join_three, text_of};
use super::lines::{
    gap_text, indent_at, newline_at, next_indent, prefix_at, put_gap_after, set_prefix,
};
use crate::array::Array;
use std::alloc::Global;
use toml_edit_repr::comments::{CommentFault, split_first_line};
use toml_edit_repr::{Decor, Mem, RawString};

impl Array {
    /// Sets the comment after the value at index `at` and its comma, on the same line, or removes
    /// it if `comment` is `None`.
    ///
    /// It is what [`line_comment`](Self::line_comment) returns: the text after the `#`, which is
    /// added here. White space before an old comment stays, and is removed with the comment. A
    /// comment where there was none is put after one space.
    ///
    /// A comment goes on to the end of its line. So where another value or the bracket is on the
    /// same line, that begins a new one, indented as by [`insert_line`](Self::insert_line): in
    /// `[1, 2]`, a comment ` c` at 0 gives the lines `[1, # c` and `    2]`. Other comments stay.
    ///
    /// A contract requires that there is a value, and that the slot after it holds one or is past
    /// the end: check with [`get`](Self::get).
    ///
    /// # Errors
    ///
    /// Fails with [`CommentFault::Text`] if the comment has a control character other than tab,
    /// such as a newline, and with [`CommentFault::Memory`] if out of memory. The array is
    /// unchanged then.
    pub fn set_line_comment(&mut self, at: usize, comment: Option<&str>) -> Result<(), CommentFault>
        requires value { IsSome (value_at at (items_of self.old)) }
        requires next { at + 1 < length (items_of self.old)
            → IsSome (value_at (at + 1) (items_of self.old)) }
        ensures items { SetsComment (option_copied comment.entry) (items_of self.new
            ≡ line_commented (option_copied comment.entry) at (array_fields self.old)
            (items_of self.old)) (items_of self.new ≡ items_of self.old) result }
        ensures fields { SetsComment (option_copied comment.entry) (array_fields self.new
            ≡ fields_commented (option_copied comment.entry) at (array_fields self.old)
            (items_of self.old)) (array_fields self.new ≡ array_fields self.old) result }
    {
        if !may_stand(comment) {
            return Err(CommentFault::Text);
        }
        if comment.is_none() && self.line_comment(at).is_none() {
            return Ok(());
        }
        let gap = gap_commented(self, at, comment)?;
        put_gap_after(self, at, gap);
        Ok(())
    }

    /// Removes the comments above the value at index `at`, each with its line.
    ///
    /// These are the comments that [`Decor::comments_before`] returns for the value, but for one on
    /// the line of the value before it or of the bracket, which stays: see
    /// [`line_comment`](Self::line_comment). Empty lines and the indentation stay too. Nothing
    /// changes if there is no value.
    ///
    /// # Errors
    ///
    /// Returns an `AllocError` if out of memory, and then leaves the array as it was.
    pub fn remove_comments_before(&mut self, at: usize) -> Mem<()>
        ensures items { OnOk result
            (items_of self.new ≡ changed_at at without_comments_above (items_of self.old)) }
        ensures fields { array_fields self.new ≡ array_fields self.old }
        ensures err { OnErr result (items_of self.new ≡ items_of self.old) }
    {
        if let Some(prefix) = prefix_uncommented(self, at)? {
            set_prefix(self, at, prefix);
        }
        Ok(())
    }
}

/// Returns `true` if there is no comment, or one without control characters but tab.
fn may_stand(comment: Option<&str>) -> bool
    ensures { result ≡ may_stand (option_copied comment.entry) }
{
    match comment {
        Some(comment) => is_visible(comment),
        None => true,
    }
}

/// Returns `true` if the text has no control character but tab.
fn is_visible(text: &str) -> bool
    ensures { result ≡ list_all is_visible text.now }
{
    text.as_bytes()
        .iter()
        .all(|byte| *byte == b'\t' || (*byte >= 32 && *byte != 127))
}

/// Returns the gap after the value at the place with this comment on its first line, or with none
/// there.
fn gap_commented(array: &Array, at: usize, comment: Option<&str>) -> Result<RawString, CommentFault>
    requires place { at < length (items_of array.now) }
    requires text { may_stand (option_copied comment) ≡ true }
    ensures gap { IfOk result (λ gap. gap ≡ owned (gap_commented (option_copied comment.entry)
        (suc at) (array_fields array.now) (items_of array.now))) }
    ensures err { IfErr result (λ fault. fault ≡ Memory) }
{
    let alloc = *array.values.allocator();
    let next = place_after(array, at);
    let gap = gap_ended(array, next, comment)?;
    let changed = with_comment(alloc, gap, comment)?;
    Ok(changed)
}

/// Returns the place after that of a value.
fn place_after(array: &Array, at: usize) -> usize
    requires { at < length (items_of array.now) }
    ensures { result ≡ suc at }
{
    let count = array.len();
    if at < count { at + 1 } else { count }
}

/// Returns the gap at the place, which ends its line if a comment is put there.
fn gap_ended(array: &Array, at: usize, comment: Option<&str>) -> Mem<String>
    ensures { IfOk result (λ text. string_bytes text
        ≡ gap_ended (option_copied comment.entry) at (array_fields array.now)
        (items_of array.now)) }
{
    let gap = gap_text(array, at)?;
    match comment {
        Some(_) => end_gap(array, at, gap.as_str()),
        None => Ok(gap),
    }
}

/// Returns the gap at the place, or else a newline and the indentation, if the gap has no newline.
fn end_gap(array: &Array, at: usize, gap: &str) -> Mem<String>
    ensures { IfOk result (λ text. string_bytes text
        ≡ broken_gap gap.now (newline_at gap.now (array_fields array.now) (items_of array.now))
        (indent_at at (items_of array.now)) (not (nat_lt at (length (items_of array.now))))) }
{
    let newline = newline_at(array, gap);
    let indent = next_indent(array, at, indent_at(array, at));
    broken_gap(*array.values.allocator(), gap, newline, indent)
}

/// Returns the text with this comment on its first line, or with none there.
fn with_comment(
    alloc: Global,
    text: String,
    comment: Option<&str>,
) -> Result<RawString, CommentFault>
    requires { may_stand (option_copied comment) ≡ true }
    ensures text { IfOk result (λ new. new
        ≡ owned (commented (option_copied comment.entry) (string_bytes text))) }
    ensures err { IfErr result (λ fault. fault ≡ Memory) }
{
    let mut decor = Decor::default();
    decor.set_suffix(RawString::from_string(text)?);
    decor.set_comment_after(alloc, comment)?;
    let text = RawString::from_text(alloc, text_of(decor.suffix()))?;
    Ok(text)
}

/// Returns the prefix of the value at the place without the comments above the value, or `None` if
/// it has no line above it.
fn prefix_uncommented(array: &Array, at: usize) -> Mem<Option<RawString>>
    ensures { IfOk result (λ prefix. prefix
        ≡ (let t = side_text (prefix_at at (items_of array.now)) in
        if is_broken t then Some (owned (uncommented t)) else None)) }
{
    let text = text_of(prefix_at(array, at));
    if !is_broken(text) {
        return Ok(None);
    }
    let prefix = uncommented(*array.values.allocator(), text)?;
    Ok(Some(prefix))
}

/// Returns the text without the lines after the first that have comments.
fn uncommented(alloc: Global, text: &str) -> Mem<RawString>
    ensures { IfOk result (λ new. new ≡ owned (uncommented text.now)) }
{
    let (line, after) = split_first_line(text);
    let mut decor = Decor::default();
    decor.set_prefix(RawString::from_text(alloc, after)?);
    decor.remove_comments_before(alloc)?;
    let whole = join_three(alloc, line, text_of(decor.prefix()), "")?;
    RawString::from_string(whole)
}
