//! Values of an array with lines of their own: inserting and removing them with their comments.
ghost use Rattle.std.specs.Prelude.{[], ◌++◌, ◌-◌, ◌<◌, ◌==◌, ◌||◌, ◌≡◌, ◌≤◌, ◌∷◌, IfErr, IfOk, IsSome, OnErr, OnOk, Some, if◌then◌else◌, length, nat_lt, not, option_map, string_bytes, suc};
ghost use Rattle.std.specs.Option.{option_copied};
ghost use Rattle.toml_edit_model.specs.ArrayCalls.{inserted_at, removed_at, value_at};
ghost use Rattle.toml_edit_model.specs.Comments.{side_text};
ghost use Rattle.toml_edit_model.specs.Print.{element_default};
ghost use Rattle.toml_edit_model.specs.Slots.{changed_at};
ghost use Rattle.toml_edit_model.specs.Tree.{owned};
ghost use Rattle.toml_edit_tree.specs.ArrayLines.{before_comma, behind, beside, broken_gap, comma_kept, comment_behind, decor_taken, fields_inserted, fields_removed, fields_with_gap, followed, gap, gap_left, gaps_around, gaps_on_line, indent_at, is_broken, is_closed, is_last, last_suffix, line_begun, line_inserted, line_removed, line_taken, newline_at, newline_in, placed, prefix_at, redecorated, suffix_at, with_gap, with_prefix, with_suffix};
ghost use Rattle.toml_edit_tree.specs.Elements.{array_fields, items_of};
ghost use Rattle.toml_edit_tree.specs.View.{array_view, value_view};

use super::line_texts::{
    after_newline, broken_gap, decor_taken, default_before, first_newline, gaps_of_line, is_broken,
    is_white, join_three, left_of, takes_lines, text_above, text_after, text_of, text_or,
};
use crate::array::Array;
use crate::value::Value;
use toml_edit_repr::comments::{first_comment, split_white};
use toml_edit_repr::{Decor, Mem, RawString};
use toml_edit_slots::NoMemory;

impl Array {
    /// Adds `value` at the end, on a line of its own if the last value begins a line.
    ///
    /// This is [`insert_line`](Self::insert_line) at the end. The comment after the last value
    /// stays on its line.
    ///
    /// # Errors
    ///
    /// Returns a [`NoMemory`] with `value` if out of memory, and then leaves the array as it was.
    pub fn push_line(&mut self, value: Value) -> Result<(), NoMemory<Value>>
        ensures items { OnOk result (items_of self.new
            ≡ line_inserted (length (items_of self.old)) (value_view value)
            (array_fields self.old) (items_of self.old)) }
        ensures fields { OnOk result (array_fields self.new
            ≡ fields_inserted (length (items_of self.old)) (value_view value)
            (array_fields self.old) (items_of self.old)) }
        ensures err { OnErr result (array_view self.new ≡ array_view self.old) }
        ensures back { IfErr result (λ refused. refused.0 ≡ value) }
    {
        let at = self.len();
        self.insert_line(at, value)
    }

    /// Inserts `value` before what is at index `at`, on a line of its own if that begins a line.
    ///
    /// The comments of `value` are kept, and the rest of its decor is replaced. The lines of its
    /// prefix are put above it, but for a first one that is only white space. A comment at the
    /// beginning of its suffix is put after its comma, and the lines after that below it, but for
    /// those that are only white space. Comments of other values stay where they are.
    ///
    /// These lines and `value` are indented as the line of the value at `at` or, at the end, of the
    /// last one: by four spaces if that line begins with the bracket. They end in CR LF if the first
    /// newline of the text before `at`, or else before the values and the bracket, is one, and
    /// otherwise in LF.
    ///
    /// Where other values are on the same line, `value` is put between them if it has no comments
    /// and no lines above it. Otherwise it gets lines of its own, and what follows begins another:
    /// inserting `9` with the suffix ` # c` into `[1, 2]` at the end gives `[1, 2,`, `9 # c` and `]`
    /// on three lines. A contract requires that `at` is at most [`len`](Self::len).
    ///
    /// # Errors
    ///
    /// Returns a [`NoMemory`] with `value` if out of memory, and then leaves the array as it was.
    pub fn insert_line(&mut self, at: usize, value: Value) -> Result<(), NoMemory<Value>>
        requires { at ≤ length (items_of self.old) }
        ensures items { OnOk result (items_of self.new
            ≡ line_inserted at (value_view value) (array_fields self.old) (items_of self.old)) }
        ensures fields { OnOk result (array_fields self.new
            ≡ fields_inserted at (value_view value) (array_fields self.old) (items_of self.old)) }
        ensures err { OnErr result (array_view self.new ≡ array_view self.old) }
        ensures back { IfErr result (λ refused. refused.0 ≡ value) }
    {
        match gaps_around(self, at, value.decor()) {
            Ok((before, after)) => insert_between(self, at, value, before, after),
            Err(_) => Err(NoMemory(value)),
        }
    }

    /// Removes the value at index `at` and returns it, with its line if it is alone there.
    ///
    /// It is alone if its line has at most the opening bracket before it, and at most its comma and
    /// a comment after it. The value then has that comment in its suffix, and the comments above it
    /// in its prefix, so [`insert_line`](Self::insert_line) puts them back. Of `[1, # one` and `2]`
    /// on two lines, `[` and `2]` are left without the `1`. The comments of the values before and
    /// after it stay.
    ///
    /// Where other values are on the same line, it is returned with its decor, and a comment at the
    /// end of the line stays, as do those above if a value follows. Where the closing bracket
    /// follows, the comments above the value go. The comma after the last value goes with the only
    /// one. A contract requires that there is a value: check with [`get`](Self::get).
    ///
    /// # Errors
    ///
    /// Returns an `AllocError` if out of memory, and then leaves the array as it was.
    pub fn remove_line(&mut self, at: usize) -> Mem<Value>
        requires { IsSome (value_at at (items_of self.old)) }
        ensures value { IfOk result (λ old. Some (value_view old)
            ≡ option_map (line_taken at (array_fields self.old) (items_of self.old))
            (value_at at (items_of self.old))) }
        ensures items { OnOk result (items_of self.new
            ≡ line_removed at (array_fields self.old) (items_of self.old)) }
        ensures fields { OnOk result (array_fields self.new
            ≡ fields_removed at (array_fields self.old) (items_of self.old)) }
        ensures err { OnErr result (array_view self.new ≡ array_view self.old) }
    {
        let (left, decor) = parts_removed(self, at)?;
        let value = take_between(self, at, left);
        drop_lone_comma(self);
        Ok(with_decor_taken(value, decor))
    }

    /// Returns the comment after the value at index `at` and its comma, on the same line, or `None`
    /// if there is none or `at` is past the end.
    ///
    /// It is the text after the `#` up to the end of the line. Nothing is trimmed. It is changed by
    /// [`set_line_comment`](Self::set_line_comment).
    pub fn line_comment(&self, at: usize) -> Option<&str>
        ensures { option_copied result
            ≡ comment_behind at (array_fields self.now) (items_of self.now) }
    {
        if at < self.len() {
            first_comment(text_behind(self, at))
        } else {
            None
        }
    }
}

/// Returns the gaps before and after a value that is put at the place with this decor.
fn gaps_around(array: &Array, at: usize, decor: &Decor) -> Mem<(RawString, RawString)>
    ensures before { IfOk result (λ gaps. gaps.0
        ≡ owned (gaps_around at decor.now (array_fields array.now) (items_of array.now)).0) }
    ensures after { IfOk result (λ gaps. gaps.1
        ≡ owned (gaps_around at decor.now (array_fields array.now) (items_of array.now)).1) }
{
    let alloc = *array.values.allocator();
    let gap = gap_text(array, at)?;
    let newline = newline_at(array, gap.as_str());
    let indent = indent_at(array, at);
    let above = text_above(alloc, decor, newline, indent)?;
    let after = text_after(alloc, decor, newline, indent)?;
    if takes_lines(gap.as_str(), above.as_str(), after.as_str()) {
        let next = next_indent(array, at, indent);
        let broken = broken_gap(alloc, gap.as_str(), newline, next)?;
        let gaps = gaps_of_line(
            alloc,
            broken.as_str(),
            above.as_str(),
            after.as_str(),
            newline,
            indent,
        )?;
        return Ok(gaps);
    }
    let start = join_three(alloc, newline, indent, "")?;
    let gaps = gaps_on_line(array, at, gap.as_str(), start.as_str())?;
    Ok(gaps)
}

/// Returns the indentation of what is at the place, which is empty for the closing bracket.
pub(crate) fn next_indent<'a>(array: &Array, at: usize, indent: &'a str) -> &'a str
    ensures { result.now
        ≡ (if not (nat_lt at (length (items_of array.now))) then [] else indent.entry.now) }
{
    if at < array.len() { indent } else { "" }
}

/// Returns the gaps before and after a value that goes on the line of its neighbours, or at the end
/// after `start` if the last value begins a line.
fn gaps_on_line(array: &Array, at: usize, gap: &str, start: &str) -> Mem<(RawString, RawString)>
    ensures before { IfOk result (λ gaps. gaps.0
        ≡ owned (gaps_on_line at gap.now start.now (items_of array.now)).0) }
    ensures after { IfOk result (λ gaps. gaps.1
        ≡ owned (gaps_on_line at gap.now start.now (items_of array.now)).1) }
{
    let alloc = *array.values.allocator();
    if at < array.len() {
        let before = RawString::from_text(alloc, gap)?;
        let after = RawString::from_text(alloc, " ")?;
        return Ok((before, after));
    }
    let before = RawString::from_text(alloc, end_start(array, at, start))?;
    let after = RawString::from_text(alloc, gap)?;
    Ok((before, after))
}

/// Returns `start` if the value beside the place begins a line, or else what is before a value.
fn end_start<'a>(array: &Array, at: usize, start: &'a str) -> &'a str
    ensures { result.now
        ≡ (if is_broken (side_text (prefix_at (beside at (items_of array.now)) (items_of array.now)))
        then start.entry.now else element_default (at == 0)) }
{
    if is_broken(text_of(prefix_at(array, place_beside(array, at)))) {
        start
    } else {
        default_before(at)
    }
}

/// Returns the place of the value there, or else that of the last one.
fn place_beside(array: &Array, at: usize) -> usize
    ensures { result ≡ beside at (items_of array.now) }
{
    let count = array.len();
    if at < count {
        at
    } else {
        count.saturating_sub(1)
    }
}

/// Returns the newline for lines where this gap is.
pub(crate) fn newline_at(array: &Array, gap: &str) -> &'static str
    ensures { result.now ≡ newline_at gap.now (array_fields array.now) (items_of array.now) }
{
    if is_broken(gap) {
        return first_newline(gap);
    }
    let count = array.len();
    for at in 0..count {
        let before = text_of(prefix_at(array, at));
        if is_broken(before) {
            return first_newline(before);
        }
    }
    newline_at_end(array)
}

/// Returns the first newline after the last value.
fn newline_at_end(array: &Array) -> &'static str
    ensures { result.now ≡ newline_in (last_suffix (array_fields array.now) (items_of array.now)
        ∷ side_text (Some (array_fields array.now).trailing) ∷ []) }
{
    let suffix = last_suffix(array);
    let trailing = text_of(Some(array.trailing()));
    if is_broken(suffix) {
        first_newline(suffix)
    } else if is_broken(trailing) {
        first_newline(trailing)
    } else {
        "\n"
    }
}

/// Returns the white space that begins the line of the value beside the place.
pub(crate) fn indent_at(array: &Array, at: usize) -> &str
    ensures { result.now ≡ indent_at at (items_of array.now) }
{
    match line_begun(array, place_beside(array, at)) {
        Some(line) => split_white(line).0,
        None => "    ",
    }
}

/// Returns what is after the last newline before the value at the place.
fn line_begun(array: &Array, at: usize) -> Option<&str>
    ensures { option_copied result ≡ line_begun at (items_of array.now) }
{
    let mut place = at;
    'places: while place > 0 {
        if let Some(line) = after_newline(text_of(prefix_at(array, place))) {
            return Some(line);
        }
        place -= 1;
        if let Some(line) = after_newline(text_of(suffix_at(array, place))) {
            return Some(line);
        }
    }
    after_newline(text_of(prefix_at(array, 0)))
}

/// Inserts the value between two gaps in place of the one at the place.
fn insert_between(
    array: &mut Array,
    at: usize,
    value: Value,
    before: RawString,
    after: RawString,
) -> Result<(), NoMemory<Value>>
    requires { at ≤ length (items_of array.old) }
    ensures items { OnOk result (items_of array.new
        ≡ with_gap (suc at) after (array_fields array.old)
        (inserted_at at (placed before (value_view value))
        (followed at (array_fields array.old) (items_of array.old)))) }
    ensures fields { OnOk result (array_fields array.new
        ≡ fields_with_gap (suc at) after (array_fields array.old)
        (inserted_at at (placed before (value_view value))
        (followed at (array_fields array.old) (items_of array.old)))) }
    ensures err { OnErr result (array_view array.new ≡ array_view array.old) }
    ensures back { IfErr result (λ refused. refused.0 ≡ value) }
{
    array.insert(at, value)?;
    follow(array, at);
    set_prefix_only(array, at, before);
    put_gap_after(array, at, after);
    Ok(())
}

/// Removes what is after the value before the last one, unless a comma ends the array: one follows
/// that value now.
fn follow(array: &mut Array, at: usize)
    requires { at < length (items_of array.old) }
    ensures items { items_of array.new
        ≡ (if (array_fields array.old).comma || not (is_last at (items_of array.old))
        then items_of array.old
        else changed_at (at - 1) (with_suffix (owned [])) (items_of array.old)) }
    ensures fields { array_fields array.new ≡ array_fields array.old }
{
    let count = array.len();
    if at + 1 >= count && !array.trailing_comma() {
        set_suffix(array, at.saturating_sub(1), RawString::default());
    }
}

/// Sets the gap after the value at the place.
pub(crate) fn put_gap_after(array: &mut Array, at: usize, gap: RawString)
    requires { at < length (items_of array.old) }
    ensures items { items_of array.new
        ≡ with_gap (suc at) gap (array_fields array.old) (items_of array.old) }
    ensures fields { array_fields array.new
        ≡ fields_with_gap (suc at) gap (array_fields array.old) (items_of array.old) }
{
    let count = array.len();
    let next = at + 1;
    if next < count {
        set_prefix(array, next, gap);
    } else {
        put_last_gap(array, gap);
    }
}

/// Sets the gap at the place, which may be the last one.
fn put_gap(array: &mut Array, at: usize, gap: RawString)
    ensures items { items_of array.new
        ≡ with_gap at gap (array_fields array.old) (items_of array.old) }
    ensures fields { array_fields array.new
        ≡ fields_with_gap at gap (array_fields array.old) (items_of array.old) }
{
    if at < array.len() {
        set_prefix(array, at, gap);
    } else {
        put_last_gap(array, gap);
    }
}

/// Sets what is before the closing bracket: the suffix of the last value, unless a comma follows
/// it.
fn put_last_gap(array: &mut Array, gap: RawString)
    ensures items { items_of array.new
        ≡ (if is_closed (array_fields array.old) (items_of array.old) then items_of array.old
        else changed_at (length (items_of array.old) - 1) (with_suffix gap) (items_of array.old)) }
    ensures fields { array_fields array.new ≡ record (array_fields array.old) {
      trailing =
          (if is_closed (array_fields array.old) (items_of array.old) then gap else owned []);
    } }
{
    if is_closed(array) {
        array.set_trailing(gap);
    } else {
        let last = array.len().saturating_sub(1);
        set_suffix(array, last, gap);
        array.set_trailing(RawString::default());
    }
}

/// Returns `true` if a comma or no value is before the last gap.
fn is_closed(array: &Array) -> bool
    ensures { result ≡ is_closed (array_fields array.now) (items_of array.now) }
{
    array.trailing_comma() || array.get(array.len().saturating_sub(1)).is_none()
}

/// Returns the gap that the value at the place leaves, and the decor that it takes with it.
fn parts_removed(array: &Array, at: usize) -> Mem<(RawString, Option<Decor>)>
    requires { at < length (items_of array.now) }
    ensures left { IfOk result (λ parts. parts.0
        ≡ owned (gap_left at (array_fields array.now) (items_of array.now))) }
    ensures decor { IfOk result (λ parts. parts.1
        ≡ decor_taken (gap at (array_fields array.now) (items_of array.now))
        (before_comma at (array_fields array.now) (items_of array.now))
        (gap (suc at) (array_fields array.now) (items_of array.now)) (at == 0)) }
{
    let alloc = *array.values.allocator();
    let count = array.len();
    let (is_first, is_last) = (at == 0, at + 1 >= count);
    let before = gap_text(array, at)?;
    let after = gap_text(array, at + 1)?;
    let suffix = before_comma(array, at, is_last);
    let rest = left_of(alloc, before.as_str(), after.as_str(), is_first, is_last)?;
    let left = join_three(alloc, suffix_left(array, at), rest.as_str(), "")?;
    let decor = decor_taken(alloc, before.as_str(), suffix, after.as_str(), is_first)?;
    Ok((RawString::from_string(left)?, decor))
}

/// Returns what is after the value before the one at the place, if the array then ends in it.
fn suffix_left(array: &Array, at: usize) -> &str
    requires { at < length (items_of array.now) }
    ensures { result.now ≡ (if is_last at (items_of array.now)
        then last_suffix (array_fields array.now) (removed_at at (items_of array.now)) else []) }
{
    let count = array.len();
    if at + 1 < count {
        return "";
    }
    if array.trailing_comma() || at == 0 {
        return "";
    }
    text_of(suffix_at(array, at - 1))
}

/// Returns what is between the value at the place and the comma after it.
fn before_comma(array: &Array, at: usize, is_last: bool) -> &str
    ensures { result.now ≡ (if (array_fields array.now).comma || not is_last
        then side_text (suffix_at at (items_of array.now)) else []) }
{
    if array.trailing_comma() || !is_last {
        text_of(suffix_at(array, at))
    } else {
        ""
    }
}

/// Removes the value at the place, and leaves this gap there.
fn take_between(array: &mut Array, at: usize, left: RawString) -> Value
    requires { IsSome (value_at at (items_of array.old)) }
    ensures value { Some (value_view result) ≡ value_at at (items_of array.old) }
    ensures items { items_of array.new
        ≡ with_gap at left (array_fields array.old) (removed_at at (items_of array.old)) }
    ensures fields { array_fields array.new
        ≡ fields_with_gap at left (array_fields array.old) (removed_at at (items_of array.old)) }
{
    let value = array.remove(at);
    put_gap(array, at, left);
    value
}

/// Removes the comma that ends the array if no slot is before it.
fn drop_lone_comma(array: &mut Array)
    ensures items { items_of array.new ≡ items_of array.old }
    ensures fields { array_fields array.new
        ≡ comma_kept (items_of array.old) (array_fields array.old) }
{
    if array.is_empty() {
        array.set_trailing_comma(false);
    }
}

/// Returns the value with this decor, if there is one, in place of its own.
fn with_decor_taken(value: Value, decor: Option<Decor>) -> Value
    ensures { value_view result ≡ redecorated decor (value_view value) }
{
    let mut value = value;
    if let Some(decor) = decor {
        *value.decor_mut() = decor;
    }
    value
}

/// Sets the prefix of the value at the place, if there is one.
pub(crate) fn set_prefix(array: &mut Array, at: usize, prefix: RawString)
    ensures items { items_of array.new
        ≡ changed_at at (with_prefix prefix) (items_of array.old) }
    ensures fields { array_fields array.new ≡ array_fields array.old }
{
    if let Some(value) = array.get_mut(at) {
        value.decor_mut().set_prefix(prefix);
    }
}

/// Sets the suffix of the value at the place, if there is one.
fn set_suffix(array: &mut Array, at: usize, suffix: RawString)
    ensures items { items_of array.new
        ≡ changed_at at (with_suffix suffix) (items_of array.old) }
    ensures fields { array_fields array.new ≡ array_fields array.old }
{
    if let Some(value) = array.get_mut(at) {
        value.decor_mut().set_suffix(suffix);
    }
}

/// Sets the decor of the value at the place, if there is one: this prefix, and no suffix.
fn set_prefix_only(array: &mut Array, at: usize, prefix: RawString)
    ensures items { items_of array.new ≡ changed_at at (placed prefix) (items_of array.old) }
    ensures fields { array_fields array.new ≡ array_fields array.old }
{
    let mut decor = Decor::default();
    decor.set_prefix(prefix);
    if let Some(value) = array.get_mut(at) {
        *value.decor_mut() = decor;
    }
}

/// Returns the gap at the place.
pub(crate) fn gap_text(array: &Array, at: usize) -> Mem<String>
    ensures { IfOk result (λ text. string_bytes text
        ≡ gap at (array_fields array.now) (items_of array.now)) }
{
    let alloc = *array.values.allocator();
    if at < array.len() {
        let prefix = text_or(prefix_at(array, at), default_before(at));
        return String::from_str(alloc, prefix);
    }
    join_three(
        alloc,
        last_suffix(array),
        text_of(Some(array.trailing())),
        "",
    )
}

/// Returns what is between the last value and the closing bracket, if no comma ends the array.
fn last_suffix(array: &Array) -> &str
    ensures { result.now ≡ last_suffix (array_fields array.now) (items_of array.now) }
{
    if array.trailing_comma() {
        return "";
    }
    text_of(suffix_at(array, array.len().saturating_sub(1)))
}

/// Returns what is after the value at the place and its comma.
fn text_behind(array: &Array, at: usize) -> &str
    requires { at < length (items_of array.now) }
    ensures { result.now ≡ behind at (array_fields array.now) (items_of array.now) }
{
    let count = array.len();
    let next = at + 1;
    if next < count {
        return text_of(prefix_at(array, next));
    }
    let suffix = last_suffix(array);
    if is_white(suffix) {
        text_of(Some(array.trailing()))
    } else {
        suffix
    }
}

/// Returns the prefix of the value at the place.
pub(crate) fn prefix_at(array: &Array, at: usize) -> Option<&RawString>
    ensures { option_copied result ≡ prefix_at at (items_of array.now) }
{
    array.get(at)?.decor().prefix()
}

/// Returns the suffix of the value at the place.
fn suffix_at(array: &Array, at: usize) -> Option<&RawString>
    ensures { option_copied result ≡ suffix_at at (items_of array.now) }
{
    array.get(at)?.decor().suffix()
}
