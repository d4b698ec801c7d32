//! Putting the lines of tables and the texts of values into sinks.
//!
//! The functions between a loop and the text of one line have one or two callers each. They are
//! inlined, since a call would cost more than most of them do.
#![tactic(auto, using(toml_edit_io::proofs::Puts::put_steps))]

ghost use Rattle.std.specs.Prelude.{◌≡◌, true, [], ◌∷◌, ◌++◌};
ghost use Rattle.std.specs.Option.{option_copied};
ghost use Rattle.std.specs.Fmt.{WritesInCalls};
ghost use Rattle.toml_edit_model.specs.Mode.{plain};
ghost use Rattle.toml_edit_model.specs.Syntax.{comma_text, path_text};
ghost use Rattle.toml_edit_model.specs.Text.{newline};
ghost use Rattle.toml_edit_model.specs.Tree.{key_text, node_decor, shown_suffix};
ghost use Rattle.toml_edit_model.specs.Conversions.{value_display};
ghost use Rattle.toml_edit_model.specs.Print.{one_space, element_default, inside_lines, segments, table_lines};
ghost use Rattle.toml_edit_laws.specs.PrintByVisits.{has_lines, comma_before, last_shown, before_key, dotted_keys, key_part, pair_start, element_text, between_pairs, after_pairs, pairs_shown, lines_text, written_items};
ghost use Rattle.toml_edit_repr.specs.Modes.{mode_of};
ghost use Rattle.toml_edit_tree.specs.Printing.{node_text, keys_on, lines_of_item, lines_in_table};
ghost use Rattle.toml_edit_tree.specs.Containers.{array_node, inline_node};
ghost use Rattle.toml_edit_tree.specs.View.{array_view, inline_view, value_view, item_view, items_view, slots_view, table_slots, fields_view};

use crate::array::Array;
use crate::inline_table::InlineTable;
use crate::item::Item;
use crate::table::Table;
use crate::value::Value;
use crate::visit::{LineVisitor, visit_lines};
use toml_edit_io::{Printed, Sink};
use toml_edit_key::Key;
use toml_edit_repr::{Decor, Mode, put_last_comma, put_raw, put_scalar, put_side};
use toml_edit_slots::Slots;

/// The keys on the way to a slot or to a table, from the outermost in.
///
/// Each key refers to the path before it, so paths share their beginnings and none is copied.
#[doc(hidden)]
#[derive(Clone, Copy)]
pub enum Path<'p, 'k> {
    /// No keys.
    Root,
    /// A path, and one more key at its end.
    Under(&'p Path<'p, 'k>, &'k Key),
}

/// Puts the lines of a table: one for each value, and in their place those of dotted tables and
/// of dotted inline tables.
///
/// The keys of each line begin below the table. Its header isn't put, and neither are the tables
/// below it that have headers.
#[doc(hidden)]
pub fn put_table_lines<S: Sink>(out: &mut S, mode: Mode, table: &Table)
    ensures { WritesInCalls S.puts out.old
        (lines_text (mode_of mode) (table_lines (mode_of mode) (table_slots table.now) []))
        out.new }
{
    visit_lines(&mut PutLines { out, mode }, table);
}

/// Puts each line that it visits.
#[derive(Drop)]
struct PutLines<'s, S> {
    out: &'s mut S,
    mode: Mode,
}

impl<S: Sink> LineVisitor for PutLines<'_, S> {
    ghost use Rattle.toml_edit_tree.specs.Visits.{PutsLine};

    ghost visits = { λ before line goes after. PutsLine S.puts (mode_of before.mode) before.out line
        goes (mode_of after.mode) after.out };

    #[inline(always)]
    fn visit(&mut self, path: &Path<'_, '_>, key: &Key, value: &Value) -> bool {
        put_line(self.out, self.mode, path, key, value);
        true
    }
}

/// Returns `true` if [`put_table_lines`] puts a line.
#[doc(hidden)]
pub fn table_has_lines(table: &Table) -> bool
    ensures { result ≡ has_lines (table_slots table.now) }
{
    !visit_lines(&mut FirstLine, table)
}

/// Ends a walk at the first line.
#[derive(Drop)]
struct FirstLine;

impl LineVisitor for FirstLine {
    ghost use Rattle.std.specs.Prelude.{◌≡◌, false};

    ghost visits = { λ _ _ goes _. goes ≡ false };

    #[inline(always)]
    fn visit(&mut self, _path: &Path<'_, '_>, _key: &Key, _value: &Value) -> bool {
        false
    }
}

/// Puts the line of a value, up to its line feed (LF).
///
/// In exact mode, a carriage return (CR) before it comes from the suffix of the value.
#[inline(always)]
fn put_line<S: Sink>(out: &mut S, mode: Mode, path: &Path<'_, '_>, key: &Key, value: &Value)
    ensures { WritesInCalls S.puts out.old
        (pair_start (mode_of mode) [] (keys_on path.now) key.now (value_view value.now)
        (node_text (mode_of mode) (value_view value.now))
        ++ (shown_suffix (mode_of mode) [] (node_decor (value_view value.now)) ++ newline))
        out.new }
{
    let decor = value.decor();
    put_key_part(out, mode, "", path, key);
    put_side(out, mode, decor.prefix(), " ");
    put_value_text(out, mode, value);
    put_side(out, mode, decor.suffix(), "");
    out.put("\n")
}

/// Puts the keys of a line or a pair, inside the leaf decor of the last one, and `=`. An unset
/// prefix is put as `default`, and an unset suffix as one space.
#[inline(always)]
fn put_key_part<S: Sink>(out: &mut S, mode: Mode, default: &str, path: &Path<'_, '_>, key: &Key)
    ensures { WritesInCalls S.puts out.old
        (key_part (mode_of mode) default.now (keys_on path.now) key.now) out.new }
{
    let decor = key.leaf_decor();
    put_side(out, mode, decor.prefix(), default);
    put_dotted_keys(out, mode, path);
    put_before_key(out, mode, path, key);
    put_key_text(out, key);
    put_side(out, mode, decor.suffix(), " ");
    out.put("=")
}

/// Puts the keys of a path with their dotted decors, and a dot after each.
fn put_dotted_keys<S: Sink>(out: &mut S, mode: Mode, path: &Path<'_, '_>)
    ensures { WritesInCalls S.puts out.old
        (dotted_keys (mode_of mode) true (keys_on path.now)) out.new }
{
    match path {
        Path::Root => {}
        Path::Under(up, key) => {
            put_dotted_keys(out, mode, up);
            put_before_key(out, mode, up, key);
            put_key_text(out, key);
            put_side(out, mode, key.dotted_decor().suffix(), "");
            out.put(".")
        }
    }
}

/// Puts the prefix of the dotted decor of the key, unless `path` has no key before it.
#[inline(always)]
fn put_before_key<S: Sink>(out: &mut S, mode: Mode, path: &Path<'_, '_>, key: &Key)
    ensures { WritesInCalls S.puts out.old
        (before_key (mode_of mode) (keys_on path.now) key.now) out.new }
{
    match path {
        Path::Root => {}
        Path::Under(_, _) => put_side(out, mode, key.dotted_decor().prefix(), ""),
    }
}

/// Puts the keys of `path` and then `key`, with dots between them.
///
/// Of the dotted decors, the sides at the two ends are left out. The leaf decor of `key` is up to
/// the caller.
#[doc(hidden)]
pub fn put_path<S: Sink>(out: &mut S, mode: Mode, path: &Path<'_, '_>, key: &Key)
    ensures { WritesInCalls S.puts out.old
        (path_text (segments (mode_of mode) (keys_on path.now ++ (key.now ∷ [])))) out.new }
{
    put_dotted_keys(out, mode, path);
    put_before_key(out, mode, path, key);
    put_key_text(out, key)
}

/// Puts the spelling of the key, or the default one if it has none that is a text.
#[inline(always)]
fn put_key_text<S: Sink>(out: &mut S, key: &Key)
    ensures { WritesInCalls S.puts out.old (key_text key.now) out.new }
{
    key.put_into(out)
}

/// Puts the value without its decor.
#[cycle(print)]
#[inline(always)]
fn put_value_text<S: Sink>(out: &mut S, mode: Mode, value: &Value)
    ensures { WritesInCalls S.puts out.old
        (node_text (mode_of mode) (value_view value.now)) out.new }
{
    match value {
        Value::String(scalar) => put_scalar(out, scalar),
        Value::Integer(scalar) => put_scalar(out, scalar),
        Value::Float(scalar) => put_scalar(out, scalar),
        Value::Boolean(scalar) => put_scalar(out, scalar),
        Value::Datetime(scalar) => put_scalar(out, scalar),
        Value::Array(array) => put_array_text(out, mode, array),
        Value::InlineTable(table) => put_inline_text(out, mode, table),
    }
}

/// Puts the array from `[` to `]`.
#[cycle(print)]
fn put_array_text<S: Sink>(out: &mut S, mode: Mode, array: &Array)
    ensures { WritesInCalls S.puts out.old
        (node_text (mode_of mode) (array_node (array_view array.now))) out.new }
{
    out.put("[");
    put_items(out, mode, &array.values, array.trailing_comma);
    put_raw(out, mode, &array.trailing);
    out.put("]")
}

/// Puts the values in order, with commas between them, and one after the last if `comma` is set.
/// Other items are left out.
#[cycle(print)]
#[inline(always)]
fn put_items<S: Sink>(out: &mut S, mode: Mode, items: &Vec<Item>, comma: bool)
    ensures { WritesInCalls S.puts out.old
        (written_items (mode_of mode) comma true (items_view items.now.items)) out.new }
{
    let mut is_first = true;
    'items: for item in items {
        if let Item::Value(value) = item {
            put_element(out, mode, value, is_first);
            is_first = false;
        }
    }
    put_last_comma(out, comma, is_first)
}

/// Puts a value of an array with its decor, after a comma unless it is the first.
#[cycle(print)]
#[inline(always)]
fn put_element<S: Sink>(out: &mut S, mode: Mode, value: &Value, is_first: bool)
    ensures { WritesInCalls S.puts out.old
        (element_text (mode_of mode) is_first (value_view value.now)
        (node_text (mode_of mode) (value_view value.now))) out.new }
{
    let decor = value.decor();
    put_comma_before(out, is_first);
    put_side(out, mode, decor.prefix(), default_before(is_first));
    put_value_text(out, mode, value);
    put_side(out, mode, decor.suffix(), "")
}

/// Puts the comma before an element that is not the first.
fn put_comma_before<S: Sink>(out: &mut S, is_first: bool)
    ensures { WritesInCalls S.puts out.old (comma_before is_first) out.new }
{
    if !is_first {
        out.put(",")
    }
}

/// Returns the text of an unset prefix of an element.
fn default_before(is_first: bool) -> &'static str
    ensures { result.now ≡ element_default is_first }
{
    if is_first { "" } else { " " }
}

/// Puts the inline table from `{` to `}`.
#[cycle(print)]
fn put_inline_text<S: Sink>(out: &mut S, mode: Mode, table: &InlineTable)
    ensures { WritesInCalls S.puts out.old
        (node_text (mode_of mode) (inline_node (inline_view table.now))) out.new }
{
    out.put("{");
    let last = put_pairs(out, mode, &table.items, &Path::Root, None);
    put_after_pairs(out, mode, table.trailing_comma, last);
    put_raw(out, mode, &table.trailing);
    out.put("}")
}

/// Puts the pairs of the slots, up to the end of the last value, and returns the decor of the
/// last value.
///
/// `before` is the decor of the value that was put before them. What follows a value depends on
/// whether another pair comes, so its suffix is put later.
#[cycle(print)]
fn put_pairs<'p, 'a, S: Sink>(
    out: &mut S,
    mode: Mode,
    slots: &'a Slots<Item>,
    path: &'p Path<'p, 'a>,
    before: Option<&'a Decor>,
) -> Option<&'a Decor>
    ensures last { option_copied result
        ≡ last_shown (option_copied before.entry)
        (inside_lines (mode_of mode) (slots_view slots.now) (keys_on path.now)) }
    ensures text { WritesInCalls S.puts out.old
        (pairs_shown (mode_of mode) (option_copied before.entry)
        (inside_lines (mode_of mode) (slots_view slots.now) (keys_on path.now))) out.new }
{
    let mut last = before;
    let entries = slots.as_slice();
    'slots: for slot in entries {
        last = put_item_pairs(out, mode, &slot.item, &slot.key, path, last);
    }
    last
}

/// Puts the pairs of one slot, as [`put_pairs`] does: those in a table or in a dotted inline table,
/// or the one of any other value.
///
/// The longer path is made once, since each level of a path of dotted keys has room for it on the
/// stack.
#[cycle(print)]
#[inline(always)]
fn put_item_pairs<'p, 'a, S: Sink>(
    out: &mut S,
    mode: Mode,
    item: &'a Item,
    key: &'a Key,
    path: &'p Path<'p, 'a>,
    before: Option<&'a Decor>,
) -> Option<&'a Decor>
    ensures last { option_copied result
        ≡ last_shown (option_copied before.entry)
        (lines_of_item (mode_of mode) (item_view item.now) (keys_on path.now ++ (key.now ∷ []))) }
    ensures text { WritesInCalls S.puts out.old
        (pairs_shown (mode_of mode) (option_copied before.entry)
        (lines_of_item (mode_of mode) (item_view item.now)
        (keys_on path.now ++ (key.now ∷ [])))) out.new }
{
    let under = Path::Under(path, key);
    match item {
        Item::Value(value) => match value {
            Value::InlineTable(table) => {
                if table.dotted {
                    put_pairs(out, mode, &table.items, &under, before)
                } else {
                    put_pair(out, mode, value, key, path, before);
                    Some(value.decor())
                }
            }
            _ => {
                put_pair(out, mode, value, key, path, before);
                Some(value.decor())
            }
        },
        Item::Table(table) => put_pairs(out, mode, &table.slots, &under, before),
        Item::None | Item::ArrayOfTables(_) => before,
    }
}

/// Puts a pair up to the end of its value, and before it the end of the pair before.
#[cycle(print)]
#[inline(always)]
fn put_pair<S: Sink>(
    out: &mut S,
    mode: Mode,
    value: &Value,
    key: &Key,
    path: &Path<'_, '_>,
    before: Option<&Decor>,
)
    ensures { WritesInCalls S.puts out.old
        (between_pairs (mode_of mode) (option_copied before.entry)
        ++ pair_start (mode_of mode) one_space (keys_on path.now) key.now
        (value_view value.now) (node_text (mode_of mode) (value_view value.now))) out.new }
{
    put_between_pairs(out, mode, before);
    put_key_part(out, mode, " ", path, key);
    put_side(out, mode, value.decor().prefix(), " ");
    put_value_text(out, mode, value)
}

/// Puts the end of a pair that another follows: the suffix of its value, and a comma.
fn put_between_pairs<S: Sink>(out: &mut S, mode: Mode, before: Option<&Decor>)
    ensures { WritesInCalls S.puts out.old
        (between_pairs (mode_of mode) (option_copied before.entry)) out.new }
{
    match before {
        None => {}
        Some(decor) => {
            put_side(out, mode, decor.suffix(), "");
            out.put(",")
        }
    }
}

/// Puts the end of the last pair: the suffix of its value, which is one space if unset, and a
/// comma if `comma` is set. Without pairs nothing is put.
fn put_after_pairs<S: Sink>(out: &mut S, mode: Mode, comma: bool, last: Option<&Decor>)
    ensures { WritesInCalls S.puts out.old
        (after_pairs (mode_of mode) comma (option_copied last.entry)) out.new }
{
    match last {
        None => {}
        Some(pair) => {
            put_side(out, mode, pair.suffix(), " ");
            put_last_comma(out, comma, false)
        }
    }
}

/// A value that is printed without its decor, in plain mode.
#[doc(hidden)]
#[derive(Drop)]
pub struct Bare<'a>(pub &'a Value);

impl Printed for Bare<'_> {
    ghost text = { λ bare. node_text plain (value_view bare.0.now) };

    fn put_into<S: Sink>(&self, out: &mut S) {
        put_value_text(out, Mode::Plain, self.0)
    }
}

/// Puts the array with its decor, in plain mode. Unset sides are put as nothing.
pub(crate) fn put_array<S: Sink>(out: &mut S, array: &Array)
    ensures { WritesInCalls S.puts out.old
        (value_display (array_node (array_view array.now))) out.new }
{
    put_side(out, Mode::Plain, array.decor().prefix(), "");
    put_array_text(out, Mode::Plain, array);
    put_side(out, Mode::Plain, array.decor().suffix(), "")
}

/// Puts the inline table with its decor, in plain mode. Unset sides are put as nothing.
pub(crate) fn put_inline<S: Sink>(out: &mut S, table: &InlineTable)
    ensures { WritesInCalls S.puts out.old
        (value_display (inline_node (inline_view table.now))) out.new }
{
    put_side(out, Mode::Plain, table.decor().prefix(), "");
    put_inline_text(out, Mode::Plain, table);
    put_side(out, Mode::Plain, table.decor().suffix(), "")
}
