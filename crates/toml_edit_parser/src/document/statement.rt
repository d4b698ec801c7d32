//! Reading one statement after another into the tree.
ghost use Rattle.std.specs.Prelude.{◌≡◌, ◌+◌, ◌-◌, ◌<◌, ◌^◌, true, false, List, ℕ, suc, pos, length, Contains, IfSome, IsNone, IsSome};
ghost use Rattle.toml_edit_model.specs.Syntax as syntax;
ghost use Rattle.toml_edit_model.specs.Syntax.{Frame, Header, Segment, Statement, key_line, path_text};
ghost use Rattle.toml_edit_model.specs.Mode as modes;
ghost use Rattle.toml_edit_model.specs.Text.{Text};
ghost use Rattle.toml_edit_model.specs.Version.{is_of_version, v1_0};
ghost use Rattle.toml_edit_model.specs.Faults.{fault, late_faults, needs_message};
ghost use Rattle.toml_edit_model.specs.Tree.{Decor};
ghost use Rattle.toml_edit_laws.specs.Building.{Builder, source_at};
ghost use Rattle.toml_edit_laws.specs.Standing.{Stands};
ghost use Rattle.toml_edit_syntax.specs.Events.{IsSpanOf, has_deep_value};
ghost use Rattle.toml_edit_syntax.specs.Grammar.{grammar};
ghost use Rattle.toml_edit_tree.specs.View.{item_view};
ghost use Rattle.toml_edit_repr.specs.Modes.{mode_of};
ghost use Rattle.toml_edit_parser.specs.PairRead.{IsEndOfPath, IsPathIn};
ghost use Rattle.toml_edit_parser.specs.PathRead.{IsPathFrom};
ghost use Rattle.toml_edit_parser.specs.Listed.{Refuses, RefusesIn};
ghost use Rattle.toml_edit_parser.specs.ValueRead.{AreIn, Leaves};
ghost use Rattle.toml_edit_parser.specs.StatementRead.{AreHeaderParts, OpensBlock, ReadsInVersion, ReadsNames, ReadsStatement, kind_of, IfHeaderDue, IfHeaderRead, IfLineDue, IfStatementDue, IfStatementNext};
ghost use Rattle.toml_edit_parser.specs.TableRead.{IsHeaded};
ghost use Rattle.toml_edit_parser.specs.Near.{IsNear};

use crate::document::block::swap_block;
use crate::document::building::Building;
use crate::document::parts::{read_header, read_key_line};
use crate::document::path::{Adding, Kind, add_path, add_value};
use crate::document::room::{Behind, room_for};
use crate::events::{raw, split_first};
use crate::fault::{Fault, malformed, refusal};
use crate::key::{KeyPath, PathName, next_name};
use crate::reader::Reader;
use crate::value::put;
use std::alloc::Global;
use std::borrow::CowStr;
use toml_edit_error::ParseFault;
use toml_edit_repr::Decor;
use toml_edit_slots::Slots;
use toml_edit_syntax::{Event, EventKind, Span, Version, late_part_of_statement};
use toml_edit_tree::{Item, Table};

/// Where the parts of a header are: the text before it, its brackets, the key inside them, and the
/// text after them.
#[derive(Clone, Copy)]
pub(crate) struct HeaderParts<'a> {
    pub(crate) leading: Span,
    pub(crate) is_array: bool,
    pub(crate) brackets: Span,
    pub(crate) path: KeyPath<'a>,
    pub(crate) trailing: Span,
}

/// Returns the first part of the statement at the front that the version lacks. If its value is too
/// deep, only what is before the bracket that is one too many counts.
fn late_part(source: &str, version: Version, events: &[Event]) -> Option<Span>
    requires { AreIn source.now events.now }
    ensures found { (s : Statement) (start : ℕ) (more : List Event)
        → IfStatementNext source.now events.now s start more
        (IfSome result (λ span. Contains (late_faults (grammar version) start s)
        (fault needs_message span.start (span.end - span.start)))) }
    ensures none { (s : Statement) (start : ℕ) (more : List Event)
        → IfStatementNext source.now events.now s start more
        (has_deep_value s ≡ false → IsNone result → is_of_version (grammar version) s ≡ true) }
    ensures span { IfSome result (λ span. IsSpanOf source.now span) }
    // TOML 1.1 lacks nothing.
    ensures early { IsSome result → grammar version ≡ v1_0 }
{
    match version {
        Version::V1_0 => late_part_of_statement(source, events),
        Version::V1_1 => None,
    }
}

/// Adds the statement at the front, if it is one of this version of the grammar. Returns the rest
/// of the events. After an error, drop the tree.
pub(crate) fn read_in_version<'s, 'a>(
    reader: &Reader<'s>,
    building: &mut Building<'s>,
    events: &'a [Event],
) -> Result<&'a [Event], ParseFault>
    requires spans { AreIn reader.now.source.now events.now }
    ensures statement { (b : Builder) (s : Statement) (more : List Event)
        → IfStatementDue reader.now.source.now building.old events.now b s more
        (ReadsInVersion (mode_of reader.now.mode) (grammar reader.now.version)
        reader.now.source.now b s more building.new result) }
    ensures refused { RefusesIn (grammar reader.now.version) reader.now.source.now result }
    ensures rest { Leaves reader.now.source.now events.now result }
{
    match late_part(reader.source, reader.version, events) {
        Some(span) => Err(refusal(reader, Fault::NeedsLaterVersion, span)),
        None => read_statement(reader, building, events),
    }
}

/// Adds the statement at the front. Returns the rest of the events. After an error, drop the tree.
fn read_statement<'s, 'a>(
    reader: &Reader<'s>,
    building: &mut Building<'s>,
    events: &'a [Event],
) -> Result<&'a [Event], ParseFault>
    requires spans { AreIn reader.now.source.now events.now }
    ensures statement { (b : Builder) (s : Statement) (more : List Event)
        → IfStatementDue reader.now.source.now building.old events.now b s more
        (ReadsStatement (mode_of reader.now.mode) reader.now.source.now b s more
        building.new result) }
    ensures refused { Refuses reader.now.source.now result }
    ensures rest { Leaves reader.now.source.now events.now result }
{
    let Some((leading, behind)) = split_first(events) else {
        return Err(malformed(reader));
    };
    let Some((opening, inside)) = split_first(behind) else {
        return Err(malformed(reader));
    };
    match opening.kind {
        EventKind::HeaderOpen => add_header(
            reader,
            leading.span,
            false,
            opening.span,
            building,
            inside,
        ),
        EventKind::ArrayHeaderOpen => add_header(
            reader,
            leading.span,
            true,
            opening.span,
            building,
            inside,
        ),
        _ => add_line(reader, leading.span, building, behind),
    }
}

/// Adds the key line after this text. Returns the rest of the events.
fn add_line<'s, 'a>(
    reader: &Reader<'s>,
    leading: Span,
    building: &mut Building<'s>,
    events: &'a [Event],
) -> Result<&'a [Event], ParseFault>
    requires leading { IsSpanOf reader.now.source.now leading }
    requires spans { AreIn reader.now.source.now events.now }
    ensures line { (b : Builder) (f : Frame) (v : syntax.Value) (end : Text) (more : List Event)
        → IfLineDue reader.now.source.now building.old leading events.now b f v end more
        (ReadsStatement (mode_of reader.now.mode) reader.now.source.now b (key_line f v end) more
        building.new result) }
    ensures refused { Refuses reader.now.source.now result }
    ensures rest { Leaves reader.now.source.now events.now result }
{
    let Building { item, current, .. } = building;
    let (path, rest) = read_key_line(reader, leading, events, item)?;
    add_value(reader, path, item, current)?;
    Ok(rest)
}

/// Adds the header after this text and its opening brackets. Returns the rest of the events. The
/// key lines that follow are its table's.
// Not inlined, so that its locals stay out of the caller's frame.
#[inline(never)]
fn add_header<'s, 'a>(
    reader: &Reader<'s>,
    leading: Span,
    is_array: bool,
    opening: Span,
    building: &mut Building<'s>,
    events: &'a [Event],
) -> Result<&'a [Event], ParseFault>
    requires leading { IsSpanOf reader.now.source.now leading }
    requires spans { AreIn reader.now.source.now events.now }
    ensures header { (b : Builder) (h : Header) (end : Text) (more : List Event)
        → IfHeaderDue reader.now.source.now building.old leading is_array opening events.now b h end
        more (ReadsStatement (mode_of reader.now.mode) reader.now.source.now b
        (syntax.header h end) more building.new result) }
    ensures refused { Refuses reader.now.source.now result }
    ensures rest { Leaves reader.now.source.now events.now result }
{
    let (header, rest) = read_header(reader, events)?;
    let brackets = Span {
        start: opening.start,
        end: header.end,
    };
    let parts = HeaderParts {
        leading,
        is_array,
        brackets,
        path: header.path,
        trailing: header.trailing,
    };
    let behind = Behind {
        source: reader.source,
        // Between two keys there are two events of whitespace.
        keys: header.path.events.len() / 3 + 1,
        events: rest,
        ahead: building.ahead,
    };
    open_block(reader, parts, behind, building)?;
    Ok(rest)
}

/// Adds the table of a header to the tree, and takes the table's slots out of it. Makes room for
/// those that follow, if there is the memory.
fn open_block<'s>(
    reader: &Reader<'s>,
    header: HeaderParts<'_>,
    behind: Behind<'_>,
    building: &mut Building<'s>,
) -> Result<(), ParseFault>
    requires leading { IsNear header.leading }
    requires path { IsPathIn reader.now.source.now header.path }
    requires trailing { IsNear header.trailing }
    ensures opens { (mode : modes.Mode) (b : Builder) (h : Header) (end : Text)
        → IfHeaderRead mode reader.now.source.now building.old header.entry b h end
        (OpensBlock mode reader.now.source.now b (syntax.header h end) building.new result) }
    ensures refused { Refuses reader.now.source.now result }
{
    swap_block(
        building.block.as_slice(),
        &mut building.current,
        &mut building.root,
    );
    building.headers = number_after(building.headers, reader.source);
    read_names(reader, header.path, &mut building.block)?;
    head_item(
        reader.alloc,
        header,
        building.headers as isize,
        room_for(behind),
        &mut building.item,
    );
    let adding = Adding {
        reader,
        kind: header_kind(header),
        behind,
    };
    add_path(&adding, header.path, &mut building.item, &mut building.root)?;
    swap_block(
        building.block.as_slice(),
        &mut building.current,
        &mut building.root,
    );
    Ok(())
}

/// Returns the number of the header after so many of the text. Each takes up bytes, so there are
/// never more than those.
fn number_after(headers: usize, source: &str) -> usize
    ensures next { headers < length source.now → result ≡ headers + 1 }
    ensures limit { result < 2 ^ 63 }
{
    let most = source.len();
    if headers < most { headers + 1 } else { most }
}

/// Returns what a header adds.
fn header_kind(header: HeaderParts<'_>) -> Kind
    ensures { result ≡ kind_of header.entry.is_array header.entry.brackets }
{
    if header.is_array {
        Kind::Element(header.brackets)
    } else {
        Kind::Table
    }
}

/// Puts the table of the header of this number in the item's place, without slots, but with room
/// for so many.
fn head_item(alloc: Global, header: HeaderParts<'_>, position: isize, room: usize, item: &mut Item)
    requires leading { IsNear header.leading }
    requires trailing { IsNear header.trailing }
    ensures { (mode : modes.Mode) (b : Builder) (h : Header) (end : Text)
        → AreHeaderParts mode h end b.start header.entry → position ≡ pos (suc b.headers)
        → IsHeaded mode (source_at b (syntax.header h end)) (item_view item.new) }
{
    put(item, headed_item(alloc, header, position, room));
}

/// Makes the table of the header of this number, without slots, but with room for so many.
fn headed_item(alloc: Global, header: HeaderParts<'_>, position: isize, room: usize) -> Item
    requires leading { IsNear header.leading }
    requires trailing { IsNear header.trailing }
    ensures { (mode : modes.Mode) (b : Builder) (h : Header) (end : Text)
        → AreHeaderParts mode h end b.start header.entry → position ≡ pos (suc b.headers)
        → IsHeaded mode (source_at b (syntax.header h end)) (item_view result) }
{
    let decor = Decor::new(raw(header.leading), raw(header.trailing));
    let Span { start, end } = header.brackets;
    let slots = Slots::with_room(alloc, room);
    Item::Table(Table::headed(slots, decor, position, start, end))
}

/// Reads the names of the keys of a path, in place of the names that were there.
fn read_names<'s>(
    reader: &Reader<'s>,
    path: KeyPath<'_>,
    names: &mut Vec<CowStr<'s>>,
) -> Result<(), ParseFault>
    requires { AreIn reader.now.source.now path.events.now }
    ensures names { (own : Decor) (p : List Segment) (start : ℕ) → IsEndOfPath p
        → Stands reader.now.source.now start (path_text p)
        → IsPathFrom own start p path.entry → ReadsNames p names.new.items result }
    ensures refused { Refuses reader.now.source.now result }
{
    names.clear();
    let mut left = path;
    'keys: loop {
        let PathName { name, rest } = next_name(reader, left)?;
        names.push(name)?;
        match rest {
            Some(inside) => left = inside,
            None => return Ok(()),
        }
    }
}
