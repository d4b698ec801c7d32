//! The commands `get`, `has`, `keys` and `json`.
ghost use Rattle.std.specs.Option.{option_copied};
ghost use Rattle.std.specs.Prelude.{◌≡◌, ◌↔◌, Any, IfErr, IsTrue, option_map};
ghost use Rattle.toml_edit.specs.DocumentView.{tree_owned};
ghost use Rattle.toml_edit_edit_laws.specs.Commands.{item_at};
ghost use Rattle.toml_edit_files.specs.Answers.{IsJsonAt, IsNoJson};
ghost use Rattle.toml_edit_files.specs.Get.{AreGot, HasAt, IsGot, IsListedAt, IsNotGot, IsNotListed, found_at};
ghost use Rattle.toml_edit_files.specs.Stops.{reason_of};
ghost use Rattle.toml_edit_items.specs.Texts.{GivesText};
ghost use Rattle.toml_edit_model.specs.Keys.{names};
ghost use Rattle.toml_edit_tree.specs.View.{item_view};

use crate::messages::wrong_at;
use crate::stop::{Reason, Step, Stop};
use crate::words::{Get, Has, Json, Keys};
use std::alloc::Global;
use toml_edit::{DocumentMut, Item, Key};
use toml_edit_items::{Shape, key_lines, kind_of, path_lines};

/// Returns the texts of the items at the paths, one after another.
pub fn get(alloc: Global, document: &DocumentMut, command: &Get<'_>) -> Step<String>
    ensures text { GivesText (AreGot command.now.shape (option_copied command.now.default)
        (found_at (tree_owned document.now) command.now.paths.items)) result }
    ensures stops { IfErr result
        (λ stop. Any (IsNotGot command.now.shape (option_copied command.now.default)
        (reason_of stop)) (found_at (tree_owned document.now) command.now.paths.items)) }
{
    let mut text = String::new(alloc);
    'paths: for path in &command.paths {
        let path = path.as_slice();
        let found = document.get_at(path);
        let got = got_text(alloc, command, path, found)?;
        text.push_str(got.as_str())?;
    }
    Ok(text)
}

/// Returns the text of what is found at a path, or the default if nothing is.
fn got_text(alloc: Global, command: &Get<'_>, path: &[Key], found: Option<&Item>) -> Step<String>
    ensures text { GivesText (IsGot command.now.shape (option_copied command.now.default)
        (option_map (λ x. item_view x.now) found.entry)) result }
    ensures stops { IfErr result (λ stop. IsNotGot command.now.shape
        (option_copied command.now.default) (reason_of stop)
        (option_map (λ x. item_view x.now) found.entry)) }
{
    match (found, command.default) {
        (Some(item), _) => match command.shape.print(alloc, item)? {
            Some(text) => Ok(text),
            None => {
                let why = why_not(command.shape, item);
                let message = wrong_at(alloc, command.file, path, why)?;
                Err(Stop::Message(Reason::Mistaken, message))
            }
        },
        (None, Some(default)) => Ok(format!(in alloc; "{default}\n")?),
        (None, None) => Err(Stop::Silent),
    }
}

/// Returns why an item has no text in a shape.
fn why_not(shape: Shape, item: &Item) -> &'static str {
    match shape {
        Shape::Spelled => "does not fit",
        Shape::Raw => "no scalar",
        Shape::Lines if item.is_array() => "an element has no line of its own",
        Shape::Lines => "no array",
    }
}

/// Returns `true` if something is at the path, and it is of the kind, if one is asked for.
pub fn has(document: &DocumentMut, command: &Has<'_>) -> bool
    ensures { IsTrue result ↔ HasAt command.now.kind (item_at (names command.now.path.items)
        (tree_owned document.now)) }
{
    match (document.get_at(command.path.as_slice()), command.kind) {
        (None, _) => false,
        (Some(_), None) => true,
        (Some(item), Some(kind)) => kind_of(item) == Some(kind),
    }
}

/// Returns the keys of the table at the path, as they are spelled, one a line; or the paths of all
/// that is below it: scalars, arrays and empty tables.
pub fn keys(alloc: Global, document: &DocumentMut, command: &Keys<'_>) -> Step<String>
    ensures text { GivesText (IsListedAt command.now.all command.now.path.items
        (tree_owned document.now)) result }
    ensures stops { IfErr result (λ stop. IsNotListed command.now.all (reason_of stop)
        (item_at (names command.now.path.items) (tree_owned document.now))) }
{
    let path = command.path.as_slice();
    let Some(item) = document.get_at(path) else {
        return Err(Stop::Silent);
    };
    if command.all {
        return Ok(path_lines(alloc, path, item)?);
    }
    match key_lines(alloc, item)? {
        Some(text) => Ok(text),
        None => {
            let message = wrong_at(alloc, command.file, path, "no table")?;
            Err(Stop::Message(Reason::Mistaken, message))
        }
    }
}

/// Returns the item at the path as JSON, and a newline.
pub fn json(alloc: Global, document: &DocumentMut, command: &Json<'_>) -> Step<String>
    ensures text { GivesText
        (IsJsonAt (names command.now.path.items) (tree_owned document.now)) result }
    ensures stops { IfErr result (λ stop. IsNoJson (reason_of stop)
        (item_at (names command.now.path.items) (tree_owned document.now))) }
{
    let Some(item) = document.get_at(command.path.as_slice()) else {
        return Err(Stop::Silent);
    };
    let mut text = toml_edit_io::print(alloc, &toml_edit_json::Json(item))?;
    text.push('\n')?;
    Ok(text)
}
