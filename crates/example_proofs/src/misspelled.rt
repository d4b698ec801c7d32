//! Finding keys that are spelled in another way than by default.
ghost use Rattle.std.specs.List.{starts_with};
ghost use Rattle.std.specs.Prelude.{◌≡◌, IfErr, IfOk, drop, nat_eq, option_map};
ghost use Rattle.toml_edit.specs.Documents.{IsReading, IsRefusal};
ghost use Rattle.toml_edit.specs.error.Fault.{IfToml};
ghost use Rattle.toml_edit.specs.model.Tree.{Tree};
ghost use Rattle.toml_edit_visit.specs.Steps.{steps_on};
ghost use Rattle.example_proofs.specs.Misspelled.{last_key, misspelled_at, misspelled_key, misspelled_keys};

use std::alloc::Global;
use toml_edit::visit::{Path, Visit, visit_item};
use toml_edit::{Document, Item, Key, Mem, ParseFault, line_column};

/// Where a key begins, counted from 1, columns in characters.
#[derive(Clone, Copy, Debug, PartialEq, Eq)]
pub struct Place {
    pub line: usize,
    pub column: usize,
}

/// Returns the places of all keys of a text that are spelled in another way than by default, such as
/// `"a"` for `a`, in the order of its tree, which keeps one spelling of each key.
///
/// # Errors
///
/// [`ParseFault::Toml`] if the text is refused, and [`ParseFault::Memory`] if out of memory.
pub fn misspelled(alloc: Global, text: &str) -> Result<Vec<Place>, ParseFault>
    ensures all { IfOk result (λ places. (tree : Tree) × IsReading text.now tree
        × (places.items ≡ misspelled_keys text.now tree)) }
    ensures refused { IfErr result (λ e. IfToml e (IsRefusal text.now)) }
{
    let document = Document::parse(alloc, text)?;
    let mut search = Search {
        alloc,
        source: text,
        places: Vec::new(alloc),
    };
    if visit_item(&mut search, document.as_item()) {
        Ok(search.places)
    } else {
        Err(ParseFault::Memory)
    }
}

/// The places that are found in a source.
#[derive(Drop)]
struct Search<'s> {
    alloc: Global,
    source: &'s str,
    places: Vec<Place>,
}

impl Visit for Search<'_> {
    ghost use Rattle.example_proofs.specs.Searching.{Finds};

    ghost visits = { Finds };

    fn visit(&mut self, path: &Path<'_, '_>, _item: &Item) -> bool {
        match place_of(self.alloc, self.source, path) {
            Ok(Some(place)) => self.places.push(place).is_ok(),
            Ok(None) => true,
            Err(_) => false,
        }
    }
}

/// Returns the place of the key that the path ends with, if it is spelled in another way.
fn place_of(alloc: Global, source: &str, path: &Path<'_, '_>) -> Mem<Option<Place>>
    ensures { IfOk result (λ place. place ≡ misspelled_at source.now (steps_on path.now)) }
{
    match last_key(path) {
        Some(key) => misspelled_key(alloc, source, key),
        None => Ok(None),
    }
}

/// Returns the key that the path ends with.
fn last_key<'a>(path: &Path<'_, 'a>) -> Option<&'a Key>
    ensures { option_map (λ key. key.now) result ≡ last_key (steps_on path.now) }
{
    match path {
        Path::Key(_, key) => Some(key),
        _ => None,
    }
}

/// Returns the place of the key, if it is spelled in another way in the source.
fn misspelled_key(alloc: Global, source: &str, key: &Key) -> Mem<Option<Place>>
    ensures { IfOk result (λ place. place ≡ misspelled_key source.now key.now) }
{
    let Some(span) = key.span() else {
        return Ok(None);
    };
    let default = key.default_repr(alloc)?;
    let Some(text) = default.as_raw().as_str() else {
        return Ok(None);
    };
    if span.end.saturating_sub(span.start) == text.len() && starts_at(source, span.start, text) {
        return Ok(None);
    }
    let (line, column) = line_column(source, span.start);
    Ok(Some(Place { line, column }))
}

/// Returns `true` if the source has the text from a byte on.
fn starts_at(source: &str, start: usize, text: &str) -> bool
    ensures { result ≡ starts_with nat_eq (drop start source.now) text.now }
{
    match source.as_bytes().get(start..) {
        Some(rest) => rest.starts_with(text.as_bytes()),
        None => text.is_empty(),
    }
}
