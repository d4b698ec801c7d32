//! Paths: where an item stands, and its text.
ghost use Rattle.std.specs.Prelude.{◌≡◌, IfOk, Some, string_bytes};
ghost use Rattle.std.specs.Fmt.{WritesInCalls, decimal};
ghost use Rattle.toml_edit_visit.specs.Steps.{dotted_text, path_text, steps_on};

use itoa::Buffer;
use std::alloc::Global;
use std::fmt;
use std::fmt::{Formatter, Write};
use toml_edit_io::{Printed, Sink, print, show};
use toml_edit_key::Key;
use toml_edit_repr::Mem;

/// The steps from where a walk began down to an item, the last one outermost.
///
/// Each step refers to the path before it, so paths share their beginnings and none is copied.
#[derive(Clone, Copy)]
pub enum Path<'p, 'a> {
    /// No steps: where the walk began.
    Root,
    /// A path, and then the slot of a key.
    Key(&'p Path<'p, 'a>, &'a Key),
    /// A path, and then an element of an array or an array of tables, by its place.
    Element(&'p Path<'p, 'a>, usize),
}

impl Path<'_, '_> {
    /// Returns the text of the path, as `package.authors.0` or `target."cfg(unix)".dependencies`.
    ///
    /// Keys are in their spellings, or in default ones, elements are numbers counted from 0, and
    /// there is a dot between each two. `Key::parse` makes keys of it, for calls that take a path.
    ///
    /// # Errors
    ///
    /// Returns an `AllocError` if out of memory.
    pub fn to_string(&self, alloc: Global) -> Mem<String>
        ensures { IfOk result (λ text. string_bytes text ≡ path_text (steps_on self.now)) }
    {
        print(alloc, self)
    }
}

/// Writes the text of the path.
impl fmt::Display for Path<'_, '_> {
    ghost output = { λ path. Some (path_text (steps_on path)) };

    fn fmt<W: Write>(&self, f: &mut Formatter<W>) -> fmt::Result {
        show(f, self)
    }
}

impl Printed for Path<'_, '_> {
    ghost text = { λ path. path_text (steps_on path) };

    fn put_into<S: Sink>(&self, out: &mut S) {
        match self {
            Path::Root => {}
            Path::Key(up, key) => {
                put_dotted(out, up);
                key.put_into(out)
            }
            Path::Element(up, place) => {
                put_dotted(out, up);
                put_place(out, *place)
            }
        }
    }
}

/// Puts the steps of the path, and a dot after each.
fn put_dotted<S: Sink>(out: &mut S, path: &Path<'_, '_>)
    ensures { WritesInCalls S.puts out.old (dotted_text (steps_on path.now)) out.new }
{
    match path {
        Path::Root => {}
        Path::Key(up, key) => {
            put_dotted(out, up);
            key.put_into(out);
            out.put(".")
        }
        Path::Element(up, place) => {
            put_dotted(out, up);
            put_place(out, *place);
            out.put(".")
        }
    }
}

/// Puts the place in decimal.
#[inline(never)]
fn put_place<S: Sink>(out: &mut S, place: usize)
    ensures { WritesInCalls S.puts out.old (decimal place) out.new }
{
    let mut digits = Buffer::new();
    out.put(digits.format(place))
}
