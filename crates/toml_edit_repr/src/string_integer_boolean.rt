//! Strings, integers and booleans as scalar values.
ghost use Rattle.std.specs.Prelude.{◌≡◌, IfOk, string_bytes};
ghost use Rattle.std.specs.Fmt.{WritesInCalls};
ghost use Rattle.toml_edit_model.specs.DefaultSpelling.{default_spelling};
ghost use Rattle.toml_edit_model.specs.Scalars.{integer};
ghost use Rattle.toml_edit_model.specs.Spelling.{SpellsInRange};
ghost use Rattle.toml_edit_model.specs.Tree.{owned};

use crate::repr::{Repr, ScalarValue, ValueRepr, default_repr_of};
use itoa::Buffer;
use std::alloc::Global;
use toml_edit_io::Sink;
use toml_edit_text::Mem;
use toml_edit_token::put_string;

impl ScalarValue for String {
    ghost use Rattle.toml_edit_model.specs.Scalars.{string};

    ghost scalar = { λ value. string (string_bytes value) };

    fn put_default<S: Sink>(&self, out: &mut S) {
        put_string(out, self.as_str())
    }

    fn copy(&self, alloc: Global) -> Mem<String> {
        String::from_str(alloc, self.as_str())
    }
}

impl ValueRepr for String {
    ghost use Rattle.std.specs.Prelude.{string_bytes};
    ghost use Rattle.toml_edit_model.specs.Scalars.{string};
    ghost use Rattle.toml_edit_model.specs.Spelling.{SpellsInRange};

    ghost spells = { λ t value. SpellsInRange (string (string_bytes value)) t };

    ghost spells_scalar = { λ t x. (λ spelled. spelled, λ spelled. spelled) };

    fn to_repr(&self, alloc: Global) -> Mem<Repr> {
        default_repr_of(alloc, self)
    }
}

/// Returns the default spelling of an integer. It is passed by value, so that the proof knows its
/// range.
fn integer_repr(alloc: Global, value: i64) -> Mem<Repr>
    ensures default { IfOk result (λ repr. repr ≡ owned (default_spelling (integer value))) }
    ensures spelled { ∥ SpellsInRange (integer value) (default_spelling (integer value)) ∥₁ }
{
    default_repr_of(alloc, &value)
}

/// Puts the integer in decimal, with a minus sign if it is negative.
fn put_integer<S: Sink>(out: &mut S, value: i64)
    ensures { WritesInCalls S.puts out.old (default_spelling (integer value)) out.new }
{
    let mut buffer = Buffer::new();
    out.put(buffer.format(value))
}

impl ScalarValue for i64 {
    ghost use Rattle.toml_edit_model.specs.Scalars.{integer};

    ghost scalar = { integer };

    fn put_default<S: Sink>(&self, out: &mut S) {
        put_integer(out, *self)
    }

    fn copy(&self, _alloc: Global) -> Mem<i64> {
        Ok(*self)
    }
}

impl ValueRepr for i64 {
    ghost use Rattle.toml_edit_model.specs.Scalars.{integer};
    ghost use Rattle.toml_edit_model.specs.Spelling.{SpellsInRange};

    ghost spells = { λ t value. SpellsInRange (integer value) t };

    ghost spells_scalar = { λ t x. (λ spelled. spelled, λ spelled. spelled) };

    fn to_repr(&self, alloc: Global) -> Mem<Repr> {
        integer_repr(alloc, *self)
    }
}

impl ScalarValue for bool {
    ghost use Rattle.toml_edit_model.specs.Scalars.{boolean};

    ghost scalar = { boolean };

    fn put_default<S: Sink>(&self, out: &mut S) {
        out.put(if *self { "true" } else { "false" })
    }

    fn copy(&self, _alloc: Global) -> Mem<bool> {
        Ok(*self)
    }
}

impl ValueRepr for bool {
    ghost use Rattle.toml_edit_model.specs.Scalars.{boolean};
    ghost use Rattle.toml_edit_model.specs.Spelling.{SpellsInRange};

    ghost spells = { λ t value. SpellsInRange (boolean value) t };

    ghost spells_scalar = { λ t x. (λ spelled. spelled, λ spelled. spelled) };

    fn to_repr(&self, alloc: Global) -> Mem<Repr> {
        default_repr_of(alloc, self)
    }
}
