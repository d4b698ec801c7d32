//! Sinks, which texts are put into, and values that have a text.
ghost use Rattle.std.specs.Prelude.{List, ℕ};
ghost use Rattle.std.specs.Char.{encode_utf8};
ghost use Rattle.std.specs.Fmt.{WritesInCalls};

/// A sink: texts are put into it, one after another.
///
/// No call of a sink has an error. A sink that can fail remembers its fault, and whoever made it
/// looks for that at the end. So code that puts a text has no error to hand on, and can be written
/// once for all sinks.
///
/// # Examples
///
/// A function for any text and any sink:
///
/// ```rust,ignore
/// pub fn put_text<P: Printed, S: Sink>(printed: &P, out: &mut S)
/// ```
///
/// From `put_text` of the crate `example_calls`.
pub trait Sink {
    // What a call does: the sink before it, the text, and the sink after it.
    ghost puts: { Self → List ℕ → Self → Type 0 };

    /// Puts the text into the sink.
    fn put(&mut self, text: &str)
        ensures { WritesInCalls puts self.old text.now self.new };

    /// Puts the character into the sink, as UTF-8.
    final fn put_char(&mut self, character: char)
    where
        Self: Sized,
        ensures { WritesInCalls puts self.old (encode_utf8 character) self.new }
    {
        let mut bytes = [0u8; 4];
        self.put(character.encode_utf8(&mut bytes))
    }
}

/// A value that has a text, which can be put into any sink.
///
/// # Examples
///
/// ```rust,ignore
/// printed.put_into(out)
/// ```
///
/// From `put_text` of the crate `example_calls`.
pub trait Printed {
    // The text.
    ghost text: { Self → List ℕ };

    /// Puts the text into the sink, piece by piece.
    fn put_into<S: Sink>(&self, out: &mut S)
        ensures { WritesInCalls S.puts out.old (text self.now) out.new };
}
