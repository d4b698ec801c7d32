//! Lines and columns of many bytes of a text.
ghost use Rattle.std.specs.Prelude.{◌≡◌, ◌<◌, ◌+◌, ◌^◌, IfOk, length};
ghost use Rattle.toml_edit_index.specs.Lines.{AreLines, after_byte, after_bytes, position_at};

use std::alloc::Global;
use toml_edit::Mem;

/// A line and a column, from 1, columns in characters.
#[derive(Clone, Copy, Debug)]
pub struct Position {
    pub line: usize,
    pub column: usize,
}

/// The text, and the positions of its bytes 0, 64, 128 and so on and of its end. So a position takes
/// a few steps, wherever in a long line it is.
#[derive(Drop)]
pub struct Lines<'a> {
    bytes: &'a [u8],
    marks: Vec<Position>,
}

const BLOCK: usize = 64;

const FIRST: Position = Position { line: 1, column: 1 };

impl<'a> Lines<'a> {
    /// Finds the position of every 64th byte of the text.
    pub fn new(alloc: Global, text: &'a str) -> Mem<Lines<'a>>
        ensures { IfOk result (AreLines text.now) }
    {
        let bytes = text.as_bytes();
        let mut marks = Vec::new(alloc);
        let mut here = FIRST;
        'bytes: for (at, byte) in bytes.iter().enumerate() {
            if at % BLOCK == 0 {
                marks.push(here)?;
            }
            here = here.after_byte(*byte);
        }
        marks.push(here)?;
        Ok(Lines { bytes, marks })
    }

    /// Returns where a byte of the text is, or its end.
    pub fn position(&self, byte: usize) -> Position
        requires { AreLines self.now.bytes.now self.now }
        ensures { result ≡ position_at self.now.bytes.now byte }
    {
        let byte = byte.min(self.bytes.len());
        let at = byte / BLOCK;
        self.marks[at].after(&self.bytes[at * BLOCK..byte])
    }
}

impl Position {
    /// Returns the position behind these bytes.
    fn after(self, bytes: &[u8]) -> Position
        requires line { self.line + length bytes.now < 2 ^ 64 }
        requires column { self.column + length bytes.now < 2 ^ 64 }
        ensures { result ≡ after_bytes self bytes.now }
    {
        let mut here = self;
        'bytes: for byte in bytes {
            here = here.after_byte(*byte);
        }
        here
    }

    /// Returns the position behind a byte.
    fn after_byte(self, byte: u8) -> Position
        requires line { self.line + 1 < 2 ^ 64 }
        requires column { self.column + 1 < 2 ^ 64 }
        ensures { result ≡ after_byte self byte }
    {
        if byte == b'\n' {
            return Position {
                line: self.line + 1,
                column: 1,
            };
        }
        Position {
            line: self.line,
            column: self.column + usize::from(!(byte >= 0x80 && byte < 0xC0)),
        }
    }
}
