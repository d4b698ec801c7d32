//! Checking a text.
ghost use Rattle.std.specs.Prelude.{◌≡◌, ◌⊎◌, None, IsUtf8};
ghost use Rattle.toml_edit_c.specs.Answers.{IsUnanswered};
ghost use Rattle.toml_edit_c.specs.Asks.{options_by};
ghost use Rattle.toml_edit_c.specs.Checks.{IsAccepted, TellsRefusal, nowhere, place_of};

use crate::answer::{Answer, DONE, Stop, put, silent};
use crate::given::options_of;
use std::alloc::Global;
use std::str;
use toml_edit::{Document, ParseFault, TomlError};

/// A place in a text. All numbers are 0 if there is none.
#[repr(C)]
#[derive(Clone, Copy, Debug, Default)]
pub struct Place {
    /// The first byte, from 0.
    pub start: usize,
    /// The byte after the last.
    pub end: usize,
    /// The line of the first byte, from 1.
    pub line: usize,
    /// The column of the first byte, from 1 and in characters.
    pub column: usize,
}

/// Checks the text, and gives the message if it is refused.
///
/// The status is 0 if the text is accepted and 2 if it is refused; `place` is where. The message is
/// written if it fits in the room, and `needed` is how many bytes it has in any case.
#[unsafe(no_mangle)]
pub extern "C" fn toml_edit_check(
    alloc: Global,
    flags: u32,
    text: &[u8],
    place: &mut Place,
    room: &mut [u8],
) -> Answer
    ensures accepted { result.status ≡ 0 → IsAccepted flags text.now }
    ensures refused { result.status ≡ 2
        → TellsRefusal flags text.now place.new result room.old room.new }
    ensures encoding { result.status ≡ 3 → ¬ (IsUtf8 text.now) }
    ensures flags { result.status ≡ 10 → options_by flags ≡ None }
    ensures status { (result.status ≡ 0) ⊎ (result.status ≡ 2) ⊎ (result.status ≡ 3)
        ⊎ (result.status ≡ 9) ⊎ (result.status ≡ 10) }
    ensures untold { ¬ (result.status ≡ 2)
        → IsUnanswered result room.old room.new × (place.new ≡ nowhere) }
{
    *place = Place::default();
    let Ok(options) = options_of(flags) else {
        return silent(Stop::Flags.status());
    };
    let Ok(text) = str::from_utf8(text) else {
        return silent(Stop::NotUtf8.status());
    };
    match Document::parse_with(alloc, text, options) {
        Ok(document) => {
            drop(document);
            silent(DONE)
        }
        Err(ParseFault::Toml(error)) => {
            *place = place_in(&error);
            let needed = put(error.message().as_bytes(), room).needed;
            let status = Stop::Refused.status();
            Answer { status, needed }
        }
        Err(ParseFault::Memory) => silent(Stop::Memory.status()),
    }
}

/// Returns the place that an error is about.
fn place_in(error: &TomlError) -> Place
    ensures { result ≡ place_of error.now }
{
    match error.span() {
        Some(span) => Place {
            start: span.start,
            end: span.end,
            line: error.line().unwrap_or(0),
            column: error.column().unwrap_or(0),
        },
        None => Place::default(),
    }
}
