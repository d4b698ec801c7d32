//! Answers as texts.
use std::alloc::Global;
use std::fmt::{Debug, Display};
use std::ops::Range;
use toml_edit_repr::{Mem, RawString, Repr};
use toml_edit_slots::NoMemory;

/// The number of bytes that an answer makes room for if the rest of a row is to take no memory.
/// `tools/refusals.py` knows the request by this number, and refuses each one after it.
const ROOM: usize = 77777;

/// An answer that is being written.
///
/// It remembers whether memory ran out for it, and whether a call that ran out of memory did wrong.
/// Nothing is added once memory ran out: the text is a beginning of the answer then.
#[derive(Drop)]
pub struct Answer {
    pub alloc: Global,
    text: String,
    handed: String,
    is_refused: bool,
    is_call_refused: bool,
    is_wrong: bool,
    is_roomy: bool,
}

impl Answer {
    /// Makes the empty answer.
    pub fn new(alloc: Global) -> Answer {
        Answer {
            alloc,
            text: String::new(alloc),
            handed: String::new(alloc),
            is_refused: false,
            is_call_refused: false,
            is_wrong: false,
            is_roomy: false,
        }
    }

    /// Makes room for so many bytes more.
    pub fn reserve(&mut self, room: usize) {
        if self.text.reserve(room).is_err() {
            self.cut_short();
        }
    }

    /// Makes room for the rest of the answer, so that writing it takes no memory.
    pub fn make_room(&mut self) {
        self.reserve(ROOM);
        self.is_roomy = true;
    }

    /// Returns `true` if writing the answer takes no memory.
    pub fn is_roomy(&self) -> bool {
        self.is_roomy
    }

    /// Returns the answer as it stands.
    pub fn as_str(&self) -> &str {
        self.text.as_str()
    }

    /// Returns `true` if memory ran out, for this answer or for a call.
    pub fn is_refused(&self) -> bool {
        self.is_refused
    }

    /// Notes that memory ran out for a call.
    pub fn refuse(&mut self) {
        self.is_refused = true;
        self.is_call_refused = true;
    }

    /// Notes that memory ran out for the answer alone.
    pub fn cut_short(&mut self) {
        self.is_refused = true;
    }

    /// Returns `true` if memory ran out for a call.
    pub fn is_call_refused(&self) -> bool {
        self.is_call_refused
    }

    /// Writes what a call that ran out of memory did wrong.
    pub fn wrong(&mut self, what: &str) {
        self.is_wrong = true;
        self.is_refused = false;
        self.text(what);
        self.is_refused = true;
    }

    /// Returns `true` if a call that ran out of memory did wrong.
    pub fn is_wrong(&self) -> bool {
        self.is_wrong
    }

    /// Clears an answer for which memory ran out, if the wanted one begins so.
    pub fn is_to_begin(&mut self, wanted: &str) {
        if self.is_wrong {
            return;
        }
        if wanted.starts_with(self.text.as_str()) {
            self.text.clear();
        } else {
            self.wrong("a refused call has told something else");
        }
    }

    /// Notes what is passed to a call, which has to come back if memory runs out.
    pub fn handed<T: Debug>(&mut self, item: T) -> T {
        self.handed.clear();
        if !self.is_roomy && write!(self.handed, "{item:?}").is_err() {
            self.cut_short();
        }
        item
    }

    /// Notes that memory ran out for a call, which gave this back.
    pub fn given_back<T: Debug + Drop>(&mut self, refused: NoMemory<T>) {
        let mut back = String::new(self.alloc);
        let NoMemory(item) = refused;
        let is_written = write!(back, "{item:?}").is_ok();
        drop(item);
        if is_written && back.as_str() != self.handed.as_str() {
            self.wrong("a refused call has given something else back");
        }
        self.refuse();
    }

    /// Clears the answer.
    pub fn clear(&mut self) {
        self.text.clear();
    }

    /// Writes a text.
    pub fn text(&mut self, text: &str) {
        if !self.is_refused && self.text.push_str(text).is_err() {
            self.is_refused = true;
        }
    }

    /// Writes what displays.
    pub fn shown<T: Display>(&mut self, shown: &T) {
        if !self.is_refused && write!(self.text, "{shown}").is_err() {
            self.is_refused = true;
        }
    }

    /// Writes what `Debug` shows.
    pub fn debugged<T: Debug>(&mut self, shown: &T) {
        if !self.is_refused && write!(self.text, "{shown:?}").is_err() {
            self.is_refused = true;
        }
    }

    /// Writes what was made, if there was memory for it.
    pub fn made<T: Display + Drop>(&mut self, made: Mem<T>) {
        match made {
            Ok(made) => self.shown(&made),
            Err(_) => self.refuse(),
        }
    }

    /// Writes a boolean.
    pub fn truth(&mut self, holds: bool) {
        self.text(truth(holds));
    }

    /// Writes a boolean, if there was memory to find it.
    pub fn told(&mut self, holds: Mem<bool>) {
        match holds {
            Ok(holds) => self.truth(holds),
            Err(_) => self.refuse(),
        }
    }

    /// Writes the text, or `none`.
    pub fn text_or_none(&mut self, found: Option<&str>) {
        self.text(found.unwrap_or("none"));
    }

    /// Writes what displays, or `none`.
    pub fn shown_or_none<T: Display>(&mut self, found: Option<&T>) {
        match found {
            Some(shown) => self.shown(shown),
            None => self.text("none"),
        }
    }

    /// Writes the span, or `none`.
    pub fn span(&mut self, found: Option<Range<usize>>) {
        match found {
            Some(range) => self.range(range.start, range.end),
            None => self.text("none"),
        }
    }

    /// Writes the span from `start` up to `end`.
    pub fn range(&mut self, start: usize, end: usize) {
        self.shown(&start);
        self.text("..");
        self.shown(&end);
    }

    /// Writes the text, or the span that it is.
    pub fn raw(&mut self, raw: Option<&RawString>) {
        match raw {
            Some(raw) => self.raw_text(raw),
            None => self.text("none"),
        }
    }

    fn raw_text(&mut self, raw: &RawString) {
        match raw.as_str() {
            Some(text) => self.text(text),
            None => self.span(raw.span()),
        }
    }

    /// Returns what was made. Notes it if memory ran out.
    pub fn given<T>(&mut self, made: Mem<T>) -> Mem<T> {
        if made.is_err() {
            self.refuse();
        }
        made
    }

    /// Notes it if memory ran out for a change.
    pub fn done(&mut self, done: Mem<()>) {
        if done.is_err() {
            self.refuse();
        }
    }

    /// Notes it if memory ran out for an insertion.
    pub fn put<T: Debug + Drop>(&mut self, put: Result<(), NoMemory<T>>) {
        if let Err(refused) = put {
            self.given_back(refused);
        }
    }

    /// Notes it if memory ran out for a change whose result is not asked for.
    pub fn tried<R: Drop, T: Debug + Drop>(&mut self, change: Result<R, NoMemory<T>>) {
        if let Err(refused) = change {
            self.given_back(refused);
        }
    }

    /// Writes what was replaced, if there was memory for the change.
    pub fn old<T: Display + Debug + Drop>(&mut self, old: Result<T, NoMemory<T>>) {
        match old {
            Ok(old) => self.shown(&old),
            Err(refused) => self.given_back(refused),
        }
    }

    /// Writes the spelling that was made, if there was memory for it.
    pub fn repr(&mut self, made: Mem<Repr>) {
        match made {
            Ok(repr) => self.raw_text(repr.as_raw()),
            Err(_) => self.refuse(),
        }
    }

    /// Writes that there is no such call or question.
    pub fn no_such(&mut self, call: &str) {
        self.text("no such call or question: ");
        self.text(call);
    }
}

/// Returns how a boolean is written.
pub fn truth(holds: bool) -> &'static str {
    if holds { "true" } else { "false" }
}
