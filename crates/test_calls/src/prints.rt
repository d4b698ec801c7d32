//! Prints to outputs that take little at a time, or fail.
use crate::holding::{holds_changed, holds_moved};
use crate::streams::Short;
use std::alloc::Global;
use std::io;
use std::io::Write;
use toml_edit::{
    Broken, DocumentMut, FromStr, Key, Output, PrintFault, Printed, Value, Watched, print_to,
};

const TEXT: &str =
    "# a\nk = [1, 2]  # b\nd.e = 'x'\n\n[t]\nu = { v = 1.5 }\n[[w]]\n[[w]]\nx = true\n# end\n";

/// The order of these headers is not that of their tables.
const HEADERS: &str = "[a.x]\n[b]\n[a.y]\n";

/// A writer that takes so many bytes at a time.
#[derive(Drop)]
struct Bites<'a> {
    held: &'a mut Vec<u8>,
    most: usize,
}

impl Write for Bites<'_> {
    fn write(&mut self, buf: &[u8]) -> io::Result<usize> {
        let count = self.most.min(buf.len());
        self.held.extend_from_slice(&buf[..count])?;
        Ok(count)
    }

    fn flush(&mut self) -> io::Result<()> {
        Ok(())
    }
}

/// Returns the result of a print to this writer, and whether the writer has failed then.
fn answer<W: Write + Drop>(
    alloc: Global,
    document: &DocumentMut,
    writer: W,
) -> (Result<(), PrintFault>, bool) {
    let mut out = Watched::new(writer);
    let answer = document.print_to(alloc, &mut out);
    (answer, Output::failed(&out))
}

/// Returns `true` if a writer that takes so many bytes at a time gets the whole text.
fn prints_in_bites(alloc: Global, document: &DocumentMut, most: usize) -> bool {
    let mut held = Vec::new(alloc);
    let bites = Bites {
        held: &mut held,
        most,
    };
    answer(alloc, document, bites) == (Ok(()), false) && held.as_slice() == TEXT.as_bytes()
}

fn prints_in_all_bites(alloc: Global, document: &mut DocumentMut) -> bool {
    prints_in_bites(alloc, document, 1)
        && prints_in_bites(alloc, document, 3)
        && prints_in_bites(alloc, document, usize::MAX)
}

fn prints_whole(alloc: Global, document: DocumentMut) -> bool {
    holds_changed(alloc, document, prints_in_all_bites)
}

#[test]
fn prints_to_slow_writers(rt: HostRuntime) {
    let document = DocumentMut::from_str(rt.alloc(), TEXT).ok();
    assert!(rt; holds_moved(rt.alloc(), document, prints_whole));
}

/// Returns `true` if a writer with so much room holds the text up to there, and the fault is
/// returned.
fn fills(alloc: Global, document: &DocumentMut, room: usize) -> bool {
    let mut held = Vec::new(alloc);
    let short = Short::of(&mut held, room);
    answer(alloc, document, short) == (Err(PrintFault::Device), true)
        && Some(held.as_slice()) == HEADERS.as_bytes().get(..room)
}

fn fills_each_room(alloc: Global, document: &mut DocumentMut) -> bool {
    let mut is_filled = true;
    for room in 0..HEADERS.len() {
        is_filled = is_filled && fills(alloc, document, room);
    }
    is_filled
}

fn prints_beginnings(alloc: Global, document: DocumentMut) -> bool {
    holds_changed(alloc, document, fills_each_room)
}

#[test]
fn leaves_a_beginning_where_the_writer_fails(rt: HostRuntime) {
    let document = DocumentMut::from_str(rt.alloc(), HEADERS).ok();
    assert!(rt; holds_moved(rt.alloc(), document, prints_beginnings));
}

/// Returns the result of a print of a part of a document to this writer, and whether the writer has
/// failed then.
fn answer_of_part<P: Printed, W: Write + Drop>(
    printed: &P,
    writer: W,
) -> (Result<(), Broken>, bool) {
    let mut out = Watched::new(writer);
    let answer = print_to(&mut out, printed);
    (answer, Output::failed(&out))
}

/// Returns `true` if a writer with so much room holds the text up to there, and the fault is
/// returned.
fn fills_by_part<P: Printed>(alloc: Global, printed: &P, text: &str, room: usize) -> bool {
    let mut held = Vec::new(alloc);
    let short = Short::of(&mut held, room);
    answer_of_part(printed, short) == (Err(Broken), true)
        && Some(held.as_slice()) == text.as_bytes().get(..room)
}

/// Returns `true` if a writer that takes so many bytes at a time gets the whole text.
fn prints_part_in_bites<P: Printed>(alloc: Global, printed: &P, text: &str, most: usize) -> bool {
    let mut held = Vec::new(alloc);
    let bites = Bites {
        held: &mut held,
        most,
    };
    answer_of_part(printed, bites) == (Ok(()), false) && held.as_slice() == text.as_bytes()
}

/// Returns `true` if outputs that take little get the whole text, and those that fail the beginning
/// of it for which they have room.
fn prints_part<P: Printed>(alloc: Global, printed: &P, text: &str) -> bool {
    let mut is_filled = prints_part_in_bites(alloc, printed, text, 1)
        && prints_part_in_bites(alloc, printed, text, 100)
        && prints_part_in_bites(alloc, printed, text, usize::MAX);
    for room in 0..text.len() {
        is_filled = is_filled && fills_by_part(alloc, printed, text, room);
    }
    is_filled
}

/// A value of 451 bytes, with a string of 304: more than is written at once.
const LONG: &str = "[\n  '0123456789 0123456789 0123456789 0123456789', # 0123456789 0123456789\n\
    \x20 { a = 0x10, 'b' = 1979-05-27T07:32:00Z, c.d = [1e400, true] },\n\
    \x20 '0123456789 0123456789 0123456789 0123456789 0123456789 0123456789 0123456789\
    0123456789 0123456789 0123456789 0123456789 0123456789 0123456789 0123456789\
    0123456789 0123456789 0123456789 0123456789 0123456789 0123456789 0123456789\
    0123456789 0123456789 0123456789 0123456789 0123456789 0123456789 0123456789',\n]";

fn prints_value(alloc: Global, value: &mut Value) -> bool {
    prints_part(alloc, value, LONG)
}

fn prints_long_value(alloc: Global, value: Value) -> bool {
    holds_changed(alloc, value, prints_value)
}

#[test]
fn leaves_a_beginning_of_a_value(rt: HostRuntime) {
    let value = <Value as FromStr>::from_str(rt.alloc(), LONG).ok();
    assert!(rt; holds_moved(rt.alloc(), value, prints_long_value));
}

fn prints_name(alloc: Global, key: &mut Key) -> bool {
    prints_part(alloc, key, "\"it's \\\"b\\\"\"")
}

fn prints_key(alloc: Global, key: Key) -> bool {
    holds_changed(alloc, key, prints_name)
}

#[test]
fn leaves_a_beginning_of_a_key(rt: HostRuntime) {
    let key = Key::from_text(rt.alloc(), "it's \"b\"").ok();
    assert!(rt; holds_moved(rt.alloc(), key, prints_key));
}

fn prints_lines(alloc: Global, document: &mut DocumentMut) -> bool {
    prints_part(
        alloc,
        document.as_table(),
        "# a\nk = [1, 2]  # b\nd.e = 'x'\n",
    )
}

fn prints_root(alloc: Global, document: DocumentMut) -> bool {
    holds_changed(alloc, document, prints_lines)
}

#[test]
fn leaves_a_beginning_of_a_table(rt: HostRuntime) {
    let document = DocumentMut::from_str(rt.alloc(), TEXT).ok();
    assert!(rt; holds_moved(rt.alloc(), document, prints_root));
}
