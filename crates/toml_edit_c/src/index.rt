//! The index of a document, for programs that read all of it.
ghost use Rattle.std.specs.Prelude.{◌≡◌, ◌≤◌, ◌<◌, IfErr, IfOk};
ghost use Rattle.toml_edit_c.specs.Indexes.{GivesIndex, HoldsIndex, IsIndexedBy};
ghost use Rattle.toml_edit_c.specs.Made.{StopsReadingBy};
ghost use Rattle.toml_edit_c.specs.Statuses.{IsStatusOf};

use crate::answer::{Answer, DONE, SHORT, Stop, silent};
use crate::given::options_of;
use std::alloc::Global;
use std::str;
use toml_edit::{Document, ParseFault};
use toml_edit_index::{DocumentIndex, Node, index_of};

/// Gives the nodes of a document, each before those below it, in the order of the tree.
///
/// `needed` is how many there are. They are written if they fit in the room, and what they name
/// fits in `names`, for which as many bytes as the text has are enough.
#[unsafe(no_mangle)]
pub extern "C" fn toml_edit_index(
    alloc: Global,
    flags: u32,
    text: &[u8],
    nodes: &mut [Node],
    names: &mut [u8],
) -> Answer
    ensures given { result.status ≤ 1
        → GivesIndex result nodes.old nodes.new names.old names.new flags text.now }
    ensures stopped { 1 < result.status
        → IsStatusOf (StopsReadingBy flags text.now) result.status }
    ensures unanswered { 1 < result.status
        → (result.needed ≡ 0) × (nodes.new ≡ nodes.old) × (names.new ≡ names.old) }
{
    match find(alloc, flags, text) {
        Ok(made) => give(&made, nodes, names),
        Err(stop) => silent(stop.status()),
    }
}

/// Writes the nodes and the names to the fronts of their rooms, if both fit.
fn give(made: &DocumentIndex, nodes: &mut [Node], names: &mut [u8]) -> Answer
    ensures { HoldsIndex result nodes.old nodes.new names.old names.new
        made.now.nodes.items made.now.names.items }
{
    let needed = made.nodes.len();
    let named = made.names.len();
    let status = if needed > nodes.len() || named > names.len() {
        SHORT
    } else {
        nodes[..needed].copy_from_slice(made.nodes.as_slice());
        names[..named].copy_from_slice(made.names.as_slice());
        DONE
    };
    Answer { status, needed }
}

/// Returns the index of the text.
fn find(alloc: Global, flags: u32, text: &[u8]) -> Result<DocumentIndex, Stop>
    ensures made { IfOk result
        (λ made. IsIndexedBy flags text.now made.nodes.items made.names.items) }
    ensures stops { IfErr result (StopsReadingBy flags text.now) }
{
    let options = options_of(flags)?;
    let Ok(text) = str::from_utf8(text) else {
        return Err(Stop::NotUtf8);
    };
    match Document::parse_with(alloc, text, options) {
        Ok(document) => index_of(alloc, &document).map_err(|_| Stop::Memory),
        Err(ParseFault::Toml(_)) => Err(Stop::Refused),
        Err(ParseFault::Memory) => Err(Stop::Memory),
    }
}
