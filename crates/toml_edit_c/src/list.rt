//! The keys of a table, and whether something is at a path.
ghost use Rattle.std.specs.Prelude.{◌≡◌, ◌<◌, IfErr, IfOk, OnOk};
ghost use Rattle.toml_edit_c.specs.Answers.{Answers};
ghost use Rattle.toml_edit_c.specs.Items.{AreKeysBy, AreKeysOf, HasItem, StopsItemBy, StopsKeysBy, StopsKeysOf};
ghost use Rattle.toml_edit_c.specs.Statuses.{IsStatusOf};
ghost use Rattle.toml_edit_tree.specs.View.{item_view};

use crate::answer::{Answer, DONE, Stop, give};
use crate::calls::item_at;
use crate::given::{options_of, read};
use std::alloc::Global;
use toml_edit::Item;
use toml_edit_items::key_lines;

/// Gives the keys of the table at the path, as they are spelled, one a line. The empty path leads
/// to the root.
#[unsafe(no_mangle)]
pub extern "C" fn toml_edit_keys(
    alloc: Global,
    flags: u32,
    text: &[u8],
    path: &[u8],
    room: &mut [u8],
) -> Answer
    ensures { Answers (AreKeysBy flags text.now path.now)
        (IsStatusOf (StopsKeysBy flags text.now path.now)) result room.old room.new }
{
    give(keys(alloc, flags, text, path), room)
}

/// Says whether an item is at the path: the status is 0 then, and 6 if nothing is there.
#[unsafe(no_mangle)]
pub extern "C" fn toml_edit_has(alloc: Global, flags: u32, text: &[u8], path: &[u8]) -> u32
    ensures has { result ≡ 0 → HasItem flags text.now path.now (λ n. Unit {0}) }
    ensures stopped { 0 < result → IsStatusOf (StopsItemBy flags text.now path.now) result }
{
    match has(alloc, flags, text, path) {
        Ok(()) => DONE,
        Err(stop) => stop.status(),
    }
}

fn has(alloc: Global, flags: u32, text: &[u8], path: &[u8]) -> Result<(), Stop>
    ensures has { OnOk result (HasItem flags text.now path.now (λ n. Unit {0})) }
    ensures stops { IfErr result (StopsItemBy flags text.now path.now) }
{
    let document = read(alloc, text, options_of(flags)?)?;
    item_at(alloc, &document, path)?;
    Ok(())
}

fn keys(alloc: Global, flags: u32, text: &[u8], path: &[u8]) -> Result<Vec<u8>, Stop>
    ensures made { IfOk result (λ s. AreKeysBy flags text.now path.now s.items) }
    ensures stops { IfErr result (StopsKeysBy flags text.now path.now) }
{
    let document = read(alloc, text, options_of(flags)?)?;
    keys_of(alloc, item_at(alloc, &document, path)?)
}

fn keys_of(alloc: Global, item: &Item) -> Result<Vec<u8>, Stop>
    ensures made { IfOk result (λ s. AreKeysOf s.items (item_view item.now)) }
    ensures stops { IfErr result (StopsKeysOf (item_view item.now)) }
{
    match key_lines(alloc, item).map_err(|_| Stop::Memory)? {
        Some(lines) => Ok(lines.into_bytes()),
        None => Err(Stop::WrongKind),
    }
}
