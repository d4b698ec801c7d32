//! Slots of any item that an inline table lends.
use crate::program::Values;
use serde_json::Value as Json;
use test_rows_read::steps::{behind, index, word};
use test_rows_read::tell::{Told, write};
use test_rows_read::{Answer, key, list, make, value};
use toml_edit::{InlineSlotMut, InlineTable};

/// Makes a step with a slot, or changes what is none.
pub fn change(table: &mut InlineTable, words: &[Json], out: &mut Answer) {
    let name = word(words, 1);
    let rest = behind(words, 2);
    match word(words, 0) {
        "slot_mut" => match table.slot_mut(name) {
            Some(mut slot) => change_slot(&mut slot, rest, out),
            None => out.text("none"),
        },
        "get_key_value_mut" => match table.get_key_value_mut(name) {
            Some(mut slot) => change_slot(&mut slot, rest, out),
            None => out.text("none"),
        },
        "key_value_at_mut" => match table.key_value_at_mut(index(words)) {
            Some(mut slot) => change_slot(&mut slot, rest, out),
            None => out.text("none"),
        },
        "key_mut" => match table.key_mut(name) {
            Some(mut lent) => key::call_lent(&mut lent, rest, out),
            None => out.text("none"),
        },
        _ => list::change_inline(table, words, out),
    }
}

/// Changes the decor of the key, or the item. The answer to a call that returns nothing is empty.
fn change_slot(slot: &mut InlineSlotMut<'_>, words: &[Json], out: &mut Answer) {
    let rest = behind(words, 1);
    match word(words, 0) {
        "key" => out.shown(slot.key()),
        "get" => slot.get().tell(out),
        "leaf_decor_mut" => value::change_decor(slot.leaf_decor_mut(), rest, out),
        "dotted_decor_mut" => value::change_decor(slot.dotted_decor_mut(), rest, out),
        "fmt_key" => slot.fmt_key(),
        "key_mut" => key::call_lent(&mut slot.key_mut(), rest, out),
        "get_mut" => write(
            Some(slot.get_mut()),
            make::item::<Values>(word(words, 1), out),
            out,
        ),
        call => out.no_such(call),
    }
}
