//! What an item says of the value that it holds, and how it displays.
use test_rows_read::Answer;
use toml_edit::Item;

/// Answers by a call of the item itself that its value has too.
pub fn tell(item: &Item, call: &str, out: &mut Answer) {
    match call {
        "item_as_str" => out.text_or_none(item.as_str()),
        "item_as_integer" => out.shown_or_none(item.as_integer().as_ref()),
        "item_as_float_text" => out.shown_or_none(item.as_float_text()),
        "item_as_bool" => out.shown_or_none(item.as_bool().as_ref()),
        "item_as_datetime" => out.shown_or_none(item.as_datetime()),
        "item_as_array" => out.shown_or_none(item.as_array()),
        "item_as_inline_table" => out.shown_or_none(item.as_inline_table()),
        "item_span" => out.span(item.span()),
        "item_to_string" => out.shown(item),
        "item_kinds" => tell_kinds(item, out),
        call => out.no_such(call),
    }
}

/// Writes each kind of value that the item says it is.
fn tell_kinds(item: &Item, out: &mut Answer) {
    let kinds = [
        ("str", item.is_str()),
        ("integer", item.is_integer()),
        ("float", item.is_float()),
        ("bool", item.is_bool()),
        ("datetime", item.is_datetime()),
        ("array", item.is_array()),
        ("inline_table", item.is_inline_table()),
    ];
    for (kind, is_of_it) in kinds.iter() {
        if *is_of_it {
            out.text(kind);
        }
    }
}
