//! Converting a document to JSON.
use anyhow::{Result, ensure};
use std::alloc::Global;
use std::fmt::Write;
use toml_edit::{DocumentMut, Value};

/// Returns a document as JSON. Keys keep their order, and numbers their digits.
pub fn to_json(alloc: Global, document: &DocumentMut) -> Result<String> {
    let root = document.as_table().clone(alloc)?.into_inline_table();
    let mut out = String::new(alloc);
    write_value(&mut out, &Value::from(root), 10_000)?;
    Ok(out)
}

fn write_value(out: &mut String, value: &Value, levels: usize) -> Result<()> {
    ensure!(levels > 0, "nested too deeply");
    match value {
        Value::String(text) => write_text(out, text.value().as_str())?,
        Value::Integer(number) => write!(out, "{}", number.value())?,
        Value::Float(float) => write_float(out, float.value().as_str())?,
        Value::Boolean(flag) => write!(out, "{}", flag.value())?,
        Value::Datetime(datetime) => write!(out, "\"{}\"", datetime.value())?,
        Value::Array(array) => {
            let mut start = '[';
            for value in array.iter() {
                out.push(start)?;
                write_value(out, value, levels - 1)?;
                start = ',';
            }
            out.push_str(if array.is_empty() { "[]" } else { "]" })?;
        }
        Value::InlineTable(table) => {
            let mut start = '{';
            for (key, value) in table.iter() {
                out.push(start)?;
                write_text(out, key)?;
                out.push(':')?;
                write_value(out, value, levels - 1)?;
                start = ',';
            }
            out.push_str(if table.is_empty() { "{}" } else { "}" })?;
        }
    }
    Ok(())
}

fn write_text(out: &mut String, text: &str) -> Result<()> {
    out.push('"')?;
    for c in text.chars() {
        match c {
            '"' | '\\' => write!(out, "\\{c}")?,
            '\0'..='\x1f' => write!(out, "\\u{:04x}", c as u32)?,
            _ => out.push(c)?,
        }
    }
    out.push('"')?;
    Ok(())
}

fn write_float(out: &mut String, float: &str) -> Result<()> {
    ensure!(!float.ends_with(['f', 'n']), "JSON has no {float}");
    for c in float.trim_start_matches('+').chars().filter(|c| *c != '_') {
        out.push(c)?;
    }
    Ok(())
}
