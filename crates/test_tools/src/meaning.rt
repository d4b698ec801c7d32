//! What a document means, as JSON in which each scalar says its type.
//!
//! Tables are objects, and arrays of either kind are arrays. A scalar is an object of two texts, as
//! the common suite of TOML's texts has them: `{"type":"integer","value":"1"}`.
use serde_json::Value as Json;
use std::alloc::{AllocError, Global};
use std::fmt::Display;
use std::mem;
use toml_edit::{
    Datetime, DocumentMut, Item, Mem, ParseFault, ParseOptions, Table, Value, Version,
};

/// More levels than a document has. A header leads 80 levels down, and a line 80 more.
const LEVELS: usize = 200;

/// Returns what a document means, as TOML 1.0 if that is asked for, or `None` if it is refused.
pub fn meaning_of(alloc: Global, text: &str, strict: bool) -> Mem<Option<String>> {
    let options = if strict {
        ParseOptions::new().version(Version::V1_0)
    } else {
        ParseOptions::new()
    };
    match DocumentMut::from_str_with(alloc, text, options) {
        Ok(document) => {
            let meaning = Meaning::of(alloc, document.as_table());
            // The process ends after this, which frees the document in one step.
            mem::forget(document);
            Ok(Some(meaning?))
        }
        Err(ParseFault::Toml(_)) => Ok(None),
        Err(ParseFault::Memory) => Err(AllocError),
    }
}

/// A meaning that is being written.
#[derive(Drop)]
struct Meaning {
    alloc: Global,
    json: String,
}

impl Meaning {
    /// Returns what the table means.
    fn of(alloc: Global, table: &Table) -> Mem<String> {
        let mut meaning = Meaning {
            alloc,
            json: String::new(alloc),
        };
        meaning.table(table, LEVELS)?;
        meaning.json.push('\n')?;
        Ok(meaning.json)
    }

    /// Writes the object of a table.
    fn table(&mut self, table: &Table, levels: usize) -> Mem<()> {
        if levels == 0 {
            return self.json.push_str("null");
        }
        let mut is_first = true;
        for (name, item) in table.iter() {
            self.json.push_str(if is_first { "{" } else { "," })?;
            self.name(name)?;
            match item {
                Item::None => self.json.push_str("null")?,
                Item::Value(value) => self.value(value, LEVELS)?,
                Item::Table(table) => self.table(table, levels - 1)?,
                Item::ArrayOfTables(tables) => {
                    let mut is_first = true;
                    for table in tables.iter() {
                        self.json.push_str(if is_first { "[" } else { "," })?;
                        self.table(table, levels - 1)?;
                        is_first = false;
                    }
                    self.json
                        .push_str(if tables.is_empty() { "[]" } else { "]" })?;
                }
            }
            is_first = false;
        }
        self.json
            .push_str(if table.is_empty() { "{}" } else { "}" })
    }

    /// Writes the array or the object of a value.
    fn value(&mut self, value: &Value, levels: usize) -> Mem<()> {
        if levels == 0 {
            return self.json.push_str("null");
        }
        match value {
            Value::Array(array) => {
                let mut is_first = true;
                for value in array.iter() {
                    self.json.push_str(if is_first { "[" } else { "," })?;
                    self.value(value, levels - 1)?;
                    is_first = false;
                }
                self.json
                    .push_str(if array.is_empty() { "[]" } else { "]" })
            }
            Value::InlineTable(table) => {
                let mut is_first = true;
                for (name, value) in table.iter() {
                    self.json.push_str(if is_first { "{" } else { "," })?;
                    self.name(name)?;
                    self.value(value, levels - 1)?;
                    is_first = false;
                }
                self.json
                    .push_str(if table.is_empty() { "{}" } else { "}" })
            }
            _ => self.scalar(value),
        }
    }

    fn scalar(&mut self, value: &Value) -> Mem<()> {
        match value {
            Value::String(string) => self.tagged("string", string.value().as_str()),
            Value::Integer(integer) => self.shown("integer", integer.value()),
            Value::Float(float) => self.float(float.value().as_str()),
            Value::Boolean(boolean) => self.shown("bool", boolean.value()),
            Value::Datetime(datetime) => self.shown(kind(datetime.value()), datetime.value()),
            _ => self.json.push_str("null"),
        }
    }

    /// Writes a float, without the underscores of its spelling.
    fn float(&mut self, text: &str) -> Mem<()> {
        let mut digits = String::new(self.alloc);
        for c in text.chars() {
            if c != '_' {
                digits.push(c)?;
            }
        }
        self.tagged("float", digits.as_str())
    }

    fn shown<T: Display>(&mut self, kind: &str, scalar: &T) -> Mem<()> {
        let text = scalar.to_string(self.alloc)?;
        self.tagged(kind, text.as_str())
    }

    /// Writes a scalar of this kind.
    fn tagged(&mut self, kind: &str, text: &str) -> Mem<()> {
        self.json.push_str("{")?;
        self.name("type")?;
        self.text(kind)?;
        self.json.push_str(",")?;
        self.name("value")?;
        self.text(text)?;
        self.json.push_str("}")
    }

    /// Writes the name of a member.
    fn name(&mut self, name: &str) -> Mem<()> {
        self.text(name)?;
        self.json.push_str(":")
    }

    /// Writes a text between quotes.
    fn text(&mut self, text: &str) -> Mem<()> {
        let json = Json::try_from_str(self.alloc, text)?.to_string(self.alloc)?;
        self.json.push_str(json.as_str())
    }
}

/// Returns the name of the type of a date-time in the common suite.
fn kind(datetime: &Datetime) -> &'static str {
    match (datetime.date(), datetime.time(), datetime.offset()) {
        (Some(_), Some(_), Some(_)) => "datetime",
        (Some(_), Some(_), None) => "datetime-local",
        (Some(_), None, _) => "date-local",
        _ => "time-local",
    }
}
