//! The kinds of items.
ghost use Rattle.std.specs.Prelude.{◌≡◌, Some};
ghost use Rattle.toml_edit_items.specs.Kinds.{kind_in, kind_named};
ghost use Rattle.toml_edit_tree.specs.View.{item_view, value_view};

use toml_edit::{Item, Value};

/// The kind of an item.
#[derive(Clone, Copy, PartialEq, Eq)]
pub enum Kind {
    String,
    Integer,
    Float,
    Boolean,
    Datetime,
    Array,
    /// A table, of any spelling: `[a]`, `a.b = 1` or `a = {}`.
    Table,
    /// An array of tables.
    Tables,
}

impl Kind {
    /// Returns the kind of this name: that of the variant in lower case, as `tables`.
    pub fn named(name: &str) -> Option<Kind>
        ensures { result ≡ kind_named name.now }
    {
        match name {
            "string" => Some(Kind::String),
            "integer" => Some(Kind::Integer),
            "float" => Some(Kind::Float),
            "boolean" => Some(Kind::Boolean),
            "datetime" => Some(Kind::Datetime),
            "array" => Some(Kind::Array),
            "table" => Some(Kind::Table),
            "tables" => Some(Kind::Tables),
            _ => None,
        }
    }
}

/// Returns the kind of an item, or `None` for a placeholder.
pub fn kind_of(item: &Item) -> Option<Kind>
    ensures { result ≡ kind_in (item_view item.now) }
{
    match item {
        Item::None => None,
        Item::Value(value) => Some(kind_of_value(value)),
        Item::Table(_) => Some(Kind::Table),
        Item::ArrayOfTables(_) => Some(Kind::Tables),
    }
}

fn kind_of_value(value: &Value) -> Kind
    ensures { Some result ≡ kind_in (value_view value.now) }
{
    match value {
        Value::String(_) => Kind::String,
        Value::Integer(_) => Kind::Integer,
        Value::Float(_) => Kind::Float,
        Value::Boolean(_) => Kind::Boolean,
        Value::Datetime(_) => Kind::Datetime,
        Value::Array(_) => Kind::Array,
        Value::InlineTable(_) => Kind::Table,
    }
}
