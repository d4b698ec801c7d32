//! The edits of a document, with their names: adding one begins here.
ghost use Rattle.std.specs.Prelude.{◌≡◌, ◌≢◌, IfSome, None};
ghost use Rattle.toml_edit_edits.specs.Said.{name_of, operands, verb_of};
ghost use Rattle.toml_edit_edits.specs.declared.edit.Verb.{Verb};

use toml_edit::{Key, Value};

/// An edit of a document at a path of keys.
#[derive(Drop)]
pub enum Edit {
    /// Puts a value at the path, below inline tables where tables are missing.
    Set(Vec<Key>, Value),
    /// Puts a value at the path, below headers where tables are missing.
    Header(Vec<Key>, Value),
    /// Removes the item at the path.
    Remove(Vec<Key>),
    /// Adds a value at the end of the array at the path, with a line where the others have one. To
    /// an array of tables it adds a table of the pairs of an inline table.
    Append(Vec<Key>, Value),
    /// Inserts a value before the element at the path, with a line where the others have one. The
    /// number after the last element is its end. Into an array of tables it inserts a table.
    Insert(Vec<Key>, Value),
    /// Removes the first value of the array at the path that is equal, with its line and the
    /// comment on it; of an array of tables the first table that has the meaning of an inline table.
    Take(Vec<Key>, Value),
    /// Adds a table of the pairs of an inline table at the end of the array of tables at the path,
    /// which it makes where nothing is.
    Table(Vec<Key>, Value),
    /// Adds an empty table with a header at the path, where nothing is. The header is printed last,
    /// and the tables above it that are missing have none. In an element of an array of tables that
    /// isn't the last one, the result doesn't fit.
    Section(Vec<Key>),
    /// Gives the key at the end of the path another name.
    Rename(Vec<Key>, String),
    /// Moves the key at the end of the first path, with its item, to the second path; or an element
    /// of an array of tables to another place in it.
    Move(Vec<Key>, Vec<Key>),
    /// Sorts the keys of the table at the path, which may be the root, by their names.
    Sort(Vec<Key>),
    /// Sets the comment after the value or the header at the path, or removes it if the text is
    /// empty.
    Comment(Vec<Key>, String),
}

impl Edit {
    /// Returns what the edit does, by its name.
    pub fn verb(&self) -> Verb {
        match self {
            Edit::Set(_, _) => Verb::Value(ValueVerb::Set),
            Edit::Header(_, _) => Verb::Value(ValueVerb::Header),
            Edit::Remove(_) => Verb::Path(PathVerb::Remove),
            Edit::Append(_, _) => Verb::Value(ValueVerb::Append),
            Edit::Insert(_, _) => Verb::Value(ValueVerb::Insert),
            Edit::Take(_, _) => Verb::Value(ValueVerb::Take),
            Edit::Table(_, _) => Verb::Value(ValueVerb::Table),
            Edit::Section(_) => Verb::Path(PathVerb::Section),
            Edit::Rename(_, _) => Verb::Rename,
            Edit::Move(_, _) => Verb::Move,
            Edit::Sort(_) => Verb::Path(PathVerb::Sort),
            Edit::Comment(_, _) => Verb::Text(TextVerb::Comment),
        }
    }

    /// Returns the path of the edit, which is the first one of a move.
    pub fn path(&self) -> &[Key] {
        match self {
            Edit::Set(path, _)
            | Edit::Header(path, _)
            | Edit::Remove(path)
            | Edit::Append(path, _)
            | Edit::Insert(path, _)
            | Edit::Take(path, _)
            | Edit::Table(path, _)
            | Edit::Section(path)
            | Edit::Rename(path, _)
            | Edit::Move(path, _)
            | Edit::Sort(path)
            | Edit::Comment(path, _) => path.as_slice(),
        }
    }
}

/// What an edit does, by its name.
#[derive(Clone, Copy, Debug, PartialEq, Eq)]
pub enum Verb {
    Path(PathVerb),
    Value(ValueVerb),
    Text(TextVerb),
    Rename,
    Move,
}

/// An edit of a path alone.
#[derive(Clone, Copy, Debug, PartialEq, Eq)]
pub enum PathVerb {
    Section,
    Remove,
    Sort,
}

/// An edit of a path that takes a value.
#[derive(Clone, Copy, Debug, PartialEq, Eq)]
pub enum ValueVerb {
    Set,
    Header,
    Table,
    Append,
    Insert,
    Take,
}

/// An edit of a path that takes a text.
#[derive(Clone, Copy, Debug, PartialEq, Eq)]
pub enum TextVerb {
    String,
    Comment,
}

/// All edits, in the order in which help lists them.
pub const VERBS: [Verb; 13] = [
    Verb::Value(ValueVerb::Set),
    Verb::Text(TextVerb::String),
    Verb::Value(ValueVerb::Header),
    Verb::Value(ValueVerb::Table),
    Verb::Path(PathVerb::Section),
    Verb::Path(PathVerb::Remove),
    Verb::Value(ValueVerb::Append),
    Verb::Value(ValueVerb::Insert),
    Verb::Value(ValueVerb::Take),
    Verb::Rename,
    Verb::Move,
    Verb::Path(PathVerb::Sort),
    Verb::Text(TextVerb::Comment),
];

impl Verb {
    /// Returns the name of the edit.
    pub fn name(self) -> &'static str
        ensures { result.now ≡ name_of self }
    {
        match self {
            Verb::Value(ValueVerb::Set) => "set",
            Verb::Text(TextVerb::String) => "string",
            Verb::Value(ValueVerb::Header) => "header",
            Verb::Value(ValueVerb::Table) => "table",
            Verb::Path(PathVerb::Section) => "section",
            Verb::Path(PathVerb::Remove) => "remove",
            Verb::Value(ValueVerb::Append) => "append",
            Verb::Value(ValueVerb::Insert) => "insert",
            Verb::Value(ValueVerb::Take) => "take",
            Verb::Rename => "rename",
            Verb::Move => "move",
            Verb::Path(PathVerb::Sort) => "sort",
            Verb::Text(TextVerb::Comment) => "comment",
        }
    }

    /// Returns how many words follow the name.
    pub fn count(self) -> usize
        ensures { result ≡ operands self }
    {
        match self {
            Verb::Path(_) => 1,
            Verb::Value(_) | Verb::Text(_) | Verb::Rename | Verb::Move => 2,
        }
    }

    /// Returns what follows the name, as a line of help has it.
    pub fn usage(self) -> &'static str {
        match self {
            Verb::Path(_) => "PATH",
            Verb::Value(_) => "PATH VALUE",
            Verb::Text(_) => "PATH TEXT",
            Verb::Rename => "PATH KEY",
            Verb::Move => "PATH PATH",
        }
    }

    /// Returns the edit of this name.
    pub fn named(name: &str) -> Option<Verb>
        ensures verb { result ≡ verb_of name.now }
        ensures named { IfSome result (λ verb. name.now ≡ name_of verb) }
        ensures none { result ≡ None → (verb : Verb) → name.now ≢ name_of verb }
    {
        for verb in VERBS {
            if verb.name() == name {
                return Some(verb);
            }
        }
        None
    }
}
