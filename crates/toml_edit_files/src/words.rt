//! What a call asks for.
ghost use Rattle.std.specs.Prelude.{◌≡◌};
ghost use Rattle.toml_edit_files.specs.Answers.{file_of};
ghost use Rattle.toml_edit_files.specs.Edited.{mode_by, version_by};
ghost use Rattle.toml_edit_parser.specs.Options.{mode_of, version_of};

use toml_edit::{Key, ParseOptions, Version};
use toml_edit_edits::Edit;
use toml_edit_items::{Kind, Shape};

/// What the words ask for.
#[derive(Drop)]
pub struct Request<'w> {
    /// How files are read.
    pub reading: Reading,
    pub command: Command<'w>,
}

/// How files are read.
#[derive(Clone, Copy)]
pub struct Reading {
    /// As TOML 1.0.
    pub strict: bool,
    /// Into the normal form, without the line endings that the file has.
    pub normal: bool,
}

impl Reading {
    /// Returns the options of parsing.
    pub fn options(self) -> ParseOptions
        ensures version { version_of result ≡ version_by self }
        ensures mode { mode_of result ≡ mode_by self }
    {
        let options = ParseOptions::new().exact(!self.normal);
        if self.strict {
            options.version(Version::V1_0)
        } else {
            options
        }
    }
}

/// A command with its operands.
#[derive(Drop)]
pub enum Command<'w> {
    /// To write this text.
    Show(String),
    Ask(Question<'w>),
    Edit(EditCommand<'w>, Vec<Edit>),
    Check(Vec<&'w str>),
    Fmt(Fmt<'w>),
}

/// A command that asks about one file.
#[derive(Drop)]
pub enum Question<'w> {
    Get(Get<'w>),
    Has(Has<'w>),
    Keys(Keys<'w>),
    Json(Json<'w>),
}

impl<'w> Question<'w> {
    /// Returns the file that is asked about.
    pub fn file(&self) -> &'w str
        ensures { result.now ≡ file_of self.now }
    {
        match self {
            Question::Get(command) => command.file,
            Question::Has(command) => command.file,
            Question::Keys(command) => command.file,
            Question::Json(command) => command.file,
        }
    }
}

#[derive(Drop)]
pub struct Get<'w> {
    pub file: &'w str,
    pub paths: Vec<Vec<Key>>,
    pub shape: Shape,
    pub default: Option<&'w str>,
}

#[derive(Drop)]
pub struct Has<'w> {
    pub file: &'w str,
    pub path: Vec<Key>,
    pub kind: Option<Kind>,
}

/// The operands of `edit` beside its edits.
#[derive(Clone, Copy)]
pub struct EditCommand<'w> {
    pub file: &'w str,
    pub script: Option<&'w str>,
    pub dry_run: bool,
    /// Whether the difference is written in place of the text.
    pub diff: bool,
    pub output: Option<&'w str>,
    pub locked: bool,
    /// Whether a read-only file is replaced.
    pub force: bool,
}

#[derive(Drop)]
pub struct Keys<'w> {
    pub file: &'w str,
    pub path: Vec<Key>,
    pub all: bool,
}

#[derive(Drop)]
pub struct Json<'w> {
    pub file: &'w str,
    pub path: Vec<Key>,
}

#[derive(Drop)]
pub struct Fmt<'w> {
    pub files: Vec<&'w str>,
    pub style: Style<'w>,
    pub check: bool,
    /// Whether the difference is written of a file that would change.
    pub diff: bool,
    /// Whether a read-only file is replaced.
    pub force: bool,
}

/// What `fmt` changes besides the layout.
#[derive(Drop)]
pub struct Style<'w> {
    /// Sorts, which are made first.
    pub sorts: Vec<Edit>,
    /// The names of rules that are set, with their values, of which each takes its one. The last
    /// counts.
    pub rules: Vec<(&'w str, &'w str)>,
    /// Whether keys are bare where they can be, unless a rule says it.
    pub keys: bool,
}
