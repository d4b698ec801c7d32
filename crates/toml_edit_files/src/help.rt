//! The texts of `--help` and `--version`.
ghost use Rattle.std.specs.Prelude.{◌≡◌};
ghost use Rattle.toml_edit_files.specs.Help.{help_on, topic_of};

/// What `--version` writes.
pub const VERSION: &str = "tomlfile 0.1.0 (TOML 1.1 and 1.0)\n";

/// What `--help` is asked about.
#[derive(Clone, Copy, Debug, PartialEq, Eq, Drop)]
pub enum Topic {
    Program,
    Get,
    Has,
    Edit,
    Keys,
    Json,
    Check,
    Fmt,
}

/// The words that a call can begin with.
pub const COMMANDS: &[&str] = &[
    "get", "has", "edit", "keys", "json", "check", "fmt", "help", "strict", "normal",
];

/// Returns the command of this name.
pub fn topic_of(name: &str) -> Option<Topic>
    ensures { result ≡ topic_of name.now }
{
    match name {
        "get" => Some(Topic::Get),
        "has" => Some(Topic::Has),
        "edit" => Some(Topic::Edit),
        "keys" => Some(Topic::Keys),
        "json" => Some(Topic::Json),
        "check" => Some(Topic::Check),
        "fmt" => Some(Topic::Fmt),
        _ => None,
    }
}

/// Returns the help on a command: its usage, as one line, and what it does.
pub fn page(topic: Topic) -> &'static str
    ensures { result.now ≡ help_on topic }
{
    match topic {
        Topic::Program => PROGRAM_HELP,
        Topic::Get => GET_HELP,
        Topic::Has => HAS_HELP,
        Topic::Edit => EDIT_HELP,
        Topic::Keys => KEYS_HELP,
        Topic::Json => JSON_HELP,
        Topic::Check => CHECK_HELP,
        Topic::Fmt => FMT_HELP,
    }
}

pub const PROGRAM_HELP: &str = "\
usage: tomlfile [strict] [normal] get | has | edit | keys | json | check | fmt ..

Reads and edits TOML files, and keeps comments, spacing and spelling.

  get    writes the items at paths
  has    tells by its status whether something is at a path
  edit   edits a file in place
  keys   lists keys
  json   writes a file as JSON
  check  reports the errors of files
  fmt    formats files in place

FILE may be -, for standard input and output; -- ends the options. A PATH is
keys with dots between them, as in TOML; in an array the number of an element
is a key. With strict, files are read and written as TOML 1.0; with normal, a
file is written with line feeds alone and a newline at its end.

Status: 0 done or yes, 1 no, 2 mistaken words, 3 out of memory, 4 a file or a
stream failed, 5 a file is not TOML. tomlfile COMMAND --help has examples.
";

pub const GET_HELP: &str = "\
usage: tomlfile get FILE PATH.. [--raw | --lines] [--default TEXT]

Writes the item at each PATH: a value as it is spelled; a table as a document of
its own, with the tables below it.

  --raw           a string as its characters
  --lines         each element of an array raw, one a line
  --default TEXT  TEXT where nothing is at PATH; else the status is 1

  tomlfile get Cargo.toml package.version --raw
  tomlfile get pyproject.toml project.dependencies --lines
  tomlfile get Cargo.toml bin.0.name --default none
";

pub const HAS_HELP: &str = "\
usage: tomlfile has FILE PATH [KIND]

Ends with status 0 if something is at PATH, and is of the KIND if one is given:
string, integer, float, boolean, datetime, array, table or tables. Else the
status is 1.

  if tomlfile has Cargo.toml workspace table; then ..
";

pub const EDIT_HELP: &str = "\
usage: tomlfile edit FILE EDIT [, EDIT].. [--script FILE] [--dry-run] [--diff] [--output FILE] [--locked] [--force]

Makes the edits one after another, all or none, and writes the file in place.
The status is 1 if nothing is at a path.

  set PATH VALUE      put a value; a new key goes to the end of its table
  string PATH TEXT    put a string, of which TEXT has the characters
  header PATH VALUE   as set, with headers for the tables that are missing
  table PATH VALUE    add a [[PATH]] with the pairs of an inline table
  section PATH        add an empty [PATH] after all other headers
  remove PATH         remove a key, or an element with its line
  append PATH VALUE   add a value to an array, with a line where others have one
  insert PATH VALUE   the same, before the element at PATH
  take PATH VALUE     remove the first equal value of an array, with its line
  rename PATH KEY     give a key another name
  move PATH PATH      move a key with its item
  sort PATH           sort the keys of a table; '' is the file
  comment PATH TEXT   set the comment behind a value or a header, or remove it

  --script FILE  edits from a file first, one a line
  --dry-run      write to standard output, and no file
  --diff         the same, as a diff of the file
  --output FILE  write to another file
  --locked       refuse a file of which other lines would change
  --force        replace a read-only file, or one whose owner can't be kept

  tomlfile edit Cargo.toml string package.version 1.2.3
  tomlfile edit Cargo.toml remove dependencies.rand , set dependencies.log '\"0.4\"'
  tomlfile edit pyproject.toml append project.dependencies '\"httpx>=0.27\"'
";

pub const KEYS_HELP: &str = "\
usage: tomlfile keys FILE [PATH] [--all]

Writes the keys of the table at PATH, or of the file, one a line and as they are
spelled.

  --all  the paths of all that is below it: scalars, arrays and empty tables

  tomlfile keys Cargo.toml dependencies
";

pub const JSON_HELP: &str = "\
usage: tomlfile json FILE [PATH]

Writes the item at PATH, or the file, as JSON on one line. Keys keep their
order, and floats their digits; dates, times, inf and nan are strings.

  tomlfile json Cargo.toml package
";

pub const CHECK_HELP: &str = "\
usage: tomlfile check FILE..

Writes FILE:LINE:COLUMN: MESSAGE for each file that is not TOML. The status is 1
if there is one, and 4 if a file can't be read. A folder stands for the *.toml
files below it, but none whose name, or whose folder's, begins with a dot.

  tomlfile check *.toml
  tomlfile check .
";

pub const FMT_HELP: &str = "\
usage: tomlfile fmt FILE.. [--check] [--diff] [--keys] [--sort PATH].. [--RULE VALUE].. [--force]

Formats each file in place: spaces, empty lines, indentation, and arrays with a
line for each value where they have a newline or a comment, or are wide. Keys,
values and comments stay as they are. A file that is not TOML is reported as by
check, and the others are formatted; those of a folder, too, as by check.

  --check      change nothing, and name the files that are not formatted
  --diff       the same, and write how they differ, as patch takes it
  --keys       write keys without quotes where they need none
  --sort PATH  sort the keys of the table at PATH, if it is there; '' is the file
  --force      replace a read-only file, or one whose owner can't be kept

Each rule has an option, below with its usual value. The last one counts. N is at
most 255; off leaves what the rule is about as it is.

  --equals on          one space on both sides of =, or off
  --dots on            no spaces at dots and inside the brackets of headers, or off
  --comments 1         N spaces before a comment, aligned in one column, or off
  --blank-lines 1      at most N empty lines in a row, or off
  --indentation flush  lines begin flush, by the depth of their header, or off
  --indent 2           a level of indentation is N spaces
  --arrays kept        lines of arrays are kept, collapsed into one, or off
  --rows on            several values may stay on a line, or off
  --commas always      after the last of several lines: always, never, or off
  --bracket-space off  no space inside of [] on one line, or on
  --brace-space on     one space inside of {} on one line, or off
  --width 80           arrays on a line of more than N columns get several, or off
  --inline-tables on   inline tables are laid out, or off
  --bare-keys off      keys keep their quotes; on is --keys
  --left-alone on      comments may leave lines alone by fmt: off, or off

  tomlfile fmt Cargo.toml --sort dependencies
  tomlfile fmt *.toml --width 100 --indent 4 --arrays collapsed
  tomlfile fmt --check .
";
