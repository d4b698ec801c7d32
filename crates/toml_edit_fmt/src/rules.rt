//! The rules of a formatter.
ghost use Rattle.std.specs.Prelude.{◌≡◌, false};
ghost use Rattle.toml_edit_fmt.specs.Newlines.{returns_after, rules_for};
ghost use Rattle.toml_edit_fmt.specs.RulesView.{rules_of};

/// How far lines and headers are indented.
#[derive(Clone, Copy, Debug, PartialEq, Eq)]
pub enum Indentation {
    /// As they are.
    AsItIs,
    /// Not at all.
    Flush,
    /// A header by one unit for each key before its last, and the lines below it by one for each of
    /// its keys.
    ByDepth,
}

/// The white space before the `#` of a comment that is after something on its line.
#[derive(Clone, Copy, Debug, PartialEq, Eq)]
pub enum Comments {
    /// As it is.
    AsTheyAre,
    /// So many spaces.
    Apart(usize),
    /// In neighbouring lines the comments begin in one column, so many spaces after the longest.
    Aligned(usize),
}

/// When an array gets several lines.
#[derive(Clone, Copy, Debug, PartialEq, Eq)]
pub enum Arrays {
    /// All that is between the brackets stays.
    AsTheyAre,
    /// If it has a newline, or is too wide.
    Kept,
    /// If it has a comment, or is too wide.
    Collapsed,
}

/// Whether a comma ends an array or an inline table with a line for each value.
#[derive(Clone, Copy, Debug, PartialEq, Eq)]
pub enum Commas {
    /// If it did.
    AsTheyAre,
    /// Always.
    Always,
    /// If a comment is before it.
    Never,
}

/// What a formatter is asked for. A rule that is off leaves the places as they are that it is
/// about.
#[derive(Clone, Copy, Debug, PartialEq, Eq)]
pub struct Rules {
    /// One space on both sides of `=`.
    pub equals: bool,
    /// No white space at dots and inside the brackets of headers.
    pub dots: bool,
    /// What is before a comment that is after something on its line. In arrays it needs `arrays`
    /// too, and in inline tables `inline_tables`.
    pub comments: Comments,
    /// At most so many empty lines in a row, and none at the ends of the text. Where nothing else
    /// is between a header and the statement before it, one is, unless there may be none. In arrays
    /// and inline tables it needs their rules too.
    pub blank_lines: Option<usize>,
    /// How far lines and headers are indented.
    pub indentation: Indentation,
    /// The spaces of a unit of indentation.
    pub unit: usize,
    /// Arrays on one line, or with a line for each value.
    pub arrays: Arrays,
    /// Several scalars on a line stay there, if the array has several lines, of which one has
    /// several, and each has room.
    pub rows: bool,
    /// The comma after the last of several lines in brackets.
    pub commas: Commas,
    /// A space inside the brackets of an array on one line.
    pub bracket_space: bool,
    /// A space inside the braces of an inline table on one line.
    pub brace_space: bool,
    /// An array on a line that would have more columns gets several lines.
    pub width: Option<usize>,
    /// Inline tables on one line, or, if they have a newline or a comment, with a line for each
    /// pair.
    pub inline_tables: bool,
    /// New lines end in CR LF, where line endings are kept.
    pub returns: bool,
    /// Keys are bare where they can be.
    pub keys: bool,
    /// A text stays whose first comments have `@generated`, and so do statements after a comment
    /// `fmt: off`, up to one `fmt: on`.
    pub left_alone: bool,
}

impl Rules {
    /// Returns the default rules for a text: where line endings are kept, new lines end as its first
    /// line does.
    pub fn for_text(text: &[u8], is_exact: bool) -> Rules
        ensures { rules_of result ≡ rules_for is_exact text.now }
    {
        let mut rules = Rules::default();
        rules.returns = is_exact && first_line_has_return(text);
        rules
    }
}

/// Returns `true` if the first line of a text ends in CR LF.
fn first_line_has_return(text: &[u8]) -> bool
    ensures { result ≡ returns_after false text.now }
{
    let mut rest = text;
    let mut after_return = false;
    'bytes: while let [byte, more @ ..] = rest {
        if *byte == b'\n' {
            return after_return;
        }
        after_return = *byte == b'\r';
        rest = more;
    }
    false
}

/// Makes the rules that are usual.
impl Default for Rules {
    ghost use Rattle.std.specs.Prelude.{◌≡◌};
    ghost use Rattle.toml_edit_fmt_laws.specs.Rules.{default_rules};
    ghost use Rattle.toml_edit_fmt.specs.RulesView.{rules_of};

    ghost is_default = { λ rules. rules_of rules ≡ default_rules };

    fn default() -> Rules {
        Rules {
            equals: true,
            dots: true,
            comments: Comments::Apart(1),
            blank_lines: Some(1),
            indentation: Indentation::Flush,
            unit: 2,
            arrays: Arrays::Kept,
            rows: true,
            commas: Commas::Always,
            bracket_space: false,
            brace_space: true,
            width: Some(80),
            inline_tables: true,
            returns: false,
            keys: false,
            left_alone: true,
        }
    }
}
