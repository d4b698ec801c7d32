//! Formatting by rules that words change.
use anyhow::Result;
use std::alloc::Global;
use toml_edit::{DocumentMut, ParseOptions};
use toml_edit_fmt::{Arrays, Commas, Comments, Indentation, Rules, format, format_text};

/// Returns the text of a document, formatted by the default rules and the words. By `text` the text
/// is formatted as it stands.
pub fn formatted(alloc: Global, text: &str, words: &[String]) -> Result<String> {
    let mut rules = Rules::default();
    let (mut exact, mut as_text) = (false, false);
    for word in words {
        match word.as_str() {
            "exact" => exact = true,
            "text" => as_text = true,
            word => change(&mut rules, word),
        }
    }
    let options = ParseOptions::new().exact(exact || as_text);
    let document = DocumentMut::from_str_with(alloc, text, options)?;
    if as_text {
        return Ok(format_text(alloc, text, &rules)?);
    }
    let formatted = format(alloc, document, &rules)?;
    Ok(formatted.print(alloc)?)
}

/// Changes the rules by a word.
fn change(rules: &mut Rules, word: &str) {
    match word {
        "no-equals" => rules.equals = false,
        "no-dots" => rules.dots = false,
        "no-comments" => rules.comments = Comments::AsTheyAre,
        "two-before-comments" => rules.comments = Comments::Apart(2),
        "aligned" => rules.comments = Comments::Aligned(2),
        "no-empty-lines" => rules.blank_lines = None,
        "two-empty-lines" => rules.blank_lines = Some(2),
        "none-empty" => rules.blank_lines = Some(0),
        "no-indentation" => rules.indentation = Indentation::AsItIs,
        "by-depth" => rules.indentation = Indentation::ByDepth,
        "no-arrays" => rules.arrays = Arrays::AsTheyAre,
        "collapsed" => rules.arrays = Arrays::Collapsed,
        "no-rows" => rules.rows = false,
        "no-commas" => rules.commas = Commas::Never,
        "commas-stay" => rules.commas = Commas::AsTheyAre,
        "brackets" => rules.bracket_space = true,
        "no-braces" => rules.brace_space = false,
        "no-width" => rules.width = None,
        "narrow" => rules.width = Some(20),
        "no-inline-tables" => rules.inline_tables = false,
        "four" => rules.unit = 4,
        "returns" => rules.returns = true,
        "bare-keys" => rules.keys = true,
        "all" => rules.left_alone = false,
        _ => {}
    }
}
