//! The values of rules.
ghost use Rattle.std.specs.Prelude.{◌≡◌, option_map};
ghost use Rattle.toml_edit_fmt.specs.RulesView.{arrays_of, commas_of, comments_of, indentation_of};
ghost use Rattle.toml_edit_settings.specs.RuleWords.{arrays_named, commas_named, comments_named, indentation_named, is_on, is_padded, limit_of, number_of};

use toml_edit_fmt::{Arrays, Commas, Comments, Indentation};

/// Returns whether a rule is on.
pub fn switch(value: &str) -> Option<bool>
    ensures { result ≡ is_on value.now }
{
    match value {
        "on" => Some(true),
        "off" => Some(false),
        _ => None,
    }
}

/// Returns the number that decimal digits write, if it is below 256.
pub fn number(value: &str) -> Option<usize>
    ensures { result ≡ number_of value.now }
{
    if is_padded(value.as_bytes()) {
        return None;
    }
    match value.parse::<u8>() {
        Ok(number) => Some(usize::from(number)),
        Err(_) => None,
    }
}

/// Returns `true` if the text begins with a plus, or with a zero before something else. Such a
/// number is parsed, too.
fn is_padded(bytes: &[u8]) -> bool
    ensures { result ≡ is_padded bytes.now }
{
    matches!(bytes, [b'+', ..] | [b'0', _, ..])
}

/// Returns a limit, of which there may be none.
pub fn limit(value: &str) -> Option<Option<usize>>
    ensures { result ≡ limit_of value.now }
{
    match value {
        "off" => Some(None),
        value => match number(value) {
            Some(number) => Some(Some(number)),
            None => None,
        },
    }
}

/// Returns what is before comments after something on their lines.
pub fn comments(value: &str) -> Option<Comments>
    ensures { option_map comments_of result ≡ comments_named value.now }
{
    match value {
        "off" => Some(Comments::AsTheyAre),
        "aligned" => Some(Comments::Aligned(1)),
        value => match number(value) {
            Some(number) => Some(Comments::Apart(number)),
            None => None,
        },
    }
}

/// Returns how far lines are indented.
pub fn indentation(value: &str) -> Option<Indentation>
    ensures { option_map indentation_of result ≡ indentation_named value.now }
{
    match value {
        "off" => Some(Indentation::AsItIs),
        "flush" => Some(Indentation::Flush),
        "depth" => Some(Indentation::ByDepth),
        _ => None,
    }
}

/// Returns when an array gets several lines.
pub fn arrays(value: &str) -> Option<Arrays>
    ensures { option_map arrays_of result ≡ arrays_named value.now }
{
    match value {
        "off" => Some(Arrays::AsTheyAre),
        "kept" => Some(Arrays::Kept),
        "collapsed" => Some(Arrays::Collapsed),
        _ => None,
    }
}

/// Returns whether a comma ends several lines.
pub fn commas(value: &str) -> Option<Commas>
    ensures { option_map commas_of result ≡ commas_named value.now }
{
    match value {
        "off" => Some(Commas::AsTheyAre),
        "always" => Some(Commas::Always),
        "never" => Some(Commas::Never),
        _ => None,
    }
}
