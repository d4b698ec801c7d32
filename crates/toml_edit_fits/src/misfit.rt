//! The rules of documents that fit, and the places where one is broken.
ghost use Rattle.std.specs.Prelude.{◌≡◌};
ghost use Rattle.toml_edit_fits.specs.MisfitViews.{misfit_view};

use std::fmt;
use toml_edit_key::Key;

/// Which rule of documents that fit is broken.
#[derive(Clone, Copy, Debug, PartialEq, Eq, Hash)]
pub enum FitRule {
    /// Whitespace or a comment doesn't suit its place.
    Decor,
    /// The root or an element of an array of tables is dotted.
    Dotted,
    /// A header is printed too early: before that of an element that it is in, or, if it is an
    /// element's own, before one in an earlier element of its array of tables.
    Order,
    /// A path has more than 80 keys, or more than 80 brackets are open at once in a value.
    Limits,
}

/// Writes how the rule is broken, in a few words.
impl fmt::Display for FitRule {
    ghost use Rattle.std.specs.Prelude.{Some};
    ghost use Rattle.toml_edit_fits.specs.Misfits.{rule_text};

    ghost output = { λ rule. Some (rule_text rule) };

    fn fmt<W: fmt::Write>(&self, f: &mut fmt::Formatter<W>) -> fmt::Result {
        f.write_str(match self {
            FitRule::Decor => "whitespace or comment out of place",
            FitRule::Dotted => "dotted root or element",
            FitRule::Order => "header printed too early",
            FitRule::Limits => "path or value too deep",
        })
    }
}

/// A place where a document doesn't fit, and the rule that is broken there.
///
/// `DocumentMut::first_misfit` returns one.
#[derive(Debug, Drop)]
pub struct Misfit {
    pub(crate) path: Vec<Key>,
    pub(crate) rule: FitRule,
}

impl Misfit {
    /// Returns the path of the value or the table, from the root. It is empty for the root itself.
    ///
    /// In an array or an array of tables, a key's name is the number of the item in decimal digits,
    /// counted from 0, as `DocumentMut::get_at` takes it. Each key has its name alone: it is spelled
    /// as by default, and has no decor.
    pub fn path(&self) -> &[Key]
        ensures { result.now ≡ (misfit_view self.now).path }
    {
        self.path.as_slice()
    }

    /// Returns the path, and drops the rest.
    pub fn into_path(self) -> Vec<Key>
        ensures { result.items ≡ (misfit_view self).path }
    {
        self.path
    }

    /// Returns the rule that is broken.
    pub fn rule(&self) -> FitRule
        ensures { result ≡ (misfit_view self.now).rule }
    {
        self.rule
    }
}
