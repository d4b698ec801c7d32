//! What can be wrong with a setting.

/// What is wrong with a setting.
#[derive(Clone, Copy, Debug, PartialEq, Eq)]
pub enum Mistake {
    /// No rule has the name.
    NoRule,
    /// The rule does not take the value.
    NoSuchValue,
    /// The value is of a wrong kind.
    WrongKind,
}
