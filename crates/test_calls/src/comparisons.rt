//! Equality, order and hash, each at a concrete type. A copy equals what it copies, and has its
//! hash.
use std::alloc::Global;
use std::cmp::Ordering;
use std::hash::{DefaultHasher, Hash, Hasher};
use toml_edit::{
    Datetime, Decor, FloatText, Formatted, FromStr, Key, Mem, ParseFault, ParsePath, RawString,
    Repr, TomlError, Value, ValueRepr,
};

fn hash_of<T: Hash>(value: &T) -> u64 {
    let mut state = DefaultHasher::new();
    value.hash(&mut state);
    state.finish()
}

fn are_alike<T: Hash + Eq>(one: &T, other: &T) -> bool {
    one == other && hash_of(one) == hash_of(other)
}

/// Returns whether the two are equal and have the same hash, or `None` if one was not made.
fn alike<T: Hash + Eq + Drop>(one: Option<T>, other: Option<T>) -> Option<bool> {
    match (one, other) {
        (Some(one), Some(other)) => Some(are_alike(&one, &other)),
        _ => None,
    }
}

fn is_copy<T: Hash + Eq + Drop>(one: &T, copy: Mem<T>) -> bool {
    match copy {
        Ok(copy) => are_alike(one, &copy),
        Err(_) => false,
    }
}

/// Returns `true` if a copy of it is equal and has its hash.
fn copies<T: Hash + Eq + Drop, F: Fn(&T, Global) -> Mem<T>>(
    alloc: Global,
    made: Option<T>,
    copy: F,
) -> bool
    requires { F.IsAlwaysCallable copy }
{
    match made {
        Some(one) => is_copy(&one, copy(&one, alloc)),
        None => false,
    }
}

fn texts_are_alike(alloc: Global, one: &str, other: &str) -> Option<bool> {
    alike(
        RawString::from_text(alloc, one).ok(),
        RawString::from_text(alloc, other).ok(),
    )
}

#[test]
fn compares_texts(rt: HostRuntime) {
    assert!(rt; texts_are_alike(rt.alloc(), "", "") == Some(true));
    assert!(rt; texts_are_alike(rt.alloc(), " ", " ") == Some(true));
    assert!(rt; texts_are_alike(rt.alloc(), "a", "b") == Some(false));
    assert!(rt; texts_are_alike(rt.alloc(), "", " ") == Some(false));
}

fn span(start: usize) -> Option<RawString> {
    Some(RawString::from_span(start.min(1), 1))
}

#[test]
fn compares_spans(rt: HostRuntime) {
    assert!(rt; alike(span(0), span(0)) == Some(true));
    assert!(rt; alike(span(0), span(1)) == Some(false));
    assert!(rt; alike(span(1), Some(RawString::default())) == Some(false));
}

#[test]
fn copies_texts_and_spans(rt: HostRuntime) {
    let text = RawString::from_text(rt.alloc(), "# a\n").ok();
    assert!(rt; copies(rt.alloc(), text, RawString::clone));
    assert!(rt; copies(rt.alloc(), span(0), RawString::clone));
}

fn empty() -> Option<Decor> {
    Some(Decor::new(RawString::default(), RawString::default()))
}

#[test]
fn compares_decors(rt: HostRuntime) {
    assert!(rt; alike(empty(), empty()) == Some(true));
    assert!(rt; alike(empty(), Some(Decor::default())) == Some(false));
    assert!(rt; copies(rt.alloc(), empty(), Decor::clone));
}

fn number(number: i64) -> Option<Formatted<i64>> {
    Some(Formatted::new(number))
}

fn spelled() -> Option<Formatted<i64>> {
    Some(Formatted::spanned(7, 0, 1, Decor::default()))
}

#[test]
fn compares_scalars(rt: HostRuntime) {
    assert!(rt; alike(number(7), number(7)) == Some(true));
    assert!(rt; alike(number(7), number(8)) == Some(false));
    assert!(rt; alike(number(7), spelled()) == Some(false));
}

fn string(alloc: Global) -> Mem<Formatted<String>> {
    Ok(Formatted::new(String::from_str(alloc, "é")?))
}

fn float(text: Mem<String>) -> Option<Formatted<FloatText>> {
    match FloatText::new(text.ok()?) {
        Ok(float) => Some(Formatted::new(float)),
        Err(_) => None,
    }
}

fn date(text: &str) -> Option<Formatted<Datetime>> {
    match text.parse::<Datetime>() {
        Ok(date) => Some(Formatted::new(date)),
        Err(_) => None,
    }
}

#[test]
fn copies_scalars(rt: HostRuntime) {
    let alloc = rt.alloc();
    let text = String::from_str(alloc, "6.626e-34");
    assert!(rt; copies(alloc, spelled(), Formatted::<i64>::clone));
    assert!(rt; copies(alloc, Some(Formatted::new(true)), Formatted::<bool>::clone));
    assert!(rt; copies(alloc, string(alloc).ok(), Formatted::<String>::clone));
    assert!(rt; copies(alloc, float(text), Formatted::<FloatText>::clone));
    assert!(rt; copies(alloc, date("07:32"), Formatted::<Datetime>::clone));
}

#[test]
fn compares_dates(rt: HostRuntime) {
    assert!(rt; alike(date("2024-02-29t07:32Z"), date("2024-02-29 07:32z")) == Some(true));
    assert!(rt; alike(date("07:32"), date("07:32:00")) == Some(false));
}

#[test]
fn copies_spellings(rt: HostRuntime) {
    assert!(rt; copies(rt.alloc(), 42i64.to_repr(rt.alloc()).ok(), Repr::clone));
}

fn error_in<T: Drop>(read: Result<T, ParseFault>) -> Option<TomlError> {
    match read {
        Err(ParseFault::Toml(error)) => Some(error),
        _ => None,
    }
}

/// Returns why the text is no value.
fn error(alloc: Global, text: &str) -> Option<TomlError> {
    error_in(Value::from_str(alloc, text))
}

fn errors_are_alike(alloc: Global, one: &str, other: &str) -> Option<bool> {
    alike(error(alloc, one), error(alloc, other))
}

#[test]
fn compares_errors(rt: HostRuntime) {
    let alloc = rt.alloc();
    assert!(rt; errors_are_alike(alloc, "24:00:61", "24:00:61") == Some(true));
    // Only the texts differ.
    assert!(rt; errors_are_alike(alloc, "[24:00]", "[01:60]") == Some(false));
    assert!(rt; errors_are_alike(alloc, "[24:00]", "[ 24:00]") == Some(false));
}

#[test]
fn copies_errors(rt: HostRuntime) {
    let alloc = rt.alloc();
    assert!(rt; copies(alloc, error(alloc, "24:00"), TomlError::clone));
    assert!(rt; copies(alloc, error_in(Key::parse(alloc, "")), TomlError::clone));
}

/// Returns the order of the two, or `None` if equality or hash disagrees.
fn order<T: Ord + Hash>(one: &T, other: &T) -> Option<Ordering> {
    let order = one.cmp(other);
    let is_equal = order == Ordering::Equal;
    let agrees = (one == other) == is_equal
        && (hash_of(one) == hash_of(other)) == is_equal
        && (one < other) == (order == Ordering::Less);
    if agrees { Some(order) } else { None }
}

fn order_of<T: Ord + Hash + Drop>(one: Option<T>, other: Option<T>) -> Option<Ordering> {
    match (one, other) {
        (Some(one), Some(other)) => order(&one, &other),
        _ => None,
    }
}

/// Returns the order of the key of this name and the key that is spelled so.
fn key_order(alloc: Global, name: &str, spelling: &str) -> Option<Ordering> {
    order_of(
        Key::from_text(alloc, name).ok(),
        Key::from_str(alloc, spelling).ok(),
    )
}

#[test]
fn compares_keys(rt: HostRuntime) {
    assert!(rt; key_order(rt.alloc(), "a", "'a'") == Some(Ordering::Equal));
    assert!(rt; key_order(rt.alloc(), "ab", "b") == Some(Ordering::Less));
    assert!(rt; key_order(rt.alloc(), "b", "ab") == Some(Ordering::Greater));
}
