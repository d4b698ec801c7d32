//! Tests of patterns and of files of settings.
use crate::{Mistake, SettingsFault, matches, settings_of};
use toml_edit_fmt::{Arrays, Rules};

const TEXT: &str = "width = 100
rows = false
arrays = \"collapsed\"
exclude = [\"target/**\", \"*.lock.toml\"]

[paths.\"crates/*/Cargo.toml\"]
width = 120

[paths.\"crates/one/*\"]
width = 90
";

fn is_match(rt: HostRuntime, pattern: &str, path: &str) -> bool {
    matches!(matches(rt.alloc(), pattern, path), Ok(true))
}

/// Returns the rules for a file.
fn rules_for(rt: HostRuntime, path: &str) -> Option<Rules> {
    let mut rules = Rules::default();
    let settings = settings_of(rt.alloc(), TEXT).ok()?;
    settings.set_rules(rt.alloc(), path, &mut rules).ok()?;
    Some(rules)
}

/// Returns the width for a file.
fn width(rt: HostRuntime, path: &str) -> Option<usize> {
    rules_for(rt, path)?.width
}

/// Returns `true` if a file is left out.
fn is_left_out(rt: HostRuntime, path: &str) -> Option<bool> {
    let settings = settings_of(rt.alloc(), TEXT).ok()?;
    settings.excludes(rt.alloc(), path).ok()
}

/// Returns `true` if the text is refused at this place for this reason.
fn is_wrong(rt: HostRuntime, text: &str, line: usize, column: usize, why: Mistake) -> bool {
    match settings_of(rt.alloc(), text) {
        Err(SettingsFault::Setting(l, c, mistake)) => l == line && c == column && mistake == why,
        _ => false,
    }
}

#[test]
fn paths_match_patterns(rt: HostRuntime) {
    assert!(rt; is_match(rt, "", ""));
    assert!(rt; !is_match(rt, "", "a"));
    assert!(rt; is_match(rt, "*.toml", "a.toml"));
    assert!(rt; !is_match(rt, "*.toml", "b/a.toml"));
    assert!(rt; is_match(rt, "**.toml", "b/a.toml"));
    assert!(rt; is_match(rt, "**/*.toml", "b/c/a.toml"));
    assert!(rt; !is_match(rt, "**/*.toml", "a.toml"));
    assert!(rt; is_match(rt, "target/**", "target/a/b.toml"));
    assert!(rt; !is_match(rt, "target/**", "target"));
    assert!(rt; is_match(rt, "?.toml", "é.toml"));
    assert!(rt; !is_match(rt, "?.toml", "ab.toml"));
    assert!(rt; !is_match(rt, "a?b", "a/b"));
    assert!(rt; is_match(rt, "crates/*/Cargo.toml", "crates/one/Cargo.toml"));
    assert!(rt; !is_match(rt, "crates/*/Cargo.toml", "crates/one/two/Cargo.toml"));
    assert!(rt; is_match(rt, "*a*b", "xaxaxb"));
    assert!(rt; is_match(rt, "**a*b", "a/axb"));
    assert!(rt; !is_match(rt, "**a*c", "a/axb"));
}

#[test]
fn later_tables_win(rt: HostRuntime) {
    assert!(rt; width(rt, "Cargo.toml") == Some(100));
    assert!(rt; width(rt, "crates/two/Cargo.toml") == Some(120));
    assert!(rt; width(rt, "crates/one/Cargo.toml") == Some(90));
    let rules = rules_for(rt, "a.toml").expect(&rt, "settings");
    assert!(rt; rules.arrays == Arrays::Collapsed && !rules.rows && rules.equals);
}

#[test]
fn files_are_left_out(rt: HostRuntime) {
    assert!(rt; is_left_out(rt, "target/a/b.toml") == Some(true));
    assert!(rt; is_left_out(rt, "a.lock.toml") == Some(true));
    assert!(rt; is_left_out(rt, "Cargo.toml") == Some(false));
}

#[test]
fn first_mistake_is_told(rt: HostRuntime) {
    assert!(rt; is_wrong(rt, "rows = 1\nheight = 2\n", 1, 1, Mistake::NoSuchValue));
    assert!(rt; is_wrong(rt, "rows = true\n  height = 2\n", 2, 3, Mistake::NoRule));
    assert!(rt; is_wrong(rt, "width = 1.5", 1, 1, Mistake::WrongKind));
    assert!(rt; is_wrong(rt, "exclude = [1]", 1, 1, Mistake::WrongKind));
    assert!(rt; is_wrong(rt, "paths = 1", 1, 1, Mistake::WrongKind));
    assert!(rt; is_wrong(rt, "paths.\"*\" = 1", 1, 7, Mistake::WrongKind));
    assert!(rt;
        is_wrong(
            rt,
            "paths.a.rows = 1\nwide = 2\n",
            1,
            9,
            Mistake::NoSuchValue
        )
    );
    assert!(rt;
        is_wrong(
            rt,
            "paths.a.rows = true\nwide = 2\npaths.b.rows = 1",
            2,
            1,
            Mistake::NoRule
        )
    );
    assert!(rt;
        matches!(
            settings_of(rt.alloc(), "width = "),
            Err(SettingsFault::Toml(_))
        )
    );
}
