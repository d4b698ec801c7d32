//! What each program leaves of a text, and why it refuses another, written by hand.
use example_proofs::add_dependency::add_dependency;
use example_proofs::add_member::add_member;
use example_proofs::bump::bump;
use example_proofs::format_text::format_text;
use example_proofs::misspelled::{Place, misspelled};
use example_proofs::remove_dependency::remove_dependency;
use example_proofs::rename_key::rename_key;
use example_proofs::set_string::set_string;
use example_proofs::set_two::set_two;
use example_proofs::sort_table::sort_table;
use example_proofs::to_project::to_project;
use std::alloc::Global;
use std::fmt::Display;

/// Returns `true` if this is what is left.
fn leaves<E: Drop>(given: Result<String, E>, wanted: &str) -> bool {
    match given {
        Ok(out) => out.as_str() == wanted,
        Err(_) => false,
    }
}

/// Returns `true` if nothing is left, for this reason.
fn fails<E: Display + Drop>(alloc: Global, given: Result<String, E>, wanted: &str) -> bool {
    match given {
        Ok(_) => false,
        Err(fault) => match format!(in alloc; "{fault}") {
            Ok(reason) => reason.as_str() == wanted,
            Err(_) => false,
        },
    }
}

#[test]
fn sets_a_string(rt: HostRuntime) {
    let alloc = rt.alloc();
    let text = "a.b = 1 # one\nc = 'x'\n";
    let wanted = "a.b = \"y\" # one\nc = 'x'\n";
    assert!(rt; leaves(set_string(alloc, text, &["a", "b"], "y"), wanted));
    assert!(rt; fails(alloc, set_string(alloc, text, &["a"], "y"), "wrong kind\n"));
}

#[test]
fn sets_two_strings(rt: HostRuntime) {
    let alloc = rt.alloc();
    let text = "[p]\nname = \"a\"\nversion = \"1\" # old\n";
    let wanted = "[p]\nname = \"b\"\nversion = \"2\" # old\n";
    let both = set_two(alloc, text, &["p", "name"], "b", &["p", "version"], "2");
    assert!(rt; leaves(both, wanted));
    let second_is_missing = set_two(alloc, text, &["p", "name"], "b", &["version"], "2");
    assert!(rt; fails(alloc, second_is_missing, "no such path"));
}

#[test]
fn adds_a_member(rt: HostRuntime) {
    let alloc = rt.alloc();
    let text = "a = [\n  \"x\", # x\n]\nb = 1\n";
    let wanted = "a = [\n  \"x\", # x\n  \"y\",\n]\nb = 1\n";
    assert!(rt; leaves(add_member(alloc, text, &["a"], "y"), wanted));
    assert!(rt; fails(alloc, add_member(alloc, text, &["b"], "y"), "wrong kind\n"));
}

#[test]
fn removes_a_dependency(rt: HostRuntime) {
    let alloc = rt.alloc();
    let text = "[dependencies]\n# a\na = \"1\"\n# b\nb = \"2\"\n";
    let wanted = "[dependencies]\n# b\nb = \"2\"\n";
    assert!(rt; leaves(remove_dependency(alloc, text, "dependencies", "a"), wanted));
    let missing = remove_dependency(alloc, text, "dependencies", "c");
    assert!(rt; fails(alloc, missing, "no such path\n"));
}

#[test]
fn renames_a_key(rt: HostRuntime) {
    let alloc = rt.alloc();
    let text = "a = 1 # one\nb = 2\n";
    let wanted = "\"c d\" = 1 # one\nb = 2\n";
    assert!(rt; leaves(rename_key(alloc, text, &["a"], "c d"), wanted));
    assert!(rt;
        fails(
            alloc,
            rename_key(alloc, text, &["a"], "b"),
            "the key is there already\n"
        )
    );
}

#[test]
fn sorts_a_table(rt: HostRuntime) {
    let alloc = rt.alloc();
    let text = "b = 1 # one\n# two\na = 2\n";
    let wanted = "# two\na = 2\nb = 1 # one\n";
    assert!(rt; leaves(sort_table(alloc, text, &[]), wanted));
    assert!(rt; fails(alloc, sort_table(alloc, text, &["a"]), "wrong kind\n"));
}

#[test]
fn bumps_a_package(rt: HostRuntime) {
    let alloc = rt.alloc();
    let text =
        "[[package]]\nname = \"a\"\nversion = \"1\"\n\n[[package]]\nname = \"b\"\nversion = \"1\" # b\n";
    let wanted =
        "[[package]]\nname = \"a\"\nversion = \"1\"\n\n[[package]]\nname = \"b\"\nversion = \"2\" # b\n";
    assert!(rt; leaves(bump(alloc, text, "b", "2"), wanted));
    assert!(rt; fails(alloc, bump(alloc, text, "c", "2"), "not found"));
}

#[test]
fn moves_to_project(rt: HostRuntime) {
    let alloc = rt.alloc();
    let text =
        "[tool.poetry]\n# its name\nname = \"a\"\nreadme = \"r\"\nversion = \"1\"\n\n[project]\nx = 1\n";
    let wanted =
        "[tool.poetry]\nreadme = \"r\"\n\n[project]\nx = 1\n# its name\nname = \"a\"\nversion = \"1\"\n";
    assert!(rt; leaves(to_project(alloc, text), wanted));
    let text = "[tool.poetry]\nname = \"a\" # n\nreadme = \"r\"\n";
    let wanted = "[tool.poetry]\nreadme = \"r\"\n\n[project]\nname = \"a\" # n\n";
    assert!(rt; leaves(to_project(alloc, text), wanted));
    let text = "project = 1\n[tool.poetry]\nname = \"a\"\n";
    assert!(rt; fails(alloc, to_project(alloc, text), "wrong kind\n"));
}

#[test]
fn adds_a_dependency(rt: HostRuntime) {
    let alloc = rt.alloc();
    let text = "[dependencies]\na = \"1\"\nc = \"3\" # c\n";
    let wanted =
        "[dependencies]\na = \"1\"\nb = { version = \"2\", features = [\"x\", \"y\"] }\nc = \"3\" # c\n";
    assert!(rt; leaves(add_dependency(alloc, text, "b", "2", &["x", "y"]), wanted));
    assert!(rt;
        fails(
            alloc,
            add_dependency(alloc, text, "c", "2", &[]),
            "already there"
        )
    );
}

#[test]
fn formats_a_text(rt: HostRuntime) {
    let alloc = rt.alloc();
    let text = "a=1   # one\nb  = [ 1,2 ]\n";
    let wanted = "a = 1 # one\nb = [1, 2]\n";
    assert!(rt; leaves(format_text(alloc, text), wanted));
    assert!(rt; format_text(alloc, "a = \n").is_err());
}

/// Returns `true` if these are the places.
fn has_places<E: Drop>(given: Result<Vec<Place>, E>, wanted: &[Place]) -> bool {
    match given {
        Ok(places) => places.as_slice() == wanted,
        Err(_) => false,
    }
}

#[test]
fn finds_misspelled_keys(rt: HostRuntime) {
    let alloc = rt.alloc();
    let first = Place { line: 1, column: 1 };
    let second = Place { line: 3, column: 5 };
    let text = "\"a\" = 1\n[b]\n  b.'c' = 2\n";
    assert!(rt; has_places(misspelled(alloc, text), &[first, second]));
    assert!(rt; misspelled(alloc, "a = \n").is_err());
}
