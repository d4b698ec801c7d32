//! Checking the keys of a path, one after the other, and the decor around a key and its value.
ghost use Rattle.std.specs.Prelude.{◌≡◌};
ghost use Rattle.toml_edit_repr.specs.Modes.{mode_of};
ghost use Rattle.toml_edit_fits.specs.FitTests as tests;
ghost use Rattle.toml_edit_fits.specs.Misfits as spec;

use crate::misfit::FitRule;
use crate::trivia::{ends_line, is_white, is_whole};
use toml_edit_key::Key;
use toml_edit_repr::{Decor, Mode};
use toml_edit_syntax::NESTING_LIMIT;

/// The keys before a key in its path: how many more the path may have, and whether those before are
/// few enough, with whitespace alone beside their dots.
#[derive(Clone, Copy)]
pub(crate) struct Route {
    pub(crate) room: usize,
    pub(crate) fits: bool,
}

/// Returns the route of no keys.
pub(crate) fn no_keys() -> Route
    ensures { result ≡ tests.no_keys }
{
    Route {
        room: NESTING_LIMIT,
        fits: true,
    }
}

/// Returns `true` if the key may end the path.
pub(crate) fn key_fits(mode: Mode, route: Route, key: &Key) -> bool
    ensures { result ≡ tests.key_fits (mode_of mode) route key.now }
{
    route.fits
        && route.room > 0
        && (route.room == NESTING_LIMIT || is_white(mode, key.dotted_decor().prefix()))
}

/// Returns the path with one more key, before another.
pub(crate) fn then_key(mode: Mode, route: Route, key: &Key) -> Route
    ensures { result ≡ tests.then_key (mode_of mode) route key.now }
{
    Route {
        room: route.room.saturating_sub(1),
        fits: key_fits(mode, route, key) && is_white(mode, key.dotted_decor().suffix()),
    }
}

/// Returns the rule that a line or a header with these keys before its last breaks: the limits if
/// there are too many, else that decors suit their places.
pub(crate) fn path_rule(route: Route) -> FitRule
    ensures { result ≡ spec.path_rule route }
{
    if route.room > 0 {
        FitRule::Decor
    } else {
        FitRule::Limits
    }
}

/// Returns `true` if the suffix of a value suits its place, where so many more brackets may be
/// opened: trivia in brackets, else the end of a line.
fn may_follow(mode: Mode, room: usize, decor: &Decor) -> bool
    ensures { result ≡ tests.may_follow (mode_of mode) room decor.now }
{
    if room == NESTING_LIMIT {
        ends_line(mode, decor.suffix())
    } else {
        is_whole(mode, decor.suffix())
    }
}

/// Returns `true` if the decor around a key and its value suits its place, and the path has few
/// enough keys.
pub(crate) fn pair_fits(mode: Mode, room: usize, route: Route, key: &Key, decor: &Decor) -> bool
    ensures { result ≡ tests.pair_fits (mode_of mode) room route key.now decor.now }
{
    let leaf = key.leaf_decor();
    key_fits(mode, route, key)
        && is_whole(mode, leaf.prefix())
        && is_white(mode, leaf.suffix())
        && is_white(mode, decor.prefix())
        && may_follow(mode, room, decor)
}

/// Returns `true` if the decor around an element of an array is trivia.
pub(crate) fn element_fits(mode: Mode, decor: &Decor) -> bool
    ensures { result ≡ tests.element_fits (mode_of mode) decor.now }
{
    is_whole(mode, decor.prefix()) && is_whole(mode, decor.suffix())
}
