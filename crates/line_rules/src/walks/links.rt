//! Whether a link fits.
ghost use Rattle.std.specs.Prelude.{◌≡◌, ◌⊎◌, ◌<◌, ◌≤◌, ◌↔◌, ℕ, List, Some, IsTrue, Contains, length, take, option_map};
ghost use Rattle.std.specs.Option.{option_copied};
ghost use Rattle.relationships.specs.declared.given.Given.{Given as Known};
ghost use Rattle.relationships.specs.Evidence.{StandAt, TripleAt};
ghost use Rattle.relationships.specs.GivenEvidence.{IsGiven, FitsGiven, IsLinkedWith};
ghost use Rattle.result_rules.specs.File.{its_givens};
ghost use Rattle.line_rules.specs.Naming.{path_if_kept, nameable, FitsOn};

use crate::lending::{givens_of, path_line_at};
use relationships::{Given, Link, WalkRef};
use result_text::{PathLineRef, PathLines, ResultFile};

/// Whether x, y, z stand in the path one behind the other, with y as its `at`-th AS, from 1.
fn stand_at(path: &[u32], at: usize, x: u32, y: u32, z: u32) -> bool
    ensures { IsTrue result ↔ StandAt path.now at x y z }
{
    if at < 2 || at >= path.len() {
        return false;
    }
    if path[at - 2] != x {
        return false;
    }
    if path[at - 1] != y {
        return false;
    }
    path[at] == z
}

/// Whether x, y, z are a triple of the path, with y as its `at`-th AS, from 1.
fn fits(path: &[u32], at: usize, x: u32, y: u32, z: u32) -> bool
    ensures { IsTrue result ↔ TripleAt path.now at x y z }
{
    stand_at(path, at, x, y, z) || stand_at(path, at, z, y, x)
}

/// The path of the line, if there is one.
fn path_of<'a>(line: Option<&PathLineRef<'a>>) -> Option<&'a [u32]>
    ensures { option_copied result ≡ option_map (λ p. p.path) (option_copied line.entry) }
{
    match line {
        Some(line) => Some(line.path()),
        None => None,
    }
}

/// The path of the line, if it is kept.
fn kept_path<'a>(line: &PathLineRef<'a>) -> Option<&'a [u32]>
    ensures { option_copied result ≡ path_if_kept line.now }
{
    if line.is_kept() {
        Some(line.path())
    } else {
        None
    }
}

/// The path that has this number, if it is that of a kept line among the first ones or that of the line behind them.
fn path_named<'a>(
    lines: &'a PathLines,
    count: usize,
    next: Option<&PathLineRef<'a>>,
    number: u32,
) -> Option<&'a [u32]>
    requires { count ≤ length lines.now }
    ensures { (path : List ℕ) → Contains (nameable (take count lines.now) (option_copied next.entry)) (number, path) ↔
        option_copied result ≡ Some path }
{
    if number == 0 {
        return None;
    }
    let place = number as usize - 1;
    if place == count {
        return path_of(next);
    }
    if place > count {
        return None;
    }
    kept_path(&path_line_at(lines, place))
}

/// The given that has this number, from 1.
fn given_named(givens: &[Given], number: u32) -> Option<Given>
    ensures { (g : Known) → IsGiven givens.now number g ↔ result ≡ Some g }
{
    if number == 0 {
        return None;
    }
    givens.get(number as usize - 1).copied()
}

/// Whether x, y, z are the customer of the given, its provider, and the customer again.
fn is_return(given: &Given, x: u32, y: u32, z: u32) -> bool
    ensures { IsTrue result ↔ ((x ≡ given.now.under) × (y ≡ given.now.over) × (z ≡ given.now.under)) }
{
    x == given.under && y == given.over && z == given.under
}

/// Whether the link names a given, with path 0, whose return is x, y, z.
fn fits_given(givens: &[Given], link: &Link, x: u32, y: u32, z: u32) -> bool
    ensures { IsTrue result ↔ FitsGiven givens.now link.now x y z }
{
    if link.path != 0 {
        return false;
    }
    match given_named(givens, link.at) {
        Some(given) => is_return(&given, x, y, z),
        None => false,
    }
}

/// Whether the link fits x, y, z as the name of a given, or on the path that it names, if there is one.
fn link_fits(givens: &[Given], path: Option<&[u32]>, link: &Link, x: u32, y: u32, z: u32) -> bool
    ensures { IsTrue result ↔ FitsGiven givens.now link.now x y z ⊎ FitsOn (option_copied path.entry) link.now.at x y z }
{
    if fits_given(givens, link, x, y, z) {
        return true;
    }
    match path {
        Some(path) => fits(path, link.at as usize, x, y, z),
        None => false,
    }
}

/// Whether it is a walk over the givens, the paths of the kept lines among the first ones, so many, and that of the line behind them, if
/// there is one. It takes no memory.
pub fn is_walk<'a>(
    file: &'a ResultFile,
    count: usize,
    next: Option<&PathLineRef<'a>>,
    walk: &WalkRef<'_>,
) -> bool
    requires { count ≤ length file.now.paths }
    ensures { IsTrue result ↔ IsLinkedWith (its_givens file.now) (nameable (take count file.now.paths) (option_copied next.entry))
        walk.now.ases walk.now.links }
{
    let ases = walk.ases();
    let links = walk.links();
    if ases.len() != links.len() + 2 {
        return false;
    }
    let givens = givens_of(file);
    for (i, link) in links.iter().enumerate() {
        let path = path_named(&file.paths, count, next, link.path);
        if !link_fits(givens, path, link, ases[i], ases[i + 1], ases[i + 2]) {
            return false;
        }
    }
    true
}
