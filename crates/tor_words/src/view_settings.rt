//! The settings of a picture.
ghost use Rattle.std.specs.Prelude.{◌≡◌, ◌≤◌, IfOk, IfErr, IfSome, Some, None};
ghost use Rattle.clap.specs.Words.{found_of, rows_of};
ghost use Rattle.tor_words.specs.ViewGiven.{AreWithin, depth_in, drawn_in, link_in, most_in, view_settings_in, view_settings_given};
ghost use Rattle.tor_words.specs.Links.{IsLink};
ghost use Rattle.tor_words.specs.Refused.{IsUsage, SaysUsage};

use crate::as_words::as_named;
use crate::found::first;
use crate::links::is_link;
use crate::matching::matches_of;
use crate::name::Name;
use crate::refused::{WordsRefused, usage};
use crate::values::number_or;
use crate::view_command::view_command;
use clap::ArgMatches;
use std::alloc::Global;
use tor_arena::{List, NoMemory};

/// Why words are refused whose link is none.
const LINK_VALUE: &str =
    "--link takes what begins with http:// or https://, in printable ASCII without blank, quote, apostrophe, < and >\n";

/// What a run of `torview` is asked for: the picture of one AS of a result with its neighbours.
#[derive(Drop)]
pub struct ViewSettings {
    /// The name of the result file.
    pub result: Name,
    /// The AS.
    pub asked: u32,
    /// The most neighbours of each group that are drawn, from 1 to 2000.
    pub most: u32,
    /// How many generations of providers are drawn at most, from 1 to 8.
    pub depth: u32,
    /// Where the box of an AS leads, with its number in place of each `{}`.
    pub link: Option<List<u8>>,
}

// How many neighbours of each group are drawn at most beside so many generations.
fn most_in(depth: u32, matches: &ArgMatches) -> Option<u32>
    ensures value { result ≡ most_in depth (rows_of (found_of matches.now)) }
    ensures within { IfSome result (λ most. (1 ≤ most) × (most ≤ 2000)) }
{
    let usual = if depth > 1 { 11 } else { 60 };
    match number_or(first(matches, "most"), 1, 2000, usual) {
        Some(most) => Some(most as u32),
        None => None,
    }
}

// How many generations of providers are drawn at most.
fn depth_in(matches: &ArgMatches) -> Option<u32>
    ensures value { result ≡ depth_in (rows_of (found_of matches.now)) }
    ensures within { IfSome result (λ depth. (1 ≤ depth) × (depth ≤ 8)) }
{
    match number_or(first(matches, "depth"), 1, 8, 1) {
        Some(depth) => Some(depth as u32),
        None => None,
    }
}

// The AS that is drawn with its neighbours.
fn drawn_in(matches: &ArgMatches) -> Option<u32>
    ensures { result ≡ drawn_in (rows_of (found_of matches.now)) }
{
    match first(matches, "as") {
        Some(text) => as_named(text),
        None => None,
    }
}

// The octets of the text.
fn octets_of(alloc: Global, text: &str) -> Result<List<u8>, NoMemory>
    ensures { IfOk result (λ octets. octets ≡ text.now) }
{
    let mut octets = List::new(alloc);
    match octets.extend_from_slice(text.as_bytes()) {
        Ok(()) => Ok(octets),
        Err(NoMemory) => {
            drop(octets);
            Err(NoMemory)
        }
    }
}

// Where boxes lead, if the words say so; or why they can't lead there.
fn link_in(alloc: Global, matches: &ArgMatches) -> Result<Option<List<u8>>, WordsRefused>
    ensures ok { IfOk result (λ link. link_in (rows_of (found_of matches.now)) ≡ Some link) }
    ensures err { IfErr result (λ e. IsUsage e → link_in (rows_of (found_of matches.now)) ≡ None) }
    ensures text { IfErr result SaysUsage }
    ensures leading { IfOk result (λ link. IfSome link IsLink) }
{
    let Some(text) = first(matches, "link") else {
        return Ok(None);
    };
    if !is_link(text) {
        return Err(usage(alloc, LINK_VALUE));
    }
    match octets_of(alloc, text) {
        Ok(link) => Ok(Some(link)),
        Err(NoMemory) => Err(WordsRefused::NoMemory),
    }
}

// The settings that the matches give, if the result and an AS are named, and the values are some.
fn view_settings_in(alloc: Global, matches: &ArgMatches) -> Result<ViewSettings, WordsRefused>
    ensures ok { IfOk result (λ s. view_settings_in (rows_of (found_of matches.now)) ≡ Some s) }
    ensures err { IfErr result (λ e. IsUsage e → view_settings_in (rows_of (found_of matches.now)) ≡ None) }
    ensures text { IfErr result SaysUsage }
    ensures within { IfOk result AreWithin }
{
    let Some(text) = first(matches, "result") else {
        return Err(usage(alloc, "no result is named\n"));
    };
    let Some(asked) = drawn_in(matches) else {
        return Err(usage(alloc, "an AS is named by a number from 0 to 4294967295\n"));
    };
    let Some(depth) = depth_in(matches) else {
        return Err(usage(alloc, "--depth takes a number from 1 to 8\n"));
    };
    let Some(most) = most_in(depth, matches) else {
        return Err(usage(alloc, "--most takes a number from 1 to 2000\n"));
    };
    let link = match link_in(alloc, matches) {
        Ok(link) => link,
        Err(refused) => return Err(refused),
    };
    match Name::from_text(alloc, text) {
        Ok(result) => Ok(ViewSettings {
            result,
            asked,
            most,
            depth,
            link,
        }),
        Err(_) => {
            drop(link);
            Err(WordsRefused::NoMemory)
        }
    }
}

/// The settings that the words after the program's name give to a picture, by clap's meaning of the command. Usage comes
/// exactly where they give none.
pub fn view_settings_of(alloc: Global, words: &List<Name>) -> Result<ViewSettings, WordsRefused>
    ensures given { IfOk result (λ s. view_settings_given words.now ≡ Some s) }
    ensures refused { IfErr result (λ e. IsUsage e → view_settings_given words.now ≡ None) }
    ensures text { IfErr result SaysUsage }
    ensures within { IfOk result AreWithin }
{
    match matches_of(alloc, view_command(alloc), words) {
        Ok(matches) => {
            let settings = view_settings_in(alloc, &matches);
            drop(matches);
            settings
        }
        Err(refused) => Err(refused),
    }
}
