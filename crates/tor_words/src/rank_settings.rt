//! The settings of a ranking.
ghost use Rattle.std.specs.Prelude.{◌≡◌, IfOk, IfErr, Some, None};
ghost use Rattle.clap.specs.Words.{found_of, rows_of};
ghost use Rattle.tor_words.specs.RankGiven.{rank_task, rank_task_in, rank_settings_in, rank_settings_given};
ghost use Rattle.tor_words.specs.Refused.{IsUsage, SaysUsage};

use crate::found::{first, has_flag};
use crate::matching::matches_of;
use crate::name::Name;
use crate::rank_command::rank_command;
use crate::refused::{WordsRefused, usage};
use clap::ArgMatches;
use std::alloc::Global;
use tor_arena::List;

/// What is written of the ASes of known relationships.
#[derive(Clone, Copy, PartialEq, Eq)]
pub enum RankTask {
    /// Their ranks by the sizes of their customer cones.
    Ranks,
    /// Their customer cones, with all members.
    Cones,
    /// The cycles among them.
    Cycles,
}

/// What a run of `torrank` is asked for: what the ASes of known relationships are to each other.
#[derive(Drop)]
pub struct RankSettings {
    /// The name of the file of known relationships.
    pub rel: Name,
    /// What is written of them.
    pub task: RankTask,
}

// What the two flags ask for, which is one thing.
fn rank_task(cones: bool, cycles: bool) -> Option<RankTask>
    ensures { result ≡ rank_task cones cycles }
{
    match (cones, cycles) {
        (false, false) => Some(RankTask::Ranks),
        (true, false) => Some(RankTask::Cones),
        (false, true) => Some(RankTask::Cycles),
        (true, true) => None,
    }
}

// What the matches ask for.
fn rank_task_in(matches: &ArgMatches) -> Option<RankTask>
    ensures { result ≡ rank_task_in (rows_of (found_of matches.now)) }
{
    rank_task(has_flag(matches, "cones"), has_flag(matches, "cycles"))
}

// The settings that the matches give, if the file is named, and one thing is asked for.
fn rank_settings_in(alloc: Global, matches: &ArgMatches) -> Result<RankSettings, WordsRefused>
    ensures ok { IfOk result (λ s. rank_settings_in (rows_of (found_of matches.now)) ≡ Some s) }
    ensures err { IfErr result (λ e. IsUsage e → rank_settings_in (rows_of (found_of matches.now)) ≡ None) }
    ensures text { IfErr result SaysUsage }
{
    let Some(text) = first(matches, "rel") else {
        return Err(usage(alloc, "no file of relationships is named\n"));
    };
    let Some(task) = rank_task_in(matches) else {
        return Err(usage(alloc, "--cones and --cycles exclude each other\n"));
    };
    match Name::from_text(alloc, text) {
        Ok(rel) => Ok(RankSettings { rel, task }),
        Err(_) => Err(WordsRefused::NoMemory),
    }
}

/// The settings that the words after the program's name give to a ranking, by clap's meaning of the command. Usage comes
/// exactly where they give none.
pub fn rank_settings_of(alloc: Global, words: &List<Name>) -> Result<RankSettings, WordsRefused>
    ensures given { IfOk result (λ s. rank_settings_given words.now ≡ Some s) }
    ensures refused { IfErr result (λ e. IsUsage e → rank_settings_given words.now ≡ None) }
    ensures text { IfErr result SaysUsage }
{
    match matches_of(alloc, rank_command(alloc), words) {
        Ok(matches) => {
            let settings = rank_settings_in(alloc, &matches);
            drop(matches);
            settings
        }
        Err(refused) => Err(refused),
    }
}
