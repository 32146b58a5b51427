//! The settings of a run.
ghost use Rattle.std.specs.Prelude.{◌≡◌, ◌≤◌, IfOk, IfErr, OnErr, Some, None, codes};
ghost use Rattle.clap.specs.Words.{found_of, rows_of, first_of};
ghost use Rattle.tor_arena.specs.Limits.{max_paths, max_ratio};
ghost use Rattle.tor_words.specs.Given.{settings_in, settings_given, task_in, job_in, number_or, order_or_seen, sets_or_cut, top_or_none};
ghost use Rattle.tor_words.specs.Refused.{IsUsage, SaysUsage};

use crate::as_lists::as_list;
use crate::command::command;
use crate::found::{first, names_in};
use crate::job::{Job, job_of};
use crate::matching::matches_of;
use crate::name::Name;
use crate::refused::{WordsRefused, usage};
use crate::task::{Task, refusal_in, task_in};
use crate::values::{number_or, order_or_seen, sets_or_cut};
use clap::ArgMatches;
use path_clean::Sets;
use path_order::Order;
use std::alloc::Global;
use tor_arena::{List, MAX_PATHS, MAX_RATIO, NoMemory};

/// What a run of `tor` is asked for.
#[derive(Drop)]
pub struct Settings {
    /// What is done, and over which files.
    pub job: Job,
    /// What becomes of sets in AS_PATHs, but where an earlier result is taken up, which says it.
    pub sets: Sets,
    /// In which order distinct paths are taken, but for those of an earlier result that is taken up, which stay as they are.
    pub order: Order,
    /// The networks that buy transit from nobody, in any order, if they are named: each end of an edge that is one of them is known to be
    /// over the other end, if that is none.
    pub top: Option<List<u32>>,
    /// How many times the lesser degree of an edge's two ends the greater one may be at most, so that the edge can become a
    /// peering: from 0, where none can, to 1000000.
    pub ratio: u32,
    /// The most distinct paths, from 1 to 8388608.
    pub max_paths: u32,
}

/// What is asked for, and the values that no file has.
#[derive(Clone, Copy)]
struct Choices {
    task: Task,
    sets: Sets,
    order: Order,
    ratio: u32,
    max_paths: u32,
}

/// Why words are refused that name no networks.
const TOP_VALUE: &str = "--top takes AS numbers from 0 to 4294967295, joined by commas\n";

/// Why words are refused where two of them each ask for something in place of the result.
const ONE_ALONE: &str =
    "of --list, --survey, --ties, --ask, --serial1, --sample, --migrate and --resume one can be given\n";

// What is asked for, and the values that no file has; or why none are.
fn choices_in(matches: &ArgMatches) -> Result<Choices, &'static str>
    ensures task { IfOk result (λ c. task_in (rows_of (found_of matches.now)) ≡ Some c.task) }
    ensures sets { IfOk result (λ c. sets_or_cut (first_of (codes "as-sets") (rows_of (found_of matches.now))) ≡ Some c.sets) }
    ensures order { IfOk result (λ c. order_or_seen (first_of (codes "order") (rows_of (found_of matches.now))) ≡ Some c.order) }
    ensures ratio { IfOk result (λ c. number_or 0 max_ratio 60 (first_of (codes "ratio") (rows_of (found_of matches.now))) ≡ Some c.ratio) }
    ensures most { IfOk result (λ c.
        number_or 1 max_paths max_paths (first_of (codes "max-paths") (rows_of (found_of matches.now))) ≡ Some c.max_paths) }
    ensures err { OnErr result (settings_in (rows_of (found_of matches.now)) ≡ None) }
    ensures least_paths { IfOk result (λ c. 1 ≤ c.max_paths) }
    ensures most_paths { IfOk result (λ c. c.max_paths ≤ max_paths) }
    ensures most_ratio { IfOk result (λ c. c.ratio ≤ max_ratio) }
{
    let Some(task) = task_in(matches) else {
        return Err(ONE_ALONE);
    };
    let Some(sets) = sets_or_cut(first(matches, "as-sets")) else {
        return Err("--as-sets takes cut or skip\n");
    };
    let Some(order) = order_or_seen(first(matches, "order")) else {
        return Err("--order takes seen or short\n");
    };
    let Some(ratio) = number_or(first(matches, "ratio"), 0, MAX_RATIO as u64, 60) else {
        return Err("--ratio takes a number from 0 to 1000000\n");
    };
    let Some(max_paths) = number_or(
        first(matches, "max-paths"),
        1,
        MAX_PATHS as u64,
        MAX_PATHS as u64,
    ) else {
        return Err("--max-paths takes a number from 1 to 8388608\n");
    };
    Ok(Choices {
        task,
        sets,
        order,
        ratio: ratio as u32,
        max_paths: max_paths as u32,
    })
}

// The job that the matches ask for with this task, if no option stands beside it that it refuses; or why there is none.
fn job_in(alloc: Global, matches: &ArgMatches, task: Task) -> Result<Job, WordsRefused>
    ensures ok { IfOk result (λ job. job_in (rows_of (found_of matches.now)) task ≡ Some job) }
    ensures err { IfErr result (λ e. IsUsage e → job_in (rows_of (found_of matches.now)) task ≡ None) }
    ensures text { IfErr result SaysUsage }
{
    let Ok(names) = names_in(alloc, matches) else {
        return Err(WordsRefused::NoMemory);
    };
    match job_of(alloc, matches, task, names) {
        Ok(job) => match refusal_in(matches, task) {
            None => Ok(job),
            Some(why) => {
                drop(job);
                Err(usage(alloc, why))
            }
        },
        Err(refused) => Err(refused),
    }
}

// The networks that buy from nobody, if they are named; or why none can be.
fn top_in(alloc: Global, matches: &ArgMatches) -> Result<Option<List<u32>>, WordsRefused>
    ensures ok { IfOk result (λ top. top_or_none (first_of (codes "top") (rows_of (found_of matches.now))) ≡ Some top) }
    ensures err { IfErr result (λ e. IsUsage e → top_or_none (first_of (codes "top") (rows_of (found_of matches.now))) ≡ None) }
    ensures text { IfErr result SaysUsage }
{
    let Some(text) = first(matches, "top") else {
        return Ok(None);
    };
    match as_list(alloc, text) {
        Ok(Some(ases)) => Ok(Some(ases)),
        Ok(None) => Err(usage(alloc, TOP_VALUE)),
        Err(NoMemory) => Err(WordsRefused::NoMemory),
    }
}

// The settings of these choices, this job and these networks.
fn settings_by(choices: Choices, job: Job, top: Option<List<u32>>) -> Settings
    ensures { result ≡ record {
      job = job;
      sets = choices.sets;
      order = choices.order;
      top = top;
      ratio = choices.ratio;
      max_paths = choices.max_paths;
    } }
{
    Settings {
        job,
        sets: choices.sets,
        order: choices.order,
        top,
        ratio: choices.ratio,
        max_paths: choices.max_paths,
    }
}

// The settings that the matches give, if they ask for something and their values are some.
fn settings_in(alloc: Global, matches: &ArgMatches) -> Result<Settings, WordsRefused>
    ensures ok { IfOk result (λ s. settings_in (rows_of (found_of matches.now)) ≡ Some s) }
    ensures err { IfErr result (λ e. IsUsage e → settings_in (rows_of (found_of matches.now)) ≡ None) }
    ensures text { IfErr result SaysUsage }
    ensures ratio { IfOk result (λ s. s.ratio ≤ max_ratio) }
    ensures some { IfOk result (λ s. 1 ≤ s.max_paths) }
    ensures most { IfOk result (λ s. s.max_paths ≤ max_paths) }
{
    let choices = match choices_in(matches) {
        Ok(choices) => choices,
        Err(why) => return Err(usage(alloc, why)),
    };
    match job_in(alloc, matches, choices.task) {
        Ok(job) => match top_in(alloc, matches) {
            Ok(top) => Ok(settings_by(choices, job, top)),
            Err(refused) => {
                drop(job);
                Err(refused)
            }
        },
        Err(refused) => Err(refused),
    }
}

/// The settings that the words after the program's name give, by clap's meaning of the command. Usage comes exactly
/// where they give none.
pub fn settings_of(alloc: Global, words: &List<Name>) -> Result<Settings, WordsRefused>
    ensures given { IfOk result (λ s. settings_given words.now ≡ Some s) }
    ensures refused { IfErr result (λ e. IsUsage e → settings_given words.now ≡ None) }
    ensures text { IfErr result SaysUsage }
    ensures ratio { IfOk result (λ s. s.ratio ≤ max_ratio) }
    ensures some { IfOk result (λ s. 1 ≤ s.max_paths) }
    ensures most { IfOk result (λ s. s.max_paths ≤ max_paths) }
{
    match matches_of(alloc, command(alloc), words) {
        Ok(matches) => {
            let settings = settings_in(alloc, &matches);
            drop(matches);
            settings
        }
        Err(refused) => Err(refused),
    }
}
