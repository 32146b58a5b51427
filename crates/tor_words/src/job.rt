//! What a run of `tor` is to do, and over which files.
ghost use Rattle.std.specs.Prelude.{◌≡◌, IfOk, IfErr, OnErr, IsErr, Ok, Some, None, option_map};
ghost use Rattle.clap.specs.Words.{found_of, rows_of};
ghost use Rattle.tor_words.specs.Given.{counting, inferring, sampling, migrating, resuming, job_of};
ghost use Rattle.tor_words.specs.Refused.{IsUsage, SaysUsage};

use crate::found::first;
use crate::name::Name;
use crate::refused::{WordsRefused, usage};
use crate::task::{Counted, Made, Task};
use crate::values::number_in;
use clap::ArgMatches;
use std::alloc::Global;
use tor_arena::List;

/// What a run of `tor` is to do, and over which files. The dumps of each job are one at least, in the order in which they are read.
#[derive(Drop)]
pub enum Job {
    /// These dumps are counted, and nothing is inferred of them.
    Count(Counted, List<Name>),
    /// Orientations are made of dumps, which the known relationships of a file bind, if one is named.
    Infer {
        made: Made,
        given: Option<Name>,
        dumps: List<Name>,
    },
    /// The result of the sample of this number is summed up. No file is read.
    Sample(u64),
    /// The result that the file of this name holds is written in the text of version 2. No dump is read.
    Migrate(Name),
    /// The result of dumps is made on top of the one that the file of this name holds, whose sets and givens it has.
    Resume {
        earlier: Name,
        dumps: List<Name>,
    },
}

/// Why words are refused that name no dump.
const NO_DUMP: &str = "no dump is named\n";

// The counting of dumps, or why there is none.
fn counting(alloc: Global, counted: Counted, names: List<Name>) -> Result<Job, WordsRefused>
    ensures ok { IfOk result (λ job. counting counted names ≡ Some job) }
    ensures err { IfErr result (λ e. IsUsage e → counting counted names ≡ None) }
    ensures text { IfErr result SaysUsage }
{
    if names.is_empty() {
        drop(names);
        return Err(usage(alloc, NO_DUMP));
    }
    Ok(Job::Count(counted, names))
}

// What is made of dumps and of the known relationships of a file, if one is named; or why nothing is.
fn inferring(
    alloc: Global,
    made: Made,
    given: Option<&str>,
    names: List<Name>,
) -> Result<Job, WordsRefused>
    ensures ok { IfOk result (λ job. inferring made (option_map (λ s. s.now) given.entry) names ≡ Some job) }
    ensures err { IfErr result (λ e. IsUsage e → inferring made (option_map (λ s. s.now) given.entry) names ≡ None) }
    ensures text { IfErr result SaysUsage }
{
    if names.is_empty() {
        drop(names);
        return Err(usage(alloc, NO_DUMP));
    }
    let Some(text) = given else {
        return Ok(Job::Infer {
            made,
            given: None,
            dumps: names,
        });
    };
    match Name::from_text(alloc, text) {
        Ok(name) => Ok(Job::Infer {
            made,
            given: Some(name),
            dumps: names,
        }),
        Err(_) => {
            drop(names);
            Err(WordsRefused::NoMemory)
        }
    }
}

// The sample of a number, beside which no file is named; or why none.
fn sampled(sample: Option<&str>, names: &[Name]) -> Result<Job, &'static str>
    ensures ok { IfOk result (λ job. sampling (option_map (λ s. s.now) sample.entry) names.now ≡ Some job) }
    ensures err { OnErr result (sampling (option_map (λ s. s.now) sample.entry) names.now ≡ None) }
{
    match (sample, names) {
        (Some(text), []) => match number_in(text, 0, u64::MAX) {
            Some(seed) => Ok(Job::Sample(seed)),
            None => Err("--sample takes a number from 0 to 18446744073709551615\n"),
        },
        _ => Err("--sample takes no dump\n"),
    }
}

// The migration of a result, whose name is the only one and is taken out; or why none.
fn migrated(names: &mut List<Name>) -> Result<Job, &'static str>
    ensures ok { IfOk result (λ job. migrating names.old ≡ Some job) }
    ensures err { OnErr result (migrating names.old ≡ None) }
{
    match (names.pop(), names.is_empty()) {
        (Some(result), true) => Ok(Job::Migrate(result)),
        (Some(_), false) => Err("--migrate takes one result\n"),
        (None, _) => Err("no result is named\n"),
    }
}

// A job, or the refusal that says why there is none.
fn job_or_usage(alloc: Global, job: Result<Job, &'static str>) -> Result<Job, WordsRefused>
    ensures ok { IfOk result (λ it. job.entry ≡ Ok it) }
    ensures err { IfErr result (λ e. IsErr job.entry) }
    ensures text { IfErr result SaysUsage }
{
    match job {
        Ok(job) => Ok(job),
        Err(why) => Err(usage(alloc, why)),
    }
}

// The same with the names, which are let go.
fn sampling(alloc: Global, sample: Option<&str>, names: List<Name>) -> Result<Job, WordsRefused>
    ensures ok { IfOk result (λ job. sampling (option_map (λ s. s.now) sample.entry) names ≡ Some job) }
    ensures err { IfErr result (λ e. IsUsage e → sampling (option_map (λ s. s.now) sample.entry) names ≡ None) }
    ensures text { IfErr result SaysUsage }
{
    let job = sampled(sample, names.as_slice());
    drop(names);
    job_or_usage(alloc, job)
}

fn migrating(alloc: Global, mut names: List<Name>) -> Result<Job, WordsRefused>
    ensures ok { IfOk result (λ job. migrating names ≡ Some job) }
    ensures err { IfErr result (λ e. IsUsage e → migrating names ≡ None) }
    ensures text { IfErr result SaysUsage }
{
    let job = migrated(&mut names);
    drop(names);
    job_or_usage(alloc, job)
}

// Dumps on top of an earlier result, or why none.
fn resuming(alloc: Global, earlier: Option<&str>, names: List<Name>) -> Result<Job, WordsRefused>
    ensures ok { IfOk result (λ job. resuming (option_map (λ s. s.now) earlier.entry) names ≡ Some job) }
    ensures err { IfErr result (λ e. IsUsage e → resuming (option_map (λ s. s.now) earlier.entry) names ≡ None) }
    ensures text { IfErr result SaysUsage }
{
    let Some(text) = earlier else {
        drop(names);
        return Err(usage(alloc, NO_DUMP));
    };
    if names.is_empty() {
        drop(names);
        return Err(usage(alloc, NO_DUMP));
    }
    match Name::from_text(alloc, text) {
        Ok(earlier) => Ok(Job::Resume {
            earlier,
            dumps: names,
        }),
        Err(_) => {
            drop(names);
            Err(WordsRefused::NoMemory)
        }
    }
}

/// The job of a task over the files that are named, or why there is none.
pub(crate) fn job_of(
    alloc: Global,
    matches: &ArgMatches,
    task: Task,
    names: List<Name>,
) -> Result<Job, WordsRefused>
    ensures ok { IfOk result (λ job. job_of (rows_of (found_of matches.now)) task names ≡ Some job) }
    ensures err { IfErr result (λ e. IsUsage e → job_of (rows_of (found_of matches.now)) task names ≡ None) }
    ensures text { IfErr result SaysUsage }
{
    match task {
        Task::Count(counted) => counting(alloc, counted, names),
        Task::Infer(made) => inferring(alloc, made, first(matches, "given"), names),
        Task::Sample => sampling(alloc, first(matches, "sample"), names),
        Task::Migrate => migrating(alloc, names),
        Task::Resume => resuming(alloc, first(matches, "resume"), names),
    }
}
