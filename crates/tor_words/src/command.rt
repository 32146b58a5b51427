//! The commands `tor` and `torcheck`, as clap takes them.
ghost use Rattle.std.specs.Prelude.{◌≡◌, IfOk};
ghost use Rattle.clap.specs.Words.{app_of};
ghost use Rattle.tor_words.specs.TorCommand.{tor_command};
ghost use Rattle.tor_words.specs.TorcheckCommand.{torcheck_command};

use crate::entries::{Entry, command_of};
use clap::Command;
use std::alloc::{AllocError, Global};
use tor_arena::{MAX_PATHS, MAX_RATIO};

/// What help says of some of the options.
const GIVEN_HELP: &str =
    "Infer under known relationships, lines of serial-1: provider|customer|-1 is binding, peer|peer|0 is only checked";

const RESUME_HELP: &str =
    "Add the dumps to this result, which must meet all rules: its kept paths stay kept and its lost paths lost; labels are new";

const ORDER_HELP: &str =
    "Take the distinct paths as seen, or short: shorter ones first, so that the records' order changes no label [default: seen]";

const TOP_HELP: &str =
    "Infer where these networks, AS numbers joined by commas, buy transit from nobody: each is over all its other neighbours";

const ASK_HELP: &str =
    "Write only how many open edges each open edge would settle, if it were known: first the best ones to ask about";

/// The options and the operands of `tor`.
static TOR: [Entry; 15] = [
    Entry::Flag(
        "list",
        "Write only the distinct AS paths, each with its number of routes",
    ),
    Entry::Flag(
        "survey",
        "Write only what the dumps hold: records, peers, routes, and which of them count",
    ),
    Entry::Flag(
        "ties",
        "Write only which open edges go together: whoever settles one settles all of its class",
    ),
    Entry::Flag("ask", ASK_HELP),
    Entry::Flag(
        "serial1",
        "Write only the labels, as lines provider|customer|-1 and peer|peer|0",
    ),
    Entry::Choice(
        "as-sets",
        "At an AS_SET of several ASes, cut ends the path before it, and skip sets the route aside [default: cut]",
    ),
    Entry::Number(
        "ratio",
        0,
        MAX_RATIO as u64,
        "Two ASes may peer if neither has more than this many times the other's neighbours, 0 (no peers) to 1000000 [default: 60]",
    ),
    Entry::Number(
        "max-paths",
        1,
        MAX_PATHS as u64,
        "Stop at more distinct paths than this, 1 to 8388608 [default: 8388608]",
    ),
    Entry::Number(
        "sample",
        0,
        u64::MAX,
        "Make a dump from this number, 0 to 18446744073709551615, and write only the summary of its result",
    ),
    Entry::Choice("given", GIVEN_HELP),
    Entry::Flag(
        "migrate",
        "Write the named result in version 2 of its text; no dump is read",
    ),
    Entry::Choice("resume", RESUME_HELP),
    Entry::Choice("order", ORDER_HELP),
    Entry::Choice("top", TOP_HELP),
    Entry::Rest(
        "dump",
        "Uncompressed MRT table dumps, read in this order; /dev/stdin can be named once",
    ),
];

/// The option and the operands of `torcheck`.
static TORCHECK: [Entry; 3] = [
    Entry::Flag(
        "any-order",
        "Let the result have the tables' paths in any order",
    ),
    Entry::Needed("result", "The result to judge"),
    Entry::Rest(
        "dump",
        "The tables, in order: the result's paths, times and counts must be exactly theirs",
    ),
];

/// The command line of `tor`.
#[tactic(auto, unfolding(crate::specs::TorCommand::tor_command))]
pub(crate) fn command<'a>(alloc: Global) -> Result<Command<'a>, AllocError>
    ensures { IfOk result (λ c. app_of c ≡ tor_command) }
{
    command_of(alloc, "tor", &TOR)
}

/// The command line of `torcheck`.
#[tactic(auto, unfolding(crate::specs::TorcheckCommand::torcheck_command))]
pub(crate) fn check_command<'a>(alloc: Global) -> Result<Command<'a>, AllocError>
    ensures { IfOk result (λ c. app_of c ≡ torcheck_command) }
{
    command_of(alloc, "torcheck", &TORCHECK)
}
