//! The command line of `torrank`.
ghost use Rattle.std.specs.Prelude.{◌≡◌, IfOk};
ghost use Rattle.clap.specs.Words.{app_of};
ghost use Rattle.tor_words.specs.TorrankCommand.{torrank_command};

use crate::entries::{Entry, command_of};
use clap::Command;
use std::alloc::{AllocError, Global};

/// What help says of an option.
const CONES_HELP: &str =
    "Write the customer cone of each AS, and no ranks: its number, and then all members, as in CAIDA's files of cones";

/// The options and the file.
static TORRANK: [Entry; 3] = [
    Entry::Flag("cones", CONES_HELP),
    Entry::Flag(
        "cycles",
        "Write only the cycles: ASes each of which is a direct or indirect provider of each other one, and the transits inside",
    ),
    Entry::Needed(
        "rel",
        "Known relationships: lines provider|customer|-1 and peer|peer|0, as in CAIDA's files of serial-1",
    ),
];

/// The command line of `torrank`.
#[tactic(auto, unfolding(crate::specs::TorrankCommand::torrank_command))]
pub(crate) fn rank_command<'a>(alloc: Global) -> Result<Command<'a>, AllocError>
    ensures { IfOk result (λ c. app_of c ≡ torrank_command) }
{
    command_of(alloc, "torrank", &TORRANK)
}
