//! The command line of `torview`.
ghost use Rattle.std.specs.Prelude.{◌≡◌, IfOk};
ghost use Rattle.clap.specs.Words.{app_of};
ghost use Rattle.tor_words.specs.TorviewCommand.{torview_command};

use crate::entries::{Entry, command_of};
use clap::Command;
use std::alloc::{AllocError, Global};

/// What help says of links.
const LINK_HELP: &str =
    "Have the box of each AS lead there: an address of the web, in which the AS's number takes the place of each {}";

/// The options, the file and the AS.
static TORVIEW: [Entry; 5] = [
    Entry::Number(
        "most",
        1,
        2000,
        "Draw at most this many providers, this many peers and this many customers, 1 to 2000 [default: 60, and 11 from --depth 2 on]",
    ),
    Entry::Number(
        "depth",
        1,
        8,
        "Draw this many generations of providers, 1 to 8: its own, their providers and so on [default: 1]",
    ),
    Entry::Choice("link", LINK_HELP),
    Entry::Needed("result", "A result that meets all rules"),
    Entry::Needed(
        "as",
        "The AS to draw, with its providers above, its peers below and its customers below those",
    ),
];

/// The command line of `torview`.
#[tactic(auto, unfolding(crate::specs::TorviewCommand::torview_command))]
pub(crate) fn view_command<'a>(alloc: Global) -> Result<Command<'a>, AllocError>
    ensures { IfOk result (λ c. app_of c ≡ torview_command) }
{
    command_of(alloc, "torview", &TORVIEW)
}
