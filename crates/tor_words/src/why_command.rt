//! The command line of `torwhy`.
ghost use Rattle.std.specs.Prelude.{◌≡◌, IfOk};
ghost use Rattle.clap.specs.Words.{app_of};
ghost use Rattle.tor_words.specs.TorwhyCommand.{torwhy_command};

use crate::entries::{Entry, command_of};
use clap::Command;
use std::alloc::{AllocError, Global};

/// What help says of the option.
const PATH_HELP: &str =
    "Tell of the path with this number, from 1: how the steps of a kept path go, or the walk that refutes a lost one";

/// The option, the file and the ASes.
static TORWHY: [Entry; 3] = [
    Entry::Number("path", 0, 4_294_967_295, PATH_HELP),
    Entry::Needed("result", "A result that meets all rules"),
    Entry::Rest(
        "as",
        "Two neighbouring ASes, in either order: why the label of their edge is forced, or how it could be another; or one AS: its neighbours",
    ),
];

/// The command line of `torwhy`.
#[tactic(auto, unfolding(crate::specs::TorwhyCommand::torwhy_command))]
pub(crate) fn why_command<'a>(alloc: Global) -> Result<Command<'a>, AllocError>
    ensures { IfOk result (λ c. app_of c ≡ torwhy_command) }
{
    command_of(alloc, "torwhy", &TORWHY)
}
