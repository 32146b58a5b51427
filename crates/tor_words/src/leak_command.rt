//! The command line of `torleak`.
ghost use Rattle.std.specs.Prelude.{◌≡◌, IfOk};
ghost use Rattle.clap.specs.Words.{app_of};
ghost use Rattle.tor_words.specs.TorleakCommand.{torleak_command};

use crate::entries::{Entry, command_of};
use clap::Command;
use std::alloc::{AllocError, Global};

/// The result and the dumps.
static TORLEAK: [Entry; 2] = [
    Entry::Needed(
        "result",
        "The result behind which leaks are looked for; it has to meet the rules 0 to 10",
    ),
    Entry::Rest(
        "dump",
        "Uncompressed MRT table dumps, read in this order with the result's sets; the exit status is 0 also where leaks are found",
    ),
];

/// The command line of `torleak`.
#[tactic(auto, unfolding(crate::specs::TorleakCommand::torleak_command))]
pub(crate) fn leak_command<'a>(alloc: Global) -> Result<Command<'a>, AllocError>
    ensures { IfOk result (λ c. app_of c ≡ torleak_command) }
{
    command_of(alloc, "torleak", &TORLEAK)
}
