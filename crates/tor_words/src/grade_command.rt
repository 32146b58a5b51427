//! The command line of `torgrade`.
ghost use Rattle.std.specs.Prelude.{◌≡◌, IfOk};
ghost use Rattle.clap.specs.Words.{app_of};
ghost use Rattle.tor_words.specs.TorgradeCommand.{torgrade_command};

use crate::entries::{Entry, command_of};
use clap::Command;
use std::alloc::{AllocError, Global};

/// The option, the file and the dumps.
static TORGRADE: [Entry; 3] = [
    Entry::Number(
        "cone",
        0,
        4_294_967_295,
        "After the grades, write the customer cone of this AS, 0 to 4294967295: itself, its customers, their customers and so on",
    ),
    Entry::Needed(
        "rel",
        "Known relationships: lines provider|customer|-1 and peer|peer|0, as in CAIDA's files of serial-1",
    ),
    Entry::Rest(
        "dump",
        "Uncompressed MRT table dumps whose paths are graded, read in this order; the exit status is 0 also where valleys are found",
    ),
];

/// The command line of `torgrade`.
#[tactic(auto, unfolding(crate::specs::TorgradeCommand::torgrade_command))]
pub(crate) fn grade_command<'a>(alloc: Global) -> Result<Command<'a>, AllocError>
    ensures { IfOk result (λ c. app_of c ≡ torgrade_command) }
{
    command_of(alloc, "torgrade", &TORGRADE)
}
