//! What the rules 0 to 10 say of a result file.
ghost use Rattle.std.specs.Prelude.{◌≡◌, ◌++◌, ◌∷◌, [], Err, IfOk, IfErr, OnOk, IsErrOf, IsErrAnd};
ghost use Rattle.std.specs.Io.KnownBytes.{IsAtEnd};
ghost use Rattle.result_rules.specs.File.{HasFewLines};
ghost use Rattle.result_rules.specs.Judging.{Judges};
ghost use Rattle.run_base.specs.Frames.{ReadsShelf};
ghost use Rattle.run_base.specs.WholeFile.{LeavesRest, LeavesOnly};
ghost use Rattle.run_base.specs.declared.whole_file.Unread.TheVariants.{Failed as failed};
ghost use Rattle.result_file.specs.Ruled.{IsRulingOf, IsRulingIn, IsOfFewLines, IsUnruled};
ghost use Rattle.result_file.specs.Limits.{max_result};

use crate::reading::{NoResult, read_result};
use rel_checker::check_file;
use result_rules::Verdict;
use result_text::ResultFile;
use run_base::Unread;
use std::alloc::Global;
use tor_arena::{Keys, NoMemory};
use tor_io::Shelf;

/// The most octets of a result file.
pub const MAX_RESULT: usize = 1 << 31;

/// What the rules 0 to 10 say of a text.
#[derive(Drop)]
pub enum Ruling {
    /// The least that is broken, and its first line.
    Broken { line: u64, rule: u8 },
    /// All are met, by this result.
    Met(ResultFile),
}

/// What this verdict says of a result.
fn ruling_by(verdict: Verdict, file: ResultFile) -> Ruling
    requires lines { HasFewLines file }
    requires judged { Judges file verdict }
    ensures rules { IsRulingOf file result }
    ensures few { IsOfFewLines result }
{
    match verdict {
        Verdict::Yes => Ruling::Met(file),
        Verdict::No { line, rule } => {
            drop(file);
            Ruling::Broken { line, rule }
        }
    }
}

/// What the rules 1 to 10 say of a result.
fn ruling_of(alloc: Global, keys: Keys, file: ResultFile) -> Result<Ruling, NoMemory>
    requires lines { HasFewLines file }
    ensures rules { IfOk result (IsRulingOf file) }
    ensures few { IfOk result IsOfFewLines }
{
    match check_file(alloc, keys, &file) {
        Ok(verdict) => Ok(ruling_by(verdict, file)),
        Err(NoMemory) => {
            drop(file);
            Err(NoMemory)
        }
    }
}

/// What the rules 0 to 10 say of the result file of this name. Failed: the open or a read failed. TooLong: it has more than 2^31 octets,
/// of which one beyond these was read. NoMemory: memory ran out.
pub fn ruling_of_file<H: Shelf>(
    alloc: Global,
    keys: Keys,
    shelf: &mut H,
    name: &str,
) -> Result<Ruling, Unread>
    ensures ruling { IfOk result (IsRulingIn (H.files shelf.old) name.now) }
    ensures few { IfOk result IsOfFewLines }
    ensures unruled { IfErr result (IsUnruled (H.files shelf.old) (H.steady shelf.old) name.now) }
    ensures read_out { OnOk result (IsAtEnd (H.left shelf.new)) }
    ensures rest { IsErrOf result Unread.TooLong → LeavesRest max_result name.now (H.files shelf.old) (H.left shelf.new) }
    ensures unread { LeavesOnly max_result name.now (H.files shelf.old) (H.left shelf.new) }
    ensures opens { H.opens shelf.new ≡ H.opens shelf.old ++ name.now ∷ [] }

    ensures reads_shelf { ReadsShelf H.Shelf (IsErrAnd result (λ why. why ≡ failed)) shelf.old shelf.new }
{
    match read_result(alloc, shelf, name, MAX_RESULT) {
        Ok(file) => match ruling_of(alloc, keys, file) {
            Ok(ruling) => Ok(ruling),
            Err(NoMemory) => Err(Unread::NoMemory),
        },
        Err(NoResult::BadLine(line)) => Ok(Ruling::Broken { line, rule: 0 }),
        Err(NoResult::Unread(why)) => Err(why),
    }
}
