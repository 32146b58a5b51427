//! What the settings ask for, as a text that can be written, or why there is none.
ghost use Rattle.std.specs.Prelude.{◌≡◌, ◌≤◌, IfOk, IfErr, IfSome, IsErrAnd, OnOk, ⊤};
ghost use Rattle.std.specs.Io.KnownBytes.{IsAtEnd};
ghost use Rattle.tor_arena.specs.Limits.{max_paths, max_ratio};
ghost use Rattle.tor_words.specs.Given.{HasDumps};
ghost use Rattle.tor_output.specs.Sampling.{BySample, known_in, sample_of};
ghost use Rattle.tor_output.specs.Seen.{Outcome, ComesOfSome};
ghost use Rattle.tor_output.specs.Output.{IsOutput, IsOutputOf};
ghost use Rattle.tor_output.specs.Written.{written};
ghost use Rattle.run_base.specs.Frames.{ReadsShelf};
ghost use Rattle.run_base.specs.Opening.{AllRead, OpensInOrder};
ghost use Rattle.tor_output.specs.Opening.{UnwrittenEnds, named_in};
ghost use Rattle.tor_output.specs.Reach.{IsUnwrittenInReach};
ghost use Rattle.tor_output.specs.Refusals.{IsUnwrittenIn, IsFailedRead};

use crate::counting::counted_output;
use crate::inferring::inferred_output;
use crate::migrating::migrated_output;
use crate::output::Output;
use crate::resuming::resumed_output;
use crate::sampling::sampled_output;
use crate::unwritten::Unwritten;
use std::alloc::Global;
use tor_arena::Keys;
use tor_io::Shelf;
use tor_words::{Job, Settings};

/// What the settings ask for, worked out as a text that is not written yet. All memory is taken here. Err: why there is none. The file that
/// is read before any dump, or a dump, isn't there, or a read of it failed; it is malformed or past a limit; the result that was to be
/// taken up breaks a rule; or memory ran out.
pub fn output_for<H: Shelf>(
    alloc: Global,
    keys: Keys,
    settings: &Settings,
    shelf: &mut H,
) -> Result<Output, Unwritten>
    requires named { HasDumps settings.now.job }
    requires some { 1 ≤ settings.now.max_paths }
    requires most { settings.now.max_paths ≤ max_paths }
    requires ratio { settings.now.ratio ≤ max_ratio }
    ensures output { IfOk result (λ output. IfSome (known_in settings.now (H.files shelf.old)) (λ files.
        IsOutputOf settings.now files (written output))) }
    ensures of_some { IfOk result (λ output. (outcome : Outcome) × ComesOfSome settings.now outcome ×
        IsOutput settings.now outcome (written output)) }
    ensures unwritten { IfErr result (IsUnwrittenIn settings.now (known_in settings.now (H.files shelf.old)) (H.steady shelf.old)) }
    ensures read_out { OnOk result (BySample (sample_of settings.now.job) ⊤ (IsAtEnd (H.left shelf.new))) }
    ensures sample { BySample (sample_of settings.now.job) (shelf.new ≡ shelf.old) ⊤ }
    ensures no_fault { IfErr result (λ u. BySample (sample_of settings.now.job) (IsFailedRead u → ⊥) ⊤) }
    ensures reach { IfErr result (IsUnwrittenInReach settings.now (H.files shelf.old) (H.left shelf.new)) }
    ensures opens { OnOk result (OpensInOrder (named_in settings.now) (λ end. end ≡ AllRead) (H.opens shelf.old) (H.opens shelf.new)) }
    ensures opens_stop { IfErr result (λ u.
        OpensInOrder (named_in settings.now) (UnwrittenEnds u) (H.opens shelf.old) (H.opens shelf.new)) }

    ensures reads_shelf { ReadsShelf H.Shelf (IsErrAnd result IsFailedRead) shelf.old shelf.new }
{
    match &settings.job {
        Job::Count(counted, dumps) => {
            counted_output(alloc, keys, settings, *counted, dumps, shelf)
        }
        Job::Infer { made, given, dumps } => {
            inferred_output(alloc, keys, settings, *made, given, dumps, shelf)
        }
        Job::Sample(seed) => match sampled_output(alloc, keys, settings, *seed) {
            Ok(output) => Ok(output),
            Err(refusal) => Err(Unwritten::Refused(refusal)),
        },
        Job::Migrate(name) => migrated_output(alloc, settings, name, shelf),
        Job::Resume { earlier, dumps } => {
            resumed_output(alloc, keys, settings, earlier, dumps, shelf)
        }
    }
}
