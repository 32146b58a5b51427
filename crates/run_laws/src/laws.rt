//! The laws of the runs. Each is the contract of a function.

ghost use Rattle.tor_output.specs.Accepting.{FaithfulLaw, TableLaw};
ghost use Rattle.tor_output.specs.Grading.{GradingLaw, ResultEndsLaw};
ghost use Rattle.tor_output.specs.Seen.{OneOutcomeLaw};
ghost use Rattle.tor_output.specs.SeenLaw.{DumpsLaw, SeenLaw, DumpsReadableLaw, ReadableLaw};
ghost use Rattle.run_laws.specs.AcceptedGrading.{AcceptedGradingLaw};
ghost use Rattle.run_laws.specs.Agreement.{AgreementLaw, AnyOrderAgreementLaw, MigrateLaw, OneSummaryLaw};
ghost use Rattle.run_laws.specs.AnyOrder.{AnyDumpOrderLaw};
ghost use Rattle.run_laws.specs.AskRuns.{AskRunLaw};
ghost use Rattle.run_laws.specs.Growing.{ResumedStaysLaw, AddedStaysLaw, SomeFaithfulLaw};
ghost use Rattle.run_laws.specs.ResumeLaws.{OfDumpsLaw, ResumeLaw, InPartsLaw, ResumedAcceptanceLaw};
ghost use Rattle.run_laws.specs.SelfGrading.{SelfGradingLaw};
ghost use Rattle.run_laws.specs.ShortLaws.{ShortLaw, ShortLimitLaw};
ghost use Rattle.run_laws.specs.TopRuns.{TopLaw, TopOnEarlierLaw, OneKnowledgeLaw};

use dump_read::dump_law;
use rel_infer::self_acceptance_law;
use result_laws::{any_order_law, forced_stays_law, given_ask_law, some_result_law};
use result_text::one_value;
use top_laws::{top_result_law, top_resumed_law};
use tor_words::bounds_law;

/// Words and files give one outcome at most: what is known and what all dumps gave, a result, or the first end of these.
pub fn one_outcome_law()
    ensures { OneOutcomeLaw }
{
    one_value();
}

/// What follows from the definitions is accepted: what dumps give is as a table of paths has it, what a file of known relationships says
/// names two ASes each time and no two of them twice, and each result that is faithful to such paths and such givens meets the rules 1 to
/// 10 of a checker, and rule 11 over them, is valid, may have its peerings read either way, and leaves none out.
pub fn faithful_law()
    ensures table { TableLaw }
    ensures result { FaithfulLaw }
{
    bounds_law();
    self_acceptance_law();
}

/// What `torcheck` says of a result that `tor` has written, with known relationships or without: yes and nothing else, alone and beside the
/// same dumps, at whatever time and under whatever names, and whatever limit on paths they were read under. And each that isn't too long
/// it can judge, and `tor --resume` can take up. With `--any-order` so it is in whatever order the dumps stand, and the paths were taken.
pub fn agreement_law()
    ensures as_seen { AgreementLaw }
    ensures in_any_order { AnyOrderAgreementLaw }
{
    one_value();
    bounds_law();
    faithful_law();
}

/// A text of version 2 stays as it is under `tor --migrate`. And what `torcheck` comes to is the same with what `tor --migrate` writes in
/// the place of a result, alone and beside dumps that stay.
pub fn migrate_law()
    ensures { MigrateLaw }
{
    one_value();
}

/// What `tor` sums up is determined: all results that are faithful to what dumps or a sample gave have the same summary.
pub fn one_summary_law()
    ensures { OneSummaryLaw }
{}

/// What a run has seen where it sees all its dumps: each of them is there and is read to its end; the paths are the distinct ones to which
/// the routes of all of them are cleaned, in order of first appearance, each with how often it came, and for each cause it is counted how
/// many routes are set aside for it; and what each dump holds is counted, and so what all of them hold together. Each number stops at
/// 2^64 - 1. Of a run over a sample the sample is the one dump.
pub fn seen_law()
    ensures dumps { DumpsLaw }
    ensures runs { SeenLaw }
{}

/// When a run sees all its dumps: exactly where each of them is there and is read to its end, and the distinct cleaned paths of all of them
/// are at most as many as the settings allow and have at most 2^26 numbers in sum.
pub fn readable_law()
    ensures dumps { DumpsReadableLaw }
    ensures runs { ReadableLaw }
{}

/// What a grading by the labels that were found for the same paths says: of a result that is faithful to paths as a table has them, exactly
/// the kept ones are free under the lines of its edges, and none is unknown. A path is kept exactly if some orientation that agrees with
/// what is known serves it together with those kept before it. And these edges are as lines of known relationships have to be: the lower
/// AS stands first, and no two are the same.
pub fn grading_law()
    ensures free { GradingLaw }
    ensures ends { ResultEndsLaw }
{}

/// What `torgrade` says of paths by the relationships that `tor` found for them: where its file of known relationships is a text under
/// which exactly the kept paths of the dumps are free, as each is that `tor` writes, a grading of the same dumps, later on and under
/// whatever names, says of exactly the kept ones that they are free, and of none that it is unknown. Both read the dumps with sets cut,
/// under whatever limit on paths.
pub fn self_grading_law()
    ensures { SelfGradingLaw }
{
    bounds_law();
}

/// What resuming gives: where the earlier result is of some dumps, as each is that a run makes of dumps, the one that is written has the
/// paths, times and counts of these and then the new ones, and is the same in all but its evidence as that of one run over all of them,
/// with the same sets, ratio and givens. Resuming in two runs gives what resuming in one gives. What is written is accepted as every result
/// is, so that it can be taken up again, and alone and beside all these dumps it is judged yes and nothing else. Dumps are meant by their
/// octets, so that those of the earlier result needn't be there, and no two runs need to find a dump under the same name.
pub fn resume_law()
    ensures begun { OfDumpsLaw }
    ensures resumed { ResumeLaw }
    ensures in_parts { InPartsLaw }
    ensures accepted { ResumedAcceptanceLaw }
{
    one_value();
    bounds_law();
    self_acceptance_law();
}

/// What a result has decided stays so, whatever dumps are added: its kept paths stay kept, its lost ones lost, and its forced edges forced,
/// with their labels. So it is where a run takes it up, and of each result of its dumps and then of others, with its sets and its givens.
/// Of the dumps only their octets count.
pub fn growing_law()
    ensures resumed { ResumedStaysLaw }
    ensures added { AddedStaysLaw }
{
    bounds_law();
    self_acceptance_law();
    forced_stays_law();
}

/// There is always a result: some is faithful to what is known and to what dumps or a sample gave.
pub fn some_faithful_law()
    ensures { SomeFaithfulLaw }
{
    faithful_law();
    some_result_law();
}

/// Where no path of a result of dumps is lost, their order doesn't matter: none is lost of the same dumps in another order, with the same
/// sets and givens, and the edges have the same marks, and the forced ones the same labels.
pub fn any_dump_order_law()
    ensures { AnyDumpOrderLaw }
{
    dump_law();
    any_order_law();
}

/// What `--top` is for: each edge with exactly one end among the networks that buy from nobody, which no line of the file names, is forced and
/// has that end as its provider; none of them has another network as its provider, and no path with another between two of them is kept. On
/// top of an earlier result so it is for what only the further paths have, and for all where that was made with the same networks. Then as
/// much is known as in one run, unless the file says that a network of the top and another are peers.
pub fn top_law()
    ensures of_dumps { TopLaw }
    ensures on_earlier { TopOnEarlierLaw }
    ensures one_knowledge { OneKnowledgeLaw }
{
    bounds_law();
    faithful_law();
    top_result_law();
    top_resumed_law();
}

/// What `--ask` is for: where a later run of the same options, over the same dumps, knows of an edge that `--ask` has a line of which of the
/// two is the provider, by a line behind those of the file of known relationships or in the place of one by which the two are peers, its
/// result keeps the same paths, and as many edges more are forced as the line says of this provider: those open ones that it forces.
pub fn ask_run_law()
    ensures { AskRunLaw }
{
    bounds_law();
    faithful_law();
    given_ask_law();
}

/// What `--order short` is for: where two runs with it have dumps that give the same routes, in whatever order these come and however they are
/// cut into records and dumps, they have the same paths, counts and results in all but the evidence. And where one meets the limit of paths
/// or of numbers, the other meets one of the two.
pub fn short_law()
    ensures one_answer { ShortLaw }
    ensures limits { ShortLimitLaw }
{}

/// Every accepted result grades itself: of each result that meets all rules, whoever made it, exactly the kept paths are free under the
/// lines of its edges, and none is unknown.
pub fn accepted_grading_law()
    ensures { AcceptedGradingLaw }
{}
