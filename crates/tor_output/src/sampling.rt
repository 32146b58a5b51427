//! The sample of a number, in place of dumps, and the summary of its result.
ghost use Rattle.std.specs.Prelude.{◌≡◌, ◌≢◌, ◌≤◌, ◌++◌, ◌∷◌, [], Ok, Err, Some, None, IfOk, IfErr, IfSome, OnOk, codes, ⊤};
ghost use Rattle.tor_arena.specs.Limits.{max_paths, max_ratio};
ghost use Rattle.dump_read.specs.declared.taking.Taken.{Taken as TakenIn};
ghost use Rattle.rel_infer.specs.SelfAcceptance.{AreTableRows};
ghost use Rattle.run_base.specs.Answers.{IsReadFault};
ghost use Rattle.tor_output.specs.Output.{IsSummedUp};
ghost use Rattle.tor_output.specs.Refusals.{IsStopAt};
ghost use Rattle.tor_output.specs.Sampling.{no_files};
ghost use Rattle.tor_output.specs.Seen.{seen_beside, seen_in_sample};
ghost use Rattle.tor_output.specs.Summary.{summary};
ghost use Rattle.tor_output.specs.Written.{written};
ghost use Rattle.tor_io.specs.FaultPlan.{IsSteady};
ghost use Rattle.tor_io.specs.MemShelf.{files_in};
ghost use Rattle.dump_read.specs.Seen.{end_named, of_file};
ghost use Rattle.dump_read.specs.Wanted.{all_wanted};
ghost use Rattle.tor_sample.specs.Records.{sample};

use crate::output::{Output, faithful_result, has_table_rows, summary_line};
use dump_read::{DumpError, Taken, Wanted, read_dump};
use path_clean::Sets;
use result_text::ResultFile;
use run_base::{Refusal, Stopped, nothing_taken};
use std::alloc::Global;
use tor_arena::{Keys, List, NoMemory};
use tor_io::MemShelf;
use tor_sample::sample;
use tor_words::Settings;

// A shelf on which the sample of this number lies alone.
fn shelf_of(alloc: Global, seed: u64) -> Result<MemShelf, NoMemory>
    ensures held { IfOk result (λ shelf. files_in shelf (codes "sample") ≡ Some (sample seed)) }
    ensures steady { IfOk result (λ shelf. IsSteady shelf.plan) }
{
    let octets = sample(alloc, seed)?;
    let mut shelf = MemShelf::new(alloc);
    let put = shelf.put("sample", octets.as_slice());
    drop(octets);
    match put {
        Ok(()) => Ok(shelf),
        Err(NoMemory) => {
            drop(shelf);
            Err(NoMemory)
        }
    }
}

// Takes in the routes of the sample of this number, which is dump 1. It touches no shelf, and no read fails.
fn read_sample(alloc: Global, seed: u64, sets: Sets, taken: &mut Taken) -> Result<(), Stopped>
    ensures read { OnOk result (of_file (all_wanted sets) 1 taken.old (Some (sample seed)) ≡ Ok taken.new) }
    ensures stopped { IfErr result (λ e. IfSome (end_named 1 e.error) (λ end.
        of_file (all_wanted sets) 1 taken.old (Some (sample seed)) ≡ Err end)) }
    ensures first { IfErr result (λ e. e.dump ≡ 1) }
    ensures no_fault { IfErr result (λ e. e.error ≢ DumpError.ReadFault) }
{
    let Ok(mut shelf) = shelf_of(alloc, seed) else {
        return Err(Stopped {
            dump: 1,
            error: DumpError::NoMemory,
        });
    };
    let wanted = Wanted::all(sets);
    let read = read_dump(alloc, &mut shelf, "sample", 1, &wanted, taken);
    drop(shelf);
    match read {
        Ok(()) => Ok(()),
        Err(error) => Err(Stopped { dump: 1, error }),
    }
}

// The summary of a result, without a note.
fn summary_alone(alloc: Global, file: &ResultFile) -> Result<Output, NoMemory>
    ensures text { IfOk result (λ output. (written output).text ≡ summary file.now ++ 10 ∷ []) }
    ensures note { IfOk result (λ output. (written output).note ≡ []) }
{
    let text = summary_line(alloc, file)?;
    Ok(Output::Text(text, List::new(alloc)))
}

// The summary of the result of what the sample gave.
fn summed_up(
    alloc: Global,
    keys: Keys,
    settings: &Settings,
    taken: Taken,
) -> Result<Output, NoMemory>
    requires ratio { settings.now.ratio ≤ max_ratio }
    ensures { IfOk result (λ output. IsSummedUp settings.now None taken (written output)) }
{
    let file = faithful_result(alloc, keys, settings, None, taken)?;
    let output = summary_alone(alloc, &file);
    drop(file);
    output
}

/// The summary of the result of the sample of this number. It touches no shelf, and no read fails.
pub(crate) fn sampled_output(
    alloc: Global,
    keys: Keys,
    settings: &Settings,
    seed: u64,
) -> Result<Output, Refusal>
    requires some { 1 ≤ settings.now.max_paths }
    requires most { settings.now.max_paths ≤ max_paths }
    requires ratio { settings.now.ratio ≤ max_ratio }
    ensures output { IfOk result (λ output. (taken : TakenIn) × (seen_in_sample settings.now seed ≡ Ok taken) ×
        AreTableRows taken.table.rows × IsSummedUp settings.now None taken (written output)) }
    ensures refused { IfErr result (IsStopAt (seen_beside (Some seed) settings.now) [] (Some no_files) ⊤) }
    ensures no_fault { IfErr result (λ r. IsReadFault r → ⊥) }
{
    let mut taken = nothing_taken(alloc, keys, settings.max_paths);
    match read_sample(alloc, seed, settings.sets, &mut taken) {
        Ok(()) => {
            has_table_rows(&taken.table);
            match summed_up(alloc, keys, settings, taken) {
                Ok(output) => Ok(output),
                Err(NoMemory) => Err(Refusal::NoMemory),
            }
        }
        Err(stopped) => {
            drop(taken);
            Err(Refusal::Dumps(stopped))
        }
    }
}
