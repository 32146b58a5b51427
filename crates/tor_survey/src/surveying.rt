//! The survey of what dumps gave.
//!
//! A sum stops at 2^64 - 1 wherever it is made, so what several files hold is counted file by file.
ghost use Rattle.std.specs.Prelude.{◌≡◌, IfOk, sum_by};
ghost use Rattle.record_counts.specs.Counting.{capped};
ghost use Rattle.tor_survey.specs.Surveys.{survey_of};

use crate::counting::figures;
use crate::survey::Survey;
use dump_read::{FileCounts, Taken};
use record_counts::TypeCount;
use std::alloc::Global;
use tor_arena::{Keys, NoMemory};

/// How many records there are, of all types, up to 2^64 - 1.
fn all_records(types: &[TypeCount]) -> u64
    ensures { result ≡ capped (sum_by (λ count. count.records) types.now) }
{
    let mut records: u64 = 0;
    for count in types {
        records = records.saturating_add(count.records);
    }
    records
}

/// The survey of what dumps gave, each of which was read to its end. The keys say how numbers are found, and change nothing but the time.
/// The only error is that memory ran out.
pub fn survey_of(alloc: Global, keys: Keys, taken: Taken) -> Result<Survey, NoMemory>
    ensures { IfOk result (λ survey. survey ≡ survey_of taken) }
{
    let Taken {
        table,
        counts,
        files,
    } = taken;
    let all = match FileCounts::sum_of(alloc, files.as_slice()) {
        Ok(all) => all,
        Err(NoMemory) => {
            drop(table);
            drop(files);
            return Err(NoMemory);
        }
    };
    let dumps = files.len() as u64;
    drop(files);
    let found = figures(alloc, keys, table.rows());
    drop(table);
    let figures = match found {
        Ok(figures) => figures,
        Err(NoMemory) => {
            drop(all);
            return Err(NoMemory);
        }
    };
    let types = match all.records.to_list(alloc) {
        Ok(types) => types,
        Err(NoMemory) => {
            drop(all);
            return Err(NoMemory);
        }
    };
    let records = all_records(types.as_slice());
    let survey = Survey {
        types,
        peers: all.peers,
        routes: all.routes,
        asides: counts,
        figures,
        dumps,
        records,
    };
    drop(all);
    Ok(survey)
}
