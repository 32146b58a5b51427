//! How many records of each type and subtype there are.
ghost use Rattle.std.specs.Prelude.{◌≡◌, [], OnOk, OnErr, IfOk};
ghost use Rattle.std.specs.List.Sorted.{IsStrictlySortedBy};
ghost use Rattle.std.specs.Map.{keys_of};
ghost use Rattle.record_counts.specs.Counting.{with_more, counts_together, type_cmp, type_counts};
ghost use Rattle.record_counts.specs.Runs.{with_run};

use crate::type_count::{RecordType, TypeCount};
use std::alloc::Global;
use std::collections::BTreeMap;
use std::marker::Model;
use tor_arena::{List, NoMemory};

/// Records of one type that were counted one after the other.
#[derive(Clone, Copy)]
struct Run {
    record_type: RecordType,
    records: u64,
}

/// How many records of each type and subtype there are: the types that occur, in ascending order, each with its count, which stops at
/// 2^64 - 1.
///
/// Records of one type mostly stand one behind the other, so those that were counted last are put into the map when a record of another
/// type comes.
#[derive(Drop)]
pub struct RecordCounts {
    counts: BTreeMap<RecordType, u64>,
    last: Option<Run>,
}

impl Model for RecordCounts {
    ghost use Rattle.record_counts.specs.Counting.{Counts};
    ghost use Rattle.record_counts.specs.Runs.{with_run};

    ghost Value = { Counts };

    ghost view = { λ counts. with_run counts.last counts.counts.entries };
}

/// Counts so many records of a type more in a map. For want of memory nothing changes.
fn add_to(
    counts: &mut BTreeMap<RecordType, u64>,
    record_type: RecordType,
    records: u64,
) -> Result<(), NoMemory>
    ensures ok { OnOk result (counts.new.entries ≡ with_more record_type records counts.old.entries) }
    ensures err { OnErr result (counts.new.entries ≡ counts.old.entries) }
{
    if let Some(count) = counts.get_mut(&record_type) {
        *count = count.saturating_add(records);
        return Ok(());
    }
    counts.insert(record_type, records)?;
    Ok(())
}

/// Counts the records of a run more in a map. For want of memory nothing changes.
fn put_run(counts: &mut BTreeMap<RecordType, u64>, run: Option<Run>) -> Result<(), NoMemory>
    ensures ok { OnOk result (counts.new.entries ≡ with_run run counts.old.entries) }
    ensures err { OnErr result (counts.new.entries ≡ counts.old.entries) }
{
    match run {
        Some(run) => add_to(counts, run.record_type, run.records),
        None => Ok(()),
    }
}

impl RecordCounts {
    /// No records. It takes no memory.
    pub fn new(alloc: Global) -> RecordCounts
        ensures { result ≡ [] }
    {
        RecordCounts {
            counts: BTreeMap::new(alloc),
            last: None,
        }
    }

    /// Counts so many records of a type more. For want of memory nothing changes.
    pub fn add(&mut self, record_type: RecordType, records: u64) -> Result<(), NoMemory>
        ensures ok { OnOk result (self.new ≡ with_more record_type records self.old) }
        ensures err { OnErr result (self.new ≡ self.old) }
    {
        if let Some(run) = &mut self.last
            && run.record_type == record_type
        {
            run.records = run.records.saturating_add(records);
            return Ok(());
        }
        put_run(&mut self.counts, self.last)?;
        self.last = Some(Run {
            record_type,
            records,
        });
        Ok(())
    }

    // All counts in one map.
    fn all(&self) -> Result<BTreeMap<RecordType, u64>, NoMemory>
        ensures { IfOk result (λ all. all.entries ≡ self.now) }
    {
        let mut all = self.counts.clone()?;
        put_run(&mut all, self.last)?;
        Ok(all)
    }

    /// Counts the records of the others besides. For want of memory some of them are counted.
    #[tactic(auto, unfolding(crate::specs::Counting::counts_together))]
    pub fn add_all(&mut self, others: &RecordCounts) -> Result<(), NoMemory>
        ensures { OnOk result (self.new ≡ counts_together self.old others.now) }
    {
        let others = others.all()?;
        for (record_type, records) in others.iter() {
            self.add(*record_type, *records)?;
        }
        Ok(())
    }

    /// The types that occur, in ascending order, each with its count.
    pub fn to_list(&self, alloc: Global) -> Result<List<TypeCount>, NoMemory>
        ensures list { IfOk result (λ list. list ≡ type_counts self.now) }
        ensures ascend { OnOk result (IsStrictlySortedBy type_cmp (keys_of self.now)) }
    {
        let all = self.all()?;
        let mut list = List::new(alloc);
        for (record_type, records) in all.iter() {
            list.push(TypeCount {
                kind: record_type.kind,
                subtype: record_type.subtype,
                records: *records,
            })?;
        }
        Ok(list)
    }
}
