//! A result that is read line by line.
//!
//! The version of a draft is that of its givens: none, or a list that may be empty.
ghost use Rattle.std.specs.Prelude.{◌≡◌, ◌<◌};
ghost use Rattle.result_text.specs.declared.line.Line.TheVariants as line;
ghost use Rattle.result_text.specs.Reading.{line_of_kept, lost_from};
ghost use Rattle.result_text.specs.Text.{version_of};
ghost use Rattle.result_text.specs.Order.{cause_index, is_head, after_head, takes_given, takes_path, takes_edge, takes_why, takes_probe};
ghost use Rattle.result_text.specs.Order.{pass_head, step, Steps, empty_draft, finished};

use crate::error::LineError;
use crate::file::{EdgeLine, ResultFile, Totals};
use crate::line::{Version, version_of};
use crate::path_lines::PathLines;
use path_clean::{Asides, Cause, Sets};
use relationships::{Given, Probe, WalkRef, Walks};
use std::alloc::Global;
use tor_arena::List;

/// What may come next in a text.
#[derive(Clone, Copy)]
pub enum Section {
    /// So many of the ten first lines are read.
    Head(u8),
    /// A given line, if the text is of version 2, or a line of a later section.
    Givens,
    /// A path line, or a line of a later section.
    Paths,
    /// An edge line, or a line of a later section.
    Edges,
    /// A why line, or a line of a later section.
    Whys,
    /// An open line, or the last line.
    Probes,
    /// Nothing.
    End,
}

/// What is read of a result so far. Each line is added if it may come next; after an error the draft is of no use.
#[derive(Drop)]
pub struct Draft {
    pub section: Section,
    pub sets: Sets,
    pub ratio: u32,
    pub counts: [u64; 7],
    pub givens: Option<List<Given>>,
    pub paths: PathLines,
    pub edges: List<EdgeLine>,
    pub whys: Walks,
    pub probes: List<Probe>,
    pub totals: Totals,
}

// The place among the seven counts.
fn index_of(cause: Cause) -> u8
    ensures value { result ≡ cause_index cause }
    ensures below { result < 7 }
{
    match cause {
        Cause::NoPath => 0,
        Cause::BadSegments => 1,
        Cause::Confed => 2,
        Cause::Sets => 3,
        Cause::Reserved => 4,
        Cause::Loop => 5,
        Cause::Short => 6,
    }
}

impl Section {
    // Whether so many of the ten first lines are read.
    fn is_head(self, count: u8) -> bool
        ensures { result ≡ is_head count self }
    {
        match self {
            Section::Head(read) => read == count,
            Section::Givens
            | Section::Paths
            | Section::Edges
            | Section::Whys
            | Section::Probes
            | Section::End => false,
        }
    }

    // What may come next where so many of the first lines are read.
    fn after_head(count: u8) -> Section
        ensures { result ≡ after_head count }
    {
        if count < 10 {
            Section::Head(count)
        } else {
            Section::Givens
        }
    }

    // Whether a given line may come next, if the text is of version 2.
    fn takes_given(self) -> bool
        ensures { result ≡ takes_given self }
    {
        match self {
            Section::Givens => true,
            Section::Head(_)
            | Section::Paths
            | Section::Edges
            | Section::Whys
            | Section::Probes
            | Section::End => false,
        }
    }

    // Whether a path line may come next.
    fn takes_path(self) -> bool
        ensures { result ≡ takes_path self }
    {
        match self {
            Section::Givens | Section::Paths => true,
            Section::Head(_) | Section::Edges | Section::Whys | Section::Probes | Section::End =>
                false,
        }
    }

    // Whether an edge line may come next.
    fn takes_edge(self) -> bool
        ensures { result ≡ takes_edge self }
    {
        match self {
            Section::Givens | Section::Paths | Section::Edges => true,
            Section::Head(_) | Section::Whys | Section::Probes | Section::End => false,
        }
    }

    // Whether a why line may come next.
    fn takes_why(self) -> bool
        ensures { result ≡ takes_why self }
    {
        match self {
            Section::Givens | Section::Paths | Section::Edges | Section::Whys => true,
            Section::Head(_) | Section::Probes | Section::End => false,
        }
    }

    // Whether an open line may come next, or the last line.
    fn takes_probe(self) -> bool
        ensures { result ≡ takes_probe self }
    {
        match self {
            Section::Givens | Section::Paths | Section::Edges | Section::Whys | Section::Probes =>
                true,
            Section::Head(_) | Section::End => false,
        }
    }
}

impl Draft {
    /// Nothing is read. It takes no memory.
    pub fn new(alloc: Global) -> Draft
        ensures { result ≡ empty_draft }
    {
        Draft {
            section: Section::Head(0),
            sets: Sets::Cut,
            ratio: 0,
            counts: [0, 0, 0, 0, 0, 0, 0],
            givens: None,
            paths: PathLines::new(alloc),
            edges: List::new(alloc),
            whys: Walks::new(alloc),
            probes: List::new(alloc),
            totals: Totals {
                kept: 0,
                lost: 0,
                edges: 0,
                forced: 0,
                peers: 0,
            },
        }
    }

    // Passes over the line behind the `count` first ones.
    fn pass_head(&mut self, count: u8) -> Result<(), LineError>
        requires { count < 10 }
        ensures { Steps result self.new (pass_head count self.old self.old) }
    {
        if !self.section.is_head(count) {
            return Err(LineError::Bad);
        }
        self.section = Section::after_head(count + 1);
        Ok(())
    }

    /// The version of the text, which is 1 before the first line is read.
    pub fn version(&self) -> Version
        ensures { result ≡ version_of self.now.givens }
    {
        version_of(&self.givens)
    }

    /// Adds the first line.
    pub fn add_version(&mut self, alloc: Global, version: Version) -> Result<(), LineError>
        ensures { Steps result self.new (step self.old (line.Version version)) }
    {
        self.pass_head(0)?;
        self.givens = match version {
            Version::One => None,
            Version::Two => Some(List::new(alloc)),
        };
        Ok(())
    }

    /// Adds the line of the sets.
    pub fn add_sets(&mut self, sets: Sets) -> Result<(), LineError>
        ensures { Steps result self.new (step self.old (line.Sets sets)) }
    {
        self.pass_head(1)?;
        self.sets = sets;
        Ok(())
    }

    /// Adds the line of the ratio.
    pub fn add_ratio(&mut self, ratio: u32) -> Result<(), LineError>
        ensures { Steps result self.new (step self.old (line.Ratio ratio)) }
    {
        self.pass_head(2)?;
        self.ratio = ratio;
        Ok(())
    }

    /// Adds the line of a cause.
    pub fn add_aside(&mut self, cause: Cause, count: u64) -> Result<(), LineError>
        ensures { Steps result self.new (step self.old (line.Aside cause count)) }
    {
        let index = index_of(cause);
        self.pass_head(3 + index)?;
        self.counts[index as usize] = count;
        Ok(())
    }

    /// Adds a given line.
    pub fn add_given(&mut self, given: Given) -> Result<(), LineError>
        ensures { Steps result self.new (step self.old (line.Given given)) }
    {
        if !self.section.takes_given() {
            return Err(LineError::Bad);
        }
        match &mut self.givens {
            Some(givens) => givens.push(given)?,
            None => return Err(LineError::Bad),
        }
        Ok(())
    }

    /// Adds the line of a kept path.
    #[inline(always)]
    pub fn add_kept(&mut self, times: u64, path: &[u32]) -> Result<(), LineError>
        ensures { Steps result self.new (step self.old (line_of_kept (times, path.now))) }
    {
        if !self.section.takes_path() {
            return Err(LineError::Bad);
        }
        let Ok(()) = self.paths.push_kept(times, path) else {
            return Err(LineError::NoMemory);
        };
        self.section = Section::Paths;
        Ok(())
    }

    /// Adds the line of a path that is lost with the walk.
    #[inline(always)]
    pub fn add_lost(
        &mut self,
        times: u64,
        path: &[u32],
        walk: &WalkRef<'_>,
    ) -> Result<(), LineError>
        ensures { Steps result self.new (step self.old (lost_from (times, (path.now, walk.now)))) }
    {
        if !self.section.takes_path() {
            return Err(LineError::Bad);
        }
        let Ok(()) = self.paths.push_lost(times, path, walk) else {
            return Err(LineError::NoMemory);
        };
        self.section = Section::Paths;
        Ok(())
    }

    /// Adds an edge line.
    pub fn add_edge(&mut self, edge: EdgeLine) -> Result<(), LineError>
        ensures { Steps result self.new (step self.old (line.Edge edge)) }
    {
        if !self.section.takes_edge() {
            return Err(LineError::Bad);
        }
        let Ok(()) = self.edges.push(edge) else {
            return Err(LineError::NoMemory);
        };
        self.section = Section::Edges;
        Ok(())
    }

    /// Adds the why line of a walk.
    pub fn add_why(&mut self, walk: &WalkRef<'_>) -> Result<(), LineError>
        ensures { Steps result self.new (step self.old (line.Why walk.now)) }
    {
        if !self.section.takes_why() {
            return Err(LineError::Bad);
        }
        let Ok(()) = self.whys.push(walk.ases(), walk.links()) else {
            return Err(LineError::NoMemory);
        };
        self.section = Section::Whys;
        Ok(())
    }

    /// Adds an open line.
    pub fn add_probe(&mut self, probe: Probe) -> Result<(), LineError>
        ensures { Steps result self.new (step self.old (line.Probe probe)) }
    {
        if !self.section.takes_probe() {
            return Err(LineError::Bad);
        }
        let Ok(()) = self.probes.push(probe) else {
            return Err(LineError::NoMemory);
        };
        self.section = Section::Probes;
        Ok(())
    }

    /// Adds the last line.
    pub fn add_end(&mut self, totals: Totals) -> Result<(), LineError>
        ensures { Steps result self.new (step self.old (line.End totals)) }
    {
        if !self.section.takes_probe() {
            return Err(LineError::Bad);
        }
        self.totals = totals;
        self.section = Section::End;
        Ok(())
    }

    /// The result, if its last line is read.
    pub fn finish(self) -> Option<ResultFile>
        ensures { result ≡ finished self }
    {
        match self.section {
            Section::End => Some(ResultFile {
                sets: self.sets,
                ratio: self.ratio,
                asides: Asides::from_counts(self.counts),
                givens: self.givens,
                paths: self.paths,
                edges: self.edges,
                whys: self.whys,
                probes: self.probes,
                totals: self.totals,
            }),
            Section::Head(_)
            | Section::Givens
            | Section::Paths
            | Section::Edges
            | Section::Whys
            | Section::Probes => {
                drop(self);
                None
            }
        }
    }
}
