//! Which edges flip together. An edge that flips gets the order that its label does not have; a
//! peering is read as if its lower number were the provider.
//!
//! A given is noted as the two steps of its return, so its edge conflicts with itself, and no search has a case for givens.

ghost use Rattle.std.specs.Prelude.{◌≡◌, ◌<◌, ◌≤◌, ℕ, ◌∷◌, ◌++◌, [], List as Items, length, replicate, OnOk, IfOk};
ghost use Rattle.tor_arena.specs.Limits.{most_places};
ghost use Rattle.relationships.specs.Graph.{edges};
ghost use Rattle.result_rules.specs.File.{its_edges, its_paths};
ghost use Rattle.line_rules.specs.Flipping.{climbs, climbs_on, number_of_steps, SameRows, AreNoted, flipped_orders, IsBuiltFor};
ghost use Rattle.line_rules.specs.EdgeLines.{edges_of};
ghost use Rattle.line_rules.specs.Flipping.{with_implied, with_conflicting, with_kept, with_return, returns_on, served_lines, IsProper};
ghost use Rattle.line_rules.specs.PathSteps.{place_in, AreCodedSteps, HaveCodedSteps};

use crate::edges::labels::Labels;
use crate::edges::step::{Step, end_left};
use crate::lending::{givens_of, path_line_at, steps_at};
use crate::marks::neighbours::Neighbours;
use crate::marks::noted::Noted;
use relationships::{End, Given, Label};
use result_text::{PathLineRef, ResultFile};
use std::alloc::Global;
use tor_arena::{EdgeId, Index, Keys, NoMemory, PathId, Rows};
use tor_numbers::EdgeTable;

/// For each edge the edges that it implies, which flip where it does, and those with which it
/// conflicts, which can't flip where it does.
#[derive(Drop)]
pub struct Flips {
    pub implied: Neighbours,
    pub conflicting: Neighbours,
}

/// A step under the labels: its edge, and whether it goes up.
#[derive(Drop)]
struct Climb {
    edge: EdgeId,
    up: bool,
}

/// How a step goes under the labels.
fn climb_of(labels: &Labels<'_>, step: Step) -> Climb
    requires few { length labels.now ≤ most_places }
    requires inside { place_in step < length labels.now }
    ensures edge { result.edge ≡ place_in step }
    ensures up { result.up ≡ climbs_on labels.now step }
{
    let place = step.place();
    let Some(edge) = EdgeId::from_place(place) else {
        unreachable!();
    };
    let up = climbs(labels.of(place), step.left());
    Climb { edge, up }
}

/// Whether the step from this end of an edge with this label goes up.
fn climbs(label: Label, left: End) -> bool
    ensures { result ≡ climbs label left }
{
    matches!(
        (label, left),
        (Label::High, End::Low) | (Label::Low | Label::Peer, End::High)
    )
}

/// The number of two consecutive steps, from 2 on, which is also that of the two the other way round.
fn number_of(first: Step, second: Step) -> u64
    requires first { place_in first < most_places }
    requires second { place_in second < most_places }
    ensures number { result ≡ number_of_steps first second }
    ensures least { 2 ≤ result }
{
    let (start, end) = if second.turned_code() < first.code {
        (second.turned_code(), first.turned_code())
    } else {
        (first.code, second.code)
    };
    u64::from(start) * 4294967296 + u64::from(end) + 2
}

impl Flips {
    /// Notes what two consecutive steps of a path imply or rule out.
    fn note(&mut self, first: &Climb, second: &Climb) -> Result<(), NoMemory>
        requires first { first.now.edge < length self.old.implied }
        requires second { second.now.edge < length self.old.implied }
        requires many { length self.old.conflicting ≡ length self.old.implied }
        ensures implied { OnOk result (self.new.implied ≡
            with_implied first.now.up second.now.up first.now.edge second.now.edge self.old.implied) }
        ensures conflicting { OnOk result (self.new.conflicting ≡
            with_conflicting first.now.up second.now.up first.now.edge second.now.edge self.old.conflicting) }
    {
        match (first.up, second.up) {
            (true, true) => self.implied.add(first.edge, second.edge),
            (false, false) => self.implied.add(second.edge, first.edge),
            (true, false) => {
                self.conflicting.add(first.edge, second.edge)?;
                self.conflicting.add(second.edge, first.edge)
            }
            (false, true) => Ok(()),
        }
    }

    /// Notes what two consecutive steps of a path imply or rule out, unless these two, or the same the other way round, were noted.
    fn note_pair(
        &mut self,
        labels: &Labels<'_>,
        noted: &mut Noted,
        first: Step,
        second: Step,
    ) -> Result<(), NoMemory>
        requires few { length labels.now ≤ most_places }
        requires first { place_in first < length labels.now }
        requires second { place_in second < length labels.now }
        requires implied { length self.old.implied ≡ length labels.now }
        requires conflicting { length self.old.conflicting ≡ length labels.now }
        requires noted { AreNoted labels.now noted.old self.old.implied self.old.conflicting }
        ensures noted { OnOk result (AreNoted labels.now noted.new self.new.implied self.new.conflicting) }
        ensures implied { OnOk result (SameRows self.new.implied (with_implied (climbs_on labels.now first) (climbs_on labels.now second)
            (place_in first) (place_in second) self.old.implied)) }
        ensures conflicting { OnOk result (SameRows self.new.conflicting (with_conflicting (climbs_on labels.now first)
            (climbs_on labels.now second) (place_in first) (place_in second) self.old.conflicting)) }
    {
        if noted.add(number_of(first, second)) {
            self.note(&climb_of(labels, first), &climb_of(labels, second))
        } else {
            Ok(())
        }
    }

    /// Notes what the steps of a path imply or rule out.
    fn note_path(
        &mut self,
        labels: &Labels<'_>,
        noted: &mut Noted,
        path: &[u32],
        steps: &[Step],
    ) -> Result<(), NoMemory>
        requires few { length labels.now ≤ most_places }
        requires proper { IsProper (flipped_orders labels.now) }
        requires steps { AreCodedSteps (edges_of labels.now) path.now steps.now }
        requires implied { length self.old.implied ≡ length labels.now }
        requires conflicting { length self.old.conflicting ≡ length labels.now }
        requires noted { AreNoted labels.now noted.old self.old.implied self.old.conflicting }
        ensures implied { OnOk result (length self.new.implied ≡ length labels.now) }
        ensures conflicting { OnOk result (length self.new.conflicting ≡ length labels.now) }
        ensures noted { OnOk result (AreNoted labels.now noted.new self.new.implied self.new.conflicting) }
        ensures built { OnOk result ((paths : Items (Items ℕ)) → IsBuiltFor labels.now paths self.old.implied self.old.conflicting →
            IsBuiltFor labels.now (paths ++ path.now ∷ []) self.new.implied self.new.conflicting) }
    {
        for at in 2..path.len() {
            self.note_pair(labels, noted, steps[at - 2], steps[at - 1])?;
        }
        Ok(())
    }

    /// Notes what the steps of a line's path imply or rule out, if it is kept.
    fn note_line(
        &mut self,
        labels: &Labels<'_>,
        noted: &mut Noted,
        line: &PathLineRef<'_>,
        steps: &[Step],
    ) -> Result<(), NoMemory>
        requires few { length labels.now ≤ most_places }
        requires proper { IsProper (flipped_orders labels.now) }
        requires steps { AreCodedSteps (edges_of labels.now) line.now.path steps.now }
        requires implied { length self.old.implied ≡ length labels.now }
        requires conflicting { length self.old.conflicting ≡ length labels.now }
        requires noted { AreNoted labels.now noted.old self.old.implied self.old.conflicting }
        ensures implied { OnOk result (length self.new.implied ≡ length labels.now) }
        ensures conflicting { OnOk result (length self.new.conflicting ≡ length labels.now) }
        ensures noted { OnOk result (AreNoted labels.now noted.new self.new.implied self.new.conflicting) }
        ensures built { OnOk result ((paths : Items (Items ℕ)) → IsBuiltFor labels.now paths self.old.implied self.old.conflicting →
            IsBuiltFor labels.now (with_kept paths line.now.path line.now.fate) self.new.implied self.new.conflicting) }
    {
        if line.is_kept() {
            self.note_path(labels, noted, line.path(), steps)
        } else {
            Ok(())
        }
    }

    /// Notes what the return of a given rules out, where its two are an edge: that the edge flips, which conflicts with itself.
    fn note_given(
        &mut self,
        labels: &Labels<'_>,
        noted: &mut Noted,
        table: &EdgeTable,
        given: &Given,
    ) -> Result<(), NoMemory>
        requires few { length labels.now ≤ most_places }
        requires proper { IsProper (flipped_orders labels.now) }
        requires table { table.now ≡ edges_of labels.now }
        requires implied { length self.old.implied ≡ length labels.now }
        requires conflicting { length self.old.conflicting ≡ length labels.now }
        requires noted { AreNoted labels.now noted.old self.old.implied self.old.conflicting }
        ensures implied { OnOk result (length self.new.implied ≡ length labels.now) }
        ensures conflicting { OnOk result (length self.new.conflicting ≡ length labels.now) }
        ensures noted { OnOk result (AreNoted labels.now noted.new self.new.implied self.new.conflicting) }
        ensures built { OnOk result ((paths : Items (Items ℕ)) → IsBuiltFor labels.now paths self.old.implied self.old.conflicting →
            IsBuiltFor labels.now (with_return (edges_of labels.now) paths given.now) self.new.implied self.new.conflicting) }
    {
        let Some(place) = table.place(given.over, given.under) else {
            return Ok(());
        };
        let up = Step::new(place, end_left(given.under, given.over));
        let down = Step::new(place, end_left(given.over, given.under));
        let path = [given.under, given.over, given.under];
        self.note_path(labels, noted, &path, &[up, down])
    }

    /// Notes what the returns of givens rule out, where nothing was noted.
    fn note_givens(
        &mut self,
        labels: &Labels<'_>,
        noted: &mut Noted,
        table: &EdgeTable,
        givens: &[Given],
    ) -> Result<(), NoMemory>
        requires few { length labels.now ≤ most_places }
        requires proper { IsProper (flipped_orders labels.now) }
        requires table { table.now ≡ edges_of labels.now }
        requires noted { AreNoted labels.now noted.old self.old.implied self.old.conflicting }
        requires none { IsBuiltFor labels.now [] self.old.implied self.old.conflicting }
        ensures noted { OnOk result (AreNoted labels.now noted.new self.new.implied self.new.conflicting) }
        ensures built { OnOk result
            (IsBuiltFor labels.now (returns_on (edges_of labels.now) givens.now) self.new.implied self.new.conflicting) }
    {
        for given in givens {
            self.note_given(labels, noted, table, given)?;
        }
        Ok(())
    }

    /// Notes what the kept paths and the givens imply and rule out, where nothing was noted.
    fn note_file(
        &mut self,
        labels: &Labels<'_>,
        noted: &mut Noted,
        file: &ResultFile,
        table: &EdgeTable,
        steps: &Rows<PathId, Step>,
    ) -> Result<(), NoMemory>
        requires labels { labels.now ≡ file.now.edges }
        requires few { length file.now.edges ≤ most_places }
        requires proper { IsProper (flipped_orders file.now.edges) }
        requires table { table.now ≡ its_edges file.now }
        requires whole { its_edges file.now ≡ edges (its_paths file.now) }
        requires steps { HaveCodedSteps (its_edges file.now) (its_paths file.now) steps.now }
        requires noted { AreNoted file.now.edges noted.old self.old.implied self.old.conflicting }
        requires none { IsBuiltFor file.now.edges [] self.old.implied self.old.conflicting }
        ensures { OnOk result (IsBuiltFor file.now.edges (served_lines file.now) self.new.implied self.new.conflicting) }
    {
        self.note_givens(labels, noted, table, givens_of(file))?;
        for place in 0..file.paths.len() {
            let line = path_line_at(&file.paths, place);
            self.note_line(labels, noted, &line, steps_at(steps, place))?;
        }
        Ok(())
    }

    /// What the kept paths and the givens imply and rule out, by the edges, the labels and the steps of the paths. The keys are those of a
    /// hash table, and no answer depends on them. NoMemory where memory ran out.
    pub fn of_file(
        alloc: Global,
        keys: Keys,
        file: &ResultFile,
        table: &EdgeTable,
        labels: &Labels<'_>,
        steps: &Rows<PathId, Step>,
    ) -> Result<Flips, NoMemory>
        requires labels { labels.now ≡ file.now.edges }
        requires few { length file.now.edges ≤ most_places }
        requires proper { IsProper (flipped_orders file.now.edges) }
        requires table { table.now ≡ its_edges file.now }
        requires whole { its_edges file.now ≡ edges (its_paths file.now) }
        requires steps { HaveCodedSteps (its_edges file.now) (its_paths file.now) steps.now }
        ensures { IfOk result (λ flips. IsBuiltFor file.now.edges (served_lines file.now) flips.implied flips.conflicting) }
    {
        let mut flips = Flips::new(alloc, file.edges.len());
        match flips.note_all(alloc, keys, file, table, labels, steps) {
            Ok(()) => Ok(flips),
            Err(NoMemory) => {
                drop(flips);
                Err(NoMemory)
            }
        }
    }

    /// Empty rows, for so many edges. It takes no memory.
    fn new(alloc: Global, count: usize) -> Flips
        ensures implied { result.implied ≡ replicate count [] }
        ensures conflicting { result.conflicting ≡ replicate count [] }
    {
        Flips {
            implied: Neighbours::new(alloc, count),
            conflicting: Neighbours::new(alloc, count),
        }
    }

    /// Notes what the kept paths and the givens imply and rule out, in empty rows.
    fn note_all(
        &mut self,
        alloc: Global,
        keys: Keys,
        file: &ResultFile,
        table: &EdgeTable,
        labels: &Labels<'_>,
        steps: &Rows<PathId, Step>,
    ) -> Result<(), NoMemory>
        requires labels { labels.now ≡ file.now.edges }
        requires few { length file.now.edges ≤ most_places }
        requires proper { IsProper (flipped_orders file.now.edges) }
        requires table { table.now ≡ its_edges file.now }
        requires whole { its_edges file.now ≡ edges (its_paths file.now) }
        requires steps { HaveCodedSteps (its_edges file.now) (its_paths file.now) steps.now }
        requires implied { self.old.implied ≡ replicate (length file.now.edges) [] }
        requires conflicting { self.old.conflicting ≡ replicate (length file.now.edges) [] }
        ensures { OnOk result (IsBuiltFor file.now.edges (served_lines file.now) self.new.implied self.new.conflicting) }
    {
        let mut noted = Noted::new(alloc, keys, file.paths.paths().item_count())?;
        let done = self.note_file(labels, &mut noted, file, table, steps);
        drop(noted);
        done
    }
}
