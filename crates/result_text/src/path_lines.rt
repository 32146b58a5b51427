//! The path lines of a result, in flat lists.

ghost use Rattle.std.specs.Option.{option_copied};
ghost use Rattle.std.specs.Prelude.{◌≡◌, ◌<◌, ◌≤◌, ◌++◌, ◌∷◌, [], Some, length, map, slice_get, OnOk, OnErr};
ghost use Rattle.tor_arena.specs.Limits.{most_places};
ghost use Rattle.relationships.specs.declared.fate.Fate.TheVariants.{Kept, Lost};
ghost use Rattle.relationships.specs.Fates.{is_kept, walk_of};
ghost use Rattle.result_text.specs.PathLines.{line_with};

use relationships::{Fates, Link, WalkRef};
use std::alloc::Global;
use std::marker::Model;
use tor_arena::{Index, List, NoMemory, PathId, Rows};

/// A path line of a flat list, lent out.
#[derive(Drop)]
pub struct PathLineRef<'a> {
    times: u64,
    path: &'a [u32],
    walk: Option<WalkRef<'a>>,
}

impl<'a> Model for PathLineRef<'a> {
    ghost use Rattle.result_text.specs.declared.file.PathLine.{PathLine};
    ghost use Rattle.result_text.specs.PathLines.{line_with, fate_with};

    ghost Value = { PathLine };

    ghost view = { λ line. line_with line.times line.path.now (fate_with line.walk) };
}

impl<'a> PathLineRef<'a> {
    /// How often the path stood in the dumps. It takes no memory.
    #[inline(always)]
    pub fn times(&self) -> u64
        ensures { result ≡ self.now.times }
    {
        self.times
    }

    /// The AS numbers of the path, in order. It takes no memory.
    #[inline(always)]
    pub fn path(&self) -> &'a [u32]
        ensures { result.now ≡ self.now.path }
    {
        self.path
    }

    /// Whether the path is kept. It takes no memory.
    #[inline(always)]
    pub fn is_kept(&self) -> bool
        ensures { result ≡ is_kept self.now.fate }
    {
        self.walk.is_none()
    }

    /// The walk with which the path is lost, if it is. It takes no memory.
    pub fn walk(&self) -> Option<&WalkRef<'a>>
        ensures { option_copied result ≡ walk_of self.now.fate }
    {
        self.walk.as_ref()
    }
}

/// Path lines in order, seen as a list of them. Their AS numbers lie one behind the other, and so do their times and what becomes of
/// them.
#[derive(Drop)]
pub struct PathLines {
    paths: Rows<PathId, u32>,
    times: Vec<u64>,
    fates: Fates,
}

impl Model for PathLines {
    ghost use Rattle.std.specs.Prelude.{◌≡◌, List, length};
    ghost use Rattle.result_text.specs.declared.file.PathLine.{PathLine};
    ghost use Rattle.result_text.specs.PathLines.{lines_by};

    ghost Value = { List PathLine };

    ghost view = { λ lines. lines_by lines.paths lines.times.items lines.fates };

    ghost invariant = { λ lines. (length lines.times.items ≡ length lines.paths) × (length lines.fates ≡ length lines.paths) };
}

impl PathLines {
    /// No lines. It takes no memory.
    pub fn new(alloc: Global) -> PathLines
        ensures { result ≡ [] }
    {
        PathLines {
            paths: Rows::new(alloc),
            times: Vec::new(alloc),
            fates: Fates::new(alloc),
        }
    }

    /// The lines of these paths, each with the times and the fate of the same place. It takes no memory.
    pub fn from_parts(paths: Rows<PathId, u32>, times: List<u64>, fates: Fates) -> PathLines
        requires times { length times ≡ length paths }
        requires fates { length fates ≡ length paths }
        ensures paths { map (λ line. line.path) result ≡ paths }
        ensures times { map (λ line. line.times) result ≡ times }
        ensures fates { map (λ line. line.fate) result ≡ fates }
    {
        PathLines {
            paths,
            times: times.into_vec(),
            fates,
        }
    }

    /// The paths, the times and the fates of the lines, in order, each with what is said of it in the same place. It takes no memory,
    /// and copies nothing.
    pub fn into_parts(self) -> (Rows<PathId, u32>, List<u64>, Fates)
        ensures paths { result.0 ≡ map (λ line. line.path) self }
        ensures times { result.1 ≡ map (λ line. line.times) self }
        ensures fates { result.2 ≡ map (λ line. line.fate) self }
    {
        (self.paths, List::from_vec(self.times), self.fates)
    }

    /// How many lines there are, at most 2^28. It takes no memory.
    pub fn len(&self) -> usize
        ensures length { result ≡ length self.now }
        ensures few { length self.now ≤ most_places }
    {
        self.paths.len()
    }

    /// The paths in order. It takes no memory.
    pub fn paths(&self) -> &Rows<PathId, u32>
        ensures { result.now ≡ map (λ line. line.path) self.now }
    {
        &self.paths
    }

    /// What becomes of the paths, in order. It takes no memory.
    pub fn fates(&self) -> &Fates
        ensures { result.now ≡ map (λ line. line.fate) self.now }
    {
        &self.fates
    }

    /// The line of an index, which has to be there. It takes no memory.
    #[inline(always)]
    pub fn get(&self, id: PathId) -> PathLineRef<'_>
        requires { id < length self.now }
        ensures { slice_get self.now id ≡ Some result }
    {
        PathLineRef {
            times: self.times[id.place()],
            path: self.paths.row(id),
            walk: self.fates.walk(id),
        }
    }

    /// Takes the memory for so many further lines, of so many AS numbers in sum on their paths, without that of walks. The lines stay
    /// as they are. The only error is that memory ran out.
    pub fn reserve(&mut self, lines: usize, numbers: usize) -> Result<(), NoMemory>
        ensures { self.new ≡ self.old }
    {
        self.paths.reserve(lines, numbers)?;
        self.times.reserve(lines)?;
        self.fates.reserve(lines)
    }

    /// Adds the line of a kept path at the end. NoMemory comes where memory ran out, and where there are 2^28 lines already; it
    /// changes nothing.
    #[inline(always)]
    pub fn push_kept(&mut self, times: u64, path: &[u32]) -> Result<(), NoMemory>
        ensures added { OnOk result (self.new ≡ self.old ++ line_with times path.now Kept ∷ []) }
        ensures unchanged { OnErr result (self.new ≡ self.old) }
    {
        let count = self.paths.len();
        self.times.reserve(1)?;
        let Ok(_) = self.paths.push_row(path) else {
            return Err(NoMemory);
        };
        let Ok(()) = self.fates.push_kept() else {
            self.paths.cut_to(count);
            return Err(NoMemory);
        };
        self.times.push_reserved(times);
        Ok(())
    }

    /// Adds the line of a path that is lost with the walk at the end. NoMemory comes where memory ran out, and where there are 2^28
    /// lines already; it changes nothing.
    #[inline(always)]
    pub fn push_lost(
        &mut self,
        times: u64,
        path: &[u32],
        walk: &WalkRef<'_>,
    ) -> Result<(), NoMemory>
        ensures added { OnOk result (self.new ≡ self.old ++ line_with times path.now (Lost walk.now) ∷ []) }
        ensures unchanged { OnErr result (self.new ≡ self.old) }
    {
        let count = self.paths.len();
        self.times.reserve(1)?;
        let Ok(_) = self.paths.push_row(path) else {
            return Err(NoMemory);
        };
        let Ok(()) = self.fates.push_lost(walk.ases(), walk.links()) else {
            self.paths.cut_to(count);
            return Err(NoMemory);
        };
        self.times.push_reserved(times);
        Ok(())
    }
}
