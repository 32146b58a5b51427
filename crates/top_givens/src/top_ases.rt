//! The ASes that buy from nobody, as they are asked for number by number.
ghost use Rattle.std.specs.Prelude.{◌≡◌, IfOk};
ghost use Rattle.top_givens.specs.TopGivens.{is_top};
ghost use Rattle.top_givens.specs.Binding.{HaveSameTop, AreTopMarks};

use std::alloc::Global;
use std::marker::Model;
use tor_arena::NoMemory;

/// ASes in ascending order, and for each remainder one that leaves it. Most of the others are told by their remainders.
#[derive(Drop)]
pub(crate) struct TopAses {
    ases: Vec<u32>,
    // one more than the place of an AS that leaves the remainder, 0 where none does
    marks: [usize; 1024],
}

impl Model for TopAses {
    ghost use Rattle.std.specs.Prelude.{ℕ, List};
    ghost use Rattle.std.specs.List.Sorted.{IsSorted};
    ghost use Rattle.std.specs.Ordering.{nat_cmp};
    ghost use Rattle.top_givens.specs.Binding.{AreTopMarks};

    ghost Value = { List ℕ };

    ghost view = { λ top. top.ases.items };

    ghost invariant = { λ top. IsSorted nat_cmp top.ases.items × AreTopMarks top.ases.items top.marks };
}

/// Where the ASes with each remainder are.
fn marks_of(ases: &[u32]) -> [usize; 1024]
    ensures { AreTopMarks ases.now result }
{
    let mut marks = [0; 1024];
    for k in 0..ases.len() {
        marks[ases[k] as usize % 1024] = k + 1;
    }
    marks
}

impl TopAses {
    /// These ASes, in any order and any number of times each.
    pub fn new(alloc: Global, ases: &[u32]) -> Result<TopAses, NoMemory>
        ensures { IfOk result (HaveSameTop ases.now) }
    {
        let mut sorted = Vec::from_slice(alloc, ases)?;
        sorted.sort()?;
        let marks = marks_of(sorted.as_slice());
        Ok(TopAses {
            ases: sorted,
            marks,
        })
    }

    /// Whether an AS is one of them. It takes no memory.
    pub fn holds(&self, number: u32) -> bool
        ensures { result ≡ is_top self.now number }
    {
        let ases = self.ases.as_slice();
        let mark = self.marks[number as usize % 1024];
        if mark == 0 {
            return false;
        }
        if mark <= ases.len() && ases[mark - 1] == number {
            return true;
        }
        ases.binary_search(&number).is_ok()
    }
}
