//! How many kept paths hold each edge.
ghost use Rattle.std.specs.Prelude.{◌≡◌, ◌+◌, ◌<◌, ◌≤◌, ℕ, All, length, count_by, nat_eq, slice_index};
ghost use Rattle.as_graph.specs.Limits.{most_paths, most_numbers};

use crate::step::Step;
use tor_arena::Index;

/// Counts one more for each edge of the steps, as often as it stands there.
pub(crate) fn count_steps(counts: &mut Vec<u32>, steps: &[Step])
    requires inside { All (λ s. s.edge < length counts.old.items) steps.now }
    requires small { All (λ n. n ≤ most_paths) counts.old.items }
    requires few { length steps.now ≤ most_numbers }
    ensures length { length counts.new.items ≡ length counts.old.items }
    ensures counted { (k : ℕ) → slice_index counts.new.items k ≡ slice_index counts.old.items k + count_by
        (λ s. nat_eq s.edge k) steps.now }
{
    for step in steps {
        counts[step.edge().place()] += 1;
    }
}
