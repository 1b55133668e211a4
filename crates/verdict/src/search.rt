// The search for the best weight of a stretch's parts, up to a limit: it stops at the first weight that reaches the limit, and weighs no part that is near its fitted mass.
ghost use Rattle.std.specs.Prelude.{◌≡◌, cond, ◌≤◌, ◌<◌, length, ◌≤ℤ◌};
ghost use Rattle.std.specs.Int.Signed.{lt_z};
ghost use Rattle.lists.specs.Lists.{total};
ghost use Rattle.pooling.specs.Limits.{most_counts};
ghost use Rattle.verdict.specs.Near.{Usable, Spares, Tried};
ghost use Rattle.verdict.specs.Scratch.{EndingAt, Visits, Part};
ghost use Rattle.verdict.specs.Searching.{fit_of, first_in, end_in, NearIn, SoFar, BestIn};

use crate::near::{best_at, is_near};
use crate::parts::{Stretch, Turn};
use crate::weights::weight;
use crate::{Best, Threshold};
use logarithm::Sheet;

// The better of the best weight so far and another.
fn better(n: u64, best: Best, weight: i64) -> Best
    requires n_le_most_counts { n ≤ most_counts }
    requires spares { Spares n best }
    ensures { (result.weight ≡ cond (lt_z best.weight weight) weight best.weight) × Spares n result }
{
    if best.weight < weight {
        return best_at(n, weight);
    }
    best
}

// Of the parts that end at bin j, the first from bin `first` on that is not near its fitted mass; `end` if all before that are.
// Not an `Option`: tried, and with `None` for `end` the compiler keeps more values in the loop, and a search takes a tenth more instructions.
fn first_far(s: &Stretch, turn: Turn, j: usize, first: usize, end: usize, t: Threshold) -> usize
    requires j_in_bounds { (j < length s.now.h.now) × (first_in turn s.now j ≤ first) × (first ≤ end) × (end ≤ end_in turn s.now j) }
    requires usable { Usable t }
    ensures { (first ≤ result) × (result ≤ end) × NearIn s.now t j first result }
{
    let n = s.counts();
    for i in first..end {
        let k = s.part_counts(i, j);
        let m = s.part_mass(turn, i, j);
        if !is_near(n, k, m, t) {
            return i;
        }
    }
    end
}

// A search of the parts of a stretch.
#[derive(Drop)]
pub struct Search<'a> {
    pub sheet: &'a Sheet,
    pub stretch: Stretch<'a>,
    pub limit: i64,
}

impl Search<'_> {
    // The best weight after the part from bin i to bin j is weighed.
    fn tried(&self, turn: Turn, i: usize, j: usize, best: Best) -> Best
        requires visits { Visits turn self.now.stretch.places.now (length self.now.stretch.h.now) i j }
        requires spares { Spares (total self.now.stretch.h.now) best }
        ensures { Tried self.now.stretch.h.now (fit_of self.now.stretch) i j best result }
    {
        let n = self.stretch.counts();
        let k = self.stretch.part_counts(i, j);
        let m = self.stretch.part_mass(turn, i, j);
        better(n, best, weight(self.sheet, n, k, m))
    }

    // The best weight after the parts of a turn that end at bin j. The search stops once it reaches the limit.
    fn best_ending_at(&self, turn: Turn, j: usize, best: Best) -> Best
        requires j_in_bounds { j < length self.now.stretch.h.now }
        requires so_far { SoFar self.now.stretch best }
        ensures weight_le_weight { (best.weight ≤ℤ result.weight) × Spares (total self.now.stretch.h.now) result }
        ensures best_of { BestIn self.now.stretch self.now.limit (EndingAt j (first_in turn self.now.stretch j) (end_in turn self.now.stretch j)) result.weight }
    {
        let start = self.stretch.start(j);
        let end = turn.end_of(start, j);
        let mut found = best;
        let mut next = turn.first_of(start);
        // Not a `for`: each pass skips the near parts before the one that it weighs.
        while next < end {
            next = first_far(&self.stretch, turn, j, next, end, found.threshold);
            if next < end {
                found = self.tried(turn, next, j, found);
                if found.weight >= self.limit {
                    return found;
                }
                next += 1;
            }
        }
        found
    }

    // The best weight after all parts within one block, or after all parts across blocks. The search stops once it reaches the limit.
    fn best_in_turn(&self, turn: Turn, best: Best) -> Best
        requires so_far { SoFar self.now.stretch best }
        ensures weight_le_weight { (best.weight ≤ℤ result.weight) × Spares (total self.now.stretch.h.now) result }
        ensures best_of { BestIn self.now.stretch self.now.limit (Visits turn self.now.stretch.places.now (length self.now.stretch.h.now)) result.weight }
    {
        let mut found = best;
        for j in 0..self.stretch.h.len() {
            if found.weight >= self.limit {
                return found;
            }
            found = self.best_ending_at(turn, j, found);
        }
        found
    }

    // The best weight of all parts, up to the limit. Parts within a block are likelier to reach it, so they come first.
    // The search begins with the whole stretch, which weighs 0.
    pub fn best_weight(&self) -> i64
        requires { 1 ≤ length self.now.stretch.h.now }
        ensures { BestIn self.now.stretch self.now.limit (Part self.now.stretch.h.now) result }
    {
        let whole = best_at(self.stretch.counts(), 0);
        let inside = self.best_in_turn(Turn::WithinBlocks, whole);
        let all = self.best_in_turn(Turn::AcrossBlocks, inside);
        all.weight
    }
}
