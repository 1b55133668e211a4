// The search for the next join, of a line or round a ring.
ghost use Rattle.std.specs.Prelude.{◌≡◌, suc, ◌+◌, ◌-◌, ◌≤◌, ◌<◌, ◌^◌};
ghost use Rattle.std.specs.Int.Signed.{mag};
ghost use Rattle.lists.specs.Lists.{part};
ghost use Rattle.pooling.specs.Blocks.{direction};
ghost use Rattle.pooling.specs.Limits.{most_bins};
ghost use Rattle.verdict.specs.Test.{cost};
ghost use Rattle.verdict.specs.Scratch.{Capped};
ghost use Rattle.segmentation.specs.Joining.{join_of, last_start, cheapest, next_among};
ghost use Rattle.segmentation.specs.Held.{segments_held, join_found};
ghost use Rattle.segmentation.specs.Runs.{reader_of, Prepared, Within, RunInside, RunsInside, held_count, held_among, held_for, AllInside, NoneBefore, NoneAmong, RunBelow, join_by, where_below};

use crate::{Join, Line, Search, Segments};
use verdict::capped_cost;

impl Search {
    // How many of n segments a run of len may start with: on a ring any of them, on a line those that have len - 1 others behind them.
    fn start_count(self, n: usize, len: usize) -> usize
        requires { (1 ≤ len) × (len ≤ n) × (n ≤ most_bins) }
        ensures { result ≡ suc (last_start self.round n len) }
    {
        if self.round { n } else { n - len + 1 }
    }

    // The first segment from which a run of len is not one of the first `known` segments alone.
    fn first_start(self, len: usize) -> usize
        requires { self.known ≤ most_bins }
        ensures { result ≡ suc self.known - len }
    {
        (self.known + 1).saturating_sub(len)
    }
}

// The run of len segments from segment i on, by its two costs. The smaller one counts; if they are equal, that of the fall.
fn by_costs(i: usize, len: usize, rise: i64, fall: i64) -> Join
    ensures { result ≡ join_by i len rise fall }
{
    Join {
        first: i,
        len,
        rise: rise < fall,
        cost: rise.min(fall),
    }
}

impl Line<'_> {
    // The cost of the stretch from bin i to bin j, where only a cost below the cap matters.
    fn stretch_cost(&self, rising: bool, i: usize, j: usize, cap: i64) -> i64
        requires within { Within self.now.bins.now i j }
        requires cap_bound { mag cap < 2 ^ 62 }
        ensures { Capped cap (cost self.now.closeness (direction rising) (part i j self.now.bins.now)) result }
    {
        let stretch = &self.bins[i..j + 1];
        capped_cost(self.sheet, stretch, rising, self.closeness, cap)
    }

    // The run of len segments from segment i on, of those that two lists hold, where only a cost below `least` matters.
    fn run(&self, separators: &[u32], peaks: &[u32], i: usize, len: usize, least: i64) -> Join
        requires prepared { Prepared separators.now peaks.now (i + len) }
        requires run_inside { RunInside self.now.bins.now separators.now peaks.now i len }
        requires le_len { (1 ≤ len) × (mag least < 2 ^ 62) }
        ensures { RunBelow least (join_of self.now.closeness (reader_of self.now) (segments_held separators.now peaks.now 0 (i + len)) i len) result }
    {
        let first_peak = peaks[i] as usize;
        let end = separators[i + len] as usize;
        let start = separators[i] as usize;
        let last_peak = peaks[i + len - 1] as usize;
        let fall = self.stretch_cost(false, first_peak, end, least);
        let cap = fall.min(least);
        let rise = self.stretch_cost(true, start, last_peak, cap);
        by_costs(i, len, rise, fall)
    }

    // Of the runs of len of the n segments, from left to right, the first one of the lowest cost, if that cost is below 0.
    // Those before the first start are known to cost 0 or more.
    fn cheapest_below(
        &self,
        separators: &[u32],
        peaks: &[u32],
        n: usize,
        among: Search,
        len: usize,
    ) -> Option<Join>
        requires prepared { Prepared separators.now peaks.now (held_count among.round n) }
        requires runs_inside { RunsInside self.now.bins.now separators.now peaks.now (suc (last_start among.round n len)) len }
        requires none_before { NoneBefore self.now.closeness (reader_of self.now) (held_among among.round separators.now peaks.now n) (suc among.known - len) len }
        requires le_len { (2 ≤ len) × (len ≤ n) × (n ≤ most_bins) × (among.known ≤ n) }
        ensures { join_found result ≡ where_below (cheapest self.now.closeness (reader_of self.now) (held_among among.round separators.now peaks.now n) (last_start among.round n len) len) }
    {
        let from = among.first_start(len);
        let end = among.start_count(n, len);
        let mut best = None;
        // What the cost of the next join has to be below.
        let mut least = 0;
        for i in from..end {
            let next = self.run(separators, peaks, i, len, least);
            if next.cost < least {
                least = next.cost;
                best = Some(next);
            }
        }
        best
    }
}

// The next join that a search among n segments finds, of a line or round a ring, if there is one. Two lists hold the segments, a ring's twice over.
pub fn next_join(
    line: &Line,
    separators: &[u32],
    peaks: &[u32],
    n: usize,
    among: Search,
) -> Option<Join>
    requires prepared { Prepared separators.now peaks.now (held_count among.round n) }
    requires all_inside { AllInside line.now.bins.now separators.now peaks.now among.round n }
    requires none_among { NoneAmong line.now.closeness (reader_of line.now) (held_among among.round separators.now peaks.now n) among.known }
    requires le_count { (1 ≤ n) × (n ≤ most_bins) × (among.known ≤ n) }
    ensures { join_found result ≡ next_among line.now.closeness (reader_of line.now) (held_among among.round separators.now peaks.now n) among.round n }
{
    for len in 2..n + 1 {
        let best = line.cheapest_below(separators, peaks, n, among, len);
        if best.is_some() {
            return best;
        }
    }
    None
}

impl<const N: usize> Segments<N> {
    // The next join that a search among the segments finds, of a line or round a ring, if there is one.
    pub fn next_join(&self, line: &Line, among: Search) -> Option<Join>
        requires prepared { Prepared self.now.separators self.now.peaks (held_count among.round self.now.count) }
        requires all_inside { AllInside line.now.bins.now self.now.separators self.now.peaks among.round self.now.count }
        requires none_among { NoneAmong line.now.closeness (reader_of line.now) (held_for among.round self.now) among.known }
        requires le_count { (1 ≤ self.now.count) × (self.now.count ≤ most_bins) × (among.known ≤ self.now.count) }
        ensures { join_found result ≡ next_among line.now.closeness (reader_of line.now) (held_for among.round self.now) among.round self.now.count }
    {
        next_join(line, &self.separators, &self.peaks, self.count, among)
    }
}
