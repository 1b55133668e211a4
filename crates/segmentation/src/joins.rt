// Joining a run of segments in place, and joining until no run is joinable.
ghost use Rattle.std.specs.Prelude.{◌≡◌, ◌+◌, ◌-◌, ◌≤◌, ◌<◌, length, drop};
ghost use Rattle.std.proofs.Math.Seq.{paste};
ghost use Rattle.pooling.specs.Limits.{Small};
ghost use Rattle.segmentation.specs.Joining.{join, next_join, join_all, line_modes};
ghost use Rattle.segmentation.specs.Held.{segments_held, held, join_found};
ghost use Rattle.segmentation.specs.Runs.{reader_of, joins_of, Prepared, HeldOnLine, OnLine};

use crate::{Join, Line, Search, Segments, next_join};
use logarithm::Sheet;
use verdict::Closeness;

// Moves the members from place `from` up to, but not including, `end` down to the places from `to` on.
// Not std's copy_within: it calls memmove, and the library is said to need memcpy and memset alone.
pub fn shift(a: &mut [u32], to: usize, from: usize, end: usize)
    requires { (to ≤ from) × (from ≤ end) × (end ≤ length a.old) }
    ensures { a.new ≡ paste a.old to (drop from a.old) (end - from) }
{
    for k in 0..end - from {
        a[to + k] = a[from + k];
    }
}

// Joins a run of the n segments that two lists hold, in place. Returns how many segments there are then.
// The separators inside the run are dropped, and what follows moves down. Of its peaks a rise keeps the last, a fall the first.
pub fn apply(separators: &mut [u32], peaks: &mut [u32], n: usize, j: Join) -> usize
    requires { (2 ≤ j.len) × (j.first + j.len ≤ n) × (n < length separators.old) × (n ≤ length peaks.old) }
    ensures joined { segments_held separators.new peaks.new 0 result ≡ join (segments_held separators.old peaks.old 0 n) j }
    ensures fewer { result ≡ n - (j.len - 1) }
{
    let at = j.first;
    let fewer = j.len - 1;
    let kept = if j.rise { at } else { at + 1 };
    shift(separators, at + 1, at + 1 + fewer, n + 1);
    shift(peaks, kept, kept + fewer, n);
    n - fewer
}

// The join that comes next among the n segments of a line, if there is one. With `apply`, which makes it, this is one step of joining.
pub fn next_on_line(line: &Line, separators: &[u32], peaks: &[u32], n: usize) -> Option<Join>
    requires { Prepared separators.now peaks.now n × HeldOnLine line.now separators.now peaks.now n }
    ensures { join_found result ≡ next_join line.now.closeness (reader_of line.now) (segments_held separators.now peaks.now 0 n) }
{
    let all = Search {
        round: false,
        known: 0,
    };
    next_join(line, separators, peaks, n, all)
}

// Joins the n segments of a line, step by step, until no run is joinable. Returns how many there are then.
pub fn join_all(line: &Line, separators: &mut [u32], peaks: &mut [u32], n: usize) -> usize
    requires { Prepared separators.old peaks.old n × HeldOnLine line.now separators.old peaks.old n }
    ensures all { segments_held separators.new peaks.new 0 result ≡ join_all n (joins_of line.now) (segments_held separators.old peaks.old 0 n) }
    ensures fewer { result ≤ n }
{
    let mut left = n;
    while let Some(join) = next_on_line(line, separators, peaks, left) {
        left = apply(separators, peaks, left, join);
    }
    left
}

// The same for segments that bring their own lists.
impl<const N: usize> Segments<N> {
    // Joins a run of the segments in place.
    pub fn apply(&mut self, j: Join)
        requires { (2 ≤ j.len) × (j.first + j.len ≤ self.old.count) }
        ensures joined { held self.new ≡ join (held self.old) j }
        ensures fewer { self.new.count ≡ self.old.count - (j.len - 1) }
    {
        self.count = apply(&mut self.separators, &mut self.peaks, self.count, j);
    }

    // The join that comes next among the segments of a line, if there is one.
    pub fn next_on_line(&self, line: &Line) -> Option<Join>
        requires { OnLine line.now self.now }
        ensures { join_found result ≡ next_join line.now.closeness (reader_of line.now) (held self.now) }
    {
        next_on_line(line, &self.separators, &self.peaks, self.count)
    }

    // Joins the segments of a line, step by step, until no run is joinable.
    pub fn join_all(&mut self, line: &Line)
        requires { OnLine line.now self.old }
        ensures all { held self.new ≡ join_all self.old.count (joins_of line.now) (held self.old) }
        ensures fewer { self.new.count ≤ self.old.count }
    {
        self.count = join_all(line, &mut self.separators, &mut self.peaks, self.count);
    }

    // Becomes the modes of a line. A single segment has nothing to join, and needs no sheet.
    pub(crate) fn line(&mut self, h: &[u32], closeness: Closeness)
        requires small { Small h.now }
        requires in_bounds { 2 ≤ length h.now }
        requires h_in_bounds { length h.now ≤ N }
        ensures { held self.new ≡ line_modes closeness h.now }
    {
        self.first_segments(h);
        if self.count < 2 {
            return;
        }
        let sheet = Sheet::copied();
        let line = Line {
            sheet: &sheet,
            bins: h,
            closeness,
        };
        self.join_all(&line);
    }
}
