// The first separators, segments and peaks of a line.
ghost use Rattle.std.specs.Prelude.{◌≡◌, ◌++◌, ◌+◌, ◌-◌, ◌^◌, ◌≤◌, ◌<◌, length, take, IfSome};
ghost use Rattle.pooling.specs.Limits.{most_bins};
ghost use Rattle.segmentation.specs.Segments.{first_separators, first_highest, first_segments};
ghost use Rattle.segmentation.specs.Held.{segments_held, held};
ghost use Rattle.segmentation.specs.Walk.{fell_after, pending};

use crate::Segments;

// The bin where the counts last fell, if they fell and have not risen since. `fell` is that bin before the step to bin i; the step goes
// from a bin of x counts to one of y.
#[tactic(auto, unfolding(crate::specs::Walk::fell_after))]
fn fell_after(fell: Option<usize>, i: usize, x: u32, y: u32) -> Option<usize>
    ensures { result ≡ fell_after fell i x y }
{
    if y < x {
        Some(i)
    } else if x < y {
        None
    } else {
        fell
    }
}

// When the counts rise, the bin where they last fell becomes a separator. Returns how many separators there are then.
fn put_valley(separators: &mut [u32], n: usize, fell: Option<usize>, rises: bool) -> usize
    requires { (n < length separators.old) × IfSome fell (λ bin. bin < 2 ^ 32) }
    ensures { (result ≤ n + 1) × (take result separators.new ≡ take n separators.old ++ pending fell rises) }
{
    match fell {
        Some(bin) if rises => {
            separators[n] = bin as u32;
            n + 1
        }
        _ => n,
    }
}

// Writes the first separators. Returns how many there are before the last one.
fn first_separators(h: &[u32], separators: &mut [u32]) -> usize
    requires { (2 ≤ length h.now) × (length h.now ≤ most_bins) × (length h.now ≤ length separators.old) }
    ensures { (result < length h.now) × (take (result + 1) separators.new ≡ first_separators h.now) }
{
    let last = h.len() - 1;
    let mut n: usize = 1;
    let mut fell = None;
    separators[0] = 0;
    for i in 0..last {
        let x = h[i];
        let y = h[i + 1];
        n = put_valley(separators, n, fell, x < y);
        fell = fell_after(fell, i + 1, x, y);
    }
    separators[n] = last as u32;
    n
}

// The first of the highest bins from start to end.
fn first_highest(h: &[u32], start: usize, end: usize) -> usize
    requires { (start ≤ end) × (end < length h.now) }
    ensures { (result ≤ end) × (result ≡ first_highest h.now start (end - start)) }
{
    let mut best = start;
    for i in start + 1..end + 1 {
        if h[best] < h[i] {
            best = i;
        }
    }
    best
}

// Writes the first segments of a line. Returns how many there are.
pub fn first_segments(h: &[u32], separators: &mut [u32], peaks: &mut [u32]) -> usize
    requires { (2 ≤ length h.now) × (length h.now ≤ most_bins) × (length h.now ≤ length separators.old) × (length h.now ≤ length peaks.old) }
    ensures first { segments_held separators.new peaks.new 0 result ≡ first_segments h.now }
    ensures fewer { result < length h.now }
{
    let n = first_separators(h, separators);
    for m in 0..n {
        let start = separators[m] as usize;
        let end = separators[m + 1] as usize;
        peaks[m] = first_highest(h, start, end) as u32;
    }
    n
}

impl<const N: usize> Segments<N> {
    // Becomes the first segments of a line.
    pub fn first_segments(&mut self, h: &[u32])
        requires { (2 ≤ length h.now) × (length h.now ≤ most_bins) × (length h.now ≤ N) }
        ensures { held self.new ≡ first_segments h.now }
    {
        self.count = first_segments(h, &mut self.separators, &mut self.peaks);
    }
}
