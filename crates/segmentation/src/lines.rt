// The separators of a line, in the first places of a lent list.
ghost use Rattle.std.specs.Prelude.{◌≡◌, ◌≤◌, length};
ghost use Rattle.lists.specs.Lists.{over};
ghost use Rattle.pooling.specs.Limits.{Small};
ghost use Rattle.segmentation.specs.Joining.{line_separators};

use crate::Segments;
use pooling::MOST_BINS;
use verdict::Closeness;

// Writes the separators of a line. Returns how many there are.
pub fn line_separators(h: &[u32], closeness: Closeness, list: &mut [u32]) -> u32
    requires small { Small h.now }
    requires in_bounds { (2 ≤ length h.now) × (length h.now ≤ length list.old) }
    ensures { (result ≡ length (line_separators closeness h.now))
        × (list.new ≡ over (line_separators closeness h.now) list.old) }
{
    let mut segments: Segments<MOST_BINS> = Segments::new();
    segments.line(h, closeness);
    let n = segments.count + 1;
    list[..n].copy_from_slice(&segments.separators[..n]);
    n as u32
}
