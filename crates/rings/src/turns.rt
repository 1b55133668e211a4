// The ring: its opening, its turns from there on, and its modes.
ghost use Rattle.std.specs.Prelude.{◌≡◌, ◌+◌, ◌≤◌, length};
ghost use Rattle.lists.specs.Lists.{total, over};
ghost use Rattle.pooling.specs.Limits.{most_ring_bins, most_ring_counts};
ghost use Rattle.segmentation.specs.Held.{held};
ghost use Rattle.segmentation.specs.Ring.{opening, two_turns, ring_modes};

use crate::HELD_TWICE;
use crate::rounds::join_round;
use logarithm::Sheet;
use segmentation::{Line, Segments};
use verdict::Closeness;

// The lowest bin; of several, the one with the lowest number.
pub fn lowest_bin(h: &[u32]) -> usize
    requires { 1 ≤ length h.now }
    ensures { result ≡ opening h.now }
{
    let mut lowest = 0;
    for i in 1..h.len() {
        if h[i] < h[lowest] {
            lowest = i;
        }
    }
    lowest
}

// Writes two turns of the ring, from bin `first` on, into the first places of `round`.
pub fn write_turns(h: &[u32], first: usize, round: &mut [u32])
    requires in_bounds { (1 ≤ length h.now) × (length h.now ≤ most_ring_bins) × (length h.now + length h.now ≤ length round.old) }
    requires first_value { first ≡ opening h.now }
    ensures { round.new ≡ over (two_turns h.now) round.old }
{
    let bins = h.len();
    for i in 0..bins + bins {
        round[i] = h[(first + i) % bins];
    }
}

// Finds the modes of the ring h, of which `round` has two turns from the opening on.
// The opened line, the first turn with the bin of the opening again at its end, is finished first. A single segment has nothing to join, and needs no sheet.
pub fn ring(h: &[u32], round: &[u32], closeness: Closeness, modes: &mut Segments<HELD_TWICE>)
    requires in_bounds { (2 ≤ length h.now) × (length h.now ≤ most_ring_bins) × (total h.now ≤ most_ring_counts) × (round.now ≡ two_turns h.now) }
    ensures { held modes.new ≡ ring_modes closeness h.now }
{
    let bins = h.len();
    let end = bins + 1;
    modes.first_segments(&round[..end]);
    if modes.count < 2 {
        return;
    }
    let sheet = Sheet::copied();
    let turns = Line {
        sheet: &sheet,
        bins: round,
        closeness,
    };
    let line = Line {
        bins: &round[..end],
        ..turns
    };
    modes.join_all(&line);
    join_round(modes, &turns, bins);
}
