// The modes of a ring of bins: those of the line that it is opened to, joined all round.
#![tactic(auto)]

ghost use Rattle.std.specs.Prelude.{◌≡◌, map, ◌≤◌, length};
ghost use Rattle.lists.specs.Lists.{total, over};
ghost use Rattle.pooling.specs.Limits.{most_ring_bins, most_ring_counts};
ghost use Rattle.segmentation.specs.Ring.{opening, ring_modes};

use pooling::MOST_BINS;
use segmentation::Segments;
use turns::{lowest_bin, ring, write_turns};
use verdict::Closeness;

mod rounds;
mod turns;

// The bins of the largest ring, of two turns of it, and as many members as are held of its modes twice over.
pub const MOST_RING_BINS: usize = MOST_BINS - 1;

const TWO_TURNS: usize = MOST_RING_BINS + MOST_RING_BINS;

const HELD_TWICE: usize = MOST_BINS + MOST_BINS;

// A ring by its modes: the bin at which it is opened, and how many modes there are.
#[derive(Clone, Copy)]
pub struct Opened {
    pub opening: usize,
    pub modes: usize,
}

// Writes where the modes of a ring start, by places from its opening on. Returns the opening, and how many modes there are.
pub fn ring_modes(h: &[u32], closeness: Closeness, places: &mut [u32]) -> Opened
    requires in_bounds { (2 ≤ length h.now) × (length h.now ≤ most_ring_bins) × (total h.now ≤ most_ring_counts) }
    requires h_in_bounds { length h.now ≤ length places.old }
    ensures { (result.opening ≡ opening h.now) × (result.modes ≡ length (ring_modes closeness h.now))
        × (places.new ≡ over (map (λ s. s.start) (ring_modes closeness h.now)) places.old) }
{
    let mut round = [0u32; TWO_TURNS];
    let mut modes = Segments::<HELD_TWICE>::new();
    let opening = lowest_bin(h);
    write_turns(h, opening, &mut round);
    ring(h, &round[..h.len() + h.len()], closeness, &mut modes);
    let n = modes.count;
    places[..n].copy_from_slice(&modes.separators[..n]);
    Opened { opening, modes: n }
}
