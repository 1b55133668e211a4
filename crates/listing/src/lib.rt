// The list of a ring call: the bins where the ring's modes start, from the lowest number up. A card is made without it.
// The places where the modes start, counted from the opening on, rise from mode to mode. So do their bins up to the last bin of the ring; past it the numbers begin again with 0, and these bins come
// first in the list.
#![tactic(auto)]

ghost use Rattle.std.specs.Prelude.{◌≡◌, ◌+◌, ◌%◌, ◌≤◌, ◌<◌, length};
ghost use Rattle.lists.specs.Lists.{total, first_index, over};
ghost use Rattle.pooling.specs.Limits.{most_ring_bins, most_ring_counts};
ghost use Rattle.listing.specs.Listing.{ring_separators};
ghost use Rattle.listing.specs.Numbers.{past_last, bins_from};

use ring::Ring;
use rings::{MOST_RING_BINS, ring_modes};
use verdict::Closeness;

mod ring;

// The number of the first place that lies past the last bin; if none does, how many places there are.
fn first_past_last(places: &[u32], ring: Ring) -> usize
    ensures { result ≡ first_index (past_last ring.opening ring.bins) places.now }
{
    places
        .iter()
        .position(|place| ring.is_past_last(*place))
        .unwrap_or(places.len())
}

// Which of n modes is listed at number i: the list goes from mode `from` on, and after the last mode on with the first.
fn listed_mode(i: usize, from: usize, n: usize) -> usize
    requires { (i < n) × (from ≤ n) × (n ≤ most_ring_bins) }
    ensures { result ≡ (from + i) % n }
{
    (from + i) % n
}

// Writes the bins at these places into the first places of the list: first those from number `from` on, then those before it.
fn write_numbers(places: &[u32], from: usize, ring: Ring, list: &mut [u32])
    requires from_in_bounds { (from ≤ length places.now) × (length places.now ≤ length list.old) × (length places.now ≤ most_ring_bins) }
    ensures { list.new ≡ over (bins_from ring.opening ring.bins from places.now) list.old }
{
    let n = places.len();
    for i in 0..n {
        list[i] = ring.bin_at(places[listed_mode(i, from, n)]);
    }
}

// Writes the separators of a ring, from the lowest bin number up. Returns how many there are.
pub fn ring_separators(h: &[u32], closeness: Closeness, list: &mut [u32]) -> u32
    requires in_bounds { (2 ≤ length h.now) × (length h.now ≤ most_ring_bins) × (total h.now ≤ most_ring_counts) }
    requires h_in_bounds { length h.now ≤ length list.old }
    ensures { (result ≡ length (ring_separators closeness h.now))
        × (list.new ≡ over (ring_separators closeness h.now) list.old) }
{
    let mut places = [0u32; MOST_RING_BINS];
    let found = ring_modes(h, closeness, &mut places);
    let starts = &places[..found.modes];
    let ring = Ring {
        opening: found.opening,
        bins: h.len(),
    };
    let from = first_past_last(starts, ring);
    write_numbers(starts, from, ring, list);
    found.modes as u32
}
