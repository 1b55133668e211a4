// Joins all round a ring. Its modes are held by places from the opening on, and for a search twice over: a place a turn later is the same bin.
ghost use Rattle.std.specs.Prelude.{◌≡◌, ◌+◌, ◌-◌, ◌≤◌, ◌<◌, true, length};
ghost use Rattle.pooling.specs.Limits.{most_bins};
ghost use Rattle.segmentation.specs.Joining.{join_all};
ghost use Rattle.segmentation.specs.Around.{twice, next_round, join_twice, ring_joins};
ghost use Rattle.segmentation.specs.Held.{held, join_found};
ghost use Rattle.segmentation.specs.Runs.{reader_of, held_for, NoneAmong};
ghost use Rattle.rings.specs.Twice.{RingHeld, EachTo, Repeated};

use crate::HELD_TWICE;
use segmentation::{Join, Line, Search, Segments, shift};

// Writes the n members from place `from` on again behind them, `by` more each.
fn repeat(a: &mut [u32], from: usize, n: usize, by: usize)
    requires { (from + n + n ≤ length a.old) × (by ≤ most_bins) × EachTo (most_bins + most_bins) a.old from n }
    ensures { Repeated a.old a.new from n by }
{
    for k in 0..n {
        a[from + n + k] = a[from + k] + by as u32;
    }
}

// Joins a run of the modes, which are held twice over.
// If the run goes past the last mode, the turn that begins behind it is first moved to the front.
fn apply_round(modes: &mut Segments<HELD_TWICE>, j: Join)
    requires { (2 ≤ j.len) × (j.len ≤ modes.old.count) × (j.first < modes.old.count) × (modes.old.count < most_bins) }
    ensures { (held modes.new ≡ join_twice (held_for true modes.old) modes.old.count j)
        × (modes.new.count ≡ modes.old.count - (j.len - 1)) }
{
    let n = modes.count;
    let past = (j.first + j.len).saturating_sub(n);
    shift(&mut modes.separators, 0, past, past + n + 1);
    shift(&mut modes.peaks, 0, past, past + n);
    modes.apply(Join {
        first: j.first - past,
        ..j
    });
}

// The join that comes next anywhere round the ring, if there is one. Leaves the modes as they are, and held twice over. With `apply_round`, which makes the join,
// this is one step of joining. No run of the first `known` modes is joinable.
fn next_round(
    modes: &mut Segments<HELD_TWICE>,
    turns: &Line,
    bins: usize,
    known: usize,
) -> Option<Join>
    requires ring_held { RingHeld turns.now modes.old bins }
    requires none_among { NoneAmong turns.now.closeness (reader_of turns.now) (held modes.old) known × (known ≤ modes.old.count) }
    ensures next { join_found result ≡ next_round turns.now.closeness (reader_of turns.now) bins (held modes.old) }
    ensures held { (modes.new.count ≡ modes.old.count) × (held modes.new ≡ held modes.old) }
    ensures again { held_for true modes.new ≡ twice bins (held modes.old) }
{
    let n = modes.count;
    repeat(&mut modes.separators, 1, n, bins);
    repeat(&mut modes.peaks, 0, n, bins);
    let all = Search { round: true, known };
    modes.next_join(turns, all)
}

// Joins the modes of a finished line until no run is joinable anywhere round its ring.
// None of the line's own runs is joinable, so the first run that is goes past the opening, and its mode becomes the last. All others are modes of the line still, and no run
// of them alone is joinable. So each join has the last mode in it, and only runs that have it are looked at.
pub fn join_round(modes: &mut Segments<HELD_TWICE>, turns: &Line, bins: usize)
    requires ring_held { RingHeld turns.now modes.old bins }
    requires none_among { NoneAmong turns.now.closeness (reader_of turns.now) (held modes.old) modes.old.count }
    ensures { (held modes.new ≡ join_all modes.old.count (ring_joins turns.now.closeness (reader_of turns.now) bins) (held modes.old))
        × (modes.new.count ≤ modes.old.count) }
{
    let mut known = modes.count;
    while let Some(join) = next_round(modes, turns, bins, known) {
        apply_round(modes, join);
        known = modes.count - 1;
    }
}
