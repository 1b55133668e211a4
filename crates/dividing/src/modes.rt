// The modes that the bins of a histogram lie in.
ghost use Rattle.std.specs.Prelude.{◌≡◌, ◌+◌, ◌≤◌, ◌<◌, length};
ghost use Rattle.lists.specs.Lists.{total};
ghost use Rattle.palette.specs.Levels.{hue, intensity, bin_count};
ghost use Rattle.palette.specs.Sound.{most_pixels};
ghost use Rattle.dividing.specs.Sorted.{mode_base};
ghost use Rattle.dividing.specs.Numbering.{Rises, ModeBefore, ModeAt, PlacesNumbered, BinsNumbered, LineNumbered};

use pixel::{HUES, INTENSITIES};
use rings::ring_modes;
use segmentation::line_separators;
use verdict::Closeness;

// The mode after mode m of so many: after the last comes the first, round the ring.
fn mode_after(m: usize, count: usize) -> usize
    requires { m < count }
    ensures { (result < count) × (m + 1 < count → result ≡ m + 1) × (m + 1 ≡ count → result ≡ 0) }
{
    if m + 1 < count {
        return m + 1;
    }
    0
}

// The mode at place i: the one at the place before, or the one after that where it begins here.
fn mode_at(separators: &[u32], m: usize, i: usize) -> usize
    requires { Rises separators.now × ModeBefore separators.now m i }
    ensures { ModeAt separators.now result i }
{
    let next = mode_after(m, separators.len());
    if separators[next] as usize == i {
        return next;
    }
    m
}

// Gives each bin its mode. The modes start at the separators; place i is bin opening + i, round the ring. The places before the first separator lie in the last mode.
fn number_bins(separators: &[u32], opening: usize, modes: &mut [u8])
    requires { Rises separators.now × (length separators.now ≤ mode_base) × (opening < length modes.old) × (length modes.old ≤ bin_count hue) }
    ensures { PlacesNumbered separators.now opening modes.new }
{
    let bins = modes.len();
    let mut m = separators.len() - 1;
    for i in 0..bins {
        m = mode_at(separators, m, i);
        modes[(opening + i) % bins] = m as u8;
    }
}

// The modes of a line of bins: how many there are, and each bin's.
pub fn line_modes(h: &[u32], closeness: Closeness, modes: &mut [u8]) -> usize
    requires { (2 ≤ length h.now) × (length h.now ≤ bin_count intensity) × (total h.now ≤ most_pixels) × (length modes.old ≡ length h.now) }
    ensures { LineNumbered closeness h.now modes.new result }
{
    let mut separators = [0u32; INTENSITIES];
    let n = line_separators(h, closeness, &mut separators) as usize - 1;
    number_bins(&separators[..n], 0, modes);
    n
}

// The hue bins are a ring.
pub fn hue_modes(h: &[u32], closeness: Closeness, modes: &mut [u8]) -> usize
    requires { (length h.now ≡ bin_count hue) × (total h.now ≤ most_pixels) × (length modes.old ≡ bin_count hue) }
    ensures { BinsNumbered closeness hue h.now modes.new result }
{
    let mut places = [0u32; HUES];
    let found = ring_modes(h, closeness, &mut places);
    let n = found.modes;
    number_bins(&places[..n], found.opening, modes);
    n
}
