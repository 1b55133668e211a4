// The bins of a range of pixels by one of the three measures, each kept and counted in the same pass.
ghost use Rattle.std.specs.Prelude.{◌≡◌, ◌*◌, ◌+◌, ◌<◌, ◌≤◌, false, refl, length};
ghost use Rattle.lists.specs.Lists.{total};
ghost use Rattle.pixel.specs.declared.Pixel.{Pixel};
ghost use Rattle.pixel.specs.Colour.{is_grey};
ghost use Rattle.pixel.specs.Root.{Rooted, root_count};
ghost use Rattle.palette.specs.Levels.{Level, hue, saturation, intensity, bin_count, bin_of};
ghost use Rattle.palette.specs.Cards.{pixels_of};
ghost use Rattle.palette.specs.Sound.{pixel_at, most_pixels};
ghost use Rattle.dividing.specs.Numbering.{BinsNumbered};
ghost use Rattle.dividing.specs.Splitting.{AllIn, AllSuch, BinsCounted};

use crate::modes::{hue_modes, line_modes};
use pixel::{
    HUES, INTENSITIES, Pixel, ROOTS, SATURATIONS, hue_of, intensity_bin, roots, saturation_by,
    turned_back,
};
use verdict::Closeness;

// A measure by which the pixels of a range are divided: the bin of each, and the modes of the bins' histogram.
pub trait Measure<const BINS: usize> {
    // Its level of a card.
    ghost level: { Level };

    // The pixels that are measured by it.
    ghost takes: { Pixel → Type 0 };

    fn bin(&self, p: Pixel) -> u8
        requires { takes p }
        ensures { result ≡ bin_of level p };

    // How many modes there are, and each bin's.
    fn modes(&self, h: &[u32], closeness: Closeness, modes: &mut [u8]) -> usize
        requires { (length h.now ≡ bin_count level) × (total h.now ≤ most_pixels) × (length modes.old ≡ bin_count level) }
        ensures { BinsNumbered closeness level h.now modes.new result };

    ghost bins: { BINS ≡ bin_count level };
}

// A colour's hue. Greys have none, so that no test for grey is made again.
#[derive(Clone, Copy)]
pub struct Hue;

impl Measure<HUES> for Hue {
    ghost level = { hue };

    ghost takes = { λ p. is_grey p ≡ false };

    ghost bins = { refl };

    fn bin(&self, p: Pixel) -> u8 {
        hue_of(turned_back(p))
    }

    fn modes(&self, h: &[u32], closeness: Closeness, modes: &mut [u8]) -> usize {
        hue_modes(h, closeness, modes)
    }
}

// The saturation, which is read from a table of roots that is made once for a range.
#[derive(Drop)]
pub struct Saturation {
    roots: [u8; ROOTS],
    ghost made: { Rooted roots root_count },
}

impl Saturation {
    pub fn new() -> Self {
        Saturation { roots: roots() }
    }
}

impl Measure<SATURATIONS> for Saturation {
    ghost level = { saturation };

    ghost takes = { λ _. Unit {0} };

    ghost bins = { refl };

    fn bin(&self, p: Pixel) -> u8 {
        saturation_by(&self.roots, p)
    }

    fn modes(&self, h: &[u32], closeness: Closeness, modes: &mut [u8]) -> usize {
        line_modes(h, closeness, modes)
    }
}

#[derive(Clone, Copy)]
pub struct Intensity;

impl Measure<INTENSITIES> for Intensity {
    ghost level = { intensity };

    ghost takes = { λ _. Unit {0} };

    ghost bins = { refl };

    fn bin(&self, p: Pixel) -> u8 {
        intensity_bin(p)
    }

    fn modes(&self, h: &[u32], closeness: Closeness, modes: &mut [u8]) -> usize {
        line_modes(h, closeness, modes)
    }
}

pub fn pixel_at(pixels: &[u8], i: usize) -> Pixel
    requires { 3 * i + 2 < length pixels.now }
    ensures { result ≡ pixel_at (pixels_of pixels.now) i }
{
    let at = 3 * i;
    Pixel {
        red: pixels[at],
        green: pixels[at + 1],
        blue: pixels[at + 2],
    }
}

pub fn histogram<const BINS: usize, M: Measure<BINS>>(
    measure: &M,
    pixels: &[u8],
    order: &[u16],
    keys: &mut [u8],
) -> [u32; BINS]
    requires { (length order.now ≡ length keys.old) × (length keys.old ≤ most_pixels) × AllIn order.now pixels.now
        × AllSuch M.takes order.now pixels.now }
    ensures { BinsCounted (pixels_of pixels.now) M.level order.now keys.new result }
{
    let mut h = [0u32; BINS];
    for (i, number) in order.iter().enumerate() {
        let bin = measure.bin(pixel_at(pixels, *number as usize));
        keys[i] = bin;
        h[bin as usize] += 1;
    }
    h
}
