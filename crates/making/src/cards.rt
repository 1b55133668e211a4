// The card of an image: its entries, and the label of each pixel.
ghost use Rattle.std.specs.Prelude.{◌≡◌, ◌≤◌, ◌<◌, ◌*◌, ◌/◌, MatchOption, length, take};
ghost use Rattle.lists.specs.Lists.{padded};
ghost use Rattle.palette.specs.Cards.{pixels_of, most_entries, no_entry};
ghost use Rattle.palette.specs.Sound.{most_pixels};
ghost use Rattle.dividing.specs.Keeping.{codes_of, sizes_of};
ghost use Rattle.making.specs.Making.{FiguresLaid, PixelsLaid, held_figures, entries_by, card_entries, labels_left};

use crate::CardEntries;
use crate::entries::{entries_of, write_labels};
use dividing::{CodedRange, Found, divide_pixels};
use palette::{Entry, MOST_ENTRIES, MOST_PIXELS, no_entries};
use verdict::Closeness;

// What the entries of an image of at most N pixels are made in: five bytes for each pixel, and the entries that are found.
#[derive(Drop)]
pub struct Scratch<const N: usize> {
    pub order: [u16; N],
    pub other: [u16; N],
    pub keys: [u8; N],
    pub found: Found,
}

impl<const N: usize> Scratch<N> {
    pub fn new() -> Self
        ensures { result.found.count ≡ 0 }
    {
        Scratch {
            order: [0; N],
            other: [0; N],
            keys: [0; N],
            found: Found::new(),
        }
    }
}

// The entries that a card holds, unless they are too many.
fn held(found: &Found) -> Option<&[CodedRange]>
    ensures { MatchOption result (most_entries < found.now.count)
        (λ ranges. (found.now.count ≤ most_entries) × (ranges.now ≡ take found.now.count found.now.ranges)) }
{
    if MOST_ENTRIES < found.count {
        return None;
    }
    Some(&found.ranges[..found.count])
}

// Those entries, made of the numbers of their pixels: none where they are too many.
fn held_entries(pixels: &[u8], numbers: &[u16], found: &Found) -> [Entry; MOST_ENTRIES]
    requires { FiguresLaid pixels.now numbers.now (held_figures found.now.count (codes_of found.now.ranges)) (held_figures found.now.count (sizes_of found.now.ranges)) }
    ensures { result ≡ padded most_entries no_entry
        (entries_by (held_figures found.now.count (codes_of found.now.ranges)) (held_figures found.now.count (sizes_of found.now.ranges)) numbers.now (pixels_of pixels.now)) }
{
    match held(found) {
        Some(ranges) => entries_of(pixels, numbers, ranges),
        None => no_entries(),
    }
}

// The entries, in lent scratch with a place or more for each pixel. The pixels' numbers are left in `order`, entry by entry. With too many entries none is made.
// Written out in its two callers, so that the entries are made where the caller's card lies: called, it and what it calls would hold them several times over while the pixels are divided.
#[inline(always)]
pub fn make_entries(
    pixels: &[u8],
    closeness: Closeness,
    order: &mut [u16],
    other: &mut [u16],
    keys: &mut [u8],
    found: &mut Found,
) -> CardEntries
    requires pixels_len { (length pixels.now ≡ 3 * (length pixels.now / 3)) × (length pixels.now ≤ 3 * most_pixels) }
    requires pixels_in_bounds { (length pixels.now / 3 ≤ length order.old) × (length pixels.now / 3 ≤ length other.old) × (length pixels.now / 3 ≤ length keys.old) }
    ensures { (result ≡ card_entries closeness (pixels_of pixels.now))
        × PixelsLaid closeness (pixels_of pixels.now) order.new (sizes_of found.new.ranges)
        × (result.total ≡ found.new.count) }
{
    let n = pixels.len() / 3;
    found.count = divide_pixels(
        pixels,
        closeness,
        &mut order[..n],
        &mut other[..n],
        &mut keys[..n],
        &mut found.ranges,
    );
    CardEntries {
        total: found.count as u32,
        entries: held_entries(pixels, order, found),
    }
}

// The entries and the labels, in scratch that is made here. With too many entries the labels stay as lent.
pub fn make_card(pixels: &[u8], closeness: Closeness, labels: &mut [u16]) -> CardEntries
    requires { (length pixels.now ≡ 3 * length labels.old) × (length labels.old ≤ most_pixels) }
    ensures { (result ≡ card_entries closeness (pixels_of pixels.now))
        × (labels.new ≡ labels_left closeness (pixels_of pixels.now) labels.old) }
{
    let mut scratch = Scratch::<MOST_PIXELS>::new();
    let made = make_entries(
        pixels,
        closeness,
        &mut scratch.order,
        &mut scratch.other,
        &mut scratch.keys,
        &mut scratch.found,
    );
    if let Some(ranges) = held(&scratch.found) {
        write_labels(&scratch.order, ranges, labels);
    }
    made
}
