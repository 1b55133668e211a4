// The entries of a card and the labels of its pixels, from the numbers of the pixels, entry by entry.
ghost use Rattle.std.specs.Prelude.{◌≡◌, ◌≤◌, ◌<◌, ◌*◌, ◌+◌, ◌/◌, length};
ghost use Rattle.lists.specs.Lists.{padded};
ghost use Rattle.palette.specs.Cards.{mean_by, pixels_of, most_entries, no_entry};
ghost use Rattle.palette.specs.Sound.{most_pixels};
ghost use Rattle.dividing.specs.Sorted.{code_count, AllBelow};
ghost use Rattle.dividing.specs.Keeping.{codes_of, sizes_of};
ghost use Rattle.making.specs.Making.{sums_of, largest_byte, SumsFew, labelled, entry_by, entries_by, labels_by, RangesLaid, FiguresLaid};

use crate::Sums;
use dividing::{CodedRange, MODE_BASE, pixel_at};
use labels::label_of;
use palette::{Entry, MOST_ENTRIES, no_entry};
use pixel::Pixel;

impl Sums {
    // One pixel more.
    fn add(&mut self, p: Pixel)
        requires { SumsFew self.old most_pixels }
        ensures { (self.new.red ≡ self.old.red + p.red) × (self.new.green ≡ self.old.green + p.green) × (self.new.blue ≡ self.old.blue + p.blue) }
    {
        self.red += p.red as u32;
        self.green += p.green as u32;
        self.blue += p.blue as u32;
    }
}

// Adds up the pixels of one entry.
fn gather(pixels: &[u8], numbers: &[u16]) -> Sums
    requires { (length numbers.now ≤ most_pixels) × AllBelow numbers.now (length pixels.now / 3) }
    ensures { result ≡ sums_of (pixels_of pixels.now) numbers.now }
{
    let mut sums = Sums::default();
    for number in numbers {
        sums.add(pixel_at(pixels, *number as usize));
    }
    sums
}

// A mean, halves up.
fn mean(total: u32, count: u32) -> u8
    requires { (0 < count) × (count ≤ most_pixels) × (total ≤ largest_byte * count) }
    ensures { result ≡ mean_by total count }
{
    ((2 * total + count) / (2 * count)) as u8
}

fn entry(range: CodedRange, sums: Sums) -> Entry
    requires { (range.code < code_count) × (0 < range.size) × (range.size ≤ most_pixels) × SumsFew sums range.size }
    ensures { result ≡ entry_by range.code range.size sums }
{
    let code = range.code;
    let count = range.size;
    Entry {
        kind: (code / MODE_BASE / MODE_BASE / MODE_BASE) as u8,
        hue: (code / MODE_BASE / MODE_BASE % MODE_BASE) as u8,
        saturation: (code / MODE_BASE % MODE_BASE) as u8,
        intensity: (code % MODE_BASE) as u8,
        red: mean(sums.red, count),
        green: mean(sums.green, count),
        blue: mean(sums.blue, count),
        count,
    }
}

// An entry for each range, of the next of the numbers, as many as its size says.
pub fn entries_of(pixels: &[u8], numbers: &[u16], ranges: &[CodedRange]) -> [Entry; MOST_ENTRIES]
    requires { FiguresLaid pixels.now numbers.now (codes_of ranges.now) (sizes_of ranges.now) }
    ensures { result ≡ padded most_entries no_entry (entries_by (codes_of ranges.now) (sizes_of ranges.now) numbers.now (pixels_of pixels.now)) }
{
    let mut entries = [no_entry(); MOST_ENTRIES];
    let mut at = 0;
    for (k, range) in ranges.iter().enumerate() {
        let end = at + range.size as usize;
        let sums = gather(pixels, &numbers[at..end]);
        entries[k] = entry(*range, sums);
        at = end;
    }
    entries
}

// Gives the pixels of one entry its label.
fn label_range(numbers: &[u16], label: u16, labels: &mut [u16])
    requires { AllBelow numbers.now (length labels.old) }
    ensures { labels.new ≡ labelled label numbers.now labels.old }
{
    for at in numbers {
        labels[*at as usize] = label;
    }
}

// Each entry labels the next of the numbers, as many as its size says.
pub fn write_labels(numbers: &[u16], ranges: &[CodedRange], labels: &mut [u16])
    requires { RangesLaid numbers.now (sizes_of ranges.now) (length labels.old) }
    ensures { labels.new ≡ labels_by (sizes_of ranges.now) numbers.now (length (sizes_of ranges.now)) labels.old }
{
    let mut at = 0;
    for (k, range) in ranges.iter().enumerate() {
        let end = at + range.size as usize;
        label_range(&numbers[at..end], label_of(k), labels);
        at = end;
    }
}
