// The text of a swatch read, and the text of its card printed.
ghost use Rattle.std.specs.Prelude.{◌≡◌, ◌≤◌, ◌*◌, ◌/◌, length};
ghost use Rattle.palette.specs.Cards.{pixels_of};
ghost use Rattle.making.specs.Making.{card_entries};
ghost use Rattle.swatch.specs.Output.{printed_most};
ghost use Rattle.swatch.specs.Reading.{most_swatch_pixels};
ghost use Rattle.kistrovu.specs.Texts.{PixelsPrinted, TextPrinted};

use grounds::Ground;
use making::{CardEntries, Scratch};
use palette::MOST_ENTRIES;
use swatch::MOST_SWATCH_PIXELS;
use verdict::Closeness;

// The closeness that every text is worked at, and that is printed.
const PROGRAM_CLOSENESS: u32 = 0;

// The entries of a swatch, in scratch for as many pixels as it may have: a quarter of what the largest image asks. A text has no labels.
fn swatch_entries(pixels: &[u8], closeness: Closeness) -> CardEntries
    requires { (length pixels.now ≡ 3 * (length pixels.now / 3)) × (length pixels.now ≤ 3 * most_swatch_pixels) }
    ensures { result ≡ card_entries closeness (pixels_of pixels.now) }
{
    let mut scratch = Scratch::<MOST_SWATCH_PIXELS>::new();
    making::make_entries(
        pixels,
        closeness,
        &mut scratch.order,
        &mut scratch.other,
        &mut scratch.keys,
        &mut scratch.found,
    )
}

// The card of a swatch, printed: how many bytes it has.
fn print_pixels(pixels: &[u8], out: &mut [u8]) -> Result<u32, Ground>
    requires { (length pixels.now ≡ 3 * (length pixels.now / 3)) × (length pixels.now ≤ 3 * most_swatch_pixels) × (printed_most ≤ length out.old) }
    ensures { PixelsPrinted pixels.now out.old out.new result }
{
    let n = pixels.len() / 3;
    let made = swatch_entries(pixels, Closeness::new(PROGRAM_CLOSENESS as i32));
    if MOST_ENTRIES < made.total as usize {
        return Err(Ground::Entries);
    }
    let entries = &made.entries[..made.total as usize];
    Ok(swatch::print_card(n as u32, PROGRAM_CLOSENESS, entries, out) as u32)
}

// The same in lent scratch for the pixels.
fn print_in(text: &[u8], pixels: &mut [u8], out: &mut [u8]) -> Result<u32, Ground>
    requires { (length pixels.old ≡ 3 * most_swatch_pixels) × (printed_most ≤ length out.old) }
    ensures { TextPrinted text.now out.old out.new result }
{
    let n = swatch::read(text, pixels)?;
    print_pixels(&pixels[..3 * n as usize], out)
}

// Reads the text of a swatch and prints its card into the first places of `out`: how many bytes it has.
pub fn print(text: &[u8], out: &mut [u8]) -> Result<u32, Ground>
    requires { printed_most ≤ length out.old }
    ensures { TextPrinted text.now out.old out.new result }
{
    let mut pixels = [0u8; 3 * MOST_SWATCH_PIXELS];
    print_in(text, &mut pixels, out)
}
