// All pixels divided: the greys by intensity, the colours by hue, saturation and intensity.
ghost use Rattle.std.specs.Prelude.{◌≡◌, ◌≤◌, ◌*◌, length};
ghost use Rattle.palette.specs.Cards.{pixels_of};
ghost use Rattle.palette.specs.Sound.{most_pixels};
ghost use Rattle.dividing.specs.Splitting.{left_of, resting, Kept, Divisible};
ghost use Rattle.dividing.specs.Kinds.{leaves_some, PixelsDivided};

use crate::Node;
use crate::keeping::CodedRange;
use crate::kinds::sort_kinds;
use crate::levels::{LAST_LEVEL, Level, split};
use crate::sorting::copy;
use verdict::Closeness;

// The kinds, by the first digit of a code.
#[derive(Clone, Copy)]
enum Kind {
    Grey = 0,
    Colour = 1,
}

// Splits a range, if it has pixels: how many entries are found then.
fn split_some(
    node: Node,
    pixels: &[u8],
    order: &mut [u16],
    other: &mut [u16],
    keys: &mut [u8],
    ranges: &mut [CodedRange],
    found: usize,
) -> usize
    requires { Divisible node pixels.now order.old other.old keys.old found }
    ensures { Kept (leaves_some node.closeness (pixels_of pixels.now) (left_of node.next) node.code order.old) found
        ranges.old ranges.new (resting (left_of node.next) order.new other.new) result }
{
    if order.len() == 0 {
        return found;
    }
    split(node, pixels, order, other, keys, ranges, found)
}

// Divides the pixels: how many entries there are. They are kept in `ranges` as far as there is room; their pixels' numbers are left in `order`, entry by entry.
// The greys' numbers stand at the front of `order` and are sorted into the end of `other`; the colours' stand at the front of `other` and are sorted into the end of `order`.
pub fn divide_pixels(
    pixels: &[u8],
    closeness: Closeness,
    order: &mut [u16],
    other: &mut [u16],
    keys: &mut [u8],
    ranges: &mut [CodedRange],
) -> usize
    requires { (length pixels.now ≡ 3 * length order.old) × (length order.old ≡ length other.old) × (length keys.old ≡ length order.old) × (length order.old ≤ most_pixels) }
    ensures { PixelsDivided closeness (pixels_of pixels.now) ranges.old ranges.new order.new result }
{
    let mut found = 0;
    let greys = sort_kinds(pixels, order, other);
    let colours = order.len() - greys;
    let grey = Node {
        closeness,
        next: LAST_LEVEL,
        code: Kind::Grey as u32,
    };
    found = split_some(
        grey,
        pixels,
        &mut order[..greys],
        &mut other[colours..],
        keys,
        ranges,
        found,
    );
    let colour = Node {
        closeness,
        next: Some(Level::Hue),
        code: Kind::Colour as u32,
    };
    found = split_some(
        colour,
        pixels,
        &mut other[..colours],
        &mut order[greys..],
        keys,
        ranges,
        found,
    );
    copy(&other[colours..], &mut order[..greys]);
    found
}
