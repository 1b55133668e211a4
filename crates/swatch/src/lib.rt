// The text of a swatch, and the text of its card.
#![tactic(auto)]

use palette::MOST_ENTRIES;

mod input;
mod printing;

pub use input::read;
pub use printing::{print_card, print_number};

// The most pixels that a swatch may have.
pub const MOST_SWATCH_PIXELS: usize = 16384;

// A line of a swatch: 12 characters and a line feed.
const COLUMNS: usize = 12;

const LINE: usize = COLUMNS + 1;

// The most bytes that a swatch may have: a header and a line for each pixel.
pub const LONGEST_SWATCH: usize = LINE + LINE * MOST_SWATCH_PIXELS;

// The most bytes that a printed card may have: a line of 3 fields, and a line of 8 for each entry.
pub const PRINTED_MOST: usize = 19 + 49 * MOST_ENTRIES;

// Why a text is no swatch: the first of grounds 1, 2 and 3 that holds.
#[derive(Clone, Copy, PartialEq, Eq)]
pub enum Unread {
    Header = 1,
    Size = 2,
    Lines = 3,
}
