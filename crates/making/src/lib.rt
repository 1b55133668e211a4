// The card of an image: its entries, and the entry of each pixel.
#![tactic(auto)]

use palette::{Entry, MOST_ENTRIES};

mod cards;
mod entries;

pub use cards::{Scratch, make_card, make_entries};

// How many entries a card has as defined, and the entries where a card may hold so many; the places past them are zero. The number is promised of a card with too many entries too (`card_entries`), so that no Option of the entries can stand for both.
#[derive(Clone, Copy)]
pub struct CardEntries {
    pub total: u32,
    pub entries: [Entry; MOST_ENTRIES],
}

// What the pixels of an entry come to, channel by channel.
#[derive(Clone, Copy, Default)]
pub struct Sums {
    pub red: u32,
    pub green: u32,
    pub blue: u32,
}
