// What a card is made of: its entries, and the limits on entries and pixels. specs/ defines what a card is; the crate `making` has the code that makes one.
#![tactic(auto)]

ghost use Rattle.std.specs.Prelude.{◌≡◌, []};
ghost use Rattle.lists.specs.Lists.{padded};
ghost use Rattle.palette.specs.Cards.{most_entries, no_entry};

// The most entries that a card may hold.
pub const MOST_ENTRIES: usize = 1000;

// The most pixels that a call takes.
pub const MOST_PIXELS: usize = 65536;

// An entry of a card: kind 0 for greys and 1 for colours, its three mode numbers, the mean colour of its pixels, and their count.
#[repr(C)]
#[derive(Clone, Copy, Default)]
pub struct Entry {
    pub kind: u8,
    pub hue: u8,
    pub saturation: u8,
    pub intensity: u8,
    pub red: u8,
    pub green: u8,
    pub blue: u8,
    pub count: u32,
}

pub fn no_entry() -> Entry
    ensures { result ≡ no_entry }
{
    Entry::default()
}

// The places of a card without entries.
pub fn no_entries() -> [Entry; MOST_ENTRIES]
    ensures { result ≡ padded most_entries no_entry [] }
{
    [no_entry(); MOST_ENTRIES]
}
