// Dividing the pixels of an image by sorting their numbers: by kind, hue mode, saturation mode and intensity mode. A node is a range of the sorted numbers.
#![tactic(auto)]

ghost use Rattle.std.specs.Prelude.{◌≡◌, ◌≤◌, take};
ghost use Rattle.dividing.specs.Sorted.{mode_base};

use verdict::Closeness;

mod divide;
mod keeping;
mod kinds;
mod levels;
mod measuring;
mod modes;
mod sorting;

pub use divide::divide_pixels;
pub use keeping::{CodedRange, Found};
pub use levels::Level;
pub use measuring::pixel_at;

// The base of an entry's code, whose digits are its kind and its mode numbers: every level has fewer modes than this.
pub const MODE_BASE: u32 = 64;

const MODES: usize = MODE_BASE as usize;

// A range that may still be divided, at a closeness: the level that comes next, if one is left, and the code so far (its kind and the modes chosen).
#[derive(Clone, Copy)]
pub struct Node {
    pub closeness: Closeness,
    pub next: Option<Level>,
    pub code: u32,
}

// The modes of a level: how many there are, and how many pixels each has.
#[derive(Clone, Copy)]
pub struct Parts {
    pub count: usize,
    pub sizes: [u32; MODES],
}

impl Parts {
    // The sizes of the modes that there are.
    fn used(&self) -> &[u32]
        requires { self.now.count ≤ mode_base }
        ensures { result.now ≡ take self.now.count self.now.sizes }
    {
        &self.sizes[..self.count]
    }
}
