// The modes of a line of bins. The first segments are cut at the valleys; they are joined as long as a run of them is joinable. The search goes round a ring too.
#![tactic(auto)]

ghost use Rattle.std.specs.Prelude.{◌≡◌, ◌<◌, length};

use logarithm::Sheet;
use verdict::Closeness;

mod first;
mod joins;
mod lines;
mod runs;

pub use first::first_segments;
pub use joins::{apply, join_all, next_on_line, shift};
pub use lines::line_separators;
pub use runs::next_join;

// A run of len segments, from segment number `first` on, that may be joined: whether by its rise or by its fall, and at what cost.
#[derive(Clone, Copy)]
pub struct Join {
    pub first: usize,
    pub len: usize,
    pub rise: bool,
    pub cost: i64,
}

// The segments of a line or of a ring, in their order. Segment i goes from separator i to separator i + 1 and has peak i, so the first count + 1 separators
// and the first count peaks say all. A search round a ring also reads the places behind them, where its modes are held a second time.
#[derive(Drop)]
pub struct Segments<const N: usize> {
    pub separators: [u32; N],
    pub peaks: [u32; N],
    pub count: usize,
    pub ghost room: { (length separators ≡ N) × (length peaks ≡ N) × (count < N) },
}

impl<const N: usize> Segments<N> {
    // No segments yet.
    pub fn new() -> Self
        requires { 0 < N }
        ensures { result.count ≡ 0 }
    {
        Segments {
            separators: [0; N],
            peaks: [0; N],
            count: 0,
        }
    }
}

// A line of bins whose segments are joined at a closeness, and the sheet that costs are found by. A ring is read as one too, by two of its turns.
#[derive(Clone, Copy)]
pub struct Line<'a> {
    pub sheet: &'a Sheet,
    pub bins: &'a [u32],
    pub closeness: Closeness,
}

// How a search goes through segments: round a ring or along a line (the definition of the next join takes the same test). No run of the first `known` of
// them is joinable, so those runs are passed over.
#[derive(Clone, Copy)]
pub struct Search {
    pub round: bool,
    pub known: usize,
}
