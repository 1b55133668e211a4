// The parts of a stretch: what is kept about the stretch while its parts are tested, and the fitted mass of a part.
ghost use Rattle.std.specs.Prelude.{◌≡◌, suc, ◌≤◌, ◌<◌, length};
ghost use Rattle.lists.specs.Lists.{total, part};
ghost use Rattle.pooling.specs.Blocks.{direction, blocks};
ghost use Rattle.pooling.specs.Limits.{most_bins, most_counts, Small};
ghost use Rattle.verdict.specs.Test.{place_of, mass_within, mass_of_three, mass_across, fitted_mass};
ghost use Rattle.verdict.specs.Scratch.{RunningTotals, Across, Scratch, Visits, first_of, end_of, start_of};

use crate::Mass;
use pooling::{Block, MOST_BINS, Place};

// There is a running total before each bin of a stretch, and one of all bins.
pub const MOST_TOTALS: usize = MOST_BINS + 1;

// The sum of the counts before each bin, and in the place after the last bin the sum of all.
pub fn running_totals(h: &[u32], before: &mut [u32; MOST_TOTALS])
    requires small { Small h.now }
    requires before_len { length before.old ≡ suc most_bins }
    ensures { RunningTotals h.now before.new }
{
    let mut sum: u32 = 0;
    before[0] = 0;
    for (i, x) in h.iter().enumerate() {
        sum += *x;
        before[i + 1] = sum;
    }
}

// A part within one block: the bins of the part, each at the mean of the block.
fn mass_within(p: Place, i: usize, j: usize) -> Mass
    requires { (i ≤ j) × (j < most_bins) × (p.block.sum ≤ most_counts) }
    ensures { result ≡ mass_within p i j }
{
    Mass {
        num: ((j + 1 - i) as u64) * u64::from(p.block.sum),
        den: u64::from(p.block.len),
    }
}

// `tail` bins of a first block, the counts between, and `head` bins of a last block, over the product of the two blocks' lengths.
fn mass_of_three(tail: u64, first: Block, between: u64, head: u64, last: Block) -> Mass
    requires first_in_bounds { (tail ≤ most_bins) × (first.sum ≤ most_counts) × (first.len ≤ most_bins) × (between ≤ most_counts) }
    requires last_in_bounds { (head ≤ most_bins) × (last.sum ≤ most_counts) × (last.len ≤ most_bins) }
    ensures { result ≡ mass_of_three tail first.sum first.len between head last.sum last.len }
{
    let len = u64::from(first.len);
    let last_len = u64::from(last.len);
    let product = len * last_len;
    Mass {
        num: tail * u64::from(first.sum) * last_len
            + between * product
            + head * u64::from(last.sum) * len,
        den: product,
    }
}

// Which parts a turn of the search visits: those within one block, or those across blocks.
#[derive(Clone, Copy)]
pub enum Turn {
    WithinBlocks,
    AcrossBlocks,
}

impl Turn {
    // Of the parts that end at bin j, whose block begins at `start`, a turn visits those that begin from here up to, but not including, `end_of`.
    pub fn first_of(self, start: usize) -> usize
        ensures { result ≡ first_of self start }
    {
        match self {
            Turn::WithinBlocks => start,
            Turn::AcrossBlocks => 0,
        }
    }

    pub fn end_of(self, start: usize, j: usize) -> usize
        requires { j < most_bins }
        ensures { result ≡ end_of self start j }
    {
        match self {
            Turn::WithinBlocks => j + 1,
            Turn::AcrossBlocks => start,
        }
    }
}

// A stretch whose parts are tested, with the counts before each of its bins and each bin's place. `rising` is a flag as in the calls for C, which have a bool there.
#[derive(Drop)]
pub struct Stretch<'a> {
    pub h: &'a [u32],
    pub rising: bool,
    pub before: &'a [u32; MOST_TOTALS],
    pub places: &'a [Place; MOST_BINS],
    ghost held: { Scratch (direction rising) h.now before.now places.now },
}

impl Stretch<'_> {
    // How many counts the stretch has.
    pub fn counts(&self) -> u64
        ensures { result ≡ total self.now.h.now }
    {
        u64::from(self.before[self.h.len()])
    }

    // How many counts the part from bin i to bin j has.
    pub fn part_counts(&self, i: usize, j: usize) -> u64
        requires { (i ≤ j) × (j < length self.now.h.now) }
        ensures { result ≡ total (part i j self.now.h.now) }
    {
        u64::from(self.before[j + 1] - self.before[i])
    }

    // The place of bin i.
    fn place(&self, i: usize) -> Place
        requires { i < length self.now.h.now }
        ensures { result ≡ place_of (blocks (direction self.now.rising) self.now.h.now) i }
    {
        self.places[i]
    }

    // The first bin of the block of bin i.
    pub fn start(&self, i: usize) -> usize
        requires { i < length self.now.h.now }
        ensures { result ≡ start_of self.now.places.now i }
    {
        self.places[i].start as usize
    }

    // A part across blocks: the tail of the first block, the counts between, and the head of the last block.
    fn mass_across(&self, p: Place, q: Place, i: usize, j: usize) -> Mass
        requires { Across self.now.h.now p q i j }
        ensures { result ≡ mass_across self.now.h.now p q i j }
    {
        let start = q.start as usize;
        let next = (p.start + p.block.len) as usize;
        let between = u64::from(self.before[start] - self.before[next]);
        let tail = (next - i) as u64;
        let head = (j + 1 - start) as u64;
        mass_of_three(tail, p.block, between, head, q.block)
    }

    // The fitted mass of the part from bin i to bin j, which the turn visits.
    pub fn part_mass(&self, turn: Turn, i: usize, j: usize) -> Mass
        requires { Visits turn self.now.places.now (length self.now.h.now) i j }
        ensures { result ≡ fitted_mass self.now.h.now (blocks (direction self.now.rising) self.now.h.now) i j }
    {
        let q = self.place(j);
        match turn {
            Turn::WithinBlocks => mass_within(q, i, j),
            Turn::AcrossBlocks => self.mass_across(self.place(i), q, i, j),
        }
    }
}
