// Pooling: the blocks of a monotone fit, and each bin's place in them.
#![tactic(auto)]

ghost use Rattle.std.specs.Prelude.{◌≡◌, ◌+◌, ◌<◌, ◌≤◌, length, drop, map};
ghost use Rattle.lists.specs.Lists.{over};
ghost use Rattle.pooling.specs.Blocks.{Block, direction, steps_to, blocks, fitted};
ghost use Rattle.pooling.specs.Blocks as Blocks;
ghost use Rattle.pooling.specs.Limits.{most_bins, most_counts, Small};
ghost use Rattle.pooling.specs.Best.{Pooled};
ghost use Rattle.pooling.specs.Stack.{stack_of, sum_in, bins_in, HeldFrom};

// The most bins that a stretch is allowed: those of a full turn of the largest ring, with the bin of a separator at both ends.
pub const MOST_BINS: usize = 257;

// A block of neighbouring bins. Its sum and length stand for its mean, sum / len.
#[derive(Clone, Copy)]
pub struct Block {
    pub sum: u32,
    pub len: u32,
}

// A bin's place: its block, and the number of that block's first bin.
#[derive(Clone, Copy)]
pub struct Place {
    pub start: u32,
    pub block: Block,
}

// Whether the step from the mean of a to the mean of b is strictly in the direction of the fit.
fn steps_to(rising: bool, a: &Block, b: &Block) -> bool
    requires { (a.now.sum ≤ most_counts) × (a.now.len ≤ most_bins) × (b.now.sum ≤ most_counts) × (b.now.len ≤ most_bins) }
    ensures { result ≡ steps_to (direction rising) a.now b.now }
{
    if rising {
        a.sum * b.len < b.sum * a.len
    } else {
        b.sum * a.len < a.sum * b.len
    }
}

// The blocks are pooled on a stack, which lies in the last of as many places as there are bins. `fit_places` lends the places that it writes: memory of its own would have to be cleared for each fit. The
// block on top, the first in the order of the bins, is in place `top`.

// Pushes a block, merged with those on top while the step to them is not strict. Returns where the top is then.
fn push(places: &mut [Place], top: usize, rising: bool, bin: Block) -> usize
    requires room { (0 < top) × (top ≤ length places.old) }
    requires counts { sum_in (stack_of places.old top) + bin.sum ≤ most_counts }
    requires bins { bins_in (stack_of places.old top) + bin.len ≤ most_bins }
    ensures within { result ≤ length places.old }
    ensures pushed { stack_of places.new result ≡ Blocks.push (direction rising) bin (stack_of places.old top) }
{
    let mut block = bin;
    let mut next = top;
    // how many blocks go from the top depends on their means
    while next < places.len() {
        let on_top = &places[next].block;
        if steps_to(rising, &block, on_top) {
            break;
        }
        block = Block {
            sum: block.sum + on_top.sum,
            len: block.len + on_top.len,
        };
        next += 1;
    }
    // each figure is stored by itself: to store the block at once, its figures would first be shifted into one word, which takes a tenth of the time of a long fit
    places[next - 1].block.sum = block.sum;
    places[next - 1].block.len = block.len;
    next - 1
}

// A step: takes bin i, the next below the bins taken so far. Returns where the top is then.
fn take_bin(h: &[u32], rising: bool, i: usize, places: &mut [Place], top: usize) -> usize
    requires small { Small h.now }
    requires as_many { length places.old ≡ length h.now }
    requires in_bounds { (i < length h.now) × (top ≤ length places.old) }
    requires held { HeldFrom (direction rising) h.now (i + 1) (stack_of places.old top) }
    ensures within { result ≤ length places.old }
    ensures held { HeldFrom (direction rising) h.now i (stack_of places.new result) }
    ensures pooled { Pooled (direction rising) (drop i h.now) }
{
    push(places, top, rising, Block { sum: h[i], len: 1 })
}

// Takes all bins, from the last to the first. Returns where the top is.
fn pool(h: &[u32], rising: bool, places: &mut [Place]) -> usize
    requires small { Small h.now }
    requires as_many { length places.old ≡ length h.now }
    ensures within { result ≤ length places.old }
    ensures pooled { stack_of places.new result ≡ blocks (direction rising) h.now }
{
    let mut top = places.len();
    for i in (0..h.len()).rev() {
        top = take_bin(h, rising, i, places, top);
    }
    top
}

// Writes the place of each bin, of which there are as many as places.
fn write_places(h: &[u32], rising: bool, places: &mut [Place])
    requires small { Small h.now }
    requires as_many { length places.old ≡ length h.now }
    ensures { places.new ≡ Blocks.places (direction rising) h.now }
{
    let top = pool(h, rising, places);
    let mut from: usize = 0;
    for next in top..places.len() {
        let block = places[next].block;
        let to = from + block.len as usize;
        places[from..to].fill(Place {
            start: from as u32,
            block,
        });
        from = to;
    }
}

// Writes each bin's place.
pub fn fit_places(h: &[u32], rising: bool, places: &mut [Place])
    requires small { Small h.now }
    requires h_in_bounds { length h.now ≤ length places.old }
    ensures { places.new ≡ over (Blocks.places (direction rising) h.now) places.old }
{
    write_places(h, rising, &mut places[..h.len()]);
}

// Writes the sum and the length of each bin's block, in the two lists that C reads. To write places first and read these out of them takes up to twice the time.
pub fn fit_blocks(h: &[u32], rising: bool, sums: &mut [u32], lens: &mut [u32])
    requires small { Small h.now }
    requires h_in_bounds { (length h.now ≤ length sums.old) × (length h.now ≤ length lens.old) }
    ensures sums { sums.new ≡ over (map (λ (b : Block). b.sum) (fitted (direction rising) h.now)) sums.old }
    ensures lens { lens.new ≡ over (map (λ (b : Block). b.len) (fitted (direction rising) h.now)) lens.old }
{
    let nowhere = Place {
        start: 0,
        block: Block { sum: 0, len: 0 },
    };
    let mut scratch = [nowhere; MOST_BINS];
    let places = &mut scratch[..h.len()];
    let top = pool(h, rising, places);
    let mut from: usize = 0;
    for next in top..places.len() {
        let Block { sum, len } = places[next].block;
        let to = from + len as usize;
        sums[from..to].fill(sum);
        lens[from..to].fill(len);
        from = to;
    }
}
