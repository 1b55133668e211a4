// Parts that need no logarithm: their count is so near their fitted mass that they cannot weigh more than the best part so far.
// Let d be the difference of kB and A, and call A·(NB − A) the room of the fitted mass, kB·(NB − kB) that of the count. A part weighs at most 3/2 · n · d²/room bits, up to what its logarithms round off.
// `best_at` solves this for d²/room, and `is_near` compares.
ghost use Rattle.std.specs.Prelude.{◌≡◌, ◌≤◌, ◌<◌, ◌^◌, pos, ◌≤ℤ◌};
ghost use Rattle.pooling.specs.Limits.{most_counts};
ghost use Rattle.verdict.specs.Exactness.{LogsDefined};
ghost use Rattle.verdict.specs.Near.{is_small, is_near, Spares, Usable};

use crate::{Best, Mass, Threshold};
use logarithm::Logarithm;

// What the logarithms of a weight round off at most, in units for each count of the stretch (rule L4).
const ROUNDED_OFF: u64 = 2;

// Twice 3/2 bits.
const TWICE_BITS: u64 = 3;

// A room is below 2^62. Without its last four bits it can be multiplied by a factor of six bits.
const DROPPED_BITS: u32 = 4;

// The quotient in `best_at` makes up for the dropped bits, and for the bits taken twice.
const ADDED_BITS: u32 = DROPPED_BITS + 1;

const LARGEST_FACTOR: u64 = 63;

// With a larger shift hardly a part would be near; the limit keeps shifts within a word.
const LARGEST_SHIFT: u32 = 40;

// The shift at which x/y has a factor of about six bits: by how many bits x is shorter than y, within limits.
fn shift_for(x: u64, y: u64) -> u32
    ensures { result ≤ 40 }
{
    x.leading_zeros()
        .saturating_sub(y.leading_zeros())
        .min(LARGEST_SHIFT)
}

// A best weight, with its threshold. What the logarithms may have rounded off is set aside first. The 1 keeps the divisor above 0 where there are no counts.
pub fn best_at(n: u64, weight: i64) -> Best
    requires { (n ≤ most_counts) × (pos 0 ≤ℤ weight) }
    ensures { (result.weight ≡ weight) × Spares n result }
{
    let exact = (weight as u64).saturating_sub(ROUNDED_OFF * n);
    let over = Logarithm::units(TWICE_BITS * n) + 1;
    let shift = shift_for(exact, over);
    let factor = ((exact << (shift + ADDED_BITS)) / over).min(LARGEST_FACTOR);
    Best {
        weight,
        threshold: Threshold { factor, shift },
    }
}

// The number is small beside the room, by the threshold.
fn is_small(s: u64, room: u64, t: Threshold) -> bool
    requires { (room < 2 ^ 62) × Usable t }
    ensures { result ≡ is_small s room t }
{
    s <= (((room >> DROPPED_BITS) * t.factor) >> t.shift)
}

// The part's count is near its fitted mass. The first test is enough for most parts.
pub fn is_near(n: u64, k: u64, m: Mass, t: Threshold) -> bool
    requires logs_defined { LogsDefined n k m }
    requires usable { Usable t }
    ensures { result ≡ is_near n k m t }
{
    let count = k * m.den;
    let all = n * m.den;
    let gap = count.abs_diff(m.num);
    let fitted = m.num * (all - m.num);
    if is_small(gap * gap, fitted, t) {
        return true;
    }
    let least = fitted.min(count * (all - count));
    is_small(gap * (gap + 1) / 2, least, t)
}
