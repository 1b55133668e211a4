// The test of a stretch of bins: how far its parts are from a monotone fit, and whether that is too far.
// `judge` gives the verdict of one stretch in one direction at one closeness.
#![tactic(auto)]

mod against;
mod closeness;
mod costs;
mod near;
mod parts;
mod search;
mod signed;
mod weights;

ghost use Rattle.std.specs.Prelude.{◌≡◌, ◌≤◌, length};
ghost use Rattle.pooling.specs.Blocks.{direction};
ghost use Rattle.pooling.specs.Limits.{Small};
ghost use Rattle.verdict.specs.Test.{verdict_of};

use against::step_against;
pub use closeness::{Closeness, LEAST_CLOSENESS, MOST_CLOSENESS};
pub use costs::capped_cost;
use costs::cost;

// A part's fitted mass A/B (rules T1 and T2).
#[derive(Clone, Copy)]
pub struct Mass {
    pub num: u64,
    pub den: u64,
}

// When a part is near its fitted mass: if the square of the difference is at most factor/2^(shift + 4) of the room (`near.rt`).
#[derive(Clone, Copy)]
pub struct Threshold {
    pub factor: u64,
    pub shift: u32,
}

// The best weight so far, and the threshold that goes with it: a part that is nearer has no larger weight.
#[derive(Clone, Copy)]
pub struct Best {
    pub weight: i64,
    pub threshold: Threshold,
}

// A stretch's cost, and whether it is rejected.
#[repr(C)]
#[derive(Clone, Copy)]
pub struct Verdict {
    pub cost: i64,
    pub rejected: bool,
}

// The verdict of a stretch of one bin or more. Without a step against the direction it is never rejected, whatever it costs.
pub fn judge(h: &[u32], rising: bool, closeness: Closeness) -> Verdict
    requires small { Small h.now }
    requires in_bounds { 1 ≤ length h.now }
    ensures { result ≡ verdict_of closeness (direction rising) h.now }
{
    let found = cost(h, rising, closeness);
    Verdict {
        cost: found,
        rejected: step_against(h, rising) && 0 <= found,
    }
}
