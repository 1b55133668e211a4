// The cost of a stretch, up to a cap.
ghost use Rattle.std.specs.Prelude.{◌≡◌, ◌^◌, ◌≤◌, ◌<◌, length};
ghost use Rattle.std.specs.Int.Signed.{mag};
ghost use Rattle.pooling.specs.Blocks.{direction, blocks};
ghost use Rattle.pooling.specs.Limits.{Small};
ghost use Rattle.verdict.specs.Test.{cost};
ghost use Rattle.verdict.specs.Scratch.{Capped, BestOf, Part};

use crate::Closeness;
use crate::parts::{MOST_TOTALS, Stretch, running_totals};
use crate::search::Search;
use crate::weights::bar;
use logarithm::Sheet;
use pooling::{Block, MOST_BINS, Place, fit_places};

// A cap that no cost reaches: 2^62 - 1.
const NO_CAP: i64 = 4611686018427387903;

// What stands for each bin's place before the fit is made.
const NO_PLACE: Place = Place {
    start: 0,
    block: Block { sum: 0, len: 0 },
};

// The best weight of the parts of a stretch, up to the limit. The whole stretch weighs 0; where that is enough, no fit is made.
fn best_of<'a>(sheet: &'a Sheet, h: &'a [u32], rising: bool, limit: i64) -> i64
    requires small { Small h.now }
    requires in_bounds { 1 ≤ length h.now }
    ensures { BestOf h.now (blocks (direction rising) h.now) limit (Part h.now) result }
{
    let whole_is_enough = limit <= 0;
    if whole_is_enough {
        return 0;
    }
    let mut before = [0u32; MOST_TOTALS];
    let mut places = [NO_PLACE; MOST_BINS];
    running_totals(h, &mut before);
    fit_places(h, rising, &mut places);
    let search = Search {
        sheet,
        stretch: Stretch {
            h,
            rising,
            before: &before,
            places: &places,
        },
        limit,
    };
    search.best_weight()
}

// The cost of a stretch of one bin or more, if that is below the cap; otherwise the cap or more.
pub fn capped_cost(sheet: &Sheet, h: &[u32], rising: bool, closeness: Closeness, cap: i64) -> i64
    requires small { Small h.now }
    requires in_bounds { 1 ≤ length h.now }
    requires cap_bound { mag cap < 2 ^ 62 }
    ensures { Capped cap (cost closeness (direction rising) h.now) result }
{
    let height = bar(sheet, closeness, h.len() as u64);
    best_of(sheet, h, rising, cap + height) - height
}

// The cost of a stretch of one bin or more.
pub fn cost(h: &[u32], rising: bool, closeness: Closeness) -> i64
    requires small { Small h.now }
    requires in_bounds { 1 ≤ length h.now }
    ensures { result ≡ cost closeness (direction rising) h.now }
{
    let sheet = Sheet::copied();
    capped_cost(&sheet, h, rising, closeness, NO_CAP)
}
