// The log of a line's joins: written on the way to the modes, and followed again by a replay.
#![tactic(auto)]

ghost use Rattle.std.specs.Prelude.{◌≡◌, cond, ◌*◌, ◌≤◌, length, Some, None};
ghost use Rattle.lists.specs.Lists.{over};
ghost use Rattle.pooling.specs.Limits.{Small};
ghost use Rattle.segmentation.specs.Joining.{line_separators};
ghost use Rattle.joinlog.specs.JoinLog.{record_numbers, made_on_line, line_log, same_numbers};

use following::follow;
use logarithm::Sheet;
use pooling::MOST_BINS;
use segmentation::{Line, Segments};
use verdict::Closeness;
use writing::write_joins;

mod following;
mod records;
mod writing;

// How many numbers a record has, and so a place of a log.
pub const RECORD_NUMBERS: usize = 4;

// A join as a log has it, four numbers in a row: the number of the first segment of its run, as the segments are numbered just before the join; how many
// segments the run has; 0 if it is joined by the fall and 1 if by the rise; and its cost.
#[repr(C)]
#[derive(Clone, Copy)]
pub struct JoinRecord {
    pub first: i64,
    pub length: i64,
    pub rise: i64,
    pub cost: i64,
}

// Writes the log of a line into the first places of a list. Returns how many joins there are.
pub fn line_log(h: &[u32], closeness: Closeness, log: &mut [i64]) -> u32
    requires small { Small h.now }
    requires in_bounds { (2 ≤ length h.now) × (record_numbers * length h.now ≤ length log.old) }
    ensures { (result ≡ length (made_on_line closeness h.now))
        × (log.new ≡ over (line_log closeness h.now) log.old) }
{
    let mut segments = Segments::<MOST_BINS>::new();
    segments.first_segments(h);
    let sheet = Sheet::copied();
    let line = Line {
        sheet: &sheet,
        bins: h,
        closeness,
    };
    let joins = write_joins(&mut segments, &line, log);
    joins as u32
}

// Follows a log from the first segments of a line on. If it leads to the modes, writes their separators into the first places of the list and returns how many
// they are; any other log leaves the list as it is.
pub fn replay(h: &[u32], closeness: Closeness, log: &[i64], list: &mut [u32]) -> Option<u32>
    requires small { Small h.now }
    requires in_bounds { (2 ≤ length h.now) × (length h.now ≤ length list.old) }
    ensures followed { result ≡ cond (same_numbers log.now (line_log closeness h.now)) (Some (length (line_separators closeness h.now))) None }
    ensures list { list.new ≡ cond (same_numbers log.now (line_log closeness h.now)) (over (line_separators closeness h.now) list.old) list.old }
{
    let mut segments = Segments::<MOST_BINS>::new();
    segments.first_segments(h);
    let sheet = Sheet::copied();
    let line = Line {
        sheet: &sheet,
        bins: h,
        closeness,
    };
    if !follow(&mut segments, &line, log) {
        return None;
    }
    let count = segments.count + 1;
    list[..count].copy_from_slice(&segments.separators[..count]);
    Some(count as u32)
}
