// The log of a line, written join by join.
ghost use Rattle.std.specs.Prelude.{◌≡◌, ◌*◌, ◌≤◌, length};
ghost use Rattle.lists.specs.Lists.{over};
ghost use Rattle.segmentation.specs.Held.{held};
ghost use Rattle.segmentation.specs.Runs.{joins_of, OnLine};
ghost use Rattle.joinlog.specs.JoinLog.{joins_made, record_numbers, log_of};

use crate::RECORD_NUMBERS;
use crate::records::{put_record, record_of};
use pooling::MOST_BINS;
use segmentation::{Line, Segments};

// Joins the segments of a line until no run is joinable, and writes the record of each join before it is made. Returns how many joins there are.
pub fn write_joins(segments: &mut Segments<MOST_BINS>, line: &Line, log: &mut [i64]) -> usize
    requires { OnLine line.now segments.old × (record_numbers * length line.now.bins.now ≤ length log.old) }
    ensures { (result ≡ length (joins_made segments.old.count (joins_of line.now) (held segments.old)))
        × (log.new ≡ over (log_of (joins_made segments.old.count (joins_of line.now) (held segments.old))) log.old) }
{
    let mut joins = 0;
    while let Some(join) = segments.next_on_line(line) {
        put_record(log, RECORD_NUMBERS * joins, record_of(join));
        segments.apply(join);
        joins += 1;
    }
    joins
}
