// A log from anywhere, followed join by join.
ghost use Rattle.std.specs.Prelude.{◌≡◌, true};
ghost use Rattle.segmentation.specs.Joining.{join_all};
ghost use Rattle.segmentation.specs.Held.{held};
ghost use Rattle.segmentation.specs.Runs.{joins_of, OnLine};
ghost use Rattle.joinlog.specs.JoinLog.{joins_made, log_of, same_numbers};

use crate::RECORD_NUMBERS;
use crate::records::record_of;
use pooling::MOST_BINS;
use segmentation::{Line, Segments};

// Follows a log: each record is held against the join that comes next, which is then made. Log and joins have to end together. Returns whether they did.
pub fn follow(segments: &mut Segments<MOST_BINS>, line: &Line, log: &[i64]) -> bool
    requires { OnLine line.now segments.old }
    ensures { (result ≡ same_numbers log.now (log_of (joins_made segments.old.count (joins_of line.now) (held segments.old))))
        × (result ≡ true → held segments.new ≡ join_all segments.old.count (joins_of line.now) (held segments.old)) }
{
    let mut rest = log;
    while let Some(join) = segments.next_on_line(line) {
        let numbers: [i64; RECORD_NUMBERS] = record_of(join).into();
        let Some(behind) = rest.strip_prefix(&numbers) else {
            return false;
        };
        // The record is that of this join, so what is made is what the log says.
        segments.apply(join);
        rest = behind;
    }
    rest.is_empty()
}
