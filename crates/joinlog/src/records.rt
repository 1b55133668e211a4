// Records of joins, and their numbers in a log.
ghost use Rattle.std.specs.Prelude.{◌≡◌, ◌++◌, ◌+◌, ◌≤◌, length, take};
ghost use Rattle.lists.specs.Lists.{over};
ghost use Rattle.pooling.specs.Limits.{most_bins};
ghost use Rattle.joinlog.specs.JoinLog.{record_of, numbers_of, record_numbers};

use crate::{JoinRecord, RECORD_NUMBERS};
use segmentation::Join;

// The four numbers of a record, as a log has them.
impl From<JoinRecord> for [i64; RECORD_NUMBERS] {
    ghost from_gives = { λ join numbers. numbers ≡ numbers_of join };

    fn from(join: JoinRecord) -> [i64; RECORD_NUMBERS] {
        [join.first, join.length, join.rise, join.cost]
    }
}

// The record of a join of a line. No `From`: its numbers have to fit, and a `From` can ask for nothing.
pub fn record_of(j: Join) -> JoinRecord
    requires { (j.first ≤ most_bins) × (j.len ≤ most_bins) }
    ensures { result ≡ record_of j }
{
    JoinRecord {
        first: j.first as i64,
        length: j.len as i64,
        rise: i64::from(j.rise),
        cost: j.cost,
    }
}

// Writes the record of a join into a log, from number `at` on.
pub fn put_record(log: &mut [i64], at: usize, join: JoinRecord)
    requires { at + record_numbers ≤ length log.old }
    ensures { log.new ≡ over (take at log.old ++ numbers_of join) log.old }
{
    let numbers: [i64; RECORD_NUMBERS] = join.into();
    log[at..at + RECORD_NUMBERS].copy_from_slice(&numbers);
}
