// What the public calls do: each inner function checks the grounds that concern its call, and answers with the first that holds, or with
// what the call hands back.
ghost use Rattle.std.specs.Prelude.{◌≡◌, OnOk, length};
ghost use Rattle.std.specs.Result.{result_unwrap_or};
ghost use Rattle.pooling.specs.Blocks.{direction};
ghost use Rattle.verdict.specs.Exactness.{VerdictSound};
ghost use Rattle.segmentation.specs.Finished.{LineFinished, RingFinished};
ghost use Rattle.joinlog.specs.JoinLog.{LogSound, Replayed};
ghost use Rattle.listing.specs.Listing.{RingOrdered};
ghost use Rattle.grounds.specs.Grounds.{widen_number};
ghost use Rattle.grounds.specs.Checks.{number_of};
ghost use Rattle.kistrovu.specs.Answers.{
  verdict_answer,
  line_answer,
  line_list,
  ring_answer,
  ring_list,
  log_answer,
  log_list,
  replay_answer,
  replay_list,
  card_answer,
  label_list,
  widened_list,
};
ghost use Rattle.kistrovu.specs.Facts.{SoundAnswer};
ghost use Rattle.kistrovu.specs.Calls.{verdict_given, modes_given, log_given, card_given};

use grounds::Ground;
use making::CardEntries;
use palette::MOST_ENTRIES;
use verdict::Verdict;

// The number of a call, and what it hands back with it: what was made, or `none` if the call is turned down.
pub fn answered<T: Copy>(made: Result<T, Ground>, none: T) -> (u32, T)
    ensures number { result.0 ≡ number_of made }
    ensures value { result.1 ≡ result_unwrap_or made none }
{
    match made {
        Ok(value) => (0, value),
        Err(why) => (why.number(), none),
    }
}

pub fn judge(histogram: &[u32], rising: bool, closeness: i32) -> Result<Verdict, Ground>
    ensures answer { verdict_given result ≡ verdict_answer closeness rising histogram.now }
    ensures sound { OnOk result (VerdictSound closeness (direction rising) histogram.now) }
{
    let closeness = grounds::check_verdict(histogram, closeness)?;
    Ok(verdict::judge(histogram, rising, closeness))
}

pub fn line_modes(histogram: &[u32], closeness: i32, separators: &mut [u32]) -> Result<u32, Ground>
    ensures answer { modes_given result ≡ line_answer closeness histogram.now (length separators.old) }
    ensures list { separators.new ≡ line_list closeness histogram.now separators.old }
    ensures finished { OnOk result (LineFinished closeness histogram.now) }
{
    let closeness = grounds::check_modes(histogram, closeness, separators.len())?;
    Ok(segmentation::line_separators(histogram, closeness, separators))
}

pub fn ring_modes(histogram: &[u32], closeness: i32, separators: &mut [u32]) -> Result<u32, Ground>
    ensures answer { modes_given result ≡ ring_answer closeness histogram.now (length separators.old) }
    ensures list { separators.new ≡ ring_list closeness histogram.now separators.old }
    ensures finished { OnOk result (RingFinished closeness histogram.now × RingOrdered closeness histogram.now) }
{
    let closeness = grounds::check_modes(histogram, closeness, separators.len())?;
    Ok(listing::ring_separators(histogram, closeness, separators))
}

pub fn join_log(histogram: &[u32], closeness: i32, log: &mut [i64]) -> Result<u32, Ground>
    ensures answer { log_given result ≡ log_answer closeness histogram.now (length log.old) }
    ensures list { log.new ≡ log_list closeness histogram.now log.old }
    ensures sound { OnOk result (LogSound closeness histogram.now) }
{
    let closeness = grounds::check_log(histogram, closeness, log.len())?;
    Ok(joinlog::line_log(histogram, closeness, log))
}

pub fn replay(
    histogram: &[u32],
    closeness: i32,
    log: &[i64],
    separators: &mut [u32],
) -> Result<u32, Ground>
    ensures answer { modes_given result ≡ replay_answer closeness histogram.now log.now (length separators.old) }
    ensures list { separators.new ≡ replay_list closeness histogram.now log.now separators.old }
    ensures replayed { OnOk result (Replayed closeness histogram.now log.now × LineFinished closeness histogram.now) }
{
    let closeness = grounds::check_modes(histogram, closeness, separators.len())?;
    joinlog::replay(histogram, closeness, log, separators).ok_or(Ground::Log)
}

// The entries that a card holds, and the labels.
pub fn card(pixels: &[u8], closeness: i32, labels: &mut [u16]) -> Result<CardEntries, Ground>
    ensures answer { card_given result ≡ card_answer closeness pixels.now (length labels.old) }
    ensures labels { labels.new ≡ label_list closeness pixels.now labels.old }
    ensures sound { OnOk result (SoundAnswer closeness pixels.now (card_given result) labels.new) }
{
    let closeness = grounds::check_card(pixels, closeness, labels.len())?;
    let made = making::make_card(pixels, closeness, labels);
    if MOST_ENTRIES < made.total as usize {
        return Err(Ground::Entries);
    }
    Ok(made)
}

pub fn widen(narrow: &[u8], labels: &mut [u16]) -> Result<(), Ground>
    ensures number { number_of result ≡ widen_number narrow.now (length labels.old) }
    ensures labels { labels.new ≡ widened_list narrow.now labels.old }
{
    grounds::check_widening(narrow, labels.len())?;
    labels::widen_labels(narrow, labels);
    Ok(())
}
