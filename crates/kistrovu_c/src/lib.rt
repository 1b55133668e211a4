// The public calls for C. Each is the call of the same name of the crate kistrovu, with the same clauses; include/kistrovu.h declares them.
#![tactic(auto)]

ghost use Rattle.std.specs.Prelude.{◌≡◌, pos, length};
ghost use Rattle.pooling.specs.Blocks.{direction};
ghost use Rattle.pooling.specs.Best.{Pooled};
ghost use Rattle.verdict.specs.Exactness.{VerdictSound};
ghost use Rattle.segmentation.specs.Finished.{LineFinished, RingFinished};
ghost use Rattle.joinlog.specs.JoinLog.{LogSound, Replayed};
ghost use Rattle.listing.specs.Listing.{RingOrdered};
ghost use Rattle.palette.specs.Cards.{pixels_of};
ghost use Rattle.palette.specs.Sound.{SoundCard};
ghost use Rattle.swatch.specs.Input.{bytes_of};
ghost use Rattle.grounds.specs.Grounds.{widen_number, program_closeness};
ghost use Rattle.kistrovu.specs.Answers.{
  library_version,
  measures_answer,
  fit_answer,
  verdict_answer,
  line_answer,
  line_list,
  ring_answer,
  ring_list,
  log_answer,
  log_list,
  replay_answer,
  replay_list,
  card_answer,
  label_list,
  widened_list,
  printed_answer,
  ground_answer,
};
ghost use Rattle.kistrovu.specs.Facts.{IfServed, AcceptsOnly, SoundAnswer};

use kistrovu::{Card, FitAnswer, LogAnswer, MeasuresAnswer, ModesAnswer, Printed, VerdictAnswer};

// The version of the library. No ground concerns it.
#[unsafe(no_mangle)]
pub extern "C" fn kistrovu_version() -> u32
    ensures { result ≡ library_version }
{
    kistrovu::kistrovu_version()
}

// The measures of one pixel. No ground concerns it.
#[unsafe(no_mangle)]
pub extern "C" fn kistrovu_measures(red: u8, green: u8, blue: u8) -> MeasuresAnswer
    ensures { result ≡ measures_answer red green blue }
{
    kistrovu::kistrovu_measures(red, green, blue)
}

// The fit of a whole histogram. Grounds 6, 7.
#[unsafe(no_mangle)]
pub extern "C" fn kistrovu_fit(histogram: &[u32], rising: bool) -> FitAnswer
    ensures { (result ≡ fit_answer rising histogram.now)
        × IfServed result.number (Pooled (direction rising) histogram.now) }
{
    kistrovu::kistrovu_fit(histogram, rising)
}

// The verdict of a whole histogram. Grounds 6, 7, 8.
#[unsafe(no_mangle)]
pub extern "C" fn kistrovu_verdict(histogram: &[u32], rising: bool, closeness: i32) -> VerdictAnswer
    ensures { (result ≡ verdict_answer closeness rising histogram.now)
        × IfServed result.number (VerdictSound closeness (direction rising) histogram.now) }
{
    kistrovu::kistrovu_verdict(histogram, rising, closeness)
}

// The modes of a line: its separators, rising, in the first places of the list. Grounds 6, 7, 8, 10.
#[unsafe(no_mangle)]
pub extern "C" fn kistrovu_line_modes(
    histogram: &[u32],
    closeness: i32,
    separators: &mut [u32],
) -> ModesAnswer
    ensures { (result ≡ line_answer closeness histogram.now (length separators.old))
        × (separators.new ≡ line_list closeness histogram.now separators.old)
        × IfServed result.number (LineFinished closeness histogram.now) }
{
    kistrovu::kistrovu_line_modes(histogram, closeness, separators)
}

// The modes of a ring, joined all round it: its separators, from the lowest bin number up, in the first places of the list. Grounds 6, 7, 8, 10.
#[unsafe(no_mangle)]
pub extern "C" fn kistrovu_ring_modes(
    histogram: &[u32],
    closeness: i32,
    separators: &mut [u32],
) -> ModesAnswer
    ensures { (result ≡ ring_answer closeness histogram.now (length separators.old))
        × (separators.new ≡ ring_list closeness histogram.now separators.old)
        × IfServed result.number (RingFinished closeness histogram.now × RingOrdered closeness histogram.now) }
{
    kistrovu::kistrovu_ring_modes(histogram, closeness, separators)
}

// The joins of a line in turn: the record of each, four numbers, in the first places of the log. Grounds 6, 7, 8, 10.
#[unsafe(no_mangle)]
pub extern "C" fn kistrovu_join_log(histogram: &[u32], closeness: i32, log: &mut [i64]) -> LogAnswer
    ensures { (result ≡ log_answer closeness histogram.now (length log.old))
        × (log.new ≡ log_list closeness histogram.now log.old)
        × IfServed result.number (LogSound closeness histogram.now) }
{
    kistrovu::kistrovu_join_log(histogram, closeness, log)
}

// The modes of a line, by a log of its joins that may come from anywhere: its separators, rising, in the first places of the list. Grounds 6, 7, 8, 10, 20.
#[unsafe(no_mangle)]
pub extern "C" fn kistrovu_replay(
    histogram: &[u32],
    closeness: i32,
    log: &[i64],
    separators: &mut [u32],
) -> ModesAnswer
    ensures { (result ≡ replay_answer closeness histogram.now log.now (length separators.old))
        × (separators.new ≡ replay_list closeness histogram.now log.now separators.old)
        × AcceptsOnly closeness histogram.now log.now (length separators.old)
        × IfServed result.number (Replayed closeness histogram.now log.now × LineFinished closeness histogram.now) }
{
    kistrovu::kistrovu_replay(histogram, closeness, log, separators)
}

// The card of an image of three bytes a pixel, and the label of each pixel: its entry's number. Grounds 4, 5, 8, 9, 11.
#[unsafe(no_mangle)]
pub extern "C" fn kistrovu_card(pixels: &[u8], closeness: i32, labels: &mut [u16]) -> Card
    ensures { (result ≡ card_answer closeness pixels.now (length labels.old))
        × (labels.new ≡ label_list closeness pixels.now labels.old)
        × IfServed result.number (SoundAnswer closeness pixels.now result labels.new) }
{
    kistrovu::kistrovu_card(pixels, closeness, labels)
}

// Labels of one byte, widened: each number unchanged. The answer is the number of the call. Ground 9.
#[unsafe(no_mangle)]
pub extern "C" fn kistrovu_widen_labels(narrow: &[u8], labels: &mut [u16]) -> u32
    ensures { (result ≡ widen_number narrow.now (length labels.old))
        × (labels.new ≡ widened_list narrow.now labels.old) }
{
    kistrovu::kistrovu_widen_labels(narrow, labels)
}

// The text of the card of a swatch that is given as text. Grounds 1, 2, 3, 11.
#[unsafe(no_mangle)]
pub extern "C" fn kistrovu_print_card(text: &[u8]) -> Printed
    ensures { (result ≡ printed_answer text.now)
        × IfServed result.number (SoundCard (pos program_closeness) (pixels_of (bytes_of text.now))) }
{
    kistrovu::kistrovu_print_card(text)
}

// The line that the card program prints for a swatch that is turned down: the number of the ground. The call takes any number, and
// prints the last six digits of one that has more. No ground concerns it.
#[unsafe(no_mangle)]
pub extern "C" fn kistrovu_print_ground(number: u32) -> Printed
    ensures { result ≡ ground_answer number }
{
    kistrovu::kistrovu_print_ground(number)
}
