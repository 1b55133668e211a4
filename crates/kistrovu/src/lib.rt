// The public calls, and nothing else. Each contract says what the call promises for every input, served or turned down (demands D1 to
// D3 of docs/METHOD.md). No call has a precondition. `s.old` is the list as it was lent, `s.new` as the call leaves it. The crate
// kistrovu_c hands each call to C under the same name and with the same clauses.
#![tactic(auto)]

ghost use Rattle.std.specs.Prelude.{◌≡◌, pos, length};
ghost use Rattle.pooling.specs.Blocks.{direction};
ghost use Rattle.pooling.specs.Best.{Pooled};
ghost use Rattle.verdict.specs.Exactness.{VerdictSound};
ghost use Rattle.segmentation.specs.Finished.{LineFinished, RingFinished};
ghost use Rattle.joinlog.specs.JoinLog.{LogSound, Replayed};
ghost use Rattle.listing.specs.Listing.{RingOrdered};
ghost use Rattle.palette.specs.Cards.{pixels_of};
ghost use Rattle.palette.specs.Sound.{SoundCard};
ghost use Rattle.swatch.specs.Input.{bytes_of};
ghost use Rattle.grounds.specs.Grounds.{widen_number, program_closeness};
ghost use Rattle.kistrovu.specs.Answers.{
  library_version,
  measures_answer,
  fit_answer,
  verdict_answer,
  line_answer,
  line_list,
  ring_answer,
  ring_list,
  log_answer,
  log_list,
  replay_answer,
  replay_list,
  card_answer,
  label_list,
  widened_list,
  printed_answer,
  ground_answer,
};
ghost use Rattle.kistrovu.specs.Facts.{IfServed, AcceptsOnly, SoundAnswer};

use calls::{answered, card, join_log, judge, line_modes, replay, ring_modes, widen};
use palette::{Entry, MOST_ENTRIES};
use pixel::{Measures, Pixel};
use swatch::PRINTED_MOST;
use verdict::Verdict;

mod calls;
mod printing;

// 10,000 · major + 100 · minor + patch. Its source is the file VERSION; tools/version writes it here.
const VERSION: u32 = 60000;

// The answers of the public calls. Each has the call's number: 0 if the call is served, otherwise the ground on which it is turned
// down. Every other figure is then zero.
#[repr(C)]
#[derive(Clone, Copy)]
pub struct MeasuresAnswer {
    pub number: u32,
    pub measures: Measures,
}

// The block of bin i has sum sums[i] and length lengths[i]; places past the last bin are zero.
#[repr(C)]
#[derive(Clone, Copy)]
pub struct FitAnswer {
    pub number: u32,
    pub sums: [u32; 256],
    pub lengths: [u32; 256],
}

#[repr(C)]
#[derive(Clone, Copy)]
pub struct VerdictAnswer {
    pub number: u32,
    pub verdict: Verdict,
}

// How many separators there are.
#[repr(C)]
#[derive(Clone, Copy)]
pub struct ModesAnswer {
    pub number: u32,
    pub separators: u32,
}

// How many joins there are.
#[repr(C)]
#[derive(Clone, Copy)]
pub struct LogAnswer {
    pub number: u32,
    pub joins: u32,
}

// A card, the palette of a cloth: the first len places of entries hold it; the rest are zero.
#[repr(C)]
#[derive(Clone, Copy)]
pub struct Card {
    pub number: u32,
    pub len: u32,
    pub entries: [Entry; MOST_ENTRIES],
}

// A text to print: the first len places of bytes hold it; the rest are zero.
#[repr(C)]
#[derive(Clone, Copy)]
pub struct Printed {
    pub number: u32,
    pub len: u32,
    pub bytes: [u8; PRINTED_MOST],
}

// The version of the library. No ground concerns it.
pub fn kistrovu_version() -> u32
    ensures { result ≡ library_version }
{
    VERSION
}

// The measures of one pixel. No ground concerns it.
pub fn kistrovu_measures(red: u8, green: u8, blue: u8) -> MeasuresAnswer
    ensures { result ≡ measures_answer red green blue }
{
    MeasuresAnswer {
        number: 0,
        measures: pixel::measure(Pixel { red, green, blue }),
    }
}

// The fit of a whole histogram. Grounds 6, 7.
pub fn kistrovu_fit(histogram: &[u32], rising: bool) -> FitAnswer
    ensures { (result ≡ fit_answer rising histogram.now)
        × IfServed result.number (Pooled (direction rising) histogram.now) }
{
    let mut sums = [0; 256];
    let mut lengths = [0; 256];
    let number = answered(grounds::check_fit(histogram), ()).0;
    if number == 0 {
        pooling::fit_blocks(histogram, rising, &mut sums, &mut lengths);
    }
    FitAnswer {
        number,
        sums,
        lengths,
    }
}

// The verdict of a whole histogram. Grounds 6, 7, 8.
pub fn kistrovu_verdict(histogram: &[u32], rising: bool, closeness: i32) -> VerdictAnswer
    ensures { (result ≡ verdict_answer closeness rising histogram.now)
        × IfServed result.number (VerdictSound closeness (direction rising) histogram.now) }
{
    let none = Verdict {
        cost: 0,
        rejected: false,
    };
    let (number, verdict) = answered(judge(histogram, rising, closeness), none);
    VerdictAnswer { number, verdict }
}

// The modes of a line: its separators, rising, in the first places of the list. Grounds 6, 7, 8, 10.
pub fn kistrovu_line_modes(histogram: &[u32], closeness: i32, separators: &mut [u32]) -> ModesAnswer
    ensures { (result ≡ line_answer closeness histogram.now (length separators.old))
        × (separators.new ≡ line_list closeness histogram.now separators.old)
        × IfServed result.number (LineFinished closeness histogram.now) }
{
    let (number, separators) = answered(line_modes(histogram, closeness, separators), 0);
    ModesAnswer { number, separators }
}

// The modes of a ring, joined all round it: its separators, from the lowest bin number up, in the first places of the list. Grounds 6, 7, 8, 10.
pub fn kistrovu_ring_modes(histogram: &[u32], closeness: i32, separators: &mut [u32]) -> ModesAnswer
    ensures { (result ≡ ring_answer closeness histogram.now (length separators.old))
        × (separators.new ≡ ring_list closeness histogram.now separators.old)
        × IfServed result.number (RingFinished closeness histogram.now × RingOrdered closeness histogram.now) }
{
    let (number, separators) = answered(ring_modes(histogram, closeness, separators), 0);
    ModesAnswer { number, separators }
}

// The joins of a line in turn: the record of each, four numbers, in the first places of the log. Grounds 6, 7, 8, 10.
pub fn kistrovu_join_log(histogram: &[u32], closeness: i32, log: &mut [i64]) -> LogAnswer
    ensures { (result ≡ log_answer closeness histogram.now (length log.old))
        × (log.new ≡ log_list closeness histogram.now log.old)
        × IfServed result.number (LogSound closeness histogram.now) }
{
    let (number, joins) = answered(join_log(histogram, closeness, log), 0);
    LogAnswer { number, joins }
}

// The modes of a line, by a log of its joins that may come from anywhere: its separators, rising, in the first places of the list. Grounds 6, 7, 8, 10, 20.
pub fn kistrovu_replay(
    histogram: &[u32],
    closeness: i32,
    log: &[i64],
    separators: &mut [u32],
) -> ModesAnswer
    ensures { (result ≡ replay_answer closeness histogram.now log.now (length separators.old))
        × (separators.new ≡ replay_list closeness histogram.now log.now separators.old)
        × AcceptsOnly closeness histogram.now log.now (length separators.old)
        × IfServed result.number (Replayed closeness histogram.now log.now × LineFinished closeness histogram.now) }
{
    let (number, separators) = answered(replay(histogram, closeness, log, separators), 0);
    ModesAnswer { number, separators }
}

// The card of an image of three bytes a pixel, and the label of each pixel: its entry's number. Grounds 4, 5, 8, 9, 11.
pub fn kistrovu_card(pixels: &[u8], closeness: i32, labels: &mut [u16]) -> Card
    ensures { (result ≡ card_answer closeness pixels.now (length labels.old))
        × (labels.new ≡ label_list closeness pixels.now labels.old)
        × IfServed result.number (SoundAnswer closeness pixels.now result labels.new) }
{
    match card(pixels, closeness, labels) {
        Ok(made) => {
            let entries = made.entries;
            Card {
                number: 0,
                len: made.total,
                entries,
            }
        }
        Err(why) => Card {
            number: why.number(),
            len: 0,
            entries: palette::no_entries(),
        },
    }
}

// Labels of one byte, widened: each number unchanged. The answer is the number of the call. Ground 9.
pub fn kistrovu_widen_labels(narrow: &[u8], labels: &mut [u16]) -> u32
    ensures { (result ≡ widen_number narrow.now (length labels.old))
        × (labels.new ≡ widened_list narrow.now labels.old) }
{
    answered(widen(narrow, labels), ()).0
}

// The text of the card of a swatch that is given as text. Grounds 1, 2, 3, 11.
pub fn kistrovu_print_card(text: &[u8]) -> Printed
    ensures { (result ≡ printed_answer text.now)
        × IfServed result.number (SoundCard (pos program_closeness) (pixels_of (bytes_of text.now))) }
{
    let mut bytes = [0u8; PRINTED_MOST];
    let (number, len) = answered(printing::print(text, &mut bytes), 0);
    Printed { number, len, bytes }
}

// The line that the card program prints for a swatch that is turned down: the number of the ground. The call takes any number, and
// prints the last six digits of one that has more. No ground concerns it.
pub fn kistrovu_print_ground(number: u32) -> Printed
    ensures { result ≡ ground_answer number }
{
    let mut bytes = [0u8; PRINTED_MOST];
    let len = swatch::print_number(number, &mut bytes);
    Printed {
        number: 0,
        len: len as u32,
        bytes,
    }
}
