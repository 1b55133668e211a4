// The grounds for turning a call down, and the checks of the calls: each answers with the first ground that holds, of those that
// concern the call. A check that looks at a closeness hands it back as one that is offered.
#![tactic(auto)]

ghost use Rattle.std.specs.Prelude.{◌≡◌, ◌≤◌, [], ◌∷◌, length, sum};
ghost use Rattle.std.specs.Result.{IfOk};
ghost use Rattle.grounds.specs.Grounds.{
  first_ground,
  bad_closeness,
  bad_labels,
  fit_number,
  verdict_number,
  modes_number,
  log_number,
  asked_number,
  widen_number,
};
ghost use Rattle.grounds.specs.Checks.{ground_number, number_of, ground_of};

use joinlog::RECORD_NUMBERS;
use palette::MOST_PIXELS;
use swatch::Unread;
use verdict::{Closeness, LEAST_CLOSENESS, MOST_CLOSENESS};

// The grounds, with the numbers that docs/METHOD.md gives them.
#[derive(Clone, Copy, PartialEq, Eq)]
pub enum Ground {
    Header = 1,
    Size = 2,
    Lines = 3,
    Bytes = 4,
    Pixels = 5,
    Bins = 6,
    Counts = 7,
    Closeness = 8,
    Labels = 9,
    Places = 10,
    Entries = 11,
    Log = 20,
}

impl Ground {
    pub fn number(self) -> u32
        ensures { result ≡ ground_number self }
    {
        self as u32
    }
}

impl From<Unread> for Ground {
    ghost from_gives = { λ why ground_given. ground_given ≡ ground_of why };

    fn from(why: Unread) -> Ground {
        match why {
            Unread::Header => Ground::Header,
            Unread::Size => Ground::Size,
            Unread::Lines => Ground::Lines,
        }
    }
}

// The sum of the counts. There are at most 256 of them, so it cannot overflow.
fn sum(h: &[u32]) -> u64
    requires { length h.now ≤ 256 }
    ensures { result ≡ sum h.now }
{
    h.iter().map(|count| u64::from(*count)).sum()
}

pub fn check_fit(h: &[u32]) -> Result<(), Ground>
    ensures { number_of result ≡ fit_number h.now }
{
    if h.len() < 2 || 256 < h.len() {
        return Err(Ground::Bins);
    }
    if 65536 < sum(h) {
        return Err(Ground::Counts);
    }
    Ok(())
}

fn check_closeness(closeness: i32) -> Result<Closeness, Ground>
    ensures number { number_of result ≡ first_ground (bad_closeness closeness ∷ []) }
    ensures given { IfOk result (λ c. c ≡ closeness) }
{
    if closeness < LEAST_CLOSENESS || MOST_CLOSENESS < closeness {
        return Err(Ground::Closeness);
    }
    Ok(Closeness::new(closeness))
}

fn check_labels(labels: usize, places: usize) -> Result<(), Ground>
    ensures { number_of result ≡ first_ground (bad_labels labels places ∷ []) }
{
    if places != labels {
        return Err(Ground::Labels);
    }
    Ok(())
}

pub fn check_verdict(h: &[u32], closeness: i32) -> Result<Closeness, Ground>
    ensures number { number_of result ≡ verdict_number closeness h.now }
    ensures given { IfOk result (λ c. c ≡ closeness) }
{
    check_fit(h)?;
    check_closeness(closeness)
}

pub fn check_modes(h: &[u32], closeness: i32, places: usize) -> Result<Closeness, Ground>
    ensures number { number_of result ≡ modes_number closeness h.now places }
    ensures given { IfOk result (λ c. c ≡ closeness) }
{
    let checked = check_verdict(h, closeness)?;
    if places < h.len() {
        return Err(Ground::Places);
    }
    Ok(checked)
}

// A call that writes a log into a list of so many numbers.
pub fn check_log(h: &[u32], closeness: i32, numbers: usize) -> Result<Closeness, Ground>
    ensures number { number_of result ≡ log_number closeness h.now numbers }
    ensures given { IfOk result (λ c. c ≡ closeness) }
{
    check_modes(h, closeness, numbers / RECORD_NUMBERS)
}

// A card call, as far as it can be checked before the entries are found.
pub fn check_card(pixels: &[u8], closeness: i32, places: usize) -> Result<Closeness, Ground>
    ensures number { number_of result ≡ asked_number closeness pixels.now places }
    ensures given { IfOk result (λ c. c ≡ closeness) }
{
    let bytes = pixels.len();
    if bytes == 0 || 0 < bytes % 3 {
        return Err(Ground::Bytes);
    }
    if MOST_PIXELS < bytes / 3 {
        return Err(Ground::Pixels);
    }
    let checked = check_closeness(closeness)?;
    check_labels(bytes / 3, places)?;
    Ok(checked)
}

// A widening of one-byte labels into a list of so many places.
pub fn check_widening(narrow: &[u8], places: usize) -> Result<(), Ground>
    ensures { number_of result ≡ widen_number narrow.now places }
{
    check_labels(narrow.len(), places)
}
