// The logarithm, by repeated squaring: a state passes from round to round, and each round finds one more bit (rules L1 to L4).
// Where the stored sheet has it, it is read from there instead (rule L5).
#![tactic(auto)]

mod numbers;
mod sheet;

ghost use Rattle.std.specs.Prelude.{◌≡◌, ◌+◌, ◌<◌, ◌*◌, ◌^◌, leb, true};
ghost use Rattle.logarithm.specs.Log.{Loggable, units_per_bit};
ghost use Rattle.logarithm.specs.Sheet.{sheet_size, twos_of, odd_part};
ghost use Rattle.logarithm.specs.Worker.{Ready, start, round};

pub use numbers::Numbers;
pub use sheet::{SHEET_SIZE, Sheet, copied_sheet};

// The state between rounds: a mantissa of 2^31 or more and below 2^32, and the bits of the logarithm found so far.
#[derive(Clone, Copy)]
pub struct Logarithm {
    pub mantissa: u64,
    pub bits: u64,
}

impl Logarithm {
    pub const ROUNDS: u64 = 26;

    pub const UNITS_PER_BIT: u64 = 67108864;

    // The least square of which a round sets its bit, since it has 64 bits.
    const LEAST_OF_64_BITS: u64 = 1 << 63;

    // Whole bits, converted to units.
    pub fn units(bits: u64) -> u64
        requires { bits < 2 ^ 32 }
        ensures { result ≡ bits * units_per_bit }
    {
        bits * Self::UNITS_PER_BIT
    }

    // The number scaled to 32 bits, and the floor of its logarithm.
    pub fn start(x: u64) -> Self
        requires { Loggable x }
        ensures { result ≡ start x }
    {
        let zeros = x.leading_zeros();
        Logarithm {
            mantissa: x << (zeros - 32),
            bits: u64::from(63 - zeros),
        }
    }

    // Finds one more bit. The two arms compile to a single shift, by 31 or by 32, without a jump.
    pub fn round(self) -> Self
        requires { Ready self }
        ensures { result ≡ round self }
    {
        let square = self.mantissa * self.mantissa;
        if square >= Self::LEAST_OF_64_BITS {
            Logarithm {
                mantissa: square >> 32,
                bits: 2 * self.bits + 1,
            }
        } else {
            Logarithm {
                mantissa: square >> 31,
                bits: 2 * self.bits,
            }
        }
    }
}

// An odd number times a power of 2.
#[derive(Clone, Copy)]
pub struct Odd {
    pub odd: u64,
    pub twos: u64,
}

impl Odd {
    // A number without its factors of 2, and how many there are.
    fn of(x: u64) -> Self
        requires { Loggable x }
        ensures { result ≡ record { odd = odd_part x; twos = twos_of x } }
    {
        let zeros = x.trailing_zeros();
        Odd {
            odd: x >> zeros,
            twos: u64::from(zeros),
        }
    }

    // The sheet has the odd part, so the logarithm need not be found by rounds.
    fn is_on_sheet(self) -> bool
        ensures { result ≡ leb self.odd sheet_size }
    {
        self.odd <= SHEET_SIZE as u64
    }
}

// The logarithms of numbers that the sheet has none of: their workers do their rounds side by side in one loop, so that while one waits for its last squaring, the
// others go on.
fn by_rounds<X: Numbers>(x: X) -> X
    requires loggable { X.loggable x }
    requires past { X.past_sheet x ≡ true }
    ensures { result ≡ X.logs x }
{
    let mut workers = x.start();
    for _ in 0..Logarithm::ROUNDS {
        workers = X::round(workers);
    }
    X::bits(workers)
}
