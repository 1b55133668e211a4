// Samples of pixels, fits, verdicts and modes, as the public calls answer them. Those in `starred` are also proved, from the table in specs/;
// the others are only run here. What is printed is compared with the file stdout.
#![tactic(auto)]

ghost use Rattle.samples.specs.Starred.{StarredHold};
ghost use Rattle.samples.specs.Guards.{GuardsHold};
ghost use Rattle.samples.specs.Rings.{RingsHold, JoinsRoundHold};
ghost use Rattle.samples.specs.Logs.{LogsHold};
ghost use Rattle.samples.specs.Widenings.{WideningsHold};
ghost use Rattle.samples.specs.Printed.{PrintsItsCard};

use kistrovu::{
    ModesAnswer, kistrovu_fit, kistrovu_line_modes, kistrovu_measures, kistrovu_ring_modes,
    kistrovu_verdict,
};
use std::{fmt, io};

// The bins of the line in `ripple`.
const RIPPLE: usize = 52;

// Numbers, each with a space in front.
#[derive(Drop)]
struct Spaced<'a>(&'a [u32]);

impl fmt::Display for Spaced<'_> {
    fn fmt<W: fmt::Write>(&self, f: &mut fmt::Formatter<W>) -> fmt::Result {
        for n in self.0 {
            write!(f, " {n}")?;
        }
        Ok(())
    }
}

fn measures(rt: &impl Print, red: u8, green: u8, blue: u8) -> io::Result<()> {
    let answer = kistrovu_measures(red, green, blue);
    let m = answer.measures;
    println!(rt;
        "pixel {red} {green} {blue}: number {}, intensity {}, saturation {}, hue {}, grey {}",
        answer.number,
        m.intensity,
        m.saturation,
        m.hue,
        u8::from(m.grey)
    )
}

// A fit, with one place past its last bin.
fn fit(rt: &impl Print, h: &[u32], rising: bool) -> io::Result<()> {
    let f = kistrovu_fit(h, rising);
    println!(rt;
        "fit of{}, increasing {}: number {}, block sums{}, lengths{}",
        Spaced(h),
        u8::from(rising),
        f.number,
        Spaced(&f.sums[..4]),
        Spaced(&f.lengths[..4])
    )
}

// A verdict of a histogram, which is named by `what`.
fn verdict(
    rt: &impl Print,
    what: &impl fmt::Display,
    h: &[u32],
    rising: bool,
    closeness: i32,
) -> io::Result<()> {
    let v = kistrovu_verdict(h, rising, closeness);
    println!(rt;
        "verdict of{what}: {} bins, increasing {}, closeness {closeness}: number {}, cost {}, rejected {}",
        h.len(),
        u8::from(rising),
        v.number,
        v.verdict.cost,
        u8::from(v.verdict.rejected)
    )
}

// The answer of a modes call, and the first places of the list that was lent.
fn modes(
    rt: &impl Print,
    what: &impl fmt::Display,
    m: ModesAnswer,
    closeness: i32,
    list: &[u32],
) -> io::Result<()> {
    println!(rt;
        "{what}, closeness {closeness}: number {}, separators {}, list{}",
        m.number,
        m.separators,
        Spaced(list)
    )
}

// A verdict of a histogram that is named by its bins.
fn verdict_of(rt: &impl Print, h: &[u32], rising: bool, closeness: i32) -> io::Result<()> {
    verdict(rt, &Spaced(h), h, rising, closeness)
}

// The list is lent with 99 in each of its places; the places past the last separator keep it.
fn line(rt: &impl Print, h: &[u32], closeness: i32) -> io::Result<()> {
    let mut list = [99u32; 8];
    let m = kistrovu_line_modes(h, closeness, &mut list);
    print!(rt; "line")?;
    modes(rt, &Spaced(h), m, closeness, &list)
}

fn ring(rt: &impl Print, h: &[u32], closeness: i32) -> io::Result<()> {
    let mut list = [99u32; 9];
    let m = kistrovu_ring_modes(h, closeness, &mut list);
    print!(rt; "ring")?;
    modes(rt, &Spaced(h), m, closeness, &list)
}

// All bins zero: one mode.
fn zeros(rt: &impl Print) -> io::Result<()> {
    let mut list = [0u32; 256];
    let m = kistrovu_line_modes(&[0u32; 256], 20, &mut list);
    modes(rt, &"line of 256 zeros", m, 20, &list[..3])
}

// 26 humps, all alike and hardly higher than the bins between them. At the least closeness a bar is above 0 from 45 bins on, so runs over
// enough of these bins can be joined.
fn ripple(rt: &impl Print, closeness: i32) -> io::Result<()> {
    let mut bins = [10u32; RIPPLE];
    for i in (1..RIPPLE).step_by(2) {
        bins[i] = 11;
    }
    let mut list = [0u32; RIPPLE];
    let m = kistrovu_line_modes(&bins, closeness, &mut list);
    modes(rt, &"line of 26 humps in 52 bins", m, closeness, &list[..3])
}

fn starred(rt: &impl Print) -> io::Result<()> {
    measures(rt, 13, 9, 0)?;
    measures(rt, 13, 10, 0)?;
    measures(rt, 0, 255, 0)?;
    measures(rt, 0, 0, 255)?;
    measures(rt, 255, 0, 0)?;
    measures(rt, 100, 0, 200)?;
    measures(rt, 100, 200, 0)?;
    fit(rt, &[3, 1, 2], true)?;
    fit(rt, &[1, 3, 2], true)?;
    line(rt, &[0, 1, 0, 1, 0], 0)?;
    line(rt, &[0, 20, 0, 20, 0], 0)?;
    line(rt, &[0, 20, 0, 20, 0], 13)?;
    line(rt, &[0, 20, 0, 20, 0], 14)
}

fn others(rt: &impl Print) -> io::Result<()> {
    line(rt, &[5, 5, 5, 5, 5, 5, 5, 5, 5], 0)?;
    line(rt, &[0, 0], 21)?;
    line(rt, &[0, 0], -11)?;
    line(rt, &[0, 1, 0, 1, 0], -10)?;
    zeros(rt)?;
    ripple(rt, -10)?;
    ring(rt, &[9, 1, 9, 0, 9, 0], 0)?;
    ring(rt, &[94, 78, 144, 78, 143, 78, 78, 118, 78], 1)?;
    ring(rt, &[32768, 32768], 20)
}

// What the definitions give for each row of the tables in specs/ is what the row states, and the card program's example has its card.
fn sample_tables()
    ensures starred { StarredHold }
    ensures guards { GuardsHold }
    ensures rings { RingsHold }
    ensures joins_round { JoinsRoundHold }
    ensures logs { LogsHold }
    ensures widenings { WideningsHold }
    ensures example { PrintsItsCard }
{}

fn main(rt: HostRuntime) -> io::Result<()> {
    sample_tables();
    starred(&rt)?;
    verdict_of(&rt, &[0, 20, 0, 20, 0], true, 0)?;
    verdict_of(&rt, &[0, 20, 0, 20, 0], false, 20)?;
    verdict_of(&rt, &[0, 20, 0, 20, 0], true, 21)?;
    verdict_of(&rt, &[1, 0, 0], true, -1)?;
    verdict_of(&rt, &[0, 1], true, -10)?;
    verdict_of(&rt, &[1, 0], true, -10)?;
    verdict_of(&rt, &[0, 1], true, -11)?;
    verdict(&rt, &" zeros", &[0u32; 256], true, 0)?;
    verdict(&rt, &" zeros", &[0u32; 257], true, 0)?;
    verdict(&rt, &" one bin", &[5], true, 0)?;
    verdict(&rt, &" a sum of 65,536", &[256u32; 256], true, 20)?;
    verdict(&rt, &" a sum of 65,537", &[65536, 1], true, 0)?;
    verdict(
        &rt,
        &" counts of 4,294,967,295",
        &[4294967295u32; 256],
        false,
        0,
    )?;
    others(&rt)
}
