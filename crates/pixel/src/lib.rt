// The measures of a pixel: its intensity, saturation and hue bins, and whether it is grey.
#![tactic(auto)]

ghost use Rattle.std.specs.Prelude.{ℕ, ◌≡◌, cond, ◌+◌, ◌*◌, ◌-◌, ◌≤◌, ◌<◌, leb, get_or};
ghost use Rattle.pixel.specs.Root.{RootWithin, root_count, Rooted, line_of};
ghost use Rattle.pixel.specs.Colour.{
  saturation_count,
  intensity_bin,
  chroma_squared,
  is_grey,
  saturation_of,
  saturation_bin,
  tangents,
  tangents_passed,
  hue_point,
  turned_of,
  hue_at,
  hue_bin,
  measures_of,
};

// How many bins each measure has.
pub const HUES: usize = 60;

pub const SATURATIONS: usize = 42;

pub const INTENSITIES: usize = 52;

// The square roots of the numbers below this, rounded down, are the saturation bins.
pub const ROOTS: usize = SATURATIONS * SATURATIONS;

#[derive(Clone, Copy)]
pub struct Pixel {
    pub red: u8,
    pub green: u8,
    pub blue: u8,
}

#[repr(C)]
#[derive(Clone, Copy)]
pub struct Measures {
    pub intensity: u8,
    pub saturation: u8,
    pub hue: u8,
    pub grey: bool,
}

// A hue point turned back by its quarter to (a, b).
#[derive(Clone, Copy)]
pub struct Turned {
    pub quarter: u32,
    pub a: u32,
    pub b: u32,
}

// A straight line that approximates the square root over one stretch of numbers, in 1024ths.
#[derive(Clone, Copy)]
struct Line {
    start: u32,
    slope: u32,
}

// Every third tangent starts a new group. These are the other two of a group.
#[derive(Clone, Copy)]
struct Inner {
    first: u32,
    second: u32,
}

pub fn intensity_bin(p: Pixel) -> u8
    ensures { result ≡ intensity_bin p }
{
    ((u32::from(p.red) + u32::from(p.green) + u32::from(p.blue)) / 15) as u8
}

// 1 if x reaches the bar, else 0. Adding these up counts without a branch.
fn at_least(x: u32, bar: u32) -> u32
    ensures { (result ≡ cond (leb bar x) 1 0) × (result ≤ 1) }
{
    u32::from(bar <= x)
}

// a or b. It compiles without a branch.
fn chosen(test: bool, a: u32, b: u32) -> u32
    ensures { (result ≡ cond test a b) × (result ≤ a + b) }
{
    if test { a } else { b }
}

// Q, by 4Q = (G+B−2R)² + 3·(G−B)². The square of the saturation is 2Q/3.
fn chroma_squared(p: Pixel) -> u32
    ensures { result ≡ chroma_squared p }
{
    let g = u32::from(p.green);
    let b = u32::from(p.blue);
    let x = g.abs_diff(b);
    let y = (g + b).abs_diff(2 * u32::from(p.red));
    (y * y + 3 * (x * x)) / 4
}

pub fn is_grey(p: Pixel) -> bool
    ensures { result ≡ is_grey p }
{
    chroma_squared(p) <= 136
}

// The line for 0 to 39, 40 to 199, 200 to 699, and 700 on. A match compiles to a read-only table; a constant array would be copied to the stack at each use.
fn line_of(stretch: u32) -> Line
    requires { stretch ≤ 3 }
    ensures { result ≡ line_of stretch }
{
    match stretch {
        0 => Line {
            start: 900,
            slope: 146,
        },
        1 => Line {
            start: 4500,
            slope: 49,
        },
        2 => Line {
            start: 9600,
            slope: 25,
        },
        _ => Line {
            start: 16600,
            slope: 15,
        },
    }
}

// The square root rounded down, or 1 less.
fn near_root(x: u32) -> u32
    requires { x ≤ 1734 }
    ensures { RootWithin 2 x result }
{
    let line = line_of(at_least(x, 40) + at_least(x, 200) + at_least(x, 700));
    (line.start + line.slope * x) / 1024
}

// The square root rounded down.
fn root(x: u32) -> u8
    requires { x ≤ 1734 }
    ensures { RootWithin 1 x result }
{
    let near = near_root(x);
    let next = near + 1;
    chosen(next * next <= x, next, near) as u8
}

// The largest j with 75j² ≤ 2Q, which is the square root of 2Q/75, rounded down. Where the root comes from is the caller's choice.
fn saturation_of<R: Fn(u32) -> u8>(root: R, q: u32) -> u8
    requires small { q ≤ 65025 }
    requires can { (x : ℕ) → x ≤ 1734 → R.pre root x }
    requires roots { (x j : ℕ) → x ≤ 1734 → R.post root x j → RootWithin 1 x j }
    ensures { result ≡ saturation_of q }
{
    root(2 * q / 75)
}

pub fn saturation_bin(p: Pixel) -> u8
    ensures { result ≡ saturation_bin p }
{
    saturation_of(root, chroma_squared(p))
}

// Writes the root j at the places of its numbers, from j² up to the next square.
fn write_root(roots: &mut [u8], j: usize)
    requires { (j < saturation_count) × Rooted roots.old (j * j) }
    ensures { Rooted roots.new ((j + 1) * (j + 1)) }
{
    for x in j * j..(j + 1) * (j + 1) {
        roots[x] = j as u8;
    }
}

// The square roots of the numbers from 0 on, rounded down: where many saturations are taken, a root is read and not computed.
pub fn roots() -> [u8; ROOTS]
    ensures { Rooted result root_count }
{
    let mut roots = [0u8; ROOTS];
    for j in 0..SATURATIONS {
        write_root(&mut roots, j);
    }
    roots
}

// The saturation bin, with its root read from the table.
pub fn saturation_by(roots: &[u8], p: Pixel) -> u8
    requires { Rooted roots.now root_count }
    ensures { result ≡ saturation_bin p }
{
    saturation_of(|x| roots[x as usize], chroma_squared(p))
}

// 1 if the slope b/a reaches tangent t, else 0. `bound` is 1000000·b.
fn passes(t: u32, a: u32, bound: u64) -> u32
    ensures { (result ≡ cond (leb (t * a) bound) 1 0) × (result ≤ 1) }
{
    u32::from(u64::from(t) * u64::from(a) <= bound)
}

// The tangents of 6° to 84°, in millionths, without every third one. Each group has its own arm, so the table is read without a test; no caller reaches the last arm.
fn inner_of(group: u32) -> Inner
    requires { group ≤ 4 }
    ensures { (result.first ≡ get_or tangents (3 * group) 0) × (result.second ≡ get_or tangents (3 * group + 1) 0) }
{
    match group {
        0 => Inner {
            first: 105104,
            second: 212556,
        },
        1 => Inner {
            first: 445228,
            second: 577350,
        },
        2 => Inner {
            first: 900404,
            second: 1110612,
        },
        3 => Inner {
            first: 1732050,
            second: 2246036,
        },
        4 => Inner {
            first: 4704630,
            second: 9514364,
        },
        _ => Inner {
            first: 0,
            second: 0,
        },
    }
}

// How many tangents the slope b/a reaches. It tests every third one first, then the two before the next: the tangents rise, so all those before a reached one are
// reached too.
fn tangents_passed(a: u32, b: u32) -> u32
    ensures { result ≡ tangents_passed a b }
{
    let bound = u64::from(b) * 1000000;
    let group = passes(324919, a, bound)
        + passes(726542, a, bound)
        + passes(1376381, a, bound)
        + passes(3077683, a, bound);
    let t = inner_of(group);
    3 * group + passes(t.first, a, bound) + passes(t.second, a, bound)
}

// The hue point, u = 1732051·(G−B) and v = 1000000·(G+B−2R), turned back. It lies in the upper half where v > 0, or v = 0 and u > 0, and in the right
// half where u > 0, or u = 0 and v ≤ 0. Each test adds 1 to one side where the other coordinate decides a tie. Nothing here branches: with the noise
// of a cloth, branches would often be mispredicted.
pub fn turned_back(p: Pixel) -> Turned
    ensures { result ≡ turned_of (hue_point p) }
{
    let g = u32::from(p.green);
    let b = u32::from(p.blue);
    let sum = g + b;
    let twice = 2 * u32::from(p.red);
    let u = 1732051 * g.abs_diff(b);
    let v = 1000000 * sum.abs_diff(twice);
    let upper = twice < sum + at_least(g, b + 1);
    let right = b < g + at_least(twice, sum);
    let odd = upper != right;
    Turned {
        quarter: chosen(upper, 0, 2) + chosen(odd, 1, 0),
        a: chosen(odd, v, u),
        b: chosen(odd, u, v),
    }
}

// The hue bin of a coloured pixel. The turn is a call of its own: two small functions are put into a caller's loop, where one large one would be called.
pub fn hue_of(t: Turned) -> u8
    requires { t.quarter ≤ 3 }
    ensures { result ≡ hue_at t }
{
    (15 * t.quarter + tangents_passed(t.a, t.b)) as u8
}

// A grey needs no hue computed.
pub fn hue_bin(p: Pixel) -> u8
    ensures { result ≡ hue_bin p }
{
    if is_grey(p) {
        0
    } else {
        hue_of(turned_back(p))
    }
}

// All measures of one pixel.
pub fn measure(p: Pixel) -> Measures
    ensures { result ≡ measures_of p }
{
    Measures {
        intensity: intensity_bin(p),
        saturation: saturation_bin(p),
        hue: hue_bin(p),
        grey: is_grey(p),
    }
}
