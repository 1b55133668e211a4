// Whether a stretch has a step that goes against its fit.
ghost use Rattle.std.specs.Prelude.{◌≡◌};
ghost use Rattle.pooling.specs.Blocks.{direction};
ghost use Rattle.verdict.specs.Test.{against, step_against};

// From a to b is a step against the direction.
fn against(rising: bool, a: u32, b: u32) -> bool
    ensures { result ≡ against (direction rising) a b }
{
    if rising { b < a } else { a < b }
}

// Some step from a bin to the next goes against the direction.
pub fn step_against(h: &[u32], rising: bool) -> bool
    ensures { result ≡ step_against (direction rising) h.now }
{
    for i in 1..h.len() {
        if against(rising, h[i - 1], h[i]) {
            return true;
        }
    }
    false
}
