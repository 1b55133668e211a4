// A signed figure: the difference of two sums.
ghost use Rattle.std.specs.Prelude.{◌≡◌, ◌<◌, ◌^◌};
ghost use Rattle.std.proofs.Math.IntN.{sub_ℕ};

// a minus b.
pub fn difference(a: u64, b: u64) -> i64
    requires { (a < 2 ^ 63) × (b < 2 ^ 63) }
    ensures { result ≡ sub_ℕ a b }
{
    (a as i64) - (b as i64)
}
