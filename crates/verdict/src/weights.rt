// The weight of a part of a stretch, and the bar that weights are compared with.
ghost use Rattle.std.specs.Prelude.{◌≡◌, ◌+◌, ◌*◌, ◌≤◌};
ghost use Rattle.std.proofs.Math.IntN.{sub_ℕ};
ghost use Rattle.logarithm.specs.Log.{Loggable, lg};
ghost use Rattle.pooling.specs.Limits.{most_bins, most_counts};
ghost use Rattle.verdict.specs.Test.{weight, bar};
ghost use Rattle.verdict.specs.Exactness.{LogsDefined};

use crate::signed::difference;
use crate::{Closeness, LEAST_CLOSENESS, Mass};
use logarithm::{Logarithm, Sheet};

// How far the least closeness lies below 0.
const SETTINGS_BELOW: u64 = (0 - LEAST_CLOSENESS) as u64;

// The weight where one term has all n counts as its factor: the other term's factor is 0, and its logarithms are not taken.
fn one_term(sheet: &Sheet, n: u64, p: u64, q: u64) -> i64
    requires { (n ≤ most_counts) × Loggable p × Loggable q }
    ensures { result ≡ sub_ℕ (n * lg p) (n * lg q) }
{
    let (lg_p, lg_q) = sheet.lg((p, q));
    difference(n * lg_p, n * lg_q)
}

// Both terms: k · (lg p − lg q) + rest · (lg s − lg t).
fn two_terms(sheet: &Sheet, k: u64, rest: u64, p: u64, q: u64, s: u64, t: u64) -> i64
    requires { (k + rest ≤ most_counts) × Loggable p × Loggable q × Loggable s × Loggable t }
    ensures { result ≡ sub_ℕ (k * lg p + rest * lg s) (k * lg q + rest * lg t) }
{
    let ((lg_p, lg_q), (lg_s, lg_t)) = sheet.lg(((p, q), (s, t)));
    difference(k * lg_p + rest * lg_s, k * lg_q + rest * lg_t)
}

// The weight of a part that holds k of the n counts. If the fitted mass equals the count, it is 0. The search never weighs such a part;
// the case is here because a stretch without counts has nothing that a logarithm could be taken of.
pub fn weight(sheet: &Sheet, n: u64, k: u64, m: Mass) -> i64
    requires { (n ≤ most_counts) × LogsDefined n k m }
    ensures { result ≡ weight n k m }
{
    if m.num == k * m.den {
        return 0;
    }
    if k == 0 {
        return one_term(sheet, n, n * m.den, n * m.den - m.num);
    }
    if k == n {
        return one_term(sheet, k, k * m.den, m.num);
    }
    let rest = n - k;
    two_terms(
        sheet,
        k,
        rest,
        k * m.den,
        m.num,
        rest * m.den,
        n * m.den - m.num,
    )
}

// The bar of a stretch of `bins` bins. At a closeness below 0 it can be negative.
pub fn bar(sheet: &Sheet, closeness: Closeness, bins: u64) -> i64
    requires { (1 ≤ bins) × (bins ≤ most_bins) }
    ensures { result ≡ bar closeness bins }
{
    let above = closeness.above_least();
    difference(
        sheet.lg(bins * (bins + 1) / 2) + Logarithm::units(above),
        Logarithm::units(SETTINGS_BELOW),
    )
}
