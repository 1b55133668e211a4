// Numbers whose logarithms are taken together: one, or a pair of such. A pair of pairs is four.
ghost use Rattle.std.specs.Prelude.{◌≡◌, ℕ, Bool, false, not, ◌&&◌, ◌+◌, ◌<◌};
ghost use Rattle.logarithm.specs.Log.{Loggable, round_count, lg};
ghost use Rattle.logarithm.specs.Sheet.{on_sheet};
ghost use Rattle.logarithm.specs.Worker.{Ready, start, round, after};

use crate::{Logarithm, Odd, Sheet};

pub trait Numbers: Copy {
    // The states of their workers between rounds.
    type Workers: Copy;

    // Each has a logarithm (L1).
    ghost loggable: { Self → Type 0 };

    // The sheet gives the logarithm of none of them (L5).
    ghost past_sheet: { Self → Bool };

    // The logarithm of each.
    ghost logs: { Self → Self };

    // The workers after so many rounds (L3).
    ghost after: { ℕ → Self → Self.Workers };

    // Each worker can do one more round.
    ghost ready: { Self.Workers → Type 0 };

    // One more round of each.
    ghost rounded: { Self.Workers → Self.Workers };

    // The bits that each has found.
    ghost found: { Self.Workers → Self };

    // All have to be found by rounds.
    fn past_sheet(self) -> bool
        requires { loggable self }
        ensures { result ≡ past_sheet self };

    // One logarithm after the other, since the sheet has at least one of them.
    fn in_turn(self, sheet: &Sheet) -> Self
        requires loggable { loggable self }
        requires some { past_sheet self ≡ false }
        ensures { result ≡ logs self };

    // From here on the rounds can be done, and they find the logarithms.
    fn start(self) -> Self::Workers
        requires { loggable self }
        ensures begun { result ≡ after 0 self }
        ensures can { (n : ℕ) → n < round_count → ready (after n self) }
        ensures more { (n : ℕ) → rounded (after n self) ≡ after (n + 1) self }
        ensures done { found (after round_count self) ≡ logs self };

    // A round of each.
    fn round(workers: Self::Workers) -> Self::Workers
        requires { ready workers }
        ensures { result ≡ rounded workers };

    fn bits(workers: Self::Workers) -> Self
        ensures { result ≡ found workers };
}

impl Numbers for u64 {
    type Workers = Logarithm;

    ghost loggable = { Loggable };

    ghost past_sheet = { λ x. not (on_sheet x) };

    ghost logs = { lg };

    ghost after = { λ n x. after n (start x) };

    ghost ready = { Ready };

    ghost rounded = { round };

    ghost found = { λ s. s.bits };

    fn past_sheet(self) -> bool {
        !Odd::of(self).is_on_sheet()
    }

    fn in_turn(self, sheet: &Sheet) -> u64 {
        sheet.read(Odd::of(self))
    }

    fn start(self) -> Logarithm {
        Logarithm::start(self)
    }

    fn round(worker: Logarithm) -> Logarithm {
        worker.round()
    }

    fn bits(worker: Logarithm) -> u64 {
        worker.bits
    }
}

impl<A: Numbers, B: Numbers> Numbers for (A, B) {
    type Workers = (A::Workers, B::Workers);

    ghost loggable = { λ x. A.loggable x.0 × B.loggable x.1 };

    ghost past_sheet = { λ x. A.past_sheet x.0 && B.past_sheet x.1 };

    ghost logs = { λ x. (A.logs x.0, B.logs x.1) };

    ghost after = { λ n x. (A.after n x.0, B.after n x.1) };

    ghost ready = { λ s. A.ready s.0 × B.ready s.1 };

    ghost rounded = { λ s. (A.rounded s.0, B.rounded s.1) };

    ghost found = { λ s. (A.found s.0, B.found s.1) };

    fn past_sheet(self) -> bool {
        self.0.past_sheet() && self.1.past_sheet()
    }

    fn in_turn(self, sheet: &Sheet) -> (A, B) {
        (sheet.lg(self.0), sheet.lg(self.1))
    }

    fn start(self) -> (A::Workers, B::Workers) {
        (self.0.start(), self.1.start())
    }

    fn round(workers: (A::Workers, B::Workers)) -> (A::Workers, B::Workers) {
        (A::round(workers.0), B::round(workers.1))
    }

    fn bits(workers: (A::Workers, B::Workers)) -> (A, B) {
        (A::bits(workers.0), B::bits(workers.1))
    }
}
