//! Ranges of the message of a receive that are lent while their bytes are copied.
ghost use Rattle.std.specs.Prelude.{◌≡◌, IfOk, MatchOption};
ghost use Rattle.rdm_land.specs.Landed.{MayLend, IsPartOf, IsLent};
ghost use Rattle.rdm_receives.specs.Answers.{after_loan, unlent, landed};

use crate::receive::Receive;
use rdm_gaps::NoMemory;
use rdm_mr::Part;

impl Receive {
    /// Lends the part of its range that a range of its message fills, if all of that is missing and some
    /// of it fits.
    pub fn lend(&mut self, at: u64, len: u64) -> Result<Option<Part>, NoMemory>
        ensures answer { IfOk result (λ out. MatchOption out (MayLend self.old.landed at len → ⊥) (λ part. MayLend self.old.landed at len × IsPartOf self.old.landed at len part)) }
        ensures after { self.new ≡ after_loan self.old at len result }
    {
        self.landing.lend(at, len)
    }

    /// Takes the part of a range that is lent back, and the range is missing again.
    pub fn unlend(&mut self, at: u64, len: u64, part: Part)
        requires { IsLent self.old.landed at len part }
        ensures { self.new ≡ unlent self.old at len part }
    {
        self.landing.lent_law();
        self.landing.unlend(at, len, part);
    }

    /// Takes the part of a range that is lent back, with the bytes of the range that fit. It wants no
    /// memory.
    pub fn land(&mut self, at: u64, len: u64, part: Part)
        requires { IsLent self.old.landed at len part }
        ensures { self.new ≡ landed self.old at len part }
    {
        self.landing.land(at, len, part);
    }
}
