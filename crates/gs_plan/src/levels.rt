ghost use Rattle.std.specs.Prelude.{◌≡◌, ◌+◌, ◌*◌, ◌<◌, ◌≤◌, ◌^◌};
ghost use Rattle.gs_plan.specs.Levels.{best_of};
ghost use Rattle.gs_units.specs.Rates.{bound_at};

/// The bounds of levels up to `last`, from the bound of level 0. A level has the bound of the one
/// below it, over `sigma` and rounded up, and `r`.
#[derive(Clone, Copy, Debug, PartialEq, Eq)]
pub(crate) struct Levels {
    pub(crate) first: u64,
    pub(crate) sigma: u64,
    pub(crate) r: u64,
    pub(crate) last: u32,
    ghost first_fits: { first < 2 ^ 62 },
    ghost some_sigma: { 1 ≤ sigma },
    ghost r_fits: { r < 2 ^ 30 },
    ghost few: { last ≤ 32 },
}

#[tactic(auto, using(crate::proofs::Rising::steps))]
impl Levels {
    /// The bound of level `s`. Bounds rise by less than 2^30 a level, if at all.
    pub(crate) fn bound(&self, s: u32) -> u64
        requires { s ≤ self.now.last }
        ensures value { result ≡ bound_at self.now.first self.now.sigma self.now.r s }
        ensures fits { result < 2 ^ 63 }
    {
        let mut bound = self.first;
        for _level in 0..s {
            bound = bound.div_ceil(self.sigma) + self.r;
        }
        bound
    }

    /// The bound of level `s` for the ends of an edge of this kappa.
    pub(crate) fn skew(&self, kappa: u64, s: u32) -> u64
        requires level { s ≤ self.now.last }
        requires fits { 2 * self.now.last * kappa < 2 ^ 62 }
        ensures { result ≡ 2 * s * kappa + bound_at self.now.first self.now.sigma self.now.r s }
    {
        2 * u64::from(s) * kappa + self.bound(s)
    }

    /// The level with the least bound for the ends of an edge of this kappa, the first of those,
    /// and that bound.
    pub(crate) fn best(&self, kappa: u64) -> (u32, u64)
        requires { 2 * self.now.last * kappa < 2 ^ 62 }
        ensures { result ≡ best_of
            (λ s. 2 * s * kappa + bound_at self.now.first self.now.sigma self.now.r s) self.now.last }
    {
        let mut best = (0, self.skew(kappa, 0));
        for below in 0..self.last {
            let skew = self.skew(kappa, below + 1);
            if skew < best.1 {
                best = (below + 1, skew);
            }
        }
        best
    }
}
