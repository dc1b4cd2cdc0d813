ghost use Rattle.std.specs.Prelude.{◌≡◌, ◌*◌, ◌<◌, ◌≤◌, ◌^◌, ◌↔◌, ◌⊎◌, Some, None, IfOk, IfErr};
ghost use Rattle.gs_units.specs.Accepted.{IsRate};

use std::error::Error;
use std::fmt;

/// Readings, clocks and maxima stay below this number of clock units.
pub const END: u64 = 1 << 62;

/// How a logical clock follows its hardware clock.
#[derive(Clone, Copy, Debug, PartialEq, Eq)]
pub enum Mode {
    /// At the hardware rate.
    Slow,
    /// At the hardware rate and the boost.
    Fast,
}

/// The first thing that is wrong with the numbers of a rate.
#[derive(Clone, Copy, Debug, PartialEq, Eq)]
pub enum RateFault {
    /// `lo` is 0.
    Low,
    /// `hi` is not above `lo`, or is above 2^30.
    High,
    /// `mu` is 0 or above 100,000.
    Boost,
}

impl fmt::Display for RateFault {
    ghost use Rattle.gs_units.specs.FaultWords.{why_of};

    ghost output = { λ f. Some (why_of f) };

    fn fmt<W: fmt::Write>(&self, f: &mut fmt::Formatter<W>) -> fmt::Result {
        match self {
            RateFault::Low => f.write_str("low"),
            RateFault::High => f.write_str("high"),
            RateFault::Boost => f.write_str("boost"),
        }
    }
}

impl Error for RateFault {}

/// How fast clocks may run: a hardware clock adds `lo` to `hi` units in one quantum, and the fast
/// mode adds `mu` parts per million to that. Every value of this type was accepted by `new`.
#[derive(Clone, Copy, Debug, PartialEq, Eq)]
pub struct Rate {
    lo: u32,
    hi: u32,
    mu: u32,
    ghost accepted: { IsRate lo hi mu },
}

impl Rate {
    ghost use Rattle.gs_units.specs.Faults.{rate_fault};
    ghost use Rattle.gs_units.specs.Rates.{HasNumbers, boost_of, creep_of, r_of, q_of, g_of, top_of, sigma_of, steer_of};

    /// Takes the numbers of a plan. See `docs/MODEL.md`, "The numbers of a plan".
    pub fn new(lo: u32, hi: u32, mu: u32) -> Result<Rate, RateFault>
        ensures ok { IfOk result (λ rate. HasNumbers lo hi mu rate × (rate_fault lo hi mu ≡ None)) }
        ensures err { IfErr result (λ fault. rate_fault lo hi mu ≡ Some fault) }

        // The same, fault by fault.
        ensures low { (result ≡ Err RateFault.Low) ↔ (lo ≡ 0) }
        ensures high { (result ≡ Err RateFault.High) ↔ ((1 ≤ lo) × ((hi ≤ lo) ⊎ (2 ^ 30 < hi))) }
        ensures boost { (result ≡ Err RateFault.Boost)
            ↔ ((1 ≤ lo) × (lo < hi) × (hi ≤ 2 ^ 30) × ((mu ≡ 0) ⊎ (100000 < mu))) }
    {
        if lo == 0 {
            return Err(RateFault::Low);
        }
        if hi <= lo || hi > 1 << 30 {
            return Err(RateFault::High);
        }
        if mu == 0 || mu > 100_000 {
            return Err(RateFault::Boost);
        }
        Ok(Rate { lo, hi, mu })
    }

    /// The least that a hardware clock adds in one quantum, in clock units.
    pub fn lo(&self) -> u32
        ensures { result ≡ self.now.lo }
    {
        self.lo
    }

    /// The greatest that a hardware clock adds in one quantum, in clock units.
    pub fn hi(&self) -> u32
        ensures { result ≡ self.now.hi }
    {
        self.hi
    }

    /// The boost of the fast mode, in parts per million.
    pub fn mu(&self) -> u32
        ensures { result ≡ self.now.mu }
    {
        self.mu
    }

    /// How far two hardware clocks may drift apart in one quantum: `hi - lo`.
    pub fn r(&self) -> u64
        ensures { result ≡ r_of self.now }
    {
        u64::from(self.hi - self.lo)
    }

    /// What the fast mode adds while the hardware clock grows by `h`: `floor(h * mu / 10^6)`.
    pub fn boost(&self, h: u64) -> u64
        requires { h < END }
        ensures { result ≡ boost_of self.now h }
    {
        // A product below 2^63 needs no wide division; so does the creep.
        if h < 1 << 46 {
            h * u64::from(self.mu) / 1_000_000
        } else {
            (u128::from(h) * u128::from(self.mu) / 1_000_000) as u64
        }
    }

    /// What any clock has grown by at least while this hardware clock grew by `h`:
    /// `floor(h * lo / hi)`.
    pub fn creep(&self, h: u64) -> u64
        requires { h < END }
        ensures value { result ≡ creep_of self.now h }
        ensures at_most { result ≤ h }
    {
        if h < 1 << 33 {
            h * u64::from(self.lo) / u64::from(self.hi)
        } else {
            (u128::from(h) * u128::from(self.lo) / u128::from(self.hi)) as u64
        }
    }

    /// The least boost of one quantum: `boost(lo)`.
    pub fn q(&self) -> u64
        ensures { result ≡ q_of self.now }
    {
        self.boost(u64::from(self.lo))
    }

    /// The least creep of one quantum: `creep(lo)`.
    pub fn g(&self) -> u64
        ensures { result ≡ g_of self.now }
    {
        self.creep(u64::from(self.lo))
    }

    /// The greatest that one quantum adds to a logical clock: `hi + boost(hi) + 1`.
    pub fn top(&self) -> u64
        ensures { result ≡ top_of self.now }
    {
        u64::from(self.hi) + self.boost(u64::from(self.hi)) + 1
    }

    /// How many times the drift `r` of one quantum goes into its boost `q`: `floor(q / r)`.
    pub fn sigma(&self) -> u64
        ensures { result ≡ sigma_of self.now }
    {
        self.q() / self.r()
    }

    /// What a logical clock grows by in this mode while its hardware clock grows by `h`.
    pub fn steer(&self, mode: Mode, h: u64) -> u64
        requires { h < END }
        ensures value { result ≡ steer_of self.now mode h }
        ensures at_least { h ≤ result }
        ensures at_most { result ≤ 2 * h }
    {
        match mode {
            Mode::Slow => h,
            Mode::Fast => h + self.boost(h),
        }
    }
}
