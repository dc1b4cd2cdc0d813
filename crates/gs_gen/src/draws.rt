use rand_core::utils::NextWord;
use rand_pcg::Pcg32;

/// The three words that a node draws, in this order.
#[derive(Clone, Copy)]
pub(crate) struct Draws {
    /// The word that the drift of its clock is made of.
    pub(crate) drift: u32,
    /// That of its gap between ticks.
    pub(crate) gap: u32,
    /// That of the delay of its beacons to the next node.
    pub(crate) delay: u32,
}

impl Draws {
    ghost use Rattle.std.specs.Prelude.{◌≡◌};
    ghost use Rattle.gs_gen.specs.Draws.{after_three, next_three};

    /// The next three words of the generator.
    pub(crate) fn next(generator: &mut Pcg32) -> Draws
        ensures three { result ≡ next_three generator.old }
        ensures rest { generator.new ≡ after_three generator.old }
    {
        let drift = generator.next_word();
        let gap = generator.next_word();
        let delay = generator.next_word();
        Draws { drift, gap, delay }
    }
}
