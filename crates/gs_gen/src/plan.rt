ghost use Rattle.std.specs.Prelude.{◌≡◌, IfOk};
ghost use Rattle.gs_gen.specs.Texts.{plan_text};

use gs_text::Lines;
use std::alloc::{AllocError, Global};

/// The plan file of a generated network: a ring of `size` nodes with the numbers of `base:N`. A plan of 3
/// to 512 nodes is meant; the text is that of any size.
#[tactic(auto, unfolding(crate::specs::Texts::plan_text))]
pub fn plan_text(alloc: Global, size: u32) -> Result<Lines, AllocError>
    ensures { IfOk result (λ text. text ≡ plan_text size) }
{
    let mut text = Lines::new(alloc);
    text.word("version = 1\ncluster = 7\ntopology = \"ring\"\nnodes = ")?;
    text.num(u128::from(size))?;
    text.word("\nlo = 10000\nhi = 10001\nmu = 2000\ntick = 100\ndelay_min = 2\ndelay_max = 12\n")?;
    text.word("every = 1\nlosses = 3\nage = 412\n")?;
    Ok(text)
}
