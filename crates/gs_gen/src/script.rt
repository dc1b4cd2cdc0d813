ghost use Rattle.std.specs.Prelude.{◌≡◌, ◌<◌, ◌++◌, IfOk, OnOk};
ghost use Rattle.gs_gen.specs.Texts.{node_records, nodes_records, script_text};

use crate::draws::Draws;
use crate::records::write_record;
use gs_text::Lines;
use rand_core::SeedableRng;
use rand_pcg::Pcg32;
use std::alloc::{AllocError, Global};

/// The quanta of a generated run. All records of a node hold in all of them.
const QUANTA: u32 = 4000;

/// The script file of a generated network of `size` nodes, for the plan of `plan_text`. The drift, gap and
/// delay of each node in turn are drawn from the generator PCG32 (XSH RR 64/32, after O'Neill), seeded by
/// `number`; what node 0 sends node 1 in the first 50 quanta is lost.
#[tactic(auto, unfolding(crate::specs::Texts::script_text))]
pub fn script_text(alloc: Global, number: u64, size: u32) -> Result<Lines, AllocError>
    ensures { IfOk result (λ text. text ≡ script_text number size) }
{
    let mut text = Lines::new(alloc);
    write_record(&mut text, "quanta", &[QUANTA])?;
    write_nodes(&mut text, number, size)?;
    write_record(&mut text, "loss", &[0, 1, 1, 50, 1])?;
    Ok(text)
}

/// The records of all nodes.
fn write_nodes(text: &mut Lines, number: u64, size: u32) -> Result<(), AllocError>
    ensures { OnOk result (text.new ≡ text.old ++ nodes_records number size size) }
{
    let mut generator = Pcg32::seed_from_u64(number);
    for v in 0..size {
        let draws = Draws::next(&mut generator);
        write_node(text, v, size, draws)?;
    }
    Ok(())
}

/// The records of node `v`: its drift, its gap between ticks, and the delay to the node after it.
#[tactic(auto, using(crate::proofs::Joining::three_pieces), unfolding(crate::specs::Texts::node_records))]
fn write_node(text: &mut Lines, v: u32, size: u32, draws: Draws) -> Result<(), AllocError>
    requires { v < size }
    ensures { OnOk result (text.new ≡ text.old ++ node_records size v draws) }
{
    write_record(text, "drift", &[v, 1, QUANTA, 10_000 + draws.drift % 2])?;
    write_record(text, "tick", &[v, 1, QUANTA, 50 + draws.gap % 51])?;
    let next = (v + 1) % size;
    write_record(text, "delay", &[v, next, 1, QUANTA, 2 + draws.delay % 11])
}
