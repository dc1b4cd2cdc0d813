ghost use Rattle.std.specs.Prelude.{◌≡◌, map, string_bytes, Some, None, IfSome, IfNone};
ghost use Rattle.gs_node_run.specs.Words.{order_in, order_of};
ghost use Rattle.gs_node_run.specs.inside.Meaning.{meaning};

use gs_cli::number_within;

/// What the words `node PLAN NODE TICKS` ask for.
#[derive(Clone, Copy, Debug)]
pub struct Order<'w> {
    /// The word that names the plan.
    pub plan: &'w str,
    /// The node.
    pub node: u32,
    /// How many turns its timer takes.
    pub ticks: u32,
}

/// What the words of a command line ask for, where they are `node PLAN NODE TICKS`.
pub fn order_of(words: &[String]) -> Option<Order<'_>>
    ensures some { IfSome result (λ order. order_of (map string_bytes words.now) ≡ Some (meaning order)) }
    ensures none { IfNone result (order_of (map string_bytes words.now) ≡ None) }
{
    let [name, args @ ..] = words else {
        return None;
    };
    match name.as_str() {
        "node" => order_in(args),
        _ => None,
    }
}

fn order_in(args: &[String]) -> Option<Order<'_>>
    ensures some { IfSome result (λ order. order_in (map string_bytes args.now) ≡ Some (meaning order)) }
    ensures none { IfNone result (order_in (map string_bytes args.now) ≡ None) }
{
    let [plan, node, ticks] = args else {
        return None;
    };
    let node = number_within(node.as_str(), 0, u64::from(u32::MAX))?;
    let ticks = number_within(ticks.as_str(), 1, 1_048_576)?;
    Some(Order {
        plan: plan.as_str(),
        node: node as u32,
        ticks: ticks as u32,
    })
}
