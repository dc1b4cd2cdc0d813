ghost use Rattle.std.specs.Prelude.{◌≡◌, map, string_bytes, Some, None, IfSome, IfNone};
ghost use Rattle.gs_tool.specs.Commands.{command_of, part_of, plan_args, play_args, trace_args};
ghost use Rattle.gs_tool.specs.Commands.{audit_args, replay_args, gen_args, migrate_args, settle_args, slots_args};
ghost use Rattle.gs_tool.specs.Commands.{order_args};
ghost use Rattle.gs_tool.specs.inside.Meaning.{meaning};

use gs_cli::number_within;

/// What `gen` writes of a generated network.
#[derive(Clone, Copy, Debug, PartialEq, Eq)]
pub enum Part {
    /// The text of its plan.
    Plan,
    /// The text of its script.
    Script,
    /// The report of playing that script.
    Run,
}

/// A command with its words, each of which stands at a fixed place. See `docs/FORMATS.md`,
/// "Commands".
#[derive(Clone, Copy, Debug, PartialEq, Eq)]
pub enum Command<'w> {
    Plan {
        plan: &'w str,
    },
    Play {
        plan: &'w str,
        script: &'w str,
        workers: u32,
    },
    Trace {
        plan: &'w str,
        script: &'w str,
    },
    Audit {
        plan: &'w str,
        trace: &'w str,
    },
    Replay {
        plan: &'w str,
        node: u32,
        trace: &'w str,
    },
    Gen {
        number: u64,
        size: u32,
        part: Part,
    },
    Migrate {
        plan: &'w str,
    },
    Settle {
        plan: &'w str,
        script: &'w str,
        gamma: u64,
    },
    Slots {
        plan: &'w str,
        script: &'w str,
        reach: u32,
        slot: u64,
    },
    Order {
        plan: &'w str,
        script: &'w str,
        every: u32,
    },
}

/// The command that the words of a command line spell.
pub fn command_of(words: &[String]) -> Option<Command<'_>>
    ensures some { IfSome result (λ c. command_of (map string_bytes words.now) ≡ Some (meaning c)) }
    ensures none { IfNone result (command_of (map string_bytes words.now) ≡ None) }
{
    let [name, args @ ..] = words else {
        return None;
    };
    match name.as_str() {
        "plan" => plan_args(args),
        "play" => play_args(args),
        "trace" => trace_args(args),
        "audit" => audit_args(args),
        "replay" => replay_args(args),
        "gen" => gen_args(args),
        "migrate" => migrate_args(args),
        "settle" => settle_args(args),
        "slots" => slots_args(args),
        "order" => order_args(args),
        _ => None,
    }
}

fn part_of(word: &str) -> Option<Part>
    ensures { result ≡ part_of word.now }
{
    match word {
        "plan" => Some(Part::Plan),
        "script" => Some(Part::Script),
        "run" => Some(Part::Run),
        _ => None,
    }
}

fn plan_args(args: &[String]) -> Option<Command<'_>>
    ensures some { IfSome result (λ c. plan_args (map string_bytes args.now) ≡ Some (meaning c)) }
    ensures none { IfNone result (plan_args (map string_bytes args.now) ≡ None) }
{
    let [plan] = args else {
        return None;
    };
    Some(Command::Plan {
        plan: plan.as_str(),
    })
}

fn play_args(args: &[String]) -> Option<Command<'_>>
    ensures some { IfSome result (λ c. play_args (map string_bytes args.now) ≡ Some (meaning c)) }
    ensures none { IfNone result (play_args (map string_bytes args.now) ≡ None) }
{
    let [plan, script, workers] = args else {
        return None;
    };
    Some(Command::Play {
        plan: plan.as_str(),
        script: script.as_str(),
        workers: number_within(workers.as_str(), 1, 64)? as u32,
    })
}

fn trace_args(args: &[String]) -> Option<Command<'_>>
    ensures some { IfSome result (λ c. trace_args (map string_bytes args.now) ≡ Some (meaning c)) }
    ensures none { IfNone result (trace_args (map string_bytes args.now) ≡ None) }
{
    let [plan, script] = args else {
        return None;
    };
    Some(Command::Trace {
        plan: plan.as_str(),
        script: script.as_str(),
    })
}

fn audit_args(args: &[String]) -> Option<Command<'_>>
    ensures some { IfSome result (λ c. audit_args (map string_bytes args.now) ≡ Some (meaning c)) }
    ensures none { IfNone result (audit_args (map string_bytes args.now) ≡ None) }
{
    let [plan, trace] = args else {
        return None;
    };
    Some(Command::Audit {
        plan: plan.as_str(),
        trace: trace.as_str(),
    })
}

fn replay_args(args: &[String]) -> Option<Command<'_>>
    ensures some { IfSome result (λ c. replay_args (map string_bytes args.now) ≡ Some (meaning c)) }
    ensures none { IfNone result (replay_args (map string_bytes args.now) ≡ None) }
{
    let [plan, node, trace] = args else {
        return None;
    };
    Some(Command::Replay {
        plan: plan.as_str(),
        node: number_within(node.as_str(), 0, u64::from(u32::MAX))? as u32,
        trace: trace.as_str(),
    })
}

fn gen_args(args: &[String]) -> Option<Command<'_>>
    ensures some { IfSome result (λ c. gen_args (map string_bytes args.now) ≡ Some (meaning c)) }
    ensures none { IfNone result (gen_args (map string_bytes args.now) ≡ None) }
{
    let [number, size, part] = args else {
        return None;
    };
    Some(Command::Gen {
        number: number_within(number.as_str(), 0, u64::MAX)?,
        size: number_within(size.as_str(), 3, 512)? as u32,
        part: part_of(part.as_str())?,
    })
}

fn migrate_args(args: &[String]) -> Option<Command<'_>>
    ensures some { IfSome result (λ c. migrate_args (map string_bytes args.now) ≡ Some (meaning c)) }
    ensures none { IfNone result (migrate_args (map string_bytes args.now) ≡ None) }
{
    let [plan] = args else {
        return None;
    };
    Some(Command::Migrate {
        plan: plan.as_str(),
    })
}

fn settle_args(args: &[String]) -> Option<Command<'_>>
    ensures some { IfSome result (λ c. settle_args (map string_bytes args.now) ≡ Some (meaning c)) }
    ensures none { IfNone result (settle_args (map string_bytes args.now) ≡ None) }
{
    let [plan, script, gamma] = args else {
        return None;
    };
    Some(Command::Settle {
        plan: plan.as_str(),
        script: script.as_str(),
        gamma: number_within(gamma.as_str(), 0, 1 << 61)?,
    })
}

fn slots_args(args: &[String]) -> Option<Command<'_>>
    ensures some { IfSome result (λ c. slots_args (map string_bytes args.now) ≡ Some (meaning c)) }
    ensures none { IfNone result (slots_args (map string_bytes args.now) ≡ None) }
{
    let [plan, script, reach, slot] = args else {
        return None;
    };
    Some(Command::Slots {
        plan: plan.as_str(),
        script: script.as_str(),
        reach: number_within(reach.as_str(), 0, u64::from(u32::MAX))? as u32,
        slot: number_within(slot.as_str(), 0, u64::MAX)?,
    })
}

fn order_args(args: &[String]) -> Option<Command<'_>>
    ensures some { IfSome result (λ c. order_args (map string_bytes args.now) ≡ Some (meaning c)) }
    ensures none { IfNone result (order_args (map string_bytes args.now) ≡ None) }
{
    let [plan, script, every] = args else {
        return None;
    };
    Some(Command::Order {
        plan: plan.as_str(),
        script: script.as_str(),
        every: number_within(every.as_str(), 1, 1_048_576)? as u32,
    })
}
