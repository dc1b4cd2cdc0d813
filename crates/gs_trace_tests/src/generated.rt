use gs_gen::{plan_text, script_text};
use std::alloc::AllocError;

const PLAN: &str = "version = 1
cluster = 7
topology = \"ring\"
nodes = 3
lo = 10000
hi = 10001
mu = 2000
tick = 100
delay_min = 2
delay_max = 12
every = 1
losses = 3
age = 412
";

/// Of number 1, with draws that a generator written apart from the published description gave.
const SCRIPT: &str = "quanta,4000
drift,0,1,4000,10000
tick,0,1,4000,79
delay,0,1,1,4000,2
drift,1,1,4000,10000
tick,1,1,4000,85
delay,1,2,1,4000,9
drift,2,1,4000,10000
tick,2,1,4000,90
delay,2,0,1,4000,5
loss,0,1,1,50,1
";

#[test]
fn the_network_of_number_1_and_size_3(rt: HostRuntime) -> Result<(), AllocError> {
    let alloc = rt.alloc();
    assert!(rt; plan_text(alloc, 3)?.bytes() == PLAN.as_bytes());
    assert!(rt; script_text(alloc, 1, 3)?.bytes() == SCRIPT.as_bytes());
    Ok(())
}
