//! Slot plans: nodes of a slotted radio send by their logical clocks, and no two that are near each other
//! send at one moment.
#![tactic(auto)]

pub use fault::SlotFault;
pub use laws::slots_never_collide;
pub use sending::slot_run;
pub use slot_plan::{SlotPlan, slots};

mod colours;
mod fault;
mod laws;
mod near;
mod sending;
mod slot_plan;
