//! Stamps that rise across restarts. A stamper issues rising numbers, and after a crash at any
//! moment it goes on above all that it has issued.
#![tactic(auto)]

pub use in_memory::MemStore;
pub use laws::stamps_rise;
pub use on_file::FileStore;
pub use stamping::{OpenStop, StampFault, Stamper};
pub use stores::Store;

mod in_memory;
mod laws;
mod on_file;
mod slots;
mod stamping;
mod stores;
