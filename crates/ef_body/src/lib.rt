//! The bodies of EFs, which are their contents in a memory: bytes (transparent), records in number order (linear) or
//! newest first (cyclic) (ISO/IEC 7816-4, 7.3 and 11.3 to 11.4; ETSI TS 102 221, 8.2.2).
#![tactic(auto)]

mod chain_block;
mod cyclic;
pub mod laws;
mod layout;
mod linear;
mod number;
mod reading;
mod record_body;
mod search;
mod slot;
mod transparent;
mod writing;

pub use cyclic::Cyclic;
pub use layout::{MOST_RECORD_BYTES, RECORD_WRITES, UPDATE_WRITES};
pub use linear::Linear;
pub use record_body::RecordBody;
pub use slot::{FreeSlot, RecordSlot};
pub use transparent::Transparent;
