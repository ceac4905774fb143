//! Bytes of the chains of a store: calls that read them, and updates. An update sets the touched words in order, in a
//! transaction.
#![tactic(auto)]

mod bytes;
pub mod laws;
mod reading;
mod update;

pub use bytes::set_bytes;
pub use reading::{block_at, byte_at, read_bytes};
pub use update::put_bytes;
