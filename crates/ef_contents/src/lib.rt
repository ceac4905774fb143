//! The contents of an EF, as lists of bytes in slots, and the refusals of calls on them (ISO/IEC 7816-4, 7.3 and
//! 11.3 to 11.4).
#![tactic(auto)]

mod error;

pub use error::{BodyErr, from_store};
