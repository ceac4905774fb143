//! The card without memory: files, contents, life cycles, access rules, PINs, free space and status words; and its
//! commands: requests, sessions, refusals in their order, steps and stages. Words, pages, journals and boards are
//! defined elsewhere.
#![tactic(auto)]

mod access_mode;
mod compact;
mod descriptor;
mod direction;
mod fault;
mod fcp;
pub mod identifiers;
pub mod laws;
mod life_cycle;
pub mod limits;
mod pins;
mod requests;
mod space;
mod status;

pub use access_mode::{AccessBit, AccessMode};
pub use compact::{Compact, allows};
pub use descriptor::{Descriptor, Structure};
pub use direction::Direction;
pub use fault::FcpFault;
pub use fcp::{DfName, Fcp, FileKind, Records, ShortIdentifier};
pub use life_cycle::{LifeCycle, LifeCycleCommand};
pub use pins::{PINS, PinNumber, PinSet};
pub use requests::{
    LifeCycleChange, RecordChoice, RecordPlace, RequirementChange, Returned, Subject, Target,
};
pub use space::FreeSpace;
pub use status::Sw;
