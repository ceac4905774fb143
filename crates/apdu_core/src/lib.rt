//! Parses the bytes of a short command into a value (ISO/IEC 7816-4, clause 5).
#![tactic(auto)]

mod binary;
mod commands;
mod files;
mod form;
pub mod laws;
mod life_cycles;
mod path;
mod pins;
mod records;
mod select;

use arrayvec::ArrayVec;
pub use binary::BinaryPlace;
use card_model::limits::MOST_ANSWER_DATA;
pub use card_model::{
    LifeCycleChange, RecordChoice, RecordPlace, RequirementChange, Returned, Subject, Sw, Target,
};
pub use commands::Command;
pub use path::FilePath;
pub use pins::Replacement;
pub use select::Selector;

/// The most bytes of an answer: its data and a status word.
pub const MOST_ANSWER_BYTES: usize = MOST_ANSWER_DATA + 2;

/// An answer: its data and its status word, 2 to 258 bytes.
pub type Answer = ArrayVec<u8, MOST_ANSWER_BYTES>;
