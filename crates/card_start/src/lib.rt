//! Power-on of a card: which memories are valid card images, their migration to format 2, and the factory image. Also
//! what a powered card is.
#![tactic(auto)]

mod check;
mod factory;
mod faults;
mod layout;
mod memory_format;
mod state;
mod surveying;

pub use check::header_word;
pub use factory::{format, format_old};
pub use faults::{PowerLost, StartFault};
pub use layout::CARD_IN_USE;
pub use memory_format::MemoryFormat;
pub use state::CardState;
pub use surveying::{survey_card, survey_of};
