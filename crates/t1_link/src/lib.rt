//! Both ends of the block protocol T=1, and the law of the link over a lossy line (ISO/IEC 7816-3, third edition,
//! clause 11).
#![tactic(auto)]

mod block;
mod card_end;
pub mod laws;
mod outgoing;
mod reader_end;
mod sequence_number;
pub mod world_laws;

pub use block::{BlockBytes, FIELD_LIMIT};
pub use card_end::{Action, AnswerBytes, CardEnd, LONGEST_ANSWER};
pub use outgoing::LONGEST_COMMAND;
pub use reader_end::{Failure, Next, ReaderEnd};
