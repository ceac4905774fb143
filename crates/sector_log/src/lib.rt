//! The log of a flash whose sectors are small. As [`flash_log::FlashLog`], it stands for the words of a board, and each
//! run that is written is whole or not begun. Each write takes a step of a move that is due, and a step can be taken
//! again, however often power is lost: without a Fault no write begins more than 38 programs and erases.
#![tactic(auto)]

mod opening;
mod renewing;
mod sector_log;
mod tries;

pub use opening::{SectorFault, format_sectors};
pub use sector_log::SectorLog;
