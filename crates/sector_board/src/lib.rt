//! A board on a flash with small sectors. Each write of the board is whole or not begun, since that of its log is, and
//! none is long.
#![tactic(auto)]

mod sector_board;

pub use sector_board::SectorBoard;
