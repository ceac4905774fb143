//! Boards that are simulated in working memory: a plain one, one that loses power at a set write, one whose device
//! fails at a set call or write, and one that something outside of it follows, as a file does; and a board on a
//! flash that loses power at a set write.
#![tactic(auto)]

mod arming;
mod cut_board;
mod cut_flash_board;
mod cut_socket;
mod fault_board;
mod flash_sockets;
mod followed;
mod follower;
mod kept_board;
mod ram_board;
mod runs;

pub use cut_board::CutBoard;
pub use cut_flash_board::CutFlashBoard;
pub use cut_socket::{CutSocket, FollowedSocket};
pub use fault_board::{Counted, FaultBoard};
pub use flash_sockets::{board_on_flash, board_on_sectors};
pub use followed::Followed;
pub use follower::Follower;
pub use kept_board::KeptBoard;
pub use ram_board::RamBoard;
