//! A bench that plays turns: power on, power off, and blocks to the card's end of the link. The same of a card on a
//! flash, whatever each power loss leaves in it.
#![tactic(auto)]

mod forgetting_on_flash;
mod forgetting_on_sectors;
mod paused_link;
mod playing;
mod playing_on_flash;
mod playing_on_sectors;
mod powered;

pub use forgetting_on_flash::{clear_flash, forget_on_flash};
pub use forgetting_on_sectors::{clear_sectors, forget_on_sectors};
pub use paused_link::PausedLink;
pub use playing::Bench;
pub use playing_on_flash::play_on_flash;
pub use playing_on_sectors::play_on_sectors;
pub use powered::Powered;
