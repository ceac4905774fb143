//! New boards with a card: the factory card, or the card of a memory image.
#![tactic(auto)]

mod blank_flash;
mod card_sizes;
mod factory;
mod flash_factory;
mod flash_image;
mod image;

pub use card_sizes::CardSizes;
pub use factory::{factory_board, factory_board_of};
pub use flash_factory::factory_flash;
pub use flash_image::{NoFlashCard, flash_of_words};
pub use image::{NoCard, image_board};
