//! A paused card with its end of the link.
ghost use Rattle.std.specs.Prelude.{◌≡◌, None};

use card_core::Paused;
use t1_link::CardEnd;

/// The session of a paused card, with its end of the link. `Powered::resume` takes them back.
#[derive(Drop)]
pub struct PausedLink {
    pub(crate) card: Paused,
    pub(crate) link: CardEnd,
    // No command waits for its answer: the card is between two blocks.
    ghost idle: { link.waiting ≡ None },
}
