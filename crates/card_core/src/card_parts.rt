//! The parts of a card that its commands borrow.

use command_base::Current;
use file_tree::{FreeSpace, Index};
use undo_journal::{Board, Store};

/// The parts of a card that its commands borrow.
/// `IsWholeCard` is their common invariant while the card works.
#[derive(Drop)]
pub(crate) struct CardParts<B: Board> {
    pub store: Store<B>,
    pub current: Current,
    pub free: FreeSpace,
    pub index: Index,
}
