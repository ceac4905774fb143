//! What a card keeps in working memory while its board is elsewhere.

use command_base::Current;
use file_tree::{FreeSpace, Index};

/// The session of a paused card, with its counts of free space and its index of files.
/// It belongs to the words of one memory: `Card::resume` takes it back.
#[derive(Drop)]
pub struct Paused {
    pub(crate) current: Current,
    pub(crate) free: FreeSpace,
    pub(crate) index: Index,
}
