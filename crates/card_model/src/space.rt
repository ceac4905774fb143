//! Free space of a card.

/// The space that is free for new files.
#[derive(Clone, Copy, Debug, PartialEq, Eq)]
pub struct FreeSpace {
    /// The number of blocks that belong to no file.
    pub blocks: u16,
    /// The number of file entries that belong to no file.
    pub entries: u16,
}
