//! The values of the header's words. Their places and the mark of a format are in block_chain and file_tree.

/// The value of the header's state word for a card in use.
pub const CARD_IN_USE: u32 = 0;
