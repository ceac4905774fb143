//! Chains, as callers name them.

/// A chain of blocks, by its first and its last block.
#[derive(Clone, Copy, Default)]
pub struct Chain {
    /// The page of the first block.
    pub first: u16,
    /// The page of the last block.
    pub last: u16,
}

/// A chain with its number of blocks.
#[derive(Clone, Copy, Default)]
pub struct Extent {
    /// The chain.
    pub chain: Chain,
    /// The number of its blocks.
    pub blocks: u16,
}

/// Free blocks from the first one on, as a chain that is not taken yet.
#[derive(Clone, Copy)]
pub struct FreeRun {
    /// The first and the last of them.
    pub chain: Chain,
    /// The page of the free block after them, or 0.
    pub rest: u16,
}
