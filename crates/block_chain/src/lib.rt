//! Blocks and chains of a memory: lists of bytes that share no block. The free blocks are a chain too. Code here reads
//! no store: the calls on chains are in `block_links`, `chain_bytes` and `block_store`.
#![tactic(auto)]

mod chain;
pub mod laws;
mod layout;
mod words;

pub use chain::{Chain, Extent, FreeRun};
pub use layout::{
    BLOCK_BYTES, BLOCK_WORDS, FILE_BYTES, FIRST_BLOCK_PAGE, FREE_HEAD, FREE_HEAD_WORD, HEADER_PAGE,
    MOST_BLOCKS, WORD_BYTES,
};
pub use words::word_at;
