//! The place of blocks in the memory.
use nvm_board::{MOST_PAGES, PAGE_WORDS};

/// The page of the header.
pub const HEADER_PAGE: u16 = 0;

/// The header's word for the first free block: its page, or 0.
pub const FREE_HEAD_WORD: u16 = 1;

/// The address of that word.
pub const FREE_HEAD: u16 = PAGE_WORDS * HEADER_PAGE + FREE_HEAD_WORD;

/// The page of the first block. Blocks are successive pages. Word 0 of a block is the page of the next block of its
/// chain, or 0.
pub const FIRST_BLOCK_PAGE: u16 = 128;

/// The greatest number of blocks of a memory.
pub const MOST_BLOCKS: u16 = MOST_PAGES - FIRST_BLOCK_PAGE;

/// The number of content words of a block: all but the first.
pub const BLOCK_WORDS: u16 = PAGE_WORDS - 1;

/// The greatest size of a file in bytes. With it an offset fits in 16 bits, even in a longer chain.
pub const FILE_BYTES: u16 = 32_767;

/// The number of bytes of a word, the most significant first.
pub const WORD_BYTES: u16 = 4;

/// The number of bytes of a block.
pub const BLOCK_BYTES: u16 = WORD_BYTES * BLOCK_WORDS;
