//! Laws of the definitions, as contracts of functions that do nothing.
ghost use Rattle.std.specs.Prelude.{◌≡◌, ◌+◌, ◌*◌, ◌≤◌, ◌<◌, ◌↔◌, ℕ, List, length, slice_index};
ghost use Rattle.block_chain.specs.declared.layout.TheConstants.{MOST_BLOCKS, BLOCK_BYTES, BLOCK_WORDS, FREE_HEAD};
ghost use Rattle.nvm_board.specs.Facts.{IsMemory};
ghost use Rattle.block_chain.specs.Layout.{IsOf};
ghost use Rattle.block_chain.specs.BlockWords.{IsBlock, block_bytes, link};

/// Proves where blocks lie. They are the pages from 128 on. Word 0 of a block is its link; its other 15 words have 60
/// bytes. Word 1 of the memory is the first free block.
pub fn layout()
    ensures pages { (n page : ℕ) → IsOf n page ↔ ((128 ≤ page) × (page < 128 + n)) }
    ensures blocks { MOST_BLOCKS ≡ 3968 }
    ensures words { BLOCK_WORDS ≡ 15 }
    ensures bytes { BLOCK_BYTES ≡ 60 }
    ensures free { FREE_HEAD ≡ 1 }
    ensures block { (m : List ℕ) (page : ℕ) → IsMemory m → IsBlock m page → length (block_bytes m page) ≡ 60 }
    ensures links { (m : List ℕ) (page : ℕ) → link m page ≡ slice_index m (16 * page) }
{}
