//! Laws of device writes, as contracts of functions that do nothing.
ghost use Rattle.std.specs.Prelude.{◌≡◌, ◌≤◌, ℕ};
ghost use Rattle.undo_journal.specs.Spending.{transaction_writes};
ghost use Rattle.block_chain.specs.ChainChanges.{touched_blocks, touched_words};
ghost use Rattle.chain_bytes.specs.Writes.{put_writes};

/// Proves the device writes of an update with its commit. It takes 29 for 255 bytes at offset 0, 4 for 10 bytes, none
/// for no bytes. At any offset they are no more than the bound for a transaction of these words in these blocks.
#[tactic(auto, using(crate::specs::laws::Writes::put_writes_most))]
pub fn put_costs()
    ensures most_bytes { put_writes 0 255 ≡ 29 }
    ensures ten_bytes { put_writes 0 10 ≡ 4 }
    ensures no_bytes { (offset : ℕ) → put_writes offset 0 ≡ 0 }
    ensures most { (offset count : ℕ)
        → put_writes offset count ≤ transaction_writes (touched_words offset count) (touched_blocks offset count) }
{}
