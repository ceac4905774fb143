//! Words of bytes, the most significant first.
ghost use Rattle.std.specs.Prelude.{◌≡◌, ◌+◌, ◌<◌, ◌≤◌, ℕ, length, slice_index};
ghost use Rattle.block_chain.specs.BlockWords.{word_bytes};

/// Returns four bytes from an index on as a word.
pub fn word_at(bytes: &[u8], from: usize) -> u32
    requires { from + 4 ≤ length bytes.now }
    ensures { (place : ℕ) → place < 4 → slice_index (word_bytes result) place ≡ slice_index bytes.now (from + place) }
{
    u32::from_be_bytes([
        bytes[from],
        bytes[from + 1],
        bytes[from + 2],
        bytes[from + 3],
    ])
}
