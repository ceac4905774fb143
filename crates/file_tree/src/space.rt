//! Free space.
ghost use Rattle.std.specs.Prelude.{◌≡◌};
ghost use Rattle.card_model.specs.Spaces.{blocks_for};

use block_chain::BLOCK_BYTES;

/// Returns the number of blocks for a size in bytes.
pub fn blocks_for(size: u16) -> u16
    ensures { result ≡ blocks_for size }
{
    // In 32 bits, since the sum may exceed 65,535.
    let block = u32::from(BLOCK_BYTES);
    ((u32::from(size) + block - 1) / block) as u16
}
