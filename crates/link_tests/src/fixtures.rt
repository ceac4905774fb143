//! Blocks for tests.

use std::alloc::Global;
use std::test::Fail;

/// Returns a block with these bytes as information field.
pub fn framed(alloc: Global, control: u8, digits: &str) -> Result<Vec<u8>, Fail> {
    let bytes = hex::decode(alloc, digits)?;
    let mut block = Vec::from_array(alloc, [0x00, control])?;
    block.push(u8::try_from(bytes.len())?)?;
    block.extend_from_slice(&bytes)?;
    let mut check = 0;
    for byte in &block {
        check ^= *byte;
    }
    block.push(check)?;
    Ok(block)
}
