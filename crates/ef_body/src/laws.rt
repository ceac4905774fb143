//! Laws of the constants, as contracts of functions that do nothing.
ghost use Rattle.std.specs.Prelude.{◌≡◌, ◌≤◌, ℕ};
ghost use Rattle.chain_bytes.specs.Writes.{put_writes};
ghost use Rattle.ef_contents.specs.UpdateWrites.{update_writes};
ghost use Rattle.ef_body.specs.declared.layout.TheConstants.{MOST_RECORD_BYTES, RECORD_WRITES, UPDATE_WRITES};
ghost use Rattle.ef_body.specs.BodyChanges.{record_put_writes};

/// Proves the greatest record length and numbers of device writes. A record has at most 255 bytes. An update of one
/// takes at most 33 device writes, and a new record at most 34.
pub fn numbers()
    ensures bytes { MOST_RECORD_BYTES ≡ 255 }
    ensures update { UPDATE_WRITES ≡ 33 }
    ensures record_writes { RECORD_WRITES ≡ 34 }
{}

/// Proves the device writes of a new record at offset 0, with the entry's word and the commit. A word takes 5, a batch
/// of eight words 7, a block 8, and records of 92 and 100 bytes 12 and 15.
pub fn record_costs()
    ensures word { record_put_writes 0 3 ≡ 5 }
    ensures batch { record_put_writes 0 32 ≡ 7 }
    ensures block { record_put_writes 0 60 ≡ 8 }
    ensures two_blocks { record_put_writes 0 92 ≡ 12 }
    ensures four_batches { record_put_writes 0 100 ≡ 15 }
{}

/// Proves bounds for the device writes of UPDATE BINARY. The exact number depends on the offset and on the number of
/// bytes. One bound depends only on the number of bytes; the other is 33 for up to 255 bytes.
#[tactic(auto, using(crate::proofs::Updating::updates_most, crate::proofs::Updating::updates_few))]
pub fn updates_write_little()
    ensures most { (offset count : ℕ) → put_writes offset count ≤ update_writes count }
    ensures few { (offset count : ℕ) → count ≤ 255 → put_writes offset count ≤ UPDATE_WRITES }
{}
