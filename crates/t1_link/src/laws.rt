//! Laws of the definitions: each function's contract is one law.

ghost use Rattle.std.specs.Prelude.{◌≡◌, ◌≢◌, ◌++◌, ◌∷◌, [], List, ℕ, Ok, Err};
ghost use Rattle.t1_link.specs.CardTable.{Link, replying, sending, sent_block};
ghost use Rattle.t1_link.specs.ReaderTable.{Reader, advancing, last_block, sends};
ghost use Rattle.t1_link.specs.Blocks.{Block as BlockValue, IsSpellable, exclusive_or, frame, checked_bytes, heard};

use crate::block::Fault;

/// A parser reads the bytes of a valid block as that block.
pub fn block_read_again()
    ensures { (b : BlockValue) → IsSpellable b → heard (frame b) ≡ Ok b }
{}

/// Bytes that parse as a valid block are that block's bytes.
pub fn block_spelled_so()
    ensures spelled { (bytes : List ℕ) (b : BlockValue) → heard bytes ≡ Ok b → frame b ≡ bytes }
    ensures spellable { (bytes : List ℕ) (b : BlockValue) → heard bytes ≡ Ok b → IsSpellable b }
{}

/// Any wrong check byte is detected as a redundancy error.
pub fn other_check_byte_is_heard()
    ensures { (b : BlockValue) (check : ℕ) → IsSpellable b → check ≢ exclusive_or (checked_bytes b)
        → heard (checked_bytes b ++ check ∷ []) ≡ Err Fault.WrongCheck }
{}

/// Either end repeats its last I-block byte for byte.
pub fn last_block_again()
    ensures card { (l : Link) (bytes : List ℕ)
        → sending l bytes ≡ replying (sending l bytes).link (sent_block (sending l bytes).link) }
    ensures reader { (r : Reader) (bytes : List ℕ)
        → (advancing r bytes).outcome ≡ sends (last_block (advancing r bytes).reader) }
{}
