//! Writing bytes of a chain in a transaction.
ghost use Rattle.std.specs.Prelude.{◌≡◌, ◌↔◌, ◌+◌, ◌*◌, ◌<◌, ◌≤◌, ℕ, length, IfOk, OnOk};
ghost use Rattle.std.specs.Prelude.{slice_index, ◌%◌, ◌==◌, if◌then◌else◌, IsTrue};
ghost use Rattle.undo_journal.specs.Undo.{IsDataAddress};
ghost use Rattle.std.specs.Result.{result_err};
ghost use Rattle.block_chain.specs.ChainChanges.{touched_blocks, touched_words, Overwrites};
ghost use Rattle.undo_journal.specs.Memory.{current, CountsCommit, EndsAt, ContinuesRun, InRuns};
ghost use Rattle.undo_journal.specs.Memory.{IsIdle, IsOpen};
ghost use Rattle.block_chain.specs.declared.layout.TheConstants.{BLOCK_BYTES, BLOCK_WORDS};
ghost use Rattle.undo_journal.specs.StoreCalls.{ReadsIn, SetsIn};
ghost use Rattle.block_chain.specs.Chains.{chain_of};
ghost use Rattle.block_chain.specs.ChainParts.{byte_over, PutsWord};
ghost use Rattle.chain_bytes.specs.JoinParts.{JoinsAt};
ghost use Rattle.block_chain.specs.BlockWords.{link, word_bytes, IsBlock};
ghost use Rattle.chain_bytes.specs.Writes.{put_writes, WaitInBlocks};
ghost use Rattle.nvm_board.specs.Facts.{address};
ghost use Rattle.undo_journal.specs.Lent.{memory_of};
ghost use Rattle.undo_journal.specs.Rooms.{HasRoom};
ghost use Rattle.block_links.specs.StoredBlocks.{HasOpenLink, LieIn};

use block_chain::{BLOCK_BYTES, BLOCK_WORDS, Chain, WORD_BYTES, word_at};
use block_links::{next, walk};
use undo_journal::{Board, PAGE_WORDS, StoreErr, Txn};

/// Returns a word with new bytes over its own. Its first byte is at `at`; the new bytes begin at `offset`.
fn overwritten_word(word: u32, at: u16, offset: u16, bytes: &[u8]) -> u32
    requires { at + 3 < 65536 }
    ensures { (place : ℕ) → place < 4 → slice_index (word_bytes result) place
        ≡ byte_over offset bytes.now (at + place) (slice_index (word_bytes word) place) }
{
    let [first, second, third, fourth] = word.to_be_bytes();
    u32::from_be_bytes([
        overwritten_byte(first, at, offset, bytes),
        overwritten_byte(second, at + 1, offset, bytes),
        overwritten_byte(third, at + 2, offset, bytes),
        overwritten_byte(fourth, at + 3, offset, bytes),
    ])
}

/// Returns the byte at `at`, or the new byte over it.
fn overwritten_byte(byte: u8, at: u16, offset: u16, bytes: &[u8]) -> u8
    ensures { result ≡ byte_over offset bytes.now at byte }
{
    if offset <= at && usize::from(at - offset) < bytes.len() {
        bytes[usize::from(at - offset)]
    } else {
        byte
    }
}

/// Returns true if new bytes cover all four of a word. Its first byte is at `at`; the new bytes begin at `offset`.
fn covers_word(at: u16, offset: u16, bytes: &[u8]) -> bool
    ensures { IsTrue result ↔ ((offset ≤ at) × (at + 4 ≤ offset + length bytes.now)) }
{
    offset <= at && usize::from(at - offset) + 4 <= bytes.len()
}

/// Returns the word at an address with new bytes over its own. Its first byte is at `first` in the chain; the new
/// bytes begin at `offset`. The word is read only if some of its bytes stay, which concerns at most the first and the
/// last word of an update.
fn new_word<B: Board>(
    txn: &mut Txn<'_, B>,
    at: u16,
    first: u16,
    offset: u16,
    bytes: &[u8],
) -> Result<u32, StoreErr>
    requires ready { IsOpen (memory_of txn.old) }
    requires place { IsDataAddress (current (memory_of txn.old)) at }
    requires small { first + 3 < 65536 }
    ensures word { IfOk result (λ word. (place : ℕ) → place < 4 → slice_index (word_bytes word) place
        ≡ byte_over offset bytes.now (first + place)
        (slice_index (word_bytes (slice_index (current (memory_of txn.old)) at)) place)) }
    ensures store { ReadsIn txn.old txn.new (result_err result) }
{
    if covers_word(first, offset, bytes) {
        return Ok(word_at(bytes, usize::from(first - offset)));
    }
    let word = txn.read(at)?;
    Ok(overwritten_word(word, first, offset, bytes))
}

/// Sets word k of a chain, which lies in block `page`. It takes its new bytes from those that begin at `offset`.
fn put_word<B: Board>(
    txn: &mut Txn<'_, B>,
    page: u16,
    k: u16,
    offset: u16,
    bytes: &[u8],
) -> Result<(), StoreErr>
    requires room { HasRoom (memory_of txn.old) 1 }
    requires block { IsBlock (current (memory_of txn.old)) page }
    requires small { 4 * k + 3 < 65536 }
    ensures done { OnOk result (PutsWord (current (memory_of txn.old)) page k offset bytes.now
        (current (memory_of txn.new))) }
    ensures store { SetsIn 1 txn.old txn.new (result_err result) }
    ensures goes_on { ContinuesRun (memory_of txn.old) (address page (1 + k % BLOCK_WORDS))
        → InRuns 0 (memory_of txn.old) (memory_of txn.new) }
    ensures next { OnOk result (EndsAt (memory_of txn.new) (address page (1 + k % BLOCK_WORDS))) }
    ensures joins { OnOk result (JoinsAt (address page (1 + k % BLOCK_WORDS)) (memory_of txn.old) (memory_of txn.new)) }
{
    let at = PAGE_WORDS * page + 1 + k % BLOCK_WORDS;
    let new = new_word(txn, at, WORD_BYTES * k, offset, bytes)?;
    txn.set(at, new)
}

/// Returns the block of word k, by that of the word before. A block ends before word k if k is a multiple of
/// `BLOCK_WORDS`.
fn block_of_word<B: Board>(txn: &mut Txn<'_, B>, page: u16, k: u16) -> Result<u16, StoreErr>
    requires { HasOpenLink (memory_of txn.old) page }
    ensures page { IfOk result (λ after. after
        ≡ (if k % BLOCK_WORDS == 0 then link (current (memory_of txn.old)) page else page)) }
    ensures store { ReadsIn txn.old txn.new (result_err result) }
{
    if k % BLOCK_WORDS == 0 {
        next(txn, page)
    } else {
        Ok(page)
    }
}

/// Writes bytes over those of a chain from an offset on. It makes one set for each touched word, in order, so that
/// the sets lie in one run for each touched block. Without bytes nothing changes.
///
/// # Errors
/// The store's failure: power was lost, or the device failed.
pub fn set_bytes<B: Board>(
    txn: &mut Txn<'_, B>,
    chain: Chain,
    offset: u16,
    bytes: &[u8],
) -> Result<(), StoreErr>
    requires room { HasRoom (memory_of txn.old) (touched_words offset (length bytes.now)) }
    requires lie { LieIn (current (memory_of txn.old)) chain offset (length bytes.now) }
    ensures done { OnOk result (Overwrites (current (memory_of txn.old))
        (chain_of (current (memory_of txn.old)) chain) offset bytes.now (current (memory_of txn.new))) }
    ensures store { SetsIn (touched_words offset (length bytes.now)) txn.old txn.new (result_err result) }
    ensures runs { InRuns (touched_blocks offset (length bytes.now)) (memory_of txn.old) (memory_of txn.new) }
    ensures counted { OnOk result (CountsCommit (put_writes offset (length bytes.now)) (memory_of txn.old)
        (memory_of txn.new)) }
    ensures waits { OnOk result (IsIdle (memory_of txn.old)
        → WaitInBlocks (touched_words offset (length bytes.now)) (memory_of txn.new)) }
    ensures none { length bytes.now ≡ 0 → memory_of txn.new ≡ memory_of txn.old }
{
    if bytes.is_empty() {
        // The offset may be the size of the chain, and no block is there.
        return Ok(());
    }
    let mut page = walk(txn, chain.first, offset / BLOCK_BYTES)?;
    let end = (offset + bytes.len() as u16 + WORD_BYTES - 1) / WORD_BYTES;
    let mut k = offset / WORD_BYTES;
    while k < end {
        put_word(txn, page, k, offset, bytes)?;
        k += 1;
        page = block_of_word(txn, page, k)?;
    }
    Ok(())
}
