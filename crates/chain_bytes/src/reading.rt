//! Bytes of a chain, read from a store.
ghost use Rattle.std.specs.Prelude.{◌≡◌, ◌+◌, ◌-◌, ◌*◌, ◌/◌, ◌%◌, ◌<◌, ◌≤◌, ◌++◌, length, take, drop, IfOk, OnOk};
ghost use Rattle.std.specs.Prelude.{slice_index, ◌==◌, if◌then◌else◌};
ghost use Rattle.std.specs.Result.{result_err};
ghost use Rattle.arrayvec.specs.ArrayVec.{array_vec_len};
ghost use Rattle.undo_journal.specs.Memory.{committed};
ghost use Rattle.undo_journal.specs.StoreCalls.{Reads};
ghost use Rattle.block_chain.specs.declared.layout.TheConstants.{BLOCK_BYTES, BLOCK_WORDS, FILE_BYTES};
ghost use Rattle.block_chain.specs.BlockWords.{link, word, word_bytes};
ghost use Rattle.block_chain.specs.Chains.{chain, chain_bytes, chain_of};
ghost use Rattle.block_chain.specs.ChainChanges.{AppendsSome};
ghost use Rattle.block_links.specs.StoredBlocks.{HasBlock, HasChain, HasLink};

use arrayvec::ArrayVec;
use block_chain::{BLOCK_BYTES, BLOCK_WORDS, Chain, WORD_BYTES};
use block_links::read_link;
use undo_journal::{Board, PAGE_WORDS, Store, StoreErr};

/// Returns byte `place` of a word, 0 the most significant.
fn byte_of(word: u32, place: u16) -> u8
    requires { place < 4 }
    ensures { result ≡ slice_index (word_bytes word) place }
{
    word.to_be_bytes()[usize::from(place)]
}

/// Returns block k of a chain, with one device read per link.
///
/// # Errors
/// The store's failure: power was lost, or the device failed.
pub fn block_at<B: Board>(store: &mut Store<B>, first: u16, k: u16) -> Result<u16, StoreErr>
    requires chain { HasChain store.old first }
    requires within { k < length (chain (committed store.old) first) }
    ensures page { IfOk result (λ page. page ≡ slice_index (chain (committed store.old) first) k) }
    ensures store { Reads store.old store.new (result_err result) }
{
    let mut page = first;
    for _i in 0..k {
        page = read_link(store, page)?;
    }
    Ok(page)
}

/// The content word at a place of a block.
fn read_word<B: Board>(store: &mut Store<B>, page: u16, place: u16) -> Result<u32, StoreErr>
    requires block { HasBlock store.old page }
    requires place { place < BLOCK_WORDS }
    ensures word { IfOk result (λ read. read ≡ word (committed store.old) page (1 + place)) }
    ensures store { Reads store.old store.new (result_err result) }
{
    store.read_committed(PAGE_WORDS * page + 1 + place)
}

/// The place in its block of the word in which the byte of a chain at an offset lies.
fn place_of_byte(offset: u16) -> u16
    ensures { result ≡ offset / 4 % BLOCK_WORDS }
{
    offset / WORD_BYTES % BLOCK_WORDS
}

/// Returns the byte of a chain at an offset below its size.
///
/// # Errors
/// The store's failure: power was lost, or the device failed.
pub fn byte_at<B: Board>(store: &mut Store<B>, chain: Chain, offset: u16) -> Result<u8, StoreErr>
    requires chain { HasChain store.old chain.first }
    requires within { offset < BLOCK_BYTES * length (chain_of (committed store.old) chain) }
    ensures byte { IfOk result (λ byte. byte ≡ slice_index (chain_bytes (committed store.old) chain) offset) }
    ensures store { Reads store.old store.new (result_err result) }
{
    let page = block_at(store, chain.first, offset / BLOCK_BYTES)?;
    let word = read_word(store, page, place_of_byte(offset))?;
    Ok(byte_of(word, offset % WORD_BYTES))
}

/// Appends the four bytes of a word.
fn append_word<const N: usize>(out: &mut ArrayVec<u8, N>, word: u32)
    requires room { array_vec_len out.old + 4 ≤ N }
    ensures items { out.new.items ≡ out.old.items ++ word_bytes word }
{
    out.try_extend_from_slice(&word.to_be_bytes()).unwrap();
}

/// Appends `some` bytes of a word from `from` on, one by one.
// Not part of the loop over words, since nearly all words of a long read are whole.
#[inline(never)]
fn append_part<const N: usize>(out: &mut ArrayVec<u8, N>, word: u32, from: u16, some: u16)
    requires within { from + some ≤ 4 }
    requires room { array_vec_len out.old + some ≤ N }
    ensures items { out.new.items ≡ out.old.items ++ take some (drop from (word_bytes word)) }
{
    for i in 0..some {
        out.push(byte_of(word, from + i));
    }
}

/// Appends `some` bytes of a word from `from` on. A whole word, as nearly all of a long read are, is copied at once.
/// That takes a third of the instructions of four single bytes.
fn append_bytes<const N: usize>(out: &mut ArrayVec<u8, N>, word: u32, from: u16, some: u16)
    requires within { from + some ≤ 4 }
    requires room { array_vec_len out.old + some ≤ N }
    ensures items { out.new.items ≡ out.old.items ++ take some (drop from (word_bytes word)) }
{
    if some == WORD_BYTES {
        append_word(out, word);
    } else {
        append_part(out, word, from, some);
    }
}

/// How many of the bytes from an offset on lie in its word, below an end. Nearly all words of a long read are whole.
fn bytes_in_word(at: u16, end: u16) -> u16
    requires { at < end }
    ensures some { 1 ≤ result }
    ensures word { at % 4 + result ≤ 4 }
    ensures end { at + result ≤ end }
{
    if at % WORD_BYTES == 0 && end - at >= WORD_BYTES {
        WORD_BYTES
    } else {
        (WORD_BYTES - at % WORD_BYTES).min(end - at)
    }
}

/// The place of the word in which the byte at an offset lies, by the place of the word of the byte before it. It is
/// counted, as a division costs more than all else that a word takes.
fn next_place(place: u16, at: u16) -> u16
    requires some { 1 ≤ at }
    requires place { place ≡ (at - 1) / 4 % BLOCK_WORDS }
    ensures { result ≡ at / 4 % BLOCK_WORDS }
{
    if at % WORD_BYTES != 0 {
        place
    } else if place + 1 == BLOCK_WORDS {
        0
    } else {
        place + 1
    }
}

/// The block that holds the byte at an offset of a chain, by the block of the byte before it: where a block ends
/// between them, the next one. `place` is the place of the byte's word in its block.
fn block_of_byte<B: Board>(
    store: &mut Store<B>,
    page: u16,
    place: u16,
    at: u16,
) -> Result<u16, StoreErr>
    requires link { HasLink store.old page }
    requires place { place ≡ at / 4 % BLOCK_WORDS }
    ensures page { IfOk result (λ next. next
        ≡ (if at % BLOCK_BYTES == 0 then link (committed store.old) page else page)) }
    ensures store { Reads store.old store.new (result_err result) }
{
    if place == 0 && at % WORD_BYTES == 0 {
        read_link(store, page)
    } else {
        Ok(page)
    }
}

/// Appends `count` bytes of a chain from an offset on. It takes one device read per touched word and one per link.
/// After an error the buffer may have some of them.
///
/// # Errors
/// The store's failure: power was lost, or the device failed.
pub fn read_bytes<B: Board, const N: usize>(
    store: &mut Store<B>,
    chain: Chain,
    offset: u16,
    count: u16,
    out: &mut ArrayVec<u8, N>,
) -> Result<(), StoreErr>
    requires chain { HasChain store.old chain.first }
    requires within { offset + count ≤ BLOCK_BYTES * length (chain_of (committed store.old) chain) }
    requires small { offset + count ≤ FILE_BYTES }
    requires room { array_vec_len out.old + count ≤ N }
    ensures done { OnOk result (out.new.items
        ≡ out.old.items ++ take count (drop offset (chain_bytes (committed store.old) chain))) }
    ensures any_exit { AppendsSome out.old.items
        (take count (drop offset (chain_bytes (committed store.old) chain))) out.new.items }
    ensures store { Reads store.old store.new (result_err result) }
{
    if count == 0 {
        // The offset may be the size of the chain, and no block is there.
        return Ok(());
    }
    let mut page = block_at(store, chain.first, offset / BLOCK_BYTES)?;
    let end = offset + count;
    let mut at = offset;
    let mut place = place_of_byte(offset);
    while at < end {
        let word = read_word(store, page, place)?;
        let some = bytes_in_word(at, end);
        append_bytes(out, word, at % WORD_BYTES, some);
        at += some;
        place = next_place(place, at);
        page = block_of_byte(store, page, place, at)?;
    }
    Ok(())
}
