//! Links of blocks, read from a store or in a transaction.
ghost use Rattle.std.specs.Prelude.{◌≡◌, ◌*◌, ◌<◌, length, IfOk, slice_index};
ghost use Rattle.std.specs.Result.{result_err};
ghost use Rattle.undo_journal.specs.Memory.{committed, current};
ghost use Rattle.undo_journal.specs.Lent.{memory_of};
ghost use Rattle.undo_journal.specs.StoreCalls.{Reads, ReadsIn};
ghost use Rattle.block_chain.specs.Chains.{chain};
ghost use Rattle.block_chain.specs.BlockWords.{link};
ghost use Rattle.block_chain.specs.declared.layout.TheConstants.{FREE_HEAD};
ghost use Rattle.block_links.specs.StoredBlocks.{HasFreeHead, HasLink, HasOpenChain, HasOpenFreeHead, HasOpenLink};

use block_chain::FREE_HEAD;
use undo_journal::{Board, PAGE_WORDS, Store, StoreErr, Txn};

/// Returns the page of the first free block, or 0.
///
/// # Errors
/// The store's failure: power was lost, or the device failed.
pub fn read_head<B: Board>(store: &mut Store<B>) -> Result<u16, StoreErr>
    requires { HasFreeHead store.old }
    ensures page { IfOk result (λ page. page ≡ slice_index (committed store.old) FREE_HEAD) }
    ensures store { Reads store.old store.new (result_err result) }
{
    let head = store.read_committed(FREE_HEAD)?;
    Ok(head as u16)
}

/// Returns the page of the next block in the chain, or 0.
///
/// # Errors
/// The store's failure: power was lost, or the device failed.
pub fn read_link<B: Board>(store: &mut Store<B>, page: u16) -> Result<u16, StoreErr>
    requires { HasLink store.old page }
    ensures page { IfOk result (λ next. next ≡ link (committed store.old) page) }
    ensures store { Reads store.old store.new (result_err result) }
{
    let after = store.read_committed(PAGE_WORDS * page)?;
    Ok(after as u16)
}

/// Returns the page of the first free block, or 0.
///
/// # Errors
/// The store's failure: power was lost, or the device failed.
pub fn head<B: Board>(txn: &mut Txn<'_, B>) -> Result<u16, StoreErr>
    requires { HasOpenFreeHead (memory_of txn.old) }
    ensures page { IfOk result (λ page. page ≡ slice_index (current (memory_of txn.old)) FREE_HEAD) }
    ensures store { ReadsIn txn.old txn.new (result_err result) }
{
    let first = txn.read(FREE_HEAD)?;
    Ok(first as u16)
}

/// Returns the page of the next block in the chain, or 0.
///
/// # Errors
/// The store's failure: power was lost, or the device failed.
pub fn next<B: Board>(txn: &mut Txn<'_, B>, page: u16) -> Result<u16, StoreErr>
    requires { HasOpenLink (memory_of txn.old) page }
    ensures page { IfOk result (λ next. next ≡ link (current (memory_of txn.old)) page) }
    ensures store { ReadsIn txn.old txn.new (result_err result) }
{
    let following = txn.read(PAGE_WORDS * page)?;
    Ok(following as u16)
}

/// Returns block k of a chain, by its first block.
///
/// # Errors
/// The store's failure: power was lost, or the device failed.
pub fn walk<B: Board>(txn: &mut Txn<'_, B>, first: u16, k: u16) -> Result<u16, StoreErr>
    requires chain { HasOpenChain (memory_of txn.old) first }
    requires within { k < length (chain (current (memory_of txn.old)) first) }
    ensures page { IfOk result (λ page. page ≡ slice_index (chain (current (memory_of txn.old)) first) k) }
    ensures store { ReadsIn txn.old txn.new (result_err result) }
{
    let mut page = first;
    for _i in 0..k {
        page = next(txn, page)?;
    }
    Ok(page)
}
