//! The free blocks.
ghost use Rattle.std.specs.Prelude.{◌≡◌, ◌+◌, ◌*◌, ◌<◌, ◌≤◌, IfOk, OnOk, length};
ghost use Rattle.std.specs.Result.{result_err};
ghost use Rattle.undo_journal.specs.Memory.{committed, current};
ghost use Rattle.undo_journal.specs.Lent.{memory_of};
ghost use Rattle.undo_journal.specs.StoreCalls.{Reads, SetsIn};
ghost use Rattle.block_chain.specs.Chains.{free_chain, HasFree, AreApart};
ghost use Rattle.block_chain.specs.ChainChanges.{Takes, GivesBack};
ghost use Rattle.block_chain.specs.ChainParts.{first_block, joined_chains};
ghost use Rattle.undo_journal.specs.Rooms.{HasRoom};
ghost use Rattle.block_links.specs.StoredBlocks.{HasFreeChain, HasFreeRun};

use block_chain::{Chain, FREE_HEAD, FreeRun};
use block_links::{head, read_head, read_link};
use undo_journal::{Board, PAGE_WORDS, Store, StoreErr, Txn};

/// Returns the number of free blocks. It takes one device read for the head and one per free block.
///
/// # Errors
/// The store's failure: power was lost, or the device failed.
pub fn free_count<B: Board>(store: &mut Store<B>) -> Result<u16, StoreErr>
    requires { HasFreeChain store.old }
    ensures count { IfOk result (λ count. count ≡ length (free_chain (committed store.old))) }
    ensures store { Reads store.old store.new (result_err result) }
{
    let mut page = read_head(store)?;
    let mut count = 0;
    while page != 0 {
        page = read_link(store, page)?;
        count += 1;
    }
    Ok(count)
}

/// Takes the first n free blocks as a chain, which `fill` returned. n is at least 1. Their bytes are unchanged.
///
/// # Errors
/// The store's failure: power was lost, or the device failed.
pub fn take<B: Board>(txn: &mut Txn<'_, B>, n: u16, run: FreeRun) -> Result<(), StoreErr>
    requires room { HasRoom (memory_of txn.old) 2 }
    requires blocks { HasFreeRun (current (memory_of txn.old)) n run }
    ensures done { OnOk result (Takes (current (memory_of txn.old)) n run.chain (current (memory_of txn.new))) }
    ensures store { SetsIn 2 txn.old txn.new (result_err result) }
{
    txn.set(PAGE_WORDS * run.chain.last, 0)?;
    txn.set(FREE_HEAD, u32::from(run.rest))
}

/// Gives the blocks of chains back. The last block of each links to the first of the next one, and that of the last
/// chain to the first free block. It makes one set per chain and one for the header. Without chains nothing changes.
///
/// # Errors
/// The store's failure: power was lost, or the device failed.
pub fn give_back<B: Board>(txn: &mut Txn<'_, B>, chains: &[Chain]) -> Result<(), StoreErr>
    requires room { HasRoom (memory_of txn.old) (length chains.now + 1) }
    requires free { HasFree (current (memory_of txn.old)) }
    requires apart { AreApart (current (memory_of txn.old)) chains.now }
    ensures done { OnOk result (GivesBack (current (memory_of txn.old)) chains.now (current (memory_of txn.new))) }
    ensures store { SetsIn (length chains.now + 1) txn.old txn.new (result_err result) }
    ensures none { length chains.now ≡ 0 → memory_of txn.new ≡ memory_of txn.old }
{
    if chains.is_empty() {
        return Ok(());
    }
    let page = join_chains(txn, chains)?;
    txn.set(FREE_HEAD, u32::from(page))
}

/// Joins chains to the free one, and returns its new first block.
fn join_chains<B: Board>(txn: &mut Txn<'_, B>, chains: &[Chain]) -> Result<u16, StoreErr>
    requires room { HasRoom (memory_of txn.old) (length chains.now) }
    requires free { HasFree (current (memory_of txn.old)) }
    requires apart { AreApart (current (memory_of txn.old)) chains.now }
    ensures page { IfOk result (λ page. page ≡ first_block (current (memory_of txn.old)) chains.now) }
    ensures done { OnOk result (current (memory_of txn.new) ≡ joined_chains (current (memory_of txn.old)) chains.now) }
    ensures store { SetsIn (length chains.now) txn.old txn.new (result_err result) }
{
    let mut page = head(txn)?;
    let mut left = chains.len();
    while left > 0 {
        left -= 1;
        let chain = chains[left];
        txn.set(PAGE_WORDS * chain.last, u32::from(page))?;
        page = chain.first;
    }
    Ok(page)
}
