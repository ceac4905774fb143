//! A block of a chain, from which the links lead on to those behind it.
ghost use Rattle.std.specs.Prelude.{◌≡◌, ◌≤◌, ◌<◌, ℕ, List, length, IfOk};
ghost use Rattle.std.specs.Result.{result_err};
ghost use Rattle.undo_journal.specs.Memory.{committed};
ghost use Rattle.undo_journal.specs.StoreCalls.{Reads};
ghost use Rattle.block_chain.specs.Chains.{Leads, chain_of};
ghost use Rattle.ef_body.specs.ReadParts.{IsBlockOf};
ghost use Rattle.block_links.specs.StoredBlocks.{HasChain};

use block_chain::Chain;
use chain_bytes::block_at;
use undo_journal::{Board, Store, StoreErr};

/// A block of a chain: its number in the chain, from 0, and its page.
#[derive(Clone, Copy)]
pub(crate) struct ChainBlock {
    pub number: u16,
    pub page: u16,
}

impl ChainBlock {
    /// Returns the first block of a chain.
    pub fn first_of(chain: Chain) -> ChainBlock
        ensures number { result.number ≡ 0 }
        ensures page { result.page ≡ chain.first }
    {
        ChainBlock {
            number: 0,
            page: chain.first,
        }
    }

    /// Returns this block, or the first of the chain if this one lies behind block `number`.
    fn before(self, chain: Chain, number: u16) -> ChainBlock
        ensures before { result.number ≤ number }
        ensures block { (m : List ℕ) → Leads m chain.first (chain_of m chain) 0 → IsBlockOf m chain self
            → IsBlockOf m chain result }
    {
        if self.number <= number {
            self
        } else {
            ChainBlock::first_of(chain)
        }
    }

    /// Returns block `number` of the chain. It follows the links from this block, unless this one lies behind that.
    ///
    /// # Errors
    /// The store's failure: power was lost, or the device failed.
    pub fn go_to<B: Board>(
        self,
        store: &mut Store<B>,
        chain: Chain,
        number: u16,
    ) -> Result<ChainBlock, StoreErr>
        requires chain { HasChain store.old chain.first }
        requires block { IsBlockOf (committed store.old) chain self }
        requires within { number < length (chain_of (committed store.old) chain) }
        ensures number { IfOk result (λ block. block.number ≡ number) }
        ensures block { IfOk result (λ block. IsBlockOf (committed store.old) chain block) }
        ensures store { Reads store.old store.new (result_err result) }
    {
        let from = self.before(chain, number);
        let page = block_at(store, from.page, number - from.number)?;
        Ok(ChainBlock { number, page })
    }
}
