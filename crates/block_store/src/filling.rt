//! Filling free blocks, before a transaction takes them.
ghost use Rattle.std.specs.Prelude.{◌≡◌, ◌+◌, ◌*◌, ◌≤◌, take, replicate, IfOk, OnOk};
ghost use Rattle.std.specs.Result.{result_err};
ghost use Rattle.block_chain.specs.ChainChanges.{IsFirstFree, OnlyContent};
ghost use Rattle.undo_journal.specs.Memory.{committed};
ghost use Rattle.block_chain.specs.declared.layout.TheConstants.{BLOCK_BYTES, BLOCK_WORDS};
ghost use Rattle.undo_journal.specs.StoreCalls.{Changes};
ghost use Rattle.block_chain.specs.Chains.{free_chain, bytes_of};
ghost use Rattle.nvm_board.specs.Facts.{address};
ghost use Rattle.nvm_board.specs.History.{written};
ghost use Rattle.nvm_board.specs.Torn.{Torn};
ghost use Rattle.block_links.specs.StoredBlocks.{HasBlock, OffersBlocks};

use block_chain::{BLOCK_BYTES, BLOCK_WORDS, Chain, FreeRun};
use block_links::{read_head, read_link};
use undo_journal::{Board, Store, StoreErr};

/// Fills the content words of a block with these.
fn fill_block<B: Board>(
    store: &mut Store<B>,
    page: u16,
    words: &[u32; BLOCK_WORDS as usize],
) -> Result<(), StoreErr>
    requires { HasBlock store.old page }
    ensures any_exit { Torn (committed store.old) (address page 1) words.now (committed store.new) }
    ensures done { OnOk result (committed store.new ≡ written (committed store.old) (address page 1) words.now) }
    ensures store { Changes 1 store.old store.new (result_err result) }
    ensures counted { OnOk result (store.new.facts.writes ≡ store.old.facts.writes + 1) }
{
    store.write_plain(page, 1, words)
}

/// Fills the first n free blocks with a byte, and returns them. It takes one device write per block. No other word
/// changes, at any exit.
///
/// # Errors
/// The store's failure: power was lost, or the device failed. Then the content of these blocks is undefined.
// It isn't inlined: the loop keeps its values in registers that way.
#[inline(never)]
pub fn fill<B: Board>(store: &mut Store<B>, n: u16, byte: u8) -> Result<FreeRun, StoreErr>
    requires { OffersBlocks store.old n }
    ensures found { IfOk result (λ run. 1 ≤ n → IsFirstFree (committed store.old) n run) }
    ensures any_exit { OnlyContent (committed store.old)
        (take n (free_chain (committed store.old))) (committed store.new) }
    ensures done { OnOk result (bytes_of (committed store.new) (take n (free_chain (committed store.old)))
        ≡ replicate (BLOCK_BYTES * n) byte) }
    ensures store { Changes n store.old store.new (result_err result) }
    ensures counted { OnOk result (store.new.facts.writes ≡ store.old.facts.writes + n) }
{
    let word = u32::from_be_bytes([byte; 4]);
    let words = [word; BLOCK_WORDS as usize];
    let first = read_head(store)?;
    let mut last = 0;
    let mut page = first;
    for _i in 0..n {
        fill_block(store, page, &words)?;
        last = page;
        page = read_link(store, page)?;
    }
    Ok(FreeRun {
        chain: Chain { first, last },
        rest: page,
    })
}
