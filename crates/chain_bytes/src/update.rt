//! Updating bytes of a chain, in a transaction of their own.
ghost use Rattle.std.specs.Prelude.{◌≡◌, ◌⊎◌, ◌+◌, length, OnOk};
ghost use Rattle.std.specs.Result.{result_err};
ghost use Rattle.undo_journal.specs.Commits.{CommitsByGate, TurnsTo};
ghost use Rattle.undo_journal.specs.Memory.{committed};
ghost use Rattle.undo_journal.specs.Spending.{transaction_writes};
ghost use Rattle.undo_journal.specs.StoreCalls.{Changes};
ghost use Rattle.block_chain.specs.Chains.{chain_of};
ghost use Rattle.block_chain.specs.ChainChanges.{Overwrites, touched_blocks, touched_words};
ghost use Rattle.chain_bytes.specs.Updates.{TakesBytes};
ghost use Rattle.chain_bytes.specs.Writes.{put_writes};

use crate::bytes::set_bytes;
use block_chain::Chain;
use undo_journal::{Board, Store, StoreErr};

/// Writes bytes of a chain from an offset on, in one transaction. The number of device writes follows from the offset
/// and the number of bytes.
///
/// # Errors
/// The store's failure: then all of the bytes are old, or all are new.
pub fn put_bytes<B: Board>(
    store: &mut Store<B>,
    chain: Chain,
    offset: u16,
    bytes: &[u8],
) -> Result<(), StoreErr>
    requires { TakesBytes store.old chain offset (length bytes.now) }
    ensures any_exit { (committed store.new ≡ committed store.old) ⊎ Overwrites (committed store.old)
        (chain_of (committed store.old) chain) offset bytes.now (committed store.new) }
    ensures done { OnOk result (Overwrites (committed store.old) (chain_of (committed store.old) chain) offset
        bytes.now (committed store.new)) }
    ensures by_gate { CommitsByGate store.old store.new }
    ensures turned { TurnsTo (Overwrites (committed store.old) (chain_of (committed store.old) chain) offset bytes.now)
        store.old store.new }
    ensures store { Changes (transaction_writes (touched_words offset (length bytes.now)) (touched_blocks offset
        (length bytes.now))) store.old store.new (result_err result) }
    ensures counted { OnOk result (store.new.facts.writes
        ≡ store.old.facts.writes + put_writes offset (length bytes.now)) }
{
    let mut txn = store.begin();
    let work = set_bytes(&mut txn, chain, offset, bytes);
    txn.end(work)
}
