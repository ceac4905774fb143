//! Changes of life cycle states (ISO/IEC 7816-9; ISO/IEC 7816-4, 7.4.10).

ghost use Rattle.std.specs.Prelude.{◌≡◌, ◌⊎◌, slice_set, OnOk};
ghost use Rattle.std.specs.Result.{result_err};
ghost use Rattle.undo_journal.specs.Undo.{IsDataAddress};
ghost use Rattle.undo_journal.specs.Commits.{CommitsByGate, TurnsTo};
ghost use Rattle.undo_journal.specs.Memory.{committed, IsReady};
ghost use Rattle.undo_journal.specs.StoreCalls.{Learns, OnlyReads, Changes};
ghost use Rattle.card_model.specs.LifeCycle.{life_cycle_byte};
ghost use Rattle.card_model.specs.FileLives.{life_at, next_life};
ghost use Rattle.file_tree.specs.States.{with_card_terminated, ChangesLife};
ghost use Rattle.file_tree.specs.Table.{table, path_of};
ghost use Rattle.file_tree.specs.Trees.{tree_of};
ghost use Rattle.file_tree.specs.TreeParts.{TellsLife};
ghost use Rattle.file_lookup.specs.StoredFiles.{HasFile, HasStoredEntry};

use crate::writing::bytes_and_half;
use block_chain::HEADER_PAGE;
use card_model::{LifeCycle, LifeCycleCommand};
use file_lookup::{is_below_barred, read_entry};
use file_tree::{CARD_TERMINATED, Entry, EntryNumber, STATE_WORD, entry_address};
use undo_journal::{Board, PAGE_WORDS, Store, StoreErr};

/// Returns the state after a life cycle command, `None` for a refusal. It is refused if an ancestor is deactivated or
/// terminated, or if the present state doesn't allow it. The entry is an argument, so it isn't read again.
///
/// # Errors
/// The store's failure: power was lost, or the device failed.
pub fn next_life_cycle<B: Board>(
    store: &mut Store<B>,
    e: EntryNumber,
    entry: &Entry,
    command: LifeCycleCommand,
) -> Result<Option<LifeCycle>, StoreErr>
    requires entry { HasStoredEntry store.old e entry.now }
    ensures { Learns store.old store.new result (λ next. next
        ≡ next_life (tree_of (committed store.old)) (path_of (table (committed store.old)) e) command) }
{
    let barred = is_below_barred(store, e, EntryNumber::new(entry.parent))?;
    if barred {
        return Ok(None);
    }
    Ok(LifeCycle::next_state(command, entry.life_cycle()))
}

/// Returns the first word of an entry in another state.
fn life_word(entry: &Entry, state: LifeCycle) -> u32
    ensures { TellsLife entry.now (life_cycle_byte state) result }
{
    bytes_and_half(entry.kind, state.to_byte(), entry.identifier)
}

/// Writes a word in a transaction.
fn commit_word<B: Board>(store: &mut Store<B>, at: u16, word: u32) -> Result<(), StoreErr>
    requires ready { IsReady store.old }
    requires place { IsDataAddress (committed store.old) at }
    ensures any_exit { (committed store.new ≡ committed store.old)
        ⊎ (committed store.new ≡ slice_set (committed store.old) at word) }
    ensures done { OnOk result (committed store.new ≡ slice_set (committed store.old) at word) }
    ensures by_gate { CommitsByGate store.old store.new }
    ensures turned { TurnsTo (λ after. after ≡ slice_set (committed store.old) at word) store.old store.new }
    ensures store { Changes 4 store.old store.new (result_err result) }
{
    let mut txn = store.begin();
    let work = txn.set(at, word);
    txn.end(work)
}

/// Sets the life cycle state of a file. The caller has checked ACTIVATE, DEACTIVATE or TERMINATE. If the file is in
/// this state already, nothing is written.
///
/// # Errors
/// The store's failure: power was lost, or the device failed. The file is then in its old state or in the new one.
pub fn set_life_cycle<B: Board>(
    store: &mut Store<B>,
    e: EntryNumber,
    state: LifeCycle,
) -> Result<(), StoreErr>
    requires file { HasFile store.old e }
    ensures any_exit { (committed store.new ≡ committed store.old)
        ⊎ ChangesLife (committed store.old) e state (committed store.new) }
    ensures done { OnOk result (ChangesLife (committed store.old) e state (committed store.new)) }
    ensures stays { life_at (tree_of (committed store.old)) (path_of (table (committed store.old)) e) ≡ state
        → OnlyReads store.old store.new }
    ensures by_gate { CommitsByGate store.old store.new }
    ensures turned { TurnsTo (ChangesLife (committed store.old) e state) store.old store.new }
    ensures store { Changes 4 store.old store.new (result_err result) }
{
    let entry = read_entry(store, e)?;
    if entry.has_life_cycle(state) {
        return Ok(());
    }
    commit_word(store, entry_address(e), life_word(&entry, state))
}

/// Sets the state of the card to terminated. No other word changes. A card that is terminated already must not get
/// this call, since the word would be written again.
///
/// # Errors
/// The store's failure: power was lost, or the device failed. The state is then the old one or terminated.
pub fn terminate_card<B: Board>(store: &mut Store<B>) -> Result<(), StoreErr>
    requires ready { IsReady store.old }
    ensures any_exit { (committed store.new ≡ committed store.old)
        ⊎ (committed store.new ≡ with_card_terminated (committed store.old)) }
    ensures done { OnOk result (committed store.new ≡ with_card_terminated (committed store.old)) }
    ensures by_gate { CommitsByGate store.old store.new }
    ensures turned { TurnsTo (λ after. after ≡ with_card_terminated (committed store.old)) store.old store.new }
    ensures store { Changes 4 store.old store.new (result_err result) }
{
    commit_word(
        store,
        PAGE_WORDS * HEADER_PAGE + STATE_WORD,
        CARD_TERMINATED,
    )
}
