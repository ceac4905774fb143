//! The links of the new blocks, and the transaction that changes the format.
ghost use Rattle.std.specs.Prelude.{◌≡◌, ◌≢◌, ◌⊎◌, ◌+◌, ◌-◌, ◌<◌, ◌≤◌, [], OnOk};
ghost use Rattle.std.specs.Result.{result_err};
ghost use Rattle.nvm_board.specs.Facts.{pages_of};
ghost use Rattle.undo_journal.specs.Commits.{CommitsByGate};
ghost use Rattle.undo_journal.specs.Memory.{committed, commit_writes, current, CountsCommit, IsIdle};
ghost use Rattle.undo_journal.specs.Memory.{IsReady};
ghost use Rattle.undo_journal.specs.Lent.{memory_of};
ghost use Rattle.undo_journal.specs.StoreCalls.{Changes, SetsIn};
ghost use Rattle.block_chain.specs.BlockWords.{word};
ghost use Rattle.block_chain.specs.declared.layout.TheConstants.{HEADER_PAGE};
ghost use Rattle.file_tree.specs.declared.layout.TheConstants.{OLD_END_PAGE, MARK, MARK_WORD};
ghost use Rattle.file_tree.specs.Trees.{TreeStands};
ghost use Rattle.migration.specs.Migrating.{IsMigrated, Migrates, migration_writes, HasOldTree};
ghost use Rattle.migration.specs.MigratingParts.{FillsFirstBatch, IsRenamed, JoinsFirst, MarksPins, RenamesHeader};
ghost use Rattle.migration.specs.MigratingParts.{SetsFirst};
ghost use Rattle.undo_journal.specs.Rooms.{HasRoom};

use block_chain::{FREE_HEAD, HEADER_PAGE};
use block_store::link_pages;
use file_tree::{MARK, MARK_WORD, OLD_END_PAGE, PAGES_WORD};
use pin_store::{FIRST_PIN_PAGE, PIN_MARK_WORD, PINS};
use undo_journal::{Board, PAGE_WORDS, Store, StoreErr, Txn};

/// The number of device writes of the transaction. It writes the marks of the PINs in one batch, then the header.
pub const RENAME_WRITES: u16 = 15;

/// Sets the mark of each PIN. These are eight sets, which fill a batch.
fn mark_pins<B: Board>(txn: &mut Txn<'_, B>) -> Result<(), StoreErr>
    requires { HasRoom (memory_of txn.old) 8 }
    ensures done { OnOk result (MarksPins 8 (current (memory_of txn.old)) (current (memory_of txn.new))) }
    ensures store { SetsIn 8 txn.old txn.new (result_err result) }
    ensures fills { OnOk result (IsIdle (memory_of txn.old) → FillsFirstBatch (memory_of txn.old) (memory_of txn.new)) }
    ensures spends { IsIdle (memory_of txn.old)
        → (memory_of txn.new).facts.writes ≤ (memory_of txn.old).facts.writes + 10 }
{
    let mut pin = 0;
    while pin < u16::from(PINS) {
        txn.set(PAGE_WORDS * (FIRST_PIN_PAGE + pin) + PIN_MARK_WORD, 1)?;
        pin += 1;
    }
    Ok(())
}

/// Sets page 1,024 as the first free block. Without new blocks it sets nothing.
fn set_first<B: Board>(txn: &mut Txn<'_, B>, end: u16) -> Result<(), StoreErr>
    requires { HasRoom (memory_of txn.old) 1 }
    ensures done { OnOk result (SetsFirst end (current (memory_of txn.old)) (current (memory_of txn.new))) }
    ensures store { SetsIn 1 txn.old txn.new (result_err result) }
    ensures joins { OnOk result (JoinsFirst end (memory_of txn.old) (memory_of txn.new)) }
    ensures spends { (memory_of txn.old).waiting ≡ []
        → (memory_of txn.new).facts.writes ≤ (memory_of txn.old).facts.writes }
{
    if end == OLD_END_PAGE {
        return Ok(());
    }
    txn.set(FREE_HEAD, u32::from(OLD_END_PAGE))
}

/// Sets the header. It sets the first free block, if there are new ones, the page where the blocks end, and the mark.
fn rename_header<B: Board>(txn: &mut Txn<'_, B>, end: u16) -> Result<(), StoreErr>
    requires { HasRoom (memory_of txn.old) 3 }
    ensures done { OnOk result (RenamesHeader end (current (memory_of txn.old)) (current (memory_of txn.new))) }
    ensures store { SetsIn 3 txn.old txn.new (result_err result) }
    ensures counted { OnOk result ((memory_of txn.old).waiting ≡ []
        → (memory_of txn.new).facts.writes + commit_writes (memory_of txn.new)
        ≡ (memory_of txn.old).facts.writes + 5) }
    ensures spends { (memory_of txn.old).waiting ≡ []
        → (memory_of txn.new).facts.writes ≤ (memory_of txn.old).facts.writes }
{
    set_first(txn, end)?;
    txn.set(PAGE_WORDS * HEADER_PAGE + PAGES_WORD, u32::from(end))?;
    txn.set(PAGE_WORDS * HEADER_PAGE + MARK_WORD, MARK)
}

/// Sets the mark of each PIN, then the header.
fn rename<B: Board>(txn: &mut Txn<'_, B>, end: u16) -> Result<(), StoreErr>
    requires { HasRoom (memory_of txn.old) 11 }
    ensures done { OnOk result (IsRenamed end (current (memory_of txn.old)) (current (memory_of txn.new))) }
    ensures store { SetsIn 11 txn.old txn.new (result_err result) }
    ensures counted { OnOk result (CountsCommit RENAME_WRITES (memory_of txn.old) (memory_of txn.new)) }
    ensures spends { IsIdle (memory_of txn.old)
        → (memory_of txn.new).facts.writes ≤ (memory_of txn.old).facts.writes + RENAME_WRITES }
{
    mark_pins(txn)?;
    rename_header(txn, end)
}

/// Changes the format in one transaction.
fn become_new<B: Board>(store: &mut Store<B>, end: u16) -> Result<(), StoreErr>
    requires ready { IsReady store.old }
    ensures any_exit { (committed store.new ≡ committed store.old)
        ⊎ IsRenamed end (committed store.old) (committed store.new) }
    ensures done { OnOk result (IsRenamed end (committed store.old) (committed store.new)) }
    ensures store { Changes RENAME_WRITES store.old store.new (result_err result) }
    ensures counted { OnOk result (store.new.facts.writes ≡ store.old.facts.writes + RENAME_WRITES) }
    ensures last { (committed store.new ≡ committed store.old)
        ⊎ (store.old.facts.writes + RENAME_WRITES ≤ store.new.facts.writes + 1) }
{
    let mut txn = store.begin();
    let work = rename(&mut txn, end);
    txn.end(work)
}

/// Migrates a memory of format 1 to format 2. The new memory has all pages of its board. At every exit the memory has
/// the same files, PINs and state. It is in format 2 only after the last write.
///
/// # Errors
/// The store's failure: power was lost, or the device failed.
pub fn migrate<B: Board>(store: &mut Store<B>) -> Result<(), StoreErr>
    requires { HasOldTree store.old }
    ensures any_exit { Migrates (committed store.old) (committed store.new) }
    ensures done { OnOk result (IsMigrated (committed store.old) (committed store.new)) }
    ensures store { Changes (migration_writes (pages_of (committed store.old))) store.old
        store.new (result_err result) }
    ensures counted { OnOk result (store.new.facts.writes
        ≡ store.old.facts.writes + migration_writes (pages_of (committed store.old))) }
    ensures last { (word (committed store.new) HEADER_PAGE MARK_WORD ≡ word (committed store.old) HEADER_PAGE MARK_WORD)
        ⊎ (store.old.facts.writes + migration_writes (pages_of (committed store.old)) ≤ store.new.facts.writes + 1) }
{
    let end = store.pages();
    let free = store.read(FREE_HEAD)?;
    link_pages(store, OLD_END_PAGE, end, free as u16)?;
    become_new(store, end)
}
