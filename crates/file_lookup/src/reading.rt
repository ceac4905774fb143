//! Reading entries from a store.

ghost use Rattle.std.specs.Prelude.{◌≡◌, ◌≢◌, ◌⊎◌, ◌+◌, ◌-◌, ◌<◌, ◌≤◌, ℕ, [], slice_index, take, IfOk, OnOk};
ghost use Rattle.std.specs.Result.{result_err};
ghost use Rattle.undo_journal.specs.Memory.{committed, IsReady};
ghost use Rattle.undo_journal.specs.StoreCalls.{Learns, Reads};
ghost use Rattle.block_chain.specs.BlockWords.{word};
ghost use Rattle.file_tree.specs.Entries.{head_of};
ghost use Rattle.file_tree.specs.Table.{table, entry_in};
ghost use Rattle.file_tree.specs.TableEnd.{IsTableEnd};
ghost use Rattle.file_tree.specs.declared.layout.TheConstants.{FIRST_ENTRY_PAGE};
ghost use Rattle.file_lookup.specs.StoredFiles.{HasEntry};

use arrayvec::ArrayVec;
use file_tree::{ENTRIES_END, ENTRY_WORDS, Entry, EntryHead, EntryNumber, entry_address};
use undo_journal::{Board, Store, StoreErr};

/// Returns the words of an entry, each read once.
fn read_entry_words<B: Board>(
    store: &mut Store<B>,
    e: EntryNumber,
) -> Result<[u32; ENTRY_WORDS], StoreErr>
    requires { HasEntry store.old e }
    ensures words { IfOk result (λ words. (k : ℕ) → k < 11
        → slice_index words k ≡ word (committed store.old) (1 + e) k) }
    ensures store { Reads store.old store.new (result_err result) }
{
    let first = entry_address(e);
    let mut words = [0; ENTRY_WORDS];
    for k in 0..ENTRY_WORDS {
        words[k] = store.read_committed(first + k as u16)?;
    }
    Ok(words)
}

/// Returns an entry by its number.
///
/// # Errors
/// The store's failure: power was lost, or the device failed.
#[inline(never)]
pub fn read_entry<B: Board>(store: &mut Store<B>, e: EntryNumber) -> Result<Entry, StoreErr>
    requires { HasEntry store.old e }
    ensures entry { IfOk result (λ entry. entry ≡ entry_in (table (committed store.old)) e) }
    ensures store { Reads store.old store.new (result_err result) }
{
    let words = read_entry_words(store, e)?;
    Ok(Entry::from_words(&words))
}

/// Returns an entry by its number. Of a free entry it reads only the first word.
fn read_used<B: Board>(store: &mut Store<B>, e: EntryNumber) -> Result<Entry, StoreErr>
    requires { HasEntry store.old e }
    ensures entry { IfOk result (λ entry. entry ≡ entry_in (table (committed store.old)) e) }
    ensures store { Reads store.old store.new (result_err result) }
{
    let first = store.read_committed(entry_address(e))?;
    if first == 0 {
        return Ok(Entry::free());
    }
    read_entry(store, e)
}

/// Returns the least number, 1 to 64, from which on all entries are free.
/// It reads a word of each entry, from the last one down, and stops at the last used one.
///
/// # Errors
/// The store's failure: power was lost, or the device failed.
pub fn find_end<B: Board>(store: &mut Store<B>) -> Result<u8, StoreErr>
    requires ready { IsReady store.old }
    ensures end { Learns store.old store.new result (IsTableEnd (table (committed store.old))) }
    ensures last { IfOk result (λ end. (end ≡ 1)
        ⊎ (word (committed store.old) (FIRST_ENTRY_PAGE + (end - 1)) 0 ≢ 0)) }
{
    let mut end = ENTRIES_END;
    while end > 1 {
        let first = store.read_committed(entry_address(EntryNumber::new(end - 1)))?;
        if first != 0 {
            return Ok(end);
        }
        end -= 1;
    }
    Ok(end)
}

/// Fills an empty table with the entries before `end`. It reads the first word of each, and eleven more of each used
/// one. The table is filled in place, since it is long.
///
/// # Errors
/// The store fails.
pub fn fill_table<B: Board, const N: usize>(
    store: &mut Store<B>,
    end: u8,
    entries: &mut ArrayVec<Entry, N>,
) -> Result<(), StoreErr>
    requires ready { IsReady store.old }
    requires within { end ≤ 64 }
    requires room { end ≤ N }
    requires empty { entries.old.items ≡ [] }
    ensures table { OnOk result (entries.new.items ≡ take end (table (committed store.old))) }
    ensures store { Reads store.old store.new (result_err result) }
{
    for number in 0..end {
        entries.push(read_used(store, EntryNumber::new(number))?);
    }
    Ok(())
}

/// Returns an entry's second word. Its bytes are the parent, the short identifier and the length of the name; in a free
/// entry they mean nothing.
///
/// # Errors
/// The store's failure: power was lost, or the device failed.
pub(crate) fn read_second_word<B: Board>(
    store: &mut Store<B>,
    e: EntryNumber,
) -> Result<u32, StoreErr>
    requires { HasEntry store.old e }
    ensures word { IfOk result (λ w. w ≡ word (committed store.old) (1 + e) 1) }
    ensures store { Reads store.old store.new (result_err result) }
{
    store.read_committed(entry_address(e) + 1)
}

/// Returns a word of an entry.
///
/// # Errors
/// The store's failure: power was lost, or the device failed.
pub(crate) fn read_entry_word<B: Board>(
    store: &mut Store<B>,
    e: EntryNumber,
    place: u16,
) -> Result<u32, StoreErr>
    requires entry { HasEntry store.old e }
    requires place { place < 11 }
    ensures word { IfOk result (λ w. w ≡ word (committed store.old) (1 + e) place) }
    ensures store { Reads store.old store.new (result_err result) }
{
    store.read_committed(entry_address(e) + place)
}

/// Returns the head of an entry by its number. It reads two words, where a whole entry takes eleven.
///
/// # Errors
/// The store's failure: power was lost, or the device failed.
pub fn read_entry_head<B: Board>(
    store: &mut Store<B>,
    e: EntryNumber,
) -> Result<EntryHead, StoreErr>
    requires { HasEntry store.old e }
    ensures head { IfOk result (λ head. head ≡ head_of (entry_in (table (committed store.old)) e)) }
    ensures store { Reads store.old store.new (result_err result) }
{
    let at = entry_address(e);
    let first = store.read_committed(at)?;
    let second = store.read_committed(at + 1)?;
    Ok(EntryHead::from_words(first, second))
}
