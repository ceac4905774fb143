//! Lookups by name and by path (ISO/IEC 7816-4, 7.3.1 and 11.2.2).

ghost use Rattle.std.specs.Prelude.{◌≡◌, ◌↔◌, ◌<◌, ◌-◌, ◌%◌, min, length, option_map, slice_index, List, ℕ};
ghost use Rattle.std.specs.Prelude.{IfOk, IfSome, IsTrue};
ghost use Rattle.std.specs.Result.{result_err};
ghost use Rattle.undo_journal.specs.Memory.{committed, IsReady};
ghost use Rattle.undo_journal.specs.StoreCalls.{Learns, Reads};
ghost use Rattle.card_model.specs.FileTrees.{Path};
ghost use Rattle.card_model.specs.Selectors.{selected, the_parent, by_name, path_from_master, path_from_current};
ghost use Rattle.file_tree.specs.Table.{table, path_of, IsUsed};
ghost use Rattle.file_tree.specs.Trees.{tree_of, TreeStands};
ghost use Rattle.file_tree.specs.Indexes.{IsIndex};
ghost use Rattle.file_tree.specs.Entries.{byte_of};
ghost use Rattle.file_tree.specs.Naming.{BearsName, BearsNameAt, TellsNamed};
ghost use Rattle.file_lookup.specs.StoredFiles.{HasFile, HasTree, HasEntry};

use crate::reading::{read_entry, read_entry_word, read_second_word};
use card_model::limits::MOST_NAME_BYTES;
use file_tree::{ENTRIES_END, Entry, EntryKind, EntryNumber, Index, Reached};
use undo_journal::{Board, Store, StoreErr};

/// The first word of an entry's name.
const NAME_WORD: u16 = 4;

/// Returns true for the entry of a DF with this name.
fn bears_name(entry: &Entry, name: &[u8]) -> bool
    ensures { IsTrue result ↔ BearsName entry.now name.now }
{
    entry.has_kind(EntryKind::Dedicated) && entry.name_length != 0 && entry.name() == name
}

/// Returns true if the second word of an entry tells of a name as long as this one.
fn is_as_long(second: u32, name: &[u8]) -> bool
    ensures { IsTrue result ↔ (min (byte_of second 2) 16 ≡ length name.now) }
{
    let [_, _, name_length, _] = second.to_be_bytes();
    usize::from(name_length).min(MOST_NAME_BYTES) == name.len()
}

/// Returns true if a word has the last byte of a name at its place.
fn ends_alike(word: u32, name: &[u8]) -> bool
    requires { 0 < length name.now }
    ensures { IsTrue result ↔ (byte_of word ((length name.now - 1) % 4)
        ≡ slice_index name.now (length name.now - 1)) }
{
    let last = name.len() - 1;
    word.to_be_bytes()[last % 4] == name[last]
}

/// An entry is a dedicated file's with this name. The whole entry is read only where the name is as long, and ends with
/// the same byte: names that one issuer gives differ at the end.
fn bears_name_at<B: Board>(
    store: &mut Store<B>,
    e: EntryNumber,
    name: &[u8],
) -> Result<bool, StoreErr>
    requires entry { HasEntry store.old e }
    requires some { 0 < length name.now }
    ensures { Learns store.old store.new result (λ bears. IsTrue bears
        ↔ BearsNameAt (table (committed store.old)) name.now e) }
{
    let second = read_second_word(store, e)?;
    if !is_as_long(second, name) {
        return Ok(false);
    }
    let last = read_entry_word(store, e, NAME_WORD + (name.len() - 1) as u16 / 4)?;
    if !ends_alike(last, name) {
        return Ok(false);
    }
    let entry = read_entry(store, e)?;
    Ok(bears_name(&entry, name))
}

/// The entry of the dedicated file with this name, if there is one. No file has the empty name.
fn first_named<B: Board>(store: &mut Store<B>, name: &[u8]) -> Result<Reached, StoreErr>
    requires ready { IsReady store.old }
    ensures { Learns store.old store.new result (TellsNamed (table (committed store.old)) name.now) }
{
    if name.is_empty() {
        return Ok(None);
    }
    for number in 0..ENTRIES_END {
        let e = EntryNumber::new(number);
        let bears = bears_name_at(store, e, name)?;
        if bears {
            return Ok(Some(e));
        }
    }
    Ok(None)
}

/// Returns the entry of the DF with this name. The name must match in full. The empty name matches no file.
///
/// # Errors
/// The store's failure: power was lost, or the device failed.
pub fn find_name<B: Board>(store: &mut Store<B>, name: &[u8]) -> Result<Reached, StoreErr>
    requires tree { HasTree store.old }
    ensures found { IfOk result (λ found. (df : Path) → option_map (path_of (table (committed store.old))) found
        ≡ selected (tree_of (committed store.old)) df (by_name name.now)) }
    ensures used { IfOk result (λ found. IfSome found (IsUsed (table (committed store.old)))) }
    ensures named { IfOk result (TellsNamed (table (committed store.old)) name.now) }
    ensures store { Reads store.old store.new (result_err result) }
{
    first_named(store, name)
}

/// Returns the parent of a DF. The MF has none.
///
/// # Errors
/// The store's failure: power was lost, or the device failed.
pub fn find_parent<B: Board>(store: &mut Store<B>, df: EntryNumber) -> Result<Reached, StoreErr>
    requires df { HasFile store.old df }
    ensures found { IfOk result (λ found. option_map (path_of (table (committed store.old))) found
        ≡ selected (tree_of (committed store.old)) (path_of (table (committed store.old)) df) the_parent) }
    ensures used { IfOk result (λ found. IfSome found (IsUsed (table (committed store.old)))) }
    ensures store { Reads store.old store.new (result_err result) }
{
    if df.is_master() {
        return Ok(None);
    }
    let entry = read_entry(store, df)?;
    Ok(Some(EntryNumber::new(entry.parent)))
}

/// Returns the entry at the end of a path from a file. Each identifier is that of a child of the file before. The
/// empty path leads to the file itself. No path leads through an EF.
pub fn find_path(index: &Index, df: EntryNumber, path: &[u16]) -> Reached
    ensures found { (m : List ℕ) → TreeStands m → IsUsed (table m) df → IsIndex (table m) index.now
        → option_map (path_of (table m)) result
        ≡ selected (tree_of m) (path_of (table m) df) (path_from_current path.now) }
    ensures used { (m : List ℕ) → TreeStands m → IsUsed (table m) df → IsIndex (table m) index.now
        → IfSome result (IsUsed (table m)) }
{
    let mut at = df;
    for k in 0..path.len() {
        match index.child(at, path[k]) {
            Some(child) => at = child,
            None => return None,
        }
    }
    Some(at)
}

/// Returns the entry at the end of a path from the MF. The MF's identifier isn't in the path.
pub fn find_path_from_master(index: &Index, path: &[u16]) -> Reached
    ensures found { (m : List ℕ) → TreeStands m → IsIndex (table m) index.now → (df : Path)
        → option_map (path_of (table m)) result ≡ selected (tree_of m) df (path_from_master path.now) }
    ensures used { (m : List ℕ) → TreeStands m → IsIndex (table m) index.now → IfSome result (IsUsed (table m)) }
{
    find_path(index, EntryNumber::master(), path)
}
