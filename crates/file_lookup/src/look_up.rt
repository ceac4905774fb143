//! Lookups by identifier, which use the index, and by short identifier, which read entries.

ghost use Rattle.std.specs.Prelude.{◌≡◌, ◌≢◌, ◌==◌, ◌≤◌, ◌↔◌, ℕ, List, IsTrue, IfOk, IfSome, option_map};
ghost use Rattle.std.specs.Result.{result_err};
ghost use Rattle.undo_journal.specs.Memory.{committed, IsReady};
ghost use Rattle.undo_journal.specs.StoreCalls.{Learns, Reads};
ghost use Rattle.card_model.specs.Selectors.{reached, child_by_short};
ghost use Rattle.file_tree.specs.Table.{IsChild, table, entry_in, path_of, IsUsed, IsTable};
ghost use Rattle.file_tree.specs.Kinds.{kind_byte};
ghost use Rattle.file_tree.specs.declared.kinds.EntryKind.TheVariants.{Free, Transparent};
ghost use Rattle.file_tree.specs.Trees.{tree_of};
ghost use Rattle.file_tree.specs.Indexes.{IsIndex};
ghost use Rattle.file_tree.specs.TreeParts.{IsShortChild, TellsShort, TellsBeside, TellsAbove};
ghost use Rattle.file_tree.specs.Entries.{byte_of};
ghost use Rattle.file_lookup.specs.StoredFiles.{HasEntry, HasFile, HasIndexed};

use crate::reading::{read_entry, read_entry_head, read_second_word};
use card_model::identifiers::MASTER_FILE;
use file_tree::{ENTRIES_END, EntryHead, EntryKind, EntryNumber, Index, Reached};
use undo_journal::{Board, Store, StoreErr};

/// An entry is that of the child of a dedicated file with this short identifier. Its head tells.
fn is_child(head: EntryHead, df: EntryNumber, short: u8) -> bool
    ensures { IsTrue result ↔ ((head.kind ≢ kind_byte Free) × (head.parent ≡ df) × (head.short ≡ short)) }
{
    head.is_used() && head.parent == df.get() && head.short == short
}

/// Returns true if the second word of an entry has this parent and this short identifier. They are its first two bytes,
/// which one comparison takes together.
#[tactic(auto, using(crate::proofs::SecondWords::first_two_bytes))]
fn names_child(second: u32, df: EntryNumber, short: u8) -> bool
    ensures { IsTrue result ↔ ((byte_of second 0 ≡ df) × (byte_of second 1 ≡ short)) }
{
    let wanted = 0x100 * u32::from(df.get()) + u32::from(short);
    second / 0x1_0000 == wanted
}

/// An entry is that of the child of a dedicated file with this short identifier. The head is read only where the second
/// word has both.
fn is_child_at<B: Board>(
    store: &mut Store<B>,
    e: EntryNumber,
    df: EntryNumber,
    short: u8,
) -> Result<bool, StoreErr>
    requires { HasEntry store.old e }
    ensures { Learns store.old store.new result (λ is. IsTrue is
        ↔ IsShortChild (entry_in (table (committed store.old)) e) df short) }
{
    let second = read_second_word(store, e)?;
    if !names_child(second, df, short) {
        return Ok(false);
    }
    let head = read_entry_head(store, e)?;
    Ok(is_child(head, df, short))
}

/// Returns the entry of a DF's child by short identifier, if any.
fn first_child<B: Board>(
    store: &mut Store<B>,
    df: EntryNumber,
    short: u8,
) -> Result<Reached, StoreErr>
    requires ready { IsReady store.old }
    ensures { Learns store.old store.new result (TellsShort (table (committed store.old)) df short) }
{
    for number in 1..ENTRIES_END {
        let e = EntryNumber::new(number);
        let is_child = is_child_at(store, e, df, short)?;
        if is_child {
            return Ok(Some(e));
        }
    }
    Ok(None)
}

/// Returns the entry of a DF's child by short identifier, if any.
///
/// # Errors
/// The store's failure: power was lost, or the device failed.
pub fn find_short<B: Board>(
    store: &mut Store<B>,
    df: EntryNumber,
    short: u8,
) -> Result<Reached, StoreErr>
    requires df { HasFile store.old df }
    requires some { 1 ≤ short }
    ensures found { IfOk result (λ found. option_map (path_of (table (committed store.old))) found
        ≡ child_by_short (tree_of (committed store.old)) (path_of (table (committed store.old)) df) short) }
    ensures child { IfOk result (λ found. IfSome found (IsChild (table (committed store.old)) df)) }
    ensures elementary { IfOk result
        (λ found. IfSome found (λ e. kind_byte Transparent ≤ (entry_in (table (committed store.old)) e).kind)) }
    ensures store { Reads store.old store.new (result_err result) }
{
    first_child(store, df, short)
}

/// Returns the DF beside this one with this identifier. The MF has none beside it.
fn find_beside<B: Board>(
    store: &mut Store<B>,
    index: &Index,
    df: EntryNumber,
    identifier: u16,
) -> Result<Reached, StoreErr>
    requires df { HasIndexed store.old index.now df }
    ensures { Learns store.old store.new result (TellsBeside (table (committed store.old)) df identifier) }
{
    if df.is_master() {
        return Ok(None);
    }
    let Some(beside) = index.child(index.parent(df), identifier) else {
        return Ok(None);
    };
    let other = read_entry(store, beside)?;
    Ok(other.has_kind(EntryKind::Dedicated).then_some(beside))
}

/// Returns true if a used entry's file has this identifier. It is looked up among the children of its parent.
fn has_identifier(index: &Index, e: EntryNumber, identifier: u16) -> bool
    ensures { (m : List ℕ) → IsTable (table m) → IsUsed (table m) e → IsIndex (table m) index.now
        → result ≡ ((entry_in (table m) e).identifier == identifier) }
{
    if e.is_master() {
        return identifier == MASTER_FILE;
    }
    match index.child(index.parent(e), identifier) {
        Some(child) => child == e,
        None => false,
    }
}

/// Returns the first of parent, DF and MF with this identifier.
fn find_above(index: &Index, df: EntryNumber, identifier: u16) -> Reached
    ensures { (m : List ℕ) → IsTable (table m) → IsUsed (table m) df → IsIndex (table m) index.now
        → TellsAbove (table m) df identifier result }
{
    let parent = index.parent(df);
    let master = EntryNumber::master();
    if has_identifier(index, parent, identifier) {
        Some(parent)
    } else if has_identifier(index, df, identifier) {
        Some(df)
    } else if has_identifier(index, master, identifier) {
        Some(master)
    } else {
        None
    }
}

/// Returns the entry that an identifier selects from a DF. The candidates, in order: a child of the DF, a DF beside
/// it, its parent, itself, the MF (ISO/IEC 7816-4, 7.3.1).
///
/// # Errors
/// The store's failure: power was lost, or the device failed.
pub fn select<B: Board>(
    store: &mut Store<B>,
    index: &Index,
    df: EntryNumber,
    identifier: u16,
) -> Result<Reached, StoreErr>
    requires df { HasIndexed store.old index.now df }
    ensures found { IfOk result (λ found. option_map (path_of (table (committed store.old))) found
        ≡ reached (tree_of (committed store.old)) (path_of (table (committed store.old)) df) identifier) }
    ensures used { IfOk result (λ found. IfSome found (IsUsed (table (committed store.old)))) }
    ensures store { Reads store.old store.new (result_err result) }
{
    if let Some(child) = index.child(df, identifier) {
        return Ok(Some(child));
    }
    if let Some(beside) = find_beside(store, index, df, identifier)? {
        return Ok(Some(beside));
    }
    Ok(find_above(index, df, identifier))
}
