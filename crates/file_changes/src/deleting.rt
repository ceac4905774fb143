//! DELETE FILE: deleting a file with all files below it (ISO/IEC 7816-9).

ghost use Rattle.std.specs.Prelude.{◌≡◌, ◌⊎◌, ◌<◌, ◌≤◌, ◌+◌, ◌++◌, ℕ, List, [], true, false, if◌then◌else◌, is_some};
ghost use Rattle.std.specs.Prelude.{length, replicate, slice_index, slice_set, IfOk, OnOk, MatchResult};
ghost use Rattle.std.specs.List.{sum_by};
ghost use Rattle.std.specs.Result.{result_err};
ghost use Rattle.undo_journal.specs.Commits.{CommitsByGate, TurnsTo};
ghost use Rattle.undo_journal.specs.Memory.{committed, current, IsReady};
ghost use Rattle.undo_journal.specs.Lent.{memory_of};
ghost use Rattle.undo_journal.specs.StoreCalls.{Learns, Changes, Reads, SetsIn};
ghost use Rattle.block_chain.specs.declared.layout.TheConstants.{MOST_BLOCKS};
ghost use Rattle.block_chain.specs.Layout.{chains_of};
ghost use Rattle.file_tree.specs.declared.layout.TheConstants.{DELETE_WRITES};
ghost use Rattle.file_tree.specs.Formats.{block_count};
ghost use Rattle.card_model.specs.Spaces.{free_space};
ghost use Rattle.file_tree.specs.declared.entry.Entry.{Entry};
ghost use Rattle.file_tree.specs.Table.{entry_in, table};
ghost use Rattle.file_tree.specs.TableEnd.{IsTableEnd};
ghost use Rattle.file_tree.specs.Trees.{tree_of};
ghost use Rattle.file_tree.specs.TreeChanges.{Deletes, with_freed};
ghost use Rattle.file_tree.specs.Indexes.{IsIndex};
ghost use Rattle.file_changes.specs.Conditions.{HasLowerFile};
ghost use Rattle.file_changes.specs.DeletionParts.{IsPart, IsRemoval, CanGive, FreesEntries, GoesWith, Removes};
ghost use Rattle.file_changes.specs.DeletionParts.{IsNoPart, extents_in, entry_if_gone, HasPlaceFor, CanRemove};
ghost use Rattle.undo_journal.specs.Rooms.{HasRoom};
ghost use Rattle.file_lookup.specs.StoredFiles.{HasEntry, HasFile, HasTableEnd};

use arrayvec::ArrayVec;
use block_chain::{Chain, Extent};
use block_store::give_back;
use file_lookup::{find_end, read_entry, read_entry_head};
use file_tree::{
    ENTRIES_END, Entry, EntryKind, EntryNumber, ExtentList, FreeSpace, Index, TABLE_ROOM,
    entry_address, is_within,
};
use undo_journal::{Board, Store, StoreErr, Txn};

/// The chains of some EFs.
type ChainList = ArrayVec<Chain, TABLE_ROOM>;

/// For each entry, true if it is deleted.
type Marks = [bool; TABLE_ROOM];

/// The subtree of a file: which entries go, how many, and the extents of its EFs.
#[derive(Drop)]
struct Part {
    goes: Marks,
    count: u16,
    extents: ExtentList,
}

impl Part {
    /// Returns a subtree of no entry.
    fn new() -> Part
        ensures goes { result.goes ≡ replicate 64 false }
        ensures count { result.count ≡ 0 }
        ensures extents { result.extents.items ≡ [] }
    {
        Part {
            goes: [false; TABLE_ROOM],
            count: 0,
            extents: ExtentList::new(),
        }
    }

    /// Adds an entry that goes, if one is given.
    fn add(&mut self, e: EntryNumber, entry: Option<Entry>)
        requires { HasPlaceFor self.old e }
        ensures goes { self.new.goes ≡ (if is_some entry then slice_set self.old.goes e true else self.old.goes) }
        ensures count { self.new.count ≡ self.old.count + (if is_some entry then 1 else 0) }
        ensures extents { self.new.extents.items ≡ self.old.extents.items ++ extents_in entry }
    {
        let Some(entry) = entry else {
            return;
        };
        self.goes[usize::from(e.get())] = true;
        self.count += 1;
        if let Some(extent) = entry.extent() {
            self.extents.push(extent);
        }
    }
}

/// Returns the parent of each entry, from the heads of the entries before `end`.
fn read_parents<B: Board>(store: &mut Store<B>, end: u8) -> Result<[u8; 256], StoreErr>
    requires { HasTableEnd store.old end }
    ensures parents { IfOk result (λ parents. (e : ℕ) → e < 256
        → slice_index parents e ≡ (entry_in (table (committed store.old)) e).parent) }
    ensures store { Reads store.old store.new (result_err result) }
{
    // A parent is a byte, so any entry's parent has a place here.
    let mut parents = [0; 256];
    for number in 0..end {
        let e = EntryNumber::new(number);
        let head = read_entry_head(store, e)?;
        parents[usize::from(number)] = head.parent;
    }
    Ok(parents)
}

/// Returns an entry if it is in the subtree of `top`.
fn deleted_entry<B: Board>(
    store: &mut Store<B>,
    parents: &[u8; 256],
    top: EntryNumber,
    e: EntryNumber,
) -> Result<Option<Entry>, StoreErr>
    requires entry { HasEntry store.old e }
    requires parents { (f : ℕ) → f < 256
        → slice_index parents.now f ≡ (entry_in (table (committed store.old)) f).parent }
    ensures { Learns store.old store.new result (λ found. found ≡ entry_if_gone (table (committed store.old)) top e) }
{
    let parent_of = |at: EntryNumber| EntryNumber::new(parents[usize::from(at.get())]);
    if !is_within(parent_of, top, e) {
        return Ok(None);
    }
    let entry = read_entry(store, e)?;
    if !entry.is_used() {
        return Ok(None);
    }
    Ok(Some(entry))
}

/// Returns the subtree of a file. Nothing is below an EF, so that only a DF takes a scan of the table.
fn part_of<B: Board>(store: &mut Store<B>, top: EntryNumber) -> Result<Part, StoreErr>
    requires file { HasFile store.old top }
    ensures { Learns store.old store.new result (IsPart (table (committed store.old)) top) }
{
    let entry = read_entry(store, top)?;
    let mut part = Part::new();
    if entry.has_kind(EntryKind::Dedicated) {
        fill_part(store, top, &mut part)?;
        return Ok(part);
    }
    part.add(top, Some(entry));
    Ok(part)
}

/// Fills an empty part with the subtree of a DF. Reads only the entries in it whole.
// A part of its own would lie on the stack beside its caller's.
fn fill_part<B: Board>(
    store: &mut Store<B>,
    top: EntryNumber,
    part: &mut Part,
) -> Result<(), StoreErr>
    requires ready { IsReady store.old }
    requires none { IsNoPart part.old }
    ensures { Learns store.old store.new result (λ done. IsPart (table (committed store.old)) top part.new) }
{
    let end = find_end(store)?;
    let parents = read_parents(store, end)?;
    for number in 0..end {
        let e = EntryNumber::new(number);
        let entry = deleted_entry(store, &parents, top, e)?;
        part.add(e, entry);
    }
    Ok(())
}

/// Returns the chains of extents.
fn chains_in(extents: &[Extent]) -> ChainList
    requires { length extents.now ≤ 64 }
    ensures { result.items ≡ chains_of extents.now }
{
    let mut chains = ChainList::new();
    for extent in extents {
        chains.push(extent.chain);
    }
    chains
}

/// Returns the total number of blocks of extents.
fn blocks_in(extents: &[Extent]) -> u16
    requires { sum_by (λ x. x.blocks) extents.now ≤ MOST_BLOCKS }
    ensures { result ≡ sum_by (λ x. x.blocks) extents.now }
{
    let mut blocks = 0;
    for extent in extents {
        blocks += extent.blocks;
    }
    blocks
}

/// Frees the entries that go.
fn free_part<B: Board>(txn: &mut Txn<'_, B>, marks: &Marks) -> Result<(), StoreErr>
    requires room { HasRoom (memory_of txn.old) 64 }
    ensures done { OnOk result ((part : List Entry) → GoesWith marks.now part
        → FreesEntries (current (memory_of txn.old)) part (current (memory_of txn.new))) }
    ensures store { SetsIn 64 txn.old txn.new (result_err result) }
{
    for number in 0..ENTRIES_END {
        let goes = marks[usize::from(number)];
        if goes {
            txn.set(entry_address(EntryNumber::new(number)), 0)?;
        }
    }
    Ok(())
}

/// Frees the entries that go, and gives chains back.
fn take_away<B: Board>(
    txn: &mut Txn<'_, B>,
    marks: &Marks,
    chains: &[Chain],
) -> Result<(), StoreErr>
    requires room { HasRoom (memory_of txn.old) (64 + (length chains.now + 1)) }
    requires apart { (part : List Entry) × GoesWith marks.now part
        × CanGive (current (memory_of txn.old)) part chains.now }
    ensures done { OnOk result ((part : List Entry) → GoesWith marks.now part
        → Removes (current (memory_of txn.old)) part chains.now (current (memory_of txn.new))) }
    ensures store { SetsIn (64 + (length chains.now + 1)) txn.old txn.new (result_err result) }
{
    free_part(txn, marks)?;
    give_back(txn, chains)
}

/// Frees entries and chains in one transaction.
fn remove<B: Board>(store: &mut Store<B>, marks: &Marks, chains: &[Chain]) -> Result<(), StoreErr>
    requires { CanRemove store.old marks.now chains.now }
    ensures any_exit { (committed store.new ≡ committed store.old) ⊎ ((part : List Entry) → GoesWith marks.now part
        → Removes (committed store.old) part chains.now (committed store.new)) }
    ensures done { OnOk result ((part : List Entry) → GoesWith marks.now part
        → Removes (committed store.old) part chains.now (committed store.new)) }
    ensures by_gate { CommitsByGate store.old store.new }
    ensures turned { TurnsTo (λ after. (part : List Entry) → GoesWith marks.now part
        → Removes (committed store.old) part chains.now after) store.old store.new }
    ensures store { Changes DELETE_WRITES store.old store.new (result_err result) }
{
    let mut txn = store.begin();
    let work = take_away(&mut txn, marks, chains);
    txn.end(work)
}

/// All that is deleted with a file: entries, chains and their space.
#[derive(Drop)]
struct Removal {
    goes: Marks,
    chains: ChainList,
    space: FreeSpace,
}

/// Returns all that is deleted with the file of an entry.
fn removal_of<B: Board>(store: &mut Store<B>, e: EntryNumber) -> Result<Removal, StoreErr>
    requires file { HasLowerFile store.old e }
    ensures { Learns store.old store.new result (IsRemoval (committed store.old) e) }
{
    let part = part_of(store, e)?;
    let space = FreeSpace {
        blocks: blocks_in(part.extents.as_slice()),
        entries: part.count,
    };
    let chains = chains_in(part.extents.as_slice());
    Ok(Removal {
        goes: part.goes,
        chains,
        space,
    })
}

/// Deletes a file with all files below it, in one transaction. It returns the numbers of freed blocks and entries.
/// The MF (entry 0) can't be deleted. The index is updated after the commit.
///
/// # Errors
/// The store's failure: power was lost, or the device failed. The tree is then as before or as after the deletion,
/// and the index is unchanged.
pub fn delete<B: Board>(
    store: &mut Store<B>,
    index: &mut Index,
    e: EntryNumber,
) -> Result<FreeSpace, StoreErr>
    requires file { HasLowerFile store.old e }
    requires index { IsIndex (table (committed store.old)) index.old }
    ensures any_exit { (committed store.new ≡ committed store.old)
        ⊎ Deletes (committed store.old) e (committed store.new) }
    ensures done { OnOk result (Deletes (committed store.old) e (committed store.new)) }
    ensures space { IfOk result (λ freed.
        free_space (block_count (committed store.new)) (tree_of (committed store.new))
        ≡ with_freed (free_space (block_count (committed store.old)) (tree_of (committed store.old))) freed) }
    ensures by_gate { CommitsByGate store.old store.new }
    ensures turned { TurnsTo (Deletes (committed store.old) e) store.old store.new }
    ensures store { Changes DELETE_WRITES store.old store.new (result_err result) }
    ensures index { MatchResult result (λ freed. IsIndex (table (committed store.new)) index.new)
        (λ error. index.new ≡ index.old) }
{
    let removal = removal_of(store, e)?;
    remove(store, &removal.goes, removal.chains.as_slice())?;
    index.without(e);
    Ok(removal.space)
}
