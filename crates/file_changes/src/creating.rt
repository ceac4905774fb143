//! CREATE FILE: creating a file (ISO/IEC 7816-9).

ghost use Rattle.std.specs.Prelude.{◌≡◌, ◌⊎◌, ◌&&◌, ◌≤◌, nat_le, length, Some, IfOk, OnOk};
ghost use Rattle.std.specs.Prelude.{MatchResult, if◌then◌else◌};
ghost use Rattle.std.specs.Result.{result_err};
ghost use Rattle.undo_journal.specs.Commits.{TurnsAfter};
ghost use Rattle.undo_journal.specs.Memory.{committed, current, InRuns};
ghost use Rattle.undo_journal.specs.Lent.{memory_of};
ghost use Rattle.undo_journal.specs.StoreCalls.{Learns, OnlyReads, Changes, SetsIn};
ghost use Rattle.card_model.specs.declared.status.Sw.{Sw};
ghost use Rattle.card_model.specs.declared.fcp.ShortIdentifier.TheVariants.{Absent};
ghost use Rattle.card_model.specs.FileControl.{IsCreatable, size_of_kind};
ghost use Rattle.card_model.specs.Spaces.{blocks_for};
ghost use Rattle.block_chain.specs.Chains.{free_chain};
ghost use Rattle.file_changes.specs.Adding.{AddsByGate};
ghost use Rattle.file_changes.specs.Conditions.{CanCreate, HasDf, HasFreeBlocks, IsNewEntry, IsSurveyed};
ghost use Rattle.file_tree.specs.Formats.{block_count};
ghost use Rattle.file_tree.specs.Kinds.{kind_byte};
ghost use Rattle.file_tree.specs.declared.layout.TheConstants.{CREATE_WRITES, MOST_FILE_BLOCKS};
ghost use Rattle.file_tree.specs.Table.{table, path_of};
ghost use Rattle.file_tree.specs.Trees.{tree_of};
ghost use Rattle.file_tree.specs.TreeChanges.{SameTree};
ghost use Rattle.file_tree.specs.Indexes.{IsIndex};
ghost use Rattle.file_changes.specs.Creations.{CreatesNew, TellsCreation, kind_number};
ghost use Rattle.card_model.specs.NewFiles.{low_bits, short_for, short_of_new};
ghost use Rattle.file_changes.specs.CreationRefusals.{creation_refusal};
ghost use Rattle.file_lookup.specs.StoredFiles.{HasFile, HasTree};
ghost use Rattle.file_changes.specs.CreationParts.{FindsPlace, AddsFile, FillsAndAdds, FillsOrAdds};
ghost use Rattle.file_changes.specs.CreationParts.{entry_for, record_length_of_kind, existing_of_kind};
ghost use Rattle.file_changes.specs.CreationParts.{padded, no_chain, short_option};
ghost use Rattle.undo_journal.specs.Rooms.{HasRoom};

use crate::placing::{NewPlace, place_for};
use crate::refusing::taken;
use crate::writing::write_entry;
use block_chain::FreeRun;
use block_store::{fill, take};
use card_model::limits::MOST_SHORT;
use card_model::{Fcp, FileKind, FreeSpace, ShortIdentifier, Sw};
use file_lookup::find_short;
use file_tree::{Entry, EntryKind, EntryNumber, Index, blocks_for};
use undo_journal::{Board, Store, StoreErr, Txn};

/// The result of a creation.
#[derive(Clone, Copy)]
pub enum Creation {
    /// The new file has this entry and this number of blocks.
    Created { entry: EntryNumber, blocks: u16 },
    /// The first refusal, as a status word. Nothing was changed.
    Refused(Sw),
}

/// The value of each byte of a new file.
const BLANK: u8 = 0xFF;

/// Returns the low five bits if they are 1 to 30, else 0.
fn low_short(identifier: u16) -> u8
    ensures { result ≡ (if nat_le 1 (low_bits identifier) && nat_le (low_bits identifier) 30 then low_bits identifier
        else 0) }
{
    let low = (identifier % 32) as u8;
    if (1..=MOST_SHORT).contains(&low) {
        low
    } else {
        0
    }
}

/// Returns the default short identifier, 0 for none. It is the low five bits of the identifier, if they are 1 to 30
/// and no child has them.
fn short_by_default<B: Board>(
    store: &mut Store<B>,
    df: EntryNumber,
    identifier: u16,
) -> Result<u8, StoreErr>
    requires df { HasFile store.old df }
    ensures { Learns store.old store.new result (λ n. short_option n
        ≡ short_for (tree_of (committed store.old)) (path_of (table (committed store.old)) df) identifier Absent) }
{
    let low = low_short(identifier);
    if low == 0 {
        return Ok(0);
    }
    match find_short(store, df, low)? {
        Some(_) => Ok(0),
        None => Ok(low),
    }
}

/// Returns the short identifier of a new file, 0 for none. A DF has none.
fn short_of_new_file<B: Board>(
    store: &mut Store<B>,
    df: EntryNumber,
    fcp: &Fcp<'_>,
) -> Result<u8, StoreErr>
    requires df { HasFile store.old df }
    requires fcp { IsCreatable fcp.now }
    ensures { Learns store.old store.new result (λ n. short_option n
        ≡ short_of_new (tree_of (committed store.old)) (path_of (table (committed store.old)) df) fcp.now) }
{
    if let FileKind::Df { .. } = fcp.kind {
        return Ok(0);
    }
    match fcp.kind.short() {
        ShortIdentifier::Absent => short_by_default(store, df, fcp.identifier),
        ShortIdentifier::Empty => Ok(0),
        ShortIdentifier::Given(number) => Ok(number),
    }
}

/// Returns the kind of a file's entry.
fn entry_kind(kind: &FileKind<'_>) -> EntryKind
    ensures { kind_byte result ≡ kind_number kind.now }
{
    match kind {
        FileKind::Df { .. } => EntryKind::Dedicated,
        FileKind::Transparent { .. } => EntryKind::Transparent,
        FileKind::Linear { .. } => EntryKind::Linear,
        FileKind::Cyclic { .. } => EntryKind::Cyclic,
    }
}

/// Returns the record length in bytes and the number of records. Both are 0 for a kind without records.
fn record_length_and_count(kind: &FileKind<'_>) -> (u8, u8)
    ensures { result ≡ (record_length_of_kind kind.now, existing_of_kind kind.now) }
{
    match kind {
        FileKind::Df { .. } | FileKind::Transparent { .. } => (0, 0),
        FileKind::Linear { records, .. } | FileKind::Cyclic { records, .. } => (
            records.record_length,
            records.existing,
        ),
    }
}

/// Returns the bytes, padded with zeros.
fn padded<const N: usize>(bytes: &[u8]) -> [u8; N]
    requires { length bytes.now ≤ N }
    ensures { result ≡ padded N bytes.now }
{
    let mut all = [0; N];
    for i in 0..bytes.len() {
        all[i] = bytes[i];
    }
    all
}

/// Returns the entry of a new file, without its blocks.
fn entry_for(fcp: &Fcp<'_>, parent: EntryNumber, short: u8) -> Entry
    requires { IsCreatable fcp.now }
    ensures { result ≡ entry_for fcp.now parent short no_chain }
{
    let name = fcp.kind.name();
    let rule = fcp.rule.as_bytes();
    let (record_length, existing) = record_length_and_count(&fcp.kind);
    Entry {
        kind: entry_kind(&fcp.kind).to_byte(),
        life: fcp.life_cycle.to_byte(),
        identifier: fcp.identifier,
        parent: parent.get(),
        short,
        name_length: name.len() as u8,
        rule_length: rule.len() as u8,
        rule: padded(rule),
        name: padded(name),
        size: fcp.kind.size(),
        record_length: u16::from(record_length),
        first: 0,
        last: 0,
        records: u16::from(existing),
        start: 0,
    }
}

/// Writes the entry of a new file, and takes its blocks, which are the first free ones.
fn add_file<B: Board>(
    txn: &mut Txn<'_, B>,
    e: EntryNumber,
    entry: Entry,
    blocks: u16,
    run: FreeRun,
) -> Result<(), StoreErr>
    requires room { HasRoom (memory_of txn.old) 13 }
    requires entry { IsNewEntry e entry }
    requires blocks { HasFreeBlocks (current (memory_of txn.old)) blocks run }
    ensures done { OnOk result (AddsFile (current (memory_of txn.old)) e entry blocks (current (memory_of txn.new))) }
    ensures store { SetsIn 13 txn.old txn.new (result_err result) }
    ensures runs { InRuns 3 (memory_of txn.old) (memory_of txn.new) }
{
    if blocks == 0 {
        return write_entry(txn, e, entry);
    }
    take(txn, blocks, run)?;
    let entry = Entry {
        first: run.chain.first,
        last: run.chain.last,
        ..entry
    };
    write_entry(txn, e, entry)
}

/// Fills a new file's blocks, then adds it in a transaction.
fn write_file<B: Board>(
    store: &mut Store<B>,
    e: EntryNumber,
    entry: Entry,
    blocks: u16,
) -> Result<(), StoreErr>
    requires tree { HasTree store.old }
    requires entry { IsNewEntry e entry }
    requires enough { blocks ≤ length (free_chain (committed store.old)) }
    requires few { blocks ≤ MOST_FILE_BLOCKS }
    ensures any_exit { FillsOrAdds (committed store.old) e entry blocks (committed store.new) }
    ensures done { OnOk result (FillsAndAdds (committed store.old) e entry blocks (committed store.new)) }
    ensures by_gate { AddsByGate store.old store.new }
    ensures turned { TurnsAfter blocks (FillsAndAdds (committed store.old) e entry blocks) store.old store.new }
    ensures store { Changes CREATE_WRITES store.old store.new (result_err result) }
{
    let run = fill(store, blocks, BLANK)?;
    let mut txn = store.begin();
    let work = add_file(&mut txn, e, entry, blocks, run);
    txn.end(work)
}

/// The place of a new file in a dedicated file, or the first reason why it is refused.
fn find_place<B: Board>(
    store: &mut Store<B>,
    index: &Index,
    free: FreeSpace,
    df: EntryNumber,
    fcp: &Fcp<'_>,
) -> Result<NewPlace, StoreErr>
    requires { CanCreate store.old df free index.now fcp.now }
    ensures { Learns store.old store.new result (FindsPlace (committed store.old) df fcp.now) }
{
    match taken(store, index, df, fcp)? {
        Some(status) => Ok(NewPlace::Refused(status)),
        None => place_for(store, free, df, fcp),
    }
}

/// Creates a file in the DF of an entry. Its content is FF throughout, or its existing records are. Its blocks are
/// filled first; then one transaction takes them and writes its entry. `free` is the free space of the tree. A refusal
/// changes and writes nothing. The index is updated after the commit.
///
/// # Errors
/// The store's failure: power was lost, or the device failed. The tree is then as before or as after the creation,
/// and the index is unchanged.
pub fn create<B: Board>(
    store: &mut Store<B>,
    index: &mut Index,
    free: FreeSpace,
    df: EntryNumber,
    fcp: &Fcp<'_>,
) -> Result<Creation, StoreErr>
    requires df { HasDf store.old df }
    requires space { IsSurveyed store.old free index.old }
    requires fcp { IsCreatable fcp.now }
    ensures any_exit { SameTree (committed store.old) (committed store.new)
        ⊎ CreatesNew (committed store.old) df fcp.now (committed store.new) }
    ensures by_gate { AddsByGate store.old store.new }
    ensures turned { TurnsAfter (blocks_for (size_of_kind fcp.now.kind)) (CreatesNew (committed store.old) df fcp.now)
        store.old store.new }
    ensures store { Changes CREATE_WRITES store.old store.new (result_err result) }
    ensures idle { (status : Sw)
        → creation_refusal (block_count (committed store.old)) (tree_of (committed store.old))
        (path_of (table (committed store.old)) df) fcp.now ≡ Some status
        → OnlyReads store.old store.new }
    ensures done { IfOk result
        (λ creation. TellsCreation (committed store.old) df fcp.now creation (committed store.new)) }
    ensures index { MatchResult result (λ creation. IsIndex (table (committed store.new)) index.new)
        (λ error. index.new ≡ index.old) }
{
    let entry = match find_place(store, index, free, df, fcp)? {
        NewPlace::At(entry) => entry,
        NewPlace::Refused(status) => return Ok(Creation::Refused(status)),
    };
    let short = short_of_new_file(store, df, fcp)?;
    let blocks = blocks_for(fcp.kind.size());
    write_file(store, entry, entry_for(fcp, df, short), blocks)?;
    index.with(df, fcp.identifier, entry);
    Ok(Creation::Created { entry, blocks })
}
