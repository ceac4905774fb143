//! The check of a memory's file tree at power-on, and its results.

ghost use Rattle.std.specs.Prelude.{◌≡◌, ◌≤◌, [], IfOk};
ghost use Rattle.std.specs.Result.{result_err};
ghost use Rattle.undo_journal.specs.Memory.{committed, IsReady};
ghost use Rattle.undo_journal.specs.StoreCalls.{Learns, Reads};
ghost use Rattle.file_tree.specs.Indexes.{IsBlankIndex};
ghost use Rattle.file_tree.specs.Table.{table};
ghost use Rattle.file_tree.specs.Trees.{TellsSpace};
ghost use Rattle.tree_check.specs.Surveys.{IsBlankListing, TellsListing, TellsTree};
ghost use Rattle.file_lookup.specs.StoredFiles.{HasTableEnd};
ghost use Rattle.tree_check.specs.SurveyParts.{HasTable};
ghost use Rattle.tree_check.specs.declared.tree.TheConstants.{FEW_ENTRIES};

use crate::format::read_block_count;
use crate::table::{count_free, is_table, list_extents};
use crate::walk::lay;
use arrayvec::ArrayVec;
use block_chain::Extent;
use card_model::FreeSpace;
use file_lookup::{fill_table, find_end};
use file_tree::{ENTRIES, Entry, ExtentList, Index, Table};
use undo_journal::{Board, Store, StoreErr};

/// The greatest number of entries in a table that is cleared in a few instructions, of 2,024 bytes. A longer one is
/// cleared byte by byte.
const FEW_ENTRIES: usize = 46;

/// A table of few entries.
type FewEntries = ArrayVec<Entry, FEW_ENTRIES>;

/// The results of the check of the entries, but for the index.
#[derive(Drop)]
struct Listing {
    /// The extents of the EFs, in the order of their entries.
    extents: ExtentList,
    /// The number of free entries.
    free: u16,
}

impl Listing {
    /// Returns a listing to be filled.
    fn new() -> Listing
        ensures { IsBlankListing result }
    {
        Listing {
            extents: ExtentList::new(),
            free: 0,
        }
    }
}

/// Checks the file tree, and returns the free space. It returns `None` for an invalid tree. It fills an empty index
/// from the entries that it reads, in place, since an index is long. No clause counts device reads. The code reads the
/// first word of each entry and eleven more of each used one. It also reads one link per block, and the header's words
/// for the format and for the first free block.
///
/// # Errors
/// The store's failure: power was lost, or the device failed.
pub fn survey_tree<B: Board>(
    store: &mut Store<B>,
    index: &mut Index,
) -> Result<Option<FreeSpace>, StoreErr>
    requires ready { IsReady store.old }
    requires blank { IsBlankIndex index.old }
    ensures tree { IfOk result (TellsTree (committed store.old) index.new) }
    ensures store { Reads store.old store.new (result_err result) }
{
    let mut listing = Listing::new();
    let listed = list_files(store, index, &mut listing)?;
    if !listed {
        return Ok(None);
    }
    find_free(store, listing.extents.as_slice(), listing.free)
}

/// Checks all entries, with a table that is as short as may be. It returns false if they don't satisfy the rules.
fn list_files<B: Board>(
    store: &mut Store<B>,
    index: &mut Index,
    listing: &mut Listing,
) -> Result<bool, StoreErr>
    requires ready { IsReady store.old }
    requires blank { IsBlankIndex index.old }
    requires unlisted { IsBlankListing listing.old }
    ensures { Learns store.old store.new result (TellsListing (table (committed store.old)) index.new listing.new) }
{
    let end = find_end(store)?;
    if usize::from(end) <= FEW_ENTRIES {
        list_few(store, end, index, listing)
    } else {
        list_many(store, end, index, listing)
    }
}

/// Checks few entries. It isn't inlined, so that the rest of a power-on doesn't pay for the table on the stack.
#[inline(never)]
fn list_few<B: Board>(
    store: &mut Store<B>,
    end: u8,
    index: &mut Index,
    listing: &mut Listing,
) -> Result<bool, StoreErr>
    requires end { HasTableEnd store.old end }
    requires few { end ≤ FEW_ENTRIES }
    requires blank { IsBlankIndex index.old }
    requires unlisted { IsBlankListing listing.old }
    ensures { Learns store.old store.new result (TellsListing (table (committed store.old)) index.new listing.new) }
{
    let mut entries = FewEntries::new();
    list_entries(store, end, &mut entries, index, listing)
}

/// Checks more entries. It isn't part of `list_few`, which would otherwise clear a long table for few entries too.
#[inline(never)]
fn list_many<B: Board>(
    store: &mut Store<B>,
    end: u8,
    index: &mut Index,
    listing: &mut Listing,
) -> Result<bool, StoreErr>
    requires end { HasTableEnd store.old end }
    requires blank { IsBlankIndex index.old }
    requires unlisted { IsBlankListing listing.old }
    ensures { Learns store.old store.new result (TellsListing (table (committed store.old)) index.new listing.new) }
{
    let mut entries = Table::new();
    list_entries(store, end, &mut entries, index, listing)
}

/// Checks the entries before `end`, the last used one among them, by means of an empty table, which it fills.
fn list_entries<B: Board, const N: usize>(
    store: &mut Store<B>,
    end: u8,
    entries: &mut ArrayVec<Entry, N>,
    index: &mut Index,
    listing: &mut Listing,
) -> Result<bool, StoreErr>
    requires end { HasTableEnd store.old end }
    requires room { end ≤ N }
    requires empty { entries.old.items ≡ [] }
    requires blank { IsBlankIndex index.old }
    requires unlisted { IsBlankListing listing.old }
    ensures { Learns store.old store.new result (TellsListing (table (committed store.old)) index.new listing.new) }
{
    fill_table(store, end, entries)?;
    let all = entries.as_slice();
    if !index.fill(all) {
        return Ok(false);
    }
    if !is_table(all) {
        return Ok(false);
    }
    list_extents(all, &mut listing.extents);
    listing.free = ENTRIES - u16::from(end) + count_free(all);
    Ok(true)
}

/// Returns the free space of a memory with valid entries, by their extents and the number of free ones.
/// It returns `None` if the blocks aren't laid out properly.
fn find_free<B: Board>(
    store: &mut Store<B>,
    laid: &[Extent],
    entries: u16,
) -> Result<Option<FreeSpace>, StoreErr>
    requires { HasTable store.old laid.now entries }
    ensures tree { IfOk result (TellsSpace (committed store.old)) }
    ensures store { Reads store.old store.new (result_err result) }
{
    let Some(count) = read_block_count(store)? else {
        return Ok(None);
    };
    let Some(blocks) = lay(store, laid, count)? else {
        return Ok(None);
    };
    Ok(Some(FreeSpace { blocks, entries }))
}
