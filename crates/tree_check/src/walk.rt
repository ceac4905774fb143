//! The check of the layout: a walk over each chain, which marks its last block.
ghost use Rattle.std.specs.Prelude.{◌≡◌, ◌≢◌, ◌+◌, ◌*◌, ◌<◌, ◌≤◌, ◌↔◌, IfOk, IsTrue, IfSome, None, length};
ghost use Rattle.std.specs.Result.{result_err};
ghost use Rattle.undo_journal.specs.Memory.{committed};
ghost use Rattle.undo_journal.specs.StoreCalls.{Reads};
ghost use Rattle.block_chain.specs.Layout.{TellsFreeBlocks};
ghost use Rattle.block_chain.specs.declared.layout.TheConstants.{FIRST_BLOCK_PAGE, MOST_BLOCKS};
ghost use Rattle.tree_check.specs.WalkParts.{mark_of, EndsWithin, IsWalked, MarksEnd};
ghost use Rattle.tree_check.specs.SurveyParts.{HasPagesFor, HasPagesBefore};

use block_chain::{Extent, FIRST_BLOCK_PAGE, FREE_HEAD};
use undo_journal::{Board, PAGE_WORDS, Store, StoreErr};

/// The bytes of marks for the pages of the largest memory, a bit each.
const MARK_BYTES: usize = 512;

/// The length of a chain and its last block, or 0.
#[derive(Clone, Copy)]
pub(crate) struct Walked {
    pub blocks: u16,
    pub last: u16,
}

/// Returns true if a page is that of a block before the page `end`.
fn is_block_page(page: u32, end: u16) -> bool
    requires { FIRST_BLOCK_PAGE ≤ end }
    ensures { IsTrue result ↔ ((FIRST_BLOCK_PAGE ≤ page) × (page < end)) }
{
    // A page before the first block wraps around, so that one comparison tells both ends of the range.
    page.wrapping_sub(u32::from(FIRST_BLOCK_PAGE)) < u32::from(end - FIRST_BLOCK_PAGE)
}

/// Walks over the chain from a page on. It returns `None` if the chain doesn't end after at most `most` blocks, or
/// leads out of the blocks before the page `end`. So a cycle ends the walk.
#[inline(always)]
fn walk_over<B: Board>(
    store: &mut Store<B>,
    first: u32,
    end: u16,
    most: u16,
) -> Result<Option<Walked>, StoreErr>
    requires pages { HasPagesBefore store.old end }
    requires most { most ≤ MOST_BLOCKS }
    ensures walked { IfOk result (λ walked. IfSome walked (IsWalked end most (committed store.old) first)) }
    ensures stale { IfOk result (λ walked. walked ≡ None → ¬ EndsWithin end most (committed store.old) first) }
    ensures store { Reads store.old store.new (result_err result) }
{
    let mut page = first;
    let mut left = most;
    let mut last = 0;
    // Page 0 is no block, so a page that is no block may also be the end of the chain.
    while is_block_page(page, end) {
        if left == 0 {
            return Ok(None);
        }
        left -= 1;
        last = page as u16;
        page = store.read_committed(PAGE_WORDS * last)?;
    }
    if page != 0 {
        return Ok(None);
    }
    Ok(Some(Walked {
        blocks: most - left,
        last,
    }))
}

/// Marks the last block of a chain, if it has blocks. It returns false if that block is marked already.
fn mark_end(walked: Walked, ends: &mut [u8]) -> bool
    requires { walked.blocks ≢ 0 → walked.last < 8 * length ends.old }
    ensures fresh { IsTrue result ↔ (walked.blocks ≢ 0 → mark_of ends.old walked.last ≡ 0) }
    ensures marks { IsTrue result → MarksEnd walked ends.old ends.new }
    ensures size { length ends.new ≡ length ends.old }
{
    if walked.blocks == 0 {
        return true;
    }
    let place = usize::from(walked.last / 8);
    let bit = walked.last % 8;
    if ends[place] >> bit & 1 != 0 {
        return false;
    }
    ends[place] |= 1 << bit;
    true
}

/// Checks the layout of the blocks at power-on. The free chain and the extents must contain each of `count` blocks
/// exactly once, and each extent must be as it says. It returns the number of free blocks, or `None` for another
/// layout.
///
/// Chains with a common block have the same last block, so the walk marks last blocks alone. No clause counts device
/// reads; the code makes at most as many as blocks and one, whatever the words are.
///
/// # Errors
/// The store's failure: power was lost, or the device failed.
pub fn lay<B: Board>(
    store: &mut Store<B>,
    extents: &[Extent],
    count: u16,
) -> Result<Option<u16>, StoreErr>
    requires { HasPagesFor store.old count }
    ensures found { IfOk result (λ free. TellsFreeBlocks count (committed store.old) extents.now free) }
    ensures store { Reads store.old store.new (result_err result) }
{
    let end = FIRST_BLOCK_PAGE + count;
    let mut ends = [0; MARK_BYTES];
    let head = store.read(FREE_HEAD)?;
    let free = match walk_over(store, head, end, count)? {
        Some(walked) => walked,
        None => return Ok(None),
    };
    mark_end(free, &mut ends);
    let mut blocks = free.blocks;
    for (_i, extent) in extents.iter().enumerate() {
        let walked = match walk_over(store, u32::from(extent.chain.first), end, count - blocks)? {
            Some(walked) => walked,
            None => return Ok(None),
        };
        if !is_extent(walked, extent) || !mark_end(walked, &mut ends) {
            return Ok(None);
        }
        blocks += walked.blocks;
    }
    if blocks != count {
        return Ok(None);
    }
    Ok(Some(free.blocks))
}

/// Returns true if a walked chain is as the extent says.
fn is_extent(walked: Walked, extent: &Extent) -> bool
    ensures { IsTrue result ↔ ((walked.blocks ≡ extent.now.blocks) × (walked.last ≡ extent.now.chain.last)) }
{
    walked.blocks == extent.blocks && walked.last == extent.chain.last
}
