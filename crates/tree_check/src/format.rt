//! The format of a memory, as its header says.

ghost use Rattle.std.specs.Prelude.{◌≡◌, ◌+◌, ◌-◌, ◌<◌, ◌≤◌, IfOk, MatchOption};
ghost use Rattle.std.specs.Result.{result_err};
ghost use Rattle.nvm_board.specs.Facts.{pages_of};
ghost use Rattle.undo_journal.specs.Memory.{committed, IsReady};
ghost use Rattle.undo_journal.specs.StoreCalls.{Reads};
ghost use Rattle.block_chain.specs.declared.layout.TheConstants.{FIRST_BLOCK_PAGE};
ghost use Rattle.file_tree.specs.Formats.{end_page, block_count};

use block_chain::{FIRST_BLOCK_PAGE, HEADER_PAGE};
use file_tree::{MARK, MARK_WORD, OLD_END_PAGE, PAGES_WORD};
use undo_journal::{Board, PAGE_WORDS, Store, StoreErr};

/// Returns the page where the blocks end. The header of format 2 names it; format 1 has a fixed one.
fn read_end_page<B: Board>(store: &mut Store<B>) -> Result<u32, StoreErr>
    requires ready { IsReady store.old }
    ensures end { IfOk result (λ end. end ≡ end_page (committed store.old)) }
    ensures store { Reads store.old store.new (result_err result) }
{
    let mark = store.read(PAGE_WORDS * HEADER_PAGE + MARK_WORD)?;
    if mark == MARK {
        store.read(PAGE_WORDS * HEADER_PAGE + PAGES_WORD)
    } else {
        Ok(u32::from(OLD_END_PAGE))
    }
}

/// Returns the number of blocks before page `end`. It returns `None` if that page is outside the memory.
fn count_before(end: u32, pages: u16) -> Option<u16>
    requires { FIRST_BLOCK_PAGE ≤ pages }
    ensures { MatchOption result (pages < end) (λ n. (n ≡ end - FIRST_BLOCK_PAGE) × (FIRST_BLOCK_PAGE + n ≤ pages)) }
{
    if end > u32::from(pages) {
        return None;
    }
    Some((end as u16).saturating_sub(FIRST_BLOCK_PAGE))
}

/// Returns the number of blocks. It returns `None` if not all of them lie in the memory.
pub(crate) fn read_block_count<B: Board>(store: &mut Store<B>) -> Result<Option<u16>, StoreErr>
    requires ready { IsReady store.old }
    ensures count { IfOk result (λ count. MatchOption count
        (pages_of (committed store.old) < end_page (committed store.old))
        (λ n. (n ≡ block_count (committed store.old)) × (FIRST_BLOCK_PAGE + n ≤ pages_of (committed store.old)))) }
    ensures store { Reads store.old store.new (result_err result) }
{
    let end = read_end_page(store)?;
    Ok(count_before(end, store.pages()))
}
