//! Checks the card image at power-on, and migrates it to format 2 if needed.
ghost use Rattle.std.specs.Prelude.{◌≡◌, ◌⊎◌, ◌+◌, ◌≤◌, Ok, Err, IfOk, IsSome, MatchOption, MatchResult, if◌then◌else◌};
ghost use Rattle.file_tree.specs.Indexes.{IsBlankIndex};
ghost use Rattle.block_chain.specs.BlockWords.{word};
ghost use Rattle.block_chain.specs.declared.layout.TheConstants.{HEADER_PAGE};
ghost use Rattle.file_tree.specs.declared.layout.TheConstants.{MARK_WORD};
ghost use Rattle.std.specs.Result.{result_err};
ghost use Rattle.nvm_board.specs.Facts.{pages_of};
ghost use Rattle.undo_journal.specs.StoreCalls.{Changes, OnlyReads};
ghost use Rattle.undo_journal.specs.Memory.{committed, IsReady};
ghost use Rattle.file_tree.specs.Formats.{is_format_2};
ghost use Rattle.migration.specs.Migrating.{Migrates, migration_writes};
ghost use Rattle.command_base.specs.Standing.{IsOldCard};
ghost use Rattle.card_start.specs.CardSurveys.{TellsSurvey};
ghost use Rattle.card_start.specs.StartFaults.{fault_of_store};
ghost use Rattle.card_start.specs.declared.faults.StartFault.TheVariants as StartFault;

use crate::check::find_card;
use crate::faults::StartFault;
use crate::memory_format::MemoryFormat;
use file_tree::{FreeSpace, Index, OLD_END_PAGE};
use migration::migrate;
use undo_journal::{Board, Store, StoreErr};

/// Checks the card image, and migrates it to format 2 if needed. Returns the free space of the card, and fills an empty
/// index of its files, in place. Returns `None` if it is no valid card image. At every exit the card state is the same,
/// in the format of its header.
///
/// # Errors
/// The store fails.
pub fn survey_card<B: Board>(
    store: &mut Store<B>,
    index: &mut Index,
) -> Result<Option<FreeSpace>, StoreErr>
    requires ready { IsReady store.old }
    requires blank { IsBlankIndex index.old }
    ensures any_exit { (committed store.new ≡ committed store.old)
        ⊎ (IsOldCard (committed store.old) × Migrates (committed store.old) (committed store.new)) }
    ensures card { IfOk result (TellsSurvey (committed store.old) (committed store.new) index.new) }
    ensures last { (word (committed store.new) HEADER_PAGE MARK_WORD ≡ word (committed store.old) HEADER_PAGE MARK_WORD)
        ⊎ (store.old.facts.writes + (if is_format_2 (committed store.old) then 0
        else migration_writes (pages_of (committed store.old))) ≤ store.new.facts.writes + 1) }
    ensures counted { IfOk result (λ found. IsSome found → store.new.facts.writes ≡ store.old.facts.writes
        + (if is_format_2 (committed store.old) then 0 else migration_writes (pages_of (committed store.old)))) }
    ensures idle { ¬ IsOldCard (committed store.old) → OnlyReads store.old store.new }
    ensures store { Changes (if is_format_2 (committed store.old) then 0
        else migration_writes (pages_of (committed store.old))) store.old store.new (result_err result) }
{
    let Some(found) = find_card(store, index)? else {
        return Ok(None);
    };
    match found.format {
        MemoryFormat::Two => Ok(Some(found.free)),
        MemoryFormat::One => {
            migrate(store)?;
            let FreeSpace { blocks, entries } = found.free;
            // The free space grows by the gained blocks, one a page from page 1,024 on.
            Ok(Some(FreeSpace {
                blocks: blocks + (store.pages() - OLD_END_PAGE),
                entries,
            }))
        }
    }
}

/// Returns what a survey found of the card, or why power-on fails.
///
/// # Errors
/// `Damaged` if it found no valid card image; `PowerLost` and `Fault` as the store failed.
pub fn survey_of(found: Result<Option<FreeSpace>, StoreErr>) -> Result<FreeSpace, StartFault>
    ensures { MatchResult found
        (λ card. MatchOption card (result ≡ Err StartFault.Damaged) (λ free. result ≡ Ok free))
        (λ e. result ≡ Err (fault_of_store e)) }
{
    match found {
        Ok(Some(free)) => Ok(free),
        Ok(None) => Err(StartFault::Damaged),
        Err(StoreErr::PowerLost) => Err(StartFault::PowerLost),
        Err(StoreErr::Fault) => Err(StartFault::Fault),
    }
}
