//! Checks whether a memory is a valid card image, and in which format.
ghost use Rattle.std.specs.Prelude.{◌≡◌, ◌<◌, ◌≤◌, ◌↔◌, IsTrue, MatchOption};
ghost use Rattle.undo_journal.specs.StoreCalls.{Learns};
ghost use Rattle.undo_journal.specs.Memory.{committed, IsReady};
ghost use Rattle.file_tree.specs.Indexes.{IsBlankIndex};
ghost use Rattle.block_chain.specs.BlockWords.{word};
ghost use Rattle.block_chain.specs.declared.layout.TheConstants.{HEADER_PAGE};
ghost use Rattle.nvm_board.specs.declared.board.TheConstants.{PAGE_WORDS};
ghost use Rattle.card_start.specs.StartParts.{HoldsPins, TellsCard, TellsFormat, TellsHeader};

use crate::memory_format::MemoryFormat;
use block_chain::HEADER_PAGE;
use file_tree::{
    CARD_TERMINATED, FreeSpace, Index, MARK, MARK_WORD, OLD_END_PAGE, OLD_MARK, PAGES_WORD,
    STATE_WORD,
};
use pin_store::{are_marks, are_pins};
use tree_check::survey_tree;
use undo_journal::{Board, PAGE_WORDS, Store, StoreErr};

/// The result of a check: format and free space.
#[derive(Drop)]
pub(crate) struct Checked {
    pub format: MemoryFormat,
    pub free: FreeSpace,
}

/// Returns a word of the header.
///
/// # Errors
/// The store fails.
pub fn header_word<B: Board>(store: &mut Store<B>, place: u16) -> Result<u32, StoreErr>
    requires ready { IsReady store.old }
    requires place { place < PAGE_WORDS }
    ensures { Learns store.old store.new result (λ w. w ≡ word (committed store.old) HEADER_PAGE place) }
{
    store.read(PAGE_WORDS * HEADER_PAGE + place)
}

/// The words of a header that tell the format of its memory.
#[derive(Clone, Copy)]
pub(crate) struct HeaderWords {
    /// The mark of the format.
    pub mark: u32,
    /// The page where the blocks end.
    pub end: u32,
    /// The state of the card.
    pub state: u32,
}

impl HeaderWords {
    /// Returns the format that the mark names, if the header is valid.
    fn format(self) -> Option<MemoryFormat>
        ensures { TellsFormat self result }
    {
        if self.state > CARD_TERMINATED {
            None
        } else if self.mark == OLD_MARK {
            Some(MemoryFormat::One)
        } else if self.mark == MARK && self.end >= u32::from(OLD_END_PAGE) {
            Some(MemoryFormat::Two)
        } else {
            None
        }
    }
}

/// Returns the format of the header, if it is valid.
#[tactic(auto, using(undo_journal::specs::laws::Calls::reads_then))]
fn find_format<B: Board>(store: &mut Store<B>) -> Result<Option<MemoryFormat>, StoreErr>
    requires ready { IsReady store.old }
    ensures { Learns store.old store.new result (TellsHeader (committed store.old)) }
{
    let mark = header_word(store, MARK_WORD)?;
    let end = header_word(store, PAGES_WORD)?;
    let state = header_word(store, STATE_WORD)?;
    let header = HeaderWords { mark, end, state };
    Ok(header.format())
}

/// Returns true if the PINs are valid for this format.
#[tactic(auto, using(undo_journal::specs::laws::Calls::reads_then))]
fn has_pins<B: Board>(store: &mut Store<B>, format: MemoryFormat) -> Result<bool, StoreErr>
    requires ready { IsReady store.old }
    ensures { Learns store.old store.new result (λ pins. IsTrue pins ↔ HoldsPins format (committed store.old)) }
{
    if !are_pins(store)? {
        return Ok(false);
    }
    match format {
        MemoryFormat::One => Ok(true),
        MemoryFormat::Two => are_marks(store),
    }
}

/// Checks header, PINs, files and blocks of a memory, and fills an empty index of its files.
/// Returns `None` if it is no valid card image.
#[tactic(auto, using(undo_journal::specs::laws::Calls::reads_then))]
pub(crate) fn find_card<B: Board>(
    store: &mut Store<B>,
    index: &mut Index,
) -> Result<Option<Checked>, StoreErr>
    requires ready { IsReady store.old }
    requires blank { IsBlankIndex index.old }
    ensures { Learns store.old store.new result (TellsCard (committed store.old) index.new) }
{
    let Some(format) = find_format(store)? else {
        return Ok(None);
    };
    if !has_pins(store, format)? {
        return Ok(None);
    }
    let Some(free) = survey_tree(store, index)? else {
        return Ok(None);
    };
    Ok(Some(Checked { format, free }))
}
