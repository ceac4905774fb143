//! Boards with the card in a reader's bytes.
ghost use Rattle.std.specs.Prelude.{◌≡◌, ◌↔◌, ◌/◌, IfErr, IfOk, IsTrue, OnOk};
ghost use Rattle.card_files.specs.ImageParts.{AreAllWordsIn, AreWordsIn, IsImageSize};
ghost use Rattle.card_files.specs.FileRefusals.{AreAskedPages, HasPagesOf, IsReadFault, IsSizeFault};
ghost use Rattle.card_files.specs.SweptParts.{IsSweptFault};
ghost use Rattle.card_files.specs.declared.image_words.TheConstants.{PAGE_BYTES};
ghost use Rattle.command_base.specs.Finding.{HasCard};
ghost use Rattle.simulated_boards.specs.Cut.{cut_facts};
ghost use Rattle.simulated_boards.specs.Given.{board_with};

use crate::image_words::{PAGE_BYTES, WordsFault, words_in};
use crate::opening::CardFault;
use crate::options::CardOptions;
use crate::swept_file::BoardFault;
use card_boards::{NoCard, image_board};
use nvm_board::{Board, LEAST_PAGES, MOST_PAGES};
use simulated_boards::CutBoard;
use std::alloc::Global;
use std::io::Read;

/// The most bytes of a memory.
const MOST_BYTES: usize = PAGE_BYTES * MOST_PAGES as usize;

/// Returns a new board with the card in a reader's next bytes, `size` of them.
pub fn card_in<R: Read>(
    alloc: Global,
    reader: &mut R,
    size: u64,
    options: &CardOptions,
) -> Result<CutBoard, CardFault>
    ensures card { IfOk result (λ board. HasCard (cut_facts board).words) }
    ensures board { IfOk result (λ board. cut_facts board ≡ board_with (cut_facts board).words) }
    ensures words { IfOk result (λ board. AreWordsIn (R.remaining reader.old) size (cut_facts board).words) }
    ensures pages { IfOk result (λ board. HasPagesOf options.now (cut_facts board).words) }
    ensures refused { IfErr result (IsReadFault options.now size (R.remaining reader.old)) }
{
    check_size(size, options)?;
    let words = match words_in(alloc, reader, size) {
        Ok(words) => words,
        Err(WordsFault::Read(error)) => return Err(CardFault::Read(error)),
        Err(WordsFault::Parts) => return Err(CardFault::Size(size)),
        Err(WordsFault::Memory) => return Err(CardFault::Memory),
    };
    let board = match image_board(alloc, words) {
        Ok(board) => board,
        Err(NoCard::Memory) => return Err(CardFault::Memory),
        Err(NoCard::Size) => return Err(CardFault::Size(size)),
        Err(NoCard::Start(_)) => return Err(CardFault::NoCard),
    };
    if !has_pages(&board, options) {
        return Err(CardFault::Size(size));
    }
    Ok(board)
}

/// Returns true unless the options give another number of pages than the board has.
fn has_pages(board: &CutBoard, options: &CardOptions) -> bool
    ensures { IsTrue result ↔ HasPagesOf options.now (cut_facts board.now).words }
{
    match &options.pages {
        Some(wanted) => board.pages() == wanted.number(),
        None => true,
    }
}

/// Refuses a size that no memory has, or that differs from the options.
pub fn check_size(size: u64, options: &CardOptions) -> Result<(), CardFault>
    ensures fits { OnOk result (IsImageSize size × AreAskedPages options.now (size / PAGE_BYTES)) }
    ensures refused { IfErr result (IsSizeFault options.now size) }
{
    let pages = size / PAGE_BYTES as u64;
    if size % PAGE_BYTES as u64 != 0
        || pages < u64::from(LEAST_PAGES)
        || u64::from(MOST_PAGES) < pages
    {
        return Err(CardFault::Size(size));
    }
    match &options.pages {
        Some(wanted) if u64::from(wanted.number()) != pages => Err(CardFault::OtherPages(pages)),
        _ => Ok(()),
    }
}

/// Returns a board with the card in a reader's bytes.
pub fn board_in<R: Read>(alloc: Global, reader: &mut R) -> Result<CutBoard, BoardFault>
    ensures card { IfOk result (λ board. HasCard (cut_facts board).words) }
    ensures board { IfOk result (λ board. cut_facts board ≡ board_with (cut_facts board).words) }
    ensures words { IfOk result (λ board. AreAllWordsIn (R.remaining reader.old) (cut_facts board).words) }
    ensures refused { IfErr result (IsSweptFault (R.remaining reader.old)) }
{
    // One byte more shows that the file is too long.
    let words = match words_in(alloc, reader, MOST_BYTES as u64 + 1) {
        Ok(words) => words,
        Err(WordsFault::Read(error)) => return Err(BoardFault::Read(error)),
        Err(WordsFault::Parts) => return Err(BoardFault::Size),
        Err(WordsFault::Memory) => return Err(BoardFault::Memory),
    };
    match image_board(alloc, words) {
        Ok(board) => Ok(board),
        Err(NoCard::Memory) => Err(BoardFault::Memory),
        Err(NoCard::Size) => Err(BoardFault::Size),
        Err(NoCard::Start(_)) => Err(BoardFault::NoCard),
    }
}
