//! The factory card on a new board.
ghost use Rattle.std.specs.Prelude.{◌≡◌, ◌≤◌, ◌-◌, None, IfOk};
ghost use Rattle.nvm_board.specs.declared.board.TheConstants.{LEAST_PAGES, MOST_PAGES};
ghost use Rattle.nvm_board.specs.Facts.{pages_of};
ghost use Rattle.simulated_boards.specs.Cut.{cut_facts};
ghost use Rattle.card_start.specs.declared.memory_format.MemoryFormat.TheVariants as MemoryFormat;
ghost use Rattle.card_start.specs.Factory.{IsFactory, factory_card};
ghost use Rattle.command_base.specs.Finding.{Finds};
ghost use Rattle.bench_turns.specs.NewlyWritten.{IsJustWritten, IsNewlyWritten};

use card_start::format;
use nvm_board::LEAST_PAGES;
use simulated_boards::CutBoard;
use std::alloc::{AllocError, Global};

/// Returns a new board with the factory card.
/// It has 1,024 pages and format 2.
/// Only the writes of its making are counted, and no cut is pending.
///
/// # Errors
/// There is too little memory for the words.
pub fn factory_board(alloc: Global) -> Result<CutBoard, AllocError>
    ensures card { IfOk result (λ board. Finds (cut_facts board).words (factory_card 896)) }
    ensures counts { IfOk result (λ board. IsJustWritten (cut_facts board)) }
    ensures uncut { IfOk result (λ board. (cut_facts board).pending ≡ None) }
    ensures words { IfOk result (λ board. IsFactory MemoryFormat.Two (cut_facts board).words) }
    ensures pages { IfOk result (λ board. pages_of (cut_facts board).words ≡ LEAST_PAGES) }
{
    factory_board_of(alloc, LEAST_PAGES)
}

/// Returns a new board of these pages with the factory card.
/// It has format 2, and all pages but the first 128 are blocks.
/// Only the writes of its making are counted, and no cut is pending.
///
/// # Errors
/// There is too little memory for the words.
pub fn factory_board_of(alloc: Global, pages: u16) -> Result<CutBoard, AllocError>
    requires least { LEAST_PAGES ≤ pages }
    requires most { pages ≤ MOST_PAGES }
    ensures card { IfOk result (λ board. Finds (cut_facts board).words (factory_card (pages - 128))) }
    ensures counts { IfOk result (λ board. IsNewlyWritten pages (cut_facts board)) }
    ensures uncut { IfOk result (λ board. (cut_facts board).pending ≡ None) }
    ensures words { IfOk result (λ board. IsFactory MemoryFormat.Two (cut_facts board).words) }
    ensures pages { IfOk result (λ board. pages_of (cut_facts board).words ≡ pages) }
{
    // A new board has no pending cut, so it takes all writes.
    Ok(format(CutBoard::with_pages(alloc, pages)?).unwrap())
}
