//! The board of a card that a caller makes, of words or new.
ghost use Rattle.std.specs.Prelude.{◌≡◌, ◌≢◌, ◌↔◌, ℕ, List, IfOk, IfErr, IsTrue};
ghost use Rattle.nvm_board.specs.Facts.{IsMemory};
ghost use Rattle.card_boards.specs.FactoryBoards.{IsFactoryBoard};
ghost use Rattle.card_boards.specs.Images.{IsRefusedRightly};
ghost use Rattle.command_base.specs.Finding.{HasCard};
ghost use Rattle.simulated_boards.specs.Cut.{cut_facts};
ghost use Rattle.simulated_boards.specs.Given.{board_with};
ghost use Rattle.card_calls.specs.Telling.{ChecksWords, RefusesPages, RefusesWords, outcome_number};

use crate::outcome::CallOutcome;
use card_boards::{NoCard, factory_board_of, image_board};
use card_start::StartFault;
use nvm_board::{LEAST_PAGES, MOST_PAGES, PAGE_WORDS};
use simulated_boards::CutBoard;
use std::alloc::Global;

/// Returns a new board with these words, if they are a valid card image.
///
/// # Errors
/// `Size`, `Memory`, `NoCard`.
pub fn board_from_words(alloc: Global, words: &[u32]) -> Result<CutBoard, CallOutcome>
    ensures facts { IfOk result (λ board. cut_facts board ≡ board_with words.now) }
    ensures card { IfOk result (λ board. HasCard (cut_facts board).words) }
    ensures refused { IfErr result (λ why. RefusesWords words.now (outcome_number why)) }
    ensures undone { IfErr result (λ why. why ≢ CallOutcome.Done) }
{
    match card_of(alloc, words) {
        Ok(board) => Ok(board),
        Err(why) => Err(refusal(&why)),
    }
}

/// Returns a new board with these words, if they are a valid card image. It asks for memory only if a card's memory has
/// so many words.
///
/// # Errors
/// Why they are none.
fn card_of(alloc: Global, words: &[u32]) -> Result<CutBoard, NoCard>
    ensures facts { IfOk result (λ board. cut_facts board ≡ board_with words.now) }
    ensures card { IfOk result (λ board. HasCard (cut_facts board).words) }
    ensures refused { IfErr result (λ why. IsRefusedRightly why words.now) }
{
    if !has_memory_size(words) {
        return Err(NoCard::Size);
    }
    let mut own = Vec::new(alloc);
    if own.extend_from_slice(words).is_err() {
        return Err(NoCard::Memory);
    }
    image_board(alloc, own)
}

/// Returns true if a memory has so many words: 1,024 to 4,096 whole pages.
fn has_memory_size(words: &[u32]) -> bool
    ensures { IsTrue result ↔ IsMemory words.now }
{
    let pages = words.len() / usize::from(PAGE_WORDS);
    words.len() % usize::from(PAGE_WORDS) == 0
        && pages >= usize::from(LEAST_PAGES)
        && pages <= usize::from(MOST_PAGES)
}

/// Tells whether words are a valid card image, and the number of what is wrong with them.
pub fn check_words(alloc: Global, words: &[u32]) -> (CallOutcome, u32)
    ensures { ChecksWords words.now (outcome_number result.0) result.1 }
{
    match card_of(alloc, words) {
        Ok(_) => (CallOutcome::Done, 0),
        Err(why) => wrong(&why),
    }
}

/// Returns a new board of so many pages with the factory card.
///
/// # Errors
/// `Size`: no memory has so many pages. `Memory`.
pub fn factory_of(alloc: Global, pages: usize) -> Result<CutBoard, CallOutcome>
    ensures factory { IfOk result (λ board. IsFactoryBoard pages (cut_facts board)) }
    ensures card { IfOk result (λ board. HasCard (cut_facts board).words) }
    ensures refused { IfErr result (λ why. RefusesPages pages (outcome_number why)) }
    ensures undone { IfErr result (λ why. why ≢ CallOutcome.Done) }
{
    if pages < usize::from(LEAST_PAGES) || pages > usize::from(MOST_PAGES) {
        return Err(CallOutcome::Size);
    }
    match factory_board_of(alloc, pages as u16) {
        Ok(board) => Ok(board),
        Err(_) => Err(CallOutcome::Memory),
    }
}

/// Returns the outcome of words that are refused.
fn refusal(why: &NoCard) -> CallOutcome
    ensures rightly { (words : List ℕ) → IsRefusedRightly why.now words
        → RefusesWords words (outcome_number result) }
    ensures undone { result ≢ CallOutcome.Done }
{
    match why {
        NoCard::Memory => CallOutcome::Memory,
        NoCard::Size => CallOutcome::Size,
        NoCard::Start(_) => CallOutcome::NoCard,
    }
}

/// Returns the outcome of words that are refused, and the number of what is wrong.
fn wrong(why: &NoCard) -> (CallOutcome, u32)
    ensures { (words : List ℕ) → IsRefusedRightly why.now words
        → ChecksWords words (outcome_number result.0) result.1 }
{
    match why {
        NoCard::Memory => (CallOutcome::Memory, 0),
        NoCard::Size => (CallOutcome::Size, 0),
        NoCard::Start(StartFault::BadJournal) => (CallOutcome::NoCard, 1),
        // A new board loses no power, and has no fault.
        NoCard::Start(StartFault::Damaged | StartFault::PowerLost | StartFault::Fault) => (
            CallOutcome::NoCard,
            2,
        ),
    }
}
