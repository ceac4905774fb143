//! A board of a memory image.
ghost use Rattle.std.specs.Prelude.{◌≡◌, IfOk, IfErr, OnOk};
ghost use Rattle.undo_journal.specs.Spending.{WritesAtMost};
ghost use Rattle.simulated_boards.specs.Cut.{cut_facts};
ghost use Rattle.simulated_boards.specs.Given.{board_with};
ghost use Rattle.command_base.specs.Finding.{HasCard};
ghost use Rattle.card_start.specs.Running.{StartStopsBy};
ghost use Rattle.card_start.specs.Starting.{power_on_writes};
ghost use Rattle.card_boards.specs.Images.{IsRefusedRightly};

use card_start::{StartFault, survey_card, survey_of};
use file_tree::Index;
use simulated_boards::CutBoard;
use std::alloc::Global;
use undo_journal::Store;

/// Why an image is no card's.
#[derive(Debug, Drop)]
pub enum NoCard {
    /// There is too little memory.
    Memory,
    /// No board has this number of words. A board has 16 a page, and 1,024 to 4,096 pages.
    Size,
    /// Power-on fails: the journal is bad, or the recovered words break a rule.
    Start(StartFault),
}

/// Returns a new board with these words, if they are a valid card image.
/// A copy is recovered and checked for that, so the words stay.
///
/// # Errors
/// `Size` and `Memory`; `Start` with `BadJournal` or `Damaged` if the words are no valid card image.
pub fn image_board(alloc: Global, words: Vec<u32>) -> Result<CutBoard, NoCard>
    ensures board { IfOk result (λ board. cut_facts board ≡ board_with words.items) }
    ensures card { IfOk result (λ board. HasCard (cut_facts board).words) }
    ensures none { IfErr result (λ why. IsRefusedRightly why words.items) }
{
    let Some(board) = CutBoard::of_words(words) else {
        return Err(NoCard::Size);
    };
    let Ok(copy) = board.copy(alloc) else {
        return Err(NoCard::Memory);
    };
    match power_on(copy) {
        Ok(()) => Ok(board),
        Err((_, fault)) => Err(NoCard::Start(fault)),
    }
}

/// Recovers the memory of a board, and checks its card image, as power-on does.
///
/// # Errors
/// Why power-on fails, with the board.
fn power_on(board: CutBoard) -> Result<(), (CutBoard, StartFault)>
    ensures has_card { OnOk result (HasCard (cut_facts board).words) }
    ensures stopped { IfErr result (λ e. StartStopsBy e.1 (cut_facts board) (cut_facts e.0)) }
    ensures writes_err { IfErr result
        (λ e. WritesAtMost (power_on_writes (cut_facts board)) (cut_facts board) (cut_facts e.0)) }
{
    let mut store = match Store::open(board) {
        Ok(store) => store,
        Err((board, fault)) => return Err((board, StartFault::from(fault))),
    };
    let mut index = Index::new();
    match survey_of(survey_card(&mut store, &mut index)) {
        Ok(_) => Ok(()),
        Err(fault) => Err((store.into_board(), fault)),
    }
}
