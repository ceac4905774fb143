//! The board that is swept: with the factory card, or with the card in a file.
ghost use Rattle.std.specs.Prelude.{◌≡◌, ◌≢◌, None, IfErr, IfOk};
ghost use Rattle.nvm_board.specs.declared.board.TheConstants.{LEAST_PAGES};
ghost use Rattle.simulated_boards.specs.Cut.{cut_facts};
ghost use Rattle.simulated_boards.specs.Given.{board_with};
ghost use Rattle.command_base.specs.Finding.{HasCard};
ghost use Rattle.card_boards.specs.FactoryBoards.{IsFactoryBoard};

use crate::reading::board_in;
use card_boards::factory_board;
use simulated_boards::CutBoard;
use std::fs::{self, File, TryLockError};
use std::io;
use thiserror::Error;

/// Why there is no board to sweep.
#[derive(Debug, Drop, Error)]
pub enum BoardFault {
    #[error("the file can't be opened: {0}")]
    Open(io::Error),
    #[error("the file can't be read: {0}")]
    Read(io::Error),
    #[error("it is not a regular file")]
    NotAFile,
    #[error("the file is in use by another program")]
    InUse,
    #[error("the file can't be locked: {0}")]
    Lock(io::Error),
    #[error("the file has no card's memory: that is 64 bytes a page, and 1024 to 4096 pages")]
    Size,
    #[error("no card is found in the file: the words of its memory break a rule")]
    NoCard,
    #[error("there is too little memory")]
    Memory,
}

impl BoardFault {
    ghost use Rattle.card_files.specs.BoardStatuses.{board_status_of};

    /// Returns the exit status that reports it: 5 or 6.
    pub fn status(&self) -> u8
        ensures { result ≡ board_status_of self.now }
    {
        match self {
            BoardFault::Memory => 5,
            BoardFault::Open(_)
            | BoardFault::Read(_)
            | BoardFault::NotAFile
            | BoardFault::InUse
            | BoardFault::Lock(_)
            | BoardFault::Size
            | BoardFault::NoCard => 6,
        }
    }
}

/// Returns a board with the card in the file of this path, or with the factory card.
/// The file is only read. On a board with its words nothing is counted yet.
///
/// # Errors
/// The file is not taken as a card's, or there is too little memory.
pub fn swept_board(rt: &HostRuntime, path: Option<&str>) -> Result<CutBoard, BoardFault>
    ensures card { IfOk result (λ board. HasCard (cut_facts board).words) }
    ensures uncut { IfOk result (λ board. (cut_facts board).pending ≡ None) }
    ensures factory { IfOk result (λ board. path.entry ≡ None → IsFactoryBoard LEAST_PAGES (cut_facts board)) }
    ensures file { IfOk result (λ board. path.entry ≢ None
        → cut_facts board ≡ board_with (cut_facts board).words) }
    ensures none { IfErr result (λ fault. path.entry ≡ None → fault ≡ BoardFault.Memory) }
{
    match path {
        None => match factory_board(rt.alloc()) {
            Ok(factory) => Ok(factory),
            Err(_) => Err(BoardFault::Memory),
        },
        Some(path) => read_board(rt, path),
    }
}

/// Returns a board with the card in the file of this path.
fn read_board(rt: &HostRuntime, path: &str) -> Result<CutBoard, BoardFault>
    ensures card { IfOk result (λ board. HasCard (cut_facts board).words) }
    ensures uncut { IfOk result (λ board. (cut_facts board).pending ≡ None) }
    ensures file { IfOk result (λ board. cut_facts board ≡ board_with (cut_facts board).words) }
{
    // A FIFO would be opened once another program writes it.
    if matches!(fs::metadata(rt, path), Ok(it) if !it.is_file()) {
        return Err(BoardFault::NotAFile);
    }
    let mut file = match fs::open(rt, path) {
        Ok(file) => file,
        Err(error) => return Err(BoardFault::Open(error)),
    };
    // A bench locks the file of its card. A copy of a card that changes would be of two moments.
    match file.try_lock_shared() {
        Ok(()) => {}
        Err(TryLockError::WouldBlock) => return Err(BoardFault::InUse),
        Err(TryLockError::Error(error)) => return Err(BoardFault::Lock(error)),
    }
    board_in(rt.alloc(), &mut file)
}
