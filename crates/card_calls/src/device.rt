//! A board whose device writes the caller stores on a device, by a log of them.
ghost use Rattle.std.specs.Prelude.{◌≡◌, ◌↔◌, Bool, IfOk, IsTrue, None, is_some};
ghost use Rattle.simulated_boards.specs.Cut.{cut_facts};
ghost use Rattle.card_calls.specs.Devices.{AllStored, FitsTwin, TellsNext, begun_log, device_facts, log_room};
ghost use Rattle.card_calls.specs.Devices.{logs_none};
ghost use Rattle.card_calls.specs.declared.device.TheConstants.{TWIN_WRITES};

use crate::write_log::{LOG_WRITES, NextWrite, WriteLog};
use nvm_board::{LEAST_PAGES, PAGE_WORDS};
use simulated_boards::{CutBoard, Followed, KeptBoard};
use std::alloc::{AllocError, Global};

/// The writes that the log of a second board holds: one more than the one that it makes.
pub const TWIN_WRITES: usize = 2;

/// The board of a card. A log may follow it, for a device.
pub type DeviceBoard = KeptBoard<WriteLog>;

/// Returns a board that nothing follows.
pub fn unfollowed(cut: CutBoard) -> DeviceBoard
    ensures { device_facts result ≡ record (cut_facts cut) { log = None } }
{
    KeptBoard::new(cut, None)
}

/// Returns a board with an empty log for a device, which has the board's words already.
///
/// # Errors
/// There is too little memory for the log.
pub fn followed(alloc: Global, cut: CutBoard) -> Result<DeviceBoard, AllocError>
    ensures { IfOk result (λ board. device_facts board
        ≡ record (cut_facts cut) { log = begun_log Bool.true (cut_facts cut).words }) }
{
    let log = WriteLog::new(alloc, room_of(&cut))?;
    Ok(KeptBoard::new(cut, Some(log)))
}

/// Returns the writes that the log of a board has room for.
fn room_of(cut: &CutBoard) -> usize
    ensures { result ≡ log_room (cut_facts cut.now).words }
{
    let pages = cut.words().len() / usize::from(PAGE_WORDS);
    LOG_WRITES + pages.saturating_sub(usize::from(LEAST_PAGES))
}

/// Returns a second board in the same state, with an empty log.
///
/// # Errors
/// There is too little memory for the words or the log.
pub fn twin_board(alloc: Global, board: &DeviceBoard) -> Result<DeviceBoard, AllocError>
    ensures { IfOk result (λ twin. device_facts twin
        ≡ record (device_facts board.now) { log = logs_none TWIN_WRITES }) }
{
    let cut = board.unfollowed_twin(alloc)?;
    let log = WriteLog::new(alloc, TWIN_WRITES)?;
    Ok(KeptBoard::new(cut, Some(log)))
}

/// Returns a second board in the state of this board, with an empty log. It asks for no memory.
pub fn renewed(second: DeviceBoard, board: &DeviceBoard) -> DeviceBoard
    requires { FitsTwin (device_facts second) (device_facts board.now) }
    ensures { device_facts result ≡ record (device_facts board.now) { log = logs_none TWIN_WRITES } }
{
    let mut second = second;
    second.copy_from(board);
    let (cut, log) = second.into_parts();
    let mut log = log.unwrap();
    log.clear();
    KeptBoard::new(cut, Some(log))
}

/// Returns the first write of a board that its device lacks, if that has so many of all writes, modulo 2^64.
pub fn next_write(board: &DeviceBoard, stored: u64) -> NextWrite
    ensures { TellsNext (device_facts board.now).log stored result }
{
    if !board.follows() {
        return NextWrite::Nothing;
    }
    match board.follower() {
        Some(log) => log.next(stored),
        None => NextWrite::Nothing,
    }
}

/// Returns true if the device of a board that has so many of all writes, modulo 2^64, has them all.
pub fn is_stored(board: &DeviceBoard, stored: u64) -> bool
    ensures { IsTrue result ↔ AllStored (device_facts board.now).log stored }
{
    if !board.follows() {
        return true;
    }
    match board.follower() {
        Some(log) => log.is_stored(stored),
        None => true,
    }
}

/// Returns true if a board has a device.
pub fn has_device(board: &DeviceBoard) -> bool
    ensures { result ≡ is_some (device_facts board.now).log }
{
    board.follows() && board.follower().is_some()
}
