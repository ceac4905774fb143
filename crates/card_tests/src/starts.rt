//! Power-ons in which each device call fails in turn.

use crate::fixtures::{formatted, formatted_old};
use card_core::Card;
use card_start::StartFault;
use nvm_board::{Armed, Board};
use simulated_boards::FaultBoard;
use std::alloc::Global;
use std::test::Fail;

/// Returns the number of device calls in a power-on.
/// Each of them fails in turn.
/// Power-on then fails, and the next one begins in the same state.
fn failed_starts(board: FaultBoard) -> Option<u32> {
    let mut board = board;
    for call in 1..=3_000 {
        board.arm_call(call);
        match Card::start(board) {
            Ok(_) => return Some(call - 1),
            Err((again, StartFault::Fault)) => board = again,
            Err(_) => return None,
        }
    }
    None
}

#[test]
fn a_failed_call_stops_a_start(rt: HostRuntime) -> Result<(), Fail> {
    let board = formatted(FaultBoard::on_calls(rt.alloc())?)?;
    // Power-on reads the gate, four words of the header (two of them twice), and the first word of each entry from 63
    // down to that of the last file, entry 1. Then it reads the first word and eleven words of each of the two files,
    // three of each PIN, and the link of each block.
    assert!(rt; failed_starts(board) == Some(1 + 6 + 63 + 12 * 2 + 3 * 8 + 896));
    Ok(())
}

/// The result of a power-on in which a call fails, if it makes so many.
#[derive(Drop)]
enum Outcome {
    /// It makes fewer calls, and migrates the card.
    Whole,
    /// It stops by a fault. The next power-on migrates the card.
    Again,
    Other,
}

/// Returns true for the free space of the factory card.
fn has_space(card: &Card<FaultBoard>) -> bool {
    let free = card.free();
    free.blocks == 895 && free.entries == 62
}

/// Returns the result of a power-on after a fault. The factory card is then in format 2.
fn outcome_again(card: Card<FaultBoard>) -> Outcome {
    let has_space = has_space(&card);
    let mut board = card.into_board();
    if has_space && board.read(0) == Ok(0x5453_4332) && board.read(1158) == Ok(1) {
        Outcome::Again
    } else {
        Outcome::Other
    }
}

/// Powers a card on, and after a fault once more.
fn started(board: FaultBoard) -> Outcome {
    match Card::start(board) {
        Ok(card) if has_space(&card) => Outcome::Whole,
        Err((board, StartFault::Fault)) => match Card::start(board) {
            Ok(card) => outcome_again(card),
            Err(_) => Outcome::Other,
        },
        _ => Outcome::Other,
    }
}

/// Returns the number of calls, or writes, of the migration.
/// Each of them fails in turn.
fn failed_migrations(alloc: Global, board: &FaultBoard, mask: u16) -> Result<Option<u32>, Fail> {
    for call in 1..=6_000 {
        let mut copy = board.copy(alloc)?;
        copy.arm(call, mask);
        match started(copy) {
            Outcome::Again => {}
            Outcome::Whole => return Ok(Some(call - 1)),
            Outcome::Other => return Ok(None),
        }
    }
    Ok(None)
}

#[test]
fn a_failed_call_stops_a_migration(rt: HostRuntime) -> Result<(), Fail> {
    let board = formatted_old(FaultBoard::on_calls(rt.alloc())?)?;
    let calls = failed_migrations(rt.alloc(), &board, 0)?;
    assert!(rt; calls == Some(1_031), "calls {calls:?}");
    Ok(())
}

#[test]
fn a_failed_write_stops_a_migration(rt: HostRuntime) -> Result<(), Fail> {
    let board = formatted_old(FaultBoard::on_writes(rt.alloc())?)?;
    for mask in [0x0000, 0x0001, 0xFFFF, 0x0002, 0x8000, 0x5555] {
        let writes = failed_migrations(rt.alloc(), &board, mask)?;
        assert!(rt; writes == Some(15), "writes {writes:?} by {mask}");
    }
    Ok(())
}
