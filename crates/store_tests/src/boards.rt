//! Boards: a mask tears the armed write, an armed cut survives a power-off, and secrets are compared.

use nvm_board::{Armed, Board, DeviceErr, Socket};
use simulated_boards::{CutBoard, FaultBoard, RamBoard};
use std::alloc::Global;
use std::test::Fail;

/// Returns true for words 2, 3 and 4 of page 3.
fn holds(board: &mut CutBoard, [second, third, fourth]: [u32; 3]) -> bool {
    board.read(50) == Ok(second) && board.read(51) == Ok(third) && board.read(52) == Ok(fourth)
}

// Masks, and words 4, 5, 6 torn by a write of 7, 8, 9.
const MASKS: &[(u16, [u32; 3])] = &[
    (0x0000, [4, 5, 6]),
    (0x0007, [7, 8, 9]),
    (0x0005, [7, 5, 9]),
    (0xFFFA, [4, 8, 6]),
];

/// Returns true if a board needs power, and then works.
/// It then has these words.
fn comes_back(board: &mut CutBoard, want: [u32; 3]) -> bool {
    board.read(50) == Err(DeviceErr::PowerLost)
        && board.write(3, 2, &[1]) == Err(DeviceErr::PowerLost)
        && board.compare(0, &[1; 8], &[1; 8]) == Err(DeviceErr::PowerLost)
        && board.light().is_ok()
        && holds(board, want)
        && board.write(3, 2, &[1, 2, 3]) == Ok(())
        && holds(board, [1, 2, 3])
}

/// Returns a board with its third write torn with this mask.
fn torn_by(alloc: Global, mask: u16) -> Result<CutBoard, Fail> {
    let mut board = CutBoard::new(alloc)?;
    // The second arm replaces the first.
    board.arm(1, 0x0000);
    board.arm(3, mask);
    let are_written = board.write(3, 2, &[1, 2, 3]).is_ok()
        && board.write(3, 2, &[4, 5, 6]).is_ok();
    if are_written && board.write(3, 2, &[7, 8, 9]) == Err(DeviceErr::PowerLost) {
        Ok(board)
    } else {
        Err(Fail::from("no cut"))
    }
}

#[test]
fn tears_the_armed_write_by_its_mask(rt: HostRuntime) -> Result<(), Fail> {
    for &(mask, want) in MASKS {
        let mut board = torn_by(rt.alloc(), mask)?;
        assert!(rt; comes_back(&mut board, want), "by the mask {mask}");
    }
    Ok(())
}

/// Returns a board without power, with a cut armed.
/// Its last word is written.
fn armed_without_power(alloc: Global) -> Result<CutBoard, Fail> {
    let mut board = CutBoard::new(alloc)?;
    board.write(1023, 15, &[0xFFFF_FFFF])?;
    board.arm(1, 0x0001);
    board.power_off();
    Ok(board)
}

/// Returns true if a cut stays armed over a power-off.
/// The last word is intact, and the first of two words is then written.
fn keeps_its_arm(board: &mut CutBoard) -> bool {
    board.read(0) == Err(DeviceErr::PowerLost)
        && board.light().is_ok()
        && board.read(16_383) == Ok(0xFFFF_FFFF)
        && board.write(0, 0, &[5, 6]) == Err(DeviceErr::PowerLost)
        && board.light().is_ok()
        && board.read(0) == Ok(5)
        && board.read(1) == Ok(0)
}

#[test]
fn keeps_an_arm_and_its_words_over_power_off(rt: HostRuntime) -> Result<(), Fail> {
    let mut board = armed_without_power(rt.alloc())?;
    assert!(rt; keeps_its_arm(&mut board));
    Ok(())
}

const SECRET: [u8; 8] = [1, 2, 3, 4, 5, 6, 7, 8];

/// Returns true if all bytes of a secret are compared.
/// The first and the last byte show it.
fn compares_all(board: &mut RamBoard) -> bool {
    board.compare(15, &SECRET, &SECRET) == Ok(true)
        && board.compare(15, &SECRET, &[1, 2, 3, 4, 5, 6, 7, 9]) == Ok(false)
        && board.compare(0, &SECRET, &[0, 2, 3, 4, 5, 6, 7, 8]) == Ok(false)
}

/// Returns true if only a written page has words other than 0.
fn is_written(board: &mut RamBoard) -> bool {
    board.read(0) == Ok(0) && board.write(7, 0, &[1; 16]) == Ok(()) && board.read(127) == Ok(1)
}

/// Returns true if a board compares only with power.
fn needs_power(board: &mut RamBoard) -> bool {
    board.power_off();
    board.compare(15, &[0; 8], &[0; 8]) == Err(DeviceErr::PowerLost)
        && board.light().is_ok()
        && board.compare(0, &[0; 8], &[0; 8]) == Ok(true)
}

#[test]
fn compares_secrets(rt: HostRuntime) -> Result<(), Fail> {
    let mut board = RamBoard::new(rt.alloc())?;
    assert!(rt; is_written(&mut board) && compares_all(&mut board) && needs_power(&mut board));
    Ok(())
}

/// Returns true if this is the last word of a board, and is written.
fn ends_at(mut board: CutBoard, last: u16) -> bool {
    let page = last / 16;
    board.pages() == page + 1 && board.write(page, 15, &[7]) == Ok(()) && board.read(last) == Ok(7)
}

// The pages of a board, and its last word.
const ENDS: &[(u16, u16)] = &[(1024, 16_383), (1030, 16_479), (4096, 65_535)];

#[test]
fn has_as_many_pages_as_it_is_made_with(rt: HostRuntime) -> Result<(), Fail> {
    for &(pages, last) in ENDS {
        let board = CutBoard::with_pages(rt.alloc(), pages.clamp(1024, 4096))?;
        assert!(rt; ends_at(board, last), "{pages}");
    }
    Ok(())
}

#[test]
fn has_1024_pages_unless_said(rt: HostRuntime) -> Result<(), Fail> {
    assert!(rt; ends_at(CutBoard::new(rt.alloc())?, 16_383));
    assert!(rt; FaultBoard::on_calls(rt.alloc())?.pages() == 1024);
    Ok(())
}
