//! Renewals of a flash: an old word is nowhere, whatever a power loss or a fault left in a renewal before.

use crate::arrays::powered;
use flash_board::FlashBoard;
use flash_moves::format_flash;
use nvm_board::{Board, DeviceErr};
use simulated_chips::SimFlash;
use std::test::Fail;

/// The page of the word that is looked for, and pages around it.
const PAGE: u16 = 7;

const OTHERS: [u16; 4] = [0, 6, 8, 1023];

/// One operation of a renewal of these pages loses power or fails, or one behind it.
const OPERATIONS: u32 = 24;

/// Writes a word of each page, and the word that is looked for, in two records.
fn write_pages(board: &mut FlashBoard<SimFlash>, word: u32) -> Result<(), DeviceErr> {
    for page in OTHERS {
        if page < board.pages() {
            board.write(page, 2, &[word ^ 0xFFFF])?;
        }
    }
    board.write(PAGE, 3, &[word])?;
    board.write(PAGE, 4, &[word ^ 0xFF])
}

/// Renews the flash of a board, again behind each power loss or fault.
fn renewed(board: FlashBoard<SimFlash>) -> Result<FlashBoard<SimFlash>, Fail> {
    let mut board = board;
    for _ in 0..4 {
        match board.renew() {
            Ok(()) => return Ok(board),
            Err(DeviceErr::PowerLost) => board = powered(board.into_log().into_flash())?,
            Err(DeviceErr::Fault) => {}
        }
    }
    Err(Fail::from("no renewal ends"))
}

/// Returns a flash in which a word was written over.
fn written_over(flash: SimFlash, old: u32, new: u32) -> Result<SimFlash, Fail> {
    let mut flash = flash;
    flash.set(0, false);
    let mut board = powered(flash)?;
    write_pages(&mut board, old)?;
    write_pages(&mut board, new)?;
    Ok(board.into_log().into_flash())
}

/// Returns the flash behind its renewal, in which operation k loses power or fails. Then the new word is on the board.
fn renewed_with(flash: SimFlash, k: u32, fails: bool, new: u32) -> Result<SimFlash, Fail> {
    let mut flash = flash;
    flash.set(k, fails);
    let mut board = renewed(powered(flash)?)?;
    if board.read(16 * PAGE + 3) != Ok(new) {
        return Err(Fail::from("the word isn't there"));
    }
    Ok(board.into_log().into_flash())
}

#[test]
fn old_words_are_nowhere(rt: HostRuntime) -> Result<(), Fail> {
    let mut flash = SimFlash::new(rt.alloc(), 11)?;
    format_flash(&mut flash)?;
    for k in 1..=OPERATIONS {
        for fails in [false, true] {
            let old = 0xA5A5_0000 + 2 * k + u32::from(fails);
            let new = old ^ 0x0F0F_0000;
            flash = written_over(flash, old, new)?;
            assert!(rt; flash.has_word(old), "at operation {k}");
            flash = renewed_with(flash, k, fails, new)?;
            assert!(rt;
                !flash.has_word(old) && flash.has_word(new),
                "at operation {k}"
            );
        }
    }
    Ok(())
}
