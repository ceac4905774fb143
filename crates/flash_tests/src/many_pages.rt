//! A board of 4,096 pages on a flash: each page is written in each round, in order, while power is lost.

use flash_board::FlashBoard;
use flash_device::FlashSocket;
use flash_log::FlashLog;
use flash_moves::format_flash;
use nvm_board::{Board, DeviceErr};
use simulated_chips::WideFlash;
use std::test::Fail;

/// The number of pages.
const ALL_PAGES: u16 = 4096;

/// The operations before the power loss of each round. A write has 2, and one that takes a step of a move up to 37.
const BEFORE: [u32; 10] = [
    0, 1, 8190, 8801, 9200, 9999, 12_345, 13_001, 100_000, 14_141,
];

/// Returns the words of a page in a round.
fn page_words(page: u16, round: u32) -> [u32; 16] {
    let mut words = [0; 16];
    for k in 0..16usize {
        words[k] = (u32::from(page) << 16) | ((round & 0xFF) << 8) | k as u32;
    }
    words
}

/// Returns the board of a flash whose power comes back.
fn lit_board(flash: WideFlash) -> Result<FlashBoard<WideFlash>, Fail> {
    let mut flash = flash;
    flash.light();
    match FlashLog::open(flash) {
        Ok(log) => Ok(FlashBoard::new(log)),
        Err(_) => Err(Fail::from("the flash has no log")),
    }
}

/// Writes a page, if the board has it.
fn write_page(board: &mut FlashBoard<WideFlash>, page: u16, round: u32) -> Result<(), DeviceErr> {
    if page >= board.pages() {
        return Err(DeviceErr::Fault);
    }
    board.write(page, 0, &page_words(page, round))
}

/// Returns a word, if the board has it.
fn word_at(board: &mut FlashBoard<WideFlash>, at: u16) -> Result<u32, DeviceErr> {
    if at / 16 >= board.pages() {
        return Err(DeviceErr::Fault);
    }
    board.read(at)
}

/// Returns true if a page has the words of a round.
fn is_of_round(
    board: &mut FlashBoard<WideFlash>,
    page: u16,
    round: u32,
) -> Result<bool, DeviceErr> {
    let words = page_words(page, round);
    for k in 0..16u16 {
        if word_at(board, (page & 0x0FFF) * 16 + k)? != words[usize::from(k)] {
            return Ok(false);
        }
    }
    Ok(true)
}

/// Checks that the pages before one are those of this round, and those behind it of the last.
fn check_pages(board: &mut FlashBoard<WideFlash>, at: u16, round: u32) -> Result<(), Fail> {
    for page in 0..ALL_PAGES {
        let wanted = if page < at {
            round
        } else {
            round.wrapping_sub(1)
        };
        if page != at && !is_of_round(board, page, wanted)? {
            return Err(Fail::from("a page is of another round"));
        }
    }
    Ok(())
}

/// Writes all pages, and once more the one at which power is lost, which is old or new then.
fn play_round(flash: WideFlash, round: u32) -> Result<WideFlash, Fail> {
    let mut board = lit_board(flash)?;
    for page in 0..ALL_PAGES {
        if write_page(&mut board, page, round) == Err(DeviceErr::PowerLost) {
            board = lit_board(board.into_log().into_flash())?;
            check_pages(&mut board, page, round)?;
            let is_old = is_of_round(&mut board, page, round.wrapping_sub(1))?;
            if !is_old && !is_of_round(&mut board, page, round)? {
                return Err(Fail::from("a page is neither old nor new"));
            }
            write_page(&mut board, page, round)?;
        }
    }
    check_pages(&mut board, ALL_PAGES, round)?;
    Ok(board.into_log().into_flash())
}

#[test]
fn a_board_of_4096_pages_keeps_them_all(rt: HostRuntime) -> Result<(), Fail> {
    let mut flash = WideFlash::new(rt.alloc(), 11)?;
    format_flash(&mut flash)?;
    flash = play_round(flash, 1)?;
    let mut losses = 0u32;
    for round in 0..BEFORE.len() {
        flash.set(BEFORE[round]);
        flash = play_round(flash, round as u32 + 2)?;
        if !flash.is_set() {
            losses = losses.saturating_add(1);
        }
    }
    // (each move erases at least one sector, and the formatting three)
    assert!(rt; losses >= 5 && flash.erases() > 10);
    Ok(())
}
