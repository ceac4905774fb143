//! Worn sectors of a flash: spare ones take their place, whatever a power loss leaves of that.

use flash_board::FlashBoard;
use flash_device::FlashSocket;
use flash_log::FlashLog;
use flash_moves::format_flash;
use nvm_board::{Board, DeviceErr};
use simulated_chips::{LargeSpares, SimSpares};
use spare_sectors::SpareFlash;
use std::test::Fail;

/// A device with two sectors in each area.
type LargeDevice = SimSpares<LargeSpares>;

/// The pages that are written.
const PAGES: [u16; 4] = [0, 7, 8, 1023];

/// One operation of a renewal of these pages loses power, or one behind it.
const OPERATIONS: u32 = 32;

/// Returns the board of a device whose power comes back. All but the device is lost.
fn lit_again(device: LargeDevice) -> Result<FlashBoard<SpareFlash<LargeDevice>>, Fail> {
    let mut flash = SpareFlash::new(device);
    flash.light();
    match FlashLog::open(flash) {
        Ok(log) => Ok(FlashBoard::new(log)),
        Err(_) => Err(Fail::from("the flash has no log")),
    }
}

/// Returns the device of a board.
fn device_of(board: FlashBoard<SpareFlash<LargeDevice>>) -> LargeDevice {
    board.into_log().into_flash().into_device()
}

/// Returns a device with a board on it, of which each page has the word.
fn written_device(device: LargeDevice, word: u32) -> Result<LargeDevice, Fail> {
    let mut flash = SpareFlash::new(device);
    flash.light();
    format_flash(&mut flash)?;
    let mut board = lit_again(flash.into_device())?;
    for page in PAGES {
        if page < board.pages() {
            board.write(page, 2, &[word])?;
        }
    }
    Ok(device_of(board))
}

/// Returns true if each page has the word.
fn have_word(board: &mut FlashBoard<SpareFlash<LargeDevice>>, word: u32) -> bool {
    for page in PAGES {
        if page < board.pages() && board.read(16 * page + 2) != Ok(word) {
            return false;
        }
    }
    true
}

#[test]
fn spares_replace_worn_sectors(rt: HostRuntime) -> Result<(), Fail> {
    let mut device = written_device(SimSpares::new(rt.alloc(), LargeSpares, 5)?, 77)?;
    // The second time the first spare is worn.
    for sector in [3, 5] {
        device.wear(sector);
        let mut board = lit_again(device)?;
        for _ in 0..3 {
            board.renew()?;
        }
        assert!(rt; have_word(&mut board, 77), "sector {sector} is worn");
        device = device_of(board);
    }
    // Now no spare is left.
    device.wear(6);
    let mut board = lit_again(device)?;
    let mut failed = false;
    for _ in 0..3 {
        if board.renew() == Err(DeviceErr::Fault) {
            failed = true;
        }
    }
    assert!(rt; failed, "a worn sector is erased");
    assert!(rt; have_word(&mut board, 77), "no spare is left");
    Ok(())
}

#[test]
fn power_losses_leave_the_words(rt: HostRuntime) -> Result<(), Fail> {
    for k in 1..=OPERATIONS {
        for sector in [2, 4] {
            let mut device = written_device(
                SimSpares::new(rt.alloc(), LargeSpares, u64::from(k))?,
                k,
            )?;
            device.wear(sector);
            device.set(k);
            let mut board = lit_again(device)?;
            if board.renew().is_err() {
                board = lit_again(device_of(board))?;
                assert!(rt; have_word(&mut board, k), "before operation {k}");
                board.renew()?;
            }
            assert!(rt; have_word(&mut board, k), "behind operation {k}");
        }
    }
    Ok(())
}
