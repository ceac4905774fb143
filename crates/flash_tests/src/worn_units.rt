//! Worn sectors of a flash with program units: spare ones take their place, and no unit is programmed twice.
ghost use Rattle.std.specs.Prelude.{◌<◌};

use flash_board::FlashBoard;
use flash_device::FlashSocket;
use flash_log::FlashLog;
use flash_moves::format_flash;
use nvm_board::{Board, DeviceErr};
use program_units::UnitFlash;
use simulated_chips::{Eight, Four, One, SimSpareUnits, UnitSize};
use spare_units::SpareUnits;
use std::alloc::Global;
use std::test::Fail;

/// The pages that are written.
const PAGES: [u16; 4] = [0, 7, 8, 1023];

/// One operation of a renewal of these pages loses power, or one behind it.
const OPERATIONS: u32 = 32;

/// The flash of a device with program units and spare sectors.
type WornFlash<S> = UnitFlash<SpareUnits<SimSpareUnits<S>>>;

/// Returns the flash of a new device, which leaves garbage by this seed.
fn new_flash<S: UnitSize + Drop>(alloc: Global, size: S, seed: u64) -> Result<WornFlash<S>, Fail> {
    let device = SimSpareUnits::new(alloc, size, seed)?;
    Ok(UnitFlash::new(SpareUnits::new(device)))
}

/// Wears a sector out, and sets operation k from now on to lose power, if it is not 0. All but the device is lost.
fn worn<S: UnitSize + Drop>(flash: WornFlash<S>, sector: u16, k: u32) -> WornFlash<S>
    requires { sector < 7 }
{
    let mut device = flash.into_device().into_device();
    device.wear(sector);
    device.set(k);
    UnitFlash::new(SpareUnits::new(device))
}

/// Returns the board of a flash whose power comes back.
fn lit_again<S: UnitSize + Drop>(flash: WornFlash<S>) -> Result<FlashBoard<WornFlash<S>>, Fail> {
    let mut flash = flash;
    flash.light();
    match FlashLog::open(flash) {
        Ok(log) => Ok(FlashBoard::new(log)),
        Err(_) => Err(Fail::from("the flash has no log")),
    }
}

/// Returns a flash with a board on it, of which each page has the word.
fn written_flash<S: UnitSize + Drop>(
    alloc: Global,
    size: S,
    word: u32,
) -> Result<WornFlash<S>, Fail> {
    let mut flash = new_flash(alloc, size, u64::from(word))?;
    flash.light();
    format_flash(&mut flash)?;
    let mut board = lit_again(flash)?;
    for page in PAGES {
        if page < board.pages() {
            board.write(page, 2, &[word])?;
        }
    }
    Ok(board.into_log().into_flash())
}

/// Returns true if each page has the word.
fn have_word<S: UnitSize + Drop>(board: &mut FlashBoard<WornFlash<S>>, word: u32) -> bool {
    for page in PAGES {
        if page < board.pages() && board.read(16 * page + 2) != Ok(word) {
            return false;
        }
    }
    true
}

/// Returns true if no unit was programmed twice.
fn are_fresh<S: UnitSize + Drop>(flash: WornFlash<S>) -> bool {
    flash.into_device().into_device().refused() == 0
}

/// Wears out two sectors and a spare, and then one more.
fn wear_out<S: UnitSize + Drop>(alloc: Global, size: S) -> Result<(), Fail> {
    let mut flash = written_flash(alloc, size, 77)?;
    // The second time the first spare is worn.
    for sector in [3, 5] {
        let mut board = lit_again(worn(flash, sector, 0))?;
        for _ in 0..3 {
            board.renew()?;
        }
        if !have_word(&mut board, 77) {
            return Err(Fail::from("a word is lost with a worn sector"));
        }
        flash = board.into_log().into_flash();
    }
    // Now no spare is left.
    let mut board = lit_again(worn(flash, 6, 0))?;
    let mut failed = false;
    for _ in 0..3 {
        if board.renew() == Err(DeviceErr::Fault) {
            failed = true;
        }
    }
    if !failed || !have_word(&mut board, 77) {
        return Err(Fail::from("a worn sector is erased, or a word is lost"));
    }
    if !are_fresh(board.into_log().into_flash()) {
        return Err(Fail::from("a unit was programmed twice"));
    }
    Ok(())
}

#[test]
fn spares_replace_worn_sectors_with_units(rt: HostRuntime) -> Result<(), Fail> {
    wear_out(rt.alloc(), One)?;
    wear_out(rt.alloc(), Four)?;
    wear_out(rt.alloc(), Eight)
}

#[test]
fn power_losses_leave_the_words_in_units(rt: HostRuntime) -> Result<(), Fail> {
    for k in 1..=OPERATIONS {
        for sector in [2, 4] {
            let flash = written_flash(rt.alloc(), Eight, k)?;
            let mut board = lit_again(worn(flash, sector, k))?;
            if board.renew().is_err() {
                board = lit_again(board.into_log().into_flash())?;
                assert!(rt; have_word(&mut board, k), "before operation {k}");
                board.renew()?;
            }
            assert!(rt; have_word(&mut board, k), "behind operation {k}");
            assert!(rt;
                are_fresh(board.into_log().into_flash()),
                "programmed twice"
            );
        }
    }
    Ok(())
}
