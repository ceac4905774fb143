//! Random writes with power losses and faults, beside a board in working memory; and what writes cost on a flash that
//! is half full.
ghost use Rattle.std.specs.Prelude.{◌<◌, ◌≤◌, ◌+◌};

use flash_board::FlashBoard;
use flash_device::FlashSocket;
use flash_log::FlashLog;
use flash_moves::format_flash;
use nvm_board::{Board, DeviceErr};
use program_units::UnitFlash;
use simulated_boards::RamBoard;
use simulated_chips::{
    Eight, Four, LargeSectors, One, Random, SimFlash, SimUnits, Two, UnitSectors, UnitSize,
};
use std::alloc::Global;
use std::test::Fail;

/// The writes of a round, if no power loss ends it.
const WRITES: u32 = 400;

/// A flash on which an operation can be set to lose power or to fail.
pub trait StoppedFlash: FlashSocket {
    /// Sets operation `k` from now on, counted from 1, to lose power, or to fail.
    fn stopped_at(self, k: u32, fails: bool) -> Self;
}

impl StoppedFlash for SimFlash {
    fn stopped_at(self, k: u32, fails: bool) -> SimFlash {
        let mut flash = self;
        flash.set(k, fails);
        flash
    }
}

impl<S: UnitSize + Drop, L: UnitSectors + Drop> StoppedFlash for UnitFlash<SimUnits<S, L>> {
    fn stopped_at(self, k: u32, fails: bool) -> UnitFlash<SimUnits<S, L>> {
        let mut device = self.into_device();
        device.set(k, fails);
        UnitFlash::new(device)
    }
}

/// Returns the board of a flash whose power comes back. All but the flash is lost.
pub fn powered<F: StoppedFlash + Drop>(flash: F) -> Result<FlashBoard<F>, Fail> {
    let mut flash = flash;
    flash.light();
    match FlashLog::open(flash) {
        Ok(log) => Ok(FlashBoard::new(log)),
        Err(_) => Err(Fail::from("the flash has no log")),
    }
}

/// Returns three words.
fn words_at<B: Board>(board: &mut B, at: u16) -> Result<[u32; 3], Fail>
    requires { at + 3 ≤ 16384 }
{
    Ok([board.read(at)?, board.read(at + 1)?, board.read(at + 2)?])
}

/// Returns true if two boards have the same words.
fn are_same<A: Board, B: Board>(one: &mut A, other: &mut B) -> Result<bool, Fail> {
    for at in 0..16384 {
        if one.read(at)? != other.read(at)? {
            return Ok(false);
        }
    }
    Ok(true)
}

/// Writes three words to both boards. Returns the flash if power is lost: then they are old, or all are new.
fn write_both<F: StoppedFlash + Drop>(
    board: FlashBoard<F>,
    ram: &mut RamBoard,
    random: &mut Random,
) -> Result<FlashBoard<F>, Fail> {
    // Mostly few pages, so that a move copies few.
    let few = random.below(4) > 0;
    let page = if few {
        random.below(9) * 113
    } else {
        random.below(1024)
    } as u16;
    let first = random.below(14) as u8;
    let words = [
        random.below(1 << 31),
        random.below(1 << 31),
        random.below(1 << 31),
    ];
    let mut board = board;
    if board.write(page, first, &words) == Err(DeviceErr::PowerLost) {
        board = powered(board.into_log().into_flash())?;
        let now = words_at(&mut board, 16 * page + u16::from(first))?;
        if now == words_at(ram, 16 * page + u16::from(first))? {
            return Ok(board);
        }
    }
    ram.write(page, first, &words)?;
    if words_at(&mut board, 16 * page + u16::from(first))? != words {
        return Err(Fail::from("the words are neither old nor new"));
    }
    Ok(board)
}

/// Plays writes, of which one meets a power loss or a fault at some operation of the flash.
fn play_round<F: StoppedFlash + Drop>(
    flash: F,
    ram: &mut RamBoard,
    random: &mut Random,
) -> Result<F, Fail> {
    let far = [3, 8, 40, 700, 2500][random.below(5) as usize];
    let k = 1 + random.below(far);
    let mut board = powered(flash.stopped_at(k, random.below(4) == 0))?;
    for _ in 0..WRITES {
        board = write_both(board, ram, random)?;
    }
    if random.below(8) == 0 && !are_same(&mut board, ram)? {
        return Err(Fail::from("a word differs"));
    }
    Ok(board.into_log().into_flash())
}

#[test]
fn writes_are_whole_or_not_begun(rt: HostRuntime) -> Result<(), Fail> {
    let mut random = Random(7);
    let mut flash = SimFlash::new(rt.alloc(), 7)?;
    format_flash(&mut flash)?;
    // A slot that always fails, and stays blank.
    flash.stick(25602 + 20 * 600);
    let mut ram = RamBoard::new(rt.alloc())?;
    for _ in 0..200 {
        flash = play_round(flash, &mut ram, &mut random)?;
    }
    assert!(rt; flash.faults() > 0 && flash.operations() > 100_000);
    Ok(())
}

/// Plays rounds on a device with program units. None is programmed twice.
fn play_on_units<S: UnitSize + Drop, L: UnitSectors + Drop>(
    alloc: Global,
    size: S,
    sectors: L,
    rounds: u32,
) -> Result<(), Fail> {
    let mut random = Random(11);
    let mut flash = UnitFlash::new(SimUnits::new(alloc, size, sectors, 11)?);
    format_flash(&mut flash)?;
    let mut ram = RamBoard::new(alloc)?;
    for _ in 0..rounds {
        flash = play_round(flash, &mut ram, &mut random)?;
    }
    let device = flash.into_device();
    if device.faults() == 0 || device.refused() > 0 {
        return Err(Fail::from("no fault, or a unit was programmed twice"));
    }
    Ok(())
}

#[test]
fn units_are_programmed_once(rt: HostRuntime) -> Result<(), Fail> {
    play_on_units(rt.alloc(), One, LargeSectors, 20)?;
    play_on_units(rt.alloc(), Two, LargeSectors, 20)?;
    play_on_units(rt.alloc(), Four, LargeSectors, 60)?;
    play_on_units(rt.alloc(), Eight, LargeSectors, 60)
}

/// Writes one word to a random page below 512, so many times.
fn write_half(
    board: FlashBoard<SimFlash>,
    random: &mut Random,
    times: u32,
) -> Result<SimFlash, Fail> {
    let mut board = board;
    for k in 0..times {
        board.write(random.below(512) as u16, 0, &[k])?;
    }
    Ok(board.into_log().into_flash())
}

#[test]
fn half_full_log_writes_less_than_two_records_a_write(rt: HostRuntime) -> Result<(), Fail> {
    let mut flash = SimFlash::new(rt.alloc(), 1)?;
    format_flash(&mut flash)?;
    let mut board = powered(flash)?;
    for page in 0..512 {
        board.write(page, 0, &[1])?;
    }
    let mut random = Random(3);
    let half = board.into_log().into_flash();
    let before = half.operations();
    let worn = write_half(powered(half)?, &mut random, 100_000)?;
    // A record takes two programs.
    let programs = worn.operations().saturating_sub(before);
    assert!(rt; programs > 200_000 && programs < 400_000);
    Ok(())
}
