//! Boards on chips with small sectors that have program units, or spare sectors. Power is lost in each operation of a
//! move, or sectors are worn.
ghost use Rattle.std.specs.Prelude.{◌<◌, ◌≤◌, ◌+◌};

use flash_device::FlashSocket;
use nvm_board::Board;
use program_units::UnitFlash;
use sector_board::SectorBoard;
use sector_log::{SectorLog, format_sectors};
use sector_moves::SectorFlash;
use simulated_chips::{
    Eight, Four, One, SimSpares, SimUnits, SmallSectors, SmallSpares, UnitSectors, UnitSize,
};
use spare_sectors::SpareFlash;
use std::alloc::Global;
use std::test::Fail;

/// The writes before the sessions. All pages are written, and no move has begun.
const FIRST: u32 = 1900;

/// The writes of each session.
const WRITES: u32 = 3;

/// Returns the board of a flash whose power comes back. All but the flash is lost.
fn powered<F: FlashSocket + SectorFlash + Drop>(flash: F) -> Result<SectorBoard<F>, Fail> {
    let mut flash = flash;
    flash.light();
    match SectorLog::open(flash) {
        Ok(log) => Ok(SectorBoard::new(log)),
        Err(_) => Err(Fail::from("the flash has no log in step")),
    }
}

/// Returns the page of a write: all pages in an order of an odd step.
fn page_of(k: u32) -> u16
    ensures { result < 1024 }
{
    (k.wrapping_mul(389) % 1024) as u16
}

/// Returns the place of a word of the pages in a list.
fn place_of(k: u32) -> usize
    ensures { result < 1024 }
{
    usize::from(page_of(k))
}

/// Notes the word of a page.
fn note_word(words: &mut Vec<u32>, k: u32, word: u32) {
    let place = place_of(k);
    if place < words.len() {
        words[place] = word;
    }
}

/// Returns the word of a page.
fn word_of(words: &[u32], k: u32) -> u32 {
    let place = place_of(k);
    if place < words.len() { words[place] } else { 0 }
}

/// Writes a word of each page in turn, until a write isn't done. Returns the number of those that are.
fn write_some<B: Board>(board: &mut B, words: &mut Vec<u32>, first: u32, count: u32) -> u32
    ensures { result ≤ count }
{
    for n in 0..count {
        let k = first.wrapping_add(n);
        if board.write(page_of(k), 3, &[k]).is_err() {
            return n;
        }
        note_word(words, k, k);
    }
    count
}

/// Reads the word of a page, which may be old, or new. Notes it.
fn settle<B: Board>(board: &mut B, words: &mut Vec<u32>, k: u32) -> Result<(), Fail> {
    let now = board.read(16 * page_of(k) + 3)?;
    if now != word_of(words, k) && now != k {
        return Err(Fail::from("a word is neither old nor new"));
    }
    note_word(words, k, now);
    Ok(())
}

/// Checks the word of each page.
fn check_pages<B: Board>(board: &mut B, words: &[u32]) -> Result<(), Fail> {
    for k in 0..1024 {
        if board.read(16 * page_of(k) + 3)? != word_of(words, k) {
            return Err(Fail::from("a word differs"));
        }
    }
    Ok(())
}

/// Returns a flash with a board, of which each page is written.
fn written<F: FlashSocket + SectorFlash + Drop>(flash: F, words: &mut Vec<u32>) -> Result<F, Fail> {
    let mut flash = flash;
    flash.light();
    format_sectors(&mut flash)?;
    let mut board = powered(flash)?;
    if write_some(&mut board, words, 0, FIRST) < FIRST {
        return Err(Fail::from("a write fails"));
    }
    Ok(board.into_log().into_flash())
}

/// Plays a session on a flash: reads the word of the write that wasn't done, and writes some. Returns the flash, and
/// the number of the next write.
fn play<F: FlashSocket + SectorFlash + Drop>(
    flash: F,
    words: &mut Vec<u32>,
    first: u32,
) -> Result<(F, u32), Fail> {
    let mut board = powered(flash)?;
    settle(&mut board, words, first)?;
    let done = write_some(&mut board, words, first, WRITES);
    Ok((board.into_log().into_flash(), first.wrapping_add(done)))
}

/// Sets operation k from now on, counted from 1, to lose power. 0 sets none.
fn stopped_at<S: UnitSize + Drop, L: UnitSectors + Drop>(
    flash: UnitFlash<SimUnits<S, L>>,
    k: u32,
) -> UnitFlash<SimUnits<S, L>> {
    let mut device = flash.into_device();
    device.set(k, false);
    UnitFlash::new(device)
}

/// Plays sessions on a device with program units. In each, one operation loses power, if as many are begun.
fn lose_power<S: UnitSize + Drop>(alloc: Global, size: S) -> Result<(), Fail> {
    let mut words = vec![in alloc; 0u32; 1024]?;
    let device = SimUnits::new(alloc, size, SmallSectors, 41)?;
    let mut flash = written(UnitFlash::new(device), &mut words)?;
    let (mut next, mut losses) = (FIRST, 0u32);
    for k in 0..900u32 {
        let (played, first) = play(stopped_at(flash, 1 + k * 7 % 80), &mut words, next)?;
        flash = played;
        losses = losses.saturating_add(u32::from(first.wrapping_sub(next) < WRITES));
        next = first;
    }
    let mut board = powered(stopped_at(flash, 0))?;
    settle(&mut board, &mut words, next)?;
    check_pages(&mut board, &words)?;
    let device = board.into_log().into_flash().into_device();
    if device.refused() > 0 || losses < 300 || next < FIRST + 600 {
        return Err(Fail::from("a unit was programmed twice, or little is lost or done"));
    }
    Ok(())
}

#[test]
fn power_is_lost_in_moves_of_units(rt: HostRuntime) -> Result<(), Fail> {
    lose_power(rt.alloc(), One)?;
    lose_power(rt.alloc(), Four)?;
    lose_power(rt.alloc(), Eight)
}

/// A flash with spare sectors, all of them small.
type SmallFlash = SpareFlash<SimSpares<SmallSpares>>;

/// Wears a sector of a flash out, and sets operation k from now on to lose power, if it is not 0.
fn worn(flash: SmallFlash, sector: u16, k: u32) -> SmallFlash
    requires { sector < 163 }
{
    let mut device = flash.into_device();
    device.wear(sector);
    device.set(k);
    SpareFlash::new(device)
}

/// Plays sessions in which a sector is worn. In each second one an operation loses power, and in the others all writes
/// are done.
fn wear_out(
    flash: SmallFlash,
    words: &mut Vec<u32>,
    first: u32,
    sector: u16,
) -> Result<(SmallFlash, u32), Fail>
    requires { sector < 163 }
{
    let (mut flash, mut next) = (flash, first);
    for k in 0..200u32 {
        let stop = if k % 2 == 0 { 1 + k % 40 } else { 0 };
        let (played, first) = play(worn(flash, sector, stop), words, next)?;
        if stop == 0 && first.wrapping_sub(next) < WRITES {
            return Err(Fail::from("no spare takes the place of a worn sector"));
        }
        flash = played;
        next = first;
    }
    Ok((flash, next))
}

/// Plays sessions until a write fails: more sectors are worn than there are spares.
fn fail_at_last(
    flash: SmallFlash,
    words: &mut Vec<u32>,
    first: u32,
) -> Result<(SmallFlash, u32), Fail> {
    let (mut flash, mut next) = (flash, first);
    for _ in 0..200 {
        let (played, first) = play(flash, words, next)?;
        if first.wrapping_sub(next) < WRITES {
            return Ok((played, first));
        }
        flash = played;
        next = first;
    }
    Err(Fail::from("a worn sector is erased"))
}

/// Wears out a sector of each area, and then two more. Those are of steps that copy: they are erased in each move, also
/// where they read blank.
fn wear_four(alloc: Global, n: u16) -> Result<(), Fail>
    requires { n < 8 }
{
    let mut words = vec![in alloc; 0u32; 1024]?;
    let device = SimSpares::new(alloc, SmallSpares, u64::from(n))?;
    let flash = written(SpareFlash::new(device), &mut words)?;
    let (flash, next) = wear_out(flash, &mut words, FIRST, 80 + 10 * n)?;
    let (flash, next) = wear_out(flash, &mut words, next, 79 - 10 * n)?;
    let flash = worn(worn(flash, 5, 0), 85, 0);
    let (flash, next) = fail_at_last(flash, &mut words, next)?;
    let mut board = powered(flash)?;
    settle(&mut board, &mut words, next)?;
    check_pages(&mut board, &words)
}

#[test]
fn spares_replace_worn_small_sectors(rt: HostRuntime) -> Result<(), Fail> {
    for n in 0..8 {
        wear_four(rt.alloc(), n)?;
    }
    Ok(())
}
