//! Sessions of one write, as of a card that is taken out behind each, or in it. No power-on, power loss, fault or
//! renewal makes a later write of a move long.
ghost use Rattle.std.specs.Prelude.{◌≡◌};

use flash_board::FlashBoard;
use flash_device::FlashSocket;
use flash_log::FlashLog;
use flash_moves::format_flash;
use nvm_board::{Board, DeviceErr};
use simulated_chips::{SimFlash, WideFlash};
use std::alloc::Global;
use std::test::Fail;

/// The most programs and erases of a write.
const MOST: u64 = 37;

/// The most that it takes for each fault.
const RETRY: u64 = 2;

/// The least of a write that copies 16 pages: for each a record and its mark.
const COPIES: u64 = 32;

/// The least number of moves in a test.
const MOVES: usize = 3;

/// A flash that counts its programs and erases.
trait CountedFlash: FlashSocket {
    /// Returns the number of programs and erases that were begun.
    fn operation_count(&self) -> u64;
}

impl CountedFlash for SimFlash {
    fn operation_count(&self) -> u64 {
        self.operations()
    }
}

impl CountedFlash for WideFlash {
    fn operation_count(&self) -> u64 {
        self.operations()
    }
}

/// Returns the board of a flash whose power went off and comes back.
fn power_cycled<F: CountedFlash + Drop>(flash: F) -> Result<FlashBoard<F>, Fail> {
    let mut flash = flash;
    flash.power_off();
    flash.light();
    match FlashLog::open(flash) {
        Ok(log) => Ok(FlashBoard::new(log)),
        Err(_) => Err(Fail::from("the flash has no log")),
    }
}

/// Writes a word of a page, if the board has it.
fn write_word<B: Board>(board: &mut B, page: u16, word: u32) -> Result<(), DeviceErr> {
    if page >= board.pages() {
        return Err(DeviceErr::Fault);
    }
    board.write(page, 5, &[word])
}

/// Returns a page's word, if the board has it.
fn word_of<B: Board>(board: &mut B, page: u16) -> Result<u32, DeviceErr> {
    let at = (page & 0x0FFF) * 16 + 5;
    if at / 16 >= board.pages() {
        return Err(DeviceErr::Fault);
    }
    board.read(at)
}

/// Returns the flash behind a session in which a word of a page is written, and the programs and erases of it. In every
/// other session another word is read first.
fn played_session<F: CountedFlash + Drop>(
    flash: F,
    page: u16,
    word: u32,
) -> Result<(F, u64), Fail> {
    let before = flash.operation_count();
    let mut board = power_cycled(flash)?;
    if word % 2 == 0 {
        word_of(&mut board, page / 2)?;
    }
    write_word(&mut board, page, word)?;
    if word_of(&mut board, page)? != word {
        return Err(Fail::from("the word isn't there"));
    }
    let flash = board.into_log().into_flash();
    let count = flash.operation_count().saturating_sub(before);
    Ok((flash, count))
}

/// Notes the word of a page, if it is one of these.
fn note_word(words: &mut Vec<u32>, page: usize, word: u32) {
    if page < words.len() {
        words[page] = word;
    }
}

/// Checks that each page has the word of the last session that wrote it.
fn check_words<F: CountedFlash + Drop>(flash: F, words: &[u32]) -> Result<F, Fail> {
    let mut board = power_cycled(flash)?;
    for page in 0..words.len() {
        if word_of(&mut board, (page & 0x0FFF) as u16)? != words[page] {
            return Err(Fail::from("a word differs"));
        }
    }
    Ok(board.into_log().into_flash())
}

/// Plays four sessions for each page, in the order of an odd step. The number of pages is a power of two. Each write is
/// short, and all writes together copy as many pages as three moves.
fn play_sessions<F: CountedFlash + Drop>(
    flash: F,
    words: &mut Vec<u32>,
    step: usize,
) -> Result<F, Fail> {
    let pages = words.len();
    let mut flash = flash;
    flash.light();
    format_flash(&mut flash)?;
    let mut copied = 0usize;
    for k in 0..pages.saturating_mul(4) {
        let page = k.wrapping_mul(step) & (pages.wrapping_sub(1));
        let word = (k & 0xFFFF) as u32;
        let (next, count) = played_session(flash, (page & 0x0FFF) as u16, word)?;
        flash = next;
        if count > MOST {
            return Err(Fail::from("a write is long"));
        }
        if count > COPIES {
            copied = copied.saturating_add(1);
        }
        note_word(words, page, word);
    }
    if copied / MOVES < pages / 16 {
        return Err(Fail::from("too few pages were copied"));
    }
    check_words(flash, words)
}

/// Writes a word of a page in a session in which an operation loses power, if the write has so many. Returns the flash,
/// and whether power was lost.
fn cut_session(flash: SimFlash, page: u16, word: u32, k: u32) -> Result<(SimFlash, bool), Fail> {
    let mut flash = flash;
    flash.set(k, false);
    let mut board = power_cycled(flash)?;
    let is_lost = write_word(&mut board, page, word) == Err(DeviceErr::PowerLost);
    let mut flash = board.into_log().into_flash();
    flash.set(0, false);
    Ok((flash, is_lost))
}

#[test]
fn no_power_loss_makes_a_write_long(rt: HostRuntime) -> Result<(), Fail> {
    let mut words = vec![in rt.alloc(); 0u32; 1024]?;
    let mut flash = SimFlash::new(rt.alloc(), 6)?;
    format_flash(&mut flash)?;
    let mut losses = 0u32;
    for k in 0..8192u32 {
        let page = k.wrapping_mul(389) & 0x03FF;
        // (a move takes 67 writes, and the flash has the slots for 6 power losses in it)
        if k % 16 == 0 {
            let (cut, is_lost) = cut_session(flash, page as u16, k, 1 + k / 16 % 36)?;
            flash = cut;
            losses = losses.saturating_add(u32::from(is_lost));
        }
        let (next, count) = played_session(flash, page as u16, k)?;
        flash = next;
        assert!(rt; count <= MOST, "at session {k}");
        note_word(&mut words, page as usize, k);
    }
    assert!(rt; losses > 100);
    check_words(flash, &words)?;
    Ok(())
}

#[test]
fn no_power_on_makes_a_write_long(rt: HostRuntime) -> Result<(), Fail> {
    let mut words = vec![in rt.alloc(); 0u32; 1024]?;
    play_sessions(SimFlash::new(rt.alloc(), 5)?, &mut words, 389)?;
    Ok(())
}

#[test]
fn no_power_on_makes_a_write_of_4096_pages_long(rt: HostRuntime) -> Result<(), Fail> {
    let mut words = vec![in rt.alloc(); 0u32; 4096]?;
    play_sessions(WideFlash::new(rt.alloc(), 5)?, &mut words, 1031)?;
    Ok(())
}

/// Writes a word of a page in a session in which an operation fails, if the write has so many. Returns the flash, the
/// programs and erases of the session, and how often it failed.
fn failed_session(
    flash: SimFlash,
    page: u16,
    word: u32,
    k: u32,
) -> Result<(SimFlash, u64, u64), Fail> {
    let before = flash.faults();
    let mut flash = flash;
    flash.set(k, true);
    let (next, count) = played_session(flash, page, word)?;
    let mut flash = next;
    flash.set(0, false);
    let faults = flash.faults().saturating_sub(before);
    Ok((flash, count, faults))
}

/// Renews the flash in a session in which an operation loses power or fails, if the renewal has so many. Returns the
/// flash, and whether the renewal did not end.
fn cut_renewal(flash: SimFlash, k: u32, fails: bool) -> Result<(SimFlash, bool), Fail> {
    let mut flash = flash;
    flash.set(k, fails);
    let mut board = power_cycled(flash)?;
    let is_cut = board.renew().is_err();
    let mut flash = board.into_log().into_flash();
    flash.set(0, false);
    Ok((flash, is_cut))
}

#[test]
fn no_renewal_makes_a_write_long(rt: HostRuntime) -> Result<(), Fail> {
    let mut words = vec![in rt.alloc(); 0u32; 1024]?;
    let mut flash = SimFlash::new(rt.alloc(), 7)?;
    format_flash(&mut flash)?;
    let mut cuts = 0u32;
    for k in 0..4096u32 {
        let page = k.wrapping_mul(389) & 0x03FF;
        // (at most 4 come in the 67 writes of a move, most of them in its steps)
        if k % 19 == 0 {
            let most = if k % 8 == 0 { 2300 } else { 97 };
            let (cut, is_cut) = cut_renewal(flash, 1 + k.wrapping_mul(31) % most, false)?;
            flash = cut;
            cuts = cuts.saturating_add(u32::from(is_cut));
        }
        let (next, count) = played_session(flash, page as u16, k)?;
        flash = next;
        assert!(rt; count <= MOST, "at session {k}");
        note_word(&mut words, page as usize, k);
    }
    assert!(rt; cuts > 150);
    check_words(flash, &words)?;
    Ok(())
}

#[test]
fn no_fault_makes_a_later_write_long(rt: HostRuntime) -> Result<(), Fail> {
    let mut words = vec![in rt.alloc(); 0u32; 1024]?;
    let mut flash = SimFlash::new(rt.alloc(), 8)?;
    format_flash(&mut flash)?;
    let mut all = 0u64;
    for k in 0..8192u32 {
        let page = k.wrapping_mul(389) & 0x03FF;
        if k % 97 == 0 {
            flash = cut_renewal(flash, 1 + k / 97 % 97, true)?.0;
        }
        // (a move takes 67 writes, and the flash has the slots for 6 Faults in it)
        let at = if k % 16 == 0 { 1 + k / 16 % 36 } else { 0 };
        let (next, count, faults) = failed_session(flash, page as u16, k, at)?;
        flash = next;
        all = all.saturating_add(faults);
        assert!(rt;
            count <= MOST.saturating_add(faults.saturating_mul(RETRY)),
            "at session {k}"
        );
        note_word(&mut words, page as usize, k);
    }
    assert!(rt; all > 20);
    check_words(flash, &words)?;
    Ok(())
}

#[test]
fn a_record_that_fails_in_a_move_is_in_the_next_slot(rt: HostRuntime) -> Result<(), Fail> {
    // Operations 33 to 36 of a write that copies 16 pages are those of its record, or of the page it copies again.
    for at in 33..37u32 {
        let mut words = vec![in rt.alloc(); 0u32; 1024]?;
        let mut flash = SimFlash::new(rt.alloc(), 9)?;
        format_flash(&mut flash)?;
        let mut all = 0u64;
        let mut steps = 0u32;
        for k in 0..1536u32 {
            // Behind the ninth step one page is left that differs from its copy: a look would find that the move could
            // end, but for that page.
            let page = if k % 145 == 144 { 148 } else { k % 145 };
            let failed = if steps == 8 { at } else { 0 };
            let (next, count, faults) = failed_session(flash, page as u16, k, failed)?;
            flash = next;
            all = all.saturating_add(faults);
            steps = if count > COPIES {
                steps.saturating_add(1)
            } else {
                0
            };
            note_word(&mut words, page as usize, k);
        }
        assert!(rt; all > 0);
        check_words(flash, &words)?;
    }
    Ok(())
}
