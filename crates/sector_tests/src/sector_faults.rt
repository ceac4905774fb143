//! Faults of a flash with small sectors: which of them a write passes over, which it returns, and that writes go on.
ghost use Rattle.std.specs.Prelude.{◌<◌, ◌≤◌, ◌+◌, IfOk};

use crate::sector_sessions::{
    AREA, Book, FIRST, Run, Stop, board_of, check_words, counted_since, counts_of, fill, is_blank,
    new_flash, note_turn, page_of, play, run_at, run_of, settle, word_in,
};
use flash_device::{FIRST_MARK, SECOND_MARK};
use nvm_board::Board;
use simulated_chips::SmallSectorFlash;
use std::alloc::Global;
use std::test::Fail;

/// The slots that a move has beside those of its steps.
const TRIES: u32 = 8;

/// The free slots at which a move begins.
const LEAD: u32 = 89;

/// The steps of a move that copy pages.
const COPIES: u32 = 64;

/// The writes of one session in which operations fail.
const WHILE: u32 = 30;

/// Plays a session by the board or the log of a flash. It writes words that are new.
fn play_next(
    flash: SmallSectorFlash,
    book: &mut Book,
    k: u32,
    stop: Stop,
) -> Result<SmallSectorFlash, Fail> {
    let word = book.last.word.wrapping_add(0x0101_0101);
    play(flash, book, 16 * page_of(k) + 3, word, stop, k % 2 == 0)
}

/// Plays sessions until one takes a step of a move.
fn begin_move(flash: SmallSectorFlash, book: &mut Book) -> Result<SmallSectorFlash, Fail> {
    let mut flash = flash;
    for k in 0..500 {
        flash = play_next(flash, book, k, Stop::none())?;
        if book.counts.erases > 0 {
            return Ok(flash);
        }
    }
    Err(Fail::from("no move begins"))
}

/// Plays sessions until a move ends.
fn end_move(flash: SmallSectorFlash, book: &mut Book) -> Result<SmallSectorFlash, Fail> {
    let (mut flash, moves) = (flash, book.moves);
    for k in 0..100 {
        flash = play_next(flash, book, k, Stop::none())?;
        if book.moves != moves {
            return Ok(flash);
        }
    }
    Err(Fail::from("no move ends"))
}

/// Returns where the area in use begins.
fn home_of(book: &Book) -> u32
    ensures { result ≤ 40962 }
{
    if book.turn == 0 { 0 } else { AREA }
}

/// Returns the number of slots of an area up to the last one that isn't blank.
fn used_slots(flash: &mut SmallSectorFlash, home: u32) -> Result<u32, Fail>
    requires { home ≤ 40962 }
    ensures { IfOk result (λ n. n ≤ 2048) }
{
    for n in 0..2048u32 {
        let slot = 2047 - n;
        if !is_blank(flash, home + 20 * slot, 20)? {
            return Ok(slot + 1);
        }
    }
    Ok(0)
}

/// Returns true if a slot holds a record of a page.
fn is_record(flash: &mut SmallSectorFlash, at: u32, page: u16) -> Result<bool, Fail>
    requires { at + 20 ≤ 81926 }
{
    let is_page = word_in(flash, at + 16)? == u32::from(page);
    let first = word_in(flash, at + 18)? == FIRST_MARK;
    let second = word_in(flash, at + 19)? == SECOND_MARK;
    Ok(is_page && first && second)
}

/// Returns true if behind so many used slots one was passed over, the next one holds a record of a page, and the others
/// are blank.
fn is_in_next(flash: &mut SmallSectorFlash, home: u32, used: u32, page: u16) -> Result<bool, Fail>
    requires { (home ≤ 40962) × (used ≤ 2046) }
{
    let is_last = used_slots(flash, home)? == used + 2;
    let is_there = is_record(flash, home + 20 * (used + 1), page)?;
    Ok(is_last && is_there)
}

/// Plays a session in which a program of the record fails once. The write is done, and the record is in the next slot.
fn fail_record(flash: SmallSectorFlash, book: &mut Book, k: u32) -> Result<SmallSectorFlash, Fail> {
    let (mut flash, home) = (flash, home_of(book));
    let used = used_slots(&mut flash, home)?;
    if used > 2046 {
        return Err(Fail::from("two slots aren't free"));
    }
    let stop = Stop::in_record(book.turn, 1 + k % 2).failing();
    flash = play_next(flash, book, k, stop)?;
    if !book.last.is_done || book.counts.faults != 1 || book.counts.erases != 1 {
        return Err(Fail::from("a step is missing, or a record isn't tried again"));
    }
    if !is_in_next(&mut flash, home, used, page_of(k))? {
        return Err(Fail::from("the record isn't in the next slot"));
    }
    Ok(flash)
}

/// Plays sessions of a move. In each ninth one a program of the record fails once.
fn fail_now_and_then(
    flash: SmallSectorFlash,
    book: &mut Book,
    first: u32,
) -> Result<SmallSectorFlash, Fail> {
    let mut flash = flash;
    for k in 0..9 * TRIES {
        flash = if k % 9 == 0 {
            fail_record(flash, book, first.wrapping_add(k / 9))?
        } else {
            play_next(flash, book, first.wrapping_add(k), Stop::none())?
        };
    }
    Ok(flash)
}

#[test]
fn a_record_that_fails_in_a_move_is_in_the_next_slot(rt: HostRuntime) -> Result<(), Fail> {
    let (mut flash, mut book) = new_flash(rt.alloc(), 21)?;
    for n in 0..4 {
        flash = begin_move(flash, &mut book)?;
        flash = fail_now_and_then(flash, &mut book, TRIES * n)?;
        flash = end_move(flash, &mut book)?;
        flash = check_words(flash, &mut book)?;
    }
    assert!(rt; book.moves == 4 && book.failures == 0);
    Ok(())
}

/// Plays sessions until a move ends, in which a program of each step fails once. Returns how many did.
fn fail_in_steps(
    flash: SmallSectorFlash,
    book: &mut Book,
    first: u32,
) -> Result<(SmallSectorFlash, u64), Fail> {
    let (mut flash, moves, mut faults) = (flash, book.moves, 0u64);
    for k in 0..100 {
        let stop = Stop::in_step(book.turn, 2 + first.wrapping_add(k) % 34).failing();
        flash = play_next(flash, book, k, stop)?;
        if !book.last.is_done {
            return Err(Fail::from("a step gives up"));
        }
        faults = faults.saturating_add(book.counts.faults);
        if book.moves != moves {
            return Ok((flash, faults));
        }
    }
    Err(Fail::from("no move ends"))
}

#[test]
fn a_program_of_each_step_fails_once(rt: HostRuntime) -> Result<(), Fail> {
    let (mut flash, mut book) = new_flash(rt.alloc(), 22)?;
    let mut faults: u64 = 0;
    for n in 0..8 {
        flash = begin_move(flash, &mut book)?;
        let (next, failed) = fail_in_steps(flash, &mut book, 5 * n)?;
        faults = faults.saturating_add(failed);
        flash = check_words(next, &mut book)?;
    }
    assert!(rt; book.moves == 8 && faults > 450 && book.failures == 0);
    Ok(())
}

/// The programs fail of the first slots in a sector of area B.
fn in_first_slots(sector: u16, slots: u32) -> Stop
    requires { (80 ≤ sector) × (sector < 160) × (slots ≤ 20) }
{
    let start = 512 * u32::from(sector - 80);
    let first = (start + 19) / 20;
    // Where a slot begins with the sector, an erase comes before its programs.
    let k = if 20 * first == start { 2 } else { 1 };
    Stop::between(AREA + 20 * first, AREA + 20 * (first + slots), k).failing_again(1)
}

/// Plays sessions in which more slots of a step fail than it passes over, and then six.
fn fail_slots(
    flash: SmallSectorFlash,
    book: &mut Book,
    sector: u16,
) -> Result<SmallSectorFlash, Fail>
    requires { (80 ≤ sector) × (sector < 160) }
{
    let flash = play_next(flash, book, 0, in_first_slots(sector, 8))?;
    // The record may be put all the same, if no copy of another page may be older.
    if book.counts.faults < 7 || flash.erased() != sector {
        return Err(Fail::from("a step takes more slots"));
    }
    let flash = play_next(flash, book, 0, in_first_slots(sector, 6))?;
    if !book.last.is_done || book.counts.faults != 6 || flash.erased() != sector {
        return Err(Fail::from("a step takes fewer slots, or another step is taken"));
    }
    Ok(flash)
}

#[test]
fn a_step_passes_over_six_slots_that_fail(rt: HostRuntime) -> Result<(), Fail> {
    let (mut flash, mut book) = new_flash(rt.alloc(), 25)?;
    let mut steps: u32 = 0;
    for k in 0..1000 {
        if book.moves == 1 {
            break;
        }
        // The erase of a step fails, so that its sector is known.
        let stop = Stop::in_step(book.turn, 1).failing();
        flash = play_next(flash, &mut book, k, stop)?;
        let sector = flash.erased();
        if book.counts.faults > 0 && 80 <= sector && sector < 144 {
            flash = fail_slots(flash, &mut book, sector)?;
            steps = steps.saturating_add(1);
        }
    }
    check_words(flash, &mut book)?;
    assert!(rt; book.moves == 1 && COPIES <= steps && steps <= LEAD);
    Ok(())
}

/// Plays sessions until a move ends, in which the mark fails once that passes the turn. None gives up. Returns how many
/// marks failed.
fn fail_marks(
    flash: SmallSectorFlash,
    book: &mut Book,
    first: u32,
) -> Result<(SmallSectorFlash, u64), Fail> {
    let (mut flash, moves, mut faults) = (flash, book.moves, 0u64);
    for k in 0..100 {
        let stop = Stop::in_close(book.turn).failing();
        flash = play_next(flash, book, first.wrapping_add(k), stop)?;
        if !book.last.is_done {
            return Err(Fail::from("a write gives up behind one mark"));
        }
        faults = faults.saturating_add(book.counts.faults);
        if book.moves != moves {
            return Ok((flash, faults));
        }
    }
    Err(Fail::from("no move ends"))
}

#[test]
fn a_mark_that_fails_is_tried_again(rt: HostRuntime) -> Result<(), Fail> {
    let (mut flash, mut book) = new_flash(rt.alloc(), 26)?;
    let mut faults: u64 = 0;
    for n in 0..12 {
        flash = begin_move(flash, &mut book)?;
        let (next, failed) = fail_marks(flash, &mut book, 7 * n)?;
        faults = faults.saturating_add(failed);
        flash = check_words(next, &mut book)?;
    }
    assert!(rt; book.moves == 12 && faults >= 12 && book.failures == 0);
    Ok(())
}

/// Plays a session in which the erase of a step fails, if one is due: nothing else is begun but the two programs of the
/// record, or a Fault is returned. The next session takes that step again. Returns whether it was due.
fn fail_erase(
    flash: SmallSectorFlash,
    book: &mut Book,
    k: u32,
) -> Result<(SmallSectorFlash, bool), Fail> {
    let stop = Stop::in_step(book.turn, 1).failing();
    let flash = play_next(flash, book, k, stop)?;
    if book.counts.faults == 0 {
        return Ok((flash, false));
    }
    let begun = if book.last.is_done { 3 } else { 1 };
    if book.counts.operations != begun || book.counts.erases != 1 {
        return Err(Fail::from("more was begun than the erase that failed"));
    }
    let sector = flash.erased();
    let flash = play_next(flash, book, k, Stop::none())?;
    // One of the last sectors may be blank all the same.
    let is_again = sector % 80 >= 64 || flash.erased() == sector;
    if !book.last.is_done || book.counts.erases != 1 || !is_again {
        return Err(Fail::from("the step isn't taken again"));
    }
    Ok((flash, true))
}

#[test]
fn an_erase_that_fails_is_done_by_the_next_write(rt: HostRuntime) -> Result<(), Fail> {
    let (mut flash, mut book) = new_flash(rt.alloc(), 23)?;
    let mut steps: u32 = 0;
    for k in 0..1000 {
        if book.moves == 2 {
            break;
        }
        let (next, is_step) = fail_erase(flash, &mut book, k)?;
        flash = next;
        steps = steps.saturating_add(u32::from(is_step));
    }
    check_words(flash, &mut book)?;
    // A record is put though its step failed: fewer writes fail than steps.
    assert!(rt; book.moves == 2 && book.failures < steps);
    assert!(rt; 2 * COPIES <= steps && steps <= 2 * LEAD);
    Ok(())
}

/// Writes a run by a board and reads it: it is new, or old if the write returned a Fault.
fn write_settled<B: Board>(board: &mut B, book: &mut Book, k: u32) -> Result<(), Fail> {
    let (page, word) = (page_of(k), book.last.word.wrapping_add(0x0101_0101));
    let is_done = board.write(page, 5, &run_of(word)).is_ok();
    let at = 16 * page + 5;
    book.last = Run { at, word, is_done };
    let now = run_at(board, at)?;
    settle(book, now)
}

/// Writes many runs in one session, in which operations fail.
fn write_while(
    flash: SmallSectorFlash,
    book: &mut Book,
    first: u32,
    stop: Stop,
) -> Result<SmallSectorFlash, Fail> {
    let old = counts_of(&flash);
    let mut board = board_of(stop.set_on(flash))?;
    let now = run_at(&mut board, book.last.at.min(16381))?;
    settle(book, now)?;
    for k in 0..WHILE {
        write_settled(&mut board, book, first.wrapping_add(k))?;
    }
    let mut flash = Stop::none().set_on(board.into_log().into_flash());
    counted_since(&flash, old, u64::from(WHILE))?;
    note_turn(&mut flash, book)?;
    Ok(flash)
}

/// Returns the operations that fail in a while of this kind.
fn stop_in_while(kind: u32, turn: u8) -> Stop {
    match kind {
        // All operations, all programs of records, and all of a step.
        0 => Stop::at(1, true).failing_again(1),
        1 => Stop::in_record(turn, 1).failing_again(1),
        2 => Stop::in_step(turn, 2).failing_again(1),
        // All marks of records, and all of a step.
        3 => Stop::in_record(turn, 2).failing_again(2),
        4 => Stop::in_step(turn, 3).failing_again(2),
        _ => Stop::at(kind, true).failing_again(kind),
    }
}

#[test]
fn writes_go_on_when_operations_fail_no_longer(rt: HostRuntime) -> Result<(), Fail> {
    for kind in 0..8u32 {
        let (mut flash, mut book) = new_flash(rt.alloc(), 24)?;
        for n in 0..24u32 {
            for k in 0..6u32 {
                let stop = stop_in_while(kind, book.turn);
                flash = play_next(flash, &mut book, 7 * n + k, stop)?;
            }
            let stop = stop_in_while(kind, book.turn);
            flash = write_while(flash, &mut book, 30 * n, stop)?;
            flash = check_words(flash, &mut book)?;
            flash = fill(flash, &mut book, 40 * n, 40)?;
        }
        assert!(rt; book.moves >= 2 && book.failures > 0, "of kind {kind}");
    }
    Ok(())
}
