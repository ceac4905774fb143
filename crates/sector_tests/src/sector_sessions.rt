//! Sessions of a log of small sectors and of its board, as of a card that is taken out behind each write, or in it. No
//! power loss makes a write long, however often it comes.
ghost use Rattle.std.specs.Prelude.{◌≡◌, ◌<◌, ◌≤◌, ◌+◌, ◌%◌, false, IfOk};

use flash_board::FlashBoard;
use flash_device::{BLANK, FIRST_MARK, Flash, FlashSocket, SECOND_MARK};
use flash_log::FlashLog;
use flash_moves::format_flash;
use nvm_board::{Board, DeviceErr, Socket};
use sector_board::SectorBoard;
use sector_log::{SectorFault, SectorLog, format_sectors};
use simulated_chips::{Random, SmallSectorFlash};
use std::alloc::Global;
use std::test::Fail;

/// The most programs and erases of a write, however often the flash fails.
const MOST: u64 = 64;

/// The most of a write in which the flash doesn't fail. It takes two more for each fault.
pub const SPARED: u64 = 38;

/// The most of a renewal: 36 for each step of a move, then a record and a mark of each page, and each sector.
const RENEWAL: u64 = 5129;

/// The faults after which a write returns one, if no step of a move is due.
const TRIES: u64 = 8;

/// The writes before the sessions. They need no move.
pub const FIRST: u32 = 1940;

/// The writes behind a move that need no other move.
const BETWEEN: u32 = 300;

/// The number of words of an area.
pub const AREA: u32 = 40_962;

/// The number of words of the flash.
const ALL: u32 = 81_926;

/// An operation that is set to lose power or to fail.
#[derive(Clone, Copy)]
pub struct Stop {
    /// The operation in a session, counted from 1; or 0 for none.
    k: u32,
    fails: bool,
    /// Only operations at addresses from this one on are counted.
    from: u32,
    /// They lie before this one.
    end: u32,
    /// The operations from one that fails until the next; or 0.
    again: u32,
}

impl Stop {
    /// No operation is set.
    pub fn none() -> Stop {
        Stop::at(0, false)
    }

    /// Operation k is set.
    pub fn at(k: u32, fails: bool) -> Stop {
        Stop {
            k,
            fails,
            from: 0,
            end: ALL,
            again: 0,
        }
    }

    /// Operation k is set of those at addresses from one on, before another.
    pub fn between(from: u32, end: u32, k: u32) -> Stop {
        Stop {
            from,
            end,
            ..Stop::at(k, false)
        }
    }

    /// An operation of a write is set: one in the records of the area in use.
    pub fn in_record(turn: u8, k: u32) -> Stop {
        let from = if turn == 0 { 0 } else { AREA };
        Stop {
            from,
            end: from + (AREA - 2),
            ..Stop::at(k, false)
        }
    }

    /// An operation of a step is set: one in the area that the pages move to, or in turn 1 in the witness.
    pub fn in_step(turn: u8, k: u32) -> Stop {
        let (from, end) = match turn {
            0 => (AREA, 2 * AREA),
            1 => (2 * AREA - 2, ALL),
            _ => (0, AREA),
        };
        Stop {
            from,
            end,
            ..Stop::at(k, false)
        }
    }

    /// The operation is set that passes the turn.
    pub fn in_close(turn: u8) -> Stop {
        let from = match turn {
            0 => AREA - 2,
            1 => 2 * AREA - 2,
            _ => 2 * AREA,
        };
        Stop {
            from,
            end: from + 2,
            ..Stop::at(1, false)
        }
    }

    /// It fails.
    pub fn failing(self) -> Stop {
        Stop {
            fails: true,
            ..self
        }
    }

    /// It fails, and each from there on that so many operations lie between.
    pub fn failing_again(self, again: u32) -> Stop {
        Stop {
            again,
            ..self.failing()
        }
    }

    /// Returns a flash on which it is set.
    pub fn set_on(self, flash: SmallSectorFlash) -> SmallSectorFlash {
        let mut flash = flash;
        flash.set_within(self.k, self.fails, self.from, self.end);
        flash.set_again(self.again);
        flash
    }
}

/// Which operations lose power or fail.
#[derive(Clone, Copy)]
enum Plan {
    /// None does.
    Spared,
    /// Each of 40 in turn loses power.
    Each,
    /// The same one loses power in 20 sessions.
    Long,
    /// The same one loses power in 200 sessions.
    Longest,
    /// One of each record loses power.
    Record,
    /// One of each step loses power, in three sessions of four.
    Step,
    /// The one that passes the turn loses power.
    Close,
    /// Each of 40 in turn fails.
    Fault,
    /// It fails, and many behind it.
    Faults,
}

impl Plan {
    /// Returns the operation of session k.
    fn stop(self, k: u32, turn: u8) -> Stop {
        match self {
            Plan::Spared => Stop::none(),
            Plan::Each => Stop::at(1 + k % 40, false),
            Plan::Long if k % 40 < 20 => Stop::at(1 + k / 40 % 40, false),
            Plan::Longest if k % 256 < 200 => Stop::at(1 + (k / 256).wrapping_mul(7) % 36, false),
            Plan::Record => Stop::in_record(turn, 1 + k / 8 % 2),
            Plan::Step if k % 4 < 3 => Stop::in_step(turn, 1 + (k / 4).wrapping_mul(7) % 36),
            Plan::Close => Stop::in_close(turn),
            Plan::Fault => Stop::at(1 + k % 40, true),
            Plan::Faults => Stop::at(1 + k % 40, true).failing_again(1 + k / 2 % 41),
            _ => Stop::none(),
        }
    }
}

/// A run of three words that a session wrote.
#[derive(Clone, Copy)]
pub struct Run {
    pub at: u16,
    pub word: u32,
    pub is_done: bool,
}

/// What the flash should hold, and what its sessions did.
#[derive(Drop)]
pub struct Book {
    /// The words of the board.
    pub words: Vec<u32>,
    /// The run of the last session. It may be old or new, if it isn't done.
    pub last: Run,
    /// What the write of the last session took.
    pub counts: Counts,
    /// Whose turn it is.
    pub turn: u8,
    /// The moves that have ended.
    pub moves: u32,
    /// The writes in which power was lost.
    pub losses: u32,
    /// The writes that returned a Fault.
    pub failures: u32,
    /// The most programs and erases of a write without a fault.
    pub longest: u64,
    /// The most of any write.
    pub most: u64,
}

/// What a flash counts.
#[derive(Clone, Copy)]
pub struct Counts {
    pub operations: u64,
    pub erases: u64,
    pub faults: u64,
}

/// Returns what a flash has counted.
pub fn counts_of(flash: &SmallSectorFlash) -> Counts {
    Counts {
        operations: flash.operations(),
        erases: flash.erases(),
        faults: flash.faults(),
    }
}

/// Returns what a flash has counted since then, if so many writes may begin as many programs and erases.
pub fn counted_since(flash: &SmallSectorFlash, old: Counts, writes: u64) -> Result<Counts, Fail> {
    let operations = flash.operations().saturating_sub(old.operations);
    let erases = flash.erases().saturating_sub(old.erases);
    let faults = flash.faults().saturating_sub(old.faults);
    let spared = SPARED.saturating_mul(writes);
    if operations > spared.saturating_add(faults.saturating_mul(2)) {
        return Err(Fail::from("a write takes more than two operations for a fault"));
    }
    if operations > MOST.saturating_mul(writes) {
        return Err(Fail::from("a write is long"));
    }
    if erases > writes {
        return Err(Fail::from("a write erases twice"));
    }
    if flash.refused() > 0 {
        return Err(Fail::from("a word was programmed that isn't blank"));
    }
    Ok(Counts {
        operations,
        erases,
        faults,
    })
}

/// Returns a word of the flash, which has power then.
pub fn word_in(flash: &mut SmallSectorFlash, at: u32) -> Result<u32, Fail>
    requires { at < 81926 }
{
    flash.light();
    let word = flash.read(at)?;
    Ok(word)
}

/// Returns true if the two words at an address are not blank.
fn is_used(flash: &mut SmallSectorFlash, at: u32) -> Result<bool, Fail>
    requires { at + 1 < 81926 }
{
    let first = word_in(flash, at)?;
    let second = word_in(flash, at + 1)?;
    Ok(first != BLANK || second != BLANK)
}

/// Returns whose turn it is.
fn turn_of(flash: &mut SmallSectorFlash) -> Result<u8, Fail> {
    let a = is_used(flash, AREA - 2)?;
    let b = is_used(flash, 2 * AREA - 2)?;
    let c = is_used(flash, 2 * AREA)?;
    Ok(match (a, b, c) {
        (true, false, _) => 1,
        (_, true, false) => 2,
        _ => 0,
    })
}

/// Returns the log of a flash whose power went off and comes back.
pub fn power_cycled(flash: SmallSectorFlash) -> Result<SectorLog<SmallSectorFlash>, Fail>
    ensures { IfOk result (λ l. l.flash.dark ≡ false) }
{
    let mut flash = flash;
    flash.power_off();
    flash.light();
    match SectorLog::open(flash) {
        Ok(log) => Ok(log),
        Err(_) => Err(Fail::from("the flash has no log in step")),
    }
}

/// Returns the board of a flash whose power went off and comes back. It has to find its pages.
pub fn board_of(flash: SmallSectorFlash) -> Result<SectorBoard<SmallSectorFlash>, Fail> {
    let mut board = SectorBoard::new(power_cycled(flash)?);
    board.power_off();
    if board.light().is_err() {
        return Err(Fail::from("the board is worn out"));
    }
    Ok(board)
}

/// Returns a run of three words.
pub fn run_of(word: u32) -> [u32; 3] {
    [word, word.wrapping_mul(0x9E37_79B9), !word]
}

/// Returns the page of a session: all pages in an order of an odd step.
pub fn page_of(k: u32) -> u16
    ensures { result < 1024 }
{
    (k.wrapping_mul(389) % 1024) as u16
}

/// Returns a word, or 0 where there is none.
fn word_at(words: &[u32], at: usize) -> u32 {
    if at < words.len() { words[at] } else { 0 }
}

/// Notes a run.
fn note_run(words: &mut Vec<u32>, at: u16, run: &[u32; 3]) {
    for k in 0..3 {
        let place = usize::from(at) + k;
        if place < words.len() {
            words[place] = run[k];
        }
    }
}

/// Notes the run of the last session as it is read. It has to be new, or old if it wasn't done.
pub fn settle(book: &mut Book, now: [u32; 3]) -> Result<(), Fail> {
    let at = usize::from(book.last.at);
    let mut is_old = !book.last.is_done;
    for k in 0..3 {
        is_old = is_old && word_at(&book.words, at + k) == now[k];
    }
    if !is_old && now != run_of(book.last.word) {
        return Err(Fail::from("a run is neither old nor new"));
    }
    note_run(&mut book.words, book.last.at, &now);
    Ok(())
}

/// Returns a run of a board.
pub fn run_at<B: Board>(board: &mut B, at: u16) -> Result<[u32; 3], Fail>
    requires { at + 3 ≤ 16384 }
{
    Ok([board.read(at)?, board.read(at + 1)?, board.read(at + 2)?])
}

/// Writes a run of a page in a session, by the board of the flash. Returns the flash, the run of the last session, and
/// what the write returned.
fn write_by_board(
    flash: SmallSectorFlash,
    last: u16,
    at: u16,
    run: &[u32; 3],
) -> Result<(SmallSectorFlash, [u32; 3], Result<(), DeviceErr>), Fail>
    requires last { last + 3 ≤ 16384 }
    requires at { (at < 16384) × (at % 16 ≤ 13) }
{
    let mut board = board_of(flash)?;
    let now = run_at(&mut board, last)?;
    let result = board.write(at / 16, (at % 16) as u8, run);
    Ok((board.into_log().into_flash(), now, result))
}

/// Writes a run of a page in a session, by the log of the flash. It returns the same.
fn write_by_log(
    flash: SmallSectorFlash,
    last: u16,
    at: u16,
    run: &[u32; 3],
) -> Result<(SmallSectorFlash, [u32; 3], Result<(), DeviceErr>), Fail>
    requires last { last + 3 ≤ 16384 }
    requires at { (at < 16384) × (at % 16 ≤ 13) }
{
    let mut log = power_cycled(flash)?;
    let now = [log.read(last)?, log.read(last + 1)?, log.read(last + 2)?];
    let result = log.write(at / 16, (at % 16) as u8, run);
    Ok((log.into_flash(), now, result))
}

/// Notes the turn, which goes 0, 1, 2, 0.
pub fn note_turn(flash: &mut SmallSectorFlash, book: &mut Book) -> Result<(), Fail> {
    let turn = turn_of(flash)?;
    if turn == book.turn {
        return Ok(());
    }
    if turn != book.turn.wrapping_add(1) % 3 {
        return Err(Fail::from("the turns are not in order"));
    }
    if turn != 2 {
        book.moves = book.moves.saturating_add(1);
    }
    book.turn = turn;
    Ok(())
}

/// Plays a session, in which an operation may lose power or fail: the run of the last one is read, and one is written.
pub fn play(
    flash: SmallSectorFlash,
    book: &mut Book,
    at: u16,
    word: u32,
    stop: Stop,
    by_board: bool,
) -> Result<SmallSectorFlash, Fail>
    requires at { (at < 16384) × (at % 16 ≤ 13) }
{
    let old = counts_of(&flash);
    let flash = stop.set_on(flash);
    let last = book.last.at.min(16381);
    let run = run_of(word);
    let (flash, now, result) = if by_board {
        write_by_board(flash, last, at, &run)?
    } else {
        write_by_log(flash, last, at, &run)?
    };
    let flash = Stop::none().set_on(flash);
    settle(book, now)?;
    book.counts = counted_since(&flash, old, 1)?;
    note_write(book, result)?;
    book.last = Run {
        at,
        word,
        is_done: result.is_ok(),
    };
    let mut flash = flash;
    note_turn(&mut flash, book)?;
    Ok(flash)
}

/// Notes how a write ended. While no step of a move is due, it returns a Fault only behind as many of the flash. Each
/// step erases a sector.
fn note_write(book: &mut Book, ended: Result<(), DeviceErr>) -> Result<(), Fail> {
    let counts = book.counts;
    book.most = book.most.max(counts.operations);
    if counts.faults == 0 {
        book.longest = book.longest.max(counts.operations);
    }
    match ended {
        Ok(()) => {}
        Err(DeviceErr::PowerLost) => book.losses = book.losses.saturating_add(1),
        Err(DeviceErr::Fault) if counts.faults < TRIES && counts.erases == 0 => {
            return Err(Fail::from("a write failed too early"));
        }
        Err(DeviceErr::Fault) => book.failures = book.failures.saturating_add(1),
    }
    Ok(())
}

/// Writes so many runs in one session, in which no operation loses power or fails.
pub fn fill(
    flash: SmallSectorFlash,
    book: &mut Book,
    first: u32,
    count: u32,
) -> Result<SmallSectorFlash, Fail> {
    let old = counts_of(&flash);
    let mut board = board_of(flash)?;
    let now = run_at(&mut board, book.last.at.min(16381))?;
    settle(book, now)?;
    for k in 0..count {
        let word = first.wrapping_add(k);
        let (page, run) = (page_of(word), run_of(word));
        board.write(page, 2, &run)?;
        note_run(&mut book.words, 16 * page + 2, &run);
        book.last = Run {
            at: 16 * page + 2,
            word,
            is_done: true,
        };
    }
    let mut flash = board.into_log().into_flash();
    counted_since(&flash, old, u64::from(count))?;
    note_turn(&mut flash, book)?;
    Ok(flash)
}

/// Returns true if a board has these words.
fn has_words<B: Board>(board: &mut B, words: &[u32]) -> Result<bool, Fail> {
    for at in 0..16384 {
        if board.read(at)? != word_at(words, usize::from(at)) {
            return Ok(false);
        }
    }
    Ok(true)
}

/// Checks all words.
pub fn check_words(flash: SmallSectorFlash, book: &mut Book) -> Result<SmallSectorFlash, Fail> {
    let mut board = board_of(flash)?;
    let now = run_at(&mut board, book.last.at.min(16381))?;
    settle(book, now)?;
    if !has_words(&mut board, &book.words)? {
        return Err(Fail::from("a word differs"));
    }
    Ok(board.into_log().into_flash())
}

/// Returns a flash with a log whose area in use is nearly full, and what it should hold.
pub fn new_flash(alloc: Global, seed: u64) -> Result<(SmallSectorFlash, Book), Fail> {
    let mut flash = SmallSectorFlash::new(alloc, seed)?;
    format_sectors(&mut flash)?;
    let mut book = Book {
        words: vec![in alloc; 0u32; 16384]?,
        last: Run {
            at: 0,
            word: 0,
            is_done: false,
        },
        counts: Counts {
            operations: 0,
            erases: 0,
            faults: 0,
        },
        turn: 0,
        moves: 0,
        losses: 0,
        failures: 0,
        longest: 0,
        most: 0,
    };
    let flash = fill(flash, &mut book, 0, FIRST)?;
    Ok((flash, book))
}

/// Plays so many sessions of one write by a plan. Behind each move, one session writes much more.
fn play_all(
    alloc: Global,
    seed: u64,
    plan: Plan,
    sessions: u32,
    by_board: bool,
) -> Result<Book, Fail> {
    let (mut flash, mut book) = new_flash(alloc, seed)?;
    for k in 0..sessions {
        let moves = book.moves;
        let stop = plan.stop(k, book.turn);
        let at = 16 * page_of(k / 2) + (k % 14) as u16;
        flash = play(flash, &mut book, at, k, stop, by_board)?;
        if book.moves != moves {
            flash = fill(flash, &mut book, k, BETWEEN)?;
        }
    }
    check_words(flash, &mut book)?;
    Ok(book)
}

/// Plays sessions by a plan and prints what they did. Returns the moves, the power losses and the longest write.
fn played(rt: HostRuntime, plan: Plan, sessions: u32, by_board: bool) -> Result<Book, Fail> {
    let book = play_all(rt.alloc(), u64::from(sessions), plan, sessions, by_board)?;
    println!(rt;
        "moves {} losses {} failures {} longest {} most {}",
        book.moves, book.losses, book.failures, book.longest, book.most
    )?;
    Ok(book)
}

#[test]
fn writes_of_one_a_session_are_short(rt: HostRuntime) -> Result<(), Fail> {
    for by_board in [false, true] {
        let book = played(rt, Plan::Spared, 500, by_board)?;
        assert!(rt; book.moves >= 3 && book.longest <= SPARED);
    }
    Ok(())
}

#[test]
fn each_operation_in_turn_loses_power(rt: HostRuntime) -> Result<(), Fail> {
    for by_board in [false, true] {
        let book = played(rt, Plan::Each, 3000, by_board)?;
        assert!(rt; book.moves >= 3 && book.losses > 1000 && book.longest <= SPARED);
    }
    Ok(())
}

#[test]
fn one_operation_loses_power_for_long(rt: HostRuntime) -> Result<(), Fail> {
    let book = played(rt, Plan::Long, 1600, false)?;
    assert!(rt; book.moves >= 3 && book.losses > 500 && book.longest <= SPARED);
    Ok(())
}

#[test]
fn power_is_lost_200_times_in_a_row(rt: HostRuntime) -> Result<(), Fail> {
    let book = played(rt, Plan::Longest, 2560, true)?;
    assert!(rt; book.moves >= 3 && book.losses > 1000 && book.longest <= SPARED);
    Ok(())
}

#[test]
fn power_is_lost_in_each_record(rt: HostRuntime) -> Result<(), Fail> {
    let book = played(rt, Plan::Record, 500, false)?;
    assert!(rt; book.moves >= 3 && book.losses > 490 && book.longest <= SPARED);
    Ok(())
}

#[test]
fn power_is_lost_in_each_step(rt: HostRuntime) -> Result<(), Fail> {
    for by_board in [false, true] {
        let book = played(rt, Plan::Step, 1500, by_board)?;
        assert!(rt; book.moves >= 3 && book.losses > 500 && book.longest <= SPARED);
    }
    Ok(())
}

#[test]
fn power_is_lost_where_the_turn_passes(rt: HostRuntime) -> Result<(), Fail> {
    let book = played(rt, Plan::Close, 600, false)?;
    assert!(rt; book.moves >= 3 && book.losses > 3 && book.longest <= SPARED);
    Ok(())
}

#[test]
fn each_operation_in_turn_fails(rt: HostRuntime) -> Result<(), Fail> {
    for by_board in [false, true] {
        let book = played(rt, Plan::Fault, 500, by_board)?;
        assert!(rt; book.moves >= 3 && book.longest <= SPARED);
    }
    Ok(())
}

#[test]
fn many_operations_fail(rt: HostRuntime) -> Result<(), Fail> {
    let book = played(rt, Plan::Faults, 700, false)?;
    assert!(rt; book.moves >= 3 && book.longest <= SPARED);
    Ok(())
}

/// Returns true if a slot is blank, or holds a page as it is.
fn is_clean_slot(flash: &mut SmallSectorFlash, at: u32, words: &[u32]) -> Result<bool, Fail>
    requires { at + 20 ≤ 81926 }
{
    let page = word_in(flash, at + 16)?;
    let mut is_blank = true;
    let mut is_page = page < 1024;
    for k in 0..20u32 {
        let word = word_in(flash, at + k)?;
        let wanted = match k {
            16 => page,
            17 => 0,
            18 => FIRST_MARK,
            19 => SECOND_MARK,
            _ => word_at(words, (16 * (page % 1024) + k) as usize),
        };
        is_blank = is_blank && word == BLANK;
        is_page = is_page && word == wanted;
    }
    Ok(is_blank || is_page)
}

/// Returns true if so many words from an address on are blank.
pub fn is_blank(flash: &mut SmallSectorFlash, at: u32, size: u32) -> Result<bool, Fail>
    requires { at + size ≤ 81926 }
{
    for k in 0..size {
        if word_in(flash, at + k)? != BLANK {
            return Ok(false);
        }
    }
    Ok(true)
}

/// Returns true if two words are a mark, or blank.
fn is_mark_or_blank(flash: &mut SmallSectorFlash, at: u32) -> Result<bool, Fail>
    requires { at + 1 < 81926 }
{
    let (first, second) = (word_in(flash, at)?, word_in(flash, at + 1)?);
    Ok(first == BLANK && second == BLANK || first == FIRST_MARK && second == SECOND_MARK)
}

/// Returns true if a flash holds nothing but these pages as they are.
fn holds_only_pages(flash: &mut SmallSectorFlash, words: &[u32]) -> Result<bool, Fail> {
    let (home, other) = if turn_of(flash)? == 0 {
        (0, AREA)
    } else {
        (AREA, 0)
    };
    let mut is_clean = is_blank(flash, other, AREA - 2)?;
    for slot in 0..2048u32 {
        is_clean = is_clean && is_clean_slot(flash, home + 20 * slot, words)?;
    }
    for at in [AREA - 2, 2 * AREA - 2, 2 * AREA] {
        is_clean = is_clean && is_mark_or_blank(flash, at)?;
    }
    Ok(is_clean)
}

/// Returns true if a word of a flash is this one.
fn has_word(flash: &mut SmallSectorFlash, word: u32) -> Result<bool, Fail> {
    for at in 0..ALL {
        if word_in(flash, at)? == word {
            return Ok(true);
        }
    }
    Ok(false)
}

/// Renews a flash in a session. Returns it, and whether the renewal has ended.
fn renew_in(flash: SmallSectorFlash, stop: Stop) -> Result<(SmallSectorFlash, bool), Fail> {
    let old = counts_of(&flash);
    let mut board = board_of(stop.set_on(flash))?;
    let is_done = board.renew().is_ok();
    let flash = Stop::none().set_on(board.into_log().into_flash());
    let faults = flash.faults().saturating_sub(old.faults);
    let operations = flash.operations().saturating_sub(old.operations);
    if operations > RENEWAL.saturating_add(faults.saturating_mul(2)) {
        return Err(Fail::from("a renewal is long"));
    }
    Ok((flash, is_done))
}

/// Renews a flash, by two sessions at most: an operation of the first may lose power or fail. Then only pages are left.
fn renewed(
    flash: SmallSectorFlash,
    book: &mut Book,
    old: u32,
    stop: Stop,
) -> Result<SmallSectorFlash, Fail> {
    let (next, is_done) = renew_in(flash, stop)?;
    let mut flash = next;
    if !is_done {
        book.losses = book.losses.saturating_add(1);
        flash = renewed_again(flash, book)?;
    }
    if has_word(&mut flash, old)? || !holds_only_pages(&mut flash, &book.words)? {
        return Err(Fail::from("more than the pages is left"));
    }
    Ok(flash)
}

/// Renews a flash behind a renewal that hasn't ended.
fn renewed_again(flash: SmallSectorFlash, book: &mut Book) -> Result<SmallSectorFlash, Fail> {
    let flash = check_words(flash, book)?;
    let (flash, is_done) = renew_in(flash, Stop::none())?;
    if !is_done {
        return Err(Fail::from("no renewal ends"));
    }
    Ok(flash)
}

/// Writes until a move has begun, and then a run twice. The old one is in the flash.
fn written_over(
    flash: SmallSectorFlash,
    book: &mut Book,
    count: u32,
    old: u32,
) -> Result<SmallSectorFlash, Fail> {
    let flash = fill(flash, book, count, count)?;
    let erases = flash.erases();
    let flash = play(flash, book, 114, old, Stop::none(), false)?;
    let flash = play(flash, book, 114, old ^ 0x0F0F_0000, Stop::none(), true)?;
    if flash.erases().saturating_sub(erases) < 2 {
        return Err(Fail::from("no move has begun"));
    }
    let mut flash = check_words(flash, book)?;
    if !has_word(&mut flash, old)? {
        return Err(Fail::from("the old word isn't in the flash"));
    }
    Ok(flash)
}

/// Plays three sessions behind a renewal, which are short.
fn play_behind(flash: SmallSectorFlash, book: &mut Book, k: u32) -> Result<SmallSectorFlash, Fail> {
    let mut flash = check_words(flash, book)?;
    book.turn = turn_of(&mut flash)?;
    for n in 0..3 {
        let by_board = n == 1;
        flash = play(flash, book, 16 * page_of(k) + n, k, Stop::none(), by_board)?;
    }
    Ok(flash)
}

#[test]
fn a_renewal_in_a_move_leaves_only_pages(rt: HostRuntime) -> Result<(), Fail> {
    let (mut flash, mut book) = new_flash(rt.alloc(), 11)?;
    for k in 0..96u32 {
        let first = if k == 0 { 30 } else { 945 };
        let old = 0xA5A5_0000 + k;
        let stop = Stop::at(1 + k * 53 % 4600, k % 4 == 3);
        flash = written_over(flash, &mut book, first + k * 7 % 64, old)?;
        flash = renewed(flash, &mut book, old, stop)?;
        flash = play_behind(flash, &mut book, k)?;
    }
    check_words(flash, &mut book)?;
    println!(rt; "renewals that were cut {}", book.losses)?;
    assert!(rt; book.losses > 48);
    Ok(())
}

/// Returns why a log does not take the flash as it is, if so.
fn why_refused(flash: SmallSectorFlash) -> Option<SectorFault> {
    let mut flash = flash;
    flash.light();
    match SectorLog::open(flash) {
        Ok(_) => None,
        Err((_, why)) => Some(why),
    }
}

/// Returns a flash with a log of another kind, behind so many writes.
fn other_log(alloc: Global, writes: u32) -> Result<SmallSectorFlash, Fail> {
    let mut flash = SmallSectorFlash::new(alloc, 9)?;
    format_flash(&mut flash)?;
    let mut board = match FlashLog::open(flash) {
        Ok(log) => FlashBoard::new(log),
        Err(_) => return Err(Fail::from("the flash has no log")),
    };
    for k in 0..writes {
        board.write(page_of(k), 0, &[k])?;
    }
    Ok(board.into_log().into_flash())
}

#[test]
fn a_flash_that_is_not_in_step_is_refused(rt: HostRuntime) -> Result<(), Fail> {
    let blank = SmallSectorFlash::new(rt.alloc(), 9)?;
    assert!(rt; why_refused(blank) == Some(SectorFault::NoLog));
    // The move of the other kind copies the same pages in each step, to slots that lie nearer to the first one.
    for writes in [0, 1900, 1950, 1980, 2020, 2040, 2500] {
        assert!(rt;
            why_refused(other_log(rt.alloc(), writes)?).is_none(),
            "at {writes}"
        );
    }
    // A sector is lost that the move has filled. The area in use has too few slots left to fill it again.
    let (flash, mut book) = new_flash(rt.alloc(), 10)?;
    let mut flash = fill(flash, &mut book, 0, 60)?;
    flash.light();
    flash.erase(80)?;
    assert!(rt; why_refused(flash) == Some(SectorFault::OutOfStep));
    Ok(())
}

/// Returns an operation that loses power or fails, or none.
fn random_stop(random: &mut Random, turn: u8) -> Stop {
    let far = match random.below(4) {
        0 => 2,
        1 => 8,
        2 => 40,
        _ => 200,
    };
    let k = 1 + random.below(far);
    match random.below(8) {
        0 => Stop::none(),
        1 => Stop::in_record(turn, 1 + k % 4),
        2 => Stop::in_step(turn, k),
        3 => Stop::in_close(turn),
        4 => Stop::at(k, true),
        5 => Stop {
            again: 1 + random.below(far),
            ..Stop::at(k, true)
        },
        _ => Stop::at(k, false),
    }
}

/// Writes random runs of the first pages by a board, until one isn't done. Returns how many were begun.
fn write_many<B: Board>(
    board: &mut B,
    book: &mut Book,
    random: &mut Random,
    pages: u32,
) -> Result<u64, Fail>
    requires { (0 < pages) × (pages ≤ 1024) }
{
    let now = run_at(board, book.last.at.min(16381))?;
    settle(book, now)?;
    for k in 0..1 + random.below(12) {
        let (page, word) = (random.below(pages) as u16, random.below(1 << 30));
        let first = random.below(14) as u8;
        let (at, run) = (16 * page + u16::from(first), run_of(word));
        let is_done = board.write(page, first, &run).is_ok();
        book.last = Run { at, word, is_done };
        if !is_done {
            return Ok(u64::from(k) + 1);
        }
        note_run(&mut book.words, at, &run);
    }
    Ok(12)
}

/// Plays a session of up to twelve writes, in which operations lose power or fail.
fn play_many(
    flash: SmallSectorFlash,
    book: &mut Book,
    random: &mut Random,
    pages: u32,
) -> Result<SmallSectorFlash, Fail>
    requires { (0 < pages) × (pages ≤ 1024) }
{
    let old = counts_of(&flash);
    let flash = random_stop(random, book.turn).set_on(flash);
    let mut board = board_of(flash)?;
    let writes = write_many(&mut board, book, random, pages)?;
    let mut flash = Stop::none().set_on(board.into_log().into_flash());
    counted_since(&flash, old, writes)?;
    let turn = turn_of(&mut flash)?;
    book.moves = book
        .moves
        .saturating_add(u32::from(turn != book.turn && turn != 2));
    book.turn = turn;
    Ok(flash)
}

#[test]
fn random_sessions_keep_all_words(rt: HostRuntime) -> Result<(), Fail> {
    for (seed, pages) in [(1, 1024), (2, 512), (3, 40), (4, 1)] {
        let (mut flash, mut book) = new_flash(rt.alloc(), seed)?;
        let mut random = Random(seed);
        for k in 0..600u32 {
            flash = play_many(flash, &mut book, &mut random, pages)?;
            if k % 32 == 0 {
                flash = check_words(flash, &mut book)?;
            }
        }
        check_words(flash, &mut book)?;
        assert!(rt; book.moves >= 3, "at {seed}");
    }
    Ok(())
}
