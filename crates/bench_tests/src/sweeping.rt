//! Commands that are cut at each of their device writes, with the power-ons after them: the number of runs with each
//! finding.

ghost use Rattle.std.specs.Prelude.{◌≡◌, ◌≤◌, ◌+◌, length, None, IfOk};
ghost use Rattle.simulated_boards.specs.Cut.{cut_facts};

use card_bench::{Item, Turn};
use card_sweeps::{
    MadeWrite, Seen, Sweep, SweepEnd, SweepStop, TurnRuns, made_write, mask_count, masked_cut,
    play_copy, sweep, sweep_behind,
};
use card_tests::fixtures::{formatted, formatted_old};
use card_turns::Bench;
use link_tests::fixtures::framed;
use simulated_boards::CutBoard;
use std::alloc::Global;
use std::process::Abort;
use std::test::Fail;

/// A command to sweep. Commands and answers are hexadecimal digits.
#[derive(Clone, Copy)]
struct Case {
    /// The commands between power-on and the command.
    prepare: &'static [&'static str],
    command: &'static str,
    /// The commands after the uncut power-on.
    probe: &'static [&'static str],
}

impl Case {
    /// Returns a case: a command, and those before and after it.
    fn new(
        prepare: &'static [&'static str],
        command: &'static str,
        probe: &'static [&'static str],
    ) -> Case {
        Case {
            prepare,
            command,
            probe,
        }
    }
}

/// A finding and the number of runs with it.
/// It has the free blocks and entries, and the answers of the probe.
type Given = (u16, u16, &'static [&'static str], u32);

// A file 6F01 of ten bytes; a directory; cyclic and linear files; files with a rule for life cycles.
const FILE: &str = "00E000001962178202412183026F018801088002000A8A01058C03030000";

const DIRECTORY: &str = "00E000001362118202782183027F108A01058C0407000000";

const RING: &str = "00E000001A621882044621000383026F038800800200098A01058C03030000";

const LIST: &str = "00E000001B621982044221000383026F04880120800200098A01058C03030000";

const GROWING: &str = "00E000001C621A8205422100020183026F048800800200068A01058C0407000000";

const OWNED: &str = "00E000001B62198202412183026F068800800200018A01058C063B0000000000";

const ASLEEP: &str = "00E000001B62198202412183026F068800800200018A01048C063B0000000000";

const OWNED_DIRECTORY: &str = "00E0000011620F8202782183027F218A01058C022000";

const SELECT: &str = "00A4000C026F01";

const READ: &str = "00B000000A";

const RECORDS: &[&str] = &["00A4000C026F03", "00B2010403", "00B2020403"];

const STATE: &[&str] = &["00A4000C026F06"];

const WRONG: &str = "002000010830303030FFFFFFFF";

const RIGHT: &str = "002000010831323334FFFFFFFF";

const TRIES: &[&str] = &["00200001"];

const OLD_BYTES: &[&str] = &["9000", "FFFFFFFFFFFFFFFFFFFF9000"];

const ONE_WORD: Case = Case {
    prepare: &[FILE],
    command: "00D600000401020304",
    probe: &[SELECT, READ],
};

const NEW_WORD: &[&str] = &["9000", "01020304FFFFFFFFFFFF9000"];

const TWO_WORDS: Case = Case {
    prepare: &[FILE],
    command: "00D60000080102030405060708",
    probe: &[SELECT, READ],
};

const NEW_WORDS: &[&str] = &["9000", "0102030405060708FFFF9000"];

const ONE_WRONG: Case = Case {
    prepare: &[],
    command: WRONG,
    probe: TRIES,
};

const RIGHT_AT_LAST: Case = Case {
    prepare: &[WRONG, WRONG],
    command: RIGHT,
    probe: TRIES,
};

/// More writes than any of the commands makes.
const MOST_WRITES: u32 = 100;

/// Returns a board with the factory image, and no pending cut.
fn uncut_board(alloc: Global) -> Result<CutBoard, Fail>
    ensures { IfOk result (λ b. (cut_facts b).pending ≡ None) }
{
    let board = formatted(CutBoard::new(alloc)?)?;
    if board.pending() {
        return Err(Fail::from("a cut is to come"));
    }
    Ok(board)
}

/// Returns commands as blocks, with alternating numbers.
fn blocks_of(alloc: Global, commands: &[&str]) -> Result<Vec<Vec<u8>>, Fail> {
    let mut blocks = Vec::new(alloc);
    let mut control = 0x00;
    for command in commands {
        blocks.push(framed(alloc, control, command)?)?;
        control ^= 0x40;
    }
    Ok(blocks)
}

/// Returns the turns for these blocks, after a power-on if `is_on`.
fn turns_of<'a>(alloc: Global, is_on: bool, blocks: &'a [Vec<u8>]) -> Result<Vec<Turn<'a>>, Fail> {
    let mut turns = Vec::new(alloc);
    if is_on {
        turns.push(Turn::On)?;
    }
    for block in blocks {
        turns.push(Turn::Block(block))?;
    }
    Ok(turns)
}

/// Returns the failure of a test whose sweep stops.
fn failure(stop: SweepStop) -> Fail {
    match stop {
        SweepStop::Memory => Fail::from("too little memory"),
        SweepStop::Differs => Fail::from("another memory"),
    }
}

/// Returns true if the replies to a probe contain these answers.
fn replies_so(alloc: Global, trace: &[Item], answers: &[&str]) -> Result<bool, Fail> {
    let wanted = blocks_of(alloc, answers)?;
    for i in 0..trace.len() {
        match (&trace[i], wanted.get(i)) {
            (Item::Reply(reply), Some(block)) if reply.as_slice() == block.as_slice() => {}
            _ => return Ok(false),
        }
    }
    Ok(trace.len() == answers.len())
}

/// Returns true if a finding is this one.
fn is_given(alloc: Global, seen: &Seen, given: &Given) -> Result<bool, Fail> {
    let &(blocks, entries, answers, _) = given;
    let is_free = seen.free.blocks == blocks && seen.free.entries == entries;
    Ok(is_free && replies_so(alloc, &seen.trace, answers)?)
}

/// The runs of a sweep that were counted.
#[derive(Drop)]
struct Tally<'a> {
    alloc: Global,
    /// The findings, in the order of their first run.
    given: &'a [Given],
    /// The number of runs with each finding so far.
    counts: Vec<u32>,
}

impl Tally<'_> {
    /// Returns the place of a finding.
    fn place_of(&self, seen: &Seen) -> Result<Option<usize>, Fail> {
        for place in 0..self.given.len() {
            if is_given(self.alloc, seen, &self.given[place])? {
                return Ok(Some(place));
            }
        }
        Ok(None)
    }

    /// Counts runs with one finding. Returns false if it is another finding than the next new one or an earlier one.
    fn count(&mut self, seen: &Seen) -> Result<bool, Fail> {
        let Some(place) = self.place_of(seen)? else {
            return Ok(false);
        };
        if let Some(count) = self.counts.get_mut(place) {
            *count = count.saturating_add(seen.count);
            return Ok(true);
        }
        self.counts.push(seen.count)?;
        Ok(self.counts.len() > place)
    }

    /// Counts the runs after a cut.
    fn count_all(&mut self, seen: &[Seen]) -> Result<bool, Fail> {
        for it in seen {
            if !self.count(it)? {
                return Ok(false);
            }
        }
        Ok(true)
    }

    /// Returns true if exactly the findings were counted, each as often as it says.
    fn is_whole(&self, runs: u32) -> bool {
        let mut all: u32 = 0;
        for place in 0..self.counts.len() {
            let count = self.counts[place];
            all = all.saturating_add(count);
            match self.given.get(place) {
                Some(given) if given.3 == count => {}
                _ => return false,
            }
        }
        self.counts.len() == self.given.len() && all == runs
    }
}

/// Counts the runs after cuts of one write of the command.
fn count_write(
    runs: &TurnRuns<'_, '_, CutBoard>,
    probe: &[Turn<'_>],
    depth: u8,
    write: u32,
    before: &[u32],
    made: &MadeWrite<CutBoard>,
    tally: &mut Tally<'_>,
) -> Result<bool, Fail>
    requires write { 1 ≤ write }
    requires words { made.now.words ≤ 16 }
    requires inside { made.now.at + made.now.words ≤ length before.now }
{
    for i in 0..mask_count(made.words) {
        let left = match masked_cut::<Bench<CutBoard>>(runs, write, before, made, i) {
            Ok(left) => left,
            Err(stop) => return Err(failure(stop)),
        };
        let found = sweep_behind::<Bench<CutBoard>>(runs.alloc, &left, probe, depth)?;
        if !matches!(found.end, SweepEnd::Whole) || !tally.count_all(&found.seen)? {
            return Ok(false);
        }
    }
    Ok(true)
}

/// Counts the runs after cuts of all writes of the command. Returns false at a finding that is not given.
fn count_writes(
    runs: &TurnRuns<'_, '_, CutBoard>,
    probe: &[Turn<'_>],
    depth: u8,
    tally: &mut Tally<'_>,
) -> Result<bool, Fail> {
    let (_, mut before) = play_copy::<Bench<CutBoard>>(runs.alloc, runs.board, runs.prepare)?;
    for writes in 0..MOST_WRITES {
        let memory = before.words();
        let made = match made_write::<Bench<CutBoard>>(runs, writes + 1, memory) {
            Ok(Some(made)) => made,
            Ok(None) => return Ok(true),
            Err(stop) => return Err(failure(stop)),
        };
        if !count_write(runs, probe, depth, writes + 1, memory, &made, tally)? {
            return Ok(false);
        }
        before = made.after;
    }
    Ok(false)
}

/// Returns true if a sweep has this number of runs, and exactly these findings, in this order.
fn has_given(alloc: Global, sweep: &Sweep, runs: u32, given: &[Given]) -> Result<bool, Fail> {
    for i in 0..sweep.seen.len() {
        let seen = &sweep.seen[i];
        match given.get(i) {
            Some(given) if seen.count == given.3 && is_given(alloc, seen, given)? => {}
            _ => return Ok(false),
        }
    }
    let is_whole = matches!(sweep.end, SweepEnd::Whole);
    Ok(is_whole && sweep.seen.len() == given.len() && sweep.runs == runs)
}

/// Returns true if both `sweep` and the calls that it makes for each cut have this number of runs, and these findings.
fn both_give(
    alloc: Global,
    board: &CutBoard,
    prepare: &[Turn<'_>],
    command: &[u8],
    probe: &[Turn<'_>],
    depth: u8,
    runs: u32,
    given: &[Given],
) -> Result<bool, Fail> {
    let whole = sweep::<Bench<CutBoard>>(alloc, board, prepare, command, probe, depth)?;
    let mut tally = Tally {
        alloc,
        given,
        counts: Vec::new(alloc),
    };
    let of = TurnRuns {
        alloc,
        board,
        prepare,
        turn: Turn::Block(command),
    };
    let is_counted = count_writes(&of, probe, depth, &mut tally)? && tally.is_whole(runs);
    Ok(is_counted && has_given(alloc, &whole, runs, given)?)
}

/// Returns true if a sweep of a command on the factory card has this number of runs, and these findings in this order.
fn gives(alloc: Global, case: &Case, depth: u8, runs: u32, given: &[Given]) -> Result<bool, Fail> {
    let board = uncut_board(alloc)?;
    let before = blocks_of(alloc, case.prepare)?;
    let after = blocks_of(alloc, case.probe)?;
    let control = if before.len() & 1 == 1 { 0x40 } else { 0x00 };
    let command = framed(alloc, control, case.command)?;
    let prepare = turns_of(alloc, true, &before)?;
    let probe = turns_of(alloc, false, &after)?;
    both_give(
        alloc, &board, &prepare, &command, &probe, depth, runs, given,
    )
}

/// Checks the number of runs of a sweep, and its findings.
fn check<R: Abort + AllocGlobal>(
    rt: &R,
    case: &Case,
    depth: u8,
    runs: u32,
    given: &[Given],
) -> Result<(), Fail> {
    assert!(rt;
        gives(rt.alloc(), case, depth, runs, given)?,
        "other runs than {runs}"
    );
    Ok(())
}

/// What a command's sweep gives where no start is cut: of so many runs all but the last find the card before it, and
/// the last one the card after it.
fn check_once<R: Abort + AllocGlobal>(
    rt: &R,
    case: &Case,
    runs: u32,
    before: (u16, u16, &'static [&'static str]),
    after: (u16, u16, &'static [&'static str]),
) -> Result<(), Fail> {
    let old = (before.0, before.1, before.2, runs.saturating_sub(1));
    let new = (after.0, after.1, after.2, 1);
    check(rt, case, 0, runs, &[old, new])
}

/// Returns two findings: old bytes in `old` runs, new in one.
fn old_or_new(old: u32) -> [Given; 2] {
    [(894, 61, OLD_BYTES, old), (894, 61, NEW_WORD, 1)]
}

/// The writes are pairs (two words), gate, word, and gate.
#[test]
fn one_word_is_old_or_new(rt: HostRuntime) -> Result<(), Fail> {
    check(&rt, &ONE_WORD, 0, 10, &old_or_new(9))?;
    check(&rt, &ONE_WORD, 1, 22, &old_or_new(21))?;
    check(&rt, &ONE_WORD, 3, 166, &old_or_new(165))
}

/// The writes are pairs (four words), gate, words (two), and gate.
#[test]
fn two_words_are_old_or_new(rt: HostRuntime) -> Result<(), Fail> {
    check(
        &rt,
        &TWO_WORDS,
        0,
        14,
        &[(894, 61, OLD_BYTES, 13), (894, 61, NEW_WORDS, 1)],
    )
}

#[test]
fn two_words_are_old_or_new_three_deep(rt: HostRuntime) -> Result<(), Fail> {
    check(
        &rt,
        &TWO_WORDS,
        3,
        944,
        &[(894, 61, OLD_BYTES, 943), (894, 61, NEW_WORDS, 1)],
    )
}

/// A wrong value uses up a try, with one write.
#[test]
fn wrong_value_costs_a_try(rt: HostRuntime) -> Result<(), Fail> {
    check(
        &rt,
        &ONE_WRONG,
        3,
        2,
        &[(895, 62, &["63C3"], 1), (895, 62, &["63C2"], 1)],
    )
}

/// A right value also uses up a try.
/// The second write resets the tries.
#[test]
fn right_value_costs_a_try_until_the_last_write(rt: HostRuntime) -> Result<(), Fail> {
    check(
        &rt,
        &RIGHT_AT_LAST,
        3,
        4,
        &[
            (895, 62, &["63C1"], 1),
            (895, 62, &["63C0"], 2),
            (895, 62, &["63C3"], 1),
        ],
    )
}

/// CREATE FILE: the file is there or not.
#[test]
fn file_is_there_or_not(rt: HostRuntime) -> Result<(), Fail> {
    check_once(
        &rt,
        &Case::new(&[], FILE, &[SELECT]),
        72,
        (895, 62, &["6A82"]),
        (894, 61, &["9000"]),
    )
}

/// DELETE FILE of a directory with two files and a directory in it.
#[test]
fn files_are_gone_together(rt: HostRuntime) -> Result<(), Fail> {
    check_once(
        &rt,
        &Case::new(
            &[
                DIRECTORY,
                FILE,
                "00E000001862168202412183026F0588008002003D8A01058C03030000",
                "00E000001362118202782183025F018A01058C0407000000",
                "00A4000C023F00",
            ],
            "00E40000027F10",
            &["00A4000C027F10"],
        ),
        34,
        (892, 58, &["9000"]),
        (895, 62, &["6A82"]),
    )
}

/// A ring has its new record or not, and keeps the order of the others.
#[test]
fn record_is_old_or_new(rt: HostRuntime) -> Result<(), Fail> {
    // UPDATE RECORD of the ring that was filled, and of one with a record before.
    check_once(
        &rt,
        &Case::new(&[RING], "00DC000303FFFFFE", RECORDS),
        18,
        (894, 61, &["9000", "FFFFFF9000", "FFFFFF9000"]),
        (894, 61, &["9000", "FFFFFE9000", "FFFFFF9000"]),
    )?;
    check_once(
        &rt,
        &Case::new(&[RING, "00DC000303000005"], "00DC000303000006", RECORDS),
        18,
        (894, 61, &["9000", "0000059000", "FFFFFF9000"]),
        (894, 61, &["9000", "0000069000", "0000059000"]),
    )?;
    // INCREASE.
    check_once(
        &rt,
        &Case::new(&[RING, "00DC000303FFFFFE"], "803200000300000100", RECORDS),
        18,
        (894, 61, &["9000", "FFFFFE9000", "FFFFFF9000"]),
        (894, 61, &["9000", "FFFFFF9000", "FFFFFE9000"]),
    )?;
    // APPEND RECORD.
    check_once(
        &rt,
        &Case::new(
            &[GROWING],
            "00E20000024142",
            &["00A4000C026F04", "00B2020402"],
        ),
        14,
        (894, 61, &["9000", "6A83"]),
        (894, 61, &["9000", "41429000"]),
    )?;
    // UPDATE RECORD of a list.
    check_once(
        &rt,
        &Case::new(
            &[LIST],
            "00DC022403010203",
            &["00A4000C026F04", "00B2020403"],
        ),
        14,
        (894, 61, &["9000", "FFFFFF9000"]),
        (894, 61, &["9000", "0102039000"]),
    )
}

/// A file is in its new state or not, and so is the card.
#[test]
fn state_is_old_or_new(rt: HostRuntime) -> Result<(), Fail> {
    // ACTIVATE FILE, DEACTIVATE FILE and TERMINATE EF; the latter two of the current file.
    check_once(
        &rt,
        &Case::new(&[ASLEEP], "00440000026F06", STATE),
        10,
        (894, 61, &["6283"]),
        (894, 61, &["9000"]),
    )?;
    check_once(
        &rt,
        &Case::new(&[OWNED], "00040000", STATE),
        10,
        (894, 61, &["9000"]),
        (894, 61, &["6283"]),
    )?;
    check_once(
        &rt,
        &Case::new(&[OWNED], "00E80000", STATE),
        10,
        (894, 61, &["9000"]),
        (894, 61, &["6285"]),
    )?;
    // TERMINATE DF.
    check_once(
        &rt,
        &Case::new(&[OWNED_DIRECTORY], "00E60000027F21", &["00A4000C027F21"]),
        10,
        (895, 61, &["9000"]),
        (895, 61, &["6285"]),
    )?;
    // TERMINATE CARD USAGE.
    check_once(
        &rt,
        &Case::new(
            &["002000080831323334FFFFFFFF"],
            "00FE0000",
            &["00A4000C023F00"],
        ),
        10,
        (895, 62, &["9000"]),
        (895, 62, &["6985"]),
    )
}

/// RESET RETRY COUNTER by a wrong value: a try is gone or not.
#[test]
fn wrong_unblocking_value_costs_a_try(rt: HostRuntime) -> Result<(), Fail> {
    check_once(
        &rt,
        &Case::new(
            &[],
            "002C000110303030303030303035363738FFFFFFFF",
            &["002C0001"],
        ),
        2,
        (895, 62, &["63CA"]),
        (895, 62, &["63C9"]),
    )
}

/// A right value costs a try, until the last write gives all tries back and sets the new value.
#[test]
fn right_value_is_charged_first(rt: HostRuntime) -> Result<(), Fail> {
    // CHANGE REFERENCE DATA.
    check(
        &rt,
        &Case::new(
            &[WRONG],
            "002400011031323334FFFFFFFF35363738FFFFFFFF",
            TRIES,
        ),
        0,
        20,
        &[
            (895, 62, &["63C2"], 1),
            (895, 62, &["63C1"], 18),
            (895, 62, &["63C3"], 1),
        ],
    )?;
    // RESET RETRY COUNTER. The new value is wrong until then.
    check(
        &rt,
        &Case::new(
            &[],
            "002C000110313233343536373835363738FFFFFFFF",
            &["002C0001", "002000010835363738FFFFFFFF"],
        ),
        0,
        22,
        &[
            (895, 62, &["63CA", "63C2"], 1),
            (895, 62, &["63C9", "63C2"], 20),
            (895, 62, &["63CA", "9000"], 1),
        ],
    )
}

/// The power-on of a card of format 1 writes several words at once, and is cut at each write with each mask. Whatever
/// the cut, the next power-on gives the card with all its blocks.
#[test]
fn migration_is_cut_at_each_write(rt: HostRuntime) -> Result<(), Fail> {
    let board = formatted_old(CutBoard::new(rt.alloc())?)?;
    let behind = sweep_behind::<Bench<CutBoard>>(rt.alloc(), &board, &[], 1)?;
    let given: &[Given] = &[(895, 62, &[], 50)];
    assert!(rt;
        has_given(rt.alloc(), &behind, 50, given)?,
        "other runs: {} with {} findings",
        behind.runs,
        behind.seen.len()
    );
    Ok(())
}
