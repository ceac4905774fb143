//! Boards that fail once, at a call or at a write, during a command. The answer is 6581, and recovery gives the state
//! before the command or after it.

use crate::fixtures::formatted;
use card_core::{Answer, Card};
use nvm_board::Socket;
use simulated_boards::FaultBoard;
use std::alloc::Global;
use std::process::Abort;
use std::test::Fail;

// A command and its answer, as hexadecimal digits.
type Exchange = (&'static str, &'static str);

/// A card with power, and its last answer.
#[derive(Drop)]
struct Session {
    card: Card<FaultBoard>,
    answer: Answer,
}

impl Session {
    /// Returns the session after power off and on, if the card boots.
    fn begin(mut board: FaultBoard) -> Option<Session> {
        board.power_off();
        if board.light().is_err() {
            return None;
        }
        let card = Card::start(board).ok()?;
        Some(Session {
            card,
            answer: Answer::new(),
        })
    }

    /// Sends a command. Returns true if the card answers.
    fn sends(&mut self, alloc: Global, command: &str) -> Result<bool, Fail> {
        let command = hex::decode(alloc, command)?;
        Ok(self.card.command(&command, &mut self.answer).is_ok())
    }

    /// Returns true if the last answer is this one.
    fn has_answered(&self, alloc: Global, answer: &str) -> Result<bool, Fail> {
        let answer = hex::decode(alloc, answer)?;
        Ok(self.answer.as_slice() == answer.as_slice())
    }

    /// Returns true if each of these commands gets its answer.
    fn answers_all(&mut self, alloc: Global, exchanges: &[Exchange]) -> Result<bool, Fail> {
        for &(command, answer) in exchanges {
            if !self.sends(alloc, command)? || !self.has_answered(alloc, answer)? {
                return Ok(false);
            }
        }
        Ok(true)
    }
}

// CREATE FILE of a file 6F01 of ten bytes.
const CREATE: Exchange = (
    "00E000001962178202412183026F018801088002000A8A01058C03030000",
    "9000",
);

const SELECT: Exchange = ("00A4000C026F01", "9000");

// The CREATE of a file 6F06 of one byte, of which its rule allows everything, and of a directory 7F10.
const CREATE_OWNED: Exchange = (
    "00E000001B62198202412183026F068800800200018A01058C063B0000000000",
    "9000",
);

const CREATE_DIRECTORY: Exchange = ("00E000001362118202782183027F108A01058C0407000000", "9000");

// VERIFY of another value than that of PIN 1.
const WRONG: &str = "002000010830303030FFFFFFFF";

const OLD_BYTES: &[Exchange] = &[SELECT, ("00B0000004", "FFFFFFFF9000")];

const NEW_BYTES: &[Exchange] = &[SELECT, ("00B0000004", "010203049000")];

// A fault at a write: the commands before it, the write and its mask of new words, the commands from then on, and those
// after the next power-on.
struct FailedWrite {
    before: &'static [Exchange],
    write: u32,
    mask: u16,
    failed: &'static [Exchange],
    after: &'static [Exchange],
}

const FAILED_WRITES: &[FailedWrite] = &[
    // UPDATE BINARY of one word: a pair, the gate, the word, the gate. The gate decides.
    FailedWrite {
        before: &[CREATE],
        write: 3,
        mask: 0x0001,
        failed: FAILED_UPDATE,
        after: OLD_BYTES,
    },
    FailedWrite {
        before: &[CREATE],
        write: 4,
        mask: 0x0000,
        failed: FAILED_UPDATE,
        after: OLD_BYTES,
    },
    FailedWrite {
        before: &[CREATE],
        write: 4,
        mask: 0x0001,
        failed: FAILED_UPDATE,
        after: NEW_BYTES,
    },
    // VERIFY with another value: its one write uses up the try.
    FailedWrite {
        before: &[],
        write: 1,
        mask: 0x0000,
        failed: FAILED_VERIFY,
        after: &[("00200001", "63C3")],
    },
    FailedWrite {
        before: &[],
        write: 1,
        mask: 0x0001,
        failed: FAILED_VERIFY,
        after: &[("00200001", "63C2")],
    },
];

// A command that fails, and another one: neither runs before the next power-on.
const FAILED_UPDATE: &[Exchange] = &[("00D600000401020304", "6581"), ("00B0000004", "6581")];

const FAILED_VERIFY: &[Exchange] = &[(WRONG, "6581"), ("00200001", "6581")];

/// Returns true if a write fails as the row says.
fn fails_so(alloc: Global, board: FaultBoard, row: &FailedWrite) -> Result<bool, Fail> {
    let Some(mut session) = Session::begin(board) else {
        return Ok(false);
    };
    let is_ready = session.answers_all(alloc, row.before)?;
    session.card.arm(row.write.max(1), row.mask);
    let fails = session.answers_all(alloc, row.failed)?;
    Ok(is_ready && fails && finds(alloc, session.card.into_board(), &[row.after])?)
}

#[test]
fn a_failed_write_is_answered_6581(rt: HostRuntime) -> Result<(), Fail> {
    let board = formatted(FaultBoard::on_writes(rt.alloc())?)?;
    for row in FAILED_WRITES {
        assert!(rt;
            fails_so(rt.alloc(), board.copy(rt.alloc())?, row)?,
            "at write {} by {}",
            row.write,
            row.mask
        );
    }
    Ok(())
}

// A command with a failing call: the commands before it, in an earlier session and in its own; the command, and its
// answer without a fault; and the commands after the next power-on, with the answers of each possible card state.
struct FailedCommand {
    made: &'static [Exchange],
    before: &'static [Exchange],
    command: Exchange,
    found: &'static [&'static [Exchange]],
}

const FILES: &[FailedCommand] = &[
    FailedCommand {
        made: &[],
        before: &[],
        command: CREATE,
        found: &[&[("00A4000C026F01", "6A82")], OLD_BYTES],
    },
    FailedCommand {
        made: &[CREATE],
        before: &[],
        command: (
            "00A40004026F0100",
            "62178202412183026F018801088002000A8A01058C030300009000",
        ),
        found: &[OLD_BYTES],
    },
    FailedCommand {
        made: &[CREATE],
        before: &[SELECT],
        command: ("00D600000401020304", "9000"),
        found: &[OLD_BYTES, NEW_BYTES],
    },
    FailedCommand {
        made: &[CREATE],
        before: &[SELECT],
        command: ("00B000000A", "FFFFFFFFFFFFFFFFFFFF9000"),
        found: &[OLD_BYTES],
    },
    FailedCommand {
        made: &[CREATE],
        before: &[],
        command: (
            "00E000001962178202412183026F018801088002000A8A01058C03030000",
            "6A89",
        ),
        found: &[OLD_BYTES],
    },
    FailedCommand {
        made: &[CREATE],
        before: &[],
        command: ("00E40000026F01", "9000"),
        found: &[OLD_BYTES, &[("00A4000C026F01", "6A82")]],
    },
    FailedCommand {
        made: &[],
        before: &[],
        command: ("00E40000022FE2", "9000"),
        found: &[&[("00A4000C022FE2", "9000")], &[("00A4000C022FE2", "6A82")]],
    },
    FailedCommand {
        made: &[CREATE],
        before: &[],
        command: ("00A4000C026F01", "9000"),
        found: &[OLD_BYTES],
    },
    FailedCommand {
        made: &[CREATE],
        before: &[],
        command: (
            "00A40804026F0100",
            "62178202412183026F018801088002000A8A01058C030300009000",
        ),
        found: &[OLD_BYTES],
    },
    FailedCommand {
        made: &[CREATE],
        before: &[],
        command: ("00A4000C027777", "6A82"),
        found: &[OLD_BYTES],
    },
    FailedCommand {
        made: &[CREATE],
        before: &[SELECT],
        command: ("00B0000B01", "6B00"),
        found: &[OLD_BYTES],
    },
    FailedCommand {
        made: &[CREATE_OWNED],
        before: &[("00A4000C026F06", "9000")],
        command: ("00040000", "9000"),
        found: &[&[("00A4000C026F06", "9000")], &[("00A4000C026F06", "6283")]],
    },
    FailedCommand {
        made: &[CREATE_OWNED, ("00040000", "9000")],
        before: &[("00A4000C026F06", "6283")],
        command: ("00440000", "9000"),
        found: &[&[("00A4000C026F06", "6283")], &[("00A4000C026F06", "9000")]],
    },
    FailedCommand {
        made: &[CREATE_OWNED],
        before: &[("00A4000C026F06", "9000")],
        command: ("00E80000", "9000"),
        found: &[&[("00A4000C026F06", "9000")], &[("00A4000C026F06", "6285")]],
    },
    FailedCommand {
        made: &[CREATE_OWNED],
        before: &[],
        command: ("00E40000026F06", "9000"),
        found: &[&[("00A4000C026F06", "9000")], &[("00A4000C026F06", "6A82")]],
    },
    FailedCommand {
        made: &[],
        before: &[("002000080831323334FFFFFFFF", "9000")],
        command: ("00FE0000", "9000"),
        found: &[&[("00A4000C022FE2", "9000")], &[("00A4000C022FE2", "6985")]],
    },
    FailedCommand {
        made: &[CREATE_DIRECTORY, CREATE],
        before: &[],
        command: ("00E40000027F10", "9000"),
        found: &[
            &[("00A4000C027F10", "9000"), ("00A4000C026F01", "9000")],
            &[("00A4000C027F10", "6A82")],
        ],
    },
    FailedCommand {
        made: &[],
        before: &[],
        command: CREATE_DIRECTORY,
        found: &[&[("00A4000C027F10", "6A82")], &[("00A4000C027F10", "9000")]],
    },
];

const PINS: &[FailedCommand] = &[
    FailedCommand {
        made: &[],
        before: &[],
        command: ("00200001", "63C3"),
        found: &[&[("00200001", "63C3")]],
    },
    // VERIFY with another value: a try may be used up. With the value: one may be, or the tries are reset.
    FailedCommand {
        made: &[],
        before: &[],
        command: (WRONG, "63C2"),
        found: &[&[("00200001", "63C3")], &[("00200001", "63C2")]],
    },
    FailedCommand {
        made: &[(WRONG, "63C2")],
        before: &[],
        command: ("002000010831323334FFFFFFFF", "9000"),
        found: &[
            &[("00200001", "63C2")],
            &[("00200001", "63C1")],
            &[("00200001", "63C3")],
        ],
    },
    FailedCommand {
        made: &[(WRONG, "63C2"), (WRONG, "63C1"), (WRONG, "63C0")],
        before: &[],
        command: ("002000010831323334FFFFFFFF", "6983"),
        found: &[&[("00200001", "63C0"), ("002C0001", "63CA")]],
    },
    FailedCommand {
        made: &[(WRONG, "63C2")],
        before: &[],
        command: ("002400011031323334FFFFFFFF35363738FFFFFFFF", "9000"),
        found: &[
            &[("00200001", "63C2"), ("002C0001", "63CA")],
            &[("00200001", "63C1"), ("002C0001", "63CA")],
            &[("00200001", "63C3"), ("002000010835363738FFFFFFFF", "9000")],
        ],
    },
    FailedCommand {
        made: &[],
        before: &[],
        command: ("002400011030303030FFFFFFFF35363738FFFFFFFF", "63C2"),
        found: &[
            &[("00200001", "63C3"), ("002C0001", "63CA")],
            &[("00200001", "63C2"), ("002C0001", "63CA")],
        ],
    },
    FailedCommand {
        made: &[(WRONG, "63C2"), (WRONG, "63C1"), (WRONG, "63C0")],
        before: &[],
        command: ("002C000110313233343536373835363738FFFFFFFF", "9000"),
        found: &[
            &[("00200001", "63C0"), ("002C0001", "63CA")],
            &[("00200001", "63C0"), ("002C0001", "63C9")],
            &[
                ("00200001", "63C3"),
                ("002C0001", "63CA"),
                ("002000010835363738FFFFFFFF", "9000"),
            ],
        ],
    },
    FailedCommand {
        made: &[],
        before: &[],
        command: ("002C000110000000000000000035363738FFFFFFFF", "63C9"),
        found: &[
            &[("00200001", "63C3"), ("002C0001", "63CA")],
            &[("00200001", "63C3"), ("002C0001", "63C9")],
        ],
    },
    FailedCommand {
        made: &[(WRONG, "63C2")],
        before: &[],
        command: ("002600010831323334FFFFFFFF", "9000"),
        found: &[
            &[("00200001", "63C2"), ("002800010831323334FFFFFFFF", "6985")],
            &[("00200001", "63C1"), ("002800010831323334FFFFFFFF", "6985")],
            &[("00200001", "63C3"), ("002000010831323334FFFFFFFF", "6984")],
        ],
    },
    FailedCommand {
        made: &[("002600010831323334FFFFFFFF", "9000")],
        before: &[],
        command: ("002800010831323334FFFFFFFF", "9000"),
        found: &[
            &[("00200001", "63C3"), ("002000010831323334FFFFFFFF", "6984")],
            &[("00200001", "63C2"), ("002000010831323334FFFFFFFF", "6984")],
            &[("00200001", "63C3"), ("002800010831323334FFFFFFFF", "6985")],
        ],
    },
    FailedCommand {
        made: &[("002600010831323334FFFFFFFF", "9000")],
        before: &[],
        command: ("002800010830303030FFFFFFFF", "63C2"),
        found: &[
            &[("00200001", "63C3"), ("002000010831323334FFFFFFFF", "6984")],
            &[("00200001", "63C2"), ("002000010831323334FFFFFFFF", "6984")],
        ],
    },
    FailedCommand {
        made: &[("002600010831323334FFFFFFFF", "9000")],
        before: &[],
        command: ("002000010831323334FFFFFFFF", "6984"),
        found: &[&[("00200001", "63C3"), ("002000010831323334FFFFFFFF", "6984")]],
    },
    FailedCommand {
        made: &[],
        before: &[],
        command: ("002800010831323334FFFFFFFF", "6985"),
        found: &[&[("00200001", "63C3"), ("002C0001", "63CA")]],
    },
];

// CREATE FILE of a cyclic file 6F03 of three records of three bytes, and the command that writes its first record.
const CREATE_CYCLIC: Exchange = (
    "00E000001A621882044621000383026F038800800200098A01058C03030000",
    "9000",
);

const PUT: Exchange = ("00DC000303FFFFFE", "9000");

const SELECT_CYCLIC: Exchange = ("00A4000C026F03", "9000");

const FILLED: &[Exchange] = &[
    SELECT_CYCLIC,
    ("00B2010403", "FFFFFF9000"),
    ("00B2020403", "FFFFFF9000"),
    ("00B2030403", "FFFFFF9000"),
];

const ONE_PUT: &[Exchange] = &[
    SELECT_CYCLIC,
    ("00B2010403", "FFFFFE9000"),
    ("00B2020403", "FFFFFF9000"),
    ("00B2030403", "FFFFFF9000"),
];

const INCREASED: &[Exchange] = &[
    SELECT_CYCLIC,
    ("00B2010403", "FFFFFF9000"),
    ("00B2020403", "FFFFFE9000"),
    ("00B2030403", "FFFFFF9000"),
];

const RECORDS: &[FailedCommand] = &[
    FailedCommand {
        made: &[],
        before: &[],
        command: CREATE_CYCLIC,
        found: &[&[("00A4000C026F03", "6A82")], FILLED],
    },
    FailedCommand {
        made: &[CREATE_CYCLIC],
        before: &[SELECT_CYCLIC],
        command: PUT,
        found: &[FILLED, ONE_PUT],
    },
    FailedCommand {
        made: &[CREATE_CYCLIC, PUT],
        before: &[SELECT_CYCLIC],
        command: ("803200000300000100", "FFFFFF0000019000"),
        found: &[ONE_PUT, INCREASED],
    },
    FailedCommand {
        made: &[CREATE_CYCLIC, PUT],
        before: &[SELECT_CYCLIC],
        command: ("00B2010403", "FFFFFE9000"),
        found: &[ONE_PUT],
    },
    FailedCommand {
        made: &[
            CREATE_CYCLIC,
            PUT,
            ("803200000300000100", "FFFFFF0000019000"),
        ],
        before: &[SELECT_CYCLIC],
        command: ("803200000300000100", "9850"),
        found: &[INCREASED],
    },
    FailedCommand {
        made: &[CREATE_CYCLIC, PUT],
        before: &[SELECT_CYCLIC],
        command: ("00B2000303", "FFFFFF9000"),
        found: &[ONE_PUT],
    },
    FailedCommand {
        made: &[CREATE_CYCLIC, PUT],
        before: &[SELECT_CYCLIC],
        command: ("00B2000203", "FFFFFE9000"),
        found: &[ONE_PUT],
    },
    FailedCommand {
        made: &[CREATE_CYCLIC, PUT],
        before: &[SELECT_CYCLIC],
        command: ("00DC010403000000", "6981"),
        found: &[ONE_PUT],
    },
    FailedCommand {
        made: &[CREATE_CYCLIC, PUT],
        before: &[SELECT_CYCLIC],
        command: ("00A2010401FE00", "019000"),
        found: &[ONE_PUT],
    },
    FailedCommand {
        made: &[CREATE_CYCLIC],
        before: &[SELECT_CYCLIC],
        command: ("00E2000003FFFFFE", "6982"),
        found: &[FILLED],
    },
    FailedCommand {
        made: &[(
            "00E000001C621A8205422100020183026F048800800200068A01058C0407000000",
            "9000",
        )],
        before: &[("00A4000C026F04", "9000")],
        command: ("00E20000024142", "9000"),
        found: &[
            &[
                ("00A4000C026F04", "9000"),
                ("00B2010402", "FFFF9000"),
                ("00B2020402", "6A83"),
            ],
            &[
                ("00A4000C026F04", "9000"),
                ("00B2010402", "FFFF9000"),
                ("00B2020402", "41429000"),
            ],
        ],
    },
    FailedCommand {
        made: &[(
            "00E000001C621A8205422100020183026F048800800200068A01058C0407000000",
            "9000",
        )],
        before: &[("00A4000C026F04", "9000")],
        command: ("00DC0104024142", "9000"),
        found: &[
            &[("00A4000C026F04", "9000"), ("00B2010402", "FFFF9000")],
            &[("00A4000C026F04", "9000"), ("00B2010402", "41429000")],
        ],
    },
];

/// Returns true if recovery gave one of these card states.
fn finds(alloc: Global, board: FaultBoard, found: &[&[Exchange]]) -> Result<bool, Fail> {
    let mut board = board;
    for exchanges in found {
        let Some(mut session) = Session::begin(board) else {
            return Ok(false);
        };
        if session.answers_all(alloc, exchanges)? {
            return Ok(true);
        }
        board = session.card.into_board();
    }
    Ok(false)
}

/// Returns whether a call, or a write, failed in a command.
/// After a fault the answer is 6581 and one of the card states remains. A command that makes fewer calls gets its
/// answer. Returns `None` in any other case.
fn fails_after(
    alloc: Global,
    board: FaultBoard,
    row: &FailedCommand,
    (calls, mask): (u32, u16),
) -> Result<Option<bool>, Fail> {
    let Some(mut session) = Session::begin(board) else {
        return Ok(None);
    };
    let is_ready = session.answers_all(alloc, row.before)?;
    session.card.arm(calls.saturating_add(1), mask);
    let (command, answer) = row.command;
    let is_answered = session.sends(alloc, command)?;
    let fails = !session.card.board().pending();
    let is_right = session.has_answered(alloc, if fails { "6581" } else { answer })?;
    let board = session.card.into_board();
    if !(is_ready && is_answered && is_right) || fails && !finds(alloc, board, row.found)? {
        return Ok(None);
    }
    Ok(Some(fails))
}

/// How many calls, or writes, a command makes, where each fails as it is to.
fn calls_of(
    alloc: Global,
    board: &FaultBoard,
    row: &FailedCommand,
    mask: u16,
) -> Result<Option<u32>, Fail> {
    // CREATE FILE makes some thousands of calls.
    for calls in 0..20_000 {
        match fails_after(alloc, board.copy(alloc)?, row, (calls, mask))? {
            Some(true) => {}
            Some(false) => return Ok(Some(calls)),
            None => return Ok(None),
        }
    }
    Ok(None)
}

/// Returns a board after these commands got their answers, with power off.
fn made(alloc: Global, board: FaultBoard, exchanges: &[Exchange]) -> Result<FaultBoard, Fail> {
    let Some(mut session) = Session::begin(formatted(board)?) else {
        return Err(Fail::from("not made"));
    };
    if !session.answers_all(alloc, exchanges)? {
        return Err(Fail::from("not made"));
    }
    Ok(session.card.into_board())
}

/// Checks a command with a fault at its calls.
/// It makes at least one.
fn check_calls<R: Abort + AllocGlobal>(rt: &R, row: &FailedCommand) -> Result<(), Fail> {
    let board = made(rt.alloc(), FaultBoard::on_calls(rt.alloc())?, row.made)?;
    let calls = calls_of(rt.alloc(), &board, row, 0x0000)?;
    assert!(rt; calls > Some(0), "of {}", row.command.0);
    Ok(())
}

/// Checks a command with a fault at its writes.
/// Their first word is old or new.
fn check_writes<R: Abort + AllocGlobal>(rt: &R, row: &FailedCommand) -> Result<(), Fail> {
    let board = made(rt.alloc(), FaultBoard::on_writes(rt.alloc())?, row.made)?;
    for mask in [0x0000, 0x0001] {
        let writes = calls_of(rt.alloc(), &board, row, mask)?;
        assert!(rt; writes.is_some(), "of {} by {mask}", row.command.0);
    }
    Ok(())
}

fn check_all<R: Abort + AllocGlobal>(rt: &R, rows: &[FailedCommand]) -> Result<(), Fail> {
    for row in rows {
        check_calls(rt, row)?;
        check_writes(rt, row)?;
    }
    Ok(())
}

#[test]
fn files_outlast_a_fault(rt: HostRuntime) -> Result<(), Fail> {
    check_all(&rt, FILES)
}

#[test]
fn pins_outlast_a_fault(rt: HostRuntime) -> Result<(), Fail> {
    check_all(&rt, PINS)
}

#[test]
fn records_outlast_a_fault(rt: HostRuntime) -> Result<(), Fail> {
    check_all(&rt, RECORDS)
}
