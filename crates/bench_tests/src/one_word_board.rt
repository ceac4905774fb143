//! A sweep of a board that reports one word for each torn write. Its memories are not those of the writes that it
//! reports.
ghost use Rattle.std.specs.Prelude.{◌≡◌, refl};
ghost use Rattle.simulated_boards.specs.Cut.{cut_facts};
ghost use Rattle.simulated_boards.specs.laws.Counts.{cut_is_board};

use card_boards::factory_board;
use card_sweeps::{SweepPart, Sweepable};
use card_turns::Bench;
use nvm_board::{Armed, Board, DeviceErr, Faultless, Socket, WornOut};
use simulated_boards::CutBoard;
use std::alloc::{AllocError, Global};
use std::process::Abort;
use std::test::Fail;
use sweep_reports::report;

/// A board that reports one word for each torn write, however many words the write has.
#[derive(Drop)]
struct OneWordBoard {
    board: CutBoard,
}

impl Board for OneWordBoard {
    ghost facts = { λ b. cut_facts b.board };

    fn pages(&self) -> u16 {
        self.board.pages()
    }

    fn read(&mut self, at: u16) -> Result<u32, DeviceErr> {
        self.board.read(at)
    }

    fn write(&mut self, page: u16, first: u8, words: &[u32]) -> Result<(), DeviceErr> {
        self.board.write(page, first, words)
    }

    fn compare(&mut self, secret: u8, kept: &[u8; 8], shown: &[u8; 8]) -> Result<bool, DeviceErr> {
        self.board.compare(secret, kept, shown)
    }

    ghost is_board = { λ b. cut_is_board b.board };
}

impl Socket for OneWordBoard {
    fn light(&mut self) -> Result<(), WornOut> {
        self.board.light()
    }

    fn power_off(&mut self) {
        self.board.power_off();
    }
}

impl Armed for OneWordBoard {
    fn arm(&mut self, k: u32, mask: u16) {
        self.board.arm(k, mask);
    }
}

impl Faultless for OneWordBoard {
    ghost faultless = { λ b. record { faults = refl; due = refl } };
}

impl Sweepable for OneWordBoard {
    ghost torn = { λ _. 1 };

    fn copy(&self, alloc: Global) -> Result<OneWordBoard, AllocError> {
        Ok(OneWordBoard {
            board: CutBoard::copy(&self.board, alloc)?,
        })
    }

    fn pending(&self) -> bool {
        CutBoard::pending(&self.board)
    }

    fn torn_words(&self) -> u8 {
        1
    }

    fn words(&self) -> &[u32] {
        CutBoard::words(&self.board)
    }

    ghost masked = { λ b. refl };
}

// The first write has two words. The cut with all of its one reported word new leaves the second one old.
const SCRIPT: &str = "on\napdu 00E000001962178202412183026F018801088002000A8A01058C03030000\n\
    # command\napdu 00D600000401020304\n# probe\napdu 00B000000A\n";

/// The sweep stops before it writes anything, and the exit status is 8.
#[test]
fn sweep_of_a_miscounted_write_stops(rt: HostRuntime) -> Result<(), Fail> {
    let board = OneWordBoard {
        board: factory_board(rt.alloc())?,
    };
    let mut output = Vec::new(rt.alloc());
    let ended = report::<Bench<OneWordBoard>, _, _>(
        rt.alloc(),
        &board,
        SweepPart::whole(),
        &mut SCRIPT.as_bytes(),
        &mut output,
        &rt,
    );
    let status = match ended {
        Ok(()) => 0,
        Err(fault) => fault.status(),
    };
    assert!(rt; status == 8 && output.is_empty(), "status {status}");
    Ok(())
}
