//! The factory image of format 1, memories that boot and others that don't, and boards without power.

use crate::fixtures::{formatted, formatted_old};
use card_core::Card;
use card_start::{StartFault, format};
use nvm_board::{Armed, Board, DeviceErr, Socket};
use simulated_boards::{CutBoard, RamBoard};
use std::alloc::Global;
use std::test::Fail;
use store_tests::fixtures::with_words;

// Words that `format_old` writes on a board of 1,030 pages: the mark, the ignored words of the header and of PIN 1, the
// end of the free chain, and the first word past the blocks.
const OLD: &[(u16, u32)] = &[
    (0, 0x5453_4331),
    (3, 0),
    (1046, 0),
    (16_368, 0),
    (16_464, 0),
];

/// Returns the first of these words that a board doesn't have.
fn other_word(mut board: RamBoard, words: &[(u16, u32)]) -> Option<u16> {
    for &(at, want) in words {
        if at / 16 >= board.pages() || board.read(at) != Ok(want) {
            return Some(at);
        }
    }
    None
}

#[test]
fn formats_the_memory_of_format_1(rt: HostRuntime) -> Result<(), Fail> {
    let board = formatted_old(RamBoard::with_pages(rt.alloc(), 1030)?)?;
    assert!(rt; other_word(board, OLD).is_none());
    Ok(())
}

/// Returns why power-on fails on a board, if it does.
fn fault_of<B: Board + Drop>(board: B) -> Option<StartFault> {
    match Card::start(board) {
        Ok(_) => None,
        Err((_, fault)) => Some(fault),
    }
}

/// Returns why power-on fails on a factory image with these words changed.
fn start_with(alloc: Global, words: &[(u16, u32)]) -> Result<Option<StartFault>, Fail> {
    let board = formatted(RamBoard::new(alloc)?)?;
    Ok(fault_of(with_words(board, words)?))
}

const DAMAGED: Option<StartFault> = Some(StartFault::Damaged);

const BAD_JOURNAL: Option<StartFault> = Some(StartFault::BadJournal);

// Changes of the factory image, and the result of power-on.
const MEMORIES: &[(&[(u16, u32)], Option<StartFault>)] = &[
    // The mark; the file's parent; the tries of PIN 1 and the unblocking tries of PIN 8; the link of the file's block.
    (&[(0, 0x5453_4330)], DAMAGED),
    // The mark of format 1, which ignores the page where the blocks end and the mark of a PIN.
    (&[(0, 0x5453_4331), (3, 7), (1046, 7)], None),
    // The page where the blocks end: before page 1,024, past the board, and none; the mark of a PIN.
    (&[(3, 1023)], DAMAGED),
    (&[(3, 1025)], DAMAGED),
    (&[(3, 0xFFFF_FFFF)], DAMAGED),
    (&[(1046, 2)], DAMAGED),
    // PIN 1 is disabled.
    (&[(1046, 0)], None),
    (&[(1158, 2)], DAMAGED),
    (&[(33, 0x0102_0003)], DAMAGED),
    (&[(1040, 4)], DAMAGED),
    (&[(1153, 11)], DAMAGED),
    (&[(2048, 128)], DAMAGED),
    // The master file's rule lacks a condition; the file has no bytes, or more than its block.
    (&[(19, 0x0100_0000)], DAMAGED),
    (&[(40, 0x0000_0000)], DAMAGED),
    (&[(40, 0x003D_0000)], DAMAGED),
    // An invalid life cycle status.
    (&[(32, 0x0202_2FE2)], DAMAGED),
    // A third file with no other words, in the first free entry and in the last.
    (&[(48, 0x0205_6F01)], DAMAGED),
    (&[(1024, 0x0205_6F01)], DAMAGED),
    // The state of the card: 1 (terminated), and an invalid one.
    (&[(2, 1)], None),
    (&[(2, 2)], DAMAGED),
    // The free chain: none, though blocks are in no file; it ends early; it is a ring; it runs into the file's block.
    (&[(1, 0)], DAMAGED),
    (&[(2064, 0)], DAMAGED),
    (&[(16_368, 129)], DAMAGED),
    (&[(16_368, 128)], DAMAGED),
    // The file's chain runs into the free chain; a block links past the last page, and before the first block.
    (&[(2048, 129)], DAMAGED),
    (&[(2064, 1024)], DAMAGED),
    (&[(2064, 127)], DAMAGED),
    // One pair counts, and removes the mark.
    (&[(1168, 1)], DAMAGED),
    // A pair too many; pairs that name the gate, the end of the journal, and no word.
    (&[(1168, 433)], BAD_JOURNAL),
    (&[(1168, 1), (1184, 1168)], BAD_JOURNAL),
    (&[(1168, 1), (1184, 2047)], BAD_JOURNAL),
    (&[(1168, 1), (1184, 16384)], BAD_JOURNAL),
    // The same pair, which doesn't count; a pair that names the last word.
    (&[(1184, 16384)], None),
    (&[(1168, 1), (1184, 16383)], None),
    // Ignored words: the rest of the header, of the gate, of a free entry, of the file's entry, of a PIN's page.
    (&[(4, 0xFFFF_FFFF), (1169, 0xFFFF_FFFF)], None),
    (&[(49, 0xFFFF_FFFF), (43, 0xFFFF_FFFF)], None),
    (&[(1159, 0xFFFF_FFFF), (36, 0xFFFF_FFFF)], None),
    // The bytes after a rule, the size of the master file.
    (
        &[(19, 0x00FF_FFFF), (34, 0x0311_00FF), (24, 0xFFFF_FFFF)],
        None,
    ),
    // A PIN without tries, and another value of it.
    (&[(1040, 0), (1042, 0x3030_3030)], None),
    // The size and the contents of the file.
    (&[(40, 0x0001_0000)], None),
    (&[(40, 0x003C_0000), (2063, 0)], None),
    // A word was set twice, and power was lost before the commit: the first pair has the original word.
    (
        &[
            (1168, 2),
            (1184, 2049),
            (1185, 0x9810_3254),
            (1186, 2049),
            (1187, 0),
            (2049, 7),
        ],
        None,
    ),
];

#[test]
fn starts_what_stands_for_a_card(rt: HostRuntime) -> Result<(), Fail> {
    for &(words, want) in MEMORIES {
        let fault = start_with(rt.alloc(), words)?;
        assert!(rt; fault == want, "with {words:?}");
    }
    Ok(())
}

/// Returns true if a card boots with power only.
fn starts_by_power(mut board: RamBoard) -> bool {
    board.power_off();
    let Err((mut board, StartFault::PowerLost)) = Card::start(board) else {
        return false;
    };
    board.light().is_ok() && fault_of(board).is_none()
}

/// Returns true if writing a factory image stops at power loss.
fn stops_by_power(mut board: CutBoard) -> bool {
    board.arm(5, 0x0001);
    matches!(format(board), Err((_, DeviceErr::PowerLost)))
}

#[test]
fn stops_without_power(rt: HostRuntime) -> Result<(), Fail> {
    let board = formatted(RamBoard::new(rt.alloc())?)?;
    assert!(rt; starts_by_power(board) && stops_by_power(CutBoard::new(rt.alloc())?));
    Ok(())
}
